//! Each layer on its own, and what no line of the program shows of a log: nothing but tests. The gate
//! runs them and proves none of them: what they stand on is proved.
#![tactic(auto)]

#[cfg(test)]
mod tests;
