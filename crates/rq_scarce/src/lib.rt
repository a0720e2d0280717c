//! What calls answer if the host runs out of memory: nothing but tests, proved, since a build that checks
//! itself does not survive such a host.
#![tactic(auto)]

#[cfg(test)]
mod tests;
