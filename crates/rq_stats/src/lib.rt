//! Numbers of a log: its records by kind, its units by outcome, and what is greatest in it.
#![tactic(auto)]

mod measures;
mod rows;
mod shown;
mod statistics;

pub use statistics::stats;
