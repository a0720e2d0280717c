//! Which records are lawful, what became of each unit, and which records touch each queue.
#![tactic(auto)]

mod analysis;
mod catalogue;
mod grounds;
mod judge;
mod registrants;
mod start;
mod units;

pub use analysis::{Analysis, analyse, analyse_in, analyse_kept, indices};
pub use judge::Judge;
pub use start::{Engaging, engage_by_marks, engage_by_notes};
pub use units::Outcome;
