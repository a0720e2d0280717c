//! What a crash left of a log is opened: where a manager goes on, and what a restart finds.
#![tactic(auto)]

mod found_log;
mod openings;
mod reopened;

pub use found_log::FoundLog;
pub use openings::{NotOpened, Opening};
pub use reopened::reopen;
