//! From a script to a log.
#![tactic(auto)]

mod fields;
mod front;
mod log;
mod made_logs;
mod readers;

pub use fields::decimal_number;
pub use made_logs::{make, make_in, one_answer};
pub use readers::{ScriptLine, line_at};
