//! The engine of the program, over readers and writers.
#![tactic(auto)]

mod commands;
mod door;
mod input;
mod made_logs;
mod words;
mod works;

pub use commands::{Command, act};
pub use door::{run, run_at, through};
pub use made_logs::make_log_in;
pub use rq_report::{Input, Output, OverRead, OverWrite};
pub use rq_restart::{Fault, Gate, Open, Plan, Version};
pub use words::command;
pub use works::Work;
