//! How the work of a restart is split: how many workers there are, and what each passes before it
//! begins a task.
#![tactic(auto)]

mod gate;
mod plan;

pub use gate::{Gate, Open};
pub use plan::Plan;
