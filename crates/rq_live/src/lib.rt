//! A queue manager that appends what it does to a log, and says when it is safe. It does one
//! operation at a time, and starts no thread.
#![tactic(auto)]

mod carries;
mod checkpoints;
mod free_elements;
mod kernel;
mod looks;
mod manager;
mod operations;
mod resumption;

pub use carries::NotCarried;
pub use kernel::{Kernel, NotDone};
pub use looks::Depths;
pub use manager::Manager;
