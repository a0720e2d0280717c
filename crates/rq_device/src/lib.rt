//! Where a log is kept: what was written stands in order, and what was synced stays.
#![tactic(auto)]

mod device;
mod fronts;
mod memory;
mod successor;
mod windows;

pub use device::Device;
pub use fronts::keep_front;
pub use memory::{Memory, NewMemory};
pub use successor::{Successor, Unmade};
pub use windows::{WINDOW, settle};
