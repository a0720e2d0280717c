//! The state of the queue manager, queue by queue, which goes along with records in place. One
//! record after the other is judged and done, at the cost of the members that it touches.
#![tactic(auto)]

mod asks;
mod ends;
mod lent_members;
mod machine;
mod open_units;
mod parts;
mod queues;
mod spelled;
mod states;
mod taken;

pub use ends::fates_come_true;
pub use machine::Machine;
pub use taken::Taken;
