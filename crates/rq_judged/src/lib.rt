//! The front of a log: its records, read on all workers and judged, up to where it ends, and why it
//! ends there. From the log's start or from a checkpoint on, at once, record by record, or as the bytes
//! come.
#![tactic(auto)]

mod bodies;
mod checkpoint;
mod ends;
mod frames;
mod front;
mod front_pass;
mod growing_front;
mod judged;
mod window;

pub use checkpoint::Begun;
pub use ends::{Edge, FrontEnd, Why};
pub use frames::{before, body_at};
pub use front::Front;
pub use front_pass::grain_of;
pub use growing_front::GrowingFront;
pub use judged::JudgedFront;
