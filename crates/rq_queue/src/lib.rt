//! Redo of one queue. Its part of the state, the operations that touch it and what arrives from
//! other queues give two things: its part after the run, and what left it for its error queue.
#![tactic(auto)]

mod draws;
mod elements;
mod fates;
mod kept_last;
mod kept_note;
mod keys;
mod lent;
mod lent_registrant;
mod lists;
mod looks;
mod moves;
mod notes;
mod operations;
mod part;
mod places;
mod poured_members;
mod priorities;
mod queue_redo;
mod registrants;
mod rooms;
mod searches;
mod shelves;
mod whose;

pub use fates::Fate;
pub use lent::{LentElement, LentNote};
pub use lent_registrant::LentRegistrant;
pub use moves::{KeptMove, Move};
pub use operations::{KeptOp, KeptOps, Op};
pub use part::Part;
pub use queue_redo::{redo, redo_kept};
