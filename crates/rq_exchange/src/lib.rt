//! Replay: the state after the records, redone by queue on workers that take from a room. No worker
//! waits for another: whoever is the last to hand in what leaves an error queue's sources redoes
//! that queue next.
#![tactic(auto)]

mod agenda;
mod chain;
mod closings;
mod columns;
mod course;
mod crew;
mod deals;
mod gathered;
mod jobs;
mod links;
mod outboxes;
mod replays;
mod thread_work;

pub use agenda::Agenda;
pub use course::Course;
pub use replays::{front_redone, redo_agenda, redo_analysed, replay, replay_analysed};
