//! The write side of a log: records are appended behind its front, a checkpoint of the state there
//! is put behind it, it is closed, and the state is carried on in another file; and what a crash can
//! have left behind a front.
#![tactic(auto)]

mod appender;
mod carried_logs;
mod checkpoints;
mod closings;
mod growths;
mod left_behind;
mod opened_logs;

pub use appender::NotTaken;
pub use carried_logs::{Truth, audit_carried, carried, scarce_numbers};
pub use checkpoints::NotMarked;
pub use growths::Growth;
pub use left_behind::Damage;
pub use rq_front::{CARRIED_AT, is_carried, read_as_log};
pub use rq_lawful::Rule;
pub use rq_record::Fault;
pub use rq_restart::{Plan, Why};
