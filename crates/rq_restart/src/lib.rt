//! Restart of a recoverable queue manager's log: the front of the log, and the state behind it.
//! Also restarts from checkpoints and their audit, closed and upgraded logs, and many records that go
//! onto a machine at once.
#![tactic(auto)]

mod audits;
mod pieces;
mod redone;
mod restart_ends;
mod restarts;
mod tails;
mod upgrades;

pub use audits::{audit, audit_at, audit_of, every_log_has_audit};
pub use pieces::go_on;
pub use redone::{RedoneFront, front_state};
pub use restart_ends::Restarted;
pub use restarts::{
    restart, restart_at, restart_carried, restart_own, restart_own_at, restart_own_carried,
};
pub use rq_judged::Why;
pub use rq_plan::{Gate, Open, Plan};
pub use rq_record::{Fault, LogBytes, Version};
pub use tails::{Ending, closed, tail};
pub use upgrades::upgrade;
