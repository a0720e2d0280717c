//! The rules of the machine.

use rq_record::{Name, QueueNo, UnitNo};
use rq_state::Definition;
use std::fmt;

/// A rule that a record breaks.
#[derive(Clone, Copy, PartialEq, Eq, Debug)]
pub enum Rule {
    /// The unit is not open.
    NotOpen(UnitNo),
    /// No queue has the number.
    NotDefined(QueueNo),
    /// The name is not registered with the queue.
    NotRegistered(QueueNo, Name),
    /// The unit is not above the greatest that began.
    NotAbove(UnitNo, u64),
    /// A queue has the name.
    Taken(Name),
    /// There are as many queues as there may be.
    Full,
    /// A queue without a limit names an error queue.
    NoLimit(QueueNo),
    /// A queue with this limit names no error queue.
    NoErrorQueue(u16),
    /// The limit is above the greatest.
    Above(u16),
    /// The error queue has an error queue, in version 1.
    Nested(QueueNo),
    /// Version 1 has no KILL.
    NoKill,
}

impl fmt::Display for Rule {
    fn fmt<W: fmt::Write>(&self, f: &mut fmt::Formatter<W>) -> fmt::Result {
        match self {
            Rule::NotOpen(unit) => write!(f, "unit {} is not open", unit.0),
            Rule::NotDefined(queue) => write!(f, "queue {} is not defined", queue.0),
            Rule::NotRegistered(queue, name) => {
                write!(
                    f,
                    "{} is not registered with queue {}",
                    name.text(),
                    queue.0
                )
            }
            Rule::NotAbove(unit, greatest) => {
                write!(
                    f,
                    "unit {} is not above unit {greatest}, the greatest so far",
                    unit.0
                )
            }
            Rule::Taken(name) => write!(f, "a queue is named {} already", name.text()),
            Rule::Full => write!(f, "{} queues are defined already", Definition::MOST),
            Rule::NoLimit(error) => write!(
                f,
                "limit 0 goes with no error queue, and {} is named",
                error.0
            ),
            Rule::NoErrorQueue(limit) => {
                write!(
                    f,
                    "limit {limit} goes with an error queue, and none is named"
                )
            }
            Rule::Above(limit) => write!(f, "limit {limit} is above {}", Definition::LIMIT),
            Rule::Nested(error) => write!(f, "error queue {} has an error queue", error.0),
            Rule::NoKill => write!(f, "version 1 has no kill"),
        }
    }
}
