//! What becomes of an element when the unit that put it in or took it ends.

ghost use Rattle.std.specs.Prelude.{◌≡◌, ◌<◌, ◌+◌, ◌^◌};
ghost use Rattle.rq_queue.specs.Fates as fates;
ghost use Rattle.rq_record.specs.Views.{record_of};

use rq_record::{KeptRecord, QueueNo, UnitNo};
use rq_state::{Definition, KeptElement};

/// What becomes of an element when the unit that put it in or took it ends.
#[derive(Clone, Copy)]
pub enum Fate {
    /// The unit put it in, and it is free in this queue.
    Freed(QueueNo),
    /// The unit took it, and it is gone.
    Gone,
    /// The unit put it in, and that is undone: it is gone.
    Undone,
    /// The unit took it, and it is free in this queue again, given back so often since it came
    /// there.
    Back(QueueNo, u64),
    /// The unit took it, and it is free in this error queue: it was given back too often.
    Moved(QueueNo),
}

// What a COMMIT of the unit makes of the element.
fn at_commit(unit: UnitNo, e: &KeptElement) -> Option<Fate>
    ensures { result ≡ fates.at_commit unit.0 e.now }
{
    if e.is_fresh(unit) {
        return Some(Fate::Freed(e.home()));
    }
    if e.is_held(unit) {
        return Some(Fate::Gone);
    }
    None
}

// What an ABORT of the unit makes of the element, whose queue has this definition.
fn at_abort(home: &Definition, unit: UnitNo, e: &KeptElement) -> Option<Fate>
    requires { e.now.attempts + 1 < 2 ^ 64 }
    ensures { result ≡ fates.at_abort home.now unit.0 e.now }
{
    if e.is_fresh(unit) {
        return Some(Fate::Undone);
    }
    if e.leaves(home, unit) {
        return Some(Fate::Moved(home.error));
    }
    if e.is_held(unit) {
        return Some(Fate::Back(e.home(), e.attempts + 1));
    }
    None
}

impl Fate {
    /// What the record makes of the element, whose queue has this definition; none if it is not the
    /// end of the unit that put the element in or took it.
    pub fn under(what: &KeptRecord, home: &Definition, e: &KeptElement) -> Option<Fate>
        requires { e.now.attempts + 1 < 2 ^ 64 }
        ensures { result ≡ fates.fate_under (record_of what.now) home.now e.now }
    {
        match what {
            KeptRecord::Commit { unit } => at_commit(*unit, e),
            KeptRecord::Abort { unit } => at_abort(home, *unit, e),
            KeptRecord::Define { .. }
            | KeptRecord::Register { .. }
            | KeptRecord::Deregister { .. }
            | KeptRecord::Begin { .. }
            | KeptRecord::Enqueue { .. }
            | KeptRecord::Dequeue { .. }
            | KeptRecord::Kill { .. }
            | KeptRecord::Checkpoint { .. } => None,
        }
    }
}
