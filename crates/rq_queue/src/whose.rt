//! Whose notes are meant.

ghost use Rattle.std.specs.Prelude.{◌≡◌};
ghost use Rattle.rq_queue.specs.Noted.{is_own};

use crate::kept_note::KeptNote;
use rq_record::{Name, QueueNo, UnitNo};

/// Those of a unit, or those of a registrant.
#[derive(Clone, Copy)]
pub(crate) enum Whose {
    OfUnit(UnitNo),
    OfRegistrant(QueueNo, Name),
}

impl Whose {
    /// Whether the note is one of them.
    pub(crate) fn owns(&self, n: &KeptNote) -> bool
        ensures { result ≡ is_own self.now n.now }
    {
        match self {
            Whose::OfUnit(unit) => n.is_by(*unit),
            Whose::OfRegistrant(queue, name) => n.is_of(*queue, name),
        }
    }
}
