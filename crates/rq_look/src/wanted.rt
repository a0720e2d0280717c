//! Which records are wanted, and how.

ghost use Rattle.std.specs.Prelude.{◌≡◌};
ghost use Rattle.rq_look.specs.Entries as entries;
ghost use Rattle.rq_look.specs.Entries.{shown_entry, fits, fits_none};

use crate::shown_records::{ShownRecord, registrant_of, unit_number};
use rq_found::kind_of;
use rq_record::QueueNo;

/// Which records of a front are to be shown, and how. What is none asks for nothing.
#[derive(Clone, Copy)]
pub struct Wanted<'a> {
    /// The offset before which no frame begins.
    pub from: u64,
    /// The unit that the record names.
    pub unit: Option<u64>,
    /// The queue that the record defines or names.
    pub queue: Option<u32>,
    /// The registrant that the record names.
    pub registrant: Option<&'a str>,
    /// The kind of the record, in lower case.
    pub kind: Option<&'a str>,
    /// The most records that are shown.
    pub limit: u64,
    /// Whether payloads are shown whole.
    pub full: bool,
    /// Whether each line is an object of JSON.
    pub json: bool,
    /// Whether the right frames behind the front are shown too.
    pub behind: bool,
}

// Whether what was found is what was asked for, if anything was.
fn is_asked<T: PartialEq + Drop>(asked: Option<T>, found: Option<T>) -> bool
    ensures { result ≡ entries.is_asked T.eq asked found }
{
    asked.is_none() || asked == found
}

impl Wanted<'_> {
    /// Whether the record is all that is asked for.
    pub(crate) fn wants(&self, it: &ShownRecord<'_>) -> bool
        ensures { result ≡ fits self.now (shown_entry it.now) }
    {
        is_asked(self.unit, unit_number(it.record))
            && is_asked(self.queue, it.queue.map(|queue| queue.0))
            && is_asked(self.registrant, registrant_of(it.record))
            && is_asked(self.kind, Some(kind_of(it.record)))
    }

    /// Whether what is no record is wanted: if no record is asked for.
    pub(crate) fn wants_no_record(&self) -> bool
        ensures { result ≡ fits_none self.now }
    {
        self.unit.is_none()
            && self.queue.is_none()
            && self.registrant.is_none()
            && self.kind.is_none()
    }
}
