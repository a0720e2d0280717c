//! A note as a queue keeps it.

ghost use Rattle.std.specs.Prelude.{◌≡◌, ◌==◌, ◌&&◌, IfOk, IfErr};
ghost use Rattle.rq_model.specs.States as model;
ghost use Rattle.rq_model.specs.StateSpelling.{note_bytes};
ghost use Rattle.rq_record.specs.declared.fault.Fault.TheVariants.{Resources};

use rq_record::{Fault, KeptName, Name, QueueNo, UnitNo};
use rq_state::{Compare, Compared, Last, Note, Ordinal, Spell};
use std::alloc::{AllocError, Global};
use std::marker::Model;

/// A note in 8 bytes and 72 of its own; a `Note` takes 120. A unit may make many, and a map whose
/// keys come in order has room for about twice as many as it holds.
#[derive(Drop)]
pub struct KeptNote {
    held: Box<Held>,
}

#[derive(Drop)]
struct Held {
    unit: UnitNo,
    queue: QueueNo,
    name: KeptName,
    last: Last,
}

impl Model for KeptNote {
    ghost Value = { model.Note };

    ghost view = { λ n. record {
      unit = n.held.value.unit.0;
      queue = n.held.value.queue.0;
      name = n.held.value.name;
      last = n.held.value.last;
    } };
}

impl Ordinal for KeptNote {
    ghost ordinal_of = { λ n. n.last.place };

    fn ordinal(&self) -> u64 {
        self.place()
    }
}

impl Compare for KeptNote {
    ghost spelling = { note_bytes };

    fn compare(&self, bytes: &mut Compared<'_>) {
        self.note().compare(bytes);
    }
}

impl Spell for KeptNote {
    ghost spelling = { note_bytes };

    fn put(&self, out: &mut Vec<u8>) -> Result<(), AllocError> {
        self.note().put(out)
    }

    fn size(&self) -> u32 {
        self.note().size()
    }
}

impl KeptNote {
    /// Keeps the note. Refused with Resources.
    pub(crate) fn of(alloc: Global, n: Note) -> Result<KeptNote, Fault>
        ensures kept { IfOk result (λ k. k ≡ n) }
        ensures refused { IfErr result (λ e. e ≡ Resources) }
    {
        let name = KeptName::of(alloc, &n.name)?;
        let held = Held {
            unit: n.unit,
            queue: n.queue,
            name,
            last: n.last,
        };
        Ok(KeptNote {
            held: Box::new(alloc, held)?,
        })
    }

    /// The note itself.
    pub(crate) fn note(&self) -> Note
        ensures { result ≡ self.now }
    {
        Note {
            unit: self.held.unit,
            queue: self.held.queue,
            name: self.held.name.name(),
            last: self.held.last.copied(),
        }
    }

    /// The record number of its operation.
    pub(crate) fn place(&self) -> u64
        ensures { result ≡ self.now.last.place }
    {
        self.held.last.place()
    }

    /// The queue and name of its registrant.
    pub(crate) fn key(&self) -> (u32, Name)
        ensures { result ≡ (self.now.queue, self.now.name) }
    {
        (self.held.queue.0, self.held.name.name())
    }

    /// Whether it is of the registrant.
    pub(crate) fn is_of(&self, queue: QueueNo, name: &Name) -> bool
        ensures { result ≡ model.is_note_of queue.0 name.now self.now }
    {
        self.held.queue.0 == queue.0 && self.held.name.bytes() == name.bytes()
    }

    /// Whether it is of the unit.
    pub(crate) fn is_by(&self, unit: UnitNo) -> bool
        ensures { result ≡ (self.now.unit == unit.0) }
    {
        self.held.unit.0 == unit.0
    }

    /// Whether it is of the unit, and on the queue.
    pub(crate) fn is_by_at(&self, unit: UnitNo, queue: QueueNo) -> bool
        ensures { result ≡ ((self.now.unit == unit.0) && (self.now.queue == queue.0)) }
    {
        self.held.unit.0 == unit.0 && self.held.queue.0 == queue.0
    }

    /// The name of its registrant.
    pub(crate) fn name(&self) -> &KeptName
        ensures { result.now ≡ self.now.name }
    {
        &self.held.name
    }

    /// The operation.
    pub(crate) fn last(&self) -> &Last
        ensures { result.now ≡ self.now.last }
    {
        &self.held.last
    }
}
