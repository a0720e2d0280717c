//! Operations that registrants hear of at a COMMIT.

ghost use Rattle.std.specs.Prelude.{◌≡◌, ◌&&◌, ◌==◌, Some, None};
ghost use Rattle.rq_model.specs.Machine as machine;
ghost use Rattle.rq_model.specs.States as model;

use crate::members::{Last, Note, Registrant};
use rq_record::{Name, QueueNo, UnitNo};

impl Last {
    /// Hears of another operation: it becomes that one if its place is greater.
    pub fn hear(&mut self, other: &Last)
        ensures { Some self.new ≡ machine.later (Some self.old) other.now }
    {
        if self.place < other.place {
            *self = other.copied();
        }
    }
}

impl Note {
    /// The queue and name of its registrant.
    pub fn key(&self) -> (u32, Name)
        ensures { result ≡ (self.now.queue, self.now.name) }
    {
        (self.queue.0, self.name)
    }

    /// Whether it is of the registrant.
    pub fn is_of(&self, queue: QueueNo, name: &Name) -> bool
        ensures { result ≡ model.is_note_of queue.0 name.now self.now }
    {
        self.queue.0 == queue.0 && self.name == *name
    }

    /// Whether it is of the unit.
    pub fn is_by(&self, unit: UnitNo) -> bool
        ensures { result ≡ (self.now.unit == unit.0) }
    {
        self.unit.0 == unit.0
    }

    /// The operation.
    pub fn last(&self) -> &Last
        ensures { result.now ≡ self.now.last }
    {
        &self.last
    }
}

impl Registrant {
    /// Hears of an operation: the last one is the one of greater place; at equal places the one so
    /// far.
    pub fn hear(&mut self, other: &Last)
        ensures { self.new ≡ record self.old { last = machine.later self.old.last other.now } }
    {
        match &mut self.last {
            None => self.last = Some(other.copied()),
            Some(last) => last.hear(other),
        }
    }
}
