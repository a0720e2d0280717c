//! What a state is made of.

ghost use Rattle.std.specs.Prelude.{◌≡◌};
ghost use Rattle.rq_model.specs.States as model;

use rq_record::{ElemId, Name, QueueNo, UnitNo};
use std::marker::Model;

/// Who has an element for now.
#[derive(Clone, Copy, PartialEq, Eq, Debug)]
pub enum Mark {
    /// Nobody's: the next dequeue may take it.
    Free,
    /// An open unit put it in; nobody sees it before that unit commits.
    Fresh(UnitNo),
    /// An open unit took it out; it comes back if that unit aborts.
    Held(UnitNo),
}

/// Which of the two operations of a unit on a queue.
#[derive(Clone, Copy, PartialEq, Eq, Debug)]
pub enum OpKind {
    /// It put an element in.
    Enqueue,
    /// It took the first free element, or found none.
    Dequeue,
}

/// What a registrant did: an operation that named it.
#[derive(Drop)]
pub struct Last {
    /// The record number of the operation.
    pub place: u64,
    /// Whether it put an element in or took one out.
    pub kind: OpKind,
    /// The tag that the registrant gave with the operation.
    pub tag: u64,
    /// The element put in, or the one taken; none if a dequeue found nothing.
    pub element: Option<ElemId>,
}

impl Model for Last {
    ghost use Rattle.rq_model.specs.States as model;
    ghost use Rattle.rq_state.specs.Views.{kind_of, id_of};

    ghost Value = { model.Last };

    ghost view = { λ l. record {
      place = l.place;
      kind = kind_of l.kind;
      tag = l.tag;
      element = id_of l.element;
    } };
}

impl Last {
    /// The record number of the operation.
    pub fn place(&self) -> u64
        ensures { result ≡ self.now.place }
    {
        self.place
    }

    /// The same operation again.
    pub fn copied(&self) -> Last
        ensures { result ≡ self.now }
    {
        Last {
            place: self.place,
            kind: self.kind,
            tag: self.tag,
            element: self.element,
        }
    }
}

/// An operation of an open unit that named a registrant: its last one, if the unit commits.
#[derive(Drop)]
pub struct Note {
    /// The open unit that the operation is in.
    pub unit: UnitNo,
    /// The queue that the operation is on.
    pub queue: QueueNo,
    /// The registrant's name.
    pub name: Name,
    /// The operation, to be the registrant's last once the unit commits.
    pub last: Last,
}

impl Model for Note {
    ghost Value = { model.Note };

    ghost view = { λ n. record {
      unit = n.unit.0;
      queue = n.queue.0;
      name = n.name;
      last = n.last;
    } };
}

impl Note {
    /// The record number of its operation.
    pub fn place(&self) -> u64
        ensures { result ≡ self.now.last.place }
    {
        self.last.place()
    }

    /// The unit of its operation.
    pub fn unit(&self) -> UnitNo
        ensures { result.0 ≡ self.now.unit }
    {
        self.unit
    }

    /// The same note again.
    pub fn copied(&self) -> Note
        ensures { result ≡ self.now }
    {
        Note {
            unit: self.unit,
            queue: self.queue,
            name: self.name,
            last: self.last.copied(),
        }
    }
}

/// A queue as it was defined.
#[derive(Drop)]
pub struct Definition {
    /// The number of aborts at which an element leaves the queue, 1 to 1,000; 0 for never.
    pub limit: u16,
    /// Where an element goes at the limit; `QueueNo::NONE` if the limit is 0.
    pub error: QueueNo,
    pub name: Name,
}

impl Model for Definition {
    ghost Value = { model.Definition };

    ghost view = { λ d. record { limit = d.limit; error = d.error.0; name = d.name } };
}

impl Definition {
    /// The most queues that may be defined.
    pub const MOST: usize = 4096;

    /// The greatest limit.
    pub const LIMIT: u16 = 1000;

    /// The same definition again.
    pub fn copied(&self) -> Definition
        ensures { result ≡ self.now }
    {
        Definition {
            limit: self.limit,
            error: self.error,
            name: self.name,
        }
    }
}

/// A registrant of a queue.
#[derive(Drop)]
pub struct Registrant {
    pub queue: QueueNo,
    pub name: Name,
    /// Its last operation in a committed unit, if there is one.
    pub last: Option<Last>,
}

impl Model for Registrant {
    ghost Value = { model.Registrant };

    ghost view = { λ r. record { queue = r.queue.0; name = r.name; last = r.last } };
}
