//! The ten kinds of record, and the numbers that they name things by.

ghost use Rattle.std.specs.Prelude.{◌≡◌};

use crate::check_bytes::CheckBytes;
use crate::name::Name;
use crate::payload::Payload;
use std::marker::Model;

/// The number of a queue: how many DEFINE records come before its own.
#[derive(Clone, Copy, PartialEq, Eq, PartialOrd, Ord, Hash, Debug)]
pub struct QueueNo(pub u32);

impl QueueNo {
    /// Stands for no queue: 4,294,967,295, the greatest number of its width.
    pub const NONE: QueueNo = QueueNo(4294967295);
}

/// The number of a unit, given by its BEGIN record.
#[derive(Clone, Copy, PartialEq, Eq, PartialOrd, Ord, Hash, Debug)]
pub struct UnitNo(pub u64);

/// The id of an element: the place of its ENQUEUE record in the log, counted from 0.
#[derive(Clone, Copy, PartialEq, Eq, PartialOrd, Ord, Hash, Debug)]
pub struct ElemId(pub u64);

/// The registrant that an operation names, with the operation's tag.
#[derive(Clone, Copy, Debug)]
pub struct By {
    /// The registrant's name.
    pub name: Name,
    /// What the registrant chose to know this operation by.
    pub tag: u64,
}

impl Model for By {
    ghost use Rattle.std.specs.Prelude.{refl};
    ghost use Rattle.rq_model.specs.Records as model;

    ghost Value = { model.By };

    ghost view = { λ b. record { name = b.name; tag = b.tag } };

    ghost inverse = { λ v. record { name = v.name; tag = v.tag } };

    ghost inverse_ok = { λ b h. refl };
}

impl By {
    /// The same, lent.
    pub(crate) fn lent(&self) -> LentBy<'_>
        ensures { result ≡ self.now }
    {
        LentBy {
            name: self.name.bytes(),
            tag: self.tag,
        }
    }
}

/// A `By` whose name is where its bytes lie.
#[derive(Drop)]
pub(crate) struct LentBy<'a> {
    pub(crate) name: &'a [u8],
    pub(crate) tag: u64,
}

impl<'a> Model for LentBy<'a> {
    ghost use Rattle.std.specs.Prelude.{IsTrue};
    ghost use Rattle.rq_model.specs.Records as model;
    ghost use Rattle.rq_model.specs.Spelling.{is_name};

    ghost Value = { model.By };

    ghost view = { λ b. record { name = b.name.now; tag = b.tag } };

    ghost invariant = { λ b. IsTrue (is_name b.name.now) };
}

/// A record of the log, as a caller makes it and takes it apart.
pub type Record = RecordOf<Name, Option<By>, Payload>;

/// A record of the log; version 1 has all kinds but the last. Whether it is lawful after the
/// records before it is no matter of its form: each number may be any of its width. `N` holds a
/// name, `B` holds who an operation is by, and `P` holds a payload. Those of a `Record` are made
/// without memory; those of a `KeptRecord` take few bytes.
#[derive(Drop)]
pub enum RecordOf<N, B, P> {
    /// Defines the next queue: how many failed attempts an element may have, 0 for no limit, and
    /// the queue that it goes to then.
    Define {
        limit: u16,
        error: QueueNo,
        name: N,
    },
    /// Registers a name with a queue.
    Register {
        queue: QueueNo,
        name: N,
    },
    /// Ends a registration.
    Deregister {
        queue: QueueNo,
        name: N,
    },
    /// Opens a unit.
    Begin {
        unit: UnitNo,
    },
    /// Puts an element into a queue, to be seen when the unit commits. Greater priorities come
    /// first.
    Enqueue {
        priority: u8,
        queue: QueueNo,
        unit: UnitNo,
        by: B,
        payload: P,
    },
    /// Takes the first free element of a queue, if there is one, to be gone when the unit commits.
    Dequeue {
        unit: UnitNo,
        queue: QueueNo,
        by: B,
    },
    /// Ends a unit: what it did is kept.
    Commit {
        unit: UnitNo,
    },
    /// Ends a unit: what it did is undone.
    Abort {
        unit: UnitNo,
    },
    /// Keeps bytes that may spell the state at this place.
    Checkpoint {
        bytes: CheckBytes,
    },
    /// Removes an element from a queue if it is free there, at once and outside units. Only version
    /// 2 has it.
    Kill {
        queue: QueueNo,
        element: ElemId,
    },
}
