//! A registrant of a queue, lent.

ghost use Rattle.std.specs.Prelude.{◌≡◌};
ghost use Rattle.rq_model.specs.StateSpelling.{registrant_bytes};
ghost use Rattle.rq_queue.specs.Roll.{registrant_of};

use crate::kept_last::KeptLast;
use rq_record::{KeptName, QueueNo};
use rq_state::{Spell, put_registrant, registrant_size};
use std::alloc::AllocError;
use std::marker::Model;

/// A registrant of a queue, lent: its name and last operation stand in its part.
#[derive(Drop)]
pub struct LentRegistrant<'a> {
    queue: QueueNo,
    name: &'a KeptName,
    last: &'a KeptLast,
}

impl<'a> Model for LentRegistrant<'a> {
    ghost use Rattle.rq_model.specs.States as model;
    ghost use Rattle.rq_queue.specs.Roll.{registrant_of};

    ghost Value = { model.Registrant };

    ghost view = { λ r. registrant_of r.queue.0 (r.name.now, r.last.now) };
}

impl<'a> LentRegistrant<'a> {
    /// The registrant of the queue with this name and this last operation.
    pub(crate) fn of(queue: QueueNo, name: &'a KeptName, last: &'a KeptLast) -> LentRegistrant<'a>
        ensures { result ≡ registrant_of queue.0 (name.now, last.now) }
    {
        LentRegistrant { queue, name, last }
    }
}

impl<'a> Spell for LentRegistrant<'a> {
    ghost spelling = { registrant_bytes };

    fn put(&self, out: &mut Vec<u8>) -> Result<(), AllocError> {
        put_registrant(out, self.queue, self.name, self.last.lent())
    }

    fn size(&self) -> u32 {
        registrant_size(self.name, self.last.lent())
    }
}
