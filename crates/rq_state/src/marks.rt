//! Tests and changes of one element.

ghost use Rattle.std.specs.Prelude.{◌≡◌, ◌+◌, ◌<◌, ◌^◌, ◌==◌, true, None, IfSome};
ghost use Rattle.rq_model.specs.Machine as machine;
ghost use Rattle.rq_model.specs.Queues as queues;
ghost use Rattle.rq_model.specs.States as model;
ghost use Rattle.rq_state.specs.Views.{mark_of};

use crate::kept_element::KeptElement;
use crate::members::{Definition, Mark};
use rq_record::{ElemId, KeptPayload, QueueNo, UnitNo};

impl KeptElement {
    /// A new element of a unit, with the place of its ENQUEUE as its id.
    pub fn fresh(
        place: u64,
        unit: UnitNo,
        queue: QueueNo,
        priority: u8,
        payload: KeptPayload,
    ) -> KeptElement
        ensures { result ≡ machine.new_element place unit.0 queue.0 priority payload }
    {
        KeptElement {
            id: ElemId(place),
            home: queue,
            origin: queue,
            priority,
            attempts: 0,
            payload,
            mark: Mark::Fresh(unit),
        }
    }

    /// Its id.
    pub fn id(&self) -> ElemId
        ensures { result.0 ≡ self.now.id }
    {
        self.id
    }

    /// Its priority and id, by which a queue is in order.
    pub fn key(&self) -> (u8, u64)
        ensures { result ≡ (self.now.priority, self.now.id) }
    {
        (self.priority, self.id.0)
    }

    /// Whether the unit enqueued it and is open.
    pub fn is_fresh(&self, unit: UnitNo) -> bool
        ensures { result ≡ model.is_fresh unit.0 self.now.mark }
    {
        match self.mark {
            Mark::Fresh(v) => v.0 == unit.0,
            Mark::Free | Mark::Held(_) => false,
        }
    }

    /// Whether the unit dequeued it and is open.
    pub fn is_held(&self, unit: UnitNo) -> bool
        ensures { result ≡ model.is_held unit.0 self.now.mark }
    {
        match self.mark {
            Mark::Held(v) => v.0 == unit.0,
            Mark::Free | Mark::Fresh(_) => false,
        }
    }

    /// The open unit that enqueued or dequeued it; none if it is Free.
    pub fn unit(&self) -> Option<UnitNo>
        ensures free { result ≡ None → model.is_free self.now.mark ≡ true }
        ensures marked { IfSome result (λ unit. queues.is_marked unit.0 self.now.mark ≡ true) }
    {
        match self.mark {
            Mark::Free => None,
            Mark::Fresh(unit) | Mark::Held(unit) => Some(unit),
        }
    }

    /// Whether an ABORT of the unit moves it to the error queue of its home: the unit holds it, and
    /// one attempt more is the home's limit.
    pub fn leaves(&self, home: &Definition, unit: UnitNo) -> bool
        requires { self.now.attempts + 1 < 2 ^ 64 }
        ensures { result ≡ machine.leaves home.now unit.0 self.now }
    {
        self.is_held(unit) && home.limit != 0 && self.attempts + 1 == home.limit as u64
    }

    /// The element as it arrives in the error queue of its home.
    pub fn moved(self, home: &Definition) -> KeptElement
        ensures { result ≡ machine.moved home.now self }
    {
        KeptElement {
            id: self.id,
            home: home.error,
            origin: self.origin,
            priority: self.priority,
            attempts: 0,
            payload: self.payload,
            mark: Mark::Free,
        }
    }

    /// The element as an ABORT of the unit leaves it in its queue: Free with one attempt more, if
    /// the unit holds it.
    pub fn returned(self, unit: UnitNo) -> KeptElement
        requires { self.attempts + 1 < 2 ^ 64 }
        ensures { result ≡ machine.returned unit.0 self }
    {
        if !self.is_held(unit) {
            return self;
        }
        KeptElement {
            id: self.id,
            home: self.home,
            origin: self.origin,
            priority: self.priority,
            attempts: self.attempts + 1,
            payload: self.payload,
            mark: Mark::Free,
        }
    }

    /// The element made Free.
    pub fn unmarked(self) -> KeptElement
        ensures { result ≡ machine.marked model.Free self }
    {
        let mut e = self;
        e.set_mark(Mark::Free);
        e
    }

    /// Gives it another mark.
    pub fn set_mark(&mut self, mark: Mark)
        ensures { self.new ≡ machine.marked (mark_of mark) self.old }
    {
        self.mark = mark;
    }
}
