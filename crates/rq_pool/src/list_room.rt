//! The room of one seat: a plain list, and no atomic step.

ghost use Rattle.std.specs.Prelude.{◌≡◌, ◌≤◌, ◌<◌, ◌+◌, [], ◌∷◌, ◌++◌, length, IfOk, IfSome};
ghost use Rattle.std.specs.Prelude.{IfNone, All, map, vec_len, vec_capacity};

use crate::room::Left;
use crate::seat::{Place, Seat};
use std::alloc::{AllocError, Global};

/// The list, and room for what its seat took.
#[derive(Drop)]
pub(crate) struct ListRoom {
    pub(crate) list: Vec<u32>,
    pub(crate) takens: Vec<Vec<u32>>,
    ghost reserved: { (takens.items ≡ []) × (1 ≤ vec_capacity takens) },
}

/// What the seat has taken, which is the list so far.
#[derive(Drop)]
pub(crate) struct ListSeat {
    pub(crate) taken: Vec<u32>,
}

impl ListSeat {
    ghost use Rattle.rq_pool.specs.Ledger.{times};
    ghost use Rattle.rq_pool.specs.Rooms.{IsListSeat};

    /// The next number of the list.
    pub(crate) fn take(&mut self, list: &[u32]) -> Option<u32>
        requires seat { IsListSeat list.now self.old }
        ensures seat { IsListSeat list.now self.new }
        ensures some { IfSome result (λ x. self.new.taken.items ≡ self.old.taken.items ++ x ∷ []) }
        ensures none { IfNone result (self.new.taken.items ≡ self.old.taken.items) }
        ensures dealt { IfSome result (λ x. 0 < times x list.now) }
        ensures fewer { IfSome result (λ _. length self.old.taken.items < length list.now) }
        ensures alone { IfNone result (self.new.taken.items ≡ list.now) }
    {
        let index = self.taken.len();
        if index < list.len() {
            let x = list[index];
            self.taken.push_reserved(x);
            return Some(x);
        }
        None
    }
}

impl ListRoom {
    ghost use Rattle.rq_pool.specs.Ledger.{Ledger};
    ghost use Rattle.rq_pool.specs.Rooms.{IsSeatAlone, taken_of, left_of, takens_of};

    /// The room of this list, and its one seat.
    pub(crate) fn open(alloc: Global, list: Vec<u32>) -> Result<(ListRoom, Vec<Seat>), AllocError>
        ensures list { IfOk result (λ r. r.0.list.items ≡ list.items) }
        ensures one { IfOk result (λ r. vec_len r.1 ≡ 1) }
        ensures seat { IfOk result (λ r. All (IsSeatAlone list.items) r.1.items) }
        ensures fresh { IfOk result (λ r. All (λ s. taken_of s ≡ []) r.1.items) }
    {
        let mut seats = Vec::with_capacity(alloc, 1)?;
        let takens = Vec::with_capacity(alloc, 1)?;
        let taken = Vec::with_capacity(alloc, list.len())?;
        seats.push_reserved(Seat {
            place: Place::Alone(ListSeat { taken }),
        });
        Ok((ListRoom { list, takens }, seats))
    }

    /// What the seat has taken, and the rest of the list.
    pub(crate) fn close(self, mut seats: Vec<Seat>) -> Left
        requires seats { All (IsSeatAlone self.list.items) seats.items }
        requires one { vec_len seats ≡ 1 }
        ensures takens { takens_of result ≡ map taken_of seats.items }
        ensures ledger { Ledger (self.list.items ∷ []) (takens_of result) (left_of result) }
    {
        let ListRoom { list, mut takens } = self;
        let seat = seats.take_last();
        let taken = seat.list_taken(list.as_slice());
        let from = taken.len();
        takens.push_reserved(taken);
        Left {
            numbers: list,
            from,
            takens,
        }
    }
}
