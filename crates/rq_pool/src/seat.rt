//! A seat of any room.

ghost use Rattle.std.specs.Prelude.{◌≡◌, ◌<◌, [], ◌∷◌, ◌++◌, length, IfSome, IfNone};

use crate::deck::Deck;
use crate::deque::Owner;
use crate::deque_seat::{DequeSeat, Source};
use crate::list_room::ListSeat;
use crate::room::{Body, Room};

/// Its holder takes numbers of its room, in any thread.
#[derive(Drop)]
pub struct Seat {
    pub(crate) place: Place,
}

/// Whether there are other seats.
#[derive(Drop)]
pub(crate) enum Place {
    Alone(ListSeat),
    Beside(DequeSeat),
}

impl Seat {
    ghost use Rattle.rq_pool.specs.Ledger.{times_in, size};
    ghost use Rattle.rq_pool.specs.Rooms.{IsSeatOf, taken_of, deal_of, seats_of};

    /// A dealt number: the next of the seat's own list, or else one of another seat's that a single
    /// steal at each of them in turn finds. None if neither gives one. In a room of several that
    /// does not say that none is left: a steal that must be tried again counts as none. The seat of
    /// a room of one is told None only after it has taken the whole deal. It takes no memory and
    /// waits for nobody.
    pub fn take(&mut self, room: &Room) -> Option<u32>
        requires seat { IsSeatOf room.now self.old }
        ensures seat { IsSeatOf room.now self.new }
        ensures some { IfSome result (λ x. taken_of self.new ≡ taken_of self.old ++ x ∷ []) }
        ensures none { IfNone result (taken_of self.new ≡ taken_of self.old) }
        ensures dealt { IfSome result (λ x. 0 < times_in x (deal_of room.now)) }
        ensures fewer { IfSome result (λ _. length (taken_of self.old) < size (deal_of room.now)) }
        ensures alone { IfNone result
            (seats_of room.now ≡ 1 → deal_of room.now ≡ taken_of self.new ∷ []) }
    {
        match (&room.body, &mut self.place) {
            (Body::Single(room), Place::Alone(seat)) => seat.take(room.list.as_slice()),
            (Body::Several(room), Place::Beside(seat)) => seat.take(room),
            _ => unreachable!(),
        }
    }

    /// What its takes have answered, in order.
    pub fn taken(&self) -> &[u32]
        ensures taken { result.now ≡ taken_of self.now }
    {
        match &self.place {
            Place::Alone(seat) => seat.taken.as_slice(),
            Place::Beside(seat) => seat.taken.as_slice(),
        }
    }
}

impl Seat {
    ghost use Rattle.std.specs.Prelude.{◌≤◌, take};
    ghost use Rattle.rq_pool.specs.Rooms.{IsSeatAlone, taken_of};

    /// What the seat of a plain list has taken.
    pub(crate) fn list_taken(self, list: &[u32]) -> Vec<u32>
        requires seat { IsSeatAlone list.now self }
        ensures taken { result.items ≡ taken_of self }
        ensures front { (result.items ≡ take (length result.items) list.now)
            × (length result.items ≤ length list.now) }
    {
        match self.place {
            Place::Alone(ListSeat { taken }) => taken,
            Place::Beside(_) => unreachable!(),
        }
    }
}

impl Seat {
    ghost use Rattle.std.specs.Prelude.{◌≤◌, map, replicate, slice_get, Some, vec_capacity};
    ghost use Rattle.crossbeam_deque.specs.Handles.{worker_flavor};
    ghost use Rattle.rq_pool.specs.Ledger.{size};
    ghost use Rattle.rq_pool.specs.Decks.{IsWhole, deck_id, list_in, owner_id};
    ghost use Rattle.rq_pool.specs.Holdings.{source_id, stolen};
    ghost use Rattle.rq_pool.specs.Rooms.{IsSeatBeside, IsDequeSeat, taken_of};

    /// A seat with a deque of its own, the one of its number.
    #[tactic(auto, using(crate::proofs::Dealing::begun))]
    pub(crate) fn beside(number: usize, owner: Owner, sources: Vec<Source>, taken: Vec<u32>) -> Seat
        requires fifo { worker_flavor owner ≡ 0 }
        ensures taken { taken_of result ≡ taken.items }
        ensures seat { (ids : _) → slice_get ids number ≡ Some (owner_id owner)
            → map source_id sources.items ≡ ids
            → map stolen sources.items ≡ replicate (length ids) []
            → IsWhole (length ids) owner → taken.items ≡ []
            → size (map list_in ids) ≤ vec_capacity taken → IsSeatBeside ids result }
    {
        Seat {
            place: Place::Beside(DequeSeat {
                number,
                owner,
                sources,
                taken,
            }),
        }
    }

    /// The seat of a room of several.
    pub(crate) fn deque_seat(self, decks: &[Deck]) -> DequeSeat
        requires seat { IsSeatBeside (map deck_id decks.now) self }
        ensures seat { IsDequeSeat (map deck_id decks.now) result }
        ensures taken { result.taken.items ≡ taken_of self }
    {
        match self.place {
            Place::Alone(_) => unreachable!(),
            Place::Beside(seat) => seat,
        }
    }
}
