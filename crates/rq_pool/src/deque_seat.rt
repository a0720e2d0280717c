//! A seat of a room of several, and each deque of the room as it sees it.

ghost use Rattle.std.specs.Prelude.{◌≡◌, ℕ, ◌≤◌, ◌<◌, ◌+◌, [], ◌∷◌, ◌++◌, length, IfSome, IfNone};
ghost use Rattle.std.specs.Prelude.{map, sum_by};
ghost use Rattle.crossbeam_deque.specs.Handles.{worker_deque, worker_flavor, worker_view};
ghost use Rattle.crossbeam_deque.specs.Handles.{view, IsPassOf, stealer_deque};

use crate::deck::Deck;
use crate::deque::{DequePass, Owner, Steals, Thief, pop};
use crate::deque_room::DequeRoom;
use crossbeam_deque::Steal;

/// A stealer of a deque, and the seat's pass for it.
#[derive(Drop)]
pub(crate) struct Source {
    pub(crate) thief: Thief,
    pub(crate) pass: DequePass,
    ghost own: { IsPassOf (stealer_deque thief) pass },
    ghost part: { (view pass).parts ≡ 1 },
}

impl Source {
    ghost use Rattle.rq_pool.specs.Holdings.{source_id, stolen};

    /// One steal. One that must be tried again counts as none.
    pub(crate) fn steal(&mut self) -> Option<u32>
        ensures same { source_id self.new ≡ source_id self.old }
        ensures some { IfSome result (λ x. (stolen self.new ≡ stolen self.old ++ x ∷ [])
            × ((h : ℕ → ℕ) → sum_by h (stolen self.new) ≤ sum_by h (view self.old.pass).dealt)) }
        ensures none { IfNone result (stolen self.new ≡ stolen self.old) }
    {
        match self.thief.steal_as::<Steals>(&mut self.pass) {
            Steal::Success(x) => Some(x),
            Steal::Empty => None,
            Steal::Retry => None,
        }
    }
}

/// The seat's own deque, a source for each deque of the room, and what the seat has taken.
#[derive(Drop)]
pub(crate) struct DequeSeat {
    pub(crate) number: usize,
    pub(crate) owner: Owner,
    pub(crate) sources: Vec<Source>,
    pub(crate) taken: Vec<u32>,
    ghost fifo: { worker_flavor owner ≡ 0 },
}

impl DequeSeat {
    ghost use Rattle.rq_pool.specs.Ledger.{times_in, size};
    ghost use Rattle.rq_pool.specs.Rooms.{IsDequeSeat, HasTaken, ids_of, lists_of};
    ghost use Rattle.rq_pool.specs.Holdings.{source_id};

    /// A number of its own deque, or else one that it steals.
    pub(crate) fn take(&mut self, room: &DequeRoom) -> Option<u32>
        requires seat { IsDequeSeat (ids_of room.now) self.old }
        ensures seat { IsDequeSeat (ids_of room.now) self.new }
        ensures some { IfSome result (λ x. self.new.taken.items ≡ self.old.taken.items ++ x ∷ []) }
        ensures none { IfNone result (self.new.taken.items ≡ self.old.taken.items) }
        ensures dealt { IfSome result (λ x. 0 < times_in x (lists_of room.now)) }
        ensures fewer { IfSome result
            (λ _. length self.old.taken.items < size (lists_of room.now)) }
    {
        let Some(x) = self.next(room) else {
            return None;
        };
        self.taken.push_reserved(x);
        Some(x)
    }

    // The next number, before it is written down.
    fn next(&mut self, room: &DequeRoom) -> Option<u32>
        requires seat { IsDequeSeat (ids_of room.now) self.old }
        ensures same { (self.new.taken ≡ self.old.taken) × (self.new.number ≡ self.old.number) }
        ensures own { (worker_deque self.new.owner ≡ worker_deque self.old.owner)
            × ((worker_view self.new.owner).dealt ≡ (worker_view self.old.owner).dealt) }
        ensures sources { map source_id self.new.sources.items
            ≡ map source_id self.old.sources.items }
        ensures some { IfSome result
            (λ x. HasTaken (ids_of room.now) self.new (self.old.taken.items ++ x ∷ [])) }
        ensures none { IfNone result (HasTaken (ids_of room.now) self.new self.old.taken.items) }
    {
        if let Some(x) = pop(&mut self.owner) {
            return Some(x);
        }
        self.steal(room)
    }

    // One steal at each other seat in turn.
    #[tactic(auto, using(crate::proofs::Lists::same_after))]
    fn steal(&mut self, room: &DequeRoom) -> Option<u32>
        requires sources { map source_id self.old.sources.items ≡ ids_of room.now }
        requires holds { HasTaken (ids_of room.now) self.old self.old.taken.items }
        ensures same { (self.new.taken ≡ self.old.taken)
            × (self.new.number ≡ self.old.number) × (self.new.owner ≡ self.old.owner) }
        ensures sources { map source_id self.new.sources.items
            ≡ map source_id self.old.sources.items }
        ensures some { IfSome result
            (λ x. HasTaken (ids_of room.now) self.new (self.old.taken.items ++ x ∷ [])) }
        ensures none { IfNone result (HasTaken (ids_of room.now) self.new self.old.taken.items) }
    {
        for j in 0..self.sources.len() {
            if j == self.number {
                continue;
            }
            if let Some(x) = self.sources[j].steal() {
                return Some(x);
            }
        }
        None
    }
}

impl DequeSeat {
    ghost use Rattle.std.specs.Prelude.{All};
    ghost use Rattle.rq_pool.specs.Rooms.{IsDequeSeat};
    ghost use Rattle.rq_pool.specs.Decks.{IsOpen, deck_id, filled, taken_weight};

    /// Hands its deque and its passes in, and answers what it took. Of n seats, m did so before.
    pub(crate) fn hand_in(self, decks: &mut [Deck], n: usize, m: usize) -> Vec<u32>
        requires few { (n ≤ 64) × (m < n) }
        requires seat { IsDequeSeat (map deck_id decks.old) self }
        requires decks { All (IsOpen n m) decks.old × (length decks.old ≡ n) }
        ensures taken { result ≡ self.taken }
        ensures same { map deck_id decks.new ≡ map deck_id decks.old }
        ensures decks { All (IsOpen n (m + 1)) decks.new }
        ensures filled { sum_by filled decks.new ≡ sum_by filled decks.old + 1 }
        ensures weight { (h : ℕ → ℕ) → sum_by (taken_weight h) decks.new
            ≡ sum_by (taken_weight h) decks.old + sum_by h self.taken.items }
    {
        let DequeSeat {
            number,
            owner,
            sources,
            taken,
        } = self;
        Deck::lay_all(decks, sources, n, m);
        Deck::seat_at(decks, number, owner, n, m + 1);
        taken
    }
}
