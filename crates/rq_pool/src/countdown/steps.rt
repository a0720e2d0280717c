//! The two steps of an arrival.

ghost use Rattle.std.specs.Prelude.{◌≡◌, ◌≢◌, ℕ, ◌+◌, ◌<◌, ◌≤◌, [], ◌∷◌, ◌++◌, List, length};
ghost use Rattle.std.specs.Prelude.{IsTrue, IsFalse, ◌^◌, map, replicate, Some, None};
ghost use Rattle.rq_pool.specs.Countdowns.Rule.{view, after, lasts};
ghost use Rattle.rq_pool.specs.Countdowns.History.{Fit};
ghost use Rattle.rq_pool.specs.Countdowns.Phases.{indexed};

use crate::countdown::fits::Fits;
use crate::countdown::plays::{Claim, Count, Counts, Terms, View};
use atomic_table::{Seat, Shared};

pub(crate) type Board<T> = Shared<
    Option<T>,
    View<T, <T as Fits>::Key>,
    Terms<<T as Fits>::Key>,
    Counts<T>,
>;

pub(crate) type Chair<T> = Seat<Option<T>, View<T, <T as Fits>::Key>>;

/// Sets the source's flag. If it was clear, the seat has the source's slot.
pub(crate) fn claim<T: Fits>(board: &Board<T>, seat: &mut Chair<T>, source: u32) -> bool
    requires own { (seat.old.table_id ≡ board.now.table_id)
        × (board.now.table_id.words ≡ board.now.table_id.slots + 1)
        × (source < board.now.table_id.slots) }
    requires idle { (seat.old.me.0.at ≡ None) × (0 < seat.old.me.0.parts) }
    ensures own { (seat.new.table_id ≡ seat.old.table_id) × (seat.new.id ≡ seat.old.id) }
    ensures clear { IsTrue result
        → (lasts seat.old.me.0 ≡ 0) × (seat.new.me ≡ (
          view seat.old.me.0.parts seat.old.me.0.key
              (Some source) seat.old.me.0.made seat.old.me.0.refused,
          (source, None) ∷ seat.old.me.1,
        )) }
    ensures set { IsFalse result
        → seat.new.me ≡ (
          view seat.old.me.0.parts seat.old.me.0.key None seat.old.me.0.made
              (seat.old.me.0.refused ++ source ∷ []),
          seat.old.me.1,
        ) }
{
    board.swap::<Claim>(seat, source as usize + 1, 1) == 0
}

/// Puts the outbox into the slot that the seat has, and counts its source. Says whether the source was the last; if it was, the
/// seat has all slots.
pub(crate) fn hand_in<T: Fits>(
    board: &Board<T>,
    seat: &mut Chair<T>,
    source: u32,
    outbox: T,
) -> bool
    requires own { (seat.old.table_id ≡ board.now.table_id)
        × (board.now.table_id.words ≡ board.now.table_id.slots + 1)
        × (source < board.now.table_id.slots) }
    requires key { (seat.old.me.0.key ≡ Some board.now.key.key)
        × T.fits board.now.key.key source outbox }
    requires at { (seat.old.me.0.at ≡ Some source)
        × (0 < seat.old.me.0.parts) × (seat.old.me.1 ≡ (source, None) ∷ []) }
    ensures own { (seat.new.table_id ≡ seat.old.table_id) × (seat.new.id ≡ seat.old.id) }
    ensures other { IsFalse result → seat.new.me ≡ (after seat.old.me.0 source outbox None, []) }
    ensures last { IsTrue result → (lasts seat.old.me.0 ≡ 0) × ((ys : List T)
        × (length ys ≡ board.now.table_id.slots) × Fit (T.fits board.now.key.key) ys
        × (seat.new.me ≡ (after seat.old.me.0 source outbox (Some ys), indexed 0 (map Some ys)))) }
{
    let None = board.exchange(seat, source as usize, Some(outbox)) else {
        unreachable!()
    };
    board.fetch_sub::<Count<T>>(seat, 0, 1) == 1
}
