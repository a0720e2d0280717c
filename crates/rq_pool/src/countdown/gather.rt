//! What the last does with the slots that it took.

ghost use Rattle.std.specs.Prelude.{◌≡◌, ℕ, ◌+◌, ◌<◌, ◌≤◌, List, [], ◌∷◌, ◌++◌, length, map};
ghost use Rattle.std.specs.Prelude.{replicate, Some, None, vec_capacity, vec_len};
ghost use Rattle.atomic_table.specs.Table.{rest};
ghost use Rattle.rq_pool.specs.Countdowns.Phases.{indexed, outboxes_in};

use crate::countdown::fits::Fits;
use crate::countdown::steps::{Board, Chair};

// Takes what is in the slot that the seat took last, and turns to the next.
fn take_one<T: Fits>(board: &Board<T>, seat: &mut Chair<T>, slot: usize) -> T
    requires { (seat.old.table_id ≡ board.now.table_id)
        × ((y : T) × (seat.old.me.1 ≡ (slot, Some y) ∷ rest seat.old.me.1)) }
    ensures own { (seat.new.table_id ≡ seat.old.table_id)
        × (seat.new.id ≡ seat.old.id) × (seat.new.me.0 ≡ seat.old.me.0) }
    ensures slot { (seat.old.me.1 ≡ (slot, Some result) ∷ rest seat.old.me.1)
        × (seat.new.me.1 ≡ rest seat.old.me.1 ++ (slot, None) ∷ []) }
{
    let Some(outbox) = board.exchange(seat, slot, None) else {
        unreachable!()
    };
    seat.turn();
    outbox
}

/// Moves the outboxes out of the slots into `room`, in order.
pub(crate) fn collect_outboxes<T: Fits>(
    board: &Board<T>,
    seat: &mut Chair<T>,
    sources: u32,
    room: &mut Vec<T>,
)
    requires own { seat.old.table_id ≡ board.now.table_id }
    requires slots { (length (outboxes_in seat.old.me.1) ≡ sources)
        × (seat.old.me.1 ≡ indexed 0 (map Some (outboxes_in seat.old.me.1))) }
    requires room { (room.old.items ≡ []) × (sources ≤ vec_capacity room.old) }
    ensures own { (seat.new.table_id ≡ seat.old.table_id) × (seat.new.id ≡ seat.old.id)
        × (seat.new.me ≡ (seat.old.me.0, indexed 0 (replicate sources None))) }
    ensures room { room.new.items ≡ outboxes_in seat.old.me.1 }
{
    for i in 0..sources as usize {
        let outbox = take_one(board, seat, i);
        room.push_reserved(outbox);
    }
}
