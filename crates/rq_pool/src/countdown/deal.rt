//! How the passes of a countdown are made.

ghost use Rattle.std.specs.Prelude.{◌≡◌, ◌<◌, ◌≤◌, [], All, length, Some, None, IfOk, IfErr};
ghost use Rattle.std.specs.Prelude.{vec_capacity};
ghost use Rattle.rq_record.specs.declared.fault.Fault.TheVariants.{Resources};
ghost use Rattle.rq_pool.specs.Countdowns.Rule.{view};

use crate::countdown::fits::Fits;
use crate::countdown::pass::Pass;
use crate::countdown::plays::Cut;
use crate::countdown::steps::{Board, Chair};
use diary::Diary;
use rq_record::Fault;
use std::alloc::Global;

/// Room for all outboxes, for each pass.
pub(crate) fn rooms<T: Drop>(alloc: Global, sources: u32, passes: u32) -> Result<Vec<Vec<T>>, Fault>
    ensures rooms { IfOk result (λ r. (length r.items ≡ passes)
        × All (λ v. (v.items ≡ []) × (sources ≤ vec_capacity v)) r.items) }
    ensures refused { IfErr result (λ e. e ≡ Resources) }
{
    let mut rooms = Vec::with_capacity(alloc, passes as usize)?;
    for _ in 0..passes {
        rooms.push_reserved(Vec::with_capacity(alloc, sources as usize)?);
    }
    Ok(rooms)
}

/// A seat and a room for each pass.
pub(crate) fn push_seats<T: Fits>(
    board: &Board<T>,
    mut seat: Chair<T>,
    mut rooms: Vec<Vec<T>>,
    list: &mut Vec<Pass<T>>,
)
    requires own { (seat.table_id ≡ board.now.table_id) × (0 < board.now.table_id.words) }
    requires rooms { (0 < length rooms.items)
        × All (λ v. (v.items ≡ []) × (board.now.table_id.slots ≤ vec_capacity v)) rooms.items }
    requires first { seat.me ≡ (view (length rooms.items) (Some board.now.key.key) None [] [], []) }
    requires list { (list.old.items ≡ []) × (length rooms.items ≤ vec_capacity list.old) }
    ensures count { length list.new.items ≡ length rooms.items }
    ensures own { All (λ p. (p.seat.table_id ≡ board.now.table_id)
        × (p.seat.me.0 ≡ view 1 (Some board.now.key.key) None [] [])
        × (p.diary ≡ [])) list.new.items }
{
    let Some(last) = rooms.pop() else {
        unreachable!()
    };
    while let Some(room) = rooms.pop() {
        let other = board.split_seat::<Cut>(&mut seat);
        list.push_reserved(Pass {
            seat: other,
            room: Some(room),
            diary: Diary::blank(),
        });
    }
    rooms.destroy_empty();
    list.push_reserved(Pass {
        seat,
        room: Some(last),
        diary: Diary::blank(),
    });
}
