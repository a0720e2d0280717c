//! The passes of a countdown at its close, in one thread.

ghost use Rattle.std.specs.Prelude.{◌≡◌, ◌<◌, [], All, map, length, slice_index_or, None};
ghost use Rattle.std.specs.Option.{ForSome, ForNone};
ghost use Rattle.rq_pool.specs.Countdowns.Rule.{parts, lasts, all_made, all_refused};
ghost use Rattle.rq_pool.specs.Countdowns.Phases.{total};

use crate::countdown::fits::Fits;
use crate::countdown::pass::Pass;
use crate::countdown::plays::{Glue, Return};
use crate::countdown::steps::{Board, Chair};

/// The pass that was told Last.
pub(crate) fn find_last<T: Fits>(passes: &Vec<Pass<T>>) -> Option<usize>
    ensures some { ForSome result (λ k. (k < length passes.now.items)
        × ((d : _) → lasts (slice_index_or passes.now.items k d).seat.me.0 ≡ 1)) }
    ensures none { ForNone result (All (λ p. lasts p.seat.me.0 ≡ 0) passes.now.items) }
{
    for i in 0..passes.len() {
        if passes[i].room.is_none() {
            return Some(i);
        }
    }
    None
}

// The seat of a pass, which has no slot any more.
fn retire<T: Fits>(board: &Board<T>, pass: Pass<T>) -> Chair<T>
    requires { (pass.seat.table_id ≡ board.now.table_id) × (0 < board.now.table_id.words) }
    ensures { (result.table_id ≡ board.now.table_id) × (result.me ≡ (pass.seat.me.0, [])) }
{
    let Pass {
        mut seat,
        room,
        diary,
    } = pass;
    drop(diary);
    match room {
        Some(room) => room.destroy_empty(),
        None => {
            board.load::<Return>(&mut seat, 0);
        }
    }
    seat
}

/// One seat that has made all that the passes made.
pub(crate) fn join_all<T: Fits>(board: &Board<T>, mut passes: Vec<Pass<T>>) -> Chair<T>
    requires own { All (λ p. p.seat.table_id ≡ board.now.table_id) passes.items
        × (0 < board.now.table_id.words) × (0 < length passes.items) }
    ensures own { (result.table_id ≡ board.now.table_id)
        × (result.me.1 ≡ []) × (result.me.0.at ≡ None) }
    ensures parts { result.me.0.parts ≡ total parts (map (λ p. p.seat.me.0) passes.items) }
    ensures history { (result.me.0.made ≡ all_made (map (λ p. p.seat.me.0) passes.items))
        × (result.me.0.refused ≡ all_refused (map (λ p. p.seat.me.0) passes.items)) }
{
    let Some(first) = passes.pop() else {
        unreachable!()
    };
    let mut seat = retire(board, first);
    while let Some(pass) = passes.pop() {
        let other = retire(board, pass);
        board.join_seat::<Glue>(&mut seat, other);
    }
    passes.destroy_empty();
    seat
}
