//! Rooms whose seats take until there is nothing left.
ghost use Rattle.std.specs.Prelude.{◌≡◌, All, IfOk, [], ◌∷◌, map, vec_items, vec_len};
ghost use Rattle.rq_pool.specs.Rooms.{IsSeatOf, seats_of};

use rq_pool::{Left, Room, Seat};
use std::alloc::{AllocError, Global};
use std::thread;
use std::thread::Threads;

/// Two lists.
pub fn two(alloc: Global, first: &[u32], second: &[u32]) -> Result<Vec<Vec<u32>>, AllocError>
    ensures { IfOk result (λ v. map vec_items v.items ≡ first.now ∷ second.now ∷ []) }
{
    let first = Vec::from_slice(alloc, first)?;
    let second = Vec::from_slice(alloc, second)?;
    Ok(Vec::from_array(alloc, [first, second])?)
}

/// Whether two seats took these numbers, and this many are left.
pub fn two_took(left: &Left, first: &[u32], second: &[u32], rest: usize) -> bool {
    let both = left.seats() == 2 && left.taken(0) == first && left.taken(1) == second;
    both && left.left().len() == rest
}

/// Takes until a take gives a number, or else until one gives none. No room here has more than 5,000
/// numbers.
pub fn take_until(room: &Room, seat: &mut Seat, is_found: bool) -> Option<u32>
    requires { IsSeatOf room.now seat.old }
    ensures { IsSeatOf room.now seat.new }
{
    for _ in 0..=5_000 {
        let x = seat.take(room);
        if x.is_some() == is_found {
            return x;
        }
    }
    None
}

/// A thread for each seat takes until there is none.
pub fn drained_by_threads<R: Threads + Sync>(
    rt: &R,
    room: Room,
    seats: Vec<Seat>,
) -> Result<Left, AllocError>
    requires { All (IsSeatOf room) seats.items × (vec_len seats ≡ seats_of room) }
{
    let shared = &room;
    let seats = thread::map_vec(
        rt,
        seats,
        &|seat: Seat| -> Seat
            requires { IsSeatOf shared.now seat }
            ensures { IsSeatOf shared.entry.now result }
        {
            let mut seat = seat;
            let _none = take_until(shared, &mut seat, false);
            seat
        },
    )?;
    Ok(room.close(seats))
}
