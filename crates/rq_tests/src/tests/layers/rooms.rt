//! Rooms by known numbers, with one thread and with four, and plans at the ends of their ranges.
ghost use Rattle.std.specs.Prelude.{◌≡◌, ◌≤◌, IfOk, [], ◌∷◌, length, map, vec_items, vec_len};
ghost use Rattle.rq_pool.specs.Ledger.{size};

use rq_pool::{Gate, Left, Open, Plan, Room};
use rq_record::Fault;
use rq_rows::{drained_by_threads, take_until, two, two_took};
use std::alloc::{AllocError, Global};
use std::test::Fail;
use std::thread::Threads;

// One list.
fn one(alloc: Global, list: &[u32]) -> Result<Vec<Vec<u32>>, AllocError>
    ensures { IfOk result (λ v. map vec_items v.items ≡ list.now ∷ []) }
{
    let list = Vec::from_slice(alloc, list)?;
    Ok(Vec::from_array(alloc, [list])?)
}

// Whether one seat took these numbers, and these are left.
fn one_took(left: &Left, taken: &[u32], rest: &[u32]) -> bool {
    left.seats() == 1 && left.taken(0) == taken && left.left() == rest
}

// Whether a seat alone takes the first number of its list, and leaves the other.
fn takes_one(alloc: Global) -> Result<bool, Fault> {
    let (room, mut seats) = Room::open(alloc, one(alloc, &[5, 5])?)?;
    let x = seats[0].take(&room);
    let taken = seats[0].taken() == [5u32].as_slice();
    let left = room.close(seats);
    Ok(x == Some(5) && taken && one_took(&left, &[5], &[5]))
}

// Whether a seat alone takes both numbers of its list, and then none.
fn takes_all(alloc: Global) -> Result<bool, Fault> {
    let (room, mut seats) = Room::open(alloc, one(alloc, &[5, 5])?)?;
    let first = seats[0].take(&room);
    let second = seats[0].take(&room);
    let third = seats[0].take(&room);
    let left = room.close(seats);
    let both = first == Some(5) && second == Some(5);
    Ok(both && third.is_none() && one_took(&left, &[5, 5], &[]))
}

// Whether each of two seats takes none if no list has a number.
fn takes_none(alloc: Global) -> Result<bool, Fault> {
    let (room, mut seats) = Room::open(alloc, two(alloc, &[], &[])?)?;
    let x = seats[0].take(&room);
    let y = seats[1].take(&room);
    let left = room.close(seats);
    Ok(x.is_none() && y.is_none() && two_took(&left, &[], &[], 0))
}

// Whether a seat without a list takes one of the other's numbers.
fn steals(alloc: Global) -> Result<bool, Fault> {
    let (room, mut seats) = Room::open(alloc, two(alloc, &[0, 1], &[])?)?;
    let x = take_until(&room, &mut seats[1], true);
    let left = room.close(seats);
    match x {
        Some(x) => Ok(x < 2 && two_took(&left, &[], &[x], 1)),
        None => Ok(false),
    }
}

// Whether a seat takes of its own list, if the first has one too.
fn takes_own(alloc: Global) -> Result<bool, Fault> {
    let (room, mut seats) = Room::open(alloc, two(alloc, &[0, 1], &[2])?)?;
    let x = seats[1].take(&room);
    let left = room.close(seats);
    Ok(x == Some(2) && two_took(&left, &[], &[2], 2))
}

// Whether what that seat took is told first if it is handed in first.
fn told_in_order_of_close(alloc: Global) -> Result<bool, Fault> {
    let (room, mut seats) = Room::open(alloc, two(alloc, &[0, 1], &[2])?)?;
    let x = seats[1].take(&room);
    seats.reverse();
    let left = room.close(seats);
    Ok(x == Some(2) && two_took(&left, &[2], &[], 2))
}

#[test]
fn rooms_answer_one_thread(rt: HostRuntime) -> Result<(), Fail> {
    let alloc = rt.alloc();
    assert!(rt; takes_one(alloc)?, "a room of one goes on in its list");
    assert!(rt; takes_all(alloc)?, "a seat alone takes all before none");
    assert!(rt; takes_none(alloc)?, "an empty deal gives none");
    assert!(rt; steals(alloc)?, "a seat without a list steals");
    assert!(rt; takes_own(alloc)?, "a seat takes of its own list first");
    assert!(rt;
        told_in_order_of_close(alloc)?,
        "seats are told apart by the order of the close"
    );
    Ok(())
}

// This many numbers, from `first` on.
fn counted(alloc: Global, first: u32, count: usize) -> Result<Vec<u32>, Fault>
    requires { count ≤ 4000 }
    ensures { IfOk result (λ v. length v.items ≡ count) }
{
    let mut list = Vec::new(alloc);
    for i in 0..count {
        list.push(first.wrapping_add(i as u32))?;
    }
    if list.len() != count {
        return Err(Fault::TooLong);
    }
    Ok(list)
}

// Whether four seats took the numbers 0 to 3,999, each once, and none is left.
fn four_took_all(alloc: Global, left: &Left) -> Result<bool, AllocError> {
    let mut all = Vec::new(alloc);
    for i in 0..left.seats() {
        all.extend_from_slice(left.taken(i))?;
    }
    all.sort()?;
    let are_taken = all.iter().copied().eq(0..4_000);
    Ok(are_taken && left.seats() == 4 && left.left().is_empty())
}

// Four lists that count on from one to the next: this many numbers, and this many in each of the
// others.
fn four(alloc: Global, first: usize, others: usize) -> Result<Vec<Vec<u32>>, Fault>
    requires { (first ≤ 4000) × (others ≤ 1000) }
    ensures { IfOk result (λ v. (vec_len v ≡ 4) × (size (map vec_items v.items) ≤ 65536)) }
{
    let from = first as u32;
    let more = others as u32;
    let one = counted(alloc, 0, first)?;
    let two = counted(alloc, from, others)?;
    let three = counted(alloc, from + more, others)?;
    let four = counted(alloc, from + 2 * more, others)?;
    Ok(Vec::from_array(alloc, [one, two, three, four])?)
}

// Whether four threads take all of them.
fn four_take_all<R: Threads + Sync + AllocGlobal>(
    rt: &R,
    lists: Vec<Vec<u32>>,
) -> Result<bool, Fault>
    requires { (vec_len lists ≡ 4) × (size (map vec_items lists.items) ≤ 65536) }
{
    let (room, seats) = Room::open(rt.alloc(), lists)?;
    let left = drained_by_threads(rt, room, seats)?;
    Ok(four_took_all(rt.alloc(), &left)?)
}

// Dealt to four, or to one.
#[test]
fn four_takers_leave_nothing(rt: HostRuntime) -> Result<(), Fail> {
    assert!(rt; four_take_all(&rt, four(rt.alloc(), 1_000, 1_000)?)?);
    assert!(rt; four_take_all(&rt, four(rt.alloc(), 4_000, 0)?)?);
    Ok(())
}

// Workers, a grain, and whether there is a plan of them.
const PLANS: [(u32, u32, bool); 6] = [
    (1, 1, true),
    (64, 1_000_000, true),
    (0, 1, false),
    (65, 1, false),
    (1, 0, false),
    (1, 1_000_001, false),
];

#[test]
fn plans_at_the_ends_of_their_ranges(rt: HostRuntime) {
    for (workers, grain, good) in PLANS {
        let is_told = match Plan::new(workers, grain) {
            Some(plan) => good && plan.workers() == workers && plan.grain() == grain,
            None => !good,
        };
        assert!(rt; is_told, "at {workers} and {grain}");
    }
}

#[test]
fn the_open_gate_lets_all_enter(_rt: HostRuntime) {
    for task in 0..3 {
        Open.enter(task);
    }
}
