//! The room, of one seat or of several, and what is left of it after the close.

ghost use Rattle.std.specs.Prelude.{◌≡◌, ◌≤◌, ◌<◌, [], length, IfOk, IfErr, All, map, vec_len};
ghost use Rattle.std.specs.Prelude.{vec_items, slice_get, Some};
ghost use Rattle.rq_record.specs.declared.fault.Fault.TheVariants.{Resources};

use crate::deque_room::DequeRoom;
use crate::list_room::ListRoom;
use crate::seat::Seat;
use rq_record::Fault;
use std::alloc::Global;

/// Numbers for its seats to take. A room may be lent to threads, and each of its seats moved to
/// one.
#[derive(Drop)]
pub struct Room {
    pub(crate) body: Body,
}

/// If it has one seat, a plain list, without an atomic step; if several, a stealing deque for each.
#[derive(Drop)]
pub(crate) enum Body {
    Single(ListRoom),
    Several(DequeRoom),
}

impl Room {
    ghost use Rattle.rq_pool.specs.Ledger.{size};
    ghost use Rattle.rq_pool.specs.Rooms.{IsSeatOf, taken_of, deal_of, seats_of};

    /// A room with a seat for each list, 1 to 64 of them, with at most 65,536 numbers in all. The
    /// same number may occur more than once. All memory of the room and of its seats is taken here.
    /// `Resources` if the host refuses it, and then the lists are dropped.
    pub fn open(alloc: Global, mut lists: Vec<Vec<u32>>) -> Result<(Room, Vec<Seat>), Fault>
        requires seats { (1 ≤ vec_len lists) × (vec_len lists ≤ 64) }
        requires short { size (map vec_items lists.items) ≤ 65536 }
        ensures deal { IfOk result (λ r. deal_of r.0 ≡ map vec_items lists.items) }
        ensures count { IfOk result
            (λ r. (seats_of r.0 ≡ vec_len lists) × (vec_len r.1 ≡ vec_len lists)) }
        ensures seats { IfOk result (λ r. All (IsSeatOf r.0) r.1.items) }
        ensures fresh { IfOk result (λ r. All (λ s. taken_of s ≡ []) r.1.items) }
        ensures refused { IfErr result (λ e. e ≡ Resources) }
    {
        if lists.len() == 1 {
            let (room, seats) = ListRoom::open(alloc, lists.take_last())?;
            return Ok((
                Room {
                    body: Body::Single(room),
                },
                seats,
            ));
        }
        let (room, seats) = DequeRoom::open(alloc, lists)?;
        Ok((
            Room {
                body: Body::Several(room),
            },
            seats,
        ))
    }
}

impl Room {
    ghost use Rattle.rq_pool.specs.Ledger.{Ledger};
    ghost use Rattle.rq_pool.specs.Rooms.{IsSeatOf, taken_of, deal_of, seats_of, left_of};
    ghost use Rattle.rq_pool.specs.Rooms.{takens_of};

    /// What the seats have taken, in the order in which they are handed in, and what is left.
    /// Together these hold each number as often as it was dealt. The seats are those of this room,
    /// all of them, in any order. It takes no memory and waits for nobody.
    pub fn close(self, seats: Vec<Seat>) -> Left
        requires seats { All (IsSeatOf self) seats.items }
        requires all { vec_len seats ≡ seats_of self }
        ensures takens { takens_of result ≡ map taken_of seats.items }
        ensures ledger { Ledger (deal_of self) (takens_of result) (left_of result) }
    {
        match self.body {
            Body::Single(room) => room.close(seats),
            Body::Several(room) => room.close(seats),
        }
    }
}

/// The numbers that nobody took, and what each seat took.
#[derive(Drop)]
pub struct Left {
    pub(crate) numbers: Vec<u32>,
    pub(crate) from: usize,
    pub(crate) takens: Vec<Vec<u32>>,
    ghost within: { from ≤ length numbers.items },
}

impl Left {
    ghost use Rattle.rq_pool.specs.Rooms.{left_of, takens_of};

    /// The numbers that nobody took.
    pub fn left(&self) -> &[u32]
        ensures left { result.now ≡ left_of self.now }
    {
        &self.numbers[self.from..]
    }

    /// How many seats were handed in.
    pub fn seats(&self) -> usize
        ensures seats { result ≡ length (takens_of self.now) }
    {
        self.takens.len()
    }

    /// What the seat that was handed in at index `i` has taken, in order.
    pub fn taken(&self, i: usize) -> &[u32]
        requires index { i < length (takens_of self.now) }
        ensures taken { slice_get (takens_of self.now) i ≡ Some result.now }
    {
        self.takens[i].as_slice()
    }
}
