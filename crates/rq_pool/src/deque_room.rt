//! The room of several seats: a stealing deque for each.

ghost use Rattle.std.specs.Prelude.{◌≡◌, ℕ, ◌≤◌, ◌<◌, ◌+◌, ◌^◌, [], ◌∷◌, ◌++◌, length, IfOk, All};
ghost use Rattle.std.specs.Prelude.{map, sum_by, vec_len, vec_items, vec_capacity};
ghost use Rattle.rq_pool.specs.Ledger.{size};
ghost use Rattle.rq_pool.specs.Decks.{list_in};
ghost use Rattle.rq_pool.specs.Vaults.{reach};

use crate::deck::Deck;
use crate::deque::Owner;
use crate::room::Left;
use crate::seat::Seat;
use crate::vault::Vault;
use std::alloc::{AllocError, Global};

/// Its deques, and room for what is taken and what is left.
#[derive(Drop)]
pub(crate) struct DequeRoom {
    pub(crate) vault: Vault,
    pub(crate) takens: Vec<Vec<u32>>,
    pub(crate) left: Vec<u32>,
    ghost several: { (1 < length (reach vault.table.shared.key))
        × (length (reach vault.table.shared.key) ≤ 64) },
    ghost reserved: { (takens.items ≡ [])
        × (length (reach vault.table.shared.key) ≤ vec_capacity takens) × (left.items ≡ [])
        × (size (map list_in (reach vault.table.shared.key)) ≤ vec_capacity left) },
}

// How many numbers the lists have.
fn total(lists: &[Vec<u32>]) -> usize
    requires short { size (map vec_items lists.now) ≤ 65536 }
    ensures { result ≡ size (map vec_items lists.now) }
{
    let mut n = 0;
    for list in lists {
        n += list.len();
    }
    n
}

impl DequeRoom {
    ghost use Rattle.std.specs.Prelude.{reverse};
    ghost use Rattle.rq_pool.specs.Decks.{IsStocked, IsWhole, deck_id, deck_list, owner_id};

    // The deque of each list, in the lists' order, and their owners, the last list's first.
    fn decks_of(
        alloc: Global,
        mut lists: Vec<Vec<u32>>,
    ) -> Result<(Vec<Deck>, Vec<Owner>), AllocError>
        requires few { vec_len lists ≤ 64 }
        requires short { All (λ v. length v.items < 2 ^ 32) lists.items }
        ensures lists { IfOk result (λ r. map deck_list r.0.items ≡ map vec_items lists.items) }
        ensures decks { IfOk result
            (λ r. All (IsStocked (vec_len lists) (vec_len lists)) r.0.items) }
        ensures owners { IfOk result
            (λ r. (reverse (map owner_id r.1.items) ≡ map deck_id r.0.items)
            × All (IsWhole (vec_len lists)) r.1.items) }
    {
        let n = lists.len();
        let mut decks = Vec::with_capacity(alloc, n)?;
        let mut owners = Vec::with_capacity(alloc, n)?;
        while let Some(list) = lists.pop() {
            let (deck, owner) = Deck::new(alloc, list, n)?;
            decks.push_reserved(deck);
            owners.push_reserved(owner);
        }
        decks.reverse();
        Ok((decks, owners))
    }
}

impl DequeRoom {
    ghost use Rattle.std.specs.Prelude.{reverse};
    ghost use Rattle.rq_pool.specs.Decks.{IsStocked, IsWhole, deck_id, owner_id};
    ghost use Rattle.rq_pool.specs.Rooms.{IsSeatBeside, taken_of};

    // A seat for each deque. The last owner is the first seat's.
    fn seats_of(
        alloc: Global,
        decks: &mut [Deck],
        mut owners: Vec<Owner>,
        total: usize,
    ) -> Result<Vec<Seat>, AllocError>
        requires owners { (reverse (map owner_id owners.items) ≡ map deck_id decks.old)
            × All (IsWhole (length decks.old)) owners.items }
        requires decks { All (IsStocked (length decks.old) (length decks.old)) decks.old }
        requires total { total ≡ size (map list_in (map deck_id decks.old)) }
        ensures same { IfOk result (λ v. map deck_id decks.new ≡ map deck_id decks.old) }
        ensures decks { IfOk result (λ v. All (IsStocked (length decks.old) 0) decks.new) }
        ensures seats { IfOk result (λ v. (vec_len v ≡ length decks.old)
            × All (IsSeatBeside (map deck_id decks.old)) v.items
            × All (λ s. taken_of s ≡ []) v.items) }
    {
        let n = decks.len();
        let mut seats = Vec::with_capacity(alloc, n)?;
        while let Some(owner) = owners.pop() {
            let number = seats.len();
            let sources = Deck::draw_all(alloc, decks, n, owners.len())?;
            let taken = Vec::with_capacity(alloc, total)?;
            seats.push_reserved(Seat::beside(number, owner, sources, taken));
        }
        Ok(seats)
    }

    // A deque and a seat for each list, once all is dealt.
    fn dealt(
        alloc: Global,
        lists: Vec<Vec<u32>>,
        total: usize,
    ) -> Result<(Vec<Deck>, Vec<Seat>), AllocError>
        requires few { vec_len lists ≤ 64 }
        requires short { (total ≡ size (map vec_items lists.items)) × (total ≤ 65536) }
        ensures lists { IfOk result
            (λ r. map list_in (map deck_id r.0.items) ≡ map vec_items lists.items) }
        ensures decks { IfOk result
            (λ r. (vec_len r.0 ≡ vec_len lists) × All (IsStocked (vec_len lists) 0) r.0.items) }
        ensures seats { IfOk result (λ r. (vec_len r.1 ≡ vec_len lists)
            × All (IsSeatBeside (map deck_id r.0.items)) r.1.items
            × All (λ s. taken_of s ≡ []) r.1.items) }
    {
        let (mut decks, owners) = DequeRoom::decks_of(alloc, lists)?;
        let seats = DequeRoom::seats_of(alloc, decks.as_mut_slice(), owners, total)?;
        Ok((decks, seats))
    }
}

impl DequeRoom {
    ghost use Rattle.rq_pool.specs.Decks.{IsStocked, deck_id};
    ghost use Rattle.rq_pool.specs.Rooms.{IsSeatBeside, ids_of, lists_of, taken_of};

    // The room of these deques, which its first seat knows.
    fn locked(
        alloc: Global,
        decks: Vec<Deck>,
        first: &Seat,
        total: usize,
    ) -> Result<DequeRoom, AllocError>
        requires several { (1 < vec_len decks) × (vec_len decks ≤ 64) }
        requires decks { All (IsStocked (vec_len decks) 0) decks.items }
        requires first { IsSeatBeside (map deck_id decks.items) first.now }
        requires total { total ≡ size (map list_in (map deck_id decks.items)) }
        ensures { IfOk result (λ r. ids_of r ≡ map deck_id decks.items) }
    {
        let takens = Vec::with_capacity(alloc, decks.len())?;
        let left = Vec::with_capacity(alloc, total)?;
        let vault = Vault::new(alloc, decks, first)?;
        Ok(DequeRoom {
            vault,
            takens,
            left,
        })
    }

    /// A deque and a seat for each list.
    pub(crate) fn open(
        alloc: Global,
        lists: Vec<Vec<u32>>,
    ) -> Result<(DequeRoom, Vec<Seat>), AllocError>
        requires seats { (1 < vec_len lists) × (vec_len lists ≤ 64) }
        requires short { size (map vec_items lists.items) ≤ 65536 }
        ensures deal { IfOk result (λ r. lists_of r.0 ≡ map vec_items lists.items) }
        ensures count { IfOk result
            (λ r. (length (ids_of r.0) ≡ vec_len lists) × (vec_len r.1 ≡ vec_len lists)) }
        ensures seats { IfOk result (λ r. All (IsSeatBeside (ids_of r.0)) r.1.items) }
        ensures fresh { IfOk result (λ r. All (λ s. taken_of s ≡ []) r.1.items) }
    {
        let total = total(lists.as_slice());
        let (decks, seats) = DequeRoom::dealt(alloc, lists, total)?;
        let room = DequeRoom::locked(alloc, decks, &seats[0], total)?;
        Ok((room, seats))
    }
}

impl DequeRoom {
    ghost use Rattle.rq_pool.specs.Ledger.{Ledger};
    ghost use Rattle.rq_pool.specs.Decks.{IsOpen, IsComplete, deck_id, filled, taken_weight};
    ghost use Rattle.rq_pool.specs.Rooms.{IsSeatBeside, ids_of, lists_of, taken_of, left_of};
    ghost use Rattle.rq_pool.specs.Rooms.{takens_of};

    // Takes in all seats, and keeps what they took.
    fn gathered(decks: &mut [Deck], mut seats: Vec<Seat>, takens: &mut Vec<Vec<u32>>)
        requires few { length decks.old ≤ 64 }
        requires seats { All (IsSeatBeside (map deck_id decks.old)) seats.items }
        requires all { vec_len seats ≡ length decks.old }
        requires decks { All (IsOpen (length decks.old) 0) decks.old
            × (sum_by filled decks.old ≡ 0) }
        requires reserved { (takens.old.items ≡ []) × (length decks.old ≤ vec_capacity takens.old) }
        ensures same { map deck_id decks.new ≡ map deck_id decks.old }
        ensures decks { All IsComplete decks.new }
        ensures takens { map vec_items takens.new.items ≡ map taken_of seats.items }
        ensures weight { (h : ℕ → ℕ) →
            sum_by (taken_weight h) decks.new ≡ sum_by (sum_by h) (map taken_of seats.items) }
    {
        let n = decks.len();
        while let Some(seat) = seats.pop() {
            let seat = seat.deque_seat(decks);
            let m = takens.len();
            takens.push_reserved(seat.hand_in(decks, n, m));
        }
        takens.reverse();
    }

    /// What the seats have taken, and what the deques still hold.
    pub(crate) fn close(self, seats: Vec<Seat>) -> Left
        requires seats { All (IsSeatBeside (ids_of self)) seats.items }
        requires all { vec_len seats ≡ length (ids_of self) }
        ensures takens { takens_of result ≡ map taken_of seats.items }
        ensures ledger { Ledger (lists_of self) (takens_of result) (left_of result) }
    {
        let DequeRoom {
            vault,
            mut takens,
            mut left,
        } = self;
        let mut decks = vault.into_decks();
        DequeRoom::gathered(decks.as_mut_slice(), seats, &mut takens);
        Deck::emptied(decks, &mut left);
        Left {
            numbers: left,
            from: 0,
            takens,
        }
    }
}
