//! A deque of the room: its passes before they are dealt out, and after they came back.

ghost use Rattle.std.specs.Prelude.{◌≡◌, ℕ, ◌≤◌, ◌<◌, ◌+◌, ◌^◌, [], ◌∷◌, ◌++◌, length, All, IfOk};
ghost use Rattle.std.specs.Prelude.{map, sum_by, Some, None, slice_index_or, vec_len, vec_capacity};
ghost use Rattle.crossbeam_deque.specs.Handles.{worker_deque, worker_flavor, worker_view};
ghost use Rattle.crossbeam_deque.specs.Handles.{stealer_deque, view, IsPassOf};
ghost use Rattle.rq_pool.specs.Passes.{parts_of, weight_of};

use crate::deque::{DequePass, Owner, Thief, cut, dealt, gather, pop, together};
use crate::deque_seat::Source;
use std::alloc::{AllocError, Global};

/// A deque, the list that was dealt to it, and those of its owner and passes that no seat has.
#[derive(Drop)]
pub(crate) struct Deck {
    pub(crate) thief: Thief,
    pub(crate) list: Vec<u32>,
    pub(crate) owner: Option<Owner>,
    pub(crate) passes: Vec<DequePass>,
}

impl Deck {
    ghost use Rattle.rq_pool.specs.Decks.{IsStocked, IsWhole, deck_id, owner_id};
    ghost use Rattle.rq_pool.specs.Holdings.{source_id, stolen};

    /// The deque of one list, with a pass for each seat, and its owner.
    pub(crate) fn new(
        alloc: Global,
        list: Vec<u32>,
        seats: usize,
    ) -> Result<(Deck, Owner), AllocError>
        requires { (seats ≤ 64) × (vec_len list < 2 ^ 32) }
        ensures deck { IfOk result
            (λ r. IsStocked seats seats r.0 × (r.0.list.items ≡ list.items)) }
        ensures owner { IfOk result (λ r. IsWhole seats r.1 × (owner_id r.1 ≡ deck_id r.0)) }
    {
        let mut owner = dealt(alloc, list.as_slice())?;
        let thief = owner.stealer()?;
        let mut passes = Vec::with_capacity(alloc, seats)?;
        for _ in 0..seats {
            passes.push_reserved(cut(&mut owner));
        }
        let deck = Deck {
            thief,
            list,
            owner: None,
            passes,
        };
        Ok((deck, owner))
    }

    /// One pass of it, for a seat.
    pub(crate) fn draw(&mut self, seats: usize, rest: usize) -> Result<Source, AllocError>
        requires { IsStocked seats (rest + 1) self.old }
        ensures same { deck_id self.new ≡ deck_id self.old }
        ensures deck { IfOk result (λ s. IsStocked seats rest self.new) }
        ensures source { IfOk result (λ s. (source_id s ≡ deck_id self.old) × (stolen s ≡ [])) }
    {
        let thief = self.thief.clone()?;
        let pass = self.passes.take_last();
        Ok(Source { thief, pass })
    }
}

impl Deck {
    ghost use Rattle.std.specs.Prelude.{replicate};
    ghost use Rattle.rq_pool.specs.Decks.{IsStocked, deck_id};
    ghost use Rattle.rq_pool.specs.Holdings.{source_id, stolen};

    /// A pass of each deque, for a seat. After that, `rest` seats of n still have none.
    pub(crate) fn draw_all(
        alloc: Global,
        decks: &mut [Deck],
        n: usize,
        rest: usize,
    ) -> Result<Vec<Source>, AllocError>
        requires { All (IsStocked n (rest + 1)) decks.old }
        ensures same { IfOk result (λ v. map deck_id decks.new ≡ map deck_id decks.old) }
        ensures decks { IfOk result (λ v. All (IsStocked n rest) decks.new) }
        ensures sources { IfOk result (λ v. map source_id v.items ≡ map deck_id decks.old) }
        ensures fresh { IfOk result (λ v. map stolen v.items ≡ replicate (length decks.old) []) }
    {
        let mut sources = Vec::with_capacity(alloc, decks.len())?;
        for j in 0..decks.len() {
            sources.push_reserved(decks[j].draw(n, rest)?);
        }
        Ok(sources)
    }
}

impl Deck {
    ghost use Rattle.rq_pool.specs.Decks.{IsOpen, taken_weight, deck_id, filled};
    ghost use Rattle.rq_pool.specs.Holdings.{source_id, stolen};

    // Takes in a seat's pass of this deque.
    fn lay(&mut self, source: Source)
        requires room { vec_len self.old.passes < vec_capacity self.old.passes }
        requires deck { source_id source ≡ deck_id self.old }
        ensures same { (deck_id self.new ≡ deck_id self.old) × (self.new.owner ≡ self.old.owner) }
        ensures laid { (n m : ℕ) → IsOpen n m self.old → IsOpen n (m + 1) self.new }
        ensures weight { (h : ℕ → ℕ) →
            taken_weight h self.new ≡ taken_weight h self.old + sum_by h (stolen source) }
    {
        let Source { thief: _, pass } = source;
        self.passes.push_reserved(pass);
    }

    /// Takes in all passes of a seat, each to its deque. Of n seats, m did so before.
    pub(crate) fn lay_all(decks: &mut [Deck], mut sources: Vec<Source>, n: usize, m: usize)
        requires own { map source_id sources.items ≡ map deck_id decks.old }
        requires decks { All (IsOpen n m) decks.old × (m < n) }
        ensures same { map deck_id decks.new ≡ map deck_id decks.old }
        ensures owners { map filled decks.new ≡ map filled decks.old }
        ensures decks { All (IsOpen n (m + 1)) decks.new }
        ensures weight { (h : ℕ → ℕ) → sum_by (taken_weight h) decks.new
            ≡ sum_by (taken_weight h) decks.old + sum_by (λ s. sum_by h (stolen s)) sources.items }
    {
        while let Some(source) = sources.pop() {
            let j = sources.len();
            decks[j].lay(source);
        }
    }
}

impl Deck {
    ghost use Rattle.rq_pool.specs.Decks.{IsOpen, IsOwnerOf, deck_id, filled, taken_weight};

    // Takes in the owner. There was none before: two would have more than all parts.
    fn seat(&mut self, owner: Owner, n: usize)
        requires few { n ≤ 64 }
        requires owner { IsOwnerOf n self.old owner }
        requires other { (o : _) → self.old.owner ≡ Some o → IsOwnerOf n self.old o }
        ensures owner { (self.new.owner ≡ Some owner) × (self.old.owner ≡ None) }
        ensures same { (deck_id self.new ≡ deck_id self.old) × (self.new.passes ≡ self.old.passes) }
    {
        if let Some(other) = &mut self.owner {
            together(other, owner);
            unreachable!()
        }
        self.owner = Some(owner);
    }

    /// Takes in the owner of the deque of this number.
    #[tactic(auto, using(crate::proofs::Lists::same_after))]
    pub(crate) fn seat_at(decks: &mut [Deck], number: usize, owner: Owner, n: usize, m: usize)
        requires few { (n ≤ 64) × (number < length decks.old) }
        requires decks { All (IsOpen n m) decks.old }
        requires owner { (d : Deck) → IsOwnerOf n (slice_index_or decks.old number d) owner }
        ensures same { map deck_id decks.new ≡ map deck_id decks.old }
        ensures decks { All (IsOpen n m) decks.new }
        ensures filled { sum_by filled decks.new ≡ sum_by filled decks.old + 1 }
        ensures weight { (h : ℕ → ℕ) → sum_by (taken_weight h) decks.new
            ≡ sum_by (taken_weight h) decks.old + sum_by h (worker_view owner).taken }
    {
        decks[number].seat(owner, n);
    }
}

// The owner with all that the passes took.
fn gathered(mut owner: Owner, mut passes: Vec<DequePass>) -> Owner
    requires own { (worker_flavor owner ≡ 0) × (0 < (worker_view owner).parts) }
    requires passes { All (IsPassOf (worker_deque owner)) passes.items }
    ensures same { (worker_flavor result ≡ 0)
        × ((worker_view result).dealt ≡ (worker_view owner).dealt) }
    ensures parts { (worker_view result).parts
        ≡ (worker_view owner).parts + sum_by parts_of passes.items }
    ensures taken { (h : ℕ → ℕ) → sum_by h (worker_view result).taken
        ≡ sum_by h (worker_view owner).taken + sum_by (weight_of h) passes.items }
{
    while let Some(pass) = passes.pop() {
        gather(&mut owner, pass);
    }
    owner
}

// Moves what the deque still holds to the back of `left`.
fn drained(mut owner: Owner, left: &mut Vec<u32>)
    requires all { (worker_flavor owner ≡ 0) × ((worker_view owner).parts ≡ 256) }
    requires reserved { vec_len left.old + length (worker_view owner).dealt
        ≤ vec_capacity left.old }
    ensures room { (vec_capacity left.new ≡ vec_capacity left.old)
        × (vec_len left.new ≤ vec_len left.old + length (worker_view owner).dealt) }
    ensures sums { (h : ℕ → ℕ) → sum_by h (worker_view owner).taken + sum_by h left.new.items
        ≡ sum_by h (worker_view owner).dealt + sum_by h left.old.items }
{
    while let Some(x) = pop(&mut owner) {
        left.push_reserved(x);
    }
}

impl Deck {
    ghost use Rattle.rq_pool.specs.Decks.{IsComplete, taken_weight, dealt_weight, dealt_length};

    /// Empties all deques into `left`.
    pub(crate) fn emptied(mut decks: Vec<Deck>, left: &mut Vec<u32>)
        requires all { All IsComplete decks.items }
        requires reserved { vec_len left.old + sum_by dealt_length decks.items
            ≤ vec_capacity left.old }
        ensures sums { (h : ℕ → ℕ) → sum_by (taken_weight h) decks.items + sum_by h left.new.items
            ≡ sum_by (dealt_weight h) decks.items + sum_by h left.old.items }
    {
        while let Some(deck) = decks.pop() {
            deck.empty(left);
        }
    }

    // Empties one deque: what its owner and its passes took, and what is left, is what was dealt.
    fn empty(self, left: &mut Vec<u32>)
        requires whole { IsComplete self }
        requires reserved { vec_len left.old + dealt_length self ≤ vec_capacity left.old }
        ensures room { (vec_capacity left.new ≡ vec_capacity left.old)
            × (vec_len left.new ≤ vec_len left.old + dealt_length self) }
        ensures sums { (h : ℕ → ℕ) → taken_weight h self + sum_by h left.new.items
            ≡ dealt_weight h self + sum_by h left.old.items }
    {
        let Deck {
            thief: _,
            list: _,
            owner,
            passes,
        } = self;
        let Some(owner) = owner else { unreachable!() };
        drained(gathered(owner, passes), left);
    }
}
