//! The rule of the table, what a pass knows, and what each step tells. These types are only for
//! proofs: of them only `Terms` has values that are made.

ghost use Rattle.std.specs.Prelude.{ℕ, Some, None, []};
ghost use Rattle.rq_pool.specs.Countdowns.Rule.{Held, view, claimed, tallied, hands_back, both_of};
ghost use Rattle.rq_pool.specs.Countdowns.Rule.{spent_view, left_of, right_of};

use crate::countdown::fits::Fits;
use atomic_table::{Join, Play, Split, TableRule};
use std::collections::LinkedList;
use std::marker::PhantomData;

/// An arrival that was not answered `Twice`. `told` has the outboxes if the answer was `Last`.
pub(crate) struct Made<T> {
    pub(crate) source: u32,
    pub(crate) outbox: T,
    pub(crate) told: Option<LinkedList<T>>,
}

/// What a pass knows. Only the spent one that a join leaves has no key. `at` is the source at which
/// the pass stands between its two steps, `refused` the sources of the arrivals that were answered
/// `Twice`.
pub(crate) struct View<T, K> {
    pub(crate) parts: u64,
    pub(crate) key: Option<K>,
    pub(crate) at: Option<u32>,
    pub(crate) made: LinkedList<Made<T>>,
    pub(crate) refused: LinkedList<u32>,
}

/// What the table is told once.
#[derive(Drop)]
pub(crate) struct Terms<K> {
    pub(crate) key: K,
    pub(crate) passes: u64,
}

pub(crate) struct Counts<T> {
    marker: PhantomData<T>,
}

impl<T: Fits> TableRule<Option<T>, View<T, T::Key>, Terms<T::Key>> for Counts<T> {
    ghost holds = { Held T.fits };

    ghost first = { λ k. view k.passes (Some k.key) None [] [] };
}

pub(crate) struct Claim;

impl<T, K> Play<Option<T>, View<T, K>> for Claim {
    ghost then = { claimed };
}

pub(crate) struct Count<T> {
    marker: PhantomData<T>,
}

impl<T: Fits> Play<Option<T>, View<T, T::Key>> for Count<T> {
    ghost then = { tallied T.fits };
}

pub(crate) struct Return;

impl<T, K> Play<Option<T>, View<T, K>> for Return {
    ghost then = { hands_back };
}

pub(crate) struct Glue;

impl<T, K> Join<View<T, K>> for Glue {
    ghost both = { both_of };

    ghost spent = { spent_view };
}

pub(crate) struct Cut;

impl<T, K> Split<View<T, K>> for Cut {
    ghost left = { left_of };

    ghost right = { right_of };
}
