//! What is known once a countdown is closed.

ghost use Rattle.std.specs.Prelude.{◌≡◌};

use crate::countdown::arrival::Entry;
use crate::countdown::fits::Fits;
use crate::countdown::pass::Pass;
use diary::{Diary, Listing};
use std::collections::LinkedList;

/// How many sources arrived, who was last, and the outboxes that nobody was given. Contracts see
/// the arrivals of each pass too. Only a countdown that closes makes a value of this type.
#[derive(Drop)]
pub struct Closing<T> {
    pub(crate) arrived: u32,
    pub(crate) last: Option<usize>,
    pub(crate) home: Vec<T>,
    pub(crate) histories: Diary<LinkedList<Entry<T>>>,
}

/// What the arrivals of a closing are made of: the passes that are handed in.
pub(crate) struct Arrivals;

impl<T: Fits> Listing<Vec<Pass<T>>, LinkedList<Entry<T>>> for Arrivals {
    ghost use Rattle.std.specs.Prelude.{map};
    ghost use Rattle.rq_pool.specs.Countdowns.Words.{history_of};

    ghost list = { λ passes. map history_of passes.items };
}

impl<T> Closing<T> {
    ghost use Rattle.rq_pool.specs.Countdowns.Words.{arrived_of, last_in, home_of};

    /// How many sources had an arrival.
    pub fn arrived(&self) -> u32
        ensures arrived { result ≡ arrived_of self.now }
    {
        self.arrived
    }

    /// The index, in the list handed in, of the pass that was answered `Last`. None if some source
    /// had no arrival.
    pub fn last(&self) -> Option<usize>
        ensures last { result ≡ last_in self.now }
    {
        self.last
    }

    /// The outboxes that nobody was given, in the order of their sources.
    pub fn home(&self) -> &[T]
        ensures home { result.now ≡ home_of self.now }
    {
        &self.home
    }

    /// The same outboxes, to keep.
    pub fn into_home(self) -> Vec<T>
        ensures home { result.items ≡ home_of self }
    {
        self.home
    }
}
