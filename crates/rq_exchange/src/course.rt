//! How a replay went, only for contracts.

ghost use Rattle.std.specs.Prelude.{◌≡◌, [], map};
ghost use Rattle.rq_exchange.specs.Chains.{redone_in};

use crate::outboxes::{Outbox, Redone};
use diary::{Diary, Listing};
use rq_pool::Closing;
use std::alloc::Global;
use std::collections::LinkedList;

/// How a replay went: which queues each thread redid, and what the countdown of each error queue
/// told each thread. The latter is what the countdowns answered at their close; only a countdown
/// makes a closing.
#[derive(Drop)]
pub struct Course {
    closings: Vec<Closing<Outbox>>,
    slots: Vec<u32>,
    redone: Diary<LinkedList<u32>>,
}

// The queues that each thread redid.
struct RedoneQueues;

impl Listing<Vec<Vec<Redone>>, LinkedList<u32>> for RedoneQueues {
    ghost use Rattle.std.specs.Prelude.{map};
    ghost use Rattle.rq_exchange.specs.Chains.{redone_in};

    ghost list = { λ all. map (λ done. redone_in done.items) all.items };
}

impl Course {
    /// The course of a replay without a queue.
    pub(crate) fn blank(alloc: Global) -> Course
        ensures { result.redone ≡ [] }
    {
        Course {
            closings: Vec::new(alloc),
            slots: Vec::new(alloc),
            redone: Diary::blank(),
        }
    }

    /// The course of the threads that redid these, each its own, with the closed countdowns and
    /// where each queue's stands.
    pub(crate) fn of(
        closings: Vec<Closing<Outbox>>,
        slots: Vec<u32>,
        all: &Vec<Vec<Redone>>,
    ) -> Course
        ensures closings { result.closings ≡ closings }
        ensures slots { result.slots ≡ slots }
        ensures redone { result.redone ≡ map (λ done. redone_in done.items) all.now.items }
    {
        let redone = Diary::of::<Vec<Vec<Redone>>, RedoneQueues>(all);
        Course {
            closings,
            slots,
            redone,
        }
    }
}
