//! The countdowns of the error queues.

ghost use Rattle.std.specs.Prelude.{◌≡◌, ◌<◌, ◌≤◌, [], length, All, IfSome, IfOk, IfErr};
ghost use Rattle.rq_record.specs.declared.fault.Fault.TheVariants.{Resources};
ghost use Rattle.rq_model.specs.Queues as queues;
ghost use Rattle.rq_pool.specs.Countdowns.Words.{history_of};
ghost use Rattle.rq_exchange.specs.Chains.{web_of, AreBoxes, IsChainOf, ArePasses, HasPasses};
ghost use Rattle.rq_exchange.specs.Chains.{diaries_of, boxes_of};
ghost use Rattle.rq_exchange.specs.Openings.{Opened};
ghost use Rattle.rq_exchange.specs.Coverage.{HandsOn};
ghost use Rattle.rq_exchange.specs.Jobs.{IsJob, records_of, errors_in};
ghost use Rattle.rq_exchange.specs.Links.{at};

use crate::columns::columns;
use crate::jobs::{Job, listed_for};
use crate::outboxes::{Outbox, Target};
use diary::{Diary, Listing};
use rq_pool::{Arrival, Countdown, Pass};
use rq_queue::KeptMove;
use rq_record::{Fault, KeptRecord};
use rq_state::State;
use std::alloc::Global;
use std::collections::LinkedList;

/// A countdown for each queue that has sources, and the index of each queue's countdown. If a queue
/// has none, the index is past the last.
#[derive(Drop)]
pub(crate) struct CountdownChain {
    pub countdowns: Vec<Countdown<Outbox>>,
    pub slots: Vec<u32>,
}

impl CountdownChain {
    /// Hands what left a queue to its error queue. The last to do so is given what left all its
    /// sources.
    pub(crate) fn hand_on(
        &self,
        job: &Job,
        passes: &mut [Pass<Outbox>],
        queue: u32,
        error: u32,
        moves: Vec<KeptMove>,
    ) -> Option<Vec<Outbox>>
        requires job { IsJob job.now }
        requires chain { IsChainOf job.now self.now }
        requires passes { ArePasses self.now passes.old }
        requires queue { (queue < length job.now.definitions.now)
            × (error ≡ at (errors_in job.now) queue) × (error < length job.now.definitions.now) }
        requires moves { moves.items ≡ queues.moves job.now.state.now (records_of job.now) queue }
        ensures passes { ArePasses self.now passes.new }
        ensures boxes { IfSome result (λ b. AreBoxes job.now error b.items) }
        ensures tells { HandsOn (web_of job.now self.now) queue error result
            (diaries_of passes.old) (diaries_of passes.new) }
    {
        let slot = self.slots[error as usize] as usize;
        let rank = job.ranks[queue as usize];
        boxes_in(self.countdowns[slot].arrive(&mut passes[slot], rank, Outbox { moves }))
    }
}

// The outboxes that an arrival was given, if it was the last.
fn boxes_in(answer: Arrival<Outbox>) -> Option<Vec<Outbox>>
    ensures { result ≡ boxes_of answer }
{
    match answer {
        Arrival::Last(boxes) => Some(boxes),
        Arrival::NotLast => None,
        Arrival::Twice(back) => {
            drop(back);
            None
        }
    }
}

// What the key of a countdown is made of.
#[derive(Drop)]
struct Aim<'a> {
    state: &'a State,
    records: &'a [KeptRecord],
    sources: &'a [u32],
}

struct Due;

impl<'a> Listing<Aim<'a>, LinkedList<KeptMove>> for Due {
    ghost use Rattle.std.specs.Prelude.{map};
    ghost use Rattle.rq_model.specs.Queues as queues;
    ghost use Rattle.rq_record.specs.Views.{record_of};

    ghost list = { λ a. map
        (queues.moves a.state.now (map record_of a.records.now)) a.sources.now };
}

// Opens the countdown of a queue that has sources, and answers its index. If the queue has none,
// the index is past the last.
#[tactic(auto, using(crate::proofs::Sources::sources_few))]
fn open_one(
    alloc: Global,
    job: &Job,
    workers: u32,
    queue: u32,
    countdowns: &mut Vec<Countdown<Outbox>>,
    columns: &mut Vec<Vec<Pass<Outbox>>>,
) -> Result<u32, Fault>
    requires job { IsJob job.now }
    requires workers { (0 < workers) × (workers ≤ 64) }
    requires queue { queue < length job.now.definitions.now }
    requires few { length countdowns.old.items ≤ 4096 }
    ensures opened { IfOk result (λ slot. Opened job.now workers queue countdowns.old.items
        columns.old.items slot countdowns.new.items columns.new.items) }
    ensures refused { IfErr result (λ e. e ≡ Resources) }
{
    let sources = listed_for(job.sources, queue);
    if sources.is_empty() {
        return Ok(job.definitions.len() as u32);
    }
    let aim = Aim {
        state: job.state,
        records: job.records,
        sources,
    };
    let target = Target {
        due: Diary::of::<Aim, Due>(&aim),
    };
    let (countdown, passes) = Countdown::open(alloc, target, sources.len() as u32, workers)?;
    let slot = countdowns.len();
    countdowns.push(countdown)?;
    columns.push(passes)?;
    Ok(slot as u32)
}

impl CountdownChain {
    /// Opens a countdown for each queue that has sources, and a pass of each for each worker.
    pub(crate) fn open(
        alloc: Global,
        job: &Job,
        workers: u32,
    ) -> Result<(CountdownChain, Vec<Vec<Pass<Outbox>>>), Fault>
        requires job { IsJob job.now }
        requires workers { (0 < workers) × (workers ≤ 64) }
        ensures chain { IfOk result (λ r. IsChainOf job.now r.0) }
        ensures passes { IfOk result (λ r. HasPasses r.0 workers) }
        ensures count { IfOk result (λ r. length r.1.items ≡ workers) }
        ensures rows { IfOk result (λ r. All
            (λ ps. ArePasses r.0 ps.items × All (λ p. history_of p ≡ []) ps.items) r.1.items) }
        ensures refused { IfErr result (λ e. e ≡ Resources) }
    {
        let mut countdowns = Vec::new(alloc);
        let mut all = Vec::new(alloc);
        let mut slots = Vec::with_capacity(alloc, job.definitions.len())?;
        for queue in 0..job.definitions.len() {
            let slot = open_one(alloc, job, workers, queue as u32, &mut countdowns, &mut all)?;
            slots.push(slot)?;
        }
        let rows = columns(alloc, all, workers as usize)?;
        Ok((CountdownChain { countdowns, slots }, rows))
    }
}
