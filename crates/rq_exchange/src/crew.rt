//! The workers: each takes queues without sources from the room, and follows each as far as it
//! leads.

ghost use Rattle.std.specs.Prelude.{◌≡◌, ◌<◌, ◌≤◌, ◌++◌, [], ℕ, List, length, All, IfOk, IfErr};
ghost use Rattle.rq_pool.specs.declared.room.Room.{Room as PoolRoom};
ghost use Rattle.rq_pool.specs.Ledger.{times, times_in};
ghost use Rattle.rq_pool.specs.Countdowns.Words.{history_of};
ghost use Rattle.rq_pool.specs.Rooms.{IsSeatOf, taken_of, deal_of};
ghost use Rattle.rq_record.specs.declared.fault.Fault.TheVariants.{Resources};
ghost use Rattle.rq_exchange.specs.Chains.{IsChainOf, ArePasses, IsRedone, IsBare, HasFollowed};
ghost use Rattle.rq_exchange.specs.Jobs.{IsJob};
ghost use Rattle.rq_exchange.specs.Links.{AreBare};
ghost use Rattle.rq_exchange.specs.declared.chain.CountdownChain.{CountdownChain as GhostChain};
ghost use Rattle.rq_exchange.specs.declared.jobs.Job.{Job as GhostJob};
ghost use Rattle.rq_exchange.specs.Workers.{Works, HandsBack, IsFreshWorker, Pairs, HaveKept};

use crate::chain::CountdownChain;
use crate::deals::dealt_room;
use crate::jobs::Job;
use crate::outboxes::{Outbox, Redone};
use crate::thread_work::follow;
use rq_plan::Gate;
use rq_pool::{Pass, Room, Seat};
use rq_record::Fault;
use std::alloc::{AllocError, Global};
use std::thread;
use std::thread::Threads;

/// What a thread has when it has ended: a pass of each countdown, and the queues that it redid.
#[derive(Drop)]
pub(crate) struct WorkDone {
    pub passes: Vec<Pass<Outbox>>,
    pub done: Vec<Redone>,
}

/// A seat, and a pass of each countdown.
#[derive(Drop)]
pub(crate) struct Worker {
    pub seat: Seat,
    pub passes: Vec<Pass<Outbox>>,
}

/// What a worker hands back.
#[derive(Drop)]
pub(crate) struct Ended {
    pub seat: Seat,
    pub kept: WorkDone,
}

// Takes until there is nothing to take, and follows what it takes.
fn work<G: Gate>(
    alloc: Global,
    job: &Job,
    chain: &CountdownChain,
    room: &Room,
    gate: &G,
    seat: Seat,
    passes: Vec<Pass<Outbox>>,
) -> Result<Ended, Fault>
    requires job { IsJob job.now }
    requires chain { IsChainOf job.now chain.now }
    requires seat { IsSeatOf room.now seat × (taken_of seat ≡ []) }
    requires passes { ArePasses chain.now passes.items }
    requires fresh { All (λ p. history_of p ≡ []) passes.items }
    requires bare { (x : ℕ) → 0 < times_in x (deal_of room.now) → IsBare job.now x }
    ensures { Works job.now chain.now room.now result }
{
    let mut seat = seat;
    let mut passes = passes;
    let mut done = Vec::new(alloc);
    while let Some(queue) = seat.take(room) {
        follow(
            alloc,
            job,
            chain,
            gate,
            queue,
            passes.as_mut_slice(),
            &mut done,
        )?;
    }
    Ok(Ended {
        seat,
        kept: WorkDone { passes, done },
    })
}

fn finish<G: Gate>(
    alloc: Global,
    job: &Job,
    chain: &CountdownChain,
    gate: &G,
    left: &[u32],
    kept: &mut WorkDone,
) -> Result<(), Fault>
    requires job { IsJob job.now }
    requires chain { IsChainOf job.now chain.now }
    requires passes { ArePasses chain.now kept.old.passes.items }
    requires done { All (IsRedone job.now) kept.old.done.items }
    requires bare { (x : ℕ) → 0 < times x left.now → IsBare job.now x }
    ensures passes { IfOk result (λ _. ArePasses chain.now kept.new.passes.items) }
    ensures done { IfOk result (λ _. All (IsRedone job.now) kept.new.done.items) }
    ensures follows { IfOk result (λ _. (starts : List ℕ) →
        HasFollowed job.now chain.now starts kept.old.done.items kept.old.passes.items
        → HasFollowed job.now chain.now (starts ++ left.now) kept.new.done.items
        kept.new.passes.items) }
    ensures refused { IfErr result (λ e. e ≡ Resources) }
{
    let WorkDone { passes, done } = kept;
    for queue in left {
        follow(alloc, job, chain, gate, *queue, passes.as_mut_slice(), done)?;
    }
    Ok(())
}

// A worker for each seat.
#[tactic(auto, using(crate::proofs::Working::jobs_done))]
fn run_seats<R: Threads + Sync, G: Gate + Sync>(
    rt: &R,
    alloc: Global,
    job: &Job,
    chain: &CountdownChain,
    room: &Room,
    gate: &G,
    workers: Vec<Worker>,
) -> Result<Vec<Result<Ended, Fault>>, AllocError>
    requires job { IsJob job.now }
    requires chain { IsChainOf job.now chain.now }
    requires workers { All (IsFreshWorker chain.now room.now) workers.items }
    requires bare { (x : ℕ) → 0 < times_in x (deal_of room.now) → IsBare job.now x }
    ensures { IfOk result (λ v. (length v.items ≡ length workers.items)
        × All (Works job.now chain.now room.now) v.items) }
{
    thread::map_vec(
        rt,
        workers,
        &|worker| {
            let Worker { seat, passes } = worker;
            work(alloc, job, chain, room, gate, seat, passes)
        },
    )
}

// A row of passes for each seat.
fn paired(
    alloc: Global,
    seats: Vec<Seat>,
    rows: Vec<Vec<Pass<Outbox>>>,
) -> Result<Vec<Worker>, Fault>
    requires { length rows.items ≡ length seats.items }
    ensures workers { IfOk result (λ v. Pairs seats.items rows.items v.items) }
    ensures count { IfOk result (λ v. length v.items ≡ length seats.items) }
    ensures refused { IfErr result (λ e. e ≡ Resources) }
{
    let mut seats = seats;
    let mut rows = rows;
    let mut workers = Vec::with_capacity(alloc, seats.len())?;
    while let Some(seat) = seats.pop() {
        let Some(passes) = rows.pop() else {
            unreachable!()
        };
        workers.push(Worker { seat, passes })?;
    }
    Ok(workers)
}

// The seats of workers that all ended well, and what they have.
fn handed_back(
    alloc: Global,
    ended: Vec<Result<Ended, Fault>>,
) -> Result<(Vec<Seat>, Vec<WorkDone>), Fault>
    ensures back { IfOk result (λ r. HandsBack ended.items r.0.items r.1.items) }
    ensures refused { (job : GhostJob) (chain : GhostChain) (room : PoolRoom) →
        All (Works job chain room) ended.items → IfErr result (λ e. e ≡ Resources) }
{
    let mut seats = Vec::new(alloc);
    let mut all = Vec::new(alloc);
    for one in ended {
        let Ended { seat, kept } = one?;
        seats.push(seat)?;
        all.push(kept)?;
    }
    Ok((seats, all))
}

/// What all threads have once each task is redone, and each error queue that this led to.
pub(crate) fn all_kept<R: Threads + Sync, G: Gate + Sync>(
    rt: &R,
    alloc: Global,
    job: &Job,
    chain: &CountdownChain,
    gate: &G,
    tasks: &[u32],
    rows: Vec<Vec<Pass<Outbox>>>,
) -> Result<Vec<WorkDone>, Fault>
    requires job { IsJob job.now }
    requires chain { IsChainOf job.now chain.now }
    requires count { (0 < length rows.items) × (length rows.items ≤ 64) }
    requires rows { All
        (λ r. ArePasses chain.now r.items × All (λ p. history_of p ≡ []) r.items) rows.items }
    requires tasks { AreBare job.now.sources.now (length job.now.sources.now) tasks.now }
    ensures kept { IfOk result (λ v. HaveKept job.now chain.now tasks.now v.items) }
    ensures count { IfOk result (λ v. length v.items ≡ length rows.items) }
    ensures refused { IfErr result (λ e. e ≡ Resources) }
{
    let (room, seats) = dealt_room(alloc, rows.len(), tasks)?;
    let workers = paired(alloc, seats, rows)?;
    let ended = run_seats(rt, alloc, job, chain, &room, gate, workers)?;
    let (seats, mut kept) = handed_back(alloc, ended)?;
    let left = room.close(seats);
    finish(alloc, job, chain, gate, left.left(), &mut kept[0])?;
    Ok(kept)
}
