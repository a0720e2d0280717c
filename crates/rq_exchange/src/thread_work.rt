//! What a thread does: it redoes a queue, and hands on what left it. The last to hand on redoes the
//! error queue next.

ghost use Rattle.std.specs.Prelude.{◌≡◌, ◌<◌, ◌++◌, ◌∷◌, [], ℕ, List, length, All, IfOk, IfErr};
ghost use Rattle.std.specs.Prelude.{IfSome};
ghost use Rattle.rq_record.specs.declared.fault.Fault.TheVariants.{Resources};
ghost use Rattle.rq_state.specs.Orders.{listed};
ghost use Rattle.rq_exchange.specs.Chains.{web_of, AreBoxes, IsChainOf, ArePasses, IsRedone};
ghost use Rattle.rq_exchange.specs.Chains.{redone_in, diaries_of, HasFollowed, next_of};
ghost use Rattle.rq_exchange.specs.Coverage.{StepsOn};
ghost use Rattle.rq_exchange.specs.Jobs.{IsJob};

use crate::chain::CountdownChain;
use crate::jobs::Job;
use crate::outboxes::{Outbox, Redone};
use rq_plan::Gate;
use rq_pool::Pass;
use rq_record::Fault;
use std::alloc::Global;

// Redoes a queue and hands on what left it. Answers the queue to redo next, with what its sources
// handed in.
fn step<G: Gate>(
    alloc: Global,
    job: &Job,
    chain: &CountdownChain,
    gate: &G,
    queue: u32,
    boxes: Vec<Outbox>,
    passes: &mut [Pass<Outbox>],
    done: &mut Vec<Redone>,
) -> Result<Option<(u32, Vec<Outbox>)>, Fault>
    requires job { IsJob job.now }
    requires chain { IsChainOf job.now chain.now }
    requires passes { ArePasses chain.now passes.old }
    requires defined { queue < length job.now.definitions.now }
    requires boxes { AreBoxes job.now queue boxes.items }
    ensures passes { IfOk result (λ _. ArePasses chain.now passes.new) }
    ensures done { IfOk result
        (λ _. All (IsRedone job.now) done.old.items → All (IsRedone job.now) done.new.items) }
    ensures next { IfOk result
        (λ o. IfSome o (λ r. (r.0 < queue) × AreBoxes job.now r.0 r.1.items)) }
    ensures tells { IfOk result
        (λ o. StepsOn (web_of job.now chain.now) queue (redone_in done.old.items)
        (diaries_of passes.old) (redone_in done.new.items) (diaries_of passes.new) (next_of o)) }
    ensures refused { IfErr result (λ e. e ≡ Resources) }
{
    gate.enter(queue);
    let (one, moves) = job.redo(alloc, boxes, queue)?;
    done.push(one)?;
    let error = job.error_of(queue);
    if error as usize >= job.definitions.len() {
        return Ok(None);
    }
    match chain.hand_on(job, passes, queue, error, moves) {
        Some(all) => Ok(Some((error, all))),
        None => Ok(None),
    }
}

/// Redoes a queue without sources, and then each error queue that was waiting only for this thread.
pub(crate) fn follow<G: Gate>(
    alloc: Global,
    job: &Job,
    chain: &CountdownChain,
    gate: &G,
    start: u32,
    passes: &mut [Pass<Outbox>],
    done: &mut Vec<Redone>,
) -> Result<(), Fault>
    requires job { IsJob job.now }
    requires chain { IsChainOf job.now chain.now }
    requires passes { ArePasses chain.now passes.old }
    requires start { (start < length job.now.definitions.now)
        × (listed job.now.sources.now start ≡ []) }
    ensures passes { IfOk result (λ _. ArePasses chain.now passes.new) }
    ensures done { IfOk result
        (λ _. All (IsRedone job.now) done.old.items → All (IsRedone job.now) done.new.items) }
    ensures follows { IfOk result (λ _. (starts : List ℕ) →
        HasFollowed job.now chain.now starts done.old.items passes.old
        → HasFollowed job.now chain.now (starts ++ start ∷ []) done.new.items passes.new) }
    ensures refused { IfErr result (λ e. e ≡ Resources) }
{
    let mut queue = start;
    let mut boxes = Vec::new(alloc);
    while let Some((error, all)) = step(alloc, job, chain, gate, queue, boxes, passes, done)? {
        queue = error;
        boxes = all;
    }
    Ok(())
}
