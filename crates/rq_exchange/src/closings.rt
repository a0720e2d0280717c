//! The countdowns closed, each with all its passes.

ghost use Rattle.std.specs.Prelude.{◌≡◌, ◌<◌, length, map, All, IfOk, IfErr};
ghost use Rattle.rq_record.specs.declared.fault.Fault.TheVariants.{Resources};
ghost use Rattle.rq_pool.specs.Countdowns.Words.{histories_of, history_of};
ghost use Rattle.rq_exchange.specs.Chains.{ArePasses, HasPasses, IsColumn, IsSettled};
ghost use Rattle.rq_exchange.specs.Courses.{Recounts};
ghost use Rattle.rq_exchange.specs.Pairs.{EachWith};
ghost use Rattle.rq_exchange.specs.Workers.{AreSettled};

use crate::chain::CountdownChain;
use crate::columns::columns;
use crate::course::Course;
use crate::crew::WorkDone;
use crate::outboxes::{Outbox, Redone};
use rq_pool::{Closing, Countdown, Pass};
use rq_record::Fault;
use std::alloc::Global;

// Closes each countdown with its passes.
fn close_all(
    alloc: Global,
    countdowns: Vec<Countdown<Outbox>>,
    columns: Vec<Vec<Pass<Outbox>>>,
) -> Result<Vec<Closing<Outbox>>, Fault>
    requires own { EachWith IsColumn countdowns.items columns.items }
    ensures settled { IfOk result (λ _. EachWith IsSettled countdowns.items columns.items) }
    ensures histories { IfOk result (λ v. map histories_of v.items
        ≡ map (λ column. map history_of column.items) columns.items) }
    ensures refused { IfErr result (λ e. e ≡ Resources) }
{
    let mut closings = Vec::with_capacity(alloc, countdowns.len())?;
    let mut countdowns = countdowns;
    let mut columns = columns;
    while let Some(countdown) = countdowns.pop() {
        let Some(column) = columns.pop() else {
            unreachable!()
        };
        closings.push(countdown.close(column))?;
    }
    closings.reverse();
    Ok(closings)
}

// The passes of each thread, and what it redid.
fn apart(
    alloc: Global,
    kept: Vec<WorkDone>,
) -> Result<(Vec<Vec<Pass<Outbox>>>, Vec<Vec<Redone>>), Fault>
    ensures passes { IfOk result (λ r. r.0.items ≡ map (λ k. k.passes) kept.items) }
    ensures done { IfOk result (λ r. r.1.items ≡ map (λ k. k.done) kept.items) }
    ensures refused { IfErr result (λ e. e ≡ Resources) }
{
    let mut rows = Vec::with_capacity(alloc, kept.len())?;
    let mut all = Vec::with_capacity(alloc, kept.len())?;
    for one in kept {
        let WorkDone { passes, done } = one;
        rows.push(passes)?;
        all.push(done)?;
    }
    Ok((rows, all))
}

/// Closes all countdowns with the passes of all threads. Answers what the threads redid, and how
/// the replay went.
pub(crate) fn close_countdowns(
    alloc: Global,
    chain: CountdownChain,
    kept: Vec<WorkDone>,
) -> Result<(Vec<Vec<Redone>>, Course), Fault>
    requires passes { HasPasses chain (length kept.items) }
    requires kept { All (λ k. ArePasses chain k.passes.items) kept.items }
    requires some { 0 < length kept.items }
    ensures done { IfOk result (λ r. r.0.items ≡ map (λ k. k.done) kept.items) }
    ensures settled { IfOk result (λ _. AreSettled chain kept.items) }
    ensures course { IfOk result (λ r. Recounts chain kept.items r.1) }
    ensures refused { IfErr result (λ e. e ≡ Resources) }
{
    let CountdownChain { countdowns, slots } = chain;
    let (rows, all) = apart(alloc, kept)?;
    let columns = columns(alloc, rows, countdowns.len())?;
    let closings = close_all(alloc, countdowns, columns)?;
    let course = Course::of(closings, slots, &all);
    Ok((all, course))
}
