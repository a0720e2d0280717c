//! Numbers of a log: as lines, and as JSON.

ghost use Rattle.std.specs.Prelude.{◌≡◌, ◌<◌, ◌++◌, ℕ, List, IfOk, IfErr, OnOk, codes, string_bytes};
ghost use Rattle.rq_model.specs.Fronts as fronts;
ghost use Rattle.rq_record.specs.declared.fault.Fault.TheVariants.{Resources};
ghost use Rattle.rq_front.specs.Chains.{IsLog};
ghost use Rattle.rq_judged.specs.FrontEnds.{IsEndOf};
ghost use Rattle.rq_judged.specs.Views.{why_of};
ghost use Rattle.rq_found.specs.Ends.{IsRestartFrom, beginning_text, end_text};
ghost use Rattle.rq_found.specs.Refusals.{CountsFaults, StaysUnshown};
ghost use Rattle.rq_found.specs.declared.trouble.Trouble.TheVariants.{Log};
ghost use Rattle.rq_stats.specs.Statistics.{AreNumbers, PutsNumbers};

use crate::measures::{Measures, counted};
use crate::shown::{StatisticsShown, lines_of, rows_of};
use rq_found::{End, FrontShown, Output, ShownLog, Trouble, write_bytes};
use std::alloc::{AllocError, Global};
use std::thread::Threads;

// All lines.
fn text_of(
    alloc: Global,
    at: Option<u64>,
    end: &End,
    measures: &Measures,
) -> Result<String, AllocError>
    ensures { IfOk result (λ text. (lines : List ℕ) × (string_bytes text
        ≡ beginning_text at ++ (end_text end.now.front.next end.now.front.used end.now.front.total
        (why_of end.now.front.why) (string_bytes end.now.reason) ++ lines))) }
{
    let lines = lines_of(alloc, measures)?;
    let mut text = String::new(alloc);
    End::put_beginning(&mut text, at)?;
    End::put_end(&mut text, end)?;
    text.push_str(lines.as_str())?;
    Ok(text)
}

// The same as one value of JSON. What it holds of a log are names, which have no character that is
// hidden.
fn json_of(alloc: Global, end: &End, measures: &Measures) -> Result<String, Trouble>
    ensures line { IfOk result
        (λ text. (object : List ℕ) × (string_bytes text ≡ object ++ codes "\n")) }
    ensures refused { IfErr result (λ e. e ≡ Log Resources) }
{
    let (front, rows) = (FrontShown::of(end), rows_of(alloc, measures)?);
    let mut text = serde_json::to_string_pretty(alloc, &StatisticsShown { front, rows: &rows })?;
    text.push('\n')?;
    Ok(text)
}

// The numbers of a front of which the end is known.
fn numbers_of(alloc: Global, log: &ShownLog<'_>, end: &End, json: bool) -> Result<String, Trouble>
    requires end { (r : fronts.Restarted) × IsRestartFrom log.now.at log.now.bytes.now r
        × IsEndOf r end.now.front }
    ensures numbers { IfOk result
        (λ text. AreNumbers log.now.at log.now.bytes.now json (string_bytes text)) }
    ensures refused { IfErr result (λ e. e ≡ Log Resources) }
{
    let measures: Measures = counted(alloc, log, end)?;
    if json {
        let object = json_of(alloc, end, &measures)?;
        return Ok(object);
    }
    let text = text_of(alloc, log.at, end, &measures)?;
    Ok(text)
}

/// Writes numbers of a log: where its front ends, the records and bytes of each kind, the units by
/// outcome, those that were open over the most records, the largest payloads, and the queues with
/// the most free elements after the restart and those to which the most elements moved; of each the
/// first ten. As lines, or as one value of JSON; from the checkpoint on that the log begins with, if it
/// was carried on.
///
/// Refuses what a restart from there refuses; with `Resources` if memory is refused, before
/// anything is written, and with `WriteFailed` if a write failed.
#[tactic(auto, using(rq_found::proofs::Writes::refused_unwritten))]
pub fn stats<R: Threads + Sync, W: Output>(
    rt: &R,
    alloc: Global,
    log: &ShownLog<'_>,
    json: bool,
    output: &mut W,
) -> Result<(), Trouble>
    requires faults { W.faults output.old < 18446744073709551615 }
    ensures log { OnOk result (IsLog log.now.bytes.now) }
    ensures numbers { OnOk result (PutsNumbers log.now.at log.now.bytes.now json
        (W.contents output.old) (W.contents output.new)) }
    ensures refused { IfErr result (StaysUnshown log.now.at log.now.bytes.now
        (W.contents output.old) (W.contents output.new)) }
    ensures faults { CountsFaults (W.faults output.old) (W.faults output.new) result }
{
    let end = End::of(rt, alloc, log)?;
    let text = numbers_of(alloc, log, &end, json)?;
    write_bytes(output, text.as_bytes())?;
    Ok(())
}
