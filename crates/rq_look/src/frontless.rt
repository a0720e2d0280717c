//! A carried log that a restart refuses for its first checkpoint: it has no front, and what is right in
//! it is shown all the same.

ghost use Rattle.std.specs.Prelude.{◌≡◌, ◌<◌, ◌++◌, ◌⊎◌, IfErr, IfOk, OnOk, false, length, min, string_bytes};
ghost use Rattle.rq_record.specs.declared.fault.Fault.TheVariants.{NotALog, Resources};
ghost use Rattle.rq_judged.specs.Views.{why_of};
ghost use Rattle.rq_model.specs.Carrying.{carried_at};
ghost use Rattle.rq_behind.specs.Behind.{StandApart};
ghost use Rattle.rq_found.specs.Ends.{beginning_text, end_text};
ghost use Rattle.rq_found.specs.Refusals.{CountsFaults};
ghost use Rattle.rq_look.specs.Findings.{IsBehind, IsFrontless, behind_finding};
ghost use Rattle.rq_look.specs.Looks.{AppendsSome};

use crate::behind_fronts::{put_rest, standing_behind};
use crate::checks::Findings;
use crate::dumps::{put_closing, put_counted, put_frames, put_origin};
use crate::salvages::{put_spans, words_of};
use crate::sheet::write_out;
use crate::wanted::Wanted;
use rq_behind::Found;
use rq_found::{Diagnosis, End, Fault, Output, ShownLog, Trouble};
use rq_front::HEADER_LEN;
use std::alloc::{AllocError, Global};

// Where the front would begin, and the right frames from there on. A carried log has a header.
fn standing(alloc: Global, log: &ShownLog<'_>) -> Result<(End, Found), Fault>
    ensures end { IfOk result (λ x. (x.0.front.next ≡ 0)
        × (x.0.front.used ≡ min carried_at (length log.now.bytes.now))
        × (x.0.front.total ≡ length log.now.bytes.now)) }
    ensures behind { IfOk result (λ x.
        IsBehind log.now.bytes.now (min carried_at (length log.now.bytes.now)) x.1) }
    ensures apart { IfOk result (λ x. StandApart (min carried_at (length log.now.bytes.now))
        (length log.now.bytes.now) x.1.spans.items) }
    ensures refused { IfErr result (λ e. (e ≡ NotALog) ⊎ (e ≡ Resources)) }
{
    if log.bytes.len() < HEADER_LEN {
        return Err(Fault::NotALog);
    }
    let end = End::without_front(alloc, log)?;
    let found = standing_behind(alloc, log.bytes, &end)?;
    Ok((end, found))
}

// The lines of where the log begins, where its front would begin, and of the right frames from there on.
fn finding_text(
    alloc: Global,
    log: &ShownLog<'_>,
    end: &End,
    found: &Found,
) -> Result<String, AllocError>
    ensures { IfOk result (λ text. string_bytes text ≡ beginning_text log.now.at
        ++ end_text end.now.front.next end.now.front.used end.now.front.total
        (why_of end.now.front.why) (string_bytes end.now.reason)
        ++ behind_finding (why_of end.now.front.why) found.now end.now.front.total) }
{
    let mut text = String::new(alloc);
    End::put_beginning(&mut text, log.at)?;
    End::put_end(&mut text, end)?;
    put_rest(&mut text, end, found)?;
    Ok(text)
}

impl Findings {
    /// What a check finds of a carried log, as it is read, which a restart refuses with `NoCheckpoint` or
    /// `BadCheckpoint`: that it has no front, and which frames are right behind where that would begin.
    pub fn of_frontless(alloc: Global, log: &ShownLog<'_>) -> Result<Findings, Trouble>
        ensures fine { IfOk result (λ found. found.fine ≡ false) }
        ensures text { IfOk result
            (λ found. IsFrontless log.now.at log.now.bytes.now (string_bytes found.text)) }
    {
        let (end, found) = standing(alloc, log)?;
        let text = finding_text(alloc, log, &end, &found)?;
        Ok(Findings {
            fine: false,
            text,
            diagnosis: Diagnosis::Damaged,
        })
    }
}

/// Writes the right frames of such a log that are wanted, how many there are, and that it has no front,
/// as `dump` does behind a front.
#[tactic(auto, using(crate::proofs::Puts::frontless_unwritten))]
pub fn dump_frontless<W: Output>(
    alloc: Global,
    log: &ShownLog<'_>,
    wanted: &Wanted<'_>,
    output: &mut W,
) -> Result<(), Trouble>
    requires faults { W.faults output.old < 18446744073709551615 }
    ensures only { OnOk result (AppendsSome (W.contents output.old) (W.contents output.new)) }
    ensures faults { CountsFaults (W.faults output.old) (W.faults output.new) result }
{
    let (end, found) = standing(alloc, log)?;
    let most = wanted.limit;
    let mut text = String::new(alloc);
    put_frames(
        alloc,
        log.bytes,
        &found.spans,
        wanted,
        most,
        &mut text,
        output,
    )?;
    put_counted(alloc, &mut text, &found, end.front.total, wanted)?;
    put_origin(&mut text, log.at, wanted)?;
    put_closing(alloc, &mut text, log.at, &end, wanted)?;
    write_out(&mut text, output)?;
    Ok(())
}

/// Writes the records of the right frames of such a log, each in a line to choose it or not, as
/// `salvage` does behind a front.
#[tactic(auto, using(crate::proofs::Puts::frontless_unwritten))]
pub fn salvage_frontless<W: Output>(
    alloc: Global,
    log: &ShownLog<'_>,
    output: &mut W,
) -> Result<(), Trouble>
    requires faults { W.faults output.old < 18446744073709551615 }
    ensures only { OnOk result (AppendsSome (W.contents output.old) (W.contents output.new)) }
    ensures faults { CountsFaults (W.faults output.old) (W.faults output.new) result }
{
    let (end, found) = standing(alloc, log)?;
    let from = end.front.used as usize;
    let mut words = words_of(alloc, &end, &found)?;
    write_out(&mut words, output)?;
    put_spans(alloc, log.bytes, &found, from, &mut words, output)?;
    Ok(())
}
