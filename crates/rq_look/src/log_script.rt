//! The script of a log.

ghost use Rattle.std.specs.Prelude.{◌≡◌, ◌<◌, ◌∷◌, ◌++◌, ℕ, List, Some, None, true, false};
ghost use Rattle.std.specs.Prelude.{IfOk, IfErr, OnOk, string_bytes};
ghost use Rattle.std.specs.Fmt.{decimal};
ghost use Rattle.std.specs.Io.KnownBytes.{Appends};
ghost use Rattle.rq_model.specs.Frames.{AreBytes};
ghost use Rattle.rq_model.specs.Fronts.{Restarted};
ghost use Rattle.rq_model.specs.Checkpoints.{IsCheckpointAt};
ghost use Rattle.rq_model.specs.States.{empty};
ghost use Rattle.rq_model.specs.Records as model;
ghost use Rattle.rq_model.specs.Records.{Two};
ghost use Rattle.rq_model.specs.Spelling.{Spells};
ghost use Rattle.rq_model.specs.Reports.{payload_text};
ghost use Rattle.rq_record.specs.Views.{record_of};
ghost use Rattle.rq_front.specs.Chains.{IsLog};
ghost use Rattle.rq_judged.specs.FrontEnds.{IsEndOf};
ghost use Rattle.rq_writer.specs.Script.{record_text, who_name, who_tag, IsNamed, IsTellable};
ghost use Rattle.rq_found.specs.Ends as ends;
ghost use Rattle.rq_found.specs.Ends.{IsRestartFrom};
ghost use Rattle.rq_found.specs.Records.{SpelledIn};
ghost use Rattle.rq_found.specs.Refusals.{CountsFaults};
ghost use Rattle.rq_look.specs.Looks.{BreaksOff, LacksScript};
ghost use Rattle.rq_look.specs.Scripts.{IsDash, LeavesBody, LeavesOut, PutsScript, by_in};
ghost use Rattle.rq_look.specs.Scripts.{script_line};

use crate::sheet::{relieve, write_out};
use crate::shown_records::by_of;
use rq_found::{End, Numbered, Output, Placed, PlacedFrames, Put, ShownLog, TextPiece, Trouble};
use rq_record::{KeptBy, KeptName, KeptRecord, QueueNo, UnitNo};
use rq_report::put_error;
use rq_state::State;
use std::alloc::Global;
use std::fmt::Write;
use std::thread::Threads;

fn put_hex(alloc: Global, text: &mut String, bytes: &[u8]) -> Put
    ensures text { OnOk result
        (string_bytes text.new ≡ string_bytes text.old ++ payload_text bytes.now) }
    ensures bytes { AreBytes bytes.now }
{
    if bytes.is_empty() {
        return text.push_str("-");
    }
    TextPiece::put_digits(alloc, text, bytes, bytes.len())?;
    Ok(())
}

fn put_definition(text: &mut String, name: &KeptName, limit: u16, error: QueueNo) -> Put
    ensures { OnOk result (string_bytes text.new ≡ string_bytes text.old
        ++ record_text (model.Define limit error.0 name.now)) }
{
    text.push_str("define ")?;
    text.push_str(name.text())?;
    write!(text, " {limit} ")?;
    put_error(text, error)
}

fn put_named(text: &mut String, word: &str, queue: QueueNo, name: &KeptName) -> Put
    ensures { OnOk result (string_bytes text.new ≡ string_bytes text.old
        ++ (word.now ++ (decimal queue.0 ++ (32 ∷ name.now)))) }
{
    let number = queue.0;
    text.push_str(word)?;
    write!(text, "{number} ")?;
    text.push_str(name.text())
}

fn put_unit(text: &mut String, word: &str, unit: UnitNo) -> Put
    ensures { OnOk result
        (string_bytes text.new ≡ string_bytes text.old ++ (word.now ++ decimal unit.0)) }
{
    let number = unit.0;
    text.push_str(word)?;
    write!(text, "{number}")
}

fn put_unit_and_queue(text: &mut String, word: &str, unit: UnitNo, queue: QueueNo) -> Put
    ensures { OnOk result (string_bytes text.new ≡ string_bytes text.old
        ++ (word.now ++ (decimal unit.0 ++ (32 ∷ decimal queue.0)))) }
{
    let (unit, queue) = (unit.0, queue.0);
    text.push_str(word)?;
    write!(text, "{unit} {queue}")
}

// Puts the registrant and the tag of an operation.
fn put_who(text: &mut String, by: &KeptBy) -> Put
    ensures { OnOk result (string_bytes text.new ≡ string_bytes text.old
        ++ (32 ∷ (who_name by.now ++ (32 ∷ decimal (who_tag by.now))))) }
{
    match by.by() {
        Some(by) => {
            let tag = by.tag;
            text.push_str(" ")?;
            text.push_str(by.name.text())?;
            write!(text, " {tag}")
        }
        None => {
            let tag: u64 = 0;
            write!(text, " - {tag}")
        }
    }
}

// Puts what an enqueue says of its element.
fn put_element(alloc: Global, text: &mut String, priority: u8, by: &KeptBy, payload: &[u8]) -> Put
    ensures text { OnOk result (string_bytes text.new ≡ string_bytes text.old
        ++ (32 ∷ (decimal priority ++ (32 ∷ (who_name by.now
        ++ (32 ∷ (decimal (who_tag by.now) ++ (32 ∷ payload_text payload.now)))))))) }
    ensures bytes { AreBytes payload.now }
{
    write!(text, " {priority}")?;
    put_who(text, by)?;
    text.push_str(" ")?;
    put_hex(alloc, text, payload)
}

// Puts the record of a checkpoint, in hexadecimal.
fn put_checkpoint(alloc: Global, text: &mut String, bytes: &[u8]) -> Put
    ensures text { OnOk result (string_bytes text.new ≡ string_bytes text.old
        ++ record_text (model.Checkpoint bytes.now)) }
    ensures bytes { AreBytes bytes.now }
{
    text.push_str("checkpoint-hex ")?;
    put_hex(alloc, text, bytes)
}

// Puts a record, but for the end of its line.
fn put_record(alloc: Global, text: &mut String, r: &KeptRecord) -> Put
    ensures text { OnOk result
        (string_bytes text.new ≡ string_bytes text.old ++ record_text (record_of r.now)) }
    ensures tellable { OnOk result
        (IsNamed (by_in (record_of r.now)) → IsTellable (record_of r.now)) }
{
    match r {
        KeptRecord::Define { limit, error, name } => put_definition(text, name, *limit, *error),
        KeptRecord::Register { queue, name } => put_named(text, "register ", *queue, name),
        KeptRecord::Deregister { queue, name } => put_named(text, "deregister ", *queue, name),
        KeptRecord::Begin { unit } => put_unit(text, "begin ", *unit),
        KeptRecord::Commit { unit } => put_unit(text, "commit ", *unit),
        KeptRecord::Abort { unit } => put_unit(text, "abort ", *unit),
        KeptRecord::Enqueue {
            unit,
            queue,
            by,
            priority,
            payload,
        } => {
            put_unit_and_queue(text, "enqueue ", *unit, *queue)?;
            put_element(alloc, text, *priority, by, payload.bytes())
        }
        KeptRecord::Dequeue { unit, queue, by } => {
            put_unit_and_queue(text, "dequeue ", *unit, *queue)?;
            put_who(text, by)
        }
        KeptRecord::Checkpoint { bytes } => put_checkpoint(alloc, text, bytes.bytes()),
        KeptRecord::Kill { queue, element } => {
            let (queue, element) = (queue.0, element.0);
            write!(text, "kill {queue} {element}")
        }
    }
}

/// Whether the operation names the registrant whom a script takes for nobody.
pub(crate) fn is_untold(r: &KeptRecord) -> bool
    ensures dash { result ≡ true → IsDash (by_in (record_of r.now)) }
    ensures named { result ≡ false → IsNamed (by_in (record_of r.now)) }
{
    match by_of(r) {
        Some(by) => by.name.text() == "-",
        None => false,
    }
}

/// Puts the line of a record.
pub(crate) fn put_line(alloc: Global, text: &mut String, r: &KeptRecord) -> Put
    ensures line { OnOk result
        (string_bytes text.new ≡ string_bytes text.old ++ script_line (record_of r.now)) }
    ensures tellable { OnOk result
        (IsNamed (by_in (record_of r.now)) → IsTellable (record_of r.now)) }
{
    put_record(alloc, text, r)?;
    text.push_str("\n")
}

// Puts the line of the record of a frame. Where no line tells it, the text goes to the output before
// this is said.
fn put_placed<W: Output>(
    alloc: Global,
    text: &mut String,
    placed: Placed<'_>,
    output: &mut W,
) -> Result<(), Trouble>
    requires faults { W.faults output.old < 18446744073709551615 }
    ensures line { OnOk result ((r : model.Record) × (put : List ℕ)
        × Spells Two r placed.entry.body.now × IsTellable r
        × Appends (W.contents output.old) (W.contents output.new) put
        × (string_bytes text.old ++ script_line r ≡ put ++ string_bytes text.new)) }
    ensures untold { IfErr result (LeavesBody placed.entry.number placed.entry.body.now
        (string_bytes text.old) (W.contents output.old) (W.contents output.new)) }
    ensures refused { IfErr result BreaksOff }
    ensures faults { CountsFaults (W.faults output.old) (W.faults output.new) result }
{
    let it = Numbered::of(alloc, placed, 0)?;
    if is_untold(&it.record) {
        write_out(text, output)?;
        return Err(Trouble::Untold(it.number));
    }
    put_line(alloc, text, &it.record)?;
    relieve(text, output)?;
    Ok(())
}

/// Writes the script of the front, of so many bytes, whose records begin behind this state.
pub(crate) fn put_records<W: Output>(
    alloc: Global,
    log: &ShownLog<'_>,
    first: &State,
    used: u64,
    output: &mut W,
) -> Result<(), Trouble>
    requires restart { (r : Restarted) × IsRestartFrom log.now.at log.now.bytes.now r
        × (used ≡ r.used) }
    requires start { log.now.at ≡ None → first.now ≡ empty }
    requires there { (offset : ℕ) (kept : List ℕ) → log.now.at ≡ Some offset
        → IsCheckpointAt log.now.bytes.now offset kept → SpelledIn log.now.bytes.now kept first.now }
    requires faults { W.faults output.old < 18446744073709551615 }
    ensures script { OnOk result (PutsScript log.now.at log.now.bytes.now
        (W.contents output.old) (W.contents output.new)) }
    ensures untold { IfErr result (LeavesOut log.now.at log.now.bytes.now
        (W.contents output.old) (W.contents output.new)) }
    ensures refused { IfErr result BreaksOff }
    ensures faults { CountsFaults (W.faults output.old) (W.faults output.new) result }
{
    let mut text = String::new(alloc);
    for placed in PlacedFrames::front_frames(log.bytes, first, log.at, used) {
        put_placed(alloc, &mut text, placed, output)?;
    }
    write_out(&mut text, output)?;
    Ok(())
}

/// Writes the script of the front of a log, from the checkpoint on that it begins with, if it was
/// carried on, and answers where it ends.
#[tactic(auto, using(rq_found::proofs::Writes::refused_unwritten))]
pub(crate) fn put_front_script<R: Threads + Sync, W: Output>(
    rt: &R,
    alloc: Global,
    log: &ShownLog<'_>,
    output: &mut W,
) -> Result<End, Trouble>
    requires faults { W.faults output.old < 18446744073709551615 }
    ensures end { IfOk result (λ end. (r : Restarted) × IsRestartFrom log.now.at log.now.bytes.now r
        × IsEndOf r end.front) }
    ensures log { OnOk result (IsLog log.now.bytes.now) }
    ensures script { OnOk result (PutsScript log.now.at log.now.bytes.now
        (W.contents output.old) (W.contents output.new)) }
    ensures refused { IfErr result (LacksScript log.now.at log.now.bytes.now
        (W.contents output.old) (W.contents output.new)) }
    ensures faults { CountsFaults (W.faults output.old) (W.faults output.new) result }
{
    let end = End::of(rt, alloc, log)?;
    let first = ShownLog::first_state(alloc, log.bytes, log.at)?;
    put_records(alloc, log, &first, end.front.used, output)?;
    Ok(end)
}

/// Writes the script of the front of a log, a line for each record, and answers whether that is the
/// whole log. Of a log that was carried on it begins with the line of its first checkpoint.
///
/// Refuses with `Untold` the first operation of the registrant `-`, which no script tells, once the
/// lines of the records before it are written; else as `dump` does.
pub fn script<R: Threads + Sync, W: Output>(
    rt: &R,
    alloc: Global,
    log: &ShownLog<'_>,
    output: &mut W,
) -> Result<bool, Trouble>
    requires faults { W.faults output.old < 18446744073709551615 }
    ensures script { IfOk result (λ whole. (r : Restarted)
        × IsRestartFrom log.now.at log.now.bytes.now r × (whole ≡ ends.is_whole r.why)) }
    ensures told { OnOk result (PutsScript log.now.at log.now.bytes.now
        (W.contents output.old) (W.contents output.new)) }
    ensures refused { IfErr result (LacksScript log.now.at log.now.bytes.now
        (W.contents output.old) (W.contents output.new)) }
    ensures faults { CountsFaults (W.faults output.old) (W.faults output.new) result }
{
    let end = put_front_script(rt, alloc, log, output)?;
    Ok(end.is_whole())
}
