//! What became of one element, and what one unit did.

ghost use Rattle.std.specs.Prelude.{◌≡◌, ◌<◌, [], IfOk, IfErr, OnOk, string_bytes};
ghost use Rattle.rq_front.specs.Chains.{IsLog};
ghost use Rattle.rq_record.specs.declared.fault.Fault.TheVariants.{Resources};
ghost use Rattle.rq_found.specs.Refusals.{CountsFaults, IsBroken};
ghost use Rattle.rq_look.specs.Looks.{AppendsSome, LacksStory, StaysWithoutStory};

use crate::lines::put_record;
use crate::sheet::{relieve, write_out};
use crate::shown_records::{ShownRecord, unit_number};
use rq_found::{
    End, Event, Followed, Numbered, Output, Placed, PlacedFrames, Put, ShownLog, Subject, Trouble,
};
use rq_record::Fault;
use std::alloc::{AllocError, Global};
use std::fmt::Write;
use std::thread::Threads;

// Whether an event is of the subject; each event of a unit's record is.
fn concerns(subject: Subject, event: &Event) -> bool {
    match subject {
        Subject::Element(told) => matches!(event, Event::To(element, _) if *element == told),
        Subject::Unit(_) => true,
    }
}

// Why something happens: by a record of the front, or as the restart aborts a unit.
#[derive(Clone, Copy)]
enum Cause<'a> {
    Record(&'a Numbered),
    Restart(u64),
}

impl Cause<'_> {
    // The unit that does it.
    fn unit(&self) -> Option<u64> {
        match self {
            Cause::Record(it) => unit_number(&it.record),
            Cause::Restart(unit) => Some(*unit),
        }
    }

    fn put(&self, alloc: Global, text: &mut String) -> Put {
        match self {
            Cause::Record(it) => put_record(alloc, text, &ShownRecord::of(it), false),
            Cause::Restart(unit) => write!(text, "the restart aborts unit {unit}"),
        }
    }
}

// Puts a line for each event that is of the subject, and one if the subject is a unit that did
// nothing else. Answers how many.
fn put_events(
    alloc: Global,
    text: &mut String,
    cause: &Cause<'_>,
    events: &[Event],
    subject: Subject,
) -> Result<u64, AllocError>
    ensures { IfOk result (λ count. count ≡ 0 → string_bytes text.new ≡ string_bytes text.old) }
{
    if let Subject::Unit(unit) = subject {
        if cause.unit() != Some(unit) {
            return Ok(0);
        }
        if events.is_empty() {
            cause.put(alloc, text)?;
            text.push('\n')?;
            return Ok(1);
        }
    }
    let mut count: u64 = 0;
    for event in events {
        if concerns(subject, event) {
            cause.put(alloc, text)?;
            write!(text, ": {event}\n")?;
            count = count.saturating_add(1);
        }
    }
    Ok(count)
}

// Tells of a record of the front. Answers in how many lines.
fn tell_record<W: Output>(
    alloc: Global,
    placed: Placed<'_>,
    subject: Subject,
    followed: &mut Followed,
    text: &mut String,
    output: &mut W,
) -> Result<u64, Trouble>
    requires faults { W.faults output.old < 18446744073709551615 }
    ensures only { OnOk result (AppendsSome (W.contents output.old) (W.contents output.new)) }
    ensures nothing { IfOk result (λ count. count ≡ 0 → string_bytes text.old ≡ []
        → (W.contents output.new ≡ W.contents output.old) × (string_bytes text.new ≡ [])) }
    ensures refused { IfErr result IsBroken }
    ensures faults { CountsFaults (W.faults output.old) (W.faults output.new) result }
{
    let it = followed.follow(placed)?;
    let count = put_events(alloc, text, &Cause::Record(&it), followed.events(), subject)?;
    relieve(text, output)?;
    Ok(count)
}

// Tells of each record of the front, which begins behind these queues. Answers in how many lines.
fn tell_front<W: Output>(
    alloc: Global,
    frames: PlacedFrames<'_>,
    followed: &mut Followed,
    subject: Subject,
    text: &mut String,
    output: &mut W,
) -> Result<u64, Trouble>
    requires faults { W.faults output.old < 18446744073709551615 }
    ensures only { OnOk result (AppendsSome (W.contents output.old) (W.contents output.new)) }
    ensures nothing { IfOk result
        (λ told. told ≡ 0 → string_bytes text.old ≡ []
        → W.contents output.new ≡ W.contents output.old) }
    ensures refused { IfErr result IsBroken }
    ensures faults { CountsFaults (W.faults output.old) (W.faults output.new) result }
{
    let mut told: u64 = 0;
    for placed in frames {
        let count = tell_record(alloc, placed, subject, followed, text, output)?;
        told = told.saturating_add(count);
    }
    Ok(told)
}

// Tells what the restart does behind the front: it aborts the open units, rising.
fn tell_restart(
    alloc: Global,
    text: &mut String,
    followed: &mut Followed,
    subject: Subject,
) -> Result<(), Fault>
    ensures { IfErr result (λ e. e ≡ Resources) }
{
    let units = followed.machine().open_units(alloc)?;
    for unit in units.iter() {
        followed.abort(*unit)?;
        put_events(
            alloc,
            text,
            &Cause::Restart(unit.0),
            followed.events(),
            subject,
        )?;
    }
    Ok(())
}

// Tells of the front, which begins behind these queues, and of its end.
fn tell_all<W: Output>(
    alloc: Global,
    frames: PlacedFrames<'_>,
    followed: &mut Followed,
    end: &End,
    subject: Subject,
    text: &mut String,
    output: &mut W,
) -> Result<(), Trouble>
    requires nothing { string_bytes text.now ≡ [] }
    requires faults { W.faults output.old < 18446744073709551615 }
    ensures only { OnOk result (AppendsSome (W.contents output.old) (W.contents output.new)) }
    ensures refused { IfErr result
        (LacksStory subject (W.contents output.old) (W.contents output.new)) }
    ensures faults { CountsFaults (W.faults output.old) (W.faults output.new) result }
{
    let told = tell_front(alloc, frames, followed, subject, text, output)?;
    if told == 0 {
        return Err(Trouble::Nothing(subject));
    }
    End::put_beginning(text, end.at)?;
    End::put_end(text, end)?;
    tell_restart(alloc, text, followed, subject)?;
    write_out(text, output)?;
    Ok(())
}

fn tell<W: Output>(
    alloc: Global,
    bytes: &[u8],
    end: &End,
    subject: Subject,
    output: &mut W,
) -> Result<(), Trouble>
    requires faults { W.faults output.old < 18446744073709551615 }
    ensures only { OnOk result (AppendsSome (W.contents output.old) (W.contents output.new)) }
    ensures refused { IfErr result
        (LacksStory subject (W.contents output.old) (W.contents output.new)) }
    ensures faults { CountsFaults (W.faults output.old) (W.faults output.new) result }
{
    let first = ShownLog::first_state(alloc, bytes, end.at)?;
    let mut followed = Followed::of(alloc, &first)?;
    let mut text = String::new(alloc);
    let frames = PlacedFrames::front_frames(bytes, &first, end.at, end.front.used);
    tell_all(
        alloc,
        frames,
        &mut followed,
        end,
        subject,
        &mut text,
        output,
    )
}

/// Writes what became of an element, or what a unit did: a line for each record of the front that
/// has to do with it, where the front ends, and what the restart's aborts do to it. The front begins
/// with the checkpoint that the log begins with, if it was carried on, and then a line says so.
///
/// Refuses with `Nothing` a subject of which there is nothing to tell, and then nothing is written;
/// else as `dump` does.
#[tactic(auto, using(rq_found::proofs::Writes::refused_unwritten))]
pub fn story<R: Threads + Sync, W: Output>(
    rt: &R,
    alloc: Global,
    subject: Subject,
    log: &ShownLog<'_>,
    output: &mut W,
) -> Result<(), Trouble>
    requires faults { W.faults output.old < 18446744073709551615 }
    ensures log { OnOk result (IsLog log.now.bytes.now) }
    ensures only { OnOk result (AppendsSome (W.contents output.old) (W.contents output.new)) }
    ensures refused { IfErr result (StaysWithoutStory log.now.at log.now.bytes.now subject
        (W.contents output.old) (W.contents output.new)) }
    ensures faults { CountsFaults (W.faults output.old) (W.faults output.new) result }
{
    let end = End::of(rt, alloc, log)?;
    tell(alloc, log.bytes, &end, subject, output)
}
