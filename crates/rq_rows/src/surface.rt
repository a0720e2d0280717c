//! The calls of the public surface, as a caller writes them from the statement, each once, with ample
//! memory.

ghost use Rattle.std.specs.Prelude.{◌<◌};

use crate::logs::{CHECKPOINT, ONE_ELEMENT, answer, log_of};
use rq_catalog::{Outcome, analyse_kept};
use rq_front::{Chain, Rest, chain, frame};
use rq_queue::Part;
use rq_record::{KeptRecord, QueueNo, UnitNo, Version};
use rq_report::write_report;
use rq_restart::{Restarted, Why, front_state, restart};
use rq_state::{Mark, Note, State};
use rq_tool::{Command, Input, Open, Output, OverRead, OverWrite, Plan, command, run, run_at};
use std::alloc::Global;
use std::io::Cursor;
use std::test::Fail;
use std::thread::Threads;

// Up to here a unit is open in the log of `CHECKPOINT`, and here its checkpoint stands.
const OPEN_TO: usize = 679;

const CHECKPOINT_AT: u64 = 447;

// The log of `CHECKPOINT` while its second unit is open.
fn open_log<R: Threads + Sync + AllocGlobal>(rt: &R) -> Result<Vec<u8>, Fail> {
    let mut log = log_of(rt, CHECKPOINT)?;
    log.truncate(OPEN_TO);
    Ok(log)
}

// Whether the numbers of a restart of it are told by their calls.
fn is_told(found: &Restarted) -> bool {
    let numbers = [
        found.records(),
        found.committed(),
        found.aborted(),
        found.cut_off(),
    ];
    let bytes = [found.used(), found.total()];
    numbers == [9, 1, 0, 1] && bytes == [679, 679] && found.why() == Why::Whole
}

// What is written of it ends so, with the element that came back.
const END: &[u8] = b"e 3 from 0 priority 5 attempts 1 61\nr ann none\n";

// Whether that is written of it.
fn is_written(alloc: Global, found: &Restarted) -> Result<bool, Fail> {
    let mut output = OverWrite::new(Vec::new(alloc));
    write_report(alloc, found, &mut output)?;
    let text = output.into_inner();
    Ok(text.ends_with(END) && found.state().element_count() == 1)
}

/// Whether a restart of a log with an open unit is told, and written.
pub fn is_restarted<R: Threads + Sync + AllocGlobal>(rt: &R) -> Result<bool, Fail> {
    let plan = Plan::new(2, 1).ok_or("plan")?;
    let log = open_log(rt)?;
    let found = restart(rt, rt.alloc(), &log, &plan, &Open)?;
    Ok(is_told(&found) && is_written(rt.alloc(), &found)?)
}

// Whether the state has a unit that holds an element, put one in, and noted who did the first.
fn has_marks(state: &State) -> bool {
    if state.element_count() != 2 || state.note_count() != 1 {
        return false;
    }
    let note: &Note = state.note(0);
    let marks = (state.element(0).mark, state.element(1).mark);
    marks == (Mark::Held(UnitNo(2)), Mark::Fresh(UnitNo(2))) && note.unit == UnitNo(2)
}

// Whether the part of its first queue says which queue it is.
fn has_first_part(alloc: Global, state: &State) -> Result<bool, Fail> {
    if state.definition_count() == 0 {
        return Ok(false);
    }
    Ok(Part::of(alloc, state, QueueNo(0))?.queue() == QueueNo(0))
}

/// Whether the marks, the notes and the parts of the state with the open unit are seen.
pub fn marks_are_seen<R: Threads + Sync + AllocGlobal>(rt: &R) -> Result<bool, Fail> {
    let plan = Plan::new(1, 1000).ok_or("plan")?;
    let log = open_log(rt)?;
    let state = front_state(rt, rt.alloc(), &log, &plan)?;
    Ok(has_marks(&state) && has_first_part(rt.alloc(), &state)?)
}

/// A log of four records, and behind it these bytes.
pub fn log_with<R: Threads + Sync + AllocGlobal>(rt: &R, bytes: &[u8]) -> Result<Vec<u8>, Fail> {
    let mut log = log_of(rt, ONE_ELEMENT)?;
    log.extend_from_slice(bytes)?;
    Ok(log)
}

/// A log of four records, and behind it the frame of a body.
pub fn log_framed<R: Threads + Sync + AllocGlobal>(
    rt: &R,
    body: &[u8; 9],
) -> Result<Vec<u8>, Fail> {
    let mut log = log_of(rt, ONE_ELEMENT)?;
    let mut last = [0u8; 32];
    last.copy_from_slice(log.last_chunk::<32>().ok_or("digest")?);
    frame(&last, body, &mut log)?;
    Ok(log)
}

/// Why the front of a log ends.
pub fn why<R: Threads + Sync + AllocGlobal>(rt: &R, log: &[u8]) -> Result<Why, Fail> {
    let plan = Plan::new(1, 1).ok_or("plan")?;
    Ok(restart(rt, rt.alloc(), log, &plan, &Open)?.why())
}

/// Whether a log has four frames behind its header, and all are right.
pub fn has_right_chain<R: Threads + Sync + AllocGlobal>(rt: &R, log: &[u8]) -> Result<bool, Fail> {
    if log.len() < 40 {
        return Ok(false);
    }
    let found: Chain = chain(rt, rt.alloc(), log, 40, 1)?;
    Ok(found.spans.len() == 4 && found.end == log.len() && found.rest == Rest::Whole)
}

/// Whether a unit is open behind its BEGIN.
pub fn is_open(alloc: Global) -> Result<bool, Fail> {
    let begin = [KeptRecord::Begin { unit: UnitNo(1) }];
    let found = analyse_kept(alloc, Version::One, &State::empty(alloc), &begin)?;
    Ok(found.outcome(UnitNo(1)) == Some(Outcome::Open))
}

// Restarts what is read from a checkpoint on, and writes the report.
fn restarted_at<R, I, O>(rt: &R, input: &mut I, output: &mut O, offset: u64) -> bool
where
    R: Threads + Sync + AllocGlobal,
    I: Input,
    O: Output,
    requires reads { I.faults input.old < 18446744073709551615 }
    requires writes { O.faults output.old < 18446744073709551615 }
{
    match Plan::new(2, 1) {
        Some(plan) => run_at(rt, rt.alloc(), input, output, offset, &plan, &Open).is_ok(),
        None => false,
    }
}

// What is written of the log of `CHECKPOINT` begins so.
const BEGINNING: &[u8] = b"front 10 records, 724 of 724 bytes, whole\n";

/// Whether a report is written of a log, by two workers, that is restarted from its checkpoint.
pub fn is_restarted_at<R: Threads + Sync + AllocGlobal>(rt: &R) -> Result<bool, Fail> {
    let log = log_of(rt, CHECKPOINT)?;
    let mut input = OverRead::new(Cursor::new(log.as_slice()));
    let mut output = OverWrite::new(Vec::new(rt.alloc()));
    let is_done = restarted_at(rt, &mut input, &mut output, CHECKPOINT_AT);
    Ok(is_done && output.into_inner().starts_with(BEGINNING))
}

/// Whether a report is written of that log from its beginning.
pub fn is_run<R: Threads + Sync + AllocGlobal>(rt: &R) -> Result<bool, Fail> {
    let plan = Plan::new(2, 1).ok_or("plan")?;
    let log = log_of(rt, CHECKPOINT)?;
    let mut input = OverRead::new(Cursor::new(log.as_slice()));
    let mut output = OverWrite::new(Vec::new(rt.alloc()));
    let done = run(rt, rt.alloc(), &mut input, &mut output, &plan, &Open);
    Ok(done.is_ok() && output.into_inner().starts_with(BEGINNING))
}

/// Whether a log is made in version 2, and one of version 1 is upgraded to it.
pub fn is_made_and_upgraded<R: Threads + Sync + AllocGlobal>(rt: &R) -> Result<bool, Fail> {
    let is_line = command(&["make2", "script", "log"]).is_some();
    let make = Command::Make2 {
        script: "script",
        log: "log",
    };
    let (done, made) = answer(rt, &make, ONE_ELEMENT, Vec::new(rt.alloc()), &Open);
    let is_made = is_line && done.is_ok() && made.get(7) == Some(&2);
    let upgrade = Command::Upgrade {
        log: "log",
        out: "out",
        plan: Plan::new(2, 1).ok_or("plan")?,
    };
    let log = log_of(rt, ONE_ELEMENT)?;
    let (done, upgraded) = answer(rt, &upgrade, &log, Vec::new(rt.alloc()), &Open);
    Ok(is_made && done.is_ok() && upgraded == made)
}
