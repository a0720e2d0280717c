//! What the program does for its commands but `append` and `recover`.

use crate::checkpoints::{carried_on, closed_carried, mark};
use crate::damage::{LastBytes, LeftOut, expect_end, tell_left_out};
use crate::files::{put_whole, write_frames};
use crate::inputs::{LentLog, ReadLog, begun_log, log_from, opened, rest_of_log};
use crate::new_log::{expect_free, put_new};
use crate::refusal::{Refusal, Stream, failed, untold};
use clap::ArgMatches;
use rq_file::{Names, Patient, Replaces};
use rq_front::header_of;
use rq_journal::{CARRIED_AT, Fault, Plan, Truth, audit_carried, scarce_numbers};
use rq_log_file::{HeldLog, Hold};
use rq_record::{LogBytes, Version};
use rq_restart::Ending;
use rq_tool::{Open, OverRead, OverWrite, Work, through};
use std::alloc::{AllocError, Global};
use std::fmt::Write;
use std::fs::File;
use std::io::{self, Read};
use std::rt::{Clock, Files};
use std::sync::ArcSlice;
use std::thread::Threads;

/// Makes the file of a log that has no record yet.
pub(crate) fn new_log<R>(rt: &R, words: &ArgMatches<'_>) -> Result<(), Refusal>
where
    R: Files<File = File> + AllocGlobal,
{
    let new = words.get_str("NEW").unwrap_or("-");
    expect_free(rt, new)?;
    let mut log = Vec::new(rt.alloc());
    header_of(Version::Two, &mut log)?;
    put_new(rt, new, &log)
}

// Says where a checkpoint stands that was appended, and how long the log is then.
fn tell_marked<R: Print>(rt: &R, json: bool, offset: u64, bytes: u64) -> io::Result<()> {
    if json {
        println!(rt; "{{\"offset\":{offset},\"bytes\":{bytes}}}")
    } else {
        println!(rt; "{offset}")
    }
}

/// Writes a checkpoint of the state behind a log, and tells so.
pub(crate) fn checkpoint<R>(
    rt: &R,
    path: &str,
    plan: &Plan,
    words: &ArgMatches<'_>,
) -> Result<(), Refusal>
where
    R: Files<File = File> + Print + Eprint + AllocGlobal + Threads + Sync,
{
    let mut held = HeldLog::open(rt, path, Hold::ToWrite)?;
    let read = rest_of_log(rt, held.file())?;
    let whole = ArcSlice::from_vec(read.bytes)?;
    let lent = LentLog {
        bytes: LogBytes::shared(&whole),
        is_carried: read.is_carried,
    };
    let (closes, drops) = (words.get_flag("close"), words.get_flag("drop"));
    let marked = mark(rt, rt.alloc(), &lent, plan, closes, drops)?;
    write_frames(rt, &mut held, whole.len(), &marked.growth)?;
    tell_left_out(rt, marked.left_out);
    let (json, bytes) = (words.get_flag("json"), marked.growth.len());
    tell_marked(rt, json, marked.offset as u64, bytes as u64).map_err(|error| untold(error))
}

// Says how many records stand before the new log, and how long that is.
fn tell_carried<R: Print>(rt: &R, json: bool, next: u64, bytes: u64) -> io::Result<()> {
    if json {
        let offset = CARRIED_AT;
        println!(rt; "{{\"next\":{next},\"offset\":{offset},\"bytes\":{bytes}}}")
    } else {
        println!(rt; "carried on behind {next} records, {bytes} bytes")
    }
}

// Says how many records may still be numbered, if a log that is carried on could need more before
// it is full.
fn warn_of_end<R: Eprint>(rt: &R, next: u64) {
    if let Some(left) = scarce_numbers(next) {
        let _ = eprintln!(rt;
            "rqlog: {left} records more, and numbers end: begin a new log before"
        );
    }
}

// Makes the carried file that goes on from this log, and tells how many records stand before it.
fn carry_log<R>(
    rt: &R,
    lent: &LentLog<'_>,
    plan: &Plan,
    new: &str,
    words: &ArgMatches<'_>,
) -> Result<(), Refusal>
where
    R: Files<File = File> + Print + Eprint + AllocGlobal + Threads + Sync,
{
    let (front, left, made) = carried_on(rt, rt.alloc(), lent, plan, words.get_flag("drop"))?;
    put_new(rt, new, &made)?;
    tell_left_out(rt, left);
    let (json, next) = (words.get_flag("json"), front.state.next());
    warn_of_end(rt, next);
    tell_carried(rt, json, next, made.len() as u64).map_err(|error| untold(error))
}

/// Makes the carried file that goes on from a log, and tells so.
pub(crate) fn carry<R>(
    rt: &R,
    path: &str,
    plan: &Plan,
    words: &ArgMatches<'_>,
) -> Result<(), Refusal>
where
    R: Files<File = File> + Print + Eprint + AllocGlobal + Threads + Sync,
{
    let new = words.get_str("NEW").unwrap_or("-");
    expect_free(rt, new)?;
    let mut held = HeldLog::open(rt, path, Hold::ToRead)?;
    let read = rest_of_log(rt, held.file())?;
    let whole = ArcSlice::from_vec(read.bytes)?;
    let lent = LentLog {
        bytes: LogBytes::shared(&whole),
        is_carried: read.is_carried,
    };
    carry_log(rt, &lent, plan, new, words)
}

// Prints what is made of a log.
fn print_log<R, F>(rt: &R, work: Work, from: F, plan: &Plan) -> Result<(), Fault>
where
    R: Print + Clock + AllocGlobal + Threads + Sync,
    F: Read + Drop,
{
    let mut input = OverRead::new(from);
    let mut output = OverWrite::new(Patient {
        rt,
        inner: io::writer(rt),
    });
    through(rt, rt.alloc(), &mut input, &mut output, work, plan, &Open)
}

/// Prints the report of a log's restart.
pub(crate) fn print_report<R>(rt: &R, path: &str, plan: &Plan) -> Result<(), Refusal>
where
    R: Files<File = File> + Print + Clock + AllocGlobal + Threads + Sync,
{
    let (is_carried, from) = begun_log(rt, opened(rt, path, Stream::Log)?)?;
    let work = if is_carried {
        Work::CarriedReport(CARRIED_AT as u64)
    } else {
        Work::Report
    };
    Ok(print_log(rt, work, from, plan)?)
}

// The file of the closed log, plain or carried on, and what of the log it leaves out, if that is to be
// told. What is not to be dropped stays.
fn closed_of<R>(
    rt: &R,
    log: ReadLog,
    plan: &Plan,
    drops: bool,
) -> Result<(Vec<u8>, Option<LeftOut>), Refusal>
where
    R: AllocGlobal + Threads + Sync,
{
    let alloc = rt.alloc();
    if log.is_carried {
        return closed_carried(rt, alloc, log, plan, drops);
    }
    let bytes = log.bytes;
    let ending = Ending::of(rt, alloc, &bytes, plan)?;
    let left = expect_end(
        alloc,
        LastBytes::all(&bytes),
        ending.version,
        ending.end,
        drops,
    )?;
    Ok((ending.close(bytes)?, left))
}

// Closes a log in its own place, while no other program writes it, if it is still as it was read.
fn close_in_place<R>(rt: &R, path: &str, plan: &Plan, drops: bool) -> Result<(), Refusal>
where
    R: Files<File = File> + Eprint + AllocGlobal + Threads + Sync,
{
    let mut held = HeldLog::open(rt, path, Hold::ToReplace)?;
    let log = rest_of_log(rt, held.file())?;
    let read = log.bytes.len();
    let (made, left) = closed_of(rt, log, plan, drops)?;
    held.expect_as_read(rt, read)?;
    put_whole(rt, path, Stream::Out, &made)?;
    tell_left_out(rt, left);
    Ok(())
}

// What of the files that are there gives way to a closed log.
fn replaced_by(words: &ArgMatches<'_>) -> Replaces<'static> {
    if words.get_flag("force") {
        Replaces::Anything
    } else {
        Replaces::Nothing
    }
}

/// Writes the closed log, in its own place or into another file.
pub(crate) fn close<R>(
    rt: &R,
    path: &str,
    plan: &Plan,
    words: &ArgMatches<'_>,
) -> Result<(), Refusal>
where
    R: Files<File = File> + Eprint + AllocGlobal + Threads + Sync,
{
    let out = words.get_str("OUT").unwrap_or("-");
    if Names::name_one_file(rt, path, out) {
        return close_in_place(rt, out, plan, words.get_flag("drop"));
    }
    let rule = replaced_by(words);
    rule.expect_replaceable(rt, out)
        .map_err(|error| failed(Stream::Out, error))?;
    let log = log_from(rt, opened(rt, path, Stream::Log)?)?;
    let (made, left) = closed_of(rt, log, plan, true)?;
    rule.put_over(rt, out, &[&made])
        .map_err(|error| failed(Stream::Out, error))?;
    tell_left_out(rt, left);
    Ok(())
}

// A line for each checkpoint that an audit found.
fn audit_text(alloc: Global, found: &[(usize, Truth)]) -> Result<String, AllocError> {
    let mut text = String::new(alloc);
    for (offset, truth) in found {
        let word = match truth {
            Truth::Carried => "carried",
            Truth::True => "true",
            Truth::False => "false",
        };
        write!(text, "checkpoint {offset} {word}\n")?;
    }
    Ok(text)
}

// Tells which checkpoints of a carried file are true, of which these are the bytes as they are read.
fn tell_audit<R, F>(rt: &R, from: F, plan: &Plan) -> Result<(), Refusal>
where
    R: Print + AllocGlobal + Threads + Sync,
    F: Read + Drop,
{
    let log = log_from(rt, from)?;
    let found = audit_carried(rt, rt.alloc(), &log.bytes, plan)?;
    let text = audit_text(rt.alloc(), &found)?;
    Ok(rt.write_all(text.as_bytes())?)
}

/// Prints which checkpoints of a log are true.
pub(crate) fn print_audit<R>(rt: &R, path: &str, plan: &Plan) -> Result<(), Refusal>
where
    R: Files<File = File> + Print + Clock + AllocGlobal + Threads + Sync,
{
    let (is_carried, from) = begun_log(rt, opened(rt, path, Stream::Log)?)?;
    if is_carried {
        return tell_audit(rt, from, plan);
    }
    Ok(print_log(rt, Work::Audit, from, plan)?)
}
