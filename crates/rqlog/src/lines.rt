//! A script is appended to a log: from its lines to the frames of their records.

use crate::damage::tell_left_out;
use crate::files::write_frames;
use crate::fronts::{OpenLog, front_in};
use crate::refusal::{Refusal, Stream, failed, untold};
use crate::refused_lines::{LineRefused, Reason};
use clap::ArgMatches;
use rq_file::{LIMIT, read_limited};
use rq_journal::Plan;
use rq_log_file::{HeldLog, Hold};
use rq_record::{Fault, Record};
use rq_writer::{ScriptLine, line_at};
use std::alloc::Global;
use std::fs::{self, File, Files};
use std::io;
use std::thread::Threads;

// The bytes of a file, or of standard input for `-`; of a longer one `LIMIT` of them.
fn bytes_in<R>(rt: &R, path: &str) -> io::Result<Vec<u8>>
where
    R: Files<File = File> + Input + AllocGlobal,
{
    if path == "-" {
        return read_limited(rt, rt.reader());
    }
    read_limited(rt, fs::open(rt, path)?)
}

// The script in a file, or in standard input.
fn script_in<R>(rt: &R, path: &str) -> Result<Vec<u8>, Refusal>
where
    R: Files<File = File> + Input + AllocGlobal,
{
    match bytes_in(rt, path) {
        Ok(bytes) if bytes.len() as u64 >= LIMIT => {
            Err(Refusal::Refused(Stream::Script, Fault::TooLong))
        }
        Ok(bytes) => Ok(bytes),
        Err(error) => Err(failed(Stream::Script, error)),
    }
}

// Appends the frame of a record.
fn append_record(alloc: Global, log: &mut OpenLog, record: &Record) -> Result<(), Reason> {
    match log.growth.append(alloc, record) {
        Ok(()) => Ok(()),
        Err(why) => Err(Reason::of(why)),
    }
}

// Appends the frame of a line's record.
fn append_line(alloc: Global, log: &mut OpenLog, text: &[u8]) -> Result<(), Reason> {
    match ScriptLine::of(alloc, log.growth.version(), text) {
        Ok(ScriptLine::Told(record)) => append_record(alloc, log, &record),
        Ok(ScriptLine::Spelled) => Err(Reason::Checkpoint),
        Err(Fault::Resources) => Err(Reason::Memory),
        Err(_) => Err(Reason::unread(alloc, text)),
    }
}

// The text of the next line, what stands behind it, and what came of its record.
fn append_next<'a>(
    alloc: Global,
    log: &mut OpenLog,
    line: u64,
    rest: &'a [u8],
) -> (&'a [u8], &'a [u8], Result<(), Reason>) {
    match line_at(line, rest) {
        Ok((text, after)) => (text, after, append_line(alloc, log, text)),
        Err(_) => (rest, rest, Err(Reason::NoEnd)),
    }
}

// Appends the frames of a script's records, up to the first that may not follow. Answers how many
// there are, and of that line the text and why it is not appended.
fn append_lines<'a>(
    alloc: Global,
    log: &mut OpenLog,
    script: &'a [u8],
) -> (u64, &'a [u8], Result<(), Reason>) {
    let (mut rest, mut count) = (script, 0u64);
    for line in 1..u64::MAX {
        if rest.is_empty() {
            break;
        }
        let (text, after, done) = append_next(alloc, log, line, rest);
        if done.is_err() {
            return (count, text, done);
        }
        count = line;
        rest = after;
    }
    (count, rest, Ok(()))
}

// Says how many records were appended, from which offset on, and how long the log is then.
fn tell_appended<R: Print>(rt: &R, json: bool, count: u64, log: &OpenLog) -> io::Result<()> {
    let (offset, bytes) = (log.growth.end().used, log.growth.len());
    if json {
        println!(rt; "{{\"appended\":{count},\"offset\":{offset},\"bytes\":{bytes}}}")
    } else {
        println!(rt; "appended {count} records, {bytes} bytes")
    }
}

// Appends the records of a script behind an open log, and tells so: all of them; or those before the
// first that may not follow, if that is asked for; or none. Says why that line is refused.
fn append_script<R>(
    rt: &R,
    held: &mut HeldLog,
    log: &mut OpenLog,
    script: &[u8],
    words: &ArgMatches<'_>,
) -> Result<(), Refusal>
where
    R: Files<File = File> + Print + Eprint + AllocGlobal,
{
    let keeps = words.get_flag("each");
    let (count, text, done) = append_lines(rt.alloc(), log, script);
    let refused = match done {
        Ok(()) => None,
        Err(reason) => {
            let line = count.saturating_add(1);
            Some(LineRefused::of(rt.alloc(), line, text, reason, keeps)?)
        }
    };
    if keeps || refused.is_none() {
        write_frames(rt, held, log.read, &log.growth)?;
        tell_left_out(rt, log.left_out);
        let json = words.get_flag("json");
        tell_appended(rt, json, count, log).map_err(|error| untold(error))?;
    }
    match refused {
        None => Ok(()),
        Some(refused) => Err(Refusal::Line(refused)),
    }
}

/// Appends the records of a script to a log, and tells so.
pub(crate) fn append<R>(
    rt: &R,
    path: &str,
    plan: &Plan,
    words: &ArgMatches<'_>,
) -> Result<(), Refusal>
where
    R: Files<File = File> + Input + Print + Eprint + AllocGlobal + Threads + Sync,
{
    let script = script_in(rt, words.get_str("SCRIPT").unwrap_or("-"))?;
    let mut held = HeldLog::open(rt, path, Hold::ToWrite)?;
    let mut log = front_in(rt, held.file(), plan, words.get_flag("drop"))?;
    append_script(rt, &mut held, &mut log, &script, words)
}
