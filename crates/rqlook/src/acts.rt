//! What the program does for each of its commands.

ghost use Rattle.std.specs.Prelude.{◌≡◌, ◌<◌, true};
ghost use Rattle.rq_found.specs.Refusals.{failed_writes};

use crate::failures::{Failure, FileTrouble, of_file};
use crate::log_files::{read_log_file, typed_name};
use crate::made_files::make_file;
use crate::mended_files::mend_file;
use crate::narrow_lines::Narrow;
use crate::progress::{Watch, Watched};
use crate::words::{columns_asked, records_asked, subject_asked};
use clap::ArgMatches;
use rq_found::{Diagnosis, Fault, Output, OverWrite, Plan, Seen, ShownLog, Trouble, write_bytes};
use rq_look::Findings;
use std::alloc::{AllocError, Global};
use std::io::{self, ErrorKind};
use std::os::fd::AsFd;
use std::rt::{Clock, Files};
use std::thread::Threads;
use std::time::Instant;

// The grain of each plan, in frames.
const GRAIN: u32 = 1000;

/// A command with its words, and the log that it is to show.
#[derive(Clone, Copy)]
pub(crate) struct Request<'a, 'w> {
    /// The command's name.
    pub(crate) name: &'a str,
    pub(crate) words: &'a ArgMatches<'w>,
    /// The name of the log's file.
    pub(crate) file: &'a str,
    pub(crate) log: ShownLog<'a>,
}

fn plan_of(words: &ArgMatches<'_>) -> Option<Plan> {
    Plan::new(words.get_one::<u32>("workers")?, GRAIN)
}

// The last line of a check: its verdict, and what to type next.
fn verdict_line(alloc: Global, file: &str, diagnosis: Diagnosis) -> Result<String, AllocError> {
    let seen = Seen(typed_name(file));
    let name = format!(in alloc; "{seen}")?;
    let mut line = String::new(alloc);
    diagnosis.put_verdict(&mut line, name.as_str())?;
    line.push_str("\n")?;
    Ok(line)
}

/// Whether a log is refused that was carried on, since no checkpoint with which it begins is right.
pub(crate) fn is_frontless(log: &ShownLog<'_>, trouble: &Trouble) -> bool
    ensures { result ≡ true → failed_writes trouble.now ≡ 0 }
{
    match trouble {
        Trouble::Log(Fault::NoCheckpoint) | Trouble::Log(Fault::BadCheckpoint) => log.at.is_some(),
        _ => false,
    }
}

// Prints a line for each record that is wanted; of a carried log without a front, for each right frame,
// if what stands behind a front is wanted.
fn dump<R: AllocGlobal + Threads + Sync, W: Output>(
    rt: &R,
    asked: &Request<'_, '_>,
    output: &mut W,
) -> Result<(), Trouble>
    requires faults { W.faults output.old < 18446744073709551615 }
{
    let wanted = records_asked(asked.words);
    match rq_look::dump(rt, rt.alloc(), &asked.log, &wanted, output) {
        Err(trouble) if wanted.behind && is_frontless(&asked.log, &trouble) => {
            rq_look::dump_frontless(rt.alloc(), &asked.log, &wanted, output)
        }
        done => done,
    }
}

/// What a check finds of a log, also of a carried one without a front.
pub(crate) fn found_of<R: AllocGlobal + Threads + Sync>(
    rt: &R,
    log: &ShownLog<'_>,
) -> Result<Findings, Trouble> {
    match Findings::of(rt, rt.alloc(), log) {
        Err(trouble) if is_frontless(log, &trouble) => { Findings::of_frontless(rt.alloc(), log) }
        found => found,
    }
}

// Prints what a check finds, unless it is to say nothing. Whether it finds nothing is known before.
fn check<R: AllocGlobal + Threads + Sync, W: Output>(
    rt: &R,
    asked: &Request<'_, '_>,
    fine: &mut bool,
    output: &mut W,
) -> Result<(), Trouble>
    requires faults { W.faults output.old < 18446744073709551615 }
{
    let found = found_of(rt, &asked.log)?;
    *fine = found.fine;
    if !asked.words.get_flag("quiet") {
        let verdict = verdict_line(rt.alloc(), asked.file, found.diagnosis)?;
        write_bytes(output, found.text.as_bytes())?;
        write_bytes(output, verdict.as_bytes())?;
    }
    Ok(())
}

// Tells how long a megabyte of the log took, if there is a clock.
fn tell_time<R: Eprint + Clock>(rt: &R, bytes: &[u8], begun: Option<Instant>) {
    let Some(elapsed) = begun.and_then(|begun| begun.elapsed(rt).ok()) else {
        return;
    };
    let each = elapsed.as_micros() / (bytes.len() as u128 / 1_000_000).max(1);
    let _ = eprintln!(rt; "rqlook: {each} microseconds for a megabyte");
}

fn stats<R: Eprint + Clock + AllocGlobal + Threads + Sync, W: Output>(
    rt: &R,
    asked: &Request<'_, '_>,
    output: &mut W,
) -> Result<(), Trouble>
    requires faults { W.faults output.old < 18446744073709551615 }
{
    let begun = if asked.words.get_flag("time") {
        Instant::now(rt).ok()
    } else {
        None
    };
    let json = asked.words.get_flag("json");
    rq_stats::stats(rt, rt.alloc(), &asked.log, json, output)?;
    tell_time(rt, asked.log.bytes, begun);
    Ok(())
}

// Prints what a command shows. `fine` is then false if something is wrong with the log.
fn perform<R: Eprint + Clock + AllocGlobal + Threads + Sync, W: Output>(
    rt: &R,
    asked: &Request<'_, '_>,
    fine: &mut bool,
    output: &mut W,
) -> Result<(), Trouble>
    requires faults { W.faults output.old < 18446744073709551615 }
{
    let (alloc, log, words) = (rt.alloc(), &asked.log, asked.words);
    match asked.name {
        "check" => check(rt, asked, fine, output),
        "script" => {
            *fine = rq_look::script(rt, alloc, log, output)?;
            Ok(())
        }
        "dump" => dump(rt, asked, output),
        "report" => {
            let (queue, json) = (words.get_one::<u32>("queue"), words.get_flag("json"));
            rq_look::report(rt, alloc, log, queue, json, output)
        }
        "stats" => stats(rt, asked, output),
        _ => rq_look::story(rt, alloc, subject_asked(words), log, output),
    }
}

// Prints what a command shows on standard output. The lines of a script are not cut; and only what may
// be as long as the log tells how far it is.
fn print_shown<R>(rt: &R, asked: &Request<'_, '_>, watch: Watch) -> Result<bool, Failure>
where
    R: Print + Eprint + Clock + AllocGlobal + Threads + Sync,
{
    let columns = match asked.name {
        "script" => 0,
        _ => columns_asked(asked.words, watch.columns()),
    };
    let watch = match asked.name {
        "dump" | "script" => watch.of_output(),
        _ => watch.of_nothing(),
    };
    let watched = Watched::new(rt, io::writer(rt), watch, "written");
    let mut output = OverWrite::new(Narrow::new(rt.alloc(), watched, columns));
    let mut fine = true;
    let Err(trouble) = perform(rt, asked, &mut fine, &mut output) else {
        return Ok(fine);
    };
    match output.into_error() {
        None => Err(of_file(rt, asked.file, FileTrouble::Refused(trouble))),
        // What was found is told, also if nobody reads on.
        Some(error) if error.kind() == ErrorKind::BrokenPipe => Ok(fine),
        Some(error) => Err(Failure::Output(error)),
    }
}

// Does the command of these words on the log.
fn act_on<'a, R>(
    rt: &R,
    name: &'a str,
    words: &'a ArgMatches<'_>,
    log: ShownLog<'a>,
    watch: Watch,
) -> Result<bool, Failure>
where
    R: Files + Print + Eprint + Clock + AllocGlobal + Threads + Sync,
    R::File: AsFd,
{
    let file = file_of(words);
    let asked = Request {
        name,
        words,
        file,
        log,
    };
    if let Some(to) = words.get_str("OUT") {
        return make_file(rt, &asked, to);
    }
    print_shown(rt, &asked, watch)
}

// The file that the log is in.
fn file_of<'a>(words: &'a ArgMatches<'_>) -> &'a str {
    match words.get_str("LOG") {
        Some(file) => file,
        None => "-",
    }
}

/// Does the command of the words on its log. False answers that something is wrong with the log.
pub(crate) fn act<R>(rt: &R, matches: &ArgMatches<'_>, watch: Watch) -> Result<bool, Failure>
where
    R: Files + Input + Print + Eprint + Clock + AllocGlobal + Threads + Sync,
    R::File: AsFd,
{
    let Some((name, words)) = matches.subcommand() else {
        return Ok(true);
    };
    let Some(plan) = plan_of(words) else {
        return Err(Failure::Workers);
    };
    if name == "mend" {
        let to = words.get_str("OUT").unwrap_or("-");
        return mend_file(rt, file_of(words), to, &plan, watch);
    }
    let mut bytes = read_log_file(rt, file_of(words), watch)?;
    watch.begins(rt, &bytes);
    let at = ShownLog::begins_at(&mut bytes);
    let log = ShownLog {
        bytes: &bytes,
        at,
        plan: &plan,
    };
    act_on(rt, name, words, log, watch)
}
