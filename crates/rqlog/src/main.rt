//! The program `rqlog`: begins logs, appends to them, serves them, goes along with them, makes them whole
//! after a crash, marks them with checkpoints, and carries them on into new files.
#![tactic(auto)]

mod carrier;
mod checkpoints;
mod commands;
mod copies;
mod damage;
mod expected;
mod files;
mod follow;
mod fronts;
mod inputs;
mod lines;
mod new_log;
mod recovery;
mod refusal;
mod refused_lines;
mod serve;
mod streams;
mod words;

use crate::commands::{carry, checkpoint, close, new_log, print_audit, print_report};
use crate::follow::stand_by;
use crate::lines::append;
use crate::recovery::recover;
use crate::refusal::Refusal;
use crate::serve::{CARRY_AT, serve_log};
use crate::words::program;
use clap::ArgMatches;
use rq_file::hold_standard;
use rq_journal::Plan;
use std::fs::File;
use std::process::ExitCode;
use std::rt::{Clock, Env, Files};
use std::thread::Threads;
use std::{env, io};

// The grain of a line that names none, in frames.
const GRAIN: u32 = 1000;

fn main(rt: HostRuntime) -> ExitCode {
    match start(&rt) {
        Ok(status) => ExitCode::from(status),
        Err(refusal) => ExitCode::from(refusal.tell(&rt, None)),
    }
}

// Does what the arguments ask for, and answers the exit status.
fn start<R>(rt: &R) -> Result<u8, Refusal>
where
    R: Files<File = File> + Env + Input + Print + Eprint + Clock + AllocGlobal + Threads + Sync,
{
    hold_standard(rt)?;
    let words: Vec<String> = env::args(rt)
        .map_err(|error| unread(error))?
        .collect(rt.alloc())?;
    let matches = program(rt.alloc())?.try_get_matches_from(words.as_slice())?;
    match act(rt, &matches) {
        Ok(()) => Ok(0),
        Err(refusal) => Ok(refusal.tell(rt, matches.subcommand().map(|command| command.1))),
    }
}

// Arguments that are no text are no command; if memory ran out nothing is known of them.
fn unread(error: io::Error) -> Refusal {
    if error.kind() == io::ErrorKind::OutOfMemory {
        Refusal::Memory
    } else {
        Refusal::NoText
    }
}

// How the work is divided, as the words say.
fn plan_of(words: &ArgMatches<'_>) -> Result<Plan, Refusal> {
    let workers = match words.get_one::<u32>("WORKERS") {
        Some(workers) => workers,
        None => words.get_one::<u32>("workers").unwrap_or(0),
    };
    let grain = words.get_one::<u32>("GRAIN").unwrap_or(GRAIN);
    Plan::new(workers, grain).ok_or(Refusal::Plan)
}

// Does the command of the words.
fn act<R>(rt: &R, matches: &ArgMatches<'_>) -> Result<(), Refusal>
where
    R: Files<File = File> + Input + Print + Eprint + Clock + AllocGlobal + Threads + Sync,
{
    let Some((name, words)) = matches.subcommand() else {
        return Ok(());
    };
    if name == "new" {
        return new_log(rt, words);
    }
    let plan = plan_of(words)?;
    if name == "follow" {
        return stand_by(rt, &plan, words);
    }
    let path = words.get_str("LOG").unwrap_or("-");
    match name {
        "append" => append(rt, path, &plan, words),
        "checkpoint" => checkpoint(rt, path, &plan, words),
        "carry" => carry(rt, path, &plan, words),
        "serve" => {
            let least = words.get_one::<u32>("carry-at");
            let least = least.map_or(CARRY_AT, |least| least as usize);
            serve_log(rt, path, &plan, words.get_flag("create"), least)
        }
        "restart" => print_report(rt, path, &plan),
        "close" => close(rt, path, &plan, words),
        "recover" => {
            let (drops, json) = (words.get_flag("drop"), words.get_flag("json"));
            recover(rt, path, &plan, drops, json)
        }
        _ => print_audit(rt, path, &plan),
    }
}
