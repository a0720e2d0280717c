//! The program `rq`: restarts a recoverable queue manager from its log.
#![tactic(auto)]

ghost use Rattle.std.specs.Prelude.{◌≡◌, IfOk};

use rq_file::{Late, Names, Patient, hold_standard};
use rq_tool::{Command, Fault, Open, OverRead, OverWrite};
use std::fs::File;
use std::io::ErrorKind;
use std::os::fd::{AsFd, IntoRawFd};
use std::process::ExitCode;
use std::rt::{Clock, Env, Files};
use std::thread::Threads;
use std::{env, io};

// The exit status of a line that is no command.
const USAGE: u8 = 2;

// Why the program ends before it is done.
#[derive(Clone, Copy)]
enum Stop {
    Usage,
    By(Fault),
}

fn main(rt: HostRuntime) -> ExitCode {
    match start(&rt) {
        Ok(()) => ExitCode::SUCCESS,
        Err(Stop::By(fault)) => {
            let _ = eprintln!(rt; "rq: {fault}");
            ExitCode::from(fault.exit())
        }
        Err(Stop::Usage) => {
            let _ = eprintln!(rt; "rq: usage");
            ExitCode::from(USAGE)
        }
    }
}

// Does the command of the arguments.
fn start<R>(rt: &R) -> Result<(), Stop>
where
    R: Files + Env + Print + Clock + AllocGlobal + Threads + Sync,
    R::File: AsFd + IntoRawFd,
{
    hold_standard(rt).map_err(|error| Stop::By(unmade(&error)))?;
    let alloc = rt.alloc();
    let all: Vec<String> = env::args(rt)
        .map_err(|error| unread(&error))?
        .collect(alloc)
        .map_err(|_| Stop::By(Fault::Resources))?;
    let words: Vec<&str> = all
        .iter()
        .skip(1)
        .map(|word| word.as_str())
        .collect(alloc)
        .map_err(|_| Stop::By(Fault::Resources))?;
    match rq_tool::command(words.as_slice()) {
        Some(command) => perform(rt, &command).map_err(Stop::By),
        None => Err(Stop::Usage),
    }
}

// Arguments that are no text are no command; where memory ran out nothing is known of them.
fn unread(error: &io::Error) -> Stop {
    if error.kind() == ErrorKind::OutOfMemory {
        Stop::By(Fault::Resources)
    } else {
        Stop::Usage
    }
}

// The fault of a file that can't be made.
fn unmade(error: &io::Error) -> Fault {
    if error.kind() == ErrorKind::OutOfMemory {
        Fault::Resources
    } else {
        Fault::WriteFailed
    }
}

// Does the command on its files.
fn perform<R>(rt: &R, command: &Command<'_>) -> Result<(), Fault>
where
    R: Files + Print + Clock + AllocGlobal + Threads + Sync,
    R::File: AsFd,
{
    match command {
        Command::Make { script, log } | Command::Make2 { script, log } => make_file(
            rt, command, script, log,
        ),
        Command::Restart { log, .. }
        | Command::RestartAt { log, .. }
        | Command::Audit { log, .. } => print(rt, command, log),
        Command::Close { log, out, .. } | Command::Upgrade { log, out, .. } => make_file(
            rt, command, log, out,
        ),
    }
}

// Writes what the command answers to standard output, and waits where that takes nothing yet.
fn print<R>(rt: &R, command: &Command<'_>, from: &str) -> Result<(), Fault>
where
    R: Files + Print + Clock + AllocGlobal + Threads + Sync,
{
    let mut input = open(rt, from)?;
    let mut output = OverWrite::new(Patient {
        rt,
        inner: io::writer(rt),
    });
    rq_tool::act(rt, rt.alloc(), command, &mut input, &mut output, &Open)
}

// Writes what the command answers to a file, which is made once all of it is there.
fn make_file<R>(rt: &R, command: &Command<'_>, from: &str, to: &str) -> Result<(), Fault>
where
    R: Files + AllocGlobal + Threads + Sync,
    R::File: AsFd,
{
    let mut input = open(rt, from)?;
    let Some(names) = Names::of(rt, to).map_err(|error| unmade(&error))? else {
        let mut output = OverWrite::new(Late::in_place(rt, to));
        return rq_tool::act(rt, rt.alloc(), command, &mut input, &mut output, &Open);
    };
    let options = names.options(rt);
    let mut output = OverWrite::new(Late::new(rt, names.new_name(), options));
    let done = rq_tool::act(rt, rt.alloc(), command, &mut input, &mut output, &Open);
    let settled = names.settle(rt, output.into_inner().into_file(), done.is_ok());
    done?;
    settled.map_err(|_| Fault::WriteFailed)
}

// Opens a file for reading.
fn open<R: Files>(rt: &R, path: &str) -> Result<OverRead<R::File>, Fault>
    ensures { IfOk result (λ it. it.faults ≡ 0) }
{
    match File::open(rt, path) {
        Ok(file) => Ok(OverRead::new(file)),
        Err(_) => Err(Fault::ReadFailed),
    }
}
