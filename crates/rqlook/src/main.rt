//! The program `rqlook`: shows what is in the log of a recoverable queue manager.
#![tactic(auto)]

mod acts;
mod command_table;
mod failures;
mod log_files;
mod made_files;
mod mended_files;
mod narrow_lines;
mod progress;
mod words;

use crate::acts::act;
use crate::failures::Failure;
use crate::narrow_lines::columns_told;
use crate::progress::Watch;
use crate::words::program;
use rq_file::hold_standard;
use std::io::IsTerminal;
use std::os::fd::{AsFd, IntoRawFd};
use std::process::ExitCode;
use std::rt::{Clock, Env, Files};
use std::thread::Threads;
use std::{env, io};

// The exit status if a finding was made.
const FOUND: u8 = 1;

fn main(rt: HostRuntime) -> ExitCode {
    let watch = Watch::new(&rt, rt.stderr().is_terminal(), columns_shown(&rt));
    match start(&rt, watch) {
        Ok(true) => ExitCode::SUCCESS,
        Ok(false) => ExitCode::from(FOUND),
        Err(failure) => ExitCode::from(failure.tell(&rt)),
    }
}

// How many columns the output has before a person's eyes, 0 if that is not known; none if it goes
// elsewhere.
fn columns_shown(rt: &HostRuntime) -> Option<u32> {
    if rt.stdout().is_terminal() {
        Some(columns_told(rt))
    } else {
        None
    }
}

// Does what the arguments ask for. False answers that something is wrong with the log.
fn start<R>(rt: &R, watch: Watch) -> Result<bool, Failure>
where
    R: Files + Env + Input + Print + Eprint + Clock + AllocGlobal + Threads + Sync,
    R::File: AsFd + IntoRawFd,
{
    hold_standard(rt)?;
    let words: Vec<String> = env::args(rt)
        .map_err(|error| unread(error))?
        .collect(rt.alloc())?;
    let matches = program(rt.alloc())?.try_get_matches_from(words.as_slice())?;
    act(rt, &matches, watch)
}

// Arguments that are no text are no command; if memory ran out nothing is known of them.
fn unread(error: io::Error) -> Failure {
    if error.kind() == io::ErrorKind::OutOfMemory {
        Failure::Memory
    } else {
        Failure::NoText
    }
}
