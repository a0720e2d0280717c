//! The program `rqdrive`, for tests: drives a queue manager over memory by the lines of its standard
//! input, and answers each with a line. `tests/live/driven.py` tells the lines. It ends with 2 before a
//! line that is none, with 3 if standard input or output fails, and with 4 if memory is refused.
#![tactic(auto)]

mod answers;
mod drives;
mod looks;
mod openings;
mod times;
mod words;

use crate::drives::drive_new;
use crate::words::Unanswered;
use rq_file::read_limited;
use std::fs::{File, Files};
use std::process::ExitCode;
use std::rt::Clock;
use std::thread::Threads;

fn main(rt: HostRuntime) -> ExitCode {
    match start(&rt) {
        Ok(()) => ExitCode::SUCCESS,
        Err(Unanswered::Line) => ExitCode::from(2),
        Err(Unanswered::Host(_)) => ExitCode::from(3),
        Err(Unanswered::Memory) => ExitCode::from(4),
    }
}

// Answers the lines of standard input.
fn start<R>(rt: &R) -> Result<(), Unanswered>
where
    R: Files<File = File> + Input + Print + Clock + AllocGlobal + Threads + Sync,
{
    let lines = read_limited(rt, rt.reader())?;
    drive_new(rt, &lines)
}
