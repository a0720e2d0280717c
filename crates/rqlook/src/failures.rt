//! Why the program ends before it is done.

use crate::log_files::shown_name;
use clap::error::ErrorKind;
use rq_found::{Seen, Trouble};
use std::alloc::AllocError;
use std::io;

// The exit status if there is no such thing in the log, or a record that no script tells.
const REFUSED: u8 = 1;

// The exit status of words that are no command.
const USAGE: u8 = 2;

// The exit status if reading or writing failed.
const STREAM: u8 = 3;

// The exit status if memory was refused.
const MEMORY: u8 = 4;

// What is said if memory is refused.
const RESOURCES: &str = "resources";

/// What is wrong with a file.
#[derive(Drop)]
pub(crate) enum FileTrouble {
    /// It cannot be read or written.
    Stream(io::Error),
    /// It was read and is refused.
    Refused(Trouble),
}

/// Why the program ends before it is done.
#[derive(Drop)]
pub(crate) enum Failure {
    /// The words are no command, or ask for the help or the version, which are the error's text.
    Words(clap::Error),
    /// The words are no text.
    NoText,
    /// The number of workers is none.
    Workers,
    /// Something is wrong with the file of this name.
    File(String, FileTrouble),
    /// What is made was to be written over its log.
    Same,
    /// The output fails.
    Output(io::Error),
    /// Memory is refused.
    Memory,
}

impl From<AllocError> for Failure {
    fn from(_error: AllocError) -> Failure {
        Failure::Memory
    }
}

impl From<clap::Error> for Failure {
    fn from(error: clap::Error) -> Failure {
        if error.kind() == ErrorKind::OutOfMemory {
            return Failure::Memory;
        }
        Failure::Words(error)
    }
}

impl From<io::Error> for Failure {
    fn from(error: io::Error) -> Failure {
        Failure::Output(error)
    }
}

/// That something is wrong with the file of this name.
pub(crate) fn of_file<R: AllocGlobal>(rt: &R, file: &str, trouble: FileTrouble) -> Failure {
    match String::from_str(rt.alloc(), file) {
        Ok(name) => Failure::File(name, trouble),
        Err(_) => Failure::Memory,
    }
}

// Says why in these words, and answers the exit status.
fn tell_words(rt: &HostRuntime, words: &str, status: u8) -> u8 {
    let _ = eprintln!(rt; "rqlook: {words}");
    status
}

// Says that the output fails. One that was closed is no news. Lines that must fit a width take
// memory on their way.
fn output_failed(rt: &HostRuntime, error: &io::Error) -> u8 {
    match error.kind() {
        io::ErrorKind::BrokenPipe => 0,
        io::ErrorKind::OutOfMemory => tell_words(rt, RESOURCES, MEMORY),
        _ => {
            let _ = eprintln!(rt; "rqlook: standard output: {error}");
            STREAM
        }
    }
}

// Prints the help or the version that was asked for, or says why the words are no command.
fn answer_words(rt: &HostRuntime, error: &clap::Error) -> u8 {
    if error.exit_code() != 0 {
        let _ = eprint!(rt; "{error}");
        return USAGE;
    }
    match print!(rt; "{error}") {
        Ok(()) => 0,
        Err(error) => output_failed(rt, &error),
    }
}

fn tell_file(rt: &HostRuntime, file: &str, trouble: &FileTrouble) -> u8 {
    let name = Seen(shown_name(file));
    match trouble {
        FileTrouble::Stream(error) => {
            let _ = eprintln!(rt; "rqlook: {name}: {error}");
            STREAM
        }
        FileTrouble::Refused(trouble) => {
            let _ = eprintln!(rt; "rqlook: {name}: {trouble}");
            match trouble {
                Trouble::Log(fault) => fault.exit(),
                _ => REFUSED,
            }
        }
    }
}

impl Failure {
    /// Prints what was asked for of the words, or says on standard error why the program ends, and
    /// answers its exit status.
    pub(crate) fn tell(&self, rt: &HostRuntime) -> u8 {
        match self {
            Failure::Words(error) => answer_words(rt, error),
            Failure::NoText => tell_words(rt, "a word is no text", USAGE),
            Failure::Workers => tell_words(rt, "workers are 1 to 64", USAGE),
            Failure::Same => tell_words(rt, "nothing is written over its log", USAGE),
            Failure::File(file, trouble) => tell_file(rt, file.as_str(), trouble),
            Failure::Output(error) => output_failed(rt, error),
            Failure::Memory => tell_words(rt, RESOURCES, MEMORY),
        }
    }
}
