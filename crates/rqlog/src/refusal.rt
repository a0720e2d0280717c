//! Why the program ends before it is done.

use crate::damage::BadEnd;
use crate::refused_lines::{LineRefused, Reason};
pub(crate) use crate::streams::Stream;
use clap::ArgMatches;
use clap::error::ErrorKind;
use rq_journal::{Fault, NotMarked};
use rq_judged::Edge;
use rq_log_file::NotHeld;
use std::alloc::AllocError;
use std::io;

// The exit status of a log, a line or a state that is refused.
const REFUSED: u8 = 1;

// The exit status of words that are no command.
const USAGE: u8 = 2;

// The exit status if reading or writing failed.
const STREAM: u8 = 3;

// The exit status if memory was refused.
const MEMORY: u8 = 4;

/// Why the program ends before it is done.
#[derive(Drop)]
pub(crate) enum Refusal {
    /// The words are no command, or ask for the help or the version, which are the error's text.
    Words(clap::Error),
    /// The words are no text.
    NoText,
    /// The numbers of workers or frames are none.
    Plan,
    /// A file or the output fails.
    Failed(Stream, io::Error),
    /// Another program writes the log.
    Held,
    /// The new log is there already.
    There,
    /// Another file came into the log's place, or its bytes changed meanwhile.
    Changed,
    /// The front of the log ends where nothing is written behind it.
    Damaged(BadEnd),
    /// What is to be kept of the log from an offset on has a name under which other bytes stand.
    KeptOther(usize),
    /// What comes is not served, since no copy is kept.
    NoCopy,
    /// A copy has other bytes than those that come.
    CopyOther,
    /// A copy has more bytes than came.
    CopyLonger,
    /// The front of what comes ends there, and nothing that follows can be done.
    FrontEnds(Edge),
    /// A line is not appended.
    Line(LineRefused),
    /// There is no room behind the log.
    Full,
    /// So many records were numbered that no state behind one more can be spelled.
    Ended,
    /// The log is refused, or its state, or the script.
    Refused(Stream, Fault),
    /// Memory is refused.
    Memory,
}

impl From<AllocError> for Refusal {
    fn from(_error: AllocError) -> Refusal {
        Refusal::Memory
    }
}

impl From<clap::Error> for Refusal {
    fn from(error: clap::Error) -> Refusal {
        if error.kind() == ErrorKind::OutOfMemory {
            return Refusal::Memory;
        }
        Refusal::Words(error)
    }
}

impl From<NotHeld> for Refusal {
    fn from(not: NotHeld) -> Refusal {
        match not {
            NotHeld::Locked => Refusal::Held,
            NotHeld::Changed => Refusal::Changed,
            NotHeld::Failed(error) => failed(Stream::Log, error),
        }
    }
}

impl From<NotMarked> for Refusal {
    fn from(not: NotMarked) -> Refusal {
        match not {
            NotMarked::Ended => Refusal::Ended,
            NotMarked::Full => Refusal::Full,
            NotMarked::Large => Refusal::from(Fault::TooLarge),
            NotMarked::Resources => Refusal::Memory,
        }
    }
}

impl From<io::Error> for Refusal {
    fn from(error: io::Error) -> Refusal {
        Refusal::Failed(Stream::Output, error)
    }
}

impl From<Fault> for Refusal {
    fn from(fault: Fault) -> Refusal {
        match fault {
            Fault::Resources => Refusal::Memory,
            Fault::WriteFailed => Refusal::Refused(Stream::Output, fault),
            _ => Refusal::Refused(Stream::Log, fault),
        }
    }
}

/// Why a file cannot be read, made or written.
pub(crate) fn failed(stream: Stream, error: io::Error) -> Refusal {
    if error.kind() == io::ErrorKind::OutOfMemory {
        return Refusal::Memory;
    }
    Refusal::Failed(stream, error)
}

/// Why what was done is not told. It stands all the same.
pub(crate) fn untold(error: io::Error) -> Refusal {
    Refusal::Failed(Stream::Telling, error)
}

// Prints the help or the version that was asked for, and answers the exit status.
fn show_help<R: Print + Eprint>(rt: &R, help: &clap::Error) -> u8 {
    match print!(rt; "{help}") {
        Ok(()) => 0,
        Err(error) => {
            let _ = eprintln!(rt; "rqlog: standard output: {error}");
            STREAM
        }
    }
}

// What to do about a fault.
fn advice(fault: Fault) -> &'static str {
    match fault {
        Fault::NotALog => ": rq make makes one",
        Fault::BadCheckpoint | Fault::NoCheckpoint => ": rqlook check tells what the file is",
        _ => "",
    }
}

impl Refusal {
    // What is said if no number or error is told.
    fn text(&self) -> &'static str {
        match self {
            Refusal::NoText => "a word is no text",
            Refusal::Plan => "workers are 1 to 64, and a grain is 1 to 1000000",
            Refusal::Held => "another program writes it: try again",
            Refusal::There => "it is there already: name a file that is not",
            Refusal::Changed => "it changed meanwhile: try again",
            Refusal::KeptOther(_) => "other bytes stand there: move it away",
            Refusal::Full => "log is full: carry it on",
            Refusal::Ended => "numbers end at 9223372036854775807: begin a new log",
            Refusal::NoCopy => "--serve needs a COPY, which it serves",
            Refusal::CopyOther => "other bytes stand there than those that come: name another file",
            Refusal::CopyLonger => "more bytes stand there than came: name another file",
            _ => "resources",
        }
    }

    fn exit(&self) -> u8 {
        match self {
            Refusal::Words(_) | Refusal::NoText | Refusal::Plan | Refusal::NoCopy => USAGE,
            Refusal::Failed(..)
            | Refusal::Held
            | Refusal::There
            | Refusal::KeptOther(_)
            | Refusal::CopyOther
            | Refusal::CopyLonger
            | Refusal::Changed => STREAM,
            Refusal::Damaged(_) | Refusal::FrontEnds(_) | Refusal::Full | Refusal::Ended => REFUSED,
            Refusal::Line(refused) if matches!(refused.reason, Reason::Memory) => MEMORY,
            Refusal::Line(_) => REFUSED,
            Refusal::Refused(_, fault) => fault.exit(),
            Refusal::Memory => MEMORY,
        }
    }

    // The file of which something is said, if it is one of those that the words name.
    fn stream(&self) -> Option<Stream> {
        match self {
            Refusal::Failed(stream, _) | Refusal::Refused(stream, _) => Some(*stream),
            Refusal::There => Some(Stream::New),
            Refusal::KeptOther(offset) => Some(Stream::Kept(*offset)),
            Refusal::FrontEnds(_) => Some(Stream::Source),
            Refusal::CopyOther | Refusal::CopyLonger => Some(Stream::Log),
            Refusal::Held | Refusal::Changed | Refusal::Damaged(_) => Some(Stream::Log),
            _ => None,
        }
    }

    // Says why the program ends, behind the name of the file.
    fn say<R: Eprint>(&self, rt: &R) -> io::Result<()> {
        match self {
            Refusal::Words(error) => eprint!(rt; "{error}"),
            Refusal::Failed(stream, error) => {
                let left = stream.what_is_left();
                eprintln!(rt; "{error}{left}")
            }
            Refusal::Damaged(bad) => eprintln!(rt; "{bad}"),
            Refusal::FrontEnds(end) => {
                let (why, used) = (end.why.word(), end.used);
                eprintln!(rt; "its front ends by {why} at {used} bytes")
            }
            Refusal::Line(refused) => eprintln!(rt; "{refused}"),
            Refusal::Refused(_, fault) => {
                let advice = advice(*fault);
                eprintln!(rt; "{fault}{advice}")
            }
            _ => {
                let text = self.text();
                eprintln!(rt; "{text}")
            }
        }
    }

    // Says the program's name, and that of the file as the words have it.
    fn say_name<R: Eprint>(&self, rt: &R, words: Option<&ArgMatches<'_>>) -> io::Result<()> {
        match self.stream() {
            _ if matches!(self, Refusal::Words(_)) => Ok(()),
            None => eprint!(rt; "rqlog: "),
            Some(stream) => {
                let name = stream.called(words);
                match stream {
                    Stream::Kept(offset) => eprint!(rt; "rqlog: {name}.cut-{offset}: "),
                    _ => eprint!(rt; "rqlog: {name}: "),
                }
            }
        }
    }

    /// Prints what was asked for of the words, or says on standard error why the program ends, and
    /// answers its exit status. The words of the command, if they were read, name the files.
    pub(crate) fn tell<R>(&self, rt: &R, words: Option<&ArgMatches<'_>>) -> u8
    where
        R: Print + Eprint,
    {
        match self {
            Refusal::Words(help) if help.exit_code() == 0 => show_help(rt, help),
            _ => {
                let _ = self.say_name(rt, words).and_then(|()| self.say(rt));
                self.exit()
            }
        }
    }
}
