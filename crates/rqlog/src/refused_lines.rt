//! Why a line of a script is not appended.

use crate::expected::{Misfit, field_missed};
use rq_journal::{NotTaken, Rule};
use rq_record::{Fault, Version};
use rq_writer::ScriptLine;
use std::alloc::{AllocError, Global};
use std::fmt;

// So much of a line is told.
const TOLD: usize = 100;

/// Why a line is not appended.
#[derive(Clone, Copy)]
pub(crate) enum Reason {
    /// It is no line of a script.
    NoLine,
    /// The same, by this field.
    Misfit(Misfit),
    /// It has no end.
    NoEnd,
    /// It asks for a checkpoint of the state, which no window over the log tells.
    Checkpoint,
    /// Its record breaks a rule.
    Breaks(Rule),
    /// With it the log would be too long.
    Full,
    /// There are as many records as numbers.
    Ended,
    /// Memory is refused.
    Memory,
}

impl Reason {
    /// Why the record of a line is not taken.
    pub(crate) fn of(why: NotTaken) -> Reason {
        match why {
            NotTaken::Ended => Reason::Ended,
            NotTaken::Unlawful(rule) => Reason::Breaks(rule),
            NotTaken::Full => Reason::Full,
            NotTaken::Resources => Reason::Memory,
        }
    }

    /// Why a line is not appended that the log's version does not have: of all records, version 1 lacks
    /// KILL alone.
    pub(crate) fn unread(alloc: Global, text: &[u8]) -> Reason {
        match ScriptLine::of(alloc, Version::Two, text) {
            Ok(ScriptLine::Told(_)) => Reason::Breaks(Rule::NoKill),
            Err(Fault::Resources) => Reason::Memory,
            _ => Reason::Misfit(field_missed(text)),
        }
    }

    // Whether the line tells a record.
    fn is_of_record(&self) -> bool {
        !matches!(
            self,
            Reason::NoLine | Reason::Misfit(_) | Reason::NoEnd | Reason::Memory
        )
    }
}

impl fmt::Display for Reason {
    fn fmt<W: fmt::Write>(&self, f: &mut fmt::Formatter<W>) -> fmt::Result {
        match self {
            Reason::NoLine => f.write_str("no line of a script"),
            Reason::Misfit(misfit) => fmt::Display::fmt(misfit, f),
            Reason::NoEnd => f.write_str("a line feed is expected at its end"),
            Reason::Checkpoint => f.write_str("use rqlog checkpoint"),
            Reason::Breaks(rule) => fmt::Display::fmt(rule, f),
            Reason::Full => f.write_str("log is full: carry it on"),
            Reason::Ended => f.write_str("numbers end at 9223372036854775807: begin a new log"),
            Reason::Memory => f.write_str("resources"),
        }
    }
}

/// The first line that is not appended, and what becomes of those before it.
#[derive(Drop)]
pub(crate) struct LineRefused {
    // Its number, from 1.
    line: u64,
    // The beginning of its record's text; nothing if it is no line.
    text: String,
    pub(crate) reason: Reason,
    // Whether the records before it are appended.
    is_kept: bool,
}

// The beginning of a line, which has visible characters alone if it is one of a script.
fn told(alloc: Global, text: &[u8]) -> Result<String, AllocError> {
    match std::str::from_utf8(text) {
        Ok(text) if text.len() <= TOLD => String::from_str(alloc, text),
        Ok(text) => {
            let beginning = text.get(..TOLD).unwrap_or("");
            format!(in alloc; "{beginning}..")
        }
        Err(_) => String::from_str(alloc, ""),
    }
}

impl LineRefused {
    /// The refusal of the line of this number, for this reason. What is no line is not shown.
    pub(crate) fn of(
        alloc: Global,
        line: u64,
        text: &[u8],
        reason: Reason,
        is_kept: bool,
    ) -> Result<LineRefused, AllocError> {
        let shown: &[u8] = if reason.is_of_record() { text } else { &[] };
        Ok(LineRefused {
            line,
            text: told(alloc, shown)?,
            reason,
            is_kept,
        })
    }
}

impl fmt::Display for LineRefused {
    fn fmt<W: fmt::Write>(&self, f: &mut fmt::Formatter<W>) -> fmt::Result {
        let (line, text, reason) = (self.line, self.text.as_str(), self.reason);
        let colon = if text.is_empty() { "" } else { ": " };
        write!(f, "script line {line}: {text}{colon}{reason}; ")?;
        if self.is_kept {
            let before = line.saturating_sub(1);
            write!(f, "{before} records before it were appended")
        } else {
            f.write_str("nothing was appended")
        }
    }
}
