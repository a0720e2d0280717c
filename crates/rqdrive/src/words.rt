//! The words of a line.

use rq_record::{Fault, Name};
use std::alloc::AllocError;
use std::{io, str};

/// Why no more lines are answered.
#[derive(Drop)]
pub(crate) enum Unanswered {
    /// A line is none of these.
    Line,
    /// The host refuses memory.
    Memory,
    /// Standard input or output failed.
    Host(io::Error),
}

impl From<Fault> for Unanswered {
    fn from(fault: Fault) -> Unanswered {
        match fault {
            Fault::Resources => Unanswered::Memory,
            _ => Unanswered::Line,
        }
    }
}

impl From<AllocError> for Unanswered {
    fn from(_error: AllocError) -> Unanswered {
        Unanswered::Memory
    }
}

impl From<io::Error> for Unanswered {
    fn from(error: io::Error) -> Unanswered {
        Unanswered::Host(error)
    }
}

/// The first word of a text, and what stands behind the space after it.
pub(crate) fn first_word(text: &[u8]) -> (&[u8], &[u8]) {
    match text.iter().position(|byte| *byte == b' ') {
        Some(at) => (
            text.get(..at).unwrap_or(&[]),
            text.get(at.saturating_add(1)..).unwrap_or(&[]),
        ),
        None => (text, &[]),
    }
}

/// The number of a word.
pub(crate) fn number_in(word: &[u8]) -> Result<u64, Unanswered> {
    match str::from_utf8(word) {
        Ok(digits) => u64::from_str_radix(digits, 10).map_err(|_| Unanswered::Line),
        Err(_) => Err(Unanswered::Line),
    }
}

/// The number of a queue.
pub(crate) fn queue_in(word: &[u8]) -> Result<u32, Unanswered> {
    match u32::try_from(number_in(word)?) {
        Ok(queue) => Ok(queue),
        Err(_) => Err(Unanswered::Line),
    }
}

/// The name of a word.
pub(crate) fn name_in(word: &[u8]) -> Result<Name, Unanswered> {
    match Name::new(word) {
        Some(name) => Ok(name),
        None => Err(Unanswered::Line),
    }
}
