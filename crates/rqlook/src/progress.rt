//! How far the work is, told on standard error if a person looks on.

use std::io::{self, Read, Write};
use std::rt::Clock;
use std::time::Instant;

const MIB: u64 = 1_048_576;

// From so many MiB on it may take a second.
const MUCH: u64 = 64;

/// Since when a person looks on, if one does, and how many columns the output has before their eyes,
/// if it is there.
#[derive(Clone, Copy)]
pub(crate) struct Watch {
    begun: Option<Instant>,
    shown: Option<u32>,
}

impl Watch {
    /// Somebody looks on from now on, or nobody does.
    pub(crate) fn new<R: Clock>(rt: &R, is_watched: bool, shown: Option<u32>) -> Watch {
        let begun = if is_watched {
            Instant::now(rt).ok()
        } else {
            None
        };
        Watch { begun, shown }
    }

    /// The same for the output, which tells by itself how far it is if it is shown.
    pub(crate) fn of_output(self) -> Watch {
        let begun = if self.shown.is_some() {
            None
        } else {
            self.begun
        };
        Watch { begun, ..self }
    }

    /// The same for what tells nothing.
    pub(crate) fn of_nothing(self) -> Watch {
        Watch {
            begun: None,
            ..self
        }
    }

    /// How many columns the output has before a person's eyes; 0 if that is not known, or it goes
    /// elsewhere.
    pub(crate) fn columns(self) -> u32 {
        self.shown.unwrap_or(0)
    }

    /// Says that the work on the log begins, if it is long.
    pub(crate) fn begins<R: Eprint>(self, rt: &R, bytes: &[u8]) {
        let mib = bytes.len() as u64 / MIB;
        if self.begun.is_some() && mib >= MUCH {
            let _ = eprintln!(rt; "rqlook: going over {mib} MiB");
        }
    }

    // The whole seconds since somebody looks on.
    fn seconds<R: Clock>(self, rt: &R) -> u64 {
        match self.begun {
            Some(begun) => begun.elapsed(rt).map_or(0, |elapsed| elapsed.as_secs()),
            None => 0,
        }
    }
}

/// A stream, of which is told each second how much went through it.
#[derive(Drop)]
pub(crate) struct Watched<'a, R, S> {
    rt: &'a R,
    stream: S,
    watch: Watch,
    word: &'static str,
    bytes: u64,
    told: u64,
}

impl<'a, R: Clock + Eprint, S> Watched<'a, R, S> {
    /// Over this stream; the word says what becomes of the bytes.
    pub(crate) fn new(rt: &'a R, stream: S, watch: Watch, word: &'static str) -> Self {
        Watched {
            rt,
            stream,
            watch,
            word,
            bytes: 0,
            told: 0,
        }
    }

    fn tell(&mut self, count: usize) {
        self.bytes = self.bytes.saturating_add(count as u64);
        let seconds = self.watch.seconds(self.rt);
        if seconds > self.told {
            self.told = seconds;
            let (mib, word) = (self.bytes / MIB, self.word);
            let _ = eprintln!(self.rt; "rqlook: {mib} MiB {word}");
        }
    }
}

impl<'a, R: Clock + Eprint, S: Read> Read for Watched<'a, R, S> {
    fn read(&mut self, bytes: &mut [u8]) -> io::Result<usize> {
        let count = self.stream.read(bytes)?;
        self.tell(count);
        Ok(count)
    }
}

impl<'a, R: Clock + Eprint, S: Write> Write for Watched<'a, R, S> {
    fn write(&mut self, bytes: &[u8]) -> io::Result<usize> {
        let count = self.stream.write(bytes)?;
        self.tell(count);
        Ok(count)
    }

    fn flush(&mut self) -> io::Result<()> {
        self.stream.flush()
    }
}
