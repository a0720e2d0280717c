//! Readers and writers that count their faults.

ghost use Rattle.std.specs.Prelude.{◌≡◌, ℕ, ◌+◌, ◌<◌, ◌≤◌, List, Option, None, length, IfOk, OnOk};
ghost use Rattle.std.specs.Prelude.{IfErr};
ghost use Rattle.std.specs.Io.KnownBytes.{WriteAppends, ReadConsumes};
ghost use Rattle.rq_record.specs.declared.fault.Fault.TheVariants.{ReadFailed, WriteFailed};

use rq_record::Fault;
use std::io::{self, ErrorKind, Read, Write};

/// A source of bytes that counts its faults.
pub trait Input {
    // How many of its reads failed.
    ghost faults: { Self → ℕ };

    // The bytes that it still has to give, if they are known.
    ghost remaining: { Self → Option (List ℕ) } = { λ _. None };

    /// Reads into the front of the piece, and answers how many bytes. It answers 0 for a piece that
    /// is not empty only at the end. Refused with `ReadFailed` if the read failed, which adds one
    /// to the count of faults and takes no byte.
    fn read(&mut self, piece: &mut [u8]) -> Result<usize, Fault>
        requires { faults self.old < 18446744073709551615 }
        ensures bound { IfOk result (λ n. n ≤ length piece.new) }
        ensures bytes { ReadConsumes (remaining self.old) (remaining self.new) result piece.new }
        ensures ok { OnOk result (faults self.new ≡ faults self.old) }
        ensures err { IfErr result
            (λ e. (e ≡ ReadFailed) × (faults self.new ≡ faults self.old + 1)) };
}

/// A sink of bytes that counts its faults.
pub trait Output {
    // How many of its writes failed.
    ghost faults: { Self → ℕ };

    // The bytes that it holds, if they are known.
    ghost contents: { Self → Option (List ℕ) } = { λ _. None };

    /// Writes bytes from the front of the piece, and answers how many: at least one of a piece that
    /// is not empty. Refused with `WriteFailed` if the write failed, which adds one to the count of
    /// faults and writes no byte.
    fn write(&mut self, piece: &[u8]) -> Result<usize, Fault>
        requires { faults self.old < 18446744073709551615 }
        ensures bound { IfOk result (λ n. n ≤ length piece.now) }
        ensures some { IfOk result (λ n. 0 < length piece.now → 0 < n) }
        ensures bytes { WriteAppends (contents self.old) (contents self.new) result piece.now }
        ensures ok { OnOk result (faults self.new ≡ faults self.old) }
        ensures err { IfErr result
            (λ e. (e ≡ WriteFailed) × (faults self.new ≡ faults self.old + 1)) };
}

/// Reads from any reader of std. An interrupted read is tried again, and is no fault.
pub type OverRead<R> = Over<R>;

/// Writes to any writer of std. An interrupted write is tried again, and is no fault. A write that
/// takes none of some bytes is a fault.
pub type OverWrite<W> = Over<W>;

/// A reader or a writer of std, with the count of its faults, and the error of the last.
#[derive(Drop)]
pub struct Over<T> {
    inner: T,
    faults: u64,
    error: Option<io::Error>,
}

impl<T> Over<T> {
    /// Over this one, with no faults so far.
    pub fn new(inner: T) -> Self
        ensures faults { result.faults ≡ 0 }
        ensures inner { result.inner ≡ inner }
    {
        Over {
            inner,
            faults: 0,
            error: None,
        }
    }

    /// The error of the last fault, if there was one.
    pub fn into_error(self) -> Option<io::Error>
    where
        T: Drop,
        ensures { result ≡ self.error }
    {
        self.error
    }

    /// The reader, or the writer.
    pub fn into_inner(self) -> T
        ensures { result ≡ self.inner }
    {
        self.inner
    }
}

// The error of a write that takes none of some bytes, as `write_all` of std has it.
fn taken_none() -> io::Error {
    io::Error::new(ErrorKind::WriteZero, "failed to write whole buffer")
}

impl<R: Read> Input for Over<R> {
    ghost faults = { λ it. it.faults };

    ghost remaining = { λ it. R.remaining it.inner };

    fn read(&mut self, piece: &mut [u8]) -> Result<usize, Fault> {
        for _ in 0..u64::MAX {
            match self.inner.read(piece) {
                Ok(n) => return Ok(n),
                Err(e) if e.kind() == ErrorKind::Interrupted => {}
                Err(e) => {
                    self.error = Some(e);
                    break;
                }
            }
        }
        self.faults += 1;
        Err(Fault::ReadFailed)
    }
}

impl<W: Write> Output for Over<W> {
    ghost faults = { λ it. it.faults };

    ghost contents = { λ it. W.contents it.inner };

    fn write(&mut self, piece: &[u8]) -> Result<usize, Fault> {
        for _ in 0..u64::MAX {
            match self.inner.write(piece) {
                Ok(n) if n > 0 || piece.is_empty() => return Ok(n),
                Ok(_) => {
                    self.error = Some(taken_none());
                    break;
                }
                Err(e) if e.kind() == ErrorKind::Interrupted => {}
                Err(e) => {
                    self.error = Some(e);
                    break;
                }
            }
        }
        self.faults += 1;
        Err(Fault::WriteFailed)
    }
}
