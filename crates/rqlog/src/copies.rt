//! The copy of a log that is written as its bytes come.

use crate::new_log::{expect_free, put_new};
use crate::refusal::{Refusal, Stream, failed};
use rq_log_file::{HeldLog, Hold};
use std::alloc::{AllocError, Global};
use std::fs::{File, Files, OpenFile};
use std::io::Write;
use std::os::unix::fs::FileExt;

// At most so many bytes are written that are not synced yet.
const WINDOW: usize = 1_048_576;

/// The file of a copy, which is held as a log that is written.
#[derive(Drop)]
pub(crate) struct LogCopy {
    held: HeldLog,
    // So many bytes stood there when it was opened. They must be the first of those that come.
    stood: usize,
    len: usize,
    synced: usize,
}

/// Room for so many bytes that are read. (A function of its own, since the check of one that knows its
/// bytes would look at each.)
pub(crate) fn room_for(alloc: Global, len: usize) -> Result<Vec<u8>, AllocError> {
    vec![in alloc; 0u8; len]
}

impl LogCopy {
    /// Opens the file of a copy, or makes it, and holds it.
    pub(crate) fn open<R>(rt: &R, path: &str) -> Result<LogCopy, Refusal>
    where
        R: Files<File = File> + AllocGlobal,
    {
        if expect_free(rt, path).is_ok() {
            match put_new(rt, path, &[]) {
                Ok(()) | Err(Refusal::There) => {}
                Err(Refusal::Failed(_, error)) => return Err(failed(Stream::Log, error)),
                Err(refusal) => return Err(refusal),
            }
        }
        let mut held = HeldLog::open(rt, path, Hold::ToWrite)?;
        let stood = match OpenFile::metadata(held.file()) {
            Ok(found) => found.len() as usize,
            Err(error) => return Err(failed(Stream::Log, error)),
        };
        Ok(LogCopy {
            held,
            stood,
            len: 0,
            synced: 0,
        })
    }

    // Refuses bytes that come if others stand in their place.
    fn expect_same(&mut self, alloc: Global, piece: &[u8]) -> Result<(), Refusal> {
        let count = self.stood.saturating_sub(self.len).min(piece.len());
        if count == 0 {
            return Ok(());
        }
        let mut there = room_for(alloc, count)?;
        match self.held.file().read_exact_at(&mut there, self.len as u64) {
            Ok(()) if there.as_slice() == &piece[..count] => Ok(()),
            Ok(()) => Err(Refusal::CopyOther),
            Err(error) => Err(failed(Stream::Log, error)),
        }
    }

    /// Writes bytes that came behind those that came before, also if they stand there already: so each of
    /// them is synced.
    pub(crate) fn put(&mut self, alloc: Global, piece: &[u8]) -> Result<(), Refusal> {
        self.expect_same(alloc, piece)?;
        if let Err(error) = self.held.write_all(piece) {
            return Err(failed(Stream::Log, error));
        }
        self.len = self.len.saturating_add(piece.len());
        if self.len.saturating_sub(self.synced) >= WINDOW {
            return self.sync();
        }
        Ok(())
    }

    /// Tells the disk of all bytes that came.
    pub(crate) fn sync(&mut self) -> Result<(), Refusal> {
        if self.synced == self.len {
            return Ok(());
        }
        if let Err(error) = OpenFile::sync_data(&self.held) {
            return Err(failed(Stream::Log, error));
        }
        self.synced = self.len;
        Ok(())
    }

    /// The file, of which all bytes are synced, once all came.
    pub(crate) fn into_held<R>(mut self, rt: &R) -> Result<HeldLog, Refusal>
    where
        R: Files<File = File>,
    {
        self.sync()?;
        if self.stood > self.len {
            return Err(Refusal::CopyLonger);
        }
        self.held.expect_as_read(rt, self.len)?;
        Ok(self.held)
    }
}
