//! What is written to the file of a log.

use crate::refusal::{Refusal, Stream, failed};
use rq_file::Replaces;
use rq_journal::Growth;
use rq_log_file::HeldLog;
use std::fs::{File, Files, OpenFile};
use std::io::{self, Seek, SeekFrom, Write};

// Makes the log so long again, and answers what is left of it.
fn take_back(file: &mut File, used: usize) -> Stream {
    let done = OpenFile::set_len(file, used as u64).and_then(|_| OpenFile::sync_all(file));
    if done.is_ok() {
        Stream::LogAsItWas
    } else {
        Stream::LogUnknown
    }
}

/// Writes the frames that were gathered behind the front of a log of which so many bytes were read, and
/// tells the disk of them, and of the log's name before. If that fails, what was written is taken back, as
/// far as the system lets us.
pub(crate) fn write_frames<R>(
    rt: &R,
    held: &mut HeldLog,
    read: usize,
    growth: &Growth,
) -> Result<(), Refusal>
where
    R: Files<File = File> + AllocGlobal,
{
    if let Err(error) = held.sync_name(rt) {
        return Err(failed(Stream::LogAsItWas, error));
    }
    held.expect_as_read(rt, read)?;
    let used = growth.end().used;
    match write_behind(held.file(), read, used, growth.frames()) {
        Ok(()) => Ok(()),
        Err(error) => {
            let left = take_back(held.file(), used);
            Err(Refusal::Failed(left, error))
        }
    }
}

// Cuts the file of a log of so many bytes to its front, if it has more, and writes the frames behind
// that.
fn write_behind(file: &mut File, read: usize, used: usize, frames: &[u8]) -> io::Result<()> {
    if used < read {
        OpenFile::set_len(file, used as u64)?;
    }
    file.seek(SeekFrom::Start(used as u64))?;
    file.write_all(frames)?;
    OpenFile::sync_all(file)
}

/// Makes a file of these bytes, whole or not at all.
pub(crate) fn put_whole<R>(rt: &R, to: &str, stream: Stream, bytes: &[u8]) -> Result<(), Refusal>
where
    R: Files<File = File> + AllocGlobal,
{
    Replaces::Anything
        .put_over(rt, to, &[bytes])
        .map_err(|error| failed(stream, error))
}
