//! Reading logs, whole or piece by piece.

ghost use Rattle.std.specs.Prelude.{◌≤◌, length, IfOk};

use crate::refusal::{Refusal, Stream, failed};
use rq_file::read_limited;
use rq_front::HEADER_LEN;
use rq_journal::{Fault, read_as_log};
use rq_record::LogBytes;
use std::fs::{self, File, Files};
use std::io::{Chain, Cursor, ErrorKind, Read};

/// A log that was read.
#[derive(Drop)]
pub(crate) struct ReadLog {
    /// Its bytes; those of a carried file as they are read, with the header of a log.
    pub(crate) bytes: Vec<u8>,
    /// Whether they are those of a carried file.
    pub(crate) is_carried: bool,
}

/// A log that is lent: a state that is made of it may share its bytes.
#[derive(Drop)]
pub(crate) struct LentLog<'a> {
    /// Its bytes, as `ReadLog` has them.
    pub(crate) bytes: LogBytes<'a>,
    /// Whether they are those of a carried file.
    pub(crate) is_carried: bool,
}

/// Bytes of a log, or what was cut off of one, as they stand here. If a log is too long, enough of them
/// that each call that goes over them tells so.
pub(crate) fn bytes_from<A, F>(rt: &A, from: F) -> Result<Vec<u8>, Refusal>
where
    A: AllocGlobal,
    F: Read + Drop,
{
    read_limited(rt, from).map_err(|error| failed(Stream::Log, error))
}

/// The log that is read from here.
pub(crate) fn log_from<A, F>(rt: &A, from: F) -> Result<ReadLog, Refusal>
where
    A: AllocGlobal,
    F: Read + Drop,
{
    let mut bytes = bytes_from(rt, from)?;
    let is_carried = read_as_log(&mut bytes).is_some();
    Ok(ReadLog { bytes, is_carried })
}

/// The log of an open file, read from where that stands.
pub(crate) fn rest_of_log<A: AllocGlobal>(rt: &A, file: &mut File) -> Result<ReadLog, Refusal> {
    log_from(rt, &*file)
}

/// Whether an open file or pipe is a carried file, which its header tells, and all its bytes as they are
/// read, to be read.
pub(crate) fn begun_log<A: AllocGlobal>(
    rt: &A,
    file: File,
) -> Result<(bool, Chain<Cursor<Vec<u8>>, File>), Refusal> {
    let mut beginning = Vec::new(rt.alloc());
    match (&file).take(HEADER_LEN as u64).read_to_end(&mut beginning) {
        Ok(_) => {
            let is_carried = read_as_log(&mut beginning).is_some();
            Ok((is_carried, Cursor::new(beginning).chain(file)))
        }
        Err(error) => Err(failed(Stream::Log, error)),
    }
}

/// Opens a log to read it.
pub(crate) fn opened<R>(rt: &R, path: &str, stream: Stream) -> Result<File, Refusal>
where
    R: Files<File = File>,
{
    match fs::open(rt, path) {
        Ok(file) => Ok(file),
        Err(error) => Err(Refusal::Failed(stream, error)),
    }
}

/// One read, which begins again if a signal ends it.
pub(crate) fn read_piece<F: Read>(
    from: &mut F,
    piece: &mut [u8],
    stream: Stream,
) -> Result<usize, Refusal>
    ensures { IfOk result (λ count. count ≤ length piece.new) }
{
    for _ in 0..u64::MAX {
        match from.read(piece) {
            Ok(count) => return Ok(count),
            Err(error) if error.kind() == ErrorKind::Interrupted => {}
            Err(error) => return Err(Refusal::Failed(stream, error)),
        }
    }
    Err(Refusal::Refused(stream, Fault::ReadFailed))
}
