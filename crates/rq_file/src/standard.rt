//! The standard descriptors, of which none stays closed.

ghost use Rattle.std.specs.Prelude.{IfOk};
ghost use Rattle.rq_file.specs.Standard.{IsBeyond};

use std::fs::{File, Files};
use std::io::{self, ErrorKind, PipeReader};
use std::os::fd::{AsRawFd, IntoRawFd, RawFd};

// Standard input is 0, standard output 1, and standard error 2.
const LAST: RawFd = 2;

// What is opened in the place of a closed one, to be read: a folder that is always there. Reads of its
// bytes and writes to it fail, also by `/dev/stdin` and its like, where a device would swallow them.
const FOLDER: &str = "/";

/// Opens each standard descriptor that is closed, to keep it till the program ends: reads from it and
/// writes to it fail then, as they should. Else the next file that is opened would have its number, and
/// messages would be written into that file.
///
/// The system gives what is opened the lowest number that is free. So the pipe that is handed back,
/// whose number is beyond the standard ones, says that all of these are open. Refuses with the
/// system's error what cannot be opened.
pub fn hold_standard<R: Files>(rt: &R) -> io::Result<PipeReader>
where
    R::File: IntoRawFd,
    ensures { IfOk result IsBeyond }
{
    for _ in 0..=LAST + 1 {
        let (beyond, _) = rt.pipe()?;
        if beyond.as_raw_fd() > LAST {
            return Ok(beyond);
        }
        drop(beyond);
        File::open(rt, FOLDER)?.into_raw_fd();
    }
    Err(io::Error::from(ErrorKind::Other))
}
