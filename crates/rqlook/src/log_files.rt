//! Reading a log from a file or from standard input.

use crate::failures::{Failure, FileTrouble, of_file};
use crate::progress::{Watch, Watched};
use rq_file::{Names, read_limited};
use rq_found::{Fault, Trouble};
use std::fs;
use std::io::{self, ErrorKind};
use std::rt::{Clock, Files};

fn read<R>(rt: &R, file: &str, watch: Watch) -> io::Result<Vec<u8>>
where
    R: Files + Input + Eprint + Clock + AllocGlobal,
{
    if file == "-" {
        read_limited(rt, Watched::new(rt, rt.reader(), watch, "read"))
    } else {
        read_limited(rt, Watched::new(rt, fs::open(rt, file)?, watch, "read"))
    }
}

/// The bytes of the file, or of standard input for `-`; no more than make it too long for a log. A log
/// for which there is no memory is refused.
pub(crate) fn read_log_file<R>(rt: &R, file: &str, watch: Watch) -> Result<Vec<u8>, Failure>
where
    R: Files + Input + Eprint + Clock + AllocGlobal,
{
    match read(rt, file, watch) {
        Ok(bytes) => Ok(bytes),
        Err(error) if error.kind() == ErrorKind::OutOfMemory => {
            let refused = Trouble::Log(Fault::Resources);
            Err(of_file(rt, file, FileTrouble::Refused(refused)))
        }
        Err(error) => Err(of_file(rt, file, FileTrouble::Stream(error))),
    }
}

/// What a log is called that has this file.
pub(crate) fn shown_name(file: &str) -> &str {
    if file == "-" { "standard input" } else { file }
}

/// What stands for a log in a line that is typed: the name of its file, if it has one.
pub(crate) fn typed_name(file: &str) -> &str {
    if file == "-" { "LOG" } else { file }
}

/// Whether what is written to the second name would be written over the log of the first: both are
/// of one file. Standard input may be a file, too; standard output is none that is written over.
pub(crate) fn is_over_log<R: Files>(rt: &R, file: &str, to: &str) -> bool {
    if to == "-" {
        return false;
    }
    let log = if file == "-" { "/dev/stdin" } else { file };
    Names::name_one_file(rt, log, to)
}
