//! A log or a carried file that is mended into a file of its own.

use crate::acts::found_of;
use crate::failures::{Failure, FileTrouble, of_file};
use crate::log_files::read_log_file;
use crate::made_files::{expect_place, write_made};
use crate::progress::Watch;
use rq_behind::Mended;
use rq_file::Replaces;
use rq_found::{Plan, ShownLog, Trouble};
use rq_judged::grain_of;
use rq_look::{Findings, mended_text};
use std::os::fd::AsFd;
use std::rt::{Clock, Files};
use std::thread::{Threads, join};

// Where a carried file differs from the log as which it is read: in the bytes of its header.
const HEADER_LEN: usize = 40;

// Writes a file of these bytes, and checks meanwhile what they are.
fn write_checked<R>(
    rt: &R,
    to: &str,
    bytes: &mut [u8],
    plan: &Plan,
) -> Result<Result<Findings, Trouble>, Failure>
where
    R: Files + Print + AllocGlobal + Threads + Sync,
    R::File: AsFd,
{
    let header = Vec::from_slice(rt.alloc(), bytes.get(..HEADER_LEN).unwrap_or(&[]))?;
    let at = ShownLog::begins_at(bytes);
    let log = ShownLog { bytes, at, plan };
    let rest = log.bytes.get(header.len()..).unwrap_or(&[]);
    let (found, written) = join(
        rt,
        || found_of(rt, &log),
        || write_made(rt, to, &[&header, rest], &Replaces::Nothing),
    );
    written?;
    Ok(found)
}

// Says what was put back, or what was found: on standard error if the file goes to standard output.
fn say<R: Print + Eprint>(rt: &R, to: &str, text: &str) -> Result<(), Failure> {
    if to == "-" {
        let _ = eprint!(rt; "{text}");
        return Ok(());
    }
    rt.write_all(text.as_bytes())?;
    Ok(())
}

// That this file is refused.
fn refused<R: AllocGlobal>(rt: &R, file: &str, trouble: Trouble) -> Failure {
    of_file(rt, file, FileTrouble::Refused(trouble))
}

// Mends these bytes, and makes the file of what they are then. Answers whether a check finds nothing.
fn mend_bytes<R>(rt: &R, file: &str, to: &str, bytes: Vec<u8>, plan: &Plan) -> Result<bool, Failure>
where
    R: Files + Print + Eprint + AllocGlobal + Threads + Sync,
    R::File: AsFd,
{
    let mut mended = match Mended::of(rt, rt.alloc(), bytes, grain_of(plan)) {
        Ok(mended) => mended,
        Err(fault) => return Err(refused(rt, file, Trouble::Log(fault))),
    };
    let text = mended_text(rt.alloc(), &mended)?;
    let found = write_checked(rt, to, &mut mended.bytes, plan)?;
    say(rt, to, text.as_str())?;
    let found = match found {
        Ok(found) => found,
        Err(trouble) => return Err(refused(rt, to, trouble)),
    };
    say(rt, to, found.text.as_str())?;
    Ok(found.fine)
}

/// Makes the file of a mended log. It is new, and whole or not there. Answers whether the log is whole
/// then, and each of its checkpoints true.
pub(crate) fn mend_file<R>(
    rt: &R,
    file: &str,
    to: &str,
    plan: &Plan,
    watch: Watch,
) -> Result<bool, Failure>
where
    R: Files + Input + Print + Eprint + Clock + AllocGlobal + Threads + Sync,
    R::File: AsFd,
{
    expect_place(rt, to, &Replaces::Nothing)?;
    let bytes = read_log_file(rt, file, watch)?;
    watch.begins(rt, &bytes);
    mend_bytes(rt, file, to, bytes, plan)
}
