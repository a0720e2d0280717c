//! A file that is mended: a log, or a carried file as it is read.

ghost use Rattle.std.specs.Prelude.{◌≤◌, ℕ, List};
ghost use Rattle.rq_model.specs.Carrying.{carried_at};
ghost use Rattle.rq_behind.specs.MendedFiles.{IsReadAs, Mends};

use crate::mended_logs::{Mended, mend_log};
use rq_front::{CARRIED_AT, HEADER_LEN, read_as_log, write_as_carried};
use rq_model::{carried_headers, versions};
use rq_record::Fault;
use std::alloc::Global;
use std::marker::Sync;
use std::thread::Threads;

// Mends the log as which a carried file is read, and makes of it that file again.
fn mend_carried<R: Threads + Sync>(
    rt: &R,
    alloc: Global,
    log: Vec<u8>,
    grain: u32,
) -> Result<Mended, Fault>
    requires grain { 1 ≤ grain }
    ensures { (file : List ℕ) → IsReadAs file log.items carried_at → Mends file result }
{
    carried_headers();
    versions();
    if log.len() < CARRIED_AT {
        return Err(Fault::NoCheckpoint);
    }
    let mut mended = mend_log(rt, alloc, log, CARRIED_AT, grain)?;
    write_as_carried(&mut mended.bytes);
    Ok(mended)
}

impl Mended {
    /// Puts back what stood in a log or in a carried file where it was changed, as far as a digest proves
    /// it. The header of a log is put back if the first frame is right after one. Then place after place
    /// where a frame is not right is tried: its digest, if the next frame is right after another; its
    /// length; a byte of its body, if that is not too long. It ends where nothing fits.
    ///
    /// Each byte that was put back is told, with the frame whose digest proves it: that digest stands as it
    /// stood in the file. No byte of the right frames that the file begins with is changed, and of a
    /// carried file none before its first frame.
    ///
    /// `TooLong` is returned for more than 4,294,967,295 bytes; `NoCheckpoint` if a carried file ends
    /// before its first frame; `NotALog` if the bytes begin with no header and no first frame proves one;
    /// `Resources` if memory runs out.
    pub fn of<R: Threads + Sync>(
        rt: &R,
        alloc: Global,
        mut bytes: Vec<u8>,
        grain: u32,
    ) -> Result<Mended, Fault>
        requires grain { 1 ≤ grain }
        ensures { Mends bytes.items result }
    {
        carried_headers();
        match read_as_log(&mut bytes) {
            Some(_) => mend_carried(rt, alloc, bytes, grain),
            None => mend_log(rt, alloc, bytes, HEADER_LEN, grain),
        }
    }
}
