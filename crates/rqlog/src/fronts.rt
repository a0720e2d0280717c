//! Where the front of a log ends, plain or carried on.

ghost use Rattle.std.specs.Prelude.{List, ℕ, OnOk};
ghost use Rattle.rq_judged.specs.GrowingFronts.{GoesAlong};

use crate::damage::{LINK_LEN, LastBytes, LeftOut, expect_end};
use crate::inputs::{LentLog, bytes_from, read_piece};
use crate::refusal::{Refusal, Stream, failed};
use rq_front::HEADER_LEN;
use rq_journal::{CARRIED_AT, Fault, Growth, Plan, Why, is_carried, read_as_log};
use rq_judged::GrowingFront;
use rq_restart::RedoneFront;
use std::alloc::{AllocError, Global};
use std::fs::File;
use std::io::{Read, Seek, SeekFrom};
use std::os::unix::fs::FileExt;
use std::thread::Threads;

// So many bytes of a log are read at a time.
const PIECE: usize = 1_048_576;

/// Stands where the front of a log ends, and gathers what is to be written there.
#[derive(Drop)]
pub(crate) struct OpenLog {
    /// Takes records there.
    pub(crate) growth: Growth,
    /// So many bytes of the log were read: all that it had.
    pub(crate) read: usize,
    /// What stands behind the front and is left out, if that is to be told.
    pub(crate) left_out: Option<LeftOut>,
}

impl OpenLog {
    // Behind whose front nothing is left out yet, of a log of which so many bytes were read.
    fn new(growth: Growth, read: usize) -> OpenLog {
        OpenLog {
            growth,
            read,
            left_out: None,
        }
    }

    // Refuses the end of the front, by the last bytes of the log, if nothing is written behind it,
    // unless what stands there is to be dropped.
    fn expect_end(
        &mut self,
        alloc: Global,
        last: LastBytes<'_>,
        drops: bool,
    ) -> Result<(), Refusal> {
        let (version, end) = (self.growth.version(), self.growth.end());
        self.left_out = expect_end(alloc, last, version, end, drops)?;
        Ok(())
    }
}

// How many bytes behind a front that ends for this reason tell whether something is written there.
fn telling(why: Why, drops: bool) -> usize {
    if drops || matches!(why, Why::Cut) {
        usize::MAX
    } else {
        Why::TORN_LEN + 1
    }
}

// The bytes of a log from an offset of its open file on, at most so many.
fn last_of_log<A: AllocGlobal>(
    rt: &A,
    file: &mut File,
    offset: usize,
    most: usize,
) -> Result<Vec<u8>, Refusal> {
    if let Err(error) = file.seek(SeekFrom::Start(offset as u64)) {
        return Err(failed(Stream::Log, error));
    }
    bytes_from(rt, (&*file).take(most as u64))
}

// Whether an open file is a carried file.
fn begins_carried(file: &File) -> bool {
    let mut beginning = [0; HEADER_LEN];
    match file.read_at(&mut beginning, 0) {
        Ok(count) => count == HEADER_LEN && is_carried(&beginning),
        Err(_) => false,
    }
}

// Room for what is read at a time. (A function of its own, since the check of one that knows its
// bytes would look at each.)
fn room_for_piece(alloc: Global) -> Result<Vec<u8>, AllocError> {
    vec![in alloc; 0u8; PIECE]
}

// Goes along with the log in an open file, piece by piece, read from where that stands to its end,
// and answers how many bytes these are.
fn feed_file<R>(
    rt: &R,
    file: &mut File,
    front: &mut GrowingFront,
    plan: &Plan,
) -> Result<usize, Refusal>
where
    R: AllocGlobal + Threads + Sync,
    requires { (b : List ℕ) × GoesAlong b front.old }
    ensures { OnOk result ((b : List ℕ) × GoesAlong b front.new) }
{
    let mut piece = room_for_piece(rt.alloc())?;
    let mut total = 0usize;
    for _ in 0..u64::MAX {
        let count = read_piece(file, &mut piece, Stream::Log)?;
        front.feed(rt, rt.alloc(), &piece[..count], plan)?;
        if count == 0 {
            break;
        }
        total = total.saturating_add(count);
    }
    Ok(total)
}

// Where the front of a plain log ends, which is read from its start. No more is held than a window.
fn plain_front<R>(rt: &R, file: &mut File, plan: &Plan) -> Result<OpenLog, Refusal>
where
    R: AllocGlobal + Threads + Sync,
{
    let mut front = GrowingFront::new(rt.alloc());
    let read = feed_file(rt, file, &mut front, plan)?;
    let judged = front.judged(rt, rt.alloc(), plan)?;
    Ok(OpenLog::new(Growth::behind_judged(rt.alloc(), judged), read))
}

// Where the front of a carried file ends, which is held whole.
fn carried_front<R>(rt: &R, file: &mut File, plan: &Plan, drops: bool) -> Result<OpenLog, Refusal>
where
    R: AllocGlobal + Threads + Sync,
{
    let mut bytes = last_of_log(rt, file, 0, usize::MAX)?;
    if read_as_log(&mut bytes).is_none() {
        return Err(Refusal::Changed);
    }
    let growth = Growth::behind_carried(rt, rt.alloc(), &bytes, plan)?;
    let mut log = OpenLog::new(growth, bytes.len());
    log.expect_end(rt.alloc(), LastBytes::all(&bytes), drops)?;
    Ok(log)
}

// Refuses the end of the front of a plain log in an open file, as `OpenLog::expect_end` does, by as many
// bytes as tell of it.
fn expect_plain_end<A: AllocGlobal>(
    rt: &A,
    file: &mut File,
    log: &mut OpenLog,
    drops: bool,
) -> Result<(), Refusal> {
    let before = log.growth.end().used.saturating_sub(LINK_LEN);
    let most = telling(log.growth.end().why, drops).saturating_add(LINK_LEN);
    let bytes = last_of_log(rt, file, before, most)?;
    let last = LastBytes {
        bytes: &bytes,
        before,
        total: log.read,
    };
    log.expect_end(rt.alloc(), last, drops)
}

/// Where the front of the log in an open file ends, behind which records may follow, or do if what
/// stands there is to be dropped. The file is read as a plain log, of which no more is held than a
/// window, and what tells of its end; if it is none, but a carried file, it is held whole.
pub(crate) fn front_in<R>(
    rt: &R,
    file: &mut File,
    plan: &Plan,
    drops: bool,
) -> Result<OpenLog, Refusal>
where
    R: AllocGlobal + Threads + Sync,
{
    match plain_front(rt, file, plan) {
        Ok(mut log) => {
            if !matches!(log.growth.end().why, Why::Whole) {
                expect_plain_end(rt, file, &mut log, drops)?;
            }
            Ok(log)
        }
        Err(Refusal::Refused(_, Fault::NotALog)) if begins_carried(file) => {
            carried_front(rt, file, plan, drops)
        }
        Err(refusal) => Err(refusal),
    }
}

// The front of a log, and the state behind it. Open units stay open.
fn redone_in<R: Threads + Sync>(
    rt: &R,
    alloc: Global,
    log: &LentLog<'_>,
    plan: &Plan,
) -> Result<RedoneFront, Fault> {
    if log.is_carried {
        RedoneFront::redone_at(rt, alloc, &log.bytes, CARRIED_AT as u64, plan)
    } else {
        RedoneFront::of(rt, alloc, &log.bytes, plan)
    }
}

/// The front of a log behind which something is written, and the state there; and what is left out
/// behind it, if that is to be told. Open units stay open.
pub(crate) fn redone_log<R: Threads + Sync>(
    rt: &R,
    alloc: Global,
    log: &LentLog<'_>,
    plan: &Plan,
    drops: bool,
) -> Result<(RedoneFront, Option<LeftOut>), Refusal> {
    let front = redone_in(rt, alloc, log, plan)?;
    let last = LastBytes::all(log.bytes.as_slice());
    let left = expect_end(alloc, last, front.version, front.end, drops)?;
    Ok((front, left))
}
