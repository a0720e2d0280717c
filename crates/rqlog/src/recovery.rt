//! A log that a crash left is made whole where it stands.

ghost use Rattle.std.specs.Arc.{arc_slice_items};
ghost use Rattle.std.specs.Prelude.{◌≡◌, IfOk, length};
ghost use Rattle.rq_live.specs.Kernels.{StandsWithin};

use crate::damage::{BadEnd, LastBytes, LeftOut, left_out, tell_left_out};
use crate::inputs::bytes_from;
use crate::new_log::put_new;
use crate::refusal::{Refusal, Stream, failed, untold};
use rq_file::{NamedFile, folder_within};
use rq_journal::{Damage, Fault, Plan};
use rq_judged::Edge;
use rq_live::{Kernel, Manager};
use rq_log_file::{HeldLog, Hold, LogFile};
use rq_record::Version;
use rq_reopen::{FoundLog, NotOpened, Opening};
use std::alloc::{AllocError, Global};
use std::fs::{File, Files, OpenFile, OpenOptions};
use std::io;
use std::sync::ArcSlice;
use std::thread::Threads;

// What was done to make a log whole.
#[derive(Drop)]
struct Recovered {
    // What was dropped, if that was damage.
    left: Option<LeftOut>,
    // The file that keeps what was cut off, if something was.
    kept: Option<String>,
    // Where the front ends.
    offset: usize,
    // How many bytes were cut off there.
    cut: usize,
    // How many units were aborted.
    units: usize,
    // How many bytes the log has then.
    bytes: usize,
}

// Refuses a log that would be too long with the ABORTs of the units that are open behind its front.
fn expect_room(found: &FoundLog) -> Result<(), Refusal> {
    if found.kernel.has_room_for_ends() {
        Ok(())
    } else {
        Err(Refusal::from(Fault::TooLarge))
    }
}

// How a manager goes on behind what a crash left of a log, plain or carried on; damage stays, unless it is to
// be dropped. Payloads are copied, as when it is served.
fn opened_log<R>(rt: &R, bytes: &mut [u8], plan: &Plan, drops: bool) -> Result<Opening, Refusal>
where
    R: AllocGlobal + Threads + Sync,
    ensures same { bytes.new ≡ bytes.old }
    ensures within { IfOk result (λ o. StandsWithin o.found.kernel (length bytes.old)) }
{
    let total = bytes.len();
    match Opening::of_file(rt, rt.alloc(), bytes, plan, drops) {
        Ok(opened) => {
            expect_room(&opened.found)?;
            Ok(opened)
        }
        Err(NotOpened::Log(fault)) => Err(Refusal::from(fault)),
        Err(NotOpened::Damaged(found, damage)) => {
            expect_room(&found)?;
            Err(Refusal::Damaged(BadEnd::damaged(found.end, total, damage)))
        }
    }
}

// The name of the file that keeps what is cut off at an offset.
fn kept_name(alloc: Global, path: &str, offset: usize) -> Result<String, AllocError> {
    format!(in alloc; "{path}.cut-{offset}")
}

// Tells the disk of a file that stands there with these bytes, and of its name.
fn sync_kept<R>(rt: &R, file: &File, name: &str) -> io::Result<()>
where
    R: Files<File = File> + AllocGlobal,
{
    OpenFile::sync_all(file)?;
    let folder = File::open(rt, folder_within(rt.alloc(), name)?.as_str())?;
    OpenFile::sync_all(&folder)
}

// Refuses a file that keeps other bytes. One that keeps these was left by a run that ended before the
// log was cut: perhaps the disk was not told of it yet.
fn expect_kept<R>(rt: &R, name: &str, offset: usize, cut: &[u8]) -> Result<(), Refusal>
where
    R: Files<File = File> + AllocGlobal,
{
    let mut options = OpenOptions::new();
    options.read(true);
    let place = match NamedFile::open(rt, name, &options) {
        Ok(place) => place,
        Err(error) => return Err(failed(Stream::Kept(offset), error)),
    };
    let found = bytes_from(rt, place.file())?;
    if found.as_slice() != cut {
        return Err(Refusal::KeptOther(offset));
    }
    sync_kept(rt, place.file(), name).map_err(|error| failed(Stream::Kept(offset), error))
}

// Keeps what is cut off, in a new file, or in the one that keeps it already.
fn keep_cut<R>(rt: &R, name: &str, offset: usize, cut: &[u8]) -> Result<(), Refusal>
where
    R: Files<File = File> + AllocGlobal,
{
    match put_new(rt, name, cut) {
        Ok(()) => Ok(()),
        Err(Refusal::There) => expect_kept(rt, name, offset, cut),
        Err(Refusal::Failed(Stream::New, error)) => Err(failed(Stream::Kept(offset), error)),
        Err(refusal) => Err(refusal),
    }
}

/// Keeps what is cut off at an offset, if something is, and answers where.
pub(crate) fn kept_cut<R>(
    rt: &R,
    path: &str,
    offset: usize,
    cut: &[u8],
) -> Result<Option<String>, Refusal>
where
    R: Files<File = File> + AllocGlobal,
{
    if cut.is_empty() {
        return Ok(None);
    }
    let name = kept_name(rt.alloc(), path, offset)?;
    keep_cut(rt, &name, offset, cut)?;
    Ok(Some(name))
}

// What of a log is left out behind a front that ends here, if damage is dropped.
fn dropped(
    alloc: Global,
    bytes: &[u8],
    version: Version,
    end: Edge,
    damage: Option<Damage>,
) -> Result<Option<LeftOut>, Refusal> {
    match damage {
        Some(_) => Ok(Some(left_out(alloc, LastBytes::all(bytes), version, end)?)),
        None => Ok(None),
    }
}

/// Why a manager over the file of a log is spent: a call of the file failed, or memory was refused.
pub(crate) fn why_spent(file: &LogFile<HeldLog>, stream: Stream) -> Refusal {
    let Some(error) = file.error() else {
        return Refusal::Memory;
    };
    let error = match error.raw_os_error() {
        Some(code) => io::Error::from_raw_os_error(code),
        None => io::Error::from(error.kind()),
    };
    Refusal::Failed(stream, error)
}

// Goes on from a log that was read, which has room for the ABORTs of the units that are open behind its
// front: tells the disk of its name, cuts off what stands there, and writes them. How many bytes it has then.
fn go_on<R>(rt: &R, held: HeldLog, whole: ArcSlice<u8>, kernel: Kernel) -> Result<usize, Refusal>
where
    R: Files<File = File> + AllocGlobal,
    requires { StandsWithin kernel (length (arc_slice_items whole)) }
{
    let read = whole.len();
    if let Err(error) = held.sync_name(rt) {
        return Err(failed(Stream::Log, error));
    }
    held.expect_as_read(rt, read)?;
    let mut manager = Manager::over(LogFile::new(held, Some(whole)), kernel);
    match manager.resume(rt.alloc(), read) {
        Ok(()) => Ok(manager.len()),
        Err(_) => Err(why_spent(manager.device(), Stream::LogToRecover)),
    }
}

// Makes a log of these bytes whole where it stands. One that is whole, with no open unit, is not written.
fn make_whole<R>(
    rt: &R,
    path: &str,
    held: HeldLog,
    mut bytes: Vec<u8>,
    plan: &Plan,
    drops: bool,
) -> Result<Recovered, Refusal>
where
    R: Files<File = File> + AllocGlobal + Threads + Sync,
{
    let opened = opened_log(rt, &mut bytes, plan, drops)?;
    let (version, end, cut) = (opened.found.version, opened.found.end, opened.cut.len());
    let left = dropped(rt.alloc(), &bytes, version, end, opened.damage)?;
    let kept = kept_cut(rt, path, end.used, &opened.cut)?;
    let units = opened.found.kernel.open_count();
    let len = if cut == 0 && units == 0 {
        bytes.len()
    } else {
        go_on(rt, held, ArcSlice::from_vec(bytes)?, opened.found.kernel)?
    };
    Ok(Recovered {
        left,
        kept,
        offset: end.used,
        cut,
        units,
        bytes: len,
    })
}

// Says what was cut off where, how many units were aborted, and how long the log is then.
fn tell_recovered<R: Print>(rt: &R, json: bool, done: &Recovered) -> io::Result<()> {
    let (offset, cut, units, bytes) = (done.offset, done.cut, done.units, done.bytes);
    if json {
        return println!(rt;
            "{{\"offset\":{offset},\"cut\":{cut},\"aborted\":{units},\"bytes\":{bytes}}}"
        );
    }
    if let Some(name) = &done.kept {
        println!(rt; "cut {cut} bytes at {offset}, kept in {name}")?;
    }
    if units > 0 {
        println!(rt; "aborted {units} units")?;
    }
    println!(rt; "whole, {bytes} bytes")
}

/// Makes a log whole where it stands: what stands behind its front is kept beside it and cut off, and
/// the units that are open are aborted. Tells so.
pub(crate) fn recover<R>(
    rt: &R,
    path: &str,
    plan: &Plan,
    drops: bool,
    json: bool,
) -> Result<(), Refusal>
where
    R: Files<File = File> + Print + Eprint + AllocGlobal + Threads + Sync,
{
    let mut held = HeldLog::open(rt, path, Hold::ToWrite)?;
    let bytes = bytes_from(rt, &*held.file())?;
    let done = make_whole(rt, path, held, bytes, plan, drops)?;
    tell_left_out(rt, done.left);
    tell_recovered(rt, json, &done).map_err(|error| untold(error))
}
