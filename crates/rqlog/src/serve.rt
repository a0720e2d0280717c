//! A log is served to one program, line by line.

ghost use Rattle.std.specs.Prelude.{◌≡◌, IfOk, None, length};
ghost use Rattle.rq_live.specs.Kernels.{StandsWithin};
ghost use Rattle.rq_live.specs.Managers.{IsInOrder, stand_of};

use crate::carrier::Carrier;
use crate::damage::BadEnd;
use crate::inputs::bytes_from;
use crate::new_log::{expect_free, put_new};
use crate::recovery::{kept_cut, why_spent};
use crate::refusal::{Refusal, Stream, failed};
use rq_device::{Device, Successor, WINDOW};
use rq_file::Patient;
use rq_front::{CARRIED_AT, FRAME_LEN, HEADER_LEN, header_of, is_carried};
use rq_journal::{Damage, Fault, Plan, Why};
use rq_judged::Edge;
use rq_live::{Kernel, Manager, NotDone};
use rq_log_file::{HeldLog, Hold, LogFile};
use rq_record::Version;
use rq_reopen::{NotOpened, Opening};
use rq_serve::{CarryPoint, Operator, Unserved, serve};
use rq_tool::{OverRead, OverWrite};
use std::fs::{File, Files};
use std::io;
use std::rt::Clock;
use std::sync::ArcSlice;
use std::thread::Threads;

/// The bytes at which a log is carried on, if nothing else is told.
pub(crate) const CARRY_AT: usize = 3_221_225_472;

/// What is told of a log before it is served.
#[derive(Clone, Copy)]
pub(crate) struct Greeting {
    /// How many units were open, which are aborted.
    pub(crate) aborted: usize,
    /// How many bytes behind the front were cut off.
    pub(crate) cut: usize,
}

// Makes a log without records, unless something stands there.
fn make_if_free<R>(rt: &R, path: &str) -> Result<(), Refusal>
where
    R: Files<File = File> + AllocGlobal,
{
    if expect_free(rt, path).is_err() {
        return Ok(());
    }
    let mut log = Vec::new(rt.alloc());
    header_of(Version::Two, &mut log)?;
    match put_new(rt, path, &log) {
        Ok(()) | Err(Refusal::There) => Ok(()),
        Err(Refusal::Failed(Stream::New, error)) => Err(failed(Stream::Log, error)),
        Err(refusal) => Err(refusal),
    }
}

/// Whether a crash can have left so many bytes behind a front. Frames that are right can stand behind a
/// page that was not written: a crash may leave any of the pages that were not synced. But a manager
/// leaves no more bytes than these unsynced.
pub(crate) fn is_left_by_crash(damage: Option<Damage>, behind: usize) -> bool {
    match damage {
        None => true,
        Some(Damage::Right(_) | Damage::Unsearched(_)) => behind <= WINDOW,
        Some(_) => false,
    }
}

// Where a manager goes on behind what a crash left. Payloads are copied: lent, a few that stay would
// keep all of the log in memory.
fn opened<R>(rt: &R, bytes: &mut [u8], plan: &Plan) -> Result<Opening, Refusal>
where
    R: AllocGlobal + Threads + Sync,
    ensures { IfOk result (λ o. StandsWithin o.found.kernel (length bytes.old)) }
{
    let total = bytes.len();
    match Opening::of_file(rt, rt.alloc(), bytes, plan, true) {
        Ok(opening) => match opening.damage {
            Some(damage) if !is_left_by_crash(opening.damage, opening.cut.len()) => {
                let end = opening.found.end;
                Err(Refusal::Damaged(BadEnd::not_served(end, total, damage)))
            }
            _ => Ok(opening),
        },
        Err(NotOpened::Log(fault)) => Err(Refusal::from(fault)),
        Err(NotOpened::Damaged(found, damage)) => {
            Err(Refusal::Damaged(BadEnd::not_served(found.end, total, damage)))
        }
    }
}

/// How many bytes a log began with that has these first ones: its header; or that of a carried file, its
/// link and its first frame.
pub(crate) fn begun_with(log: &[u8]) -> usize {
    let Some(len) = log.get(CARRIED_AT..CARRIED_AT + 4) else {
        return HEADER_LEN;
    };
    if !is_carried(log) {
        return HEADER_LEN;
    }
    let len = u32::from_be_bytes([len[0], len[1], len[2], len[3]]);
    CARRIED_AT + FRAME_LEN + len as usize
}

/// Keeps what is cut off behind a front that ends here, if it is more than the beginning of a frame.
pub(crate) fn keep_cut<R>(
    rt: &R,
    path: &str,
    end: Edge,
    damage: Option<Damage>,
    cut: &[u8],
) -> Result<(), Refusal>
where
    R: Files<File = File> + AllocGlobal,
{
    if damage.is_none() && matches!(end.why, Why::Cut) {
        return Ok(());
    }
    kept_cut(rt, path, end.used, cut)?;
    Ok(())
}

// Tells that the log is served: all of it is safe.
fn greet<R: Print>(
    rt: &R,
    manager: &Manager<LogFile<HeldLog>>,
    greeting: Greeting,
) -> Result<(), Refusal> {
    let (Ok(unit), Ok(records)) = (manager.greatest(), manager.record_count()) else {
        return Err(Refusal::Memory);
    };
    let (bytes, aborted, cut) = (manager.len(), greeting.aborted, greeting.cut);
    println!(rt;
        "ready 1 unit {} records {records} bytes {bytes} aborted {aborted} cut {cut}",
        unit.0
    )?;
    Ok(())
}

// Why a stream failed.
fn stopped(stream: Stream, error: Option<io::Error>) -> Refusal {
    match error {
        Some(error) => failed(stream, error),
        None => Refusal::Memory,
    }
}

// Does what the lines of standard input ask for until that ends, or one closes, and answers them. Refused
// with nothing if the manager is spent.
fn serve_lines<R, D, S>(
    rt: &R,
    manager: &mut Manager<D>,
    next: &mut S,
    point: CarryPoint,
) -> Result<(), Option<Refusal>>
where
    R: Input + Print + Clock + AllocGlobal,
    D: Device + Drop,
    S: Successor<D> + Operator,
    requires { IsInOrder (stand_of D.written D.synced D.doubted D.failed manager.old) }
{
    let mut input = OverRead::new(rt.reader());
    let mut output = OverWrite::new(Patient {
        rt,
        inner: io::writer(rt),
    });
    match serve(rt.alloc(), manager, next, point, &mut input, &mut output) {
        Ok(()) => Ok(()),
        Err(Unserved::Spent) => Err(None),
        Err(Unserved::Unread) => Err(Some(stopped(Stream::Input, input.into_error()))),
        Err(Unserved::Unheard) => Err(Some(stopped(Stream::Output, output.into_error()))),
    }
}

/// Serves a log in a file, which has so many bytes and this path: goes on behind its front, greets, and
/// does what lines ask for until the input ends, or one closes. It is carried on at the point.
pub(crate) fn serve_on<R>(
    rt: &R,
    path: &str,
    file: LogFile<HeldLog>,
    stands: usize,
    kernel: Kernel,
    greeting: Greeting,
    point: CarryPoint,
) -> Result<(), Refusal>
where
    R: Files<File = File> + Input + Print + Eprint + Clock + AllocGlobal,
    requires works { file.error ≡ None }
    requires within { StandsWithin kernel stands }
{
    let mut carrier = Carrier::new(rt, path, file.file())?;
    let mut manager = Manager::over(file, kernel);
    match manager.record_count() {
        Ok(records) => carrier.keep_name(manager.device().file(), records)?,
        Err(_) => return Err(Refusal::Memory),
    }
    match manager.resume(rt.alloc(), stands) {
        Ok(()) => {}
        Err(NotDone::Full) => return Err(Refusal::from(Fault::TooLarge)),
        Err(_) => return Err(why_spent(manager.device(), Stream::Log)),
    }
    greet(rt, &manager, greeting)?;
    match serve_lines(rt, &mut manager, &mut carrier, point) {
        Ok(()) => Ok(()),
        Err(Some(refusal)) => Err(refusal),
        Err(None) => Err(carrier.why_spent(manager.device())),
    }
}

/// Serves the queues of a log, plain or carried on, to the program at standard input and output. A log
/// that is not there is made, if it is to be. One of so many bytes is carried on.
pub(crate) fn serve_log<R>(
    rt: &R,
    path: &str,
    plan: &Plan,
    creates: bool,
    least: usize,
) -> Result<(), Refusal>
where
    R: Files<File = File> + Input + Print + Eprint + Clock + AllocGlobal + Threads + Sync,
{
    if creates {
        make_if_free(rt, path)?;
    }
    let mut held = HeldLog::open(rt, path, Hold::ToWrite)?;
    let mut bytes = bytes_from(rt, &*held.file())?;
    let (stands, begins) = (bytes.len(), begun_with(&bytes));
    let opening = opened(rt, &mut bytes, plan)?;
    keep_cut(rt, path, opening.found.end, opening.damage, &opening.cut)?;
    held.expect_as_read(rt, stands)?;
    let greeting = Greeting {
        aborted: opening.found.kernel.open_count(),
        cut: opening.cut.len(),
    };
    let whole = ArcSlice::from_vec(bytes)?;
    let (file, kernel) = (LogFile::new(held, Some(whole)), opening.found.kernel);
    serve_on(
        rt,
        path,
        file,
        stands,
        kernel,
        greeting,
        CarryPoint::new(least, begins),
    )
}
