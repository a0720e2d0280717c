//! Where the front of a log ends, and its tail: the aborts that close it.

ghost use Rattle.std.specs.Prelude.{◌≡◌, ◌≤◌, ◌++◌, ℕ, length, map, take, IfOk, IfErr, OnOk};
ghost use Rattle.rq_model.specs.Frames.{digest, frame, frames_of};
ghost use Rattle.rq_model.specs.Records as model;
ghost use Rattle.rq_model.specs.Spelling.{body_of};
ghost use Rattle.rq_record.specs.declared.fault.Fault.TheVariants.{Resources};
ghost use Rattle.rq_state.specs.Views.{unit_of};
ghost use Rattle.rq_restart.specs.RedoneFronts.{IsFoundFrom};
ghost use Rattle.rq_restart.specs.Tails.{Closes, EndsLog, EndsLogAt, IsCrowded, IsEndingOf, Tails};

use crate::restarts::{FoundFront, front_from, whole_front};
use rq_front::{LOG_LIMIT, append_frame};
use rq_judged::{Edge, before};
use rq_plan::Plan;
use rq_record::{Fault, LogBytes, Record, UnitNo, Version, encode};
use rq_state::State;
use std::alloc::Global;
use std::marker::Sync;
use std::thread::Threads;

// What the frame of an ABORT has: 36 bytes, and the 9 of its body.
const ABORT_LEN: usize = 45;

// Appends the frame of the unit's ABORT behind these 32 bytes, and answers its own last 32 bytes.
fn append_abort(
    alloc: Global,
    prev: &[u8; 32],
    unit: UnitNo,
    out: &mut Vec<u8>,
) -> Result<[u8; 32], Fault>
    ensures bytes { OnOk result
        (out.new.items ≡ out.old.items ++ frame prev.now (body_of (model.Abort (unit_of unit)))) }
    ensures last { IfOk result
        (λ last. last ≡ digest prev.now (body_of (model.Abort (unit_of unit)))) }
    ensures refused { IfErr result (λ e. e ≡ Resources) }
{
    let mut body = Vec::new(alloc);
    encode(&Record::Abort { unit }, &mut body)?;
    let last = append_frame(prev, &body, out)?;
    Ok(last)
}

// Appends the frames of the units' ABORTs, the first behind these 32 bytes.
fn append_aborts(
    alloc: Global,
    prev: [u8; 32],
    units: &[UnitNo],
    out: &mut Vec<u8>,
) -> Result<(), Fault>
    requires { length units.now ≤ 4294967295 }
    ensures bytes { OnOk result (out.new.items
        ≡ out.old.items ++ frames_of prev (map model.Abort (map unit_of units.now))) }
    ensures refused { IfErr result (λ e. e ≡ Resources) }
{
    out.reserve(ABORT_LEN * units.len())?;
    let mut last = prev;
    for unit in units {
        last = append_abort(alloc, &last, *unit, out)?;
    }
    Ok(())
}

/// Where the front of a log ends, why, and the tail that closes it.
#[derive(Drop)]
pub struct Ending {
    /// The version of the log.
    pub version: Version,
    /// Where the front ends, and why.
    pub end: Edge,
    /// How many units are open there.
    pub units: usize,
    /// The frames of their ABORTs, rising, chained to the front's last 32 bytes.
    pub tail: Vec<u8>,
}

impl Ending {
    /// The log whose front ends here, closed: its bytes up to there, and the tail behind them. What
    /// stood behind the front is dropped. `Resources` is returned if memory is refused.
    pub fn close(mut self, bytes: Vec<u8>) -> Result<Vec<u8>, Fault>
        ensures closed { IfOk result
            (λ closed. closed.items ≡ take self.end.used bytes.items ++ self.tail.items) }
        ensures refused { IfErr result (λ e. e ≡ Resources) }
    {
        let mut bytes = bytes;
        bytes.truncate(self.end.used);
        bytes.append(&mut self.tail)?;
        Ok(bytes)
    }
}

// Where this front of the log ends, and its tail.
fn ending_behind(alloc: Global, from: &FoundFront, bytes: &[u8]) -> Result<Ending, Fault>
    requires { (offset : ℕ) × IsFoundFrom bytes.now offset from.now }
    ensures ending { IfOk result (IsEndingOf bytes.now from.now) }
    ensures refused { IfErr result (IsCrowded bytes.now from.now) }
{
    let front = &from.front;
    let units = front.analysis.open_units(alloc)?;
    if units.len() > (LOG_LIMIT - front.end) / ABORT_LEN {
        return Err(Fault::TooLarge);
    }
    let mut tail = Vec::new(alloc);
    append_aborts(alloc, before(bytes, front.end), &units, &mut tail)?;
    Ok(Ending {
        version: from.version,
        end: Edge {
            used: front.end,
            records: front.records.len(),
            why: front.why,
        },
        units: units.len(),
        tail,
    })
}

impl Ending {
    /// Where the front of a log ends, why, and its tail. No queue is redone.
    ///
    /// Refused as `tail` is.
    pub fn of<R: Threads + Sync>(
        rt: &R,
        alloc: Global,
        bytes: &[u8],
        plan: &Plan,
    ) -> Result<Ending, Fault>
        ensures { EndsLog bytes.now result }
    {
        let from = whole_front(rt, alloc, &LogBytes::borrowed(bytes), plan)?;
        ending_behind(alloc, &from, bytes)
    }

    /// The same of the front of a carried file that is read as a log, from the checkpoint at an offset
    /// on, which is taken at its word.
    ///
    /// Refuses with `TooLarge` if the front followed by the tail would have more than 4,294,967,295
    /// bytes, and else as `restart_carried` does.
    pub fn ending_at<R: Threads + Sync>(
        rt: &R,
        alloc: Global,
        bytes: &[u8],
        offset: u64,
        plan: &Plan,
    ) -> Result<Ending, Fault>
        ensures { EndsLogAt bytes.now offset result }
    {
        let most = State::CARRIED_RECORDS;
        let from = front_from(rt, alloc, &LogBytes::borrowed(bytes), offset, most, plan)?;
        ending_behind(alloc, &from, bytes)
    }
}

/// The tail of a log: the frames of the ABORT of each unit that is open after its front, rising,
/// chained to the front's last 32 bytes; empty where no unit is open. No queue is redone for it.
///
/// Refuses with `TooLarge` where the front followed by the tail would have more than 4,294,967,295
/// bytes, and else as `restart` does.
pub fn tail<R: Threads + Sync>(
    rt: &R,
    alloc: Global,
    bytes: &[u8],
    plan: &Plan,
) -> Result<Vec<u8>, Fault>
    ensures { Tails bytes.now result }
{
    let ending = Ending::of(rt, alloc, bytes, plan)?;
    Ok(ending.tail)
}

/// The closed log: the bytes up to the end of the front, as many as a restart says are used, and
/// the tail behind them. What stood behind the front is dropped.
///
/// Refused as `tail` is.
pub fn closed<R: Threads + Sync>(
    rt: &R,
    alloc: Global,
    bytes: Vec<u8>,
    plan: &Plan,
) -> Result<Vec<u8>, Fault>
    ensures { Closes bytes.items result }
{
    Ending::of(rt, alloc, &bytes, plan)?.close(bytes)
}
