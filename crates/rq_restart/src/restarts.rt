//! The restart of a log, from its start or from a checkpoint on.

ghost use Rattle.std.specs.Prelude.{◌≤◌};
ghost use Rattle.rq_model.specs.StateSpelling.{carried_next};
ghost use Rattle.rq_restart.specs.RedoneFronts.{FindsFront, FindsFrontAt};
ghost use Rattle.rq_restart.specs.Restarts.{Restarts, RestartsAt, RestartsCarried, RestartsUpTo};

use crate::restart_ends::{Restarted, finish};
use rq_front::{log_version, walk};
use rq_judged::{Begun, Front};
use rq_plan::{Gate, Plan};
use rq_record::{Fault, LogBytes, Version};
use rq_state::State;
use std::alloc::Global;
use std::marker::Sync;
use std::sync::ArcSlice;
use std::thread::Threads;

/// A front of a log, of the version, that begins in the state.
#[derive(Drop)]
pub(crate) struct FoundFront {
    pub(crate) version: Version,
    pub(crate) state: State,
    pub(crate) front: Front,
}

/// The front of all of a log whose bytes may be shared.
pub(crate) fn whole_front<R: Threads + Sync>(
    rt: &R,
    alloc: Global,
    bytes: &LogBytes<'_>,
    plan: &Plan,
) -> Result<FoundFront, Fault>
    ensures { FindsFront bytes.now result }
{
    rq_model::frames_join();
    rq_model::runs_are_well_formed();
    let version = log_version(bytes.as_slice())?;
    let walk = walk(alloc, bytes.as_slice(), 40)?;
    let state = State::empty(alloc);
    let front = Front::of_walk(rt, alloc, version, bytes, walk, &state, plan)?;
    Ok(FoundFront {
        version,
        state,
        front,
    })
}

/// The restart of a log whose bytes may be shared: `restart` of them. If they are, a checkpoint, and
/// a payload of more than 22 bytes, are parts of them and no copies. So they stay in memory as long
/// as one such payload of the state does.
pub(crate) fn restart_of<R: Threads + Sync, G: Gate + Sync>(
    rt: &R,
    alloc: Global,
    bytes: &LogBytes<'_>,
    plan: &Plan,
    gate: &G,
) -> Result<Restarted, Fault>
    ensures { Restarts bytes.now result }
{
    let from = whole_front(rt, alloc, bytes, plan)?;
    let total = bytes.len();
    finish(rt, alloc, from, total, plan, gate)
}

/// The restart of a log that nobody else needs: `restart` of its bytes. A checkpoint, and a payload
/// of more than 22 bytes, are parts of them and no copies. If the records of the front have no such
/// part, the bytes are let go before a queue is redone. Else they stay in memory as long as one such
/// payload does.
pub fn restart_own<R: Threads + Sync, G: Gate + Sync>(
    rt: &R,
    alloc: Global,
    bytes: Vec<u8>,
    plan: &Plan,
    gate: &G,
) -> Result<Restarted, Fault>
    ensures { Restarts bytes.items result }
{
    let total = bytes.len();
    let log = ArcSlice::from_vec(bytes)?;
    let from = whole_front(rt, alloc, &LogBytes::shared(&log), plan)?;
    drop(log);
    finish(rt, alloc, from, total, plan, gate)
}

/// The front of a log, and the state behind it and the aborts of its open units.
///
/// The queues are redone by the plan's workers, but by no more of them than there are queues that
/// wait for no other; each enters the gate before it redoes a queue. Refuses with `TooLong` more than
/// 4,294,967,295 bytes, with `NotALog` bytes that begin with no version's header, and with
/// `Resources` where memory is refused.
pub fn restart<R: Threads + Sync, G: Gate + Sync>(
    rt: &R,
    alloc: Global,
    bytes: &[u8],
    plan: &Plan,
    gate: &G,
) -> Result<Restarted, Fault>
    ensures { Restarts bytes.now result }
{
    restart_of(rt, alloc, &LogBytes::borrowed(bytes), plan, gate)
}

/// The front of a log whose bytes may be shared, from the checkpoint at an offset on: it begins in
/// the state that this spells, whose next record number is at most `most`.
pub(crate) fn front_from<R: Threads + Sync>(
    rt: &R,
    alloc: Global,
    bytes: &LogBytes<'_>,
    offset: u64,
    most: u64,
    plan: &Plan,
) -> Result<FoundFront, Fault>
    requires { most ≤ carried_next }
    ensures { FindsFrontAt most bytes.now offset result }
{
    let begun = Begun::begun_at(rt, alloc, bytes.as_slice(), offset, most, plan)?;
    let front = Front::of(
        rt,
        alloc,
        begun.version,
        bytes,
        &begun.found,
        &begun.state,
        plan,
    )?;
    Ok(FoundFront {
        version: begun.version,
        state: begun.state,
        front,
    })
}

// The restart from a checkpoint of bytes that nobody else needs, in a state whose next record number
// is at most this. They are let go or kept as `restart_own` does it.
fn restart_own_up_to<R: Threads + Sync, G: Gate + Sync>(
    rt: &R,
    alloc: Global,
    bytes: Vec<u8>,
    offset: u64,
    most: u64,
    plan: &Plan,
    gate: &G,
) -> Result<Restarted, Fault>
    requires { most ≤ carried_next }
    ensures { RestartsUpTo most bytes.items offset result }
{
    let total = bytes.len();
    let owned = ArcSlice::from_vec(bytes)?;
    let from = front_from(rt, alloc, &LogBytes::shared(&owned), offset, most, plan)?;
    drop(owned);
    finish(rt, alloc, from, total, plan, gate)
}

/// The restart from a checkpoint of a log that nobody else needs: `restart_at` of its bytes, which
/// are let go or kept as `restart_own` does it.
pub fn restart_own_at<R: Threads + Sync, G: Gate + Sync>(
    rt: &R,
    alloc: Global,
    bytes: Vec<u8>,
    offset: u64,
    plan: &Plan,
    gate: &G,
) -> Result<Restarted, Fault>
    ensures { RestartsAt bytes.items offset result }
{
    restart_own_up_to(rt, alloc, bytes, offset, State::RECORDS, plan, gate)
}

/// The same of a carried file that is read as a log, from a checkpoint of it: `restart_carried` of its
/// bytes.
pub fn restart_own_carried<R: Threads + Sync, G: Gate + Sync>(
    rt: &R,
    alloc: Global,
    bytes: Vec<u8>,
    offset: u64,
    plan: &Plan,
    gate: &G,
) -> Result<Restarted, Fault>
    ensures { RestartsCarried bytes.items offset result }
{
    restart_own_up_to(rt, alloc, bytes, offset, State::CARRIED_RECORDS, plan, gate)
}

/// The restart from a checkpoint of a log whose bytes may be shared, in a state whose next record
/// number is at most `most`. If they are, another checkpoint behind that one, and a payload of more
/// than 22 bytes, are parts of them and no copies.
pub(crate) fn restart_of_at<R: Threads + Sync, G: Gate + Sync>(
    rt: &R,
    alloc: Global,
    bytes: &LogBytes<'_>,
    offset: u64,
    most: u64,
    plan: &Plan,
    gate: &G,
) -> Result<Restarted, Fault>
    requires { most ≤ carried_next }
    ensures { RestartsUpTo most bytes.now offset result }
{
    let from = front_from(rt, alloc, bytes, offset, most, plan)?;
    finish(rt, alloc, from, bytes.len(), plan, gate)
}

/// The restart of a log that begins with the checkpoint at an offset, in the state that it spells,
/// and goes on with the longest run of lawful records from there. From a true checkpoint it is the
/// restart of the log.
///
/// Refuses with `NoCheckpoint` where the offset is below 40 or no frame with the right digest and
/// kind 9 starts there, with `BadCheckpoint` where the checkpoint spells no well-formed state, and
/// else as `restart` does.
pub fn restart_at<R: Threads + Sync, G: Gate + Sync>(
    rt: &R,
    alloc: Global,
    bytes: &[u8],
    offset: u64,
    plan: &Plan,
    gate: &G,
) -> Result<Restarted, Fault>
    ensures { RestartsAt bytes.now offset result }
{
    let log = LogBytes::borrowed(bytes);
    restart_of_at(rt, alloc, &log, offset, State::RECORDS, plan, gate)
}

/// The same of a carried file that is read as a log, from a checkpoint of it. The next record number of
/// the state there may be up to 9,223,372,036,854,775,807, where `restart_at` takes 4,294,967,295.
pub fn restart_carried<R: Threads + Sync, G: Gate + Sync>(
    rt: &R,
    alloc: Global,
    bytes: &[u8],
    offset: u64,
    plan: &Plan,
    gate: &G,
) -> Result<Restarted, Fault>
    ensures { RestartsCarried bytes.now offset result }
{
    let log = LogBytes::borrowed(bytes);
    restart_of_at(rt, alloc, &log, offset, State::CARRIED_RECORDS, plan, gate)
}
