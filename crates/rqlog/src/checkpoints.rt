//! The checkpoint of a state, behind a front or in a carried file, and the end of a carried file.

use crate::damage::LeftOut;
use crate::fronts::redone_log;
use crate::inputs::{LentLog, ReadLog};
use crate::refusal::Refusal;
use rq_journal::{Fault, Growth, Plan, carried};
use rq_record::LogBytes;
use rq_restart::RedoneFront;
use rq_state::State;
use std::alloc::Global;
use std::thread::Threads;

/// A checkpoint that is to be written behind the front of a log.
#[derive(Drop)]
pub(crate) struct Marked {
    /// Holds its frame, behind ABORTs of the open units if these are to end.
    pub(crate) growth: Growth,
    /// Where it begins.
    pub(crate) offset: usize,
    /// What stands behind the front and is left out, if that is to be told.
    pub(crate) left_out: Option<LeftOut>,
}

// Gathers a checkpoint of the state behind a front, behind ABORTs of the open units if these are to
// end. Its offset.
fn mark_behind(
    alloc: Global,
    growth: &mut Growth,
    state: &State,
    ends_units: bool,
) -> Result<usize, Refusal> {
    if !ends_units {
        return Ok(growth.append_checkpoint(alloc, state)?);
    }
    let ended = growth.end_units(alloc, state)?;
    Ok(growth.append_checkpoint(alloc, &ended)?)
}

/// A checkpoint of the state behind the front of a log, behind ABORTs of the open units if these are
/// to end.
pub(crate) fn mark<R: Threads + Sync>(
    rt: &R,
    alloc: Global,
    log: &LentLog<'_>,
    plan: &Plan,
    ends_units: bool,
    drops: bool,
) -> Result<Marked, Refusal> {
    let (front, left_out) = redone_log(rt, alloc, log, plan, drops)?;
    let mut growth = Growth::behind_redone(alloc, &front)?;
    let offset = mark_behind(alloc, &mut growth, &front.state, ends_units)?;
    Ok(Marked {
        growth,
        offset,
        left_out,
    })
}

/// The carried file that goes on from the end of a log's front, with the front, and what is left out
/// behind it, if that is to be told.
pub(crate) fn carried_on<R: Threads + Sync>(
    rt: &R,
    alloc: Global,
    log: &LentLog<'_>,
    plan: &Plan,
    drops: bool,
) -> Result<(RedoneFront, Option<LeftOut>, Vec<u8>), Refusal> {
    let (front, left_out) = redone_log(rt, alloc, log, plan, drops)?;
    match carried(alloc, &front) {
        Ok(made) => Ok((front, left_out, made)),
        Err(Fault::TooLong) => Err(Refusal::Ended),
        Err(fault) => Err(Refusal::from(fault)),
    }
}

/// The closed file of a carried one that was read, and what is left out of it behind its front, if that
/// is to be told. Refuses to leave out what is not to be dropped.
pub(crate) fn closed_carried<R: Threads + Sync>(
    rt: &R,
    alloc: Global,
    read: ReadLog,
    plan: &Plan,
    drops: bool,
) -> Result<(Vec<u8>, Option<LeftOut>), Refusal> {
    let lent = LentLog {
        bytes: LogBytes::borrowed(&read.bytes),
        is_carried: true,
    };
    let (front, left_out) = redone_log(rt, alloc, &lent, plan, drops)?;
    let mut growth = Growth::behind_redone(alloc, &front)?;
    growth.end_units(alloc, &front.state)?;
    Ok((growth.closed_carried(read.bytes)?, left_out))
}
