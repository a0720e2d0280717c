//! What is written behind the front of a log: records, a checkpoint, and a log that goes on from it.

use crate::logs::{ONE_ELEMENT, log_of};
use rq_journal::{Growth, NotTaken, Rule, carried, is_carried, read_as_log};
use rq_record::{LogBytes, QueueNo, Record, UnitNo, Version};
use rq_restart::{
    Fault, Open, Plan, RedoneFront, Restarted, audit, restart, restart_at, restart_carried,
};
use std::alloc::Global;
use std::test::Fail;
use std::thread::Threads;

// Unit 2 takes the element of `ONE_ELEMENT` and commits.
const TAKING: [Record; 3] = [
    Record::Begin { unit: UnitNo(2) },
    Record::Dequeue {
        unit: UnitNo(2),
        queue: QueueNo(0),
        by: None,
    },
    Record::Commit { unit: UnitNo(2) },
];

// Whether the records are taken one by one.
fn takes_each(alloc: Global, growth: &mut Growth, records: &[Record]) -> bool {
    for next in records {
        if growth.append(alloc, next).is_err() {
            return false;
        }
    }
    true
}

/// Whether the records of a second unit, which takes the element of `ONE_ELEMENT` and commits, are taken
/// one by one, as records 4 to 6, with these frames, and a second commit is not.
pub fn takes(alloc: Global, mut growth: Growth, frames: &[u8]) -> bool {
    let is_fourth = growth.next() == 4;
    let is_taken = takes_each(alloc, &mut growth, &TAKING);
    let again = growth.append(alloc, &TAKING[2]);
    let rule = Rule::NotOpen(UnitNo(2));
    is_fourth
        && is_taken
        && growth.next() == 7
        && growth.version() == Version::One
        && again == Err(NotTaken::Unlawful(rule))
        && growth.frames() == frames
}

// Whether a restart found five records.
fn has_five(restarted: Result<Restarted, Fault>) -> bool {
    match restarted {
        Ok(it) => it.records() == 5,
        Err(_) => false,
    }
}

// Whether a restart finds no log.
fn is_no_log(restarted: Result<Restarted, Fault>) -> bool {
    match restarted {
        Ok(_) => false,
        Err(fault) => fault == Fault::NotALog,
    }
}

// Whether the log has a true checkpoint there and no other one, and a restart from it finds what one
// from the beginning finds.
fn goes_on_from<R: Threads + Sync + AllocGlobal>(rt: &R, log: &[u8], at: u64, plan: &Plan) -> bool {
    let Ok(found) = audit(rt, rt.alloc(), log, plan) else {
        return false;
    };
    found.as_slice() == [(at, true)].as_slice()
        && has_five(restart(rt, rt.alloc(), log, plan, &Open))
        && has_five(restart_at(rt, rt.alloc(), log, at, plan, &Open))
}

// Whether a growth stands behind the checkpoint of a carried file, and closes it by nothing.
fn is_closed_so<R: Threads + Sync + AllocGlobal>(
    rt: &R,
    read: Vec<u8>,
    file: &[u8],
    plan: &Plan,
) -> Result<bool, Fail> {
    let growth = Growth::behind_carried(rt, rt.alloc(), &read, plan)?;
    let is_fifth = growth.next() == 5;
    let closed = growth.closed_carried(read)?;
    Ok(is_fifth && closed.as_slice() == file)
}

// Whether a log is carried on by a file that is none, and is read as one that is restarted from its
// checkpoint, and closed as it is.
fn is_carried_on<R: Threads + Sync + AllocGlobal>(
    rt: &R,
    log: &[u8],
    plan: &Plan,
) -> Result<bool, Fail> {
    let front = RedoneFront::of(rt, rt.alloc(), &LogBytes::borrowed(log), plan)?;
    let mut new = carried(rt.alloc(), &front)?;
    let file = Vec::from_slice(rt.alloc(), &new)?;
    let is_other = is_carried(&new) && !is_carried(log);
    let is_none = is_no_log(restart(rt, rt.alloc(), &new, plan, &Open));
    let is_read = read_as_log(&mut new).is_some();
    let has_all = has_five(restart_carried(rt, rt.alloc(), &new, 72, plan, &Open));
    let is_closed = is_closed_so(rt, new, &file, plan)?;
    Ok(is_other && is_none && is_read && has_all && is_closed)
}

// The log up to the end of its front, and behind that a checkpoint, behind ABORTs of the open units.
fn marked<R: Threads + Sync + AllocGlobal>(
    rt: &R,
    log: Vec<u8>,
    plan: &Plan,
) -> Result<Vec<u8>, Fail> {
    let front = RedoneFront::of(rt, rt.alloc(), &LogBytes::borrowed(&log), plan)?;
    let mut growth = Growth::behind_redone(rt.alloc(), &front)?;
    let state = growth.end_units(rt.alloc(), &front.state)?;
    growth.append_checkpoint(rt.alloc(), &state)?;
    let mut log = log;
    log.truncate(front.end.used);
    log.extend_from_slice(growth.frames())?;
    Ok(log)
}

/// Whether a log of four records is carried on so, and marked where its front ends.
pub fn is_marked_and_carried_on<R: Threads + Sync + AllocGlobal>(rt: &R) -> Result<bool, Fail> {
    let plan = Plan::new(1, 1).ok_or("plan")?;
    let log = log_of(rt, ONE_ELEMENT)?;
    let is_carried_on = is_carried_on(rt, &log, &plan)?;
    let at = log.len() as u64;
    let marked = marked(rt, log, &plan)?;
    Ok(is_carried_on && goes_on_from(rt, &marked, at, &plan))
}
