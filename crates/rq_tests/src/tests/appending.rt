//! What is written behind the front of a log: records, a checkpoint, and a log that goes on from it.

use rq_journal::Growth;
use rq_judged::JudgedFront;
use rq_restart::{Plan, Why};
use rq_rows::{is_marked_and_carried_on, log_of, takes};
use std::test::Fail;
use std::thread::Threads;

// `ONE_ELEMENT`, whose log has 237 bytes, and the lines of what `takes` appends.
const TAKEN: &[u8] = b"define jobs 0 -\n\
    begin 1\nenqueue 1 0 5 - 0 61\ncommit 1\n\
    begin 2\ndequeue 2 0 - 0\ncommit 2\n";

// Whether the log is opened at its end, and takes the records.
fn is_opened<R: Threads + Sync + AllocGlobal>(
    rt: &R,
    log: &[u8],
    plan: &Plan,
    frames: &[u8],
) -> bool {
    match JudgedFront::of(rt, rt.alloc(), log, plan) {
        Ok(front) => {
            let growth = Growth::behind_judged(rt.alloc(), front);
            let end = growth.end();
            end.used == log.len()
                && end.records == 4
                && end.why == Why::Whole
                && takes(rt.alloc(), growth, frames)
        }
        Err(_) => false,
    }
}

#[test]
fn records_are_appended_behind_a_front(rt: HostRuntime) -> Result<(), Fail> {
    let plan = Plan::new(2, 1).ok_or("plan")?;
    let whole = log_of(&rt, TAKEN)?;
    let log = whole.get(..237).unwrap_or(&[]);
    let frames = whole.get(237..).unwrap_or(&[]);
    assert!(rt; is_opened(&rt, log, &plan, frames));
    Ok(())
}

// The log is carried on by a file that is none, and is read as one that is restarted from its
// checkpoint, and closed as it is; and it is marked where its front ends.
#[test]
fn a_log_is_marked_and_carried_on(rt: HostRuntime) -> Result<(), Fail> {
    assert!(rt; is_marked_and_carried_on(&rt)?);
    Ok(())
}
