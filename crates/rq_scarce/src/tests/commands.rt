//! The commands: a report, a log or an audit is whole, or nothing is written.

use super::{Call, is_right};
use rq_rows::{CHECKPOINT, answer, log_of};
use rq_tool::{Command, Fault, Open, Plan};
use std::mem;
use std::test::Fail;
use std::thread::Threads;

/// A command, and the bytes that it reads.
#[derive(Drop)]
pub struct Acting<'a> {
    command: Command<'a>,
    bytes: &'a [u8],
}

impl Acting<'_> {
    pub fn call<R: Threads + Sync + AllocGlobal>(
        &mut self,
        rt: &R,
        lent: &mut Vec<u8>,
    ) -> Result<(), Fault> {
        let room = mem::replace(lent, Vec::new(rt.alloc()));
        let (done, written) = answer(rt, &self.command, self.bytes, room, &Open);
        *lent = written;
        done
    }
}

// Whether the command writes this to the bytes, however little memory there is, or nothing.
fn acts<R: Threads + Sync + AllocGlobal>(
    rt: &R,
    command: Command<'_>,
    bytes: &[u8],
    want: &[u8],
) -> Result<bool, Fail> {
    is_right(rt, &mut Call::Act(Acting { command, bytes }), &[], want)
}

// An element of `jobs` goes to `dead` at its second abort; `ann` finds it there at its second look.
const ARRIVAL: &[u8] = b"define dead 0 -\ndefine jobs 2 0\nregister 0 ann\n\
    begin 1\nenqueue 1 1 5 - 0 61\ncommit 1\n\
    begin 2\ndequeue 2 1 - 0\nabort 2\n\
    begin 3\ndequeue 3 1 - 0\n\
    begin 4\ndequeue 4 0 ann 70\ncommit 4\nabort 3\n\
    begin 5\ndequeue 5 0 ann 71\ncommit 5\n";

const ARRIVAL_REPORT: &[u8] = b"front 18 records, 926 of 926 bytes, whole\n\
    units 3 committed, 2 aborted, 0 cut off\n\
    queue 0 dead limit 0 error -\n\
    r ann dequeue tag 71 element 4\n\
    queue 1 jobs limit 2 error 0\n";

// If no memory is left, the thread of a second worker is refused.
#[test]
fn a_restart_is_whole_or_refused(rt: HostRuntime) -> Result<(), Fail> {
    let log = log_of(&rt, ARRIVAL)?;
    for workers in [1, 2] {
        let plan = Plan::new(workers, 1).ok_or("plan")?;
        let restart = Command::Restart { log: "log", plan };
        assert!(rt;
            acts(&rt, restart, &log, ARRIVAL_REPORT)?,
            "{workers} workers"
        );
    }
    Ok(())
}

const CHECKPOINT_REPORT: &[u8] = b"front 10 records, 724 of 724 bytes, whole\n\
    units 2 committed, 0 aborted, 0 cut off\n\
    queue 0 jobs limit 0 error -\n\
    e 7 from 0 priority 8 attempts 0 62\n\
    r ann dequeue tag 10 element 3\n";

#[test]
fn a_restart_from_a_checkpoint_is_whole_or_refused(rt: HostRuntime) -> Result<(), Fail> {
    let log = log_of(&rt, CHECKPOINT)?;
    let restart = Command::RestartAt {
        log: "log",
        offset: 447,
        plan: Plan::new(1, 1).ok_or("plan")?,
    };
    assert!(rt; acts(&rt, restart, &log, CHECKPOINT_REPORT)?);
    Ok(())
}

#[test]
fn an_audit_is_whole_or_refused(rt: HostRuntime) -> Result<(), Fail> {
    let log = log_of(&rt, CHECKPOINT)?;
    let plan = Plan::new(1, 1).ok_or("plan")?;
    let audit = Command::Audit { log: "log", plan };
    assert!(rt; acts(&rt, audit, &log, b"checkpoint 447 true\n")?);
    Ok(())
}

// The script of `CHECKPOINT`, closed while its unit is open.
const CLOSED: &[u8] = b"define jobs 0 -\nregister 0 ann\n\
    begin 1\nenqueue 1 0 5 - 0 61\ncommit 1\n\
    begin 2\ndequeue 2 0 ann 10\nenqueue 2 0 8 - 0 62\ncheckpoint\nabort 2\n";

#[test]
fn a_close_is_whole_or_refused(rt: HostRuntime) -> Result<(), Fail> {
    let log = log_of(&rt, CHECKPOINT)?;
    let begins = log.get(..679).ok_or("beginning")?;
    let want = log_of(&rt, CLOSED)?;
    let close = Command::Close {
        log: "log",
        out: "out",
        plan: Plan::new(1, 1).ok_or("plan")?,
    };
    assert!(rt; acts(&rt, close, begins, &want)?);
    Ok(())
}

// The script of an arrival, and one with a checkpoint.
#[test]
fn a_log_is_made_or_refused(rt: HostRuntime) -> Result<(), Fail> {
    let make = Command::Make {
        script: "script",
        log: "log",
    };
    for (script, len) in [(ARRIVAL, 926), (CHECKPOINT, 724)] {
        let want = log_of(&rt, script)?;
        assert!(rt;
            want.len() == len && acts(&rt, make, script, &want)?,
            "{len} bytes"
        );
    }
    Ok(())
}
