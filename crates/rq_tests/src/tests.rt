//! What the tests share: plans, a script, and what a restart writes.

mod appending;
mod fronts;
mod gates;
mod layers;
mod live;
mod log_files;
mod program;
mod serving;
mod standby;
mod streams;
mod surface;

use rq_record::Fault;
use rq_rows::answer;
use rq_standing::Machine;
use rq_tool::{Command, Gate, Plan};
use std::alloc::Global;
use std::thread::Threads;

// The plans that an answer must not depend on.
const PLANS: [(u32, u32); 8] = [
    (1, 1),
    (1, 1000),
    (2, 1),
    (2, 1000),
    (7, 1),
    (7, 1000),
    (64, 1),
    (64, 1000),
];

// A script that several tests share.
const RETURN_AND_ARRIVAL: &[u8] = b"define dead 0 -\n\
    define jobs 1 0\n\
    register 0 ann\n\
    begin 1\n\
    enqueue 1 0 3 - 0 61\n\
    enqueue 1 1 7 - 0 62\n\
    commit 1\n\
    begin 2\n\
    dequeue 2 0 - 0\n\
    dequeue 2 1 - 0\n\
    abort 2\n\
    begin 3\n\
    dequeue 3 0 ann 9\n\
    commit 3\n";

// What a machine spells that has taken no more records than a log can have.
fn machine_spelled(alloc: Global, machine: &Machine) -> Result<Vec<u8>, Fault> {
    if machine.next() > 4_294_967_295 {
        return Err(Fault::TooLong);
    }
    machine.spell(alloc)
}

// Whether a restart by this many workers, at this gate, writes this report of the log.
fn reports<R, G>(rt: &R, log: &[u8], workers: u32, gate: &G, report: &[u8]) -> bool
where
    R: Threads + Sync + AllocGlobal,
    G: Gate + Sync,
{
    let Some(plan) = Plan::new(workers, 1) else {
        return false;
    };
    let restart = Command::Restart { log: "log", plan };
    let (done, written) = answer(rt, &restart, log, Vec::new(rt.alloc()), gate);
    done.is_ok() && written.as_slice() == report
}
