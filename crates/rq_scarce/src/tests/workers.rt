//! What workers do if one of them is refused memory.

use super::host::{room, take_all};
use rq_rows::{answer, log_of};
use rq_tool::{Command, Fault, Gate, Plan};
use std::alloc::Global;
use std::sync::atomic::{AtomicU32, Ordering};
use std::sync::{Mutex, Wait};
use std::test::Fail;
use std::thread::Threads;

// Six queues, with an element in each.
const SIX: &[u8] = b"define a 0 -\n\
    define b 0 -\n\
    define c 0 -\n\
    define d 0 -\n\
    define e 0 -\n\
    define f 0 -\n\
    begin 1\n\
    enqueue 1 0 0 - 0 61\n\
    enqueue 1 1 0 - 0 62\n\
    enqueue 1 2 0 - 0 63\n\
    enqueue 1 3 0 - 0 64\n\
    enqueue 1 4 0 - 0 65\n\
    enqueue 1 5 0 - 0 66\n\
    commit 1\n";

const SIX_REPORT: &[u8] = b"front 14 records, 754 of 754 bytes, whole\n\
    units 1 committed, 0 aborted, 0 cut off\n\
    queue 0 a limit 0 error -\n\
    e 7 from 0 priority 0 attempts 0 61\n\
    queue 1 b limit 0 error -\n\
    e 8 from 1 priority 0 attempts 0 62\n\
    queue 2 c limit 0 error -\n\
    e 9 from 2 priority 0 attempts 0 63\n\
    queue 3 d limit 0 error -\n\
    e 10 from 3 priority 0 attempts 0 64\n\
    queue 4 e limit 0 error -\n\
    e 11 from 4 priority 0 attempts 0 65\n\
    queue 5 f limit 0 error -\n\
    e 12 from 5 priority 0 attempts 0 66\n";

const QUEUES: u32 = 6;

// Looks up to 100,000,000 times whether this many were counted.
fn look(counted: &AtomicU32, least: u32) -> bool {
    for _ in 0..100_000_000 {
        if counted.load(Ordering::SeqCst) >= least {
            return true;
        }
    }
    false
}

// Counts one more, and tells how many there are then.
fn count(counted: &AtomicU32) -> u32 {
    counted.fetch_add(1, Ordering::SeqCst).wrapping_add(1)
}

// What the restart of six queues writes at a gate, and how it ends.
fn restarted<R, G>(
    rt: &R,
    log: &[u8],
    workers: u32,
    gate: &G,
) -> Result<(Result<(), Fault>, Vec<u8>), Fail>
where
    R: Threads + Sync + AllocGlobal,
    G: Gate + Sync,
{
    let plan = Plan::new(workers, 1).ok_or("plan")?;
    let restart = Command::Restart { log: "log", plan };
    let room = Vec::with_capacity(rt.alloc(), 1000)?;
    Ok(answer(rt, &restart, log, room, gate))
}

// A gate that takes all memory at the entry of a number, counted from 1.
#[derive(Drop)]
struct Famine<'a, R: Wait> {
    rt: &'a R,
    alloc: Global,
    at: u32,
    entries: AtomicU32,
    held: Mutex<Vec<Vec<u8>>>,
}

impl<R: Wait> Gate for Famine<'_, R> {
    fn enter(&self, _task: u32) {
        if count(&self.entries) == self.at {
            take_all(self.alloc, &mut self.held.lock(self.rt));
        }
    }
}

// Whether one worker that is refused memory at this entry enters no more, and its run writes
// nothing and says so.
fn stops_at<R: Threads + Wait + Sync + AllocGlobal>(
    rt: &R,
    log: &[u8],
    at: u32,
) -> Result<bool, Fail> {
    let gate = Famine {
        rt,
        alloc: rt.alloc(),
        at,
        entries: AtomicU32::new(0),
        held: Mutex::new(room(rt.alloc())?),
    };
    let (done, written) = restarted(rt, log, 1, &gate)?;
    let refused = done.err() == Some(Fault::Resources) && written.is_empty();
    Ok(refused && gate.entries.load(Ordering::SeqCst) == at)
}

#[test]
fn who_is_refused_draws_no_more(rt: HostRuntime) -> Result<(), Fail> {
    let log = log_of(&rt, SIX)?;
    for at in 1..=QUEUES {
        assert!(rt; stops_at(&rt, &log, at)?, "at entry {at}");
    }
    Ok(())
}

// A gate at which the first that enters takes all memory once another is there, and that other one
// gives it back a while later.
#[derive(Drop)]
struct Relief<'a, R: Wait> {
    rt: &'a R,
    alloc: Global,
    entries: AtomicU32,
    famines: AtomicU32,
    entries_in_famine: AtomicU32,
    held: Mutex<Vec<Vec<u8>>>,
}

impl<R: Wait> Relief<'_, R> {
    fn starve(&self) {
        look(&self.entries, 2);
        take_all(self.alloc, &mut self.held.lock(self.rt));
        count(&self.famines);
    }

    fn relieve(&self) {
        look(&self.famines, 1);
        look(&self.famines, 2);
        let entries = self.entries.load(Ordering::SeqCst);
        self.entries_in_famine.store(entries, Ordering::SeqCst);
        self.held.lock(self.rt).clear();
    }
}

impl<R: Wait> Gate for Relief<'_, R> {
    fn enter(&self, _task: u32) {
        match count(&self.entries) {
            1 => self.starve(),
            2 => self.relieve(),
            _ => {}
        }
    }
}

// Whether a restart on two workers was refused memory that was there again a while later, and wrote
// nothing, or wrote the report. All queues entered, and two of them in the famine of one that was
// refused.
fn is_refused<R: Threads + Wait + Sync + AllocGlobal>(rt: &R, log: &[u8]) -> Result<bool, Fail> {
    let gate = Relief {
        rt,
        alloc: rt.alloc(),
        entries: AtomicU32::new(0),
        famines: AtomicU32::new(0),
        entries_in_famine: AtomicU32::new(0),
        held: Mutex::new(room(rt.alloc())?),
    };
    let (done, written) = restarted(rt, log, 2, &gate)?;
    let all = gate.entries.load(Ordering::SeqCst) == QUEUES;
    let two = gate.entries_in_famine.load(Ordering::SeqCst) == 2;
    let whole = done.is_ok() && written.as_slice() == SIX_REPORT;
    let refused = done.err() == Some(Fault::Resources) && written.is_empty();
    if all && (whole || (refused && two)) {
        Ok(refused)
    } else {
        Err("neither refused nor whole".into())
    }
}

// Some of twenty restarts are refused, and each is refused or whole.
#[test]
fn the_others_go_on_to_their_none(rt: HostRuntime) -> Result<(), Fail> {
    let log = log_of(&rt, SIX)?;
    let mut refused = 0u32;
    for _ in 0..20 {
        if is_refused(&rt, &log)? {
            refused = refused.wrapping_add(1);
        }
    }
    assert!(rt; refused > 0);
    Ok(())
}
