//! How a replay goes, and a restart: each queue is redone by one thread, and an error queue by the one
//! whose arrival was the last.

use super::plain::{NO_QUEUE, Plain, records_of};
use Plain::{Abort, Begin, Commit, Define, Dequeue, Enqueue};
use rq_plan::{Gate, Open, Plan};
use rq_record::{Fault, Record, Version};
use rq_restart::restart;
use rq_rows::{Lawful, course_of, lawful_of, log_in, replayed, traced};
use rq_state::State;
use std::sync::atomic::{AtomicU32, Ordering};
use std::test::Fail;
use std::thread::Threads;

const QUEUES: usize = 5;

// Two queues with one error queue, one whose error queue is the first of the two, and one with
// none. What leaves the last of the chain by an abort goes on to its end by two more.
const CHAINED: &[Plain] = &[
    Define(0, NO_QUEUE, "dead"),
    Define(1, 0, "first"),
    Define(1, 0, "second"),
    Define(1, 1, "chained"),
    Define(0, NO_QUEUE, "alone"),
    Begin(1),
    Enqueue(1, 3, None),
    Commit(1),
    Begin(2),
    Dequeue(2, 3, None),
    Abort(2),
    Begin(3),
    Dequeue(3, 1, None),
    Abort(3),
];

// The script of the same records.
const CHAINED_SCRIPT: &[u8] = b"define dead 0 -\n\
    define first 1 0\n\
    define second 1 0\n\
    define chained 1 1\n\
    define alone 0 -\n\
    begin 1\n\
    enqueue 1 3 5 - 0 61\n\
    commit 1\n\
    begin 2\n\
    dequeue 2 3 - 0\n\
    abort 2\n\
    begin 3\n\
    dequeue 3 1 - 0\n\
    abort 3\n";

/// The state after the records, as far as they are lawful.
pub(super) fn state_after<R: Threads + Sync + AllocGlobal>(
    rt: &R,
    records: Vec<Record>,
    plan: &Plan,
) -> Result<State, Fault> {
    let lawful = lawful_of(rt.alloc(), records)?;
    replayed(rt, &lawful, plan)
}

// The position at which each queue entered, counted from 1.
#[derive(Drop)]
struct Entries {
    count: AtomicU32,
    places: [AtomicU32; QUEUES],
}

impl Entries {
    fn none() -> Entries {
        Entries {
            count: AtomicU32::new(0),
            places: [
                AtomicU32::new(0),
                AtomicU32::new(0),
                AtomicU32::new(0),
                AtomicU32::new(0),
                AtomicU32::new(0),
            ],
        }
    }

    // Whether all entered, each once, and an error queue after the queues that lead to it.
    fn are_in_order(&self) -> bool {
        let [dead, first, second, chained, alone] = &self.places;
        let [dead, first, second] = [of(dead), of(first), of(second)];
        let [chained, alone] = [of(chained), of(alone)];
        let in_order = chained < first && first < dead && second < dead;
        in_order && 0 < chained && 0 < second && 0 < alone && of(&self.count) == 5
    }
}

fn of(count: &AtomicU32) -> u32 {
    count.load(Ordering::SeqCst)
}

impl Gate for Entries {
    fn enter(&self, task: u32) {
        let before = self.count.fetch_add(1, Ordering::SeqCst);
        if let Some(place) = self.places.get(task as usize) {
            place.fetch_add(before.wrapping_add(1), Ordering::SeqCst);
        }
    }
}

// Whether these are the error queues, and the element has come to the end of its chain.
fn is_after(state: &State) -> bool {
    let mut same = state.definition_count() == QUEUES && state.element_count() == 1;
    let errors = [u32::MAX, 0, 0, 1, u32::MAX];
    for place in 0..state.definition_count() {
        same = same && errors.get(place) == Some(&state.definition(place).error.0);
    }
    for place in 0..state.element_count() {
        same = same && state.element(place).home.0 == 0;
    }
    same
}

// Whether a replay by the plan goes so.
fn goes_right<R: Threads + Sync + AllocGlobal>(
    rt: &R,
    lawful: &Lawful,
    plan: &Plan,
) -> Result<bool, Fault> {
    let gate = Entries::none();
    let (state, course) = traced(rt, lawful, plan, &gate)?;
    drop(course);
    Ok(is_after(&state) && gate.are_in_order())
}

// Whether each of 50 replays of them by this many workers does.
fn all_go_right<R: Threads + Sync + AllocGlobal>(
    rt: &R,
    lawful: &Lawful,
    workers: u32,
) -> Result<bool, Fail> {
    let plan = Plan::new(workers, 1).ok_or("plan")?;
    for _ in 0..50 {
        if !goes_right(rt, lawful, &plan)? {
            return Ok(false);
        }
    }
    Ok(true)
}

#[test]
fn the_last_arrival_begins_an_error_queue(rt: HostRuntime) -> Result<(), Fail> {
    let lawful = lawful_of(rt.alloc(), records_of(rt.alloc(), CHAINED)?)?;
    assert!(rt; lawful.records.len() == 14);
    for workers in [1, 2, 4] {
        assert!(rt; all_go_right(&rt, &lawful, workers)?, "{workers} workers");
    }
    Ok(())
}

#[test]
fn a_restart_keeps_its_course(rt: HostRuntime) -> Result<(), Fail> {
    let log = log_in(&rt, Version::Two, CHAINED_SCRIPT)?;
    for workers in [1, 2, 4] {
        let plan = Plan::new(workers, 1).ok_or("plan")?;
        let restarted = restart(&rt, rt.alloc(), &log, &plan, &Open)?;
        let _ = course_of(&restarted);
        assert!(rt; is_after(restarted.state()), "{workers} workers");
    }
    Ok(())
}
