//! A machine that goes along with a log, piece by piece.

use super::{RETURN_AND_ARRIVAL, machine_spelled};
use rq_record::{ElemId, KeptRecord, QueueNo, UnitNo, Version, kept_records};
use rq_restart::{Fault, Plan, front_state, go_on};
use rq_rows::{CHECKPOINT, ONE_ELEMENT, followed, log_in, log_of, records_of, spelled, told};
use rq_standing::Machine;
use std::alloc::Global;
use std::test::Fail;
use std::thread::Threads;

// Where pieces end: each record is one, some of several records, and all at once. No script has
// more than 20 lines.
const SINGLY: &[usize] = &[
    1, 2, 3, 4, 5, 6, 7, 8, 9, 10, 11, 12, 13, 14, 15, 16, 17, 18, 19, 20,
];

const IN_SOME: &[usize] = &[2, 7, 8, 8, 11, 20];

const AT_ONCE: &[usize] = &[20];

// The records of a log of a version, as a machine takes them.
fn records_in(alloc: Global, version: Version, log: &[u8]) -> Result<Vec<KeptRecord>, Fail> {
    let records = records_of(alloc, version, log)?;
    Ok(kept_records(alloc, &records)?)
}

// Whether the machine takes all records, in pieces that end at these places.
fn takes_all<R: Threads + Sync + AllocGlobal>(
    rt: &R,
    machine: &mut Machine,
    records: &[KeptRecord],
    ends: &[usize],
    plan: &Plan,
) -> bool {
    let mut start = 0;
    for end in ends {
        let end = (*end).min(records.len());
        let Some(piece) = records.get(start..end) else {
            return false;
        };
        if go_on(rt, rt.alloc(), Version::One, machine, piece, plan) != Ok(piece.len()) {
            return false;
        }
        start = end;
    }
    start == records.len()
}

// What the state after the log's front spells.
fn front_spelling<R: Threads + Sync + AllocGlobal>(
    rt: &R,
    log: &[u8],
    plan: &Plan,
) -> Result<Vec<u8>, Fault> {
    let state = front_state(rt, rt.alloc(), log, plan)?;
    spelled(rt.alloc(), &state)
}

// Whether the machine stands where the front of the log ends.
fn stands_behind<R: Threads + Sync + AllocGlobal>(
    rt: &R,
    machine: &Machine,
    log: &[u8],
    plan: &Plan,
) -> Result<bool, Fault> {
    Ok(machine_spelled(rt.alloc(), machine)? == front_spelling(rt, log, plan)?)
}

// Whether a machine that starts in this state takes all records in pieces, and stands where the front
// of the log ends then.
fn goes_along<R: Threads + Sync + AllocGlobal>(
    rt: &R,
    log: &[u8],
    start: &[u8],
    records: &[KeptRecord],
    ends: &[usize],
    plan: &Plan,
) -> Result<bool, Fault> {
    let mut machine = Machine::read(rt.alloc(), Version::One, start)?;
    let taken = takes_all(rt, &mut machine, records, ends, plan);
    Ok(taken && stands_behind(rt, &machine, log, plan)?)
}

// Whether a new machine does, whatever the pieces are.
fn goes_along_by_all<R: Threads + Sync + AllocGlobal>(rt: &R, script: &[u8]) -> Result<bool, Fail> {
    let log = log_of(rt, script)?;
    let records = records_in(rt.alloc(), Version::One, &log)?;
    for (ends, workers) in [(SINGLY, 1), (IN_SOME, 7), (AT_ONCE, 64)] {
        let plan = Plan::new(workers, 1).ok_or("plan")?;
        if !goes_along(rt, &log, &[0; 52], &records, ends, &plan)? {
            return Ok(false);
        }
    }
    Ok(true)
}

#[test]
fn a_machine_stands_where_the_front_of_the_log_ends(rt: HostRuntime) -> Result<(), Fail> {
    for script in [RETURN_AND_ARRIVAL, CHECKPOINT] {
        assert!(rt; goes_along_by_all(&rt, script)?, "{} bytes", script.len());
    }
    Ok(())
}

// Where the header and the frames of the log of `RETURN_AND_ARRIVAL` end.
const ENDS: [usize; 15] = [
    40, 87, 134, 178, 223, 283, 343, 388, 433, 491, 549, 594, 639, 700, 745,
];

// Whether a machine that starts behind this beginning of the log goes on to its end by these records.
fn goes_on_behind<R: Threads + Sync + AllocGlobal>(
    rt: &R,
    log: &[u8],
    begins: &[u8],
    rest: &[KeptRecord],
) -> Result<bool, Fail> {
    let plan = Plan::new(2, 1).ok_or("plan")?;
    let start = front_spelling(rt, begins, &plan)?;
    Ok(goes_along(rt, log, &start, rest, &[rest.len()], &plan)?)
}

#[test]
fn a_machine_goes_on_from_a_checkpoint(rt: HostRuntime) -> Result<(), Fail> {
    let log = log_of(&rt, RETURN_AND_ARRIVAL)?;
    let records = records_in(rt.alloc(), Version::One, &log)?;
    for (count, end) in ENDS.iter().enumerate() {
        let begins = log.get(..*end).ok_or("beginning")?;
        let rest = records.get(count..).ok_or("rest")?;
        assert!(rt; goes_on_behind(&rt, &log, begins, rest)?, "behind {count}");
    }
    Ok(())
}

// Adds the COMMIT of one unit, and the BEGIN of another one.
fn add_two(records: &mut Vec<KeptRecord>, ended: u64, begun: u64) -> Result<(), Fail> {
    records.push(KeptRecord::Commit {
        unit: UnitNo(ended),
    })?;
    records.push(KeptRecord::Begin {
        unit: UnitNo(begun),
    })?;
    Ok(())
}

// The record behind the first four is not lawful, and the last one is.
#[test]
fn a_machine_stops_before_an_unlawful_record(rt: HostRuntime) -> Result<(), Fail> {
    let log = log_of(&rt, ONE_ELEMENT)?;
    let mut records = records_in(rt.alloc(), Version::One, &log)?;
    add_two(&mut records, 1, 2)?;
    let last = records.get(5..).ok_or("last")?;
    assert!(rt; told(&rt, Version::One, &records, last)? == (4, 1, (5, 1, 1)));
    Ok(())
}

// Wherever the second piece begins, all records are done, and of a frame that is cut its bytes are counted.
#[test]
fn a_log_is_followed_in_two_pieces(rt: HostRuntime) -> Result<(), Fail> {
    let log = log_of(&rt, ONE_ELEMENT)?;
    for at in 0..=log.len() {
        let (first, second) = log.split_at(at);
        assert!(rt; followed(&rt, first, second)? == (4, log.len(), log.len()));
    }
    let (first, second) = log.split_at(log.len() - 1);
    let (records, used, total) = followed(&rt, first, &[])?;
    assert!(rt; (records, total, second.len()) == (3, first.len(), 1) && used < total);
    Ok(())
}

// There is a KILL in version 2, and none in version 1.
#[test]
fn a_machine_goes_by_the_rules_of_the_version(rt: HostRuntime) -> Result<(), Fail> {
    let kill = [KeptRecord::Kill {
        queue: QueueNo(0),
        element: ElemId(2),
    }];
    for (version, killed, numbers) in [(Version::One, 0, (4, 1, 0)), (Version::Two, 1, (5, 0, 0))] {
        let log = log_in(&rt, version, ONE_ELEMENT)?;
        let records = records_in(rt.alloc(), version, &log)?;
        assert!(rt; told(&rt, version, &records, &kill)? == (4, killed, numbers));
    }
    Ok(())
}

// The records of a log, and behind them units that begin and commit: 128 in all.
fn many_records<R: Threads + Sync + AllocGlobal>(rt: &R) -> Result<Vec<KeptRecord>, Fail> {
    let log = log_of(rt, RETURN_AND_ARRIVAL)?;
    let mut records = records_in(rt.alloc(), Version::One, &log)?;
    for unit in 4..=60 {
        records.push(KeptRecord::Begin { unit: UnitNo(unit) })?;
        records.push(KeptRecord::Commit { unit: UnitNo(unit) })?;
    }
    Ok(records)
}

// Small pieces, one that is large beside the state that it finds, and small ones again.
const BY_TURNS: &[usize] = &[3, 7, 14, 16, 120, 121, 123, 128];

// What the state of a new machine spells after it took the records in pieces, by a plan of this
// grain.
fn spelled_in_pieces<R: Threads + Sync + AllocGlobal>(
    rt: &R,
    records: &[KeptRecord],
    ends: &[usize],
    grain: u32,
) -> Result<Vec<u8>, Fail> {
    let plan = Plan::new(3, grain).ok_or("plan")?;
    let mut machine = Machine::empty(rt.alloc());
    if !takes_all(rt, &mut machine, records, ends, &plan) {
        return Err("it takes fewer".into());
    }
    Ok(machine_spelled(rt.alloc(), &machine)?)
}

// Whether a new machine takes 128 of the records, and its state spells this then.
fn goes_on<R: Threads + Sync + AllocGlobal>(
    rt: &R,
    records: &[KeptRecord],
    workers: u32,
    grain: u32,
    want: &[u8],
) -> Result<bool, Fail> {
    let plan = Plan::new(workers, grain).ok_or("plan")?;
    let mut machine = Machine::empty(rt.alloc());
    let count = go_on(rt, rt.alloc(), Version::One, &mut machine, records, &plan)?;
    Ok(count == 128 && machine_spelled(rt.alloc(), &machine)?.as_slice() == want)
}

// On the workers, one record after the other, and by turns. A grain of 200 is more than all records;
// by a grain of 1 they are many beside the state. Behind them are two more, the first of which is
// not lawful.
#[test]
fn large_and_small_pieces_come_to_one_state(rt: HostRuntime) -> Result<(), Fail> {
    let mut records = many_records(&rt)?;
    let told = spelled_in_pieces(&rt, &records, &[128], 1)?;
    assert!(rt; told == spelled_in_pieces(&rt, &records, &[128], 200)?);
    assert!(rt; told == spelled_in_pieces(&rt, &records, BY_TURNS, 1)?);
    assert!(rt; goes_on(&rt, &records, 3, 1, &told)?);
    assert!(rt; goes_on(&rt, &records, 3, 200, &told)?);
    add_two(&mut records, 1, 61)?;
    assert!(rt; goes_on(&rt, &records, 2, 1, &told)?, "as far as is lawful");
    assert!(rt;
        goes_on(&rt, &records, 2, 200, &told)?,
        "as far as is lawful"
    );
    Ok(())
}
