//! What is made of the front of a log: its state, its tail, and the log in version 2.

use super::PLANS;
use rq_record::Version;
use rq_restart::{front_state, tail, upgrade};
use rq_rows::{CHECKPOINT, ONE_ELEMENT, log_in, log_of, spelled};
use rq_state::{State, spelled_len};
use rq_tool::{Fault, Plan};
use std::alloc::Global;
use std::test::Fail;
use std::thread::Threads;

// What is made of a log.
#[derive(Clone, Copy)]
enum Made {
    // The spelling of its state, which has so many queues, open units, registrants, elements and
    // notes.
    Spelling([usize; 5]),
    // Its tail.
    Tail,
    // The log in version 2.
    Upgraded,
}

// The spelling of a state that has so many members; nothing if it has others.
fn spelling(alloc: Global, state: &State, counts: [usize; 5]) -> Option<Vec<u8>> {
    let members = [
        state.definition_count(),
        state.unit_count(),
        state.registrant_count(),
        state.element_count(),
        state.note_count(),
    ];
    let spelled = spelled(alloc, state).ok()?;
    if members == counts && spelled_len(state) == spelled.len() as u128 {
        Some(spelled)
    } else {
        None
    }
}

// What a plan makes of the log; nothing if it is refused.
fn made_by<R: Threads + Sync + AllocGlobal>(
    rt: &R,
    log: &[u8],
    made: Made,
    plan: &Plan,
) -> Option<Vec<u8>> {
    match made {
        Made::Spelling(counts) => {
            let state = front_state(rt, rt.alloc(), log, plan).ok()?;
            spelling(rt.alloc(), &state, counts)
        }
        Made::Tail => tail(rt, rt.alloc(), log, plan).ok(),
        Made::Upgraded => upgrade(rt, rt.alloc(), log, plan).ok(),
    }
}

// Whether this is made of the log, whatever the plan is.
fn makes<R: Threads + Sync + AllocGlobal>(rt: &R, log: &[u8], made: Made, want: &[u8]) -> bool {
    for (workers, grain) in PLANS {
        let Some(plan) = Plan::new(workers, grain) else {
            return false;
        };
        let Some(got) = made_by(rt, log, made, &plan) else {
            return false;
        };
        if got.as_slice() != want {
            return false;
        }
    }
    true
}

// Unit 2 is open after the first eight records: it holds element 3, has put in element 7 and has a
// note of ann. The checkpoint after them has the bytes that this state spells.
const INSIDE_A_UNIT: &[u8] = b"define jobs 0 -\nregister 0 ann\n\
    begin 1\nenqueue 1 0 5 - 0 61\ncommit 1\n\
    begin 2\ndequeue 2 0 ann 10\nenqueue 2 0 8 - 0 62\n\
    checkpoint-hex \
    0000000000000008000000000000000200000000000000010000000000000000000000010000ffff\
    ffff046a6f6273000000010000000000000002000000010000000003616e6e000000000200000000\
    00000003000000000000000005000000000000000002000000000000000200016100000000000000\
    07000000000000000008000000000000000001000000000000000200016200000001000000000000\
    000600000000000000020000000003616e6e02000000000000000a0000000000000003\n";

// Two units are open after the first eight records. The last two are the tail that aborts them.
const TWO_OPEN: &[u8] = b"define jobs 0 -\n\
    begin 1\nenqueue 1 0 5 - 0 61\ncommit 1\n\
    begin 2\ndequeue 2 0 - 0\n\
    begin 3\ndequeue 3 0 - 0\nabort 2\nabort 3\n";

// The log of a script, of which only the first bytes are looked at, and what is made of these:
// other bytes of the same log.
#[derive(Drop)]
struct Case {
    script: &'static [u8],
    len: usize,
    looked_at: usize,
    made: Made,
    want: (usize, usize),
}

const CASES: [Case; 5] = [
    Case {
        script: INSIDE_A_UNIT,
        len: 679,
        looked_at: 447,
        made: Made::Spelling([1, 1, 1, 2, 1]),
        want: (452, 647),
    },
    Case {
        script: TWO_OPEN,
        len: 533,
        looked_at: 443,
        made: Made::Tail,
        want: (443, 533),
    },
    // No unit is open.
    Case {
        script: CHECKPOINT,
        len: 724,
        looked_at: 724,
        made: Made::Tail,
        want: (724, 724),
    },
    Case {
        script: ONE_ELEMENT,
        len: 237,
        looked_at: 237,
        made: Made::Tail,
        want: (237, 237),
    },
    Case {
        script: b"",
        len: 40,
        looked_at: 40,
        made: Made::Tail,
        want: (40, 40),
    },
];

// Whether it is made of them.
fn is_made<R: Threads + Sync + AllocGlobal>(rt: &R, case: &Case) -> Result<bool, Fail> {
    let log = log_of(rt, case.script)?;
    match (log.get(..case.looked_at), log.get(case.want.0..case.want.1)) {
        (Some(begins), Some(want)) => {
            Ok(log.len() == case.len && makes(rt, begins, case.made, want))
        }
        _ => Ok(false),
    }
}

#[test]
fn a_front_has_its_state_and_its_tail(rt: HostRuntime) -> Result<(), Fail> {
    for case in &CASES {
        assert!(rt; is_made(&rt, case)?, "of {} bytes", case.len);
    }
    Ok(())
}

// A header alone spells the empty state, and a part of it is no log.
#[test]
fn a_front_of_nothing_has_the_empty_state(rt: HostRuntime) -> Result<(), Fail> {
    let log = log_of(&rt, &[])?;
    assert!(rt; makes(&rt, &log, Made::Spelling([0; 5]), &[0; 52]));
    let plan = Plan::new(2, 1).ok_or("plan")?;
    let part = log.get(..39).unwrap_or(&[]);
    let state = front_state(&rt, rt.alloc(), part, &plan);
    assert!(rt; state.err() == Some(Fault::NotALog));
    Ok(())
}

#[test]
fn a_damaged_log_is_upgraded_to_its_front(rt: HostRuntime) -> Result<(), Fail> {
    let mut log = log_of(&rt, ONE_ELEMENT)?;
    if let Some(payload) = log.get_mut(159) {
        *payload = 0x62;
    }
    let want = log_in(&rt, Version::Two, b"define jobs 0 -\nbegin 1\n")?;
    assert!(rt; want.len() == 132 && makes(&rt, &log, Made::Upgraded, &want));
    Ok(())
}
