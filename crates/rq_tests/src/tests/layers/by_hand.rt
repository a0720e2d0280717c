//! Records, elements and moves as a caller writes them, using only their types, and the calls that
//! take them.

use super::analysis::analysis_of;
use super::courses::state_after;
use super::plain::{NO_QUEUE, Plain, record_of, records_of};
use Plain::{
    Abort, Begin, Checkpoint, Commit, Define, Dequeue, Deregister, Enqueue, Kill, Register,
};
use rq_catalog::Outcome;
use rq_plan::Plan;
use rq_record::{ElemId, Fault, Record, UnitNo, Version, decode, decode_in, encode};
use rq_rows::{is_killed, is_spelled};
use rq_state::{Mark, OpKind, State};
use std::alloc::Global;
use std::test::Fail;

// A record of each kind, in the order of their numbers.
const KINDS: [Plain; 10] = [
    Define(0, NO_QUEUE, "jobs"),
    Register(0, "ann"),
    Deregister(0, "ann"),
    Begin(1),
    ENQUEUE,
    Dequeue(1, 0, None),
    Commit(1),
    Abort(1),
    Checkpoint,
    Kill(0, 3),
];

const ENQUEUE: Plain = Enqueue(1, 0, Some(("ann", 70)));

fn body(alloc: Global, record: &Record) -> Result<Vec<u8>, Fault> {
    let mut bytes = Vec::new(alloc);
    encode(record, &mut bytes)?;
    Ok(bytes)
}

// Whether a record of this kind is spelled, read and spelled again.
fn comes_back(alloc: Global, kind: u8, plain: &Plain) -> Result<bool, Fail> {
    let first = body(alloc, &record_of(alloc, plain)?)?;
    let again = body(alloc, &decode_in(alloc, Version::Two, &first)?)?;
    Ok(first.first() == Some(&kind) && again == first)
}

#[test]
fn a_record_of_each_kind_comes_back(rt: HostRuntime) -> Result<(), Fail> {
    let mut kind = 0u8;
    for plain in &KINDS {
        kind = kind.wrapping_add(1);
        assert!(rt; comes_back(rt.alloc(), kind, plain)?, "kind {kind}");
    }
    Ok(())
}

// Whether the record is the ENQUEUE above.
fn is_enqueue(record: &Record) -> bool {
    match record {
        Record::Enqueue {
            unit,
            queue,
            priority,
            by: Some(by),
            payload,
        } => {
            let by_ann = by.name.bytes() == b"ann".as_slice() && by.tag == 70;
            by_ann && (unit.0, queue.0, *priority, payload.bytes().len()) == (1, 0, 5, 41)
        }
        _ => false,
    }
}

// Whether that is what its body spells.
fn is_taken_apart(alloc: Global) -> Result<bool, Fail> {
    let bytes = body(alloc, &record_of(alloc, &ENQUEUE)?)?;
    Ok(is_enqueue(&decode(alloc, &bytes)?))
}

// A queue, a registrant, and an element that it enqueued.
const RECORDS: &[Plain] = &[
    Define(0, NO_QUEUE, "jobs"),
    Register(0, "ann"),
    Begin(1),
    ENQUEUE,
    Commit(1),
];

// Whether the state has one element, that of the ENQUEUE above, and one registrant, whose last
// operation was that.
fn has_both(state: &State) -> bool {
    if state.element_count() != 1 || state.registrant_count() != 1 {
        return false;
    }
    let (e, registrant) = (state.element(0), state.registrant(0));
    let element = e.id == ElemId(3) && e.mark == Mark::Free && e.payload.bytes().len() == 41;
    let last = match &registrant.last {
        Some(last) => last.kind == OpKind::Enqueue && last.tag == 70 && last.place == 3,
        None => false,
    };
    let kept = state.kept_registrant(0).name().bytes() == registrant.name.bytes();
    element && last && kept && registrant.name.bytes() == b"ann".as_slice()
}

#[test]
fn records_are_analysed_and_replayed(rt: HostRuntime) -> Result<(), Fail> {
    let analysis = analysis_of(rt.alloc(), RECORDS)?;
    assert!(rt; analysis.lawful() == 5);
    assert!(rt; analysis.outcome(UnitNo(1)) == Some(Outcome::Committed(4)));
    let plan = Plan::new(2, 1).ok_or("plan")?;
    let state = state_after(&rt, records_of(rt.alloc(), RECORDS)?, &plan)?;
    assert!(rt; has_both(&state));
    Ok(())
}

#[test]
fn what_is_made_by_hand_is_right(rt: HostRuntime) -> Result<(), Fail> {
    assert!(rt; is_taken_apart(rt.alloc())?, "a record is taken apart");
    assert!(rt; is_killed(rt.alloc())?, "a part is redone");
    assert!(rt; is_spelled(rt.alloc())?, "a state is built and spelled");
    Ok(())
}
