//! What the end of a unit makes of the elements that it put in or took, told before it is done; and
//! what is free behind it.

use super::plain::{NO_QUEUE, Plain, record_of};
use Fate::{Back, Freed, Gone, Moved, Undone};
use Plain::{Abort, Begin, Commit, Define, Dequeue, Enqueue, Kill};
use rq_queue::Fate;
use rq_record::{ElemId, KeptRecord, QueueNo, Version};
use rq_standing::{Machine, Taken};
use std::alloc::Global;
use std::test::Fail;

// An element by its id, and what becomes of it.
type Told = (u64, Fate);

// A record, and what it makes of the elements of the unit that it ends.
type Case = (Plain, &'static [Told]);

const DEAD: QueueNo = QueueNo(0);

const JOBS: QueueNo = QueueNo(1);

const MAIL: QueueNo = QueueNo(2);

// A queue whose elements are tried twice, then go to an error queue, and one without a limit. The
// units name their queues in no order, and some of them more than once.
const CASES: &[Case] = &[
    (Define(0, NO_QUEUE, "dead"), &[]),
    (Define(2, 0, "jobs"), &[]),
    (Define(0, NO_QUEUE, "mail"), &[]),
    (Begin(1), &[]),
    (Enqueue(1, 2, None), &[]),
    (Enqueue(1, 1, None), &[]),
    (Enqueue(1, 2, None), &[]),
    (
        Commit(1),
        &[(4, Freed(MAIL)), (5, Freed(JOBS)), (6, Freed(MAIL))],
    ),
    (Begin(2), &[]),
    (Begin(3), &[]),
    (Dequeue(2, 1, None), &[]),
    (Dequeue(2, 2, None), &[]),
    (Enqueue(2, 1, None), &[]),
    (Dequeue(3, 2, None), &[]),
    (
        Abort(2),
        &[(4, Back(MAIL, 1)), (5, Back(JOBS, 1)), (12, Undone)],
    ),
    (Kill(2, 6), &[]),
    (Commit(3), &[(6, Gone)]),
    (Begin(4), &[]),
    (Dequeue(4, 2, None), &[]),
    (Dequeue(4, 1, None), &[]),
    (Dequeue(4, 1, None), &[]),
    (Abort(4), &[(4, Back(MAIL, 2)), (5, Moved(DEAD))]),
    (Begin(5), &[]),
    (Commit(5), &[]),
];

fn is_same(told: Fate, wanted: Fate) -> bool {
    match (told, wanted) {
        (Freed(told), Freed(wanted)) | (Moved(told), Moved(wanted)) => told == wanted,
        (Back(told, before), Back(wanted, wanted_before)) => told == wanted
            && before == wanted_before,
        (Gone, Gone) | (Undone, Undone) => true,
        _ => false,
    }
}

// Whether these are told, in their order.
fn are(told: &[(ElemId, Fate)], wanted: &[Told]) -> bool {
    told.len() == wanted.len()
        && told
            .iter()
            .zip(wanted.iter())
            .all(|(it, want)| it.0.0 == want.0 && is_same(it.1, want.1))
}

// Whether what is noted beside the record is told of it before it is done.
fn tells(alloc: Global, machine: &mut Machine, case: &Case) -> Result<bool, Fail> {
    let record = KeptRecord::of(alloc, &record_of(alloc, &case.0)?)?;
    let told = machine.ends(alloc, &record)?;
    match machine.take(alloc, Version::Two, &record) {
        Ok(Taken::Done(_)) => Ok(are(&told, case.1)),
        Ok(Taken::Unlawful(_)) => Ok(false),
        Err(e) => Err(e.into()),
    }
}

// How many elements of a queue are free, if there is the queue.
fn free_in(machine: &Machine, queue: QueueNo) -> Option<usize> {
    if queue.0 as usize >= machine.definitions().len() {
        return None;
    }
    Some(machine.depth(queue))
}

#[test]
fn it_tells_what_the_end_of_a_unit_makes_of_its_elements(rt: HostRuntime) -> Result<(), Fail> {
    let alloc = rt.alloc();
    let mut machine = Machine::empty(alloc);
    for case in CASES {
        assert!(rt; tells(alloc, &mut machine, case)?);
    }
    assert!(rt; free_in(&machine, DEAD) == Some(1) && machine.has_free(DEAD, ElemId(5)));
    assert!(rt; free_in(&machine, JOBS) == Some(0) && !machine.has_free(JOBS, ElemId(5)));
    assert!(rt; free_in(&machine, MAIL) == Some(1) && machine.has_free(MAIL, ElemId(4)));
    assert!(rt; !machine.has_free(MAIL, ElemId(6)) && !machine.has_free(QueueNo(3), ElemId(4)));
    Ok(())
}
