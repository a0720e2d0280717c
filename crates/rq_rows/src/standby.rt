//! A machine that goes along with a log by two pieces, and what stands in the queues of one.

use rq_record::{KeptRecord, QueueNo, UnitNo, Version};
use rq_restart::{Plan, go_on};
use rq_standing::Machine;
use rq_state::KeptElement;
use std::alloc::Global;
use std::test::Fail;
use std::thread::Threads;

/// How many of two pieces a new machine takes, one after the other, and the numbers that it has then:
/// the one that it gives the next record, how many elements there are, and how many units are open.
pub type Told = (usize, usize, (u64, usize, usize));

/// What a new machine takes of two pieces, by the rules of the version.
pub fn told<R: Threads + Sync + AllocGlobal>(
    rt: &R,
    version: Version,
    first: &[KeptRecord],
    second: &[KeptRecord],
) -> Result<Told, Fail> {
    let plan = Plan::new(2, 1).ok_or("plan")?;
    let mut machine = Machine::empty(rt.alloc());
    let first = go_on(rt, rt.alloc(), version, &mut machine, first, &plan)?;
    let second = go_on(rt, rt.alloc(), version, &mut machine, second, &plan)?;
    let state = machine.state(rt.alloc())?;
    Ok((
        first,
        second,
        (state.next(), state.element_count(), state.unit_count()),
    ))
}

// Whether these are the elements of the ids, in their order.
fn are(elements: &[&KeptElement], ids: &[u64]) -> bool {
    elements.len() == ids.len()
        && elements
            .iter()
            .zip(ids.iter())
            .all(|(e, id)| e.number() == *id)
}

/// The id of the first element of a queue, if one is free.
pub fn first_of(machine: &Machine, queue: u32) -> Option<u64> {
    match machine.first(QueueNo(queue)) {
        Some(e) => Some(e.number()),
        None => None,
    }
}

/// Whether a queue has these free elements, the first of them first.
pub fn lists(alloc: Global, machine: &Machine, queue: u32, ids: &[u64]) -> Result<bool, Fail> {
    if queue as usize >= machine.definitions().len() {
        return Ok(false);
    }
    let listed = machine.listing(alloc, QueueNo(queue))?;
    Ok(are(&listed, ids) && first_of(machine, queue) == ids.first().copied())
}

/// Whether the unit put in or took this one element of a queue, or none.
pub fn marks(machine: &Machine, queue: u32, unit: u64, id: Option<u64>) -> bool {
    if queue as usize >= machine.definitions().len() {
        return false;
    }
    match machine.marked_by(QueueNo(queue), UnitNo(unit)) {
        [] => id.is_none(),
        [e] => Some(e.number()) == id,
        _ => false,
    }
}
