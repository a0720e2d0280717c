//! What is done to the parts of queues, each at the index that is its number: an operation of one of
//! them, the end of a unit in those that it named, and what arrives.

ghost use Rattle.std.specs.Prelude.{◌≡◌, ◌<◌, ◌++◌, ◌∷◌, [], length, option_map, IfOk, OnOk, IfErr};
ghost use Rattle.std.specs.Prelude.{ℕ, List, cond, nat_lt, ◌≢◌};
ghost use Rattle.std.specs.List.{AllByRecursion};
ghost use Rattle.rq_model.specs.Machine as machine;
ghost use Rattle.rq_model.specs.Redo.{IsReady};
ghost use Rattle.rq_model.specs.Records as records;
ghost use Rattle.rq_model.specs.States as states;
ghost use Rattle.rq_record.specs.declared.fault.Fault.TheVariants.{Resources};
ghost use Rattle.rq_state.specs.Views.{id_of};
ghost use Rattle.rq_standing.specs.Parts.{part_at, Acted, Ended, Room, Send, Sends, Received};
ghost use Rattle.rq_standing.specs.Parts.{CanArrive, HaveArrived};
ghost use Rattle.rq_model.specs.Queues.{Transfer};
ghost use Rattle.rq_model.specs.Redo as redo_words;

use rq_queue::{KeptMove, KeptOp, Part};
use rq_record::{ElemId, Fault, KeptBy, QueueNo, UnitNo};
use std::alloc::Global;

/// Does an operation of one queue.
pub(crate) fn act_on(
    alloc: Global,
    parts: &mut Vec<Part>,
    queue: usize,
    op: &KeptOp,
) -> Result<(), Fault>
    requires within { queue < length parts.old.items }
    requires ready { IsReady op.now.place op.now.does (part_at parts.old.items queue) }
    ensures size { length parts.new.items ≡ length parts.old.items }
    ensures acted { OnOk result
        (Acted op.now.place op.now.does queue parts.old.items parts.new.items) }
    ensures refused { IfErr result (λ e. e ≡ Resources) }
{
    let mut sent: Vec<KeptMove> = Vec::new(alloc);
    parts[queue].act(alloc, op, &mut sent)
}

/// Dequeues from a queue. The id of the element that it takes, if one is free.
pub(crate) fn dequeue_on(
    alloc: Global,
    parts: &mut Vec<Part>,
    place: u64,
    unit: UnitNo,
    queue: QueueNo,
    by: &KeptBy,
) -> Result<Option<ElemId>, Fault>
    requires within { queue.0 < length parts.old.items }
    requires homes { AllByRecursion (λ (e : states.Element). e.home ≡ queue.0)
        (part_at parts.old.items queue.0).elements }
    requires notes { AllByRecursion (λ (n : states.Note). n.last.place < place)
        (part_at parts.old.items queue.0).notes }
    ensures size { length parts.new.items ≡ length parts.old.items }
    ensures acted { OnOk result (Acted place (records.Dequeue unit.0 queue.0 by.now) queue.0
        parts.old.items parts.new.items) }
    ensures took { IfOk result (λ id. id_of id ≡ option_map (λ e. e.id)
        (machine.best queue.0 (part_at parts.old.items queue.0).elements)) }
    ensures refused { IfErr result (λ e. e ≡ Resources) }
{
    parts[queue.0 as usize].dequeue(alloc, place, unit, queue, by)
}

// Commits a unit in one queue, where there is the queue.
fn commit_on(alloc: Global, parts: &mut Vec<Part>, queue: u64, unit: UnitNo) -> Result<(), Fault>
    ensures size { length parts.new.items ≡ length parts.old.items }
    ensures committed { OnOk result (Ended 0 (records.Commit unit.0) (queue ∷ [])
        parts.old.items parts.new.items) }
    ensures refused { IfErr result (λ e. e ≡ Resources) }
{
    if queue < parts.len() as u64 {
        parts[queue as usize].commit(alloc, unit)?;
    }
    Ok(())
}

/// Commits a unit in these queues; in one that stands there twice no more than once.
pub(crate) fn commit_all(
    alloc: Global,
    parts: &mut Vec<Part>,
    queues: &[u64],
    unit: UnitNo,
) -> Result<(), Fault>
    ensures size { length parts.new.items ≡ length parts.old.items }
    ensures committed { OnOk result (Ended 0 (records.Commit unit.0) queues.now
        parts.old.items parts.new.items) }
    ensures refused { IfErr result (λ e. e ≡ Resources) }
{
    rq_model::step_by_parts();
    for queue in queues {
        commit_on(alloc, parts, *queue, unit)?;
    }
    Ok(())
}

// Aborts a unit in one queue, where there is the queue.
fn abort_on(
    alloc: Global,
    parts: &mut Vec<Part>,
    queue: u64,
    place: u64,
    unit: UnitNo,
    sent: &mut Vec<KeptMove>,
) -> Result<(), Fault>
    requires room { queue < length parts.old.items → Room 1 (part_at parts.old.items queue) }
    ensures size { length parts.new.items ≡ length parts.old.items }
    ensures aborted { OnOk result (Ended place (records.Abort unit.0) (queue ∷ [])
        parts.old.items parts.new.items) }
    ensures sent { OnOk result (sent.new.items ≡ sent.old.items
        ++ cond (nat_lt queue (length parts.old.items))
        (redo_words.sent place (records.Abort unit.0) (part_at parts.old.items queue)) []) }
    ensures refused { IfErr result (λ e. e ≡ Resources) }
{
    if queue < parts.len() as u64 {
        parts[queue as usize].abort(alloc, place, unit, sent)?;
    }
    Ok(())
}

/// Aborts a unit in these queues; in one that stands there twice no more than once. What leaves
/// them for their error queues.
pub(crate) fn abort_all(
    alloc: Global,
    parts: &mut Vec<Part>,
    queues: &[u64],
    place: u64,
    unit: UnitNo,
) -> Result<Vec<KeptMove>, Fault>
    requires room { (queue : ℕ) → queue < length parts.old.items
        → Room 2 (part_at parts.old.items queue) }
    ensures size { length parts.new.items ≡ length parts.old.items }
    ensures aborted { OnOk result (Ended place (records.Abort unit.0) queues.now
        parts.old.items parts.new.items) }
    ensures sent { IfOk result (λ sent. (ts : List Transfer) →
        Send place unit.0 parts.old.items ts → Sends queues.now ts sent.items) }
    ensures refused { IfErr result (λ e. e ≡ Resources) }
{
    rq_model::step_by_parts();
    let mut sent = Vec::new(alloc);
    for queue in queues {
        abort_on(alloc, parts, *queue, place, unit, &mut sent)?;
    }
    Ok(sent)
}

// Puts in what arrives, where there is its queue.
fn receive_on(alloc: Global, parts: &mut Vec<Part>, arrival: KeptMove) -> Result<(), Fault>
    requires new { arrival.element.home < length parts.old.items → AllByRecursion
        (λ (e : states.Element). e.id ≢ arrival.element.id)
        (part_at parts.old.items arrival.element.home).elements }
    ensures size { length parts.new.items ≡ length parts.old.items }
    ensures received { OnOk result (Received arrival parts.old.items parts.new.items) }
    ensures refused { IfErr result (λ e. e ≡ Resources) }
{
    let home = arrival.element.home().0 as usize;
    if home < parts.len() {
        parts[home].receive(alloc, arrival)?;
    }
    Ok(())
}

/// Puts in all that arrives, each where it arrives.
pub(crate) fn receive_all(
    alloc: Global,
    parts: &mut Vec<Part>,
    arrivals: Vec<KeptMove>,
) -> Result<(), Fault>
    requires new { CanArrive arrivals.items parts.old.items }
    ensures size { length parts.new.items ≡ length parts.old.items }
    ensures received { OnOk result (HaveArrived arrivals.items parts.old.items parts.new.items) }
    ensures refused { IfErr result (λ e. e ≡ Resources) }
{
    let mut coming = arrivals;
    coming.reverse();
    while let Some(arrival) = coming.pop() {
        receive_on(alloc, parts, arrival)?;
    }
    Ok(())
}
