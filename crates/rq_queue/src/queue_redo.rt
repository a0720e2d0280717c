//! Redo of one queue.

ghost use Rattle.std.specs.Prelude.{◌≡◌, ◌≤◌, ◌<◌, ◌-◌, ◌^◌, ◌++◌, ◌∷◌, [], List, length, drop};
ghost use Rattle.std.specs.Prelude.{IfOk, IfErr, OnOk};
ghost use Rattle.std.specs.List.{AllByRecursion};
ghost use Rattle.rq_model.specs.Queues as queues;
ghost use Rattle.rq_model.specs.Redo.{GoesWell};
ghost use Rattle.rq_model.specs.Redo as redo_words;
ghost use Rattle.rq_record.specs.declared.fault.Fault.TheVariants.{Resources};
ghost use Rattle.rq_queue.specs.Case.{AreRising, HasCase, Redoes};

use crate::moves::{KeptMove, Move, moves_of};
use crate::operations::{KeptOps, Op, kept_ops};
use crate::part::Part;
use rq_record::{Fault, KeptRecord};
use std::alloc::Global;

// The records of this many operations are looked at together.
const AHEAD: usize = 256;

// How many ABORTs are among the next operations, of so many at once.
fn aborts_ahead(ops: &KeptOps, done: usize) -> usize {
    let end = done.saturating_add(AHEAD).min(ops.len());
    let mut aborts = 0;
    for index in done..end {
        if matches!(ops.at(index).record(), KeptRecord::Abort { .. }) {
            aborts += 1;
        }
    }
    aborts
}

// Makes room for a move of each ABORT among the next operations, for this many at once. Looking at
// their records together also spares waiting: they lie apart in a long log, and a processor asks
// for many at a time.
fn make_room(ops: &KeptOps, done: usize, sent: &mut Vec<KeptMove>) -> Result<(), Fault>
    ensures same { sent.new.items ≡ sent.old.items }
    ensures refused { IfErr result (λ e. e ≡ Resources) }
{
    if done % AHEAD != 0 {
        return Ok(());
    }
    sent.reserve(aborts_ahead(ops, done))?;
    Ok(())
}

// Does the operations from an index in the list on, as far as their places are `until` or before.
// Answers how many are done then.
fn catch_up(
    alloc: Global,
    part: &mut Part,
    ops: &KeptOps,
    from: usize,
    until: u64,
    sent: &mut Vec<KeptMove>,
) -> Result<usize, Fault>
    requires bound { from ≤ length ops.now }
    requires well { (ms : List queues.Move) × AllByRecursion (λ m. until ≤ m.place) ms
        × GoesWell part.old (drop from ops.now) ms }
    ensures bound { IfOk result (λ next. next ≤ length ops.now) }
    ensures well { IfOk result
        (λ next. (ms : List queues.Move) → AllByRecursion (λ m. until ≤ m.place) ms
        → GoesWell part.old (drop from ops.now) ms → GoesWell part.new (drop next ops.now) ms) }
    ensures redone { IfOk result
        (λ next. (ms : List queues.Move) → AllByRecursion (λ m. until ≤ m.place) ms
        → redo_words.redone part.old (drop from ops.now) ms
        ≡ redo_words.redone part.new (drop next ops.now) ms) }
    ensures sent { IfOk result
        (λ next. (ms : List queues.Move) → AllByRecursion (λ m. until ≤ m.place) ms
        → sent.old.items ++ redo_words.all_sent part.old (drop from ops.now) ms
        ≡ sent.new.items ++ redo_words.all_sent part.new (drop next ops.now) ms) }
    ensures stops { IfOk result (λ next. (op : queues.Op) (rest : List queues.Op) →
        drop next ops.now ≡ op ∷ rest → until < op.place) }
    ensures refused { IfErr result (λ e. e ≡ Resources) }
    ensures all { IfOk result (λ next. until ≡ 2 ^ 64 - 1 → next ≡ length ops.now) }
{
    rq_model::redo_steps();
    rq_model::redo_goes_well();
    let mut done = from;
    while done < ops.len() {
        let op = ops.at(done);
        if op.place() > until {
            return Ok(done);
        }
        make_room(ops, done, sent)?;
        part.act(alloc, &op, sent)?;
        done += 1;
    }
    Ok(done)
}

// Does the operations and puts in the arrivals, which are taken, in their order. What leaves is added
// to what was sent.
fn redo_in_order(
    alloc: Global,
    part: &mut Part,
    ops: &KeptOps,
    arrivals: &mut Vec<KeptMove>,
    sent: &mut Vec<KeptMove>,
) -> Result<(), Fault>
    requires well { GoesWell part.old ops.now arrivals.old.items }
    requires rising { AreRising arrivals.old.items }
    ensures part { OnOk result
        (part.new ≡ redo_words.redone part.old ops.now arrivals.old.items) }
    ensures sent { OnOk result (sent.new.items
        ≡ sent.old.items ++ redo_words.all_sent part.old ops.now arrivals.old.items) }
    ensures refused { IfErr result (λ e. e ≡ Resources) }
{
    rq_model::redo_steps();
    rq_model::redo_goes_well();
    let mut done = 0;
    arrivals.reverse();
    while let Some(arrival) = arrivals.pop() {
        done = catch_up(alloc, part, ops, done, arrival.place(), sent)?;
        part.receive(alloc, arrival)?;
    }
    catch_up(alloc, part, ops, done, u64::MAX, sent)?;
    Ok(())
}

/// The part after the operations and the arrivals, and the elements that left for the error queue.
pub fn redo(
    alloc: Global,
    part: Part,
    ops: &[Op],
    arrivals: Vec<Move>,
) -> Result<(Part, Vec<Move>), Fault>
    requires { HasCase part ops.now arrivals.items }
    ensures redone { IfOk result (λ r. Redoes part ops.now arrivals.items r.0 r.1.items) }
    ensures refused { IfErr result (λ e. e ≡ Resources) }
{
    let (records, touching) = kept_ops(alloc, ops)?;
    let ops = KeptOps::new(&records, &touching);
    let arrivals = moves_of(alloc, &arrivals)?;
    let (part, moves) = redo_kept(alloc, part, &ops, arrivals)?;
    let moves = moves_of(alloc, &moves)?;
    Ok((part, moves))
}

/// The same for what is kept; nothing of it is copied.
pub fn redo_kept(
    alloc: Global,
    part: Part,
    ops: &KeptOps,
    arrivals: Vec<KeptMove>,
) -> Result<(Part, Vec<KeptMove>), Fault>
    requires { HasCase part ops.now arrivals.items }
    ensures redone { IfOk result (λ r. Redoes part ops.now arrivals.items r.0 r.1.items) }
    ensures refused { IfErr result (λ e. e ≡ Resources) }
{
    rq_model::projection();
    rq_model::redo_goes_well();
    let mut part = part;
    let mut arrivals = arrivals;
    let mut sent = Vec::new(alloc);
    redo_in_order(alloc, &mut part, ops, &mut arrivals, &mut sent)?;
    // What left is kept until its receiver comes to it, and most ABORTs send nothing.
    sent.shrink_to_fit();
    Ok((part, sent))
}
