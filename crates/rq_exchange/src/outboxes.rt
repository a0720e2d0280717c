//! What a queue hands to its error queue, and how what arrives there is merged by place and id.

ghost use Rattle.std.specs.Prelude.{◌≡◌, ⊤, [], slice_index_or, map, flat_map, All, IfOk, IfErr};
ghost use Rattle.std.specs.Prelude.{IsPermutation};
ghost use Rattle.std.specs.List.Sorted.{IsSortedBy};
ghost use Rattle.rq_record.specs.declared.fault.Fault.TheVariants.{Resources};
ghost use Rattle.rq_model.specs.Laws.{earlier};

use diary::Diary;
use itertools::{Itertools, MergePredicate};
use rq_pool::Fits;
use rq_queue::{KeptMove, Part};
use rq_record::Fault;
use std::alloc::Global;
use std::collections::LinkedList;

/// A queue that was redone, and its part after the run.
#[derive(Drop)]
pub(crate) struct Redone {
    pub queue: u32,
    pub part: Part,
}

/// What left a queue.
#[derive(Drop)]
pub struct Outbox {
    pub moves: Vec<KeptMove>,
}

/// What each source of an error queue is to hand in, only for contracts.
#[derive(Drop)]
pub struct Target {
    pub due: Diary<LinkedList<KeptMove>>,
}

impl Fits for Outbox {
    type Key = Target;

    ghost fits = { λ key i x. slice_index_or key.due i [] ≡ x.moves.items };
}

// The order of moves: by place, and at one place by the element's id.
#[derive(Clone, Copy)]
struct Earlier;

impl MergePredicate<KeptMove> for Earlier {
    ghost can_test = { λ _. ⊤ };

    ghost computes = { λ _ first. first ≡ earlier };

    fn is_first(&mut self, left: &KeptMove, right: &KeptMove) -> bool {
        left.place() < right.place()
            || left.place() == right.place() && left.element.number() < right.element.number()
    }
}

/// The moves of all lists, each in order, in one order.
pub(crate) fn merged(alloc: Global, lists: Vec<Vec<KeptMove>>) -> Result<Vec<KeptMove>, Fault>
    requires { All (λ l. IsSortedBy earlier l.items) lists.items }
    ensures permutation { IfOk result
        (λ v. IsPermutation (flat_map (λ l. l.items) lists.items) v.items) }
    ensures order { IfOk result (λ v. IsSortedBy earlier v.items) }
    ensures refused { IfErr result (λ e. e ≡ Resources) }
{
    let all = lists.into_iter().kmerge_by(alloc, Earlier)?.collect(alloc)?;
    Ok(all)
}

/// What was handed in, without its boxes.
pub(crate) fn unboxed(alloc: Global, boxes: Vec<Outbox>) -> Result<Vec<Vec<KeptMove>>, Fault>
    ensures lists { IfOk result
        (λ v. map (λ l. l.items) v.items ≡ map (λ b. b.moves.items) boxes.items) }
    ensures refused { IfErr result (λ e. e ≡ Resources) }
{
    let mut lists = Vec::with_capacity(alloc, boxes.len())?;
    for one in boxes {
        lists.push(one.moves)?;
    }
    Ok(lists)
}
