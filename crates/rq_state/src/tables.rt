//! Tables of indices by queue.

ghost use Rattle.std.specs.Prelude.{◌≡◌, ◌<◌, ◌==◌, ◌∷◌, ◌++◌, [], ℕ, length, if◌then◌else◌, IfOk};
ghost use Rattle.std.specs.Prelude.{IfErr, OnOk};
ghost use Rattle.std.specs.List.{AllByRecursion};
ghost use Rattle.rq_state.specs.Orders.{indices_of, listed};
ghost use Rattle.rq_record.specs.declared.fault.Fault.TheVariants.{Resources};

use crate::kept_element::KeptElement;
use crate::members::Note;
use rq_record::{Fault, QueueNo};
use std::alloc::Global;

/// This many lists, each empty. Refused only with `Resources`.
pub fn empty_lists<T: Drop>(alloc: Global, count: usize) -> Result<Vec<Vec<T>>, Fault>
    ensures len { IfOk result (λ lists. length lists.items ≡ count) }
    ensures listed { IfOk result (λ lists. (x : ℕ) → listed lists.items x ≡ []) }
    ensures refused { IfErr result (λ e. e ≡ Resources) }
{
    let mut lists = Vec::with_capacity(alloc, count)?;
    while lists.len() < count {
        lists.push(Vec::new(alloc))?;
    }
    Ok(lists)
}

// Adds an index to those of a queue.
fn list(table: &mut Vec<Vec<usize>>, queue: QueueNo, index: usize) -> Result<(), Fault>
    requires { queue.0 < length table.old.items }
    ensures len { length table.new.items ≡ length table.old.items }
    ensures listed { OnOk result ((q : ℕ) → listed table.new.items q ≡ (if queue.0 == q
        then listed table.old.items q ++ index ∷ [] else listed table.old.items q)) }
    ensures refused { IfErr result (λ e. e ≡ Resources) }
{
    table[queue.0 as usize].push(index)?;
    Ok(())
}

/// What belongs to one queue.
pub(crate) trait OfQueue: Drop {
    ghost queue_of: { Self → ℕ };

    /// The queue.
    fn queue(&self) -> QueueNo
        ensures { result.0 ≡ queue_of self.now };
}

impl OfQueue for KeptElement {
    ghost queue_of = { λ e. e.home };

    fn queue(&self) -> QueueNo {
        self.home
    }
}

impl OfQueue for Note {
    ghost queue_of = { λ n. n.queue };

    fn queue(&self) -> QueueNo {
        self.queue
    }
}

/// The indices of the members of each queue.
pub(crate) fn table_of<M: OfQueue>(
    alloc: Global,
    queues: usize,
    members: &[M],
) -> Result<Vec<Vec<usize>>, Fault>
    requires { AllByRecursion (λ m. M.queue_of m < queues) members.now }
    ensures listed { IfOk result (λ table. (queue : ℕ) →
        listed table.items queue ≡ indices_of (λ m. M.queue_of m == queue) 0 members.now) }
    ensures refused { IfErr result (λ e. e ≡ Resources) }
{
    let mut table = empty_lists(alloc, queues)?;
    for index in 0..members.len() {
        list(&mut table, members[index].queue(), index)?;
    }
    Ok(table)
}

/// What a table has for a queue.
pub(crate) fn listed_at(table: &[Vec<usize>], queue: QueueNo) -> &[usize]
    ensures { result.now ≡ listed table.now queue.0 }
{
    match table.get(queue.0 as usize) {
        Some(indices) => indices,
        None => &[],
    }
}
