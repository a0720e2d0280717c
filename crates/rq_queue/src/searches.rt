//! Searches among the elements of a queue, where they are kept.

ghost use Rattle.std.specs.Prelude.{◌≡◌, ◌==◌, ◌&&◌, ◌<◌, ◌^◌, ℕ, not, IfOk, IfErr, length, map, filter};
ghost use Rattle.std.specs.Prelude.{option_copied, take};
ghost use Rattle.std.specs.List.{AllByRecursion, list_any};
ghost use Rattle.std.specs.List.Sorted.{IsPermutation};
ghost use Rattle.std.specs.Map.{values_of};
ghost use Rattle.rq_model.specs.Machine as machine;
ghost use Rattle.rq_model.specs.Queues as queues;
ghost use Rattle.rq_model.specs.Reports.{IsListing};
ghost use Rattle.rq_model.specs.States as model;
ghost use Rattle.rq_queue.specs.Firsts.{AreFirst};
ghost use Rattle.rq_queue.specs.Kept.{items_of, IsKeyed};
ghost use Rattle.rq_queue.specs.Priorities.{AreKnown};
ghost use Rattle.rq_record.specs.declared.fault.Fault.TheVariants.{Resources};

use crate::elements::Elements;
use crate::shelves::Rank;
use rq_record::{ElemId, Fault, QueueNo, UnitNo};
use rq_state::KeptElement;
use std::alloc::Global;
use std::cmp::Reverse;
use std::collections::BTreeMap;

impl Elements {
    /// The best element, if one is free; lent.
    pub(crate) fn first(&self) -> Option<&KeptElement>
        ensures { (queue : ℕ) → AllByRecursion (λ (x : model.Element). x.home ≡ queue) self.now
            → option_copied result ≡ machine.best queue self.now }
    {
        if self.free.len() == 0 {
            return None;
        }
        let (_, e) = self.free.first_key_value()?;
        Some(e)
    }

    /// The Free elements, in the order in which they would be taken; lent. All elements are in the
    /// queue.
    pub(crate) fn listing<'a>(
        &'a self,
        alloc: Global,
        queue: QueueNo,
    ) -> Result<Vec<&'a KeptElement>, Fault>
        requires { AllByRecursion (λ (x : model.Element). x.home ≡ queue.0) self.now }
        ensures listed { IfOk result
            (λ v. IsListing queue.0 self.now (map (λ e. e.now) v.items)) }
        ensures refused { IfErr result (λ e. e ≡ Resources) }
    {
        let free = free_lent(alloc, &self.free, self.free.len())?;
        Ok(free)
    }

    /// The first of them, so many or all; lent. All elements are in the queue.
    pub(crate) fn first_elements<'a>(
        &'a self,
        alloc: Global,
        queue: QueueNo,
        count: usize,
    ) -> Result<Vec<&'a KeptElement>, Fault>
        requires { AllByRecursion (λ (x : model.Element). x.home ≡ queue.0) self.now }
        ensures first { IfOk result
            (λ v. AreFirst count queue.0 self.now (map (λ e. e.now) v.items)) }
        ensures refused { IfErr result (λ e. e ≡ Resources) }
    {
        let free = free_lent(alloc, &self.free, count)?;
        self.free.len();
        Ok(free)
    }

    /// Whether the element of this id is Free. All elements are in the queue.
    pub(crate) fn is_free(&self, queue: QueueNo, id: ElemId) -> bool
        requires { AllByRecursion (λ (x : model.Element). x.home ≡ queue.0) self.now }
        ensures { result
            ≡ list_any (λ e. machine.is_free_at queue.0 e && (e.id == id.0)) self.now }
    {
        is_among(&self.free, &self.priorities, id)
    }

    /// How many are Free.
    pub(crate) fn free_count(&self) -> usize
        ensures { result
            ≡ length (filter (λ (e : model.Element). model.is_free e.mark) self.now) }
    {
        self.free.len()
    }

    /// How many are not.
    pub(crate) fn marked_count(&self) -> usize
        requires { length self.now < 2 ^ 64 }
        ensures { result
            ≡ length (filter (λ (e : model.Element). not (model.is_free e.mark)) self.now) }
    {
        count_of_marked(&self.marked)
    }

    /// Those that the unit put in or took, in the order in which it did; lent.
    pub(crate) fn marked_by(&self, unit: UnitNo) -> &[KeptElement]
        ensures { IsPermutation result.now
            (filter (λ (e : model.Element). queues.is_marked unit.0 e.mark) self.now) }
    {
        self.marked.len();
        match self.marked.get(&unit.0) {
            Some(list) => list,
            None => &[],
        }
    }
}

// The best Free elements, so many or all, in their order; lent.
fn free_lent<'a>(
    alloc: Global,
    free: &'a BTreeMap<Rank, KeptElement>,
    count: usize,
) -> Result<Vec<&'a KeptElement>, Fault>
    ensures lent { IfOk result
        (λ v. map (λ e. e.now) v.items ≡ take count (values_of free.now.entries)) }
    ensures refused { IfErr result (λ e. e ≡ Resources) }
{
    let mut lent = Vec::with_capacity(alloc, count.min(free.len()))?;
    for e in free.values() {
        if lent.len() == count {
            return Ok(lent);
        }
        lent.push(e)?;
    }
    Ok(lent)
}

// Whether one of them has the id. Each is looked at, up to that one.
fn has_id(free: &BTreeMap<Rank, KeptElement>, id: ElemId) -> bool
    ensures { result
        ≡ list_any (λ (e : model.Element). e.id == id.0) (values_of free.now.entries) }
{
    for e in free.values() {
        if e.number() == id.0 {
            return true;
        }
    }
    false
}

// Whether one of the Free elements has the id. Where priorities are kept, that of the id says where
// it is; else each is looked at.
fn is_among(
    free: &BTreeMap<Rank, KeptElement>,
    priorities: &Option<BTreeMap<u64, u8>>,
    id: ElemId,
) -> bool
    requires keyed { AllByRecursion IsKeyed free.now.entries }
    requires known { AreKnown priorities.now (values_of free.now.entries) }
    ensures { result
        ≡ list_any (λ (e : model.Element). e.id == id.0) (values_of free.now.entries) }
{
    let Some(by_id) = priorities else {
        return has_id(free, id);
    };
    match by_id.get(&id.0) {
        Some(priority) => free.contains_key(&(Reverse(*priority), id.0)),
        None => false,
    }
}

// How many elements the units mark.
fn count_of_marked(marked: &BTreeMap<u64, Vec<KeptElement>>) -> usize
    requires { length (items_of marked.now.entries) < 2 ^ 64 }
    ensures { result ≡ length (items_of marked.now.entries) }
{
    let mut count = 0;
    for (_, list) in marked {
        count += list.len();
    }
    count
}
