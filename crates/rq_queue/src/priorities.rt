//! The priority of each element by its id. A KILL names only an id, and Free elements are ordered
//! by priority first.

ghost use Rattle.std.specs.Prelude.{◌≡◌, ◌≢◌, ◌==◌, ◌∷◌, ◌++◌, [], List, not, filter};
ghost use Rattle.std.specs.Prelude.{IfOk, IfErr, IsSome, OnOk, OnErr};
ghost use Rattle.std.specs.List.{AllByRecursion};
ghost use Rattle.std.specs.Map.{values_of};
ghost use Rattle.rq_model.specs.States as model;
ghost use Rattle.rq_model.specs.WellFormed.{Ordered};
ghost use Rattle.rq_queue.specs.Kept.{items_of, IsKeyed};
ghost use Rattle.rq_queue.specs.Priorities.{IsKnown, AreKnown, with_all};
ghost use Rattle.rq_record.specs.declared.fault.Fault.TheVariants.{Resources};

use crate::shelves::Rank;
use rq_record::{ElemId, Fault};
use rq_state::KeptElement;
use std::alloc::Global;
use std::cmp::Reverse;
use std::collections::BTreeMap;

/// Keeps the priority of an element of a new id too, if priorities are kept.
pub(crate) fn kept_with(
    priorities: &mut Option<BTreeMap<u64, u8>>,
    e: &KeptElement,
) -> Result<(), Fault>
    ensures known { OnOk result
        ((es : List model.Element) → AllByRecursion (λ x. e.now.id ≢ x.id) es
        → AreKnown priorities.old es → AreKnown priorities.new (e.now ∷ es)) }
    ensures same { OnErr result
        ((es : List model.Element) → AreKnown priorities.old es → AreKnown priorities.new es) }
    ensures refused { IfErr result (λ e. e ≡ Resources) }
{
    let Some(by_id) = priorities else {
        return Ok(());
    };
    let (priority, id) = e.key();
    by_id.insert(id, priority)?;
    Ok(())
}

// Adds the priorities of the elements of a list.
fn listed(by_id: &mut BTreeMap<u64, u8>, list: &[KeptElement]) -> Result<(), Fault>
    ensures added { OnOk result (by_id.new.entries ≡ with_all list.now by_id.old.entries) }
    ensures refused { IfErr result (λ e. e ≡ Resources) }
{
    for e in list {
        let (priority, id) = e.key();
        by_id.insert(id, priority)?;
    }
    Ok(())
}

// The priorities of the Free elements.
fn of_free(alloc: Global, free: &BTreeMap<Rank, KeptElement>) -> Result<BTreeMap<u64, u8>, Fault>
    ensures added { IfOk result (λ m. m.entries ≡ with_all (values_of free.now.entries) []) }
    ensures refused { IfErr result (λ e. e ≡ Resources) }
{
    let mut by_id = BTreeMap::new(alloc);
    for e in free.values() {
        let (priority, id) = e.key();
        by_id.insert(id, priority)?;
    }
    Ok(by_id)
}

// Adds the priorities of the elements that units mark.
fn with_marked(
    by_id: &mut BTreeMap<u64, u8>,
    marked: &BTreeMap<u64, Vec<KeptElement>>,
) -> Result<(), Fault>
    ensures added { OnOk result
        (by_id.new.entries ≡ with_all (items_of marked.now.entries) by_id.old.entries) }
    ensures refused { IfErr result (λ e. e ≡ Resources) }
{
    for (_, list) in marked {
        listed(by_id, list)?;
    }
    Ok(())
}

/// Collects the priorities of all elements, unless they are kept.
pub(crate) fn learn(
    alloc: Global,
    priorities: &mut Option<BTreeMap<u64, u8>>,
    free: &BTreeMap<Rank, KeptElement>,
    marked: &BTreeMap<u64, Vec<KeptElement>>,
) -> Result<(), Fault>
    requires apart { Ordered (λ (e f : model.Element). e.id ≢ f.id)
        (values_of free.now.entries ++ items_of marked.now.entries) }
    requires known { AreKnown priorities.old
        (values_of free.now.entries ++ items_of marked.now.entries) }
    ensures kept { OnOk result (IsSome priorities.new) }
    ensures known { AreKnown priorities.new
        (values_of free.now.entries ++ items_of marked.now.entries) }
    ensures refused { IfErr result (λ e. e ≡ Resources) }
{
    if priorities.is_some() {
        return Ok(());
    }
    let mut by_id = of_free(alloc, free)?;
    with_marked(&mut by_id, marked)?;
    *priorities = Some(by_id);
    Ok(())
}

/// Takes the Free element of that id out, if there is one: its priority says where it is.
pub(crate) fn take_out(
    free: &mut BTreeMap<Rank, KeptElement>,
    by_id: &BTreeMap<u64, u8>,
    id: ElemId,
)
    requires keyed { AllByRecursion IsKeyed free.old.entries }
    requires apart { Ordered (λ (e f : model.Element). e.id ≢ f.id) (values_of free.old.entries) }
    requires known { AllByRecursion (IsKnown by_id.now.entries) (values_of free.old.entries) }
    ensures keyed { AllByRecursion IsKeyed free.new.entries }
    ensures others { values_of free.new.entries
        ≡ filter (λ (e : model.Element). not (e.id == id.0)) (values_of free.old.entries) }
{
    let Some(priority) = by_id.get(&id.0) else {
        return;
    };
    free.remove(&(Reverse(*priority), id.0));
}
