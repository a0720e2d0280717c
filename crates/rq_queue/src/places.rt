//! Lists of places under keys: where to look for the notes of a unit or of a registrant.

ghost use Rattle.std.specs.Prelude.{◌≡◌, ◌++◌, ◌∷◌, [], IfOk, IfErr, OnOk, OnErr, if◌then◌else◌};
ghost use Rattle.std.specs.Ordering.{is_eq};
ghost use Rattle.rq_queue.specs.Noted.{filed};
ghost use Rattle.rq_record.specs.declared.fault.Fault.TheVariants.{Resources};

use rq_record::Fault;
use std::alloc::Global;
use std::collections::BTreeMap;

/// The list of a key.
pub(crate) fn places_of<'a, K: Ord>(index: &'a BTreeMap<K, Vec<u64>>, key: &K) -> &'a [u64]
    ensures { result.now ≡ filed K.cmp key.now index.now.entries }
{
    match index.get(key) {
        Some(places) => places,
        None => &[],
    }
}

/// Takes the list of a key out.
pub(crate) fn unfiled<K: Ord + Drop>(
    alloc: Global,
    index: &mut BTreeMap<K, Vec<u64>>,
    key: &K,
) -> Vec<u64>
    ensures places { result.items ≡ filed K.cmp key.now index.old.entries }
    ensures others { (k : K) → filed K.cmp k index.new.entries
        ≡ (if is_eq (K.cmp key.now k) then [] else filed K.cmp k index.old.entries) }
{
    match index.remove(key) {
        Some(list) => list,
        None => Vec::new(alloc),
    }
}

// A list of one place. Most units make one note in a queue, and a list that grows by itself begins
// with room for four.
fn first_place(alloc: Global, place: u64) -> Result<Vec<u64>, Fault>
    ensures first { IfOk result (λ places. places.items ≡ place ∷ []) }
    ensures refused { IfErr result (λ e. e ≡ Resources) }
{
    let mut places = Vec::with_capacity(alloc, 1)?;
    places.push(place)?;
    Ok(places)
}

/// Puts a place at the end of the list of a key. Refused with Resources: the lists are then as
/// before.
pub(crate) fn file<K: Ord + Drop>(
    alloc: Global,
    index: &mut BTreeMap<K, Vec<u64>>,
    key: K,
    place: u64,
) -> Result<(), Fault>
    ensures filed { OnOk result ((k : K) → filed K.cmp k index.new.entries
        ≡ filed K.cmp k index.old.entries ++ (if is_eq (K.cmp key k) then place ∷ [] else [])) }
    ensures same { OnErr result ((k : K) → filed K.cmp k index.new.entries
        ≡ filed K.cmp k index.old.entries) }
    ensures refused { IfErr result (λ e. e ≡ Resources) }
{
    if let Some(places) = index.get_mut(&key) {
        places.push(place)?;
        return Ok(());
    }
    index.insert(key, first_place(alloc, place)?)?;
    Ok(())
}
