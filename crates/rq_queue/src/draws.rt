//! Notes that are taken out of their map, place by place.

ghost use Rattle.std.specs.Prelude.{◌≡◌, ◌∷◌, ◌++◌, [], true, Bool, IfOk, IfErr, OnOk};
ghost use Rattle.std.specs.BTreeMap.{is_at};
ghost use Rattle.std.specs.List.{AllByRecursion};
ghost use Rattle.std.specs.Map.{lookup, values_of};
ghost use Rattle.std.specs.Ordering.{nat_cmp};
ghost use Rattle.rq_queue.specs.Noted.{by_place, is_own, has_own, left, AreByPlace, Apart, Drawn};
ghost use Rattle.rq_queue.specs.Noted.{NoteEntry};
ghost use Rattle.rq_record.specs.declared.fault.Fault.TheVariants.{Resources};

use crate::kept_note::KeptNote;
use crate::whose::Whose;
use rq_record::Fault;
use std::alloc::Global;
use std::collections::BTreeMap;

// Whether a note of theirs is at the place.
fn stands(all: &BTreeMap<u64, KeptNote>, place: u64, whose: &Whose) -> bool
    ensures { result ≡ has_own whose.now (lookup (is_at (nat_cmp place)) all.now.entries) }
{
    match all.get(&place) {
        Some(n) => whose.owns(n),
        None => false,
    }
}

// Takes the note at the place out, if it is one of theirs.
fn draw(all: &mut BTreeMap<u64, KeptNote>, place: u64, whose: &Whose) -> Option<KeptNote>
    requires { AreByPlace all.old.entries }
    ensures left { all.new.entries ≡ left whose.now (place ∷ []) all.old.entries }
    ensures drawn { Drawn whose.now result all.old.entries all.new.entries }
{
    if !stands(all, place, whose) {
        return None;
    }
    all.remove(&place)
}

/// Takes theirs at these places out.
pub(crate) fn notes_without(all: &mut BTreeMap<u64, KeptNote>, places: &[u64], whose: &Whose)
    requires { AreByPlace all.old.entries }
    ensures { all.new.entries ≡ left whose.now places.now all.old.entries }
{
    for place in places {
        draw(all, *place, whose);
    }
}

/// Takes theirs at these places out, and answers them. Refused with Resources: the others are left
/// then, and maybe some of theirs.
pub(crate) fn drawn(
    alloc: Global,
    all: &mut BTreeMap<u64, KeptNote>,
    places: &[u64],
    whose: &Whose,
) -> Result<Vec<KeptNote>, Fault>
    requires { AreByPlace all.old.entries }
    ensures in_order { AreByPlace all.new.entries }
    ensures some { (p : NoteEntry → Bool) → AllByRecursion (λ e. p e ≡ true) all.old.entries
        → AllByRecursion (λ e. p e ≡ true) all.new.entries }
    ensures left { OnOk result (all.new.entries ≡ left whose.now places.now all.old.entries) }
    ensures own { IfOk result (λ v. AllByRecursion (λ n. is_own whose.now n ≡ true) v.items) }
    ensures apart { IfOk result (λ v. Apart (v.items ++ values_of all.new.entries)) }
    ensures together { IfOk result
        (λ v. by_place (v.items ++ values_of all.new.entries) ≡ values_of all.old.entries) }
    ensures refused { IfErr result (λ e. e ≡ Resources) }
{
    let mut drawn = Vec::with_capacity(alloc, places.len())?;
    for place in places {
        let Some(n) = draw(all, *place, whose) else {
            continue;
        };
        drawn.push(n)?;
    }
    Ok(drawn)
}
