//! What a spelled state must keep before it is a state: each piece is tested, and fields that break
//! one are refused.

ghost use Rattle.std.specs.Prelude.{◌≡◌, ◌<◌, ◌↔◌, IsTrue, false, true, map, IfOk, IfErr};
ghost use Rattle.rq_model.specs.States as model;
ghost use Rattle.std.specs.Str.{bytes_eq};
ghost use Rattle.rq_model.specs.WellFormed.{Ordered};
ghost use Rattle.rq_record.specs.Views.{version_of};
ghost use Rattle.rq_record.specs.declared.fault.Fault.TheVariants.{Resources};
ghost use Rattle.rq_state.specs.Inside.{state_of};
ghost use Rattle.rq_state.specs.Keeping.{TellsWhether, KeepsNumbers, KeepsDefinitions, KeepsUnits};
ghost use Rattle.rq_state.specs.Keeping.{KeepsRegistrants, KeepsElements, KeepsNotes, KeepsAll};
ghost use Rattle.rq_state.specs.Tests.{deep_test};
ghost use Rattle.rq_state.specs.Views.{unit_of};

mod lists;
mod members;
mod searches;

use crate::checks::lists::{
    are_definitions, are_elements, are_notes, are_one_deep, are_registrants, are_units,
    do_elements_rise, do_notes_rise, do_registrants_rise, do_units_rise,
};
use crate::fields::KeptFields;
use crate::members::Definition;
use rq_record::{Fault, Name, Version};
use std::alloc::Global;

// Queues and records stay within their bounds, and units and registrants are no more than records.
fn are_numbers(most: u64, fields: &KeptFields) -> bool
    ensures { IsTrue result ↔ KeepsNumbers most (state_of fields.now) }
{
    fields.next <= most
        && fields.definitions.len() <= Definition::MOST
        && fields.committed <= fields.next
        && fields.aborted <= fields.next - fields.committed
        && fields.units.len() as u64 <= fields.next - fields.committed - fields.aborted
        && fields.registrants.len() as u64 <= fields.next
}

// The names of these queues, by number.
fn names_of(alloc: Global, definitions: &[Definition]) -> Result<Vec<Name>, Fault>
    ensures names { IfOk result
        (λ v. v.items ≡ map (λ (d : model.Definition). d.name) definitions.now) }
    ensures refused { IfErr result (λ e. e ≡ Resources) }
{
    let mut names = Vec::with_capacity(alloc, definitions.len())?;
    for definition in definitions {
        names.push(definition.name)?;
    }
    Ok(names)
}

// Whether no two of these names are equal: after sorting, no name is next to its equal.
fn do_names_differ(mut names: Vec<Name>) -> bool
    ensures { IsTrue result ↔ Ordered (λ a b. bytes_eq a b ≡ false) names.items }
{
    names.sort_unstable();
    names.is_sorted_by(|one, next| one < next)
}

// Goes on if it holds.
fn kept(holds: bool) -> Result<(), Fault>
    ensures { TellsWhether (IsTrue holds) result }
{
    if holds {
        Ok(())
    } else {
        Err(Fault::BadCheckpoint)
    }
}

// In version 1, whether no error queue has an error queue itself.
fn are_deep_for(version: Version, definitions: &[Definition]) -> bool
    ensures { result ≡ deep_test (version_of version) definitions.now }
{
    match version {
        Version::One => are_one_deep(definitions),
        Version::Two => true,
    }
}

fn check_definitions(alloc: Global, version: Version, fields: &KeptFields) -> Result<(), Fault>
    ensures { TellsWhether (KeepsDefinitions (version_of version) (state_of fields.now)) result }
{
    kept(are_definitions(&fields.definitions))?;
    kept(are_deep_for(version, &fields.definitions))?;
    let names = names_of(alloc, &fields.definitions)?;
    kept(do_names_differ(names))
}

fn check_units(fields: &KeptFields) -> Result<(), Fault>
    ensures { TellsWhether (KeepsUnits (state_of fields.now)) result }
{
    kept(do_units_rise(&fields.units))?;
    kept(are_units(fields.greatest, &fields.units))
}

fn check_registrants(fields: &KeptFields) -> Result<(), Fault>
    ensures { TellsWhether (KeepsRegistrants (state_of fields.now)) result }
{
    kept(do_registrants_rise(&fields.registrants))?;
    kept(are_registrants(fields))
}

fn check_elements(fields: &KeptFields) -> Result<(), Fault>
    requires { Ordered (λ u v. u < v) (map unit_of fields.now.units.items) }
    ensures { TellsWhether (KeepsElements (state_of fields.now)) result }
{
    kept(do_elements_rise(&fields.elements))?;
    kept(are_elements(fields))
}

fn check_notes(fields: &KeptFields) -> Result<(), Fault>
    requires units { Ordered (λ u v. u < v) (map unit_of fields.now.units.items) }
    requires registrants { Ordered
        (λ r t. model.registrant_before r t ≡ true) fields.now.registrants.items }
    ensures { TellsWhether (KeepsNotes (state_of fields.now)) result }
{
    kept(do_notes_rise(&fields.notes))?;
    kept(are_notes(fields))
}

/// Checks that the fields are those of a well-formed state of the version, whose next record number
/// is at most this. `BadCheckpoint` if they are not, `Resources` if there is no room to sort names.
pub(crate) fn check_fields(
    alloc: Global,
    version: Version,
    most: u64,
    fields: &KeptFields,
) -> Result<(), Fault>
    ensures { TellsWhether (KeepsAll most (version_of version) (state_of fields.now)) result }
{
    kept(are_numbers(most, fields))?;
    check_definitions(alloc, version, fields)?;
    check_units(fields)?;
    check_registrants(fields)?;
    check_elements(fields)?;
    check_notes(fields)
}
