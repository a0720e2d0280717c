//! What the lists of a well-formed state keep.

ghost use Rattle.std.specs.Prelude.{◌≡◌, ◌<◌, ◌↔◌, IsTrue, true, map};
ghost use Rattle.std.specs.List.{list_all};
ghost use Rattle.rq_model.specs.States as model;
ghost use Rattle.rq_model.specs.WellFormed.{Ordered};
ghost use Rattle.rq_state.specs.Inside.{state_of};
ghost use Rattle.rq_state.specs.Tests.{unit_test, definitions_test, depth_test, element_test};
ghost use Rattle.rq_state.specs.Tests.{registrant_test, note_test};
ghost use Rattle.rq_state.specs.Views.{unit_of};

use crate::checks::members::{
    is_definition, is_element, is_note, is_one_deep, is_registrant, is_unit,
};
use crate::fields::KeptFields;
use crate::kept_element::KeptElement;
use crate::kept_registrant::KeptRegistrant;
use crate::members::{Definition, Note};
use rq_record::UnitNo;

pub(crate) fn do_units_rise(units: &[UnitNo]) -> bool
    ensures { IsTrue result ↔ Ordered (λ u v. u < v) (map unit_of units.now) }
{
    units.is_sorted_by(|one, next| one.0 < next.0)
}

pub(crate) fn do_registrants_rise(registrants: &[KeptRegistrant]) -> bool
    ensures { IsTrue result ↔ Ordered (λ r t. model.registrant_before r t ≡ true) registrants.now }
{
    registrants.is_sorted_by(|one, next| one.is_before(next))
}

pub(crate) fn do_elements_rise(elements: &[KeptElement]) -> bool
    ensures { IsTrue result ↔ Ordered (λ (e : model.Element) f. e.id < f.id) elements.now }
{
    elements.is_sorted_by(|one, next| one.number() < next.number())
}

pub(crate) fn do_notes_rise(notes: &[Note]) -> bool
    ensures { IsTrue result
        ↔ Ordered (λ (n : model.Note) m. n.last.place < m.last.place) notes.now }
{
    notes.is_sorted_by(|one, next| one.place() < next.place())
}

/// Each definition by its number, which is its index.
pub(crate) fn are_definitions(definitions: &[Definition]) -> bool
    ensures { result ≡ definitions_test 0 definitions.now }
{
    for number in 0..definitions.len() {
        if !is_definition(number, &definitions[number]) {
            return false;
        }
    }
    true
}

pub(crate) fn are_one_deep(definitions: &[Definition]) -> bool
    ensures { result ≡ list_all (depth_test definitions.now) definitions.now }
{
    for definition in definitions {
        if !is_one_deep(definitions, definition) {
            return false;
        }
    }
    true
}

pub(crate) fn are_units(greatest: u64, units: &[UnitNo]) -> bool
    ensures { result ≡ list_all (λ unit. unit_test greatest (unit_of unit)) units.now }
{
    for unit in units {
        if !is_unit(greatest, *unit) {
            return false;
        }
    }
    true
}

pub(crate) fn are_registrants(fields: &KeptFields) -> bool
    ensures { result
        ≡ list_all (registrant_test (state_of fields.now)) fields.now.registrants.items }
{
    for registrant in &fields.registrants {
        if !is_registrant(fields, registrant) {
            return false;
        }
    }
    true
}

pub(crate) fn are_elements(fields: &KeptFields) -> bool
    requires { Ordered (λ u v. u < v) (map unit_of fields.now.units.items) }
    ensures { result ≡ list_all (element_test (state_of fields.now)) fields.now.elements.items }
{
    for element in &fields.elements {
        if !is_element(fields, element) {
            return false;
        }
    }
    true
}

pub(crate) fn are_notes(fields: &KeptFields) -> bool
    requires units { Ordered (λ u v. u < v) (map unit_of fields.now.units.items) }
    requires registrants { Ordered
        (λ r t. model.registrant_before r t ≡ true) fields.now.registrants.items }
    ensures { result ≡ list_all (note_test (state_of fields.now)) fields.now.notes.items }
{
    for note in &fields.notes {
        if !is_note(fields, note) {
            return false;
        }
    }
    true
}
