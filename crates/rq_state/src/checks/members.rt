//! What each member of a well-formed state keeps.

ghost use Rattle.std.specs.Prelude.{◌≡◌, ◌<◌, ℕ, true, length, map, option_map};
ghost use Rattle.rq_model.specs.States.{State, registrant_before, definition_at};
ghost use Rattle.rq_model.specs.WellFormed.{Ordered};
ghost use Rattle.rq_state.specs.Inside.{state_of};
ghost use Rattle.rq_state.specs.Tests.{unit_test, definition_test, depth_test, limit_test};
ghost use Rattle.rq_state.specs.Tests.{mark_test, element_test, operation_test, last_test};
ghost use Rattle.rq_state.specs.Tests.{optional_test, registrant_test, note_test};
ghost use Rattle.rq_state.specs.Views.{kind_of, mark_of, id_of, unit_of};

use crate::checks::searches::{has_registrant, has_unit};
use crate::fields::KeptFields;
use crate::kept_element::KeptElement;
use crate::kept_registrant::KeptRegistrant;
use crate::members::{Definition, Last, Mark, Note, OpKind};
use rq_record::{ElemId, QueueNo, UnitNo};

/// At least 1, and at most the greatest unit that began.
pub(crate) fn is_unit(greatest: u64, unit: UnitNo) -> bool
    ensures { result ≡ unit_test greatest (unit_of unit) }
{
    1 <= unit.0 && unit.0 <= greatest
}

/// No limit and no error queue, or a limit from 1 to 1,000 and an error queue of smaller number.
pub(crate) fn is_definition(number: usize, definition: &Definition) -> bool
    ensures { result ≡ definition_test number definition.now }
{
    (definition.limit == 0 && definition.error == QueueNo::NONE)
        || (1 <= definition.limit
            && definition.limit <= Definition::LIMIT
            && (definition.error.0 as usize) < number)
}

fn error_of(definitions: &[Definition], queue: QueueNo) -> QueueNo
    ensures { result.0 ≡ (definition_at definitions.now queue.0).error }
{
    match definitions.get(queue.0 as usize) {
        Some(definition) => definition.error,
        None => QueueNo::NONE,
    }
}

fn limit_of(definitions: &[Definition], queue: QueueNo) -> u16
    ensures { result ≡ (definition_at definitions.now queue.0).limit }
{
    match definitions.get(queue.0 as usize) {
        Some(definition) => definition.limit,
        None => 0,
    }
}

/// If it has an error queue, that one has none itself.
pub(crate) fn is_one_deep(definitions: &[Definition], definition: &Definition) -> bool
    ensures { result ≡ depth_test definitions.now definition.now }
{
    definition.error == QueueNo::NONE || error_of(definitions, definition.error) == QueueNo::NONE
}

fn is_mark(units: &[UnitNo], mark: Mark) -> bool
    requires { Ordered (λ u v. u < v) (map unit_of units.now) }
    ensures { (s : State) → map unit_of units.now ≡ s.units → result ≡ mark_test s (mark_of mark) }
{
    match mark {
        Mark::Free => true,
        Mark::Fresh(unit) => has_unit(units, unit),
        Mark::Held(unit) => has_unit(units, unit),
    }
}

fn is_below_limit(limit: u16, attempts: u64) -> bool
    ensures { result ≡ limit_test limit attempts }
{
    limit == 0 || attempts < limit as u64
}

/// An element below the next record number, in queues that are defined; if it is marked, its unit
/// is open.
pub(crate) fn is_element(fields: &KeptFields, element: &KeptElement) -> bool
    requires { Ordered (λ u v. u < v) (map unit_of fields.now.units.items) }
    ensures { result ≡ element_test (state_of fields.now) element.now }
{
    element.id.0 < fields.next
        && (element.home.0 as usize) < fields.definitions.len()
        && (element.origin.0 as usize) < fields.definitions.len()
        && element.attempts <= fields.next
        && is_below_limit(
            limit_of(&fields.definitions, element.home),
            element.attempts,
        )
        && is_mark(&fields.units, element.mark)
}

fn is_operation(kind: OpKind, place: u64, element: Option<ElemId>) -> bool
    ensures { result ≡ operation_test (kind_of kind) place (id_of element) }
{
    match (kind, element) {
        (OpKind::Enqueue, None) => false,
        (OpKind::Enqueue, Some(id)) => id.0 == place,
        (OpKind::Dequeue, None) => true,
        (OpKind::Dequeue, Some(id)) => id.0 < place,
    }
}

fn is_last(next: u64, last: &Last) -> bool
    ensures { result ≡ last_test next last.now }
{
    last.place < next && is_operation(last.kind, last.place, last.element)
}

fn is_optional(next: u64, last: Option<&Last>) -> bool
    ensures { result ≡ optional_test next (option_map (λ l. l.now) last.entry) }
{
    match last {
        None => true,
        Some(last) => is_last(next, last),
    }
}

/// A registrant of a queue that is defined, whose last operation is below the next record number.
pub(crate) fn is_registrant(fields: &KeptFields, registrant: &KeptRegistrant) -> bool
    ensures { result ≡ registrant_test (state_of fields.now) registrant.now }
{
    (registrant.queue().0 as usize) < fields.definitions.len()
        && is_optional(fields.next, registrant.last())
}

/// A note of an open unit and a registrant, whose operation is below the next record number.
pub(crate) fn is_note(fields: &KeptFields, note: &Note) -> bool
    requires units { Ordered (λ u v. u < v) (map unit_of fields.now.units.items) }
    requires registrants { Ordered
        (λ r t. registrant_before r t ≡ true) fields.now.registrants.items }
    ensures { result ≡ note_test (state_of fields.now) note.now }
{
    has_unit(&fields.units, note.unit)
        && has_registrant(&fields.registrants, note.queue, note.name)
        && is_last(fields.next, &note.last)
}
