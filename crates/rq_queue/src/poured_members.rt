//! What is poured into the fields of a state.

ghost use Rattle.std.specs.Prelude.{◌≡◌, ◌≤◌, ◌<◌, ◌+◌, ◌++◌, vec_len, vec_capacity, IfErr, OnOk, map};
ghost use Rattle.rq_queue.specs.Pouring.{MakesRoom, Joins, KeepsRest};
ghost use Rattle.rq_queue.specs.Roll.{registrant_of};
ghost use Rattle.rq_record.specs.declared.fault.Fault.TheVariants.{Resources};

use crate::notes::Notes;
use crate::registrants::Registrants;
use rq_record::{Fault, QueueNo};
use rq_state::{FieldsOf, KeptElement, KeptFields, Note};
use std::alloc::Global;

// Makes room for so many members behind those of a list. None is needed if it has none: then it
// takes over the list that comes.
fn make_room<M: Drop>(list: &mut Vec<M>, count: usize) -> Result<(), Fault>
    ensures room { MakesRoom list.old list.new count result }
    ensures refused { IfErr result (λ e. e ≡ Resources) }
{
    if list.is_empty() {
        return Ok(());
    }
    list.reserve(count)?;
    Ok(())
}

// Adds members to a list that has room for them. A list without any takes theirs over, so that they
// never stand in memory twice.
fn join<M: Drop>(list: &mut Vec<M>, mut members: Vec<M>)
    requires { 0 < vec_len list.old → vec_len list.old + vec_len members ≤ vec_capacity list.old }
    ensures { list.new.items ≡ list.old.items ++ members.items }
{
    if list.is_empty() {
        *list = members;
        return;
    }
    let Ok(()) = list.append(&mut members) else {
        unreachable!()
    };
}

// Makes room for so many members behind those of each list.
fn make_rooms<E: Drop, R: Drop>(
    fields: &mut FieldsOf<E, R>,
    elements: usize,
    registrants: usize,
    notes: usize,
) -> Result<(), Fault>
    ensures elements { MakesRoom fields.old.elements fields.new.elements elements result }
    ensures registrants { MakesRoom
        fields.old.registrants fields.new.registrants registrants result }
    ensures notes { MakesRoom fields.old.notes fields.new.notes notes result }
    ensures rest { KeepsRest fields.old fields.new }
    ensures refused { IfErr result (λ e. e ≡ Resources) }
{
    make_room(&mut fields.elements, elements)?;
    make_room(&mut fields.registrants, registrants)?;
    make_room(&mut fields.notes, notes)
}

/// Adds members to the lists. Refused with Resources: the fields are then as before.
pub(crate) fn add_members<E: Drop, R: Drop>(
    fields: &mut FieldsOf<E, R>,
    elements: Vec<E>,
    registrants: Vec<R>,
    notes: Vec<Note>,
) -> Result<(), Fault>
    ensures elements { Joins fields.old.elements.items
        elements.items fields.new.elements.items result }
    ensures registrants { Joins fields.old.registrants.items
        registrants.items fields.new.registrants.items result }
    ensures notes { Joins fields.old.notes.items notes.items fields.new.notes.items result }
    ensures rest { KeepsRest fields.old fields.new }
    ensures refused { IfErr result (λ e. e ≡ Resources) }
{
    make_rooms(fields, elements.len(), registrants.len(), notes.len())?;
    join(&mut fields.elements, elements);
    join(&mut fields.registrants, registrants);
    join(&mut fields.notes, notes);
    Ok(())
}

/// The same, with the notes of a queue, which are listed first.
pub(crate) fn add_listed<E: Drop, R: Drop>(
    alloc: Global,
    fields: &mut FieldsOf<E, R>,
    elements: Vec<E>,
    registrants: Vec<R>,
    notes: Notes,
) -> Result<(), Fault>
    ensures elements { Joins fields.old.elements.items
        elements.items fields.new.elements.items result }
    ensures registrants { Joins fields.old.registrants.items
        registrants.items fields.new.registrants.items result }
    ensures notes { Joins fields.old.notes.items notes fields.new.notes.items result }
    ensures rest { KeepsRest fields.old fields.new }
    ensures refused { IfErr result (λ e. e ≡ Resources) }
{
    let notes = notes.list(alloc)?;
    add_members(fields, elements, registrants, notes)
}

/// The same, with the registrants of the queue too.
pub(crate) fn add_kept(
    alloc: Global,
    fields: &mut KeptFields,
    queue: QueueNo,
    elements: Vec<KeptElement>,
    registrants: Registrants,
    notes: Notes,
) -> Result<(), Fault>
    ensures elements { Joins fields.old.elements.items
        elements.items fields.new.elements.items result }
    ensures registrants { Joins fields.old.registrants.items
        (map (registrant_of queue.0) registrants) fields.new.registrants.items result }
    ensures notes { Joins fields.old.notes.items notes fields.new.notes.items result }
    ensures rest { KeepsRest fields.old fields.new }
    ensures refused { IfErr result (λ e. e ≡ Resources) }
{
    let registrants = registrants.list(alloc, queue)?;
    add_listed(alloc, fields, elements, registrants, notes)
}
