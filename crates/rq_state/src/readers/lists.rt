//! The lists of a state, each after its count.

ghost use Rattle.std.specs.Prelude.{[], map};
ghost use Rattle.rq_state.specs.Views.{unit_of};
ghost use Rattle.rq_state.specs.Inside.{state_of};
ghost use Rattle.rq_state.specs.Reading.{GivesFromCheckpoint};
ghost use Rattle.rq_bytes.specs.Readers.{number, members, counted_members, alone};
ghost use Rattle.rq_model.specs.Reading.{definition_read, registrant_read, element_read};
ghost use Rattle.rq_model.specs.Reading.{note_read, state_read};

use crate::fields::KeptFields;
use crate::kept_element::KeptElement;
use crate::kept_registrant::KeptRegistrant;
use crate::members::{Definition, Note};
use crate::readers::members::{Member, take_unit};
use rq_bytes::Cursor;
use rq_record::{Fault, UnitNo};
use std::alloc::Global;

#[tactic(auto, using(crate::proofs::Loop::begins, crate::proofs::Loop::ends))]
fn take_members<M: Member>(
    alloc: Global,
    count: u32,
    bytes: &mut Cursor<'_>,
) -> Result<Vec<M>, Fault>
    ensures { GivesFromCheckpoint (λ x. (x.items, bytes.new)) result
        (members M.read count bytes.old) }
{
    // The form was looked at before: the bytes have as many members as the count says.
    let mut members = Vec::with_capacity(alloc, count as usize)?;
    for _ in 0..count {
        let member = M::take(alloc, bytes)?;
        members.push(member)?;
    }
    Ok(members)
}

#[tactic(auto, unfolding(rq_bytes::specs::Readers::counted_members))]
fn take_all<M: Member>(alloc: Global, bytes: &mut Cursor<'_>) -> Result<Vec<M>, Fault>
    ensures { GivesFromCheckpoint (λ x. (x.items, bytes.new)) result
        (counted_members M.read bytes.old) }
{
    let count = bytes.u32().ok_or(Fault::BadCheckpoint)?;
    take_members(alloc, count, bytes)
}

#[tactic(auto, using(crate::proofs::Loop::begins, crate::proofs::Loop::ends))]
fn take_units(alloc: Global, count: u32, bytes: &mut Cursor<'_>) -> Result<Vec<UnitNo>, Fault>
    ensures { GivesFromCheckpoint (λ x. (map unit_of x.items, bytes.new)) result
        (members (number 8) count bytes.old) }
{
    let mut members = Vec::new(alloc);
    for _ in 0..count {
        let member = take_unit(bytes).ok_or(Fault::BadCheckpoint)?;
        members.push(member)?;
    }
    Ok(members)
}

#[tactic(auto, unfolding(rq_bytes::specs::Readers::counted_members))]
fn take_all_units(alloc: Global, bytes: &mut Cursor<'_>) -> Result<Vec<UnitNo>, Fault>
    ensures { GivesFromCheckpoint (λ x. (map unit_of x.items, bytes.new)) result
        (counted_members (number 8) bytes.old) }
{
    let count = bytes.u32().ok_or(Fault::BadCheckpoint)?;
    take_units(alloc, count, bytes)
}

#[tactic(auto, unfolding(rq_model::specs::Reading::state_read))]
fn take_fields(alloc: Global, bytes: &mut Cursor<'_>) -> Result<KeptFields, Fault>
    ensures { GivesFromCheckpoint (λ x. (state_of x, bytes.new)) result
        (state_read bytes.old) }
{
    let next = bytes.u64().ok_or(Fault::BadCheckpoint)?;
    let greatest = bytes.u64().ok_or(Fault::BadCheckpoint)?;
    let committed = bytes.u64().ok_or(Fault::BadCheckpoint)?;
    let aborted = bytes.u64().ok_or(Fault::BadCheckpoint)?;
    let definitions = take_all::<Definition>(alloc, bytes)?;
    let units = take_all_units(alloc, bytes)?;
    let registrants = take_all::<KeptRegistrant>(alloc, bytes)?;
    let elements = take_all::<KeptElement>(alloc, bytes)?;
    let notes = take_all::<Note>(alloc, bytes)?;
    Ok(KeptFields {
        next,
        greatest,
        committed,
        aborted,
        definitions,
        units,
        registrants,
        elements,
        notes,
    })
}

pub(crate) fn all_fields(alloc: Global, bytes: &[u8]) -> Result<KeptFields, Fault>
    ensures { GivesFromCheckpoint (λ x. (state_of x, [])) result (alone state_read bytes.now) }
{
    let mut bytes = Cursor::new(bytes);
    let fields = take_fields(alloc, &mut bytes)?;
    bytes.end().ok_or(Fault::BadCheckpoint)?;
    Ok(fields)
}
