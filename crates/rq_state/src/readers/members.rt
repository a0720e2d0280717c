//! Members of a state from the front of the bytes that are left. After `None`, what is left is not
//! specified, and nobody reads on.

ghost use Rattle.std.specs.Prelude.{◌≡◌, ◌≤◌, ℕ, List, Option, length, option_map, IfSome, Some};
ghost use Rattle.rq_model.specs.Reading.{name_read, definition_read, id_from, id_read};
ghost use Rattle.rq_model.specs.Reading.{kind_read, operation_read, last_from, last_read};
ghost use Rattle.rq_model.specs.Reading.{registrant_read, mark_read, element_from};
ghost use Rattle.rq_model.specs.Reading.{element_read, note_read};
ghost use Rattle.rq_bytes.specs.Readers.{number, made};
ghost use Rattle.rq_state.specs.Views.{mark_of, kind_of, id_of, unit_of};
ghost use Rattle.rq_state.specs.Reading.{GivesFromCheckpoint, passed};

use crate::kept_element::KeptElement;
use crate::kept_registrant::KeptRegistrant;
use crate::members::{Definition, Last, Mark, Note, OpKind, Registrant};
use rq_bytes::Cursor;
use rq_record::{ElemId, Fault, KeptPayload, Name, QueueNo, UnitNo};
use std::alloc::Global;

#[tactic(auto, unfolding(rq_model::specs::Reading::name_read))]
fn take_name(bytes: &mut Cursor<'_>) -> Option<Name>
    ensures { option_map (λ x. (x, bytes.new)) result ≡ name_read bytes.old }
{
    let name = bytes.sized_u8()?;
    Name::new(name)
}

#[tactic(auto, unfolding(rq_model::specs::Reading::definition_read))]
pub(crate) fn take_definition(bytes: &mut Cursor<'_>) -> Option<Definition>
    ensures { option_map (λ x. (x, bytes.new)) result ≡ definition_read bytes.old }
{
    let limit = bytes.u16()?;
    let error = bytes.u32()?;
    let name = take_name(bytes)?;
    Some(Definition {
        limit,
        error: QueueNo(error),
        name,
    })
}

pub(crate) fn take_unit(bytes: &mut Cursor<'_>) -> Option<UnitNo>
    ensures { option_map (λ x. (unit_of x, bytes.new)) result ≡ number 8 bytes.old }
{
    let unit = bytes.u64()?;
    Some(UnitNo(unit))
}

#[tactic(auto, unfolding(rq_model::specs::Reading::kind_read))]
fn take_kind(bytes: &mut Cursor<'_>) -> Option<OpKind>
    ensures { option_map (λ x. (kind_of x, bytes.new)) result ≡ kind_read bytes.old }
{
    match bytes.u8()? {
        1 => Some(OpKind::Enqueue),
        2 => Some(OpKind::Dequeue),
        _ => None,
    }
}

fn id_from(n: u64) -> Option<ElemId>
    ensures { id_of result ≡ id_from n }
{
    if n == u64::MAX { None } else { Some(ElemId(n)) }
}

#[tactic(auto, unfolding(rq_model::specs::Reading::id_read))]
fn take_id(bytes: &mut Cursor<'_>) -> Option<Option<ElemId>>
    ensures { option_map (λ x. (id_of x, bytes.new)) result ≡ id_read bytes.old }
{
    let n = bytes.u64()?;
    Some(id_from(n))
}

#[tactic(auto, unfolding(rq_model::specs::Reading::operation_read))]
fn take_operation(kind: OpKind, bytes: &mut Cursor<'_>) -> Option<Last>
    ensures { option_map (λ x. (Some x, bytes.new)) result
        ≡ made (last_from (kind_of kind)) operation_read bytes.old }
{
    let place = bytes.u64()?;
    let tag = bytes.u64()?;
    let element = take_id(bytes)?;
    Some(Last {
        place,
        kind,
        tag,
        element,
    })
}

#[tactic(auto, unfolding(rq_model::specs::Reading::last_read))]
fn take_last(bytes: &mut Cursor<'_>) -> Option<Option<Last>>
    ensures { option_map (λ x. (x, bytes.new)) result ≡ last_read bytes.old }
{
    match bytes.u8()? {
        0 => Some(None),
        1 => {
            let last = take_operation(OpKind::Enqueue, bytes)?;
            Some(Some(last))
        }
        2 => {
            let last = take_operation(OpKind::Dequeue, bytes)?;
            Some(Some(last))
        }
        _ => None,
    }
}

#[tactic(auto, unfolding(rq_model::specs::Reading::registrant_read))]
fn take_registrant(bytes: &mut Cursor<'_>) -> Option<Registrant>
    ensures { option_map (λ x. (x, bytes.new)) result ≡ registrant_read bytes.old }
{
    let queue = bytes.u32()?;
    let name = take_name(bytes)?;
    let last = take_last(bytes)?;
    Some(Registrant {
        queue: QueueNo(queue),
        name,
        last,
    })
}

fn take_kept_registrant(alloc: Global, bytes: &mut Cursor<'_>) -> Result<KeptRegistrant, Fault>
    ensures { GivesFromCheckpoint (λ x. (x, bytes.new)) result (registrant_read bytes.old) }
{
    let registrant = take_registrant(bytes).ok_or(Fault::BadCheckpoint)?;
    let kept = KeptRegistrant::of(alloc, &registrant)?;
    Ok(kept)
}

#[tactic(auto, unfolding(rq_model::specs::Reading::mark_read))]
fn take_mark(bytes: &mut Cursor<'_>) -> Option<Mark>
    ensures { option_map (λ x. (mark_of x, bytes.new)) result ≡ mark_read bytes.old }
{
    match bytes.u8()? {
        0 => Some(Mark::Free),
        1 => {
            let unit = take_unit(bytes)?;
            Some(Mark::Fresh(unit))
        }
        2 => {
            let unit = take_unit(bytes)?;
            Some(Mark::Held(unit))
        }
        _ => None,
    }
}

/// The fields of an element, whose payload is not copied.
#[tactic(auto, unfolding(rq_model::specs::Reading::element_read))]
pub(crate) fn element_fields<'a>(
    bytes: &mut Cursor<'a>,
) -> Option<(u64, u32, u32, u8, u64, Mark, &'a [u8])>
    ensures fields { option_map (λ x. (
      element_from
          (x.0, (x.1, (x.2, (x.3, (x.4, (mark_of x.5, x.6.now)))))),
      bytes.new,
    )) result
        ≡ element_read bytes.old }
    ensures bounded { IfSome result (λ x. length x.6.now ≤ 65535) }
{
    let id = bytes.u64()?;
    let home = bytes.u32()?;
    let origin = bytes.u32()?;
    let priority = bytes.u8()?;
    let attempts = bytes.u64()?;
    let mark = take_mark(bytes)?;
    let payload = bytes.sized_u16()?;
    Some((id, home, origin, priority, attempts, mark, payload))
}

fn kept_payload(alloc: Global, bytes: &[u8]) -> Result<KeptPayload, Fault>
    requires { length bytes.now ≤ 65535 }
    ensures { GivesFromCheckpoint (λ x. x) result (Some bytes.now) }
{
    match KeptPayload::from_slice(alloc, bytes)? {
        Some(payload) => Ok(payload),
        None => Err(Fault::BadCheckpoint),
    }
}

pub(crate) fn take_element(alloc: Global, bytes: &mut Cursor<'_>) -> Result<KeptElement, Fault>
    ensures { GivesFromCheckpoint (λ x. (x, bytes.new)) result (element_read bytes.old) }
{
    let (id, home, origin, priority, attempts, mark, payload) = element_fields(bytes).ok_or(
        Fault::BadCheckpoint,
    )?;
    let payload = kept_payload(alloc, payload)?;
    Ok(KeptElement {
        id: ElemId(id),
        home: QueueNo(home),
        origin: QueueNo(origin),
        priority,
        attempts,
        payload,
        mark,
    })
}

#[tactic(auto, unfolding(rq_model::specs::Reading::note_read))]
pub(crate) fn take_note(bytes: &mut Cursor<'_>) -> Option<Note>
    ensures { option_map (λ x. (x, bytes.new)) result ≡ note_read bytes.old }
{
    let place = bytes.u64()?;
    let unit = bytes.u64()?;
    let queue = bytes.u32()?;
    let name = take_name(bytes)?;
    let kind = take_kind(bytes)?;
    let tag = bytes.u64()?;
    let element = take_id(bytes)?;
    Some(Note {
        unit: UnitNo(unit),
        queue: QueueNo(queue),
        name,
        last: Last {
            place,
            kind,
            tag,
            element,
        },
    })
}

/// A member of one of a state's lists, and how it is read.
pub(crate) trait Member: Drop {
    ghost read: { List ℕ → Option (Self × List ℕ) };

    /// The member at the front of the bytes.
    fn take(alloc: Global, bytes: &mut Cursor<'_>) -> Result<Self, Fault>
        ensures { GivesFromCheckpoint (λ x. (x, bytes.new)) result (read bytes.old) };

    /// Goes past a member, and takes no memory.
    fn pass(bytes: &mut Cursor<'_>) -> Option<()>
        ensures { option_map (λ done. (done, bytes.new)) result ≡ passed read bytes.old };
}

impl Member for Definition {
    ghost read = { definition_read };

    fn take(_alloc: Global, bytes: &mut Cursor<'_>) -> Result<Definition, Fault> {
        take_definition(bytes).ok_or(Fault::BadCheckpoint)
    }

    fn pass(bytes: &mut Cursor<'_>) -> Option<()> {
        let _member = take_definition(bytes)?;
        Some(())
    }
}

impl Member for KeptRegistrant {
    ghost read = { registrant_read };

    fn take(alloc: Global, bytes: &mut Cursor<'_>) -> Result<KeptRegistrant, Fault> {
        take_kept_registrant(alloc, bytes)
    }

    fn pass(bytes: &mut Cursor<'_>) -> Option<()> {
        let _member = take_registrant(bytes)?;
        Some(())
    }
}

impl Member for Note {
    ghost read = { note_read };

    fn take(_alloc: Global, bytes: &mut Cursor<'_>) -> Result<Note, Fault> {
        take_note(bytes).ok_or(Fault::BadCheckpoint)
    }

    fn pass(bytes: &mut Cursor<'_>) -> Option<()> {
        let _member = take_note(bytes)?;
        Some(())
    }
}

impl Member for KeptElement {
    ghost read = { element_read };

    fn take(alloc: Global, bytes: &mut Cursor<'_>) -> Result<KeptElement, Fault> {
        take_element(alloc, bytes)
    }

    fn pass(bytes: &mut Cursor<'_>) -> Option<()> {
        let _member = element_fields(bytes)?;
        Some(())
    }
}
