//! From a record to bytes.

ghost use Rattle.std.specs.Prelude.{◌<◌, ◌^◌, ◌∷◌, ◌++◌, IsTrue, OnOk};
ghost use Rattle.std.specs.Int.{w32, w64, to_be_bytes};
ghost use Rattle.rq_model.specs.Records as model;
ghost use Rattle.rq_model.specs.Records.{Version, Two};
ghost use Rattle.rq_model.specs.Spelling.{who, IsWho, body_of, is_name, IsRecord, Spells};
ghost use Rattle.rq_record.specs.Views.{record_of};
ghost use Rattle.rq_record.specs.Writing.{Puts, Appends, HasKind};

use crate::fault::Fault;
use crate::name::Name;
use crate::payload::Payload;
use crate::record::{By, QueueNo, Record, UnitNo};
use rq_bytes::{put, put_u8, put_u16, put_u32, put_u64};

fn put_who(out: &mut Vec<u8>, by: &Option<By>) -> Result<(), Fault>
    ensures bytes { Puts out.old.items out.new.items (who by.now) result }
    ensures fits { OnOk result (IsWho by.now) }
{
    match by {
        None => {
            put_u8(out, 0)?;
            put_u64(out, 0)?;
        }
        Some(by) => {
            let name = by.name.bytes();
            put_u8(out, name.len() as u8)?;
            put(out, name)?;
            put_u64(out, by.tag)?;
        }
    }
    Ok(())
}

// Puts the body of a record of a kind that names a queue and a registrant.
fn put_registration(out: &mut Vec<u8>, kind: u8, queue: QueueNo, name: &Name) -> Result<(), Fault>
    ensures bytes { Puts out.old.items out.new.items
        (kind ∷ (to_be_bytes w32 queue.0 ++ name.now)) result }
    ensures fits { OnOk result ((queue.0 < 2 ^ 32) × IsTrue (is_name name.now)) }
{
    put_u8(out, kind)?;
    put_u32(out, queue.0)?;
    put(out, name.bytes())?;
    Ok(())
}

// Puts the body of a record of a kind that names a unit alone.
fn put_unit(out: &mut Vec<u8>, kind: u8, unit: UnitNo) -> Result<(), Fault>
    ensures bytes { Puts out.old.items out.new.items (kind ∷ to_be_bytes w64 unit.0) result }
    ensures fits { OnOk result (unit.0 < 2 ^ 64) }
{
    put_u8(out, kind)?;
    put_u64(out, unit.0)?;
    Ok(())
}

fn put_enqueue(
    out: &mut Vec<u8>,
    unit: UnitNo,
    queue: QueueNo,
    priority: u8,
    by: &Option<By>,
    payload: &Payload,
) -> Result<(), Fault>
    ensures bytes { Puts out.old.items out.new.items
        (body_of (model.Enqueue unit.0 queue.0 priority by.now payload.now)) result }
    ensures fits { OnOk result
        (IsRecord Two (model.Enqueue unit.0 queue.0 priority by.now payload.now)) }
{
    put_u8(out, 5)?;
    put_u64(out, unit.0)?;
    put_u32(out, queue.0)?;
    put_u8(out, priority)?;
    put_who(out, by)?;
    put(out, payload.bytes())?;
    Ok(())
}

fn put_dequeue(
    out: &mut Vec<u8>,
    unit: UnitNo,
    queue: QueueNo,
    by: &Option<By>,
) -> Result<(), Fault>
    ensures bytes { Puts out.old.items out.new.items
        (body_of (model.Dequeue unit.0 queue.0 by.now)) result }
    ensures fits { OnOk result (IsRecord Two (model.Dequeue unit.0 queue.0 by.now)) }
{
    put_u8(out, 6)?;
    put_u64(out, unit.0)?;
    put_u32(out, queue.0)?;
    put_who(out, by)?;
    Ok(())
}

fn put_body(out: &mut Vec<u8>, r: &Record) -> Result<(), Fault>
    ensures bytes { Puts out.old.items out.new.items (body_of (record_of r.now)) result }
    ensures fits { OnOk result (IsRecord Two (record_of r.now)) }
{
    match r {
        Record::Define { limit, error, name } => {
            put_u8(out, 1)?;
            put_u16(out, *limit)?;
            put_u32(out, error.0)?;
            put(out, name.bytes())?;
            Ok(())
        }
        Record::Register { queue, name } => put_registration(out, 2, *queue, name),
        Record::Deregister { queue, name } => put_registration(out, 3, *queue, name),
        Record::Begin { unit } => put_unit(out, 4, *unit),
        Record::Enqueue {
            priority,
            queue,
            unit,
            by,
            payload,
        } => put_enqueue(out, *unit, *queue, *priority, by, payload),
        Record::Dequeue { unit, queue, by } => put_dequeue(out, *unit, *queue, by),
        Record::Commit { unit } => put_unit(out, 7, *unit),
        Record::Abort { unit } => put_unit(out, 8, *unit),
        Record::Checkpoint { bytes } => {
            put_u8(out, 9)?;
            put(out, bytes.bytes())?;
            Ok(())
        }
        Record::Kill { queue, element } => {
            put_u8(out, 10)?;
            put_u32(out, queue.0)?;
            put_u64(out, element.0)?;
            Ok(())
        }
    }
}

/// Appends the one body of the record. It is the same in every version that has this kind.
///
/// `Resources` is returned if memory runs out; `out` is then as before.
pub fn encode(r: &Record, out: &mut Vec<u8>) -> Result<(), Fault>
    ensures bytes { Appends out.old.items out.new.items (body_of (record_of r.now)) result }
    ensures spelled { OnOk result ((version : Version) → HasKind version (record_of r.now)
        → Spells version (record_of r.now) (body_of (record_of r.now))) }
{
    let before = out.len();
    match put_body(out, r) {
        Ok(()) => Ok(()),
        Err(fault) => {
            out.truncate(before);
            Err(fault)
        }
    }
}
