//! From bytes to a record. The function for each kind returns the record or its fault in one
//! `Result`. If the bytes spell none, the fault is `Form`, which is found before memory is asked
//! for. Functions that read a part and take no memory return an `Option`.

ghost use Rattle.std.specs.Prelude.{◌≡◌, ◌+◌, ◌≤◌, [], length, slice_range, option_map};
ghost use Rattle.rq_bytes.specs.Readers.{made};
ghost use Rattle.rq_model.specs.Records.{One};
ghost use Rattle.rq_model.specs.Reading.{name_left, who_read, define_from, define_read};
ghost use Rattle.rq_model.specs.Reading.{registration_read, unit_read, enqueue_from};
ghost use Rattle.rq_model.specs.Reading.{enqueue_read, dequeue_from, dequeue_read, kill_from};
ghost use Rattle.rq_model.specs.Reading.{kill_read, record_behind, record_read};
ghost use Rattle.rq_record.specs.LogParts.{EndsAt, IsLeftTo};
ghost use Rattle.rq_record.specs.Reading.{KeepsRead, Decodes};
ghost use Rattle.rq_record.specs.Views.{record_of, version_of};

use crate::check_bytes::CheckBytes;
use crate::fault::Fault;
use crate::kept_by::KeptBy;
use crate::kept_name::KeptName;
use crate::kept_payload::KeptPayload;
use crate::kept_record::KeptRecord;
use crate::log_bytes::{LogBytes, LogEnd};
use crate::name::is_name_bytes;
use crate::record::{ElemId, LentBy, QueueNo, Record, UnitNo};
use crate::version::Version;
use rq_bytes::Cursor;
use std::alloc::Global;

#[tactic(auto, unfolding(rq_model::specs::Reading::name_left))]
fn name_left(alloc: Global, bytes: Cursor<'_>) -> Result<KeptName, Fault>
    ensures { KeepsRead (λ n. n) result (name_left bytes.entry) }
{
    let name = bytes.rest();
    if is_name_bytes(name) {
        KeptName::of_checked(alloc, name)
    } else {
        Err(Fault::Form)
    }
}

#[tactic(auto, unfolding(rq_model::specs::Reading::who_read))]
fn who<'a>(bytes: &mut Cursor<'a>) -> Option<Option<LentBy<'a>>>
    ensures { option_map (λ x. (x, bytes.new)) result ≡ who_read bytes.old }
{
    match bytes.u8()? {
        0 => {
            let tag = bytes.u64()?;
            if tag == 0 { Some(None) } else { None }
        }
        size => {
            let name = bytes.piece(size as usize)?;
            if !is_name_bytes(name) {
                return None;
            }
            let tag = bytes.u64()?;
            Some(Some(LentBy { name, tag }))
        }
    }
}

#[tactic(auto, unfolding(rq_model::specs::Reading::define_read))]
fn define(alloc: Global, mut bytes: Cursor<'_>) -> Result<KeptRecord, Fault>
    ensures { KeepsRead record_of result (made define_from define_read bytes.entry) }
{
    let limit = bytes.u16().ok_or(Fault::Form)?;
    let error = bytes.u32().ok_or(Fault::Form)?;
    let name = name_left(alloc, bytes)?;
    Ok(KeptRecord::Define {
        limit,
        error: QueueNo(error),
        name,
    })
}

#[tactic(auto, unfolding(rq_model::specs::Reading::registration_read))]
fn registration(alloc: Global, mut bytes: Cursor<'_>) -> Result<(QueueNo, KeptName), Fault>
    ensures { KeepsRead (λ r. (r.0.0, r.1)) result (registration_read bytes.entry) }
{
    let queue = bytes.u32().ok_or(Fault::Form)?;
    let name = name_left(alloc, bytes)?;
    Ok((QueueNo(queue), name))
}

#[tactic(auto, unfolding(rq_model::specs::Reading::unit_read))]
fn unit(mut bytes: Cursor<'_>) -> Option<UnitNo>
    ensures { option_map (λ u. (u.0, [])) result ≡ unit_read bytes.entry }
{
    let unit = bytes.u64()?;
    bytes.end()?;
    Some(UnitNo(unit))
}

#[tactic(auto, unfolding(rq_model::specs::Reading::enqueue_read))]
fn enqueue(alloc: Global, at: &LogEnd<'_>, mut bytes: Cursor<'_>) -> Result<KeptRecord, Fault>
    requires { IsLeftTo at.now.log.now at.now.end bytes }
    ensures { KeepsRead record_of result (made enqueue_from enqueue_read bytes.entry) }
{
    let unit = bytes.u64().ok_or(Fault::Form)?;
    let queue = bytes.u32().ok_or(Fault::Form)?;
    let priority = bytes.u8().ok_or(Fault::Form)?;
    let by = who(&mut bytes).ok_or(Fault::Form)?;
    let payload = KeptPayload::before(alloc, at, bytes.rest())?;
    Ok(KeptRecord::Enqueue {
        priority,
        queue: QueueNo(queue),
        unit: UnitNo(unit),
        by: KeptBy::of_lent(alloc, by)?,
        payload,
    })
}

#[tactic(auto, unfolding(rq_model::specs::Reading::dequeue_read))]
fn dequeue(alloc: Global, mut bytes: Cursor<'_>) -> Result<KeptRecord, Fault>
    ensures { KeepsRead record_of result (made dequeue_from dequeue_read bytes.entry) }
{
    let unit = bytes.u64().ok_or(Fault::Form)?;
    let queue = bytes.u32().ok_or(Fault::Form)?;
    let by = who(&mut bytes).ok_or(Fault::Form)?;
    bytes.end().ok_or(Fault::Form)?;
    Ok(KeptRecord::Dequeue {
        unit: UnitNo(unit),
        queue: QueueNo(queue),
        by: KeptBy::of_lent(alloc, by)?,
    })
}

#[tactic(auto, unfolding(rq_model::specs::Reading::kill_read))]
fn kill(version: Version, mut bytes: Cursor<'_>) -> Result<KeptRecord, Fault>
    ensures { KeepsRead record_of result
        (made kill_from (kill_read (version_of version)) bytes.entry) }
{
    if version == Version::One {
        return Err(Fault::Form);
    }
    let queue = bytes.u32().ok_or(Fault::Form)?;
    let element = bytes.u64().ok_or(Fault::Form)?;
    bytes.end().ok_or(Fault::Form)?;
    Ok(KeptRecord::Kill {
        queue: QueueNo(queue),
        element: ElemId(element),
    })
}

#[tactic(auto, unfolding(rq_model::specs::Reading::record_behind, rq_model::specs::Reading::checkpoint_read,))]
fn of_kind(
    alloc: Global,
    version: Version,
    at: &LogEnd<'_>,
    kind: u8,
    bytes: Cursor<'_>,
) -> Result<KeptRecord, Fault>
    requires { IsLeftTo at.now.log.now at.now.end bytes }
    ensures { KeepsRead record_of result (record_behind (version_of version) kind bytes.entry) }
{
    match kind {
        1 => define(alloc, bytes),
        2 => {
            let (queue, name) = registration(alloc, bytes)?;
            Ok(KeptRecord::Register { queue, name })
        }
        3 => {
            let (queue, name) = registration(alloc, bytes)?;
            Ok(KeptRecord::Deregister { queue, name })
        }
        4 => Ok(KeptRecord::Begin {
            unit: unit(bytes).ok_or(Fault::Form)?,
        }),
        5 => enqueue(alloc, at, bytes),
        6 => dequeue(alloc, bytes),
        7 => Ok(KeptRecord::Commit {
            unit: unit(bytes).ok_or(Fault::Form)?,
        }),
        8 => Ok(KeptRecord::Abort {
            unit: unit(bytes).ok_or(Fault::Form)?,
        }),
        9 => Ok(KeptRecord::Checkpoint {
            bytes: CheckBytes::before(alloc, at, bytes.rest())?,
        }),
        10 => kill(version, bytes),
        _ => Err(Fault::Form),
    }
}

#[tactic(auto, unfolding(rq_model::specs::Reading::record_read))]
fn read(alloc: Global, version: Version, at: &LogEnd<'_>, body: &[u8]) -> Result<KeptRecord, Fault>
    requires { EndsAt at.now.log.now at.now.end body.now }
    ensures { KeepsRead record_of result (record_read (version_of version) body.now) }
{
    let mut bytes = Cursor::new(body);
    let kind = bytes.u8().ok_or(Fault::Form)?;
    of_kind(alloc, version, at, kind, bytes)
}

// The record that a body of this version spells, which ends at an end in a log.
fn decode_before(
    alloc: Global,
    version: Version,
    at: &LogEnd<'_>,
    body: &[u8],
) -> Result<KeptRecord, Fault>
    requires { EndsAt at.now.log.now at.now.end body.now }
    ensures decodes { Decodes (version_of version) body.now result }
{
    read(alloc, version, at, body)
}

/// The record that `len` bytes of a log from `start` on spell, kept: `decode_kept` of that body.
///
/// If the log is shared, a checkpoint, or a payload of more than 22 bytes, is a part of it and no
/// copy.
pub fn decode_at(
    alloc: Global,
    version: Version,
    bytes: &LogBytes<'_>,
    start: usize,
    len: usize,
) -> Result<KeptRecord, Fault>
    requires inside { start + len ≤ length bytes.now }
    ensures decodes { Decodes (version_of version)
        (slice_range bytes.now start (start + len)) result }
{
    let whole = bytes.as_slice();
    let end = start + len;
    let at = LogEnd { log: bytes, end };
    decode_before(alloc, version, &at, &whole[start..end])
}

/// The record that a body of this version spells, kept.
///
/// `Form` is returned exactly if the body spells none; this is found before memory is asked for.
/// `Resources` is returned if the body spells one whose names or bytes could not be kept.
pub fn decode_kept(alloc: Global, version: Version, body: &[u8]) -> Result<KeptRecord, Fault>
    ensures decodes { Decodes (version_of version) body.now result }
{
    let log = LogBytes::borrowed(body);
    let end = body.len();
    decode_before(alloc, version, &LogEnd { log: &log, end }, body)
}

/// The record that a body of this version spells. Refused as `decode_kept` is.
pub fn decode_in(alloc: Global, version: Version, body: &[u8]) -> Result<Record, Fault>
    ensures decodes { Decodes (version_of version) body.now result }
{
    decode_kept(alloc, version, body)?.record(alloc)
}

/// The record that a body of version 1 spells: `decode_in` of that version.
pub fn decode(alloc: Global, body: &[u8]) -> Result<Record, Fault>
    ensures decodes { Decodes One body.now result }
{
    decode_in(alloc, Version::One, body)
}
