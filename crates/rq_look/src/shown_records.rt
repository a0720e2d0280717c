//! A record that is shown, of the front of a log or behind it, and its frame.

ghost use Rattle.std.specs.Prelude.{◌≡◌, ◌≤◌, ◌+◌, ◌-◌, IfErr, IfOk, Some, None, length, min, option_map, take, drop};
ghost use Rattle.rq_model.specs.Frames.{HasHeader};
ghost use Rattle.rq_model.specs.Records as model;
ghost use Rattle.rq_record.specs.Views.{record_of, version_of};
ghost use Rattle.rq_record.specs.declared.fault.Fault.TheVariants.{Resources};
ghost use Rattle.rq_record.specs.declared.version.Version.TheVariants.{Two};
ghost use Rattle.rq_found.specs.Records.{unit_shown};
ghost use Rattle.rq_look.specs.Entries.{FindsRecord, entry_at, shown_entry, registrant_named};
ghost use Rattle.rq_look.specs.Scripts.{by_in};

use rq_found::{Numbered, Placed, queue_named, unit_of};
use rq_front::{FRAME_LEN, Span, version};
use rq_record::{By, Fault, KeptRecord, QueueNo, Version, decode_kept};
use std::alloc::Global;

/// A record that is shown. Behind the front its number is not known, nor that of a queue that it
/// defines.
#[derive(Clone, Copy)]
pub(crate) struct ShownRecord<'a> {
    /// The offset of its frame in the log.
    pub(crate) offset: u64,
    /// Its number, from 0.
    pub(crate) number: Option<u64>,
    /// The queue that it defines or names.
    pub(crate) queue: Option<QueueNo>,
    /// The record.
    pub(crate) record: &'a KeptRecord,
}

impl<'a> ShownRecord<'a> {
    /// One of the front.
    pub(crate) fn of(it: &'a Numbered) -> ShownRecord<'a> {
        ShownRecord {
            offset: it.offset,
            number: Some(it.number),
            queue: it.queue(),
            record: &it.record,
        }
    }
}

/// The number of the unit that a record names.
pub(crate) fn unit_number(r: &KeptRecord) -> Option<u64>
    ensures { result ≡ unit_shown (record_of r.now) }
{
    match unit_of(r) {
        Some(unit) => Some(unit.0),
        None => None,
    }
}

/// The registrant that an operation names.
pub(crate) fn by_of(r: &KeptRecord) -> Option<By>
    ensures { result ≡ by_in (record_of r.now) }
{
    match r {
        KeptRecord::Enqueue { by, .. } | KeptRecord::Dequeue { by, .. } => by.by(),
        _ => None,
    }
}

/// The registrant that a record names.
pub(crate) fn registrant_of(r: &KeptRecord) -> Option<&str>
    ensures { option_map (λ name. name.now) result ≡ registrant_named (record_of r.now) }
{
    match r {
        KeptRecord::Register { name, .. } | KeptRecord::Deregister { name, .. } => Some(
            name.text(),
        ),
        KeptRecord::Enqueue { by, .. } | KeptRecord::Dequeue { by, .. } => match by.name() {
            Some(name) => Some(name.text()),
            None => None,
        },
        _ => None,
    }
}

/// A frame that is shown.
#[derive(Clone, Copy)]
pub(crate) struct ShownFrame<'a> {
    /// In which version its body is read.
    pub(crate) version: Version,
    /// Its offset in the log.
    pub(crate) offset: u64,
    /// Its body.
    pub(crate) body: &'a [u8],
    /// The number of its record, and how many queues are defined before it; none behind the front,
    /// where neither is known.
    pub(crate) place: Option<(u64, u32)>,
}

impl<'a> ShownFrame<'a> {
    /// One of the front, which stands at an offset, and before which so many queues are defined. What
    /// has a record in version 1 has it in version 2 too.
    pub(crate) fn of(placed: Placed<'a>, offset: u64, queues: u32) -> ShownFrame<'a>
        ensures version { result.version ≡ Two }
        ensures offset { result.offset ≡ offset }
        ensures body { result.body.now ≡ placed.entry.body.now }
        ensures place { result.place ≡ Some (placed.entry.number, queues) }
    {
        ShownFrame {
            version: Version::Two,
            offset,
            body: placed.body,
            place: Some((placed.number, queues)),
        }
    }

    /// The offset behind it.
    pub(crate) fn end(&self) -> u64
        ensures { result
            ≡ min (self.now.offset + (36 + length self.now.body.now)) 18446744073709551615 }
    {
        let count = FRAME_LEN.saturating_add(self.body.len());
        self.offset.saturating_add(count as u64)
    }

    /// The one at a span behind the front.
    pub(crate) fn behind(bytes: &'a [u8], span: Span) -> ShownFrame<'a>
        ensures version { (v : model.Version) → HasHeader v bytes.now → version_of result.version ≡ v }
        ensures offset { result.offset ≡ span.start - 4 }
        ensures body { span.start + span.len ≤ length bytes.now
            → result.body.now ≡ take span.len (drop span.start bytes.now) }
        ensures place { result.place ≡ None }
    {
        let body = match bytes.get(span.start..span.start.saturating_add(span.len)) {
            Some(body) => body,
            None => &[],
        };
        ShownFrame {
            version: version(bytes).unwrap_or(Version::Two),
            offset: span.offset() as u64,
            body,
            place: None,
        }
    }

    /// The record that the body spells; none if it spells none.
    pub(crate) fn record(&self, alloc: Global) -> Result<Option<KeptRecord>, Fault>
        ensures record { IfOk result (FindsRecord (version_of self.now.version) self.now.body.now) }
        ensures refused { IfErr result (λ e. e ≡ Resources) }
    {
        match decode_kept(alloc, self.version, self.body) {
            Ok(record) => Ok(Some(record)),
            Err(Fault::Form) => Ok(None),
            Err(_) => Err(Fault::Resources),
        }
    }

    /// Its record as it is shown.
    pub(crate) fn shown<'b>(&self, r: &'b KeptRecord) -> ShownRecord<'b>
        ensures { shown_entry result ≡ entry_at self.now.offset self.now.place (record_of r.now) }
    {
        ShownRecord {
            offset: self.offset,
            number: self.place.map(|place| place.0),
            queue: match (r, self.place) {
                (KeptRecord::Define { .. }, Some((_, queues))) => Some(QueueNo(queues)),
                _ => queue_named(r),
            },
            record: r,
        }
    }
}
