//! A record in 56 bytes: as a restart keeps it.

ghost use Rattle.std.specs.Prelude.{◌≡◌, IfOk, IfErr};
ghost use Rattle.rq_record.specs.declared.fault.Fault.TheVariants.{Resources};

use crate::fault::Fault;
use crate::kept_by::KeptBy;
use crate::kept_name::KeptName;
use crate::kept_payload::KeptPayload;
use crate::record::{Record, RecordOf};
use std::alloc::Global;

/// A record in 56 bytes; a `Record` takes more than twice as many. It says the same, so clauses
/// treat the two as one.
pub type KeptRecord = RecordOf<KeptName, KeptBy, KeptPayload>;

// A restart holds all records at once.
const _: () = prove!(std::mem::size_of::<KeptRecord>() <= 56);

impl KeptRecord {
    /// Keeps the record. `Resources` if memory runs out.
    pub fn of(alloc: Global, r: &Record) -> Result<KeptRecord, Fault>
        ensures kept { IfOk result (λ k. k ≡ r.now) }
        ensures refused { IfErr result (λ e. e ≡ Resources) }
    {
        Ok(match r {
            Record::Define { limit, error, name } => KeptRecord::Define {
                limit: *limit,
                error: *error,
                name: KeptName::of(alloc, name)?,
            },
            Record::Register { queue, name } => KeptRecord::Register {
                queue: *queue,
                name: KeptName::of(alloc, name)?,
            },
            Record::Deregister { queue, name } => KeptRecord::Deregister {
                queue: *queue,
                name: KeptName::of(alloc, name)?,
            },
            Record::Begin { unit } => KeptRecord::Begin { unit: *unit },
            Record::Enqueue {
                unit,
                queue,
                by,
                priority,
                payload,
            } => KeptRecord::Enqueue {
                unit: *unit,
                queue: *queue,
                by: KeptBy::of(alloc, by)?,
                priority: *priority,
                payload: KeptPayload::of(alloc, payload)?,
            },
            Record::Dequeue { unit, queue, by } => KeptRecord::Dequeue {
                unit: *unit,
                queue: *queue,
                by: KeptBy::of(alloc, by)?,
            },
            Record::Commit { unit } => KeptRecord::Commit { unit: *unit },
            Record::Abort { unit } => KeptRecord::Abort { unit: *unit },
            Record::Checkpoint { bytes } => KeptRecord::Checkpoint {
                bytes: bytes.copied(alloc)?,
            },
            Record::Kill { queue, element } => KeptRecord::Kill {
                queue: *queue,
                element: *element,
            },
        })
    }

    /// The record that is kept, as a caller takes it apart. `Resources` if memory runs out.
    pub fn record(self, alloc: Global) -> Result<Record, Fault>
        ensures same { IfOk result (λ r. r ≡ self) }
        ensures refused { IfErr result (λ e. e ≡ Resources) }
    {
        Ok(match self {
            KeptRecord::Define { limit, error, name } => Record::Define {
                limit,
                error,
                name: name.name(),
            },
            KeptRecord::Register { queue, name } => Record::Register {
                queue,
                name: name.name(),
            },
            KeptRecord::Deregister { queue, name } => Record::Deregister {
                queue,
                name: name.name(),
            },
            KeptRecord::Begin { unit } => Record::Begin { unit },
            KeptRecord::Enqueue {
                priority,
                queue,
                unit,
                by,
                payload,
            } => Record::Enqueue {
                priority,
                queue,
                unit,
                by: by.by(),
                payload: payload.payload(alloc)?,
            },
            KeptRecord::Dequeue { unit, queue, by } => Record::Dequeue {
                unit,
                queue,
                by: by.by(),
            },
            KeptRecord::Commit { unit } => Record::Commit { unit },
            KeptRecord::Abort { unit } => Record::Abort { unit },
            KeptRecord::Checkpoint { bytes } => Record::Checkpoint { bytes },
            KeptRecord::Kill { queue, element } => Record::Kill { queue, element },
        })
    }
}

/// Keeps the records, in their order. `Resources` if memory runs out.
pub fn kept_records(alloc: Global, records: &[Record]) -> Result<Vec<KeptRecord>, Fault>
    ensures kept { IfOk result (λ v. v.items ≡ records.now) }
    ensures refused { IfErr result (λ e. e ≡ Resources) }
{
    let mut kept = Vec::with_capacity(alloc, records.len())?;
    for r in records {
        kept.push(KeptRecord::of(alloc, r)?)?;
    }
    Ok(kept)
}
