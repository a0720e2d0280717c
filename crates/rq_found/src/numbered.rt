//! Records with their places and the queues that they are about.

ghost use Rattle.std.specs.Prelude.{◌≡◌, length, min, IfOk, IfErr, option_map};
ghost use Rattle.rq_model.specs.Records.{Two};
ghost use Rattle.rq_model.specs.Spelling.{Spells};
ghost use Rattle.rq_record.specs.Views.{record_of};
ghost use Rattle.rq_record.specs.declared.fault.Fault.TheVariants.{Resources};
ghost use Rattle.rq_found.specs.Records as records;
ghost use Rattle.rq_found.specs.Records.{kind_word, queue_about, queue_shown, unit_shown};

use crate::frames::Placed;
use rq_record::{Fault, KeptRecord, QueueNo, UnitNo, Version, decode_kept};
use rq_state::Definition;
use std::alloc::Global;

/// A record of the front, with the offset of its frame, its number, and how many queues are defined
/// before it.
#[derive(Drop)]
pub struct Numbered {
    /// The offset of its frame in the log.
    pub offset: u64,
    /// Its number, from 0.
    pub number: u64,
    /// How many queues are defined before it.
    pub queues: u32,
    /// The record.
    pub record: KeptRecord,
}

impl Numbered {
    /// The record that the body spells. What has a record in version 1 has it in version 2 too.
    pub fn of(alloc: Global, placed: Placed<'_>, queues: u32) -> Result<Numbered, Fault>
        ensures spelled { IfOk result
            (λ it. Spells Two (record_of it.record) placed.entry.body.now) }
        ensures offset { IfOk result (λ it. it.offset ≡ placed.entry.offset) }
        ensures number { IfOk result (λ it. it.number ≡ placed.entry.number) }
        ensures queues { IfOk result (λ it. it.queues ≡ queues) }
        ensures refused { IfErr result (λ e. e ≡ Resources) }
    {
        // Each body of a front is a record, so memory alone is refused.
        let Ok(record) = decode_kept(alloc, Version::Two, placed.body) else {
            return Err(Fault::Resources);
        };
        Ok(Numbered {
            offset: placed.offset,
            number: placed.number,
            queues,
            record,
        })
    }

    /// The queue that it defines or names.
    pub fn queue(&self) -> Option<QueueNo>
        ensures { option_map (λ queue. queue.0) result
            ≡ queue_about self.now.queues (record_of self.now.record) }
    {
        match &self.record {
            KeptRecord::Define { .. } => Some(QueueNo(self.queues)),
            record => queue_named(record),
        }
    }
}

/// The queue that a record names: none of one that defines a queue.
pub fn queue_named(r: &KeptRecord) -> Option<QueueNo>
    ensures { option_map (λ queue. queue.0) result ≡ queue_shown (record_of r.now) }
{
    match r {
        KeptRecord::Register { queue, .. }
        | KeptRecord::Deregister { queue, .. }
        | KeptRecord::Enqueue { queue, .. }
        | KeptRecord::Dequeue { queue, .. }
        | KeptRecord::Kill { queue, .. } => Some(*queue),
        _ => None,
    }
}

/// How many queues these define.
pub fn queues_of(definitions: &[Definition]) -> u32
    ensures { result ≡ min (length definitions.now) 4294967295 }
{
    definitions.len().min(u32::MAX as usize) as u32
}

/// The unit that a record names.
pub fn unit_of(r: &KeptRecord) -> Option<UnitNo>
    ensures { option_map (λ unit. unit.0) result ≡ unit_shown (record_of r.now) }
{
    match r {
        KeptRecord::Begin { unit }
        | KeptRecord::Commit { unit }
        | KeptRecord::Abort { unit }
        | KeptRecord::Enqueue { unit, .. }
        | KeptRecord::Dequeue { unit, .. } => Some(*unit),
        _ => None,
    }
}

/// The word for a kind of record.
pub fn kind_of(r: &KeptRecord) -> &'static str
    ensures { result.now ≡ kind_word (record_of r.now) }
{
    match r {
        KeptRecord::Define { .. } => "define",
        KeptRecord::Register { .. } => "register",
        KeptRecord::Deregister { .. } => "deregister",
        KeptRecord::Begin { .. } => "begin",
        KeptRecord::Enqueue { .. } => "enqueue",
        KeptRecord::Dequeue { .. } => "dequeue",
        KeptRecord::Commit { .. } => "commit",
        KeptRecord::Abort { .. } => "abort",
        KeptRecord::Checkpoint { .. } => "checkpoint",
        KeptRecord::Kill { .. } => "kill",
    }
}
