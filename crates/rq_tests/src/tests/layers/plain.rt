//! Records as plain data. While a record of a table is made, no other record of the table is alive.
//! So a table is cheap to prove; a list of records, each of which may be refused memory, is dear.

use rq_record::{By, CheckBytes, ElemId, Name, Payload, QueueNo, Record, UnitNo};
use std::alloc::Global;
use std::test::Fail;

/// Whose an operation is: a registrant's, by its name and a tag, or nobody's.
pub type Who = Option<(&'static str, u64)>;

/// A record by its numbers and names. What is enqueued has priority 5 and 41 bytes.
#[derive(Drop)]
pub enum Plain {
    Define(u16, u32, &'static str),
    Register(u32, &'static str),
    Deregister(u32, &'static str),
    Begin(u64),
    Enqueue(u64, u32, Who),
    Dequeue(u64, u32, Who),
    Commit(u64),
    Abort(u64),
    Checkpoint,
    Kill(u32, u64),
}

const PAYLOAD: &[u8] = b"a payload that is longer than a short one";

/// The number that means no queue.
pub const NO_QUEUE: u32 = u32::MAX;

/// A name by its text.
pub fn named(name: &str) -> Result<Name, Fail> {
    Ok(Name::new(name.as_bytes()).ok_or("name")?)
}

fn by(who: Who) -> Result<Option<By>, Fail> {
    match who {
        Some((name, tag)) => {
            let name = named(name)?;
            Ok(Some(By { name, tag }))
        }
        None => Ok(None),
    }
}

fn enqueue(alloc: Global, unit: u64, queue: u32, who: Who) -> Result<Record, Fail> {
    let by = by(who)?;
    let payload = Payload::new(Vec::from_slice(alloc, PAYLOAD)?).ok_or("payload")?;
    let (unit, queue) = (UnitNo(unit), QueueNo(queue));
    Ok(Record::Enqueue {
        unit,
        queue,
        priority: 5,
        by,
        payload,
    })
}

/// The record of these numbers and names.
pub fn record_of(alloc: Global, plain: &Plain) -> Result<Record, Fail> {
    match *plain {
        Plain::Define(limit, error, name) => {
            let (error, name) = (QueueNo(error), named(name)?);
            Ok(Record::Define { limit, error, name })
        }
        Plain::Register(queue, name) => {
            let (queue, name) = (QueueNo(queue), named(name)?);
            Ok(Record::Register { queue, name })
        }
        Plain::Deregister(queue, name) => {
            let (queue, name) = (QueueNo(queue), named(name)?);
            Ok(Record::Deregister { queue, name })
        }
        Plain::Begin(unit) => Ok(Record::Begin { unit: UnitNo(unit) }),
        Plain::Enqueue(unit, queue, who) => enqueue(alloc, unit, queue, who),
        Plain::Dequeue(unit, queue, who) => {
            let (unit, queue, by) = (UnitNo(unit), QueueNo(queue), by(who)?);
            Ok(Record::Dequeue { unit, queue, by })
        }
        Plain::Commit(unit) => Ok(Record::Commit { unit: UnitNo(unit) }),
        Plain::Abort(unit) => Ok(Record::Abort { unit: UnitNo(unit) }),
        Plain::Checkpoint => {
            let bytes = CheckBytes::new(Vec::new(alloc)).ok_or("bytes")?;
            Ok(Record::Checkpoint { bytes })
        }
        Plain::Kill(queue, element) => {
            let (queue, element) = (QueueNo(queue), ElemId(element));
            Ok(Record::Kill { queue, element })
        }
    }
}

/// The records of a table.
pub fn records_of(alloc: Global, table: &[Plain]) -> Result<Vec<Record>, Fail> {
    let mut records = Vec::new(alloc);
    for plain in table {
        records.push(record_of(alloc, plain)?)?;
    }
    Ok(records)
}
