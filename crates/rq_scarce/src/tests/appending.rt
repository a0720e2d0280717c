//! What appends to a vector: all of it, or the vector is as before.

use super::{Call, is_right};
use rq_front::{Framer, frame, header};
use rq_record::{Payload, QueueNo, Record, UnitNo, Version, encode};
use rq_tool::Fault;
use std::alloc::Global;
use std::test::Fail;
use std::thread::Threads;

/// What is appended.
#[derive(Clone, Copy, Debug)]
pub enum What {
    Header,
    Frame,
    Framed,
    Body,
}

/// The header, a frame, that of a framer, or the record's body.
#[derive(Drop)]
pub struct Appending {
    what: What,
    record: Record,
}

impl Appending {
    pub fn call(&self, lent: &mut Vec<u8>) -> Result<(), Fault> {
        match self.what {
            What::Header => header(lent),
            What::Frame => frame(&[7; 32], &[5; 600], lent),
            What::Framed => Framer::new(Version::One).put(&[5; 600], lent),
            What::Body => encode(&self.record, lent),
        }
    }
}

// An ENQUEUE with 500 bytes.
fn long_record(alloc: Global) -> Result<Record, Fail> {
    let payload = Vec::from_slice(alloc, &[0x61; 500])?;
    Ok(Record::Enqueue {
        unit: UnitNo(1),
        queue: QueueNo(0),
        priority: 5,
        by: None,
        payload: Payload::new(payload).ok_or("payload")?,
    })
}

// What stands in the vector before, which is full.
const BEFORE: &[u8] = b"RQL";

// Whether this many bytes are appended, however little memory there is, or none.
fn appends<R: Threads + Sync + AllocGlobal>(
    rt: &R,
    what: What,
    bytes: usize,
) -> Result<bool, Fail> {
    let record = long_record(rt.alloc())?;
    let appending = Appending { what, record };
    let mut want = Vec::from_slice(rt.alloc(), BEFORE)?;
    appending.call(&mut want)?;
    let more = want.len().saturating_sub(BEFORE.len());
    Ok(more == bytes && is_right(rt, &mut Call::Append(appending), BEFORE, &want)?)
}

#[test]
fn bytes_are_appended_or_refused(rt: HostRuntime) -> Result<(), Fail> {
    for (what, bytes) in [
        (What::Header, 40),
        (What::Frame, 636),
        (What::Framed, 636),
        (What::Body, 523),
    ] {
        assert!(rt; appends(&rt, what, bytes)?, "{what:?}");
    }
    Ok(())
}
