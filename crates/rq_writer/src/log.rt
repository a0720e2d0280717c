//! The log that is being made.

ghost use Rattle.std.specs.Prelude.{◌≡◌, ◌+◌, ◌≤◌, ◌-◌, List, length, drop};
ghost use Rattle.rq_model.specs.Records as model;
ghost use Rattle.rq_record.specs.Views.{record_of, version_of};
ghost use Rattle.rq_writer.specs.Fronts.{IsFrontAfter, AreLogged};
ghost use Rattle.rq_writer.specs.Making.{HoldsRecords, RecordOf, Framed, LineMade, Starts};

use crate::front::MadeFront;
use crate::readers::ScriptLine;
use rq_front::{FRAME_LEN, LOG_LIMIT, frame, header_of};
use rq_plan::Plan;
use rq_record::{Fault, Record, Version, encode};
use std::alloc::Global;
use std::thread::Threads;

/// The log of the lines so far, its last 32 bytes, and its front.
#[derive(Drop)]
pub(crate) struct Log {
    pub(crate) out: Vec<u8>,
    last: [u8; 32],
    front: MadeFront,
}

// The record that a line adds. `Script` if the text is no line.
fn record_at<R: Threads + Sync>(
    rt: &R,
    alloc: Global,
    front: &mut MadeFront,
    version: Version,
    plan: &Plan,
    number: u64,
    text: &[u8],
) -> Result<Record, Fault>
    requires { (rs : List model.Record) × IsFrontAfter (version_of version) front.old rs
        × AreLogged (version_of version) rs }
    ensures { RecordOf (version_of version) number text.now front.old front.new result }
{
    match ScriptLine::of(alloc, version, text) {
        Ok(ScriptLine::Told(r)) => Ok(r),
        Ok(ScriptLine::Spelled) => front.spelled(rt, alloc, version, plan),
        Err(Fault::Form) => Err(Fault::Script(number)),
        Err(fault) => Err(fault),
    }
}

fn last_32(bytes: &[u8]) -> [u8; 32]
    requires { 32 ≤ length bytes.now }
    ensures { result ≡ drop (length bytes.now - 32) bytes.now }
{
    let mut kept = [0; 32];
    kept.copy_from_slice(&bytes[bytes.len() - 32..]);
    kept
}

fn framed_len(out: &[u8], body: &[u8]) -> usize
    requires out { length out.now ≤ 4294967295 }
    requires body { length body.now ≤ 268435456 }
    ensures { result ≡ length out.now + length body.now + 36 }
{
    out.len() + body.len() + FRAME_LEN
}

// Appends the frame of a record. `TooLong` if the log would pass 4,294,967,295 bytes.
fn append(alloc: Global, out: &mut Vec<u8>, last: &[u8; 32], r: &Record) -> Result<(), Fault>
    requires { length out.old.items ≤ 4294967295 }
    ensures { Framed out.old.items out.new.items last.now (record_of r.now) result }
{
    rq_model::one_spelling();
    let mut body = Vec::new(alloc);
    encode(r, &mut body)?;
    if framed_len(out, &body) > LOG_LIMIT {
        return Err(Fault::TooLong);
    }
    frame(last, &body, out)
}

impl Log {
    /// The log without records: a header.
    pub(crate) fn start(alloc: Global, version: Version) -> Result<Log, Fault>
        ensures { Starts (version_of version) result }
    {
        rq_model::frames_join();
        let mut out = Vec::new(alloc);
        header_of(version, &mut out)?;
        let last = last_32(&out);
        let front = MadeFront::start(alloc);
        Ok(Log { out, last, front })
    }

    /// Adds the record of the next line.
    pub(crate) fn add_line<R: Threads + Sync>(
        &mut self,
        rt: &R,
        alloc: Global,
        version: Version,
        plan: &Plan,
        number: u64,
        text: &[u8],
    ) -> Result<(), Fault>
        requires { (rs : List model.Record) × HoldsRecords (version_of version) self.old rs }
        ensures { LineMade (version_of version) number text.now self.old self.new result }
    {
        rq_model::frames_join();
        let r = record_at(rt, alloc, &mut self.front, version, plan, number, text)?;
        append(alloc, &mut self.out, &self.last, &r)?;
        self.last = last_32(&self.out);
        self.front.keep(alloc, &r)
    }
}
