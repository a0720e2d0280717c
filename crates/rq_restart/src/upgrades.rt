//! A log in version 2.

ghost use Rattle.std.specs.Prelude.{◌≡◌, ◌≤◌, ◌++◌, length, IfErr, OnOk, ℕ, List, take, drop, IfOk};
ghost use Rattle.rq_model.specs.Frames.{IsBodyLength, before, frame, frames, header, start};
ghost use Rattle.rq_record.specs.declared.fault.Fault.TheVariants.{Resources};
ghost use Rattle.rq_model.specs.Records.{Two};
ghost use Rattle.rq_restart.specs.RedoneFronts.{IsFoundFront};
ghost use Rattle.rq_restart.specs.Upgrades.{HaveFrames, IsExtent, Upgrades, bodies_in};

use crate::restarts::{FoundFront, whole_front};
use rq_front::{FRAME_LEN, HEADER_LEN, header_of};
use rq_judged::body_at;
use rq_plan::Plan;
use rq_record::{Fault, LogBytes, Version};
use sha2::{Digest, Sha256};
use std::alloc::Global;
use std::marker::Sync;
use std::thread::Threads;

/// Appends the frame of a body behind the last 32 bytes of what is there. These, the length and the
/// body then stand side by side, so that one digest is taken of them where they stand. Where memory
/// is refused a part of the frame may be there.
pub(crate) fn append_next(body: &[u8], out: &mut Vec<u8>) -> Result<(), Fault>
    requires body { IsBodyLength (length body.now) }
    requires after { 32 ≤ length out.old.items }
    ensures bytes { OnOk result (out.new.items
        ≡ out.old.items ++ frame (before (length out.old.items) out.old.items) body.now) }
    ensures refused { IfErr result (λ e. e ≡ Resources) }
{
    let from = out.len() - 32;
    let len = (body.len() as u32).to_be_bytes();
    out.extend_from_slice(&len)?;
    out.extend_from_slice(body)?;
    let digest = Sha256::digest(&out[from..]);
    out.extend_from_slice(&digest)?;
    Ok(())
}

// The version of a log, where its front ends, and how many records that has.
#[derive(Clone, Copy)]
struct Extent {
    version: Version,
    end: usize,
    count: usize,
}

// The records themselves are let go here: their bodies stand in the log, spelt alike in both
// versions.
fn extent_of(from: FoundFront) -> Extent
    ensures { (b : List ℕ) → IsFoundFront b from → IsExtent b result }
{
    Extent {
        version: from.version,
        end: from.front.end,
        count: from.front.records.len(),
    }
}

// The bodies of the first frames of a log, framed anew behind the header of version 2; room for all
// of them, up to an end, is there before anything is written.
fn chained_anew(alloc: Global, bytes: &[u8], end: usize, count: usize) -> Result<Vec<u8>, Fault>
    requires { HaveFrames count (drop 40 bytes.now) }
    ensures chained { IfOk result
        (λ v. v.items ≡ header Two ++ frames (start Two) (bodies_in count (drop 40 bytes.now))) }
    ensures refused { IfErr result (λ e. e ≡ Resources) }
{
    let mut out = Vec::with_capacity(alloc, end)?;
    header_of(Version::Two, &mut out)?;
    let mut at = HEADER_LEN;
    for _ in 0..count {
        let body = body_at(bytes, at);
        append_next(body, &mut out)?;
        at += FRAME_LEN + body.len();
    }
    Ok(out)
}

// The bytes up to an end.
fn copied(alloc: Global, bytes: &[u8], end: usize) -> Result<Vec<u8>, Fault>
    requires { end ≤ length bytes.now }
    ensures copied { IfOk result (λ v. v.items ≡ take end bytes.now) }
    ensures refused { IfErr result (λ e. e ≡ Resources) }
{
    let mut out = Vec::with_capacity(alloc, end)?;
    out.extend_from_slice(&bytes[..end])?;
    Ok(out)
}

/// The log in version 2: the records of its front, each at its old place and spelt as before,
/// chained anew behind the header of version 2. What stood behind the front is dropped. Of a log
/// that has version 2 it is the front's bytes. No queue is redone for it.
///
/// Refuses with `TooLong` more than 4,294,967,295 bytes, with `NotALog` bytes that begin with no
/// version's header, and with `Resources` where memory is refused.
pub fn upgrade<R: Threads + Sync>(
    rt: &R,
    alloc: Global,
    bytes: &[u8],
    plan: &Plan,
) -> Result<Vec<u8>, Fault>
    ensures { Upgrades bytes.now result }
{
    rq_model::upgrade_is_the_same();
    let from = whole_front(rt, alloc, &LogBytes::borrowed(bytes), plan)?;
    let extent = extent_of(from);
    match extent.version {
        Version::One => chained_anew(alloc, bytes, extent.end, extent.count),
        Version::Two => copied(alloc, bytes, extent.end),
    }
}
