//! A log that is mended as far as digests prove what stood there.

ghost use Rattle.std.specs.Prelude.{◌≡◌, ◌≤◌, ℕ, length, IfErr, IfOk};
ghost use Rattle.rq_model.specs.Frames.{log_limit};
ghost use Rattle.rq_front.specs.Chains.{IsHeaded, Refused, rest_of};
ghost use Rattle.rq_behind.specs.Mending.{MendsOn, IsToMend, IsTried};
ghost use Rattle.rq_behind.specs.MendedFiles.{IsMendedLog};

use crate::changes::Change;
use crate::efforts::{Effort, Untried};
use crate::mending::Mending;
use rq_front::{HEADER_LEN, LOG_LIMIT, Rest, chain, header_of, version};
use rq_record::{Fault, Version};
use std::alloc::{AllocError, Global};
use std::marker::Sync;
use std::thread::Threads;

/// What was mended, as far as that goes.
#[derive(Debug, Drop)]
pub struct Mended {
    /// Its bytes.
    pub bytes: Vec<u8>,
    /// The bytes that were put back, in the order of the log.
    pub changes: Vec<Change>,
    /// Where its right frames end.
    pub end: usize,
    /// What follows there.
    pub rest: Rest,
    /// What was not tried there, if something was not.
    pub untried: Option<Untried>,
}

impl Mending {
    // Puts the header of a version in place, if the first frame is taken over its digest.
    fn try_header(&mut self, alloc: Global, version: Version) -> Result<bool, AllocError>
        requires within { 40 ≤ length self.old.bytes.items }
        requires at { self.old.at ≡ 0 }
        ensures { IfOk result (IsTried self.old self.new) }
    {
        let mut spelled = Vec::new(alloc);
        let Ok(()) = header_of(version, &mut spelled) else {
            return Err(AllocError);
        };
        let mut header = [0u8; HEADER_LEN];
        header.copy_from_slice(&spelled);
        self.try_put(HEADER_LEN, 0, &header)
    }

    // The first of the versions of which the header can be put in place.
    fn try_headers(&mut self, alloc: Global) -> Result<bool, AllocError>
        requires within { 40 ≤ length self.old.bytes.items }
        requires at { self.old.at ≡ 0 }
        ensures { IfOk result (IsTried self.old self.new) }
    {
        if self.try_header(alloc, Version::One)? {
            return Ok(true);
        }
        self.try_header(alloc, Version::Two)
    }

    // Goes on to the next frame that is not right, or to the end. Answers whether it is the end.
    fn go_on<R: Threads + Sync>(
        &mut self,
        rt: &R,
        alloc: Global,
        grain: u32,
    ) -> Result<bool, AllocError>
        requires grain { 1 ≤ grain }
        requires after { 40 ≤ self.old.at }
        requires within { self.old.at ≤ length self.old.bytes.items }
        ensures { IfOk result (λ end. MendsOn self.old self.new) }
    {
        // The log has a header: memory alone is refused.
        let Ok(found) = chain(rt, alloc, &self.bytes, self.at, grain) else {
            return Err(AllocError);
        };
        self.at = found.end;
        Ok(matches!(found.rest, Rest::Whole))
    }

    // Mends place after place, as far as that goes, and answers what was not tried where it ends.
    fn mend_places<R: Threads + Sync>(
        &mut self,
        rt: &R,
        alloc: Global,
        grain: u32,
    ) -> Result<Option<Untried>, AllocError>
        requires grain { 1 ≤ grain }
        requires after { 40 ≤ self.old.at }
        requires within { self.old.at ≤ length self.old.bytes.items }
        ensures { IfOk result (λ left. MendsOn self.old self.new) }
    {
        let version = version(&self.bytes).unwrap_or(Version::Two);
        let mut effort = Effort::for_log(self.bytes.len(), grain);
        'places: loop {
            if self.go_on(rt, alloc, grain)? {
                return Ok(None);
            }
            if !self.mend_place(rt, version, &mut effort)? {
                return Ok(effort.untried);
            }
        }
    }
}

// The log with its header, which the first frame proves if it is not there.
fn with_header(alloc: Global, bytes: Vec<u8>) -> Result<Mending, Fault>
    requires lost { IsHeaded bytes.items → ⊥ }
    requires short { length bytes.items ≤ log_limit }
    ensures begun { (from : ℕ) → IfOk result (IsToMend bytes.items from) }
    ensures refused { IfErr result (Refused bytes.items) }
{
    let mut mending = Mending {
        bytes,
        changes: Vec::new(alloc),
        at: 0,
    };
    if mending.bytes.len() < HEADER_LEN || !mending.try_headers(alloc)? {
        return Err(Fault::NotALog);
    }
    mending.at = mending.at.max(HEADER_LEN);
    Ok(mending)
}

// The log up to where its right frames end from an offset on.
fn up_to_damage<R: Threads + Sync>(
    rt: &R,
    alloc: Global,
    bytes: Vec<u8>,
    from: usize,
    grain: u32,
) -> Result<Mending, Fault>
    requires grain { 1 ≤ grain }
    requires after { 40 ≤ from }
    requires within { from ≤ length bytes.items }
    ensures begun { IfOk result (IsToMend bytes.items from) }
    ensures refused { IfErr result (Refused bytes.items) }
{
    let found = chain(rt, alloc, &bytes, from, grain)?;
    Ok(Mending {
        bytes,
        changes: Vec::new(alloc),
        at: found.end,
    })
}

// The log with its header, up to where its right frames end from an offset on.
fn begun<R: Threads + Sync>(
    rt: &R,
    alloc: Global,
    bytes: Vec<u8>,
    from: usize,
    grain: u32,
) -> Result<Mending, Fault>
    requires grain { 1 ≤ grain }
    requires after { 40 ≤ from }
    requires within { 40 ≤ length bytes.items → from ≤ length bytes.items }
    ensures begun { IfOk result (IsToMend bytes.items from) }
    ensures refused { IfErr result (Refused bytes.items) }
{
    if bytes.len() > LOG_LIMIT {
        return Err(Fault::TooLong);
    }
    match version(&bytes) {
        Some(_) => up_to_damage(rt, alloc, bytes, from, grain),
        None => with_header(alloc, bytes),
    }
}

/// Mends a log whose frames begin at the offset `from`. The header is put back if the first frame is
/// right after one. Then place after place where a frame is not right is tried, as long as something
/// is put back.
///
/// `TooLong` is returned for more than 4,294,967,295 bytes, and otherwise `NotALog` if the bytes do not
/// begin with a header and no first frame proves one; `Resources` if memory runs out.
pub(crate) fn mend_log<R: Threads + Sync>(
    rt: &R,
    alloc: Global,
    bytes: Vec<u8>,
    from: usize,
    grain: u32,
) -> Result<Mended, Fault>
    requires grain { 1 ≤ grain }
    requires after { 40 ≤ from }
    requires within { 40 ≤ length bytes.items → from ≤ length bytes.items }
    ensures mended { IfOk result (λ m. IsMendedLog bytes.items from m.bytes.items m.changes.items m.end
        (rest_of m.rest)) }
    ensures refused { IfErr result (Refused bytes.items) }
{
    let mut mending = begun(rt, alloc, bytes, from, grain)?;
    let untried = mending.mend_places(rt, alloc, grain)?;
    // The log has a header: memory alone is refused.
    let Ok(found) = chain(rt, alloc, &mending.bytes, from, grain) else {
        return Err(Fault::Resources);
    };
    Ok(Mended {
        bytes: mending.bytes,
        changes: mending.changes,
        end: found.end,
        rest: found.rest,
        untried,
    })
}
