//! Frames that are right in themselves, and runs of them: at which places one begins. What needs no
//! digest is asked first.

ghost use Rattle.std.specs.Prelude.{◌≡◌, ◌↔◌, ◌≤◌, ◌+◌, ◌⊎◌, length, drop, IsTrue, MatchOption};
ghost use Rattle.rq_model.specs.Frames.{HasFrame, HasRightFrame, before, stated};
ghost use Rattle.rq_record.specs.Views.{version_of};
ghost use Rattle.rq_behind.specs.Runs.{EndsOr, IsRightAt, LooksLikeRun, LooksRight, RightRun, frame_end};

use crate::forms::spells_some;
use byteorder::{BigEndian, ByteOrder};
use rq_front::FRAME_LEN;
use rq_record::{CheckBytes, Version};
use sha2::{Digest, Sha256};

// The most bytes of a body: its kind, and what a checkpoint has.
const BODY_LIMIT: usize = CheckBytes::LIMIT + 1;

/// The length of the body of the frame at an offset, whatever its digest; none if no frame stands
/// there.
pub(crate) fn length_at(bytes: &[u8], at: usize) -> Option<usize>
    requires { at ≤ length bytes.now }
    ensures { MatchOption result (HasFrame (drop at bytes.now) → ⊥)
        (λ len. HasFrame (drop at bytes.now) × (len ≡ stated (drop at bytes.now))
        × (at + (36 + len) ≤ length bytes.now)) }
{
    let rest = bytes.split_at(at).1;
    if rest.len() < 4 {
        return None;
    }
    let len = BigEndian::read_u32(rest) as usize;
    if len == 0 || len > BODY_LIMIT || rest.len() < FRAME_LEN + len {
        return None;
    }
    Some(len)
}

// Whether the digest of the frame at an offset is right. The 32 bytes before it, the length and the
// body are side by side.
fn has_right_digest(bytes: &[u8], at: usize, len: usize) -> bool
    requires after { 32 ≤ at }
    requires frame { HasFrame (drop at bytes.now) }
    requires size { len ≡ stated (drop at bytes.now) }
    requires within { at + (36 + len) ≤ length bytes.now }
    ensures { IsTrue result ↔ HasRightFrame (before at bytes.now) (drop at bytes.now) }
{
    let digest = Sha256::digest(&bytes[at - 32..at + 4 + len]);
    digest.as_slice() == &bytes[at + 4 + len..at + FRAME_LEN + len]
}

/// A frame that was looked at: whether it is right in itself, and where the bytes end that were
/// looked at for that.
#[derive(Clone, Copy, Debug)]
pub(crate) struct Judged {
    pub(crate) is_right: bool,
    pub(crate) end: usize,
}

/// The frame at an offset. If it is right in itself, it ends where the bytes end that were looked at.
pub(crate) fn judge(bytes: &[u8], at: usize) -> Judged
    requires after { 32 ≤ at }
    requires within { at ≤ length bytes.now }
    ensures right { IsTrue result.is_right ↔ IsRightAt bytes.now at }
    ensures end { IsTrue result.is_right → result.end ≡ frame_end bytes.now at }
    ensures low { at ≤ result.end }
    ensures high { result.end ≤ length bytes.now }
{
    let Some(len) = length_at(bytes, at) else {
        return Judged {
            is_right: false,
            end: at,
        };
    };
    Judged {
        is_right: has_right_digest(bytes, at, len),
        end: at + FRAME_LEN + len,
    }
}

/// Where the frame at an offset ends whose body spells a record, whatever its digest; none if none
/// stands there.
pub(crate) fn likely_end(version: Version, bytes: &[u8], at: usize) -> Option<usize>
    requires { at ≤ length bytes.now }
    ensures { MatchOption result (LooksRight (version_of version) bytes.now at → ⊥)
        (λ end. LooksRight (version_of version) bytes.now at × (end ≡ frame_end bytes.now at)
        × (end ≤ length bytes.now)) }
{
    let len = length_at(bytes, at)?;
    if spells_some(version, &bytes[at + 4..at + 4 + len]) {
        Some(at + FRAME_LEN + len)
    } else {
        None
    }
}

// Whether such a frame stands at an offset, and another behind it, if the bytes do not end there.
fn are_two_likely(version: Version, bytes: &[u8], second: usize) -> bool
    requires { second ≤ length bytes.now }
    ensures { IsTrue result ↔ (LooksRight (version_of version) bytes.now second
        × EndsOr (LooksRight (version_of version) bytes.now) bytes.now second) }
{
    match likely_end(version, bytes, second) {
        Some(third) => third == bytes.len() || likely_end(version, bytes, third).is_some(),
        None => false,
    }
}

/// Whether at an offset what may be a run begins, by lengths and bodies alone.
pub(crate) fn looks_like_run(version: Version, bytes: &[u8], at: usize) -> bool
    requires { at ≤ length bytes.now }
    ensures { IsTrue result ↔ LooksLikeRun (version_of version) bytes.now at }
{
    match likely_end(version, bytes, at) {
        Some(second) => second == bytes.len() || are_two_likely(version, bytes, second),
        None => false,
    }
}

/// The digests of the run that may begin at an offset, up to the first wrong one.
pub(crate) fn judge_run(bytes: &[u8], at: usize) -> Judged
    requires after { 32 ≤ at }
    requires within { at ≤ length bytes.now }
    ensures right { IsTrue result.is_right ↔ RightRun bytes.now at }
    ensures low { at ≤ result.end }
{
    let first = judge(bytes, at);
    if !first.is_right || first.end == bytes.len() {
        return first;
    }
    let second = judge(bytes, first.end);
    if !second.is_right || second.end == bytes.len() {
        return second;
    }
    judge(bytes, second.end)
}
