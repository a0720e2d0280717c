//! The byte of a body that is wrong, if one alone is: the one for which another makes the digest right.

ghost use Rattle.std.specs.Prelude.{◌≡◌, ◌≤◌, ◌<◌, ◌+◌, length, IfSome};

use rayon::prelude::*;
use rq_front::FRAME_LEN;
use sha2::{Digest, Sha256};
use std::marker::Sync;
use std::thread::Threads;

// The bytes of a block of the hash function (FIPS 180-4, 5.2.1).
const BLOCK: usize = 64;

/// What is tried in the place of a byte.
#[derive(Clone, Copy, Debug)]
pub(crate) enum Others {
    /// The eight bytes that differ from it in one bit.
    Bits,
    /// All other bytes.
    All,
}

/// A byte, to be put at an offset.
#[derive(Clone, Copy, Debug)]
pub(crate) struct Candidate {
    pub(crate) offset: usize,
    pub(crate) now: u8,
}

// The bytes of a frame over which its digest is taken: from the 32 before it to the digest.
#[derive(Clone, Copy, Debug)]
struct Digested {
    start: usize,
    end: usize,
}

fn are_others(others: Others, mask: u8) -> bool {
    match others {
        Others::Bits => mask.count_ones() == 1,
        Others::All => true,
    }
}

// The digest of a message with another byte at an offset. The hasher holds what comes before `from`.
fn digest_with(before: &Sha256, bytes: &[u8], from: usize, end: usize, other: Candidate) -> [u8; 32]
    requires from { from ≤ other.offset }
    requires low { other.offset < end }
    requires within { end ≤ length bytes.now }
{
    let mut hasher = before.clone().unwrap();
    hasher.update(&bytes[from..other.offset]);
    hasher.update([other.now]);
    hasher.update(&bytes[other.offset + 1..end]);
    hasher.finalize()
}

// The byte that makes the digest right in the place of the one at an offset.
fn sought_at(
    before: &Sha256,
    bytes: &[u8],
    from: usize,
    end: usize,
    offset: usize,
    others: Others,
) -> Option<Candidate>
    requires from { from ≤ offset }
    requires low { offset < end }
    requires within { end + 32 ≤ length bytes.now }
    ensures { IfSome result (λ c. c.offset ≡ offset) }
{
    for mask in 1..=255u8 {
        if are_others(others, mask) {
            let other = Candidate {
                offset,
                now: bytes[offset] ^ mask,
            };
            let digest = digest_with(before, bytes, from, end, other);
            if digest.as_slice() == &bytes[end..end + 32] {
                return Some(other);
            }
        }
    }
    None
}

// The byte that makes the digest right in the place of one of a block, from an offset on.
fn sought_in(bytes: &[u8], message: Digested, block: usize, others: Others) -> Option<Candidate>
    requires low { message.start + 36 ≤ message.end }
    requires within { message.end + 32 ≤ length bytes.now }
    ensures { IfSome result (λ c. (message.start + 36 ≤ c.offset) × (c.offset < message.end)) }
{
    let end = message.end;
    let from = message
        .start
        .saturating_add(block.saturating_mul(BLOCK))
        .min(end);
    let before = Sha256::new_with_prefix(&bytes[message.start..from]);
    let first = from.max(message.start + FRAME_LEN);
    for offset in first..from.saturating_add(BLOCK).min(end) {
        let found = sought_at(&before, bytes, from, end, offset, others);
        if found.is_some() {
            return found;
        }
    }
    None
}

/// A byte for the body of the frame at an offset that makes its digest right in the place of another.
/// If the runtime gives threads, they try it in so many blocks or more each.
pub(crate) fn sought_byte<R: Threads + Sync>(
    rt: &R,
    bytes: &[u8],
    at: usize,
    len: usize,
    others: Others,
    least: usize,
) -> Option<Candidate>
    requires after { 32 ≤ at }
    requires within { at + (36 + len) ≤ length bytes.now }
    ensures { IfSome result (λ c. (at + 4 ≤ c.offset) × (c.offset < at + 4 + len)) }
{
    let message = Digested {
        start: at - 32,
        end: at + 4 + len,
    };
    let blocks = (FRAME_LEN + len) / BLOCK + 1;
    let index = (0..blocks)
        .into_par_iter()
        .with_min_len(least)
        .position_first(
            rt,
            |block: usize| -> bool
                requires low { message.start + 36 ≤ message.end }
                requires within { message.end + 32 ≤ length bytes.now }
            { sought_in(bytes, message, block, others).is_some() },
        )?;
    sought_in(bytes, message, index, others)
}
