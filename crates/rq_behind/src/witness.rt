//! Whether a digest proves what stands in a log.

ghost use Rattle.std.specs.Prelude.{◌≡◌, ◌≤◌, ◌+◌, ℕ, length, MatchOption};
ghost use Rattle.rq_behind.specs.Mending.{Proves, written};

use crate::runs::judge;
use rq_front::{HEADER_LEN, version};

// What the digest of a frame has behind it: its own bytes.
const DIGEST: usize = 32;

// Where the frame ends that stands at an offset, if it is right and its digest is taken over so many
// bytes at another offset.
fn proof_end(bytes: &[u8], frame: usize, offset: usize, len: usize) -> Option<usize>
    requires after { 32 ≤ frame }
    requires frame { frame ≤ length bytes.now }
    requires within { offset + len ≤ length bytes.now }
    ensures { MatchOption result ((end : ℕ) → Proves bytes.now frame offset len end → ⊥)
        (λ end. Proves bytes.now frame offset len end × (end ≤ length bytes.now)) }
{
    let is_covered = frame <= offset + DIGEST || frame == HEADER_LEN && version(bytes).is_some();
    if !is_covered {
        return None;
    }
    let judged = judge(bytes, frame);
    if judged.is_right && offset + len + DIGEST <= judged.end {
        Some(judged.end)
    } else {
        None
    }
}

// Writes these bytes at an offset.
fn write<const N: usize>(bytes: &mut Vec<u8>, offset: usize, now: &[u8; N])
    requires { offset + N ≤ length bytes.old.items }
    ensures { bytes.new.items ≡ written bytes.old.items offset now.now }
{
    bytes[offset..offset + N].copy_from_slice(now);
}

/// Where the frame ends that stands at an offset, if with these bytes at another offset it is right and
/// its digest is taken over them. The bytes are left as they are.
pub(crate) fn proved_end<const N: usize>(
    bytes: &mut Vec<u8>,
    frame: usize,
    offset: usize,
    now: &[u8; N],
) -> Option<usize>
    requires after { 32 ≤ frame }
    requires frame { frame ≤ length bytes.old.items }
    requires within { offset + N ≤ length bytes.old.items }
    ensures kept { bytes.new.items ≡ bytes.old.items }
    ensures proved { MatchOption result
        ((end : ℕ) → Proves (written bytes.old.items offset now.now) frame offset N end → ⊥)
        (λ end. Proves (written bytes.old.items offset now.now) frame offset N end
        × (end ≤ length bytes.old.items)) }
{
    let mut was = [0u8; N];
    was.copy_from_slice(&bytes[offset..offset + N]);
    write(bytes, offset, now);
    let end = proof_end(bytes, frame, offset, N);
    write(bytes, offset, &was);
    end
}
