//! Bytes of a log that were put back.

ghost use Rattle.std.specs.Prelude.{◌≡◌, ◌≤◌, ◌<◌, ◌+◌, ◌++◌, ℕ, List, All, OnOk, get_or, length, slice_set};
ghost use Rattle.rq_behind.specs.Mending.{IsChanged, written};

use std::alloc::AllocError;

/// A byte that was put back.
#[derive(Clone, Copy, Debug, PartialEq, Eq)]
pub struct Change {
    /// Its offset in the log.
    pub offset: usize,
    /// What stood there.
    pub was: u8,
    /// What stands there now.
    pub now: u8,
    /// The offset of the frame whose digest proves it.
    pub frame: usize,
}

// The byte at an offset.
fn byte_at(bytes: &[u8], offset: usize) -> u8
    requires { offset < length bytes.now }
    ensures { result ≡ get_or bytes.now offset 0 }
{
    bytes[offset]
}

// Sets it.
fn set_byte(bytes: &mut Vec<u8>, offset: usize, now: u8)
    requires { offset < length bytes.old.items }
    ensures { bytes.new.items ≡ slice_set bytes.old.items offset now }
{
    bytes[offset] = now;
}

// Puts a byte at an offset, and tells of it if it is another than the one that stood there.
fn put_one(
    bytes: &mut Vec<u8>,
    changes: &mut Vec<Change>,
    offset: usize,
    now: u8,
    frame: usize,
) -> Result<(), AllocError>
    requires within { offset < length bytes.old.items }
    ensures written { OnOk result (bytes.new.items ≡ slice_set bytes.old.items offset now) }
    ensures changed { OnOk result ((log : List ℕ) (from : ℕ) →
        IsChanged log from bytes.old.items changes.old.items offset
        → IsChanged log from bytes.new.items changes.new.items (offset + 1)) }
    ensures told { OnOk result ((more : List Change) × (changes.new.items ≡ changes.old.items ++ more)
        × All (λ c. (c.frame ≡ frame) × (c.offset ≡ offset)) more) }
{
    let was = byte_at(bytes, offset);
    if was == now {
        return Ok(());
    }
    changes.push(Change {
        offset,
        was,
        now,
        frame,
    })?;
    set_byte(bytes, offset, now);
    Ok(())
}

/// Puts these bytes at an offset, and tells of each that is another than the one that stood there.
pub(crate) fn put_back<const N: usize>(
    bytes: &mut Vec<u8>,
    changes: &mut Vec<Change>,
    offset: usize,
    now: &[u8; N],
    frame: usize,
) -> Result<(), AllocError>
    requires within { offset + N ≤ length bytes.old.items }
    ensures written { OnOk result (bytes.new.items ≡ written bytes.old.items offset now.now) }
    ensures changed { OnOk result ((log : List ℕ) (from : ℕ) →
        IsChanged log from bytes.old.items changes.old.items offset
        → IsChanged log from bytes.new.items changes.new.items (offset + N)) }
    ensures told { OnOk result ((more : List Change) × (changes.new.items ≡ changes.old.items ++ more)
        × All (λ c. (c.frame ≡ frame) × (offset ≤ c.offset) × (c.offset < offset + N)) more) }
{
    'places: for k in 0..N {
        let other = byte_at(now.as_slice(), k);
        put_one(bytes, changes, offset + k, other, frame)?;
    }
    Ok(())
}
