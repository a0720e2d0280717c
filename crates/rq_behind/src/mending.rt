//! A log that is mended: bytes that a digest proves are put back.

ghost use Rattle.std.specs.Prelude.{◌≡◌, ◌≤◌, ◌<◌, ◌+◌, IfOk, IsTrue, length};
ghost use Rattle.rq_behind.specs.Mending.{IsTried};

use crate::changes::{Change, put_back};
use crate::witness::proved_end;
use std::alloc::AllocError;

/// A log that is mended: its bytes as they stand, what was put back, and up to where.
#[derive(Debug, Drop)]
pub(crate) struct Mending {
    pub(crate) bytes: Vec<u8>,
    pub(crate) changes: Vec<Change>,
    pub(crate) at: usize,
}

impl Mending {
    /// Puts these bytes at an offset, if the digest of the frame at another offset then proves them,
    /// and goes on behind that frame. Answers whether it does.
    pub(crate) fn try_put<const N: usize>(
        &mut self,
        frame: usize,
        offset: usize,
        now: &[u8; N],
    ) -> Result<bool, AllocError>
        requires after { 32 ≤ frame }
        requires frame { frame ≤ length self.old.bytes.items }
        requires within { offset + N ≤ length self.old.bytes.items }
        requires ahead { self.old.at ≤ offset }
        requires behind { self.old.at ≤ frame }
        ensures { IfOk result (IsTried self.old self.new) }
    {
        let Some(end) = proved_end(&mut self.bytes, frame, offset, now) else {
            return Ok(false);
        };
        put_back(&mut self.bytes, &mut self.changes, offset, now, frame)?;
        self.at = end;
        Ok(true)
    }
}
