//! What frames bodies, each behind the one before it.

ghost use Rattle.std.specs.Prelude.{◌≡◌, ◌+◌, ◌≤◌, [], length, IfErr, IsOk, OnOk, nat_le};
ghost use Rattle.std.specs.Prelude.{vec_len, vec_capacity};
ghost use Rattle.rq_model.specs.Frames.{IsBodyLength, log_limit};
ghost use Rattle.rq_record.specs.Views.{version_of};
ghost use Rattle.rq_record.specs.declared.fault.Fault.TheVariants.{Resources};
ghost use Rattle.rq_front.specs.Framers.{IsFramerAt, Frames, behind_header};

use crate::headers::magic;
use crate::writers::append_frame;
use crate::{FRAME_LEN, HEADER_LEN, LOG_LIMIT};
use rq_record::{Fault, Version};
use sha2::{Digest, Sha256};

/// Stands where the frames of a log end: it keeps the last 32 bytes there, and how many bytes the log
/// has. It judges no record, and holds no frame.
#[derive(Drop)]
pub struct Framer {
    last: [u8; 32],
    len: usize,
}

impl Framer {
    /// Stands behind the header of a log without records. Takes no memory.
    pub fn new(version: Version) -> Framer
        ensures { IsFramerAt (behind_header (version_of version)) [] result }
    {
        Framer {
            last: Sha256::digest(magic(version)),
            len: HEADER_LEN,
        }
    }

    /// Stands after so many bytes, whose last 32 are these.
    pub fn after(last: [u8; 32], len: usize) -> Framer
        ensures last { result.last ≡ last }
        ensures len { result.len ≡ len }
    {
        Framer { last, len }
    }

    /// How many bytes the log has.
    pub fn len(&self) -> usize
        ensures { result ≡ self.now.len }
    {
        self.len
    }

    /// Whether the log has room for the frame of a body of so many bytes: with it, it has at most
    /// 4,294,967,295.
    pub fn has_room(&self, len: usize) -> bool
        requires { IsBodyLength len }
        ensures { result ≡ nat_le (self.now.len + (36 + len)) log_limit }
    {
        FRAME_LEN + len <= LOG_LIMIT.saturating_sub(self.len)
    }

    /// Appends the frame of the body to `out`, and stands behind it.
    ///
    /// `Resources` is returned if memory runs out; then `out` is as before, and it stands where it
    /// stood. Where `out` has room for the frame, 36 bytes more than the body has, none is needed.
    pub fn put(&mut self, body: &[u8], out: &mut Vec<u8>) -> Result<(), Fault>
        requires body { IsBodyLength (length body.now) }
        requires room { self.old.len + (36 + length body.now) ≤ log_limit }
        ensures framed { OnOk result
            (Frames self.old self.new body.now out.old.items out.new.items) }
        ensures stays { IfErr result (λ e. self.new ≡ self.old) }
        ensures nothing { IfErr result (λ e. out.new.items ≡ out.old.items) }
        ensures refused { IfErr result (λ e. e ≡ Resources) }
        ensures reserved { vec_len out.old + (36 + length body.now) ≤ vec_capacity out.old
            → IsOk result }
    {
        self.last = append_frame(&self.last, body, out)?;
        self.len += FRAME_LEN + body.len();
        Ok(())
    }
}
