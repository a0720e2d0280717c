//! The bytes of a log.

ghost use Rattle.std.specs.Prelude.{◌≡◌, ◌++◌, ◌+◌, ◌≤◌, length, IfOk, IsOk, vec_len, vec_capacity};
ghost use Rattle.sha2.specs.Sha256.{sha256};
ghost use Rattle.rq_model.specs.Records.{One};
ghost use Rattle.rq_model.specs.Frames.{IsBodyLength};
ghost use Rattle.rq_model.specs.Frames as frames;
ghost use Rattle.rq_record.specs.Views.{version_of};
ghost use Rattle.rq_record.specs.Writing.{Appends};

use crate::headers::magic;
use crate::{FRAME_LEN, HEADER_LEN};
use byteorder::{BigEndian, ByteOrder};
use rq_record::{Fault, Version};
use sha2::{Digest, Sha256};

/// Appends 8 bytes and their SHA-256 (FIPS 180-4).
///
/// `Resources` is returned if memory runs out; `out` is then as before.
pub(crate) fn put_magic(magic: [u8; 8], out: &mut Vec<u8>) -> Result<(), Fault>
    ensures { Appends out.old.items out.new.items (magic ++ sha256 magic) result }
{
    out.reserve(HEADER_LEN)?;
    let digest = Sha256::digest(magic);
    out.extend_from_slice(&magic).unwrap();
    out.extend_from_slice(&digest).unwrap();
    Ok(())
}

/// Appends the header of a log of this version: `RQLOG`, two zero bytes, the version, and the SHA-256
/// of these 8 bytes.
///
/// `Resources` is returned if memory runs out; `out` is then as before.
pub fn header_of(version: Version, out: &mut Vec<u8>) -> Result<(), Fault>
    ensures { Appends out.old.items out.new.items (frames.header (version_of version)) result }
{
    put_magic(magic(version), out)
}

/// Appends the header of a log of version 1: `header_of` of that version.
pub fn header(out: &mut Vec<u8>) -> Result<(), Fault>
    ensures { Appends out.old.items out.new.items (frames.header One) result }
{
    header_of(Version::One, out)
}

/// Appends the frame of a body after the 32 bytes `prev`: the length of the body in 4 bytes, the
/// body, and the SHA-256 of `prev`, the length and the body. Answers the last 32 bytes of the frame,
/// after which the next one is appended.
///
/// `Resources` is returned if memory runs out; `out` is then as before. Where `out` has room for the
/// frame, 36 bytes more than the body has, none is needed.
pub fn append_frame(prev: &[u8; 32], body: &[u8], out: &mut Vec<u8>) -> Result<[u8; 32], Fault>
    requires { IsBodyLength (length body.now) }
    ensures bytes { Appends out.old.items out.new.items (frames.frame prev.now body.now) result }
    ensures last { IfOk result (λ last. last ≡ frames.digest prev.now body.now) }
    ensures reserved { vec_len out.old + (36 + length body.now) ≤ vec_capacity out.old
        → IsOk result }
{
    out.reserve(FRAME_LEN + body.len())?;
    let mut length = [0u8; 4];
    BigEndian::write_u32(&mut length, body.len() as u32);
    let mut hasher = Sha256::new();
    hasher.update(prev);
    hasher.update(length);
    hasher.update(body);
    let digest = hasher.finalize();
    out.extend_from_slice(&length).unwrap();
    out.extend_from_slice(body).unwrap();
    out.extend_from_slice(&digest).unwrap();
    Ok(digest)
}

/// Appends the frame of a body after the 32 bytes `prev`, as `append_frame` does.
///
/// `Resources` is returned if memory runs out; `out` is then as before.
pub fn frame(prev: &[u8; 32], body: &[u8], out: &mut Vec<u8>) -> Result<(), Fault>
    requires { IsBodyLength (length body.now) }
    ensures { Appends out.old.items out.new.items (frames.frame prev.now body.now) result }
{
    append_frame(prev, body, out)?;
    Ok(())
}
