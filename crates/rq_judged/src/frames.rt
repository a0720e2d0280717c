//! The frames of a log: the body of one, and what it is linked to.

ghost use Rattle.std.specs.Prelude.{◌≡◌, ◌≤◌, length, drop};
ghost use Rattle.rq_model.specs.Frames.{HasFrame, before, body_in};

use byteorder::{BigEndian, ByteOrder};

/// The body of the frame at an offset.
pub fn body_at(bytes: &[u8], at: usize) -> &[u8]
    requires { HasFrame (drop at bytes.now) }
    ensures { result.now ≡ body_in (drop at bytes.now) }
{
    let from = &bytes[at..];
    let len = BigEndian::read_u32(from) as usize;
    &from[4..4 + len]
}

/// The 32 bytes before an offset.
pub fn before(bytes: &[u8], offset: usize) -> [u8; 32]
    requires after { 32 ≤ offset }
    requires within { offset ≤ length bytes.now }
    ensures { result ≡ before offset bytes.now }
{
    let mut kept = [0; 32];
    kept.copy_from_slice(&bytes[offset - 32..offset]);
    kept
}
