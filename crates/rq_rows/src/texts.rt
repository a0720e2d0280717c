//! Bytes that are written and read again by the readers of `rq_bytes`.

ghost use Rattle.std.specs.Prelude.{◌≤◌, length};

use rq_bytes::{Cursor, put, put_u16, put_u32};
use std::alloc::{AllocError, Global};

/// A number, a name behind its length, and a text that goes to the end.
pub fn written(alloc: Global, number: u32, name: &[u8], text: &[u8]) -> Result<Vec<u8>, AllocError>
    requires { length name.now ≤ 65535 }
{
    let mut out = Vec::new(alloc);
    put_u32(&mut out, number)?;
    put_u16(&mut out, name.len() as u16)?;
    put(&mut out, name)?;
    put(&mut out, text)?;
    Ok(out)
}

/// Whether the bytes have these three, and nothing else.
pub fn has_all(bytes: &[u8], number: u32, name: &[u8], text: &[u8]) -> bool {
    let mut left = Cursor::new(bytes);
    let is_number = left.u32() == Some(number);
    let is_name = match left.sized_u16() {
        Some(found) => found == name,
        None => false,
    };
    is_number && is_name && left.rest() == text
}

/// Whether a name is missed, if the bytes end before it does: behind a length of two bytes, and of
/// one.
pub fn misses_name(bytes: &[u8]) -> bool {
    let mut left = Cursor::new(bytes);
    let is_missed = left.u32().is_some() && left.sized_u16().is_none();
    is_missed && Cursor::new(b"\x04ann").sized_u8().is_none()
}
