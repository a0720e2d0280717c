//! Appends numbers and pieces to bytes.

ghost use Rattle.std.specs.Prelude.{◌∷◌, []};
ghost use Rattle.std.specs.Int.{w16, w32, w64, to_be_bytes};
ghost use Rattle.rq_bytes.specs.Writing.{AppendsWhole};

use byteorder::{BigEndian, ByteOrder};
use std::alloc::AllocError;

/// Appends the bytes. If memory runs out, `Err` is returned and nothing changes.
pub fn put(out: &mut Vec<u8>, bytes: &[u8]) -> Result<(), AllocError>
    ensures { AppendsWhole out.old.items out.new.items bytes.now result }
{
    out.extend_from_slice(bytes)?;
    Ok(())
}

/// Appends the byte. If memory runs out, `Err` is returned and nothing changes.
pub fn put_u8(out: &mut Vec<u8>, n: u8) -> Result<(), AllocError>
    ensures { AppendsWhole out.old.items out.new.items (n ∷ []) result }
{
    put(out, &[n])
}

/// Appends the number in two bytes. If memory runs out, `Err` is returned and nothing changes.
pub fn put_u16(out: &mut Vec<u8>, n: u16) -> Result<(), AllocError>
    ensures { AppendsWhole out.old.items out.new.items (to_be_bytes w16 n) result }
{
    let mut cell = [0; 2];
    BigEndian::write_u16(&mut cell, n);
    put(out, &cell)
}

/// Appends the number in four bytes. If memory runs out, `Err` is returned and nothing changes.
pub fn put_u32(out: &mut Vec<u8>, n: u32) -> Result<(), AllocError>
    ensures { AppendsWhole out.old.items out.new.items (to_be_bytes w32 n) result }
{
    let mut cell = [0; 4];
    BigEndian::write_u32(&mut cell, n);
    put(out, &cell)
}

/// Appends the number in eight bytes. If memory runs out, `Err` is returned and nothing changes.
pub fn put_u64(out: &mut Vec<u8>, n: u64) -> Result<(), AllocError>
    ensures { AppendsWhole out.old.items out.new.items (to_be_bytes w64 n) result }
{
    let mut cell = [0; 8];
    BigEndian::write_u64(&mut cell, n);
    put(out, &cell)
}
