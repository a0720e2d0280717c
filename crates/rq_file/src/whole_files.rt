//! All bytes of a file, read or written.

use crate::late::Late;
use crate::names::Names;
use crate::predecessors::Replaces;
use std::fs::Files;
use std::io::{self, Read, Write};
use std::os::fd::AsFd;

/// One byte more than the longest log has, and the longest script.
pub const LIMIT: u64 = 4_294_967_296;

/// All bytes that are read from here, but no more than `LIMIT`.
pub fn read_limited<R: Read + Drop, A: AllocGlobal>(rt: &A, from: R) -> io::Result<Vec<u8>> {
    let mut bytes = Vec::new(rt.alloc());
    from.take(LIMIT).read_to_end(&mut bytes)?;
    Ok(bytes)
}

// Writes all bytes of these pieces, one behind the other.
fn write_pieces<W: Write>(file: &mut W, pieces: &[&[u8]]) -> io::Result<()> {
    for piece in pieces {
        file.write_all(piece)?;
    }
    Ok(())
}

impl Replaces<'_> {
    /// Makes the file of the path, with the bytes of these pieces, one behind the other: whole, or as it
    /// was, or not there. What is no file is written as it is.
    ///
    /// Refuses with the system's error, as `Names::of` does and as far as writing fails; with
    /// `AlreadyExists` what is there and may not be replaced. It looks at that when all is written, and
    /// puts the file in the place of what it looked at.
    pub fn put_over<R>(&self, rt: &R, path: &str, pieces: &[&[u8]]) -> io::Result<()>
    where
        R: Files + AllocGlobal,
        R::File: AsFd,
    {
        let Some(names) = Names::of(rt, path)? else {
            return write_pieces(&mut Late::in_place(rt, path), pieces);
        };
        let mut file = Late::new(rt, names.new_name(), names.options(rt));
        // The first write opens the file: where there are no bytes, one of none does.
        let done = file
            .write(&[])
            .and_then(|_| write_pieces(&mut file, pieces));
        let settled = names.settle_over(rt, file.into_file(), done.is_ok(), self);
        done?;
        settled
    }
}
