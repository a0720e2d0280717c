//! Lines that fit a terminal: what is too long is cut, and a mark says how much.

ghost use Rattle.std.specs.Prelude.{◌≤◌, length, IfSome};

use std::alloc::Global;
use std::env;
use std::io::{self, Write};
use std::rt::Env;
use std::str::from_utf8;
use unicode_width::UnicodeWidthChar;

// No line is cut to fewer columns than these.
const LEAST: usize = 20;

// The columns of a mark, beside the digits of its number.
const MARK: usize = 8;

// What is shown of a line that is too long: its first bytes, and how many characters are not shown.
#[derive(Clone, Copy)]
struct Cut {
    shown: usize,
    more: usize,
}

// How many digits a number has.
fn digits(number: usize) -> usize {
    number.checked_ilog10().unwrap_or(0) as usize + 1
}

// Where a line is cut so that it takes no more than these columns with its mark; none if it does
// without. What stands over another character, as an accent may, takes no column.
fn cut_of(line: &str, columns: usize) -> Option<Cut>
    ensures { IfSome result (λ cut. cut.shown ≤ length line.now) }
{
    let all = line.chars().count();
    let room = columns.saturating_sub(digits(all).saturating_add(MARK));
    let (mut taken, mut shown, mut count): (usize, usize, usize) = (0, 0, 0);
    for c in line.chars() {
        taken = taken.saturating_add(c.width().unwrap_or(0));
        if taken <= room {
            shown = shown.saturating_add(c.len_utf8());
            count = count.saturating_add(1);
        }
    }
    if taken <= columns {
        return None;
    }
    Some(Cut {
        shown: shown.min(line.len()),
        more: all.saturating_sub(count),
    })
}

// Writes a line without its end, in no more than these columns.
fn put_line<W: Write>(output: &mut W, line: &[u8], columns: usize) -> io::Result<()> {
    let cut = from_utf8(line).ok().and_then(|text| cut_of(text, columns));
    let Some(cut) = cut else {
        return output.write_all(line);
    };
    let (shown, more) = (&line[..cut.shown.min(line.len())], cut.more);
    output.write_all(shown)?;
    write!(output, ".. {more} more")
}

/// How many columns a terminal has, by the variable COLUMNS; 0 if it does not say.
pub(crate) fn columns_told<R: Env + AllocGlobal>(rt: &R) -> u32 {
    match env::var(rt, "COLUMNS") {
        Ok(columns) => columns.as_str().parse().unwrap_or(0),
        Err(_) => 0,
    }
}

/// A writer of lines, each in no more than so many columns. It writes a line once its end is there.
#[derive(Drop)]
pub(crate) struct Narrow<W> {
    output: W,
    columns: usize,
    line: Vec<u8>,
}

impl<W: Write> Narrow<W> {
    /// Over this writer. With 0 columns lines stay as they are; with fewer than 20 they have 20.
    pub(crate) fn new(alloc: Global, output: W, columns: u32) -> Self {
        let columns = if columns == 0 {
            0
        } else {
            (columns as usize).max(LEAST)
        };
        Narrow {
            output,
            columns,
            line: Vec::new(alloc),
        }
    }

    // Takes a line, or the beginning of one.
    fn take(&mut self, piece: &[u8]) -> io::Result<()> {
        let Some(end) = piece.strip_suffix(b"\n") else {
            self.line.extend_from_slice(piece)?;
            return Ok(());
        };
        self.line.extend_from_slice(end)?;
        put_line(&mut self.output, &self.line, self.columns)?;
        self.line.clear();
        self.output.write_all(b"\n")
    }
}

impl<W: Write> Write for Narrow<W> {
    fn write(&mut self, bytes: &[u8]) -> io::Result<usize> {
        if self.columns == 0 {
            return self.output.write(bytes);
        }
        for piece in bytes.split_inclusive(|b| *b == b'\n') {
            self.take(piece)?;
        }
        Ok(bytes.len())
    }

    fn flush(&mut self) -> io::Result<()> {
        self.output.flush()
    }
}
