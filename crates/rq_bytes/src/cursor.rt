//! Numbers and pieces from the front of the bytes that are left.

ghost use Rattle.std.specs.Prelude.{◌≡◌, ◌≤◌, [], length, option_map, IfSome};
ghost use Rattle.rq_bytes.specs.Readers.{byte, number, piece, sized, ending};

use byteorder::{BigEndian, ByteOrder};
use std::marker::Model;

/// The bytes that are left. A call takes what it returns from their front. If fewer are left than
/// it wants, it returns `None`; what is left after that is not specified.
#[derive(Drop)]
pub struct Cursor<'a> {
    rest: &'a [u8],
}

impl<'a> Model for Cursor<'a> {
    ghost use Rattle.std.specs.Prelude.{ℕ, List};

    ghost Value = { List ℕ };

    ghost view = { λ c. c.rest.now };
}

impl<'a> Cursor<'a> {
    /// All of these bytes are left.
    pub fn new(bytes: &'a [u8]) -> Cursor<'a>
        ensures { result ≡ bytes.now }
    {
        Cursor { rest: bytes }
    }

    /// The next byte.
    pub fn u8(&mut self) -> Option<u8>
        ensures { option_map (λ n. (n, self.new)) result ≡ byte self.old }
    {
        match self.rest {
            [] => None,
            [byte, after @ ..] => {
                self.rest = after;
                Some(*byte)
            }
        }
    }

    /// The next two bytes, as a number.
    pub fn u16(&mut self) -> Option<u16>
        ensures { option_map (λ n. (n, self.new)) result ≡ number 2 self.old }
    {
        let bytes = self.rest;
        if bytes.len() < 2 {
            return None;
        }
        self.rest = &bytes[2..];
        Some(BigEndian::read_u16(bytes))
    }

    /// The next four bytes, as a number.
    pub fn u32(&mut self) -> Option<u32>
        ensures { option_map (λ n. (n, self.new)) result ≡ number 4 self.old }
    {
        let bytes = self.rest;
        if bytes.len() < 4 {
            return None;
        }
        self.rest = &bytes[4..];
        Some(BigEndian::read_u32(bytes))
    }

    /// The next eight bytes, as a number.
    pub fn u64(&mut self) -> Option<u64>
        ensures { option_map (λ n. (n, self.new)) result ≡ number 8 self.old }
    {
        let bytes = self.rest;
        if bytes.len() < 8 {
            return None;
        }
        self.rest = &bytes[8..];
        Some(BigEndian::read_u64(bytes))
    }

    /// The next `count` bytes.
    pub fn piece(&mut self, count: usize) -> Option<&'a [u8]>
        ensures piece { option_map (λ p. (p.now, self.new)) result ≡ piece count self.old }
        ensures long { IfSome result (λ p. length p.now ≡ count) }
    {
        let bytes = self.rest;
        if bytes.len() < count {
            return None;
        }
        let (piece, behind) = bytes.split_at(count);
        self.rest = behind;
        Some(piece)
    }

    /// Reads a length of one byte, then that many bytes, and returns these.
    pub fn sized_u8(&mut self) -> Option<&'a [u8]>
        ensures piece { option_map (λ p. (p.now, self.new)) result ≡ sized byte self.old }
        ensures bounded { IfSome result (λ p. length p.now ≤ 255) }
    {
        let size = self.u8()?;
        self.piece(size as usize)
    }

    /// Reads a length of two bytes, then that many bytes, and returns these.
    pub fn sized_u16(&mut self) -> Option<&'a [u8]>
        ensures piece { option_map (λ p. (p.now, self.new)) result ≡ sized (number 2) self.old }
        ensures bounded { IfSome result (λ p. length p.now ≤ 65535) }
    {
        let size = self.u16()?;
        self.piece(size as usize)
    }

    /// All that is left.
    pub fn rest(self) -> &'a [u8]
        ensures { result.now ≡ self.entry }
    {
        self.rest
    }

    /// The end: `None` if a byte is left.
    pub fn end(self) -> Option<()>
        ensures { option_map (λ e. (e, [])) result ≡ ending self.entry }
    {
        if self.rest.is_empty() { Some(()) } else { None }
    }
}
