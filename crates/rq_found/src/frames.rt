//! The frames of a log by their lengths.

ghost use Rattle.std.specs.Prelude.{◌≡◌, ◌+◌, ◌<◌, ◌≤◌, length, drop, MatchOption, IfSome};
ghost use Rattle.rq_model.specs.Frames.{stated, body_in};
ghost use Rattle.rq_found.specs.Records as records;
ghost use Rattle.rq_found.specs.Records.{StandFrom};

use byteorder::{BigEndian, ByteOrder};
use rq_front::{FRAME_LEN, HEADER_LEN};

/// A frame: its length and body side by side, the body alone, and its digest.
#[derive(Clone, Copy)]
pub(crate) struct Frame<'a> {
    pub(crate) stated: &'a [u8],
    pub(crate) body: &'a [u8],
    pub(crate) digest: &'a [u8],
}

/// The length that stands at the front of the bytes; none where there are fewer than four.
pub(crate) fn stated_length(bytes: &[u8]) -> Option<usize>
    ensures { MatchOption result (length bytes.now < 4) (λ n. n ≡ stated bytes.now) }
{
    if bytes.len() < 4 {
        return None;
    }
    Some(BigEndian::read_u32(bytes) as usize)
}

/// The frame at the front of the bytes by its length alone, and what stands behind it.
pub(crate) fn first_frame(bytes: &[u8]) -> Option<(Frame<'_>, &[u8])>
    ensures frame { MatchOption result (length bytes.now < 36 + stated bytes.now)
        (λ x. (x.0.body.now ≡ body_in bytes.now)
        × (x.1.now ≡ drop (36 + stated bytes.now) bytes.now)
        × (36 + stated bytes.now ≤ length bytes.now)) }
    ensures shorter { IfSome result (λ x. length x.1.now < length bytes.now) }
{
    let len = stated_length(bytes)?;
    if bytes.len() < FRAME_LEN || bytes.len() - FRAME_LEN < len {
        return None;
    }
    let (frame, after) = bytes.split_at(FRAME_LEN + len);
    let (stated, digest) = frame.split_at(4 + len);
    let body = &stated[4..];
    let frame = Frame {
        stated,
        body,
        digest,
    };
    Some((frame, after))
}

/// A body, the offset of its frame and the number of its record.
#[derive(Clone, Copy)]
pub struct Placed<'a> {
    /// The offset of its frame in the log.
    pub offset: u64,
    /// The number of its record, from 0.
    pub number: u64,
    /// The body.
    pub body: &'a [u8],
}

impl Placed<'_> {
    /// How many queues are defined behind its record, of which so many are before it.
    pub fn queues_behind(&self, queues: u32) -> u32
        ensures { result ≡ records.queues_behind queues self.now.body.now }
    {
        match self.body {
            [1, ..] => queues.saturating_add(1),
            _ => queues,
        }
    }
}

/// The frames in the first bytes of a log, one after the other.
#[derive(Clone, Copy)]
pub struct PlacedFrames<'a> {
    rest: &'a [u8],
    offset: u64,
    number: u64,
}

impl<'a> PlacedFrames<'a> {
    /// Those behind the header, in the first `used` bytes.
    pub fn of(bytes: &'a [u8], used: u64) -> PlacedFrames<'a>
        ensures { StandFrom bytes.now 40 0 used result }
    {
        PlacedFrames::beginning_at(bytes, HEADER_LEN as u64, 0, used)
    }

    /// Those from an offset on, in the first `used` bytes; the first record has the number.
    pub(crate) fn beginning_at(
        bytes: &'a [u8],
        offset: u64,
        number: u64,
        used: u64,
    ) -> PlacedFrames<'a>
        ensures { StandFrom bytes.now offset number used result }
    {
        let rest = match bytes.get(offset as usize..used as usize) {
            Some(rest) => rest,
            None => &[],
        };
        PlacedFrames {
            rest,
            offset,
            number,
        }
    }
}

impl<'a> Iterator for PlacedFrames<'a> {
    type Item = Placed<'a>;

    ghost use Rattle.std.specs.Prelude.{length};
    ghost use Rattle.std.specs.Iterator.{at_most};
    ghost use Rattle.rq_found.specs.Records.{WalksOn};

    ghost next_gives = { λ s r t. WalksOn s r t };

    ghost remaining = { λ s. at_most (length s.rest.now) };

    fn next(&mut self) -> Option<Placed<'a>> {
        let (frame, after) = first_frame(self.rest)?;
        let placed = Placed {
            offset: self.offset,
            number: self.number,
            body: frame.body,
        };
        self.rest = after;
        self.offset = self
            .offset
            .saturating_add(FRAME_LEN as u64)
            .saturating_add(frame.body.len() as u64);
        self.number = self.number.saturating_add(1);
        Some(placed)
    }
}
