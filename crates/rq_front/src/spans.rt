//! A run of frames, and what follows it.

ghost use Rattle.std.specs.Prelude.{◌≡◌, ◌-◌};
ghost use Rattle.rq_front.specs.Walks.{spans_of};

/// Where the body of a frame lies in a log, in bytes. Its frame begins 4 bytes before it.
#[derive(Clone, Copy, Debug, PartialEq, Eq)]
pub struct Span {
    /// The offset of its first byte.
    pub start: usize,
    /// How many bytes it has.
    pub len: usize,
}

impl Span {
    /// The offset of its frame: the body's length is in the 4 bytes before the body. 0 if fewer
    /// bytes come before it, as in no frame.
    pub fn offset(self) -> usize
        ensures { result ≡ self.start - 4 }
    {
        self.start.saturating_sub(4)
    }
}

/// What follows the frames of a run; the first line that applies.
#[derive(Clone, Copy, Debug, PartialEq, Eq)]
pub enum Rest {
    /// Nothing.
    Whole,
    /// Fewer than 4 bytes, or fewer than the length there says that the frame has.
    Cut,
    /// A length of no body: 0, or more than 268,435,456.
    Length,
    /// A frame with a wrong digest.
    Digest,
}

/// The longest run of right frames from an offset.
#[derive(Debug, Drop)]
pub struct Chain {
    /// Where the bodies lie, in the order of the log.
    pub spans: Vec<Span>,
    /// The offset after the last frame.
    pub end: usize,
    /// What follows there.
    pub rest: Rest,
}

/// The frames from an offset on by their lengths only: their digests are still to be checked.
#[derive(Debug, Drop)]
pub struct Walk {
    pub(crate) found: Chain,
}

impl Walk {
    /// Where the bodies lie, in the order of the log.
    pub fn spans(&self) -> &[Span]
        ensures { result.now ≡ spans_of self.now }
    {
        &self.found.spans
    }
}
