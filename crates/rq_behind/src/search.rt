//! The right frames behind a front.

ghost use Rattle.std.specs.Prelude.{◌≡◌, ◌≤◌, ◌+◌, length, drop, All, IfOk};
ghost use Rattle.rq_model.specs.Frames.{HasFrame, stated};
ghost use Rattle.rq_front.specs.Walks.{IsRight};
ghost use Rattle.rq_record.specs.Views.{version_of};
ghost use Rattle.rq_behind.specs.Behind.{StandApart, AreRightFrames, frame_bytes, looked_to};

use crate::places::{SearchEnd, next_place};
use crate::runs::length_at;
use rq_front::Span;
use rq_record::Version;
use std::alloc::{AllocError, Global};

// How many times the bytes behind a front may be looked at in vain, and how many bytes more, which
// counts where few stand there.
const TIMES: usize = 2;

const MORE: usize = 1_048_576;

/// The right frames behind a front.
#[derive(Debug, Drop)]
pub struct Found {
    /// Where their bodies lie, in the order of the log.
    pub spans: Vec<Span>,
    /// How many of the bytes that were looked at belong to none of them.
    pub unfit: usize,
    /// The offset at which the search gave up, if it did: what stands there and behind it was not
    /// looked at.
    pub gave_up: Option<usize>,
}

// The body of the frame at an offset.
fn span_at(bytes: &[u8], at: usize) -> Span
    requires within { at ≤ length bytes.now }
    requires frame { HasFrame (drop at bytes.now) }
    ensures start { result.start ≡ at + 4 }
    ensures len { result.len ≡ stated (drop at bytes.now) }
    ensures high { result.start + (result.len + 32) ≤ length bytes.now }
{
    Span {
        start: at + 4,
        len: length_at(bytes, at).unwrap_or(0),
    }
}

impl Found {
    /// The frames behind an offset that are right in themselves. The next one is that which begins where
    /// the one before it ends. If none does, it is the one to which the length of a wrong frame leads,
    /// over at most one wrong frame more; else the first from which three right frames of records stand
    /// in a row, or fewer up to the end of the bytes.
    ///
    /// Digests that are made in vain are paid from a budget of twice the bytes behind the offset. If
    /// that is spent, the search gives up, and says where. `AllocError` is returned if memory runs out.
    pub fn of(
        alloc: Global,
        version: Version,
        bytes: &[u8],
        from: usize,
    ) -> Result<Found, AllocError>
        requires after { 32 ≤ from }
        requires within { from ≤ length bytes.now }
        ensures found { IfOk result
            (λ f. AreRightFrames (version_of version) bytes.now from f.spans.items f.gave_up) }
        ensures right { IfOk result (λ f. All (IsRight bytes.now) f.spans.items) }
        ensures apart { IfOk result (λ f. StandApart from (length bytes.now) f.spans.items) }
        ensures rest { IfOk result (λ f. from + (f.unfit + frame_bytes f.spans.items)
            ≡ looked_to bytes.now f.gave_up) }
    {
        let mut budget = (bytes.len() - from)
            .saturating_mul(TIMES)
            .saturating_add(MORE);
        let mut spans = Vec::new(alloc);
        let mut at = from;
        let mut unfit = 0;
        'frames: loop {
            match next_place(version, bytes, at, &mut budget) {
                SearchEnd::At(place) => {
                    let span = span_at(bytes, place);
                    unfit += place - at;
                    at = span.start + span.len + 32;
                    spans.push(span)?;
                }
                SearchEnd::Nowhere(gave_up) => {
                    unfit += gave_up.unwrap_or(bytes.len()) - at;
                    return Ok(Found {
                        spans,
                        unfit,
                        gave_up,
                    });
                }
            }
        }
    }
}
