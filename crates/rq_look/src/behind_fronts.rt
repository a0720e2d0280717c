//! What stands behind the front of a log.

ghost use Rattle.std.specs.Prelude.{◌≡◌, ◌++◌, length, IfOk, IfErr, OnOk, string_bytes};
ghost use Rattle.rq_record.specs.declared.fault.Fault.TheVariants.{Resources};
ghost use Rattle.rq_behind.specs.Behind.{StandApart};
ghost use Rattle.rq_judged.specs.Views.{why_of};
ghost use Rattle.rq_look.specs.Findings.{EndsWithin, IsBehind, behind_finding, behind_text};
ghost use Rattle.rq_look.specs.Findings as spec;
ghost use Rattle.rq_look.specs.Findings.{count_text, frames_text, given_up_text};

use rq_behind::Found;
use rq_found::{End, Put};
use rq_front::{Span, version};
use rq_record::Fault;
use std::alloc::Global;
use std::fmt::Write;

/// What stands behind the front of a log of which the end is known. Refuses if memory is refused.
pub fn standing_behind(alloc: Global, bytes: &[u8], end: &End) -> Result<Found, Fault>
    requires { EndsWithin bytes.now end.now }
    ensures found { IfOk result (IsBehind bytes.now end.now.front.used) }
    ensures apart { IfOk result
        (λ f. StandApart end.now.front.used (length bytes.now) f.spans.items) }
    ensures refused { IfErr result (λ e. e ≡ Resources) }
{
    // A log has a header, so memory alone is refused.
    let Some(version) = version(bytes) else {
        return Err(Fault::Resources);
    };
    Ok(Found::of(alloc, version, bytes, end.front.used as usize)?)
}

/// Whether a frame behind a front may be right in itself: one was found, or the search gave up.
pub fn may_have_right(found: &Found) -> bool
    ensures { result ≡ spec.may_have_right found.now }
{
    found.gave_up.is_some() || !found.spans.is_empty()
}

fn put_frames(text: &mut String, spans: &[Span]) -> Put
    ensures { OnOk result
        (string_bytes text.new ≡ string_bytes text.old ++ frames_text spans.now) }
{
    let Some(first) = spans.first() else {
        return text.push_str("no frame is right in itself");
    };
    let (count, first) = (spans.len(), first.offset());
    write!(
        text,
        "{count} frames are right in themselves, the first at {first}"
    )
}

/// Puts where the search gave up, if it did, of so many bytes, as a line.
pub(crate) fn put_given_up(text: &mut String, gave_up: Option<usize>, total: u64) -> Put
    ensures { OnOk result
        (string_bytes text.new ≡ string_bytes text.old ++ given_up_text gave_up total) }
{
    let Some(place) = gave_up else {
        return Ok(());
    };
    let rest = total.saturating_sub(place as u64);
    write!(
        text,
        "the search gave up at {place}: {rest} bytes were not looked at\n"
    )
}

/// Puts how many right frames stand behind a front, where the first begins, and how many bytes fit
/// nothing, as a line.
pub(crate) fn put_count(text: &mut String, found: &Found) -> Put
    ensures { OnOk result
        (string_bytes text.new ≡ string_bytes text.old ++ count_text found.now) }
{
    text.push_str("behind it ")?;
    put_frames(text, &found.spans)?;
    let unfit = found.unfit;
    write!(text, "; {unfit} bytes fit nothing\n")
}

/// Puts what stands behind a front, of so many bytes: this line, and another if the search gave up.
/// Refuses if memory is refused, and then some of it may stand there.
pub fn put_behind(text: &mut String, found: &Found, total: u64) -> Put
    ensures { OnOk result
        (string_bytes text.new ≡ string_bytes text.old ++ behind_text found.now total) }
{
    put_count(text, found)?;
    put_given_up(text, found.gave_up, total)
}

/// Puts the same behind the line of a front's end, unless nothing follows the front.
pub(crate) fn put_rest(text: &mut String, end: &End, found: &Found) -> Put
    ensures { OnOk result (string_bytes text.new ≡ string_bytes text.old
        ++ behind_finding (why_of end.now.front.why) found.now end.now.front.total) }
{
    if end.is_whole() {
        return Ok(());
    }
    put_behind(text, found, end.front.total)
}
