//! Whether what stands behind a front is what a crash can leave there.

ghost use Rattle.std.specs.Prelude.{◌≡◌, ◌≤◌, length, IfOk, IfErr, MatchOption};
ghost use Rattle.rq_record.specs.Views.{version_of};
ghost use Rattle.rq_record.specs.declared.fault.Fault.TheVariants.{Resources};
ghost use Rattle.rq_judged.specs.Views.{why_of};
ghost use Rattle.rq_journal.specs.LeftBehind.{HasNoRightFrame, IsDamage, IsExcess, IsLeftByCrash};
ghost use Rattle.rq_journal.specs.LeftBehind.{IsSeenBehind, MayBeLeft};

use rq_behind::{Found, Scan};
use rq_record::{Fault, Version};
use rq_restart::Why;
use std::alloc::Global;

/// Why what stands behind a front is not what a crash can leave there.
#[derive(Clone, Copy, PartialEq, Eq, Debug)]
pub enum Damage {
    /// The next frame is right in itself, and the front ends by its record.
    Unlawful,
    /// It is no beginning of a frame, and has more than 1,048,576 bytes.
    Long,
    /// A frame that is right in itself stands at this offset.
    Right(usize),
    /// Too many bytes were looked at in vain. From this offset on it is not known whether such a frame
    /// stands there.
    Unsearched(usize),
}

// The first right frame to which the frames behind a front lead; where the search for it gave up.
#[tactic(auto, using(crate::proofs::LeftFrames::first_right, crate::proofs::LeftFrames::none_found))]
fn led_to(
    alloc: Global,
    version: Version,
    bytes: &[u8],
    used: usize,
) -> Result<Option<Damage>, Fault>
    requires after { 32 ≤ used }
    requires within { used ≤ length bytes.now }
    ensures seen { IfOk result (λ seen. MatchOption seen
        (HasNoRightFrame (version_of version) bytes.now used) (IsSeenBehind bytes.now used)) }
    ensures refused { IfErr result (λ e. e ≡ Resources) }
{
    let found = Found::of(alloc, version, bytes, used)?;
    if let Some(first) = found.spans.first() {
        return Ok(Some(Damage::Right(first.offset())));
    }
    match found.gave_up {
        Some(place) => Ok(Some(Damage::Unsearched(place))),
        None => Ok(None),
    }
}

// Why no crash leaves so many bytes behind a front that ends for this reason; none if one can.
fn excess(why: Why, left: usize) -> Option<Damage>
    ensures { MatchOption result (MayBeLeft (why_of why) left) (IsExcess (why_of why) left) }
{
    match why {
        Why::Whole | Why::Cut => None,
        Why::Length | Why::Chain => {
            if left > Why::TORN_LEN {
                Some(Damage::Long)
            } else {
                None
            }
        }
        Why::Form | Why::Law => Some(Damage::Unlawful),
    }
}

impl Damage {
    /// Why what stands behind a front is not what a crash can leave there; none exactly if it can. A
    /// crash leaves nothing, or the beginning of a frame; or at most 1,048,576 bytes, as of a frame some
    /// of whose pages were not written, or zeros. No frame that is right in itself is left by a crash: it
    /// was written whole.
    ///
    /// `Resources` is returned if memory is refused.
    pub fn left_behind(
        alloc: Global,
        version: Version,
        bytes: &[u8],
        used: usize,
        why: Why,
    ) -> Result<Option<Damage>, Fault>
        requires after { 32 ≤ used }
        requires within { used ≤ length bytes.now }
        ensures damage { IfOk result (λ damage. MatchOption damage
            (IsLeftByCrash (version_of version) bytes.now used (why_of why))
            (IsDamage bytes.now used (why_of why))) }
        ensures refused { IfErr result (λ e. e ≡ Resources) }
    {
        if let Some(damage) = excess(why, bytes.len() - used) {
            return Ok(Some(damage));
        }
        if let Some(damage) = led_to(alloc, version, bytes, used)? {
            return Ok(Some(damage));
        }
        match Scan::of(version, bytes, used) {
            Scan::Clear => Ok(None),
            Scan::At(place) => Ok(Some(Damage::Right(place))),
            Scan::GaveUp(place) => Ok(Some(Damage::Unsearched(place))),
        }
    }
}
