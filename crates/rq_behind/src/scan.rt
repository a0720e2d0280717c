//! Whether a right record stands anywhere in the bytes behind a front.

ghost use Rattle.std.specs.Prelude.{◌≤◌, length, MatchOption};
ghost use Rattle.rq_record.specs.Views.{version_of};
ghost use Rattle.rq_behind.specs.Scans.{HasRecordAt, IsSeenAt, Scans};

use crate::places::spend;
use crate::runs::{judge, likely_end};
use rq_record::Version;

// The most bytes of a frame that is looked for at each place. Only that of a checkpoint has more.
const SCANNED_LEN: usize = 1_048_576;

// How many times the bytes may be looked at in vain, and how many bytes more, which counts where few
// stand there.
const TIMES: usize = 16;

const MORE: usize = 67_108_864;

/// What a look at each place finds.
#[derive(Clone, Copy, PartialEq, Eq, Debug)]
pub enum Scan {
    /// A right record stands nowhere.
    Clear,
    /// One stands at this offset, and none before it.
    At(usize),
    /// Too many bytes were looked at in vain: from this offset on nothing was looked at.
    GaveUp(usize),
}

/// What a place shows: that a right record stands there, or that nothing may be spent any more. None
/// if none stands there.
pub(crate) fn seen_at(version: Version, bytes: &[u8], at: usize, budget: &mut usize) -> Option<Scan>
    requires after { 32 ≤ at }
    requires within { at ≤ length bytes.now }
    ensures { MatchOption result (HasRecordAt (version_of version) bytes.now at → ⊥)
        (IsSeenAt (version_of version) bytes.now at) }
{
    let end = likely_end(version, bytes, at)?;
    if end > at + SCANNED_LEN {
        return None;
    }
    if *budget == 0 {
        return Some(Scan::GaveUp(at));
    }
    if judge(bytes, at).is_right {
        return Some(Scan::At(at));
    }
    spend(budget, at, end);
    None
}

impl Scan {
    /// The first right record from an offset on: a frame that is right in itself, of at most 1,048,576
    /// bytes, whose body spells a record. Each place is looked at, whatever stands before it.
    ///
    /// Digests that are made in vain are paid from a budget of sixteen times the bytes, and 64 MiB more.
    /// If that is spent, the answer says where.
    pub fn of(version: Version, bytes: &[u8], from: usize) -> Scan
        requires after { 32 ≤ from }
        requires within { from ≤ length bytes.now }
        ensures { Scans (version_of version) bytes.now from result }
    {
        let mut budget = (bytes.len() - from)
            .saturating_mul(TIMES)
            .saturating_add(MORE);
        for at in from..bytes.len() {
            match seen_at(version, bytes, at, &mut budget) {
                Some(seen) => return seen,
                None => {}
            }
        }
        Scan::Clear
    }
}
