//! The end of a front as JSON.

ghost use Rattle.std.specs.Prelude.{◌≡◌, string_bytes};
ghost use Rattle.rq_model.specs.Reports.{why_text};
ghost use Rattle.rq_judged.specs.Views.{why_of};

use crate::ends::End;
use serde::{Serialize, Serializer};

/// Where a front ends, and where the checkpoint stands that a log begins with which was carried on.
#[derive(Clone, Copy, Serialize)]
pub struct FrontShown<'a> {
    #[serde(skip_serializing_if = "Option::is_none")]
    carried_at: Option<u64>,
    records: u64,
    used: u64,
    total: u64,
    why: &'a str,
    reason: &'a str,
}

impl FrontShown<'_> {
    /// Begins an object of which it is the first field.
    pub fn begin<S: Serializer>(&self, out: &mut S) -> Result<(), S::Error> {
        out.begin_map(None)?;
        out.key("front")?;
        self.serialize(out)
    }
}

impl FrontShown<'_> {
    /// Where the front ends.
    pub fn of(end: &End) -> FrontShown<'_>
        ensures beginning { result.carried_at ≡ end.now.at }
        ensures records { result.records ≡ end.now.front.next }
        ensures used { result.used ≡ end.now.front.used }
        ensures total { result.total ≡ end.now.front.total }
        ensures why { result.why.now ≡ why_text (why_of end.now.front.why) }
        ensures reason { result.reason.now ≡ string_bytes end.now.reason }
    {
        FrontShown {
            carried_at: end.at,
            records: end.front.next,
            used: end.front.used,
            total: end.front.total,
            why: end.front.why.word(),
            reason: end.reason.as_str(),
        }
    }
}
