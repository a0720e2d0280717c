//! When a served log is carried on by itself, and who hears of that.

ghost use Rattle.std.specs.Prelude.{◌≡◌, ◌≤◌};
ghost use Rattle.rq_serve.specs.Carrying as spec;

use crate::refusals::Refused;

// The most bytes of a log.
const LIMIT: usize = 4_294_967_295;

/// Who hears what no answer tells.
pub trait Operator {
    /// The log was carried on by itself: it goes on in a new one, behind so many records.
    fn hear_carried(&mut self, records: u64);

    /// The log was not carried on, by itself or for a request, and goes on as it is.
    fn hear_refused(&mut self, why: Refused);
}

/// At which length a log is carried on.
#[derive(Clone, Copy, PartialEq, Eq, Debug)]
pub struct CarryPoint {
    // At so many bytes.
    least: usize,
    // So many bytes the log began with.
    begins: usize,
    // If that was tried, not before it has so many bytes.
    not_before: usize,
}

impl CarryPoint {
    /// When the log has so many bytes, and twice as many as it began with: so a state that nearly fills
    /// the log is not written anew at every line.
    pub fn new(least: usize, begins: usize) -> CarryPoint
        ensures { result ≡ spec.first_point least begins }
    {
        CarryPoint {
            least,
            begins,
            not_before: 0,
        }
    }

    /// Whether a log of so many bytes is to be carried on.
    pub(crate) fn is_due(&self, len: usize) -> bool
        ensures { result ≡ spec.is_due self.now len }
    {
        self.least <= len && self.begins <= len / 2 && self.not_before <= len
    }

    /// The log was carried on, and began with so many bytes.
    pub(crate) fn begin_anew(&mut self, begins: usize)
        ensures { self.new ≡ spec.carried_anew self.old begins }
    {
        self.begins = begins;
        self.not_before = 0;
    }

    /// The log of so many bytes was not carried on: it is tried again when it has more than a tenth of
    /// those that were left.
    pub(crate) fn put_off(&mut self, len: usize)
        ensures { len ≤ 4294967295 → self.new ≡ spec.put_off self.old len }
    {
        self.not_before = len.saturating_add(LIMIT.saturating_sub(len) / 10 + 1);
    }
}
