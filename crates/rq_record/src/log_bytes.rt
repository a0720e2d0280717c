//! The bytes of a log.

ghost use Rattle.std.specs.Prelude.{◌≡◌, length, All, IfOk, IfErr, IfSome};
ghost use Rattle.std.specs.Arc.{arc_slice_items};
ghost use Rattle.rq_record.specs.LogParts.{EndsAt, IsPartOf};
ghost use Rattle.rq_record.specs.declared.fault.Fault.TheVariants.{Resources};

use crate::fault::Fault;
use std::marker::Model;
use std::slice::from_ref;
use std::sync::ArcSlice;

/// The bytes of a log, borrowed or shared. What is read of them does not depend on which. If they
/// are shared, a checkpoint and a long payload are parts of them and no copies; each of these then
/// keeps the whole log in memory.
#[derive(Drop)]
pub struct LogBytes<'a> {
    bytes: &'a [u8],
    // None or one.
    whole: &'a [ArcSlice<u8>],
}

impl<'a> Model for LogBytes<'a> {
    ghost use Rattle.std.specs.Prelude.{◌≡◌, ℕ, List, All};
    ghost use Rattle.std.specs.Arc.{arc_slice_items};

    ghost Value = { List ℕ };

    ghost view = { λ p. p.bytes.now };

    ghost invariant = { λ p. All (λ log. arc_slice_items log ≡ p.bytes.now) p.whole.now };
}

impl<'a> LogBytes<'a> {
    /// Borrowed bytes: what is kept of them is copied.
    pub fn borrowed(bytes: &'a [u8]) -> LogBytes<'a>
        ensures { result ≡ bytes.now }
    {
        LogBytes { bytes, whole: &[] }
    }

    /// Shared bytes: what is kept of them may be a part of them.
    pub fn shared(whole: &'a ArcSlice<u8>) -> LogBytes<'a>
        ensures { result ≡ arc_slice_items whole.now }
    {
        LogBytes {
            bytes: whole.as_slice(),
            whole: from_ref(whole),
        }
    }

    /// The bytes of a log, and the log itself if it shares them.
    pub fn of_parts(bytes: &'a [u8], whole: &'a [ArcSlice<u8>]) -> LogBytes<'a>
        requires { All (λ log. arc_slice_items log ≡ bytes.now) whole.now }
        ensures { result ≡ bytes.now }
    {
        LogBytes { bytes, whole }
    }

    /// The log itself, if it shares them. A closure captures it beside `as_slice`, since its contract
    /// does not reach what has a lifetime of its own.
    pub fn whole(&self) -> &'a [ArcSlice<u8>]
        ensures { All (λ log. arc_slice_items log ≡ self.now) result.now }
    {
        self.whole
    }

    /// The bytes.
    pub fn as_slice(&self) -> &'a [u8]
        ensures { result.now ≡ self.now }
    {
        self.bytes
    }

    /// How many they are.
    pub fn len(&self) -> usize
        ensures { result ≡ length self.now }
    {
        self.as_slice().len()
    }
}

/// An end in a log: what is read stands before it.
#[derive(Drop)]
pub(crate) struct LogEnd<'a> {
    pub(crate) log: &'a LogBytes<'a>,
    pub(crate) end: usize,
}

impl LogEnd<'_> {
    /// The whole, if it is shared, and where these last bytes before the end begin in it.
    pub(crate) fn part_before(&self, bytes: &[u8]) -> Result<Option<(ArcSlice<u8>, u32)>, Fault>
        requires { EndsAt self.now.log.now self.now.end bytes.now }
        ensures part { IfOk result
            (λ p. IfSome p (λ x. IsPartOf (arc_slice_items x.0) x.1 bytes.now)) }
        ensures refused { IfErr result (λ e. e ≡ Resources) }
    {
        let log = self.log;
        let Some(whole) = log.whole.first() else {
            return Ok(None);
        };
        if self.end > u32::MAX as usize {
            return Ok(None);
        }
        let start = (self.end - bytes.len()) as u32;
        Ok(Some((whole.clone()?, start)))
    }
}
