//! A payload in 24 bytes: as a record and an element keep it.

ghost use Rattle.std.specs.Prelude.{◌≡◌, ◌<◌, ◌≤◌, ◌↔◌, length, IsSome, IfSome, IfOk, IfErr};
ghost use Rattle.rq_model.specs.Reading.{at_most};
ghost use Rattle.rq_record.specs.Kept.{bytes_of};
ghost use Rattle.rq_record.specs.LogParts.{EndsAt};
ghost use Rattle.rq_record.specs.Reading.{KeepsRead};
ghost use Rattle.rq_record.specs.declared.fault.Fault.TheVariants.{Resources};

use crate::fault::Fault;
use crate::log_bytes::LogEnd;
use crate::name::padded;
use crate::payload::Payload;
use std::alloc::Global;
use std::marker::Model;
use std::sync::ArcSlice;

/// A payload in 24 bytes, for records and elements, of which a log has many. Up to 22 bytes are
/// kept in place; more are shared by its copies, and with the log if that is shared.
#[derive(Drop)]
pub struct KeptPayload {
    bytes: Bytes,
}

// An array of 22, how many of these count, and the tag: 24 bytes, no more than a `Vec` without its
// items.
#[derive(Drop)]
enum Bytes {
    Inline {
        array: [u8; 22],
        len: u8,
    },
    Part {
        whole: ArcSlice<u8>,
        start: u32,
        len: u16,
    },
}

impl Model for KeptPayload {
    ghost use Rattle.std.specs.Prelude.{ℕ, List};
    ghost use Rattle.rq_record.specs.Kept.{bytes_of, FitsPayload};

    ghost Value = { List ℕ };

    ghost view = { λ p. bytes_of p.bytes };

    ghost invariant = { λ p. FitsPayload p.bytes };
}

// Keeps these bytes, which are no more than a payload may have.
fn kept(alloc: Global, bytes: &[u8]) -> Result<KeptPayload, Fault>
    requires { length bytes.now ≤ 65535 }
    ensures kept { IfOk result (λ p. p ≡ bytes.now) }
    ensures refused { IfErr result (λ e. (e ≡ Resources) × (22 < length bytes.now)) }
{
    let bytes = if bytes.len() <= 22 {
        Bytes::Inline {
            array: padded(bytes),
            len: bytes.len() as u8,
        }
    } else {
        Bytes::Part {
            whole: ArcSlice::from_slice(alloc, bytes)?,
            start: 0,
            len: bytes.len() as u16,
        }
    };
    Ok(KeptPayload { bytes })
}

impl KeptPayload {
    /// Keeps the payload. `Resources` if memory runs out; a payload of at most 22 bytes takes none.
    pub fn of(alloc: Global, payload: &Payload) -> Result<KeptPayload, Fault>
        ensures kept { IfOk result (λ p. p ≡ payload.now) }
        ensures refused { IfErr result (λ e. (e ≡ Resources) × (22 < length payload.now)) }
    {
        kept(alloc, payload.bytes())
    }

    /// Keeps a payload of these bytes; none if there are more than 65,535, and then no memory is
    /// asked for. Up to 22 bytes take none. `Resources` if memory runs out.
    pub fn from_slice(alloc: Global, bytes: &[u8]) -> Result<Option<KeptPayload>, Fault>
        ensures bounded { IfOk result (λ p. IsSome p ↔ (length bytes.now ≤ 65535)) }
        ensures bytes { IfOk result (λ p. IfSome p (λ q. q ≡ bytes.now)) }
        ensures refused { IfErr result
            (λ e. (e ≡ Resources) × (22 < length bytes.now) × (length bytes.now ≤ 65535)) }
    {
        if bytes.len() > Payload::LIMIT {
            return Ok(None);
        }
        Ok(Some(kept(alloc, bytes)?))
    }

    /// The same for the last bytes before an end in a log: if that is shared, a long payload is a
    /// part of it. `Form` if there are more than 65,535.
    #[tactic(auto, unfolding(rq_model::specs::Reading::at_most))]
    pub(crate) fn before(alloc: Global, at: &LogEnd<'_>, bytes: &[u8]) -> Result<KeptPayload, Fault>
        requires { EndsAt at.now.log.now at.now.end bytes.now }
        ensures { KeepsRead (λ p. p) result (at_most 65535 bytes.now) }
    {
        if 22 < bytes.len() && bytes.len() <= Payload::LIMIT {
            if let Some((whole, start)) = at.part_before(bytes)? {
                let len = bytes.len() as u16;
                let bytes = Bytes::Part { whole, start, len };
                return Ok(KeptPayload { bytes });
            }
        }
        match KeptPayload::from_slice(alloc, bytes)? {
            Some(payload) => Ok(payload),
            None => Err(Fault::Form),
        }
    }

    /// The bytes, with their bound.
    pub fn bytes(&self) -> &[u8]
        ensures bytes { result.now ≡ self.now }
        ensures bounded { length self.now ≤ 65535 }
    {
        match &self.bytes {
            Bytes::Inline { array, len } => &array[..*len as usize],
            Bytes::Part { whole, start, len } => {
                &whole.as_slice()[*start as usize..*start as usize + *len as usize]
            }
        }
    }

    /// The payload that is kept, in memory of its own. `Resources` if memory runs out.
    pub fn payload(&self, alloc: Global) -> Result<Payload, Fault>
        ensures same { IfOk result (λ p. p ≡ self.now) }
        ensures refused { IfErr result (λ e. e ≡ Resources) }
    {
        Ok(Payload::of_checked(Vec::from_slice(alloc, self.bytes())?))
    }

    /// A payload of the same bytes, none of which is copied into memory. `Resources` if they are
    /// shared too often.
    pub fn copied(&self) -> Result<KeptPayload, Fault>
        ensures copied { IfOk result (λ p. p ≡ self.now) }
        ensures refused { IfErr result (λ e. e ≡ Resources) }
    {
        let bytes = match &self.bytes {
            Bytes::Inline { array, len } => Bytes::Inline {
                array: *array,
                len: *len,
            },
            Bytes::Part { whole, start, len } => Bytes::Part {
                whole: whole.clone()?,
                start: *start,
                len: *len,
            },
        };
        Ok(KeptPayload { bytes })
    }
}
