//! The bytes of a checkpoint record.

ghost use Rattle.std.specs.Prelude.{◌≡◌, ◌≤◌, ◌↔◌, [], length, IsSome, IfSome, IfOk, IfErr};
ghost use Rattle.rq_model.specs.Reading.{at_most};
ghost use Rattle.rq_record.specs.LogParts.{EndsAt};
ghost use Rattle.rq_record.specs.Reading.{KeepsRead};
ghost use Rattle.rq_record.specs.declared.fault.Fault.TheVariants.{Resources};

use crate::fault::Fault;
use crate::log_bytes::LogEnd;
use std::alloc::Global;
use std::marker::Model;
use std::sync::ArcSlice;

/// The bytes of a checkpoint record after its kind byte, at most 268,435,455: a part of the log if
/// that is shared.
#[derive(Drop)]
pub struct CheckBytes {
    bytes: Kept,
}

#[derive(Drop)]
enum Kept {
    Own(Vec<u8>),
    Part {
        whole: ArcSlice<u8>,
        start: u32,
        len: u32,
    },
}

impl Model for CheckBytes {
    ghost use Rattle.std.specs.Prelude.{ℕ, List};
    ghost use Rattle.rq_record.specs.Kept.{check_bytes_of, FitsCheck};

    ghost Value = { List ℕ };

    ghost view = { λ p. check_bytes_of p.bytes };

    ghost invariant = { λ p. FitsCheck p.bytes };
}

impl CheckBytes {
    /// The most bytes: a record has at most 268,435,456, and the first is its kind.
    pub const LIMIT: usize = 268_435_455;

    /// These bytes; none if there are more than 268,435,455, which are dropped. Takes no memory.
    pub fn new(bytes: Vec<u8>) -> Option<CheckBytes>
        ensures bounded { IsSome result ↔ (length bytes.items ≤ 268435455) }
        ensures bytes { IfSome result (λ p. p ≡ bytes.items) }
    {
        if bytes.len() <= CheckBytes::LIMIT {
            let bytes = Kept::Own(bytes);
            return Some(CheckBytes { bytes });
        }
        None
    }

    /// Lets go of the bytes: there are none then. Takes no memory.
    pub fn clear(&mut self, alloc: Global)
        ensures { self.new ≡ [] }
    {
        self.bytes = Kept::Own(Vec::new(alloc));
    }

    /// The last bytes before an end in a log: a part of it if that is shared, else a copy. `Form` if
    /// there are more than 268,435,455, which is found before memory is asked for.
    #[tactic(auto, unfolding(rq_model::specs::Reading::at_most))]
    pub(crate) fn before(alloc: Global, at: &LogEnd<'_>, bytes: &[u8]) -> Result<CheckBytes, Fault>
        requires { EndsAt at.now.log.now at.now.end bytes.now }
        ensures { KeepsRead (λ p. p) result (at_most 268435455 bytes.now) }
    {
        if bytes.len() > CheckBytes::LIMIT {
            return Err(Fault::Form);
        }
        if let Some((whole, start)) = at.part_before(bytes)? {
            let len = bytes.len() as u32;
            let bytes = Kept::Part { whole, start, len };
            return Ok(CheckBytes { bytes });
        }
        let bytes = Kept::Own(Vec::from_slice(alloc, bytes)?);
        Ok(CheckBytes { bytes })
    }

    /// The same bytes: a part of a log stays that part, others are copied. `Resources` if memory
    /// runs out.
    pub fn copied(&self, alloc: Global) -> Result<CheckBytes, Fault>
        ensures copied { IfOk result (λ p. p ≡ self.now) }
        ensures refused { IfErr result (λ e. e ≡ Resources) }
    {
        let bytes = match &self.bytes {
            Kept::Own(bytes) => Kept::Own(Vec::from_slice(alloc, bytes)?),
            Kept::Part { whole, start, len } => Kept::Part {
                whole: whole.clone()?,
                start: *start,
                len: *len,
            },
        };
        Ok(CheckBytes { bytes })
    }

    /// The bytes, with their bound.
    pub fn bytes(&self) -> &[u8]
        ensures bytes { result.now ≡ self.now }
        ensures bounded { length self.now ≤ 268435455 }
    {
        match &self.bytes {
            Kept::Own(bytes) => bytes,
            Kept::Part { whole, start, len } => {
                &whole.as_slice()[*start as usize..*start as usize + *len as usize]
            }
        }
    }
}
