//! Why a call was refused.

ghost use Rattle.std.specs.Prelude.{◌≡◌};
ghost use Rattle.rq_record.specs.declared.fault.Fault.TheVariants.{Resources};
ghost use Rattle.rq_record.specs.Faults.{exit_of};

use std::alloc::{AllocError, AllocFailed};
use thiserror::Error;

/// The one list of faults, for all calls. The text of each call says how it leaves what it was lent
/// if it returns a fault.
#[derive(Clone, Copy, PartialEq, Eq, Debug, Error)]
pub enum Fault {
    /// A body spells no record.
    #[error("no record")]
    Form,
    /// The bytes do not begin with the header of a log.
    #[error("not a log")]
    NotALog,
    /// A log or a script has more than 4,294,967,295 bytes, a log to be made would have them, or a
    /// front to be kept would have more records. If a log is closed and would have them then, the
    /// fault is `TooLarge`.
    #[error("too long")]
    TooLong,
    /// The spelling of a state is longer than the 268,435,455 bytes that a checkpoint record holds;
    /// or a log, closed by its tail, would have more than 4,294,967,295 bytes.
    #[error("too large")]
    TooLarge,
    /// The bytes of a checkpoint spell no well-formed state.
    #[error("bad checkpoint")]
    BadCheckpoint,
    /// The host refused memory.
    #[error("resources")]
    Resources,
    /// There is no checkpoint record at the offset.
    #[error("no checkpoint")]
    NoCheckpoint,
    /// The line with this number, counted from 1, is no line of a script.
    #[error("script line {0}")]
    Script(u64),
    /// The input could not be read.
    #[error("read fault")]
    ReadFailed,
    /// The output could not be written.
    #[error("write fault")]
    WriteFailed,
}

impl From<AllocError> for Fault {
    ghost from_gives = { λ _ e. e ≡ Resources };

    fn from(_e: AllocError) -> Fault {
        Fault::Resources
    }
}

impl<T: Drop> From<AllocFailed<T>> for Fault {
    ghost from_gives = { λ _ e. e ≡ Resources };

    fn from(_e: AllocFailed<T>) -> Fault {
        Fault::Resources
    }
}

impl Fault {
    /// The exit status of a program that ends by this fault: 4 if memory was refused, 3 if reading
    /// or writing failed, else 1.
    pub fn exit(&self) -> u8
        ensures { result ≡ exit_of self.now }
    {
        match self {
            Fault::Resources => 4,
            Fault::ReadFailed | Fault::WriteFailed => 3,
            _ => 1,
        }
    }
}
