//! Why nothing more is shown, and of what.

ghost use Rattle.std.specs.Prelude.{◌≡◌};
ghost use Rattle.rq_record.specs.declared.fault.Fault.TheVariants.{Resources};
ghost use Rattle.rq_found.specs.declared.trouble.Trouble.TheVariants.{Log};

use rq_record::Fault;
use std::alloc::AllocError;
use std::fmt;
use thiserror::Error;

/// What is told of a log.
#[derive(Clone, Copy, Debug, PartialEq, Eq)]
pub enum Subject {
    /// What became of the element of this number.
    Element(u64),
    /// What the unit of this number did.
    Unit(u64),
}

impl fmt::Display for Subject {
    fn fmt<W: fmt::Write>(&self, f: &mut fmt::Formatter<W>) -> fmt::Result {
        match self {
            Subject::Element(element) => write!(f, "element {element}"),
            Subject::Unit(unit) => write!(f, "unit {unit}"),
        }
    }
}

/// Why a log is not shown, or not to its end.
#[derive(Debug, Drop, Error)]
pub enum Trouble {
    /// The log is refused, or memory is; or, with `WriteFailed`, a write of what is shown failed.
    #[error("{0}")]
    Log(Fault),
    /// The script ends before the record of this number, as one that no script tells: its operation
    /// names the registrant `-`.
    #[error("no script tells record {0}")]
    Untold(u64),
    /// There is no queue of this number.
    #[error("no queue {0}")]
    NoQueue(u32),
    /// There is nothing to tell of this element, or of this unit.
    #[error("no {0}")]
    Nothing(Subject),
}

impl From<Fault> for Trouble {
    ghost from_gives = { λ fault e. e ≡ Log fault };

    fn from(fault: Fault) -> Trouble {
        Trouble::Log(fault)
    }
}

impl From<AllocError> for Trouble {
    ghost from_gives = { λ _ e. e ≡ Log Resources };

    fn from(_error: AllocError) -> Trouble {
        Trouble::Log(Fault::Resources)
    }
}

// What is written as JSON here fails for want of memory alone.
impl From<serde_json::Error> for Trouble {
    ghost from_gives = { λ _ e. e ≡ Log Resources };

    fn from(_error: serde_json::Error) -> Trouble {
        Trouble::Log(Fault::Resources)
    }
}
