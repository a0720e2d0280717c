//! Records of a recoverable queue manager's log, and the one spelling of each.
#![tactic(auto)]

mod check_bytes;
mod fault;
mod kept_by;
mod kept_name;
mod kept_payload;
mod kept_record;
mod log_bytes;
mod name;
mod payload;
mod readers;
mod record;
mod version;
mod writers;

pub use check_bytes::CheckBytes;
pub use fault::Fault;
pub use kept_by::KeptBy;
pub use kept_name::KeptName;
pub use kept_payload::KeptPayload;
pub use kept_record::{KeptRecord, kept_records};
pub use log_bytes::LogBytes;
pub use name::Name;
pub use payload::Payload;
pub use readers::{decode, decode_at, decode_in, decode_kept};
pub use record::{By, ElemId, QueueNo, Record, UnitNo};
pub use version::Version;
pub use writers::encode;
