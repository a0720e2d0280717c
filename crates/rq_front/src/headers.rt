//! The header of a log, in each version.

ghost use Rattle.std.specs.Prelude.{◌≡◌, ◌↔◌, IsTrue, IfSome, IfNone};
ghost use Rattle.rq_model.specs.Frames.{HasHeader};
ghost use Rattle.rq_model.specs.Frames as frames;
ghost use Rattle.rq_record.specs.Views.{version_of};
ghost use Rattle.rq_front.specs.Chains.{IsHeaded};

use crate::HEADER_LEN;
use rq_record::Version;
use sha2::{Digest, Sha256};

/// The name of the format, and the version.
pub(crate) fn magic(version: Version) -> [u8; 8]
    ensures { result ≡ frames.magic (version_of version) }
{
    match version {
        Version::One => *b"RQLOG\0\0\x01",
        Version::Two => *b"RQLOG\0\0\x02",
    }
}

// Whether the bytes begin with the header of this version.
fn has_header(version: Version, bytes: &[u8]) -> bool
    ensures { IsTrue result ↔ HasHeader (version_of version) bytes.now }
{
    if bytes.len() < HEADER_LEN {
        return false;
    }
    let magic = magic(version);
    let digest = Sha256::digest(magic);
    &bytes[..8] == magic.as_slice() && &bytes[8..HEADER_LEN] == digest.as_slice()
}

/// The version whose header the first 40 bytes are; none if they are not a header. Takes no memory.
pub fn version(bytes: &[u8]) -> Option<Version>
    ensures some { IfSome result (λ v. HasHeader (version_of v) bytes.now) }
    ensures none { IfNone result (IsHeaded bytes.now → ⊥) }
{
    if has_header(Version::One, bytes) {
        Some(Version::One)
    } else if has_header(Version::Two, bytes) {
        Some(Version::Two)
    } else {
        None
    }
}
