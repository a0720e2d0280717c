//! The header of a carried file, and how such a file is read as a log.

ghost use Rattle.std.specs.Prelude.{◌≡◌, ◌↔◌, ◌++◌, ◌≤◌, IsTrue, IfSome, IfNone, length, drop};
ghost use Rattle.sha2.specs.Sha256.{sha256};
ghost use Rattle.rq_model.specs.Carrying as carrying;
ghost use Rattle.rq_model.specs.Carrying.{HasCarriedHeader};
ghost use Rattle.rq_model.specs.Frames as frames;
ghost use Rattle.rq_model.specs.Frames.{HasHeader};
ghost use Rattle.rq_record.specs.Views.{version_of};
ghost use Rattle.rq_record.specs.Writing.{Appends};
ghost use Rattle.rq_front.specs.Chains.{IsHeaded, IsCarried};

use crate::HEADER_LEN;
use crate::headers::{magic, version};
use crate::writers::put_magic;
use rq_record::{Fault, Version};
use sha2::{Digest, Sha256};

/// Where the first frame of a carried file stands, a checkpoint: behind its header and the 32 bytes
/// that link it to the log before it.
pub const CARRIED_AT: usize = 72;

// The name of the format of carried files, and the version.
fn carried_magic(version: Version) -> [u8; 8]
    ensures { result ≡ carrying.carried_magic (version_of version) }
{
    match version {
        Version::One => *b"RQLOG\x01\0\x01",
        Version::Two => *b"RQLOG\x01\0\x02",
    }
}

// Whether the bytes begin with the header of a carried file of this version.
fn has_carried_header(version: Version, bytes: &[u8]) -> bool
    ensures { IsTrue result ↔ HasCarriedHeader (version_of version) bytes.now }
{
    if bytes.len() < HEADER_LEN {
        return false;
    }
    let magic = carried_magic(version);
    let digest = Sha256::digest(magic);
    &bytes[..8] == magic.as_slice() && &bytes[8..HEADER_LEN] == digest.as_slice()
}

// The version of the carried file that the bytes begin.
fn carried_version(bytes: &[u8]) -> Option<Version>
    ensures some { IfSome result (λ v. HasCarriedHeader (version_of v) bytes.now) }
    ensures none { IfNone result (IsCarried bytes.now → ⊥) }
{
    if has_carried_header(Version::One, bytes) {
        Some(Version::One)
    } else if has_carried_header(Version::Two, bytes) {
        Some(Version::Two)
    } else {
        None
    }
}

/// Whether bytes begin as a carried file. The first 40 tell it. Takes no memory.
pub fn is_carried(bytes: &[u8]) -> bool
    ensures { IsTrue result ↔ IsCarried bytes.now }
{
    carried_version(bytes).is_some()
}

// Puts 8 bytes and their digest in place of the first 40.
fn put_in_place(magic: [u8; 8], bytes: &mut [u8])
    requires { 40 ≤ length bytes.old }
    ensures { bytes.new ≡ (magic ++ sha256 magic) ++ drop 40 bytes.old }
{
    let digest = Sha256::digest(magic);
    bytes[..8].copy_from_slice(&magic);
    bytes[8..HEADER_LEN].copy_from_slice(&digest);
}

/// Makes of a carried file the log as which it is read: the header of a log of its version stands in
/// place of its own, and all calls take it as one. Answers the version; of bytes that are no carried
/// file it answers none, and leaves them as they are. Takes no memory.
pub fn read_as_log(bytes: &mut [u8]) -> Option<Version>
    ensures some { IfSome result (λ v. HasCarriedHeader (version_of v) bytes.old
        × (bytes.new ≡ carrying.as_log (version_of v) bytes.old)) }
    ensures none { IfNone result ((IsCarried bytes.old → ⊥) × (bytes.new ≡ bytes.old)) }
{
    let version = carried_version(bytes)?;
    put_in_place(magic(version), bytes);
    Some(version)
}

/// Makes of the log as which a carried file was read that file again: its header stands in place of
/// the log's. Answers the version; of bytes that are no log it answers none, and leaves them as they
/// are. Takes no memory.
pub fn write_as_carried(bytes: &mut [u8]) -> Option<Version>
    ensures some { IfSome result (λ v. HasHeader (version_of v) bytes.old
        × (bytes.new ≡ carrying.carried_header (version_of v) ++ drop 40 bytes.old)) }
    ensures none { IfNone result ((IsHeaded bytes.old → ⊥) × (bytes.new ≡ bytes.old)) }
{
    let version = version(bytes)?;
    put_in_place(carried_magic(version), bytes);
    Some(version)
}

/// Appends the header of a carried file of this version: `RQLOG`, a one, a zero byte, the version, and
/// the SHA-256 of these 8 bytes.
///
/// `Resources` is returned if memory runs out; `out` is then as before.
pub fn carried_header_of(version: Version, out: &mut Vec<u8>) -> Result<(), Fault>
    ensures { Appends out.old.items out.new.items
        (carrying.carried_header (version_of version)) result }
{
    put_magic(carried_magic(version), out)
}
