//! What a framer makes of bodies, and where it stands then.

use rq_front::{Framer, header_of};
use rq_record::{Fault, Version};
use sha2::{Digest, Sha256};
use std::alloc::{AllocError, Global};
use std::test::Fail;

const BODIES: [&[u8]; 3] = [b"a", b"bc", b"d"];

const FIRST: [&[u8]; 1] = [b"a"];

const OTHERS: [&[u8]; 2] = [b"bc", b"d"];

// A log by hand: a header, and behind it for each body its length, the body, and the digest of the 32
// bytes before these with them.
fn by_hand(alloc: Global, magic: &[u8; 8], bodies: &[&[u8]]) -> Result<Vec<u8>, AllocError> {
    let mut log = Vec::from_slice(alloc, magic)?;
    log.extend_from_slice(&Sha256::digest(magic))?;
    for body in bodies {
        let from = log.len().saturating_sub(32);
        log.extend_from_slice(&[0, 0, 0, u8::try_from(body.len()).unwrap_or(0)])?;
        log.extend_from_slice(body)?;
        let digest = Sha256::digest(log.get(from..).unwrap_or(&[]));
        log.extend_from_slice(&digest)?;
    }
    Ok(log)
}

// Whether the framer has room for a short body, and puts its frame there.
fn puts(framer: &mut Framer, body: &[u8], out: &mut Vec<u8>) -> Result<bool, Fault> {
    if body.is_empty() || 2 < body.len() || !framer.has_room(body.len()) {
        return Ok(false);
    }
    framer.put(body, out)?;
    Ok(true)
}

// Whether it puts all of these.
fn puts_all(framer: &mut Framer, bodies: &[&[u8]], out: &mut Vec<u8>) -> Result<bool, Fault> {
    for body in bodies {
        if !puts(framer, body, out)? {
            return Ok(false);
        }
    }
    Ok(true)
}

// The log of these bodies, by a framer.
fn framed(alloc: Global, version: Version, bodies: &[&[u8]]) -> Result<Vec<u8>, Fault> {
    let mut log = Vec::new(alloc);
    header_of(version, &mut log)?;
    puts_all(&mut Framer::new(version), bodies, &mut log)?;
    Ok(log)
}

#[test]
fn bodies_are_framed_behind_a_header(rt: HostRuntime) -> Result<(), Fail> {
    for (version, magic) in [
        (Version::One, b"RQLOG\0\0\x01"),
        (Version::Two, b"RQLOG\0\0\x02"),
    ] {
        let want = by_hand(rt.alloc(), magic, &BODIES)?;
        assert!(rt;
            framed(rt.alloc(), version, &BODIES)? == want,
            "{version:?}"
        );
    }
    Ok(())
}

// The 32 bytes at the end.
fn last_of(bytes: &[u8]) -> [u8; 32] {
    let mut last = [0u8; 32];
    let from = bytes.len().saturating_sub(32);
    for (place, byte) in last.iter_mut().zip(bytes.iter().skip(from)) {
        *place = *byte;
    }
    last
}

#[test]
fn bodies_are_framed_behind_others(rt: HostRuntime) -> Result<(), Fail> {
    let want = by_hand(rt.alloc(), b"RQLOG\0\0\x01", &BODIES)?;
    let mut log = framed(rt.alloc(), Version::One, &FIRST)?;
    let mut framer = Framer::after(last_of(&log), log.len());
    assert!(rt; puts_all(&mut framer, &OTHERS, &mut log)? && log == want);
    Ok(())
}

// Two frames of a body with one byte bring a log to its greatest length.
#[test]
fn a_log_has_at_most_4294967295_bytes(rt: HostRuntime) -> Result<(), Fail> {
    let mut framer = Framer::after([7; 32], 4_294_967_221);
    let mut out = Vec::new(rt.alloc());
    assert!(rt; puts(&mut framer, b"a", &mut out)?);
    assert!(rt; !puts(&mut framer, b"bc", &mut out)?);
    assert!(rt; puts(&mut framer, b"b", &mut out)?);
    assert!(rt; !puts(&mut framer, b"c", &mut out)?);
    assert!(rt; out.len() == 74 && framer.len() == 4_294_967_295);
    Ok(())
}
