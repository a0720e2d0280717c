//! Where the frames of a log are, and which digests are right.

use rq_front::{Rest, Span, chain, frame, header, walk};
use rq_record::Fault;
use rq_rows::{are_right, put_message};
use std::alloc::Global;
use std::test::Fail;
use std::thread::Threads;

// The lengths of the bodies of a queue's definition, a unit's begin, an element and the unit's
// commit.
const LENGTHS: [usize; 4] = [11, 9, 24, 9];

// A body of each of these lengths. The frame of the first stands behind the header.
const BODIES: [(usize, usize); 4] = [(44, 11), (91, 9), (136, 24), (196, 9)];

const LAST: [(usize, usize); 3] = [(91, 9), (136, 24), (196, 9)];

// Appends the frame of a body behind the last digest of a log.
fn append(log: &mut Vec<u8>, body: &[u8]) -> Result<(), Fault> {
    let mut last = [0u8; 32];
    let from = log.len().saturating_sub(32);
    for (place, byte) in last.iter_mut().zip(log.iter().skip(from)) {
        *place = *byte;
    }
    if body.is_empty() || 24 < body.len() {
        return Err(Fault::TooLong);
    }
    frame(&last, body, log)
}

// A log with a frame for each of these lengths.
fn log_of_lengths(alloc: Global, lens: &[usize]) -> Result<Vec<u8>, Fault> {
    let mut log = Vec::new(alloc);
    header(&mut log)?;
    for len in lens {
        append(&mut log, [b'a'; 24].get(..*len).unwrap_or(&[]))?;
    }
    Ok(log)
}

// Whether the bodies are at these places, with these lengths.
fn are_spans(spans: &[Span], bodies: &[(usize, usize)]) -> bool {
    if spans.len() != bodies.len() {
        return false;
    }
    for (span, body) in spans.iter().zip(bodies) {
        if (span.start, span.len) != *body {
            return false;
        }
    }
    true
}

// Whether there may be a chain from a place of the log, and it has these bodies, an end and this
// after it.
fn is_chain<R: Threads + Sync + AllocGlobal>(
    rt: &R,
    log: &[u8],
    from: usize,
    grain: u32,
    want: (&[(usize, usize)], usize, Rest),
) -> Result<bool, Fault> {
    if from < 40 || log.len() < from || grain < 1 {
        return Ok(false);
    }
    let found = chain(rt, rt.alloc(), log, from, grain)?;
    let (bodies, end, rest) = want;
    Ok(found.end == end && found.rest == rest && are_spans(&found.spans, bodies))
}

// Chains of the log by a place: that from the first body's frame on has all bodies, that from the
// second one's on the last three, and one from a place within a frame none.
type Told = (usize, (&'static [(usize, usize)], usize, Rest));

const ALL_TOLD: [Told; 3] = [
    (40, (&BODIES, 237, Rest::Whole)),
    (87, (&LAST, 237, Rest::Whole)),
    (88, (&[], 88, Rest::Cut)),
];

// Whether each chain is so.
fn is_told<R: Threads + Sync + AllocGlobal>(rt: &R, log: &[u8], grain: u32) -> Result<bool, Fault> {
    for (from, want) in ALL_TOLD {
        if !is_chain(rt, log, from, grain, want)? {
            return Ok(false);
        }
    }
    Ok(true)
}

#[test]
fn the_chain_tells_its_spans(rt: HostRuntime) -> Result<(), Fail> {
    let log = log_of_lengths(rt.alloc(), &LENGTHS)?;
    for grain in [1, 1000] {
        assert!(rt; is_told(&rt, &log, grain)?, "{grain}");
    }
    Ok(())
}

// Two frames, the second of which has a wrong digest. A walk finds both, and of these one is right
// and then a digest is wrong.
#[test]
fn a_walk_does_not_look_at_digests(rt: HostRuntime) -> Result<(), Fail> {
    let mut log = log_of_lengths(rt.alloc(), &LENGTHS[..2])?;
    for byte in log.iter_mut().skip(131) {
        *byte ^= 1;
    }
    let found = walk(rt.alloc(), &log, 40)?;
    assert!(rt; found.spans().len() == 2);
    let found = found.checked(&rt, &log, 1);
    assert!(rt; found.spans.len() == 1 && found.rest == Rest::Digest);
    Ok(())
}

// They say yes of three messages, no of them once one is damaged, and yes of the others.
#[test]
fn two_lanes_say_yes_of_right_digests(rt: HostRuntime) -> Result<(), Fail> {
    let mut bytes = Vec::new(rt.alloc());
    let first = put_message(&mut bytes, b"abc")?;
    let second = put_message(&mut bytes, &[0x61; 200])?;
    let third = put_message(&mut bytes, b"")?;
    assert!(rt; are_right(&bytes, &[first, second, third]));
    if let Some(byte) = bytes.get_mut(100) {
        *byte = 0x62;
    }
    assert!(rt; !are_right(&bytes, &[first, second, third]));
    assert!(rt; are_right(&bytes, &[first, third]));
    Ok(())
}
