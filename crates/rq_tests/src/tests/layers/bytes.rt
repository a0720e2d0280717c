//! Bytes that are written and read again: numbers and texts, and the bodies of records.

use rq_bytes::Cursor;
use rq_record::{
    CheckBytes, Fault, KeptRecord, LogBytes, Name, Payload, QueueNo, Record, UnitNo, Version,
    decode, decode_at, encode,
};
use rq_rows::{has_all, misses_name, written};
use std::alloc::Global;
use std::sync::ArcSlice;
use std::test::Fail;

const WRITTEN: &[u8] = b"\0\0\0\x07\0\x03annpay 7";

#[test]
fn what_is_written_is_read_again(rt: HostRuntime) -> Result<(), Fail> {
    assert!(rt; written(rt.alloc(), 7, b"ann", b"pay 7")?.as_slice() == WRITTEN);
    assert!(rt; has_all(WRITTEN, 7, b"ann", b"pay 7") && misses_name(&WRITTEN[..8]));
    let name = Cursor::new(b"\x03ann").sized_u8().ok_or("name")?;
    assert!(rt; name == b"ann".as_slice());
    Ok(())
}

fn checkpoint(alloc: Global, byte: u8, length: usize) -> Result<CheckBytes, Fail> {
    let bytes = Vec::from_elem(alloc, byte, length)?;
    Ok(CheckBytes::new(bytes).ok_or("too long")?)
}

#[test]
fn names_and_bodies_are_read(rt: HostRuntime) -> Result<(), Fail> {
    let name = Name::new(b"ann").ok_or("name")?;
    assert!(rt; name.text() == "ann");
    assert!(rt; decode(rt.alloc(), &[]).err() == Some(Fault::Form));
    assert!(rt; checkpoint(rt.alloc(), 0, 52)?.bytes().len() == 52);
    Ok(())
}

// A kind of record that has bytes, as many as it is given.
#[derive(Clone, Copy, Debug)]
enum Long {
    Enqueue,
    Checkpoint,
}

// An ENQUEUE or a checkpoint with so many bytes, all of them `p`.
fn long_record(alloc: Global, kind: Long, length: usize) -> Result<Record, Fail> {
    match kind {
        Long::Enqueue => {
            let payload = Vec::from_elem(alloc, b'p', length)?;
            Ok(Record::Enqueue {
                priority: 5,
                queue: QueueNo(0),
                unit: UnitNo(1),
                by: None,
                payload: Payload::new(payload).ok_or("too long")?,
            })
        }
        Long::Checkpoint => {
            let bytes = checkpoint(alloc, b'p', length)?;
            Ok(Record::Checkpoint { bytes })
        }
    }
}

// Its body, between a byte before and a byte after.
fn among_others(alloc: Global, kind: Long, length: usize) -> Result<Vec<u8>, Fail> {
    let record = long_record(alloc, kind, length)?;
    let mut bytes = Vec::new(alloc);
    bytes.push(0)?;
    encode(&record, &mut bytes)?;
    bytes.push(0)?;
    Ok(bytes)
}

// How many bytes the payload or the checkpoint of the record has, all of them as they were written.
fn as_written(record: &KeptRecord) -> Option<usize> {
    let bytes = match record {
        KeptRecord::Enqueue { payload, .. } => payload.bytes(),
        KeptRecord::Checkpoint { bytes } => bytes.bytes(),
        _ => return None,
    };
    for byte in bytes {
        if *byte != b'p' {
            return None;
        }
    }
    Some(bytes.len())
}

// The record whose body is among others.
fn read_among(alloc: Global, bytes: &LogBytes<'_>) -> Result<KeptRecord, Fail> {
    let len = bytes.len().saturating_sub(2);
    if bytes.len() < len.saturating_add(1) {
        return Err("no body".into());
    }
    Ok(decode_at(alloc, Version::One, bytes, 1, len)?)
}

// How many bytes it has that is read of a body among others in a shared log, and how many more the
// log holds then.
fn read_of_shared(
    alloc: Global,
    kind: Long,
    length: usize,
) -> Result<(Option<usize>, usize), Fail> {
    let bytes = among_others(alloc, kind, length)?;
    let log = ArcSlice::from_slice(alloc, &bytes)?;
    let before = ArcSlice::strong_count(&log);
    let record = read_among(alloc, &LogBytes::shared(&log))?;
    let more = ArcSlice::strong_count(&log).saturating_sub(before);
    Ok((as_written(&record), more))
}

#[test]
fn long_bytes_are_a_part_of_the_shared_log(rt: HostRuntime) -> Result<(), Fail> {
    for (kind, length, more) in [
        (Long::Enqueue, 0, 0),
        (Long::Enqueue, 22, 0),
        (Long::Enqueue, 23, 1),
        (Long::Enqueue, 65_535, 1),
        (Long::Checkpoint, 1, 1),
        (Long::Checkpoint, 52, 1),
        (Long::Checkpoint, 65_536, 1),
    ] {
        let read = read_of_shared(rt.alloc(), kind, length)?;
        assert!(rt; read == (Some(length), more), "{kind:?} of {length}");
    }
    Ok(())
}

#[test]
fn bytes_of_a_borrowed_log_are_a_copy(rt: HostRuntime) -> Result<(), Fail> {
    for kind in [Long::Enqueue, Long::Checkpoint] {
        let bytes = among_others(rt.alloc(), kind, 100)?;
        let record = read_among(rt.alloc(), &LogBytes::borrowed(&bytes))?;
        assert!(rt; as_written(&record) == Some(100), "{kind:?}");
    }
    Ok(())
}
