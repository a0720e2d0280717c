//! A manager over a file: what is written, cut and synced there, and what a failed call leaves.

use super::RETURN_AND_ARRIVAL;
use rq_live::Manager;
use rq_log_file::LogFile;
use rq_record::{LogBytes, Version};
use rq_reopen::Opening;
use rq_restart::{Plan, closed};
use rq_rows::{ONE_ELEMENT, committed_of, found_in, log_of};
use std::alloc::Global;
use std::cell::Cell;
use std::fs::{Metadata, OpenFile};
use std::io::{self, Cursor, ErrorKind, Seek, SeekFrom, Write};
use std::sync::ArcSlice;
use std::test::Fail;
use std::thread::Threads;

// A file in memory, of which one call fails: the one before which so many were made.
#[derive(Drop)]
struct HeldFile {
    bytes: Cursor<Vec<u8>>,
    // What a cut has left, until the bytes behind that go.
    len: Cell<u64>,
    calls: Cell<u64>,
    failing: u64,
}

impl HeldFile {
    fn of(bytes: Vec<u8>, failing: u64) -> HeldFile {
        HeldFile {
            bytes: Cursor::new(bytes),
            len: Cell::new(u64::MAX),
            calls: Cell::new(0),
            failing,
        }
    }

    // Counts a call, and says whether it is done.
    fn call(&self) -> io::Result<()> {
        let before = self.calls.get();
        self.calls.set(before.saturating_add(1));
        if before == self.failing {
            return Err(io::Error::from(ErrorKind::Other));
        }
        Ok(())
    }

    // Takes away what a cut did not leave.
    fn trim(&mut self) {
        let len = self.len.get();
        self.len.set(u64::MAX);
        if let Ok(len) = usize::try_from(len) {
            self.bytes.get_mut().truncate(len);
        }
    }

    // The bytes that it has.
    fn all(&self) -> &[u8] {
        let bytes = self.bytes.get_ref().as_slice();
        match usize::try_from(self.len.get()) {
            Ok(len) => bytes.get(..len).unwrap_or(bytes),
            Err(_) => bytes,
        }
    }
}

impl Write for HeldFile {
    fn write(&mut self, buf: &[u8]) -> io::Result<usize> {
        self.call()?;
        self.trim();
        self.bytes.write(buf)
    }

    fn flush(&mut self) -> io::Result<()> {
        Ok(())
    }
}

impl Seek for HeldFile {
    fn seek(&mut self, to: SeekFrom) -> io::Result<u64> {
        self.bytes.seek(to)
    }
}

impl OpenFile for HeldFile {
    fn metadata(&self) -> io::Result<Metadata> {
        Err(io::Error::from(ErrorKind::Unsupported))
    }

    fn set_len(&self, size: u64) -> io::Result<()> {
        self.call()?;
        self.len.set(size.min(self.len.get()));
        Ok(())
    }

    fn sync_all(&self) -> io::Result<()> {
        self.call()
    }

    fn sync_data(&self) -> io::Result<()> {
        self.call()
    }
}

// What a file has once one of its calls failed while five units were to be committed, whether it
// was cut back then, and how many units were committed.
fn left_by_failure(alloc: Global, failing: u64) -> Result<(Vec<u8>, bool, usize), Fail> {
    let file = LogFile::new(HeldFile::of(Vec::new(alloc), failing), None);
    let mut m = Manager::new(alloc, Version::One, file)?;
    let committed = committed_of(alloc, &mut m);
    let file = m.device();
    let bytes = Vec::from_slice(alloc, file.file().all())?;
    let is_cut_back = file.error().is_some() && file.is_cut_back();
    Ok((bytes, is_cut_back, committed))
}

// Each commit is a write and a sync, and its unit has 90 bytes.
#[test]
fn a_file_is_cut_back_to_what_was_synced(rt: HostRuntime) -> Result<(), Fail> {
    let (log, is_cut_back, all) = left_by_failure(rt.alloc(), u64::MAX)?;
    assert!(rt; log.len() == 490 && !is_cut_back && all == 5);
    for units in 0..5usize {
        let len = if units == 0 { 0 } else { 40 + 90 * units };
        for failing in [2 * units as u64, 2 * units as u64 + 1] {
            let (left, is_cut_back, committed) = left_by_failure(rt.alloc(), failing)?;
            assert!(rt; is_cut_back && committed == units, "{failing}");
            assert!(rt; log.get(..len) == Some(left.as_slice()), "{failing}");
        }
    }
    Ok(())
}

// Whether a manager goes on from what was read of a file that a crash left, and the file, which has
// these bytes by then, has what a closed log has.
fn goes_on_over<R: Threads + Sync + AllocGlobal>(
    rt: &R,
    left: &[u8],
    stands: Vec<u8>,
    plan: &Plan,
) -> Result<bool, Fail> {
    let want = closed(rt, rt.alloc(), Vec::from_slice(rt.alloc(), left)?, plan)?;
    let Ok(opened) = Opening::of(rt, rt.alloc(), &LogBytes::borrowed(left), plan, false) else {
        return Ok(false);
    };
    let found = found_in(opened);
    let read = ArcSlice::from_slice(rt.alloc(), left)?;
    let file = LogFile::new(HeldFile::of(stands, u64::MAX), Some(read));
    let mut m = Manager::over(file, found.kernel);
    let resumed = m.resume(rt.alloc(), left.len());
    Ok(resumed.is_ok() && m.device().file().all() == want.as_slice())
}

// The same where the file has what was read of it.
fn goes_on_in_a_file<R: Threads + Sync + AllocGlobal>(
    rt: &R,
    left: &[u8],
    plan: &Plan,
) -> Result<bool, Fail> {
    goes_on_over(rt, left, Vec::from_slice(rt.alloc(), left)?, plan)
}

// A log with long payloads.
fn large_log<R: Threads + Sync + AllocGlobal>(rt: &R) -> Result<Vec<u8>, Fail> {
    let mut script = Vec::from_slice(rt.alloc(), ONE_ELEMENT)?;
    script.extend_from_slice(b"begin 2\n")?;
    for _ in 0..3 {
        script.extend_from_slice(b"enqueue 2 0 5 - 0 ")?;
        script.resize(script.len().saturating_add(100_000), b'7')?;
        script.push(b'\n')?;
    }
    log_of(rt, &script)
}

// The whole log, one that ends within a frame, one with garbage behind a front, and a large one.
#[test]
fn a_manager_goes_on_in_a_file(rt: HostRuntime) -> Result<(), Fail> {
    let plan = Plan::new(1, 1000).ok_or("plan")?;
    let log = log_of(&rt, RETURN_AND_ARRIVAL)?;
    assert!(rt; goes_on_in_a_file(&rt, &log, &plan)?);
    assert!(rt; goes_on_in_a_file(&rt, log.get(..560).unwrap_or(&[]), &plan)?);
    let mut torn = Vec::from_slice(rt.alloc(), log.get(..549).unwrap_or(&[]))?;
    torn.extend_from_slice(&[165; 70])?;
    assert!(rt; goes_on_in_a_file(&rt, &torn, &plan)?);
    assert!(rt; goes_on_in_a_file(&rt, &large_log(&rt)?, &plan)?);
    Ok(())
}

// What a failed sync left in the system's memory alone is read once more as it is on the disk: so
// what was read first is written again.
#[test]
fn what_was_read_is_written_again(rt: HostRuntime) -> Result<(), Fail> {
    let plan = Plan::new(1, 1000).ok_or("plan")?;
    let log = large_log(&rt)?;
    let lost = vec![in rt.alloc(); 0u8; log.len()]?;
    assert!(rt; goes_on_over(&rt, &log, lost, &plan)?);
    Ok(())
}

// What is pending stands in the file once it is shown, and is written in the same place when it is
// settled.
#[test]
fn what_is_pending_is_shown(rt: HostRuntime) -> Result<(), Fail> {
    let file = LogFile::new(HeldFile::of(Vec::new(rt.alloc()), u64::MAX), None);
    let mut m = Manager::new(rt.alloc(), Version::Two, file)?;
    let first = m.begin(rt.alloc()).is_ok();
    let shown = m.preview().is_ok();
    assert!(rt; first && shown && m.device().file().all().len() == 85);
    let second = m.begin(rt.alloc()).is_ok();
    let shown = m.preview().is_ok();
    let bytes = Vec::from_slice(rt.alloc(), m.device().file().all())?;
    assert!(rt; second && shown && bytes.len() == 130);
    let settled = m.settle().is_ok();
    assert!(rt; settled && m.device().file().all() == bytes.as_slice());
    Ok(())
}
