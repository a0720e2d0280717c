//! Readers and writers that are interrupted, give and take a few bytes a call, and fail.

use super::RETURN_AND_ARRIVAL;
use rq_rows::log_of;
use rq_tool::{Fault, Open, OverRead, OverWrite, Plan, run};
use std::io;
use std::io::{Cursor, ErrorKind, Read, Write};
use std::test::Fail;
use std::thread::Threads;

// The plans of runs whose reads or writes fail one by one.
const FEW_PLANS: [(u32, u32); 3] = [(1, 1), (2, 1000), (7, 1)];

// The report of `RETURN_AND_ARRIVAL`.
const REPORT: &[u8; 206] = b"front 14 records, 745 of 745 bytes, whole\n\
    units 2 committed, 1 aborted, 0 cut off\n\
    queue 0 dead limit 0 error -\n\
    e 4 from 0 priority 3 attempts 1 61\n\
    r ann dequeue tag 9 element 5\n\
    queue 1 jobs limit 1 error 0\n";

// How a reader or a writer fails. Each call that does not come after an interrupted one is
// interrupted, if that is asked for. The call of one number fails; calls are counted from 1, without
// those interrupted.
#[derive(Clone, Copy)]
struct Faults {
    is_interrupted: bool,
    interrupts: bool,
    calls: u64,
    fails_at: u64,
}

impl Faults {
    fn new(interrupts: bool, fails_at: u64) -> Self {
        Faults {
            is_interrupted: false,
            interrupts,
            calls: 0,
            fails_at,
        }
    }

    // Counts a call, unless it is interrupted.
    fn count(&mut self) -> io::Result<()> {
        self.is_interrupted = self.interrupts && !self.is_interrupted;
        if self.is_interrupted {
            return Err(io::Error::from(ErrorKind::Interrupted));
        }
        self.calls = self.calls.wrapping_add(1);
        if self.calls == self.fails_at {
            return Err(io::Error::from(ErrorKind::Other));
        }
        Ok(())
    }
}

// Gives at most 7 bytes a call.
#[derive(Drop)]
struct Rough<'a> {
    inner: Cursor<&'a [u8]>,
    faults: Faults,
}

impl<'a> Read for Rough<'a> {
    fn read(&mut self, piece: &mut [u8]) -> io::Result<usize> {
        self.faults.count()?;
        let want = piece.len().min(7);
        self.inner.read(&mut piece[..want])
    }
}

// Takes at most so many bytes a call.
#[derive(Drop)]
struct Narrow {
    width: usize,
    taken: Vec<u8>,
    faults: Faults,
}

impl Write for Narrow {
    fn write(&mut self, bytes: &[u8]) -> io::Result<usize> {
        self.faults.count()?;
        let count = bytes.len().min(self.width);
        match self.taken.extend_from_slice(&bytes[..count]) {
            Ok(()) => Ok(count),
            Err(_) => Err(io::Error::from(ErrorKind::OutOfMemory)),
        }
    }

    fn flush(&mut self) -> io::Result<()> {
        Ok(())
    }
}

// Whether a run whose read of one number fails says so and writes nothing; or, if no read has that
// number, writes the report. There are 105 calls of 7 bytes; two of 5, where the header ends and
// where the log does; and one that finds the end.
fn reads<R>(rt: &R, log: &[u8], plan: &Plan, faults: Faults) -> bool
where
    R: Threads + Sync + AllocGlobal,
{
    let fails_at = faults.fails_at;
    let inner = Cursor::new(log);
    let mut input = OverRead::new(Rough { inner, faults });
    let mut output = OverWrite::new(Vec::new(rt.alloc()));
    let done = run(rt, rt.alloc(), &mut input, &mut output, plan, &Open);
    let calls = input.into_inner().faults.calls;
    let written = output.into_inner();
    if 0 < fails_at && fails_at <= 108 {
        done == Err(Fault::ReadFailed) && calls == fails_at && written.is_empty()
    } else {
        done.is_ok() && calls == 108 && written.as_slice() == REPORT.as_slice()
    }
}

// Whether a run whose write of one number fails says so and leaves a beginning of the report; or,
// if no write has that number, writes all of it. There are 68 calls that take 3 bytes, and one that
// takes the last 2.
fn writes<R>(rt: &R, log: &[u8], plan: &Plan, faults: Faults) -> bool
where
    R: Threads + Sync + AllocGlobal,
{
    let fails_at = faults.fails_at;
    let narrow = Narrow {
        width: 3,
        taken: Vec::new(rt.alloc()),
        faults,
    };
    let mut input = OverRead::new(Cursor::new(log));
    let mut output = OverWrite::new(narrow);
    let done = run(rt, rt.alloc(), &mut input, &mut output, plan, &Open);
    let narrow = output.into_inner();
    let calls = narrow.faults.calls;
    if 0 < fails_at && fails_at <= 69 {
        let took = fails_at.saturating_sub(1).saturating_mul(3);
        let is_told = done == Err(Fault::WriteFailed) && calls == fails_at;
        is_told && narrow.taken.len() as u64 == took && REPORT.as_slice().starts_with(&narrow.taken)
    } else {
        done.is_ok() && calls == 69 && narrow.taken.as_slice() == REPORT.as_slice()
    }
}

// Which calls fail.
#[derive(Clone, Copy)]
enum Failing {
    Reads,
    Writes,
}

// The first call that fails and is not told as it must be, where one fails after the other, and last
// none.
fn wrong_by<R>(rt: &R, log: &[u8], plan: &Plan, failing: Failing, interrupts: bool) -> Option<u64>
where
    R: Threads + Sync + AllocGlobal,
{
    for fails_at in 0..110 {
        let faults = Faults::new(interrupts, fails_at);
        let is_told = match failing {
            Failing::Reads => reads(rt, log, plan, faults),
            Failing::Writes => writes(rt, log, plan, faults),
        };
        if !is_told {
            return Some(fails_at);
        }
    }
    None
}

// The same, of calls that are interrupted and of others, by each of those plans.
fn wrong<R: Threads + Sync + AllocGlobal>(rt: &R, failing: Failing) -> Result<Option<u64>, Fail> {
    let log = log_of(rt, RETURN_AND_ARRIVAL)?;
    for (workers, grain) in FEW_PLANS {
        let plan = Plan::new(workers, grain).ok_or("plan")?;
        let steady = wrong_by(rt, &log, &plan, failing, false);
        let wrong = steady.or(wrong_by(rt, &log, &plan, failing, true));
        if wrong.is_some() {
            return Ok(wrong);
        }
    }
    Ok(None)
}

// A read that fails is told, and nothing is written. A write that fails is told, and leaves a
// beginning.
#[test]
fn a_read_or_a_write_that_fails_is_told(rt: HostRuntime) -> Result<(), Fail> {
    for failing in [Failing::Reads, Failing::Writes] {
        let wrong = wrong(&rt, failing)?;
        assert!(rt; wrong.is_none(), "call {}", wrong.unwrap_or(0));
    }
    Ok(())
}

#[test]
fn a_writer_that_takes_nothing_is_asked_once(rt: HostRuntime) -> Result<(), Fail> {
    let plan = Plan::new(2, 1000).ok_or("plan")?;
    let log = log_of(&rt, RETURN_AND_ARRIVAL)?;
    let full = Narrow {
        width: 0,
        taken: Vec::new(rt.alloc()),
        faults: Faults::new(false, 0),
    };
    let mut input = OverRead::new(Cursor::new(log.as_slice()));
    let mut output = OverWrite::new(full);
    let done = run(&rt, rt.alloc(), &mut input, &mut output, &plan, &Open);
    assert!(rt; done == Err(Fault::WriteFailed));
    assert!(rt; output.into_inner().faults.calls == 1);
    Ok(())
}
