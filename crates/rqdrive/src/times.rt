//! How fast a manager is.

ghost use Rattle.rq_live.specs.Managers.{IsInOrder, stand_of};

use crate::words::Unanswered;
use rq_device::{Device, Memory};
use rq_live::Manager;
use rq_log_file::LogFile;
use rq_record::{Name, Payload, QueueNo, UnitNo, Version};
use std::alloc::Global;
use std::fs::{File, Files, OpenOptions};
use std::rt::Clock;
use std::time::Instant;

// A payload of 100 bytes.
fn payload(alloc: Global) -> Result<Payload, Unanswered> {
    let mut bytes = Vec::with_capacity(alloc, 100)?;
    bytes.resize(100, b'a')?;
    Payload::new(bytes).ok_or(Unanswered::Line)
}

// Commits a unit: safe at once, or with what is settled later.
fn commit<D: Device + Drop>(
    alloc: Global,
    m: &mut Manager<D>,
    unit: UnitNo,
    is_safe: bool,
) -> Result<(), Unanswered>
    requires { IsInOrder (stand_of D.written D.synced D.doubted D.failed m.old) }
    ensures { IsInOrder (stand_of D.written D.synced D.doubted D.failed m.new) }
{
    if is_safe {
        m.commit(alloc, unit)?;
    } else {
        m.commit_later(alloc, unit)?;
    }
    Ok(())
}

// One element goes through, in two units.
fn through<D: Device + Drop>(
    alloc: Global,
    m: &mut Manager<D>,
    is_safe: bool,
) -> Result<(), Unanswered>
    requires { IsInOrder (stand_of D.written D.synced D.doubted D.failed m.old) }
    ensures { IsInOrder (stand_of D.written D.synced D.doubted D.failed m.new) }
{
    let unit = m.begin(alloc)?;
    m.enqueue(alloc, unit, QueueNo(0), 0, None, payload(alloc)?)?;
    commit(alloc, m, unit, is_safe)?;
    let unit = m.begin(alloc)?;
    m.dequeue(alloc, unit, QueueNo(0), None)?;
    commit(alloc, m, unit, is_safe)
}

// So many elements go through.
fn all_through<D: Device + Drop>(
    alloc: Global,
    m: &mut Manager<D>,
    count: u64,
    is_safe: bool,
) -> Result<(), Unanswered>
    requires { IsInOrder (stand_of D.written D.synced D.doubted D.failed m.old) }
    ensures { IsInOrder (stand_of D.written D.synced D.doubted D.failed m.new) }
{
    let queue = Name::new(b"queue").ok_or(Unanswered::Line)?;
    m.define(alloc, 0, QueueNo::NONE, queue)?;
    for _ in 0..count {
        through(alloc, m, is_safe)?;
    }
    m.settle()?;
    Ok(())
}

// Tells how many bytes a manager wrote in how many milliseconds, if so many elements go through.
fn tell_time<R, D>(rt: &R, m: &mut Manager<D>, count: u64, is_safe: bool) -> Result<(), Unanswered>
where
    R: Print + Clock + AllocGlobal,
    D: Device + Drop,
    requires { IsInOrder (stand_of D.written D.synced D.doubted D.failed m.old) }
{
    let start = Instant::now(rt)?;
    all_through(rt.alloc(), m, count, is_safe)?;
    let took = start.elapsed(rt)?;
    println!(rt; "{} bytes, {} ms", m.len(), took.as_millis())?;
    Ok(())
}

/// Times a manager over memory, whose units are settled together.
pub(crate) fn time<R>(rt: &R, count: u64) -> Result<(), Unanswered>
where
    R: Print + Clock + AllocGlobal,
{
    let mut m = Manager::new(rt.alloc(), Version::Two, Memory::new(rt.alloc()))?;
    tell_time(rt, &mut m, count, false)
}

/// Times a manager over a new file, each of whose units is safe before the next begins.
pub(crate) fn time_file<R>(rt: &R, count: u64, path: &str) -> Result<(), Unanswered>
where
    R: Print + Clock + AllocGlobal + Files<File = File>,
{
    let mut options = OpenOptions::new();
    options.write(true).create_new(true);
    let file = options.open(rt, path)?;
    let mut m = Manager::new(rt.alloc(), Version::Two, LogFile::new(file, None))?;
    tell_time(rt, &mut m, count, true)
}
