//! A manager, driven line by line.

ghost use Rattle.rq_live.specs.Managers.{IsInOrder, stand_of};

use crate::answers::{Answer, told};
use crate::looks::{Shows, looked};
use crate::openings::gone_on;
use crate::times::{time, time_file};
use crate::words::{Unanswered, first_word, number_in};
use rq_device::{Device, Memory};
use rq_live::{Manager, NotDone};
use rq_record::{Record, UnitNo, Version};
use rq_writer::{ScriptLine, line_at};
use std::alloc::Global;
use std::fs::{File, Files};
use std::rt::Clock;
use std::str;
use std::thread::Threads;

// Does a record by the call of its kind. A BEGIN's own number does not count.
fn done<D: Device + Drop>(
    alloc: Global,
    m: &mut Manager<D>,
    record: Record,
) -> Result<Answer, NotDone>
    requires { IsInOrder (stand_of D.written D.synced D.doubted D.failed m.old) }
    ensures { IsInOrder (stand_of D.written D.synced D.doubted D.failed m.new) }
{
    match record {
        Record::Define { limit, error, name } => m.define(alloc, limit, error, name)?,
        Record::Register { queue, name } => m.register(alloc, queue, name)?,
        Record::Deregister { queue, name } => m.deregister(alloc, queue, name)?,
        Record::Begin { .. } => return Ok(Answer::Begun(m.begin(alloc)?)),
        Record::Enqueue {
            unit,
            queue,
            by,
            priority,
            payload,
        } => return Ok(Answer::Put(m.enqueue(alloc, unit, queue, priority, by, payload)?)),
        Record::Dequeue { unit, queue, by } => {
            return Ok(Answer::Taken(m.dequeue(alloc, unit, queue, by)?));
        }
        Record::Commit { unit } => m.commit(alloc, unit)?,
        Record::Abort { unit } => m.abort(alloc, unit)?,
        Record::Kill { queue, element } => m.kill(alloc, queue, element)?,
        Record::Checkpoint { .. } => return Err(NotDone::Large),
    }
    Ok(Answer::Done)
}

// Takes a record as it is told.
fn taken<D: Device + Drop>(
    alloc: Global,
    m: &mut Manager<D>,
    record: &Record,
) -> Result<Answer, NotDone>
    requires { IsInOrder (stand_of D.written D.synced D.doubted D.failed m.old) }
    ensures { IsInOrder (stand_of D.written D.synced D.doubted D.failed m.new) }
{
    match m.take(alloc, record)? {
        Some(id) => Ok(Answer::Put(id)),
        None => Ok(Answer::Done),
    }
}

// Does a line of a script.
fn scripted<D: Device + Drop>(
    alloc: Global,
    m: &mut Manager<D>,
    version: Version,
    text: &[u8],
) -> Result<String, Unanswered>
    requires { IsInOrder (stand_of D.written D.synced D.doubted D.failed m.old) }
    ensures { IsInOrder (stand_of D.written D.synced D.doubted D.failed m.new) }
{
    let answer = match ScriptLine::of(alloc, version, text)? {
        ScriptLine::Told(record) => done(alloc, m, record),
        ScriptLine::Spelled => match m.checkpoint(alloc) {
            Ok(offset) => Ok(Answer::Marked(offset)),
            Err(why) => Err(why),
        },
    };
    told(alloc, answer)
}

// Takes the record of a line of a script, whatever number it has.
fn as_told<D: Device + Drop>(
    alloc: Global,
    m: &mut Manager<D>,
    version: Version,
    text: &[u8],
) -> Result<String, Unanswered>
    requires { IsInOrder (stand_of D.written D.synced D.doubted D.failed m.old) }
    ensures { IsInOrder (stand_of D.written D.synced D.doubted D.failed m.new) }
{
    match ScriptLine::of(alloc, version, text)? {
        ScriptLine::Told(record) => told(alloc, taken(alloc, m, &record)),
        ScriptLine::Spelled => Err(Unanswered::Line),
    }
}

// Makes what was done safe, or commits a unit that is to be safe later.
fn settled<D: Device + Drop>(
    alloc: Global,
    m: &mut Manager<D>,
    unit: Option<UnitNo>,
) -> Result<String, Unanswered>
    requires { IsInOrder (stand_of D.written D.synced D.doubted D.failed m.old) }
    ensures { IsInOrder (stand_of D.written D.synced D.doubted D.failed m.new) }
{
    let done = match unit {
        Some(unit) => m.commit_later(alloc, unit),
        None => m.settle(),
    };
    match done {
        Ok(()) => told(alloc, Ok(Answer::Done)),
        Err(why) => told(alloc, Err(why)),
    }
}

// Answers a line.
fn answered<R, D>(
    rt: &R,
    m: &mut Manager<D>,
    version: Version,
    text: &[u8],
) -> Result<String, Unanswered>
where
    R: AllocGlobal + Threads + Sync,
    D: Device + Shows + Drop,
    requires { IsInOrder (stand_of D.written D.synced D.doubted D.failed m.old) }
    ensures { IsInOrder (stand_of D.written D.synced D.doubted D.failed m.new) }
{
    let (word, rest) = first_word(text);
    if word == b"take".as_slice() {
        as_told(rt.alloc(), m, version, rest)
    } else if word == b"later".as_slice() {
        settled(rt.alloc(), m, Some(UnitNo(number_in(rest)?)))
    } else if word == b"settle".as_slice() {
        settled(rt.alloc(), m, None)
    } else if word == b"left".as_slice() {
        gone_on(rt, rest)
    } else if word == b"look".as_slice() {
        looked(rt.alloc(), m, rest)
    } else {
        scripted(rt.alloc(), m, version, text)
    }
}

// Answers each line up to one that begins anew, and gives that back and what is behind it.
fn drive<'a, R, D>(
    rt: &R,
    m: &mut Manager<D>,
    version: Version,
    lines: &'a [u8],
) -> Result<&'a [u8], Unanswered>
where
    R: Print + AllocGlobal + Threads + Sync,
    D: Device + Shows + Drop,
    requires { IsInOrder (stand_of D.written D.synced D.doubted D.failed m.old) }
{
    let mut rest = lines;
    for number in 1..u64::MAX {
        if rest.is_empty() || rest.starts_with(b"new ".as_slice()) {
            break;
        }
        let (text, after) = line_at(number, rest)?;
        let answer = answered(rt, m, version, text)?;
        println!(rt; "{answer}")?;
        rest = after;
    }
    Ok(rest)
}

// Times a manager over a new file: the words are a count, and the file's path.
fn timed_file<R>(rt: &R, words: &[u8]) -> Result<(), Unanswered>
where
    R: Files<File = File> + Print + Clock + AllocGlobal,
{
    let (count, path) = first_word(words);
    match str::from_utf8(path) {
        Ok(path) => time_file(rt, number_in(count)?, path),
        Err(_) => Err(Unanswered::Line),
    }
}

// Drives a new manager of the version that the first line tells by the lines behind it, up to the next
// such line; or, if that tells a count, times a manager. Gives back what is left.
fn drive_one<'a, R>(rt: &R, lines: &'a [u8]) -> Result<&'a [u8], Unanswered>
where
    R: Files<File = File> + Print + Clock + AllocGlobal + Threads + Sync,
{
    let (head, rest) = line_at(1, lines)?;
    let (word, told) = first_word(head);
    if word == b"time".as_slice() {
        time(rt, number_in(told)?)?;
        return Ok(rest);
    }
    if word == b"file".as_slice() {
        timed_file(rt, told)?;
        return Ok(rest);
    }
    let version = if told == b"1".as_slice() {
        Version::One
    } else {
        Version::Two
    };
    let mut m = Manager::new(rt.alloc(), version, Memory::new(rt.alloc()))?;
    drive(rt, &mut m, version, rest)
}

/// Drives one new manager after the other, each by its lines.
pub(crate) fn drive_new<R>(rt: &R, lines: &[u8]) -> Result<(), Unanswered>
where
    R: Files<File = File> + Print + Clock + AllocGlobal + Threads + Sync,
{
    let mut rest = lines;
    for _ in 0..u64::MAX {
        if rest.is_empty() {
            break;
        }
        rest = drive_one(rt, rest)?;
    }
    Ok(())
}
