//! The lines of a script, and from a text to a line.

ghost use Rattle.rq_record.specs.Views.{record_of, version_of};
ghost use Rattle.rq_writer.specs.Making.{NextLine};
ghost use Rattle.rq_writer.specs.Reading as spec;
ghost use Rattle.rq_writer.specs.Reading.{Gives, ReadsLine, line_of};

use crate::fields::{
    by, error, field, kept, name, number, number_field, payload, split_once, u32_field,
};
use rq_record::{ElemId, Fault, Name, QueueNo, Record, UnitNo, Version};
use std::alloc::Global;

/// What a line of a script tells.
#[derive(Drop)]
pub enum ScriptLine {
    /// A record in words.
    Told(Record),
    /// A checkpoint of the state so far.
    Spelled,
}

/// The text of the next line of a script, and what comes after it. `Script` with the line's number
/// if it has no end.
pub fn line_at(number: u64, rest: &[u8]) -> Result<(&[u8], &[u8]), Fault>
    ensures { NextLine (λ x. (x.0.now, x.1.now)) number rest.now result }
{
    match split_once(b'\n', rest) {
        Some((text, after)) => Ok((text, after)),
        None => Err(Fault::Script(number)),
    }
}

#[tactic(auto, unfolding(crate::specs::Reading::define_line))]
fn define(bytes: &[u8]) -> Result<Record, Fault>
    ensures { Gives record_of result (spec.define_line bytes.now) }
{
    let (word, rest) = field(bytes)?;
    let name = name(word)?;
    let (limit, rest) = number_field(65535, rest)?;
    let error = error(rest)?;
    Ok(Record::Define {
        limit: limit as u16,
        error: QueueNo(error),
        name,
    })
}

#[tactic(auto, unfolding(crate::specs::Reading::registration_at))]
fn registration(bytes: &[u8]) -> Result<(QueueNo, Name), Fault>
    ensures { Gives (λ x. (x.0.0, x.1)) result (spec.registration_at bytes.now) }
{
    let (queue, rest) = u32_field(bytes)?;
    let name = name(rest)?;
    Ok((QueueNo(queue), name))
}

fn unit(bytes: &[u8]) -> Result<UnitNo, Fault>
    ensures { Gives (λ x. x.0) result (spec.unit_number bytes.now) }
{
    let unit = number(u64::MAX, bytes)?;
    Ok(UnitNo(unit))
}

#[tactic(auto, unfolding(crate::specs::Reading::enqueue_line))]
fn enqueue(alloc: Global, bytes: &[u8]) -> Result<Record, Fault>
    ensures { Gives record_of result (spec.enqueue_line bytes.now) }
{
    let (unit, rest) = number_field(u64::MAX, bytes)?;
    let (queue, rest) = u32_field(rest)?;
    let (priority, rest) = number_field(255, rest)?;
    let (name, rest) = field(rest)?;
    let (tag, rest) = number_field(u64::MAX, rest)?;
    let by = by(name, tag)?;
    let payload = payload(alloc, rest)?;
    Ok(Record::Enqueue {
        priority: priority as u8,
        queue: QueueNo(queue),
        unit: UnitNo(unit),
        by,
        payload,
    })
}

#[tactic(auto, unfolding(crate::specs::Reading::dequeue_line))]
fn dequeue(bytes: &[u8]) -> Result<Record, Fault>
    ensures { Gives record_of result (spec.dequeue_line bytes.now) }
{
    let (unit, rest) = number_field(u64::MAX, bytes)?;
    let (queue, rest) = u32_field(rest)?;
    let (name, rest) = field(rest)?;
    let tag = number(u64::MAX, rest)?;
    let by = by(name, tag)?;
    Ok(Record::Dequeue {
        unit: UnitNo(unit),
        queue: QueueNo(queue),
        by,
    })
}

#[tactic(auto, unfolding(crate::specs::Reading::kill_line))]
fn kill(version: Version, bytes: &[u8]) -> Result<Record, Fault>
    ensures { Gives record_of result (spec.kill_line_in (version_of version) bytes.now) }
{
    match version {
        Version::One => Err(Fault::Form),
        Version::Two => {
            let (queue, rest) = u32_field(bytes)?;
            let element = number(u64::MAX, rest)?;
            Ok(Record::Kill {
                queue: QueueNo(queue),
                element: ElemId(element),
            })
        }
    }
}

#[tactic(auto, unfolding(crate::specs::Reading::told_by))]
fn told_by(alloc: Global, version: Version, word: &[u8], rest: &[u8]) -> Result<Record, Fault>
    ensures { Gives record_of result (spec.told_by (version_of version) word.now rest.now) }
{
    if word == b"define".as_slice() {
        define(rest)
    } else if word == b"register".as_slice() {
        let (queue, name) = registration(rest)?;
        Ok(Record::Register { queue, name })
    } else if word == b"deregister".as_slice() {
        let (queue, name) = registration(rest)?;
        Ok(Record::Deregister { queue, name })
    } else if word == b"begin".as_slice() {
        Ok(Record::Begin { unit: unit(rest)? })
    } else if word == b"enqueue".as_slice() {
        enqueue(alloc, rest)
    } else if word == b"dequeue".as_slice() {
        dequeue(rest)
    } else if word == b"commit".as_slice() {
        Ok(Record::Commit { unit: unit(rest)? })
    } else if word == b"abort".as_slice() {
        Ok(Record::Abort { unit: unit(rest)? })
    } else if word == b"checkpoint-hex".as_slice() {
        Ok(Record::Checkpoint {
            bytes: kept(alloc, rest)?,
        })
    } else if word == b"kill".as_slice() {
        kill(version, rest)
    } else {
        Err(Fault::Form)
    }
}

#[tactic(auto, unfolding(crate::specs::Reading::record_at, crate::specs::Reading::told_line))]
fn told_line(alloc: Global, version: Version, text: &[u8]) -> Result<ScriptLine, Fault>
    ensures { Gives line_of result (spec.told_line (version_of version) text.now) }
{
    let (word, rest) = field(text)?;
    let record = told_by(alloc, version, word, rest)?;
    Ok(ScriptLine::Told(record))
}

impl ScriptLine {
    /// The line that the text tells in the version. `Form` if no line has this text.
    #[tactic(auto, using(crate::proofs::Lines::reads))]
    pub fn of(alloc: Global, version: Version, text: &[u8]) -> Result<ScriptLine, Fault>
        ensures { ReadsLine (version_of version) text.now result }
    {
        if text == b"checkpoint".as_slice() {
            return Ok(ScriptLine::Spelled);
        }
        told_line(alloc, version, text)
    }
}
