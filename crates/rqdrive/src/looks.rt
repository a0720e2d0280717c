//! What a manager shows.

use crate::answers::element_text;
use crate::words::{Unanswered, first_word, name_in, number_in, queue_in};
use rq_device::{Device, Memory};
use rq_live::{Manager, NotDone};
use rq_record::{KeptName, QueueNo};
use rq_state::Last;
use std::alloc::Global;
use std::fmt::Write;

/// A device that shows what was written.
pub(crate) trait Shows {
    /// All bytes that were written.
    fn shown(&self) -> &[u8];

    /// How many of them were synced.
    fn safe(&self) -> usize;
}

impl Shows for Memory {
    fn shown(&self) -> &[u8] {
        self.bytes()
    }

    fn safe(&self) -> usize {
        self.synced()
    }
}

impl From<NotDone> for Unanswered {
    fn from(_why: NotDone) -> Unanswered {
        Unanswered::Line
    }
}

// The last operation of a registrant.
fn last_text(alloc: Global, last: Option<Option<&Last>>) -> Result<String, Unanswered> {
    let text = match last {
        None => String::from_str(alloc, "nobody")?,
        Some(None) => String::from_str(alloc, "nothing")?,
        Some(Some(last)) => format!(in alloc; "tag {}", last.tag)?,
    };
    Ok(text)
}

// The queues: how often an element may fail there, where it goes then, and the name.
fn definitions<D: Device + Drop>(alloc: Global, m: &Manager<D>) -> Result<String, Unanswered> {
    let mut text = String::new(alloc);
    for it in m.definitions()? {
        write!(text, "{} {} {};", it.limit, it.error.0, it.name.text())?;
    }
    Ok(text)
}

// The units that are open.
fn units<D: Device + Drop>(alloc: Global, m: &Manager<D>) -> Result<String, Unanswered> {
    let mut text = String::new(alloc);
    for unit in &m.open_units(alloc)? {
        write!(text, "{};", unit.0)?;
    }
    Ok(text)
}

// The first elements of a queue.
fn elements<D: Device + Drop>(
    alloc: Global,
    m: &Manager<D>,
    text: &[u8],
) -> Result<String, Unanswered> {
    let (of, most) = first_word(text);
    let mut text = String::new(alloc);
    for e in &m.first_elements(alloc, QueueNo(queue_in(of)?), number_in(most)? as usize)? {
        write!(text, "{};", element_text(alloc, e)?)?;
    }
    Ok(text)
}

/// What a line asks to be shown.
pub(crate) fn looked<D: Device + Shows + Drop>(
    alloc: Global,
    m: &Manager<D>,
    text: &[u8],
) -> Result<String, Unanswered> {
    let (word, rest) = first_word(text);
    if word == b"queues".as_slice() {
        definitions(alloc, m)
    } else if word == b"units".as_slice() {
        units(alloc, m)
    } else if word == b"first".as_slice() {
        elements(alloc, m, rest)
    } else if word == b"last".as_slice() {
        let (of, who) = first_word(rest);
        let who = KeptName::of(alloc, &name_in(who)?)?;
        last_text(alloc, m.last(QueueNo(queue_in(of)?), &who)?)
    } else {
        let bytes = hex::encode(alloc, m.device().shown())?;
        Ok(format!(in alloc; "{} {} {bytes}", m.len(), m.device().safe())?)
    }
}
