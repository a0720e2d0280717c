//! What a client asks for, and the lines that spell it.

ghost use Rattle.std.specs.Prelude.{◌≡◌};
ghost use Rattle.rq_writer.specs.Reading.{Gives};
ghost use Rattle.rq_serve.specs.Requests as spec;
ghost use Rattle.rq_serve.specs.Serving.{asks_safety};

use crate::payloads::read_payload;
use crate::words::{cut_once, number_word, optional_name, read_by, read_name, read_number, word};
use rq_record::{By, ElemId, Fault, Name, Payload, UnitNo};
use std::alloc::Global;

/// The most bytes of a line, without its LF: those of the longest `enqueue`.
pub const LONGEST: usize = 131_254;

/// What a client asks for. Queues are named by their names.
#[derive(Drop)]
pub enum Request {
    /// A queue is to be defined: how many failed attempts an element may have, 0 for no limit, and
    /// the queue that it goes to then.
    Define {
        queue: Name,
        limit: u16,
        error: Option<Name>,
    },
    /// Somebody is to be registered with a queue.
    Register {
        queue: Name,
        who: Name,
    },
    /// A registration is to end.
    Deregister {
        queue: Name,
        who: Name,
    },
    /// A unit is to begin: the next one, or one of this number.
    Begin {
        unit: Option<UnitNo>,
    },
    /// An element is to be put into a queue.
    Enqueue {
        unit: UnitNo,
        queue: Name,
        priority: u8,
        by: Option<By>,
        payload: Payload,
    },
    /// The best free element of a queue is to be taken.
    Dequeue {
        unit: UnitNo,
        queue: Name,
        by: Option<By>,
    },
    /// A unit is to be committed, and safe when it is answered, or later.
    Commit {
        unit: UnitNo,
        is_later: bool,
    },
    /// All that was done is to be safe.
    Settle,
    /// A unit is to be aborted.
    Abort {
        unit: UnitNo,
    },
    /// A free element is to be removed from a queue.
    Kill {
        queue: Name,
        element: ElemId,
    },
    /// A checkpoint is to be taken.
    Checkpoint,
    /// The log is to go on in a new one.
    Carry,
    /// The last operation of a registrant is to be told.
    Last {
        queue: Name,
        who: Name,
    },
    /// The queues are to be told.
    Queues,
    /// The first so many free elements of a queue are to be told, and its registrants.
    Queue {
        queue: Name,
        count: u64,
    },
    /// All open units are to be aborted, and the service to end.
    Close,
}

// A queue and somebody.
#[tactic(auto, unfolding(crate::specs::Requests::registration_words))]
fn registration(text: &[u8]) -> Result<(Name, Name), Fault>
    ensures { Gives (λ x. x) result (spec.registration_words text.now) }
{
    let (queue, who) = word(text)?;
    let queue = read_name(queue)?;
    let who = read_name(who)?;
    Ok((queue, who))
}

#[tactic(auto, unfolding(crate::specs::Requests::define_words))]
fn define(text: &[u8]) -> Result<Request, Fault>
    ensures { Gives (λ x. x) result (spec.define_words text.now) }
{
    let (queue, rest) = word(text)?;
    let queue = read_name(queue)?;
    let (limit, error) = number_word(65_535, rest)?;
    let error = optional_name(error)?;
    Ok(Request::Define {
        queue,
        limit: limit as u16,
        error,
    })
}

fn unit(text: &[u8]) -> Result<UnitNo, Fault>
    ensures { Gives (λ x. x) result (spec.unit_word text.now) }
{
    let number = read_number(u64::MAX, text)?;
    Ok(UnitNo(number))
}

#[tactic(auto, unfolding(crate::specs::Requests::enqueue_words))]
fn enqueue(alloc: Global, text: &[u8]) -> Result<Request, Fault>
    ensures { Gives (λ x. x) result (spec.enqueue_words text.now) }
{
    let (unit, rest) = number_word(u64::MAX, text)?;
    let (queue, rest) = word(rest)?;
    let queue = read_name(queue)?;
    let (priority, rest) = number_word(255, rest)?;
    let (who, rest) = word(rest)?;
    let (tag, rest) = number_word(u64::MAX, rest)?;
    let by = read_by(who, tag)?;
    let payload = read_payload(alloc, rest)?;
    Ok(Request::Enqueue {
        unit: UnitNo(unit),
        queue,
        priority: priority as u8,
        by,
        payload,
    })
}

#[tactic(auto, unfolding(crate::specs::Requests::dequeue_words))]
fn dequeue(text: &[u8]) -> Result<Request, Fault>
    ensures { Gives (λ x. x) result (spec.dequeue_words text.now) }
{
    let (unit, rest) = number_word(u64::MAX, text)?;
    let (queue, rest) = word(rest)?;
    let queue = read_name(queue)?;
    let (who, tag) = word(rest)?;
    let tag = read_number(u64::MAX, tag)?;
    let by = read_by(who, tag)?;
    Ok(Request::Dequeue {
        unit: UnitNo(unit),
        queue,
        by,
    })
}

fn commit(text: &[u8]) -> Result<Request, Fault>
    ensures { Gives (λ x. x) result (spec.commit_words text.now) }
{
    let (text, is_later) = match cut_once(b' ', text) {
        None => (text, false),
        Some((text, later)) if later == b"later".as_slice() => (text, true),
        Some(_) => return Err(Fault::Form),
    };
    let unit = unit(text)?;
    Ok(Request::Commit { unit, is_later })
}

#[tactic(auto, unfolding(crate::specs::Requests::kill_words))]
fn kill(text: &[u8]) -> Result<Request, Fault>
    ensures { Gives (λ x. x) result (spec.kill_words text.now) }
{
    let (queue, element) = word(text)?;
    let queue = read_name(queue)?;
    let element = read_number(u64::MAX, element)?;
    Ok(Request::Kill {
        queue,
        element: ElemId(element),
    })
}

#[tactic(auto, unfolding(crate::specs::Requests::listing_words))]
fn listing(text: &[u8]) -> Result<Request, Fault>
    ensures { Gives (λ x. x) result (spec.listing_words text.now) }
{
    let (queue, count) = word(text)?;
    let queue = read_name(queue)?;
    let count = read_number(u64::MAX, count)?;
    Ok(Request::Queue { queue, count })
}

// The request of a line of one word.
fn of_word(text: &[u8]) -> Result<Request, Fault>
    ensures { Gives (λ x. x) result (spec.word_request text.now) }
{
    if text == b"begin".as_slice() {
        Ok(Request::Begin { unit: None })
    } else if text == b"settle".as_slice() {
        Ok(Request::Settle)
    } else if text == b"checkpoint".as_slice() {
        Ok(Request::Checkpoint)
    } else if text == b"carry".as_slice() {
        Ok(Request::Carry)
    } else if text == b"queues".as_slice() {
        Ok(Request::Queues)
    } else if text == b"close".as_slice() {
        Ok(Request::Close)
    } else {
        Err(Fault::Form)
    }
}

// The request of a first word about a registrant, and of what comes after it.
fn of_registrant(word: &[u8], rest: &[u8]) -> Result<Request, Fault>
    ensures { Gives (λ x. x) result (spec.registrant_request word.now rest.now) }
{
    let (queue, who) = registration(rest)?;
    if word == b"register".as_slice() {
        Ok(Request::Register { queue, who })
    } else if word == b"deregister".as_slice() {
        Ok(Request::Deregister { queue, who })
    } else if word == b"last".as_slice() {
        Ok(Request::Last { queue, who })
    } else {
        Err(Fault::Form)
    }
}

// The request of a first word, and of what comes after it.
#[tactic(auto, unfolding(crate::specs::Requests::words_request))]
fn of_words(alloc: Global, word: &[u8], rest: &[u8]) -> Result<Request, Fault>
    ensures { Gives (λ x. x) result (spec.words_request word.now rest.now) }
{
    if word == b"enqueue".as_slice() {
        enqueue(alloc, rest)
    } else if word == b"dequeue".as_slice() {
        dequeue(rest)
    } else if word == b"commit".as_slice() {
        commit(rest)
    } else if word == b"begin".as_slice() {
        let unit = unit(rest)?;
        Ok(Request::Begin { unit: Some(unit) })
    } else if word == b"abort".as_slice() {
        let unit = unit(rest)?;
        Ok(Request::Abort { unit })
    } else if word == b"kill".as_slice() {
        kill(rest)
    } else if word == b"define".as_slice() {
        define(rest)
    } else if word == b"queue".as_slice() {
        listing(rest)
    } else {
        of_registrant(word, rest)
    }
}

impl Request {
    /// The request that a line spells. `Form` if it spells none, `Resources` if memory is refused.
    pub fn of(alloc: Global, line: &[u8]) -> Result<Request, Fault>
        ensures { Gives (λ x. x) result (spec.request_of line.now) }
    {
        if line.len() > LONGEST {
            return Err(Fault::Form);
        }
        match cut_once(b' ', line) {
            Some((word, rest)) => of_words(alloc, word, rest),
            None => of_word(line),
        }
    }

    /// Whether all before it is safe when it is answered, if it is not refused.
    pub fn asks_safety(&self) -> bool
        ensures { result ≡ asks_safety self.now }
    {
        match self {
            Request::Define { .. } | Request::Register { .. } | Request::Deregister { .. } => true,
            Request::Commit { is_later, .. } => !*is_later,
            Request::Settle | Request::Kill { .. } | Request::Checkpoint => true,
            Request::Carry | Request::Close => true,
            _ => false,
        }
    }
}
