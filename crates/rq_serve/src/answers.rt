//! What is answered, and the lines that spell it.

ghost use Rattle.std.specs.Prelude.{◌≡◌, ◌++◌, OnOk, IfErr, string_bytes};
ghost use Rattle.std.specs.List.{flat_map};
ghost use Rattle.rq_model.specs.Reports.{element_line, element_text, hex_of, payload_text};
ghost use Rattle.rq_record.specs.declared.fault.Fault.TheVariants.{Resources};
ghost use Rattle.rq_state.specs.Views.{id_of};
ghost use Rattle.rq_serve.specs.Answers.{answer_lines, answer_text, taken_text, told_last};
ghost use Rattle.rq_serve.specs.Serving.{is_refused};

use crate::refusals::Refused;
use rq_record::{ElemId, Fault, Name, QueueNo, UnitNo};
use rq_report::kind_word;
use rq_state::{KeptElement, Last};
use std::alloc::AllocError;
use std::fmt::Write;

/// What is answered.
#[derive(Drop)]
pub enum Answer {
    /// It was done.
    Done,
    /// It was done, and is not yet safe.
    Later,
    /// There is no such element.
    Nothing,
    /// The number of a queue.
    Queue(QueueNo),
    /// A registrant did nothing yet.
    NoLast,
    /// The last operation of a registrant.
    Last(Last),
    /// A unit began.
    Unit(UnitNo),
    /// An element was put in.
    Element(ElemId),
    /// An element was taken, which was put into the queue of this name: as it was before.
    Taken(Name, KeptElement),
    /// A checkpoint stands at the offset.
    Checkpoint(usize),
    /// The log goes on in a new one, behind so many records.
    Carried(u64),
    /// The log has so many bytes, and the service ends.
    Closed(usize),
    /// So many lines.
    Lines(usize, String),
    /// The request is not lawful now.
    Refused(Refused),
    /// The line is no request.
    NoRequest,
}

// Puts bytes in hexadecimal.
fn put_digits(text: &mut String, bytes: &[u8]) -> Result<(), AllocError>
    ensures { OnOk result (string_bytes text.new ≡ string_bytes text.old ++ flat_map hex_of bytes.now) }
{
    let digits = hex::encode(*text.allocator(), bytes)?;
    text.push_str(&digits)
}

// Puts the bytes of a payload in hexadecimal, or `-` for none.
fn put_payload(text: &mut String, bytes: &[u8]) -> Result<(), AllocError>
    ensures { OnOk result (string_bytes text.new ≡ string_bytes text.old ++ payload_text bytes.now) }
{
    if bytes.is_empty() {
        return text.push_str("-");
    }
    put_digits(text, bytes)
}

/// Puts an element as a report has it: `e`, its id, the queue that it was put in, its priority and
/// attempts, and its payload.
pub(crate) fn put_free_element(text: &mut String, e: &KeptElement) -> Result<(), AllocError>
    ensures { OnOk result (string_bytes text.new ≡ string_bytes text.old ++ element_line e.now) }
{
    let (id, origin, priority, attempts) = (e.id.0, e.origin.0, e.priority, e.attempts);
    write!(
        text,
        "e {id} from {origin} priority {priority} attempts {attempts} "
    )?;
    put_payload(text, e.payload.bytes())?;
    text.push_str("\n")
}

// Puts an element that was taken, which was put into the queue of this name.
fn put_taken(text: &mut String, from: &Name, e: &KeptElement) -> Result<(), AllocError>
    ensures { OnOk result (string_bytes text.new ≡ string_bytes text.old ++ taken_text from.now e.now) }
{
    let (id, priority, attempts) = (e.id.0, e.priority, e.attempts);
    write!(text, "element {id} ")?;
    text.push_str(from.text())?;
    write!(text, " {priority} {attempts} ")?;
    put_payload(text, e.payload.bytes())
}

/// Puts the id of an element, or `-` if there is none.
pub(crate) fn put_element_id(text: &mut String, element: Option<ElemId>) -> Result<(), AllocError>
    ensures { OnOk result (string_bytes text.new ≡ string_bytes text.old ++ element_text (id_of element)) }
{
    match element {
        Some(id) => {
            let number = id.0;
            write!(text, "{number}")
        }
        None => text.push_str("-"),
    }
}

fn put_last(text: &mut String, last: &Last) -> Result<(), AllocError>
    ensures { OnOk result (string_bytes text.new ≡ string_bytes text.old ++ told_last last.now) }
{
    let (kind, tag) = (kind_word(last.kind), last.tag);
    write!(text, "last {kind} {tag} ")?;
    put_element_id(text, last.element)
}

fn put_refused(text: &mut String, refused: Refused) -> Result<(), AllocError>
    ensures { OnOk result (string_bytes text.new
        ≡ string_bytes text.old ++ answer_text (Answer.Refused refused)) }
{
    text.push_str("refused ")?;
    text.push_str(refused.word())?;
    text.push_str(": ")?;
    text.push_str(refused.meaning())
}

impl Answer {
    /// Whether nothing was done: the request is not lawful now, or none.
    pub fn is_refused(&self) -> bool
        ensures { result ≡ is_refused self.now }
    {
        matches!(self, Answer::Refused(_) | Answer::NoRequest)
    }

    // Puts it without its LF.
    fn put_text(&self, text: &mut String) -> Result<(), AllocError>
        ensures { OnOk result (string_bytes text.new ≡ string_bytes text.old ++ answer_text self.now) }
    {
        match self {
            Answer::Done => text.push_str("ok"),
            Answer::Later => text.push_str("later"),
            Answer::Nothing => text.push_str("none"),
            Answer::Queue(queue) => write!(text, "queue {}", queue.0),
            Answer::NoLast => text.push_str("last none"),
            Answer::Last(last) => put_last(text, last),
            Answer::Unit(unit) => write!(text, "unit {}", unit.0),
            Answer::Element(id) => write!(text, "element {}", id.0),
            Answer::Taken(from, e) => put_taken(text, from, e),
            Answer::Checkpoint(offset) => write!(text, "checkpoint {offset}"),
            Answer::Carried(records) => write!(text, "carried {records}"),
            Answer::Closed(bytes) => write!(text, "closed {bytes}"),
            Answer::Lines(count, _) => write!(text, "lines {count}"),
            Answer::Refused(refused) => put_refused(text, *refused),
            Answer::NoRequest => text.push_str("error: the line is no request"),
        }
    }

    /// Adds its lines to the text. Refused with `Resources`: a beginning of them may stand there.
    pub fn put(&self, text: &mut String) -> Result<(), Fault>
        ensures lines { OnOk result (string_bytes text.new
            ≡ string_bytes text.old ++ answer_lines self.now) }
        ensures refused { IfErr result (λ e. e ≡ Resources) }
    {
        self.put_text(text)?;
        text.push_str("\n")?;
        if let Answer::Lines(_, lines) = self {
            text.push_str(lines)?;
        }
        Ok(())
    }
}
