//! What is expected where a line is none of a script.

use rq_record::{CheckBytes, Name, Payload};
use rq_writer::decimal_number;
use std::fmt;

// A field of a line, or what stands in the place of one.
#[derive(Clone, Copy)]
enum ScriptField {
    // The line's first word.
    Kind,
    Name,
    Limit,
    Error,
    Queue,
    Unit,
    Priority,
    Who,
    Tag,
    Payload,
    // What a checkpoint holds.
    State,
    Element,
    // Nothing: the line ends there.
    End,
    // The tag of an operation that is nobody's.
    TagOfNobody,
}

const ANY: &str = "a number up to 18446744073709551615";

const NAMED: &str = "a name of 1 to 64 of a to z, 0 to 9, - . and _";

fn is_hex(most: usize, text: &[u8]) -> bool {
    let are_digits = text.iter().all(|b| matches!(b, b'0'..=b'9' | b'a'..=b'f'));
    let fits = !text.is_empty() && text.len() % 2 == 0 && text.len() / 2 <= most;
    text == b"-".as_slice() || (fits && are_digits)
}

fn is_number(most: u64, text: &[u8]) -> bool {
    decimal_number(most, text).is_some()
}

impl ScriptField {
    // What it is called.
    fn name(self) -> &'static str {
        match self {
            ScriptField::Kind => "what the record is",
            ScriptField::Name => "NAME",
            ScriptField::Limit => "LIMIT",
            ScriptField::Error => "ERROR",
            ScriptField::Queue => "QUEUE",
            ScriptField::Unit => "UNIT",
            ScriptField::Priority => "PRIORITY",
            ScriptField::Who => "WHO",
            ScriptField::Tag => "TAG",
            ScriptField::Payload | ScriptField::State => "HEX",
            ScriptField::Element => "ELEMENT",
            ScriptField::End => "behind the last",
            ScriptField::TagOfNobody => "TAG of nobody",
        }
    }

    // What is expected there.
    fn expected(self) -> &'static str {
        match self {
            ScriptField::Kind =>
                "define, register, deregister, begin, enqueue, dequeue, commit, abort or kill",
            ScriptField::Name | ScriptField::Who => NAMED,
            ScriptField::Limit => "a number up to 65535",
            ScriptField::Error => "a number up to 4294967294, or -,",
            ScriptField::Queue => "a number up to 4294967295",
            ScriptField::Unit | ScriptField::Tag | ScriptField::Element => ANY,
            ScriptField::Priority => "a number up to 255",
            ScriptField::Payload => "at most 65535 bytes, each as two of 0 to 9 and a to f, or -,",
            ScriptField::State =>
                "at most 268435455 bytes, each as two of 0 to 9 and a to f, or -,",
            ScriptField::End => "the end of the line",
            ScriptField::TagOfNobody => "0",
        }
    }

    // Whether this text may stand there, whatever stands in the others.
    fn fits(self, text: &[u8]) -> bool {
        match self {
            ScriptField::Name | ScriptField::Who => Name::new(text).is_some(),
            ScriptField::Limit => is_number(65_535, text),
            ScriptField::Error => text == b"-".as_slice() || is_number(4_294_967_294, text),
            ScriptField::Queue => is_number(4_294_967_295, text),
            ScriptField::Unit | ScriptField::Tag | ScriptField::Element => is_number(
                u64::MAX,
                text,
            ),
            ScriptField::Priority => is_number(255, text),
            ScriptField::Payload => is_hex(Payload::LIMIT, text),
            ScriptField::State => is_hex(CheckBytes::LIMIT, text),
            ScriptField::Kind | ScriptField::End | ScriptField::TagOfNobody => false,
        }
    }
}

// The fields of a line behind its first word; none, if no line begins with that.
fn fields_of(word: &[u8]) -> Option<&'static [ScriptField]> {
    let fields: &'static [ScriptField] = match std::str::from_utf8(word).unwrap_or("") {
        "define" => &[ScriptField::Name, ScriptField::Limit, ScriptField::Error],
        "register" | "deregister" => &[ScriptField::Queue, ScriptField::Name],
        "begin" | "commit" | "abort" => &[ScriptField::Unit],
        "enqueue" => &[
            ScriptField::Unit,
            ScriptField::Queue,
            ScriptField::Priority,
            ScriptField::Who,
            ScriptField::Tag,
            ScriptField::Payload,
        ],
        "dequeue" => &[
            ScriptField::Unit,
            ScriptField::Queue,
            ScriptField::Who,
            ScriptField::Tag,
        ],
        "checkpoint-hex" => &[ScriptField::State],
        "kill" => &[ScriptField::Queue, ScriptField::Element],
        _ => return None,
    };
    Some(fields)
}

/// The first field of a line that is none, by its number from 1, and what is expected there.
#[derive(Clone, Copy)]
pub(crate) struct Misfit {
    number: usize,
    field: ScriptField,
}

impl fmt::Display for Misfit {
    fn fmt<W: fmt::Write>(&self, f: &mut fmt::Formatter<W>) -> fmt::Result {
        let (number, name, expected) = (self.number, self.field.name(), self.field.expected());
        write!(f, "field {number}, {name}: {expected} is expected")
    }
}

// Each field is one for itself: only a tag that nobody has is none.
fn nobody(fields: &[ScriptField]) -> Misfit {
    let before = fields
        .iter()
        .take_while(|field| !matches!(field, ScriptField::Tag))
        .count();
    Misfit {
        number: before.saturating_add(2),
        field: ScriptField::TagOfNobody,
    }
}

/// What is expected where a line is none of a script.
pub(crate) fn field_missed(line: &[u8]) -> Misfit {
    let mut texts = line.split(|b| *b == b' ');
    let Some(fields) = fields_of(texts.next().unwrap_or(b"".as_slice())) else {
        return Misfit {
            number: 1,
            field: ScriptField::Kind,
        };
    };
    let mut number: usize = 1;
    for field in fields.iter().copied() {
        number = number.saturating_add(1);
        if !texts.next().map_or(false, |text| field.fits(text)) {
            return Misfit { number, field };
        }
    }
    if texts.next().is_some() {
        return Misfit {
            number: number.saturating_add(1),
            field: ScriptField::End,
        };
    }
    nobody(fields)
}
