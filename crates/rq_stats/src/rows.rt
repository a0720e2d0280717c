//! Rows of numbers, as lines and as JSON. All rows have one type, and what each sort of them says
//! stands in a table: a type with fields of its own for each sort is dear to prove.

use rq_found::Put;
use serde::Serializer;
use std::alloc::AllocError;
use std::fmt::Write;

// Of payloads, units and queues so many are told: the greatest.
const TOLD: usize = 10;

/// What rows of one sort say: the name of their list, the names of their fields, and the words of a
/// line before each field and behind the last.
pub(crate) struct Sort {
    name: &'static str,
    fields: [&'static str; 3],
    words: [&'static str; 4],
}

/// The records of a kind, and the bytes of their frames.
pub(crate) static KINDS: Sort = Sort {
    name: "kinds",
    fields: ["kind", "records", "bytes"],
    words: ["", " ", " records, ", " bytes\n"],
};

/// How many units ended in which way.
pub(crate) static OUTCOMES: Sort = Sort {
    name: "units",
    fields: ["committed", "aborted", "cut_off"],
    words: ["units ", " committed, ", " aborted, ", " cut off\n"],
};

/// A payload: its bytes, and the record that has it.
pub(crate) static PAYLOADS: Sort = Sort {
    name: "largest_payloads",
    fields: ["bytes", "offset", "record"],
    words: ["payload of ", " bytes at ", ", record ", "\n"],
};

/// A unit, over how many records it was open, and how it ended.
pub(crate) static UNITS: Sort = Sort {
    name: "longest_units",
    fields: ["unit", "records", "fate"],
    words: ["unit ", " open for ", " records, ", "\n"],
};

/// A queue with its free elements.
pub(crate) static DEPTHS: Sort = Sort {
    name: "deepest_queues",
    fields: ["queue", "name", "elements"],
    words: ["queue ", " ", " ", " free elements\n"],
};

/// A queue with the elements that moved there.
pub(crate) static MOVES: Sort = Sort {
    name: "error_moves",
    fields: ["queue", "name", "elements"],
    words: ["queue ", " ", " ", " elements moved there by aborts\n"],
};

/// A field of a row.
#[derive(Clone, Copy)]
pub(crate) enum Value<'a> {
    /// A number.
    Number(u64),
    /// A word.
    Word(&'a str),
}

/// A row: its sort, its fields, and by what it is ranked among others of its sort.
#[derive(Clone, Copy)]
pub(crate) struct Row<'a> {
    pub(crate) sort: &'static Sort,
    pub(crate) fields: [Value<'a>; 3],
    pub(crate) rank: u64,
}

impl Row<'_> {
    fn is_of(&self, sort: &Sort) -> bool {
        self.sort.name == sort.name
    }
}

/// Puts one more row among the greatest of what was seen, the greatest first, if it is one of them.
/// Of equal ones the first stays first.
pub(crate) fn put_greatest<'a>(told: &mut Vec<Row<'a>>, row: &Row<'a>) -> Result<(), AllocError> {
    let above = told.iter().take_while(|one| one.rank >= row.rank).count();
    let place = above.min(told.len());
    if place < TOLD {
        told.insert(place, *row)?;
        told.truncate(TOLD);
    }
    Ok(())
}

fn put_field(text: &mut String, word: &str, field: &Value<'_>) -> Put {
    text.push_str(word)?;
    match field {
        Value::Number(number) => write!(text, "{number}"),
        Value::Word(word) => text.push_str(word),
    }
}

// Puts the line of a row.
fn put_row(text: &mut String, row: &Row<'_>) -> Put {
    let (words, fields) = (&row.sort.words, &row.fields);
    put_field(text, words[0], &fields[0])?;
    put_field(text, words[1], &fields[1])?;
    put_field(text, words[2], &fields[2])?;
    text.push_str(words[3])
}

/// Puts the lines of the rows of one sort.
pub(crate) fn put_rows(text: &mut String, sort: &Sort, rows: &[Row<'_>]) -> Put {
    for row in rows {
        if row.is_of(sort) {
            put_row(text, row)?;
        }
    }
    Ok(())
}

fn write_field<S: Serializer>(name: &str, field: &Value<'_>, out: &mut S) -> Result<(), S::Error> {
    out.key(name)?;
    match field {
        Value::Number(number) => out.u64(*number),
        Value::Word(word) => out.str(word),
    }
}

// Writes a row as an object.
fn write_row<S: Serializer>(row: &Row<'_>, out: &mut S) -> Result<(), S::Error> {
    let (names, fields) = (&row.sort.fields, &row.fields);
    out.begin_map(None)?;
    write_field(names[0], &fields[0], out)?;
    write_field(names[1], &fields[1], out)?;
    write_field(names[2], &fields[2], out)?;
    out.end_map()
}

fn write_rows<S: Serializer>(sort: &Sort, rows: &[Row<'_>], out: &mut S) -> Result<(), S::Error> {
    for row in rows {
        if row.is_of(sort) {
            write_row(row, out)?;
        }
    }
    Ok(())
}

/// Writes the only row of a sort, by the sort's name.
pub(crate) fn write_only<S: Serializer>(
    sort: &Sort,
    rows: &[Row<'_>],
    out: &mut S,
) -> Result<(), S::Error> {
    out.key(sort.name)?;
    write_rows(sort, rows, out)
}

/// Writes the list of the rows of one sort, by the sort's name.
pub(crate) fn write_list<S: Serializer>(
    sort: &Sort,
    rows: &[Row<'_>],
    out: &mut S,
) -> Result<(), S::Error> {
    out.key(sort.name)?;
    out.begin_seq(None)?;
    write_rows(sort, rows, out)?;
    out.end_seq()
}
