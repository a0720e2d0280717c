//! A record as a line.

ghost use Rattle.std.specs.Prelude.{◌≡◌, ◌++◌, OnOk, string_bytes};
ghost use Rattle.rq_record.specs.Views.{record_of};
ghost use Rattle.rq_look.specs.Entries.{shown_entry};
ghost use Rattle.rq_look.specs.Lines.{by_text, bytes_text, fields_text, known_text, record_line};

use crate::bytes::put_bytes;
use crate::shown_records::{ShownRecord, unit_number};
use rq_found::TextPiece::{Number, Word};
use rq_found::{Put, TextPiece, kind_of};
use rq_record::{KeptBy, KeptRecord};
use rq_report::put_error;
use std::alloc::Global;

// Puts a word and a number, if there is one.
fn put_known(text: &mut String, word: &str, number: Option<u64>) -> Put
    ensures { OnOk result
        (string_bytes text.new ≡ string_bytes text.old ++ known_text word.now number) }
{
    match number {
        Some(number) => TextPiece::put_all(text, &[Word(word), Number(number)]),
        None => Ok(()),
    }
}

// Puts who does an operation.
fn put_by(text: &mut String, by: &KeptBy) -> Put
    ensures { OnOk result
        (string_bytes text.new ≡ string_bytes text.old ++ by_text by.now) }
{
    match by.by() {
        Some(by) => {
            let (name, tag) = (Word(by.name.text()), Number(by.tag));
            TextPiece::put_all(text, &[Word(" by "), name, Word(" tag "), tag])
        }
        None => text.push_str(" by -"),
    }
}

// Puts a word and bytes.
fn put_load(alloc: Global, text: &mut String, word: &str, bytes: &[u8], full: bool) -> Put
    ensures { OnOk result
        (string_bytes text.new ≡ string_bytes text.old ++ (word.now ++ bytes_text full bytes.now)) }
{
    text.push_str(word)?;
    put_bytes(alloc, text, bytes, full)
}

// Puts what no other kind of record has.
fn put_fields(alloc: Global, text: &mut String, r: &KeptRecord, full: bool) -> Put
    ensures { OnOk result
        (string_bytes text.new ≡ string_bytes text.old ++ fields_text full (record_of r.now)) }
{
    match r {
        KeptRecord::Define { limit, error, name } => {
            let (name, limit) = (Word(name.text()), Number(u64::from(*limit)));
            let words = [
                Word(" name "),
                name,
                Word(" limit "),
                limit,
                Word(" error "),
            ];
            TextPiece::put_all(text, &words)?;
            put_error(text, *error)
        }
        KeptRecord::Register { name, .. } | KeptRecord::Deregister { name, .. } => {
            TextPiece::put_all(text, &[Word(" name "), Word(name.text())])
        }
        KeptRecord::Enqueue {
            priority,
            by,
            payload,
            ..
        } => {
            TextPiece::put_all(text, &[Word(" priority "), Number(u64::from(*priority))])?;
            put_by(text, by)?;
            put_load(alloc, text, " payload ", payload.bytes(), full)
        }
        KeptRecord::Dequeue { by, .. } => put_by(text, by),
        KeptRecord::Kill { element, .. } => TextPiece::put_all(
            text,
            &[Word(" element "), Number(element.0)],
        ),
        KeptRecord::Checkpoint { bytes } => put_load(alloc, text, " bytes ", bytes.bytes(), full),
        _ => Ok(()),
    }
}

/// Puts the line of a record without its end: its offset, its number, its kind and its fields. Behind
/// the front it has `behind` for its number.
pub(crate) fn put_record(alloc: Global, text: &mut String, it: &ShownRecord<'_>, full: bool) -> Put
    ensures { OnOk result (string_bytes text.new ≡ string_bytes text.old
        ++ record_line full (shown_entry it.now)) }
{
    let number = match it.number {
        Some(number) => Number(number),
        None => Word("behind"),
    };
    let kind = Word(kind_of(it.record));
    TextPiece::put_all(
        text,
        &[Number(it.offset), Word(" "), number, Word(" "), kind],
    )?;
    put_known(text, " unit ", unit_number(it.record))?;
    put_known(text, " queue ", it.queue.map(|queue| u64::from(queue.0)))?;
    put_fields(alloc, text, it.record, full)
}
