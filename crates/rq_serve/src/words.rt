//! The words of a line: numbers and names.

ghost use Rattle.std.specs.Prelude.{◌≡◌, ◌≤◌, IfOk};
ghost use Rattle.std.specs.Option.{option_map};
ghost use Rattle.rq_writer.specs.Reading.{Gives, cut_at, field_at, number_of, name_of, by_of};
ghost use Rattle.rq_writer.specs.Reading as reading;
ghost use Rattle.rq_serve.specs.Requests as spec;

use memchr::memchr;
use rq_record::{By, Fault, Name};
use rq_writer::decimal_number;

/// What comes before the first such byte, and what after it.
#[tactic(auto, using(crate::proofs::Cutting::first_cuts, crate::proofs::Cutting::none_cuts))]
pub(crate) fn cut_once(byte: u8, bytes: &[u8]) -> Option<(&[u8], &[u8])>
    ensures { option_map (λ x. (x.0.now, x.1.now)) result ≡ cut_at byte bytes.now }
{
    match memchr(byte, bytes) {
        Some(at) => Some((&bytes[..at], &bytes[at + 1..])),
        None => None,
    }
}

/// A word, and what comes after its space.
pub(crate) fn word(text: &[u8]) -> Result<(&[u8], &[u8]), Fault>
    ensures { Gives (λ x. (x.0.now, x.1.now)) result (field_at text.now) }
{
    match cut_once(b' ', text) {
        Some((word, rest)) => Ok((word, rest)),
        None => Err(Fault::Form),
    }
}

/// The number of a text, at most `most`.
#[tactic(auto, using(crate::proofs::Numbers::number_read))]
pub(crate) fn read_number(most: u64, text: &[u8]) -> Result<u64, Fault>
    ensures number { Gives (λ x. x) result (number_of most text.now) }
    ensures most { IfOk result (λ n. n ≤ most) }
{
    match decimal_number(most, text) {
        Some(number) => Ok(number),
        None => Err(Fault::Form),
    }
}

/// A number, at most `most`, and what comes after its space.
#[tactic(auto, unfolding(rq_writer::specs::Reading::number_field))]
pub(crate) fn number_word(most: u64, text: &[u8]) -> Result<(u64, &[u8]), Fault>
    ensures number { Gives (λ x. (x.0, x.1.now)) result (reading.number_field most text.now) }
    ensures most { IfOk result (λ x. x.0 ≤ most) }
{
    let (word, rest) = word(text)?;
    let number = read_number(most, word)?;
    Ok((number, rest))
}

/// The name that a text is.
pub(crate) fn read_name(text: &[u8]) -> Result<Name, Fault>
    ensures { Gives (λ x. x) result (name_of text.now) }
{
    match Name::new(text) {
        Some(name) => Ok(name),
        None => Err(Fault::Form),
    }
}

/// The name that a text is, or none if it is `-`.
pub(crate) fn optional_name(text: &[u8]) -> Result<Option<Name>, Fault>
    ensures { Gives (λ x. x) result (spec.optional_name text.now) }
{
    if text == b"-".as_slice() {
        return Ok(None);
    }
    let name = read_name(text)?;
    Ok(Some(name))
}

/// Who an operation is by: a registrant with a tag, or nobody, with tag 0.
pub(crate) fn read_by(who: &[u8], tag: u64) -> Result<Option<By>, Fault>
    ensures { Gives (λ x. x) result (by_of who.now tag) }
{
    if who == b"-".as_slice() {
        return if tag == 0 { Ok(None) } else { Err(Fault::Form) };
    }
    let name = read_name(who)?;
    Ok(Some(By { name, tag }))
}
