//! The fields of a line: numbers in decimal, names, and bytes in hexadecimal.

ghost use Rattle.std.specs.Prelude.{◌≡◌, ◌*◌, ◌≤◌, ◌<◌, ◌∷◌, length, IsTrue, IfSome, IfNone, IfOk};
ghost use Rattle.std.specs.Option.{option_map};
ghost use Rattle.std.specs.List.{list_all};
ghost use Rattle.rq_writer.specs.Decimals.{IsNumber};
ghost use Rattle.rq_writer.specs.Reading.{Gives, name_of};
ghost use Rattle.rq_writer.specs.Reading as spec;

use rq_record::{By, CheckBytes, Fault, Name, Payload, QueueNo};
use std::alloc::Global;

/// What comes before the first such byte, and what after it.
pub(crate) fn split_once(byte: u8, bytes: &[u8]) -> Option<(&[u8], &[u8])>
    ensures { option_map (λ x. (x.0.now, x.1.now)) result ≡ spec.cut_at byte bytes.now }
{
    let mut at = 0;
    while at < bytes.len() {
        if bytes[at] == byte {
            return Some((&bytes[..at], &bytes[at + 1..]));
        }
        at += 1;
    }
    None
}

pub(crate) fn field(bytes: &[u8]) -> Result<(&[u8], &[u8]), Fault>
    ensures { Gives (λ x. (x.0.now, x.1.now)) result (spec.field_at bytes.now) }
{
    match split_once(b' ', bytes) {
        Some((field, rest)) => Ok((field, rest)),
        None => Err(Fault::Form),
    }
}

fn is_digit(byte: u8) -> bool
    ensures { result ≡ spec.is_digit byte }
{
    byte.is_ascii_digit()
}

fn are_digits(bytes: &[u8]) -> bool
    ensures { result ≡ list_all spec.is_digit bytes.now }
{
    bytes.iter().all(|b| is_digit(*b))
}

pub(crate) fn is_decimal(bytes: &[u8]) -> bool
    ensures { result ≡ spec.is_decimal bytes.now }
{
    match bytes {
        [] => false,
        [first, rest @ ..] => are_digits(bytes) && (rest.is_empty() || *first > b'0'),
    }
}

pub(crate) fn parsed(bytes: &[u8]) -> Option<u64>
    requires { IsTrue (spec.is_decimal bytes.now) }
    ensures { result ≡ spec.number_of 18446744073709551615 bytes.now }
{
    match std::str::from_utf8(bytes) {
        Ok(text) => match text.parse() {
            Ok(n) => Some(n),
            Err(_) => None,
        },
        Err(_) => None,
    }
}

/// The number that a text is in decimal, without sign and leading zeros. None if the text is that
/// of no number up to `most`. It takes no memory.
pub fn decimal_number(most: u64, text: &[u8]) -> Option<u64>
    ensures { IsNumber most text.now result }
{
    if !is_decimal(text) {
        return None;
    }
    let number = parsed(text)?;
    if number <= most { Some(number) } else { None }
}

pub(crate) fn number(most: u64, bytes: &[u8]) -> Result<u64, Fault>
    ensures number { Gives (λ x. x) result (spec.number_of most bytes.now) }
    ensures most { IfOk result (λ n. n ≤ most) }
{
    if !is_decimal(bytes) {
        return Err(Fault::Form);
    }
    match parsed(bytes) {
        Some(n) if n <= most => Ok(n),
        _ => Err(Fault::Form),
    }
}

#[tactic(auto, unfolding(crate::specs::Reading::number_field))]
pub(crate) fn number_field(most: u64, bytes: &[u8]) -> Result<(u64, &[u8]), Fault>
    ensures number { Gives (λ x. (x.0, x.1.now)) result (spec.number_field most bytes.now) }
    ensures most { IfOk result (λ x. x.0 ≤ most) }
{
    let (field, rest) = field(bytes)?;
    let n = number(most, field)?;
    Ok((n, rest))
}

pub(crate) fn u32_field(bytes: &[u8]) -> Result<(u32, &[u8]), Fault>
    ensures { Gives (λ x. (x.0, x.1.now)) result (spec.number_field 4294967295 bytes.now) }
{
    let (n, rest) = number_field(4294967295, bytes)?;
    Ok((n as u32, rest))
}

pub(crate) fn name(bytes: &[u8]) -> Result<Name, Fault>
    ensures { Gives (λ x. x) result (name_of bytes.now) }
{
    match Name::new(bytes) {
        Some(name) => Ok(name),
        None => Err(Fault::Form),
    }
}

pub(crate) fn error(bytes: &[u8]) -> Result<u32, Fault>
    ensures { Gives (λ x. x) result (spec.error_of bytes.now) }
{
    if bytes == b"-".as_slice() {
        return Ok(QueueNo::NONE.0);
    }
    let n = number(4294967294, bytes)?;
    Ok(n as u32)
}

pub(crate) fn by(name: &[u8], tag: u64) -> Result<Option<By>, Fault>
    ensures { Gives (λ x. x) result (spec.by_of name.now tag) }
{
    if name == b"-".as_slice() {
        if tag == 0 { Ok(None) } else { Err(Fault::Form) }
    } else {
        match Name::new(name) {
            Some(name) => Ok(Some(By { name, tag })),
            None => Err(Fault::Form),
        }
    }
}

fn digit(byte: u8) -> Result<u8, Fault>
    ensures digit { Gives (λ x. x) result (spec.digit_of byte) }
    ensures low { IfOk result (λ x. x < 16) }
{
    match byte {
        b'0'..=b'9' => Ok(byte - b'0'),
        b'a'..=b'f' => Ok(byte - b'a' + 10),
        _ => Err(Fault::Form),
    }
}

fn pair(high: u8, low: u8) -> Result<u8, Fault>
    ensures { Gives (λ x. x) result (spec.pair_of high low) }
{
    let high = digit(high)?;
    let low = digit(low)?;
    Ok(high * 16 + low)
}

fn two_digits(text: &[u8]) -> Option<(u8, u8, &[u8])>
    ensures some { IfSome result (λ x. text.now ≡ x.0 ∷ x.1 ∷ x.2.now) }
    ensures none { IfNone result (length text.now < 2) }
{
    match text {
        [high, low, rest @ ..] => Some((*high, *low, rest)),
        _ => None,
    }
}

fn pairs(alloc: Global, text: &[u8]) -> Result<Vec<u8>, Fault>
    ensures bytes { Gives (λ x. x.items) result (spec.pairs_of text.now) }
    ensures short { IfOk result (λ x. 2 * length x.items ≤ length text.now) }
{
    let mut bytes = Vec::with_capacity(alloc, text.len() / 2)?;
    let mut rest = text;
    while let Some((high, low, after)) = two_digits(rest) {
        bytes.push(pair(high, low)?)?;
        rest = after;
    }
    if rest.is_empty() {
        Ok(bytes)
    } else {
        Err(Fault::Form)
    }
}

fn hex(alloc: Global, limit: usize, text: &[u8]) -> Result<Vec<u8>, Fault>
    requires { limit ≤ 268435455 }
    ensures bytes { Gives (λ x. x.items) result (spec.bytes_of_hex limit text.now) }
    ensures short { IfOk result (λ x. length x.items ≤ limit) }
{
    if text == b"-".as_slice() {
        return Ok(Vec::new(alloc));
    }
    if text.is_empty() || text.len() > 2 * limit {
        return Err(Fault::Form);
    }
    pairs(alloc, text)
}

pub(crate) fn payload(alloc: Global, text: &[u8]) -> Result<Payload, Fault>
    ensures { Gives (λ x. x) result (spec.bytes_of_hex 65535 text.now) }
{
    match Payload::new(hex(alloc, Payload::LIMIT, text)?) {
        Some(payload) => Ok(payload),
        None => Err(Fault::Form),
    }
}

pub(crate) fn kept(alloc: Global, text: &[u8]) -> Result<CheckBytes, Fault>
    ensures { Gives (λ x. x) result (spec.bytes_of_hex 268435455 text.now) }
{
    match CheckBytes::new(hex(alloc, CheckBytes::LIMIT, text)?) {
        Some(bytes) => Ok(bytes),
        None => Err(Fault::Form),
    }
}
