//! The payload that a word spells: bytes in hexadecimal, two digits each.

ghost use Rattle.std.specs.Prelude.{◌≡◌, ◌≤◌, ◌*◌, ◌||◌, [], Some, None, length, nat_le, if◌then◌else◌};
ghost use Rattle.rq_writer.specs.Reading.{Gives, bytes_of_hex, digit_of, pairs_of};

use rq_record::{Fault, Payload};
use std::alloc::Global;

// The value of a digit of hexadecimal in lower case; 16 if it is none.
fn digit_value(byte: u8) -> u8
    ensures { digit_of byte ≡ (if nat_le 16 result then None else Some result) }
{
    match byte {
        b'0'..=b'9' => byte - b'0',
        b'a'..=b'f' => byte - b'a' + 10,
        _ => 16,
    }
}

// The greater of two values.
fn greater(one: u8, other: u8) -> u8
    ensures { nat_le 16 result ≡ (nat_le 16 one || nat_le 16 other) }
{
    if one < other { other } else { one }
}

// Puts the bytes that pairs of digits are, and answers the greatest value of a digit: it is looked at once,
// behind all, so that many digits are read at a time.
fn put_pairs(digits: &[u8], bytes: &mut [u8]) -> u8
    requires { length digits.now ≡ 2 * length bytes.old }
    ensures { pairs_of digits.now ≡ (if nat_le 16 result then None else Some bytes.new) }
{
    let mut most = 0;
    for at in 0..bytes.len() {
        let high = digit_value(digits[2 * at]);
        let low = digit_value(digits[2 * at + 1]);
        most = greater(most, greater(high, low));
        bytes[at] = high % 16 * 16 + low % 16;
    }
    most
}

// The payload of pairs of digits.
#[tactic(auto, using(crate::proofs::Pairs::odd_pairs))]
fn of_pairs(alloc: Global, digits: &[u8]) -> Result<Payload, Fault>
    requires { length digits.now ≤ 131070 }
    ensures { Gives (λ x. x) result (pairs_of digits.now) }
{
    if digits.len() % 2 != 0 {
        return Err(Fault::Form);
    }
    let mut bytes = vec![in alloc; 0u8; digits.len() / 2]?;
    if put_pairs(digits, &mut bytes) > 15 {
        return Err(Fault::Form);
    }
    match Payload::new(bytes) {
        Some(payload) => Ok(payload),
        None => Err(Fault::Form),
    }
}

// No bytes.
fn no_payload(alloc: Global) -> Result<Payload, Fault>
    ensures { Gives (λ x. x) result (Some []) }
{
    match Payload::new(Vec::new(alloc)) {
        Some(payload) => Ok(payload),
        None => Err(Fault::Resources),
    }
}

/// The payload that a text is in hexadecimal; `-` is the empty one.
pub(crate) fn read_payload(alloc: Global, text: &[u8]) -> Result<Payload, Fault>
    ensures { Gives (λ x. x) result (bytes_of_hex 65535 text.now) }
{
    if text == b"-".as_slice() {
        return no_payload(alloc);
    }
    if text.is_empty() || text.len() > 2 * Payload::LIMIT {
        return Err(Fault::Form);
    }
    of_pairs(alloc, text)
}
