//! The payload of an element.

ghost use Rattle.std.specs.Prelude.{◌≡◌, ◌≤◌, ◌↔◌, length, IsSome, IfSome};

use std::marker::Model;

/// The payload of an element, at most 65,535 bytes.
#[derive(Drop)]
pub struct Payload {
    bytes: Vec<u8>,
}

impl Model for Payload {
    ghost use Rattle.std.specs.Prelude.{ℕ, List, ◌≤◌, length};

    ghost Value = { List ℕ };

    ghost view = { λ p. p.bytes.items };

    ghost invariant = { λ p. length p.bytes.items ≤ 65535 };
}

impl Payload {
    /// The most bytes.
    pub const LIMIT: usize = 65_535;

    /// These bytes; none if there are more than 65,535, which are dropped. Takes no memory.
    pub fn new(bytes: Vec<u8>) -> Option<Payload>
        ensures bounded { IsSome result ↔ (length bytes.items ≤ 65535) }
        ensures bytes { IfSome result (λ p. p ≡ bytes.items) }
    {
        if bytes.len() > Payload::LIMIT {
            return None;
        }
        Some(Payload::of_checked(bytes))
    }

    /// The payload with these bytes, which are known to be no more than one may have.
    pub(crate) fn of_checked(bytes: Vec<u8>) -> Payload
        requires { length bytes.items ≤ 65535 }
        ensures { result ≡ bytes.items }
    {
        Payload { bytes }
    }

    /// The bytes, with their bound.
    pub fn bytes(&self) -> &[u8]
        ensures bytes { result.now ≡ self.now }
        ensures bounded { length self.now ≤ 65535 }
    {
        &self.bytes
    }
}
