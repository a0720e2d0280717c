//! Names of queues and registrants.

ghost use Rattle.std.specs.Prelude.{◌≡◌, ◌≤◌, ◌-◌, ◌++◌, length, replicate, if◌then◌else◌, IsTrue};
ghost use Rattle.std.specs.Prelude.{None};
ghost use Rattle.std.specs.List.{list_all};
ghost use Rattle.std.specs.Ordering.{is_lt, nat_cmp};
ghost use Rattle.std.specs.Cmp.Lexicographic.{slice_cmp, pointwise, nat_list_eq_equiv};
ghost use Rattle.std.specs.Cmp.Lexicographic.{nat_list_cmp_total, texts_ties, texts_po};
ghost use Rattle.std.specs.Cmp.{partial_equiv_from_equiv};
ghost use Rattle.std.specs.Hash as fed;
ghost use Rattle.std.specs.Cmp.Rules.{hashing};
ghost use Rattle.std.proofs.Common.{rules};
ghost use Rattle.std.specs.Prelude.{refl, nat_eq, Some};
ghost use Rattle.rq_model.specs.Spelling.{is_name, is_name_byte};

use std::cmp::Ordering;
use std::hash::{Hash, Hasher};
use std::marker::Model;

/// 1 to 64 bytes of `a-z`, `0-9`, `-`, `.` and `_`. The rest of the array is 0, so two names are
/// equal, or in order, if their arrays are.
#[derive(Clone, Copy, Debug)]
pub struct Name {
    bytes: [u8; 64],
    len: u8,
}

impl Model for Name {
    ghost use Rattle.std.specs.Prelude.{ℕ, List, ◌≡◌, ◌≤◌, ◌-◌, ◌++◌, length, take, replicate};
    ghost use Rattle.std.specs.Prelude.{IsTrue};
    ghost use Rattle.rq_model.specs.Spelling.{is_name};
    ghost use Rattle.rq_record.specs.Padding.{Padded};

    ghost Value = { List ℕ };

    ghost view = { λ n. take n.len n.bytes };

    ghost invariant = { λ n. Padded n.bytes n.len × IsTrue (is_name (take n.len n.bytes)) };

    ghost inverse = { λ v. record { bytes = v ++ replicate (64 - length v) 0; len = length v } };

    ghost use Rattle.rq_record.specs.Padding.{inside_again};

    ghost inverse_ok = { inside_again };
}

fn is_name_char(b: u8) -> bool
    ensures { result ≡ is_name_byte b }
{
    matches!(b, b'a'..=b'z' | b'0'..=b'9' | b'-' | b'.' | b'_')
}

fn are_name_chars(bytes: &[u8]) -> bool
    ensures { result ≡ list_all is_name_byte bytes.now }
{
    bytes.iter().all(|b| is_name_char(*b))
}

pub(crate) fn is_name_bytes(bytes: &[u8]) -> bool
    ensures { result ≡ is_name bytes.now }
{
    1 <= bytes.len() && bytes.len() <= Name::LIMIT && are_name_chars(bytes)
}

pub(crate) fn padded<const N: usize>(bytes: &[u8]) -> [u8; N]
    requires { length bytes.now ≤ N }
    ensures { result ≡ bytes.now ++ replicate (N - length bytes.now) 0 }
{
    let mut kept = [0; N];
    kept[..bytes.len()].copy_from_slice(bytes);
    kept
}

/// The bytes of a name as text: each of them is an ASCII character.
pub(crate) fn text_of(name: &[u8]) -> &str
    requires { IsTrue (is_name name.now) }
    ensures { result.now ≡ name.now }
{
    // The contract says that they are: a test would read them again at each comparison.
    unsafe { std::str::from_utf8_unchecked(name) }
}

impl Name {
    /// The most bytes.
    pub const LIMIT: usize = 64;

    /// The name with these bytes; none if they are not a name. Takes no memory.
    pub fn new(bytes: &[u8]) -> Option<Name>
        ensures { result ≡ (if is_name bytes.now then Some bytes.now else None) }
    {
        if is_name_bytes(bytes) {
            Some(Name::of_checked(bytes))
        } else {
            None
        }
    }

    /// The name with these bytes, which are known to be one.
    pub(crate) fn of_checked(bytes: &[u8]) -> Name
        requires { IsTrue (is_name bytes.now) }
        ensures { result ≡ bytes.now }
    {
        Name {
            bytes: padded(bytes),
            len: bytes.len() as u8,
        }
    }

    /// The bytes of the name, 1 to 64, and that they are a name.
    pub fn bytes(&self) -> &[u8]
        ensures bytes { result.now ≡ self.now }
        ensures name { IsTrue (is_name self.now) }
    {
        &self.bytes[..self.len as usize]
    }

    /// The same bytes as text: each of them is an ASCII character.
    pub fn text(&self) -> &str
        ensures { result.now ≡ self.now }
    {
        text_of(self.bytes())
    }
}

impl PartialEq for Name {
    ghost eq = { pointwise nat_eq };

    ghost laws = { partial_equiv_from_equiv nat_list_eq_equiv };

    fn eq(&self, other: &Name) -> bool {
        self.bytes() == other.bytes()
    }
}

impl Eq for Name {
    ghost laws = { nat_list_eq_equiv };
}

impl PartialOrd for Name {
    ghost partial_cmp = { λ x y. Some (slice_cmp nat_cmp x y) };

    ghost laws = { texts_po };

    fn partial_cmp(&self, other: &Name) -> Option<Ordering> {
        Some(self.cmp(other))
    }
}

impl Ord for Name {
    ghost cmp = { slice_cmp nat_cmp };

    ghost total = { nat_list_cmp_total };

    ghost matches_partial_cmp = { λ x y. refl };

    ghost matches_eq = { texts_ties };

    fn cmp(&self, other: &Name) -> Ordering {
        // Texts are compared eight bytes at a time, slices byte by byte.
        self.text().cmp(other.text())
    }
}

impl Hash for Name {
    ghost hash_input = { λ n. fed.slice (λ b. fed.u8 b) n };

    ghost respects_eq = { Prim.search (hashing, rules) };

    fn hash<H: Hasher>(&self, state: &mut H) {
        self.bytes().hash(state);
    }
}
