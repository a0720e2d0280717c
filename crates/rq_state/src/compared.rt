//! Bytes that are compared with a spelling, from the front on.

ghost use Rattle.std.specs.Prelude.{◌≡◌, ◌<◌, ℕ, ◌∷◌, [], List, Some, is_some, option_map};
ghost use Rattle.std.specs.Int.{w16, w32, w64, to_be_bytes};
ghost use Rattle.std.specs.List.{flat_map};
ghost use Rattle.rq_state.specs.Comparing.{left_after, is_matched};

use std::marker::Model;

/// Bytes that are compared with a spelling, one piece of it after the other. Nothing is copied, and
/// no memory is taken.
#[derive(Drop)]
pub struct Compared<'a> {
    rest: Option<&'a [u8]>,
}

impl<'a> Model for Compared<'a> {
    ghost use Rattle.std.specs.Prelude.{ℕ, List, Option};
    ghost use Rattle.std.specs.Option.{option_map};

    ghost Value = { Option (List ℕ) };

    ghost view = { λ c. option_map (λ bytes. bytes.now) c.rest };
}

// What is left of the bytes behind the text, if they begin with it.
#[tactic(auto, unfolding(crate::specs::Comparing::left_after))]
fn rest_behind<'a>(bytes: &'a [u8], text: &[u8]) -> Option<&'a [u8]>
    ensures { option_map (λ rest. rest.now) result ≡ left_after text.now (Some bytes.now) }
{
    if !bytes.starts_with(text) {
        return None;
    }
    let (_, rest) = bytes.split_at(text.len());
    Some(rest)
}

impl<'a> Compared<'a> {
    /// All of these bytes are to be compared.
    pub fn new(bytes: &'a [u8]) -> Compared<'a>
        ensures { result ≡ Some bytes.now }
    {
        Compared { rest: Some(bytes) }
    }

    /// Whether the bytes begin with all pieces so far. If not, what else is compared changes
    /// nothing.
    pub fn agree(&self) -> bool
        ensures { result ≡ is_some self.now }
    {
        self.rest.is_some()
    }

    /// Whether the bytes are the pieces so far, and no byte more.
    pub fn is_matched(&self) -> bool
        ensures { result ≡ is_matched self.now }
    {
        match self.rest {
            Some(rest) => rest.is_empty(),
            None => false,
        }
    }

    /// These bytes are to come next.
    #[tactic(auto, unfolding(crate::specs::Comparing::left_after))]
    pub(crate) fn next_bytes(&mut self, text: &[u8])
        ensures { self.new ≡ left_after text.now self.old }
    {
        if let Some(rest) = self.rest {
            self.rest = rest_behind(rest, text);
        }
    }

    /// This byte is to come next.
    pub(crate) fn u8(&mut self, n: u8)
        ensures { self.new ≡ left_after (n ∷ []) self.old }
    {
        self.next_bytes(&[n]);
    }

    /// This number is to come next, in two bytes.
    pub(crate) fn u16(&mut self, n: u16)
        ensures { self.new ≡ left_after (to_be_bytes w16 n) self.old }
    {
        self.next_bytes(&n.to_be_bytes());
    }

    /// This number is to come next, in four bytes.
    pub(crate) fn u32(&mut self, n: u32)
        ensures { self.new ≡ left_after (to_be_bytes w32 n) self.old }
    {
        self.next_bytes(&n.to_be_bytes());
    }

    /// This number is to come next, in eight bytes.
    pub fn u64(&mut self, number: u64)
        ensures { self.new ≡ left_after (to_be_bytes w64 number) self.old }
    {
        self.next_bytes(&number.to_be_bytes());
    }

    /// The number of members is to come next.
    pub fn member_count(&mut self, count: usize)
        requires { count < 4294967296 }
        ensures { self.new ≡ left_after (to_be_bytes w32 count) self.old }
    {
        self.u32(count as u32);
    }
}

/// What has a spelling.
pub trait Compare: Drop {
    ghost spelling: { Self → List ℕ };

    /// Its spelling is to come next in the bytes.
    fn compare(&self, bytes: &mut Compared<'_>)
        ensures { bytes.new ≡ left_after (spelling self.now) bytes.old };
}

/// The spellings of all members are to come next, one after the other. It looks at no member behind
/// the first that differs.
pub fn compare_all<M: Compare>(members: &[M], bytes: &mut Compared<'_>)
    ensures { bytes.new ≡ left_after (flat_map M.spelling members.now) bytes.old }
{
    for member in members {
        if !bytes.agree() {
            return;
        }
        member.compare(bytes);
    }
}
