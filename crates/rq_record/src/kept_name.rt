//! A name in 16 bytes: as a record, a note and a map keep it.

ghost use Rattle.std.specs.Prelude.{◌≡◌, ◌≤◌, length, IfOk, IfErr, IsOk, IsTrue, refl, nat_eq};
ghost use Rattle.std.specs.Prelude.{Some};
ghost use Rattle.std.specs.Ordering.{nat_cmp};
ghost use Rattle.std.specs.Cmp.Lexicographic.{slice_cmp, pointwise, nat_list_eq_equiv};
ghost use Rattle.std.specs.Cmp.Lexicographic.{nat_list_cmp_total, texts_ties, texts_po};
ghost use Rattle.std.specs.Cmp.{partial_equiv_from_equiv};
ghost use Rattle.rq_model.specs.Spelling.{is_name};
ghost use Rattle.rq_record.specs.declared.fault.Fault.TheVariants.{Resources};

use crate::fault::Fault;
use crate::name::{Name, padded, text_of};
use std::alloc::Global;
use std::cmp::Ordering;
use std::marker::Model;

// A short name is kept in place, a longer one in memory of its own.
#[derive(Drop)]
enum Form {
    Short { len: u8, bytes: [u8; 14] },
    Long(Box<Name>),
}

/// A name in 16 bytes; a `Name` takes 65. A log has many records, and most names are short.
#[derive(Drop)]
pub struct KeptName {
    form: Form,
}

impl Model for KeptName {
    ghost use Rattle.std.specs.Prelude.{ℕ, List};
    ghost use Rattle.rq_record.specs.Kept.{name_in, IsKept};

    ghost Value = { List ℕ };

    ghost view = { λ n. name_in n.form };

    ghost invariant = { λ n. IsKept n.form };
}

impl KeptName {
    /// Keeps the name. `Resources` if memory runs out; a name of at most 14 bytes takes none.
    pub fn of(alloc: Global, name: &Name) -> Result<KeptName, Fault>
        ensures kept { IfOk result (λ n. n ≡ name.now) }
        ensures refused { IfErr result (λ e. e ≡ Resources) }
        ensures short { length name.now ≤ 14 → IsOk result }
    {
        KeptName::of_checked(alloc, name.bytes())
    }

    /// The same for bytes that are known to be a name: what is read is kept straight from where it
    /// lies, without a copy into the 65 bytes of a `Name`.
    pub(crate) fn of_checked(alloc: Global, bytes: &[u8]) -> Result<KeptName, Fault>
        requires { IsTrue (is_name bytes.now) }
        ensures kept { IfOk result (λ n. n ≡ bytes.now) }
        ensures refused { IfErr result (λ e. e ≡ Resources) }
        ensures short { length bytes.now ≤ 14 → IsOk result }
    {
        let form = if bytes.len() <= 14 {
            Form::Short {
                len: bytes.len() as u8,
                bytes: padded(bytes),
            }
        } else {
            Form::Long(Box::new(alloc, Name::of_checked(bytes))?)
        };
        Ok(KeptName { form })
    }

    /// The bytes of the name, 1 to 64, and that they are a name.
    pub fn bytes(&self) -> &[u8]
        ensures bytes { result.now ≡ self.now }
        ensures name { IsTrue (is_name self.now) }
    {
        match &self.form {
            Form::Short { len, bytes } => &bytes[..*len as usize],
            Form::Long(name) => name.bytes(),
        }
    }

    /// The same bytes as text: each of them is an ASCII character.
    pub fn text(&self) -> &str
        ensures { result.now ≡ self.now }
    {
        text_of(self.bytes())
    }

    /// The name itself. Takes no memory.
    pub fn name(&self) -> Name
        ensures { result ≡ self.now }
    {
        Name::of_checked(self.bytes())
    }
}

impl PartialEq for KeptName {
    ghost eq = { pointwise nat_eq };

    ghost laws = { partial_equiv_from_equiv nat_list_eq_equiv };

    fn eq(&self, other: &KeptName) -> bool {
        self.bytes() == other.bytes()
    }
}

impl Eq for KeptName {
    ghost laws = { nat_list_eq_equiv };
}

impl PartialOrd for KeptName {
    ghost partial_cmp = { λ x y. Some (slice_cmp nat_cmp x y) };

    ghost laws = { texts_po };

    fn partial_cmp(&self, other: &KeptName) -> Option<Ordering> {
        Some(self.cmp(other))
    }
}

/// Names are in the order of their bytes.
impl Ord for KeptName {
    ghost cmp = { slice_cmp nat_cmp };

    ghost total = { nat_list_cmp_total };

    ghost matches_partial_cmp = { λ x y. refl };

    ghost matches_eq = { texts_ties };

    fn cmp(&self, other: &KeptName) -> Ordering {
        // Texts are compared eight bytes at a time, slices byte by byte.
        self.text().cmp(other.text())
    }
}
