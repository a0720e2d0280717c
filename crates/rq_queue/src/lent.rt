//! Members of a queue, lent: many are put in order and looked at, and none is copied.

ghost use Rattle.std.specs.Prelude.{◌≡◌, ◌++◌, IfOk, IfErr, OnOk};
ghost use Rattle.std.specs.Map.{values_of};
ghost use Rattle.rq_queue.specs.Kept.{items_of};
ghost use Rattle.rq_record.specs.declared.fault.Fault.TheVariants.{Resources};

use crate::kept_note::KeptNote;
use rq_record::Fault;
use rq_state::{Compare, Compared, KeptElement, Ordinal, Spell};
use std::alloc::{AllocError, Global};
use std::collections::BTreeMap;
use std::marker::Model;

/// A member of a queue, lent. Its number stands beside it, since many are put in order by that.
#[derive(Drop)]
pub struct Lent<'a, M: Ordinal> {
    number: u64,
    member: &'a M,
}

/// An element of a queue, lent.
pub type LentElement<'a> = Lent<'a, KeptElement>;

/// A note of a queue, lent.
pub type LentNote<'a> = Lent<'a, KeptNote>;

impl<'a, M: Ordinal> Model for Lent<'a, M> {
    ghost use Rattle.std.specs.Prelude.{◌≡◌};

    ghost Value = { M };

    ghost view = { λ l. l.member.now };

    ghost invariant = { λ l. l.number ≡ M.ordinal_of l.member.now };
}

impl<'a, M: Ordinal> Lent<'a, M> {
    fn of(member: &'a M) -> Lent<'a, M>
        ensures { result ≡ member.now }
    {
        Lent {
            number: member.ordinal(),
            member,
        }
    }

    /// The member itself.
    pub fn member(&self) -> &'a M
        ensures { result.now ≡ self.now }
    {
        self.member
    }
}

impl<'a, M: Ordinal> Ordinal for Lent<'a, M> {
    ghost ordinal_of = { M.ordinal_of };

    fn ordinal(&self) -> u64 {
        self.number
    }
}

impl<'a, M: Ordinal + Compare> Compare for Lent<'a, M> {
    ghost spelling = { M.spelling };

    fn compare(&self, bytes: &mut Compared<'_>) {
        self.member.compare(bytes);
    }
}

impl<'a, M: Ordinal + Spell> Spell for Lent<'a, M> {
    ghost spelling = { M.spelling };

    fn put(&self, out: &mut Vec<u8>) -> Result<(), AllocError> {
        self.member.put(out)
    }

    fn size(&self) -> u32 {
        self.member.size()
    }
}

/// Lends the members of a map, by key.
pub(crate) fn lend_values<'a, K: Ord, M: Ordinal>(
    lent: &mut Vec<Lent<'a, M>>,
    members: &'a BTreeMap<K, M>,
) -> Result<(), Fault>
    ensures lent { OnOk result (lent.new.items ≡ lent.old.items ++ values_of members.now.entries) }
    ensures refused { IfErr result (λ e. e ≡ Resources) }
{
    for member in members.values() {
        lent.push(Lent::of(member))?;
    }
    Ok(())
}

/// Lends the elements of a list.
pub(crate) fn lend_list<'a>(
    lent: &mut Vec<LentElement<'a>>,
    list: &'a [KeptElement],
) -> Result<(), Fault>
    ensures lent { OnOk result (lent.new.items ≡ lent.old.items ++ list.now) }
    ensures refused { IfErr result (λ e. e ≡ Resources) }
{
    for e in list {
        lent.push(Lent::of(e))?;
    }
    Ok(())
}

/// Lends the elements of all units.
pub(crate) fn lend_marked<'a>(
    lent: &mut Vec<LentElement<'a>>,
    marked: &'a BTreeMap<u64, Vec<KeptElement>>,
) -> Result<(), Fault>
    ensures lent { OnOk result (lent.new.items ≡ lent.old.items ++ items_of marked.now.entries) }
    ensures refused { IfErr result (λ e. e ≡ Resources) }
{
    for (_, list) in marked {
        lend_list(lent, list)?;
    }
    Ok(())
}

/// Copies of the elements.
pub(crate) fn copied(alloc: Global, lent: &[LentElement<'_>]) -> Result<Vec<KeptElement>, Fault>
    ensures copied { IfOk result (λ v. v.items ≡ lent.now) }
    ensures refused { IfErr result (λ e. e ≡ Resources) }
{
    let mut copies = Vec::with_capacity(alloc, lent.len())?;
    for e in lent {
        copies.push(e.member().copied()?)?;
    }
    Ok(copies)
}
