//! The open units, and the queues that each of them named.

ghost use Rattle.std.specs.Prelude.{◌≡◌, ◌==◌, ℕ, [], ◌&&◌, ◌||◌, true, false, IfOk, OnOk, IfErr, map};
ghost use Rattle.std.specs.Prelude.{◌<◌, if◌then◌else◌, length};
ghost use Rattle.std.specs.BTreeMap.{keys, IsOrdered};
ghost use Rattle.std.specs.Int.{w64, to_be_bytes};
ghost use Rattle.std.specs.List.{flat_map};
ghost use Rattle.std.specs.Ordering.{nat_cmp, is_eq};
ghost use Rattle.rq_model.specs.StateSpelling.{counted};
ghost use Rattle.rq_model.specs.States.{State};
ghost use Rattle.rq_model.specs.WellFormed.{IsWellFormed};
ghost use Rattle.rq_record.specs.declared.fault.Fault.TheVariants.{Resources};
ghost use Rattle.rq_state.specs.Comparing.{left_after};
ghost use Rattle.rq_state.specs.Views.{unit_of};
ghost use Rattle.rq_standing.specs.Units.{AreUnits, has_open, queues_of, engages_in};

use rq_record::{Fault, QueueNo, UnitNo};
use rq_state::Compared;
use std::alloc::Global;
use std::collections::BTreeMap;

/// The open units. Under each stand the queues that it named, one for each of its operations: to
/// look for a queue there would cost more than to end the unit in it twice.
#[derive(Drop)]
pub struct OpenUnits {
    named: BTreeMap<u64, Vec<u64>>,
}

impl OpenUnits {
    /// No unit.
    pub(crate) fn none(alloc: Global) -> OpenUnits
        ensures { (u : ℕ) → has_open result u ≡ false }
    {
        OpenUnits {
            named: BTreeMap::new(alloc),
        }
    }

    /// A unit begins, which has named no queue.
    pub(crate) fn begin(&mut self, alloc: Global, unit: UnitNo) -> Result<(), Fault>
        ensures opened { OnOk result ((u : ℕ) → has_open self.new u
            ≡ (if is_eq (nat_cmp unit.0 u) then true else has_open self.old u)) }
        ensures queues { OnOk result ((u : ℕ) → queues_of self.new u
            ≡ (if is_eq (nat_cmp unit.0 u) then [] else queues_of self.old u)) }
        ensures refused { IfErr result (λ e. e ≡ Resources) }
    {
        self.named.insert(unit.0, Vec::new(alloc))?;
        Ok(())
    }

    /// A unit names a queue, if it is open.
    pub(crate) fn engage(&mut self, unit: UnitNo, queue: QueueNo) -> Result<(), Fault>
        ensures opened { OnOk result ((u : ℕ) → has_open self.new u ≡ has_open self.old u) }
        ensures engaged { OnOk result ((u q : ℕ) → engages_in self.new u q
            ≡ ((has_open self.old u && ((queue.0 == q) && (unit.0 == u)))
            || engages_in self.old u q)) }
        ensures refused { IfErr result (λ e. e ≡ Resources) }
    {
        if let Some(queues) = self.named.get_mut(&unit.0) {
            queues.push(queue.0 as u64)?;
        }
        Ok(())
    }

    /// The queues that a unit named.
    pub(crate) fn queues_named(&self, unit: UnitNo) -> &[u64]
        ensures { result.now ≡ queues_of self.now unit.0 }
    {
        match self.named.get(&unit.0) {
            Some(queues) => queues,
            None => &[],
        }
    }

    /// A unit ends. The queues that it named.
    pub(crate) fn end(&mut self, alloc: Global, unit: UnitNo) -> Vec<u64>
        ensures queues { result.items ≡ queues_of self.old unit.0 }
        ensures opened { (u : ℕ) → has_open self.new u
            ≡ (if is_eq (nat_cmp unit.0 u) then false else has_open self.old u) }
        ensures others { (u : ℕ) → queues_of self.new u
            ≡ (if is_eq (nat_cmp unit.0 u) then [] else queues_of self.old u) }
    {
        match self.named.remove(&unit.0) {
            Some(queues) => queues,
            None => Vec::new(alloc),
        }
    }

    /// Whether the unit is one of them.
    pub(crate) fn has_begun(&self, unit: UnitNo) -> bool
        ensures { result ≡ has_open self.now unit.0 }
    {
        self.named.contains_key(&unit.0)
    }

    /// How many they are.
    pub(crate) fn count(&self) -> usize
        ensures { (s : State) → IsWellFormed s → AreUnits self.now s
            → result ≡ length s.units }
    {
        self.named.len()
    }

    /// Their numbers rise.
    pub(crate) fn numbers_rise(&self)
        ensures { IsOrdered nat_cmp self.now.named }
    {
        BTreeMap::len(&self.named);
    }

    /// How many they are and their numbers, rising, are to come next in the bytes.
    pub(crate) fn compare(&self, bytes: &mut Compared<'_>)
        requires few { (s : State) × IsWellFormed s × AreUnits self.now s
            × (length s.units < 4294967296) }
        ensures { (s : State) → IsWellFormed s → AreUnits self.now s
            → bytes.new ≡ left_after (counted (to_be_bytes w64) s.units) bytes.old }
    {
        let units = self.count();
        bytes.member_count(units);
        compare_each(&self.named, bytes);
    }

    /// Their numbers, rising.
    pub(crate) fn numbers(&self, alloc: Global) -> Result<Vec<UnitNo>, Fault>
        ensures numbers { IfOk result (λ units. map unit_of units.items ≡ keys self.now.named) }
        ensures ordered { IfOk result (λ _. IsOrdered nat_cmp self.now.named) }
        ensures refused { IfErr result (λ e. e ≡ Resources) }
    {
        let mut units = Vec::new(alloc);
        for unit in self.named.keys() {
            units.push(UnitNo(*unit))?;
        }
        Ok(units)
    }
}

// The numbers are to come next in the bytes. It looks at none behind the first that differs.
fn compare_each(named: &BTreeMap<u64, Vec<u64>>, bytes: &mut Compared<'_>)
    ensures compared { bytes.new ≡ left_after (flat_map (to_be_bytes w64) (keys named.now)) bytes.old }
    ensures ordered { IsOrdered nat_cmp named.now }
{
    for unit in named.keys() {
        if !bytes.agree() {
            return;
        }
        bytes.u64(*unit);
    }
}
