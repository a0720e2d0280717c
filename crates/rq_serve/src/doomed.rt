//! The units that can only be aborted.

ghost use Rattle.std.specs.Prelude.{◌≡◌, ◌≤◌, ℕ, OnOk, IfErr, true};
ghost use Rattle.rq_record.specs.declared.fault.Fault.TheVariants.{Resources};
ghost use Rattle.rq_serve.specs.Units.{is_doomed, KeepsDoomed, KeepsOthers};

use rq_record::{Fault, UnitNo};
use std::alloc::Global;
use std::collections::BTreeSet;

/// The units that can only be aborted: all up to one, and some others.
#[derive(Drop)]
pub(crate) struct Doomed {
    through: UnitNo,
    others: BTreeSet<u64>,
}

impl Doomed {
    /// None yet.
    pub(crate) fn none(alloc: Global) -> Doomed {
        Doomed {
            through: UnitNo(0),
            others: BTreeSet::new(alloc),
        }
    }

    /// Whether the unit is one of them.
    pub(crate) fn has_unit(&self, unit: UnitNo) -> bool
        ensures { result ≡ is_doomed self.now unit.0 }
    {
        unit.0 <= self.through.0 || self.others.contains(&unit.0)
    }

    /// Dooms a unit. Refused with `Resources`.
    pub(crate) fn add(&mut self, unit: UnitNo) -> Result<(), Fault>
        ensures doomed { OnOk result (is_doomed self.new unit.0 ≡ true) }
        ensures keeps { KeepsDoomed self.old self.new }
        ensures refused { IfErr result (λ e. e ≡ Resources) }
    {
        match self.others.insert(unit.0) {
            Ok(_) => Ok(()),
            Err(_) => Err(Fault::Resources),
        }
    }

    /// Dooms all units up to this one.
    pub(crate) fn add_all(&mut self, greatest: UnitNo)
        ensures doomed { (unit : ℕ) → unit ≤ greatest.0 → is_doomed self.new unit ≡ true }
        ensures keeps { KeepsDoomed self.old self.new }
    {
        if self.through.0 < greatest.0 {
            self.through = greatest;
        }
    }

    /// Forgets a unit that ended.
    pub(crate) fn let_go(&mut self, unit: UnitNo)
        ensures { KeepsOthers self.old self.new unit.0 }
    {
        self.others.remove(&unit.0);
    }
}
