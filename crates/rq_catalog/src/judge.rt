//! Whether records are lawful, one after the other.

ghost use Rattle.std.specs.Prelude.{◌≡◌, not, is_some, false, if◌then◌else◌, IfOk, IfErr, IfSome};
ghost use Rattle.std.specs.Prelude.{OnOk};
ghost use Rattle.rq_model.specs.Records as records;
ghost use Rattle.rq_model.specs.Machine as machine;
ghost use Rattle.rq_model.specs.States.{State, empty};
ghost use Rattle.rq_record.specs.Views.{record_of, version_of};
ghost use Rattle.rq_record.specs.declared.fault.Fault.TheVariants.{Resources};
ghost use Rattle.rq_lawful.specs.Breaks.{Breaks};
ghost use Rattle.rq_catalog.specs.Judges.{StandsIn, KeepsStanding};

use crate::grounds::Grounds;
use crate::start::open_units_of;
use rq_lawful::{Knows, Rule, broken};
use rq_record::{Fault, KeptName, KeptRecord, Name, QueueNo, UnitNo, Version};
use rq_state::State;
use std::alloc::Global;
use std::collections::BTreeSet;

/// Says of records, one after the other, whether each is lawful after the lawful ones before it. It
/// keeps only what lawfulness depends on: queues, registrants and open units. So it does not grow
/// with the records.
#[derive(Drop)]
pub struct Judge {
    version: Version,
    grounds: Grounds,
    units: BTreeSet<u64>,
}

impl Knows for Judge {
    ghost knows = { λ j s. StandsIn (version_of j.version) j s };

    fn defined(&self) -> usize {
        self.grounds.definitions.len()
    }

    fn error_of(&self, queue: QueueNo) -> QueueNo {
        self.grounds.error_queue_of(queue)
    }

    fn is_taken(&self, name: &Name) -> bool {
        self.grounds.has_name(name)
    }

    fn is_registered(&self, queue: QueueNo, name: &KeptName) -> bool {
        self.grounds.knows_registrant(queue, name)
    }

    fn is_open(&self, unit: UnitNo) -> bool {
        self.units.contains(&unit.0)
    }

    fn greatest(&self) -> u64 {
        self.grounds.greatest
    }
}

impl Judge {
    /// The judge by the rules of the version, before any record. Takes no memory yet.
    pub fn new(alloc: Global, version: Version) -> Judge
        ensures { StandsIn (version_of version) result empty }
    {
        Judge {
            version,
            grounds: Grounds::new(alloc),
            units: BTreeSet::new(alloc),
        }
    }

    /// The judge by the rules of the version, after the state. Refused only with `Resources`.
    pub fn of(alloc: Global, version: Version, state: &State) -> Result<Judge, Fault>
        ensures stands { IfOk result (λ judge. StandsIn (version_of version) judge state.now) }
        ensures refused { IfErr result (λ e. e ≡ Resources) }
    {
        let grounds = Grounds::of(alloc, state)?;
        let units = open_units_of(alloc, state.units())?;
        Ok(Judge {
            version,
            grounds,
            units,
        })
    }

    /// The version by whose rules it judges.
    pub fn version(&self) -> Version
        ensures { (version : records.Version) (s : State) →
            StandsIn version self.now s → version_of result ≡ version }
    {
        self.version
    }

    /// A rule that the record breaks after those that were taken; none exactly if it is lawful
    /// there.
    pub fn broken(&self, next: &KeptRecord) -> Option<Rule>
        ensures which { (version : records.Version) (s : State) → StandsIn version self.now s
            → IfSome result (Breaks version s (record_of next.now)) }
        ensures unlawful { IfSome result (λ _. (version : records.Version) (s : State) →
            StandsIn version self.now s → machine.is_lawful version s (record_of next.now) ≡ false) }
        ensures exact { (version : records.Version) (s : State) → StandsIn version self.now s
            → is_some result ≡ not (machine.is_lawful version s (record_of next.now)) }
    {
        broken(self.version, self, next)
    }

    /// Whether the record is lawful after those that were taken. If it is, it is taken. Refused
    /// only with `Resources`, and then nothing is taken.
    pub fn take(&mut self, next: &KeptRecord) -> Result<bool, Fault>
        ensures lawful { IfOk result
            (λ lawful. (version : records.Version) (s : State) → StandsIn version self.old s
            → lawful ≡ machine.is_lawful version s (record_of next.now)) }
        ensures stands { IfOk result
            (λ lawful. (version : records.Version) (s : State) → StandsIn version self.old s
            → StandsIn version self.new
            (if lawful then machine.step s (record_of next.now) else s)) }
        ensures refused { IfErr result (λ e. e ≡ Resources) }
        ensures kept { IfErr result (λ e. KeepsStanding self.old self.new) }
    {
        let is_lawful = self.broken(next).is_none();
        if is_lawful {
            self.advance(next)?;
        }
        Ok(is_lawful)
    }

    /// Takes a record that is lawful after those that were taken: `broken` answers none. Refused only
    /// with `Resources`, and then nothing is taken.
    pub fn advance(&mut self, next: &KeptRecord) -> Result<(), Fault>
        ensures stands { OnOk result ((version : records.Version) (s : State) →
            StandsIn version self.old s
            → StandsIn version self.new (machine.step s (record_of next.now))) }
        ensures refused { IfErr result (λ e. e ≡ Resources) }
        ensures kept { IfErr result (λ e. KeepsStanding self.old self.new) }
    {
        match next {
            KeptRecord::Begin { unit } => {
                self.units.insert(unit.0)?;
                self.grounds.greatest = unit.0;
                Ok(())
            }
            KeptRecord::Commit { unit } => {
                self.units.remove(&unit.0);
                Ok(())
            }
            KeptRecord::Abort { unit } => {
                self.units.remove(&unit.0);
                Ok(())
            }
            _ => self.grounds.advance(next),
        }
    }
}
