//! On what records are judged, and which rule one breaks.

ghost use Rattle.std.specs.Prelude.{◌≡◌, ℕ, ◌&&◌, Bool, List, not, is_some, nat_eq, IfOk, IfErr};
ghost use Rattle.std.specs.Prelude.{OnOk, ◌<◌, nat_lt, nat_le, length, cond, true};
ghost use Rattle.std.specs.BTreeSet as ordered;
ghost use Rattle.std.specs.Cmp.Lexicographic.{pointwise};
ghost use Rattle.std.specs.List.{list_any};
ghost use Rattle.std.specs.Ordering.{nat_cmp};
ghost use Rattle.std.specs.Str.{bytes_eq};
ghost use Rattle.indexmap.specs.IndexSet.{contains};
ghost use Rattle.rq_model.specs.Machine as machine;
ghost use Rattle.rq_model.specs.Records as records;
ghost use Rattle.rq_model.specs.States as model;
ghost use Rattle.rq_record.specs.Views.{record_of, version_of};
ghost use Rattle.rq_record.specs.declared.fault.Fault.TheVariants.{Resources};
ghost use Rattle.rq_catalog.specs.Grounds.{AreGroundsOf, KeepsKnowing, is_registered_in};
ghost use Rattle.rq_catalog.specs.Grounds.{has_key, has_name};

use crate::registrants::RegisteredNames;
use indexmap::IndexSet;
use rq_record::{Fault, KeptName, KeptRecord, Name, QueueNo};
use rq_state::{Definition, KeptRegistrant, State, copied_definitions};
use std::alloc::Global;

/// What lawfulness looks at, but for the open units: queues, registrants and the greatest unit.
#[derive(Drop)]
pub(crate) struct Grounds {
    pub(crate) definitions: Vec<Definition>,
    names: IndexSet<Name>,
    registrants: RegisteredNames,
    pub(crate) greatest: u64,
}

// The names of the definitions.
fn names_of(alloc: Global, definitions: &[Definition]) -> Result<IndexSet<Name>, Fault>
    ensures names { IfOk result (λ names. (n : List ℕ) →
        contains (pointwise nat_eq) names n ≡ list_any (has_name n) definitions.now) }
    ensures refused { IfErr result (λ e. e ≡ Resources) }
{
    let mut names = IndexSet::new(alloc);
    for definition in definitions {
        names.insert(definition.name)?;
    }
    Ok(names)
}

fn register_one(roll: &mut RegisteredNames, registrant: &KeptRegistrant) -> Result<(), Fault>
    ensures registered { OnOk result ((k : ℕ × List ℕ) → is_registered_in roll.new k
        ≡ cond (has_key k registrant.now) true (is_registered_in roll.old k)) }
    ensures refused { IfErr result (λ e. e ≡ Resources) }
{
    roll.register(registrant.queue().0, &registrant.name().name())
}

// The first eight of each sixteen registrants.
fn early_of(alloc: Global, registrants: &[KeptRegistrant]) -> Result<RegisteredNames, Fault>
    ensures registered { IfOk result (λ roll. (k : ℕ × List ℕ) → is_registered_in roll k ≡ true
        → list_any (has_key k) registrants.now ≡ true) }
    ensures refused { IfErr result (λ e. e ≡ Resources) }
{
    let mut roll = RegisteredNames::new(alloc);
    for at in 0..registrants.len() {
        if at % 16 < 8 {
            register_one(&mut roll, &registrants[at])?;
        }
    }
    Ok(roll)
}

// Who is registered with which queue. Names that come in order leave each node of a set with room
// for eight more, which the others fill when the early ones are there.
fn registrants_of(alloc: Global, registrants: &[KeptRegistrant]) -> Result<RegisteredNames, Fault>
    ensures registered { IfOk result
        (λ roll. (k : ℕ × List ℕ) →
        is_registered_in roll k ≡ list_any (has_key k) registrants.now) }
    ensures refused { IfErr result (λ e. e ≡ Resources) }
{
    let mut roll = early_of(alloc, registrants)?;
    for registrant in registrants {
        register_one(&mut roll, registrant)?;
    }
    Ok(roll)
}

impl Grounds {
    /// Before any record. Takes no memory yet.
    pub(crate) fn new(alloc: Global) -> Grounds
        ensures { AreGroundsOf result model.empty }
    {
        Grounds {
            definitions: Vec::new(alloc),
            names: IndexSet::new(alloc),
            registrants: RegisteredNames::new(alloc),
            greatest: 0,
        }
    }

    /// After the state.
    pub(crate) fn of(alloc: Global, state: &State) -> Result<Grounds, Fault>
        ensures knows { IfOk result (λ grounds. AreGroundsOf grounds state.now) }
        ensures refused { IfErr result (λ e. e ≡ Resources) }
    {
        let definitions = copied_definitions(alloc, state.definitions())?;
        let names = names_of(alloc, &definitions)?;
        let registrants = registrants_of(alloc, state.registrants())?;
        Ok(Grounds {
            definitions,
            names,
            registrants,
            greatest: state.greatest(),
        })
    }

    pub(crate) fn error_queue_of(&self, queue: QueueNo) -> QueueNo
        ensures { (s : model.State) → AreGroundsOf self.now s
            → result.0 ≡ (model.definition_at s.definitions queue.0).error }
    {
        match self.definitions.get(queue.0 as usize) {
            Some(definition) => definition.error,
            None => QueueNo::NONE,
        }
    }

    pub(crate) fn has_name(&self, name: &Name) -> bool
        ensures { (s : model.State) → AreGroundsOf self.now s
            → result ≡ list_any (λ d. bytes_eq d.name name.now) s.definitions }
    {
        self.names.contains(name)
    }

    pub(crate) fn knows_registrant(&self, queue: QueueNo, name: &KeptName) -> bool
        ensures { (s : model.State) → AreGroundsOf self.now s
            → result ≡ machine.is_registered s queue.0 name.now }
    {
        self.registrants.has(queue.0, name)
    }

    fn define(&mut self, limit: u16, error: QueueNo, name: Name) -> Result<(), Fault>
        ensures knows { OnOk result ((s : model.State) → AreGroundsOf self.old s
            → AreGroundsOf self.new (machine.step s (records.Define limit error.0 name))) }
        ensures refused { IfErr result (λ e. e ≡ Resources) }
        ensures kept { IfErr result (λ e. KeepsKnowing self.old self.new) }
    {
        self.definitions.push(Definition { limit, error, name })?;
        if self.names.insert(name).is_err() {
            self.definitions.pop();
            return Err(Fault::Resources);
        }
        Ok(())
    }

    /// Takes what the record changes, if it is lawful.
    pub(crate) fn advance(&mut self, next: &KeptRecord) -> Result<(), Fault>
        ensures knows { OnOk result ((s : model.State) → AreGroundsOf self.old s
            → AreGroundsOf self.new (machine.step s (record_of next.now))) }
        ensures refused { IfErr result (λ e. e ≡ Resources) }
        ensures kept { IfErr result (λ e. KeepsKnowing self.old self.new) }
    {
        match next {
            KeptRecord::Define { limit, error, name } => self.define(*limit, *error, name.name()),
            KeptRecord::Register { queue, name } => {
                self.registrants.register(queue.0, &name.name())
            }
            KeptRecord::Deregister { queue, name } => {
                self.registrants.deregister(queue.0, name);
                Ok(())
            }
            KeptRecord::Begin { unit } => {
                self.greatest = unit.0;
                Ok(())
            }
            _ => Ok(()),
        }
    }
}
