//! The state that goes along with the records of a front, and what happens at each of them.

ghost use Rattle.std.specs.Prelude.{◌≡◌, ◌++◌, map, min, length, IfOk, IfErr, OnOk};
ghost use Rattle.rq_model.specs.Machine.{best};
ghost use Rattle.rq_model.specs.Records.{Abort, Two};
ghost use Rattle.rq_model.specs.Spelling.{Spells};
ghost use Rattle.rq_record.specs.Views.{record_of};
ghost use Rattle.rq_record.specs.declared.fault.Fault.TheVariants.{Resources};
ghost use Rattle.rq_state.specs.Views.{unit_of};
ghost use Rattle.rq_found.specs.Events.{at_end, at_killing, at_taking, events_at, finds, happens};
ghost use Rattle.rq_found.specs.Events.{state_behind};

use crate::events::{Effect, Event};
use crate::frames::Placed;
use crate::numbered::{Numbered, queues_of};
use rq_queue::Fate;
use rq_record::{ElemId, Fault, KeptRecord, QueueNo, UnitNo, Version};
use rq_standing::{Machine, Taken};
use rq_state::State;
use std::alloc::Global;

// What a DEQUEUE of a queue does.
fn taking(machine: &Machine, queue: QueueNo) -> Event
    ensures { result ≡ at_taking (best queue.0 machine.now.elements) }
{
    match machine.first(queue) {
        Some(e) => Event::To(e.id().0, Effect::Taken),
        None => Event::NoElement,
    }
}

// What a KILL of a queue's element does.
fn killing(machine: &Machine, queue: QueueNo, element: ElemId) -> Event
    ensures { result ≡ at_killing element.0 (finds machine.now queue.0 element.0) }
{
    if machine.has_free(queue, element) {
        Event::To(element.0, Effect::Ended(Fate::Gone))
    } else {
        Event::NoElement
    }
}

// Adds what the end of a unit does to the elements that it put in or took.
fn put_ends(ends: &[(ElemId, Fate)], events: &mut Vec<Event>) -> Result<(), Fault>
    ensures told { OnOk result (events.new.items
        ≡ events.old.items ++ map at_end (map (λ p. (p.0.0, p.1)) ends.now)) }
    ensures refused { IfErr result (λ e. e ≡ Resources) }
{
    for (element, fate) in ends {
        events.push(Event::To(element.0, Effect::Ended(*fate)))?;
    }
    Ok(())
}

// Adds what a lawful record does to elements, which is not done yet.
fn foretell(
    alloc: Global,
    machine: &Machine,
    what: &KeptRecord,
    events: &mut Vec<Event>,
) -> Result<(), Fault>
    ensures told { OnOk result
        (events.new.items ≡ events.old.items ++ happens machine.now (record_of what.now)) }
    ensures refused { IfErr result (λ e. e ≡ Resources) }
{
    match what {
        KeptRecord::Enqueue { .. } => events.push(Event::To(machine.next(), Effect::Put))?,
        KeptRecord::Dequeue { queue, .. } => events.push(taking(machine, *queue))?,
        KeptRecord::Kill { queue, element } => events.push(killing(machine, *queue, *element))?,
        KeptRecord::Commit { .. } | KeptRecord::Abort { .. } => {
            put_ends(&machine.ends(alloc, what)?, events)?
        }
        _ => {}
    }
    Ok(())
}

/// The state behind some records of a front, and what happened at the last one. It goes by the rules
/// of version 2: what is lawful in version 1 is so in version 2, and does the same.
#[derive(Drop)]
pub struct Followed {
    alloc: Global,
    machine: Machine,
    events: Vec<Event>,
}

impl Followed {
    /// Behind a state. Refused with `Resources` alone.
    pub fn of(alloc: Global, state: &State) -> Result<Followed, Fault>
        ensures state { IfOk result (λ f. f.machine ≡ state.now) }
        ensures refused { IfErr result (λ e. e ≡ Resources) }
    {
        Ok(Followed {
            alloc,
            machine: Machine::of(alloc, state)?,
            events: Vec::new(alloc),
        })
    }

    /// The state.
    pub fn machine(&self) -> &Machine
        ensures { result.now ≡ self.now.machine }
    {
        &self.machine
    }

    // Does a record, and keeps what happens at it.
    fn take(&mut self, what: &KeptRecord) -> Result<(), Fault>
        ensures state { OnOk result
            (self.new.machine ≡ state_behind self.old.machine (record_of what.now)) }
        ensures events { OnOk result
            (self.new.events.items ≡ events_at self.old.machine (record_of what.now)) }
        ensures refused { IfErr result (λ e. e ≡ Resources) }
    {
        self.events.clear();
        foretell(self.alloc, &self.machine, what, &mut self.events)?;
        match self.machine.take(self.alloc, Version::Two, what) {
            Ok(Taken::Done(_)) => Ok(()),
            Ok(Taken::Unlawful(_)) => {
                self.events.clear();
                Ok(())
            }
            Err(fault) => Err(fault),
        }
    }

    /// Does the next record of the front, and answers it. Refused with `Resources` alone: it is then
    /// of no more use.
    pub fn follow(&mut self, placed: Placed<'_>) -> Result<Numbered, Fault>
        ensures spelled { IfOk result
            (λ it. Spells Two (record_of it.record) placed.entry.body.now) }
        ensures offset { IfOk result (λ it. it.offset ≡ placed.entry.offset) }
        ensures number { IfOk result (λ it. it.number ≡ placed.entry.number) }
        ensures queues { IfOk result
            (λ it. it.queues ≡ min (length self.old.machine.definitions) 4294967295) }
        ensures state { IfOk result
            (λ it. self.new.machine ≡ state_behind self.old.machine (record_of it.record)) }
        ensures events { IfOk result
            (λ it. self.new.events.items ≡ events_at self.old.machine (record_of it.record)) }
        ensures refused { IfErr result (λ e. e ≡ Resources) }
    {
        let it = Numbered::of(self.alloc, placed, queues_of(self.machine.definitions()))?;
        self.take(&it.record)?;
        Ok(it)
    }

    /// Aborts a unit, as a restart does with one that is open behind the front. Refused with
    /// `Resources` alone: it is then of no more use.
    pub fn abort(&mut self, unit: UnitNo) -> Result<(), Fault>
        ensures state { OnOk result
            (self.new.machine ≡ state_behind self.old.machine (Abort unit.0)) }
        ensures events { OnOk result
            (self.new.events.items ≡ events_at self.old.machine (Abort unit.0)) }
        ensures refused { IfErr result (λ e. e ≡ Resources) }
    {
        self.take(&KeptRecord::Abort { unit })
    }

    /// What happened at the last record, or at the last abort behind the front: to the elements of a
    /// unit that ends by their numbers.
    pub fn events(&self) -> &[Event]
        ensures { result.now ≡ self.now.events.items }
    {
        &self.events
    }
}
