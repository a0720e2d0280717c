//! What belongs to one queue.

ghost use Rattle.std.specs.Prelude.{◌≡◌, ◌≢◌, ◌+◌, ◌<◌, ◌^◌, ◌++◌, ◌∷◌, [], length, IfOk, IfErr};
ghost use Rattle.std.specs.Prelude.{◌-◌, OnOk, option_map, map};
ghost use Rattle.std.specs.List.{AllByRecursion};
ghost use Rattle.rq_model.specs.Machine as machine;
ghost use Rattle.rq_model.specs.Queues as queues;
ghost use Rattle.rq_model.specs.Redo.{IsReady};
ghost use Rattle.rq_model.specs.Records as records;
ghost use Rattle.rq_model.specs.Redo as redo_words;
ghost use Rattle.rq_model.specs.States as states;
ghost use Rattle.rq_record.specs.declared.fault.Fault.TheVariants.{Resources};
ghost use Rattle.rq_state.specs.Views.{id_of};
ghost use Rattle.rq_queue.specs.Pouring.{Pours};

use crate::elements::Elements;
use crate::moves::KeptMove;
use crate::notes::Notes;
use crate::operations::KeptOp;
use crate::poured_members::{add_kept, add_listed, add_members};
use crate::registrants::Registrants;
use rq_record::{ElemId, Fault, KeptBy, KeptPayload, KeptRecord, Name, QueueNo, UnitNo};
use rq_state::{Definition, Fields, KeptElement, KeptFields, OpKind, State};
use std::alloc::Global;
use std::marker::Model;

/// What belongs to one queue: its definition, elements, registrants, and notes of open units.
#[derive(Drop)]
pub struct Part {
    pub(crate) queue: QueueNo,
    pub(crate) definition: Definition,
    pub(crate) elements: Elements,
    pub(crate) registrants: Registrants,
    pub(crate) notes: Notes,
}

impl Model for Part {
    ghost use Rattle.std.specs.Prelude.{map};
    ghost use Rattle.rq_model.specs.Queues as queues;
    ghost use Rattle.rq_queue.specs.Roll.{registrant_of};

    ghost Value = { queues.Part };

    ghost view = { λ p. record {
      queue = p.queue.0;
      definition = p.definition;
      elements = p.elements;
      registrants = map (registrant_of p.queue.0) p.registrants;
      notes = p.notes;
    } };
}

impl Part {
    /// The part of a queue of the state, copied. Refused with Resources.
    pub fn of(alloc: Global, state: &State, queue: QueueNo) -> Result<Part, Fault>
        requires { queue.0 < length state.now.definitions }
        ensures part { IfOk result (λ p. p ≡ queues.part_of state.now queue.0) }
        ensures refused { IfErr result (λ e. e ≡ Resources) }
    {
        state.is_well_formed();
        let definition = state.definition(queue.0 as usize).copied();
        let elements = state.copied_elements_of(alloc, queue)?;
        let notes = state.copied_notes_of(alloc, queue)?;
        Ok(Part {
            queue,
            definition,
            elements: Elements::of(alloc, elements)?,
            registrants: Registrants::of(alloc, state, queue)?,
            notes: Notes::of(alloc, notes)?,
        })
    }

    /// The part of a queue that the records themselves define: nothing is in it yet.
    pub fn new(alloc: Global, queue: QueueNo, definition: Definition) -> Part
        ensures { result
            ≡ record {
              queue = queue.0;
              definition = definition;
              elements = [];
              registrants = [];
              notes = [];
            } }
    {
        Part {
            queue,
            definition,
            elements: Elements::none(alloc),
            registrants: Registrants::none(alloc),
            notes: Notes::none(alloc),
        }
    }

    /// Its queue.
    pub fn queue(&self) -> QueueNo
        ensures { result.0 ≡ self.now.queue }
    {
        self.queue
    }

    /// Adds its elements, registrants and notes to the lists. Refused with Resources: the fields
    /// are then as before.
    pub fn pour(self, fields: &mut Fields) -> Result<(), Fault>
        ensures pours { Pours fields.old self fields.new result }
        ensures refused { IfErr result (λ e. e ≡ Resources) }
    {
        let alloc = *fields.elements.allocator();
        let elements = self.elements.list_told(alloc)?;
        let registrants = self.registrants.list_told(alloc, self.queue)?;
        add_listed(alloc, fields, elements, registrants, self.notes)
    }

    /// The same for fields that are kept: the elements themselves go there.
    pub fn pour_kept(self, fields: &mut KeptFields) -> Result<(), Fault>
        ensures pours { Pours fields.old self fields.new result }
        ensures refused { IfErr result (λ e. e ≡ Resources) }
    {
        let alloc = *fields.elements.allocator();
        let queue = self.queue;
        let elements = self.elements.list(alloc)?;
        add_kept(alloc, fields, queue, elements, self.registrants, self.notes)
    }

    /// Adds copies of its elements, registrants and notes to the lists. Refused with Resources: the
    /// fields are then as before.
    pub fn pour_copies(&self, fields: &mut KeptFields) -> Result<(), Fault>
        ensures pours { Pours fields.old self.now fields.new result }
        ensures refused { IfErr result (λ e. e ≡ Resources) }
    {
        let alloc = *fields.elements.allocator();
        let elements = self.elements.copies(alloc)?;
        let registrants = self.registrants.copies(alloc, self.queue)?;
        let notes = self.notes.copies(alloc)?;
        add_members(fields, elements, registrants, notes)
    }

    /// Puts in what arrives.
    pub fn receive(&mut self, alloc: Global, arrival: KeptMove) -> Result<(), Fault>
        requires new { AllByRecursion
            (λ (e : states.Element). e.id ≢ arrival.element.id) self.old.elements }
        ensures part { OnOk result (self.new ≡ redo_words.receive (arrival ∷ []) self.old) }
        ensures refused { IfErr result (λ e. e ≡ Resources) }
    {
        self.elements.put(alloc, arrival.element)
    }

    fn enqueue(
        &mut self,
        alloc: Global,
        place: u64,
        unit: UnitNo,
        queue: QueueNo,
        priority: u8,
        by: &KeptBy,
        payload: &KeptPayload,
    ) -> Result<(), Fault>
        requires older { AllByRecursion (λ (e : states.Element). e.id < place) self.old.elements }
        requires notes { AllByRecursion
            (λ (n : states.Note). n.last.place < place) self.old.notes }
        ensures done { OnOk result (self.new ≡ redo_words.act place
            (records.Enqueue unit.0 queue.0 priority by.now payload.now) self.old) }
        ensures refused { IfErr result (λ e. e ≡ Resources) }
    {
        let e = KeptElement::fresh(place, unit, queue, priority, payload.copied()?);
        self.elements.push(alloc, e)?;
        let id = Some(ElemId(place));
        self.notes
            .note(alloc, place, unit, queue, by, OpKind::Enqueue, id)
    }

    /// Dequeues from the queue. Answers the id of the element that it takes, if one is free. A part
    /// that refuses is no longer of use.
    pub fn dequeue(
        &mut self,
        alloc: Global,
        place: u64,
        unit: UnitNo,
        queue: QueueNo,
        by: &KeptBy,
    ) -> Result<Option<ElemId>, Fault>
        requires homes { AllByRecursion
            (λ (e : states.Element). e.home ≡ queue.0) self.old.elements }
        requires notes { AllByRecursion
            (λ (n : states.Note). n.last.place < place) self.old.notes }
        ensures done { OnOk result
            (self.new ≡ redo_words.act place (records.Dequeue unit.0 queue.0 by.now) self.old) }
        ensures took { IfOk result (λ id. id_of id
            ≡ option_map (λ e. e.id) (machine.best queue.0 self.old.elements)) }
        ensures refused { IfErr result (λ e. e ≡ Resources) }
    {
        let id = self.elements.hold_best(alloc, unit, queue)?;
        self.notes
            .note(alloc, place, unit, queue, by, OpKind::Dequeue, id)?;
        Ok(id)
    }

    /// Commits a unit in the queue. A part that refuses is no longer of use.
    pub fn commit(&mut self, alloc: Global, unit: UnitNo) -> Result<(), Fault>
        ensures done { OnOk result
            (self.new ≡ redo_words.act 0 (records.Commit unit.0) self.old) }
        ensures refused { IfErr result (λ e. e ≡ Resources) }
    {
        let heard = self.notes.take(alloc, unit)?;
        self.registrants.hear(alloc, self.queue, unit, &heard)?;
        // The elements need room for themselves, and the unit may have many of both.
        drop(heard);
        self.elements.commit(alloc, unit)
    }

    /// Aborts a unit in the queue, and adds what leaves it for its error queue. A part that refuses
    /// is no longer of use.
    pub fn abort(
        &mut self,
        alloc: Global,
        place: u64,
        unit: UnitNo,
        sent: &mut Vec<KeptMove>,
    ) -> Result<(), Fault>
        requires room { AllByRecursion
            (λ (e : states.Element). e.attempts + 1 < 2 ^ 64) self.old.elements }
        ensures part { OnOk result
            (self.new ≡ redo_words.act place (records.Abort unit.0) self.old) }
        ensures sent { OnOk result (sent.new.items
            ≡ sent.old.items ++ redo_words.sent place (records.Abort unit.0) self.old) }
        ensures refused { IfErr result (λ e. e ≡ Resources) }
    {
        self.elements
            .abort(alloc, place, unit, &self.definition, sent)?;
        self.notes.take(alloc, unit)?;
        Ok(())
    }

    fn register(&mut self, alloc: Global, name: &Name) -> Result<(), Fault>
        ensures done { OnOk result
            (self.new ≡ redo_words.act 0 (records.Register self.old.queue name.now) self.old) }
        ensures refused { IfErr result (λ e. e ≡ Resources) }
    {
        self.registrants.register(alloc, name)
    }

    fn deregister(&mut self, alloc: Global, name: &Name) -> Result<(), Fault>
        ensures done { OnOk result
            (self.new ≡ redo_words.act 0 (records.Deregister self.old.queue name.now) self.old) }
        ensures refused { IfErr result (λ e. e ≡ Resources) }
    {
        self.registrants.deregister(alloc, name)?;
        self.notes.forget(alloc, self.queue, name)
    }

    fn kill(&mut self, alloc: Global, queue: QueueNo, element: ElemId) -> Result<(), Fault>
        requires homes { AllByRecursion
            (λ (e : states.Element). e.home ≡ queue.0) self.old.elements }
        ensures done { OnOk result
            (self.new ≡ redo_words.act 0 (records.Kill queue.0 element.0) self.old) }
        ensures refused { IfErr result (λ e. e ≡ Resources) }
    {
        self.elements.kill(alloc, queue, element)
    }

    /// Does one operation of the queue. A part that refuses is no longer of use.
    pub fn act(&mut self, alloc: Global, op: &KeptOp, sent: &mut Vec<KeptMove>) -> Result<(), Fault>
        requires ready { IsReady op.now.place op.now.does self.old }
        ensures part { OnOk result
            (self.new ≡ redo_words.act op.now.place op.now.does self.old) }
        ensures sent { OnOk result (sent.new.items
            ≡ sent.old.items ++ redo_words.sent op.now.place op.now.does self.old) }
        ensures refused { IfErr result (λ e. e ≡ Resources) }
    {
        let place = op.place();
        match op.record() {
            KeptRecord::Define { .. } | KeptRecord::Begin { .. } | KeptRecord::Checkpoint { .. } =>
                Ok(()),
            KeptRecord::Register { name, .. } => self.register(alloc, &name.name()),
            KeptRecord::Deregister { name, .. } => self.deregister(alloc, &name.name()),
            KeptRecord::Enqueue {
                unit,
                queue,
                priority,
                by,
                payload,
            } => self.enqueue(alloc, place, *unit, *queue, *priority, by, payload),
            KeptRecord::Dequeue { unit, queue, by } => {
                self.dequeue(alloc, place, *unit, *queue, by)?;
                Ok(())
            }
            KeptRecord::Commit { unit } => self.commit(alloc, *unit),
            KeptRecord::Abort { unit } => self.abort(alloc, place, *unit, sent),
            KeptRecord::Kill { queue, element } => self.kill(alloc, *queue, *element),
        }
    }
}
