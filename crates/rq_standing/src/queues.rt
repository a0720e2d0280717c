//! The parts of all queues, and what else a state has.

ghost use Rattle.std.specs.Prelude.{◌≡◌, ◌<◌, ◌+◌, ◌^◌, IfOk, OnOk, IfErr, Some, None, length};
ghost use Rattle.rq_model.specs.Machine.{step};
ghost use Rattle.rq_model.specs.States.{State, empty};
ghost use Rattle.rq_model.specs.Records as records;
ghost use Rattle.rq_record.specs.Views.{record_of};
ghost use Rattle.rq_record.specs.declared.fault.Fault.TheVariants.{Resources};
ghost use Rattle.rq_state.specs.Views.{id_of};
ghost use Rattle.rq_standing.specs.Parts.{Acted};
ghost use Rattle.rq_standing.specs.Stands.{HoldsState, May, MaySome, Moved, MovesBy, TakesElement};
ghost use Rattle.rq_standing.specs.Stands.{queue_named, unit_named};

use crate::open_units::OpenUnits;
use crate::parts::{abort_all, act_on, commit_all, dequeue_on, receive_all};
use crate::states::{open_units_of, parts_of};
use rq_queue::{KeptOp, Part};
use rq_record::{ElemId, Fault, KeptBy, KeptRecord, QueueNo, UnitNo};
use rq_state::{Definition, copied_definitions};
use std::alloc::Global;

/// The parts of all queues, each at the index that is its number; the open units; and the numbers
/// and definitions of a state.
#[derive(Drop)]
pub struct Queues {
    pub(crate) next: u64,
    pub(crate) greatest: u64,
    pub(crate) committed: u64,
    pub(crate) aborted: u64,
    pub(crate) definitions: Vec<Definition>,
    pub(crate) parts: Vec<Part>,
    pub(crate) units: OpenUnits,
}

impl Queues {
    /// No queues yet. Takes no memory.
    pub(crate) fn empty(alloc: Global) -> Queues
        ensures { HoldsState result empty }
    {
        rq_model::runs_are_well_formed();
        Queues {
            next: 0,
            greatest: 0,
            committed: 0,
            aborted: 0,
            definitions: Vec::new(alloc),
            parts: Vec::new(alloc),
            units: OpenUnits::none(alloc),
        }
    }

    /// The queues of the state. Refused with `Resources` alone.
    pub(crate) fn of(alloc: Global, state: &rq_state::State) -> Result<Queues, Fault>
        ensures holds { IfOk result (λ x. HoldsState x state.now) }
        ensures refused { IfErr result (λ e. e ≡ Resources) }
    {
        state.is_well_formed();
        let definitions = copied_definitions(alloc, state.definitions())?;
        let parts = parts_of(alloc, state)?;
        let units = open_units_of(alloc, state)?;
        Ok(Queues {
            next: state.next(),
            greatest: state.greatest(),
            committed: state.committed(),
            aborted: state.aborted(),
            definitions,
            parts,
            units,
        })
    }

    fn define(&mut self, alloc: Global, definition: Definition) -> Result<(), Fault>
        requires few { length self.old.parts.items < 4096 }
        ensures moved { OnOk result ((s : State) → HoldsState self.old s → Moved self.old self.new
            (step s (records.Define definition.limit definition.error definition.name))) }
        ensures refused { IfErr result (λ e. e ≡ Resources) }
    {
        rq_model::step_by_parts();
        let queue = QueueNo(self.parts.len() as u32);
        self.definitions.push(definition.copied())?;
        self.parts.push(Part::new(alloc, queue, definition))?;
        Ok(())
    }

    fn begin(&mut self, alloc: Global, unit: UnitNo) -> Result<(), Fault>
        ensures moved { OnOk result (MovesBy self.old self.new (records.Begin unit.0)) }
        ensures refused { IfErr result (λ e. e ≡ Resources) }
    {
        rq_model::step_by_parts();
        self.units.begin(alloc, unit)?;
        self.greatest = unit.0;
        Ok(())
    }

    // Does what names a queue to its part.
    fn act(&mut self, alloc: Global, queue: QueueNo, what: &KeptRecord) -> Result<(), Fault>
        requires may { MaySome self.old (record_of what.now) }
        requires room { self.old.next + 1 < 2 ^ 64 }
        requires named { queue_named (record_of what.now) ≡ Some queue.0 }
        ensures frame { self.new ≡ record self.old { parts = self.new.parts } }
        ensures size { length self.new.parts.items ≡ length self.old.parts.items }
        ensures acted { OnOk result (Acted self.old.next (record_of what.now) queue.0
            self.old.parts.items self.new.parts.items) }
        ensures refused { IfErr result (λ e. e ≡ Resources) }
    {
        rq_model::step_by_parts();
        let op = KeptOp {
            place: self.next,
            rec: what,
        };
        act_on(alloc, &mut self.parts, queue.0 as usize, &op)
    }

    // REGISTER, DEREGISTER and KILL.
    fn alone(&mut self, alloc: Global, queue: QueueNo, what: &KeptRecord) -> Result<(), Fault>
        requires may { MaySome self.old (record_of what.now) }
        requires room { self.old.next + 1 < 2 ^ 64 }
        requires named { queue_named (record_of what.now) ≡ Some queue.0 }
        requires nobody { unit_named (record_of what.now) ≡ None }
        ensures moved { OnOk result (MovesBy self.old self.new (record_of what.now)) }
        ensures refused { IfErr result (λ e. e ≡ Resources) }
    {
        rq_model::step_by_parts();
        self.act(alloc, queue, what)?;
        Ok(())
    }

    fn enqueue(
        &mut self,
        alloc: Global,
        unit: UnitNo,
        queue: QueueNo,
        what: &KeptRecord,
    ) -> Result<(), Fault>
        requires may { MaySome self.old (record_of what.now) }
        requires room { self.old.next + 1 < 2 ^ 64 }
        requires named { queue_named (record_of what.now) ≡ Some queue.0 }
        requires by { unit_named (record_of what.now) ≡ Some unit.0 }
        ensures moved { OnOk result (MovesBy self.old self.new (record_of what.now)) }
        ensures refused { IfErr result (λ e. e ≡ Resources) }
    {
        rq_model::step_by_parts();
        self.act(alloc, queue, what)?;
        self.units.engage(unit, queue)?;
        Ok(())
    }

    // The id of the element that it takes, if one is free.
    fn dequeue(
        &mut self,
        alloc: Global,
        unit: UnitNo,
        queue: QueueNo,
        by: &KeptBy,
    ) -> Result<Option<ElemId>, Fault>
        requires may { MaySome self.old (records.Dequeue unit.0 queue.0 by.now) }
        requires room { self.old.next + 1 < 2 ^ 64 }
        ensures moved { OnOk result (MovesBy self.old self.new (records.Dequeue unit.0 queue.0 by.now)) }
        ensures took { IfOk result (λ id. TakesElement self.old (records.Dequeue unit.0 queue.0 by.now) (id_of id)) }
        ensures refused { IfErr result (λ e. e ≡ Resources) }
    {
        rq_model::step_by_parts();
        let id = dequeue_on(alloc, &mut self.parts, self.next, unit, queue, by)?;
        self.units.engage(unit, queue)?;
        Ok(id)
    }

    fn commit(&mut self, alloc: Global, unit: UnitNo) -> Result<(), Fault>
        requires may { MaySome self.old (records.Commit unit.0) }
        requires room { self.old.next + 1 < 2 ^ 64 }
        ensures moved { OnOk result (MovesBy self.old self.new (records.Commit unit.0)) }
        ensures refused { IfErr result (λ e. e ≡ Resources) }
    {
        rq_model::step_by_parts();
        rq_model::runs_are_well_formed();
        let queues = self.units.end(alloc, unit);
        commit_all(alloc, &mut self.parts, &queues, unit)?;
        self.committed += 1;
        Ok(())
    }

    fn abort(&mut self, alloc: Global, unit: UnitNo) -> Result<(), Fault>
        requires may { MaySome self.old (records.Abort unit.0) }
        requires room { self.old.next + 2 < 2 ^ 64 }
        ensures moved { OnOk result (MovesBy self.old self.new (records.Abort unit.0)) }
        ensures refused { IfErr result (λ e. e ≡ Resources) }
    {
        rq_model::step_by_parts();
        rq_model::runs_are_well_formed();
        let queues = self.units.end(alloc, unit);
        let sent = abort_all(alloc, &mut self.parts, &queues, self.next, unit)?;
        receive_all(alloc, &mut self.parts, sent)?;
        self.aborted += 1;
        Ok(())
    }

    // Does a record to the queues, but for its number. The id of the element that it takes, if it
    // takes one.
    fn does(&mut self, alloc: Global, what: &KeptRecord) -> Result<Option<ElemId>, Fault>
        requires may { MaySome self.old (record_of what.now) }
        requires room { self.old.next + 2 < 2 ^ 64 }
        ensures moved { OnOk result (MovesBy self.old self.new (record_of what.now)) }
        ensures took { IfOk result (λ id. TakesElement self.old (record_of what.now) (id_of id)) }
        ensures refused { IfErr result (λ e. e ≡ Resources) }
    {
        rq_model::step_by_parts();
        match what {
            KeptRecord::Define { limit, error, name } => {
                let (limit, error, name) = (*limit, *error, name.name());
                self.define(alloc, Definition { limit, error, name })?;
                Ok(None)
            }
            KeptRecord::Checkpoint { .. } => Ok(None),
            KeptRecord::Register { queue, .. } => {
                self.alone(alloc, *queue, what)?;
                Ok(None)
            }
            KeptRecord::Deregister { queue, .. } => {
                self.alone(alloc, *queue, what)?;
                Ok(None)
            }
            KeptRecord::Kill { queue, .. } => {
                self.alone(alloc, *queue, what)?;
                Ok(None)
            }
            KeptRecord::Begin { unit } => {
                self.begin(alloc, *unit)?;
                Ok(None)
            }
            KeptRecord::Enqueue { unit, queue, .. } => {
                self.enqueue(alloc, *unit, *queue, what)?;
                Ok(None)
            }
            KeptRecord::Dequeue { unit, queue, by } => self.dequeue(alloc, *unit, *queue, by),
            KeptRecord::Commit { unit } => {
                self.commit(alloc, *unit)?;
                Ok(None)
            }
            KeptRecord::Abort { unit } => {
                self.abort(alloc, *unit)?;
                Ok(None)
            }
        }
    }

    /// Does a lawful record. The id of the element that a DEQUEUE takes, if one is free. Refused
    /// with `Resources` alone: the queues are then of no more use.
    pub(crate) fn take(&mut self, alloc: Global, what: &KeptRecord) -> Result<Option<ElemId>, Fault>
        requires may { MaySome self.old (record_of what.now) }
        ensures holds { OnOk result ((version : records.Version) (s : State) →
            May self.old version s (record_of what.now)
            → HoldsState self.new (step s (record_of what.now))) }
        ensures took { IfOk result (λ id. TakesElement self.old (record_of what.now) (id_of id)) }
        ensures refused { IfErr result (λ e. e ≡ Resources) }
    {
        rq_model::runs_are_well_formed();
        // No file numbers so many records: past here a number could run over.
        if self.next > 3 << 62 {
            return Err(Fault::Resources);
        }
        let id = self.does(alloc, what)?;
        self.next += 1;
        Ok(id)
    }
}
