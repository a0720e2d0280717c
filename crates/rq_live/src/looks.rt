//! What a manager shows of its queues.

ghost use Rattle.std.specs.Prelude.{◌≡◌, [], Err, true, IfOk, IfErr};
ghost use Rattle.rq_record.specs.declared.fault.Fault.TheVariants.{Resources};
ghost use Rattle.rq_live.specs.Managers.{stand_of, IsGreatest, IsCount, IsOpenThere, IsDepth};
ghost use Rattle.rq_live.specs.Managers.{AreRegistered};

use crate::kernel::NotDone;
use crate::manager::Manager;
use rq_device::Device;
use rq_record::{Fault, KeptRecord, QueueNo, UnitNo};
use rq_state::{KeptElement, KeptFields, KeptRegistrant, Mark};
use std::alloc::Global;

/// How many elements a queue has.
#[derive(Clone, Copy, PartialEq, Eq, Debug)]
pub struct Depths {
    /// So many are free.
    pub free: usize,
    /// Open units put in so many.
    pub fresh: usize,
    /// Open units took so many.
    pub held: usize,
}

impl Depths {
    // None.
    fn none() -> Depths
        ensures { result.free ≡ 0 }
    {
        Depths {
            free: 0,
            fresh: 0,
            held: 0,
        }
    }

    // Counts what a unit put in or took.
    fn add(&mut self, marked: &[KeptElement]) {
        let fresh = marked
            .iter()
            .filter(|e| matches!(e.mark, Mark::Fresh(_)))
            .count();
        self.fresh = self.fresh.saturating_add(fresh);
        self.held = self.held.saturating_add(marked.len().saturating_sub(fresh));
    }
}

// Fields in which nothing is.
fn no_fields(alloc: Global) -> KeptFields
    ensures { result.registrants.items ≡ [] }
{
    KeptFields {
        next: 0,
        greatest: 0,
        committed: 0,
        aborted: 0,
        definitions: Vec::new(alloc),
        units: Vec::new(alloc),
        registrants: Vec::new(alloc),
        elements: Vec::new(alloc),
        notes: Vec::new(alloc),
    }
}

impl<D: Device + Drop> Manager<D> {
    /// The greatest unit that ever began; 0 before the first.
    pub fn greatest(&self) -> Result<UnitNo, NotDone>
        ensures greatest { IfOk result (λ unit. IsGreatest
            (stand_of D.written D.synced D.doubted D.failed self.now) unit.0) }
        ensures spent { self.now.spent ≡ true → result ≡ Err NotDone.Spent }
        ensures refused { IfErr result (λ why. (why ≡ NotDone.Spent) × (self.now.spent ≡ true)) }
    {
        if self.spent {
            return Err(NotDone::Spent);
        }
        Ok(UnitNo(self.kernel.machine.greatest()))
    }

    /// How many records its log has, those that are pending too.
    pub fn record_count(&self) -> Result<u64, NotDone>
        ensures count { IfOk result (IsCount
            (stand_of D.written D.synced D.doubted D.failed self.now)) }
        ensures spent { self.now.spent ≡ true → result ≡ Err NotDone.Spent }
        ensures refused { IfErr result (λ why. (why ≡ NotDone.Spent) × (self.now.spent ≡ true)) }
    {
        if self.spent {
            return Err(NotDone::Spent);
        }
        Ok(self.kernel.machine.next())
    }

    /// Whether the unit is open.
    pub fn is_open(&self, unit: UnitNo) -> Result<bool, NotDone>
        ensures open { IfOk result (IsOpenThere
            (stand_of D.written D.synced D.doubted D.failed self.now) unit.0) }
        ensures spent { self.now.spent ≡ true → result ≡ Err NotDone.Spent }
        ensures refused { IfErr result (λ why. (why ≡ NotDone.Spent) × (self.now.spent ≡ true)) }
    {
        if self.spent {
            return Err(NotDone::Spent);
        }
        let end = KeptRecord::Commit { unit };
        Ok(
            self.kernel
                .machine
                .broken(self.kernel.version, &end)
                .is_none(),
        )
    }

    /// How many elements of a queue are free, fresh and held; a queue that is not there has none.
    /// Refused with `Resources`, also if it is spent.
    pub fn depths(&self, alloc: Global, queue: QueueNo) -> Result<Depths, Fault>
        ensures free { IfOk result (λ d. IsDepth
            (stand_of D.written D.synced D.doubted D.failed self.now) queue.0 d.free) }
        ensures refused { IfErr result (λ e. e ≡ Resources) }
    {
        rq_model::runs_are_well_formed();
        if self.spent {
            return Err(Fault::Resources);
        }
        if queue.0 as usize >= self.kernel.machine.definitions().len() {
            return Ok(Depths::none());
        }
        let mut depths = Depths::none();
        for unit in &self.kernel.machine.open_units(alloc)? {
            depths.add(self.kernel.machine.marked_by(queue, *unit));
        }
        depths.free = self.kernel.machine.depth(queue);
        Ok(depths)
    }

    /// Who is registered with a queue, by name; copies. A queue that is not there has none. It costs
    /// a look at each element of the queue. Refused with `Resources`, also if it is spent.
    pub fn registered(&self, alloc: Global, queue: QueueNo) -> Result<Vec<KeptRegistrant>, Fault>
        ensures registered { IfOk result (λ v. AreRegistered
            (stand_of D.written D.synced D.doubted D.failed self.now) queue.0 v.items) }
        ensures refused { IfErr result (λ e. e ≡ Resources) }
    {
        rq_model::runs_are_well_formed();
        if self.spent {
            return Err(Fault::Resources);
        }
        if queue.0 as usize >= self.kernel.machine.definitions().len() {
            return Ok(Vec::new(alloc));
        }
        let mut fields = no_fields(alloc);
        self.kernel.machine.part(queue).pour_copies(&mut fields)?;
        Ok(fields.registrants)
    }
}
