//! What a manager does with an element if it is free, and of what it writes nothing else.

ghost use Rattle.std.specs.Prelude.{◌≡◌, Err, true, OnOk, IfOk, IfErr};
ghost use Rattle.rq_model.specs.Records as model;
ghost use Rattle.rq_record.specs.Views.{record_of};
ghost use Rattle.rq_live.specs.Managers.{IsInOrder, stand_of, DequeuesIfFree, KillsIfFree};
ghost use Rattle.rq_live.specs.Managers.{ManagerStops, KeepsSafe, StandsLawful};

use crate::kernel::NotDone;
use crate::manager::Manager;
use rq_device::Device;
use rq_record::{By, ElemId, KeptRecord, QueueNo, Record, UnitNo};
use rq_state::KeptElement;
use std::alloc::Global;

impl<D: Device + Drop> Manager<D> {
    // Refuses a record that is not lawful. Nothing is done.
    fn expect_lawful(&mut self, alloc: Global, next: &Record) -> Result<(), NotDone>
        requires { IsInOrder (stand_of D.written D.synced D.doubted D.failed self.old) }
        ensures order { IsInOrder (stand_of D.written D.synced D.doubted D.failed self.new) }
        ensures lawful { OnOk result (StandsLawful
            (stand_of D.written D.synced D.doubted D.failed self.old)
            (stand_of D.written D.synced D.doubted D.failed self.new) (record_of next.now)) }
        ensures refused { IfErr result (ManagerStops
            (stand_of D.written D.synced D.doubted D.failed self.old)
            (stand_of D.written D.synced D.doubted D.failed self.new) (record_of next.now)) }
        ensures keeps { KeepsSafe (stand_of D.written D.synced D.doubted D.failed self.old)
            (stand_of D.written D.synced D.doubted D.failed self.new) }
    {
        match KeptRecord::of(alloc, next) {
            Ok(kept) => match self.kernel.machine.broken(self.kernel.version, &kept) {
                Some(rule) => Err(NotDone::Unlawful(rule)),
                None => Ok(()),
            },
            Err(_) => {
                self.spent = true;
                Err(NotDone::Spent)
            }
        }
    }

    /// Takes the best free element of a queue, to be gone when the unit commits. If none is free,
    /// nothing is done.
    pub fn dequeue_free(
        &mut self,
        alloc: Global,
        unit: UnitNo,
        queue: QueueNo,
        by: Option<By>,
    ) -> Result<Option<KeptElement>, NotDone>
        requires { IsInOrder (stand_of D.written D.synced D.doubted D.failed self.old) }
        ensures order { IsInOrder (stand_of D.written D.synced D.doubted D.failed self.new) }
        ensures spent { self.old.spent ≡ true
            → (self.new ≡ self.old) × (result ≡ Err NotDone.Spent) }
        ensures took { IfOk result (λ e. DequeuesIfFree
            (stand_of D.written D.synced D.doubted D.failed self.old)
            (stand_of D.written D.synced D.doubted D.failed self.new) unit.0 queue.0 by e) }
        ensures refused { IfErr result (ManagerStops
            (stand_of D.written D.synced D.doubted D.failed self.old)
            (stand_of D.written D.synced D.doubted D.failed self.new)
            (model.Dequeue unit.0 queue.0 by)) }
        ensures keeps { KeepsSafe (stand_of D.written D.synced D.doubted D.failed self.old)
            (stand_of D.written D.synced D.doubted D.failed self.new) }
    {
        if self.spent {
            return Err(NotDone::Spent);
        }
        if self.kernel.machine.first(queue).is_some() {
            return self.dequeue(alloc, unit, queue, by);
        }
        self.expect_lawful(alloc, &Record::Dequeue { unit, queue, by })?;
        Ok(None)
    }

    /// Kills an element of a queue, if it is free there, and answers whether it was. If it was not,
    /// nothing is done. Not in version 1.
    pub fn kill_free(
        &mut self,
        alloc: Global,
        queue: QueueNo,
        element: ElemId,
    ) -> Result<bool, NotDone>
        requires { IsInOrder (stand_of D.written D.synced D.doubted D.failed self.old) }
        ensures order { IsInOrder (stand_of D.written D.synced D.doubted D.failed self.new) }
        ensures spent { self.old.spent ≡ true
            → (self.new ≡ self.old) × (result ≡ Err NotDone.Spent) }
        ensures killed { IfOk result (λ was. KillsIfFree
            (stand_of D.written D.synced D.doubted D.failed self.old)
            (stand_of D.written D.synced D.doubted D.failed self.new) queue.0 element.0 was) }
        ensures refused { IfErr result (ManagerStops
            (stand_of D.written D.synced D.doubted D.failed self.old)
            (stand_of D.written D.synced D.doubted D.failed self.new)
            (model.Kill queue.0 element.0)) }
        ensures keeps { KeepsSafe (stand_of D.written D.synced D.doubted D.failed self.old)
            (stand_of D.written D.synced D.doubted D.failed self.new) }
    {
        if self.spent || self.kernel.machine.has_free(queue, element) {
            self.kill(alloc, queue, element)?;
            return Ok(true);
        }
        self.expect_lawful(alloc, &Record::Kill { queue, element })?;
        Ok(false)
    }
}
