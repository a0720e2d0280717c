//! What a manager does for its clients.

ghost use Rattle.std.specs.Prelude.{◌≡◌, Err, true, OnOk, IfOk, IfErr};
ghost use Rattle.rq_model.specs.Records as model;
ghost use Rattle.rq_live.specs.Managers.{IsInOrder, stand_of, Does, Enqueues, Dequeues};
ghost use Rattle.rq_live.specs.Managers.{ManagerStops};
ghost use Rattle.rq_live.specs.Managers.{BeginsUnit, StopsBegin, StopsEnd, Commits, KeepsSafe};

use crate::kernel::NotDone;
use crate::manager::Manager;
use rq_device::Device;
use rq_record::{By, ElemId, Name, Payload, QueueNo, Record, UnitNo};
use rq_state::KeptElement;
use std::alloc::Global;

impl<D: Device + Drop> Manager<D> {
    /// Defines the next queue: how many failed attempts an element may have, 0 for no limit, and
    /// the queue that it goes to then.
    pub fn define(
        &mut self,
        alloc: Global,
        limit: u16,
        error: QueueNo,
        name: Name,
    ) -> Result<(), NotDone>
        requires { IsInOrder (stand_of D.written D.synced D.doubted D.failed self.old) }
        ensures order { IsInOrder (stand_of D.written D.synced D.doubted D.failed self.new) }
        ensures spent { self.old.spent ≡ true
            → (self.new ≡ self.old) × (result ≡ Err NotDone.Spent) }
        ensures done { OnOk result (Does (stand_of D.written D.synced D.doubted D.failed self.old)
            (stand_of D.written D.synced D.doubted D.failed self.new)
            (model.Define limit error.0 name)) }
        ensures refused { IfErr result (ManagerStops
            (stand_of D.written D.synced D.doubted D.failed self.old)
            (stand_of D.written D.synced D.doubted D.failed self.new)
            (model.Define limit error.0 name)) }
        ensures keeps { KeepsSafe (stand_of D.written D.synced D.doubted D.failed self.old)
            (stand_of D.written D.synced D.doubted D.failed self.new) }
    {
        self.take(alloc, &Record::Define { limit, error, name })?;
        Ok(())
    }

    /// Registers a name with a queue. One that is registered already forgets its last operation.
    pub fn register(&mut self, alloc: Global, queue: QueueNo, name: Name) -> Result<(), NotDone>
        requires { IsInOrder (stand_of D.written D.synced D.doubted D.failed self.old) }
        ensures order { IsInOrder (stand_of D.written D.synced D.doubted D.failed self.new) }
        ensures spent { self.old.spent ≡ true
            → (self.new ≡ self.old) × (result ≡ Err NotDone.Spent) }
        ensures done { OnOk result (Does (stand_of D.written D.synced D.doubted D.failed self.old)
            (stand_of D.written D.synced D.doubted D.failed self.new)
            (model.Register queue.0 name)) }
        ensures refused { IfErr result (ManagerStops
            (stand_of D.written D.synced D.doubted D.failed self.old)
            (stand_of D.written D.synced D.doubted D.failed self.new)
            (model.Register queue.0 name)) }
        ensures keeps { KeepsSafe (stand_of D.written D.synced D.doubted D.failed self.old)
            (stand_of D.written D.synced D.doubted D.failed self.new) }
    {
        self.take(alloc, &Record::Register { queue, name })?;
        Ok(())
    }

    /// Ends the registration of a name with a queue.
    pub fn deregister(&mut self, alloc: Global, queue: QueueNo, name: Name) -> Result<(), NotDone>
        requires { IsInOrder (stand_of D.written D.synced D.doubted D.failed self.old) }
        ensures order { IsInOrder (stand_of D.written D.synced D.doubted D.failed self.new) }
        ensures spent { self.old.spent ≡ true
            → (self.new ≡ self.old) × (result ≡ Err NotDone.Spent) }
        ensures done { OnOk result (Does (stand_of D.written D.synced D.doubted D.failed self.old)
            (stand_of D.written D.synced D.doubted D.failed self.new)
            (model.Deregister queue.0 name)) }
        ensures refused { IfErr result (ManagerStops
            (stand_of D.written D.synced D.doubted D.failed self.old)
            (stand_of D.written D.synced D.doubted D.failed self.new)
            (model.Deregister queue.0 name)) }
        ensures keeps { KeepsSafe (stand_of D.written D.synced D.doubted D.failed self.old)
            (stand_of D.written D.synced D.doubted D.failed self.new) }
    {
        self.take(alloc, &Record::Deregister { queue, name })?;
        Ok(())
    }

    /// Begins a unit. Its number is one more than the greatest so far.
    pub fn begin(&mut self, alloc: Global) -> Result<UnitNo, NotDone>
        requires { IsInOrder (stand_of D.written D.synced D.doubted D.failed self.old) }
        ensures order { IsInOrder (stand_of D.written D.synced D.doubted D.failed self.new) }
        ensures spent { self.old.spent ≡ true
            → (self.new ≡ self.old) × (result ≡ Err NotDone.Spent) }
        ensures begun { IfOk result (λ unit. BeginsUnit
            (stand_of D.written D.synced D.doubted D.failed self.old)
            (stand_of D.written D.synced D.doubted D.failed self.new) unit.0) }
        ensures refused { IfErr result (StopsBegin
            (stand_of D.written D.synced D.doubted D.failed self.old)
            (stand_of D.written D.synced D.doubted D.failed self.new)) }
        ensures keeps { KeepsSafe (stand_of D.written D.synced D.doubted D.failed self.old)
            (stand_of D.written D.synced D.doubted D.failed self.new) }
    {
        if self.spent {
            return Err(NotDone::Spent);
        }
        let greatest = self.kernel.machine.greatest();
        if greatest == u64::MAX {
            return Err(NotDone::Ended);
        }
        let unit = UnitNo(greatest + 1);
        match self.take(alloc, &Record::Begin { unit }) {
            Ok(_) => Ok(unit),
            Err(why) => Err(why),
        }
    }

    /// Puts an element into a queue, to be seen when the unit commits. Its id.
    pub fn enqueue(
        &mut self,
        alloc: Global,
        unit: UnitNo,
        queue: QueueNo,
        priority: u8,
        by: Option<By>,
        payload: Payload,
    ) -> Result<ElemId, NotDone>
        requires { IsInOrder (stand_of D.written D.synced D.doubted D.failed self.old) }
        ensures order { IsInOrder (stand_of D.written D.synced D.doubted D.failed self.new) }
        ensures spent { self.old.spent ≡ true
            → (self.new ≡ self.old) × (result ≡ Err NotDone.Spent) }
        ensures done { IfOk result (λ id. Enqueues
            (stand_of D.written D.synced D.doubted D.failed self.old)
            (stand_of D.written D.synced D.doubted D.failed self.new)
            (model.Enqueue unit.0 queue.0 priority by payload) id.0) }
        ensures refused { IfErr result (ManagerStops
            (stand_of D.written D.synced D.doubted D.failed self.old)
            (stand_of D.written D.synced D.doubted D.failed self.new)
            (model.Enqueue unit.0 queue.0 priority by payload)) }
        ensures keeps { KeepsSafe (stand_of D.written D.synced D.doubted D.failed self.old)
            (stand_of D.written D.synced D.doubted D.failed self.new) }
    {
        let id = ElemId(self.kernel.machine.next());
        let next = Record::Enqueue {
            priority,
            queue,
            unit,
            by,
            payload,
        };
        self.take(alloc, &next)?;
        Ok(id)
    }

    /// Takes the best free element of a queue, to be gone when the unit commits. None if none is
    /// free.
    pub fn dequeue(
        &mut self,
        alloc: Global,
        unit: UnitNo,
        queue: QueueNo,
        by: Option<By>,
    ) -> Result<Option<KeptElement>, NotDone>
        requires { IsInOrder (stand_of D.written D.synced D.doubted D.failed self.old) }
        ensures order { IsInOrder (stand_of D.written D.synced D.doubted D.failed self.new) }
        ensures spent { self.old.spent ≡ true
            → (self.new ≡ self.old) × (result ≡ Err NotDone.Spent) }
        ensures took { IfOk result (λ e. Dequeues
            (stand_of D.written D.synced D.doubted D.failed self.old)
            (stand_of D.written D.synced D.doubted D.failed self.new) unit.0 queue.0 by e) }
        ensures refused { IfErr result (ManagerStops
            (stand_of D.written D.synced D.doubted D.failed self.old)
            (stand_of D.written D.synced D.doubted D.failed self.new)
            (model.Dequeue unit.0 queue.0 by)) }
        ensures keeps { KeepsSafe (stand_of D.written D.synced D.doubted D.failed self.old)
            (stand_of D.written D.synced D.doubted D.failed self.new) }
    {
        if self.spent {
            return Err(NotDone::Spent);
        }
        let first = match self.kernel.first(queue) {
            Ok(first) => first,
            Err(_) => {
                self.spent = true;
                return Err(NotDone::Spent);
            }
        };
        self.take(alloc, &Record::Dequeue { unit, queue, by })?;
        Ok(first)
    }

    /// Kills an element of a queue: it is gone, if it is free there. Not in version 1.
    pub fn kill(&mut self, alloc: Global, queue: QueueNo, element: ElemId) -> Result<(), NotDone>
        requires { IsInOrder (stand_of D.written D.synced D.doubted D.failed self.old) }
        ensures order { IsInOrder (stand_of D.written D.synced D.doubted D.failed self.new) }
        ensures spent { self.old.spent ≡ true
            → (self.new ≡ self.old) × (result ≡ Err NotDone.Spent) }
        ensures done { OnOk result (Does (stand_of D.written D.synced D.doubted D.failed self.old)
            (stand_of D.written D.synced D.doubted D.failed self.new)
            (model.Kill queue.0 element.0)) }
        ensures refused { IfErr result (ManagerStops
            (stand_of D.written D.synced D.doubted D.failed self.old)
            (stand_of D.written D.synced D.doubted D.failed self.new)
            (model.Kill queue.0 element.0)) }
        ensures keeps { KeepsSafe (stand_of D.written D.synced D.doubted D.failed self.old)
            (stand_of D.written D.synced D.doubted D.failed self.new) }
    {
        self.take(alloc, &Record::Kill { queue, element })?;
        Ok(())
    }

    /// Commits a unit: it is safe when all is settled. Never refused for want of room.
    pub fn commit_later(&mut self, alloc: Global, unit: UnitNo) -> Result<(), NotDone>
        requires { IsInOrder (stand_of D.written D.synced D.doubted D.failed self.old) }
        ensures order { IsInOrder (stand_of D.written D.synced D.doubted D.failed self.new) }
        ensures spent { self.old.spent ≡ true
            → (self.new ≡ self.old) × (result ≡ Err NotDone.Spent) }
        ensures done { OnOk result (Does (stand_of D.written D.synced D.doubted D.failed self.old)
            (stand_of D.written D.synced D.doubted D.failed self.new) (model.Commit unit.0)) }
        ensures refused { IfErr result (StopsEnd
            (stand_of D.written D.synced D.doubted D.failed self.old)
            (stand_of D.written D.synced D.doubted D.failed self.new) (model.Commit unit.0)) }
        ensures keeps { KeepsSafe (stand_of D.written D.synced D.doubted D.failed self.old)
            (stand_of D.written D.synced D.doubted D.failed self.new) }
    {
        match self.take(alloc, &Record::Commit { unit }) {
            Ok(_) => Ok(()),
            Err(why) => Err(why),
        }
    }

    /// Commits a unit. When it returns the unit is safe, and so is all that was done before. Never
    /// refused for want of room.
    pub fn commit(&mut self, alloc: Global, unit: UnitNo) -> Result<(), NotDone>
        requires { IsInOrder (stand_of D.written D.synced D.doubted D.failed self.old) }
        ensures order { IsInOrder (stand_of D.written D.synced D.doubted D.failed self.new) }
        ensures spent { self.old.spent ≡ true
            → (self.new ≡ self.old) × (result ≡ Err NotDone.Spent) }
        ensures safe { OnOk result (Commits
            (stand_of D.written D.synced D.doubted D.failed self.old)
            (stand_of D.written D.synced D.doubted D.failed self.new) unit.0) }
        ensures refused { IfErr result (StopsEnd
            (stand_of D.written D.synced D.doubted D.failed self.old)
            (stand_of D.written D.synced D.doubted D.failed self.new) (model.Commit unit.0)) }
        ensures keeps { KeepsSafe (stand_of D.written D.synced D.doubted D.failed self.old)
            (stand_of D.written D.synced D.doubted D.failed self.new) }
    {
        self.commit_later(alloc, unit)?;
        self.settle()
    }

    /// Aborts a unit: what it did is undone. A crash does the same. Never refused for want of room.
    pub fn abort(&mut self, alloc: Global, unit: UnitNo) -> Result<(), NotDone>
        requires { IsInOrder (stand_of D.written D.synced D.doubted D.failed self.old) }
        ensures order { IsInOrder (stand_of D.written D.synced D.doubted D.failed self.new) }
        ensures spent { self.old.spent ≡ true
            → (self.new ≡ self.old) × (result ≡ Err NotDone.Spent) }
        ensures done { OnOk result (Does (stand_of D.written D.synced D.doubted D.failed self.old)
            (stand_of D.written D.synced D.doubted D.failed self.new) (model.Abort unit.0)) }
        ensures refused { IfErr result (StopsEnd
            (stand_of D.written D.synced D.doubted D.failed self.old)
            (stand_of D.written D.synced D.doubted D.failed self.new) (model.Abort unit.0)) }
        ensures keeps { KeepsSafe (stand_of D.written D.synced D.doubted D.failed self.old)
            (stand_of D.written D.synced D.doubted D.failed self.new) }
    {
        match self.take(alloc, &Record::Abort { unit }) {
            Ok(_) => Ok(()),
            Err(why) => Err(why),
        }
    }
}
