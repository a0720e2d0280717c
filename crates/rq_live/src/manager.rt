//! A queue manager over a device.

ghost use Rattle.std.specs.Prelude.{◌≡◌, ◌⊎◌, [], Err, true, false, OnOk, IfOk};
ghost use Rattle.std.specs.Prelude.{IfErr, map, option_map};
ghost use Rattle.rq_record.specs.Views.{record_of, version_of};
ghost use Rattle.rq_record.specs.declared.fault.Fault.TheVariants.{Resources};
ghost use Rattle.rq_state.specs.Views.{unit_of};
ghost use Rattle.rq_device.specs.Devices.{AreStored, IsAllSynced};
ghost use Rattle.rq_live.specs.Starts.{Plain};
ghost use Rattle.rq_live.specs.Managers.{IsManaged, IsInOrder, KeepsWindow, stand_of, DoesTaking};
ghost use Rattle.rq_live.specs.Managers.{ManagerStops, StandsStill};
ghost use Rattle.rq_live.specs.Managers.{Settles, AllIsSafe, KeepsSafe, IsLength, IsLastOf, AreOpen};
ghost use Rattle.rq_live.specs.Managers.{AreDefined, AreFirstFree};

use crate::kernel::{Kernel, NotDone};
use rq_device::{Device, WINDOW};
use rq_record::{ElemId, Fault, KeptName, QueueNo, Record, UnitNo, Version};
use rq_state::{Definition, KeptElement, Last};
use std::alloc::Global;

/// A queue manager over a device. It does one operation at a time, and says of each what it did.
/// Its records are pending until `commit`, `checkpoint` or `settle` writes and syncs them, or until
/// more than 1,048,576 bytes are pending: what was not committed then may be lost in a crash, and
/// is aborted by it anyway.
///
/// Once memory was refused, or the device failed, it is spent: each call then says so, and the
/// device is not called again. What was synced stays.
#[derive(Drop)]
pub struct Manager<D> {
    pub(crate) device: D,
    pub(crate) kernel: Kernel,
    pub(crate) spent: bool,
}

impl<D: Device + Drop> Manager<D> {
    /// No queues yet, over a device on which nothing stands. Its header is pending.
    pub fn new(alloc: Global, version: Version, device: D) -> Result<Manager<D>, Fault>
        requires empty { AreStored (D.written device) [] }
        requires works { D.failed device ≡ false }
        requires sure { D.doubted device ≡ false }
        requires synced { IsAllSynced (D.written device) (D.synced device) }
        ensures stands { IfOk result (λ m. IsManaged (Plain (version_of version)) []
            (stand_of D.written D.synced D.doubted D.failed m)) }
        ensures order { IfOk result (λ m. IsInOrder
            (stand_of D.written D.synced D.doubted D.failed m)) }
        ensures refused { IfErr result (λ e. e ≡ Resources) }
    {
        let kernel = Kernel::new(alloc, version)?;
        Ok(Manager {
            device,
            kernel,
            spent: false,
        })
    }

    /// Over what a crash left on a device, whose front this kernel stands behind. `resume` is to be
    /// called first.
    pub fn over(device: D, kernel: Kernel) -> Manager<D>
        ensures device { result.device ≡ device }
        ensures kernel { result.kernel ≡ kernel }
        ensures unspent { result.spent ≡ false }
    {
        Manager {
            device,
            kernel,
            spent: false,
        }
    }

    /// The device.
    pub fn device(&self) -> &D
        ensures { result.now ≡ self.now.device }
    {
        &self.device
    }

    /// How many bytes its log has, those that are pending too.
    pub fn len(&self) -> usize
        ensures { IsLength (stand_of D.written D.synced D.doubted D.failed self.now) result }
    {
        self.kernel.len
    }

    /// The last operation of who is registered with a queue by the name, lent; none if nobody is.
    pub fn last(&self, queue: QueueNo, name: &KeptName) -> Result<Option<Option<&Last>>, NotDone>
        ensures last { IfOk result (λ l. IsLastOf
            (stand_of D.written D.synced D.doubted D.failed self.now)
            queue.0 name.now (option_map (λ x. option_map (λ y. y.now) x) l)) }
        ensures spent { self.now.spent ≡ true → result ≡ Err NotDone.Spent }
        ensures refused { IfErr result (λ why. (why ≡ NotDone.Spent) × (self.now.spent ≡ true)) }
    {
        if self.spent {
            return Err(NotDone::Spent);
        }
        Ok(self.kernel.machine.last(queue, name))
    }

    /// The queues, by number; lent.
    pub fn definitions(&self) -> Result<&[Definition], NotDone>
        ensures definitions { IfOk result (λ ds. AreDefined
            (stand_of D.written D.synced D.doubted D.failed self.now) ds.now) }
        ensures spent { self.now.spent ≡ true → result ≡ Err NotDone.Spent }
        ensures refused { IfErr result (λ why. (why ≡ NotDone.Spent) × (self.now.spent ≡ true)) }
    {
        if self.spent {
            return Err(NotDone::Spent);
        }
        Ok(self.kernel.machine.definitions())
    }

    /// The units that are open, rising. Refused with `Resources`, also if it is spent.
    pub fn open_units(&self, alloc: Global) -> Result<Vec<UnitNo>, Fault>
        ensures units { IfOk result (λ v. AreOpen
            (stand_of D.written D.synced D.doubted D.failed self.now)
            (map unit_of v.items)) }
        ensures refused { IfErr result (λ e. e ≡ Resources) }
    {
        if self.spent {
            return Err(Fault::Resources);
        }
        self.kernel.machine.open_units(alloc)
    }

    /// The first free elements of a queue, in the order in which they would be taken; lent. As many
    /// as there are, and no more than `most`; a queue that is not there has none. Refused with
    /// `Resources`, also if it is spent.
    pub fn first_elements(
        &self,
        alloc: Global,
        queue: QueueNo,
        most: usize,
    ) -> Result<Vec<&KeptElement>, Fault>
        ensures elements { IfOk result (λ v. AreFirstFree
            (stand_of D.written D.synced D.doubted D.failed self.now)
            queue.0 most (map (λ e. e.now) v.items)) }
        ensures refused { IfErr result (λ e. e ≡ Resources) }
    {
        rq_model::runs_are_well_formed();
        if self.spent {
            return Err(Fault::Resources);
        }
        if queue.0 as usize >= self.kernel.machine.definitions().len() {
            return Ok(Vec::new(alloc));
        }
        let first = self.kernel.machine.part(queue).first_elements(alloc, most)?;
        Ok(first)
    }

    // Writes and syncs all that is pending.
    pub(crate) fn settle_pending(&mut self) -> Result<(), NotDone>
        requires { KeepsWindow (stand_of D.written D.synced D.doubted D.failed self.old) }
        ensures window { KeepsWindow (stand_of D.written D.synced D.doubted D.failed self.new) }
        ensures few { OnOk result (self.new.kernel.pending.items ≡ []) }
        ensures spent { self.old.spent ≡ true
            → (self.new ≡ self.old) × (result ≡ Err NotDone.Spent) }
        ensures safe { OnOk result (Settles
            (stand_of D.written D.synced D.doubted D.failed self.old)
            (stand_of D.written D.synced D.doubted D.failed self.new)) }
        ensures all { OnOk result (AllIsSafe
            (stand_of D.written D.synced D.doubted D.failed self.new)) }
        ensures keeps { KeepsSafe (stand_of D.written D.synced D.doubted D.failed self.old)
            (stand_of D.written D.synced D.doubted D.failed self.new) }
        ensures refused { IfErr result (λ why. (why ≡ NotDone.Spent) × (self.new.spent ≡ true)) }
        ensures fault { IfErr result
            (λ why. (self.old.spent ≡ true) ⊎ (D.failed self.new.device ≡ true)) }
    {
        if self.spent {
            return Err(NotDone::Spent);
        }
        match rq_device::settle(&mut self.device, &self.kernel.pending) {
            Ok(()) => {
                self.kernel.pending.clear();
                Ok(())
            }
            Err(_) => {
                self.spent = true;
                Err(NotDone::Spent)
            }
        }
    }

    /// Makes all that was done safe: when it returns, whatever a crash leaves, an opening finds it.
    pub fn settle(&mut self) -> Result<(), NotDone>
        requires { IsInOrder (stand_of D.written D.synced D.doubted D.failed self.old) }
        ensures order { IsInOrder (stand_of D.written D.synced D.doubted D.failed self.new) }
        ensures few { OnOk result (self.new.kernel.pending.items ≡ []) }
        ensures spent { self.old.spent ≡ true
            → (self.new ≡ self.old) × (result ≡ Err NotDone.Spent) }
        ensures safe { OnOk result (Settles
            (stand_of D.written D.synced D.doubted D.failed self.old)
            (stand_of D.written D.synced D.doubted D.failed self.new)) }
        ensures all { OnOk result (AllIsSafe
            (stand_of D.written D.synced D.doubted D.failed self.new)) }
        ensures keeps { KeepsSafe (stand_of D.written D.synced D.doubted D.failed self.old)
            (stand_of D.written D.synced D.doubted D.failed self.new) }
        ensures refused { IfErr result (λ why. (why ≡ NotDone.Spent) × (self.new.spent ≡ true)) }
        ensures fault { IfErr result
            (λ why. (self.old.spent ≡ true) ⊎ (D.failed self.new.device ≡ true)) }
    {
        self.settle_pending()
    }

    /// Shows what is pending to who reads the log meanwhile. A crash of the host may take it.
    pub fn preview(&mut self) -> Result<(), NotDone>
        requires { IsInOrder (stand_of D.written D.synced D.doubted D.failed self.old) }
        ensures order { IsInOrder (stand_of D.written D.synced D.doubted D.failed self.new) }
        ensures spent { self.old.spent ≡ true
            → (self.new ≡ self.old) × (result ≡ Err NotDone.Spent) }
        ensures stays { OnOk result (StandsStill
            (stand_of D.written D.synced D.doubted D.failed self.old)
            (stand_of D.written D.synced D.doubted D.failed self.new)) }
        ensures keeps { KeepsSafe (stand_of D.written D.synced D.doubted D.failed self.old)
            (stand_of D.written D.synced D.doubted D.failed self.new) }
        ensures refused { IfErr result (λ why. (why ≡ NotDone.Spent) × (self.new.spent ≡ true)) }
    {
        if self.spent {
            return Err(NotDone::Spent);
        }
        match self.device.preview(&self.kernel.pending) {
            Ok(()) => Ok(()),
            Err(_) => {
                self.spent = true;
                Err(NotDone::Spent)
            }
        }
    }

    // Does a record, pending.
    fn done(&mut self, alloc: Global, next: &Record) -> Result<Option<ElemId>, NotDone>
        requires { KeepsWindow (stand_of D.written D.synced D.doubted D.failed self.old) }
        ensures window { KeepsWindow (stand_of D.written D.synced D.doubted D.failed self.new) }
        ensures spent { self.old.spent ≡ true
            → (self.new ≡ self.old) × (result ≡ Err NotDone.Spent) }
        ensures taken { IfOk result (DoesTaking
            (stand_of D.written D.synced D.doubted D.failed self.old)
            (stand_of D.written D.synced D.doubted D.failed self.new) (record_of next.now)) }
        ensures refused { IfErr result (ManagerStops
            (stand_of D.written D.synced D.doubted D.failed self.old)
            (stand_of D.written D.synced D.doubted D.failed self.new) (record_of next.now)) }
        ensures few { IfErr result (λ why. self.new.spent ≡ false
            → (self.old.spent ≡ false) × (self.new.kernel.pending ≡ self.old.kernel.pending)) }
        ensures keeps { KeepsSafe (stand_of D.written D.synced D.doubted D.failed self.old)
            (stand_of D.written D.synced D.doubted D.failed self.new) }
    {
        if self.spent {
            return Err(NotDone::Spent);
        }
        match self.kernel.take(alloc, next) {
            Ok(id) => Ok(id),
            Err(NotDone::Unlawful(rule)) => Err(NotDone::Unlawful(rule)),
            Err(NotDone::Full) => Err(NotDone::Full),
            Err(_) => {
                self.spent = true;
                Err(NotDone::Spent)
            }
        }
    }

    /// Does a record, whoever made it. The id of the element that it takes, if it takes one. It is
    /// pending; if more bytes are pending then than may be unsynced, all are settled.
    pub fn take(&mut self, alloc: Global, next: &Record) -> Result<Option<ElemId>, NotDone>
        requires { IsInOrder (stand_of D.written D.synced D.doubted D.failed self.old) }
        ensures order { IsInOrder (stand_of D.written D.synced D.doubted D.failed self.new) }
        ensures spent { self.old.spent ≡ true
            → (self.new ≡ self.old) × (result ≡ Err NotDone.Spent) }
        ensures taken { IfOk result (DoesTaking
            (stand_of D.written D.synced D.doubted D.failed self.old)
            (stand_of D.written D.synced D.doubted D.failed self.new) (record_of next.now)) }
        ensures refused { IfErr result (ManagerStops
            (stand_of D.written D.synced D.doubted D.failed self.old)
            (stand_of D.written D.synced D.doubted D.failed self.new) (record_of next.now)) }
        ensures keeps { KeepsSafe (stand_of D.written D.synced D.doubted D.failed self.old)
            (stand_of D.written D.synced D.doubted D.failed self.new) }
    {
        let id = self.done(alloc, next)?;
        if self.kernel.pending.len() <= WINDOW {
            return Ok(id);
        }
        self.settle_pending()?;
        Ok(id)
    }
}
