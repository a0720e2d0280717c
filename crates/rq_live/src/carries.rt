//! A log that goes on in another file, in which its state is the beginning.

ghost use Rattle.std.specs.Prelude.{◌≡◌, [], Err, true, false, length, OnOk, IfOk, IfErr};
ghost use Rattle.rq_model.specs.Frames.{IsBodyLength, digest, frame};
ghost use Rattle.rq_model.specs.Carrying.{carried_file};
ghost use Rattle.rq_record.specs.Views.{version_of};
ghost use Rattle.rq_record.specs.declared.fault.Fault.TheVariants.{Resources};
ghost use Rattle.rq_device.specs.Devices.{AreStored, IsAllSynced};
ghost use Rattle.rq_live.specs.Kernels.{KernelStays};
ghost use Rattle.rq_live.specs.Managers.{AllIsSafe, IsInOrder, KeepsSafe, KeepsWindow};
ghost use Rattle.rq_live.specs.Managers.{stand_of};
ghost use Rattle.rq_live.specs.Carries.{BeginsBehind, GoesOver, KernelGoesOver, KernelIsKept};
ghost use Rattle.rq_live.specs.Carries.{StandsOver, StaysSafe, StopsCarry};

use crate::kernel::{Kernel, NotDone};
use crate::manager::Manager;
use rq_device::{Device, Successor, Unmade};
use rq_front::{append_frame, carried_header_of};
use rq_record::{CheckBytes, Fault, KeptRecord, Record, encode};
use rq_standing::Taken;
use std::alloc::Global;

/// Why a log does not go on in another file. But if it is spent, the manager goes on where it stood,
/// and all that was done there is settled.
#[derive(Clone, Copy, PartialEq, Eq, Debug)]
pub enum NotCarried {
    /// The spelling of the state has more than the 268,435,455 bytes that a checkpoint holds.
    Large,
    /// More than 9,223,372,036,854,775,807 records were done, over all files: no checkpoint spells that.
    Ended,
    /// The other file was not made.
    Unmade,
    /// Memory was refused for the first bytes of the other file.
    Resources,
    /// Memory was refused, or a write or a sync failed, now or earlier, or it is not known what became
    /// of the log. Open the log anew.
    Spent,
}

/// What begins the file in which a log goes on.
#[derive(Drop)]
pub(crate) struct NextFile {
    // Its bytes: the header of a carried file, the last 32 bytes of the log, and the frame of a checkpoint.
    bytes: Vec<u8>,
    // The last 32 of these.
    last: [u8; 32],
}

impl Kernel {
    // The file whose first frame is that of the body that was spelled.
    fn begun_by(&self, alloc: Global) -> Result<NextFile, Fault>
        requires { IsBodyLength (length self.now.body.items) }
        ensures bytes { IfOk result (λ b. b.bytes.items ≡ carried_file (version_of self.now.version)
            self.now.last (frame self.now.last self.now.body.items)) }
        ensures last { IfOk result (λ b. b.last ≡ digest self.now.last self.now.body.items) }
        ensures refused { IfErr result (λ e. e ≡ Resources) }
    {
        let mut bytes = Vec::new(alloc);
        carried_header_of(self.version, &mut bytes)?;
        bytes.extend_from_slice(&self.last)?;
        let last = append_frame(&self.last, &self.body, &mut bytes)?;
        Ok(NextFile { bytes, last })
    }

    // The first bytes of the file in which the log goes on from here. It stands where it stood.
    fn begun(&mut self, alloc: Global) -> Result<NextFile, NotCarried>
        ensures begun { IfOk result (λ b. BeginsBehind self.new b.bytes.items b.last) }
        ensures stays { KernelStays self.old self.new }
        ensures pending { self.new.pending ≡ self.old.pending }
        ensures refused { IfErr result (KernelIsKept self.old) }
        ensures unspent { IfErr result (λ why. why ≡ NotCarried.Spent → ⊥) }
    {
        rq_model::one_spelling();
        let bytes = match self.state_spelled(alloc) {
            Ok(bytes) => bytes,
            Err(NotDone::Large) => return Err(NotCarried::Large),
            Err(NotDone::Ended) => return Err(NotCarried::Ended),
            Err(_) => return Err(NotCarried::Resources),
        };
        self.body.clear();
        let Ok(()) = encode(&Record::Checkpoint { bytes }, &mut self.body) else {
            return Err(NotCarried::Resources);
        };
        match self.begun_by(alloc) {
            Ok(begun) => Ok(begun),
            Err(_) => Err(NotCarried::Resources),
        }
    }

    // Stands behind these first bytes. What a checkpoint says is nothing to the machine, so it counts one
    // of no bytes.
    fn go_over(&mut self, alloc: Global, begun: &NextFile) -> Result<(), NotCarried>
        requires begun { BeginsBehind self.old begun.now.bytes.items begun.now.last }
        requires none { self.old.pending.items ≡ [] }
        ensures over { OnOk result (KernelGoesOver self.old self.new begun.now.bytes.items) }
        ensures none { OnOk result (self.new.pending.items ≡ []) }
        ensures refused { IfErr result (λ why. why ≡ NotCarried.Spent) }
    {
        rq_model::runs_are_well_formed();
        let Some(bytes) = CheckBytes::new(Vec::new(alloc)) else {
            return Err(NotCarried::Spent);
        };
        let counted = KeptRecord::Checkpoint { bytes };
        match self.machine.take(alloc, self.version, &counted) {
            Ok(Taken::Done(_)) => {
                self.last = begun.last;
                self.len = begun.bytes.len();
                Ok(())
            }
            _ => Err(NotCarried::Spent),
        }
    }
}

impl<D: Device + Drop> Manager<D> {
    // Stands behind these first bytes on the device on which they stand.
    fn stand_over(&mut self, alloc: Global, device: D, begun: &NextFile) -> Result<(), NotCarried>
        requires window { KeepsWindow (stand_of D.written D.synced D.doubted D.failed self.old) }
        requires begun { BeginsBehind self.old.kernel begun.now.bytes.items begun.now.last }
        requires none { self.old.kernel.pending.items ≡ [] }
        requires bytes { AreStored (D.written device) begun.now.bytes.items }
        requires synced { IsAllSynced (D.written device) (D.synced device) }
        requires sure { D.doubted device ≡ false }
        requires works { D.failed device ≡ false }
        ensures window { KeepsWindow (stand_of D.written D.synced D.doubted D.failed self.new) }
        ensures none { OnOk result (self.new.kernel.pending.items ≡ []) }
        ensures over { OnOk result (StandsOver
            (stand_of D.written D.synced D.doubted D.failed self.old)
            (stand_of D.written D.synced D.doubted D.failed self.new)) }
        ensures refused { IfErr result (λ why. (why ≡ NotCarried.Spent) × (self.new.spent ≡ true)) }
        ensures keeps { IfErr result (λ why. self.new.device ≡ self.old.device) }
    {
        match self.kernel.go_over(alloc, begun) {
            Ok(()) => {
                self.device = device;
                Ok(())
            }
            Err(why) => {
                self.spent = true;
                Err(why)
            }
        }
    }

    // Has the other file made, and goes on there.
    fn go_on<S: Successor<D>>(
        &mut self,
        alloc: Global,
        begun: &NextFile,
        next: &mut S,
    ) -> Result<u64, NotCarried>
        requires window { KeepsWindow (stand_of D.written D.synced D.doubted D.failed self.old) }
        requires begun { BeginsBehind self.old.kernel begun.now.bytes.items begun.now.last }
        requires none { self.old.kernel.pending.items ≡ [] }
        ensures window { KeepsWindow (stand_of D.written D.synced D.doubted D.failed self.new) }
        ensures none { self.new.spent ≡ false → self.new.kernel.pending.items ≡ [] }
        ensures carried { IfOk result (GoesOver
            (stand_of D.written D.synced D.doubted D.failed self.old)
            (stand_of D.written D.synced D.doubted D.failed self.new)) }
        ensures refused { IfErr result (StaysSafe
            (stand_of D.written D.synced D.doubted D.failed self.old)
            (stand_of D.written D.synced D.doubted D.failed self.new)) }
        ensures keeps { IfErr result (λ why. self.new.device ≡ self.old.device) }
    {
        let records = self.kernel.machine.next();
        match next.put(records, &begun.bytes) {
            Ok(device) => {
                self.stand_over(alloc, device, begun)?;
                Ok(records)
            }
            Err(Unmade::Kept) => Err(NotCarried::Unmade),
            Err(Unmade::Lost) => {
                self.spent = true;
                Err(NotCarried::Spent)
            }
        }
    }

    // Goes on in another file, if all is settled.
    fn carry_settled<S: Successor<D>>(
        &mut self,
        alloc: Global,
        next: &mut S,
    ) -> Result<u64, NotCarried>
        requires window { KeepsWindow (stand_of D.written D.synced D.doubted D.failed self.old) }
        requires none { self.old.kernel.pending.items ≡ [] }
        ensures window { KeepsWindow (stand_of D.written D.synced D.doubted D.failed self.new) }
        ensures none { self.new.spent ≡ false → self.new.kernel.pending.items ≡ [] }
        ensures carried { IfOk result (GoesOver
            (stand_of D.written D.synced D.doubted D.failed self.old)
            (stand_of D.written D.synced D.doubted D.failed self.new)) }
        ensures refused { IfErr result (StaysSafe
            (stand_of D.written D.synced D.doubted D.failed self.old)
            (stand_of D.written D.synced D.doubted D.failed self.new)) }
        ensures keeps { IfErr result (λ why. self.new.device ≡ self.old.device) }
    {
        let begun = self.kernel.begun(alloc)?;
        self.go_on(alloc, &begun, next)
    }

    /// Settles all, and goes on in another file: it begins with a checkpoint of the state, behind the
    /// last 32 bytes of the log, and takes the log's place. Units that are open stay open, and all
    /// numbers go on. How many records were done before; the checkpoint is one more. It is never
    /// refused for want of room: the ends of all open units have room there.
    pub fn carry<S: Successor<D>>(&mut self, alloc: Global, next: &mut S) -> Result<u64, NotCarried>
        requires { IsInOrder (stand_of D.written D.synced D.doubted D.failed self.old) }
        ensures order { IsInOrder (stand_of D.written D.synced D.doubted D.failed self.new) }
        ensures spent { self.old.spent ≡ true
            → (self.new ≡ self.old) × (result ≡ Err NotCarried.Spent) }
        ensures carried { IfOk result (GoesOver
            (stand_of D.written D.synced D.doubted D.failed self.old)
            (stand_of D.written D.synced D.doubted D.failed self.new)) }
        ensures refused { IfErr result (StopsCarry
            (stand_of D.written D.synced D.doubted D.failed self.old)
            (stand_of D.written D.synced D.doubted D.failed self.new)) }
        ensures all { AllIsSafe (stand_of D.written D.synced D.doubted D.failed self.new) }
        ensures keeps { IfErr result (λ why. KeepsSafe
            (stand_of D.written D.synced D.doubted D.failed self.old)
            (stand_of D.written D.synced D.doubted D.failed self.new)) }
    {
        match self.settle_pending() {
            Ok(()) => self.carry_settled(alloc, next),
            Err(_) => Err(NotCarried::Spent),
        }
    }
}
