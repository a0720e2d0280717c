//! A manager that goes on from what a crash left.

ghost use Rattle.std.specs.Prelude.{◌≡◌, ◌≤◌, ◌⊎◌, ℕ, true, false, OnOk, IfErr};
ghost use Rattle.rq_device.specs.Devices.{AreUnsynced, HasLength, KeepsSynced, cut_known};
ghost use Rattle.rq_live.specs.Kernels.{StandsWithin};
ghost use Rattle.rq_live.specs.Managers.{IsInOrder, KeepsWindow, Serves, stand_of, AbortsAll};
ghost use Rattle.rq_live.specs.Managers.{KeepsSafe, Resumes, Secures, StopsResume};

use crate::kernel::NotDone;
use crate::manager::Manager;
use rq_device::{Device, WINDOW, keep_front};
use std::alloc::Global;

impl<D: Device + Drop> Manager<D> {
    // Cuts off what stands on the device behind so many bytes, and makes these survive a crash.
    fn keep_first(&mut self, used: usize, stands: usize) -> Result<(), NotDone>
        requires unspent { self.old.spent ≡ false }
        requires works { D.failed self.old.device ≡ false }
        requires within { used ≤ stands }
        requires stands { HasLength stands (D.written self.old.device) }
        requires window { AreUnsynced 1048576 (D.written self.old.device)
            (D.synced self.old.device) }
        ensures window { KeepsWindow (stand_of D.written D.synced D.doubted D.failed self.new) }
        ensures kernel { self.new.kernel ≡ self.old.kernel }
        ensures unspent { OnOk result (self.new.spent ≡ false) }
        ensures serves { OnOk result (Serves
            (stand_of D.written D.synced D.doubted D.failed self.new)) }
        ensures bytes { OnOk result (D.written self.new.device
            ≡ cut_known used (D.written self.old.device)) }
        ensures refused { IfErr result (λ why. (why ≡ NotDone.Spent) × (self.new.spent ≡ true)) }
        ensures fault { IfErr result (λ why. D.failed self.new.device ≡ true) }
        ensures keeps { (n : ℕ) → n ≤ used → n ≤ D.synced self.old.device
            → KeepsSynced (D.written self.old.device) n (D.written self.new.device)
            (D.synced self.new.device) }
    {
        match keep_front(&mut self.device, used, stands) {
            Ok(()) => Ok(()),
            Err(_) => {
                self.spent = true;
                Err(NotDone::Spent)
            }
        }
    }

    /// Goes on from what a crash left, of which so many bytes stand there, and behind the front of
    /// which its kernel stands: cuts off what stands behind that, and makes the front survive a
    /// crash. Units that are open there stay open. What was synced of the front stays meanwhile,
    /// whatever a crash leaves then.
    ///
    /// Refused with `Full` if there is no room for the ends of the open units: then nothing was
    /// changed. It is spent if it is refused.
    pub fn secure(&mut self, stands: usize) -> Result<(), NotDone>
        requires unspent { self.old.spent ≡ false }
        requires works { D.failed self.old.device ≡ false }
        requires within { StandsWithin self.old.kernel stands }
        requires stands { HasLength stands (D.written self.old.device) }
        requires window { AreUnsynced 1048576 (D.written self.old.device)
            (D.synced self.old.device) }
        ensures order { IsInOrder (stand_of D.written D.synced D.doubted D.failed self.new) }
        ensures secured { OnOk result (Secures
            (stand_of D.written D.synced D.doubted D.failed self.old)
            (stand_of D.written D.synced D.doubted D.failed self.new)) }
        ensures refused { IfErr result (StopsResume
            (stand_of D.written D.synced D.doubted D.failed self.old)
            (stand_of D.written D.synced D.doubted D.failed self.new)) }
        ensures keeps { (n : ℕ) → n ≤ self.old.kernel.len → n ≤ D.synced self.old.device
            → KeepsSynced (D.written self.old.device) n (D.written self.new.device)
            (D.synced self.new.device) }
    {
        let used = self.kernel.len;
        if !self.kernel.has_room_for_ends() {
            self.spent = true;
            return Err(NotDone::Full);
        }
        self.keep_first(used, stands)
    }

    /// Aborts all units that are open, rising. It is spent if it is refused.
    pub fn abort_open(&mut self, alloc: Global) -> Result<(), NotDone>
        requires { IsInOrder (stand_of D.written D.synced D.doubted D.failed self.old) }
        ensures order { IsInOrder (stand_of D.written D.synced D.doubted D.failed self.new) }
        ensures done { OnOk result (AbortsAll
            (stand_of D.written D.synced D.doubted D.failed self.old)
            (stand_of D.written D.synced D.doubted D.failed self.new)) }
        ensures refused { IfErr result (λ why. (why ≡ NotDone.Spent) × (self.new.spent ≡ true)) }
        ensures keeps { KeepsSafe (stand_of D.written D.synced D.doubted D.failed self.old)
            (stand_of D.written D.synced D.doubted D.failed self.new) }
    {
        if self.spent {
            return Err(NotDone::Spent);
        }
        let Ok(()) = self.kernel.abort_open(alloc) else {
            self.spent = true;
            return Err(NotDone::Spent);
        };
        if self.kernel.pending.len() <= WINDOW {
            return Ok(());
        }
        self.settle_pending()
    }

    /// Goes on as `secure` does, aborts the units that are open there, and settles: so a server
    /// begins. If memory is refused, the device was not called.
    pub fn resume(&mut self, alloc: Global, stands: usize) -> Result<(), NotDone>
        requires unspent { self.old.spent ≡ false }
        requires works { D.failed self.old.device ≡ false }
        requires within { StandsWithin self.old.kernel stands }
        requires stands { HasLength stands (D.written self.old.device) }
        requires window { AreUnsynced 1048576 (D.written self.old.device)
            (D.synced self.old.device) }
        ensures order { IsInOrder (stand_of D.written D.synced D.doubted D.failed self.new) }
        ensures resumed { OnOk result (Resumes
            (stand_of D.written D.synced D.doubted D.failed self.old)
            (stand_of D.written D.synced D.doubted D.failed self.new)) }
        ensures refused { IfErr result (StopsResume
            (stand_of D.written D.synced D.doubted D.failed self.old)
            (stand_of D.written D.synced D.doubted D.failed self.new)) }
        ensures fault { IfErr result (λ why. (self.new.device ≡ self.old.device)
            ⊎ (D.failed self.new.device ≡ true)) }
        ensures keeps { (n : ℕ) → n ≤ self.old.kernel.len → n ≤ D.synced self.old.device
            → KeepsSynced (D.written self.old.device) n (D.written self.new.device)
            (D.synced self.new.device) }
    {
        let used = self.kernel.len;
        if !self.kernel.has_room_for_ends() {
            self.spent = true;
            return Err(NotDone::Full);
        }
        let Ok(()) = self.kernel.abort_open(alloc) else {
            self.spent = true;
            return Err(NotDone::Spent);
        };
        match self.keep_first(used, stands) {
            Ok(()) => self.settle_pending(),
            Err(why) => Err(why),
        }
    }
}
