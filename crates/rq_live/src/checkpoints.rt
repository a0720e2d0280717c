//! A checkpoint of the state in which a manager stands.

ghost use Rattle.std.specs.Prelude.{◌≡◌, Err, true, false, IfOk, IfErr};
ghost use Rattle.rq_live.specs.Managers.{IsInOrder, KeepsWindow, stand_of, MarksState, MarksSafely};
ghost use Rattle.rq_live.specs.Managers.{KeepsSafe, StopsMark};

use crate::kernel::NotDone;
use crate::manager::Manager;
use rq_device::Device;
use std::alloc::Global;

impl<D: Device + Drop> Manager<D> {
    // Adds a checkpoint of the state, pending. Its offset.
    fn marked(&mut self, alloc: Global) -> Result<usize, NotDone>
        requires { KeepsWindow (stand_of D.written D.synced D.doubted D.failed self.old) }
        ensures window { KeepsWindow (stand_of D.written D.synced D.doubted D.failed self.new) }
        ensures spent { self.old.spent ≡ true
            → (self.new ≡ self.old) × (result ≡ Err NotDone.Spent) }
        ensures marked { IfOk result (MarksState
            (stand_of D.written D.synced D.doubted D.failed self.old)
            (stand_of D.written D.synced D.doubted D.failed self.new)) }
        ensures refused { IfErr result (StopsMark
            (stand_of D.written D.synced D.doubted D.failed self.old)
            (stand_of D.written D.synced D.doubted D.failed self.new)) }
        ensures few { IfErr result (λ why. self.new.spent ≡ false
            → (self.old.spent ≡ false) × (self.new.kernel.pending ≡ self.old.kernel.pending)) }
        ensures keeps { KeepsSafe (stand_of D.written D.synced D.doubted D.failed self.old)
            (stand_of D.written D.synced D.doubted D.failed self.new) }
    {
        if self.spent {
            return Err(NotDone::Spent);
        }
        let offset = self.kernel.len;
        match self.kernel.mark(alloc) {
            Ok(()) => Ok(offset),
            Err(NotDone::Full) => Err(NotDone::Full),
            Err(NotDone::Large) => Err(NotDone::Large),
            Err(NotDone::Ended) => Err(NotDone::Ended),
            Err(_) => {
                self.spent = true;
                Err(NotDone::Spent)
            }
        }
    }

    /// Takes a checkpoint of the state, behind which the log stands, and settles all. Its offset.
    pub fn checkpoint(&mut self, alloc: Global) -> Result<usize, NotDone>
        requires { IsInOrder (stand_of D.written D.synced D.doubted D.failed self.old) }
        ensures order { IsInOrder (stand_of D.written D.synced D.doubted D.failed self.new) }
        ensures spent { self.old.spent ≡ true
            → (self.new ≡ self.old) × (result ≡ Err NotDone.Spent) }
        ensures marked { IfOk result (MarksSafely
            (stand_of D.written D.synced D.doubted D.failed self.old)
            (stand_of D.written D.synced D.doubted D.failed self.new)) }
        ensures refused { IfErr result (StopsMark
            (stand_of D.written D.synced D.doubted D.failed self.old)
            (stand_of D.written D.synced D.doubted D.failed self.new)) }
        ensures keeps { KeepsSafe (stand_of D.written D.synced D.doubted D.failed self.old)
            (stand_of D.written D.synced D.doubted D.failed self.new) }
    {
        rq_model::one_front();
        rq_model::appended_logs();
        rq_model::appended_checkpoints();
        rq_model::frames_are_right();
        rq_model::continued_logs();
        let offset = self.marked(alloc)?;
        self.settle_pending()?;
        Ok(offset)
    }
}
