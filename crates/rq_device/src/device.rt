//! What a log is kept on.

ghost use Rattle.std.specs.Prelude.{◌≡◌, ℕ, ◌<◌, ◌≤◌, List, Option, None, Bool, false, take};
ghost use Rattle.std.specs.Prelude.{length};
ghost use Rattle.std.specs.Prelude.{IfOk, IfErr, OnOk, is_err};
ghost use Rattle.std.specs.Io.KnownBytes.{append_known};
ghost use Rattle.rq_record.specs.declared.fault.Fault.TheVariants.{WriteFailed};
ghost use Rattle.rq_device.specs.Devices.{AreSynced, AreUnsynced, IsAllSynced, IsLonger};
ghost use Rattle.rq_device.specs.Devices.{KeepsSynced, cut_known};

use rq_record::Fault;

/// Where a log is kept. Bytes are written behind those that stand there. A crash leaves those that
/// were synced; whatever stands behind them then may be anything.
///
/// Once a call failed, nothing is known but that what was synced stays, so none is called again.
pub trait Device {
    // All bytes that stand there, if they are known.
    ghost written: { Self → Option (List ℕ) } = { λ _. None };

    // So many of them survive a crash.
    ghost synced: { Self → ℕ } = { λ _. 0 };

    // Bytes that somebody else wrote stand there, and a sync need not reach them: if one failed
    // before, the system may take them for synced.
    ghost doubted: { Self → Bool } = { λ _. false };

    // A call failed.
    ghost failed: { Self → Bool };

    /// Writes bytes from the front of the piece, and answers how many: at least one of a piece that
    /// is not empty. Refused with `WriteFailed` alone.
    fn write(&mut self, piece: &[u8]) -> Result<usize, Fault>
        requires { failed self.old ≡ false }
        ensures bound { IfOk result (λ n. n ≤ length piece.now) }
        ensures some { IfOk result (λ n. 0 < length piece.now → 0 < n) }
        ensures bytes { IfOk result
            (λ n. written self.new ≡ append_known (written self.old) (take n piece.now)) }
        ensures longer { IsLonger (length piece.now) (written self.old) (written self.new) }
        ensures counts { synced self.old ≤ synced self.new }
        ensures keeps { KeepsSynced (written self.old) (synced self.old)
            (written self.new) (synced self.new) }
        ensures doubts { doubted self.new ≡ doubted self.old }
        ensures fails { failed self.new ≡ is_err result }
        ensures refused { IfErr result (λ e. e ≡ WriteFailed) };

    /// Shows the bytes that are to be written next, behind those that stand there, to who reads the
    /// log meanwhile, or after this process was killed. They are not written by that: a crash of the
    /// host may leave any of them. A device that nobody else reads need not. Refused with
    /// `WriteFailed` alone.
    fn preview(&mut self, next: &[u8]) -> Result<(), Fault>
        requires { failed self.old ≡ false }
        ensures bytes { written self.new ≡ written self.old }
        ensures synced { synced self.new ≡ synced self.old }
        ensures doubts { doubted self.new ≡ doubted self.old }
        ensures fails { failed self.new ≡ is_err result }
        ensures refused { IfErr result (λ e. e ≡ WriteFailed) }
    {
        let _ = next;
        Ok(())
    }

    /// Makes all that was written survive a crash, if no bytes are doubted. Refused with
    /// `WriteFailed` alone.
    fn sync(&mut self) -> Result<(), Fault>
        requires { failed self.old ≡ false }
        ensures same { OnOk result (written self.new ≡ written self.old) }
        ensures synced { OnOk result (doubted self.old ≡ false
            → IsAllSynced (written self.new) (synced self.new)) }
        ensures longer { IsLonger 0 (written self.old) (written self.new) }
        ensures counts { synced self.old ≤ synced self.new }
        ensures keeps { KeepsSynced (written self.old) (synced self.old)
            (written self.new) (synced self.new) }
        ensures doubts { doubted self.new ≡ doubted self.old }
        ensures fails { failed self.new ≡ is_err result }
        ensures refused { IfErr result (λ e. e ≡ WriteFailed) };

    /// Writes the bytes from an offset on once more, in their place, and syncs. If those before it
    /// survive a crash, all do then, and none is doubted. Refused with `WriteFailed` alone.
    fn rewrite(&mut self, from: usize) -> Result<(), Fault>
        requires { failed self.old ≡ false }
        ensures same { OnOk result (written self.new ≡ written self.old) }
        ensures synced { OnOk result (AreSynced from (written self.old) (synced self.old)
            → IsAllSynced (written self.new) (synced self.new)) }
        ensures trusted { OnOk result (AreSynced from (written self.old) (synced self.old)
            → doubted self.new ≡ false) }
        ensures longer { IsLonger 0 (written self.old) (written self.new) }
        ensures counts { synced self.old ≤ synced self.new }
        ensures keeps { KeepsSynced (written self.old) (synced self.old)
            (written self.new) (synced self.new) }
        ensures fails { failed self.new ≡ is_err result }
        ensures refused { IfErr result (λ e. e ≡ WriteFailed) };

    /// Takes away all bytes from an offset on. Those before it survive a crash if they did. Refused
    /// with `WriteFailed` alone.
    fn cut(&mut self, len: usize) -> Result<(), Fault>
        requires { failed self.old ≡ false }
        ensures cut { OnOk result (written self.new ≡ cut_known len (written self.old)) }
        ensures unsynced { (most : ℕ) → AreUnsynced most (written self.old) (synced self.old)
            → AreUnsynced most (written self.new) (synced self.new) }
        ensures counts { (n : ℕ) → n ≤ len → n ≤ synced self.old → n ≤ synced self.new }
        ensures keeps { (n : ℕ) → n ≤ len → n ≤ synced self.old
            → KeepsSynced (written self.old) n (written self.new) (synced self.new) }
        ensures doubts { doubted self.new ≡ doubted self.old }
        ensures fails { failed self.new ≡ is_err result }
        ensures refused { IfErr result (λ e. e ≡ WriteFailed) };
}
