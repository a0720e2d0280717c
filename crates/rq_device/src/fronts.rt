//! The first bytes of what a crash left, made sure.

ghost use Rattle.std.specs.Prelude.{◌≡◌, ◌≤◌, ℕ, false, OnOk, IfErr, is_err};
ghost use Rattle.rq_record.specs.declared.fault.Fault.TheVariants.{WriteFailed};
ghost use Rattle.rq_device.specs.Devices.{AreUnsynced, HasLength, IsAllSynced, KeepsSynced};
ghost use Rattle.rq_device.specs.Devices.{cut_known};

use crate::device::Device;
use crate::windows::WINDOW;
use rq_record::Fault;

/// Cuts off what stands behind the first bytes, of so many, and makes these survive a crash. It
/// writes the last 1,048,576 of them again: the process that wrote them may have been killed before
/// a sync, or after one that failed. Refused with `WriteFailed` alone.
pub fn keep_front<D: Device>(device: &mut D, used: usize, stands: usize) -> Result<(), Fault>
    requires works { D.failed device.old ≡ false }
    requires within { used ≤ stands }
    requires stands { HasLength stands (D.written device.old) }
    requires window { AreUnsynced 1048576 (D.written device.old) (D.synced device.old) }
    ensures bytes { OnOk result (D.written device.new ≡ cut_known used (D.written device.old)) }
    ensures synced { OnOk result (IsAllSynced (D.written device.new) (D.synced device.new)) }
    ensures sure { OnOk result (D.doubted device.new ≡ false) }
    ensures window { AreUnsynced 1048576 (D.written device.new) (D.synced device.new) }
    ensures keeps { (n : ℕ) → n ≤ used → n ≤ D.synced device.old
        → KeepsSynced (D.written device.old) n (D.written device.new) (D.synced device.new) }
    ensures fails { D.failed device.new ≡ is_err result }
    ensures refused { IfErr result (λ e. e ≡ WriteFailed) }
{
    let from = used.saturating_sub(WINDOW);
    if used == stands {
        return device.rewrite(from);
    }
    device.cut(used)?;
    device.rewrite(from)
}
