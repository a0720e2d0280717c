//! All of some bytes, written and synced in pieces.

ghost use Rattle.std.specs.Prelude.{◌≡◌, ◌≤◌, false, length, OnOk, IfErr, is_err};
ghost use Rattle.std.specs.Io.KnownBytes.{append_known};
ghost use Rattle.rq_record.specs.declared.fault.Fault.TheVariants.{WriteFailed};
ghost use Rattle.rq_device.specs.Devices.{AreUnsynced, IsAllSynced, IsLonger, KeepsSynced};

use crate::device::Device;
use rq_record::Fault;

/// At most so many bytes are ever written that are not yet synced.
pub const WINDOW: usize = 1_048_576;

// Writes all of the bytes, however few a call takes.
fn write_fully<D: Device>(device: &mut D, bytes: &[u8]) -> Result<(), Fault>
    requires { D.failed device.old ≡ false }
    ensures bytes { OnOk result (D.written device.new
        ≡ append_known (D.written device.old) bytes.now) }
    ensures longer { IsLonger (length bytes.now) (D.written device.old) (D.written device.new) }
    ensures counts { D.synced device.old ≤ D.synced device.new }
    ensures keeps { KeepsSynced (D.written device.old) (D.synced device.old)
        (D.written device.new) (D.synced device.new) }
    ensures doubts { D.doubted device.new ≡ D.doubted device.old }
    ensures fails { D.failed device.new ≡ is_err result }
    ensures refused { IfErr result (λ e. e ≡ WriteFailed) }
{
    let mut rest = bytes;
    while !rest.is_empty() {
        let count = device.write(rest)?;
        rest = rest.split_at(count).1;
    }
    Ok(())
}

// Writes all of the bytes of one piece, and syncs.
fn settle_piece<D: Device>(device: &mut D, piece: &[u8]) -> Result<(), Fault>
    requires works { D.failed device.old ≡ false }
    requires sure { D.doubted device.old ≡ false }
    requires all { IsAllSynced (D.written device.old) (D.synced device.old) }
    requires few { length piece.now ≤ 1048576 }
    ensures bytes { OnOk result (D.written device.new
        ≡ append_known (D.written device.old) piece.now) }
    ensures synced { OnOk result (IsAllSynced (D.written device.new) (D.synced device.new)) }
    ensures window { AreUnsynced 1048576 (D.written device.new) (D.synced device.new) }
    ensures keeps { KeepsSynced (D.written device.old) (D.synced device.old)
        (D.written device.new) (D.synced device.new) }
    ensures doubts { D.doubted device.new ≡ D.doubted device.old }
    ensures fails { D.failed device.new ≡ is_err result }
    ensures refused { IfErr result (λ e. e ≡ WriteFailed) }
{
    write_fully(device, piece)?;
    device.sync()?;
    Ok(())
}

/// Writes all of the bytes, and syncs them, in pieces: at most 1,048,576 bytes are ever written
/// that are not synced, also if it is refused. Refused with `WriteFailed` alone.
pub fn settle<D: Device>(device: &mut D, bytes: &[u8]) -> Result<(), Fault>
    requires works { D.failed device.old ≡ false }
    requires sure { D.doubted device.old ≡ false }
    requires all { IsAllSynced (D.written device.old) (D.synced device.old) }
    ensures bytes { OnOk result (D.written device.new
        ≡ append_known (D.written device.old) bytes.now) }
    ensures synced { OnOk result (IsAllSynced (D.written device.new) (D.synced device.new)) }
    ensures window { AreUnsynced 1048576 (D.written device.new) (D.synced device.new) }
    ensures keeps { KeepsSynced (D.written device.old) (D.synced device.old)
        (D.written device.new) (D.synced device.new) }
    ensures doubts { D.doubted device.new ≡ D.doubted device.old }
    ensures fails { D.failed device.new ≡ is_err result }
    ensures refused { IfErr result (λ e. e ≡ WriteFailed) }
{
    let mut rest = bytes;
    while !rest.is_empty() {
        let (piece, more) = rest.split_at(rest.len().min(WINDOW));
        settle_piece(device, piece)?;
        rest = more;
    }
    Ok(())
}
