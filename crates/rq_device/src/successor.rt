//! What stands for a device when the log on it goes on in another file.

ghost use Rattle.std.specs.Prelude.{◌≡◌, false, length, IfOk};
ghost use Rattle.rq_device.specs.Devices.{AreStored, IsAllSynced};

use crate::device::Device;

/// Why no device was made on which a log goes on.
#[derive(Clone, Copy, PartialEq, Eq, Debug)]
pub enum Unmade {
    /// Nothing was changed: the log goes on where it is.
    Kept,
    /// The log may have lost its place, or it is not known what became of it.
    Lost,
}

/// Makes the device on which a log goes on.
pub trait Successor<D: Device> {
    /// The device on which these bytes stand, and no others: they survive a crash. From then on the
    /// log is here, and the device on which it was before is let go. `records` tells how many
    /// records were done there. A crash meanwhile leaves the log in its place, or these bytes.
    ///
    /// Refused with `Kept` the log stays where it was; with `Lost` it is not known what became of it.
    fn put(&mut self, records: u64, first: &[u8]) -> Result<D, Unmade>
        ensures bytes { IfOk result (λ d. AreStored (D.written d) first.now) }
        ensures synced { IfOk result (λ d. IsAllSynced (D.written d) (D.synced d)) }
        ensures sure { IfOk result (λ d. D.doubted d ≡ false) }
        ensures works { IfOk result (λ d. D.failed d ≡ false) };
}
