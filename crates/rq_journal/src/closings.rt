//! A carried file is closed: its front, and behind that what was gathered.

ghost use Rattle.std.specs.Prelude.{◌≡◌, ℕ, List, IfErr, IfOk};
ghost use Rattle.rq_model.specs.Records.{Record};
ghost use Rattle.rq_record.specs.declared.fault.Fault.TheVariants.{Resources};
ghost use Rattle.rq_journal.specs.Growths.{IsGrownFrom};
ghost use Rattle.rq_journal.specs.Closings.{IsClosedFrom, IsFileOf, with_frames};

use crate::growths::Growth;
use rq_front::write_as_carried;
use rq_record::Fault;

impl Growth {
    /// The carried file with the frames behind its front: what stood there is dropped. The bytes are those
    /// of the file behind whose front this stands, as they were read (`read_as_log`); they get the file's
    /// own header again.
    ///
    /// `Resources` is returned if memory is refused.
    pub fn closed_carried(&self, bytes: Vec<u8>) -> Result<Vec<u8>, Fault>
        ensures file { IfOk result (λ made. IsFileOf (with_frames bytes.items self.now) made.items) }
        ensures from { (offset : ℕ) (xs : List Record) → IsGrownFrom bytes.items offset xs self.now
            → IsClosedFrom bytes.items offset xs (with_frames bytes.items self.now) }
        ensures refused { IfErr result (λ e. e ≡ Resources) }
    {
        rq_model::versions();
        let mut made = bytes;
        made.truncate(self.end.used);
        made.extend_from_slice(&self.frames)?;
        write_as_carried(&mut made);
        Ok(made)
    }
}
