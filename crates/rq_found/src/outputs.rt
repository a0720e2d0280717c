//! Writing what is shown to an output that counts its faults.

ghost use Rattle.std.specs.Prelude.{◌≡◌, ◌<◌, IfErr, OnOk};
ghost use Rattle.std.specs.Io.KnownBytes.{Appends};
ghost use Rattle.rq_record.specs.declared.fault.Fault.TheVariants.{WriteFailed};
ghost use Rattle.rq_found.specs.Refusals.{CountsFaults};
ghost use Rattle.rq_found.specs.declared.trouble.Trouble.TheVariants.{Log};

use crate::trouble::Trouble;
use rq_report::{Output, write_all};

/// Writes all of the text. With `WriteFailed`, and it fails with nothing else, a beginning of it is
/// written.
pub fn write_bytes<W: Output>(output: &mut W, text: &[u8]) -> Result<(), Trouble>
    requires faults { W.faults output.old < 18446744073709551615 }
    ensures faults { CountsFaults (W.faults output.old) (W.faults output.new) result }
    ensures written { OnOk result
        (Appends (W.contents output.old) (W.contents output.new) text.now) }
    ensures failed { IfErr result (λ e. e ≡ Log WriteFailed) }
{
    write_all(output, text)?;
    Ok(())
}
