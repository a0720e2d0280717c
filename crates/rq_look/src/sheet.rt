//! Text on its way to an output, many lines at a time.

ghost use Rattle.std.specs.Prelude.{◌≡◌, ◌<◌, ◌++◌, ℕ, List, [], IfErr, OnOk, string_bytes};
ghost use Rattle.std.specs.Io.KnownBytes.{Appends};
ghost use Rattle.rq_record.specs.declared.fault.Fault.TheVariants.{WriteFailed};
ghost use Rattle.rq_found.specs.Refusals.{CountsFaults};
ghost use Rattle.rq_found.specs.declared.trouble.Trouble.TheVariants.{Log};

use rq_found::{Output, Trouble, write_bytes};

// As many bytes are gathered before they are written.
const ROOM: usize = 65_536;

/// Writes the text, which is then empty.
pub(crate) fn write_out<W: Output>(text: &mut String, output: &mut W) -> Result<(), Trouble>
    requires faults { W.faults output.old < 18446744073709551615 }
    ensures faults { CountsFaults (W.faults output.old) (W.faults output.new) result }
    ensures written { OnOk result
        (Appends (W.contents output.old) (W.contents output.new) (string_bytes text.old)
        × (string_bytes text.new ≡ [])) }
    ensures failed { IfErr result (λ e. e ≡ Log WriteFailed) }
{
    write_bytes(output, text.as_bytes())?;
    text.clear();
    Ok(())
}

/// Writes the text where there is much of it: all of it, or nothing.
pub(crate) fn relieve<W: Output>(text: &mut String, output: &mut W) -> Result<(), Trouble>
    requires faults { W.faults output.old < 18446744073709551615 }
    ensures faults { CountsFaults (W.faults output.old) (W.faults output.new) result }
    ensures written { OnOk result ((put : List ℕ)
        × Appends (W.contents output.old) (W.contents output.new) put
        × (string_bytes text.old ≡ put ++ string_bytes text.new)) }
    ensures nothing { string_bytes text.old ≡ []
        → (W.contents output.new ≡ W.contents output.old) × (string_bytes text.new ≡ []) }
    ensures failed { IfErr result (λ e. e ≡ Log WriteFailed) }
{
    if text.len() < ROOM {
        return Ok(());
    }
    write_out(text, output)
}
