//! A registrant as the key of a map.

ghost use Rattle.std.specs.Prelude.{◌≡◌, IfOk, IfErr};
ghost use Rattle.rq_record.specs.declared.fault.Fault.TheVariants.{Resources};

use rq_record::{Fault, KeptName, Name};
use std::alloc::Global;

/// The queue and name of a registrant, the name in 16 bytes; a `Name` takes 65. The maps of a queue
/// may have many keys, and a map whose keys come in order has room for about twice as many as it
/// holds. Refused only with `Resources`.
pub(crate) fn slim(alloc: Global, key: (u32, Name)) -> Result<(u32, KeptName), Fault>
    ensures key { IfOk result (λ k. k ≡ key) }
    ensures refused { IfErr result (λ e. e ≡ Resources) }
{
    let name = KeptName::of(alloc, &key.1)?;
    Ok((key.0, name))
}
