//! The log of a script.

ghost use Rattle.std.specs.Prelude.{◌≡◌, ℕ, ◌<◌, ◌≤◌, List, Some, length};
ghost use Rattle.rq_record.specs.Views.{version_of};
ghost use Rattle.rq_tool.specs.Streams.{PutsText, ReadFaults, TakesInput, WriteFaults};
ghost use Rattle.rq_tool.specs.Works.{HasNoLog, IsLogOf, Makes};

use crate::input::read_script;
use rq_report::{Input, Output, write_all};
use rq_restart::{Fault, Plan, Version};
use rq_writer::make_in;
use std::alloc::Global;
use std::marker::Sync;
use std::thread::Threads;

// Writes the log of a script, in a version.
fn put_log<R: Threads + Sync, O: Output>(
    rt: &R,
    alloc: Global,
    version: Version,
    script: Vec<u8>,
    output: &mut O,
) -> Result<(), Fault>
    requires faults { O.faults output.old < 18446744073709551615 }
    requires short { length script.items ≤ 4294967295 }
    ensures { PutsText (IsLogOf (version_of version) script.items)
        (HasNoLog (version_of version) script.items) (O.faults output.old) (O.faults output.new)
        (O.contents output.old) (O.contents output.new) result }
{
    let Some(alone) = Plan::new(1, 1000) else {
        unreachable!();
    };
    let log = make_in(rt, alloc, version, &script, &alone)?;
    write_all(output, &log)
}

/// Reads a script to its end, but at most 4,294,967,296 bytes, makes its log in a version, with one
/// worker, and writes it.
///
/// Nothing else is written. Refuses with `TooLong` a script or a log of more than 4,294,967,295
/// bytes, with `Script` and the number of the earliest line that is none, with `TooLarge` where the
/// state of a `checkpoint` is too large to be spelled, and with `ReadFailed` or `Resources`, and
/// then writes nothing; with `WriteFailed`, and then has written a beginning of the log.
pub fn make_log_in<R: Threads + Sync, I: Input, O: Output>(
    rt: &R,
    alloc: Global,
    version: Version,
    input: &mut I,
    output: &mut O,
) -> Result<(), Fault>
    requires reads { I.faults input.old < 18446744073709551615 }
    requires writes { O.faults output.old < 18446744073709551615 }
    ensures makes { (b : List ℕ) → I.remaining input.old ≡ Some b
        → Makes (version_of version) b (O.contents output.old) (O.contents output.new) result }
    ensures quiet { (b : List ℕ)
        × Makes (version_of version) b (O.contents output.old) (O.contents output.new) result }
    ensures takes { TakesInput (I.remaining input.old) (I.remaining input.new) result }
    ensures read_faults { ReadFaults (I.faults input.old) (I.faults input.new) result }
    ensures write_faults { WriteFaults (O.faults output.old) (O.faults output.new) result }
{
    let script = read_script(alloc, input)?;
    put_log(rt, alloc, version, script, output)
}
