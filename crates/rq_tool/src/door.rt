//! From a log that a reader gives to what is written of it.

ghost use Rattle.std.specs.Prelude.{◌≡◌, ℕ, ◌<◌, List, Some};
ghost use Rattle.rq_model.specs.Checkpoints.{TrueAt};
ghost use Rattle.rq_tool.specs.Headline.{AccountsForFiles, AccountsForFront, Runs, RunsAt, WritesOnly};
ghost use Rattle.rq_tool.specs.Headline.{WritesReport};
ghost use Rattle.rq_tool.specs.Streams.{PutsText, ReadFaults, TakesInput, WriteFaults, Writes};
ghost use Rattle.rq_tool.specs.Works.{IsTextOf, IsWhyNot};

use crate::input::read_log;
use crate::works::{
    Work, audited_lines, closed_log, put_carried_report, put_report, put_report_at, upgraded_log,
};
use rq_report::{Input, Output, write_all};
use rq_restart::{Fault, Gate, Plan};
use std::alloc::Global;
use std::marker::Sync;
use std::thread::Threads;

// Writes what is made of the bytes. All of it is made before any is written.
fn put<R: Threads + Sync, O: Output, G: Gate + Sync>(
    rt: &R,
    alloc: Global,
    bytes: Vec<u8>,
    output: &mut O,
    work: Work,
    plan: &Plan,
    gate: &G,
) -> Result<(), Fault>
    requires { O.faults output.old < 18446744073709551615 }
    ensures { PutsText (IsTextOf work bytes.items) (IsWhyNot work bytes.items)
        (O.faults output.old) (O.faults output.new)
        (O.contents output.old) (O.contents output.new) result }
{
    match work {
        Work::Report => put_report(rt, alloc, bytes, output, plan, gate),
        Work::ReportAt(offset) => put_report_at(rt, alloc, bytes, offset, output, plan, gate),
        Work::CarriedReport(offset) => {
            put_carried_report(rt, alloc, bytes, offset, output, plan, gate)
        }
        Work::Audit => {
            let text = audited_lines(rt, alloc, bytes, plan)?;
            write_all(output, text.as_bytes())
        }
        Work::Close => {
            let closed = closed_log(rt, alloc, bytes, plan)?;
            write_all(output, &closed)
        }
        Work::Upgrade => {
            let upgraded = upgraded_log(rt, alloc, &bytes, plan)?;
            write_all(output, &upgraded)
        }
    }
}

/// Reads the input to its end, but at most 4,294,967,296 bytes, and writes what is made of it.
///
/// Nothing else is written. If there is no such text, the answer is why, and nothing is written;
/// with `WriteFailed` a beginning of the text is written.
pub fn through<R: Threads + Sync, I: Input, O: Output, G: Gate + Sync>(
    rt: &R,
    alloc: Global,
    input: &mut I,
    output: &mut O,
    work: Work,
    plan: &Plan,
    gate: &G,
) -> Result<(), Fault>
    requires reads { I.faults input.old < 18446744073709551615 }
    requires writes { O.faults output.old < 18446744073709551615 }
    ensures writes { (b : List ℕ) → I.remaining input.old ≡ Some b
        → Writes (IsTextOf work b) (IsWhyNot work b)
        (O.contents output.old) (O.contents output.new) result }
    ensures quiet { (b : List ℕ) × Writes (IsTextOf work b) (IsWhyNot work b)
        (O.contents output.old) (O.contents output.new) result }
    ensures takes { TakesInput (I.remaining input.old) (I.remaining input.new) result }
    ensures read_faults { ReadFaults (I.faults input.old) (I.faults input.new) result }
    ensures write_faults { WriteFaults (O.faults output.old) (O.faults output.new) result }
{
    let bytes = read_log(alloc, input)?;
    put(rt, alloc, bytes, output, work, plan, gate)
}

/// Reads the input to its end, but at most 4,294,967,296 bytes, restarts, and writes the report. It
/// accounts for each request and client of the log's front.
///
/// Nothing else is written. Refuses with `ReadFailed`, `TooLong`, `NotALog` or `Resources`, and
/// then writes nothing, and with `WriteFailed`, and then has written a beginning of the report.
pub fn run<R: Threads + Sync, I: Input, O: Output, G: Gate + Sync>(
    rt: &R,
    alloc: Global,
    input: &mut I,
    output: &mut O,
    plan: &Plan,
    gate: &G,
) -> Result<(), Fault>
    requires reads { I.faults input.old < 18446744073709551615 }
    requires writes { O.faults output.old < 18446744073709551615 }
    ensures runs { (b : List ℕ) → I.remaining input.old ≡ Some b
        → Runs b (O.contents output.old) (O.contents output.new) result }
    ensures accounts { (b : List ℕ) → I.remaining input.old ≡ Some b
        → AccountsForFront b (O.contents output.old) (O.contents output.new) result }
    ensures quiet { WritesOnly (O.contents output.old) (O.contents output.new) result }
    ensures takes { TakesInput (I.remaining input.old) (I.remaining input.new) result }
    ensures read_faults { ReadFaults (I.faults input.old) (I.faults input.new) result }
    ensures write_faults { WriteFaults (O.faults output.old) (O.faults output.new) result }
{
    rq_model::reports_account();
    rq_model::reports_tell_clients();
    through(rt, alloc, input, output, Work::Report, plan, gate)
}

/// Reads the input to its end, but at most 4,294,967,296 bytes, restarts from the checkpoint at an
/// offset, and writes the report. From a true checkpoint it is the report of the log, and only
/// memory, the reader or the writer refuse it. If the log carries on others, from the checkpoint
/// that it begins with the report accounts for each request and client of all these logs.
///
/// Nothing else is written. Refuses with `NoCheckpoint` where no checkpoint begins at the offset,
/// with `BadCheckpoint` where it spells no well-formed state, and else as `run` does.
pub fn run_at<R: Threads + Sync, I: Input, O: Output, G: Gate + Sync>(
    rt: &R,
    alloc: Global,
    input: &mut I,
    output: &mut O,
    offset: u64,
    plan: &Plan,
    gate: &G,
) -> Result<(), Fault>
    requires reads { I.faults input.old < 18446744073709551615 }
    requires writes { O.faults output.old < 18446744073709551615 }
    ensures runs { (b : List ℕ) → I.remaining input.old ≡ Some b
        → RunsAt b offset (O.contents output.old) (O.contents output.new) result }
    ensures same { (b : List ℕ) → I.remaining input.old ≡ Some b → TrueAt b offset
        → WritesReport b (O.contents output.old) (O.contents output.new) result }
    ensures accounts { (b : List ℕ) → I.remaining input.old ≡ Some b → TrueAt b offset
        → AccountsForFront b (O.contents output.old) (O.contents output.new) result }
    ensures files { (b : List ℕ) → I.remaining input.old ≡ Some b
        → AccountsForFiles b offset (O.contents output.old) (O.contents output.new) result }
    ensures quiet { (b : List ℕ)
        × RunsAt b offset (O.contents output.old) (O.contents output.new) result }
    ensures takes { TakesInput (I.remaining input.old) (I.remaining input.new) result }
    ensures read_faults { ReadFaults (I.faults input.old) (I.faults input.new) result }
    ensures write_faults { WriteFaults (O.faults output.old) (O.faults output.new) result }
{
    rq_model::true_checkpoints_report_the_same();
    rq_model::reports_account();
    rq_model::reports_tell_clients();
    rq_model::all_files_account();
    through(rt, alloc, input, output, Work::ReportAt(offset), plan, gate)
}
