//! Writing the report.

ghost use Rattle.std.specs.Prelude.{◌<◌, string_bytes};
ghost use Rattle.std.specs.List.{flat_map};
ghost use Rattle.rq_report.specs.Streams.{Delivers, Reports};

use crate::report::{report, report_in_pieces};
use crate::stream::Output;
use rq_record::Fault;
use rq_restart::{Plan, Restarted};
use std::alloc::Global;
use std::marker::Sync;
use std::thread::Threads;

// The report of a log of at most this many bytes is made by one thread, so that the restart of a
// short log starts no threads for it.
const SHORT: u64 = 1_048_576;

/// Writes all of the text, however few bytes a call takes. With `WriteFailed` a beginning of it is
/// written.
pub fn write_all<W: Output>(output: &mut W, text: &[u8]) -> Result<(), Fault>
    requires { W.faults output.old < 18446744073709551615 }
    ensures { Delivers (W.faults output.old) (W.faults output.new)
        (W.contents output.old) (W.contents output.new) text.now result }
{
    let mut rest = text;
    while !rest.is_empty() {
        let written = output.write(rest)?;
        rest = rest.split_at(written).1;
    }
    Ok(())
}

// Writes all of the pieces, one after the other.
fn write_pieces<W: Output>(output: &mut W, pieces: &[String]) -> Result<(), Fault>
    requires { W.faults output.old < 18446744073709551615 }
    ensures { Delivers (W.faults output.old) (W.faults output.new) (W.contents output.old)
        (W.contents output.new) (flat_map string_bytes pieces.now) result }
{
    for piece in pieces {
        write_all(output, piece.as_bytes())?;
    }
    Ok(())
}

/// Writes the report of what a restart answered: the front, the units, then each queue with its
/// free elements in order and its registrants by name. The whole text is made first. Refused with
/// `Resources` if the host refuses memory, and then nothing is written; with `WriteFailed` if the
/// writer failed, and then a beginning of the text is written.
#[tactic(auto, using(crate::proofs::Streams::reports_of))]
pub fn write_report<W: Output>(alloc: Global, r: &Restarted, output: &mut W) -> Result<(), Fault>
    requires { W.faults output.old < 18446744073709551615 }
    ensures { Reports r.now (W.faults output.old) (W.faults output.new)
        (W.contents output.old) (W.contents output.new) result }
{
    match report(alloc, r) {
        Ok(text) => write_all(output, text.as_bytes()),
        Err(_) => Err(Fault::Resources),
    }
}

/// Does what `write_report` does, with the text made by the plan's workers. If that is not worth
/// threads, the text is made whole.
#[tactic(auto, using(crate::proofs::Streams::reports_of))]
pub fn write_report_by<R, W>(
    rt: &R,
    alloc: Global,
    r: &Restarted,
    plan: &Plan,
    output: &mut W,
) -> Result<(), Fault>
where
    R: Threads + Sync,
    W: Output,
    requires { W.faults output.old < 18446744073709551615 }
    ensures { Reports r.now (W.faults output.old) (W.faults output.new)
        (W.contents output.old) (W.contents output.new) result }
{
    let count = plan.workers();
    if count < 2 || r.total() <= SHORT {
        return write_report(alloc, r, output);
    }
    match report_in_pieces(rt, alloc, r, count) {
        Ok(pieces) => write_pieces(output, &pieces),
        Err(_) => Err(Fault::Resources),
    }
}
