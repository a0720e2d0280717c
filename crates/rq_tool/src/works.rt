//! What is made of a log.

ghost use Rattle.std.specs.Prelude.{◌≡◌, ◌<◌, ◌++◌, IfOk, IfErr, OnOk, map};
ghost use Rattle.std.specs.Prelude.{string_bytes};
ghost use Rattle.std.specs.List.{flat_map};
ghost use Rattle.rq_model.specs.Carrying.{IsCarriedReport};
ghost use Rattle.rq_model.specs.Checkpoints.{IsReportAt};
ghost use Rattle.rq_model.specs.Reports.{IsReport};
ghost use Rattle.rq_front.specs.Chains.{IsLog, Refused};
ghost use Rattle.rq_judged.specs.Refusals.{RefusedCarried};
ghost use Rattle.rq_restart.specs.Audits.{audited_of};
ghost use Rattle.rq_tool.specs.Streams.{PutsText};
ghost use Rattle.rq_tool.specs.Works.{HasNoReportAt, IsTextOf, IsWhyNot, audit_line};
ghost use Rattle.rq_tool.specs.declared.works.Work.TheVariants.{Audit, Close, Upgrade};

use crate::input::are_bytes;
use rq_report::{Output, write_report_by};
use rq_restart::{
    Fault, Gate, LogBytes, Plan, audit_of, closed, restart_own, restart_own_at,
    restart_own_carried, upgrade,
};
use std::alloc::{AllocError, Global};
use std::fmt::Write;
use std::marker::Sync;
use std::sync::ArcSlice;
use std::thread::Threads;

/// What is made of a log. None of it but a report redoes queues, and so enters a gate.
#[derive(Clone, Copy)]
pub enum Work {
    /// Its report.
    Report,
    /// Its report from the checkpoint at an offset.
    ReportAt(u64),
    /// Its report from the checkpoint at an offset, if it is a carried file that is read as a log: record
    /// numbers may be greater there than in a log.
    CarriedReport(u64),
    /// A line for each checkpoint of its front, rising: its offset, and whether it is true.
    Audit,
    /// The closed log: its front, and behind it an ABORT for each unit that is open.
    ///
    /// A restart of it answers the state that a restart of the log answers; and so does a restart
    /// of as much of it as a crash leaves, once the front is there. To close it again changes
    /// nothing. `TooLarge` if it would have more than 4,294,967,295 bytes.
    Close,
    /// The log in version 2: the records of its front, whose frames are chained anew behind the
    /// header of version 2. What stood behind the front is dropped.
    ///
    /// It has the report of the log, but that all of its bytes are front. It has the same
    /// checkpoints at the same offsets, true where they were; and from each true one the same
    /// restart, again but that all bytes are front. To upgrade it again changes nothing.
    Upgrade,
}

/// Writes the report of the log. Long payloads are parts of the bytes that were read; if none is,
/// these are let go on the way.
pub(crate) fn put_report<R: Threads + Sync, O: Output, G: Gate + Sync>(
    rt: &R,
    alloc: Global,
    bytes: Vec<u8>,
    output: &mut O,
    plan: &Plan,
    gate: &G,
) -> Result<(), Fault>
    requires { O.faults output.old < 18446744073709551615 }
    ensures { PutsText (λ text. IsLog bytes.items × IsReport bytes.items text) (Refused bytes.items)
        (O.faults output.old) (O.faults output.new)
        (O.contents output.old) (O.contents output.new) result }
{
    let restarted = restart_own(rt, alloc, bytes, plan, gate)?;
    write_report_by(rt, alloc, &restarted, plan, output)
}

/// Writes the report of the log from the checkpoint at an offset.
pub(crate) fn put_report_at<R: Threads + Sync, O: Output, G: Gate + Sync>(
    rt: &R,
    alloc: Global,
    bytes: Vec<u8>,
    offset: u64,
    output: &mut O,
    plan: &Plan,
    gate: &G,
) -> Result<(), Fault>
    requires { O.faults output.old < 18446744073709551615 }
    ensures { PutsText (λ text. IsLog bytes.items × IsReportAt bytes.items offset text)
        (HasNoReportAt bytes.items offset) (O.faults output.old) (O.faults output.new)
        (O.contents output.old) (O.contents output.new) result }
{
    rq_model::every_log_has_report();
    rq_model::true_checkpoints_report_the_same();
    rq_model::versions();
    are_bytes(&bytes);
    let from_there = restart_own_at(rt, alloc, bytes, offset, plan, gate)?;
    write_report_by(rt, alloc, &from_there, plan, output)
}

/// Writes the report of a carried file that is read as a log, from the checkpoint at an offset.
pub(crate) fn put_carried_report<R: Threads + Sync, O: Output, G: Gate + Sync>(
    rt: &R,
    alloc: Global,
    bytes: Vec<u8>,
    offset: u64,
    output: &mut O,
    plan: &Plan,
    gate: &G,
) -> Result<(), Fault>
    requires { O.faults output.old < 18446744073709551615 }
    ensures { PutsText (λ text. IsLog bytes.items × IsCarriedReport bytes.items offset text)
        (RefusedCarried bytes.items offset) (O.faults output.old) (O.faults output.new)
        (O.contents output.old) (O.contents output.new) result }
{
    let carried = restart_own_carried(rt, alloc, bytes, offset, plan, gate)?;
    write_report_by(rt, alloc, &carried, plan, output)
}

fn put_line(text: &mut String, offset: u64, truth: bool) -> Result<(), AllocError>
    ensures { OnOk result
        (string_bytes text.new ≡ string_bytes text.old ++ audit_line (audited_of (offset, truth))) }
{
    let word = if truth { "true" } else { "false" };
    write!(text, "checkpoint {offset} {word}\n")
}

// A line for each checkpoint that was found.
fn audit_text(alloc: Global, found: &[(u64, bool)]) -> Result<String, AllocError>
    ensures { IfOk result
        (λ text. string_bytes text ≡ flat_map audit_line (map audited_of found.now)) }
{
    let mut text = String::new(alloc);
    for (offset, truth) in found {
        put_line(&mut text, *offset, *truth)?;
    }
    Ok(text)
}

/// A line for each checkpoint of the bytes that were read.
pub(crate) fn audited_lines<R: Threads + Sync>(
    rt: &R,
    alloc: Global,
    bytes: Vec<u8>,
    plan: &Plan,
) -> Result<String, Fault>
    ensures made { IfOk result
        (λ text. IsTextOf Audit bytes.items (string_bytes text)) }
    ensures refused { IfErr result (IsWhyNot Audit bytes.items) }
{
    let log = ArcSlice::from_vec(bytes)?;
    let found = audit_of(rt, alloc, &LogBytes::shared(&log), plan)?;
    // The bytes are let go before the text is made.
    drop(log);
    let text = audit_text(alloc, &found)?;
    Ok(text)
}

/// The closed log of the bytes that were read.
pub(crate) fn closed_log<R: Threads + Sync>(
    rt: &R,
    alloc: Global,
    bytes: Vec<u8>,
    plan: &Plan,
) -> Result<Vec<u8>, Fault>
    ensures made { IfOk result (λ log. IsTextOf Close bytes.items log.items) }
    ensures refused { IfErr result (IsWhyNot Close bytes.items) }
{
    rq_model::closed_logs();
    are_bytes(&bytes);
    let log = closed(rt, alloc, bytes, plan)?;
    Ok(log)
}

/// The log of the bytes in version 2.
pub(crate) fn upgraded_log<R: Threads + Sync>(
    rt: &R,
    alloc: Global,
    bytes: &[u8],
    plan: &Plan,
) -> Result<Vec<u8>, Fault>
    ensures made { IfOk result (λ log. IsTextOf Upgrade bytes.now log.items) }
    ensures refused { IfErr result (IsWhyNot Upgrade bytes.now) }
{
    rq_model::upgrade_is_the_same();
    are_bytes(bytes);
    let log = upgrade(rt, alloc, bytes, plan)?;
    Ok(log)
}
