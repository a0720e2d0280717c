//! What a restart finds of what a crash left.

ghost use Rattle.std.specs.Prelude.{IfErr, IfOk};
ghost use Rattle.rq_restart.specs.Restarts.{Restarts};
ghost use Rattle.rq_reopen.specs.Reopenings.{IsExact, IsNoMishap, Survives};

use rq_plan::{Gate, Plan};
use rq_record::Fault;
use rq_restart::{Restarted, restart};
use std::alloc::Global;
use std::marker::Sync;
use std::thread::Threads;

/// Restarts what a crash left of a log.
///
/// Whatever manager wrote the log, and whatever the crash left behind the bytes that were synced,
/// the restart goes on from all that was safe: each unit whose commit was answered is committed
/// there. If the crash left a beginning of what was written, the restart has the first records that
/// were done, in their order, and no others. Refused as `restart` is; never with `NotALog` if the
/// log was safe.
pub fn reopen<R: Threads + Sync, G: Gate + Sync>(
    rt: &R,
    alloc: Global,
    left: &[u8],
    plan: &Plan,
    gate: &G,
) -> Result<Restarted, Fault>
    ensures restarts { Restarts left.now result }
    ensures survives { IfOk result (Survives left.now) }
    ensures headed { IfErr result (IsNoMishap left.now) }
    ensures exact { IfOk result (IsExact left.now) }
{
    rq_left::crash_leaves();
    rq_model::one_report();
    restart(rt, alloc, left, plan, gate)
}
