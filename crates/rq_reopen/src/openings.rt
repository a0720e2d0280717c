//! What of the bytes that a crash left is kept, what is cut off, and what is refused.

ghost use Rattle.std.specs.Prelude.{◌≡◌, ◌≤◌, length, drop, IfOk, IfErr};
ghost use Rattle.rq_record.specs.declared.fault.Fault.TheVariants.{Resources};
ghost use Rattle.rq_live.specs.Kernels.{StandsWithin};
ghost use Rattle.rq_reopen.specs.Openings.{CutsBehind, GoesOnAt, IsExactlyFound, IsNotShut};
ghost use Rattle.rq_reopen.specs.Openings.{OpensLog, OpensBehind};
ghost use Rattle.rq_reopen.specs.Files.{GoesOnAnywhere, IsExactlyIn, IsNotShutIn, OpensFile};
ghost use Rattle.rq_reopen.specs.Files.{OpensFrom};

use crate::found_log::FoundLog;
use rq_front::{read_as_log, write_as_carried};
use rq_journal::Damage;
use rq_plan::Plan;
use rq_record::{Fault, LogBytes};
use std::alloc::Global;
use std::marker::Sync;
use std::thread::Threads;

/// How a log is opened.
#[derive(Drop)]
pub struct Opening {
    /// Where a manager goes on.
    pub found: FoundLog,
    /// What stood behind the front, which has to go.
    pub cut: Vec<u8>,
    /// Why that is not what a crash leaves; none if it is.
    pub damage: Option<Damage>,
}

/// Why a log is not opened. It stays as it is.
#[derive(Drop)]
pub enum NotOpened {
    /// The log is refused.
    Log(Fault),
    /// What stands behind its front is not what a crash leaves.
    Damaged(FoundLog, Damage),
}

// The bytes behind an offset.
fn cut_from(alloc: Global, bytes: &[u8], used: usize) -> Result<Vec<u8>, Fault>
    requires { used ≤ length bytes.now }
    ensures bytes { IfOk result (λ cut. cut.items ≡ drop used bytes.now) }
    ensures refused { IfErr result (λ e. e ≡ Resources) }
{
    let mut cut = Vec::new(alloc);
    cut.extend_from_slice(bytes.split_at(used).1)?;
    Ok(cut)
}

// Hands back what stands behind a front, with what is known of it.
fn cut_behind(
    alloc: Global,
    bytes: &[u8],
    found: FoundLog,
    damage: Option<Damage>,
) -> Result<Opening, NotOpened>
    requires { found.end.used ≤ length bytes.now }
    ensures { CutsBehind bytes.now found damage result }
{
    match cut_from(alloc, bytes, found.end.used) {
        Ok(cut) => Ok(Opening { found, cut, damage }),
        Err(fault) => Err(NotOpened::Log(fault)),
    }
}

// Opens a log behind its front, unless damage stands there that is not to be dropped.
#[tactic(auto, using(crate::proofs::Opened::opens_behind))]
fn opened_behind(
    alloc: Global,
    bytes: &[u8],
    found: FoundLog,
    drops: bool,
) -> Result<Opening, NotOpened>
    requires after { 32 ≤ found.end.used }
    requires within { found.end.used ≤ length bytes.now }
    ensures { OpensBehind bytes.now found drops result }
{
    match Damage::left_behind(alloc, found.version, bytes, found.end.used, found.end.why) {
        Ok(None) => cut_behind(alloc, bytes, found, None),
        Ok(Some(damage)) => {
            if drops {
                cut_behind(alloc, bytes, found, Some(damage))
            } else {
                Err(NotOpened::Damaged(found, damage))
            }
        }
        Err(fault) => Err(NotOpened::Log(fault)),
    }
}

impl Opening {
    /// How a manager goes on behind what a crash left of a log. What stands behind the front is
    /// handed back: nothing, the beginning of a frame, or at most 1,048,576 bytes among which no
    /// frame is right. If it is something else, it is cut only if it is to be dropped. What is found
    /// goes on from all that was safe, as `FoundLog::of` says.
    /// `Manager::over` the device of these bytes and the kernel, and its `resume`, do the rest.
    ///
    /// Refuses damage that is not to be dropped with `Damaged`, and with `Log` what `FoundLog::of`
    /// refuses.
    pub fn of<R: Threads + Sync>(
        rt: &R,
        alloc: Global,
        left: &LogBytes<'_>,
        plan: &Plan,
        drops: bool,
    ) -> Result<Opening, NotOpened>
        ensures opens { OpensLog left.now drops result }
        ensures within { IfOk result (λ o. StandsWithin o.found.kernel (length left.now)) }
        ensures survives { IfOk result (λ o. GoesOnAt left.now o.found) }
        ensures headed { IfErr result (IsNotShut left.now) }
        ensures exact { IfOk result (λ o. IsExactlyFound left.now o.found) }
    {
        match FoundLog::of(rt, alloc, left, plan) {
            Ok(found) => opened_behind(alloc, left.as_slice(), found, drops),
            Err(fault) => Err(NotOpened::Log(fault)),
        }
    }

    // The same of a carried file that is read as a log.
    fn of_carried<R: Threads + Sync>(
        rt: &R,
        alloc: Global,
        left: &[u8],
        plan: &Plan,
        drops: bool,
    ) -> Result<Opening, NotOpened>
        ensures opens { OpensFrom left.now drops result }
        ensures within { IfOk result (λ o. StandsWithin o.found.kernel (length left.now)) }
    {
        match FoundLog::of_carried(rt, alloc, &LogBytes::borrowed(left), plan) {
            Ok(found) => opened_behind(alloc, left, found, drops),
            Err(fault) => Err(NotOpened::Log(fault)),
        }
    }

    /// How a manager goes on behind what a crash left of a log or of a carried file, as `of` says it of
    /// a log. A carried file is read with the header of a log meanwhile, and has its own again then: its
    /// queues begin in the state that its first frame, a checkpoint, spells.
    ///
    /// Refuses with `Log` also a carried file whose first frame is no checkpoint, or is not whole and
    /// right, with `NoCheckpoint`, and one whose checkpoint spells no state with `BadCheckpoint`.
    pub fn of_file<R: Threads + Sync>(
        rt: &R,
        alloc: Global,
        left: &mut [u8],
        plan: &Plan,
        drops: bool,
    ) -> Result<Opening, NotOpened>
        ensures same { left.new ≡ left.old }
        ensures opens { OpensFile left.old drops result }
        ensures within { IfOk result (λ o. StandsWithin o.found.kernel (length left.old)) }
        ensures survives { IfOk result (λ o. GoesOnAnywhere left.old o.found) }
        ensures exact { IfOk result (λ o. IsExactlyIn left.old o.found) }
        ensures headed { IfErr result (IsNotShutIn left.old) }
    {
        rq_left::crash_leaves();
        rq_model::one_front();
        rq_model::one_spelling();
        rq_model::carried_headers();
        rq_model::frames_are_right();
        rq_model::appended_logs();
        rq_model::numbers_after();
        rq_model::runs_are_well_formed();
        match read_as_log(left) {
            Some(_) => {
                let opened = Opening::of_carried(rt, alloc, left, plan, drops);
                write_as_carried(left);
                opened
            }
            None => Opening::of(rt, alloc, &LogBytes::borrowed(left), plan, drops),
        }
    }
}
