//! How a log begins whose bytes come piece by piece: as a log, or as a carried file.

ghost use Rattle.std.specs.Prelude.{◌≡◌, ◌≤◌, ◌+◌, ◌++◌, ℕ, List, drop, length, IfOk, IfErr, IfSome, IfNone};
ghost use Rattle.rq_model.specs.Frames.{HasHeader, log_limit};
ghost use Rattle.rq_record.specs.Views.{version_of};
ghost use Rattle.rq_record.specs.declared.fault.Fault.TheVariants.{Resources};
ghost use Rattle.rq_front.specs.Chains.{IsCarried};
ghost use Rattle.rq_judged.specs.Windows.{RefusesPiece};
ghost use Rattle.rq_follow.specs.Passes.{HasDoneAll, origin_at};
ghost use Rattle.rq_follow.specs.Followers.{IsReadSo, IsSoFar, RefusesBytes};

use crate::pass::MachinePass;
use rq_front::{CARRIED_AT, HEADER_LEN, LOG_LIMIT, Rest, chain, read_as_log, version};
use rq_judged::{Begun, grain_of};
use rq_plan::Plan;
use rq_record::{Fault, Version};
use rq_standing::Machine;
use rq_state::State;
use std::alloc::Global;
use std::marker::Sync;
use std::mem::replace;
use std::thread::Threads;

/// How much of a log has come.
#[derive(Drop)]
pub(crate) enum Coming {
    /// Fewer bytes than a header has.
    Header(Vec<u8>),
    /// A carried file, as it is read, whose checkpoint is not whole yet.
    Linked(Vec<u8>),
    /// The header of a log, and what follows it.
    Plain(MachinePass),
    /// A carried file with its checkpoint, and what follows that.
    Carried(MachinePass),
}

/// All bytes of a beginning, to which further ones came.
pub(crate) fn joined(alloc: Global, first: &mut Vec<u8>, more: &[u8]) -> Result<Vec<u8>, Fault>
    requires { length first.old.items ≤ log_limit }
    ensures joined { IfOk result (λ bytes. bytes.items ≡ first.old.items ++ more.now) }
    ensures short { IfOk result (λ bytes. length bytes.items ≤ log_limit) }
    ensures refused { IfErr result (RefusesPiece (length first.old.items + length more.now)) }
{
    if more.len() > LOG_LIMIT.saturating_sub(first.len()) {
        return Err(Fault::TooLong);
    }
    first.extend_from_slice(more)?;
    Ok(replace(first, Vec::new(alloc)))
}

// A pass from a place of a log on, in the state of a machine.
fn begun<R: Threads + Sync>(
    rt: &R,
    alloc: Global,
    version: Version,
    machine: Machine,
    bytes: Vec<u8>,
    place: usize,
    plan: &Plan,
) -> Result<MachinePass, Fault>
    requires header { HasHeader (version_of version) bytes.items }
    requires short { length bytes.items ≤ log_limit }
    requires after { 40 ≤ place }
    requires within { place ≤ length bytes.items }
    ensures fed { IfOk result (HasDoneAll (origin_at (version_of version) machine bytes.items place)
        (drop place bytes.items)) }
    ensures refused { IfErr result (λ e. e ≡ Resources) }
{
    let mut pass = MachinePass::new(version, machine, bytes, place);
    pass.do_all(rt, alloc, grain_of(plan))?;
    Ok(pass)
}

// The pass from the checkpoint on that a carried file begins with, as it is read.
fn begun_carried<R: Threads + Sync>(
    rt: &R,
    alloc: Global,
    bytes: Vec<u8>,
    plan: &Plan,
) -> Result<Coming, Fault>
    requires { (b : List ℕ) × IsReadSo b bytes.items }
    ensures stage { IfOk result
        (λ stage. (b : List ℕ) → IsReadSo b bytes.items → IsSoFar b stage) }
    ensures refused { IfErr result
        (λ e. (b : List ℕ) → IsReadSo b bytes.items → RefusesBytes b e) }
{
    rq_model::versions();
    rq_model::carried_headers();
    let most = State::CARRIED_RECORDS;
    let from = Begun::begun_at(rt, alloc, &bytes, CARRIED_AT as u64, most, plan)?;
    let machine = Machine::of(alloc, &from.state)?;
    let pass = begun(rt, alloc, from.version, machine, bytes, CARRIED_AT, plan)?;
    Ok(Coming::Carried(pass))
}

/// How much has come of a carried file, as it is read: its checkpoint, if that is whole.
pub(crate) fn stage_linked<R: Threads + Sync>(
    rt: &R,
    alloc: Global,
    bytes: Vec<u8>,
    plan: &Plan,
) -> Result<Coming, Fault>
    requires { (b : List ℕ) × IsReadSo b bytes.items }
    ensures stage { IfOk result
        (λ stage. (b : List ℕ) → IsReadSo b bytes.items → IsSoFar b stage) }
    ensures refused { IfErr result
        (λ e. (b : List ℕ) → IsReadSo b bytes.items → RefusesBytes b e) }
{
    rq_model::frames_are_right();
    rq_model::frames_join();
    rq_model::carried_headers();
    if bytes.len() < CARRIED_AT {
        return Ok(Coming::Linked(bytes));
    }
    let found = chain(rt, alloc, &bytes, CARRIED_AT, grain_of(plan))?;
    if !found.spans.is_empty() {
        return begun_carried(rt, alloc, bytes, plan);
    }
    match found.rest {
        Rest::Whole | Rest::Cut => Ok(Coming::Linked(bytes)),
        Rest::Length | Rest::Digest => Err(Fault::NoCheckpoint),
    }
}

// A carried file as it is read; nothing of other bytes.
fn read_log(bytes: Vec<u8>) -> Option<Vec<u8>>
    requires { length bytes.items ≤ log_limit }
    ensures some { IfSome result (λ log. IsReadSo bytes.items log.items) }
    ensures none { IfNone result (IsCarried bytes.items → ⊥) }
{
    let mut bytes = bytes;
    match read_as_log(&mut bytes) {
        Some(_) => Some(bytes),
        None => None,
    }
}

/// How much has come of a log.
pub(crate) fn stage_of<R: Threads + Sync>(
    rt: &R,
    alloc: Global,
    bytes: Vec<u8>,
    plan: &Plan,
) -> Result<Coming, Fault>
    requires { length bytes.items ≤ log_limit }
    ensures stage { IfOk result (IsSoFar bytes.items) }
    ensures refused { IfErr result (RefusesBytes bytes.items) }
{
    rq_model::frames_join();
    rq_model::carried_headers();
    if bytes.len() < HEADER_LEN {
        return Ok(Coming::Header(bytes));
    }
    if let Some(version) = version(&bytes) {
        let empty = Machine::empty(alloc);
        let pass = begun(rt, alloc, version, empty, bytes, HEADER_LEN, plan)?;
        return Ok(Coming::Plain(pass));
    }
    match read_log(bytes) {
        Some(log) => stage_linked(rt, alloc, log, plan),
        None => Err(Fault::NotALog),
    }
}
