//! A carried file, which goes on from the state behind the front of a log, and its audit.

ghost use Rattle.std.specs.Prelude.{◌≡◌, ◌<◌, ℕ, List, length, IfErr, IfOk};
ghost use Rattle.rq_model.specs.Frames.{IsBodyLength};
ghost use Rattle.rq_model.specs.Carrying.{carried_at};
ghost use Rattle.rq_model.specs.StateSpelling.{carried_next};
ghost use Rattle.rq_record.specs.Views.{version_of};
ghost use Rattle.rq_judged.specs.Refusals.{RefusedCarried};
ghost use Rattle.rq_restart.specs.RedoneFronts.{IsRedoneAt, IsRedoneFront};
ghost use Rattle.rq_journal.specs.Carries.{BeginsFile, Carries, CarriesAgain, TellsAudit, scarce_numbers};
ghost use Rattle.rq_journal.specs.Carries.{truth_of};

use crate::checkpoints::checkpoint_body;
use rq_front::{CARRIED_AT, carried_header_of, frame};
use rq_record::{Fault, Version};
use rq_restart::{Plan, RedoneFront, audit_at};
use rq_state::State;
use std::alloc::Global;
use std::marker::Sync;
use std::thread::Threads;

// The carried file of the version whose first frame, that of a body, goes on behind these 32 bytes.
fn begun(alloc: Global, version: Version, link: &[u8; 32], body: &[u8]) -> Result<Vec<u8>, Fault>
    requires { IsBodyLength (length body.now) }
    ensures { BeginsFile (version_of version) link.now body.now result }
{
    let mut out = Vec::new(alloc);
    carried_header_of(version, &mut out)?;
    out.extend_from_slice(link)?;
    frame(link, body, &mut out)?;
    Ok(out)
}

/// A carried file, which goes on from the state behind a front, with the units that are open there
/// still open: its only record is a checkpoint of that state, at 72, and its digests go on from the
/// front's. It is no log. `read_as_log` makes one of it, which is to be restarted from 72. The front is
/// that of a log, or that of another carried file as it is read.
///
/// Refuses with `TooLong` a state with 9,223,372,036,854,775,807 records over all files or more, behind
/// whose checkpoint no state could be spelled, with `TooLarge` one whose spelling has more than
/// 268,435,455 bytes, and with `Resources` if memory is refused.
pub fn carried(alloc: Global, front: &RedoneFront) -> Result<Vec<u8>, Fault>
    ensures carries { (b : List ℕ) → IsRedoneFront b front.now → Carries b result }
    ensures again { (b : List ℕ) → IsRedoneAt b carried_at front.now → CarriesAgain b result }
    ensures number { IfOk result (λ made. front.now.state.next < carried_next) }
{
    rq_model::one_spelling();
    rq_model::fronts_are_spelt();
    rq_model::carried_headers();
    rq_model::logs_begun_anew();
    rq_model::continued_logs();
    if front.state.next() >= State::CARRIED_RECORDS {
        return Err(Fault::TooLong);
    }
    let body = checkpoint_body(alloc, &front.state)?;
    begun(alloc, front.version, &front.last, &body)
}

// No log has more records: each has 37 bytes at least.
const OF_FULL_LOG: u64 = 116_080_196;

/// How many records may still be numbered behind so many over all files of a log, if numbers can end
/// before the next file is full; none if they cannot.
pub fn scarce_numbers(next: u64) -> Option<u64>
    ensures { result ≡ scarce_numbers next }
{
    let left = State::CARRIED_RECORDS.saturating_sub(next);
    if left < OF_FULL_LOG { Some(left) } else { None }
}

/// What an audit says of a checkpoint.
#[derive(Clone, Copy, Debug, PartialEq, Eq)]
pub enum Truth {
    /// The file begins with it: it is taken at its word.
    Carried,
    /// It spells the state before it.
    True,
    /// It does not.
    False,
}

// What is said of the checkpoint at an offset, by whether it spells the state before it.
fn truth_of(offset: u64, is_true: bool) -> Truth
    ensures { result ≡ truth_of offset is_true }
{
    if offset == CARRIED_AT as u64 {
        Truth::Carried
    } else if is_true {
        Truth::True
    } else {
        Truth::False
    }
}

/// Where the checkpoints stand in the front of a carried file that is read as a log, and which of them
/// are true, with the state that it begins with taken at its word. Costs what `audit_at` does.
/// Refused as `Growth::behind_carried` is.
pub fn audit_carried<R: Threads + Sync>(
    rt: &R,
    alloc: Global,
    bytes: &[u8],
    plan: &Plan,
) -> Result<Vec<(usize, Truth)>, Fault>
    ensures told { IfOk result (λ told. TellsAudit bytes.now told.items) }
    ensures refused { IfErr result (RefusedCarried bytes.now 72) }
{
    let found = audit_at(rt, alloc, bytes, CARRIED_AT as u64, plan)?;
    let mut told = Vec::new(alloc);
    for (offset, is_true) in &found {
        told.push((*offset as usize, truth_of(*offset, *is_true)))?;
    }
    Ok(told)
}
