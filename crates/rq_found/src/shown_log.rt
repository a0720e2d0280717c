//! A log that is shown: where its records begin, and its restart from there.

ghost use Rattle.std.specs.Prelude.{◌≡◌, ℕ, List, Some, None, IfOk, IfErr, IfSome, IfNone};
ghost use Rattle.std.specs.Prelude.{OnOk};
ghost use Rattle.rq_model.specs.Carrying.{HasCarriedHeader, as_log, carried_at};
ghost use Rattle.rq_model.specs.Checkpoints.{IsCheckpointAt};
ghost use Rattle.rq_model.specs.Records.{Version};
ghost use Rattle.rq_model.specs.States.{empty};
ghost use Rattle.rq_record.specs.declared.fault.Fault.TheVariants.{Resources};
ghost use Rattle.rq_front.specs.Chains.{IsCarried, IsLog};
ghost use Rattle.rq_found.specs.Ends.{IsRestartFrom};
ghost use Rattle.rq_found.specs.Refusals.{RefusedFrom};
ghost use Rattle.rq_found.specs.Records.{SpelledIn, StandFrom, front_at};

use crate::frames::{PlacedFrames, first_frame};
use rq_front::{CARRIED_AT, HEADER_LEN, read_as_log, version};
use rq_record::Fault;
use rq_restart::{Open, Plan, Restarted, restart, restart_carried};
use rq_state::{State, read_up_to};
use std::alloc::Global;
use std::thread::Threads;

/// A log that is shown, and how its records are read.
#[derive(Clone, Copy)]
pub struct ShownLog<'a> {
    /// Its bytes; those of a carried file as they are read, with the header of a log.
    pub bytes: &'a [u8],
    /// The offset of the checkpoint that it begins with, if it was carried on.
    pub at: Option<u64>,
    /// By how many workers its records are read.
    pub plan: &'a Plan,
}

impl ShownLog<'_> {
    /// Makes of a carried file the log as which it is read, and answers where the checkpoint stands with
    /// which it begins. Of any other bytes there is none, and they stay as they are.
    pub fn begins_at(bytes: &mut [u8]) -> Option<u64>
        ensures some { IfSome result (λ at. (at ≡ carried_at) × ((version : Version)
            × HasCarriedHeader version bytes.old × (bytes.new ≡ as_log version bytes.old))) }
        ensures none { IfNone result ((IsCarried bytes.old → ⊥) × (bytes.new ≡ bytes.old)) }
    {
        match read_as_log(bytes) {
            Some(_) => Some(CARRIED_AT as u64),
            None => None,
        }
    }
}

// The state that the checkpoint at an offset spells.
fn state_at(alloc: Global, bytes: &[u8], at: u64) -> Option<State>
    ensures { (kept : List ℕ) → IsCheckpointAt bytes.now at kept
        → IfSome result (SpelledIn bytes.now kept) }
{
    let version = version(bytes)?;
    let (frame, _) = first_frame(bytes.get(at as usize..)?)?;
    let spelled = frame.body.get(1..)?;
    match read_up_to(alloc, version, State::CARRIED_RECORDS, spelled) {
        Ok(state) => Some(state),
        Err(_) => None,
    }
}

impl ShownLog<'_> {
    /// The state behind which the records of a front begin: that of the checkpoint at the offset, if
    /// there is one, which a restart has found there.
    pub fn first_state(alloc: Global, bytes: &[u8], at: Option<u64>) -> Result<State, Fault>
        ensures beginning { at ≡ None → IfOk result (λ s. s ≡ empty) }
        ensures there { (offset : ℕ) (kept : List ℕ) → at ≡ Some offset
            → IsCheckpointAt bytes.now offset kept → IfOk result (SpelledIn bytes.now kept) }
        ensures refused { IfErr result (λ e. e ≡ Resources) }
    {
        let Some(at) = at else {
            return Ok(State::empty(alloc));
        };
        // The restart read the same state, so memory alone is refused.
        match state_at(alloc, bytes, at) {
            Some(state) => Ok(state),
            None => Err(Fault::Resources),
        }
    }
}

// Where the first frame of a front stands.
fn offset_of(at: Option<u64>) -> u64
    ensures { result ≡ front_at at }
{
    match at {
        Some(at) => at,
        None => HEADER_LEN as u64,
    }
}

impl PlacedFrames<'_> {
    /// The frames of a front that begins behind a state, in the first `used` bytes: from the checkpoint
    /// at the offset on, if there is one, else from the header on.
    pub fn front_frames<'a>(
        bytes: &'a [u8],
        first: &State,
        at: Option<u64>,
        used: u64,
    ) -> PlacedFrames<'a>
        ensures { StandFrom bytes.now (front_at at) first.now.next used result }
    {
        PlacedFrames::beginning_at(bytes, offset_of(at), first.next(), used)
    }
}

impl ShownLog<'_> {
    /// The restart of the log, from the checkpoint on that it begins with, if there is one.
    pub fn restarted<R: Threads + Sync>(&self, rt: &R, alloc: Global) -> Result<Restarted, Fault>
        ensures log { OnOk result (IsLog self.now.bytes.now) }
        ensures restart { IfOk result (λ r. IsRestartFrom self.now.at self.now.bytes.now r) }
        ensures refused { IfErr result (RefusedFrom self.now.at self.now.bytes.now) }
    {
        match self.at {
            None => restart(rt, alloc, self.bytes, self.plan, &Open),
            Some(at) => restart_carried(rt, alloc, self.bytes, at, self.plan, &Open),
        }
    }
}
