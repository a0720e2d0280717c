//! The front of a log, and the state behind it.

ghost use Rattle.std.specs.Prelude.{◌≡◌, ◌≤◌, ◌-◌, ℕ, map, IfOk, IfErr};
ghost use Rattle.rq_model.specs.Fronts.{restarted};
ghost use Rattle.rq_record.specs.Views.{record_of, version_of};
ghost use Rattle.rq_record.specs.declared.fault.Fault.TheVariants.{Resources};
ghost use Rattle.rq_judged.specs.Views.{why_of};
ghost use Rattle.rq_restart.specs.RedoneFronts.{IsFoundFrom};
ghost use Rattle.rq_restart.specs.RedoneFronts.{IsStateBehind, RedoesFront, RedoesFrontAt};
ghost use Rattle.rq_restart.specs.Restarts.{FindsState};

use crate::restart_ends::{Restarted, closed_front};
use crate::restarts::{FoundFront, front_from, whole_front};
use rq_catalog::analyse_kept;
use rq_exchange::replay_analysed;
use rq_judged::{Edge, Front, before};
use rq_plan::{Gate, Open, Plan};
use rq_record::{Fault, LogBytes, Version};
use rq_state::State;
use std::alloc::Global;
use std::marker::Sync;
use std::thread::Threads;

/// The state behind the front of a log, and where and why the front ends.
#[derive(Drop)]
pub struct RedoneFront {
    /// The version of the log.
    pub version: Version,
    /// The state after the front, before any abort: open units stay open.
    pub state: State,
    /// The front's last 32 bytes.
    pub last: [u8; 32],
    /// Where the front ends, and why.
    pub end: Edge,
}

// The state behind a front of the log.
fn state_behind<R: Threads + Sync>(
    rt: &R,
    alloc: Global,
    from: FoundFront,
    bytes: &LogBytes<'_>,
    plan: &Plan,
) -> Result<RedoneFront, Fault>
    requires front { (offset : ℕ) × IsFoundFrom bytes.now offset from }
    ensures behind { IfOk result (IsStateBehind (version_of from.version) from.state bytes.now
        (map record_of from.front.records.items) from.front.end (why_of from.front.why)) }
    ensures refused { IfErr result (λ e. e ≡ Resources) }
{
    rq_model::versions();
    let FoundFront {
        version,
        state,
        front,
    } = from;
    let end = Edge {
        used: front.end,
        records: front.records.len(),
        why: front.why,
    };
    let analysis = front.analysis;
    let redone = replay_analysed(rt, alloc, &state, &front.records, analysis, plan, &Open)?;
    Ok(RedoneFront {
        version,
        state: redone,
        last: before(bytes.as_slice(), front.end),
        end,
    })
}

impl RedoneFront {
    /// The state after the front of a log whose bytes may be shared, before any abort, and where and why
    /// the front ends. If they are, a payload of more than 22 bytes is a part of them and no copy.
    ///
    /// Refuses with `TooLong` more than 4,294,967,295 bytes, with `NotALog` bytes that begin with no
    /// version's header, and with `Resources` where memory is refused.
    pub fn of<R: Threads + Sync>(
        rt: &R,
        alloc: Global,
        bytes: &LogBytes<'_>,
        plan: &Plan,
    ) -> Result<RedoneFront, Fault>
        ensures { RedoesFront bytes.now result }
    {
        let from = whole_front(rt, alloc, bytes, plan)?;
        state_behind(rt, alloc, from, bytes, plan)
    }

    /// The state after the front of a carried file that is read as a log, from the checkpoint at an
    /// offset on, before any abort, and where and why the front ends: it begins in the state that the
    /// checkpoint spells.
    ///
    /// Refused as `restart_carried` is.
    pub fn redone_at<R: Threads + Sync>(
        rt: &R,
        alloc: Global,
        bytes: &LogBytes<'_>,
        offset: u64,
        plan: &Plan,
    ) -> Result<RedoneFront, Fault>
        ensures { RedoesFrontAt bytes.now offset result }
    {
        let most = State::CARRIED_RECORDS;
        let from = front_from(rt, alloc, bytes, offset, most, plan)?;
        state_behind(rt, alloc, from, bytes, plan)
    }
}

impl RedoneFront {
    /// What a restart answers of a log of so many bytes with this front: its open units are aborted,
    /// rising. Refused with `Resources` alone.
    pub fn into_restarted<R: Threads + Sync, G: Gate + Sync>(
        self,
        rt: &R,
        alloc: Global,
        total: usize,
        plan: &Plan,
        gate: &G,
    ) -> Result<Restarted, Fault>
        requires within { self.end.used ≤ total }
        ensures answer { IfOk result
            (λ r. r ≡ restarted self.state (total - self.end.used) total (why_of self.end.why)) }
        ensures refused { IfErr result (λ e. e ≡ Resources) }
    {
        // No file numbers so many records: past here a number could run over.
        let open = self.state.units().len() as u64;
        if self.state.next().saturating_add(open) == u64::MAX {
            return Err(Fault::Resources);
        }
        let analysis = analyse_kept(alloc, Version::Two, &self.state, &[])?;
        let front = Front {
            records: Vec::new(alloc),
            analysis,
            end: self.end.used,
            why: self.end.why,
        };
        closed_front(rt, alloc, self.state, front, total, plan, gate)
    }
}

/// The state after the front of a log, before any abort: open units stay open.
///
/// Refuses with `TooLong` more than 4,294,967,295 bytes, with `NotALog` bytes that begin with no
/// version's header, and with `Resources` where memory is refused.
pub fn front_state<R: Threads + Sync>(
    rt: &R,
    alloc: Global,
    bytes: &[u8],
    plan: &Plan,
) -> Result<State, Fault>
    ensures { FindsState bytes.now result }
{
    let front = RedoneFront::of(rt, alloc, &LogBytes::borrowed(bytes), plan)?;
    Ok(front.state)
}
