//! The front of a log, and who judges what may stand behind it.

ghost use Rattle.std.specs.Prelude.{◌≡◌, ℕ, IfOk, IfErr};
ghost use Rattle.rq_record.specs.declared.fault.Fault.TheVariants.{Resources};
ghost use Rattle.rq_model.specs.StateSpelling.{carried_next};
ghost use Rattle.rq_judged.specs.Checkpoints.{IsBegun};
ghost use Rattle.rq_judged.specs.JudgedFronts.{IsJudgedBehind, JudgesFront, JudgesFrontAt};

use crate::checkpoint::Begun;
use crate::ends::Edge;
use crate::frames::before;
use crate::front::end_of;
use crate::front_pass::{PassSoFar, grain_of, judge_each};
use rq_catalog::Judge;
use rq_front::{HEADER_LEN, log_version};
use rq_plan::Plan;
use rq_record::Fault;
use rq_state::State;
use std::alloc::Global;
use std::marker::Sync;
use std::thread::Threads;

/// Where the front of a log ends, and a judge that stands there.
#[derive(Drop)]
pub struct JudgedFront {
    /// Says which records are lawful behind the front.
    pub judge: Judge,
    /// The front's last 32 bytes.
    pub last: [u8; 32],
    /// Where the front ends, and why.
    pub end: Edge,
}

impl JudgedFront {
    /// The front of a log, with a judge of what may stand behind it. No record is kept, and no queue is
    /// redone.
    ///
    /// Refused as `FrontEnd::of` is.
    pub fn of<R: Threads + Sync>(
        rt: &R,
        alloc: Global,
        bytes: &[u8],
        plan: &Plan,
    ) -> Result<JudgedFront, Fault>
        ensures { JudgesFront bytes.now result }
    {
        rq_model::frames_join();
        rq_model::one_front();
        let version = log_version(bytes)?;
        let mut pass = PassSoFar {
            judge: Judge::new(alloc, version),
            records: 0,
            offset: HEADER_LEN,
        };
        let why = pass.finish(rt, alloc, bytes, grain_of(plan))?;
        let PassSoFar {
            judge,
            records,
            offset,
        } = pass;
        Ok(JudgedFront {
            judge,
            last: before(bytes, offset),
            end: Edge {
                used: offset,
                records,
                why,
            },
        })
    }

    /// The front of a carried file that is read as a log, from the checkpoint at an offset on, with a
    /// judge of what may stand behind it: it begins in the state that the checkpoint spells. No record
    /// is kept, and no queue is redone.
    ///
    /// Refused as `restart_at` is, but for states of greater record numbers.
    pub fn judged_at<R: Threads + Sync>(
        rt: &R,
        alloc: Global,
        bytes: &[u8],
        offset: u64,
        plan: &Plan,
    ) -> Result<JudgedFront, Fault>
        ensures { JudgesFrontAt bytes.now offset result }
    {
        let most = State::CARRIED_RECORDS;
        let begun = Begun::begun_at(rt, alloc, bytes, offset, most, plan)?;
        let front = judged_behind(alloc, &begun, bytes)?;
        Ok(front)
    }
}

/// The front behind the checkpoint that a front begins with, and a judge that stands there.
pub(crate) fn judged_behind(
    alloc: Global,
    begun: &Begun,
    bytes: &[u8],
) -> Result<JudgedFront, Fault>
    requires { (offset : ℕ) × IsBegun carried_next bytes.now offset begun.now }
    ensures judged { IfOk result (λ front. (offset : ℕ) → IsBegun carried_next bytes.now offset begun.now
        → IsJudgedBehind bytes.now offset begun.now.state front) }
    ensures refused { IfErr result (λ e. e ≡ Resources) }
{
    rq_model::frames_are_right();
    rq_model::frames_join();
    rq_model::one_front();
    let mut judge = Judge::of(alloc, begun.version, &begun.state)?;
    let reach = judge_each(alloc, &mut judge, bytes, &begun.found.spans)?;
    let (end, why) = end_of(&begun.found, reach.read, reach.lawful);
    Ok(JudgedFront {
        judge,
        last: before(bytes, end),
        end: Edge {
            used: end,
            records: reach.lawful,
            why,
        },
    })
}
