//! Where a manager goes on behind what a crash left.

ghost use Rattle.std.specs.Prelude.{◌≡◌, List, ℕ, IfErr, IfOk, length};
ghost use Rattle.rq_model.specs.Carrying.{carried_at};
ghost use Rattle.rq_record.specs.declared.fault.Fault.TheVariants.{Resources};
ghost use Rattle.rq_restart.specs.RedoneFronts.{IsRedoneAt, IsRedoneFront};
ghost use Rattle.rq_live.specs.Kernels.{StandsWithin};
ghost use Rattle.rq_reopen.specs.Files.{FindsFrom, GoesOnAnywhere, IsCarriedFound, IsExactlyIn};
ghost use Rattle.rq_reopen.specs.Files.{IsFoundIn};
ghost use Rattle.rq_reopen.specs.Openings.{Finds, IsFound, GoesOnAt, IsExactlyFound, front_with};
ghost use Rattle.rq_reopen.specs.Reopenings.{IsNoMishap};

use rq_front::CARRIED_AT;
use rq_judged::Edge;
use rq_live::Kernel;
use rq_plan::Plan;
use rq_record::{Fault, LogBytes, Version};
use rq_restart::RedoneFront;
use rq_standing::Machine;
use std::alloc::Global;
use std::marker::Sync;
use std::thread::Threads;

/// What a crash left of a log, to go on from.
#[derive(Drop)]
pub struct FoundLog {
    /// The version of the log.
    pub version: Version,
    /// Where its front ends, and why.
    pub end: Edge,
    /// The queues as they stand behind the front, with the units that were open there.
    pub kernel: Kernel,
}

// The queues as a machine has them that stands behind a front.
fn found_of(
    alloc: Global,
    version: Version,
    machine: Machine,
    last: [u8; 32],
    end: Edge,
) -> FoundLog
    ensures found { (c : List ℕ) → IsRedoneFront c (front_with version machine last end)
        → IsFound c result }
    ensures from { (b : List ℕ) → IsRedoneAt b carried_at (front_with version machine last end)
        → IsCarriedFound b result }
    ensures within { StandsWithin result.kernel result.end.used }
    ensures end { result.end ≡ end }
    ensures version { result.version ≡ version }
{
    FoundLog {
        version,
        end,
        kernel: Kernel::standing(alloc, version, machine, last, end.used),
    }
}

// The queues behind a front.
fn behind(alloc: Global, front: &RedoneFront) -> Result<FoundLog, Fault>
    ensures found { IfOk result (λ l. (c : List ℕ) → IsRedoneFront c front.now → IsFound c l) }
    ensures from { IfOk result
        (λ l. (b : List ℕ) → IsRedoneAt b carried_at front.now → IsCarriedFound b l) }
    ensures refused { IfErr result (λ e. e ≡ Resources) }
{
    let machine = Machine::of(alloc, &front.state)?;
    Ok(found_of(alloc, front.version, machine, front.last, front.end))
}

impl FoundLog {
    /// The queues behind the front of what a crash left of a log. Whatever manager wrote it, they
    /// go on from all that was safe; and if the crash left a beginning of what was written, they
    /// stand behind the first records that were done, and no others.
    ///
    /// Refuses with `TooLong` more than 4,294,967,295 bytes, with `NotALog` bytes that begin with
    /// no version's header, which those of a safe log never are, and with `Resources` where memory
    /// is refused.
    pub fn of<R: Threads + Sync>(
        rt: &R,
        alloc: Global,
        left: &LogBytes<'_>,
        plan: &Plan,
    ) -> Result<FoundLog, Fault>
        ensures finds { Finds left.now result }
        ensures within { IfOk result (λ l. StandsWithin l.kernel (length left.now)) }
        ensures survives { IfOk result (GoesOnAt left.now) }
        ensures headed { IfErr result (IsNoMishap left.now) }
        ensures exact { IfOk result (IsExactlyFound left.now) }
    {
        rq_left::crash_leaves();
        rq_model::one_front();
        let front = RedoneFront::of(rt, alloc, left, plan)?;
        behind(alloc, &front)
    }

    /// The queues behind the front of what a crash left of a log, or of a carried file that is read as
    /// one, of which a machine stands there. They are those that an opening finds. Takes no memory.
    pub fn of_machine(
        alloc: Global,
        version: Version,
        machine: Machine,
        last: [u8; 32],
        end: Edge,
    ) -> FoundLog
        ensures found { (c : List ℕ) → IsRedoneFront c (front_with version machine last end)
            → IsFound c result }
        ensures from { (b : List ℕ) → IsRedoneAt b carried_at (front_with version machine last end)
            → IsCarriedFound b result }
        ensures within { StandsWithin result.kernel result.end.used }
        ensures end { result.end ≡ end }
        ensures version { result.version ≡ version }
        ensures survives { (c : List ℕ) → IsFoundIn c result → GoesOnAnywhere c result }
        ensures exact { (c : List ℕ) → IsFoundIn c result → IsExactlyIn c result }
    {
        rq_left::crash_leaves();
        rq_model::one_front();
        rq_model::one_spelling();
        rq_model::carried_headers();
        rq_model::appended_logs();
        rq_model::numbers_after();
        rq_model::runs_are_well_formed();
        found_of(alloc, version, machine, last, end)
    }

    /// The same of a carried file that is read as a log: they go on from the state that the
    /// checkpoint at its beginning spells.
    pub(crate) fn of_carried<R: Threads + Sync>(
        rt: &R,
        alloc: Global,
        left: &LogBytes<'_>,
        plan: &Plan,
    ) -> Result<FoundLog, Fault>
        ensures finds { FindsFrom left.now result }
        ensures within { IfOk result (λ l. StandsWithin l.kernel (length left.now)) }
    {
        let front = RedoneFront::redone_at(rt, alloc, left, CARRIED_AT as u64, plan)?;
        behind(alloc, &front)
    }
}
