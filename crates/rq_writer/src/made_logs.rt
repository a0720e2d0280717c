//! From a script to a log: each script has one answer.

ghost use Rattle.rq_model.specs.Records.{One};
ghost use Rattle.rq_record.specs.Views.{version_of};
ghost use Rattle.rq_writer.specs.Made.{Made, EveryScriptHasAnswer, OneAnswer};

use crate::log::Log;
use crate::readers::line_at;
use rq_plan::Plan;
use rq_record::{Fault, Version};
use std::alloc::Global;
use std::thread::Threads;

/// The log of a script in a version: the header, then one frame for each line. Records are written
/// as told, unlawful ones too. A line `checkpoint` becomes a checkpoint of the state after the
/// front of the log so far. A line `kill` is a line only in version 2.
///
/// The fault of the earliest line that has one: `Script` with its number, counted from 1, if it is
/// no line; `TooLarge` for a `checkpoint` whose spelling has more than 268,435,455 bytes; `TooLong`
/// if the log would pass 4,294,967,295 bytes. `Resources` if the host refuses memory.
pub fn make_in<R: Threads + Sync>(
    rt: &R,
    alloc: Global,
    version: Version,
    script: &[u8],
    plan: &Plan,
) -> Result<Vec<u8>, Fault>
    ensures { Made (version_of version) (λ v. v.items) script.now result }
{
    let mut log = Log::start(alloc, version)?;
    let mut rest = script;
    let mut n = 0;
    while !rest.is_empty() {
        let (text, after) = line_at(n + 1, rest)?;
        log.add_line(rt, alloc, version, plan, n + 1, text)?;
        rest = after;
        n += 1;
    }
    Ok(log.out)
}

/// The log of a script in version 1: `make_in` of that version.
pub fn make<R: Threads + Sync>(
    rt: &R,
    alloc: Global,
    script: &[u8],
    plan: &Plan,
) -> Result<Vec<u8>, Fault>
    ensures { Made One (λ v. v.items) script.now result }
{
    make_in(rt, alloc, Version::One, script, plan)
}

/// Every script, of whatever bytes, has a log or a fault, and only one. If a line has a fault, the
/// script's fault is that of the earliest such line.
pub fn one_answer()
    ensures some { EveryScriptHasAnswer }
    ensures one { OneAnswer }
{
    rq_model::one_run();
    rq_model::one_spelling();
    rq_model::one_front();
    rq_model::frames_join();
}
