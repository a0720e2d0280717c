//! From the words of a command line to a command.

ghost use Rattle.std.specs.Prelude.{map};
ghost use Rattle.rq_tool.specs.Commands.{IsCommand, IsPlanOf, IsWorkersPlanOf};
ghost use Rattle.rq_writer.specs.Decimals.{IsNumber};

use crate::commands::Command;
use rq_restart::Plan;
use rq_writer::decimal_number;

// The grain of a line that names none, in frames.
const GRAIN: u32 = 1000;

fn small(word: &str) -> Option<u32>
    ensures { IsNumber 4294967295 word.now result }
{
    let number = decimal_number(4_294_967_295, word.as_bytes())?;
    Some(number as u32)
}

fn plan(workers: &str, grain: &str) -> Option<Plan>
    ensures { IsPlanOf workers.now grain.now result }
{
    let workers = small(workers)?;
    let grain = small(grain)?;
    Plan::new(workers, grain)
}

#[tactic(auto, using(crate::proofs::Plans::workers_plan_of))]
fn workers_plan(workers: &str) -> Option<Plan>
    ensures { IsWorkersPlanOf workers.now result }
{
    let workers = small(workers)?;
    Plan::new(workers, GRAIN)
}

/// The command whose line has these words after the program's name; none where they are of no line.
/// Numbers are decimal without leading zeros; workers, grain and offset are in their ranges. It
/// takes no memory.
pub fn command<'a>(words: &[&'a str]) -> Option<Command<'a>>
    ensures { IsCommand (map (λ w. w.now) words.now) result }
{
    match words {
        ["make", script, log] => Some(Command::Make { script, log }),
        ["make2", script, log] => Some(Command::Make2 { script, log }),
        ["restart", log, workers, grain] => {
            let plan = plan(workers, grain)?;
            Some(Command::Restart { log, plan })
        }
        ["restart-at", log, offset, workers, grain] => {
            let offset = decimal_number(u64::MAX, offset.as_bytes())?;
            let plan = plan(workers, grain)?;
            Some(Command::RestartAt { log, offset, plan })
        }
        ["audit", log, workers] => {
            let plan = workers_plan(workers)?;
            Some(Command::Audit { log, plan })
        }
        ["close", log, out, workers] => {
            let plan = workers_plan(workers)?;
            Some(Command::Close { log, out, plan })
        }
        ["upgrade", log, out, workers] => {
            let plan = workers_plan(workers)?;
            Some(Command::Upgrade { log, out, plan })
        }
        _ => None,
    }
}
