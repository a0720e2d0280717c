//! The commands of the program, and what each does, over a reader and a writer.

ghost use Rattle.std.specs.Prelude.{◌≡◌, ℕ, ◌<◌, List, Some};
ghost use Rattle.rq_tool.specs.Commands.{AccountsOn, ActsOn, ActsOnly, command_line};
ghost use Rattle.rq_tool.specs.Streams.{ReadFaults, TakesInput, WriteFaults};

use crate::door::{run, run_at, through};
use crate::made_logs::make_log_in;
use crate::works::Work;
use rq_report::{Input, Output};
use rq_restart::{Fault, Gate, Plan, Version};
use std::alloc::Global;
use std::marker::Sync;
use std::thread::Threads;

/// What a line of words asks of the program.
#[derive(Clone, Copy)]
pub enum Command<'a> {
    /// Write the log of a script in version 1.
    Make {
        script: &'a str,
        log: &'a str,
    },
    /// Write the log of a script in version 2.
    Make2 {
        script: &'a str,
        log: &'a str,
    },
    /// Print the report of a log.
    Restart {
        log: &'a str,
        plan: Plan,
    },
    /// Print the report of a log from the checkpoint at an offset.
    RestartAt {
        log: &'a str,
        offset: u64,
        plan: Plan,
    },
    /// Print which checkpoints of a log are true.
    Audit {
        log: &'a str,
        plan: Plan,
    },
    /// Write the closed log.
    Close {
        log: &'a str,
        out: &'a str,
        plan: Plan,
    },
    /// Write the log in version 2.
    Upgrade {
        log: &'a str,
        out: &'a str,
        plan: Plan,
    },
}

/// Reads the command's first file from `input` and writes to `output` what the command prints or
/// puts into its second file: what `make_log_in`, `run`, `run_at` or `through` writes, with their
/// faults. Nothing is written before all bytes are there.
pub fn act<R: Threads + Sync, I: Input, O: Output, G: Gate + Sync>(
    rt: &R,
    alloc: Global,
    command: &Command<'_>,
    input: &mut I,
    output: &mut O,
    gate: &G,
) -> Result<(), Fault>
    requires reads { I.faults input.old < 18446744073709551615 }
    requires writes { O.faults output.old < 18446744073709551615 }
    ensures acts { (b : List ℕ) → I.remaining input.old ≡ Some b
        → ActsOn (command_line command.now) b
        (O.contents output.old) (O.contents output.new) result }
    ensures accounts { (b : List ℕ) → I.remaining input.old ≡ Some b
        → AccountsOn (command_line command.now) b
        (O.contents output.old) (O.contents output.new) result }
    ensures quiet { ActsOnly (command_line command.now)
        (O.contents output.old) (O.contents output.new) result }
    ensures takes { TakesInput (I.remaining input.old) (I.remaining input.new) result }
    ensures read_faults { ReadFaults (I.faults input.old) (I.faults input.new) result }
    ensures write_faults { WriteFaults (O.faults output.old) (O.faults output.new) result }
{
    match command {
        Command::Make { .. } => make_log_in(rt, alloc, Version::One, input, output),
        Command::Make2 { .. } => make_log_in(rt, alloc, Version::Two, input, output),
        Command::Restart { plan, .. } => run(rt, alloc, input, output, plan, gate),
        Command::RestartAt { offset, plan, .. } => {
            run_at(rt, alloc, input, output, *offset, plan, gate)
        }
        Command::Audit { plan, .. } => {
            through(rt, alloc, input, output, Work::Audit, plan, gate)
        }
        Command::Close { plan, .. } => {
            through(rt, alloc, input, output, Work::Close, plan, gate)
        }
        Command::Upgrade { plan, .. } => {
            through(rt, alloc, input, output, Work::Upgrade, plan, gate)
        }
    }
}
