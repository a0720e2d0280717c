//! Where the front of a log ends, why, and which rule ends it.

ghost use Rattle.std.specs.Prelude.{◌≡◌, ℕ, false, is_some, List, length, drop, IfOk, IfErr};
ghost use Rattle.rq_model.specs.Spelling.{Spells};
ghost use Rattle.rq_model.specs.Machine.{is_lawful};
ghost use Rattle.rq_model.specs.Fronts.{IsWhy};
ghost use Rattle.rq_model.specs.Records as records;
ghost use Rattle.rq_model.specs.Reports.{why_text};
ghost use Rattle.rq_model.specs.States as model;
ghost use Rattle.rq_record.specs.declared.fault.Fault.TheVariants.{Resources};
ghost use Rattle.rq_catalog.specs.Judges.{StandsIn};
ghost use Rattle.rq_judged.specs.FrontEnds.{FindsEnd, FindsEndAt, is_law};
ghost use Rattle.rq_judged.specs.Views.{why_of};

use crate::checkpoint::Begun;
use crate::frames::body_at;
use crate::judged::{JudgedFront, judged_behind};
use rq_catalog::Judge;
use rq_lawful::Rule;
use rq_plan::Plan;
use rq_record::{Fault, decode_kept};
use rq_state::State;
use std::alloc::Global;
use std::marker::Sync;
use std::thread::Threads;

/// Why the front of a log ends: what stands behind it.
#[derive(Clone, Copy, PartialEq, Eq, Debug)]
pub enum Why {
    /// Nothing.
    Whole,
    /// Fewer bytes than a length has, or than its frame has.
    Cut,
    /// A length that no body has.
    Length,
    /// A frame whose digest is wrong.
    Chain,
    /// A frame whose body no record spells.
    Form,
    /// A record that is not lawful there.
    Law,
}

impl Why {
    /// The most bytes that a crash leaves behind a front if they are no beginning of a frame.
    pub const TORN_LEN: usize = 1_048_576;

    /// The word for it, as the first line of a report has it.
    pub fn word(self) -> &'static str
        ensures { result.now ≡ why_text (why_of self) }
    {
        match self {
            Why::Whole => "whole",
            Why::Cut => "cut",
            Why::Length => "length",
            Why::Chain => "chain",
            Why::Form => "form",
            Why::Law => "law",
        }
    }
}

/// Where the front of a log ends, and why, as those find it who pass over its records. The front
/// begins behind the header of the log, or at a checkpoint.
#[derive(Clone, Copy, PartialEq, Eq, Debug)]
pub struct Edge {
    /// How many of the log's bytes the front takes, and all that stands before it.
    pub used: usize,
    /// How many records the front itself has: a checkpoint that it begins with is the first of them,
    /// and what stands before that is not counted.
    pub records: usize,
    /// Why the front ends.
    pub why: Why,
}

/// Where the front of a log ends, and why: numbers of its restart.
#[derive(Clone, Copy, PartialEq, Eq, Debug)]
pub struct FrontEnd {
    /// The next record number at the end of the front: how many records there are up to there, with
    /// those that are numbered before a checkpoint that the front begins with.
    pub next: u64,
    /// How many of the log's bytes the front takes, and all that stands before it.
    pub used: u64,
    /// How many bytes the log has.
    pub total: u64,
    /// Why the front ends.
    pub why: Why,
}

// The rule that the record breaks which a body spells, and which is not lawful there.
fn rule_of(alloc: Global, judge: &Judge, body: &[u8]) -> Result<Rule, Fault>
    requires { (version : records.Version) × (s : model.State) × StandsIn version judge.now s
        × (r : records.Record) × Spells version r body.now × (is_lawful version s r ≡ false) }
    ensures { IfErr result (λ e. e ≡ Resources) }
{
    match decode_kept(alloc, judge.version(), body) {
        Ok(record) => match judge.broken(&record) {
            Some(rule) => Ok(rule),
            None => unreachable!(),
        },
        Err(Fault::Form) => unreachable!(),
        Err(fault) => Err(fault),
    }
}

// The rule that ends a front, if one does.
fn rule_behind(alloc: Global, front: &JudgedFront, bytes: &[u8]) -> Result<Option<Rule>, Fault>
    requires { (version : records.Version) × (s : model.State) × StandsIn version front.now.judge s
        × (p : List ℕ) × IsWhy version s p (drop front.now.end.used bytes.now)
        (why_of front.now.end.why) }
    ensures rule { IfOk result (λ rule. is_some rule ≡ is_law (why_of front.now.end.why)) }
    ensures refused { IfErr result (λ e. e ≡ Resources) }
{
    match front.end.why {
        Why::Law => {
            let rule = rule_of(alloc, &front.judge, body_at(bytes, front.end.used))?;
            Ok(Some(rule))
        }
        Why::Whole | Why::Cut | Why::Length | Why::Chain | Why::Form => Ok(None),
    }
}

// The end of a front that was judged, behind which the next record has this number.
fn numbers_of(front: &JudgedFront, next: u64, bytes: &[u8]) -> FrontEnd
    ensures next { result.next ≡ next }
    ensures used { result.used ≡ front.now.end.used }
    ensures total { result.total ≡ length bytes.now }
    ensures why { why_of result.why ≡ why_of front.now.end.why }
{
    FrontEnd {
        next,
        used: front.end.used as u64,
        total: bytes.len() as u64,
        why: front.end.why,
    }
}

impl FrontEnd {
    /// Where the front of a log ends, and why, as its restart says it; and the rule that the record
    /// behind it breaks, exactly if it ends by that. The log is read once; no queue is redone.
    ///
    /// No record is kept, so beside the bytes this takes memory for the queues, registrants and open
    /// units alone, and for a part of the log, whose length does not grow with it.
    ///
    /// Refuses with `TooLong` more than 4,294,967,295 bytes, with `NotALog` bytes that begin with no
    /// version's header, and with `Resources` where memory is refused.
    pub fn of<R: Threads + Sync>(
        rt: &R,
        alloc: Global,
        bytes: &[u8],
        plan: &Plan,
    ) -> Result<(FrontEnd, Option<Rule>), Fault>
        ensures { FindsEnd bytes.now result }
    {
        rq_model::numbers_after();
        rq_model::runs_are_well_formed();
        let front = JudgedFront::of(rt, alloc, bytes, plan)?;
        let rule = rule_behind(alloc, &front, bytes)?;
        Ok((numbers_of(&front, front.end.records as u64, bytes), rule))
    }

    /// The same of the front of a carried file that is read as a log, from the checkpoint at an offset
    /// on, as the restart from there says it: it begins in the state that the checkpoint spells.
    ///
    /// Refused as `restart_at` is, but for states of greater record numbers.
    pub fn ended_at<R: Threads + Sync>(
        rt: &R,
        alloc: Global,
        bytes: &[u8],
        offset: u64,
        plan: &Plan,
    ) -> Result<(FrontEnd, Option<Rule>), Fault>
        ensures { FindsEndAt bytes.now offset result }
    {
        rq_model::numbers_after();
        let most = State::CARRIED_RECORDS;
        let begun = Begun::begun_at(rt, alloc, bytes, offset, most, plan)?;
        let front = judged_behind(alloc, &begun, bytes)?;
        let rule = rule_behind(alloc, &front, bytes)?;
        let number = begun.state.next() + front.end.records as u64;
        Ok((numbers_of(&front, number, bytes), rule))
    }
}
