//! The front of a log that is read piece by piece.

ghost use Rattle.std.specs.Prelude.{◌≡◌, ◌≤◌, ◌<◌, ◌+◌, ◌++◌, ℕ, List, [], length, take, IfOk};
ghost use Rattle.std.specs.Prelude.{IfErr, OnOk};
ghost use Rattle.rq_record.specs.declared.fault.Fault.TheVariants.{Resources};
ghost use Rattle.rq_judged.specs.GrowingFronts.{GoesAlong, IsStageOf, RefusesMore};
ghost use Rattle.rq_judged.specs.JudgedFronts.{JudgesFront};
ghost use Rattle.rq_judged.specs.declared.growing_front.Stage.TheVariants.{Frames};

use crate::front_pass::grain_of;
use crate::judged::JudgedFront;
use crate::window::{WindowPass, stopped};
use rq_front::{HEADER_LEN, version};
use rq_plan::Plan;
use rq_record::Fault;
use std::alloc::Global;
use std::marker::Sync;
use std::thread::Threads;

// How much of a log has come: fewer bytes than a header has, or a header and what follows it.
#[derive(Drop)]
enum Stage {
    Header(Vec<u8>),
    Frames(WindowPass),
}

/// The front of a log that comes piece by piece, and of which no more is held than is looked at.
///
/// It keeps a judge, and of the log what was not looked at yet: 16 MiB and the last piece, and as
/// much more as has come of the next frame. No record is kept, and no queue is redone. The time
/// grows with the bytes, however small the pieces are.
#[derive(Drop)]
pub struct GrowingFront {
    stage: Stage,
}

// The first 40 bytes of two parts.
fn header_in(alloc: Global, first: &[u8], more: &[u8]) -> Result<Vec<u8>, Fault>
    requires first { length first.now < 40 }
    requires more { 40 ≤ length first.now + length more.now }
    ensures header { IfOk result (λ header. header.items ≡ take 40 (first.now ++ more.now)) }
    ensures refused { IfErr result (λ e. e ≡ Resources) }
{
    let missing = HEADER_LEN - first.len();
    let mut header = Vec::with_capacity(alloc, HEADER_LEN)?;
    header.extend_from_slice(first)?;
    header.extend_from_slice(&more[..missing])?;
    Ok(header)
}

// A pass behind the header that two parts of a log begin with.
fn begun<R: Threads + Sync>(
    rt: &R,
    alloc: Global,
    first: &[u8],
    more: &[u8],
    grain: u32,
) -> Result<WindowPass, Fault>
    requires grain { 1 ≤ grain }
    requires first { length first.now < 40 }
    requires more { 40 ≤ length first.now + length more.now }
    ensures begun { IfOk result (λ pass. IsStageOf (first.now ++ more.now) (Frames pass)) }
    ensures refused { IfErr result (RefusesMore (first.now ++ more.now)) }
{
    let header = header_in(alloc, first, more)?;
    let Some(version) = version(&header) else {
        return Err(Fault::NotALog);
    };
    let mut pass = WindowPass::new(alloc, version, header);
    pass.feed(rt, alloc, more.split_at(HEADER_LEN - first.len()).1, grain)?;
    Ok(pass)
}

impl GrowingFront {
    /// Goes along with a log of which no byte has come yet. Takes no memory.
    pub fn new(alloc: Global) -> GrowingFront
        ensures { GoesAlong [] result }
    {
        GrowingFront {
            stage: Stage::Header(Vec::new(alloc)),
        }
    }

    /// Goes along with further bytes of the log.
    ///
    /// `TooLong` if there are more than 4,294,967,295 bytes with them, `NotALog` if the first 40
    /// bytes are no version's header, and `Resources` if memory is refused. It then goes along with
    /// the bytes that came before.
    pub fn feed<R: Threads + Sync>(
        &mut self,
        rt: &R,
        alloc: Global,
        more: &[u8],
        plan: &Plan,
    ) -> Result<(), Fault>
        requires { (b : List ℕ) × GoesAlong b self.old }
        ensures taken { OnOk result ((b : List ℕ) → GoesAlong b self.old
            → GoesAlong (b ++ more.now) self.new) }
        ensures kept { IfErr result
            (λ e. (b : List ℕ) → GoesAlong b self.old → GoesAlong b self.new) }
        ensures refused { IfErr result
            (λ e. (b : List ℕ) → GoesAlong b self.old → RefusesMore (b ++ more.now) e) }
    {
        let grain = grain_of(plan);
        match &mut self.stage {
            Stage::Frames(pass) => pass.feed(rt, alloc, more, grain),
            Stage::Header(first) if more.len() < HEADER_LEN - first.len() => {
                first.extend_from_slice(more)?;
                Ok(())
            }
            Stage::Header(first) => {
                let pass = begun(rt, alloc, first, more, grain)?;
                self.stage = Stage::Frames(pass);
                Ok(())
            }
        }
    }

    /// Where the front ends of the bytes that came, and a judge that stands there: what
    /// `JudgedFront::of` answers of them.
    pub fn judged<R: Threads + Sync>(
        self,
        rt: &R,
        alloc: Global,
        plan: &Plan,
    ) -> Result<JudgedFront, Fault>
        requires { (b : List ℕ) × GoesAlong b self }
        ensures { (b : List ℕ) → GoesAlong b self → JudgesFront b result }
    {
        rq_model::frames_join();
        rq_model::one_front();
        match self.stage {
            Stage::Header(_) => Err(Fault::NotALog),
            Stage::Frames(pass) => stopped(rt, alloc, pass, grain_of(plan)),
        }
    }
}
