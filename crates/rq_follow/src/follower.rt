//! A standby of a log.

ghost use Rattle.std.specs.Prelude.{◌≡◌, ◌≤◌, ◌↔◌, ◌++◌, ℕ, [], List, length, IfOk, IfErr, IsTrue, OnOk};
ghost use Rattle.rq_front.specs.Chains.{IsCarried};
ghost use Rattle.rq_follow.specs.Followers.{EndsBytes, IsFollowing, RedoesBytes, RefusesBytes};
ghost use Rattle.rq_follow.specs.Followers.{StandsBytes, TellsBehind};

use crate::beginning::{Coming, joined, stage_linked, stage_of};
use crate::pass::Standing;
use rq_judged::{Edge, grain_of};
use rq_plan::Plan;
use rq_record::Fault;
use rq_restart::RedoneFront;
use std::alloc::Global;
use std::marker::Sync;
use std::thread::Threads;

/// Goes along with a log as its bytes come: each record is judged and done as soon as its frame is
/// whole. So the state at the end of the bytes is there when they end.
///
/// It keeps a machine, and the bytes of a frame that is not whole yet. A piece costs its bytes and the
/// members that its records touch, times a logarithm, whatever else the state has.
#[derive(Drop)]
pub struct Follower {
    stage: Coming,
}

impl Follower {
    /// Goes along with a log of which no byte has come yet. Takes no memory.
    pub fn new(alloc: Global) -> Follower
        ensures { IsFollowing [] result }
    {
        Follower {
            stage: Coming::Header(Vec::new(alloc)),
        }
    }

    /// Goes along with further bytes of the log.
    ///
    /// `TooLong` if there are more than 4,294,967,295 bytes with them, `NotALog` if the first 40
    /// bytes are no header of a log or a carried file, `NoCheckpoint` if a carried file does not begin
    /// with a checkpoint, `BadCheckpoint` if that spells no state, and `Resources` if memory is
    /// refused. It is of no more use then.
    pub fn take<R: Threads + Sync>(
        &mut self,
        rt: &R,
        alloc: Global,
        more: &[u8],
        plan: &Plan,
    ) -> Result<(), Fault>
        requires { (b : List ℕ) × IsFollowing b self.old }
        ensures taken { OnOk result ((b : List ℕ) → IsFollowing b self.old
            → IsFollowing (b ++ more.now) self.new) }
        ensures refused { IfErr result
            (λ e. (b : List ℕ) → IsFollowing b self.old → RefusesBytes (b ++ more.now) e) }
    {
        rq_model::carried_headers();
        let grain = grain_of(plan);
        match &mut self.stage {
            Coming::Plain(pass) => pass.take(rt, alloc, more, grain),
            Coming::Carried(pass) => pass.take(rt, alloc, more, grain),
            Coming::Header(first) => {
                let bytes = joined(alloc, first, more)?;
                let stage = stage_of(rt, alloc, bytes, plan)?;
                self.stage = stage;
                Ok(())
            }
            Coming::Linked(first) => {
                let log = joined(alloc, first, more)?;
                let grown = stage_linked(rt, alloc, log, plan)?;
                self.stage = grown;
                Ok(())
            }
        }
    }

    /// How many bytes came.
    pub fn bytes_come(&self) -> usize
        requires { (b : List ℕ) × IsFollowing b self.now }
        ensures { (b : List ℕ) → IsFollowing b self.now → result ≡ length b }
    {
        rq_model::carried_headers();
        match &self.stage {
            Coming::Plain(pass) => pass.total,
            Coming::Carried(pass) => pass.total,
            Coming::Header(first) => first.len(),
            Coming::Linked(first) => first.len(),
        }
    }

    /// Whether what comes is a carried file; that is not known before its header came.
    pub fn is_carried(&self) -> bool
        requires { (b : List ℕ) × IsFollowing b self.now }
        ensures { (b : List ℕ) → IsFollowing b self.now → IsTrue result ↔ IsCarried b }
    {
        rq_model::carried_headers();
        match &self.stage {
            Coming::Header(_) => false,
            Coming::Plain(_) => false,
            Coming::Linked(_) => true,
            Coming::Carried(_) => true,
        }
    }

    /// Where the front ends of the bytes that came, and why; none as long as it does not begin.
    pub fn end(&self) -> Option<Edge>
        requires { (b : List ℕ) × IsFollowing b self.now }
        ensures { (b : List ℕ) → IsFollowing b self.now → EndsBytes b result }
    {
        rq_model::carried_headers();
        rq_model::one_front();
        match &self.stage {
            Coming::Plain(pass) => Some(pass.end()),
            Coming::Carried(pass) => Some(pass.end()),
            Coming::Header(_) => None,
            Coming::Linked(_) => None,
        }
    }

    /// The last 32 bytes of the front, and behind them what follows it; nothing as long as the front
    /// does not begin.
    pub fn what_follows(&self) -> &[u8]
        requires { (b : List ℕ) × IsFollowing b self.now }
        ensures { (b : List ℕ) → IsFollowing b self.now → TellsBehind b result.now }
    {
        rq_model::carried_headers();
        rq_model::one_front();
        match &self.stage {
            Coming::Plain(pass) => pass.left_over(),
            Coming::Carried(pass) => pass.left_over(),
            Coming::Header(_) => &[],
            Coming::Linked(_) => &[],
        }
    }

    /// The front of the bytes that came, and the state behind it, as `RedoneFront::of` finds them; a
    /// carried file's, as it is read, as `RedoneFront::redone_at` does. Refused as these are.
    pub fn redone(&self, alloc: Global) -> Result<RedoneFront, Fault>
        requires { (b : List ℕ) × IsFollowing b self.now }
        ensures front { (b : List ℕ) → IsFollowing b self.now → RedoesBytes b result }
        ensures within { IfOk result
            (λ front. (b : List ℕ) → IsFollowing b self.now → front.end.used ≤ length b) }
    {
        rq_model::carried_headers();
        rq_model::one_front();
        rq_model::frames_join();
        rq_model::frames_are_right();
        match &self.stage {
            Coming::Plain(pass) => pass.redone(alloc),
            Coming::Carried(pass) => pass.redone(alloc),
            Coming::Header(_) => Err(Fault::NotALog),
            Coming::Linked(_) => Err(Fault::NoCheckpoint),
        }
    }

    /// The front of the bytes that came, and the machine that stands behind it: what a manager goes on
    /// from. A carried file's are those of the log as which it is read. Refused with `NotALog` if no
    /// header came, and with `NoCheckpoint` if a carried file's first frame is not whole yet. Takes no
    /// memory.
    pub fn into_standing(self) -> Result<Standing, Fault>
        requires { (b : List ℕ) × IsFollowing b self }
        ensures { (b : List ℕ) → IsFollowing b self → StandsBytes b result }
    {
        rq_model::carried_headers();
        rq_model::one_front();
        match self.stage {
            Coming::Plain(pass) => Ok(pass.handed_over()),
            Coming::Carried(pass) => Ok(pass.handed_over()),
            Coming::Header(_) => Err(Fault::NotALog),
            Coming::Linked(_) => Err(Fault::NoCheckpoint),
        }
    }
}
