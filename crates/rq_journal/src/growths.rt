//! The frames of records that are to be written behind the front of a log.

ghost use Rattle.std.specs.Prelude.{◌≡◌, ◌<◌, ◌∷◌, ◌++◌, ℕ, List, [], IfErr, IfOk, OnOk};
ghost use Rattle.rq_model.specs.Records as model;
ghost use Rattle.rq_model.specs.States.{empty};
ghost use Rattle.rq_model.specs.Machine.{run};
ghost use Rattle.rq_model.specs.StateSpelling.{carried_next};
ghost use Rattle.rq_record.specs.Views.{record_of, version_of};
ghost use Rattle.rq_record.specs.declared.fault.Fault.TheVariants.{Resources};
ghost use Rattle.rq_front.specs.Framers.{Place};
ghost use Rattle.rq_judged.specs.JudgedFronts.{IsJudged, IsJudgedAt};
ghost use Rattle.rq_restart.specs.RedoneFronts.{IsRedoneAt, IsRedoneFront};
ghost use Rattle.rq_journal.specs.Growths.{AreWrittenBehind, AreWrittenFrom, GrowsBy, IsGrownAt};
ghost use Rattle.rq_journal.specs.Growths.{IsGrownBehind, IsGrownFrom, StaysGrown, StopsGrowing};

use crate::appender::{Appender, NotTaken};
use rq_catalog::Judge;
use rq_front::Framer;
use rq_judged::{Edge, JudgedFront};
use rq_record::{Fault, Record, Version};
use rq_restart::RedoneFront;
use std::alloc::Global;

/// Stands where the front of a log ends, takes records there one by one, and gathers their frames.
/// Whatever beginning of these is written there, the front has each record whose frame is wholly
/// there, and no other.
#[derive(Drop)]
pub struct Growth {
    pub(crate) appender: Appender,
    pub(crate) end: Edge,
    pub(crate) frames: Vec<u8>,
}

impl Growth {
    // No records yet, behind a front that was judged, where the next record has this number.
    pub(crate) fn numbered(alloc: Global, front: JudgedFront, next: u64) -> Growth
        ensures whole { (b : List ℕ) (h : IsJudged b front) → next ≡ (run empty h.records).next
            → IsGrownBehind b [] result }
        ensures from { (b : List ℕ) (offset : ℕ) (h : IsJudgedAt b offset front)
            → next ≡ (run h.base (model.Checkpoint h.kept ∷ h.after)).next
            → IsGrownFrom b offset [] result }
        ensures end { result.end ≡ front.end }
    {
        let JudgedFront { judge, last, end } = front;
        let framer = Framer::after(last, end.used);
        Growth {
            appender: Appender {
                judge,
                framer,
                next,
            },
            end,
            frames: Vec::new(alloc),
        }
    }

    /// No records yet, behind the front of a log that was judged.
    pub fn behind_judged(alloc: Global, front: JudgedFront) -> Growth
        ensures whole { (b : List ℕ) → IsJudged b front → IsGrownBehind b [] result }
        ensures end { result.end ≡ front.end }
    {
        let next = front.end.records as u64;
        Growth::numbered(alloc, front, next)
    }

    /// No records yet, behind a front of which the state was made. Refused with `Resources` alone.
    pub fn behind_redone(alloc: Global, front: &RedoneFront) -> Result<Growth, Fault>
        ensures whole { IfOk result (λ growth. (b : List ℕ) → IsRedoneFront b front.now
            → IsGrownBehind b [] growth) }
        ensures from { IfOk result (λ growth. (b : List ℕ) (offset : ℕ)
            → IsRedoneAt b offset front.now → IsGrownFrom b offset [] growth) }
        ensures end { IfOk result (λ growth. growth.end ≡ front.now.end) }
        ensures refused { IfErr result (λ e. e ≡ Resources) }
    {
        let judge = Judge::of(alloc, front.version, &front.state)?;
        let judged = JudgedFront {
            judge,
            last: front.last,
            end: front.end,
        };
        let growth = Growth::numbered(alloc, judged, front.state.next());
        Ok(growth)
    }

    /// The version by whose rules it takes records.
    pub fn version(&self) -> Version
        ensures { (at : Place) (rs xs : List model.Record) → IsGrownAt at rs xs self.now
            → version_of result ≡ at.version }
    {
        self.appender.version()
    }

    /// Where the front ends, and why.
    pub fn end(&self) -> Edge
        ensures { result ≡ self.now.end }
    {
        self.end
    }

    /// How many bytes the log has with the frames.
    pub fn len(&self) -> usize
        ensures { result ≡ self.now.appender.framer.len }
    {
        self.appender.framer.len()
    }

    /// The number of the next record, over all files of the log.
    pub fn next(&self) -> u64
        ensures number { result ≡ self.now.appender.next }
        ensures state { (at : Place) (rs xs : List model.Record) → IsGrownAt at rs xs self.now
            → result ≡ (run at.state (rs ++ xs)).next }
    {
        self.appender.next
    }

    /// Takes the next record, and gathers its frame. If it is not taken, nothing is gathered, and
    /// the next one can be tried.
    pub fn append(&mut self, alloc: Global, next: &Record) -> Result<(), NotTaken>
        ensures taken { OnOk result (GrowsBy self.old self.new (record_of next.now ∷ [])) }
        ensures number { OnOk result (self.old.appender.next < carried_next) }
        ensures refused { IfErr result (StopsGrowing self.old (record_of next.now)) }
        ensures stays { IfErr result (λ why. StaysGrown self.old self.new) }
        ensures end { self.new.end ≡ self.old.end }
    {
        self.appender.append(alloc, next, &mut self.frames)
    }

    /// The frames, which are to be written where the front ends.
    pub fn frames(&self) -> &[u8]
        ensures bytes { result.now ≡ self.now.frames.items }
        ensures whole { (b : List ℕ) (xs : List model.Record) → IsGrownBehind b xs self.now
            → AreWrittenBehind b xs result.now }
        ensures from { (b : List ℕ) (offset : ℕ) (xs : List model.Record)
            → IsGrownFrom b offset xs self.now → AreWrittenFrom b offset xs result.now }
    {
        rq_model::appended_logs();
        &self.frames
    }
}
