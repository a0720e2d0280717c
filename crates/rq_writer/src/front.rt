//! The front of the log that is being made.

ghost use Rattle.std.specs.Prelude.{◌≡◌, ◌∷◌, ◌++◌, List, [], IfErr, OnOk};
ghost use Rattle.rq_model.specs.Records as model;
ghost use Rattle.rq_record.specs.declared.fault.Fault.TheVariants.{Resources};
ghost use Rattle.rq_record.specs.Views.{record_of, version_of};
ghost use Rattle.rq_writer.specs.Fronts.{IsFrontAfter, AreLogged, SpellsFront};
ghost use Rattle.rq_writer.specs.Made.{IsStateOf};

use rq_exchange::front_redone;
use rq_plan::Plan;
use rq_record::{CheckBytes, Fault, KeptRecord, Record, Version};
use rq_state::{State, spell};
use std::alloc::Global;
use std::thread::Threads;

/// The state after the first records of the log, and the records after these, until one of them is
/// found to be unlawful. So a checkpoint costs the records since the one before it, not the whole
/// log.
#[derive(Drop)]
pub(crate) struct MadeFront {
    state: State,
    since: Vec<KeptRecord>,
    ended: bool,
}

impl MadeFront {
    /// The front of a log without records.
    pub(crate) fn start(alloc: Global) -> MadeFront
        ensures { (version : model.Version) → IsFrontAfter version result [] }
    {
        MadeFront {
            state: State::empty(alloc),
            since: Vec::new(alloc),
            ended: false,
        }
    }

    /// Takes the next record of the log.
    pub(crate) fn keep(&mut self, alloc: Global, r: &Record) -> Result<(), Fault>
        ensures kept { OnOk result ((version : model.Version) (rs : List model.Record) →
            IsFrontAfter version self.old rs
            → IsFrontAfter version self.new (rs ++ record_of r.now ∷ [])) }
        ensures refused { IfErr result (λ e. e ≡ Resources) }
    {
        if !self.ended {
            let kept = KeptRecord::of(alloc, r)?;
            self.since.push(kept)?;
        }
        Ok(())
    }

    // Runs the records after the state, as far as they are lawful.
    fn catch_up<R: Threads + Sync>(
        &mut self,
        rt: &R,
        alloc: Global,
        version: Version,
        plan: &Plan,
    ) -> Result<(), Fault>
        requires { (rs : List model.Record) × IsFrontAfter (version_of version) self.old rs
            × AreLogged (version_of version) rs }
        ensures state { OnOk result
            ((rs : List model.Record) → IsFrontAfter (version_of version) self.old rs
            → AreLogged (version_of version) rs → IsFrontAfter (version_of version) self.new rs
            × IsStateOf (version_of version) rs self.new.state) }
        ensures refused { IfErr result (λ e. e ≡ Resources) }
    {
        rq_model::one_front();
        rq_model::one_run();
        rq_model::one_spelling();
        if self.ended {
            return Ok(());
        }
        let since = self.since.as_slice();
        let (state, count) = front_redone(rt, alloc, version, &self.state, since, plan)?;
        self.ended = count < since.len();
        self.state = state;
        self.since.clear();
        Ok(())
    }

    /// A checkpoint of the state after the front of the log. `TooLarge` if its spelling is too long
    /// for a record.
    pub(crate) fn spelled<R: Threads + Sync>(
        &mut self,
        rt: &R,
        alloc: Global,
        version: Version,
        plan: &Plan,
    ) -> Result<Record, Fault>
        requires { (rs : List model.Record) × IsFrontAfter (version_of version) self.old rs
            × AreLogged (version_of version) rs }
        ensures { SpellsFront (version_of version) self.old self.new result }
    {
        self.catch_up(rt, alloc, version, plan)?;
        match CheckBytes::new(spell(alloc, &self.state)?) {
            Some(bytes) => Ok(Record::Checkpoint { bytes }),
            None => Err(Fault::TooLarge),
        }
    }
}
