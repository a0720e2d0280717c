//! A checkpoint of a state, behind the front of a log too, and the ABORTs before it.

ghost use Rattle.std.specs.Prelude.{◌≡◌, ◌<◌, [], ◌∷◌, map, OnOk, IfOk, IfErr};
ghost use Rattle.rq_model.specs.Records as model;
ghost use Rattle.rq_model.specs.Machine.{run};
ghost use Rattle.rq_model.specs.StateSpelling.{carried_next};
ghost use Rattle.rq_state.specs.Views.{unit_of};
ghost use Rattle.rq_journal.specs.Checkpoints.{EndsUnits, MakesCheckpoint, Marks, MarksTruly};
ghost use Rattle.rq_journal.specs.Checkpoints.{MarksTrulyThere};
ghost use Rattle.rq_journal.specs.Checkpoints.{SpellsBody, StaysUnended, StaysUnmarked, unmarked};
ghost use Rattle.rq_journal.specs.Growths.{GrowsBy, StaysGrown};

use crate::appender::NotTaken;
use crate::growths::Growth;
use rq_front::LOG_LIMIT;
use rq_record::{CheckBytes, Fault, KeptRecord, Record, UnitNo, encode};
use rq_standing::{Machine, Taken};
use rq_state::{State, spell_carried};
use std::alloc::Global;

// What the frame of an ABORT has: 36 bytes, and the 9 of its body.
const ABORT_LEN: usize = 45;

// A checkpoint of a state. `TooLong` if it numbers more than 9,223,372,036,854,775,807 records,
// `TooLarge` if its spelling has more than 268,435,455 bytes, and `Resources` if memory is refused.
#[tactic(auto, using(crate::proofs::WithCheckpoint::unspelled))]
fn checkpoint_of(alloc: Global, state: &State) -> Result<Record, Fault>
    ensures { MakesCheckpoint state.now result }
{
    if state.next() > State::CARRIED_RECORDS {
        return Err(Fault::TooLong);
    }
    match CheckBytes::new(spell_carried(alloc, state)?) {
        Some(bytes) => Ok(Record::Checkpoint { bytes }),
        None => Err(Fault::TooLarge),
    }
}

/// The body of a checkpoint of a state. Refused as `checkpoint_of` is.
pub(crate) fn checkpoint_body(alloc: Global, state: &State) -> Result<Vec<u8>, Fault>
    ensures { SpellsBody state.now result }
{
    rq_model::one_spelling();
    let checkpoint = checkpoint_of(alloc, state)?;
    let mut body = Vec::new(alloc);
    encode(&checkpoint, &mut body)?;
    Ok(body)
}

/// Why no checkpoint is gathered.
#[derive(Clone, Copy, PartialEq, Eq, Debug)]
pub enum NotMarked {
    /// So many records would be numbered that no state behind one more can be spelled:
    /// 9,223,372,036,854,775,807.
    Ended,
    /// With it the log would have more than 4,294,967,295 bytes.
    Full,
    /// The spelling of the state has more than 268,435,455 bytes.
    Large,
    /// The host refused memory.
    Resources,
}

// Why a record that is lawful is not taken.
fn unmarked(why: NotTaken) -> NotMarked
    ensures { result ≡ unmarked why }
{
    match why {
        NotTaken::Full => NotMarked::Full,
        NotTaken::Ended => NotMarked::Ended,
        _ => NotMarked::Resources,
    }
}

impl Growth {
    // Ends a unit by an ABORT, on the machine too.
    fn end_unit(
        &mut self,
        alloc: Global,
        machine: &mut Machine,
        unit: UnitNo,
    ) -> Result<(), NotMarked>
        ensures grown { OnOk result
            (GrowsBy self.old self.new (model.Abort (unit_of unit) ∷ [])) }
        ensures state { OnOk result
            (machine.new ≡ run machine.old (model.Abort (unit_of unit) ∷ [])) }
        ensures refused { IfErr result (λ why. why ≡ NotMarked.Resources) }
        ensures end { self.new.end ≡ self.old.end }
    {
        let Ok(()) = self.append(alloc, &Record::Abort { unit }) else {
            return Err(NotMarked::Resources);
        };
        match machine.take(alloc, self.version(), &KeptRecord::Abort { unit }) {
            Ok(Taken::Done(_)) => Ok(()),
            _ => Err(NotMarked::Resources),
        }
    }

    // The same of these units, in turn.
    fn end_each(
        &mut self,
        alloc: Global,
        machine: &mut Machine,
        units: &[UnitNo],
    ) -> Result<(), NotMarked>
        ensures grown { OnOk result (GrowsBy self.old self.new
            (map model.Abort (map unit_of units.now))) }
        ensures state { OnOk result (machine.new
            ≡ run machine.old (map model.Abort (map unit_of units.now))) }
        ensures refused { IfErr result (λ why. why ≡ NotMarked.Resources) }
        ensures end { self.new.end ≡ self.old.end }
    {
        for unit in units {
            self.end_unit(alloc, machine, *unit)?;
        }
        Ok(())
    }

    /// Gathers an ABORT for each unit that is open in the state where it stands, rising. The state
    /// behind them. If memory is refused, nothing is known of the frames from then on; else, if it
    /// is refused, nothing is gathered.
    pub fn end_units(&mut self, alloc: Global, state: &State) -> Result<State, NotMarked>
        ensures ended { IfOk result (EndsUnits self.old self.new state.now) }
        ensures refused { IfErr result (StaysUnended self.old state.now) }
        ensures end { self.new.end ≡ self.old.end }
    {
        let units = state.units();
        let count = units.len();
        if count as u64 > State::CARRIED_RECORDS.saturating_sub(state.next()) {
            return Err(NotMarked::Ended);
        }
        if count > LOG_LIMIT.saturating_sub(self.len()) / ABORT_LEN {
            return Err(NotMarked::Full);
        }
        let Ok(mut machine) = Machine::of(alloc, state) else {
            return Err(NotMarked::Resources);
        };
        self.end_each(alloc, &mut machine, units)?;
        match machine.state(alloc) {
            Ok(state) => Ok(state),
            Err(_) => Err(NotMarked::Resources),
        }
    }

    /// Gathers a checkpoint of the state where it stands. Its offset in the log, where it is true: a
    /// restart from it and one of the whole log have one report; in a carried file a restart from it is
    /// the one from the checkpoint that the file begins with. If it is refused, nothing is gathered.
    pub fn append_checkpoint(&mut self, alloc: Global, state: &State) -> Result<usize, NotMarked>
        ensures marked { IfOk result (Marks self.old self.new state.now) }
        ensures number { IfOk result (λ offset. state.now.next < carried_next) }
        ensures truth { IfOk result (MarksTruly self.old self.new state.now) }
        ensures there { IfOk result (MarksTrulyThere self.old self.new state.now) }
        ensures refused { IfErr result (StaysUnmarked self.old state.now) }
        ensures stays { IfErr result (λ why. StaysGrown self.old self.new) }
        ensures end { self.new.end ≡ self.old.end }
    {
        rq_model::appended_logs();
        rq_model::appended_checkpoints();
        rq_model::true_checkpoints_report_the_same();
        rq_model::continued_logs();
        rq_model::one_report();
        if state.next() >= State::CARRIED_RECORDS {
            return Err(NotMarked::Ended);
        }
        let checkpoint = match checkpoint_of(alloc, state) {
            Ok(checkpoint) => checkpoint,
            Err(Fault::TooLarge) => return Err(NotMarked::Large),
            Err(_) => return Err(NotMarked::Resources),
        };
        let offset = self.len();
        match self.append(alloc, &checkpoint) {
            Ok(()) => Ok(offset),
            Err(why) => Err(unmarked(why)),
        }
    }
}
