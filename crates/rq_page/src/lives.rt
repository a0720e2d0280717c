//! What became of elements, units and registrants.

ghost use Rattle.std.specs.Prelude.{◌≡◌, IfErr};
ghost use Rattle.rq_record.specs.declared.fault.Fault.TheVariants.{Resources};
ghost use Rattle.rq_found.specs.declared.trouble.Trouble.TheVariants.{Log};

use crate::records::{Happening, put_row};
use crate::shown::{Linkable, Linked};
use crate::steps::{At, STEPS, Step, step_of, step_of_operation, step_of_unit};
use rq_found::{End, Event, Followed, Numbered, PlacedFrames, Trouble, unit_of};
use rq_record::{Fault, KeptRecord, Name};
use rq_state::State;
use std::alloc::{AllocError, Global};
use std::collections::BTreeMap;

// While the rows have fewer bytes, more of them are made.
const ROWS: usize = 1_800_000;

/// The steps of those whose lives are shown.
#[derive(Drop)]
pub(crate) struct Lives {
    /// The rows of the records.
    pub(crate) rows: String,
    /// The number of the first record that is left out, if one is.
    pub(crate) until: Option<u64>,
    /// How many rows there are.
    pub(crate) count: u64,
    /// How many more there would be.
    pub(crate) more: u64,
    /// The steps of each element.
    pub(crate) elements: BTreeMap<u64, Vec<Step>>,
    /// The steps of each unit.
    pub(crate) units: BTreeMap<u64, Vec<Step>>,
    /// The steps of each registrant, by queue and name.
    pub(crate) registrants: BTreeMap<(u32, Name), Vec<Step>>,
}

// Adds a step to the life of this name, unless it has as many as are kept.
fn add<K: Ord + Copy>(
    alloc: Global,
    lives: &mut BTreeMap<K, Vec<Step>>,
    name: K,
    step: &Step,
) -> Result<(), AllocError> {
    if let Some(steps) = lives.get_mut(&name) {
        if steps.len() < STEPS {
            steps.push(*step)?;
        }
        return Ok(());
    }
    let mut steps = Vec::new(alloc);
    steps.push(*step)?;
    lives.insert(name, steps)?;
    Ok(())
}

// A life without a step for each number that was asked for.
fn begun(alloc: Global, asked: &[u64]) -> Result<BTreeMap<u64, Vec<Step>>, AllocError> {
    let mut lives = BTreeMap::new(alloc);
    for number in asked.iter().copied() {
        lives.insert(number, Vec::new(alloc))?;
    }
    Ok(lives)
}

impl Lives {
    /// Before the first record.
    pub(crate) fn new(alloc: Global, shown: &Linked<'_>) -> Result<Lives, AllocError> {
        Ok(Lives {
            rows: String::new(alloc),
            until: None,
            count: 0,
            more: 0,
            elements: begun(alloc, shown.elements)?,
            units: begun(alloc, shown.units)?,
            registrants: BTreeMap::new(alloc),
        })
    }

    /// Whether there is a life of a registrant of a queue.
    pub(crate) fn has_registrant(&self, queue: u32, name: &str) -> bool {
        match Name::new(name.as_bytes()) {
            Some(name) => self.registrants.contains_key(&(queue, name)),
            None => false,
        }
    }

    // What happens to elements. Answers whether one of them is shown.
    fn take_elements(
        &mut self,
        alloc: Global,
        shown: &Linked<'_>,
        events: &[Event],
        at: At,
        unit: Option<u64>,
    ) -> Result<bool, AllocError> {
        let mut is_shown = false;
        for event in events {
            let Event::To(element, _) = event else {
                continue;
            };
            if shown.shows(Linkable::Element, *element) {
                let step = Step {
                    element: None,
                    unit,
                    ..step_of(event, at)
                };
                add(alloc, &mut self.elements, *element, &step)?;
                is_shown = true;
            }
        }
        Ok(is_shown)
    }

    // What a unit does. Answers whether it is shown.
    fn take_unit(
        &mut self,
        alloc: Global,
        shown: &Linked<'_>,
        it: &Numbered,
        events: &[Event],
    ) -> Result<bool, AllocError> {
        let Some(unit) = unit_of(&it.record) else {
            return Ok(false);
        };
        if !shown.shows(Linkable::Unit, unit.0) {
            return Ok(false);
        }
        let step = match (step_of_unit(it), events.first()) {
            (Some(step), _) => step,
            (None, Some(event)) => step_of(event, At::Record(it.number)),
            (None, None) => return Ok(true),
        };
        add(alloc, &mut self.units, unit.0, &step)?;
        Ok(true)
    }

    // What a registrant does.
    fn take_registrant(
        &mut self,
        alloc: Global,
        it: &Numbered,
        events: &[Event],
    ) -> Result<(), AllocError> {
        let at = At::Record(it.number);
        let (queue, name, step) = match &it.record {
            KeptRecord::Register { queue, name } => {
                (queue, Some(name), Step::of("begins", "is registered", at))
            }
            KeptRecord::Deregister { queue, name } => {
                (
                    queue,
                    Some(name),
                    Step::of("gone", "is registered no more", at),
                )
            }
            KeptRecord::Enqueue { queue, by, .. } | KeptRecord::Dequeue { queue, by, .. } => {
                let tag = by.by().map(|by| by.tag);
                (
                    queue,
                    by.name(),
                    Step {
                        tag,
                        ..step_of_operation(it, events)
                    },
                )
            }
            _ => return Ok(()),
        };
        match name {
            Some(name) => add(alloc, &mut self.registrants, (queue.0, name.name()), &step),
            None => Ok(()),
        }
    }

    // The row of a record, if there is room for it.
    fn take_row(
        &mut self,
        alloc: Global,
        shown: &Linked<'_>,
        done: &Happening<'_>,
    ) -> Result<(), AllocError> {
        if self.rows.len() >= ROWS {
            self.more = self.more.saturating_add(1);
            self.until = self.until.or(Some(done.it.number));
            return Ok(());
        }
        self.count = self.count.saturating_add(1);
        put_row(alloc, &mut self.rows, shown, done)
    }

    // A record, and what happens at it.
    fn take(&mut self, alloc: Global, shown: &Linked<'_>, done: &Happening<'_>) -> Result<(), Fault>
        ensures { IfErr result (λ e. e ≡ Resources) }
    {
        let (it, events) = (done.it, done.events);
        let unit = unit_of(&it.record).map(|unit| unit.0);
        let of_element = self.take_elements(alloc, shown, events, At::Record(it.number), unit)?;
        let of_unit = self.take_unit(alloc, shown, it, events)?;
        if shown.all {
            self.take_registrant(alloc, it, events)?;
        }
        if shown.all || of_element || of_unit {
            self.take_row(alloc, shown, done)?;
        }
        Ok(())
    }

    // All records of the front, of whose checkpoints it is known whether they are true.
    fn walk(
        &mut self,
        alloc: Global,
        shown: &Linked<'_>,
        frames: PlacedFrames<'_>,
        followed: &mut Followed,
        truths: &BTreeMap<u64, bool>,
    ) -> Result<(), Fault>
        ensures { IfErr result (λ e. e ≡ Resources) }
    {
        for placed in frames {
            let truth = truths.get(&placed.offset).copied().unwrap_or(true);
            let it = followed.follow(placed)?;
            let done = Happening {
                it: &it,
                events: followed.events(),
                truth,
            };
            self.take(alloc, shown, &done)?;
        }
        Ok(())
    }

    // What the restart does to the units that are open behind the front.
    fn take_restart(
        &mut self,
        alloc: Global,
        shown: &Linked<'_>,
        followed: &mut Followed,
    ) -> Result<(), Fault>
        ensures { IfErr result (λ e. e ≡ Resources) }
    {
        for unit in followed.machine().open_units(alloc)? {
            followed.abort(unit)?;
            self.take_elements(alloc, shown, followed.events(), At::Restart, Some(unit.0))?;
            if shown.shows(Linkable::Unit, unit.0) {
                let step = Step::of("back", "aborted", At::Restart);
                add(alloc, &mut self.units, unit.0, &step)?;
            }
        }
        Ok(())
    }
}

// Which checkpoints are true, by their offsets.
fn truths_of(
    alloc: Global,
    checkpoints: &[(u64, bool)],
) -> Result<BTreeMap<u64, bool>, AllocError> {
    let mut truths = BTreeMap::new(alloc);
    for (offset, truth) in checkpoints {
        truths.insert(*offset, *truth)?;
    }
    Ok(truths)
}

/// The lives that are shown of a log whose front begins behind the first state, and of whose
/// checkpoints it is known whether they are true.
pub(crate) fn lives_of(
    alloc: Global,
    bytes: &[u8],
    first: &State,
    end: &End,
    shown: &Linked<'_>,
    checkpoints: &[(u64, bool)],
) -> Result<Lives, Trouble>
    ensures { IfErr result (λ e. e ≡ Log Resources) }
{
    let mut lives = Lives::new(alloc, shown)?;
    if shown.is_nobody() {
        return Ok(lives);
    }
    let truths = truths_of(alloc, checkpoints)?;
    let mut followed = Followed::of(alloc, first)?;
    let frames = PlacedFrames::front_frames(bytes, first, end.at, end.front.used);
    lives.walk(alloc, shown, frames, &mut followed, &truths)?;
    lives.take_restart(alloc, shown, &mut followed)?;
    Ok(lives)
}
