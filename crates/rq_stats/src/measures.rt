//! What one walk over the front of a log counts: records, units, payloads and queues.

ghost use Rattle.std.specs.Prelude.{◌≡◌, IfErr};
ghost use Rattle.rq_record.specs.declared.fault.Fault.TheVariants.{Resources};

use crate::rows::Value::{Number, Word};
use crate::rows::{PAYLOADS, Row, UNITS, put_greatest};
use rq_found::{
    Effect, End, Event, Followed, Numbered, PlacedFrames, ShownLog, kind_of, queues_of,
};
use rq_front::FRAME_LEN;
use rq_queue::Fate;
use rq_record::{Fault, KeptRecord, Name, QueueNo, UnitNo};
use rq_standing::Machine;
use rq_state::{Definition, State};
use std::alloc::{AllocError, Global};
use std::collections::BTreeMap;

/// The records of a kind, and the bytes of their frames.
#[derive(Clone, Copy)]
pub(crate) struct Kind {
    pub(crate) kind: &'static str,
    pub(crate) records: u64,
    pub(crate) bytes: u64,
}

/// What one walk over the front counts.
#[derive(Drop)]
pub(crate) struct Measures {
    /// By the number of the kind.
    pub(crate) kinds: BTreeMap<u8, Kind>,
    pub(crate) committed: u64,
    pub(crate) aborted: u64,
    pub(crate) cut_off: u64,
    /// The largest payloads, the largest first.
    pub(crate) loads: Vec<Row<'static>>,
    /// The units that were open longest, the longest first.
    pub(crate) units: Vec<Row<'static>>,
    /// The names of the queues, by number.
    pub(crate) names: Vec<Name>,
    /// How many elements moved there since their takers aborted too often, by the queue's number.
    pub(crate) moves: Vec<u64>,
    /// How many free elements there are after the restart, by the queue's number.
    pub(crate) depths: Vec<u64>,
    // The record of the BEGIN of each open unit, or the first one of a log that was carried on.
    begun: BTreeMap<u64, u64>,
}

impl Measures {
    fn new(alloc: Global) -> Measures {
        Measures {
            kinds: BTreeMap::new(alloc),
            committed: 0,
            aborted: 0,
            cut_off: 0,
            loads: Vec::new(alloc),
            units: Vec::new(alloc),
            names: Vec::new(alloc),
            moves: Vec::new(alloc),
            depths: Vec::new(alloc),
            begun: BTreeMap::new(alloc),
        }
    }

    fn take_names(&mut self, definitions: &[Definition]) -> Result<(), AllocError> {
        for definition in definitions {
            self.take_name(&definition.name)?;
        }
        Ok(())
    }

    fn take_name(&mut self, name: &Name) -> Result<(), AllocError> {
        self.names.push(*name)?;
        self.moves.push(0)?;
        Ok(())
    }

    fn take_units(&mut self, units: &[UnitNo], number: u64) -> Result<(), AllocError> {
        for unit in units {
            self.begun.insert(unit.0, number)?;
        }
        Ok(())
    }

    fn take_kind(&mut self, body: &[u8], kind: &'static str) -> Result<(), AllocError> {
        let number = body.first().copied().unwrap_or(0);
        let bytes = body.len().saturating_add(FRAME_LEN) as u64;
        if let Some(known) = self.kinds.get_mut(&number) {
            known.records = known.records.saturating_add(1);
            known.bytes = known.bytes.saturating_add(bytes);
            return Ok(());
        }
        let records = 1;
        let kind = Kind {
            kind,
            records,
            bytes,
        };
        self.kinds.insert(number, kind)?;
        Ok(())
    }

    fn end_unit(&mut self, unit: u64, number: u64, fate: &'static str) -> Result<(), AllocError> {
        let Some(begun) = self.begun.remove(&unit) else {
            return Ok(());
        };
        let rank = number.saturating_sub(begun);
        let row = Row {
            sort: &UNITS,
            fields: [Number(unit), Number(rank), Word(fate)],
            rank,
        };
        put_greatest(&mut self.units, &row)
    }

    fn take_record(&mut self, it: &Numbered) -> Result<(), AllocError> {
        match &it.record {
            KeptRecord::Define { name, .. } => self.take_name(&name.name()),
            KeptRecord::Begin { unit } => {
                self.begun.insert(unit.0, it.number)?;
                Ok(())
            }
            KeptRecord::Commit { unit } => {
                self.committed = self.committed.saturating_add(1);
                self.end_unit(unit.0, it.number, "committed")
            }
            KeptRecord::Abort { unit } => {
                self.aborted = self.aborted.saturating_add(1);
                self.end_unit(unit.0, it.number, "aborted")
            }
            KeptRecord::Enqueue { payload, .. } => {
                let rank = payload.bytes().len() as u64;
                let row = Row {
                    sort: &PAYLOADS,
                    fields: [Number(rank), Number(it.offset), Number(it.number)],
                    rank,
                };
                put_greatest(&mut self.loads, &row)
            }
            _ => Ok(()),
        }
    }

    fn take_events(&mut self, events: &[Event]) {
        for event in events {
            let Event::To(_, Effect::Ended(Fate::Moved(queue))) = event else {
                continue;
            };
            if let Some(moves) = self.moves.get_mut(queue.0 as usize) {
                *moves = moves.saturating_add(1);
            }
        }
    }

    // A record, and what happens at it.
    fn take(&mut self, body: &[u8], it: &Numbered, events: &[Event]) -> Result<(), AllocError> {
        self.take_events(events);
        self.take_kind(body, kind_of(&it.record))?;
        self.take_record(it)
    }

    // Does all records of the front.
    fn walk(&mut self, frames: PlacedFrames<'_>, followed: &mut Followed) -> Result<(), Fault>
        ensures { IfErr result (λ e. e ≡ Resources) }
    {
        for placed in frames {
            let it = followed.follow(placed)?;
            self.take(placed.body, &it, followed.events())?;
        }
        Ok(())
    }

    // Aborts the units that are open behind the front, as a restart does.
    fn restart(&mut self, alloc: Global, followed: &mut Followed, number: u64) -> Result<(), Fault>
        ensures { IfErr result (λ e. e ≡ Resources) }
    {
        for unit in followed.machine().open_units(alloc)? {
            followed.abort(unit)?;
            self.take_events(followed.events());
            self.cut_off = self.cut_off.saturating_add(1);
            self.end_unit(unit.0, number, "cut off")?;
        }
        Ok(())
    }

    // Does all of a front that begins behind a state, and its restart.
    fn take_all(
        &mut self,
        alloc: Global,
        first: &State,
        frames: PlacedFrames<'_>,
        end: &End,
    ) -> Result<(), Fault>
        ensures { IfErr result (λ e. e ≡ Resources) }
    {
        let mut followed = Followed::of(alloc, first)?;
        self.take_names(first.definitions())?;
        self.take_units(first.units(), first.next())?;
        self.walk(frames, &mut followed)?;
        self.restart(alloc, &mut followed, end.front.next)?;
        self.depths = depths_of(alloc, followed.machine())?;
        Ok(())
    }
}

// How many free elements each queue has, by number.
fn depths_of(alloc: Global, state: &Machine) -> Result<Vec<u64>, AllocError> {
    let mut depths = Vec::new(alloc);
    for queue in 0..queues_of(state.definitions()) {
        depths.push(state.depth(QueueNo(queue)) as u64)?;
    }
    Ok(depths)
}

/// What the front of a log counts.
pub(crate) fn counted(alloc: Global, log: &ShownLog<'_>, end: &End) -> Result<Measures, Fault>
    ensures { IfErr result (λ e. e ≡ Resources) }
{
    let first = ShownLog::first_state(alloc, log.bytes, log.at)?;
    let frames = PlacedFrames::front_frames(log.bytes, &first, log.at, end.front.used);
    let mut measures = Measures::new(alloc);
    measures.take_all(alloc, &first, frames, end)?;
    Ok(measures)
}
