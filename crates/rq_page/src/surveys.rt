//! What one walk over the front finds for a page.

ghost use Rattle.std.specs.Prelude.{◌≡◌, IfErr};
ghost use Rattle.rq_record.specs.declared.fault.Fault.TheVariants.{Resources};
ghost use Rattle.rq_found.specs.declared.trouble.Trouble.TheVariants.{Log};

use crate::curves::{Curve, bin_of};
use rq_found::{Effect, End, Event, Followed, Numbered, PlacedFrames, Trouble, kind_of};
use rq_queue::Fate;
use rq_record::{Fault, KeptRecord, QueueNo};
use rq_state::{Mark, State};
use std::alloc::{AllocError, Global};
use std::collections::BTreeMap;

/// In so many bins the length of a log is cut.
pub(crate) const BINS: u64 = 200;

/// In so many it is cut for the depth of a queue.
pub(crate) const FEW_BINS: u64 = 64;

/// How many records of each kind begin in a bin, or in all.
pub(crate) type Bin = BTreeMap<&'static str, u64>;

/// What one walk over the front finds.
#[derive(Drop)]
pub(crate) struct Survey {
    /// The records by kind, of all bins and of each.
    pub(crate) kinds: Bin,
    pub(crate) bins: Vec<Bin>,
    /// The free elements of each queue.
    pub(crate) depths: Vec<Curve>,
    /// The open units.
    pub(crate) open: Curve,
    /// The offset of the BEGIN of each unit that is open; of one that was open where the log was
    /// carried on, that of the checkpoint that the log begins with.
    pub(crate) begun: BTreeMap<u64, u64>,
}

// Counts one more record of this kind.
fn count(bin: &mut Bin, kind: &'static str) -> Result<(), AllocError> {
    if let Some(count) = bin.get_mut(&kind) {
        *count = count.saturating_add(1);
        return Ok(());
    }
    bin.insert(kind, 1)?;
    Ok(())
}

// The queue that has one free element more, or one fewer, as an element's unit ends or it is killed.
fn change_by(it: &Numbered, fate: Fate) -> Option<(u32, bool)> {
    match fate {
        Fate::Freed(queue) | Fate::Back(queue, _) | Fate::Moved(queue) => Some((queue.0, true)),
        // A commit's elements were taken before; a KILL's was free.
        Fate::Gone => match &it.record {
            KeptRecord::Kill { queue, .. } => Some((queue.0, false)),
            _ => None,
        },
        Fate::Undone => None,
    }
}

// The queue that has one free element more, or one fewer.
fn change_of(it: &Numbered, event: &Event) -> Option<(u32, bool)> {
    let Event::To(_, effect) = event else {
        return None;
    };
    match effect {
        Effect::Taken => match it.queue() {
            Some(queue) => Some((queue.0, false)),
            None => None,
        },
        Effect::Ended(fate) => change_by(it, *fate),
        Effect::Put => None,
    }
}

// How many free elements a queue has in a state.
fn free_count(state: &State, queue: QueueNo) -> u64 {
    let mut count: u64 = 0;
    for index in state.elements_of(queue) {
        if let Some(e) = state.elements().get(*index) {
            if e.mark == Mark::Free {
                count = count.saturating_add(1);
            }
        }
    }
    count
}

impl Survey {
    // Before the first record.
    fn new(alloc: Global) -> Result<Survey, AllocError> {
        let mut bins = Vec::with_capacity(alloc, BINS as usize)?;
        for _ in 0..BINS {
            bins.push(BTreeMap::new(alloc))?;
        }
        Ok(Survey {
            kinds: BTreeMap::new(alloc),
            bins,
            depths: Vec::new(alloc),
            open: Curve::new(alloc),
            begun: BTreeMap::new(alloc),
        })
    }

    // A record that begins or ends a unit, or defines a queue.
    fn take_record(&mut self, alloc: Global, it: &Numbered, bin: u64) -> Result<(), AllocError> {
        match &it.record {
            KeptRecord::Define { .. } => self.depths.push(Curve::new(alloc))?,
            KeptRecord::Begin { unit } => {
                self.begun.insert(unit.0, it.offset)?;
                self.open.change(bin, true)?
            }
            KeptRecord::Commit { unit } | KeptRecord::Abort { unit } => {
                self.begun.remove(&unit.0);
                self.open.change(bin, false)?
            }
            _ => {}
        }
        Ok(())
    }

    // What happens to elements at a record: which queues have one free element more, or one fewer.
    fn take_events(&mut self, it: &Numbered, events: &[Event], bin: u64) -> Result<(), AllocError> {
        for event in events {
            let Some((queue, grows)) = change_of(it, event) else {
                continue;
            };
            if let Some(depth) = self.depths.get_mut(queue as usize) {
                depth.change(bin, grows)?;
            }
        }
        Ok(())
    }

    // A record, and what happens at it.
    fn take(
        &mut self,
        alloc: Global,
        it: &Numbered,
        events: &[Event],
        total: u64,
    ) -> Result<(), AllocError> {
        let (kind, bin) = (kind_of(&it.record), bin_of(it.offset, total, BINS));
        count(&mut self.kinds, kind)?;
        if let Some(kinds) = self.bins.get_mut(bin as usize) {
            count(kinds, kind)?;
        }
        self.take_record(alloc, it, bin)?;
        self.take_events(it, events, bin_of(it.offset, total, FEW_BINS))
    }

    // All records of the front.
    fn walk(&mut self, alloc: Global, bytes: &[u8], first: &State, end: &End) -> Result<(), Fault>
        ensures { IfErr result (λ e. e ≡ Resources) }
    {
        let mut followed = Followed::of(alloc, first)?;
        for placed in PlacedFrames::front_frames(bytes, first, end.at, end.front.used) {
            let it = followed.follow(placed)?;
            self.take(alloc, &it, followed.events(), end.front.total)?;
        }
        Ok(())
    }

    // The units that are open in the state that the log begins with.
    fn begin_units(&mut self, first: &State, end: &End) -> Result<(), AllocError> {
        let at = end.at.unwrap_or(0);
        for unit in first.units() {
            self.begun.insert(unit.0, at)?;
        }
        let bin = bin_of(at, end.front.total, BINS);
        self.open.set(bin, first.units().len() as u64)
    }

    // The queues of the state that the log begins with.
    fn begin_queues(&mut self, alloc: Global, first: &State, end: &End) -> Result<(), AllocError> {
        let bin = bin_of(end.at.unwrap_or(0), end.front.total, FEW_BINS);
        let mut number: u32 = 0;
        for _ in first.definitions() {
            let mut depth = Curve::new(alloc);
            depth.set(bin, free_count(first, QueueNo(number)))?;
            self.depths.push(depth)?;
            number = number.saturating_add(1);
        }
        Ok(())
    }

    // Behind the front the depths are those after the restart's aborts.
    fn close(&mut self, state: &State, end: &End) -> Result<(), AllocError> {
        let bin = bin_of(end.front.used, end.front.total, FEW_BINS);
        let mut number: u32 = 0;
        for depth in self.depths.iter_mut() {
            depth.set(bin, state.elements_of(QueueNo(number)).len() as u64)?;
            number = number.saturating_add(1);
        }
        Ok(())
    }
}

/// What the front of the log shows that begins behind the first state, and of which the state after
/// its restart is known.
pub(crate) fn surveyed(
    alloc: Global,
    bytes: &[u8],
    first: &State,
    end: &End,
    state: &State,
) -> Result<Survey, Trouble>
    ensures { IfErr result (λ e. e ≡ Log Resources) }
{
    let mut seen = Survey::new(alloc)?;
    seen.begin_units(first, end)?;
    seen.begin_queues(alloc, first, end)?;
    seen.walk(alloc, bytes, first, end)?;
    seen.close(state, end)?;
    Ok(seen)
}
