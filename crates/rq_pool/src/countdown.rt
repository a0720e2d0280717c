//! A countdown: sources arrive with an outbox each, and the pass whose arrival is the last takes
//! them all.

ghost use Rattle.std.specs.Prelude.{◌≡◌, ◌+◌, ◌<◌, ◌≤◌, [], ◌∷◌, ◌++◌, All, length, map, IfOk};
ghost use Rattle.std.specs.Prelude.{IfErr, vec_capacity};
ghost use Rattle.rq_record.specs.declared.fault.Fault.TheVariants.{Resources};

mod arrival;
mod closing;
mod deal;
mod fits;
mod gather;
mod home;
mod joined;
mod pass;
mod plays;
mod steps;

pub use arrival::Arrival;
use arrival::noted;
use atomic_table::Table;
use closing::Arrivals;
pub use closing::Closing;
use deal::{push_seats, rooms};
use diary::Diary;
pub use fits::Fits;
use gather::collect_outboxes;
use home::{discard, empty};
use joined::{find_last, join_all};
pub use pass::Pass;
use plays::{Counts, Terms, View};
use rq_record::Fault;
use std::alloc::Global;
use std::snapshot::Snapshot;
use steps::{claim, hand_in};

/// It has a flag and a slot for each source, and the number of sources that were not counted. It
/// may be lent to threads, and each of its passes moved to one.
#[derive(Drop)]
pub struct Countdown<T: Fits> {
    pub(crate) table: Table<Option<T>, View<T, T::Key>, Terms<T::Key>, Counts<T>, Global>,
    pub(crate) home: Vec<T>,
    pub(crate) sources: u32,
    ghost sized: { (table.shared.table_id.words ≡ sources + 1)
        × (table.shared.table_id.slots ≡ sources) × (home.items ≡ [])
        × (sources ≤ vec_capacity home) × (0 < table.shared.key.passes) },
}

impl<T: Fits> Countdown<T> {
    ghost use Rattle.rq_pool.specs.Countdowns.Words.{IsPassOf, key_of, sources_of, passes_of};
    ghost use Rattle.rq_pool.specs.Countdowns.Words.{history_of};

    /// A countdown of 1 to 4,095 sources, which are numbered from 0, with 1 to 64 passes. All
    /// memory of it and of its passes is taken here. `Resources` if the host refuses it, and then
    /// the key is dropped.
    pub fn open(
        alloc: Global,
        key: T::Key,
        sources: u32,
        passes: u32,
    ) -> Result<(Countdown<T>, Vec<Pass<T>>), Fault>
        requires sources { (0 < sources) × (sources < 4096) }
        requires passes { (0 < passes) × (passes ≤ 64) }
        ensures countdown { IfOk result
            (λ r. (sources_of r.0 ≡ sources) × (key_of r.0 ≡ key) × (passes_of r.0 ≡ passes)) }
        ensures count { IfOk result (λ r. length r.1.items ≡ passes) }
        ensures own { IfOk result (λ r. All (IsPassOf r.0) r.1.items) }
        ensures fresh { IfOk result (λ r. All (λ p. history_of p ≡ []) r.1.items) }
        ensures refused { IfErr result (λ e. e ≡ Resources) }
    {
        let home = Vec::with_capacity(alloc, sources as usize)?;
        let rooms = rooms(alloc, sources, passes)?;
        let mut list = Vec::with_capacity(alloc, passes as usize)?;
        let mut words = Vec::from_elem(alloc, 0u64, sources as usize + 1)?;
        words[0] = u64::from(sources);
        let terms = Terms {
            key,
            passes: u64::from(passes),
        };
        let (table, seat) = Table::vacant(alloc, words.as_slice(), sources as usize, &terms)?;
        push_seats(&table.shared, seat, rooms, &mut list);
        let countdown = Countdown {
            table,
            home,
            sources,
        };
        Ok((countdown, list))
    }
}

impl<T: Fits> Countdown<T> {
    ghost use Rattle.rq_pool.specs.Countdowns.Words.{IsPassOf, key_of, sources_of, history_of};
    ghost use Rattle.rq_pool.specs.Countdowns.History.{Answered, entry};

    /// The arrival of a source with its outbox, answered as `Arrival` tells. It takes no memory and
    /// waits for nobody.
    pub fn arrive(&self, pass: &mut Pass<T>, source: u32, outbox: T) -> Arrival<T>
        requires own { IsPassOf self.now pass.old }
        requires source { source < sources_of self.now }
        requires fits { T.fits (key_of self.now) source outbox }
        ensures own { IsPassOf self.now pass.new }
        ensures told { history_of pass.new
            ≡ history_of pass.old ++ entry source outbox result ∷ [] }
        ensures answer { Answered (T.fits (key_of self.now)) (sources_of self.now) outbox result }
    {
        let board = &self.table.shared;
        let shown = Snapshot::of(&outbox);
        if !claim(board, &mut pass.seat, source) {
            return noted(&mut pass.diary, source, shown, Arrival::Twice(outbox));
        }
        if !hand_in(board, &mut pass.seat, source, outbox) {
            return noted(&mut pass.diary, source, shown, Arrival::NotLast);
        }
        match pass.room.take() {
            Some(mut room) => {
                collect_outboxes(board, &mut pass.seat, self.sources, &mut room);
                noted(&mut pass.diary, source, shown, Arrival::Last(room))
            }
            None => unreachable!(),
        }
    }
}

impl<T: Fits> Countdown<T> {
    ghost use Rattle.rq_pool.specs.Countdowns.Words.{IsPassOf, sources_of, passes_of, history_of};
    ghost use Rattle.rq_pool.specs.Countdowns.Words.{history_in, TellsLast};
    ghost use Rattle.rq_pool.specs.Countdowns.Words.{arrived_of, last_in, home_of, histories_of};
    ghost use Rattle.rq_pool.specs.Countdowns.Arrivals.{Settled};

    /// What the arrivals came to, with the arrivals of each pass in the order in which the passes
    /// are handed in. The passes are those of this countdown, all of them, in any order. It takes
    /// no memory and waits for nobody.
    pub fn close(self, passes: Vec<Pass<T>>) -> Closing<T>
        requires own { All (IsPassOf self) passes.items }
        requires all { length passes.items ≡ passes_of self }
        ensures settled { Settled (sources_of self)
            (history_in passes.items) (arrived_of result) (home_of result) }
        ensures last { TellsLast passes.items (last_in result) }
        ensures histories { histories_of result ≡ map history_of passes.items }
    {
        let histories = Diary::of::<Vec<Pass<T>>, Arrivals>(&passes);
        let last = find_last(&passes);
        let Countdown {
            table,
            mut home,
            sources,
        } = self;
        let seat = join_all(&table.shared, passes);
        let closed = table.close_with(seat);
        let waiting = closed.word(0) as u32;
        let arrived = sources - waiting;
        match last {
            None => empty(closed, sources, &mut home),
            Some(_) => discard(closed, sources),
        }
        Closing {
            arrived,
            last,
            home,
            histories,
        }
    }
}
