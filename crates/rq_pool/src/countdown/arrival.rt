//! An arrival as its pass remembers it.

ghost use Rattle.std.specs.Prelude.{◌≡◌, [], ◌∷◌, ◌++◌};
ghost use Rattle.rq_pool.specs.Countdowns.History.{entry};

use diary::{Diary, Noting};
use std::snapshot::Snapshot;

/// What an arrival is answered.
#[derive(Drop)]
pub enum Arrival<T> {
    /// The source had arrived before. The outbox comes back.
    Twice(T),
    /// Some source has not arrived yet.
    NotLast,
    /// All sources have arrived: their outboxes, in the order of the sources.
    Last(Vec<T>),
}

/// One arrival: its source, its outbox and its answer. No value of this type is made.
pub struct Entry<T> {
    pub source: u32,
    pub outbox: T,
    pub answer: Arrival<T>,
}

/// What the note of an arrival is about.
pub(crate) struct Told<T> {
    source: u32,
    outbox: Snapshot<T>,
    answer: Arrival<T>,
}

pub(crate) struct Enter;

impl<T> Noting<Told<T>, Entry<T>> for Enter {
    ghost entry = { λ t. entry t.source t.outbox.value t.answer };
}

/// Remembers the arrival, and gives its answer.
pub(crate) fn noted<T>(
    diary: &mut Diary<Entry<T>>,
    source: u32,
    outbox: Snapshot<T>,
    answer: Arrival<T>,
) -> Arrival<T>
    ensures answer { result ≡ answer }
    ensures entry { diary.new ≡ diary.old ++ entry source outbox.value answer ∷ [] }
{
    let told = Told {
        source,
        outbox,
        answer,
    };
    diary.enter::<Told<T>, Enter>(&told);
    let Told {
        source: _,
        outbox,
        answer,
    } = told;
    drop(outbox);
    answer
}
