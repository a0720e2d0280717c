//! How long a spelling is, known before its first byte is written.

ghost use Rattle.std.specs.Prelude.{◌≡◌, ◌≤◌, ◌*◌, ℕ, length, map, option_map};
ghost use Rattle.std.specs.List.{flat_map};
ghost use Rattle.std.specs.Int.{w64, to_be_bytes};
ghost use Rattle.rq_model.specs.StateSpelling.{last_bytes, mark_bytes, registrant_bytes, state_bytes};
ghost use Rattle.rq_state.specs.Views.{mark_of, unit_of};
ghost use Rattle.rq_state.specs.Writing.{AreCountable, text_of};

use crate::kept_element::KeptElement;
use crate::kept_registrant::KeptRegistrant;
use crate::lent_state::LentState;
use crate::members::{Definition, Last, Mark, Note};
use crate::state::State;
use crate::writers::members::Spell;
use rq_record::{KeptName, UnitNo};

impl Definition {
    /// The bytes of one without a name, the fewest that one takes.
    pub const SHORTEST: u32 = 7;
}

impl KeptRegistrant {
    /// The bytes of one who has no name and did nothing, the fewest that one takes.
    pub const SHORTEST: u32 = 6;
}

impl KeptElement {
    /// The bytes of a Free one without a payload, the fewest that one takes.
    pub const SHORTEST: u32 = 28;
}

impl Note {
    /// The bytes of one without a name, the fewest that one takes.
    pub const SHORTEST: u32 = 38;
}

impl State {
    /// The bytes of one without members: four numbers of 8 bytes and five counts of 4.
    pub const SHORTEST: u32 = 52;

    /// The bytes of an open unit.
    pub const UNIT: u32 = 8;
}

// How many bytes spell what a registrant did last.
fn last_size(last: Option<&Last>) -> u32
    ensures size { result ≡ length (last_bytes (option_map (λ l. l.now) last.entry)) }
    ensures small { result ≤ 25 }
{
    match last {
        None => 1,
        Some(_) => 25,
    }
}

/// How many bytes spell a registrant of a name of so many bytes, with the last operation, if there
/// is one.
pub fn registrant_size(name: &KeptName, last: Option<&Last>) -> u32
    ensures { (queue : ℕ) → result ≡ length (registrant_bytes (record {
      queue = queue;
      name = name.now;
      last = option_map (λ l. l.now) last.entry;
    })) }
{
    KeptRegistrant::SHORTEST - 1 + name.bytes().len() as u32 + last_size(last)
}

/// How many bytes spell a mark.
pub(crate) fn mark_size(mark: Mark) -> u32
    ensures size { result ≡ length (mark_bytes (mark_of mark)) }
    ensures small { result ≤ 9 }
{
    match mark {
        Mark::Free => 1,
        _ => 9,
    }
}

fn size_of_all<M: Spell>(members: &[M]) -> u128
    ensures size { result ≡ length (flat_map M.spelling members.now) }
    ensures small { result ≤ 4294967295 * length members.now }
    ensures many { length members.now ≤ result }
{
    let mut total = 0;
    for member in members {
        total += member.size() as u128;
    }
    total
}

fn units_size(members: &[UnitNo]) -> u128
    ensures size { result ≡ length (flat_map (to_be_bytes w64) (map unit_of members.now)) }
    ensures small { result ≤ 8 * length members.now }
    ensures many { length members.now ≤ result }
{
    State::UNIT as u128 * members.len() as u128
}

/// The number of bytes that spell a state, also if they are more than a checkpoint holds. It takes
/// no memory.
pub fn spelled_len(state: &State) -> u128
    ensures { result ≡ length (state_bytes state.now) }
{
    lent_len(&state.fields().lent())
}

/// The same of a state whose lists are lent.
pub(crate) fn lent_len<R: Spell, E: Spell, N: Spell>(state: &LentState<'_, R, E, N>) -> u128
    ensures size { result ≡ length (text_of R.spelling E.spelling N.spelling state.now) }
    ensures countable { result ≤ 268435455 → AreCountable state.now }
{
    State::SHORTEST as u128
        + size_of_all(state.definitions)
        + units_size(state.units)
        + size_of_all(state.registrants)
        + size_of_all(state.elements)
        + size_of_all(state.notes)
}
