//! From a state to its canonical spelling.

ghost use Rattle.std.specs.Prelude.{◌≤◌, ◌++◌};
ghost use Rattle.std.specs.Int.{w64, to_be_bytes};
ghost use Rattle.rq_model.specs.StateSpelling.{counted};
ghost use Rattle.rq_state.specs.Spelling.{IsWritten, Spelled};
ghost use Rattle.rq_state.specs.Writing.{AreCountable, PutsSpelling, text_of};

mod lists;
mod members;
mod output;
mod sizes;

use crate::lent_state::LentState;
use crate::state::State;
use crate::writers::lists::{put_all, put_units};
pub use crate::writers::members::{Spell, put_registrant};
use crate::writers::sizes::lent_len;
pub use crate::writers::sizes::{registrant_size, spelled_len};
use rq_bytes::put_u64;
use rq_record::{CheckBytes, Fault};
use std::alloc::{AllocError, Global};

/// The bytes of a checkpoint of this state, at most 268,435,455: four counts, then definitions by
/// number, open units rising, registrants by queue and name, elements by id and notes by place,
/// each list after the number of its members. `TooLarge` if there would be more bytes, which is
/// known before memory is taken; `Resources` if there is no room for them.
pub fn spell(alloc: Global, state: &State) -> Result<Vec<u8>, Fault>
    requires { state.now.next ≤ 4294967295 }
    ensures { Spelled state.now result }
{
    spell_carried(alloc, state)
}

/// The same of a state of any next record number, as that of a carried file may be.
pub fn spell_carried(alloc: Global, state: &State) -> Result<Vec<u8>, Fault>
    ensures { Spelled state.now result }
{
    spell_lent(alloc, &state.fields().lent())
}

/// The same of a state whose lists are lent.
pub fn spell_lent<R: Spell, E: Spell, N: Spell>(
    alloc: Global,
    state: &LentState<'_, R, E, N>,
) -> Result<Vec<u8>, Fault>
    ensures { IsWritten (text_of R.spelling E.spelling N.spelling state.now) result }
{
    let size = lent_len(state);
    if size > CheckBytes::LIMIT as u128 {
        return Err(Fault::TooLarge);
    }
    let mut out = Vec::with_capacity(alloc, size as usize)?;
    put_state(&mut out, state)?;
    Ok(out)
}

fn put_numbers(
    out: &mut Vec<u8>,
    next: u64,
    greatest: u64,
    committed: u64,
    aborted: u64,
) -> Result<(), AllocError>
    ensures { PutsSpelling out.old.items out.new.items
        (to_be_bytes w64 next ++ (to_be_bytes w64 greatest
        ++ (to_be_bytes w64 committed ++ to_be_bytes w64 aborted))) result }
{
    put_u64(out, next)?;
    put_u64(out, greatest)?;
    put_u64(out, committed)?;
    put_u64(out, aborted)
}

fn put_members<R: Spell, E: Spell, N: Spell>(
    out: &mut Vec<u8>,
    state: &LentState<'_, R, E, N>,
) -> Result<(), AllocError>
    requires { AreCountable state.now }
    ensures { PutsSpelling out.old.items out.new.items
        (counted R.spelling state.now.registrants.now
        ++ (counted E.spelling state.now.elements.now
        ++ counted N.spelling state.now.notes.now)) result }
{
    put_all(out, state.registrants)?;
    put_all(out, state.elements)?;
    put_all(out, state.notes)
}

fn put_state<R: Spell, E: Spell, N: Spell>(
    out: &mut Vec<u8>,
    state: &LentState<'_, R, E, N>,
) -> Result<(), AllocError>
    requires { AreCountable state.now }
    ensures { PutsSpelling out.old.items out.new.items
        (text_of R.spelling E.spelling N.spelling state.now) result }
{
    put_numbers(
        out,
        state.next,
        state.greatest,
        state.committed,
        state.aborted,
    )?;
    put_all(out, state.definitions)?;
    put_units(out, state.units)?;
    put_members(out, state)
}
