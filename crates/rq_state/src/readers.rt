//! From a canonical spelling to the state.

ghost use Rattle.rq_model.specs.Records.{One};
ghost use Rattle.rq_record.specs.Views.{version_of};
ghost use Rattle.rq_state.specs.Spelling.{ReadsState, ReadsUpTo};

mod form;
mod lists;
mod members;

use crate::checks::check_fields;
use crate::readers::form::check_form;
use crate::readers::lists::all_fields;
use crate::state::State;
use rq_record::{Fault, Version};
use std::alloc::Global;

/// The state that these bytes spell in a log of version 1: `read_in` of that version.
pub fn read(alloc: Global, bytes: &[u8]) -> Result<State, Fault>
    ensures { ReadsState One bytes.now result }
{
    read_in(alloc, Version::One, bytes)
}

/// The state that these bytes spell in a log of the version, as a checkpoint record holds them
/// after its kind: `read_up_to` the greatest next record number of a log, 4,294,967,295.
pub fn read_in(alloc: Global, version: Version, bytes: &[u8]) -> Result<State, Fault>
    ensures { ReadsState (version_of version) bytes.now result }
{
    read_up_to(alloc, version, State::RECORDS, bytes)
}

/// The state of the version that these bytes spell, whose next record number is at most this.
/// `BadCheckpoint` if they spell none: a member is out of order or doubled, a count does not fit,
/// bytes are left over, or no such state has these fields. `Resources` if there is no room for the
/// state.
pub fn read_up_to(alloc: Global, version: Version, most: u64, bytes: &[u8]) -> Result<State, Fault>
    ensures { ReadsUpTo most (version_of version) bytes.now result }
{
    let Some(()) = check_form(bytes) else {
        return Err(Fault::BadCheckpoint);
    };
    let fields = all_fields(alloc, bytes)?;
    check_fields(alloc, version, most, &fields)?;
    let state = State::of_ordered(alloc, fields)?;
    Ok(state)
}
