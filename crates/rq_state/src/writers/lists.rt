//! The lists of a state, each after its count.

ghost use Rattle.std.specs.Prelude.{◌<◌, length, map};
ghost use Rattle.std.specs.Int.{w64, to_be_bytes};
ghost use Rattle.rq_model.specs.StateSpelling.{counted, definition_bytes, registrant_bytes};
ghost use Rattle.rq_model.specs.StateSpelling.{element_bytes, note_bytes};
ghost use Rattle.rq_state.specs.Views.{unit_of};
ghost use Rattle.rq_state.specs.Writing.{PutsSpelling};

use crate::writers::members::Spell;
use rq_bytes::{put_u32, put_u64};
use rq_record::UnitNo;
use std::alloc::AllocError;

pub(crate) fn put_all<M: Spell>(out: &mut Vec<u8>, members: &[M]) -> Result<(), AllocError>
    requires { length members.now < 4294967296 }
    ensures { PutsSpelling out.old.items out.new.items
        (counted M.spelling members.now) result }
{
    put_u32(out, members.len() as u32)?;
    for member in members {
        member.put(out)?;
    }
    Ok(())
}

pub(crate) fn put_units(out: &mut Vec<u8>, members: &[UnitNo]) -> Result<(), AllocError>
    requires { length members.now < 4294967296 }
    ensures { PutsSpelling out.old.items out.new.items
        (counted (to_be_bytes w64) (map unit_of members.now)) result }
{
    put_u32(out, members.len() as u32)?;
    for member in members {
        put_u64(out, member.0)?;
    }
    Ok(())
}
