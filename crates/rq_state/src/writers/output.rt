//! Appends names, payloads, ids and kinds to what is spelled already.

ghost use Rattle.std.specs.Prelude.{◌≤◌, ◌++◌, ◌∷◌, [], length};
ghost use Rattle.std.specs.Int.{w16, w64, to_be_bytes};
ghost use Rattle.rq_model.specs.StateSpelling.{name_bytes, element_number, kind_byte};
ghost use Rattle.rq_state.specs.Views.{kind_of, id_of};
ghost use Rattle.rq_state.specs.Writing.{PutsSpelling};

use crate::members::OpKind;
use rq_bytes::{put, put_u8, put_u16, put_u64};
use rq_record::{ElemId, Name};
use std::alloc::AllocError;

pub(crate) fn put_name(out: &mut Vec<u8>, name: &Name) -> Result<(), AllocError>
    ensures { PutsSpelling out.old.items out.new.items (name_bytes name.now) result }
{
    let bytes = name.bytes();
    put_u8(out, bytes.len() as u8)?;
    put(out, bytes)
}

pub(crate) fn put_payload(out: &mut Vec<u8>, payload: &[u8]) -> Result<(), AllocError>
    requires { length payload.now ≤ 65535 }
    ensures { PutsSpelling out.old.items out.new.items
        (to_be_bytes w16 (length payload.now) ++ payload.now) result }
{
    put_u16(out, payload.len() as u16)?;
    put(out, payload)
}

pub(crate) fn put_id(out: &mut Vec<u8>, element: Option<ElemId>) -> Result<(), AllocError>
    ensures { PutsSpelling out.old.items out.new.items
        (to_be_bytes w64 (element_number (id_of element))) result }
{
    match element {
        None => put_u64(out, u64::MAX),
        Some(id) => put_u64(out, id.0),
    }
}

pub(crate) fn put_kind(out: &mut Vec<u8>, kind: OpKind) -> Result<(), AllocError>
    ensures { PutsSpelling out.old.items out.new.items (kind_byte (kind_of kind) ∷ []) result }
{
    match kind {
        OpKind::Enqueue => put_u8(out, 1),
        OpKind::Dequeue => put_u8(out, 2),
    }
}
