//! Appends members of a state to what is spelled already.

ghost use Rattle.std.specs.Prelude.{◌≡◌, ◌≤◌, ◌++◌, ◌∷◌, [], ℕ, List, length, option_map};
ghost use Rattle.std.specs.Int.{w16, w64, to_be_bytes};
ghost use Rattle.rq_model.specs.StateSpelling.{name_bytes, element_number, kind_byte};
ghost use Rattle.rq_model.specs.StateSpelling.{definition_bytes, last_bytes, registrant_bytes};
ghost use Rattle.rq_model.specs.StateSpelling.{mark_bytes, element_bytes, note_bytes};
ghost use Rattle.rq_state.specs.Views.{mark_of};
ghost use Rattle.rq_state.specs.Writing.{PutsSpelling};

use crate::kept_element::KeptElement;
use crate::kept_registrant::KeptRegistrant;
use crate::members::{Definition, Last, Mark, Note};
use crate::writers::output::{put_id, put_kind, put_name, put_payload};
use crate::writers::sizes::{mark_size, registrant_size};
use rq_bytes::{put_u8, put_u16, put_u32, put_u64};
use rq_record::{KeptName, QueueNo};
use std::alloc::AllocError;

fn put_mark(out: &mut Vec<u8>, mark: Mark) -> Result<(), AllocError>
    ensures { PutsSpelling out.old.items out.new.items (mark_bytes (mark_of mark)) result }
{
    match mark {
        Mark::Free => put_u8(out, 0),
        Mark::Fresh(unit) => {
            put_u8(out, 1)?;
            put_u64(out, unit.0)
        }
        Mark::Held(unit) => {
            put_u8(out, 2)?;
            put_u64(out, unit.0)
        }
    }
}

// The tag and the element of an operation, which end its spelling.
fn put_operation_end(out: &mut Vec<u8>, last: &Last) -> Result<(), AllocError>
    ensures { PutsSpelling out.old.items out.new.items
        (to_be_bytes w64 last.now.tag ++ to_be_bytes w64 (element_number last.now.element)) result }
{
    put_u64(out, last.tag)?;
    put_id(out, last.element)
}

fn put_kind_of(out: &mut Vec<u8>, last: &Last) -> Result<(), AllocError>
    ensures { PutsSpelling out.old.items out.new.items (kind_byte last.now.kind ∷ []) result }
{
    put_kind(out, last.kind)
}

fn put_operation(out: &mut Vec<u8>, last: &Last) -> Result<(), AllocError>
    ensures { PutsSpelling out.old.items out.new.items
        (kind_byte last.now.kind ∷ (to_be_bytes w64 last.now.place ++ (to_be_bytes w64 last.now.tag
        ++ to_be_bytes w64 (element_number last.now.element)))) result }
{
    put_kind_of(out, last)?;
    put_u64(out, last.place())?;
    put_operation_end(out, last)
}

fn put_last(out: &mut Vec<u8>, last: Option<&Last>) -> Result<(), AllocError>
    ensures { PutsSpelling out.old.items out.new.items
        (last_bytes (option_map (λ l. l.now) last.entry)) result }
{
    match last {
        None => put_u8(out, 0),
        Some(last) => put_operation(out, last),
    }
}

fn put_element_end(out: &mut Vec<u8>, element: &KeptElement) -> Result<(), AllocError>
    ensures { PutsSpelling out.old.items out.new.items (element.now.priority
        ∷ (to_be_bytes w64 element.now.attempts ++ (mark_bytes element.now.mark
        ++ (to_be_bytes w16 (length element.now.payload) ++ element.now.payload)))) result }
{
    put_u8(out, element.priority)?;
    put_u64(out, element.attempts)?;
    put_mark(out, element.mark)?;
    put_payload(out, element.payload.bytes())
}

// The kind, the tag and the element of a note's operation; its place comes before them.
fn put_done(out: &mut Vec<u8>, last: &Last) -> Result<(), AllocError>
    ensures { PutsSpelling out.old.items out.new.items
        (kind_byte last.now.kind ∷ (to_be_bytes w64 last.now.tag
        ++ to_be_bytes w64 (element_number last.now.element))) result }
{
    put_kind_of(out, last)?;
    put_operation_end(out, last)
}

fn put_note_end(out: &mut Vec<u8>, note: &Note) -> Result<(), AllocError>
    ensures { PutsSpelling out.old.items out.new.items
        (name_bytes note.now.name ++ kind_byte note.now.last.kind
        ∷ (to_be_bytes w64 note.now.last.tag
        ++ to_be_bytes w64 (element_number note.now.last.element))) result }
{
    put_name(out, &note.name)?;
    put_done(out, &note.last)
}

/// A registrant of this queue, with its name and the last operation, if there is one.
pub fn put_registrant(
    out: &mut Vec<u8>,
    queue: QueueNo,
    name: &KeptName,
    last: Option<&Last>,
) -> Result<(), AllocError>
    ensures { PutsSpelling out.old.items out.new.items (registrant_bytes (record {
      queue = queue.0;
      name = name.now;
      last = option_map (λ l. l.now) last.entry;
    })) result }
{
    put_u32(out, queue.0)?;
    put_name(out, &name.name())?;
    put_last(out, last)
}

/// A member of one of a state's lists, and how it is spelled.
pub trait Spell: Drop {
    ghost spelling: { Self → List ℕ };

    /// Appends its spelling.
    fn put(&self, out: &mut Vec<u8>) -> Result<(), AllocError>
        ensures { PutsSpelling out.old.items out.new.items (spelling self.now) result };

    /// How many bytes its spelling has, at least one.
    fn size(&self) -> u32
        ensures size { result ≡ length (spelling self.now) }
        ensures some { 1 ≤ result };
}

impl Spell for Definition {
    ghost spelling = { definition_bytes };

    fn put(&self, out: &mut Vec<u8>) -> Result<(), AllocError> {
        put_u16(out, self.limit)?;
        put_u32(out, self.error.0)?;
        put_name(out, &self.name)
    }

    fn size(&self) -> u32 {
        Definition::SHORTEST + self.name.bytes().len() as u32
    }
}

impl Spell for KeptRegistrant {
    ghost spelling = { registrant_bytes };

    fn put(&self, out: &mut Vec<u8>) -> Result<(), AllocError> {
        put_registrant(out, self.queue(), self.name(), self.last())
    }

    fn size(&self) -> u32 {
        registrant_size(self.name(), self.last())
    }
}

impl Spell for KeptElement {
    ghost spelling = { element_bytes };

    fn put(&self, out: &mut Vec<u8>) -> Result<(), AllocError> {
        put_u64(out, self.id.0)?;
        put_u32(out, self.home.0)?;
        put_u32(out, self.origin.0)?;
        put_element_end(out, self)
    }

    fn size(&self) -> u32 {
        KeptElement::SHORTEST - 1 + mark_size(self.mark) + self.payload.bytes().len() as u32
    }
}

impl Spell for Note {
    ghost spelling = { note_bytes };

    fn put(&self, out: &mut Vec<u8>) -> Result<(), AllocError> {
        put_u64(out, self.last.place)?;
        put_u64(out, self.unit.0)?;
        put_u32(out, self.queue.0)?;
        put_note_end(out, self)
    }

    fn size(&self) -> u32 {
        Note::SHORTEST + self.name.bytes().len() as u32
    }
}
