//! Members of a state, compared with what is to be their spelling.

ghost use Rattle.std.specs.Prelude.{◌≡◌, ◌≤◌, ◌++◌, ◌∷◌, [], length, option_map};
ghost use Rattle.std.specs.Int.{w16, w64, to_be_bytes};
ghost use Rattle.rq_model.specs.StateSpelling.{name_bytes, element_number, kind_byte};
ghost use Rattle.rq_model.specs.StateSpelling.{definition_bytes, last_bytes, registrant_bytes};
ghost use Rattle.rq_model.specs.StateSpelling.{mark_bytes, element_bytes, note_bytes};
ghost use Rattle.rq_state.specs.Comparing.{left_after};
ghost use Rattle.rq_state.specs.Views.{mark_of, kind_of, id_of};

use crate::compared::{Compare, Compared};
use crate::kept_element::KeptElement;
use crate::members::{Definition, Last, Mark, Note, OpKind};
use rq_record::ElemId;

impl Compared<'_> {
    // A name of a queue or registrant is to come next.
    fn name(&mut self, name: &[u8])
        requires { length name.now ≤ 255 }
        ensures { self.new ≡ left_after (name_bytes name.now) self.old }
    {
        self.u8(name.len() as u8);
        self.next_bytes(name);
    }

    fn kind(&mut self, kind: OpKind)
        ensures { self.new ≡ left_after (kind_byte (kind_of kind) ∷ []) self.old }
    {
        match kind {
            OpKind::Enqueue => self.u8(1),
            OpKind::Dequeue => self.u8(2),
        }
    }

    fn id(&mut self, element: Option<ElemId>)
        ensures { self.new ≡ left_after (to_be_bytes w64 (element_number (id_of element))) self.old }
    {
        match element {
            None => self.u64(u64::MAX),
            Some(id) => self.u64(id.0),
        }
    }

    // The tag and the element of an operation, which end its spelling.
    fn operation_end(&mut self, last: &Last)
        ensures { self.new ≡ left_after (to_be_bytes w64 last.now.tag
            ++ to_be_bytes w64 (element_number last.now.element)) self.old }
    {
        self.u64(last.tag);
        self.id(last.element);
    }

    fn operation(&mut self, last: &Last)
        ensures { self.new ≡ left_after (kind_byte last.now.kind ∷ (to_be_bytes w64 last.now.place
            ++ (to_be_bytes w64 last.now.tag ++ to_be_bytes w64 (element_number last.now.element))))
            self.old }
    {
        self.kind(last.kind);
        self.u64(last.place);
        self.operation_end(last);
    }

    fn last(&mut self, last: Option<&Last>)
        ensures { self.new ≡ left_after (last_bytes (option_map (λ l. l.now) last.entry)) self.old }
    {
        match last {
            None => self.u8(0),
            Some(last) => self.operation(last),
        }
    }

    fn mark(&mut self, mark: Mark)
        ensures { self.new ≡ left_after (mark_bytes (mark_of mark)) self.old }
    {
        match mark {
            Mark::Free => self.u8(0),
            Mark::Fresh(unit) => {
                self.u8(1);
                self.u64(unit.0);
            }
            Mark::Held(unit) => {
                self.u8(2);
                self.u64(unit.0);
            }
        }
    }

    /// A registrant of this queue is to come next, with its name and the last operation, if there
    /// is one.
    pub fn registrant(&mut self, queue: u32, name: &[u8], last: Option<&Last>)
        requires { length name.now ≤ 255 }
        ensures { self.new ≡ left_after (registrant_bytes (record {
          queue = queue;
          name = name.now;
          last = option_map (λ l. l.now) last.entry;
        })) self.old }
    {
        self.u32(queue);
        self.name(name);
        self.last(last);
    }
}

impl Compare for Definition {
    ghost spelling = { definition_bytes };

    fn compare(&self, bytes: &mut Compared<'_>) {
        bytes.u16(self.limit);
        bytes.u32(self.error.0);
        bytes.name(self.name.bytes());
    }
}

// Its payload is to come next, behind its length.
fn compare_payload(payload: &[u8], bytes: &mut Compared<'_>)
    requires { length payload.now ≤ 65535 }
    ensures { bytes.new
        ≡ left_after (to_be_bytes w16 (length payload.now) ++ payload.now) bytes.old }
{
    bytes.u16(payload.len() as u16);
    bytes.next_bytes(payload);
}

fn compare_element_end(element: &KeptElement, bytes: &mut Compared<'_>)
    ensures { bytes.new ≡ left_after (element.now.priority
        ∷ (to_be_bytes w64 element.now.attempts ++ (mark_bytes element.now.mark
        ++ (to_be_bytes w16 (length element.now.payload) ++ element.now.payload)))) bytes.old }
{
    bytes.u8(element.priority);
    bytes.u64(element.attempts);
    bytes.mark(element.mark);
    compare_payload(element.payload.bytes(), bytes);
}

impl Compare for KeptElement {
    ghost spelling = { element_bytes };

    fn compare(&self, bytes: &mut Compared<'_>) {
        bytes.u64(self.id.0);
        bytes.u32(self.home.0);
        bytes.u32(self.origin.0);
        compare_element_end(self, bytes);
    }
}

fn compare_note_end(note: &Note, bytes: &mut Compared<'_>)
    ensures { bytes.new ≡ left_after (name_bytes note.now.name ++ kind_byte note.now.last.kind
        ∷ (to_be_bytes w64 note.now.last.tag
        ++ to_be_bytes w64 (element_number note.now.last.element))) bytes.old }
{
    bytes.name(note.name.bytes());
    bytes.kind(note.last.kind);
    bytes.operation_end(&note.last);
}

impl Compare for Note {
    ghost spelling = { note_bytes };

    fn compare(&self, bytes: &mut Compared<'_>) {
        bytes.u64(self.last.place);
        bytes.u64(self.unit.0);
        bytes.u32(self.queue.0);
        compare_note_end(self, bytes);
    }
}
