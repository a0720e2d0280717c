//! The notes of a queue: operations of open units by somebody named.

ghost use Rattle.std.specs.Prelude.{◌≡◌, ◌<◌, ◌==◌, ◌++◌, ◌∷◌, [], filter, IfOk, IfErr};
ghost use Rattle.std.specs.Prelude.{◌*◌, ◌-◌, ◌≤◌, length, OnOk, SomeIff};
ghost use Rattle.std.specs.List.{AllByRecursion};
ghost use Rattle.std.specs.Map.{values_of};
ghost use Rattle.rq_model.specs.Machine as machine;
ghost use Rattle.rq_model.specs.States as model;
ghost use Rattle.rq_queue.specs.Noted.{Rises};
ghost use Rattle.rq_record.specs.declared.fault.Fault.TheVariants.{Resources};
ghost use Rattle.rq_state.specs.Views.{kind_of, id_of};

use crate::draws::{drawn, notes_without};
use crate::kept_note::KeptNote;
use crate::keys::slim;
use crate::lent::{LentNote, lend_values};
use crate::lists::next_of;
use crate::places::{file, places_of, unfiled};
use crate::rooms::room_after;
use crate::whose::Whose;
use rq_record::{ElemId, Fault, KeptBy, KeptName, Name, QueueNo, UnitNo};
use rq_state::{Last, Note, OpKind, order};
use std::alloc::Global;
use std::collections::BTreeMap;
use std::marker::Model;

/// The notes of a queue, by place. The places of its notes are listed under each unit and each
/// registrant, so that the end of a unit and a DEREGISTER cost only their own notes. A list may
/// keep the place of a note that has gone: it only says where to look.
#[derive(Drop)]
pub struct Notes {
    all: BTreeMap<u64, KeptNote>,
    units: BTreeMap<u64, Vec<u64>>,
    names: BTreeMap<(u32, KeptName), Vec<u64>>,
}

impl Model for Notes {
    ghost use Rattle.std.specs.Map.{values_of};
    ghost use Rattle.std.specs.Prelude.{List};
    ghost use Rattle.rq_model.specs.States as model;
    ghost use Rattle.rq_queue.specs.Noted.{AreKept};

    ghost Value = { List model.Note };

    ghost view = { λ n. values_of n.all.entries };

    ghost invariant = { λ n. AreKept n.all.entries n.units.entries n.names.entries };
}

impl Notes {
    /// No note.
    pub fn none(alloc: Global) -> Notes
        ensures { result ≡ [] }
    {
        Notes {
            all: BTreeMap::new(alloc),
            units: BTreeMap::new(alloc),
            names: BTreeMap::new(alloc),
        }
    }

    /// These notes, whose places rise.
    pub(crate) fn of(alloc: Global, items: Vec<Note>) -> Result<Notes, Fault>
        requires { Rises items.items }
        ensures done { IfOk result (λ v. v ≡ items.items) }
        ensures refused { IfErr result (λ e. e ≡ Resources) }
    {
        let mut coming = items;
        coming.reverse();
        let mut all = Notes::none(alloc);
        while let Some(n) = next_of(&mut coming) {
            all.push(alloc, n)?;
        }
        Ok(all)
    }

    // Adds a note whose place is greater than those of the others.
    fn push(&mut self, alloc: Global, n: Note) -> Result<(), Fault>
        requires { AllByRecursion (λ (m : model.Note). m.last.place < n.last.place) self.old }
        ensures done { OnOk result (self.new ≡ self.old ++ n ∷ []) }
        ensures refused { IfErr result (λ e. e ≡ Resources) }
    {
        let place = n.place();
        let unit = n.unit();
        let key = slim(alloc, n.key())?;
        let kept = KeptNote::of(alloc, n)?;
        file(alloc, &mut self.units, unit.0, place)?;
        file(alloc, &mut self.names, key, place)?;
        self.all.insert(place, kept)?;
        Ok(())
    }

    /// All of them, by place.
    pub(crate) fn list(self, alloc: Global) -> Result<Vec<Note>, Fault>
        ensures listed { IfOk result (λ v. v.items ≡ self) }
        ensures refused { IfErr result (λ e. e ≡ Resources) }
    {
        listed(alloc, self.all)
    }

    /// Lends all of them, by place.
    pub(crate) fn lend<'a>(&'a self, lent: &mut Vec<LentNote<'a>>) -> Result<(), Fault>
        ensures lent { OnOk result (lent.new.items ≡ lent.old.items ++ self.now) }
        ensures refused { IfErr result (λ e. e ≡ Resources) }
    {
        lend_values(lent, &self.all)
    }

    /// Copies of all of them, by place.
    pub(crate) fn copies(&self, alloc: Global) -> Result<Vec<Note>, Fault>
        ensures listed { IfOk result (λ v. v.items ≡ self.now) }
        ensures refused { IfErr result (λ e. e ≡ Resources) }
    {
        copied(alloc, &self.all)
    }

    /// The room that they leave of so many bytes. None if they do not fit.
    pub(crate) fn room_left(&self, room: u64) -> Option<u64>
        ensures { SomeIff result (38 * length self.now ≤ room) (room - 38 * length self.now) }
    {
        room_after(room, Note::SHORTEST, self.all.len())
    }

    /// Adds the note of an operation, if somebody is named. Notes that refuse are no longer of use.
    pub fn note(
        &mut self,
        alloc: Global,
        place: u64,
        unit: UnitNo,
        queue: QueueNo,
        by: &KeptBy,
        kind: OpKind,
        element: Option<ElemId>,
    ) -> Result<(), Fault>
        requires { AllByRecursion (λ (m : model.Note). m.last.place < place) self.old }
        ensures done { OnOk result (self.new ≡ self.old
            ++ machine.noted place unit.0 queue.0 by.now (kind_of kind) (id_of element)) }
        ensures refused { IfErr result (λ e. e ≡ Resources) }
    {
        match by.by() {
            None => Ok(()),
            Some(by) => self.push(
                alloc,
                Note {
                    unit,
                    queue,
                    name: by.name,
                    last: Last {
                        place,
                        kind,
                        tag: by.tag,
                        element,
                    },
                },
            ),
        }
    }

    /// The notes of the registrant go.
    pub(crate) fn forget(&mut self, alloc: Global, queue: QueueNo, name: &Name) -> Result<(), Fault>
        ensures done { OnOk result (self.new ≡ machine.unnoted queue.0 name.now self.old) }
        ensures refused { IfErr result (λ e. e ≡ Resources) }
    {
        let key = slim(alloc, (queue.0, *name))?;
        let places = unfiled(alloc, &mut self.names, &key);
        notes_without(&mut self.all, &places, &Whose::OfRegistrant(queue, *name));
        Ok(())
    }

    /// Takes the notes of the unit out. They come by place.
    pub(crate) fn take(&mut self, alloc: Global, unit: UnitNo) -> Result<Vec<KeptNote>, Fault>
        ensures others { OnOk result (self.new ≡ machine.closed_notes unit.0 self.old) }
        ensures taken { IfOk result (λ v. v.items ≡ filter (λ n. n.unit == unit.0) self.old) }
        ensures refused { IfErr result (λ e. e ≡ Resources) }
    {
        let places = places_of(&self.units, &unit.0);
        let mut own = drawn(alloc, &mut self.all, places, &Whose::OfUnit(unit))?;
        unfiled(alloc, &mut self.units, &unit.0);
        order(&mut own);
        Ok(own)
    }
}

// The notes, by place. Each is let go as the list gets it, so that map and list are never in memory
// at once.
fn listed(alloc: Global, notes: BTreeMap<u64, KeptNote>) -> Result<Vec<Note>, Fault>
    ensures listed { IfOk result (λ v. v.items ≡ values_of notes.entries) }
    ensures refused { IfErr result (λ e. e ≡ Resources) }
{
    let mut all = Vec::with_capacity(alloc, notes.len())?;
    for n in notes.into_values() {
        all.push(n.note())?;
    }
    Ok(all)
}

// Copies of the notes, by place.
fn copied(alloc: Global, notes: &BTreeMap<u64, KeptNote>) -> Result<Vec<Note>, Fault>
    ensures copied { IfOk result (λ v. v.items ≡ values_of notes.now.entries) }
    ensures refused { IfErr result (λ e. e ≡ Resources) }
{
    let mut all = Vec::with_capacity(alloc, notes.len())?;
    for n in notes.values() {
        all.push(n.note())?;
    }
    Ok(all)
}
