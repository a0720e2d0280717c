//! The registrants of a queue.

ghost use Rattle.std.specs.Prelude.{◌≡◌, ◌++◌, ◌∷◌, [], ℕ, ◌&&◌, ◌||◌, not, map, IfOk, IfErr};
ghost use Rattle.std.specs.Prelude.{◌*◌, ◌-◌, ◌≤◌, length, OnOk, SomeIff, option_map};
ghost use Rattle.std.specs.BTreeMap.{insert_entry};
ghost use Rattle.std.specs.Cmp.Lexicographic.{slice_cmp};
ghost use Rattle.std.specs.List.{flat_map, list_any, find};
ghost use Rattle.std.specs.Ordering.{nat_cmp};
ghost use Rattle.rq_model.specs.Machine as machine;
ghost use Rattle.rq_model.specs.Queues.{registrants_at};
ghost use Rattle.rq_model.specs.StateSpelling.{registrant_bytes};
ghost use Rattle.rq_model.specs.States.{is_registrant};
ghost use Rattle.rq_record.specs.declared.fault.Fault.TheVariants.{Resources};
ghost use Rattle.rq_state.specs.Comparing.{left_after};
ghost use Rattle.rq_queue.specs.Roll.{IsRoll, registrant_of, entry_of, picked, is_early, heard};

use crate::kept_last::KeptLast;
use crate::kept_note::KeptNote;
use crate::lent_registrant::LentRegistrant;
use crate::rooms::room_after;
use rq_record::{Fault, KeptName, Name, QueueNo, UnitNo};
use rq_state::{Compared, KeptRegistrant, Last, Registrant, State, told_registrants};
use std::alloc::Global;
use std::collections::BTreeMap;
use std::marker::Model;

/// The registrants of a queue, by name: the last operation of each. The number of the queue stands
/// in its part alone, so that a registrant takes 32 bytes.
#[derive(Drop)]
pub(crate) struct Registrants {
    lasts: BTreeMap<KeptName, KeptLast>,
}

impl Model for Registrants {
    ghost use Rattle.std.specs.Prelude.{List};
    ghost use Rattle.rq_queue.specs.Roll.{RollEntry, IsRoll};

    ghost Value = { List RollEntry };

    ghost view = { λ r. r.lasts.entries };

    ghost invariant = { λ r. IsRoll r.lasts.entries };
}

impl Registrants {
    /// No registrant.
    pub(crate) fn none(alloc: Global) -> Registrants
        ensures { result ≡ [] }
    {
        Registrants {
            lasts: BTreeMap::new(alloc),
        }
    }

    /// Those of a queue of the state. The first eight of each sixteen come first: keys that come in
    /// order leave each node of the map with room for eight more, which the others fill.
    pub(crate) fn of(alloc: Global, state: &State, queue: QueueNo) -> Result<Registrants, Fault>
        ensures done { IfOk result (λ v. map (registrant_of queue.0) v
            ≡ registrants_at queue.0 state.now.registrants) }
        ensures refused { IfErr result (λ e. e ≡ Resources) }
    {
        state.is_well_formed();
        let own = state.registrants_of(queue);
        let mut all = Registrants::none(alloc);
        all.fill(alloc, own, true)?;
        all.fill(alloc, own, false)?;
        Ok(all)
    }

    // Puts in those of the registrants that are early, or those that are not, when the early ones
    // are there.
    fn fill(&mut self, alloc: Global, own: &[KeptRegistrant], early: bool) -> Result<(), Fault>
        requires rise { IsRoll (map entry_of own.now) }
        requires early { self.old
            ≡ picked (λ place. is_early place && not early) (map entry_of own.now) }
        ensures done { OnOk result (self.new
            ≡ picked (λ place. is_early place || not early) (map entry_of own.now)) }
        ensures refused { IfErr result (λ e. e ≡ Resources) }
    {
        for at in 0..own.len() {
            if (at % 16 < 8) == early {
                self.put(alloc, &own[at])?;
            }
        }
        Ok(())
    }

    // Puts a registrant in, by its name.
    fn put(&mut self, alloc: Global, r: &KeptRegistrant) -> Result<(), Fault>
        ensures done { OnOk result (self.new
            ≡ insert_entry (slice_cmp nat_cmp) self.old r.now.name r.now.last) }
        ensures refused { IfErr result (λ e. e ≡ Resources) }
    {
        let name = KeptName::of(alloc, &r.name().name())?;
        let last = KeptLast::of(alloc, r.last())?;
        self.lasts.insert(name, last)?;
        Ok(())
    }

    /// All of them, by name.
    pub(crate) fn list(self, alloc: Global, queue: QueueNo) -> Result<Vec<KeptRegistrant>, Fault>
        ensures listed { IfOk result (λ v. v.items ≡ map (registrant_of queue.0) self) }
        ensures refused { IfErr result (λ e. e ≡ Resources) }
    {
        listed(alloc, queue, self.lasts)
    }

    /// The same, as a caller has them.
    pub(crate) fn list_told(self, alloc: Global, queue: QueueNo) -> Result<Vec<Registrant>, Fault>
        ensures listed { IfOk result (λ v. v.items ≡ map (registrant_of queue.0) self) }
        ensures refused { IfErr result (λ e. e ≡ Resources) }
    {
        let kept = self.list(alloc, queue)?;
        told_registrants(alloc, &kept)
    }

    /// Copies of all of them, by name.
    pub(crate) fn copies(&self, alloc: Global, queue: QueueNo) -> Result<Vec<KeptRegistrant>, Fault>
        ensures listed { IfOk result (λ v. v.items ≡ map (registrant_of queue.0) self.now) }
        ensures refused { IfErr result (λ e. e ≡ Resources) }
    {
        copied(alloc, queue, &self.lasts)
    }

    /// Lends all of them, by name: adds them to the list.
    pub(crate) fn lend<'a>(
        &'a self,
        queue: QueueNo,
        lent: &mut Vec<LentRegistrant<'a>>,
    ) -> Result<(), Fault>
        ensures lent { OnOk result
            (lent.new.items ≡ lent.old.items ++ map (registrant_of queue.0) self.now) }
        ensures refused { IfErr result (λ e. e ≡ Resources) }
    {
        lend_all(queue, &self.lasts, lent)
    }

    /// How many they are.
    pub(crate) fn count(&self) -> usize
        ensures { result ≡ length self.now }
    {
        self.lasts.len()
    }

    /// Whether the name is registered.
    pub(crate) fn has_registered(&self, name: &KeptName) -> bool
        ensures { (queue : ℕ) → result
            ≡ list_any (is_registrant queue name.now) (map (registrant_of queue) self.now) }
    {
        self.lasts.contains_key(name)
    }

    /// The last operation of who is registered by the name, lent; none if nobody is.
    pub(crate) fn last(&self, name: &KeptName) -> Option<Option<&Last>>
        ensures { (queue : ℕ) → option_map (λ l. option_map (λ x. x.now) l) result
            ≡ option_map (λ r. r.last)
            (find (is_registrant queue name.now) (map (registrant_of queue) self.now)) }
    {
        match self.lasts.get(name) {
            Some(last) => Some(last.lent()),
            None => None,
        }
    }

    /// Their spellings are to come next in the bytes.
    pub(crate) fn compare(&self, queue: QueueNo, bytes: &mut Compared<'_>)
        ensures { bytes.new ≡ left_after
            (flat_map registrant_bytes (map (registrant_of queue.0) self.now)) bytes.old }
    {
        compare_each(queue, &self.lasts, bytes);
    }

    /// The room that they leave of so many bytes. None if they do not fit.
    pub(crate) fn room_left(&self, room: u64) -> Option<u64>
        ensures { SomeIff result (6 * length self.now ≤ room) (room - 6 * length self.now) }
    {
        room_after(room, KeptRegistrant::SHORTEST, self.count())
    }

    /// Registers a name, unless it is registered.
    pub(crate) fn register(&mut self, alloc: Global, name: &Name) -> Result<(), Fault>
        ensures done { OnOk result ((queue : ℕ) → map (registrant_of queue) self.new
            ≡ machine.registered queue name.now (map (registrant_of queue) self.old)) }
        ensures refused { IfErr result (λ e. e ≡ Resources) }
    {
        let key = KeptName::of(alloc, name)?;
        if self.lasts.contains_key(&key) {
            return Ok(());
        }
        self.lasts.insert(key, KeptLast::none())?;
        Ok(())
    }

    /// Ends the registration of a name.
    pub(crate) fn deregister(&mut self, alloc: Global, name: &Name) -> Result<(), Fault>
        ensures done { OnOk result ((queue : ℕ) → map (registrant_of queue) self.new
            ≡ machine.deregistered queue name.now (map (registrant_of queue) self.old)) }
        ensures refused { IfErr result (λ e. e ≡ Resources) }
    {
        let key = KeptName::of(alloc, name)?;
        self.lasts.remove(&key);
        Ok(())
    }

    // A note reaches its registrant, if it is one of the unit.
    fn hear_one(
        &mut self,
        alloc: Global,
        queue: QueueNo,
        unit: UnitNo,
        note: &KeptNote,
    ) -> Result<(), Fault>
        ensures done { OnOk result (map (registrant_of queue.0) self.new
            ≡ map (heard unit.0 note.now) (map (registrant_of queue.0) self.old)) }
        ensures refused { IfErr result (λ e. e ≡ Resources) }
    {
        if !note.is_by_at(unit, queue) {
            return Ok(());
        }
        if let Some(last) = self.lasts.get_mut(note.name()) {
            last.hear(alloc, note.last())?;
        }
        Ok(())
    }

    /// The notes of the unit among these reach the registrants of the queue, one after another.
    pub(crate) fn hear(
        &mut self,
        alloc: Global,
        queue: QueueNo,
        unit: UnitNo,
        notes: &[KeptNote],
    ) -> Result<(), Fault>
        ensures done { OnOk result (map (registrant_of queue.0) self.new
            ≡ map (machine.told unit.0 notes.now) (map (registrant_of queue.0) self.old)) }
        ensures refused { IfErr result (λ e. e ≡ Resources) }
    {
        for n in notes {
            self.hear_one(alloc, queue, unit, n)?;
        }
        Ok(())
    }
}

fn registrant(
    alloc: Global,
    queue: QueueNo,
    name: KeptName,
    last: &KeptLast,
) -> Result<KeptRegistrant, Fault>
    ensures made { IfOk result (λ r. r ≡ registrant_of queue.0 (name, last.now)) }
    ensures refused { IfErr result (λ e. e ≡ Resources) }
{
    KeptRegistrant::new(alloc, queue, name, last.last())
}

fn registrant_again(
    alloc: Global,
    queue: QueueNo,
    name: &KeptName,
    last: &KeptLast,
) -> Result<KeptRegistrant, Fault>
    ensures made { IfOk result (λ r. r ≡ registrant_of queue.0 (name.now, last.now)) }
    ensures refused { IfErr result (λ e. e ≡ Resources) }
{
    let name = KeptName::of(alloc, &name.name())?;
    registrant(alloc, queue, name, last)
}

// Puts a registrant at the end of a list.
fn put_listed(
    alloc: Global,
    queue: QueueNo,
    name: KeptName,
    last: &KeptLast,
    all: &mut Vec<KeptRegistrant>,
) -> Result<(), Fault>
    ensures put { OnOk result (all.new.items
        ≡ all.old.items ++ registrant_of queue.0 (name, last.now) ∷ []) }
    ensures refused { IfErr result (λ e. e ≡ Resources) }
{
    all.push(registrant(alloc, queue, name, last)?)?;
    Ok(())
}

// The registrants, by name. Each is let go as the list gets it, so that map and list are never in
// memory at once.
fn listed(
    alloc: Global,
    queue: QueueNo,
    lasts: BTreeMap<KeptName, KeptLast>,
) -> Result<Vec<KeptRegistrant>, Fault>
    ensures listed { IfOk result (λ v. v.items ≡ map (registrant_of queue.0) lasts.entries) }
    ensures refused { IfErr result (λ e. e ≡ Resources) }
{
    let mut all = Vec::with_capacity(alloc, lasts.len())?;
    for (name, last) in lasts {
        put_listed(alloc, queue, name, &last, &mut all)?;
    }
    Ok(all)
}

// Copies of the registrants, by name.
fn copied(
    alloc: Global,
    queue: QueueNo,
    lasts: &BTreeMap<KeptName, KeptLast>,
) -> Result<Vec<KeptRegistrant>, Fault>
    ensures copied { IfOk result (λ v. v.items ≡ map (registrant_of queue.0) lasts.now.entries) }
    ensures refused { IfErr result (λ e. e ≡ Resources) }
{
    let mut all = Vec::with_capacity(alloc, lasts.len())?;
    for (name, last) in lasts {
        all.push(registrant_again(alloc, queue, name, last)?)?;
    }
    Ok(all)
}

// Lends the registrants, by name.
fn lend_all<'a>(
    queue: QueueNo,
    lasts: &'a BTreeMap<KeptName, KeptLast>,
    lent: &mut Vec<LentRegistrant<'a>>,
) -> Result<(), Fault>
    ensures lent { OnOk result
        (lent.new.items ≡ lent.old.items ++ map (registrant_of queue.0) lasts.now.entries) }
    ensures refused { IfErr result (λ e. e ≡ Resources) }
{
    for (name, last) in lasts {
        lent.push(LentRegistrant::of(queue, name, last))?;
    }
    Ok(())
}

fn compare_one(queue: QueueNo, name: &KeptName, last: &KeptLast, bytes: &mut Compared<'_>)
    ensures { bytes.new
        ≡ left_after (registrant_bytes (registrant_of queue.0 (name.now, last.now))) bytes.old }
{
    bytes.registrant(queue.0, name.bytes(), last.lent());
}

// The spellings of the registrants are to come next in the bytes, by name. It looks at none behind
// the first that differs.
fn compare_each(queue: QueueNo, lasts: &BTreeMap<KeptName, KeptLast>, bytes: &mut Compared<'_>)
    ensures { bytes.new ≡ left_after
        (flat_map registrant_bytes (map (registrant_of queue.0) lasts.now.entries)) bytes.old }
{
    for (name, last) in lasts {
        if !bytes.agree() {
            return;
        }
        compare_one(queue, name, last, bytes);
    }
}
