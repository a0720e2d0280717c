//! The spelling of the state that is held, and whether bytes are it: then what stands is compared
//! with them as they come.

ghost use Rattle.std.specs.Prelude.{◌≡◌, ◌<◌, length, sum_by, IfOk, IfErr, ◌≤◌, ◌&&◌, nat_le};
ghost use Rattle.std.specs.Prelude.{is_some, OnOk};
ghost use Rattle.std.specs.List.{flat_map};
ghost use Rattle.rq_model.specs.Queues as model;
ghost use Rattle.rq_model.specs.StateSpelling.{registrant_bytes, counted, element_bytes};
ghost use Rattle.rq_model.specs.StateSpelling.{note_bytes, state_bytes, carried_next};
ghost use Rattle.rq_record.specs.declared.fault.Fault.TheVariants.{Resources};
ghost use Rattle.rq_state.specs.Comparing.{left_after};
ghost use Rattle.rq_state.specs.Spelling.{Spelled};
ghost use Rattle.std.specs.Str.{bytes_eq};
ghost use Rattle.rq_model.specs.States as states;
ghost use Rattle.rq_queue.specs.Rooms.{member_bytes};
ghost use Rattle.rq_standing.specs.Spelled.{HoldsFew, head_of, members_of, least_bytes};
ghost use Rattle.rq_standing.specs.Stands.{HoldsState};

use crate::lent_members::lent_registrants;
use crate::queues::Queues;
use rq_queue::Part;
use rq_record::Fault;
use rq_state::{Compared, Definition, LentState, State, compare_all, spell_lent};
use std::alloc::Global;

/// How many registrants the parts have.
pub(crate) fn registrants_in(parts: &[Part]) -> usize
    requires { sum_by (λ (p : model.Part). length p.registrants) parts.now < 4294967296 }
    ensures { result ≡ sum_by (λ (p : model.Part). length p.registrants) parts.now }
{
    let mut count = 0;
    for part in parts {
        count += part.registrant_count();
    }
    count
}

/// The spellings of the registrants are to come next in the bytes. It looks at no part behind the
/// first that differs.
pub(crate) fn compare_registrants_of(parts: &[Part], bytes: &mut Compared<'_>)
    ensures { bytes.new ≡ left_after
        (flat_map (λ (p : model.Part). flat_map registrant_bytes p.registrants) parts.now)
        bytes.old }
{
    for part in parts {
        if !bytes.agree() {
            return;
        }
        part.compare_registrants(bytes);
    }
}

// Whether the members of the parts, each in its shortest form, are within so many bytes.
fn parts_fit(parts: &[Part], room: u64) -> bool
    ensures { result ≡ nat_le (sum_by member_bytes parts.now) room }
{
    let mut left = room;
    for part in parts {
        match part.room_left(left) {
            Some(rest) => left = rest,
            None => return false,
        }
    }
    true
}

impl Queues {
    // The four counts and the number of definitions are to come next.
    fn compare_head(&self, bytes: &mut Compared<'_>)
        requires { length self.now.definitions.items ≤ 4096 }
        ensures { (t : states.State) → HoldsState self.now t
            → bytes.new ≡ left_after (head_of t) bytes.old }
    {
        bytes.u64(self.next);
        bytes.u64(self.greatest);
        bytes.u64(self.committed);
        bytes.u64(self.aborted);
        bytes.member_count(self.definitions.len());
    }

    /// Whether so many bytes are enough for all members, each in its shortest form.
    pub(crate) fn fits(&self, len: usize) -> bool
        ensures { (t : states.State) → HoldsState self.now t
            → result ≡ nat_le (least_bytes t) len }
    {
        rq_state::parts_make_the_state();
        let lists = State::SHORTEST as u128
            + Definition::SHORTEST as u128 * self.definitions.len() as u128
            + State::UNIT as u128 * self.units.count() as u128;
        lists <= len as u128 && parts_fit(&self.parts, (len as u128 - lists) as u64)
    }

    // Whether the bytes, so many in all, may spell the state, if they begin with its head. It looks
    // at no more parts than as many bytes can spell.
    fn may_follow(&self, bytes: &Compared<'_>, len: usize) -> bool
        ensures { (t : states.State) → HoldsState self.now t
            → result ≡ (nat_le self.now.next carried_next
            && (is_some bytes.now && nat_le (least_bytes t) len)) }
    {
        self.next <= State::CARRIED_RECORDS && bytes.agree() && self.fits(len)
    }

    // The number of registrants and their spellings are to come next.
    fn compare_registrants(&self, bytes: &mut Compared<'_>)
        requires few { HoldsFew self.now }
        ensures { (t : states.State) → HoldsState self.now t
            → bytes.new ≡ left_after (counted registrant_bytes t.registrants) bytes.old }
    {
        rq_state::parts_make_the_state();
        bytes.member_count(registrants_in(&self.parts));
        compare_registrants_of(&self.parts, bytes);
    }

    // The number of elements and their spellings are to come next. Those of all queues come by id,
    // so they are lent and put in order, if the bytes agree so far.
    fn compare_elements(&self, alloc: Global, bytes: &mut Compared<'_>) -> Result<(), Fault>
        requires few { HoldsFew self.now }
        ensures compared { OnOk result ((t : states.State) → HoldsState self.now t
            → bytes.new ≡ left_after (counted element_bytes t.elements) bytes.old) }
        ensures refused { IfErr result (λ e. e ≡ Resources) }
    {
        if !bytes.agree() {
            return Ok(());
        }
        let elements = self.elements_in_order(alloc)?;
        bytes.member_count(elements.len());
        compare_all(&elements, bytes);
        Ok(())
    }

    // The same of the notes, which come by place.
    fn compare_notes(&self, alloc: Global, bytes: &mut Compared<'_>) -> Result<(), Fault>
        requires few { HoldsFew self.now }
        ensures compared { OnOk result ((t : states.State) → HoldsState self.now t
            → bytes.new ≡ left_after (counted note_bytes t.notes) bytes.old) }
        ensures refused { IfErr result (λ e. e ≡ Resources) }
    {
        if !bytes.agree() {
            return Ok(());
        }
        let notes = self.notes_in_order(alloc)?;
        bytes.member_count(notes.len());
        compare_all(&notes, bytes);
        Ok(())
    }

    // All members are to come next, each list but that of the definitions behind its number.
    fn compare_lists(&self, alloc: Global, bytes: &mut Compared<'_>) -> Result<(), Fault>
        requires few { HoldsFew self.now }
        ensures compared { OnOk result ((t : states.State) → HoldsState self.now t
            → bytes.new ≡ left_after (members_of t) bytes.old) }
        ensures refused { IfErr result (λ e. e ≡ Resources) }
    {
        compare_all(&self.definitions, bytes);
        self.units.compare(bytes);
        self.compare_registrants(bytes);
        self.compare_elements(alloc, bytes)?;
        self.compare_notes(alloc, bytes)?;
        Ok(())
    }

    /// Whether these bytes spell the state that they hold, in a log or a carried file. Refused only with
    /// `Resources`.
    pub(crate) fn is_spelled_by(&self, alloc: Global, kept: &[u8]) -> Result<bool, Fault>
        requires holds { (t : states.State) × HoldsState self.now t }
        requires short { length kept.now ≤ 268435455 }
        ensures truth { IfOk result (λ b. (t : states.State) → HoldsState self.now t
            → b ≡ (nat_le t.next carried_next && bytes_eq kept.now (state_bytes t))) }
        ensures refused { IfErr result (λ e. e ≡ Resources) }
    {
        let mut bytes = Compared::new(kept);
        self.compare_head(&mut bytes);
        if !self.may_follow(&bytes, kept.len()) {
            return Ok(false);
        }
        self.compare_lists(alloc, &mut bytes)?;
        Ok(bytes.is_matched())
    }

    /// The bytes that spell the state that they hold.
    pub(crate) fn spell(&self, alloc: Global) -> Result<Vec<u8>, Fault>
        requires { (t : states.State) × HoldsState self.now t }
        ensures { (t : states.State) → HoldsState self.now t → Spelled t result }
    {
        rq_state::parts_make_the_state();
        let units = self.units.numbers(alloc)?;
        let registrants = lent_registrants(alloc, &self.parts)?;
        let elements = self.elements_in_order(alloc)?;
        let notes = self.notes_in_order(alloc)?;
        let state = LentState {
            next: self.next,
            greatest: self.greatest,
            committed: self.committed,
            aborted: self.aborted,
            definitions: &self.definitions,
            units: &units,
            registrants: &registrants,
            elements: &elements,
            notes: &notes,
        };
        spell_lent(alloc, &state)
    }
}
