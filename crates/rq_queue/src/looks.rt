//! Looks at what belongs to one queue.

ghost use Rattle.std.specs.Prelude.{◌≡◌, ◌==◌, ◌&&◌, ◌<◌, ◌^◌, ◌++◌, ◌-◌, ◌≤◌, ℕ, not, length, map, filter};
ghost use Rattle.std.specs.Prelude.{IfOk, IfErr, OnOk, SomeIff, option_copied, option_map};
ghost use Rattle.std.specs.List.{AllByRecursion, flat_map, list_any, find};
ghost use Rattle.std.specs.List.Sorted.{IsPermutation};
ghost use Rattle.rq_model.specs.Machine as machine;
ghost use Rattle.rq_model.specs.Queues as queues;
ghost use Rattle.rq_model.specs.Reports.{IsListing};
ghost use Rattle.rq_model.specs.StateSpelling.{registrant_bytes};
ghost use Rattle.rq_model.specs.States as states;
ghost use Rattle.rq_record.specs.declared.fault.Fault.TheVariants.{Resources};
ghost use Rattle.rq_state.specs.Comparing.{left_after};
ghost use Rattle.rq_queue.specs.Firsts.{AreFirst};
ghost use Rattle.rq_queue.specs.Rooms.{member_bytes};

use crate::lent::{LentElement, LentNote, lend_list};
use crate::lent_registrant::LentRegistrant;
use crate::part::Part;
use rq_record::{ElemId, Fault, KeptName, UnitNo};
use rq_state::{Compared, KeptElement, Last};
use std::alloc::Global;

impl Part {
    /// Whether the name is registered with the queue.
    pub fn has_registered(&self, name: &KeptName) -> bool
        ensures { result
            ≡ list_any (states.is_registrant self.now.queue name.now) self.now.registrants }
    {
        self.registrants.has_registered(name)
    }

    /// The last operation of who is registered by the name, lent; none if nobody is.
    pub fn last(&self, name: &KeptName) -> Option<Option<&Last>>
        ensures { option_map (λ l. option_map (λ x. x.now) l) result
            ≡ option_map (λ r. r.last)
            (find (states.is_registrant self.now.queue name.now) self.now.registrants) }
    {
        self.registrants.last(name)
    }

    /// Its best element, if one is free; lent.
    pub fn first(&self) -> Option<&KeptElement>
        ensures { (queue : ℕ) → AllByRecursion (λ (e : states.Element). e.home ≡ queue) self.now.elements
            → option_copied result ≡ machine.best queue self.now.elements }
    {
        self.elements.first()
    }

    /// The Free elements, in the order in which they would be taken; lent. Refused with Resources.
    pub fn listing<'a>(&'a self, alloc: Global) -> Result<Vec<&'a KeptElement>, Fault>
        requires { AllByRecursion
            (λ (x : states.Element). x.home ≡ self.now.queue) self.now.elements }
        ensures listed { IfOk result (λ v.
            IsListing self.now.queue self.now.elements (map (λ e. e.now) v.items)) }
        ensures refused { IfErr result (λ e. e ≡ Resources) }
    {
        self.elements.listing(alloc, self.queue)
    }

    /// The first of them, so many or all; lent. Refused with Resources.
    pub fn first_elements<'a>(
        &'a self,
        alloc: Global,
        count: usize,
    ) -> Result<Vec<&'a KeptElement>, Fault>
        requires { AllByRecursion
            (λ (x : states.Element). x.home ≡ self.now.queue) self.now.elements }
        ensures first { IfOk result (λ v.
            AreFirst count self.now.queue self.now.elements (map (λ e. e.now) v.items)) }
        ensures refused { IfErr result (λ e. e ≡ Resources) }
    {
        self.elements.first_elements(alloc, self.queue, count)
    }

    /// Whether the element of this id is in the queue and free: a KILL takes it out. Before the
    /// first KILL it looks at one free element after another; from then on at no other.
    pub fn is_free(&self, id: ElemId) -> bool
        requires { AllByRecursion
            (λ (x : states.Element). x.home ≡ self.now.queue) self.now.elements }
        ensures { result ≡ list_any
            (λ e. machine.is_free_at self.now.queue e && (e.id == id.0)) self.now.elements }
    {
        self.elements.is_free(self.queue, id)
    }

    /// How many of its elements are free.
    pub fn free_count(&self) -> usize
        ensures { result
            ≡ length (filter (λ (e : states.Element). states.is_free e.mark) self.now.elements) }
    {
        self.elements.free_count()
    }

    /// How many of its elements an open unit put in or took.
    pub fn marked_count(&self) -> usize
        requires { length self.now.elements < 2 ^ 64 }
        ensures { result ≡ length
            (filter (λ (e : states.Element). not (states.is_free e.mark)) self.now.elements) }
    {
        self.elements.marked_count()
    }

    /// The elements that the unit put in or took, in the order in which it did; lent.
    pub fn marked_by(&self, unit: UnitNo) -> &[KeptElement]
        ensures { IsPermutation result.now
            (filter (λ (e : states.Element). queues.is_marked unit.0 e.mark) self.now.elements) }
    {
        self.elements.marked_by(unit)
    }

    /// Lends its registrants: adds them to the list, by name. Refused with Resources.
    pub fn lend_registrants<'a>(&'a self, lent: &mut Vec<LentRegistrant<'a>>) -> Result<(), Fault>
        ensures lent { OnOk result (lent.new.items ≡ lent.old.items ++ self.now.registrants) }
        ensures refused { IfErr result (λ e. e ≡ Resources) }
    {
        self.registrants.lend(self.queue, lent)
    }

    /// Lends its elements: adds them to the list, in some order. Refused with Resources.
    pub fn lend_elements<'a>(&'a self, lent: &mut Vec<LentElement<'a>>) -> Result<(), Fault>
        ensures lent { OnOk result
            (IsPermutation (lent.old.items ++ self.now.elements) lent.new.items) }
        ensures refused { IfErr result (λ e. e ≡ Resources) }
    {
        self.elements.lend(lent)
    }

    /// Lends the elements that the unit put in or took: adds them to the list, in some order. Refused
    /// with Resources.
    pub fn lend_marked_by<'a>(
        &'a self,
        unit: UnitNo,
        lent: &mut Vec<LentElement<'a>>,
    ) -> Result<(), Fault>
        ensures lent { OnOk result (IsPermutation
            (lent.old.items
            ++ filter (λ (e : states.Element). queues.is_marked unit.0 e.mark) self.now.elements)
            lent.new.items) }
        ensures refused { IfErr result (λ e. e ≡ Resources) }
    {
        lend_list(lent, self.marked_by(unit))?;
        Ok(())
    }

    /// Lends its notes: adds them to the list, by place. Refused with Resources.
    pub fn lend_notes<'a>(&'a self, lent: &mut Vec<LentNote<'a>>) -> Result<(), Fault>
        ensures lent { OnOk result (lent.new.items ≡ lent.old.items ++ self.now.notes) }
        ensures refused { IfErr result (λ e. e ≡ Resources) }
    {
        self.notes.lend(lent)
    }

    /// How many registrants it has.
    pub fn registrant_count(&self) -> usize
        ensures { result ≡ length self.now.registrants }
    {
        self.registrants.count()
    }

    /// The spellings of its registrants are to come next in the bytes. It looks at none behind the
    /// first that differs.
    pub fn compare_registrants(&self, bytes: &mut Compared<'_>)
        ensures { bytes.new ≡ left_after (flat_map registrant_bytes self.now.registrants) bytes.old }
    {
        self.registrants.compare(self.queue, bytes);
    }

    /// The room that its members leave of so many bytes, each member spelled in its shortest form.
    /// None if they do not fit. It looks at no more lists than fit.
    pub fn room_left(&self, room: u64) -> Option<u64>
        ensures { SomeIff result (member_bytes self.now ≤ room) (room - member_bytes self.now) }
    {
        let left = self.registrants.room_left(room)?;
        let left = self.notes.room_left(left)?;
        self.elements.room_left(left)
    }
}
