//! The elements of a queue.

ghost use Rattle.std.specs.Prelude.{◌≡◌, ◌≢◌, ◌+◌, ◌<◌, ◌&&◌, ◌^◌, ◌∷◌, ◌++◌, [], not, map, filter};
ghost use Rattle.std.specs.Prelude.{◌*◌, ◌-◌, ◌≤◌, length, option_map, IfOk, IfErr, OnOk, SomeIff};
ghost use Rattle.std.specs.List.{AllByRecursion};
ghost use Rattle.std.specs.List.Sorted.{IsPermutation};
ghost use Rattle.rq_model.specs.Machine as machine;
ghost use Rattle.rq_model.specs.States as model;
ghost use Rattle.rq_model.specs.WellFormed.{Ordered};
ghost use Rattle.rq_queue.specs.Kept.{sent_from};
ghost use Rattle.rq_record.specs.declared.fault.Fault.TheVariants.{Resources};
ghost use Rattle.rq_state.specs.Views.{id_of};

use crate::lent::{LentElement, copied, lend_marked, lend_values};
use crate::moves::{KeptMove, send};
use crate::priorities::{kept_with, learn, take_out};
use crate::rooms::{room_after, room_after_marked};
use crate::shelves::{
    Rank, all_freed, all_returned, free_list, mapped, parted, shelve, stow, taken, with_marked,
};
use rq_record::{ElemId, Fault, QueueNo, UnitNo};
use rq_state::{Definition, Element, KeptElement, Mark, order, told_elements};
use std::alloc::Global;
use std::collections::BTreeMap;
use std::marker::Model;
use std::mem::replace;

/// The elements of a queue, by id. Free ones are ordered by priority and id, so that the best one
/// is the first; the others are kept with the unit that marks them. So an operation costs the
/// logarithm of their number for each element that it changes.
///
/// From the first KILL on, the priority of each element is kept under its id, since a KILL names no
/// priority. An entry may be of an element that has gone: it only says where to look. A queue
/// without a KILL keeps none.
#[derive(Drop)]
pub struct Elements {
    pub(crate) free: BTreeMap<Rank, KeptElement>,
    pub(crate) marked: BTreeMap<u64, Vec<KeptElement>>,
    pub(crate) priorities: Option<BTreeMap<u64, u8>>,
}

impl Model for Elements {
    ghost use Rattle.std.specs.Prelude.{List};
    ghost use Rattle.rq_model.specs.States as model;

    ghost Value = { List model.Element };

    ghost use Rattle.rq_queue.specs.Listed.{elements_inside, IsShelved};

    ghost view = { elements_inside };

    ghost invariant = { IsShelved };
}

impl Elements {
    /// No element.
    pub fn none(alloc: Global) -> Elements
        ensures { result ≡ [] }
    {
        Elements {
            free: BTreeMap::new(alloc),
            marked: BTreeMap::new(alloc),
            priorities: None,
        }
    }

    /// These elements, whose ids rise.
    pub(crate) fn of(alloc: Global, items: Vec<KeptElement>) -> Result<Elements, Fault>
        requires { Ordered (λ (e f : model.Element). e.id < f.id) items.items }
        ensures done { IfOk result (λ v. v ≡ items.items) }
        ensures refused { IfErr result (λ e. e ≡ Resources) }
    {
        let (list, marked) = parted(alloc, items)?;
        let free = mapped(alloc, list)?;
        Ok(Elements {
            free,
            marked,
            priorities: None,
        })
    }

    /// All of them, in some order.
    pub(crate) fn list(self, alloc: Global) -> Result<Vec<KeptElement>, Fault>
        ensures listed { IfOk result (λ v. IsPermutation self v.items) }
        ensures refused { IfErr result (λ e. e ≡ Resources) }
    {
        let mut all = free_list(alloc, self.free)?;
        with_marked(&mut all, self.marked)?;
        Ok(all)
    }

    /// The same, as a caller has them.
    pub(crate) fn list_told(self, alloc: Global) -> Result<Vec<Element>, Fault>
        ensures listed { IfOk result (λ v. IsPermutation self v.items) }
        ensures refused { IfErr result (λ e. e ≡ Resources) }
    {
        let kept = self.list(alloc)?;
        told_elements(alloc, &kept)
    }

    /// Lends all of them, in some order.
    pub(crate) fn lend<'a>(&'a self, lent: &mut Vec<LentElement<'a>>) -> Result<(), Fault>
        ensures lent { OnOk result (IsPermutation (lent.old.items ++ self.now) lent.new.items) }
        ensures refused { IfErr result (λ e. e ≡ Resources) }
    {
        lend_values(lent, &self.free)?;
        lend_marked(lent, &self.marked)?;
        Ok(())
    }

    /// Copies of all of them, in some order.
    pub(crate) fn copies(&self, alloc: Global) -> Result<Vec<KeptElement>, Fault>
        ensures listed { IfOk result (λ v. IsPermutation self.now v.items) }
        ensures refused { IfErr result (λ e. e ≡ Resources) }
    {
        let mut lent = Vec::new(alloc);
        self.lend(&mut lent)?;
        let copies = copied(alloc, &lent)?;
        Ok(copies)
    }

    /// The room that they leave of so many bytes. None if they do not fit.
    pub(crate) fn room_left(&self, room: u64) -> Option<u64>
        ensures { SomeIff result (28 * length self.now ≤ room) (room - 28 * length self.now) }
    {
        let left = room_after(room, KeptElement::SHORTEST, self.free.len())?;
        room_after_marked(left, &self.marked)
    }

    /// Puts in an element of a new id.
    pub(crate) fn put(&mut self, alloc: Global, e: KeptElement) -> Result<(), Fault>
        requires { AllByRecursion (λ (x : model.Element). x.id ≢ e.id) self.old }
        ensures done { OnOk result (self.new ≡ model.put model.id_before e self.old) }
        ensures refused { IfErr result (λ e. e ≡ Resources) }
    {
        kept_with(&mut self.priorities, &e)?;
        shelve(alloc, &mut self.free, &mut self.marked, e)?;
        Ok(())
    }

    /// Adds an element whose id is greater than those of the others.
    pub(crate) fn push(&mut self, alloc: Global, e: KeptElement) -> Result<(), Fault>
        requires { AllByRecursion (λ (x : model.Element). x.id < e.id) self.old }
        ensures done { OnOk result (self.new ≡ self.old ++ e ∷ []) }
        ensures refused { IfErr result (λ e. e ≡ Resources) }
    {
        self.put(alloc, e)?;
        Ok(())
    }

    /// The best element becomes Held. Answers its id, if there is one. All elements are in the
    /// queue. Elements that refuse are no longer of use.
    pub fn hold_best(
        &mut self,
        alloc: Global,
        unit: UnitNo,
        queue: QueueNo,
    ) -> Result<Option<ElemId>, Fault>
        requires { AllByRecursion (λ (x : model.Element). x.home ≡ queue.0) self.old }
        ensures held { OnOk result (self.new ≡ machine.best_held unit.0 queue.0 self.old) }
        ensures best { IfOk result
            (λ v. id_of v ≡ option_map (λ e. e.id) (machine.best queue.0 self.old)) }
        ensures refused { IfErr result (λ e. e ≡ Resources) }
    {
        let Some((_, mut e)) = self.free.pop_first() else {
            return Ok(None);
        };
        let id = e.id();
        e.set_mark(Mark::Held(unit));
        stow(alloc, &mut self.marked, unit, e)?;
        Ok(Some(id))
    }

    /// Fresh ones of the unit become Free, Held ones go.
    pub(crate) fn commit(&mut self, alloc: Global, unit: UnitNo) -> Result<(), Fault>
        ensures done { OnOk result (self.new ≡ machine.committed_elements unit.0 self.old) }
        ensures refused { IfErr result (λ e. e ≡ Resources) }
    {
        let list = taken(alloc, &mut self.marked, unit);
        let mut free = replace(&mut self.free, BTreeMap::new(alloc));
        all_freed(&mut free, list, unit)?;
        self.free = free;
        Ok(())
    }

    /// Fresh ones of the unit go. Held ones become Free with one attempt more, or leave.
    pub(crate) fn abort(
        &mut self,
        alloc: Global,
        place: u64,
        unit: UnitNo,
        home: &Definition,
        sent: &mut Vec<KeptMove>,
    ) -> Result<(), Fault>
        requires { AllByRecursion (λ (e : model.Element). e.attempts + 1 < 2 ^ 64) self.old }
        ensures kept { OnOk result (self.new
            ≡ map (machine.returned unit.0) (filter (λ e. not (model.is_fresh unit.0 e.mark)
            && not (machine.leaves home.now unit.0 e)) self.old)) }
        ensures sent { OnOk result (sent.new.items ≡ sent.old.items
            ++ sent_from place home.now (filter (machine.leaves home.now unit.0) self.old)) }
        ensures refused { IfErr result (λ e. e ≡ Resources) }
    {
        let list = taken(alloc, &mut self.marked, unit);
        let mut free = replace(&mut self.free, BTreeMap::new(alloc));
        let mut leaving = all_returned(alloc, &mut free, list, unit, home)?;
        order(&mut leaving);
        send(leaving, place, home, sent)?;
        self.free = free;
        Ok(())
    }

    /// The Free element of that id goes, if there is one. All elements are in the queue.
    pub(crate) fn kill(&mut self, alloc: Global, queue: QueueNo, id: ElemId) -> Result<(), Fault>
        requires { AllByRecursion (λ (x : model.Element). x.home ≡ queue.0) self.old }
        ensures done { OnOk result (self.new ≡ machine.killed queue.0 id.0 self.old) }
        ensures refused { IfErr result (λ e. e ≡ Resources) }
    {
        learn(alloc, &mut self.priorities, &self.free, &self.marked)?;
        let Some(by_id) = &self.priorities else {
            unreachable!()
        };
        take_out(&mut self.free, by_id, id);
        Ok(())
    }
}
