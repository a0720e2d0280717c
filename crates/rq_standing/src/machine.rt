//! The one-thread machine: the state of the queue manager, queue by queue.

ghost use Rattle.std.specs.Prelude.{◌≡◌, ◌==◌, ◌≤◌, ◌<◌, ◌&&◌, nat_le, IfOk, IfErr, IfSome, length, not};
ghost use Rattle.std.specs.Prelude.{is_some, map, filter, option_copied, option_map};
ghost use Rattle.std.specs.List.{find, list_any};
ghost use Rattle.std.specs.List.Sorted.{IsPermutation};
ghost use Rattle.std.specs.Str.{bytes_eq};
ghost use Rattle.rq_lawful.specs.Breaks.{Breaks};
ghost use Rattle.rq_model.specs.Machine as machine;
ghost use Rattle.rq_model.specs.Queues as queues;
ghost use Rattle.rq_model.specs.Reports.{IsListing};
ghost use Rattle.rq_model.specs.States as model;
ghost use Rattle.rq_model.specs.StateSpelling.{carried_next, state_bytes};
ghost use Rattle.rq_record.specs.Views.{record_of, version_of};
ghost use Rattle.rq_record.specs.declared.fault.Fault.TheVariants.{Resources};
ghost use Rattle.rq_state.specs.Spelling.{ReadsState, Spelled};
ghost use Rattle.rq_state.specs.Views.{unit_of};
ghost use Rattle.rq_standing.specs.Ends.{ends};
ghost use Rattle.rq_standing.specs.Machines.{IsDone, state_after};
ghost use Rattle.rq_standing.specs.Spelled.{least_bytes};

use crate::queues::Queues;
use crate::taken::Taken;
use rq_lawful::{Rule, broken};
use rq_queue::{Fate, Part};
use rq_record::{ElemId, Fault, KeptName, KeptRecord, QueueNo, UnitNo, Version};
use rq_state::{Definition, KeptElement, Last, State, read_in};
use std::alloc::Global;
use std::marker::Model;

/// The state of the queue manager, kept queue by queue, which goes along with records in place. A
/// record costs the members that it touches, times a logarithm. A state that is wanted after many
/// records comes sooner by `replay`. Contracts see the state itself.
#[derive(Drop)]
pub struct Machine {
    queues: Queues,
}

impl Model for Machine {
    ghost use Rattle.rq_model.specs.States.{State};
    ghost use Rattle.rq_standing.specs.Ends.{ends};
    ghost use Rattle.rq_standing.specs.Machines.{state_in, HoldOneState};

    ghost Value = { State };

    ghost view = { λ m. state_in m.queues };

    ghost invariant = { λ m. HoldOneState m.queues };
}

impl Machine {
    /// The state before the first record. Takes no memory.
    pub fn empty(alloc: Global) -> Machine
        ensures { result ≡ model.empty }
    {
        rq_model::runs_are_well_formed();
        rq_state::parts_make_the_state();
        rq_state::any_order_makes_the_state();
        let queues = Queues::empty(alloc);
        queues.units.numbers_rise();
        Machine { queues }
    }

    /// The state, of copies; payloads are shared with them. Refused with `Resources` alone.
    pub fn of(alloc: Global, state: &State) -> Result<Machine, Fault>
        ensures made { IfOk result (λ m. m ≡ state.now) }
        ensures refused { IfErr result (λ e. e ≡ Resources) }
    {
        rq_state::parts_make_the_state();
        rq_state::any_order_makes_the_state();
        let queues = Queues::of(alloc, state)?;
        queues.units.numbers_rise();
        Ok(Machine { queues })
    }

    /// The state that these bytes spell in a log of the version, refused as `read_in` of `rq_state`
    /// is.
    pub fn read(alloc: Global, version: Version, bytes: &[u8]) -> Result<Machine, Fault>
        ensures { ReadsState (version_of version) bytes.now result }
    {
        let state = read_in(alloc, version, bytes)?;
        Machine::of(alloc, &state)
    }

    /// The number that the next record gets.
    pub fn next(&self) -> u64
        ensures { result ≡ self.now.next }
    {
        self.queues.next
    }

    /// The greatest unit that ever began; 0 before the first.
    pub fn greatest(&self) -> u64
        ensures { result ≡ self.now.greatest }
    {
        self.queues.greatest
    }

    /// The open units, rising. Refused with `Resources` alone.
    pub fn open_units(&self, alloc: Global) -> Result<Vec<UnitNo>, Fault>
        ensures units { IfOk result (λ v. map unit_of v.items ≡ self.now.units) }
        ensures refused { IfErr result (λ e. e ≡ Resources) }
    {
        let units = self.queues.units.numbers(alloc)?;
        Ok(units)
    }

    /// How many units are open.
    pub fn open_count(&self) -> usize
        ensures { result ≡ length self.now.units }
    {
        self.queues.units.count()
    }

    /// The queues, by number.
    pub fn definitions(&self) -> &[Definition]
        ensures { result.now ≡ self.now.definitions }
    {
        &self.queues.definitions
    }

    /// What belongs to a queue.
    pub fn part(&self, queue: QueueNo) -> &Part
        requires { queue.0 < length self.now.definitions }
        ensures { result.now ≡ queues.part_of self.now queue.0 }
    {
        &self.queues.parts[queue.0 as usize]
    }

    /// The Free elements of a queue, in the order in which they would be taken; lent. Refused with
    /// `Resources` alone.
    pub fn listing(&self, alloc: Global, queue: QueueNo) -> Result<Vec<&KeptElement>, Fault>
        requires { queue.0 < length self.now.definitions }
        ensures listed { IfOk result
            (λ v. IsListing queue.0 self.now.elements (map (λ e. e.now) v.items)) }
        ensures refused { IfErr result (λ e. e ≡ Resources) }
    {
        let free = self.part(queue).listing(alloc)?;
        Ok(free)
    }

    /// What a unit put in or took of a queue, in the order in which it did; lent.
    pub fn marked_by(&self, queue: QueueNo, unit: UnitNo) -> &[KeptElement]
        requires { queue.0 < length self.now.definitions }
        ensures { IsPermutation result.now (filter (λ (e : model.Element).
            queues.is_marked unit.0 e.mark) (queues.elements_at queue.0 self.now.elements)) }
    {
        self.part(queue).marked_by(unit)
    }

    /// The element of a queue that the next DEQUEUE takes, lent; none if no element is free there.
    pub fn first(&self, queue: QueueNo) -> Option<&KeptElement>
        ensures { option_copied result ≡ machine.best queue.0 self.now.elements }
    {
        rq_model::step_by_parts();
        if queue.0 as usize >= self.queues.definitions.len() {
            return None;
        }
        self.part(queue).first()
    }

    /// The last operation of who is registered with a queue by the name, lent; none if nobody is.
    pub fn last(&self, queue: QueueNo, name: &KeptName) -> Option<Option<&Last>>
        ensures { option_map (λ l. option_map (λ x. x.now) l) result ≡ option_map (λ r. r.last)
            (find (model.is_registrant queue.0 name.now) self.now.registrants) }
    {
        if queue.0 as usize >= self.queues.definitions.len() {
            return None;
        }
        self.part(queue).last(name)
    }

    /// Whether a queue has the element of this id, and it is free: a KILL takes it out.
    pub fn has_free(&self, queue: QueueNo, id: ElemId) -> bool
        ensures { result ≡ list_any
            (λ e. machine.is_free_at queue.0 e && (e.id == id.0)) self.now.elements }
    {
        if queue.0 as usize >= self.queues.definitions.len() {
            return false;
        }
        self.part(queue).is_free(id)
    }

    /// How many elements of a queue are free.
    pub fn depth(&self, queue: QueueNo) -> usize
        requires { queue.0 < length self.now.definitions }
        ensures { result ≡ length (filter (machine.is_free_at queue.0) self.now.elements) }
    {
        self.part(queue).free_count()
    }

    /// What a COMMIT or an ABORT that is not done yet makes of the elements that its unit put in or
    /// took, by id; nothing of any other record. Refused with `Resources` alone.
    pub fn ends(&self, alloc: Global, what: &KeptRecord) -> Result<Vec<(ElemId, Fate)>, Fault>
        ensures ends { IfOk result
            (λ v. map (λ p. (p.0.0, p.1)) v.items ≡ ends self.now (record_of what.now)) }
        ensures refused { IfErr result (λ e. e ≡ Resources) }
    {
        self.queues.ends(alloc, what)
    }

    /// A rule of the version that the record breaks; none exactly if it is lawful.
    pub fn broken(&self, version: Version, what: &KeptRecord) -> Option<Rule>
        ensures exact { is_some result
            ≡ not (machine.is_lawful (version_of version) self.now (record_of what.now)) }
        ensures which { IfSome result (Breaks (version_of version) self.now (record_of what.now)) }
    {
        broken(version, &self.queues, what)
    }

    /// Does the record, if it is lawful by the rules of the version. If not, nothing changes, and
    /// the answer names a rule that it breaks. Refused with `Resources` alone: the queues are then
    /// lost, and what is left is the state before the first record.
    pub fn take(
        &mut self,
        alloc: Global,
        version: Version,
        what: &KeptRecord,
    ) -> Result<Taken, Fault>
        ensures answer { IfOk result (λ taken.
            IsDone (version_of version) self.old (record_of what.now) taken) }
        ensures state { IfOk result (λ taken.
            self.new ≡ state_after self.old (record_of what.now) taken) }
        ensures refused { IfErr result (λ e. e ≡ Resources) }
        ensures spent { IfErr result (λ e. self.new ≡ model.empty) }
    {
        rq_model::runs_are_well_formed();
        rq_state::parts_make_the_state();
        rq_state::any_order_makes_the_state();
        if let Some(rule) = broken(version, &self.queues, what) {
            return Ok(Taken::Unlawful(rule));
        }
        match self.queues.take(alloc, what) {
            Ok(element) => {
                self.queues.units.numbers_rise();
                Ok(Taken::Done(element))
            }
            Err(e) => {
                *self = Machine::empty(alloc);
                Err(e)
            }
        }
    }

    /// The state in lists, of copies; payloads are shared with them. Refused with `Resources` alone.
    pub fn state(&self, alloc: Global) -> Result<State, Fault>
        ensures state { IfOk result (λ s. s ≡ self.now) }
        ensures refused { IfErr result (λ e. e ≡ Resources) }
    {
        self.queues.state(alloc)
    }

    /// The bytes of a checkpoint of the state, as `spell` of `rq_state` gives them. Its members are
    /// lent, and none is copied but the numbers of the open units. `TooLarge` if there would be more
    /// than 268,435,455 bytes, `Resources` if memory runs out.
    pub fn spell(&self, alloc: Global) -> Result<Vec<u8>, Fault>
        ensures { Spelled self.now result }
    {
        self.queues.spell(alloc)
    }

    /// Whether so many bytes are enough to spell the state, if each member took its shortest form. It
    /// makes nothing, and looks at no more queues than as many bytes can spell.
    pub fn fits(&self, len: usize) -> bool
        ensures { result ≡ nat_le (least_bytes self.now) len }
    {
        self.queues.fits(len)
    }

    /// Whether these bytes, which are at most as many as a record holds, spell the state, whose next
    /// record number is at most that of a carried file. Members
    /// are compared with them as they come, and none is copied. So it costs the bytes up to the
    /// first that differs. If that is behind the registrants, it costs the elements and notes too,
    /// times a logarithm, since those of all queues are put in order: the bytes are enough for
    /// them. Refused with `Resources` alone.
    pub fn is_spelled_by(&self, alloc: Global, kept: &[u8]) -> Result<bool, Fault>
        requires { length kept.now ≤ 268435455 }
        ensures truth { IfOk result (λ t.
            t ≡ (nat_le self.now.next carried_next && bytes_eq kept.now (state_bytes self.now))) }
        ensures refused { IfErr result (λ e. e ≡ Resources) }
    {
        self.queues.is_spelled_by(alloc, kept)
    }
}
