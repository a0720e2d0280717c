//! The state, and its lists.

ghost use Rattle.std.specs.Prelude.{◌≡◌, ◌<◌, ℕ, length, map, IfOk, IfErr};
ghost use Rattle.std.specs.List.{AllByRecursion};
ghost use Rattle.rq_model.specs.States as model;
ghost use Rattle.rq_model.specs.Queues.{elements_at, registrants_at, notes_at};
ghost use Rattle.rq_model.specs.WellFormed.{IsWellFormed};
ghost use Rattle.rq_record.specs.declared.fault.Fault.TheVariants.{Resources};
ghost use Rattle.rq_state.specs.Orders.{AreAt, state_in_order};
ghost use Rattle.rq_state.specs.Inside.{state_of};
ghost use Rattle.rq_state.specs.Views.{unit_of};

use crate::fields::{Fields, KeptFields};
use crate::kept_element::KeptElement;
use crate::kept_registrant::KeptRegistrant;
use crate::members::{Definition, Note};
use crate::orders::{order, order_registrants, order_units};
use crate::tables::{listed_at, table_of};
use rq_record::{Fault, QueueNo, UnitNo};
use std::alloc::Global;
use std::marker::Model;

/// What the queue manager keeps, and where the elements and notes of each queue are in its lists.
#[derive(Drop)]
pub struct State {
    fields: KeptFields,
    homes: Vec<Vec<usize>>,
    noted: Vec<Vec<usize>>,
}

impl Model for State {
    ghost use Rattle.rq_model.specs.States.{State};

    ghost Value = { State };

    ghost use Rattle.rq_model.specs.WellFormed.{IsWellFormed};
    ghost use Rattle.rq_state.specs.Inside.{state_of};
    ghost use Rattle.rq_state.specs.Orders.{IsTabled};

    ghost view = { λ s. state_of s.fields };

    ghost invariant = { λ s. IsWellFormed (state_of s.fields)
        × IsTabled s.fields.elements.items s.fields.notes.items s.homes.items s.noted.items };
}

impl State {
    /// The most records before a state that is spelled in a log.
    pub const RECORDS: u64 = 4_294_967_295;

    /// The most records before a state that is spelled in a carried file.
    pub const CARRIED_RECORDS: u64 = 9_223_372_036_854_775_807;

    /// The state before the first record. It takes no memory.
    pub fn empty(alloc: Global) -> State
        ensures { result ≡ model.empty }
    {
        let fields = KeptFields {
            next: 0,
            greatest: 0,
            committed: 0,
            aborted: 0,
            definitions: Vec::new(alloc),
            units: Vec::new(alloc),
            registrants: Vec::new(alloc),
            elements: Vec::new(alloc),
            notes: Vec::new(alloc),
        };
        State {
            fields,
            homes: Vec::new(alloc),
            noted: Vec::new(alloc),
        }
    }

    /// The state of the fields, with their lists put in order. If memory runs out, `Resources` is
    /// returned and the fields are dropped.
    pub fn build(alloc: Global, fields: Fields) -> Result<State, Fault>
        requires { IsWellFormed (state_in_order (state_of fields)) }
        ensures built { IfOk result (λ s. s ≡ state_in_order (state_of fields)) }
        ensures refused { IfErr result (λ e. e ≡ Resources) }
    {
        State::build_kept(alloc, KeptFields::of(alloc, fields)?)
    }

    /// The same for fields that are kept; nothing of them is copied.
    pub fn build_kept(alloc: Global, mut fields: KeptFields) -> Result<State, Fault>
        requires { IsWellFormed (state_in_order (state_of fields)) }
        ensures built { IfOk result (λ s. s ≡ state_in_order (state_of fields)) }
        ensures refused { IfErr result (λ e. e ≡ Resources) }
    {
        order_units(&mut fields.units);
        order_registrants(&mut fields.registrants);
        order(&mut fields.elements);
        order(&mut fields.notes);
        let state = State::of_ordered(alloc, fields)?;
        Ok(state)
    }

    /// The state of fields whose lists are in order already. If there is no memory for the tables
    /// of each queue's members, `Resources` is returned and the fields are dropped.
    pub(crate) fn of_ordered(alloc: Global, fields: KeptFields) -> Result<State, Fault>
        requires { IsWellFormed (state_of fields) }
        ensures built { IfOk result (λ s. s ≡ state_of fields) }
        ensures refused { IfErr result (λ e. e ≡ Resources) }
    {
        let queues = fields.definitions.len();
        let homes = table_of(alloc, queues, &fields.elements)?;
        let noted = table_of(alloc, queues, &fields.notes)?;
        Ok(State {
            fields,
            homes,
            noted,
        })
    }

    /// Its fields, with their lists in order.
    pub fn fields(&self) -> &KeptFields
        ensures fields { state_of result.now ≡ self.now }
        ensures well_formed { IsWellFormed self.now }
    {
        &self.fields
    }

    /// The number that the next record gets. Its contract also says that the state is well formed.
    pub fn next(&self) -> u64
        ensures next { result ≡ self.now.next }
        ensures well_formed { IsWellFormed self.now }
    {
        self.fields.next
    }

    /// The greatest unit that ever began; 0 before the first.
    pub fn greatest(&self) -> u64
        ensures { result ≡ self.now.greatest }
    {
        self.fields.greatest
    }

    /// How many units were committed.
    pub fn committed(&self) -> u64
        ensures { result ≡ self.now.committed }
    {
        self.fields.committed
    }

    /// How many units were aborted.
    pub fn aborted(&self) -> u64
        ensures { result ≡ self.now.aborted }
    {
        self.fields.aborted
    }

    /// The queues, by number.
    pub fn definitions(&self) -> &[Definition]
        ensures { result.now ≡ self.now.definitions }
    {
        &self.fields.definitions
    }

    /// The open units, rising.
    pub fn units(&self) -> &[UnitNo]
        ensures { map unit_of result.now ≡ self.now.units }
    {
        &self.fields.units
    }

    /// The registrants, by queue and name.
    pub fn registrants(&self) -> &[KeptRegistrant]
        ensures { result.now ≡ self.now.registrants }
    {
        &self.fields.registrants
    }

    /// The elements, by id.
    pub fn elements(&self) -> &[KeptElement]
        ensures { result.now ≡ self.now.elements }
    {
        &self.fields.elements
    }

    /// The notes of open units, by place.
    pub fn notes(&self) -> &[Note]
        ensures { result.now ≡ self.now.notes }
    {
        &self.fields.notes
    }

    /// Where a queue's elements are in the list of elements, rising; none if no queue has the
    /// number.
    pub fn elements_of(&self, queue: QueueNo) -> &[usize]
        ensures within { AllByRecursion (λ index. index < length self.now.elements) result.now }
        ensures elements { AreAt self.now.elements result.now
            (elements_at queue.0 self.now.elements) }
    {
        listed_at(&self.homes, queue)
    }

    /// A queue's registrants, by name; none if no queue has the number. Found by two searches, since
    /// the registrants are in order by queue.
    pub fn registrants_of(&self, queue: QueueNo) -> &[KeptRegistrant]
        ensures { result.now ≡ registrants_at queue.0 self.now.registrants }
    {
        self.is_well_formed();
        let all = self.registrants();
        let (_, from) = all.split_at(all.partition_point(|r| r.queue().0 < queue.0));
        let (own, _) = from.split_at(from.partition_point(|r| r.queue().0 <= queue.0));
        own
    }

    /// Where a queue's notes are in the list of notes, rising; none if no queue has the number.
    pub fn notes_of(&self, queue: QueueNo) -> &[usize]
        ensures within { AllByRecursion (λ index. index < length self.now.notes) result.now }
        ensures notes { AreAt self.now.notes result.now (notes_at queue.0 self.now.notes) }
    {
        listed_at(&self.noted, queue)
    }
}
