//! What a state is made from.

ghost use Rattle.std.specs.Prelude.{◌≡◌, IfOk, IfErr};
ghost use Rattle.rq_record.specs.declared.fault.Fault.TheVariants.{Resources};
ghost use Rattle.rq_state.specs.Inside.{state_lent, state_of};

use crate::kept_element::{Element, KeptElement, kept_elements};
use crate::kept_registrant::{KeptRegistrant, kept_registrants};
use crate::lent_state::LentState;
use crate::members::{Definition, Note, Registrant};
use rq_record::{Fault, UnitNo};
use std::alloc::Global;

/// What a state is made from, as a caller makes it.
pub type Fields = FieldsOf<Element, Registrant>;

/// What a state is made from, as it keeps it.
pub type KeptFields = FieldsOf<KeptElement, KeptRegistrant>;

/// What a state is made from: definitions by number, the other lists in any order. `E` is the type
/// of elements, `Element` or `KeptElement`, and `R` that of registrants, `Registrant` or
/// `KeptRegistrant`.
#[derive(Drop)]
pub struct FieldsOf<E, R> {
    /// The next record number.
    pub next: u64,
    /// The greatest unit that ever began; 0 before the first.
    pub greatest: u64,
    /// How many units were committed.
    pub committed: u64,
    /// How many units were aborted.
    pub aborted: u64,
    /// The queues, each at the index that is its number.
    pub definitions: Vec<Definition>,
    /// The open units.
    pub units: Vec<UnitNo>,
    /// Who is registered with any queue.
    pub registrants: Vec<R>,
    /// What is in any queue, with what open units put in or took out.
    pub elements: Vec<E>,
    /// What registrants did in the open units.
    pub notes: Vec<Note>,
}

impl KeptFields {
    /// Keeps the fields, with their lists as they are. `Resources` if memory runs out; the fields
    /// are then dropped.
    pub fn of(alloc: Global, fields: Fields) -> Result<KeptFields, Fault>
        ensures kept { IfOk result (λ k. state_of k ≡ state_of fields) }
        ensures refused { IfErr result (λ e. e ≡ Resources) }
    {
        let registrants = kept_registrants(alloc, &fields.registrants)?;
        let elements = kept_elements(alloc, &fields.elements)?;
        Ok(KeptFields {
            next: fields.next,
            greatest: fields.greatest,
            committed: fields.committed,
            aborted: fields.aborted,
            definitions: fields.definitions,
            units: fields.units,
            registrants,
            elements,
            notes: fields.notes,
        })
    }

    /// The fields, lent.
    pub(crate) fn lent(&self) -> LentState<'_, KeptRegistrant, KeptElement, Note>
        ensures { state_lent result ≡ state_of self.now }
    {
        LentState {
            next: self.next,
            greatest: self.greatest,
            committed: self.committed,
            aborted: self.aborted,
            definitions: &self.definitions,
            units: &self.units,
            registrants: &self.registrants,
            elements: &self.elements,
            notes: &self.notes,
        }
    }
}
