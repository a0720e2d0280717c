//! Looks at a state's members, each by its index.

ghost use Rattle.std.specs.Prelude.{◌≡◌, ◌<◌, ℕ, length, slice_index_or};
ghost use Rattle.rq_model.specs.States as model;

use crate::kept_element::KeptElement;
use crate::kept_registrant::KeptRegistrant;
use crate::members::{Definition, Note, Registrant};
use crate::state::State;
use rq_record::UnitNo;

impl State {
    /// How many queues are defined.
    pub fn definition_count(&self) -> usize
        ensures { result ≡ length self.now.definitions }
    {
        self.definitions().len()
    }

    /// The definition of the queue whose number is `index`.
    pub fn definition(&self, index: usize) -> &Definition
        requires { index < length self.now.definitions }
        ensures { (x : model.Definition) →
            result.now ≡ slice_index_or self.now.definitions index x }
    {
        &self.definitions()[index]
    }

    /// How many units are open.
    pub fn unit_count(&self) -> usize
        ensures { result ≡ length self.now.units }
    {
        self.units().len()
    }

    /// The open unit at an index in their list.
    pub fn unit(&self, index: usize) -> UnitNo
        requires { index < length self.now.units }
        ensures { (unit : ℕ) → result.0 ≡ slice_index_or self.now.units index unit }
    {
        self.units()[index]
    }

    /// How many registrants there are, in all queues.
    pub fn registrant_count(&self) -> usize
        ensures { result ≡ length self.now.registrants }
    {
        self.registrants().len()
    }

    /// The registrant at an index in their list. It takes no memory.
    pub fn registrant(&self, index: usize) -> Registrant
        requires { index < length self.now.registrants }
        ensures { (x : model.Registrant) →
            result ≡ slice_index_or self.now.registrants index x }
    {
        self.kept_registrant(index).registrant()
    }

    /// The same registrant as the state keeps it.
    pub fn kept_registrant(&self, index: usize) -> &KeptRegistrant
        requires { index < length self.now.registrants }
        ensures { (x : model.Registrant) →
            result.now ≡ slice_index_or self.now.registrants index x }
    {
        &self.registrants()[index]
    }

    /// How many elements there are, in all queues and of every mark.
    pub fn element_count(&self) -> usize
        ensures { result ≡ length self.now.elements }
    {
        self.elements().len()
    }

    /// The element at an index in their list.
    pub fn element(&self, index: usize) -> &KeptElement
        requires { index < length self.now.elements }
        ensures { (x : model.Element) → result.now ≡ slice_index_or self.now.elements index x }
    {
        &self.elements()[index]
    }

    /// How many notes of open units there are.
    pub fn note_count(&self) -> usize
        ensures { result ≡ length self.now.notes }
    {
        self.notes().len()
    }

    /// The note at an index in their list.
    pub fn note(&self, index: usize) -> &Note
        requires { index < length self.now.notes }
        ensures { (x : model.Note) → result.now ≡ slice_index_or self.now.notes index x }
    {
        &self.notes()[index]
    }
}
