//! Copies of what belongs to one queue, at the cost of that queue's share of the state.

ghost use Rattle.std.specs.Prelude.{◌≡◌, ◌<◌, length, map, IfOk, IfErr, slice_index_or};
ghost use Rattle.std.specs.List.{AllByRecursion};
ghost use Rattle.rq_model.specs.Queues.{elements_at, notes_at};
ghost use Rattle.rq_record.specs.declared.fault.Fault.TheVariants.{Resources};

use crate::kept_element::KeptElement;
use crate::members::{Definition, Note};
use crate::state::State;
use rq_record::{Fault, QueueNo};
use std::alloc::Global;

impl State {
    /// The elements of a queue by id, with payloads of the same bytes; none if no queue has the
    /// number.
    pub fn copied_elements_of(
        &self,
        alloc: Global,
        queue: QueueNo,
    ) -> Result<Vec<KeptElement>, Fault>
        ensures elements { IfOk result (λ v. v.items ≡ elements_at queue.0 self.now.elements) }
        ensures refused { IfErr result (λ e. e ≡ Resources) }
    {
        let copies = copied_at(alloc, self.elements(), self.elements_of(queue))?;
        Ok(copies)
    }

    /// The notes of a queue by place; none if no queue has the number.
    pub fn copied_notes_of(&self, alloc: Global, queue: QueueNo) -> Result<Vec<Note>, Fault>
        ensures notes { IfOk result (λ v. v.items ≡ notes_at queue.0 self.now.notes) }
        ensures refused { IfErr result (λ e. e ≡ Resources) }
    {
        let copies = copied_at(alloc, self.notes(), self.notes_of(queue))?;
        Ok(copies)
    }
}

/// The same definitions again. `Resources` if memory runs out.
pub fn copied_definitions(
    alloc: Global,
    definitions: &[Definition],
) -> Result<Vec<Definition>, Fault>
    ensures copied { IfOk result (λ v. v.items ≡ definitions.now) }
    ensures refused { IfErr result (λ e. e ≡ Resources) }
{
    let mut copies = Vec::with_capacity(alloc, definitions.len())?;
    for definition in definitions {
        copies.push(definition.copied())?;
    }
    Ok(copies)
}

/// What can be had again.
trait Again: Drop {
    /// The same again.
    fn again(&self) -> Result<Self, Fault>
        ensures same { IfOk result (λ x. x ≡ self.now) }
        ensures refused { IfErr result (λ e. e ≡ Resources) };
}

impl Again for KeptElement {
    fn again(&self) -> Result<KeptElement, Fault> {
        self.copied()
    }
}

impl Again for Note {
    fn again(&self) -> Result<Note, Fault> {
        Ok(self.copied())
    }
}

fn member_at<M>(members: &[M], index: usize) -> &M
    requires { index < length members.now }
    ensures { (x : M) → result.now ≡ slice_index_or members.now index x }
{
    &members[index]
}

// Copies of the members at these indices.
fn copied_at<M: Again>(alloc: Global, members: &[M], indices: &[usize]) -> Result<Vec<M>, Fault>
    requires { AllByRecursion (λ index. index < length members.now) indices.now }
    ensures copied { IfOk result (λ v. (x : M) →
        v.items ≡ map (λ index. slice_index_or members.now index x) indices.now) }
    ensures refused { IfErr result (λ e. e ≡ Resources) }
{
    let mut copies = Vec::with_capacity(alloc, indices.len())?;
    for index in indices {
        let member = member_at(members, *index);
        copies.push(member.again()?)?;
    }
    Ok(copies)
}
