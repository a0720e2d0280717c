//! Members of all queues, lent.

ghost use Rattle.std.specs.Prelude.{◌≡◌, IfOk, IfErr};
ghost use Rattle.std.specs.List.{flat_map};
ghost use Rattle.std.specs.List.Sorted.{IsPermutation};
ghost use Rattle.rq_model.specs.Queues as model;
ghost use Rattle.rq_model.specs.States as states;
ghost use Rattle.rq_record.specs.declared.fault.Fault.TheVariants.{Resources};
ghost use Rattle.rq_standing.specs.Stands.{HoldsState};

use crate::queues::Queues;
use rq_queue::{LentElement, LentNote, LentRegistrant, Part};
use rq_record::Fault;
use rq_state::order;
use std::alloc::Global;

/// Lends the registrants, those of one queue after the other.
pub(crate) fn lent_registrants<'a>(
    alloc: Global,
    parts: &'a [Part],
) -> Result<Vec<LentRegistrant<'a>>, Fault>
    ensures lent { IfOk result
        (λ v. v.items ≡ flat_map (λ (p : model.Part). p.registrants) parts.now) }
    ensures refused { IfErr result (λ e. e ≡ Resources) }
{
    let mut lent = Vec::new(alloc);
    for part in parts {
        part.lend_registrants(&mut lent)?;
    }
    Ok(lent)
}

// Lends the elements, in some order.
fn lent_elements<'a>(alloc: Global, parts: &'a [Part]) -> Result<Vec<LentElement<'a>>, Fault>
    ensures lent { IfOk result (λ v.
        IsPermutation (flat_map (λ (p : model.Part). p.elements) parts.now) v.items) }
    ensures refused { IfErr result (λ e. e ≡ Resources) }
{
    let mut lent = Vec::new(alloc);
    for part in parts {
        part.lend_elements(&mut lent)?;
    }
    Ok(lent)
}

// Lends the notes, those of each part by place.
fn lent_notes<'a>(alloc: Global, parts: &'a [Part]) -> Result<Vec<LentNote<'a>>, Fault>
    ensures lent { IfOk result
        (λ v. v.items ≡ flat_map (λ (p : model.Part). p.notes) parts.now) }
    ensures refused { IfErr result (λ e. e ≡ Resources) }
{
    let mut lent = Vec::new(alloc);
    for part in parts {
        part.lend_notes(&mut lent)?;
    }
    Ok(lent)
}

impl Queues {
    /// Lends the elements of all queues, by id.
    pub(crate) fn elements_in_order(&self, alloc: Global) -> Result<Vec<LentElement<'_>>, Fault>
        requires { (t : states.State) × HoldsState self.now t }
        ensures lent { IfOk result (λ v. (t : states.State) → HoldsState self.now t
            → v.items ≡ t.elements) }
        ensures refused { IfErr result (λ e. e ≡ Resources) }
    {
        rq_state::parts_make_the_state();
        rq_state::any_order_makes_the_state();
        let mut elements = lent_elements(alloc, &self.parts)?;
        order(&mut elements);
        Ok(elements)
    }

    /// Lends the notes of all queues, by place.
    pub(crate) fn notes_in_order(&self, alloc: Global) -> Result<Vec<LentNote<'_>>, Fault>
        requires { (t : states.State) × HoldsState self.now t }
        ensures lent { IfOk result (λ v. (t : states.State) → HoldsState self.now t
            → v.items ≡ t.notes) }
        ensures refused { IfErr result (λ e. e ≡ Resources) }
    {
        rq_state::parts_make_the_state();
        let mut notes = lent_notes(alloc, &self.parts)?;
        order(&mut notes);
        Ok(notes)
    }
}
