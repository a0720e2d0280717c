//! A queue's free elements in the order of the queue.

ghost use Rattle.std.specs.Prelude.{◌≡◌, ◌++◌, ◌∷◌, [], IfOk, OnOk, map, filter, IsPermutation};
ghost use Rattle.std.specs.List.Sorted.{IsSortedBy};
ghost use Rattle.rq_model.specs.Machine.{is_free_at};
ghost use Rattle.rq_model.specs.States as model;
ghost use Rattle.rq_model.specs.Reports.{IsListing};
ghost use Rattle.rq_report.specs.Pieces.{is_ahead};

use rq_record::QueueNo;
use rq_state::{KeptElement, Mark, State};
use std::alloc::{AllocError, Global};
use std::cmp::Reverse;

// Adds an element if it is free.
fn list<'a>(found: &mut Vec<&'a KeptElement>, e: &'a KeptElement) -> Result<(), AllocError>
    ensures { OnOk result (map (λ e. e.now) found.new.items
        ≡ map (λ e. e.now) found.old.items ++ filter (λ e. model.is_free e.mark) (e.now ∷ [])) }
{
    match e.mark {
        Mark::Free => found.push(e)?,
        Mark::Fresh(_) | Mark::Held(_) => {}
    }
    Ok(())
}

// The queue's free elements, in the order of their numbers.
fn listed(alloc: Global, state: &State, queue: QueueNo) -> Result<Vec<&KeptElement>, AllocError>
    ensures { IfOk result
        (λ v. map (λ e. e.now) v.items ≡ filter (is_free_at queue.0) state.now.elements) }
{
    let indices = state.elements_of(queue);
    let mut found = Vec::new(alloc);
    found.reserve(indices.len())?;
    for at in indices {
        list(&mut found, state.element(*at))?;
    }
    Ok(found)
}

fn sort(found: &mut [&KeptElement])
    ensures permutation { IsPermutation found.old found.new }
    ensures sorted { IsSortedBy (λ x y. is_ahead x.now y.now) found.new }
{
    found.sort_unstable_by_key(|e| (Reverse(e.priority), e.id.0));
}

/// The queue's free elements, in the order in which they would be taken.
pub fn free_elements(
    alloc: Global,
    state: &State,
    queue: QueueNo,
) -> Result<Vec<&KeptElement>, AllocError>
    ensures { IfOk result (λ v. IsListing queue.0 state.now.elements (map (λ e. e.now) v.items)) }
{
    // Its contract says that the elements have numbers of their own.
    state.next();
    let mut found = listed(alloc, state, queue)?;
    sort(&mut found);
    Ok(found)
}
