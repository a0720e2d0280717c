//! The error queue of each queue, and its sources.

ghost use Rattle.std.specs.Prelude.{◌≡◌, ◌<◌, ◌≤◌, ◌+◌, ◌==◌, ◌∷◌, ◌++◌, [], ℕ, length, map};
ghost use Rattle.std.specs.Prelude.{if◌then◌else◌, IfOk, IfErr, OnOk};
ghost use Rattle.rq_state.specs.Orders.{listed};
ghost use Rattle.rq_record.specs.declared.fault.Fault.TheVariants.{Resources};
ghost use Rattle.rq_exchange.specs.Links.{naming, AreRanks};

use rq_record::Fault;
use rq_state::{Definition, empty_lists};
use std::alloc::Global;

// The error queue of a queue.
fn error_of(definition: &Definition) -> u32
    ensures { result ≡ definition.now.error }
{
    definition.error.0
}

/// The error queue of each queue.
pub(crate) fn errors_of(alloc: Global, definitions: &[Definition]) -> Result<Vec<u32>, Fault>
    ensures errors { IfOk result (λ v. v.items ≡ map (λ d. d.error) definitions.now) }
    ensures refused { IfErr result (λ e. e ≡ Resources) }
{
    let mut errors = Vec::with_capacity(alloc, definitions.len())?;
    for definition in definitions {
        errors.push(error_of(definition))?;
    }
    Ok(errors)
}

// Adds a queue to the list of a number, if there is one. Answers how many were there before it.
#[tactic(auto, using(rq_state::proofs::Listings::listed_push))]
fn list(lists: &mut Vec<Vec<u32>>, number: u32, queue: u32) -> Result<u32, Fault>
    requires few { number < length lists.old.items → length (listed lists.old.items number) ≤ 4096 }
    ensures len { length lists.new.items ≡ length lists.old.items }
    ensures listed { OnOk result
        ((x : ℕ) → x < length lists.old.items → listed lists.new.items x ≡ (if number == x
        then listed lists.old.items x ++ queue ∷ [] else listed lists.old.items x)) }
    ensures rank { IfOk result
        (λ r. number < length lists.old.items → r ≡ length (listed lists.old.items number)) }
    ensures refused { IfErr result (λ e. e ≡ Resources) }
{
    let index = number as usize;
    if index >= lists.len() {
        return Ok(0);
    }
    let rank = lists[index].len();
    lists[index].push(queue)?;
    Ok(rank as u32)
}

/// The sources of each of the first `count` queues, which are those whose error queue it is, and
/// the rank of each queue among the sources of its error queue.
pub(crate) fn sources_of(
    alloc: Global,
    count: usize,
    errors: &[u32],
) -> Result<(Vec<Vec<u32>>, Vec<u32>), Fault>
    requires { length errors.now ≤ 4096 }
    ensures len { IfOk result (λ r. length r.0.items ≡ count) }
    ensures listed { IfOk result
        (λ r. (x : ℕ) → x < count → listed r.0.items x ≡ naming errors.now x) }
    ensures ranks { IfOk result (λ r. AreRanks errors.now count (length errors.now) r.1.items) }
    ensures refused { IfErr result (λ e. e ≡ Resources) }
{
    let mut lists = empty_lists(alloc, count)?;
    let mut ranks = Vec::with_capacity(alloc, errors.len())?;
    for queue in 0..errors.len() {
        let rank = list(&mut lists, errors[queue], queue as u32)?;
        ranks.push(rank)?;
    }
    Ok((lists, ranks))
}
