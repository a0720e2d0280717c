//! Rows turned into columns.

ghost use Rattle.std.specs.Prelude.{◌≡◌, ◌<◌, ◌++◌, ◌∷◌, [], ℕ, length, All, IfOk, IfErr};
ghost use Rattle.std.specs.Prelude.{OnOk, slice_index_or};
ghost use Rattle.rq_record.specs.declared.fault.Fault.TheVariants.{Resources};
ghost use Rattle.rq_exchange.specs.Pairs.{AreColumns};

use rq_record::Fault;
use rq_state::empty_lists;
use std::alloc::Global;

// Puts each thing of a row at the end of its column.
fn spread<T: Drop>(columns: &mut Vec<Vec<T>>, row: Vec<T>) -> Result<(), Fault>
    requires { length row.items ≡ length columns.old.items }
    ensures len { length columns.new.items ≡ length columns.old.items }
    ensures spread { OnOk result ((k : ℕ) (d e : _) (x : T) → k < length columns.old.items
        → (slice_index_or columns.new.items k d).items
        ≡ (slice_index_or columns.old.items k e).items ++ slice_index_or row.items k x ∷ []) }
    ensures refused { IfErr result (λ e. e ≡ Resources) }
{
    let mut row = row;
    while let Some(one) = row.pop() {
        let index = row.len();
        columns[index].push(one)?;
    }
    Ok(())
}

/// The columns of rows that are equally long.
#[tactic(auto, using(rq_state::proofs::Listings::listed_at))]
pub(crate) fn columns<T: Drop>(
    alloc: Global,
    rows: Vec<Vec<T>>,
    count: usize,
) -> Result<Vec<Vec<T>>, Fault>
    requires { All (λ r. length r.items ≡ count) rows.items }
    ensures columns { IfOk result (λ cs. AreColumns rows.items count cs.items) }
    ensures refused { IfErr result (λ e. e ≡ Resources) }
{
    let mut columns = empty_lists(alloc, count)?;
    for row in rows {
        spread(&mut columns, row)?;
    }
    Ok(columns)
}
