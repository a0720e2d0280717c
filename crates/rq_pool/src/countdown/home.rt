//! The slots of a countdown that was closed.

ghost use Rattle.std.specs.Prelude.{◌≡◌, ◌<◌, ◌≤◌, [], ◌++◌, length, vec_capacity, option_to_list};
ghost use Rattle.std.specs.Slots.{slots_items, slots_len, IsFull};
ghost use Rattle.rq_pool.specs.Countdowns.Phases.{somes};

use atomic_table::Closed;
use std::alloc::Global;

fn keep<T>(home: &mut Vec<T>, found: Option<T>)
    requires { length home.old.items < vec_capacity home.old }
    ensures { (home.new.items ≡ home.old.items ++ option_to_list found)
        × (vec_capacity home.new ≡ vec_capacity home.old) }
{
    if let Some(outbox) = found {
        home.push_reserved(outbox);
    }
}

/// Moves what is in the slots into `home`, in order.
pub(crate) fn empty<T: Drop>(mut closed: Closed<Option<T>, Global>, sources: u32, home: &mut Vec<T>)
    requires { (slots_len closed.slots ≡ sources) × IsFull closed.slots
        × (sources ≤ vec_capacity home.old) × (home.old.items ≡ []) }
    ensures { home.new.items ≡ somes (slots_items closed.slots) }
{
    for i in 0..sources as usize {
        keep(home, closed.take(i));
    }
    closed.free();
}

/// Drops what is in the slots.
pub(crate) fn discard<T: Drop>(mut closed: Closed<Option<T>, Global>, sources: u32)
    requires { (slots_len closed.slots ≡ sources) × IsFull closed.slots }
{
    for i in 0..sources as usize {
        drop(closed.take(i));
    }
    closed.free();
}
