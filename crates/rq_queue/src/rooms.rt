//! The room that members leave, each spelled in its shortest form.

ghost use Rattle.std.specs.Prelude.{◌*◌, ◌-◌, ◌≤◌, length, SomeIff};
ghost use Rattle.rq_queue.specs.Kept.{items_of};

use rq_state::KeptElement;
use std::collections::BTreeMap;

/// The room that members leave of so many bytes, each spelled in this many. None if they do not
/// fit.
pub(crate) fn room_after(room: u64, each: u32, count: usize) -> Option<u64>
    ensures { SomeIff result (each * count ≤ room) (room - each * count) }
{
    let bytes = (each as u64).checked_mul(count as u64)?;
    room.checked_sub(bytes)
}

/// The room that the elements of all units leave. None if they do not fit. It looks at no list
/// behind the first that does not fit: there may be many more.
pub(crate) fn room_after_marked(room: u64, marked: &BTreeMap<u64, Vec<KeptElement>>) -> Option<u64>
    ensures { SomeIff result (28 * length (items_of marked.now.entries) ≤ room)
        (room - 28 * length (items_of marked.now.entries)) }
{
    let mut left = room;
    for (_, list) in marked {
        left = room_after(left, KeptElement::SHORTEST, list.len())?;
    }
    Some(left)
}
