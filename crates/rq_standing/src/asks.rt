//! What lawfulness asks, answered by the queues themselves.

ghost use Rattle.std.specs.Prelude.{◌≡◌, ◌<◌, length};
ghost use Rattle.std.specs.List.{list_any};
ghost use Rattle.std.specs.Str.{bytes_eq};
ghost use Rattle.rq_standing.specs.Parts.{part_at};
ghost use Rattle.rq_standing.specs.Stands.{HoldsState};

use crate::queues::Queues;
use rq_lawful::Knows;
use rq_queue::Part;
use rq_record::{KeptName, Name, QueueNo, UnitNo};
use rq_state::Definition;

// Whether one of the definitions has the name. There are at most 4,096, and only a DEFINE asks.
fn is_named(definitions: &[Definition], name: &Name) -> bool
    ensures { result ≡ list_any (λ d. bytes_eq d.name name.now) definitions.now }
{
    let mut left = definitions;
    while let Some((first, rest)) = left.split_first() {
        if first.name.bytes() == name.bytes() {
            return true;
        }
        left = rest;
    }
    false
}

// The part of a queue.
pub(crate) fn part_here(parts: &[Part], queue: usize) -> &Part
    requires { queue < length parts.now }
    ensures { result.now ≡ part_at parts.now queue }
{
    &parts[queue]
}

impl Knows for Queues {
    ghost knows = { HoldsState };

    fn defined(&self) -> usize {
        self.definitions.len()
    }

    fn error_of(&self, queue: QueueNo) -> QueueNo {
        match self.definitions.get(queue.0 as usize) {
            Some(definition) => definition.error,
            None => QueueNo::NONE,
        }
    }

    fn is_taken(&self, name: &Name) -> bool {
        is_named(&self.definitions, name)
    }

    fn is_registered(&self, queue: QueueNo, name: &KeptName) -> bool {
        if queue.0 as usize >= self.parts.len() {
            return false;
        }
        part_here(&self.parts, queue.0 as usize).has_registered(name)
    }

    fn is_open(&self, unit: UnitNo) -> bool {
        self.units.has_begun(unit)
    }

    fn greatest(&self) -> u64 {
        self.greatest
    }
}
