//! The numbers of queues, by their names.

use crate::listings::queue_at;
use crate::refusals::Undone;
use rq_record::{Name, QueueNo};
use rq_state::Definition;
use std::alloc::Global;
use std::collections::BTreeMap;

/// The numbers of the queues that were looked at so far: all up to one. A queue keeps its name and its number as
/// long as it is served, so none is looked at twice.
#[derive(Drop)]
pub(crate) struct QueueNames {
    numbers: BTreeMap<Name, QueueNo>,
}

impl QueueNames {
    /// None was looked at yet.
    pub(crate) fn none(alloc: Global) -> QueueNames {
        QueueNames {
            numbers: BTreeMap::new(alloc),
        }
    }

    // Keeps the number of a queue.
    fn keep(&mut self, name: Name, number: QueueNo) -> Result<(), Undone> {
        match self.numbers.insert(name, number) {
            Ok(_) => Ok(()),
            Err(_) => Err(Undone::Spent),
        }
    }

    // Looks at the queues that were defined since.
    fn look_at(&mut self, definitions: &[Definition]) -> Result<(), Undone> {
        for place in self.numbers.len()..definitions.len() {
            let number = queue_at(place)?;
            let definition = &definitions[place];
            self.keep(definition.name, number)?;
        }
        Ok(())
    }

    /// The number of the queue of this name among those that are defined, if there is one.
    pub(crate) fn look_up(
        &mut self,
        definitions: &[Definition],
        name: &Name,
    ) -> Result<Option<QueueNo>, Undone> {
        self.look_at(definitions)?;
        Ok(self.numbers.get(name).copied())
    }
}
