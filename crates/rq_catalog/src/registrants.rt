//! Who is registered with which queue.

ghost use Rattle.std.specs.Prelude.{◌≡◌, ◌<◌, ℕ, List, length, cond, true, false, OnOk, IfErr};
ghost use Rattle.rq_record.specs.declared.fault.Fault.TheVariants.{Resources};
ghost use Rattle.rq_catalog.specs.Grounds.{key_eq, is_registered_in};

use rq_record::{Fault, KeptName, Name};
use std::alloc::Global;
use std::collections::BTreeSet;

/// The names that are registered with each queue, in order, so that a binary search finds one.
/// Whoever writes a log chooses the names, and could choose names that a hash table puts into one
/// place. Each takes 16 bytes there; a `Name` would take 65.
#[derive(Drop)]
pub(crate) struct RegisteredNames {
    alloc: Global,
    by_queue: Vec<BTreeSet<KeptName>>,
}

impl RegisteredNames {
    /// Nobody.
    pub(crate) fn new(alloc: Global) -> RegisteredNames
        ensures { (k : ℕ × List ℕ) → is_registered_in result k ≡ false }
    {
        RegisteredNames {
            alloc,
            by_queue: Vec::new(alloc),
        }
    }

    /// Whether the name is registered with the queue.
    pub(crate) fn has(&self, queue: u32, name: &KeptName) -> bool
        ensures { result ≡ is_registered_in self.now (queue, name.now) }
    {
        match self.by_queue.get(queue as usize) {
            Some(names) => names.contains(name),
            None => false,
        }
    }

    // Makes a set for each queue up to this one.
    fn reach(&mut self, queue: u32) -> Result<(), Fault>
        ensures reached { OnOk result (queue < length self.new.by_queue.items) }
        ensures same { (k : ℕ × List ℕ) →
            is_registered_in self.new k ≡ is_registered_in self.old k }
        ensures refused { IfErr result (λ e. e ≡ Resources) }
    {
        while self.by_queue.len() <= queue as usize {
            self.by_queue.push(BTreeSet::new(self.alloc))?;
        }
        Ok(())
    }

    /// Registers the name with the queue.
    pub(crate) fn register(&mut self, queue: u32, name: &Name) -> Result<(), Fault>
        ensures registered { OnOk result ((k : ℕ × List ℕ) → is_registered_in self.new k
            ≡ cond (key_eq (queue, name.now) k) true (is_registered_in self.old k)) }
        ensures refused { IfErr result (λ e. e ≡ Resources) }
        ensures kept { IfErr result (λ e. (k : ℕ × List ℕ) →
            is_registered_in self.new k ≡ is_registered_in self.old k) }
    {
        self.reach(queue)?;
        let name = KeptName::of(self.alloc, name)?;
        self.by_queue[queue as usize].insert(name)?;
        Ok(())
    }

    /// Ends the registration of the name with the queue, if there is one.
    pub(crate) fn deregister(&mut self, queue: u32, name: &KeptName)
        ensures { (k : ℕ × List ℕ) → is_registered_in self.new k
            ≡ cond (key_eq (queue, name.now) k) false (is_registered_in self.old k) }
    {
        if (queue as usize) < self.by_queue.len() {
            self.by_queue[queue as usize].remove(name);
        }
    }
}
