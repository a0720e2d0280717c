//! A log in memory.

ghost use Rattle.std.specs.Prelude.{◌≡◌, ◌≤◌, [], false, length, Some, true};

use crate::device::Device;
use crate::successor::{Successor, Unmade};
use rq_record::Fault;
use std::alloc::Global;

/// A log in memory, with a count of the bytes that were synced. A write fails where memory is
/// refused.
#[derive(Drop)]
pub struct Memory {
    bytes: Vec<u8>,
    synced: usize,
    doubted: bool,
    failed: bool,
    ghost within: { synced ≤ length bytes.items },
}

impl Memory {
    /// No bytes.
    pub fn new(alloc: Global) -> Memory
        ensures bytes { result.bytes.items ≡ [] }
        ensures synced { result.synced ≡ 0 }
        ensures sure { result.doubted ≡ false }
        ensures works { result.failed ≡ false }
    {
        Memory {
            bytes: Vec::new(alloc),
            synced: 0,
            doubted: false,
            failed: false,
        }
    }

    /// What a crash left, of which so many bytes were synced: at most as many as there are. The
    /// others are doubted, whatever a sync answers.
    pub fn left_by_crash(bytes: Vec<u8>, synced: usize) -> Memory
        ensures bytes { result.bytes.items ≡ bytes.items }
        ensures synced { synced ≤ length bytes.items → result.synced ≡ synced }
        ensures doubted { result.doubted ≡ true }
        ensures works { result.failed ≡ false }
    {
        let synced = synced.min(bytes.len());
        Memory {
            bytes,
            synced,
            doubted: true,
            failed: false,
        }
    }

    /// All bytes that were written.
    pub fn bytes(&self) -> &[u8]
        ensures { result.now ≡ self.now.bytes.items }
    {
        &self.bytes
    }

    /// How many of them were synced.
    pub fn synced(&self) -> usize
        ensures { result ≡ self.now.synced }
    {
        self.synced
    }
}

impl Device for Memory {
    ghost written = { λ it. Some it.bytes.items };

    ghost synced = { λ it. it.synced };

    ghost doubted = { λ it. it.doubted };

    ghost failed = { λ it. it.failed };

    fn write(&mut self, piece: &[u8]) -> Result<usize, Fault> {
        match self.bytes.extend_from_slice(piece) {
            Ok(()) => Ok(piece.len()),
            Err(_) => {
                self.failed = true;
                Err(Fault::WriteFailed)
            }
        }
    }

    fn sync(&mut self) -> Result<(), Fault> {
        if !self.doubted {
            self.synced = self.bytes.len();
        }
        Ok(())
    }

    fn rewrite(&mut self, from: usize) -> Result<(), Fault> {
        if from <= self.synced {
            self.synced = self.bytes.len();
            self.doubted = false;
        }
        Ok(())
    }

    fn cut(&mut self, len: usize) -> Result<(), Fault> {
        self.synced = self.synced.min(len);
        self.bytes.truncate(len);
        Ok(())
    }
}

/// Makes logs in memory that go on from others.
#[derive(Drop)]
pub struct NewMemory {
    alloc: Global,
}

impl NewMemory {
    /// Where memory is asked for.
    pub fn new(alloc: Global) -> NewMemory {
        NewMemory { alloc }
    }
}

impl Successor<Memory> for NewMemory {
    fn put(&mut self, _records: u64, first: &[u8]) -> Result<Memory, Unmade> {
        let mut bytes = Vec::new(self.alloc);
        match bytes.extend_from_slice(first) {
            Ok(()) => Ok(Memory {
                bytes,
                synced: first.len(),
                doubted: false,
                failed: false,
            }),
            Err(_) => Err(Unmade::Kept),
        }
    }
}
