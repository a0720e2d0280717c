//! A host that runs out of memory.

use std::alloc::{AllocError, Global};

// How many bytes a block of the store has. It is too small for the host to take it from elsewhere.
const BLOCK: usize = 100_000;

// How many of them.
const BLOCKS: usize = 16;

// The host keeps freed blocks of this many sizes apart, for the next ones of their size: up to
// 1,032 bytes, in steps of 16.
const SIZES: usize = 64;

// It keeps this many of each size.
const KEPT: usize = 7;

// There is room for this many blocks that a host gives.
const ROOM: usize = 50_000;

/// The host's memory, all of it taken except a store, of which a round leaves a part.
#[derive(Drop)]
pub struct Scarce {
    plugs: Vec<Vec<u8>>,
    taken: Vec<Vec<u8>>,
    rest: Vec<Vec<u8>>,
    last: Vec<Vec<u8>>,
    spare: Vec<Vec<u8>>,
    alloc: Global,
}

// A block of a size that is not kept apart.
const PIN: usize = 1_088;

impl Scarce {
    /// Takes all memory but the store. What is made before is not in the store.
    pub fn begin(alloc: Global) -> Result<Scarce, AllocError> {
        let mut scarce = Scarce {
            alloc,
            plugs: Vec::new(alloc),
            taken: Vec::new(alloc),
            rest: Vec::new(alloc),
            last: Vec::new(alloc),
            spare: Vec::new(alloc),
        };
        scarce.make_room()?;
        scarce.take_but_store()?;
        Ok(scarce)
    }

    // Makes room for all that is taken, before anything is. While that is done in a method that owns
    // nothing, a refusal has nothing to drop, which makes it cheap to prove.
    fn make_room(&mut self) -> Result<(), AllocError> {
        self.plugs.reserve_exact(SIZES * KEPT)?;
        self.taken.reserve_exact(ROOM)?;
        self.rest.reserve_exact(ROOM)?;
        self.last.reserve_exact(ROOM)?;
        self.spare.reserve_exact(1)
    }

    fn take_but_store(&mut self) -> Result<(), AllocError> {
        take_small(self.alloc, &mut self.plugs);
        let mut store = Vec::with_capacity(self.alloc, BLOCKS)?;
        take_size(self.alloc, &mut store, BLOCK);
        take_all(self.alloc, &mut self.taken);
        drop(store);
        Ok(())
    }

    /// Takes all memory.
    pub fn whole(alloc: Global) -> Result<Scarce, AllocError> {
        let mut scarce = Scarce::begin(alloc)?;
        scarce.leave(0)?;
        Ok(scarce)
    }

    /// Leaves this many bytes of the store, side by side, and free to be cut into blocks of any
    /// sizes.
    pub fn leave(&mut self, bytes: usize) -> Result<(), AllocError> {
        let all = bytes.saturating_add(PIN);
        self.spare.push(Vec::with_capacity(self.alloc, all)?)?;
        take_all(self.alloc, &mut self.rest);
        self.spare.clear();
        self.spare.push(Vec::with_capacity(self.alloc, PIN)?)?;
        Ok(())
    }

    /// Gives the store back. Blocks that are kept apart would cut it into pieces. So all are taken,
    /// others are freed to be kept in their place, and those are taken again once the store is
    /// free.
    pub fn relieve(&mut self) {
        take_all(self.alloc, &mut self.last);
        self.plugs.clear();
        self.spare.clear();
        self.rest.clear();
        self.last.clear();
        take_small(self.alloc, &mut self.plugs);
    }
}

/// Room for all blocks that a host gives.
pub fn room(alloc: Global) -> Result<Vec<Vec<u8>>, AllocError> {
    Vec::with_capacity(alloc, ROOM)
}

/// Takes what memory there is, in ever smaller blocks: first of addresses, then of the heap of this
/// thread.
pub fn take_all(alloc: Global, held: &mut Vec<Vec<u8>>) {
    for step in 0..34usize {
        take_size(alloc, held, 1usize << (44 - step));
    }
    for step in 0..SIZES {
        take_size(alloc, held, 1032 - 16 * step);
    }
}

// Takes blocks of a size until one is refused, or there is no room for more.
fn take_size(alloc: Global, held: &mut Vec<Vec<u8>>, size: usize) {
    for _ in held.len()..held.capacity() {
        match Vec::with_capacity(alloc, size) {
            Ok(block) => {
                let _ = held.push(block);
            }
            Err(_) => return,
        }
    }
}

// Takes as many blocks of each small size as the host keeps apart.
fn take_small(alloc: Global, held: &mut Vec<Vec<u8>>) {
    for place in 0..SIZES * KEPT {
        if let Ok(block) = Vec::with_capacity(alloc, 24 + 16 * (place / KEPT)) {
            let _ = held.push(block);
        }
    }
}
