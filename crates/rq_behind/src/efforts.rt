//! How much may be tried in vain.

/// What was not tried where the mending of a log ends.
#[derive(Clone, Copy, Debug, PartialEq, Eq)]
pub enum Untried {
    /// The bytes of a body, or all but their bits: it is too long.
    Long,
    /// What was left of all tries, which may be so many.
    Spent,
}

// How many blocks of the hash function all tries of a log may take: about half a minute on four
// processors.
const BLOCKS: usize = 536_870_912;

// How many times the bytes of a log may be looked at in vain for the next right frame, and how many
// bytes more, which counts if the log has few.
const TIMES: usize = 2;

const MORE: usize = 1_048_576;

// How many of them the lengths may take that lead to right records, one after the other.
const LENGTHS: usize = 4_194_304;

// For so many frames of a grain, a thread takes one block more of a body.
const GRAIN: usize = 256;

/// What may still be tried.
#[derive(Clone, Copy, Debug)]
pub(crate) struct Effort {
    /// In blocks of the hash function.
    blocks: usize,
    /// In blocks, for lengths that lead to right records.
    pub(crate) lengths: usize,
    /// In bytes that are looked at for the next right frame.
    pub(crate) search: usize,
    /// How many blocks of a body a thread takes, at least.
    pub(crate) least: usize,
    /// What was left out at the last place.
    pub(crate) untried: Option<Untried>,
}

impl Effort {
    /// What may be tried for a log of so many bytes. If a grain has no end, no thread is started.
    pub(crate) fn for_log(len: usize, grain: u32) -> Effort {
        Effort {
            blocks: BLOCKS,
            lengths: LENGTHS,
            search: len.saturating_mul(TIMES).saturating_add(MORE),
            least: grain as usize / GRAIN + 1,
            untried: None,
        }
    }

    /// Takes the cost of a try, in blocks; answers whether there is enough for it.
    pub(crate) fn take(&mut self, cost: usize) -> bool {
        if self.blocks < cost {
            self.untried = Some(Untried::Spent);
            return false;
        }
        self.blocks -= cost;
        true
    }

    /// Takes the cost of a length that leads to a right record, in blocks; answers whether there is enough
    /// for it. If not, there is none any more.
    pub(crate) fn take_length(&mut self, cost: usize) -> bool {
        if self.lengths <= cost {
            self.lengths = 0;
            self.untried = Some(Untried::Spent);
            return false;
        }
        self.lengths -= cost;
        true
    }
}
