//! The version of a log.

/// The version of a log: its header names it, and it holds for the whole log.
#[derive(Clone, Copy, PartialEq, Eq, Debug)]
pub enum Version {
    /// An error queue has no error queue itself, and no record kills an element.
    One,
    /// An error queue may have an error queue itself, and a KILL removes an element that is free.
    Two,
}
