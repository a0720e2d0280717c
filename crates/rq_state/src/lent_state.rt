//! A state whose lists are lent.

use crate::members::Definition;
use rq_record::UnitNo;

/// A state as it is spelled: its numbers, and its lists in their order, lent. `R`, `E` and `N` are
/// the types of registrants, elements and notes.
#[derive(Drop)]
pub struct LentState<'a, R, E, N> {
    /// The next record number.
    pub next: u64,
    /// The greatest unit that ever began; 0 before the first.
    pub greatest: u64,
    /// How many units were committed.
    pub committed: u64,
    /// How many units were aborted.
    pub aborted: u64,
    /// The queues, by number.
    pub definitions: &'a [Definition],
    /// The open units, rising.
    pub units: &'a [UnitNo],
    /// The registrants, by queue and name.
    pub registrants: &'a [R],
    /// The elements, by id.
    pub elements: &'a [E],
    /// The notes, by place.
    pub notes: &'a [N],
}
