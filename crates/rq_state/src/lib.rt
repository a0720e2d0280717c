//! The state of the queue manager: what it keeps, how it is looked into, how it is made of its
//! queues' parts, and its one spelling in bytes.
#![tactic(auto)]

mod checks;
mod compared;
mod comparisons;
mod copies;
mod fields;
mod heard;
mod kept_element;
mod kept_registrant;
mod laws;
mod lent_state;
mod looks;
mod marks;
mod members;
mod orders;
mod readers;
mod state;
mod tables;
mod wholeness;
mod writers;

pub use compared::{Compare, Compared, compare_all};
pub use copies::copied_definitions;
pub use fields::{Fields, FieldsOf, KeptFields};
pub use kept_element::{Element, ElementOf, KeptElement, MadeOf, PayloadBytes, told_elements};
pub use kept_registrant::{KeptRegistrant, told_registrants};
pub use laws::{any_order_makes_the_state, parts_make_the_state};
pub use lent_state::LentState;
pub use members::{Definition, Last, Mark, Note, OpKind, Registrant};
pub use orders::{Ordinal, order};
pub use readers::{read, read_in, read_up_to};
pub use state::State;
pub use tables::empty_lists;
pub use writers::{
    Spell, put_registrant, registrant_size, spell, spell_carried, spell_lent, spelled_len,
};
