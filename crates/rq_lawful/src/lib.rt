//! What lawfulness asks of a state, and which rule a record breaks there.
#![tactic(auto)]

mod breaches;
mod knows;
mod rules;

pub use breaches::broken;
pub use knows::Knows;
pub use rules::Rule;
