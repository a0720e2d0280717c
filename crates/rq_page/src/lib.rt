//! A log as one page that a browser shows: what `rq_found` finds in a log, drawn.
#![tactic(auto)]

mod curves;
mod histories;
mod holdings;
mod lives;
mod markup;
mod pages;
mod payloads;
mod pictures;
mod records;
mod shown;
mod steps;
mod style;
mod summaries;
mod surveys;
mod tables;
mod units;

pub use markup::BEGINNING;
pub use pages::{Asked, Order, page};
