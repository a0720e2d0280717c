//! SHA-256 (FIPS 180-4) of several messages side by side, one in each lane of a vector, and whether
//! each is the digest that follows its message. If `Lanes::finish` returns true, the digest of each
//! message that was taken is right, by the standard's function as `sha2` defines it. If it returns
//! false, nothing is known. A caller that then checks again gets the same answer for any number of
//! lanes.
#![tactic(auto)]

mod digest;
mod lane_blocks;
mod lanes;
mod tail;
mod words;

pub use lanes::{Lanes, Message};
