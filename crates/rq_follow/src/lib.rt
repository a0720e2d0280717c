//! A standby: a machine that goes along with a log as its bytes come, and what is made of it where they
//! end.
#![tactic(auto)]

mod beginning;
mod follower;
mod pass;

pub use follower::Follower;
pub use pass::Standing;
