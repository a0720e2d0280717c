//! Each layer on its own, by known values.

mod analysis;
mod by_hand;
mod bytes;
mod carries;
mod chains;
mod countdowns;
mod courses;
mod ends;
mod framers;
mod machine;
mod numbers;
mod plain;
mod rooms;
