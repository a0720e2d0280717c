//! Numbers and pieces of bytes: readers that are put together as expressions, each with one law,
//! and writers. Every number is big-endian.
#![tactic(auto)]

mod cursor;
mod writers;

pub use cursor::Cursor;
pub use writers::{put, put_u8, put_u16, put_u32, put_u64};
