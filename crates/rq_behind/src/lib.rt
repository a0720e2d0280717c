//! What stands behind the front of a log: the frames there that are right in themselves. A frame is
//! right in itself if its digest is that of the 32 bytes before it, its length and its body, whatever
//! stands before those.
#![tactic(auto)]

mod byte_search;
mod changes;
mod efforts;
mod forms;
mod mended_files;
mod mended_logs;
mod mending;
mod places;
mod runs;
mod scan;
mod search;
mod tries;
mod witness;

pub use changes::Change;
pub use efforts::Untried;
pub use mended_logs::Mended;
pub use scan::Scan;
pub use search::Found;
