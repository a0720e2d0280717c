//! What the programs share: files that are whole or not there, and the version that they tell.
#![tactic(auto)]

mod late;
mod leftovers;
mod named;
mod names;
mod patient;
mod predecessors;
mod standard;
mod successions;
mod version;
mod whole_files;

pub use late::Late;
pub use named::{NamedFile, folder_within};
pub use names::Names;
pub use patient::Patient;
pub use predecessors::Replaces;
pub use standard::hold_standard;
pub use successions::{NotNamed, Succession};
pub use version::VERSION;
pub use whole_files::{LIMIT, read_limited};
