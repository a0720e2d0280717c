//! A log in a file.
#![tactic(auto)]

mod held;
mod log_file;
mod next_files;

pub use held::{HeldLog, Hold, NotHeld};
pub use log_file::LogFile;
pub use next_files::NextFiles;
