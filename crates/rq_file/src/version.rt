//! The version of the programs.

/// The version that `rqlook --version`, `rqlog --version` and a page tell, and that stands in the
/// manuals: two numbers with a full stop between them, and in front of them a v in the tag of its
/// commit. The first number rises if something that worked before no longer does, the second with
/// what is new.
///
/// It is all that a program tells of where it comes from. A build is reproducible: the same sources
/// give the same bytes, whatever commit has them, so no commit can be told. `dist/receipt` says of
/// which sources a program is made.
pub const VERSION: &str = "1.0";
