//! The file of a new log, which takes nobody's place.

use crate::refusal::{Refusal, Stream, failed};
use rq_file::Replaces;
use std::fs::{self, File, Files};
use std::io::ErrorKind;

/// Refuses a name for a new log under which something stands.
pub(crate) fn expect_free<R: Files<File = File>>(rt: &R, new: &str) -> Result<(), Refusal> {
    if fs::symlink_metadata(rt, new).is_ok() {
        return Err(Refusal::There);
    }
    Ok(())
}

/// Makes the file of a new log, whole or not at all. What came under its name meanwhile stays.
pub(crate) fn put_new<R>(rt: &R, new: &str, bytes: &[u8]) -> Result<(), Refusal>
where
    R: Files<File = File> + AllocGlobal,
{
    match Replaces::Nothing.put_over(rt, new, &[bytes]) {
        Ok(()) => Ok(()),
        Err(error) if error.kind() == ErrorKind::AlreadyExists => Err(Refusal::There),
        Err(error) => Err(failed(Stream::New, error)),
    }
}
