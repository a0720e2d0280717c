//! The file in which a log goes on that is held.

ghost use Rattle.std.specs.Prelude.{◌≡◌, IfOk, None};

use crate::held::{HeldLog, Hold, NotHeld, lock};
use crate::log_file::LogFile;
use rq_file::{NamedFile, NotNamed, Succession};
use std::alloc::{AllocError, Global};
use std::fs::{File, Files, Metadata, OpenFile};
use std::io::{self, ErrorKind};

/// Makes the files in which a log goes on, one after the other: each takes the log's name, and the file
/// before it keeps that with a number behind it.
#[derive(Drop)]
pub struct NextFiles {
    name: String,
    // The file that has the name.
    old: Metadata,
}

// Why the new file is not held: nobody else knows it.
fn why(not: NotHeld) -> io::Error {
    match not {
        NotHeld::Failed(error) => error,
        NotHeld::Locked | NotHeld::Changed => io::Error::new(
            ErrorKind::WouldBlock,
            "another program holds the new log",
        ),
    }
}

impl NextFiles {
    /// Those behind the file of a log that is held. Refused with the system's error, and with
    /// `OutOfMemory`.
    pub fn of_held(alloc: Global, held: &HeldLog) -> io::Result<NextFiles> {
        Ok(NextFiles {
            name: String::from_str(alloc, held.named_file().real_name())?,
            old: OpenFile::metadata(held)?,
        })
    }

    /// Takes from a log of so many records the name that it was to keep: a process gave it that, and died
    /// before a new file had the log's.
    pub fn take_name_back<R>(&self, rt: &R, records: u64) -> Result<(), AllocError>
    where
        R: Files<File = File> + AllocGlobal,
    {
        Succession::of(rt.alloc(), &self.name, records)?.take_back(rt, &self.old);
        Ok(())
    }

    // Locks the new file, and gives it the log's name.
    fn settle<R>(&self, rt: &R, names: &Succession, new: &File) -> Result<Metadata, NotNamed>
    where
        R: Files<File = File>,
    {
        let metadata = match lock(new, Hold::ToWrite) {
            Ok(()) => OpenFile::metadata(new),
            Err(not) => Err(why(not)),
        };
        match metadata {
            Ok(metadata) => {
                names.settle(rt, &self.old, new)?;
                Ok(metadata)
            }
            Err(error) => {
                names.discard(rt, new);
                Err(NotNamed::Kept(error))
            }
        }
    }

    /// Goes on in a new file, which begins with these bytes: it is held as the log's, and the old file has
    /// this number of records behind its name. All of both is on the disk then, and so are their names.
    ///
    /// Refused with `Kept` the log stands where it stood; with `Lost` it may be either file. Nothing that
    /// somebody else put beside it is removed.
    pub fn put<R>(
        &mut self,
        rt: &R,
        records: u64,
        first: &[u8],
    ) -> Result<LogFile<HeldLog>, NotNamed>
    where
        R: Files<File = File> + AllocGlobal,
        ensures { IfOk result (λ file. file.error ≡ None) }
    {
        let names = Succession::of(rt.alloc(), &self.name, records)?;
        let name = String::from_str(rt.alloc(), &self.name)?;
        let new = names.make(rt, &self.old, first)?;
        self.old = self.settle(rt, &names, &new)?;
        let held = HeldLog::holding(NamedFile::with_name(new, name));
        Ok(LogFile::of_synced(held, first.len()))
    }
}
