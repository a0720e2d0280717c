//! The file of a log, which one program writes at a time.

use rq_file::{NamedFile, folder_within};
use std::fs::{File, Files, Metadata, OpenFile, OpenOptions, TryLockError};
use std::io::{self, Seek, SeekFrom, Write};

/// For what the file of a log is held.
#[derive(Clone, Copy)]
pub enum Hold {
    /// To read it while no other program writes it.
    ToRead,
    /// To put another into its place.
    ToReplace,
    /// To read it and to write it.
    ToWrite,
}

/// Why the file of a log is not held, or no longer as it was read.
#[derive(Drop)]
pub enum NotHeld {
    /// Another program writes the log.
    Locked,
    /// Another file came into the log's place, or its length changed meanwhile.
    Changed,
    /// The system refuses it.
    Failed(io::Error),
}

/// The file of a log, which no other program that asks for the lock writes meanwhile.
#[derive(Drop)]
pub struct HeldLog {
    place: NamedFile<File>,
}

/// Takes the lock of a log's writers, or of its readers.
pub(crate) fn lock(file: &File, hold: Hold) -> Result<(), NotHeld> {
    let locked = match hold {
        Hold::ToRead => file.try_lock_shared(),
        Hold::ToReplace | Hold::ToWrite => file.try_lock(),
    };
    match locked {
        Ok(()) => Ok(()),
        Err(TryLockError::WouldBlock) => Err(NotHeld::Locked),
        Err(TryLockError::Error(error)) => Err(NotHeld::Failed(error)),
    }
}

impl HeldLog {
    /// Opens the file of a log and takes the lock. The file must still have its name then: else
    /// another program put its own there while this one came.
    pub fn open<R>(rt: &R, path: &str, hold: Hold) -> Result<HeldLog, NotHeld>
    where
        R: Files<File = File> + AllocGlobal,
    {
        let mut options = OpenOptions::new();
        options.read(true).write(matches!(hold, Hold::ToWrite));
        let place = match NamedFile::open(rt, path, &options) {
            Ok(place) => place,
            Err(error) => return Err(NotHeld::Failed(error)),
        };
        lock(place.file(), hold)?;
        if !place.is_there(rt) {
            return Err(NotHeld::Changed);
        }
        Ok(HeldLog { place })
    }

    /// The file that has the lock of a log's writers, and its name.
    pub(crate) fn holding(place: NamedFile<File>) -> HeldLog {
        HeldLog { place }
    }

    /// The file, and its name.
    pub(crate) fn named_file(&self) -> &NamedFile<File> {
        &self.place
    }

    /// The file.
    pub fn file(&mut self) -> &mut File {
        self.place.file_mut()
    }

    /// Tells the disk of the file's name: whoever gave it that may have been killed before.
    pub fn sync_name<R>(&self, rt: &R) -> io::Result<()>
    where
        R: Files<File = File> + AllocGlobal,
    {
        let folder = File::open(
            rt,
            folder_within(rt.alloc(), self.place.real_name())?.as_str(),
        )?;
        OpenFile::sync_all(&folder)
    }

    /// Refuses a file that has its name no more, or not so many bytes as were read.
    pub fn expect_as_read<R>(&self, rt: &R, bytes: usize) -> Result<(), NotHeld>
    where
        R: Files<File = File>,
    {
        let len = OpenFile::metadata(self.place.file()).map_or(u64::MAX, |found| found.len());
        if len == bytes as u64 && self.place.is_there(rt) {
            return Ok(());
        }
        Err(NotHeld::Changed)
    }
}

impl Write for HeldLog {
    fn write(&mut self, buf: &[u8]) -> io::Result<usize> {
        self.file().write(buf)
    }

    fn flush(&mut self) -> io::Result<()> {
        self.file().flush()
    }
}

impl Seek for HeldLog {
    fn seek(&mut self, to: SeekFrom) -> io::Result<u64> {
        self.file().seek(to)
    }
}

impl OpenFile for HeldLog {
    fn metadata(&self) -> io::Result<Metadata> {
        OpenFile::metadata(self.place.file())
    }

    fn set_len(&self, size: u64) -> io::Result<()> {
        OpenFile::set_len(self.place.file(), size)
    }

    fn sync_all(&self) -> io::Result<()> {
        OpenFile::sync_all(self.place.file())
    }

    fn sync_data(&self) -> io::Result<()> {
        OpenFile::sync_data(self.place.file())
    }
}
