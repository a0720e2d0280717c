//! The file that takes the name of a log which is held, while the old log keeps another name.

ghost use Rattle.std.specs.Prelude.{◌≡◌, IfOk, true};
ghost use Rattle.std.specs.Fs.{asks_create_new, asks_write};
ghost use Rattle.rq_file.specs.Successions.{AreNamesOf};

use crate::leftovers::{BEGUN, is_left};
use crate::named::{expect_under, folder_within, is_same, is_under};
use crate::names::{OWN_MODE, file_under, give_to};
use std::alloc::{AllocError, Global};
use std::fs::{self, File, Files, Metadata, OpenFile, OpenOptions};
use std::io::{self, ErrorKind, Read, Write};
use std::os::fd::AsFd;
use std::os::unix::fs::OpenOptionsExt;

/// Why a file did not take a log's name.
#[derive(Drop)]
pub enum NotNamed {
    /// The log has its name still, if it had it, and no further one. The new file is gone.
    Kept(io::Error),
    /// The new file may have the log's name, and the disk may not know of that.
    Lost(io::Error),
}

impl From<io::Error> for NotNamed {
    fn from(error: io::Error) -> NotNamed {
        NotNamed::Kept(error)
    }
}

impl From<AllocError> for NotNamed {
    fn from(error: AllocError) -> NotNamed {
        NotNamed::Kept(io::Error::from(error))
    }
}

/// The names of a log: its own, that of the file that is to take that, and the one that it keeps then.
#[derive(Drop)]
pub struct Succession {
    log: String,
    next: String,
    kept: String,
    folder: String,
}

// The refusal of what somebody else put there.
fn others(what: &'static str) -> io::Error {
    io::Error::new(ErrorKind::AlreadyExists, what)
}

// Whether this file stands under the name.
fn is_named<R: Files>(rt: &R, file: &Metadata, name: &str) -> bool {
    fs::symlink_metadata(rt, name).is_ok_and(|found| is_same(&found, file))
}

// Writes all of a new log. Before any other of its bytes those are on the disk by which a start knows
// what a crash left.
fn fill<F: Write + OpenFile>(file: &mut F, first: &[u8]) -> io::Result<()> {
    let (begins, more) = first.split_at(first.len().min(BEGUN));
    file.write_all(begins)?;
    OpenFile::sync_all(file)?;
    file.write_all(more)?;
    OpenFile::sync_all(file)
}

impl Succession {
    /// The names of a log, of which this one is its own behind all symbolic links, and which has so many
    /// records.
    pub fn of(alloc: Global, log: &str, records: u64) -> Result<Succession, AllocError>
        ensures { IfOk result (AreNamesOf log.now records) }
    {
        Ok(Succession {
            log: String::from_str(alloc, log)?,
            next: format!(in alloc; "{log}.next")?,
            kept: format!(in alloc; "{log}.{records}")?,
            folder: folder_within(alloc, log)?,
        })
    }

    // How the new file is made: it never is one that was there, and nobody else may read it yet.
    fn options() -> OpenOptions
        ensures written { asks_write result ≡ true }
        ensures new { asks_create_new result ≡ true }
    {
        let mut options = OpenOptions::new();
        options.mode(OWN_MODE);
        options.read(true).write(true).create_new(true);
        options
    }

    // Refuses if the log lost its name, or another file has the one that it is to keep.
    fn expect_names<R: Files>(&self, rt: &R, old: &Metadata) -> io::Result<()> {
        if !is_named(rt, old, &self.log) {
            return Err(others("somebody else put another file in the log's place"));
        }
        match fs::symlink_metadata(rt, self.kept.as_str()) {
            Ok(found) if !is_same(&found, old) => Err(others(
                "another file has the name that the old log gets",
            )),
            _ => Ok(()),
        }
    }

    // Refuses if the log lost one of its two names.
    fn expect_both<R: Files>(&self, rt: &R, old: &Metadata) -> io::Result<()> {
        if is_named(rt, old, &self.log) && is_named(rt, old, &self.kept) {
            return Ok(());
        }
        Err(others("somebody else took a name of the log"))
    }

    // Whether what stands under the new file's name, and begins as these bytes do, was left by a crash.
    fn is_left<R>(&self, rt: &R, first: &[u8]) -> io::Result<bool>
    where
        R: Files + AllocGlobal,
    {
        let mut options = OpenOptions::new();
        let mut file = options.read(true).open(rt, self.next.as_str())?;
        expect_under(rt, &file, &self.next)?;
        let len = OpenFile::metadata(&file)?.len();
        let mut begins = Vec::new(rt.alloc());
        (&mut file).take(BEGUN as u64).read_to_end(&mut begins)?;
        Ok(is_left(&begins, len, first))
    }

    // Removes what a crash left under the new file's name, and refuses all else that stands there. Of
    // the log itself, which may have this name too, only the name goes.
    fn clear<R>(&self, rt: &R, old: &Metadata, first: &[u8]) -> io::Result<()>
    where
        R: Files + AllocGlobal,
    {
        let Some(found) = file_under(rt, &self.next)? else {
            return Ok(());
        };
        if is_same(&found, old) || self.is_left(rt, first)? {
            return fs::remove_file(rt, self.next.as_str());
        }
        Err(others("another file has the name of the new log: move it away"))
    }

    /// Makes the new file of these bytes, which are on the disk then. The log, which is this file, has its
    /// name still.
    ///
    /// Refuses, and leaves all as it was, if the log lost its name, if another file has the one that it is
    /// to keep, or if that of the new file has one that no crash left: with `AlreadyExists`; and with the
    /// system's error.
    pub fn make<R>(&self, rt: &R, old: &Metadata, first: &[u8]) -> io::Result<R::File>
    where
        R: Files + AllocGlobal,
        R::File: Write,
    {
        self.expect_names(rt, old)?;
        self.clear(rt, old, first)?;
        let mut file = Succession::options().open(rt, self.next.as_str())?;
        match fill(&mut file, first) {
            Ok(()) => Ok(file),
            Err(error) => {
                self.discard(rt, &file);
                Err(error)
            }
        }
    }

    /// Takes the new file away.
    pub fn discard<R: Files>(&self, rt: &R, new: &R::File) {
        if is_under(rt, new, &self.next) {
            let _ = fs::remove_file(rt, self.next.as_str());
        }
    }

    // Gives the log the name that it keeps, beside its own. Whether it did not have that.
    fn is_named_anew<R: Files>(&self, rt: &R) -> io::Result<bool> {
        match fs::hard_link(rt, self.log.as_str(), self.kept.as_str()) {
            Ok(()) => Ok(true),
            Err(error) if error.kind() == ErrorKind::AlreadyExists => Ok(false),
            Err(error) => Err(error),
        }
    }

    /// Takes from the log the name that it was to keep, if it is the log that has it and its own.
    pub fn take_back<R: Files>(&self, rt: &R, old: &Metadata) {
        if is_named(rt, old, &self.log) && is_named(rt, old, &self.kept) {
            let _ = fs::remove_file(rt, self.kept.as_str());
        }
    }

    // Gives the new file the log's name, once the disk knows of the one that the log keeps.
    fn rename<R: Files>(
        &self,
        rt: &R,
        folder: &R::File,
        old: &Metadata,
        new: &R::File,
    ) -> Result<(), NotNamed> {
        OpenFile::sync_all(folder)?;
        self.expect_both(rt, old)?;
        expect_under(rt, new, &self.next)?;
        match fs::rename(rt, self.next.as_str(), self.log.as_str()) {
            Err(error) if !is_under(rt, new, &self.log) => Err(NotNamed::Kept(error)),
            Err(error) => Err(NotNamed::Lost(error)),
            Ok(()) => Ok(()),
        }
    }

    // The same; if the new file has the log's name then, the disk knows of it.
    fn exchange<R: Files>(
        &self,
        rt: &R,
        folder: &R::File,
        old: &Metadata,
        new: &R::File,
    ) -> Result<(), NotNamed> {
        self.rename(rt, folder, old, new)?;
        match expect_under(rt, new, &self.log).and_then(|()| OpenFile::sync_all(folder)) {
            Ok(()) => Ok(()),
            Err(error) => Err(NotNamed::Lost(error)),
        }
    }

    // Gives the log the name that it keeps, and the new file its own.
    fn take_names<R>(&self, rt: &R, old: &Metadata, new: &R::File) -> Result<(), NotNamed>
    where
        R: Files,
        R::File: AsFd,
    {
        let folder = File::open(rt, self.folder.as_str())?;
        self.expect_names(rt, old)?;
        give_to(new, &fs::symlink_metadata(rt, self.log.as_str())?)?;
        OpenFile::sync_all(new)?;
        let is_new = self.is_named_anew(rt)?;
        let taken = self.exchange(rt, &folder, old, new);
        if is_new && matches!(taken, Err(NotNamed::Kept(_))) {
            self.take_back(rt, old);
        }
        taken
    }

    /// Puts the new file in the log's place, which is the old file, with its owner, group and permissions;
    /// the log keeps its other name. A crash leaves the log under its name until the new file has that, and
    /// then under the other.
    ///
    /// Refuses with `Kept` if that cannot be done; with `Lost` if it may be done, and the disk may not know
    /// of it. Whoever else may write the folder can put something else under these names at any time: then
    /// it refuses, and removes nothing of that.
    pub fn settle<R>(&self, rt: &R, old: &Metadata, new: &R::File) -> Result<(), NotNamed>
    where
        R: Files,
        R::File: AsFd,
    {
        let taken = self.take_names(rt, old, new);
        if matches!(taken, Err(NotNamed::Kept(_))) {
            self.discard(rt, new);
        }
        taken
    }
}
