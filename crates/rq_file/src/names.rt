//! The file that takes the place of another once it is whole.

ghost use Rattle.std.specs.Prelude.{◌≡◌, IfOk, IfSome, string_bytes, true};
ghost use Rattle.std.specs.Fs.{asks_create_new, asks_write};
ghost use Rattle.rq_file.specs.Beside.{IsBeside, name_beside};
ghost use Rattle.rq_file.specs.Targets.{new_of, old_of};

use crate::named::{expect_under, folder_within, followed, is_of_process, is_same, is_under};
use crate::predecessors::{Replaces, is_free};
use std::alloc::{AllocError, Global};
use std::fs::{File, Files, Metadata, OpenFile, OpenOptions, Permissions};
use std::io::ErrorKind;
use std::os::fd::AsFd;
use std::os::unix::fs::{MetadataExt, OpenOptionsExt, PermissionsExt, fchown};
use std::{fs, io};

// How many names are tried for a file: some may be left by runs that were killed.
const NAMES: u32 = 100;

// The mode of a file while it is written that is to take the place of another: nobody else reads
// it, whoever may read that.
pub(crate) const OWN_MODE: u32 = 0o600;

// What of an old file's mode says who may do what with it. A new file never gets the rest, by which
// a program runs as its owner.
const PERMISSIONS: u32 = 0o777;

// The name of this number beside a path.
fn name_beside(alloc: Global, path: &str, number: u32) -> Result<String, AllocError>
    ensures { IfOk result (λ name. string_bytes name ≡ name_beside path.now number) }
{
    format!(in alloc; "{path}.rq{number}")
}

// A name beside a path that no file has.
fn free_name<R: Files + AllocGlobal>(rt: &R, path: &str) -> io::Result<String>
    ensures { IfOk result (λ name. IsBeside path.now (string_bytes name)) }
{
    for number in 0..NAMES {
        let name = name_beside(rt.alloc(), path, number)?;
        if fs::symlink_metadata(rt, name.as_str()).is_err() {
            return Ok(name);
        }
    }
    Err(io::Error::new(
        ErrorKind::AlreadyExists,
        "all names from .rq0 to .rq99 behind it are taken",
    ))
}

/// What stands under a name: none where nothing does. Nothing but a file counts: what a path leads
/// to was looked for before, so a link or a folder was put there since.
pub(crate) fn file_under<R: Files>(rt: &R, name: &str) -> io::Result<Option<Metadata>> {
    match fs::symlink_metadata(rt, name) {
        Ok(found) if found.is_file() => Ok(Some(found)),
        Ok(_) => Err(io::Error::from(ErrorKind::AlreadyExists)),
        Err(error) if error.kind() == ErrorKind::NotFound => Ok(None),
        Err(error) => Err(error),
    }
}

// Gives the open file the owner and the group of the old one, or the group alone, as far as the
// system lets us, and then its permissions. Whoever may write the folder can put something else
// under any name in it, so no name is used.
pub(crate) fn give_to<F: OpenFile + AsFd>(file: &F, old: &Metadata) -> io::Result<()> {
    let (owner, group) = (Some(old.uid()), Some(old.gid()));
    if fchown(file, owner, group).is_err() {
        let _ = fchown(file, None, group);
    }
    OpenFile::set_permissions(file, Permissions::from_mode(old.mode() & PERMISSIONS))
}

impl Names {
    /// Whether two paths name one file, also by links. No pipe or device is one.
    pub fn name_one_file<R: Files>(rt: &R, one: &str, other: &str) -> bool {
        match (fs::metadata(rt, one), fs::metadata(rt, other)) {
            (Ok(one), Ok(other)) => one.is_file() && is_same(&one, &other),
            _ => false,
        }
    }
}

/// The name under which a file is written before it takes the place of the old one, and what that
/// is.
#[derive(Drop)]
pub struct Names {
    old: String,
    new: String,
    folder: String,
}

impl Names {
    /// The names for a path; none where what it names is written as it is: a device, a pipe, or a
    /// file that a process has open. A symbolic link stays, and what it names is replaced.
    ///
    /// Refuses with the system's error what cannot be looked at; with `FilesystemLoop` more
    /// symbolic links, one behind the other, than the system follows; with `AlreadyExists` where
    /// all names beside it are taken; with `OutOfMemory` where memory is refused.
    pub fn of<R: Files + AllocGlobal>(rt: &R, path: &str) -> io::Result<Option<Names>>
        ensures { IfOk result
            (λ found. IfSome found (λ names. IsBeside (old_of names) (new_of names))) }
    {
        let old = followed(rt, path)?;
        let is_file = fs::metadata(rt, old.as_str()).map_or(true, |found| found.is_file());
        if is_of_process(rt, &old) || !is_file {
            return Ok(None);
        }
        let new = free_name(rt, &old)?;
        let folder = folder_within(rt.alloc(), &old)?;
        Ok(Some(Names { old, new, folder }))
    }

    /// The name of what is replaced.
    pub(crate) fn old_name(&self) -> &str
        ensures { result.now ≡ old_of self.now }
    {
        &self.old
    }

    /// The name to write under.
    pub fn new_name(&self) -> &str
        ensures { result.now ≡ new_of self.now }
    {
        &self.new
    }

    /// How the new file is made: for writing, and it never is one that was there. Where there is an
    /// old one, nobody else may read the new one until it gets the old one's mode, which it does
    /// once all is written, before it takes its place.
    pub fn options<R: Files>(&self, rt: &R) -> OpenOptions
        ensures written { asks_write result ≡ true }
        ensures new { asks_create_new result ≡ true }
    {
        let mut options = OpenOptions::new();
        if fs::metadata(rt, self.old.as_str()).is_ok() {
            options.mode(OWN_MODE);
        }
        options.write(true).create_new(true);
        options
    }

    /// Ends the work on the new file, where it was opened. Where that is done, puts it in the place
    /// of the old one, with its owner, group and permissions, once its bytes are on the disk; else,
    /// or where this fails, takes it away. A fault in telling the disk of the change leaves the new
    /// file in its place.
    ///
    /// Whoever else may write the folder can put something else under these names at any time: then
    /// it refuses with `NotFound` or `AlreadyExists`, and neither gives that away nor removes it.
    pub fn settle<R>(&self, rt: &R, made: Option<R::File>, is_done: bool) -> io::Result<()>
    where
        R: Files + AllocGlobal,
        R::File: AsFd,
    {
        self.settle_over(rt, made, is_done, &Replaces::Anything)
    }

    /// The same; but refuses with `AlreadyExists` if what is there may not be replaced, once all is
    /// written.
    pub fn settle_over<R>(
        &self,
        rt: &R,
        made: Option<R::File>,
        is_done: bool,
        rule: &Replaces<'_>,
    ) -> io::Result<()>
    where
        R: Files + AllocGlobal,
        R::File: AsFd,
    {
        let Some(file) = made else {
            return Ok(());
        };
        if is_done {
            return self.keep(rt, &file, rule);
        }
        self.discard(rt, &file);
        Ok(())
    }

    // Puts the new file in the place of the old one.
    fn keep<R>(&self, rt: &R, file: &R::File, rule: &Replaces<'_>) -> io::Result<()>
    where
        R: Files + AllocGlobal,
        R::File: AsFd,
    {
        match self.exchange(rt, file, rule) {
            Ok(folder) => OpenFile::sync_all(&folder),
            Err(error) => {
                self.discard(rt, file);
                Err(error)
            }
        }
    }

    // Puts the new file in the place of the old one, and answers the folder, which was opened
    // before.
    fn exchange<R>(&self, rt: &R, file: &R::File, rule: &Replaces<'_>) -> io::Result<R::File>
    where
        R: Files + AllocGlobal,
        R::File: AsFd,
    {
        let folder = File::open(rt, self.folder.as_str())?;
        if let Some(old) = file_under(rt, &self.old)? {
            give_to(file, &old)?;
        }
        OpenFile::sync_all(file)?;
        expect_under(rt, file, &self.new)?;
        self.take_place(rt, rule)?;
        expect_under(rt, file, &self.old)?;
        Ok(folder)
    }

    // Gives the new file the name of the old one, as soon as it was looked at what stands there. If that
    // may be replaced whatever it is, a rename does it in one step.
    fn take_place<R>(&self, rt: &R, rule: &Replaces<'_>) -> io::Result<()>
    where
        R: Files + AllocGlobal,
    {
        let is_free = is_free(rt, &self.old, rule)?;
        let must_stay_free = !matches!(rule, Replaces::Anything);
        if is_free && must_stay_free && self.is_named_twice(rt)? {
            return fs::remove_file(rt, self.new.as_str());
        }
        fs::rename(rt, self.new.as_str(), self.old.as_str())
    }

    // Gives the new file the name of the old one beside its own: a link takes nobody's place, as a
    // rename would. False answers that the file system gives no file a second name.
    fn is_named_twice<R: Files>(&self, rt: &R) -> io::Result<bool> {
        match fs::hard_link(rt, self.new.as_str(), self.old.as_str()) {
            Ok(()) => Ok(true),
            Err(error) if error.kind() == ErrorKind::AlreadyExists => Err(error),
            Err(_) => Ok(false),
        }
    }

    // Takes the new file away.
    fn discard<R: Files>(&self, rt: &R, file: &R::File) {
        if is_under(rt, file, &self.new) {
            let _ = fs::remove_file(rt, self.new.as_str());
        }
    }
}
