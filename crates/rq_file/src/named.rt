//! What a path names, and a file that is used where it stands.

use std::alloc::{AllocError, Global};
use std::fs::{self, Files, Metadata, OpenFile, OpenOptions};
use std::io::{self, ErrorKind};
use std::os::unix::fs::MetadataExt;
use std::path::Path;

// How many symbolic links are followed, one behind the other: as many as the system follows.
const LINKS: u32 = 40;

// The folder of what this process has open, on the file system that shows processes.
const OPEN_FILES: &str = "/proc/self/fd";

// The folder that a path lies in.
fn folder_of(path: &str) -> &str {
    match Path::new(path).parent() {
        Some(folder) if !folder.as_str().is_empty() => folder.as_str(),
        _ => ".",
    }
}

/// The folder that a path lies in, by a name that only a folder can have: to open it never waits,
/// as it would for a pipe that somebody put in its place.
pub fn folder_within(alloc: Global, path: &str) -> Result<String, AllocError> {
    let folder = folder_of(path);
    format!(in alloc; "{folder}/.")
}

/// Whether the path names a file that a process has open, as `/dev/stdout` does behind its link:
/// whether its folder is on the file system that shows processes, however the path is written.
pub(crate) fn is_of_process<R: Files>(rt: &R, path: &str) -> bool {
    let folder = fs::metadata(rt, folder_of(path));
    let open_files = fs::metadata(rt, OPEN_FILES);
    match (folder, open_files) {
        (Ok(folder), Ok(open_files)) => folder.dev() == open_files.dev(),
        _ => false,
    }
}

/// What a path names behind its symbolic links, whether it is there or not.
pub(crate) fn followed<R: Files + AllocGlobal>(rt: &R, path: &str) -> io::Result<String> {
    let mut real = String::from_str(rt.alloc(), path)?;
    // One look more than links: behind the last one there may be a file.
    for _ in 0..=LINKS {
        if is_of_process(rt, &real) {
            return Ok(real);
        }
        real = match fs::read_link(rt, real.as_str()) {
            Ok(next) => Path::new(folder_of(&real))
                .join(rt.alloc(), next.as_str())?
                .into_string(),
            Err(error) => match error.kind() {
                ErrorKind::InvalidInput | ErrorKind::NotFound => return Ok(real),
                _ => return Err(error),
            },
        };
    }
    Err(io::Error::from(ErrorKind::FilesystemLoop))
}

/// Whether these are of one file.
pub(crate) fn is_same(one: &Metadata, other: &Metadata) -> bool {
    (one.dev(), one.ino()) == (other.dev(), other.ino())
}

/// Whether the open file stands under the name, and not something else that was put there.
pub(crate) fn is_under<R: Files>(rt: &R, file: &R::File, name: &str) -> bool {
    match (OpenFile::metadata(file), fs::symlink_metadata(rt, name)) {
        (Ok(file), Ok(named)) => is_same(&file, &named),
        _ => false,
    }
}

/// Refuses with `NotFound` a name under which something else stands than the open file.
pub(crate) fn expect_under<R: Files>(rt: &R, file: &R::File, name: &str) -> io::Result<()> {
    if is_under(rt, file, name) {
        return Ok(());
    }
    Err(io::Error::new(
        ErrorKind::NotFound,
        "somebody else put another file in its place",
    ))
}

/// An open file, and its name behind all symbolic links.
#[derive(Drop)]
pub struct NamedFile<F> {
    file: F,
    name: String,
}

impl<F> NamedFile<F> {
    /// Opens the file that a path names. If the options ask for no new file, none is made, and
    /// nothing but a file is opened.
    ///
    /// Refuses with the system's error what cannot be opened; with `InvalidInput` what is no file;
    /// with `NotFound` if somebody else put something else there meanwhile; with `FilesystemLoop`
    /// more symbolic links, one behind the other, than the system follows.
    pub fn open<R>(rt: &R, path: &str, options: &OpenOptions) -> io::Result<NamedFile<F>>
    where
        R: Files<File = F> + AllocGlobal,
        F: Drop,
    {
        let name = followed(rt, path)?;
        if !fs::symlink_metadata(rt, name.as_str())?.is_file() {
            return Err(io::Error::new(ErrorKind::InvalidInput, "it is no file"));
        }
        let file = options.open(rt, name.as_str())?;
        expect_under(rt, &file, &name)?;
        Ok(NamedFile { file, name })
    }

    /// The file that got this name, which is one behind all symbolic links.
    pub fn with_name(file: F, name: String) -> NamedFile<F> {
        NamedFile { file, name }
    }

    /// Its name.
    pub fn real_name(&self) -> &str {
        &self.name
    }

    /// The file.
    pub fn file(&self) -> &F {
        &self.file
    }

    /// The file, to read it or to write it.
    pub fn file_mut(&mut self) -> &mut F {
        &mut self.file
    }

    /// Whether the file still has its name.
    pub fn is_there<R: Files<File = F>>(&self, rt: &R) -> bool {
        is_under(rt, &self.file, &self.name)
    }
}
