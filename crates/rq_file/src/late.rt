//! A file that is opened at its first write.

ghost use Rattle.std.specs.Prelude.{◌≡◌, true, None};
ghost use Rattle.std.specs.Fs.{new_options, with_append};

use std::fs::{Files, OpenOptions};
use std::io::{self, Write};

/// A file that is opened at its first write.
#[derive(Drop)]
pub struct Late<'a, R: Files> {
    rt: &'a R,
    path: &'a str,
    options: OpenOptions,
    file: Option<R::File>,
}

impl<'a, R: Files> Late<'a, R> {
    /// The file that is to be opened so by its path.
    pub fn new(rt: &'a R, path: &'a str, options: OpenOptions) -> Self
        ensures file { result.file ≡ None }
        ensures path { result.path.now ≡ path.now }
        ensures options { result.options ≡ options }
    {
        Late {
            rt,
            path,
            options,
            file: None,
        }
    }

    /// A file that is written as it is: behind what it holds, of which nothing is lost. It is there
    /// already; one that is gone is not made.
    pub fn in_place(rt: &'a R, path: &'a str) -> Self
        ensures file { result.file ≡ None }
        ensures path { result.path.now ≡ path.now }
        ensures options { result.options ≡ with_append new_options true }
    {
        let mut options = OpenOptions::new();
        options.append(true);
        Late::new(rt, path, options)
    }

    /// The file, where there was a write.
    pub fn into_file(self) -> Option<R::File>
        ensures { result ≡ self.entry.file }
    {
        let Late { file, .. } = self;
        file
    }
}

impl<'a, R: Files> Write for Late<'a, R> {
    fn write(&mut self, bytes: &[u8]) -> io::Result<usize> {
        if let Some(file) = &mut self.file {
            return file.write(bytes);
        }
        let mut file = self.options.open(self.rt, self.path)?;
        let written = file.write(bytes);
        self.file = Some(file);
        written
    }

    fn flush(&mut self) -> io::Result<()> {
        Ok(())
    }
}
