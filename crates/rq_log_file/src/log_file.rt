//! A file to which the bytes of a log are written.

ghost use Rattle.std.specs.Prelude.{◌≡◌, ◌≤◌, None, true, is_some, option_copied};
ghost use Rattle.rq_record.specs.declared.fault.Fault.TheVariants.{WriteFailed};

use rq_device::Device;
use rq_record::Fault;
use std::fs::OpenFile;
use std::io::{self, ErrorKind, Seek, SeekFrom, Write};
use std::sync::ArcSlice;

/// The file of a log, which was opened to be written, and not to append. What a file holds is known
/// to no contract: that a disk does what a `Device` says is taken for granted.
#[derive(Drop)]
pub struct LogFile<F> {
    file: F,
    // What was read of it when it was opened.
    read: Option<ArcSlice<u8>>,
    // So many of these bytes still stand there.
    kept: u64,
    len: u64,
    synced: u64,
    // So many bytes behind these are shown already, which are to be written next.
    shown: u64,
    error: Option<io::Error>,
    is_cut_back: bool,
}

// The bytes from one offset up to another; none if they are not there.
fn bytes_within(read: &Option<ArcSlice<u8>>, from: u64, to: u64) -> &[u8] {
    match read {
        Some(bytes) => bytes
            .as_slice()
            .get(from as usize..to as usize)
            .unwrap_or(&[]),
        None => &[],
    }
}

impl<F> LogFile<F> {
    /// Over a file of which these bytes were read, all that it has; or over an empty one. A
    /// `rewrite` writes them again as they were read: what the system would now read may be older,
    /// if a sync failed before.
    pub fn new(file: F, read: Option<ArcSlice<u8>>) -> LogFile<F>
        ensures { result.error ≡ None }
    {
        let len = read.as_ref().map_or(0, |bytes| bytes.len()) as u64;
        LogFile {
            file,
            read,
            kept: len,
            len,
            synced: len,
            shown: 0,
            error: None,
            is_cut_back: false,
        }
    }

    /// Over a file of so many bytes, all of which its holder wrote and synced: a `rewrite` has nothing to
    /// write again.
    pub fn of_synced(file: F, len: usize) -> LogFile<F>
        ensures { result.error ≡ None }
    {
        let mut it = LogFile::new(file, None);
        it.len = len as u64;
        it.synced = len as u64;
        it
    }

    /// The file.
    pub fn file(&self) -> &F
        ensures { result.now ≡ self.now.file }
    {
        &self.file
    }

    /// Why a call failed; none if none did.
    pub fn error(&self) -> Option<&io::Error>
        ensures { option_copied result ≡ self.now.error }
    {
        self.error.as_ref()
    }

    /// Whether the file was cut back, once a call failed, to the bytes that a sync had reached.
    pub fn is_cut_back(&self) -> bool
        ensures { result ≡ self.now.is_cut_back }
    {
        self.is_cut_back
    }
}

impl<F: Write + Seek + OpenFile> LogFile<F> {
    // Says that a call failed. What no sync reached is cut off, as far as the system lets us: a
    // program that opens the file then finds what was answered.
    fn fail(&mut self, error: io::Error) -> Fault
        ensures failed { is_some self.new.error ≡ true }
        ensures fault { result ≡ WriteFailed }
    {
        let cut = OpenFile::set_len(&self.file, self.synced);
        self.is_cut_back = cut.is_ok() && OpenFile::sync_all(&self.file).is_ok();
        self.error = Some(error);
        Fault::WriteFailed
    }

    // Writes what was read from an offset on once more, as far as it still stands there, in its
    // place, and tells the disk: what was written since, a sync reaches. The file stands at its end
    // then.
    fn write_again(&mut self, from: u64) -> io::Result<()>
        ensures { self.new.error ≡ self.old.error }
    {
        self.file.seek(SeekFrom::Start(from))?;
        self.file
            .write_all(bytes_within(&self.read, from, self.kept))?;
        self.file.seek(SeekFrom::Start(self.len))?;
        OpenFile::sync_data(&self.file)
    }

    // Writes what of the bytes is not shown yet behind what is.
    fn show(&mut self, next: &[u8]) -> io::Result<()>
        ensures { self.new.error ≡ self.old.error }
    {
        let Some(more) = next.get(self.shown as usize..) else {
            return Ok(());
        };
        self.file.write_all(more)?;
        self.shown = next.len() as u64;
        Ok(())
    }

    // Goes back to where the bytes end that were written: those that were shown are written now.
    fn stand_behind_written(&mut self) -> io::Result<()>
        ensures { self.new.error ≡ self.old.error }
    {
        if self.shown == 0 {
            return Ok(());
        }
        self.file.seek(SeekFrom::Start(self.len))?;
        self.shown = 0;
        Ok(())
    }

    // Cuts the file. It stands at its end then.
    fn cut_at(&mut self, len: u64) -> io::Result<()>
        ensures { self.new.error ≡ self.old.error }
    {
        OpenFile::set_len(&self.file, len)?;
        self.file.seek(SeekFrom::Start(len))?;
        self.len = len;
        self.kept = self.kept.min(len);
        self.synced = self.synced.min(len);
        Ok(())
    }
}

impl<F: Write + Seek + OpenFile> Device for LogFile<F> {
    ghost failed = { λ it. is_some it.error };

    // An interrupted write is tried again.
    fn write(&mut self, piece: &[u8]) -> Result<usize, Fault> {
        if let Err(error) = self.stand_behind_written() {
            return Err(self.fail(error));
        }
        for _ in 0..u64::MAX {
            match self.file.write(piece) {
                Ok(count) if count > 0 || piece.is_empty() => {
                    self.len = self.len.saturating_add(count as u64);
                    return Ok(count);
                }
                Ok(_) => break,
                Err(error) if error.kind() == ErrorKind::Interrupted => {}
                Err(error) => return Err(self.fail(error)),
            }
        }
        Err(self.fail(io::Error::from(ErrorKind::WriteZero)))
    }

    fn preview(&mut self, next: &[u8]) -> Result<(), Fault> {
        match self.show(next) {
            Ok(()) => Ok(()),
            Err(error) => Err(self.fail(error)),
        }
    }

    // A sync that failed is never tried again: what the disk then holds is unknown.
    fn sync(&mut self) -> Result<(), Fault> {
        match OpenFile::sync_data(&self.file) {
            Ok(()) => {
                self.synced = self.len;
                Ok(())
            }
            Err(error) => Err(self.fail(error)),
        }
    }

    fn rewrite(&mut self, from: usize) -> Result<(), Fault> {
        match self.write_again(from as u64) {
            Ok(()) => {
                self.synced = self.len;
                // From now on a sync reaches all. A manager that goes on for long has no use for it.
                self.read = None;
                Ok(())
            }
            Err(error) => Err(self.fail(error)),
        }
    }

    fn cut(&mut self, len: usize) -> Result<(), Fault> {
        match self.cut_at(len as u64) {
            Ok(()) => Ok(()),
            Err(error) => Err(self.fail(error)),
        }
    }
}
