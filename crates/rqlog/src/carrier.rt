//! A log that is served goes on in new files, and the operator is told on standard error.

use crate::recovery::why_spent;
use crate::refusal::{Refusal, Stream, failed};
use rq_device::{Successor, Unmade};
use rq_file::NotNamed;
use rq_found::Seen;
use rq_log_file::{HeldLog, LogFile, NextFiles};
use rq_serve::{Operator, Refused};
use std::fs::{File, Files};
use std::io;

/// Makes the files in which a log goes on, and says what becomes of that.
#[derive(Drop)]
pub(crate) struct Carrier<'a, R> {
    rt: &'a R,
    // The log, as the words have it.
    path: &'a str,
    files: NextFiles,
    // Why the last new file was not made, if that is not told yet; or what became of it is not known.
    error: Option<io::Error>,
}

impl<'a, R: AllocGlobal> Carrier<'a, R> {
    /// For a log that is held, by this path.
    pub(crate) fn new(rt: &'a R, path: &'a str, held: &HeldLog) -> Result<Self, Refusal> {
        match NextFiles::of_held(rt.alloc(), held) {
            Ok(files) => Ok(Carrier {
                rt,
                path,
                files,
                error: None,
            }),
            Err(error) => Err(failed(Stream::Log, error)),
        }
    }
}

impl<'a, R: Files<File = File> + AllocGlobal> Carrier<'a, R> {
    /// Makes sure that the log, of so many records, has its name and no other that it got from a process
    /// which carried it on and died: the disk is told of it.
    pub(crate) fn keep_name(&self, held: &HeldLog, records: u64) -> Result<(), Refusal> {
        self.files.take_name_back(self.rt, records)?;
        match held.sync_name(self.rt) {
            Ok(()) => Ok(()),
            Err(error) => Err(failed(Stream::Log, error)),
        }
    }
}

impl<'a, R> Carrier<'a, R> {
    /// Why a manager is spent over the file in which it goes on, or of which it is not known whether it is
    /// the log.
    pub(crate) fn why_spent(self, file: &LogFile<HeldLog>) -> Refusal {
        let Carrier { error, .. } = self;
        match error {
            Some(error) => failed(Stream::Log, error),
            None => why_spent(file, Stream::Log),
        }
    }
}

impl<'a, R> Successor<LogFile<HeldLog>> for Carrier<'a, R>
where
    R: Files<File = File> + AllocGlobal,
{
    fn put(&mut self, records: u64, first: &[u8]) -> Result<LogFile<HeldLog>, Unmade> {
        let (why, error) = match self.files.put(self.rt, records, first) {
            Ok(file) => return Ok(file),
            Err(NotNamed::Kept(error)) => (Unmade::Kept, error),
            Err(NotNamed::Lost(error)) => (Unmade::Lost, error),
        };
        self.error = Some(error);
        Err(why)
    }
}

impl<'a, R: Eprint> Operator for Carrier<'a, R> {
    fn hear_carried(&mut self, records: u64) {
        let log = Seen(self.path);
        let _ = eprintln!(self.rt; "rqlog: {log}: carried on behind {records} records");
    }

    fn hear_refused(&mut self, why: Refused) {
        let log = Seen(self.path);
        let _ = match self.error.take() {
            Some(error) => eprintln!(self.rt; "rqlog: {log}: not carried on: {error}"),
            None => {
                let why = why.meaning();
                eprintln!(self.rt; "rqlog: {log}: not carried on: {why}")
            }
        };
    }
}
