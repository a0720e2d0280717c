//! What stands where a file is to be made, and whether it gives way.

ghost use Rattle.std.specs.Prelude.{◌≡◌};
ghost use Rattle.rq_file.specs.Predecessors as spec;

use crate::named::NamedFile;
use crate::names::{Names, file_under};
use std::alloc::Global;
use std::fs::{Files, OpenOptions};
use std::io::{self, BufRead, BufReader, ErrorKind, Read};

// What logs begin with, whatever their version, and those that go on from another.
const LOG: &[u8] = b"RQLOG";

/// What of the files that are there a file that is made may take the place of.
#[derive(Clone, Copy)]
pub enum Replaces<'a> {
    /// None.
    Nothing,
    /// One of its kind, which begins with these bytes.
    Beginning(&'a [u8]),
    /// One of its kind, of which the first line with `#` at its beginning begins with these bytes.
    Remark(&'a [u8]),
    /// Each that is no log.
    NoLog,
    /// Each.
    Anything,
}

fn is_log(begins: &[u8]) -> bool
    ensures { result ≡ spec.is_log begins.now }
{
    begins.starts_with(LOG)
}

// Whether a file gives way that begins so, and of which it is known whether it is one of the kind.
fn gives_way(rule: &Replaces<'_>, begins: &[u8], is_earlier: bool) -> bool
    ensures { result ≡ spec.gives_way rule.now begins.now is_earlier }
{
    match rule {
        Replaces::Nothing => false,
        Replaces::Beginning(_) | Replaces::Remark(_) => !is_log(begins) && is_earlier,
        Replaces::NoLog => !is_log(begins),
        Replaces::Anything => true,
    }
}

// The refusal of a file that stays, which is a log or not.
fn stays(is_log: bool) -> io::Error {
    let why = if is_log {
        "it is a log, and none is replaced: name another file"
    } else {
        "it is there already: --force replaces it"
    };
    io::Error::new(ErrorKind::AlreadyExists, why)
}

// Whether the first line with `#` at its beginning begins with these bytes.
fn has_remark<B: BufRead>(alloc: Global, lines: &mut B, remark: &[u8]) -> io::Result<bool> {
    for _ in 0..u64::MAX {
        match lines.fill_buf()?.first() {
            None => return Ok(false),
            Some(b'#') => break,
            Some(_) => {}
        }
        lines.skip_until(b'\n')?;
    }
    let mut line = Vec::new(alloc);
    lines.take(remark.len() as u64).read_to_end(&mut line)?;
    Ok(line.as_slice() == remark)
}

// Refuses the file that is read from here if it stays.
fn expect_way<F: Read + Drop>(alloc: Global, file: F, rule: &Replaces<'_>) -> io::Result<()> {
    let mut lines = BufReader::new(alloc, file)?;
    let begins = lines.fill_buf()?.to_vec(alloc)?;
    let is_earlier = match rule {
        Replaces::Beginning(beginning) => begins.starts_with(beginning),
        Replaces::Remark(remark) => has_remark(alloc, &mut lines, remark)?,
        _ => false,
    };
    if gives_way(rule, &begins, is_earlier) {
        return Ok(());
    }
    Err(stays(is_log(&begins)))
}

// The same of the file under a name, which must have that still when it was looked at.
fn look<R: Files + AllocGlobal>(rt: &R, name: &str, rule: &Replaces<'_>) -> io::Result<()> {
    let mut options = OpenOptions::new();
    options.read(true);
    let mut place = NamedFile::open(rt, name, &options)?;
    expect_way(rt.alloc(), place.file_mut(), rule)?;
    if place.is_there(rt) {
        return Ok(());
    }
    Err(stays(false))
}

/// Whether nothing stands under a name. Refuses with `AlreadyExists` what stands there and stays.
pub(crate) fn is_free<R>(rt: &R, name: &str, rule: &Replaces<'_>) -> io::Result<bool>
where
    R: Files + AllocGlobal,
{
    if file_under(rt, name)?.is_none() {
        return Ok(true);
    }
    match rule {
        Replaces::Nothing => return Err(stays(false)),
        Replaces::Anything => {}
        _ => look(rt, name, rule)?,
    }
    Ok(false)
}

impl Replaces<'_> {
    /// Refuses with `AlreadyExists` what the path names if a file that is made may not take its place;
    /// what is no file is written as it is. Refuses also what `Names::of` refuses, and with the system's
    /// error what cannot be read.
    pub fn expect_replaceable<R>(&self, rt: &R, path: &str) -> io::Result<()>
    where
        R: Files + AllocGlobal,
    {
        if let Some(names) = Names::of(rt, path)? {
            is_free(rt, names.old_name(), self)?;
        }
        Ok(())
    }
}
