//! The files that the program makes of a log.

ghost use Rattle.std.specs.Prelude.{◌<◌};

use crate::acts::{Request, is_frontless};
use crate::failures::{Failure, FileTrouble, of_file};
use crate::log_files::{is_over_log, shown_name, typed_name};
use crate::words::{numbers_asked, order_asked};
use rq_file::{Replaces, VERSION};
use rq_found::{Fault, Output, OverWrite, Trouble};
use rq_look::REMARK;
use rq_page::{Asked, BEGINNING};
use std::io::{self, ErrorKind};
use std::os::fd::AsFd;
use std::rt::Files;
use std::thread::Threads;

// Puts the page that the words ask for of a log.
fn put_page<R: AllocGlobal + Threads + Sync, W: Output>(
    rt: &R,
    asked: &Request<'_, '_>,
    made: &mut W,
) -> Result<(), Trouble>
    requires faults { W.faults made.old < 18446744073709551615 }
{
    let elements = numbers_asked(rt.alloc(), asked.words, "element")?;
    let units = numbers_asked(rt.alloc(), asked.words, "unit")?;
    let page = Asked {
        name: shown_name(asked.file),
        typed: typed_name(asked.file),
        version: VERSION,
        order: order_asked(asked.words),
        elements: elements.as_slice(),
        units: units.as_slice(),
    };
    rq_page::page(rt, rt.alloc(), &page, &asked.log, made)
}

// Puts the script of a log, with what stands behind its front; of a carried log without a front, with
// what is right in it.
fn salvage<R: AllocGlobal + Threads + Sync, W: Output>(
    rt: &R,
    asked: &Request<'_, '_>,
    made: &mut W,
) -> Result<(), Trouble>
    requires faults { W.faults made.old < 18446744073709551615 }
{
    match rq_look::salvage(rt, rt.alloc(), &asked.log, made) {
        Err(trouble) if is_frontless(&asked.log, &trouble) => {
            rq_look::salvage_frontless(rt.alloc(), &asked.log, made)
        }
        done => done,
    }
}

// Makes the page of a log, or its script with what stands behind its front, in memory.
fn made_of<R: AllocGlobal + Threads + Sync>(
    rt: &R,
    asked: &Request<'_, '_>,
) -> Result<Vec<u8>, Trouble> {
    let mut made = OverWrite::new(Vec::new(rt.alloc()));
    let done = match asked.name {
        "page" => put_page(rt, asked, &mut made),
        _ => salvage(rt, asked, &mut made),
    };
    match done {
        Ok(()) => Ok(made.into_inner()),
        // A write into memory fails for want of it alone.
        Err(Trouble::Log(Fault::WriteFailed)) => Err(Trouble::Log(Fault::Resources)),
        Err(trouble) => Err(trouble),
    }
}

// What of the files that are there gives way to what is asked for.
fn replaced_by(asked: &Request<'_, '_>) -> Replaces<'static> {
    if asked.words.get_flag("force") {
        return Replaces::NoLog;
    }
    match asked.name {
        "page" => Replaces::Beginning(BEGINNING.as_bytes()),
        _ => Replaces::Remark(REMARK.as_bytes()),
    }
}

// Why a file was not made.
fn not_made<R: AllocGlobal>(rt: &R, to: &str, error: io::Error) -> Failure {
    if error.kind() == ErrorKind::OutOfMemory {
        return Failure::Memory;
    }
    of_file(rt, to, FileTrouble::Stream(error))
}

/// Refuses what stands where the file is to be made, unless that gives way.
pub(crate) fn expect_place<R>(rt: &R, to: &str, rule: &Replaces<'_>) -> Result<(), Failure>
where
    R: Files + AllocGlobal,
{
    if to == "-" {
        return Ok(());
    }
    rule.expect_replaceable(rt, to)
        .map_err(|error| not_made(rt, to, error))
}

/// Writes what was made, in pieces, to the file of this name, or to standard output for `-`.
pub(crate) fn write_made<R>(
    rt: &R,
    to: &str,
    pieces: &[&[u8]],
    rule: &Replaces<'_>,
) -> Result<bool, Failure>
where
    R: Files + Print + AllocGlobal,
    R::File: AsFd,
{
    if to == "-" {
        for piece in pieces {
            rt.write_all(piece)?;
        }
        return Ok(true);
    }
    match rule.put_over(rt, to, pieces) {
        Ok(()) => Ok(true),
        Err(error) => Err(not_made(rt, to, error)),
    }
}

/// Makes the page of a log, or its salvage. The file is whole or as it was, and never a log. It takes
/// the place of an earlier one, of another file only if that is asked for.
pub(crate) fn make_file<R>(rt: &R, asked: &Request<'_, '_>, to: &str) -> Result<bool, Failure>
where
    R: Files + Print + AllocGlobal + Threads + Sync,
    R::File: AsFd,
{
    if is_over_log(rt, asked.file, to) {
        return Err(Failure::Same);
    }
    let rule = replaced_by(asked);
    expect_place(rt, to, &rule)?;
    match made_of(rt, asked) {
        Ok(made) => write_made(rt, to, &[&made], &rule),
        Err(trouble) => Err(of_file(rt, asked.file, FileTrouble::Refused(trouble))),
    }
}
