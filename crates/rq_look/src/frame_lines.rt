//! The line of a frame in a dump, if it is wanted.

ghost use Rattle.std.specs.Prelude.{◌≡◌, ◌<◌, ◌++◌, ℕ, List, IfErr, IfOk, OnOk, string_bytes};
ghost use Rattle.rq_record.specs.Views.{version_of};
ghost use Rattle.rq_record.specs.declared.fault.Fault.TheVariants.{Resources};
ghost use Rattle.rq_found.specs.Refusals.{CountsFaults, IsBroken};
ghost use Rattle.rq_look.specs.Dumps.{IsFormless, IsFormlessIf, IsFrameLine, IsLineIf, IsLineOf};
ghost use Rattle.rq_look.specs.Dumps.{formless_line};
ghost use Rattle.rq_look.specs.Entries.{fits, fits_none, shown_entry};
ghost use Rattle.rq_look.specs.Looks.{Gathers};

use crate::dump_objects::{put_record_object, put_unspelled};
use crate::lines::put_record;
use crate::sheet::relieve;
use crate::shown_records::{ShownFrame, ShownRecord};
use crate::wanted::Wanted;
use rq_found::{Output, Put, Trouble, form_reason};
use rq_record::Fault;
use std::alloc::{AllocError, Global};
use std::fmt::Write;

// Puts a record in the form that is wanted.
fn put_shown(alloc: Global, text: &mut String, it: &ShownRecord<'_>, wanted: &Wanted<'_>) -> Put
    ensures { OnOk result ((line : List ℕ)
        × IsLineOf wanted.now.json wanted.now.full (shown_entry it.now) line
        × (string_bytes text.new ≡ string_bytes text.old ++ line)) }
{
    if wanted.json {
        return put_record_object(alloc, text, it);
    }
    put_record(alloc, text, it, wanted.full)?;
    text.push_str("\n")
}

// Puts the line of a record, if it is all that is asked for. Answers whether it is.
fn put_if_wanted(
    alloc: Global,
    text: &mut String,
    it: &ShownRecord<'_>,
    wanted: &Wanted<'_>,
) -> Result<bool, AllocError>
    ensures asked { IfOk result (λ is. is ≡ fits wanted.now (shown_entry it.now)) }
    ensures line { IfOk result (λ is. (line : List ℕ)
        × IsLineIf is wanted.now (shown_entry it.now) line
        × (string_bytes text.new ≡ string_bytes text.old ++ line)) }
{
    let is_wanted = wanted.wants(it);
    if !is_wanted {
        return Ok(false);
    }
    put_shown(alloc, text, it, wanted)?;
    Ok(true)
}

// Puts the line of a frame whose body spells no record, and why.
fn put_reason(text: &mut String, offset: u64, reason: &str) -> Put
    ensures { OnOk result
        (string_bytes text.new ≡ string_bytes text.old ++ formless_line offset reason.now) }
{
    write!(text, "{offset} behind no record: {reason}\n")
}

// Puts such a frame in the form that is wanted.
fn put_formless(alloc: Global, text: &mut String, it: &ShownFrame<'_>, wanted: &Wanted<'_>) -> Put
    ensures { OnOk result ((line : List ℕ) × IsFormless wanted.now.json it.now.offset line
        × (string_bytes text.new ≡ string_bytes text.old ++ line)) }
{
    let reason = form_reason(alloc, it.version, it.body)?;
    let word = reason.as_str();
    if wanted.json {
        return put_unspelled(alloc, text, it.offset, word);
    }
    put_reason(text, it.offset, word)
}

// Puts the line of such a frame, if it is wanted. Answers whether it is.
fn put_formless_if_wanted(
    alloc: Global,
    text: &mut String,
    it: &ShownFrame<'_>,
    wanted: &Wanted<'_>,
) -> Result<bool, AllocError>
    ensures asked { IfOk result (λ is. is ≡ fits_none wanted.now) }
    ensures line { IfOk result (λ is. (line : List ℕ)
        × IsFormlessIf is wanted.now it.now.offset line
        × (string_bytes text.new ≡ string_bytes text.old ++ line)) }
{
    let is_wanted = wanted.wants_no_record();
    if !is_wanted {
        return Ok(false);
    }
    put_formless(alloc, text, it, wanted)?;
    Ok(true)
}

// Puts the line of a frame, if it is wanted. Answers whether it is.
fn put_frame(
    alloc: Global,
    text: &mut String,
    it: &ShownFrame<'_>,
    wanted: &Wanted<'_>,
) -> Result<bool, Fault>
    ensures line { IfOk result (λ is. (line : List ℕ) × IsFrameLine wanted.now
        (version_of it.now.version) it.now.offset it.now.place it.now.body.now is line
        × (string_bytes text.new ≡ string_bytes text.old ++ line)) }
    ensures refused { IfErr result (λ e. e ≡ Resources) }
{
    let is_early = it.offset < wanted.from;
    if is_early {
        return Ok(false);
    }
    let found = it.record(alloc)?;
    match &found {
        Some(r) => Ok(put_if_wanted(alloc, text, &it.shown(r), wanted)?),
        None => Ok(put_formless_if_wanted(alloc, text, it, wanted)?),
    }
}

/// Puts the line of a frame on its way to the output, if it is wanted. Answers whether it is.
pub(crate) fn put_entry<W: Output>(
    alloc: Global,
    wanted: &Wanted<'_>,
    it: &ShownFrame<'_>,
    text: &mut String,
    output: &mut W,
) -> Result<bool, Trouble>
    requires faults { W.faults output.old < 18446744073709551615 }
    ensures line { IfOk result (λ is. (line : List ℕ) × IsFrameLine wanted.now
        (version_of it.now.version) it.now.offset it.now.place it.now.body.now is line
        × Gathers line (string_bytes text.old) (W.contents output.old)
        (string_bytes text.new) (W.contents output.new)) }
    ensures refused { IfErr result IsBroken }
    ensures faults { CountsFaults (W.faults output.old) (W.faults output.new) result }
{
    let is_wanted = put_frame(alloc, text, it, wanted)?;
    relieve(text, output)?;
    Ok(is_wanted)
}
