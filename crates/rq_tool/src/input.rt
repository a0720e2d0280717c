//! Reading a log, and a script.

ghost use Rattle.std.specs.Prelude.{[], ◌≡◌, ℕ, ◌+◌, ◌<◌, ◌≤◌, ◌++◌, List, Option};
ghost use Rattle.std.specs.Prelude.{length, IfOk, IfErr, OnOk};
ghost use Rattle.std.specs.Io.KnownBytes.{Consumes, IsAtEnd};
ghost use Rattle.rq_model.specs.Frames.{AreBytes};
ghost use Rattle.rq_front.specs.Chains.{IsHeaded, Refused};
ghost use Rattle.rq_record.specs.declared.fault.Fault.TheVariants.{ReadFailed, Resources, TooLong};
ghost use Rattle.rq_tool.specs.Streams.{CountsTaken, IsGiven, IsOneOf, IsOverlong, IsUnread};
ghost use Rattle.rq_tool.specs.Streams.{ReadFaults, ReadsFile, ReadsOn, TakesInput, TakesSome};

use rq_front::{HEADER_LEN, LOG_LIMIT, version};
use rq_report::Input;
use rq_restart::Fault;
use std::alloc::Global;

// One byte more than a log has at most: so many are read to know that they are too many.
const READ_LIMIT: usize = LOG_LIMIT + 1;

// Room for one read.
fn room(alloc: Global) -> Result<Vec<u8>, Fault>
    ensures len { IfOk result (λ piece. length piece.items ≡ 65536) }
    ensures refused { IfErr result (λ e. e ≡ Resources) }
{
    Ok(vec![in alloc; 0u8; 65_536]?)
}

// Nothing, with room for as many bytes as are ever read, where the system gives it: it takes pages
// as they are filled, and nothing is moved. Where it does not, the room grows as the bytes come. So
// much room may be all that a limit of addresses leaves (`ulimit -v`): `read_up_to` gives it back.
fn roomy(alloc: Global) -> Vec<u8>
    ensures items { result.items ≡ [] }
{
    match Vec::with_capacity(alloc, READ_LIMIT) {
        Ok(bytes) => bytes,
        Err(_) => Vec::new(alloc),
    }
}

/// The members of a slice of bytes are bytes of 8 bits.
pub(crate) fn are_bytes(bytes: &[u8])
    ensures { AreBytes bytes.now }
{
    let _ = bytes;
}

// One read, put behind the bytes, of no more than makes them `most`.
fn read_more<I: Input>(
    input: &mut I,
    piece: &mut [u8],
    bytes: &mut Vec<u8>,
    most: usize,
) -> Result<usize, Fault>
    requires faults { I.faults input.old < 18446744073709551615 }
    requires piece { 0 < length piece.old }
    requires room { length bytes.old.items < most }
    ensures bytes { IfOk result (λ n. (more : List ℕ) × (bytes.new.items ≡ bytes.old.items ++ more)
        × (length more ≡ n) × Consumes (I.remaining input.old) (I.remaining input.new) more) }
    ensures limit { OnOk result (length bytes.new.items ≤ most) }
    ensures end { IfOk result (λ n. n ≡ 0 → IsAtEnd (I.remaining input.new)) }
    ensures refused { IfErr result (IsOneOf ReadFailed Resources) }
    ensures partly { IfErr result (λ _. TakesSome (I.remaining input.old) (I.remaining input.new)) }
    ensures count { ReadFaults (I.faults input.old) (I.faults input.new) result }
{
    let want = piece.len().min(most - bytes.len());
    let count = input.read(&mut piece[..want])?;
    bytes.extend_from_slice(&piece[..count])?;
    Ok(count)
}

// Reads on until there are `most` bytes, or the input has no more: then room that is not filled is
// given back.
fn read_up_to<I: Input>(
    input: &mut I,
    piece: &mut [u8],
    bytes: &mut Vec<u8>,
    most: usize,
) -> Result<(), Fault>
    requires faults { I.faults input.old < 18446744073709551615 }
    requires piece { 0 < length piece.old }
    requires room { length bytes.old.items ≤ most }
    ensures bytes { OnOk result
        (ReadsOn (I.remaining input.old) bytes.old.items (I.remaining input.new) bytes.new.items) }
    ensures limit { OnOk result (length bytes.new.items ≤ most) }
    ensures end { OnOk result (length bytes.new.items < most → IsAtEnd (I.remaining input.new)) }
    ensures refused { IfErr result (IsOneOf ReadFailed Resources) }
    ensures partly { IfErr result (λ _. TakesSome (I.remaining input.old) (I.remaining input.new)) }
    ensures count { ReadFaults (I.faults input.old) (I.faults input.new) result }
{
    while bytes.len() < most {
        let count = read_more(input, piece, bytes, most)?;
        if count == 0 {
            bytes.shrink_to_fit();
            return Ok(());
        }
    }
    Ok(())
}

// The bytes that were read, unless they are more than a log has.
fn within(bytes: Vec<u8>) -> Result<Vec<u8>, Fault>
    ensures fits { IfOk result
        (λ same. (same.items ≡ bytes.items) × (length bytes.items ≤ 4294967295)) }
    ensures long { IfErr result (λ e. (e ≡ TooLong) × (4294967295 < length bytes.items)) }
{
    if bytes.len() > LOG_LIMIT {
        return Err(Fault::TooLong);
    }
    Ok(bytes)
}

/// The bytes of a script, which are no more than a log has. At most 4,294,967,296 of them are read.
pub(crate) fn read_script<I: Input>(alloc: Global, input: &mut I) -> Result<Vec<u8>, Fault>
    requires { I.faults input.old < 18446744073709551615 }
    ensures reads { (b : List ℕ) × IsGiven (I.remaining input.old) b
        × ReadsFile IsOverlong b result }
    ensures takes { TakesInput (I.remaining input.old) (I.remaining input.new) result }
    ensures count { ReadFaults (I.faults input.old) (I.faults input.new) result }
{
    let mut bytes = roomy(alloc);
    let mut piece = room(alloc)?;
    read_up_to(input, &mut piece, &mut bytes, READ_LIMIT)?;
    within(bytes)
}

// How many bytes an input has of which so many were read, but at most 4,294,967,296. None is kept.
fn counted<I: Input>(input: &mut I, piece: &mut [u8], read: usize) -> Result<usize, Fault>
    requires faults { I.faults input.old < 18446744073709551615 }
    requires piece { 0 < length piece.old }
    requires room { read ≤ 4294967296 }
    ensures count { IfOk result (CountsTaken (I.remaining input.old) (I.remaining input.new) read) }
    ensures limit { IfOk result (λ n. n ≤ 4294967296) }
    ensures end { IfOk result (λ n. n < 4294967296 → IsAtEnd (I.remaining input.new)) }
    ensures refused { IfErr result (λ e. e ≡ ReadFailed) }
    ensures partly { IfErr result (λ _. TakesSome (I.remaining input.old) (I.remaining input.new)) }
    ensures faults { ReadFaults (I.faults input.old) (I.faults input.new) result }
{
    let mut total = read;
    while total < READ_LIMIT {
        let want = piece.len().min(READ_LIMIT - total);
        let more = input.read(&mut piece[..want])?;
        if more == 0 {
            return Ok(total);
        }
        total += more;
    }
    Ok(total)
}

// Why an input is refused whose first bytes, 40 where it has so many, are no header. What else it
// has is counted.
fn refused<I: Input>(input: &mut I, piece: &mut [u8], first: &[u8]) -> Fault
    requires faults { I.faults input.old < 18446744073709551615 }
    requires piece { 0 < length piece.old }
    requires first { length first.now ≤ 40 }
    requires end { length first.now < 40 → IsAtEnd (I.remaining input.old) }
    requires none { IsHeaded first.now → ⊥ }
    ensures told { (origin : Option (List ℕ)) → Consumes origin (I.remaining input.old) first.now
        → IsUnread origin (I.remaining input.new) result }
    ensures count { ReadFaults {A = Unit {0}}
        (I.faults input.old) (I.faults input.new) (Err result) }
{
    if first.len() < HEADER_LEN {
        return Fault::NotALog;
    }
    match counted(input, piece, first.len()) {
        Ok(total) if total > LOG_LIMIT => Fault::TooLong,
        Ok(_) => Fault::NotALog,
        Err(fault) => fault,
    }
}

/// The bytes of a log, which are no more than one has. At most 4,294,967,296 of them are read. What
/// does not begin as a log does is refused without being kept.
pub(crate) fn read_log<I: Input>(alloc: Global, input: &mut I) -> Result<Vec<u8>, Fault>
    requires { I.faults input.old < 18446744073709551615 }
    ensures reads { (b : List ℕ) × IsGiven (I.remaining input.old) b × ReadsFile Refused b result }
    ensures takes { TakesInput (I.remaining input.old) (I.remaining input.new) result }
    ensures count { ReadFaults (I.faults input.old) (I.faults input.new) result }
{
    let mut bytes = roomy(alloc);
    let mut piece = room(alloc)?;
    read_up_to(input, &mut piece, &mut bytes, HEADER_LEN)?;
    let Some(_version) = version(&bytes) else {
        return Err(refused(input, &mut piece, &bytes));
    };
    read_up_to(input, &mut piece, &mut bytes, READ_LIMIT)?;
    within(bytes)
}
