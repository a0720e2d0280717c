//! A carried file is opened to write behind its front.

ghost use Rattle.std.specs.Prelude.{◌≡◌, ◌<◌, ◌^◌, ◌++◌, ℕ, List};
ghost use Rattle.std.specs.Int.{w64, to_be_bytes};
ghost use Rattle.rq_model.specs.Records as model;
ghost use Rattle.rq_model.specs.States.{State};
ghost use Rattle.rq_model.specs.Carrying.{IsCarriedFront, carried_at};
ghost use Rattle.rq_journal.specs.Openings.{OpensCarried};

use crate::growths::Growth;
use rq_bytes::Cursor;
use rq_front::CARRIED_AT;
use rq_judged::JudgedFront;
use rq_record::Fault;
use rq_restart::Plan;
use std::alloc::Global;
use std::marker::Sync;
use std::thread::Threads;

// The number that bytes begin with.
fn number_in(bytes: &[u8]) -> u64
    requires { (n : ℕ) × (more : List ℕ) × (n < 2 ^ 64) × (bytes.now ≡ to_be_bytes w64 n ++ more) }
    ensures { (n : ℕ) (more : List ℕ) → n < 2 ^ 64 → bytes.now ≡ to_be_bytes w64 n ++ more
        → result ≡ n }
{
    Cursor::new(bytes).u64().unwrap()
}

// How many records are numbered before the checkpoint that a carried file begins with: the spelling of
// its state tells that first, behind the length and the kind of the checkpoint.
fn numbered_before(bytes: &[u8]) -> u64
    requires { (version : model.Version) × (s : State) × (kept : List ℕ) × (after : List model.Record)
        × (rest : List ℕ) × IsCarriedFront bytes.now carried_at version s kept after rest }
    ensures { (version : model.Version) (s : State) (kept : List ℕ) (after : List model.Record)
        (rest : List ℕ) → IsCarriedFront bytes.now carried_at version s kept after rest
        → result ≡ s.next }
{
    number_in(bytes.split_at(CARRIED_AT + 5).1)
}

impl Growth {
    /// No records yet, behind the front of a carried file that was read as a log (`read_as_log`), from
    /// the checkpoint on that it begins with, which is taken at its word. No record is kept, and no queue
    /// is redone.
    ///
    /// Refuses with `NoCheckpoint` a log without a checkpoint at 72, with `BadCheckpoint` one whose
    /// checkpoint there spells no state, with `TooLong` more than 4,294,967,295 bytes, with `NotALog`
    /// bytes that begin with no version's header, and with `Resources` where memory is refused.
    pub fn behind_carried<R: Threads + Sync>(
        rt: &R,
        alloc: Global,
        bytes: &[u8],
        plan: &Plan,
    ) -> Result<Growth, Fault>
        ensures opens { OpensCarried bytes.now result }
    {
        let front = JudgedFront::judged_at(rt, alloc, bytes, CARRIED_AT as u64, plan)?;
        let next = numbered_before(bytes) + front.end.records as u64;
        Ok(Growth::numbered(alloc, front, next))
    }
}
