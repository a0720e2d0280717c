//! The queues as they stand, and the frames of what was done to them.

ghost use Rattle.std.specs.Prelude.{◌≡◌, ◌≢◌, ◌<◌, ◌≤◌, ◌+◌, ◌-◌, ◌*◌, List, [], length, nat_le};
ghost use Rattle.std.specs.Prelude.{map, drop, IfOk, IfErr, OnOk};
ghost use Rattle.rq_model.specs.Records as model;
ghost use Rattle.rq_model.specs.Appending.{MayFollow, FitsCheckpoint};
ghost use Rattle.rq_model.specs.Frames.{IsBodyLength, log_limit};
ghost use Rattle.rq_model.specs.StateSpelling.{carried_next, state_bytes};
ghost use Rattle.rq_model.specs.Machine.{best};
ghost use Rattle.rq_record.specs.Views.{record_of, version_of};
ghost use Rattle.rq_record.specs.declared.fault.Fault.TheVariants.{Resources};
ghost use Rattle.rq_state.specs.Views.{unit_of};
ghost use Rattle.rq_live.specs.Starts.{Start, Plain, AreBegun, rules_of, base_of, file_of};
ghost use Rattle.rq_live.specs.Starts.{state_reached, last_behind};
ghost use Rattle.rq_live.specs.Kernels.{IsKernelBehind, IsBodyOf, KernelTakes, KernelStops};
ghost use Rattle.rq_live.specs.Kernels.{KernelAborts, KernelMarks, KernelStopsMark, KernelTakesEach};
ghost use Rattle.rq_live.specs.Kernels.{FramesBody, open_behind};

use rq_front::{FRAME_LEN, HEADER_LEN, LOG_LIMIT, append_frame, header_of};
use rq_lawful::Rule;
use rq_record::{CheckBytes, ElemId, Fault, KeptRecord, QueueNo, Record, UnitNo, Version, encode};
use rq_standing::{Machine, Taken};
use rq_state::{KeptElement, State};
use std::alloc::Global;

/// The bytes of the frame of a COMMIT or an ABORT.
const END_LEN: usize = 45;

/// Why an operation was not done.
#[derive(Clone, Copy, PartialEq, Eq, Debug)]
pub enum NotDone {
    /// It is not lawful: it breaks this rule. Nothing was done or written.
    Unlawful(Rule),
    /// With it, and with the end of each unit that would be open then, the log would have more than
    /// 4,294,967,295 bytes. Nothing was done or written.
    Full,
    /// The spelling of the state has more than the 268,435,455 bytes that a checkpoint holds.
    /// Nothing was done or written.
    Large,
    /// The numbers are at their end: of the units, if one was to begin; of the records, if a
    /// checkpoint was to be taken. Nothing was done or written.
    Ended,
    /// Memory was refused, or a write or a sync failed, now or earlier. Open the log anew.
    Spent,
}

/// The queues as they stand, and the frames of the records that were done since some were given
/// out.
#[derive(Drop)]
pub struct Kernel {
    pub(crate) version: Version,
    pub(crate) machine: Machine,
    // The last 32 bytes of the log, and how many it has.
    pub(crate) last: [u8; 32],
    pub(crate) len: usize,
    pub(crate) body: Vec<u8>,
    pub(crate) pending: Vec<u8>,
}

// How many units of so many are open behind the record.
fn open_behind(count: usize, kept: &KeptRecord) -> usize
    requires { count < 18446744073709551615 }
    ensures { result ≡ open_behind count (record_of kept.now) }
{
    match kept {
        KeptRecord::Begin { .. } => count + 1,
        KeptRecord::Commit { .. } | KeptRecord::Abort { .. } => count.saturating_sub(1),
        _ => count,
    }
}

// The last 32 of the bytes.
fn last_bytes(bytes: &[u8]) -> [u8; 32]
    requires { 32 ≤ length bytes.now }
    ensures { result ≡ drop (length bytes.now - 32) bytes.now }
{
    let mut last = [0u8; 32];
    last.copy_from_slice(&bytes[bytes.len() - 32..]);
    last
}

impl Kernel {
    /// No queues yet, by the rules of the version. The header of the log is pending.
    pub(crate) fn new(alloc: Global, version: Version) -> Result<Kernel, Fault>
        ensures stands { IfOk result (IsKernelBehind (Plain (version_of version)) [] []) }
        ensures few { IfOk result (λ kernel. length kernel.pending.items ≤ 40) }
        ensures refused { IfErr result (λ e. e ≡ Resources) }
    {
        rq_model::frames_join();
        let mut pending = Vec::new(alloc);
        header_of(version, &mut pending)?;
        Ok(Kernel {
            version,
            machine: Machine::empty(alloc),
            last: last_bytes(&pending),
            len: HEADER_LEN,
            body: Vec::new(alloc),
            pending,
        })
    }

    /// Stands where this machine stands, behind so many bytes, whose last 32 are these. No frame is
    /// pending.
    pub fn standing(
        alloc: Global,
        version: Version,
        machine: Machine,
        last: [u8; 32],
        len: usize,
    ) -> Kernel
        ensures stands { (from : Start) (rs : List model.Record) → version_of version ≡ rules_of from
            → AreBegun from rs → MayFollow (rules_of from) (base_of from) rs
            → length (file_of from rs) ≤ log_limit → machine ≡ state_reached from rs
            → last ≡ last_behind from rs → len ≡ length (file_of from rs)
            → IsKernelBehind from rs (file_of from rs) result }
        ensures len { result.len ≡ len }
        ensures none { result.pending.items ≡ [] }
    {
        Kernel {
            version,
            machine,
            last,
            len,
            body: Vec::new(alloc),
            pending: Vec::new(alloc),
        }
    }

    /// How many units are open.
    pub fn open_count(&self) -> usize
        ensures { result ≡ length self.now.machine.units }
    {
        self.machine.open_count()
    }

    /// The element that the next DEQUEUE takes from a queue, if one is free; a copy.
    pub(crate) fn first(&self, queue: QueueNo) -> Result<Option<KeptElement>, NotDone>
        ensures { IfOk result (λ e. e ≡ best queue.0 self.now.machine.elements) }
    {
        let Some(e) = self.machine.first(queue) else {
            return Ok(None);
        };
        match e.copied() {
            Ok(e) => Ok(Some(e)),
            Err(_) => Err(NotDone::Spent),
        }
    }

    /// Whether the log has room for the end of each unit that is open.
    pub fn has_room_for_ends(&self) -> bool
        ensures { result
            ≡ nat_le (self.now.len + 45 * length self.now.machine.units) log_limit }
    {
        let count = self.machine.open_count();
        if count > LOG_LIMIT {
            return false;
        }
        let len = self.len;
        len <= LOG_LIMIT && END_LEN * count <= LOG_LIMIT - len
    }

    // Whether the log has room for the record whose body was spelled, and for the end of each unit
    // that is open behind it.
    #[tactic(auto, using(crate::proofs::Taking::open_many))]
    fn has_room(&self, kept: &KeptRecord) -> bool
        requires { IsBodyLength (length self.now.body.items) }
        ensures { result ≡ nat_le (self.now.len + (36 + length self.now.body.items)
            + 45 * open_behind (length self.now.machine.units) (record_of kept.now)) log_limit }
    {
        let count = self.machine.open_count();
        if count > LOG_LIMIT {
            return false;
        }
        let ends = END_LEN * open_behind(count, kept);
        FRAME_LEN + self.body.len() + ends <= LOG_LIMIT.saturating_sub(self.len)
    }

    // Adds the frame of the body that was spelled to those that are pending.
    fn put_frame(&mut self) -> Result<(), Fault>
        requires body { IsBodyLength (length self.old.body.items) }
        requires room { self.old.len + (36 + length self.old.body.items) ≤ log_limit }
        ensures framed { OnOk result (FramesBody self.old self.new self.old.body.items) }
        ensures rules { self.new.version ≡ self.old.version }
        ensures machine { self.new.machine ≡ self.old.machine }
    {
        self.last = append_frame(&self.last, &self.body, &mut self.pending)?;
        self.len += FRAME_LEN + self.body.len();
        Ok(())
    }

    // Why the record is not taken for which there is no room: that it is not lawful is told first,
    // so a COMMIT or an ABORT is never refused for want of room.
    fn without_room(&self, kept: &KeptRecord) -> NotDone
        requires long { log_limit < self.now.len + (36 + length self.now.body.items)
            + 45 * open_behind (length self.now.machine.units) (record_of kept.now) }
        requires body { IsBodyOf (record_of kept.now) self.now.body.items }
        ensures { KernelStops self.now self.now (record_of kept.now) result }
    {
        match self.machine.broken(self.version, kept) {
            Some(rule) => NotDone::Unlawful(rule),
            None => NotDone::Full,
        }
    }

    /// Does a record, if it is lawful and the log has room for it, and adds its frame to those that
    /// are pending. The id of the element that it takes, if it takes one. Refused with `Unlawful`
    /// and `Full` it stands where it stood; with `Spent` nothing is known of it from then on.
    pub(crate) fn take(&mut self, alloc: Global, next: &Record) -> Result<Option<ElemId>, NotDone>
        ensures taken { IfOk result (KernelTakes self.old self.new (record_of next.now)) }
        ensures refused { IfErr result (KernelStops self.old self.new (record_of next.now)) }
        ensures few { IfErr result
            (λ why. why ≢ NotDone.Spent → self.new.pending ≡ self.old.pending) }
    {
        rq_model::one_spelling();
        self.body.clear();
        let Ok(()) = encode(next, &mut self.body) else {
            return Err(NotDone::Spent);
        };
        let Ok(kept) = KeptRecord::of(alloc, next) else {
            return Err(NotDone::Spent);
        };
        self.done(alloc, &kept)
    }

    // The same for a record whose body was spelled.
    fn done(&mut self, alloc: Global, kept: &KeptRecord) -> Result<Option<ElemId>, NotDone>
        requires { IsBodyOf (record_of kept.now) self.old.body.items }
        ensures taken { IfOk result (KernelTakes self.old self.new (record_of kept.now)) }
        ensures refused { IfErr result (KernelStops self.old self.new (record_of kept.now)) }
        ensures few { IfErr result
            (λ why. why ≢ NotDone.Spent → self.new.pending ≡ self.old.pending) }
    {
        if !self.has_room(kept) {
            return Err(self.without_room(kept));
        }
        match self.machine.take(alloc, self.version, kept) {
            Ok(Taken::Done(element)) => match self.put_frame() {
                Ok(()) => Ok(element),
                Err(_) => Err(NotDone::Spent),
            },
            Ok(Taken::Unlawful(rule)) => Err(NotDone::Unlawful(rule)),
            Err(_) => Err(NotDone::Spent),
        }
    }

    /// The bytes that spell the state.
    pub(crate) fn state_spelled(&self, alloc: Global) -> Result<CheckBytes, NotDone>
        ensures spelled { IfOk result (λ bytes. bytes ≡ state_bytes self.now.machine) }
        ensures fits { OnOk result (FitsCheckpoint self.now.machine) }
        ensures few { OnOk result (self.now.machine.next ≤ carried_next) }
        ensures refused { IfErr result (KernelStopsMark self.now self.now) }
    {
        if self.machine.next() > State::CARRIED_RECORDS {
            return Err(NotDone::Ended);
        }
        let bytes = match self.machine.spell(alloc) {
            Ok(bytes) => bytes,
            Err(Fault::TooLarge) => return Err(NotDone::Large),
            Err(_) => return Err(NotDone::Spent),
        };
        CheckBytes::new(bytes).ok_or(NotDone::Large)
    }

    /// Adds the frame of a checkpoint of the state. Refused with `Full`, `Large` and `Ended` it
    /// stands where it stood; with `Spent` nothing is known of it from then on.
    pub(crate) fn mark(&mut self, alloc: Global) -> Result<(), NotDone>
        ensures marked { OnOk result (KernelMarks self.old self.new) }
        ensures refused { IfErr result (KernelStopsMark self.old self.new) }
        ensures few { IfErr result
            (λ why. why ≢ NotDone.Spent → self.new.pending ≡ self.old.pending) }
    {
        let bytes = self.state_spelled(alloc)?;
        match self.take(alloc, &Record::Checkpoint { bytes }) {
            Ok(_) => Ok(()),
            Err(why) => Err(why),
        }
    }

    // Aborts these units, in turn.
    fn abort_each(&mut self, alloc: Global, units: &[UnitNo]) -> Result<(), NotDone>
        ensures { OnOk result (KernelTakesEach self.old self.new
            (map model.Abort (map unit_of units.now))) }
    {
        for unit in units {
            let Ok(_) = self.take(alloc, &Record::Abort { unit: *unit }) else {
                return Err(NotDone::Spent);
            };
        }
        Ok(())
    }

    /// Aborts all units that are open, rising. If it is refused, nothing is known of it from then on.
    pub(crate) fn abort_open(&mut self, alloc: Global) -> Result<(), NotDone>
        ensures { OnOk result (KernelAborts self.old self.new) }
    {
        match self.machine.open_units(alloc) {
            Ok(units) => self.abort_each(alloc, &units),
            Err(_) => Err(NotDone::Spent),
        }
    }
}
