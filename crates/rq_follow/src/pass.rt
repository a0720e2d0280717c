//! A machine that goes along with the frames of a log, as their bytes come.

ghost use Rattle.std.specs.Prelude.{◌≡◌, ◌≤◌, ◌+◌, ◌-◌, ◌++◌, ℕ, List, length, drop, IfOk, IfErr, OnOk, All};
ghost use Rattle.rq_model.specs.Frames as frames;
ghost use Rattle.rq_model.specs.Frames.{HasHeader, log_limit};
ghost use Rattle.rq_model.specs.Fronts.{Ends};
ghost use Rattle.rq_record.specs.Views.{version_of};
ghost use Rattle.rq_record.specs.declared.fault.Fault.TheVariants.{Resources};
ghost use Rattle.rq_front.specs.Chains.{rest_of};
ghost use Rattle.rq_judged.specs.Views.{why_of};
ghost use Rattle.rq_judged.specs.Windows.{AreFramed, Origin, RefusesPiece};
ghost use Rattle.rq_follow.specs.Passes.{FindsWhy, HasDoneAll, HasDoneAllOfSome, HasComeBehind, HasComeBehindSome, IsMadeOf};
ghost use Rattle.rq_follow.specs.Passes.{IsRedoneOf, front_of, origin_at};

use rq_front::{HEADER_LEN, LOG_LIMIT, Rest, Span, chain};
use rq_judged::{Edge, Why, before};
use rq_record::{Fault, Version, decode_kept};
use rq_restart::RedoneFront;
use rq_standing::{Machine, Taken};
use std::alloc::Global;
use std::marker::Sync;
use std::thread::Threads;

// So much room is never given back.
const SPARE: usize = 1_048_576;

/// A machine that goes along with the frames of a log, and a window of the log: a header, the 32 bytes
/// before the next frame, and what came behind them.
#[derive(Drop)]
pub(crate) struct MachinePass {
    version: Version,
    machine: Machine,
    records: usize,
    /// How many bytes of the log came.
    pub(crate) total: usize,
    window: Vec<u8>,
    place: usize,
    why: Why,
}

/// The front of a log, and the machine that stands behind it.
#[derive(Drop)]
pub struct Standing {
    /// The version of the log.
    pub version: Version,
    /// The queues behind the front: open units stay open.
    pub machine: Machine,
    /// The front's last 32 bytes.
    pub last: [u8; 32],
    /// Where the front ends, and why.
    pub end: Edge,
}

/// What a machine makes of a body.
#[derive(Clone, Copy, Debug)]
pub(crate) enum Finding {
    Lawful,
    Unlawful,
    NoRecord,
}

// Why the front ends behind all frames that are whole, by what follows them.
fn why_behind(rest: Rest) -> Why
    ensures { why_of result ≡ Ends (rest_of rest) }
{
    match rest {
        Rest::Whole => Why::Whole,
        Rest::Cut => Why::Cut,
        Rest::Length => Why::Length,
        Rest::Digest => Why::Chain,
    }
}

// What the machine makes of a body; the record of a lawful one it does.
fn do_one(
    alloc: Global,
    version: Version,
    machine: &mut Machine,
    body: &[u8],
) -> Result<Finding, Fault>
    ensures verdict { IfOk result
        (IsMadeOf (version_of version) machine.old body.now machine.new) }
    ensures refused { IfErr result (λ e. e ≡ Resources) }
{
    match decode_kept(alloc, version, body) {
        Ok(record) => match machine.take(alloc, version, &record) {
            Ok(Taken::Done(_)) => Ok(Finding::Lawful),
            Ok(Taken::Unlawful(_)) => Ok(Finding::Unlawful),
            Err(fault) => Err(fault),
        },
        Err(Fault::Form) => Ok(Finding::NoRecord),
        Err(fault) => Err(fault),
    }
}

// Gives back the room that a long frame took, once it is many times what the window needs with so many
// bytes more.
fn make_smaller(window: &mut Vec<u8>, more: usize)
    ensures { window.new.items ≡ window.old.items }
{
    let needed = window.len().saturating_add(more);
    if window.capacity() > SPARE && window.capacity() / 4 > needed {
        window.shrink_to_fit();
    }
}

impl MachinePass {
    /// A pass that begins at a place of a window, in the state of a machine.
    pub(crate) fn new(
        version: Version,
        machine: Machine,
        window: Vec<u8>,
        place: usize,
    ) -> MachinePass
        requires header { HasHeader (version_of version) window.items }
        requires short { length window.items ≤ log_limit }
        requires after { 40 ≤ place }
        requires within { place ≤ length window.items }
        ensures { HasComeBehind (origin_at (version_of version) machine window.items place)
            (drop place window.items) result }
    {
        MachinePass {
            version,
            machine,
            records: 0,
            total: window.len(),
            window,
            place,
            why: Why::Whole,
        }
    }

    // Does the records of the frames at the place as far as they are lawful, and says why these end.
    // Behind all frames they end for the reason that is given.
    fn do_frames(&mut self, alloc: Global, spans: &[Span], behind: Why) -> Result<Why, Fault>
        requires passed { HasComeBehindSome self.old }
        requires inside { All (λ s. s.start + s.len ≤ length self.old.window.items) spans.now }
        requires frames { (end : ℕ) × (rest : frames.Rest)
            × AreFramed self.old.window.items self.old.place spans.now end rest
            × (why_of behind ≡ Ends rest) }
        ensures stops { IfOk result (λ why. (o : Origin) (x : List ℕ) → HasComeBehind o x self.old
            → FindsWhy o x self.new (why_of why)) }
        ensures refused { IfErr result (λ e. e ≡ Resources) }
    {
        rq_model::frames_are_right();
        for span in spans {
            let body = &self.window[span.start..span.start + span.len];
            match do_one(alloc, self.version, &mut self.machine, body)? {
                Finding::Lawful => {
                    self.records += 1;
                    self.place = span.start + span.len + 32;
                }
                Finding::Unlawful => return Ok(Why::Law),
                Finding::NoRecord => return Ok(Why::Form),
            }
        }
        Ok(behind)
    }

    // Lets go of the frames that were passed: behind the header stand the 32 bytes before the next frame
    // again.
    fn let_go(&mut self)
        requires { HasDoneAllOfSome self.old }
        ensures { (o : Origin) (x : List ℕ) → HasDoneAll o x self.old → HasDoneAll o x self.new }
    {
        if self.place <= HEADER_LEN + 32 {
            return;
        }
        self.window.drain(HEADER_LEN..self.place - 32);
        self.place = HEADER_LEN + 32;
    }

    /// Does the records of all frames that are whole, as far as they are lawful, and finds why these
    /// end.
    pub(crate) fn do_all<R: Threads + Sync>(
        &mut self,
        rt: &R,
        alloc: Global,
        grain: u32,
    ) -> Result<(), Fault>
        requires grain { 1 ≤ grain }
        requires passed { HasComeBehindSome self.old }
        ensures fed { OnOk result ((o : Origin) (x : List ℕ) → HasComeBehind o x self.old
            → HasDoneAll o x self.new) }
        ensures refused { IfErr result (λ e. e ≡ Resources) }
    {
        let found = chain(rt, alloc, &self.window, self.place, grain)?;
        self.why = self.do_frames(alloc, &found.spans, why_behind(found.rest))?;
        self.let_go();
        Ok(())
    }

    /// Goes along with further bytes of the log. Refused with `TooLong` and `Resources`.
    pub(crate) fn take<R: Threads + Sync>(
        &mut self,
        rt: &R,
        alloc: Global,
        more: &[u8],
        grain: u32,
    ) -> Result<(), Fault>
        requires grain { 1 ≤ grain }
        requires fed { HasDoneAllOfSome self.old }
        ensures taken { OnOk result ((o : Origin) (x : List ℕ) → HasDoneAll o x self.old
            → HasDoneAll o (x ++ more.now) self.new) }
        ensures refused { IfErr result (RefusesPiece (self.old.total + length more.now)) }
    {
        if more.len() > LOG_LIMIT.saturating_sub(self.total) {
            return Err(Fault::TooLong);
        }
        make_smaller(&mut self.window, more.len());
        self.window.extend_from_slice(more)?;
        self.total += more.len();
        self.do_all(rt, alloc, grain)
    }

    /// Where the front ends of what came, and why.
    pub(crate) fn end(&self) -> Edge
        requires { HasDoneAllOfSome self.now }
        ensures used { result.used
            ≡ self.now.total - (length self.now.window.items - self.now.place) }
        ensures records { result.records ≡ self.now.records }
        ensures why { result.why ≡ self.now.why }
    {
        Edge {
            used: self.total - (self.window.len() - self.place),
            records: self.records,
            why: self.why,
        }
    }

    /// The last 32 bytes of the front, and what follows it.
    pub(crate) fn left_over(&self) -> &[u8]
        requires { HasDoneAllOfSome self.now }
        ensures { result.now ≡ drop (self.now.place - 32) self.now.window.items }
    {
        &self.window[self.place - 32..]
    }

    /// The front of what came, and the state behind it; a copy. Refused with `Resources` alone.
    pub(crate) fn redone(&self, alloc: Global) -> Result<RedoneFront, Fault>
        requires fed { HasDoneAllOfSome self.now }
        ensures front { IfOk result (IsRedoneOf self.now) }
        ensures refused { IfErr result (λ e. e ≡ Resources) }
    {
        let state = self.machine.state(alloc)?;
        Ok(RedoneFront {
            version: self.version,
            state,
            last: before(&self.window, self.place),
            end: self.end(),
        })
    }

    /// The front of what came, and the machine.
    pub(crate) fn handed_over(self) -> Standing
        requires { HasDoneAllOfSome self }
        ensures { IsRedoneOf self (front_of result) }
    {
        Standing {
            version: self.version,
            last: before(&self.window, self.place),
            end: self.end(),
            machine: self.machine,
        }
    }
}
