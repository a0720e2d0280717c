//! What takes records behind the front of a log, and gives their frames.

ghost use Rattle.std.specs.Prelude.{◌≡◌, ◌<◌, List, OnOk, IfOk, IfErr};
ghost use Rattle.rq_model.specs.Records as model;
ghost use Rattle.rq_model.specs.StateSpelling.{carried_next};
ghost use Rattle.rq_record.specs.Views.{record_of, version_of};
ghost use Rattle.rq_front.specs.Framers.{Place};
ghost use Rattle.rq_journal.specs.Appenders.{IsAppenderAt, IsSpelled, IsJudgedAs};
ghost use Rattle.rq_journal.specs.Appenders.{Refuses, KeepsPlace, AppendsOne};

use rq_catalog::Judge;
use rq_front::{FRAME_LEN, Framer};
use rq_lawful::Rule;
use rq_record::{
    CheckBytes, Fault, KeptBy, KeptPayload, KeptRecord, Payload, Record, Version, encode,
};
use rq_state::State;
use std::alloc::Global;

/// Why a record is not taken.
#[derive(Clone, Copy, PartialEq, Eq, Debug)]
pub enum NotTaken {
    /// So many records are numbered, over all files of the log, that no state behind one more can be
    /// spelled: 9,223,372,036,854,775,807. This is told first, of any record.
    Ended,
    /// It is not lawful behind the records before it: it breaks this rule.
    Unlawful(Rule),
    /// With it the log would have more than 4,294,967,295 bytes. This is told before `Unlawful`, of a
    /// record that is unlawful as well.
    Full,
    /// The host refused memory.
    Resources,
}

/// Stands where the front of a log ends, takes records one by one, and gives their frames. It keeps
/// of the log what lawfulness looks at, its last 32 bytes, its length, and the number of the next
/// record: so it does not grow with the records.
#[derive(Drop)]
pub(crate) struct Appender {
    pub(crate) judge: Judge,
    pub(crate) framer: Framer,
    /// The number of the next record, over all files of the log.
    pub(crate) next: u64,
}

// The record as a judge looks at it: its payload, or the bytes of a checkpoint, are not copied.
fn judged(alloc: Global, r: &Record) -> Result<KeptRecord, Fault>
    ensures { IfOk result (λ k. IsJudgedAs (record_of k) (record_of r.now)) }
{
    match r {
        Record::Enqueue {
            unit,
            queue,
            by,
            priority,
            ..
        } => {
            let nothing = Payload::new(Vec::new(alloc)).unwrap();
            Ok(KeptRecord::Enqueue {
                unit: *unit,
                queue: *queue,
                by: KeptBy::of(alloc, by)?,
                priority: *priority,
                payload: KeptPayload::of(alloc, &nothing)?,
            })
        }
        Record::Checkpoint { .. } => Ok(KeptRecord::Checkpoint {
            bytes: CheckBytes::new(Vec::new(alloc)).unwrap(),
        }),
        _ => KeptRecord::of(alloc, r),
    }
}

impl Appender {
    /// The version by whose rules it takes records.
    pub(crate) fn version(&self) -> Version
        ensures { (at : Place) (rs : List model.Record) → IsAppenderAt at rs self.now
            → version_of result ≡ at.version }
    {
        self.judge.version()
    }

    /// Takes the next record, and appends its frame to `out`.
    ///
    /// If it is not taken, nothing is appended, and the appender stands where it stood.
    pub(crate) fn append(
        &mut self,
        alloc: Global,
        next: &Record,
        out: &mut Vec<u8>,
    ) -> Result<(), NotTaken>
        ensures taken { OnOk result
            (AppendsOne self.old self.new (record_of next.now) out.old.items out.new.items) }
        ensures number { OnOk result (self.old.next < carried_next) }
        ensures refused { IfErr result (Refuses self.old (record_of next.now)) }
        ensures stays { IfErr result (λ why. KeepsPlace self.old self.new) }
        ensures nothing { IfErr result (λ why. out.new.items ≡ out.old.items) }
    {
        rq_model::one_spelling();
        let mut body = Vec::new(alloc);
        let Ok(()) = encode(next, &mut body) else {
            return Err(NotTaken::Resources);
        };
        self.append_spelled(alloc, next, &body, out)
    }

    // The same for a record whose body this is. It is judged first; what may be refused memory comes
    // next, and its frame last.
    fn append_spelled(
        &mut self,
        alloc: Global,
        next: &Record,
        body: &[u8],
        out: &mut Vec<u8>,
    ) -> Result<(), NotTaken>
        requires { IsSpelled (record_of next.now) body.now }
        ensures taken { OnOk result
            (AppendsOne self.old self.new (record_of next.now) out.old.items out.new.items) }
        ensures number { OnOk result (self.old.next < carried_next) }
        ensures refused { IfErr result (Refuses self.old (record_of next.now)) }
        ensures stays { IfErr result (λ why. KeepsPlace self.old self.new) }
        ensures nothing { IfErr result (λ why. out.new.items ≡ out.old.items) }
    {
        if self.next >= State::CARRIED_RECORDS {
            return Err(NotTaken::Ended);
        }
        if !self.framer.has_room(body.len()) {
            return Err(NotTaken::Full);
        }
        let Ok(next) = judged(alloc, next) else {
            return Err(NotTaken::Resources);
        };
        if let Some(rule) = self.judge.broken(&next) {
            return Err(NotTaken::Unlawful(rule));
        }
        let Ok(()) = out.reserve(FRAME_LEN + body.len()) else {
            return Err(NotTaken::Resources);
        };
        let Ok(()) = self.judge.advance(&next) else {
            return Err(NotTaken::Resources);
        };
        self.framer.put(body, out).unwrap();
        self.next += 1;
        Ok(())
    }
}
