//! The last operation of a registrant, as a queue keeps it.

ghost use Rattle.std.specs.Prelude.{◌≡◌, None, IfOk, IfErr, OnOk, option_map};
ghost use Rattle.rq_model.specs.Machine as machine;
ghost use Rattle.rq_record.specs.declared.fault.Fault.TheVariants.{Resources};

use rq_record::Fault;
use rq_state::Last;
use std::alloc::Global;
use std::marker::Model;

/// The last operation of a registrant, if there is one, in 16 bytes and 40 elsewhere. A log may
/// bring in many registrants, and most of them may have none yet.
#[derive(Drop)]
pub(crate) struct KeptLast {
    last: Option<Box<Last>>,
}

impl Model for KeptLast {
    ghost use Rattle.std.specs.Prelude.{Option};
    ghost use Rattle.std.specs.Option.{option_map};
    ghost use Rattle.rq_model.specs.States as model;

    ghost Value = { Option model.Last };

    ghost view = { λ k. option_map (λ b. b.value) k.last };
}

impl KeptLast {
    /// No operation. Takes no memory.
    pub(crate) fn none() -> KeptLast
        ensures { result ≡ None }
    {
        KeptLast { last: None }
    }

    /// Keeps an operation that is lent. Refused with Resources.
    pub(crate) fn of(alloc: Global, last: Option<&Last>) -> Result<KeptLast, Fault>
        ensures kept { IfOk result (λ k. k ≡ option_map (λ l. l.now) last.entry) }
        ensures refused { IfErr result (λ e. e ≡ Resources) }
    {
        match last {
            None => Ok(KeptLast::none()),
            Some(last) => Ok(KeptLast {
                last: Some(Box::new(alloc, last.copied())?),
            }),
        }
    }

    /// The operation, lent.
    pub(crate) fn lent(&self) -> Option<&Last>
        ensures { option_map (λ l. l.now) result ≡ self.now }
    {
        match &self.last {
            None => None,
            Some(last) => Some(last),
        }
    }

    /// The operation itself.
    pub(crate) fn last(&self) -> Option<Last>
        ensures { result ≡ self.now }
    {
        match &self.last {
            None => None,
            Some(last) => Some(last.copied()),
        }
    }

    /// Hears of another operation: it becomes the last one, if its place is greater. Refused with
    /// Resources.
    pub(crate) fn hear(&mut self, alloc: Global, other: &Last) -> Result<(), Fault>
        ensures later { OnOk result (self.new ≡ machine.later self.old other.now) }
        ensures refused { IfErr result (λ e. e ≡ Resources) }
    {
        match &mut self.last {
            None => self.last = Some(Box::new(alloc, other.copied())?),
            Some(last) => last.hear(other),
        }
        Ok(())
    }
}
