//! A registrant, as a state keeps it.

ghost use Rattle.std.specs.Prelude.{◌≡◌, IfOk, IfErr, option_map};
ghost use Rattle.rq_model.specs.States as model;
ghost use Rattle.rq_record.specs.declared.fault.Fault.TheVariants.{Resources};

use crate::members::{Last, Registrant};
use rq_record::{Fault, KeptName, Name, QueueNo};
use std::alloc::Global;
use std::marker::Model;

// Most registrants did nothing yet, or nothing that was committed.
#[derive(Drop)]
enum RegistrantForm {
    Bare { queue: QueueNo, name: KeptName },
    Full(Box<Operated>),
}

// A registrant with a last operation.
#[derive(Drop)]
struct Operated {
    queue: QueueNo,
    name: KeptName,
    last: Last,
}

/// A registrant in 24 bytes, as a state keeps it; a `Registrant` takes 120. A name of at most 14
/// bytes takes no memory of its own, a last operation takes 64. It says what a `Registrant` says.
#[derive(Drop)]
pub struct KeptRegistrant {
    form: RegistrantForm,
}

// A state holds all registrants at once.
const _: () = prove!(std::mem::size_of::<KeptRegistrant>() <= 24);

impl Model for KeptRegistrant {
    ghost use Rattle.rq_model.specs.States as model;
    ghost use Rattle.rq_state.specs.KeptRegistrants.{registrant_in};

    ghost Value = { model.Registrant };

    ghost view = { λ r. registrant_in r.form };
}

// The operation again, if there is one.
fn last_again(last: &Option<Last>) -> Option<Last>
    ensures { result ≡ last.now }
{
    match last {
        Some(last) => Some(last.copied()),
        None => None,
    }
}

impl KeptRegistrant {
    /// A registrant of the queue with this name and this last operation, if there is one.
    /// `Resources` if memory runs out; without an operation none is asked for.
    pub fn new(
        alloc: Global,
        queue: QueueNo,
        name: KeptName,
        last: Option<Last>,
    ) -> Result<KeptRegistrant, Fault>
        ensures made { IfOk result
            (λ r. r ≡ record { queue = queue.0; name = name; last = last }) }
        ensures refused { IfErr result (λ e. e ≡ Resources) }
    {
        let form = match last {
            None => RegistrantForm::Bare { queue, name },
            Some(last) => RegistrantForm::Full(Box::new(alloc, Operated { queue, name, last })?),
        };
        Ok(KeptRegistrant { form })
    }

    /// Keeps the registrant. `Resources` if memory runs out.
    pub fn of(alloc: Global, r: &Registrant) -> Result<KeptRegistrant, Fault>
        ensures kept { IfOk result (λ k. k ≡ r.now) }
        ensures refused { IfErr result (λ e. e ≡ Resources) }
    {
        let name = KeptName::of(alloc, &r.name)?;
        KeptRegistrant::new(alloc, r.queue, name, last_again(&r.last))
    }

    /// The registrant that is kept, as a caller takes it apart. Takes no memory.
    pub fn registrant(&self) -> Registrant
        ensures { result ≡ self.now }
    {
        match &self.form {
            RegistrantForm::Bare { queue, name } => Registrant {
                queue: *queue,
                name: name.name(),
                last: None,
            },
            RegistrantForm::Full(one) => Registrant {
                queue: one.queue,
                name: one.name.name(),
                last: Some(one.last.copied()),
            },
        }
    }

    /// Its queue.
    pub fn queue(&self) -> QueueNo
        ensures { result.0 ≡ self.now.queue }
    {
        match &self.form {
            RegistrantForm::Bare { queue, .. } => *queue,
            RegistrantForm::Full(one) => one.queue,
        }
    }

    /// Its name.
    pub fn name(&self) -> &KeptName
        ensures { result.now ≡ self.now.name }
    {
        match &self.form {
            RegistrantForm::Bare { name, .. } => name,
            RegistrantForm::Full(one) => &one.name,
        }
    }

    /// Its last operation in a committed unit, if there is one.
    pub fn last(&self) -> Option<&Last>
        ensures { option_map (λ l. l.now) result ≡ self.now.last }
    {
        match &self.form {
            RegistrantForm::Bare { .. } => None,
            RegistrantForm::Full(one) => Some(&one.last),
        }
    }

    /// Its queue and name, by which registrants are ordered.
    pub(crate) fn key(&self) -> (u32, Name)
        ensures { result ≡ (self.now.queue, self.now.name) }
    {
        (self.queue().0, self.name().name())
    }

    /// Whether it comes before the other, by queue and then by name.
    pub(crate) fn is_before(&self, other: &KeptRegistrant) -> bool
        ensures { result ≡ model.registrant_before self.now other.now }
    {
        let (queue, next) = (self.queue().0, other.queue().0);
        queue < next || (queue == next && *self.name() < *other.name())
    }
}

/// Keeps the registrants, in their order. `Resources` if memory runs out.
pub(crate) fn kept_registrants(
    alloc: Global,
    registrants: &[Registrant],
) -> Result<Vec<KeptRegistrant>, Fault>
    ensures kept { IfOk result (λ v. v.items ≡ registrants.now) }
    ensures refused { IfErr result (λ e. e ≡ Resources) }
{
    let mut kept = Vec::with_capacity(alloc, registrants.len())?;
    for r in registrants {
        kept.push(KeptRegistrant::of(alloc, r)?)?;
    }
    Ok(kept)
}

/// The registrants that are kept, in their order, as a caller takes them apart. `Resources` if
/// memory runs out.
pub fn told_registrants(alloc: Global, kept: &[KeptRegistrant]) -> Result<Vec<Registrant>, Fault>
    ensures same { IfOk result (λ v. v.items ≡ kept.now) }
    ensures refused { IfErr result (λ e. e ≡ Resources) }
{
    let mut registrants = Vec::with_capacity(alloc, kept.len())?;
    for r in kept {
        registrants.push(r.registrant())?;
    }
    Ok(registrants)
}
