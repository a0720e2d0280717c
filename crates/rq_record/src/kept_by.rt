//! Who an operation is by, as a record keeps it.

ghost use Rattle.std.specs.Prelude.{◌≡◌, IfOk, IfErr, IsOk, None};
ghost use Rattle.std.specs.Option.{option_map};
ghost use Rattle.rq_record.specs.declared.fault.Fault.TheVariants.{Resources};

use crate::fault::Fault;
use crate::kept_name::KeptName;
use crate::record::{By, LentBy};
use std::alloc::Global;
use std::marker::Model;

/// The registrant and the tag of an operation, or nobody, in 16 bytes: operations are many, and
/// most are by nobody.
#[derive(Drop)]
pub struct KeptBy {
    somebody: Option<Box<Somebody>>,
}

#[derive(Drop)]
struct Somebody {
    name: KeptName,
    tag: u64,
}

impl Model for KeptBy {
    ghost use Rattle.std.specs.Prelude.{Option};
    ghost use Rattle.std.specs.Option.{option_map};
    ghost use Rattle.rq_model.specs.Records as model;

    ghost Value = { Option model.By };

    ghost view = { λ k. option_map
        (λ b. record { name = b.value.name; tag = b.value.tag }) k.somebody };
}

impl KeptBy {
    /// Keeps who an operation is by. `Resources` if memory runs out; an operation by nobody takes
    /// none.
    pub fn of(alloc: Global, by: &Option<By>) -> Result<KeptBy, Fault>
        ensures kept { IfOk result (λ k. k ≡ by.now) }
        ensures refused { IfErr result (λ e. e ≡ Resources) }
        ensures nobody { by.now ≡ None → IsOk result }
    {
        match by {
            None => KeptBy::of_lent(alloc, None),
            Some(by) => KeptBy::of_lent(alloc, Some(by.lent())),
        }
    }

    /// The same for a `LentBy`.
    pub(crate) fn of_lent(alloc: Global, by: Option<LentBy<'_>>) -> Result<KeptBy, Fault>
        ensures kept { IfOk result (λ k. k ≡ by.entry) }
        ensures refused { IfErr result (λ e. e ≡ Resources) }
        ensures nobody { by.entry ≡ None → IsOk result }
    {
        match by {
            None => Ok(KeptBy { somebody: None }),
            Some(by) => {
                let somebody = Somebody {
                    name: KeptName::of_checked(alloc, by.name)?,
                    tag: by.tag,
                };
                Ok(KeptBy {
                    somebody: Some(Box::new(alloc, somebody)?),
                })
            }
        }
    }

    /// Who the operation is by. Takes no memory.
    pub fn by(&self) -> Option<By>
        ensures { result ≡ self.now }
    {
        match &self.somebody {
            None => None,
            Some(somebody) => Some(By {
                name: somebody.name.name(),
                tag: somebody.tag,
            }),
        }
    }

    /// The name of the registrant, if the operation is by one.
    pub fn name(&self) -> Option<&KeptName>
        ensures { option_map (λ n. n.now) result ≡ option_map (λ b. b.name) self.now }
    {
        match &self.somebody {
            None => None,
            Some(somebody) => Some(&somebody.name),
        }
    }
}
