//! Whether bytes have the form of a state, found without memory.

ghost use Rattle.std.specs.Prelude.{◌≡◌, [], option_map};
ghost use Rattle.rq_bytes.specs.Readers.{number, members, counted_members, after_of};
ghost use Rattle.rq_model.specs.Reading.{definition_read, registrant_read, element_read};
ghost use Rattle.rq_model.specs.Reading.{note_read};
ghost use Rattle.rq_state.specs.Reading.{passed, form_read};

use crate::kept_element::KeptElement;
use crate::kept_registrant::KeptRegistrant;
use crate::members::{Definition, Note};
use crate::readers::members::{Member, take_unit};
use rq_bytes::Cursor;

#[tactic(auto, using(crate::proofs::Passing::passing))]
fn pass_members<M: Member>(count: u32, bytes: &mut Cursor<'_>) -> Option<()>
    ensures { option_map (λ done. (done, bytes.new)) result
        ≡ passed (members M.read count) bytes.old }
{
    for _ in 0..count {
        M::pass(bytes)?;
    }
    Some(())
}

#[tactic(auto, unfolding(rq_bytes::specs::Readers::counted_members))]
fn pass_all<M: Member>(bytes: &mut Cursor<'_>) -> Option<()>
    ensures { option_map (λ done. (done, bytes.new)) result
        ≡ passed (counted_members M.read) bytes.old }
{
    let count = bytes.u32()?;
    pass_members::<M>(count, bytes)
}

#[tactic(auto, using(crate::proofs::Passing::passing))]
fn pass_units(count: u32, bytes: &mut Cursor<'_>) -> Option<()>
    ensures { option_map (λ done. (done, bytes.new)) result
        ≡ passed (members (number 8) count) bytes.old }
{
    for _ in 0..count {
        let _member = take_unit(bytes)?;
    }
    Some(())
}

#[tactic(auto, unfolding(rq_bytes::specs::Readers::counted_members))]
fn pass_all_units(bytes: &mut Cursor<'_>) -> Option<()>
    ensures { option_map (λ done. (done, bytes.new)) result
        ≡ passed (counted_members (number 8)) bytes.old }
{
    let count = bytes.u32()?;
    pass_units(count, bytes)
}

/// Whether the bytes have the form of a state.
#[tactic(auto, unfolding(crate::specs::Reading::form_read))]
pub(crate) fn check_form(bytes: &[u8]) -> Option<()>
    ensures { option_map (λ _. []) result ≡ after_of (form_read bytes.now) }
{
    let mut bytes = Cursor::new(bytes);
    let _next = bytes.u64()?;
    let _greatest = bytes.u64()?;
    let _committed = bytes.u64()?;
    let _aborted = bytes.u64()?;
    pass_all::<Definition>(&mut bytes)?;
    pass_all_units(&mut bytes)?;
    pass_all::<KeptRegistrant>(&mut bytes)?;
    pass_all::<KeptElement>(&mut bytes)?;
    pass_all::<Note>(&mut bytes)?;
    bytes.end()
}
