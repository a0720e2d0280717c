//! Whether a body spells a record, which takes no memory.

ghost use Rattle.std.specs.Prelude.{◌≡◌, ◌↔◌, IsTrue, option_map, is_some};
ghost use Rattle.rq_bytes.specs.Readers.{after_of};
ghost use Rattle.rq_model.specs.Reading.{name_left, who_read, at_most, record_behind, record_read};
ghost use Rattle.rq_record.specs.Views.{version_of};
ghost use Rattle.rq_behind.specs.Runs.{SpellsSome};

use rq_bytes::Cursor;
use rq_record::{CheckBytes, Name, Payload, Version};

#[tactic(auto, unfolding(rq_model::specs::Reading::name_left))]
fn name(bytes: Cursor<'_>) -> Option<()>
    ensures { is_some result ≡ is_some (name_left bytes.entry) }
{
    Name::new(bytes.rest())?;
    Some(())
}

#[tactic(auto, unfolding(rq_model::specs::Reading::who_read))]
fn who(bytes: &mut Cursor<'_>) -> Option<()>
    ensures { option_map (λ x. bytes.new) result ≡ after_of (who_read bytes.old) }
{
    match bytes.u8()? {
        0 => {
            let tag = bytes.u64()?;
            if tag == 0 { Some(()) } else { None }
        }
        size => {
            Name::new(bytes.piece(size as usize)?)?;
            bytes.u64()?;
            Some(())
        }
    }
}

#[tactic(auto, unfolding(rq_model::specs::Reading::at_most))]
fn at_most(limit: usize, bytes: Cursor<'_>) -> Option<()>
    ensures { is_some result ≡ is_some (at_most limit bytes.entry) }
{
    if bytes.rest().len() <= limit {
        Some(())
    } else {
        None
    }
}

#[tactic(auto, unfolding(rq_model::specs::Reading::record_behind, rq_model::specs::Reading::define_read, rq_model::specs::Reading::registration_read, rq_model::specs::Reading::unit_read, rq_model::specs::Reading::enqueue_read, rq_model::specs::Reading::dequeue_read, rq_model::specs::Reading::checkpoint_read, rq_model::specs::Reading::kill_read,))]
fn fields(version: Version, kind: u8, mut bytes: Cursor<'_>) -> Option<()>
    ensures { is_some result ≡ is_some (record_behind (version_of version) kind bytes.entry) }
{
    match kind {
        1 => {
            bytes.u16()?;
            bytes.u32()?;
            name(bytes)
        }
        2 | 3 => {
            bytes.u32()?;
            name(bytes)
        }
        4 | 7 | 8 => {
            bytes.u64()?;
            bytes.end()
        }
        5 => {
            bytes.u64()?;
            bytes.u32()?;
            bytes.u8()?;
            who(&mut bytes)?;
            at_most(Payload::LIMIT, bytes)
        }
        6 => {
            bytes.u64()?;
            bytes.u32()?;
            who(&mut bytes)?;
            bytes.end()
        }
        9 => at_most(CheckBytes::LIMIT, bytes),
        10 => {
            if version == Version::One {
                return None;
            }
            bytes.u32()?;
            bytes.u64()?;
            bytes.end()
        }
        _ => None,
    }
}

#[tactic(auto, unfolding(rq_model::specs::Reading::record_read))]
fn record(version: Version, body: &[u8]) -> Option<()>
    ensures { is_some result ≡ is_some (record_read (version_of version) body.now) }
{
    let mut bytes = Cursor::new(body);
    let kind = bytes.u8()?;
    fields(version, kind, bytes)
}

/// Whether the body spells a record of the version.
pub(crate) fn spells_some(version: Version, body: &[u8]) -> bool
    ensures { IsTrue result ↔ SpellsSome (version_of version) body.now }
{
    record(version, body).is_some()
}
