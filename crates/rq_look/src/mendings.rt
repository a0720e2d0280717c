//! What was put back in a log that was mended.

ghost use Rattle.std.specs.Prelude.{◌≡◌, ◌++◌, IfOk, OnOk, string_bytes};
ghost use Rattle.std.specs.List.{flat_map};
ghost use Rattle.rq_look.specs.Mendings.{change_text, untried_text, mended_text};

use rq_behind::{Change, Mended, Untried};
use rq_found::Put;
use std::alloc::{AllocError, Global};
use std::fmt::Write;

// Puts a byte that was put back, as a line.
fn put_change(text: &mut String, change: &Change) -> Put
    ensures { OnOk result (string_bytes text.new ≡ string_bytes text.old ++ change_text change.entry.now) }
{
    let (offset, was, now, frame) = (change.offset, change.was, change.now, change.frame);
    write!(
        text,
        "at {offset} stood {was}, now {now}: the digest of the frame at {frame} proves it\n"
    )
}

// Puts all of them.
fn put_changes(text: &mut String, changes: &[Change]) -> Put
    ensures { OnOk result (string_bytes text.new
        ≡ string_bytes text.old ++ flat_map change_text changes.now) }
{
    for change in changes {
        put_change(text, change)?;
    }
    Ok(())
}

// Puts what was not tried, if something was not, as a line.
fn put_untried(text: &mut String, untried: Option<Untried>) -> Put
    ensures { OnOk result (string_bytes text.new ≡ string_bytes text.old ++ untried_text untried) }
{
    match untried {
        None => Ok(()),
        Some(Untried::Long) => text.push_str(
            "not tried: each byte of the body there, which is too long\n",
        ),
        Some(Untried::Spent) => text.push_str("not tried: more, since so much was tried in vain\n"),
    }
}

/// What was put back in a log, a line for each byte; then how many bytes that are, and what was not
/// tried where the mending ends.
pub fn mended_text(alloc: Global, mended: &Mended) -> Result<String, AllocError>
    ensures { IfOk result (λ text. string_bytes text ≡ mended_text mended.now) }
{
    let mut text = String::new(alloc);
    put_changes(&mut text, &mended.changes)?;
    let count = mended.changes.len();
    write!(text, "{count} bytes were put back\n")?;
    put_untried(&mut text, mended.untried)?;
    Ok(text)
}
