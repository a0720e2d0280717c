//! Opening what a crash left.

ghost use Rattle.std.specs.Prelude.{length};
ghost use Rattle.rq_live.specs.Kernels.{StandsWithin};

use crate::words::{Unanswered, first_word, number_in};
use rq_device::{Memory, WINDOW};
use rq_journal::Plan;
use rq_live::Manager;
use rq_record::LogBytes;
use rq_reopen::{NotOpened, Opening};
use std::alloc::Global;
use std::thread::Threads;

// The log that a manager has that goes on behind what a crash left and begins a unit.
fn resumed(
    alloc: Global,
    opening: Opening,
    left: Vec<u8>,
    synced: usize,
) -> Result<String, Unanswered>
    requires { StandsWithin opening.found.kernel (length left.items) }
{
    let stands = left.len();
    if stands < synced || WINDOW < stands - synced {
        return Err(Unanswered::Line);
    }
    let mut m = Manager::over(Memory::left_by_crash(left, synced), opening.found.kernel);
    let is_resumed = m.resume(alloc, stands).is_ok();
    let begun = m.begin(alloc);
    let is_settled = m.settle().is_ok();
    let Ok(unit) = begun else {
        return Err(Unanswered::Line);
    };
    if !is_resumed || !is_settled {
        return Err(Unanswered::Line);
    }
    let bytes = hex::encode(alloc, m.device().bytes())?;
    Ok(format!(in alloc;
        "opened {} {} {} {bytes}",
        opening.cut.len(),
        unit.0,
        m.device().synced()
    )?)
}

/// Goes on behind what a crash left, of which so many bytes were synced; or says that it is refused.
pub(crate) fn gone_on<R>(rt: &R, text: &[u8]) -> Result<String, Unanswered>
where
    R: AllocGlobal + Threads + Sync,
{
    let (synced, digits) = first_word(text);
    let synced = number_in(synced)? as usize;
    let Ok(left) = hex::decode(rt.alloc(), digits) else {
        return Err(Unanswered::Line);
    };
    let plan = Plan::new(1, 1000).ok_or(Unanswered::Line)?;
    match Opening::of(rt, rt.alloc(), &LogBytes::borrowed(&left), &plan, false) {
        Ok(opening) => resumed(rt.alloc(), opening, left, synced),
        Err(NotOpened::Log(_)) => Ok(String::from_str(rt.alloc(), "refused")?),
        Err(NotOpened::Damaged(..)) => Ok(String::from_str(rt.alloc(), "damaged")?),
    }
}
