//! What a manager answers, as a line.

use crate::words::Unanswered;
use rq_live::NotDone;
use rq_record::{ElemId, UnitNo};
use rq_state::KeptElement;
use std::alloc::{AllocError, Global};

/// What was done.
#[derive(Drop)]
pub(crate) enum Answer {
    /// Nothing is told of it.
    Done,
    /// An element was put in.
    Put(ElemId),
    /// A unit began.
    Begun(UnitNo),
    /// An element was taken, if there was one.
    Taken(Option<KeptElement>),
    /// A checkpoint stands at the offset.
    Marked(usize),
}

/// An element: its id, the queue that it was put in, its priority, its attempts and its payload.
pub(crate) fn element_text(alloc: Global, e: &KeptElement) -> Result<String, AllocError> {
    let payload = hex::encode(alloc, e.payload.bytes())?;
    format!(in alloc;
        "{} {} {} {} {payload}",
        e.id.0, e.origin.0, e.priority, e.attempts
    )
}

// Why it is not done; if it is not lawful, with the rule that it breaks.
fn refusal(alloc: Global, why: NotDone) -> Result<String, Unanswered> {
    let text = match why {
        NotDone::Unlawful(rule) => {
            let rule = rule.to_string(alloc)?;
            return Ok(format!(in alloc; "unlawful: {rule}")?);
        }
        NotDone::Full => "full",
        NotDone::Large => "large",
        NotDone::Ended => "ended",
        NotDone::Spent => "spent",
    };
    Ok(String::from_str(alloc, text)?)
}

/// The line that answers.
pub(crate) fn told(alloc: Global, done: Result<Answer, NotDone>) -> Result<String, Unanswered> {
    let text = match done {
        Ok(Answer::Done) => String::from_str(alloc, "done")?,
        Ok(Answer::Put(id)) => format!(in alloc; "element {}", id.0)?,
        Ok(Answer::Begun(unit)) => format!(in alloc; "unit {}", unit.0)?,
        Ok(Answer::Taken(None)) => String::from_str(alloc, "none")?,
        Ok(Answer::Taken(Some(e))) => element_text(alloc, &e)?,
        Ok(Answer::Marked(offset)) => format!(in alloc; "checkpoint {offset}")?,
        Err(why) => refusal(alloc, why)?,
    };
    Ok(text)
}
