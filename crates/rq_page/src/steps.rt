//! The steps of lives.

use crate::markup::Html::{Count, Number, Tag};
use crate::markup::{put_html, put_optional};
use crate::shown::{Linkable, Linked};
use rq_found::{Effect, Event, Numbered, Put, unit_of};
use rq_queue::Fate;
use rq_record::KeptRecord;

/// As many steps of one life are kept.
pub(crate) const STEPS: usize = 10_000;

// While a page has fewer bytes, more steps are put.
const ROOM: usize = 3_000_000;

/// Where something happened.
#[derive(Clone, Copy)]
pub(crate) enum At {
    /// Where it is told.
    Here,
    /// At the record of this number.
    Record(u64),
    /// At the restart, which aborts what is open.
    Restart,
}

/// A step of a life: what happened, where, and to or by what.
#[derive(Clone, Copy)]
pub(crate) struct Step {
    /// What happened, in a word by which it is styled too.
    pub(crate) class: &'static str,
    /// The same in words.
    pub(crate) words: &'static str,
    /// Where it happened.
    pub(crate) at: At,
    /// The element to which it happened.
    pub(crate) element: Option<u64>,
    /// The queue in which the element then is.
    pub(crate) queue: Option<u32>,
    /// The attempts that the element then has.
    pub(crate) attempts: Option<u64>,
    /// The unit that did it.
    pub(crate) unit: Option<u64>,
    /// The tag under which a registrant did it.
    pub(crate) tag: Option<u64>,
}

impl Step {
    /// Something that happened to nothing in particular.
    pub(crate) fn of(class: &'static str, words: &'static str, at: At) -> Step {
        Step {
            class,
            words,
            at,
            element: None,
            queue: None,
            attempts: None,
            unit: None,
            tag: None,
        }
    }
}

// What became of an element.
fn step_of_fate(fate: Fate, at: At) -> Step {
    match fate {
        Fate::Freed(queue) => Step {
            queue: Some(queue.0),
            ..Step::of("free", "free in", at)
        },
        Fate::Gone => Step::of("gone", "gone", at),
        Fate::Undone => Step::of("gone", "not put in after all", at),
        Fate::Back(queue, attempts) => Step {
            queue: Some(queue.0),
            attempts: Some(attempts),
            ..Step::of("back", "back in", at)
        },
        Fate::Moved(queue) => Step {
            queue: Some(queue.0),
            ..Step::of("moved", "moved to", at)
        },
    }
}

// What happened to an element.
fn step_of_effect(effect: Effect, at: At) -> Step {
    match effect {
        Effect::Put => Step::of("put", "put in", at),
        Effect::Taken => Step::of("taken", "taken", at),
        Effect::Ended(fate) => step_of_fate(fate, at),
    }
}

/// What happened, and where.
pub(crate) fn step_of(event: &Event, at: At) -> Step {
    match event {
        Event::NoElement => Step::of("none", "finds no element", at),
        Event::To(element, effect) => Step {
            element: Some(*element),
            ..step_of_effect(*effect, at)
        },
    }
}

/// What a unit does by a record that has no element, if it is one of a unit.
pub(crate) fn step_of_unit(it: &Numbered) -> Option<Step> {
    let at = At::Record(it.number);
    match &it.record {
        KeptRecord::Begin { .. } => Some(Step::of("begins", "begins", at)),
        KeptRecord::Commit { .. } => Some(Step::of("free", "commits", at)),
        KeptRecord::Abort { .. } => Some(Step::of("back", "aborts", at)),
        _ => None,
    }
}

/// What an operation does: it has one event.
pub(crate) fn step_of_operation(it: &Numbered, events: &[Event]) -> Step {
    let at = At::Record(it.number);
    let step = match events.first() {
        Some(event) => step_of(event, at),
        None => Step::of("none", "does nothing", at),
    };
    Step {
        unit: unit_of(&it.record).map(|unit| unit.0),
        ..step
    }
}

/// Puts a step, with a link to its record if it is told elsewhere.
pub(crate) fn put_step(text: &mut String, shown: &Linked<'_>, step: &Step) -> Put {
    put_html(text, "<li class=\"{}\">", &[Tag(step.class)])?;
    match step.at {
        At::Here => {}
        At::Record(record) => put_html(text, "{} ", &[shown.link(Linkable::Record, record)])?,
        At::Restart => text.push_str("at the restart ")?,
    }
    let element = step
        .element
        .map(|element| shown.link(Linkable::Element, element));
    put_optional(text, "element {} ", element)?;
    text.push_str(step.words)?;
    put_optional(
        text,
        " queue {}",
        step.queue.map(|queue| shown.queue_link(queue)),
    )?;
    put_optional(
        text,
        ", attempts {}",
        step.attempts.map(|attempts| Count(attempts)),
    )?;
    put_optional(text, ", tag {}", step.tag.map(|tag| Number(tag)))?;
    let unit = step.unit.map(|unit| shown.link(Linkable::Unit, unit));
    put_optional(text, ", unit {}", unit)?;
    text.push_str("</li>")
}

/// Puts the steps of a life, one behind the other, as far as there is room for them, and whether some
/// are left out.
pub(crate) fn put_steps(text: &mut String, shown: &Linked<'_>, steps: &[Step]) -> Put {
    let mut is_all = steps.len() < STEPS;
    text.push_str("<ol>")?;
    for step in steps {
        if text.len() >= ROOM {
            is_all = false;
            break;
        }
        put_step(text, shown, step)?;
    }
    if !is_all {
        text.push_str("<li class=\"none\">more is left out</li>")?;
    }
    text.push_str("</ol>")
}
