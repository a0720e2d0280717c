//! The records, a row each.

use crate::markup::Html::{Count, Number, Tag};
use crate::markup::{put_html, put_optional};
use crate::payloads::put_payload_cell;
use crate::shown::{Linkable, Linked};
use crate::steps::{At, put_step, step_of};
use rq_found::{Event, Numbered, Put, kind_of, unit_of};
use rq_record::{KeptBy, KeptRecord, QueueNo};
use std::alloc::Global;

// While the rows have fewer bytes, payloads can be folded out.
const WHOLE: usize = 500_000;

// What is said of a checkpoint that is true, and of one that is not.
const TRUE: &str = "true";

const FALSE: &str = "<span class=\"bad\">does not spell the state before it</span>";

// As many events of a record are shown: a COMMIT has one for each operation of its unit.
const EVENTS: usize = 1000;

// Puts whom an operation is by.
fn put_by(text: &mut String, shown: &Linked<'_>, queue: QueueNo, by: &KeptBy) -> Put {
    let Some(by) = by.by() else {
        return Ok(());
    };
    let registrant = shown.registrant_link(queue.0, by.name.text());
    put_html(text, " by {} tag {}", &[registrant, Number(by.tag)])
}

// Puts what no other kind of record has.
fn put_fields(
    alloc: Global,
    text: &mut String,
    shown: &Linked<'_>,
    it: &Numbered,
    truth: bool,
) -> Put {
    match &it.record {
        KeptRecord::Define { limit, error, .. } => {
            let fields = [Number(u64::from(*limit)), shown.error_link(*error)];
            put_html(text, " limit {} error queue {}", &fields)
        }
        KeptRecord::Register { queue, name } | KeptRecord::Deregister { queue, name } => {
            let registrant = shown.registrant_link(queue.0, name.text());
            put_html(text, " name {}", &[registrant])
        }
        KeptRecord::Enqueue {
            priority,
            queue,
            by,
            payload,
            ..
        } => {
            put_html(text, " priority {}", &[Number(u64::from(*priority))])?;
            put_by(text, shown, *queue, by)?;
            text.push_str(" payload ")?;
            put_payload_cell(alloc, text, payload.bytes(), text.len() < WHOLE)
        }
        KeptRecord::Dequeue { queue, by, .. } => put_by(text, shown, *queue, by),
        // It may be none: what happens has the link.
        KeptRecord::Kill { element, .. } => put_html(text, " element {}", &[Number(element.0)]),
        KeptRecord::Checkpoint { bytes } => {
            let behind = if truth { TRUE } else { FALSE };
            let count = Count(bytes.bytes().len() as u64);
            put_html(text, " of {} bytes, {}", &[count, Tag(behind)])
        }
        _ => Ok(()),
    }
}

fn put_events(text: &mut String, shown: &Linked<'_>, events: &[Event]) -> Put {
    if events.is_empty() {
        return Ok(());
    }
    text.push_str("<ol>")?;
    for event in events.iter().take(EVENTS) {
        put_step(text, shown, &step_of(event, At::Here))?;
    }
    let more = events.len().saturating_sub(EVENTS) as u64;
    if more > 0 {
        put_html(text, "<li class=\"none\">and {} more</li>", &[Count(more)])?;
    }
    text.push_str("</ol>")
}

/// A record with what happens at it.
#[derive(Clone, Copy)]
pub(crate) struct Happening<'a> {
    pub(crate) it: &'a Numbered,
    pub(crate) events: &'a [Event],
    /// Whether it is true, if it is a checkpoint.
    pub(crate) truth: bool,
}

/// Puts the row of a record: its number, its offset, what it says, and what happens at it.
pub(crate) fn put_row(
    alloc: Global,
    text: &mut String,
    shown: &Linked<'_>,
    done: &Happening<'_>,
) -> Put {
    let it = done.it;
    let (number, kind) = (Number(it.number), Tag(kind_of(&it.record)));
    let head = "<tr id=\"r{}\"><th scope=\"row\">{}</th><td>{}</td><td><b class=\"{}\">{}</b>";
    put_html(text, head, &[number, number, Number(it.offset), kind, kind])?;
    let unit = unit_of(&it.record).map(|unit| shown.link(Linkable::Unit, unit.0));
    put_optional(text, " unit {}", unit)?;
    let queue = it.queue().map(|queue| shown.queue_link(queue.0));
    put_optional(text, " queue {}", queue)?;
    put_fields(alloc, text, shown, it, done.truth)?;
    text.push_str("</td><td>")?;
    put_events(text, shown, done.events)?;
    text.push_str("</td></tr>\n")
}

/// Puts the records that were gathered as rows, and how many were left out.
pub(crate) fn put_record_rows(text: &mut String, rows: &str, count: u64, more: u64) -> Put {
    if count == 0 {
        return Ok(());
    }
    text.push_str(
        "<section id=\"records\">\n<h2>Records</h2>\n<div class=\"scroll\"><table class=\"lives records\">\n\
        <caption>Each record with what happens at it",
    )?;
    if more > 0 {
        put_html(text, "; {} more are left out", &[Count(more)])?;
    }
    text.push_str(
        "</caption>\n<tr><th scope=\"col\">record</th><th scope=\"col\">at byte</th>\
        <th scope=\"col\">what it says</th><th scope=\"col\">what happens</th></tr>\n",
    )?;
    text.push_str(rows)?;
    text.push_str("</table></div>\n</section>\n")
}
