//! What a queue holds, to be folded out: its elements and its registrants.

use crate::markup::Html::{Count, Number, Tag, Text};
use crate::markup::put_html;
use crate::payloads::put_payload_cell;
use crate::shown::{Linkable, Linked};
use rq_found::{Put, RegistrantShown};
use rq_state::KeptElement as Element;
use std::alloc::Global;

// As many elements of a queue are shown: those that would be taken first.
const SHOWN: usize = 1000;

// While a page has fewer bytes, more elements and registrants are put, and payloads can be folded
// out.
const ROOM: usize = 900_000;

const WHOLE: usize = 500_000;

fn put_element(alloc: Global, text: &mut String, shown: &Linked<'_>, e: &Element) -> Put {
    let (element, origin) = (
        shown.link(Linkable::Element, e.id.0),
        shown.queue_link(e.origin.0),
    );
    let row = "<tr><th scope=\"row\">{}</th><td>{}</td><td>{}</td><td>{}</td><td>";
    let priority = Number(u64::from(e.priority));
    put_html(text, row, &[element, origin, priority, Count(e.attempts)])?;
    put_payload_cell(alloc, text, e.payload.bytes(), text.len() < WHOLE)?;
    text.push_str("</td></tr>\n")
}

/// Puts how many more there are than are shown.
pub(crate) fn put_more(text: &mut String, all: usize, count: usize) -> Put {
    if all <= count {
        return Ok(());
    }
    let more = Count(all.saturating_sub(count) as u64);
    put_html(text, "<p>and {} more</p>\n", &[more])
}

// Puts the first elements, as far as there is room.
fn put_elements(
    alloc: Global,
    text: &mut String,
    shown: &Linked<'_>,
    elements: &[&Element],
) -> Put {
    if elements.is_empty() {
        return Ok(());
    }
    text.push_str(
        "<table><caption>Elements, in the order in which they would be taken</caption>\n<tr>\
        <th scope=\"col\">element</th><th scope=\"col\">from</th><th scope=\"col\">priority</th>\
        <th scope=\"col\">attempts</th><th scope=\"col\">payload</th></tr>\n",
    )?;
    let mut count: usize = 0;
    for e in elements.iter().take(SHOWN) {
        if text.len() >= ROOM {
            break;
        }
        put_element(alloc, text, shown, e)?;
        count = count.saturating_add(1);
    }
    text.push_str("</table>\n")?;
    put_more(text, elements.len(), count)
}

// Puts a registrant, and what it did last, if it did anything.
fn put_registrant(
    text: &mut String,
    shown: &Linked<'_>,
    queue: u32,
    it: &RegistrantShown<'_>,
) -> Put {
    let registrant = shown.registrant_link(queue, it.name);
    let Some(last) = &it.last else {
        let row = "<tr><th scope=\"row\">{}</th><td>-</td><td></td><td></td></tr>\n";
        return put_html(text, row, &[registrant]);
    };
    let element = match last.element {
        Some(element) => shown.link(Linkable::Element, element),
        None => Tag("-"),
    };
    let row = "<tr><th scope=\"row\">{}</th><td>{}</td><td>{}</td><td>{}</td></tr>\n";
    put_html(
        text,
        row,
        &[registrant, Text(last.kind), Number(last.tag), element],
    )
}

fn put_registrants(
    text: &mut String,
    shown: &Linked<'_>,
    queue: u32,
    registrants: &[RegistrantShown<'_>],
) -> Put {
    if registrants.is_empty() {
        return Ok(());
    }
    text.push_str(
        "<table><caption>Registrants, and what they did last</caption>\n<tr>\
        <th scope=\"col\">registrant</th><th scope=\"col\">last operation</th>\
        <th scope=\"col\">tag</th><th scope=\"col\">element</th></tr>\n",
    )?;
    let mut count: usize = 0;
    for it in registrants {
        if text.len() >= ROOM {
            break;
        }
        put_registrant(text, shown, queue, it)?;
        count = count.saturating_add(1);
    }
    text.push_str("</table>\n")?;
    put_more(text, registrants.len(), count)
}

// What stands before all that folds out below a queue.
const FOLD: &str = "<tr class=\"fold\"><td colspan=\"4\"><details>\
    <summary>elements: {}, registrants: {}</summary>\n";

/// Puts what folds out below a queue, if there is anything.
pub(crate) fn put_fold(
    alloc: Global,
    text: &mut String,
    shown: &Linked<'_>,
    queue: u32,
    elements: &[&Element],
    registrants: &[RegistrantShown<'_>],
) -> Put {
    if elements.is_empty() && registrants.is_empty() {
        return Ok(());
    }
    let counts = [
        Count(elements.len() as u64),
        Count(registrants.len() as u64),
    ];
    put_html(text, FOLD, &counts)?;
    put_elements(alloc, text, shown, elements)?;
    put_registrants(text, shown, queue, registrants)?;
    text.push_str("</details></td></tr>\n")
}
