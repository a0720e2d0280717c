//! The queues, each with its depth along the log, its elements and its registrants.

use crate::curves::{Canvas, Curve, along, put_axis};
use crate::holdings::{put_fold, put_more};
use crate::markup::Html::{Count, Number, Tag, Text};
use crate::markup::put_html;
use crate::pages::Order;
use crate::shown::{Linked, QUEUES};
use crate::surveys::{FEW_BINS, Survey};
use rq_found::{End, Put, RegistrantShown};
use rq_record::{Name, QueueNo};
use rq_report::free_elements;
use rq_state::{Definition, State};
use std::alloc::{AllocError, Global};
use std::cmp::Reverse;

// As many queues stand open; those behind them are folded.
const OPEN: usize = 100;

// The width and the height of a queue's curve.
const SIZE: (u64, u64) = (128, 24);

// The row of a queue, up to its error queue.
const ROW: &str = "<tr class=\"queue\" id=\"q{}\"><th scope=\"row\">{} <strong>{}</strong>\
    <small>limit {}, error queue ";

// A queue, by what queues are put in order.
#[derive(Clone, Copy)]
struct QueueRow {
    number: u32,
    depth: usize,
    name: Name,
}

// What a page shows its queues with.
#[derive(Clone, Copy)]
struct Hall<'a> {
    shown: Linked<'a>,
    seen: &'a Survey,
    state: &'a State,
    end: &'a End,
}

fn lines_of(
    alloc: Global,
    definitions: &[Definition],
    state: &State,
) -> Result<Vec<QueueRow>, AllocError> {
    let mut lines = Vec::with_capacity(alloc, definitions.len())?;
    let mut number: u32 = 0;
    for definition in definitions {
        lines.push(QueueRow {
            number,
            depth: state.elements_of(QueueNo(number)).len(),
            name: definition.name,
        })?;
        number = number.saturating_add(1);
    }
    Ok(lines)
}

// Puts the queues in order, and answers what is said of it.
fn arrange(lines: &mut Vec<QueueRow>, order: Order) -> &'static str {
    match order {
        Order::Depth => {
            lines.sort_unstable_by_key(|line| (Reverse(line.depth), line.number));
            "By the number of their elements, the most first."
        }
        Order::Number => "By number.",
        Order::Name => {
            lines.sort_unstable_by_key(|line| (line.name, line.number));
            "By name."
        }
    }
}

// Puts the greatest depth of a queue, and how its depth goes along the log.
fn put_curve(text: &mut String, hall: &Hall<'_>, number: u32) -> Put {
    let Some(curve) = hall.seen.depths.get(number as usize) else {
        return text.push_str("<td></td><td></td>");
    };
    let (width, height) = SIZE;
    let frame = Canvas {
        width,
        height,
        end: along(hall.end.front.used, hall.end.front.total, width),
        bins: FEW_BINS,
    };
    put_html(text, "<td>{}</td><td>", &[Count(curve.most())])?;
    curve.put(text, &frame, "Free elements along the log")?;
    text.push_str("</td>")
}

// Puts the row of a queue: its number, its name, its limit, its error queue, and its depth.
fn put_row(text: &mut String, hall: &Hall<'_>, line: &QueueRow, definition: &Definition) -> Put {
    let (number, name) = (Number(u64::from(line.number)), Text(definition.name.text()));
    let limit = Number(u64::from(definition.limit));
    put_html(text, ROW, &[number, number, name, limit])?;
    let (error, depth) = (
        hall.shown.error_link(definition.error),
        Count(line.depth as u64),
    );
    put_html(text, "{}</small></th><td>{}</td>", &[error, depth])?;
    put_curve(text, hall, line.number)?;
    text.push_str("</tr>\n")
}

// Puts a queue, and what folds out below it.
fn put_queue(alloc: Global, text: &mut String, hall: &Hall<'_>, line: &QueueRow) -> Put {
    let Some(definition) = hall.shown.definitions.get(line.number as usize) else {
        return Ok(());
    };
    put_row(text, hall, line, definition)?;
    let elements = free_elements(alloc, hall.state, QueueNo(line.number))?;
    let registrants = RegistrantShown::all_of(alloc, hall.state, QueueNo(line.number))?;
    put_fold(
        alloc,
        text,
        &hall.shown,
        line.number,
        &elements,
        &registrants,
    )
}

// Puts these queues as a table.
fn put_table(alloc: Global, text: &mut String, hall: &Hall<'_>, lines: &[QueueRow]) -> Put {
    text.push_str(
        "<table class=\"queues\">\n<caption>Queues after the restart, with what they held along the \
        log</caption>\n<tr><th scope=\"col\">queue</th><th scope=\"col\">elements</th>\
        <th scope=\"col\">at most</th><th scope=\"col\">along the log",
    )?;
    put_axis(text, hall.end.front.total)?;
    text.push_str("</th></tr>\n")?;
    for line in lines {
        put_queue(alloc, text, hall, line)?;
    }
    text.push_str("</table>\n")
}

/// Puts the queues in the order that is asked for: the first 100 open, as many as 1,000 folded.
pub(crate) fn put_queue_table(
    alloc: Global,
    text: &mut String,
    shown: &Linked<'_>,
    seen: &Survey,
    state: &State,
    end: &End,
    order: Order,
) -> Put {
    let hall = Hall {
        shown: *shown,
        seen,
        state,
        end,
    };
    let mut lines = lines_of(alloc, shown.definitions, state)?;
    let said = arrange(&mut lines, order);
    put_html(
        text,
        "<section id=\"queues\">\n<h2>Queues</h2>\n<p>{}</p>\n",
        &[Tag(said)],
    )?;
    let count = lines.len().min(QUEUES);
    let (open, folded) = lines[..count].split_at(count.min(OPEN));
    put_table(alloc, text, &hall, open)?;
    if !folded.is_empty() {
        let many = Count(folded.len() as u64);
        put_html(
            text,
            "<details class=\"more\"><summary>{} more queues</summary>\n",
            &[many],
        )?;
        put_table(alloc, text, &hall, folded)?;
        text.push_str("</details>\n")?;
    }
    put_more(text, lines.len(), count)?;
    text.push_str("</section>\n")
}
