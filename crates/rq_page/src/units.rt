//! The units that are open: how many along the log, and those at the front's end as bars.

use crate::curves::{Canvas, along, put_axis};
use crate::markup::Html::{Count, Number, Tag};
use crate::markup::{Html, NOTHING, put_html, put_rect};
use crate::shown::{Linkable, Linked};
use crate::surveys::{BINS, Survey};
use rq_found::{End, Put};

// The picture's width, the height of the curve, and of one unit.
const WIDTH: u64 = 1000;

const CURVE: u64 = 60;

const BAR: u64 = 12;

// What stands before the curve, and before the bars.
const TOP: &str = "<section id=\"open\">
<h2>Open units</h2>
<p>At most {} at once, {} where the front ends.</p>
";

const BARS: &str =
    "<div class=\"plot bars\"><span class=\"scale\"></span><svg viewBox=\"0 0 {} {}\" preserveAspectRatio=\"none\" role=\"img\">\
    <title>The units that are open where the front ends</title>\n";

// As many units are shown: those that have been open longest.
const SHOWN: usize = 100;

// Where a unit began: one that was open where the log was carried on began before it.
fn begun_at(begun: u64, end: &End) -> (Html<'static>, Html<'static>) {
    if end.at == Some(begun) {
        (Tag("begun before"), NOTHING)
    } else {
        (Tag("begun at "), Number(begun))
    }
}

// Puts the units that have been open longest as bars, one below the other.
fn put_bars(text: &mut String, seen: &Survey, end: &End) -> Put {
    let height = BAR.saturating_mul(seen.begun.len().min(SHOWN) as u64);
    put_html(text, BARS, &[Number(WIDTH), Number(height)])?;
    let until = along(end.front.used, end.front.total, WIDTH);
    let mut y: u64 = 2;
    for (unit, begun) in seen.begun.iter().take(SHOWN) {
        let x = along(*begun, end.front.total, WIDTH - 2);
        put_rect(text, "unit", [x, y, until.saturating_sub(x).max(2), 8], "")?;
        let (word, at) = begun_at(*begun, end);
        put_html(
            text,
            "><title>unit {}, {}{}</title></rect>\n",
            &[Number(*unit), word, at],
        )?;
        y = y.saturating_add(BAR);
    }
    text.push_str("</svg></div>\n")
}

// Puts which units these are, and where they began.
fn put_names(text: &mut String, shown: &Linked<'_>, seen: &Survey, end: &End) -> Put {
    text.push_str("<p>Open where the front ends, and aborted by the restart: ")?;
    let mut is_first = true;
    for (unit, begun) in seen.begun.iter().take(SHOWN) {
        let before = if is_first { "" } else { ", " };
        let (word, at) = begun_at(*begun, end);
        let unit = shown.link(Linkable::Unit, *unit);
        put_html(text, "{}{} ({}{})", &[Tag(before), unit, word, at])?;
        is_first = false;
    }
    let more = seen.begun.len().saturating_sub(SHOWN) as u64;
    if more > 0 {
        put_html(text, ", and {} more", &[Count(more)])?;
    }
    text.push_str("</p>\n")
}

/// Puts how many units are open along the log, and those that are open at the front's end.
pub(crate) fn put_open(text: &mut String, shown: &Linked<'_>, seen: &Survey, end: &End) -> Put {
    let (most, count) = (seen.open.most(), seen.begun.len() as u64);
    put_html(text, TOP, &[Count(most), Count(count)])?;
    let frame = Canvas {
        width: WIDTH,
        height: CURVE,
        end: along(end.front.used, end.front.total, WIDTH),
        bins: BINS,
    };
    seen.open.put(text, &frame, "Open units along the log")?;
    text.push_str("\n")?;
    if count > 0 {
        put_bars(text, seen, end)?;
    }
    put_axis(text, end.front.total)?;
    if count > 0 {
        put_names(text, shown, seen, end)?;
    }
    text.push_str("</section>\n")
}
