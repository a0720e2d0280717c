//! The front's summary.

use crate::lives::Lives;
use crate::markup::Html::{Count, Number, Tag, Text};
use crate::markup::{Html, put_html, put_optional};
use crate::pages::Asked;
use rq_behind::Found;
use rq_found::{Diagnosis, End, Put};
use rq_look::put_behind;
use rq_restart::Restarted;
use std::alloc::Global;

// How many of the checkpoints are not true.
fn false_ones(checkpoints: &[(u64, bool)]) -> usize {
    checkpoints
        .iter()
        .filter(|checkpoint| !checkpoint.1)
        .count()
}

// What stands before the rows, and the rows themselves: what each is about, and what is said of it.
const TOP: &str = "<section id=\"front\">
<h2>The front</h2>
<table class=\"front\">
<caption>The log, and what a restart makes of it</caption>
";

const CARRIED: &str = "<tr><th scope=\"row\">carried</th><td>begins with the checkpoint at {}, \
    which is taken at its word</td></tr>\n";

const FRONT: &str = "<tr><th scope=\"row\">front</th><td>{} records, {} of {} bytes</td></tr>\n";

const BEHIND: &str =
    "<tr><th scope=\"row\">behind it</th><td><span class=\"{}\">{}: {}</span></td></tr>\n";

const DIGEST: &str = "<tr><th scope=\"row\">{}</th><td><code>{}</code></td></tr>\n";

const UNITS: &str = "<tr><th scope=\"row\">units</th>\
    <td>{} committed, {} aborted, {} cut off</td></tr>\n";

const RESTART: &str = "<tr><th scope=\"row\">after the restart</th>\
    <td>{} queues, {} elements, {} registrants</td></tr>\n";

const WRONG: &str = ", <span class=\"bad\">of which {} do not spell the state before them</span>";

// Puts what stands behind the front.
fn put_reason(text: &mut String, end: &End) -> Put {
    let class = if end.is_whole() { "whole" } else { "bad" };
    let (why, reason) = (Text(end.front.why.word()), Text(end.reason.as_str()));
    put_html(text, BEHIND, &[Tag(class), why, reason])
}

// Puts the digest of the front's last frame, by which a log is known; of a front without records it
// is what the header has in its place.
fn put_digest(alloc: Global, text: &mut String, bytes: &[u8], end: &End) -> Put {
    let to = bytes.len().min(end.front.used as usize);
    let digest = hex::encode(alloc, &bytes[to.saturating_sub(32)..to])?;
    let head = if end.front.next > 0 {
        "digest of its last frame"
    } else {
        "end of its header"
    };
    put_html(text, DIGEST, &[Tag(head), Text(digest.as_str())])
}

// Puts what stands behind the front, if something does.
fn put_found(alloc: Global, text: &mut String, end: &End, found: &Found) -> Put {
    if end.is_whole() {
        return Ok(());
    }
    let mut lines = String::new(alloc);
    put_behind(&mut lines, found, end.front.total)?;
    text.push_str("<tr><th scope=\"row\">found there</th><td>")?;
    for line in lines.lines() {
        put_html(text, "<small>{}</small>", &[Text(line)])?;
    }
    text.push_str("</td></tr>\n")
}

// How many queues, elements and registrants there are after the restart.
fn members_of(r: &Restarted) -> [Html<'static>; 3] {
    let state = r.state();
    [
        Count(state.definition_count() as u64),
        Count(state.element_count() as u64),
        Count(state.registrant_count() as u64),
    ]
}

fn put_checkpoints(text: &mut String, checkpoints: &[(u64, bool)]) -> Put {
    let (all, wrong) = (checkpoints.len() as u64, false_ones(checkpoints) as u64);
    put_html(
        text,
        "<tr><th scope=\"row\">checkpoints</th><td>{}",
        &[Count(all)],
    )?;
    if wrong > 0 {
        put_html(text, WRONG, &[Count(wrong)])?;
    }
    text.push_str("</td></tr>\n")
}

/// Puts the numbers of a report's first two lines, what stands behind the front, by what the log is
/// known, how much there is after the restart, and the checkpoints, of each of which it is known whether it is true.
pub(crate) fn put_summary(
    alloc: Global,
    text: &mut String,
    bytes: &[u8],
    r: &Restarted,
    end: &End,
    found: &Found,
    checkpoints: &[(u64, bool)],
) -> Put {
    text.push_str(TOP)?;
    put_optional(text, CARRIED, end.at.map(|at| Number(at)))?;
    let front = [
        Count(end.front.next),
        Count(end.front.used),
        Count(end.front.total),
    ];
    put_html(text, FRONT, &front)?;
    put_reason(text, end)?;
    put_found(alloc, text, end, found)?;
    put_digest(alloc, text, bytes, end)?;
    let units = [Count(r.committed()), Count(r.aborted()), Count(r.cut_off())];
    put_html(text, UNITS, &units)?;
    put_html(text, RESTART, &members_of(r))?;
    put_checkpoints(text, checkpoints)?;
    text.push_str("</table>\n</section>\n")
}

// What stands before the parts of a page: the log's name, the verdict and what to do next, whether it is
// whole, who made the page, and the numbers that are seen first.
const NAME: &str = "<header>
<h1><bdi>{}</bdi></h1>
";

const DIAGNOSED: &str = "<p class=\"{}\">{}</p>
";

const HEADER: &str =
    "<p class=\"by\"><span class=\"badge {}</span> The log of a recoverable queue manager, shown by rqlook {}.</p>
<dl class=\"tiles\">
<div><dt>bytes</dt><dd>{}</dd></div>
<div><dt>records</dt><dd>{}</dd></div>
<div><dt>queues</dt><dd>{}</dd></div>
<div><dt>elements</dt><dd>{}</dd></div>
<div><dt>registrants</dt><dd>{}</dd></div>
</dl>
</header>
";

// Puts the verdict on a log, and what to do next, where this stands for it in a line that is typed.
fn put_diagnosed(alloc: Global, text: &mut String, typed: &str, diagnosis: Diagnosis) -> Put {
    let mut said = String::new(alloc);
    diagnosis.put_verdict(&mut said, typed)?;
    let class = match diagnosis {
        Diagnosis::Whole => "whole",
        _ => "bad",
    };
    put_html(text, DIAGNOSED, &[Tag(class), Text(said.as_str())])
}

/// Puts the log's name, the verdict on it, whether it is whole, who made the page, and the numbers that
/// are seen first.
pub(crate) fn put_header(
    alloc: Global,
    text: &mut String,
    asked: &Asked<'_>,
    r: &Restarted,
    end: &End,
    diagnosis: Diagnosis,
) -> Put {
    put_html(text, NAME, &[Text(asked.name)])?;
    put_diagnosed(alloc, text, asked.typed, diagnosis)?;
    let badge = if end.is_whole() {
        "good\">whole"
    } else {
        "wrong\">not whole"
    };
    let [queues, elements, registrants] = members_of(r);
    put_html(
        text,
        HEADER,
        &[
            Tag(badge),
            Text(asked.version),
            Count(end.front.total),
            Count(end.front.next),
            queues,
            elements,
            registrants,
        ],
    )
}

/// Puts links to the parts of the page, as far as they are there.
pub(crate) fn put_parts(text: &mut String, lives: &Lives, all: bool) -> Put {
    text.push_str(
        "<nav aria-label=\"Parts of the page\"><a href=\"#front\">Front</a> \
        <a href=\"#log\">Log</a> <a href=\"#open\">Open units</a> <a href=\"#queues\">Queues</a>",
    )?;
    if !lives.elements.is_empty() {
        text.push_str(" <a href=\"#elements\">Elements</a>")?;
    }
    if !lives.units.is_empty() {
        text.push_str(" <a href=\"#units\">Units</a>")?;
    }
    if !lives.registrants.is_empty() {
        text.push_str(" <a href=\"#registrants\">Registrants</a>")?;
    }
    if lives.count > 0 {
        text.push_str(" <a href=\"#records\">Records</a>")?;
    }
    if !all {
        text.push_str(" <a href=\"#left-out\">Left out</a>")?;
    }
    text.push_str("</nav>\n")
}

// What is said in the place of the lives of all.
const LEFT_OUT: &str = "<section id=\"left-out\">
<h2>Left out</h2>
<p>The lives of all elements, units and registrants, and their records, do not stand here: {}. \
    Those of some do if <code>rqlook page</code> is given <code>--element NUMBER</code> or \
    <code>--unit NUMBER</code>, as often as you like.</p>
</section>
";

/// Puts that the lives of all are left out: for want of room, or since there are too many records.
pub(crate) fn put_left_out(text: &mut String, is_long: bool) -> Put {
    let why = if is_long {
        "there are more than 10,000 records"
    } else {
        "there is no room for them"
    };
    put_html(text, LEFT_OUT, &[Tag(why)])
}
