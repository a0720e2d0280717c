//! The lives of elements, units and registrants, a row each.

use crate::lives::Lives;
use crate::markup::Html::{Number, Tag, Text};
use crate::markup::put_html;
use crate::shown::Linked;
use crate::steps::{Step, put_steps};
use rq_found::Put;
use std::collections::BTreeMap;

// What stands before a table of lives: its part's name and title, what it is about, and the heads of
// its columns.
const TOP: &str = "<section id=\"{}\">
<h2>{}</h2>
<div class=\"scroll\"><table class=\"lives\">
<caption>{}, record by record</caption>
<tr><th scope=\"col\">{}</th><th scope=\"col\">life</th></tr>
";

// What stands behind it.
const BOTTOM: &str = "</table></div>\n</section>\n";

// Puts the steps of a life, and the end of its row.
fn put_life(text: &mut String, shown: &Linked<'_>, steps: &[Step]) -> Put {
    if steps.is_empty() {
        return text.push_str("the front tells nothing of it</td></tr>\n");
    }
    put_steps(text, shown, steps)?;
    text.push_str("</td></tr>\n")
}

// Puts a part of lives by number, if there is one: what stands in its top, and by which letter links
// lead to it.
fn put_numbered(
    text: &mut String,
    shown: &Linked<'_>,
    lives: &BTreeMap<u64, Vec<Step>>,
    top: &[&'static str; 4],
    letter: &'static str,
) -> Put {
    if lives.is_empty() {
        return Ok(());
    }
    put_html(
        text,
        TOP,
        &[Tag(top[0]), Tag(top[1]), Tag(top[2]), Tag(top[3])],
    )?;
    for (number, steps) in lives {
        let pieces = [Tag(letter), Number(*number), Number(*number)];
        put_html(
            text,
            "<tr id=\"{}{}\"><th scope=\"row\">{}</th><td>",
            &pieces,
        )?;
        put_life(text, shown, steps)?;
    }
    text.push_str(BOTTOM)
}

// Puts what registrants did.
fn put_registrants(text: &mut String, shown: &Linked<'_>, lives: &Lives) -> Put {
    if lives.registrants.is_empty() {
        return Ok(());
    }
    let heads = "registrant</th><th scope=\"col\">queue";
    let about = "What each registrant did";
    put_html(
        text,
        TOP,
        &[
            Tag("registrants"),
            Tag("Registrants"),
            Tag(about),
            Tag(heads),
        ],
    )?;
    for ((queue, name), steps) in &lives.registrants {
        let (number, name) = (Number(u64::from(*queue)), Text(name.text()));
        let head = "<tr id=\"g{}-{}\"><th scope=\"row\">{}</th><td>";
        put_html(text, head, &[number, name, name])?;
        put_html(text, "{}</td><td>", &[shown.queue_link(*queue)])?;
        put_life(text, shown, steps)?;
    }
    text.push_str(BOTTOM)
}

/// Puts what became of elements, and what units and registrants did.
pub(crate) fn put_histories(text: &mut String, shown: &Linked<'_>, lives: &Lives) -> Put {
    let elements = [
        "elements",
        "Elements",
        "What became of each element",
        "element",
    ];
    put_numbered(text, shown, &lives.elements, &elements, "e")?;
    let units = ["units", "Units", "What each unit did", "unit"];
    put_numbered(text, shown, &lives.units, &units, "u")?;
    put_registrants(text, shown, lives)
}
