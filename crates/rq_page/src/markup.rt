//! The text of HTML.

ghost use Rattle.std.specs.Prelude.{◌≡◌, ◌++◌, true, OnOk, string_bytes};
ghost use Rattle.rq_page.specs.Markup.{AppendsText, is_text, page_foot};

use crate::markup::Html::{Tag, Text};
use crate::style::{STYLE, sum_of_style};
use rq_found::{Put, Seen};
use std::alloc::Global;
use std::fmt::Write;

/// A part of a page. A `Tag` is of this crate alone; what is of the log is a number, or a text or a
/// name of which no character is markup.
#[derive(Clone, Copy)]
pub(crate) enum Html<'a> {
    /// Markup, or words beside it.
    Tag(&'static str),
    /// A number that names something.
    Number(u64),
    /// How many there are of something, with a comma before each three digits.
    Count(u64),
    /// A text of which no character is markup.
    Text(&'a str),
    /// A number with a link to what it names: the kind of that, and the number.
    Link(&'static str, u64),
    /// A queue's number and name.
    Named(u32, &'a str),
    /// The same with a link to the queue.
    Queue(u32, &'a str),
    /// The name of a registrant of a queue, with a link to it.
    Registrant(u32, &'a str),
}

/// Nothing.
pub(crate) const NOTHING: Html<'static> = Html::Tag("");

// What stands before each three digits of a number, the greatest first.
static GROUPS: [u64; 6] = [
    1_000_000_000_000_000_000,
    1_000_000_000_000_000,
    1_000_000_000_000,
    1_000_000_000,
    1_000_000,
    1_000,
];

// A character as it is shown: in the place of a hidden one the picture of a control, if there is one.
fn visible(c: char) -> char
    ensures { is_text c ≡ true → is_text result ≡ true }
{
    if !Seen::is_hidden(c) {
        return c;
    }
    match c {
        '\u{8}' => '\u{2408}',
        '\t' => '\u{2409}',
        '\n' => '\u{240a}',
        '\r' => '\u{240d}',
        '\u{1b}' => '\u{241b}',
        '\u{7f}' => '\u{2421}',
        '\0' => '\u{2400}',
        _ => '\u{fffd}',
    }
}

/// Puts a character as text, of which none is markup.
pub(crate) fn put_char(text: &mut String, c: char) -> Put
    ensures { OnOk result (AppendsText (string_bytes text.old) (string_bytes text.new)) }
{
    match c {
        '&' => text.push_str("&amp;"),
        '<' => text.push_str("&lt;"),
        '>' => text.push_str("&gt;"),
        '"' => text.push_str("&quot;"),
        '\'' => text.push_str("&#39;"),
        c => text.push(visible(c)),
    }
}

/// Puts a text into HTML: each character that HTML takes for its own is spelled out, and each hidden
/// one is shown by its picture, or as one that is not known. Refuses if memory is refused, and
/// then some of it may stand there.
pub(crate) fn put_text(text: &mut String, word: &str) -> Put
    ensures { OnOk result (AppendsText (string_bytes text.old) (string_bytes text.new)) }
{
    for c in word.chars() {
        put_char(text, c)?;
    }
    Ok(())
}

// Puts the last three digits of a number, or all if it has fewer, and what stands behind them.
fn put_group(text: &mut String, number: u64, behind: &'static str) -> Put {
    let digits = number % 1000;
    if number == digits {
        write!(text, "{digits}{behind}")
    } else {
        write!(text, "{digits:03}{behind}")
    }
}

fn put_count(text: &mut String, number: u64) -> Put {
    for group in GROUPS.iter().copied() {
        let count = number.checked_div(group).unwrap_or(0);
        if count > 0 {
            put_group(text, count, ",")?;
        }
    }
    put_group(text, number, "")
}

fn put_named(text: &mut String, queue: u32, name: &str) -> Put {
    write!(text, "{queue} ")?;
    put_text(text, name)
}

fn put_queue(text: &mut String, queue: u32, name: &str) -> Put {
    write!(text, "<a href=\"#q{queue}\">")?;
    put_named(text, queue, name)?;
    text.push_str("</a>")
}

fn put_registrant(text: &mut String, queue: u32, name: &str) -> Put {
    write!(text, "<a href=\"#g{queue}-")?;
    put_text(text, name)?;
    text.push_str("\">")?;
    put_text(text, name)?;
    text.push_str("</a>")
}

fn put_piece(text: &mut String, piece: &Html<'_>) -> Put {
    match piece {
        Html::Tag(tag) => text.push_str(tag),
        Html::Number(number) => write!(text, "{number}"),
        Html::Count(number) => put_count(text, *number),
        Html::Text(word) => put_text(text, word),
        Html::Link(kind, number) => write!(text, "<a href=\"#{kind}{number}\">{number}</a>"),
        Html::Named(queue, name) => put_named(text, *queue, name),
        Html::Queue(queue, name) => put_queue(text, *queue, name),
        Html::Registrant(queue, name) => put_registrant(text, *queue, name),
    }
}

/// Puts markup, with a piece in the place of each `{}` in it.
pub(crate) fn put_html(text: &mut String, markup: &'static str, pieces: &[Html<'_>]) -> Put {
    let mut parts = markup.split("{}");
    text.push_str(parts.next().unwrap_or(""))?;
    for (piece, part) in pieces.iter().zip(parts) {
        put_piece(text, piece)?;
        text.push_str(part)?;
    }
    Ok(())
}

/// Puts markup with a piece in it, if there is one.
pub(crate) fn put_optional(
    text: &mut String,
    markup: &'static str,
    piece: Option<Html<'_>>,
) -> Put {
    match piece {
        Some(piece) => put_html(text, markup, &[piece]),
        None => Ok(()),
    }
}

/// Puts a rectangle: its left, its top, its width and its height, and what stands behind these.
pub(crate) fn put_rect(
    text: &mut String,
    class: &'static str,
    place: [u64; 4],
    behind: &'static str,
) -> Put {
    let [x, y, width, height] = place;
    write!(
        text,
        "<rect class=\"{class}\" x=\"{x}\" y=\"{y}\" width=\"{width}\" height=\"{height}\"{behind}"
    )
}

/// With these bytes each page begins. No part of it may be loaded from anywhere, no script runs, and no
/// style but that of a sum, which stands next.
pub const BEGINNING: &str = "<!DOCTYPE html>
<html lang=\"en\">
<head>
<meta charset=\"utf-8\">
<meta http-equiv=\"Content-Security-Policy\" content=\"default-src 'none'; style-src 'sha256-";

// What stands between this and the front's summary: up to the name of the log, and behind it.
const HEAD: &str = "{}'; base-uri 'none'; form-action 'none'\">
<meta name=\"referrer\" content=\"no-referrer\">
<meta name=\"color-scheme\" content=\"light dark\">
<meta name=\"viewport\" content=\"width=device-width, initial-scale=1\">
<title>";

const STYLED: &str = "{}</title>
<style>{}</style>
</head>
<body>
";

/// Puts what stands between the beginning and the front's summary of the log of this name.
pub(crate) fn put_head(alloc: Global, text: &mut String, name: &str) -> Put {
    let sum = sum_of_style(alloc)?;
    put_html(text, HEAD, &[Text(sum.as_str())])?;
    put_html(text, STYLED, &[Text(name), Tag(STYLE)])
}

/// Puts what stands behind the last part.
pub(crate) fn put_foot(text: &mut String) -> Put
    ensures { OnOk result (string_bytes text.new ≡ string_bytes text.old ++ page_foot) }
{
    text.push_str("</body>\n</html>\n")
}
