//! Payloads: the first of a payload in a line, and all of it if that is asked for.

use crate::markup::Html::Count;
use crate::markup::{put_char, put_html};
use rq_found::{Put, TextPiece};
use std::alloc::{AllocError, Global};
use std::str::from_utf8;

// As many characters or bytes are shown at once.
const FIRST: usize = 80;

// Puts a character; the end of a line and a tab with a mark before them, so that both are seen.
fn put_kept(text: &mut String, c: char) -> Put {
    match c {
        '\n' => text.push_str("\u{21b5}\n"),
        '\t' => text.push_str("\u{21e5}\t"),
        c => put_char(text, c),
    }
}

// Puts the first characters, and answers how many bytes these have.
fn put_characters(text: &mut String, word: &str, most: usize) -> Result<usize, AllocError> {
    let mut shown: usize = 0;
    for c in word.chars().take(most) {
        put_kept(text, c)?;
        shown = shown.saturating_add(c.len_utf8());
    }
    Ok(shown)
}

// Puts the first of a payload, as text if it is one, and answers how many bytes these have.
fn put_first(
    alloc: Global,
    text: &mut String,
    bytes: &[u8],
    most: usize,
) -> Result<usize, AllocError> {
    match from_utf8(bytes) {
        Ok(word) => {
            text.push_str("<bdi class=\"text\">")?;
            put_characters(text, word, most)
        }
        Err(_) => {
            text.push_str("<bdi class=\"text hex\">")?;
            TextPiece::put_digits(alloc, text, bytes, most)
        }
    }
}

// Puts what stands behind the first of a payload, of which so many bytes are shown.
fn put_behind(alloc: Global, text: &mut String, bytes: &[u8], shown: usize, whole: bool) -> Put {
    let count = Count(bytes.len() as u64);
    if shown >= bytes.len() {
        return text.push_str("</bdi>");
    }
    if !whole {
        return put_html(text, "</bdi><i>.. {} bytes</i>", &[count]);
    }
    let head = "</bdi><details><summary>all {} bytes</summary>";
    put_html(text, head, &[count])?;
    put_first(alloc, text, bytes, bytes.len())?;
    text.push_str("</bdi></details>")
}

/// Puts a payload: its first characters, or bytes if it is no text, and how many bytes it has; all
/// of it to be folded out, if that is wanted.
pub(crate) fn put_payload_cell(alloc: Global, text: &mut String, bytes: &[u8], whole: bool) -> Put {
    if bytes.is_empty() {
        return text.push_str("<i>no bytes</i>");
    }
    let shown = put_first(alloc, text, bytes, FIRST)?;
    put_behind(alloc, text, bytes, shown, whole)
}
