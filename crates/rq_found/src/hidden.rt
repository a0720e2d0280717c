//! Characters that nobody sees.

ghost use Rattle.std.specs.Prelude.{◌≡◌};
ghost use Rattle.rq_found.specs.Texts as texts;

use std::fmt;

/// A text in which each hidden character is told by its number, as `\u{202e}`.
#[derive(Clone, Copy, Debug)]
pub struct Seen<'a>(pub &'a str);

impl Seen<'_> {
    /// Whether a character is a control or a format character of Unicode, or separates lines or
    /// paragraphs: it may move a terminal's cursor, take no room, or turn the direction of the text
    /// around it.
    pub fn is_hidden(c: char) -> bool
        ensures { result ≡ texts.is_hidden c }
    {
        c.is_control()
            || matches!(
            c,
            '\u{ad}'
                | '\u{600}'..='\u{605}'
                | '\u{61c}'
                | '\u{6dd}'
                | '\u{70f}'
                | '\u{890}'..='\u{891}'
                | '\u{8e2}'
                | '\u{180e}'
                | '\u{200b}'..='\u{200f}'
                | '\u{2028}'..='\u{202e}'
                | '\u{2060}'..='\u{2064}'
                | '\u{2066}'..='\u{206f}'
                | '\u{feff}'
                | '\u{fff9}'..='\u{fffb}'
                | '\u{110bd}'
                | '\u{110cd}'
                | '\u{13430}'..='\u{1343f}'
                | '\u{1bca0}'..='\u{1bca3}'
                | '\u{1d173}'..='\u{1d17a}'
                | '\u{e0001}'
                | '\u{e0020}'..='\u{e007f}'
        )
    }
}

fn write_seen<W: fmt::Write>(f: &mut fmt::Formatter<W>, c: char) -> fmt::Result {
    if Seen::is_hidden(c) {
        write!(f, "\\u{{{:x}}}", c as u32)
    } else {
        f.write_char(c)
    }
}

impl fmt::Display for Seen<'_> {
    fn fmt<W: fmt::Write>(&self, f: &mut fmt::Formatter<W>) -> fmt::Result {
        for c in self.0.chars() {
            write_seen(f, c)?;
        }
        Ok(())
    }
}
