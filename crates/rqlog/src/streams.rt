//! What the program reads and writes, and what it is called.

use clap::ArgMatches;
use rq_found::Seen;

/// What cannot be opened, read or written.
#[derive(Clone, Copy)]
pub(crate) enum Stream {
    Log,
    Script,
    New,
    Out,
    /// The log, which is as it was: nothing was appended.
    LogAsItWas,
    /// The log, where some of what was to be appended may stand.
    LogUnknown,
    /// The log, which may be cut to its front already.
    LogToRecover,
    /// The file that keeps what is cut off at an offset.
    Kept(usize),
    /// The log that a standby goes along with.
    Source,
    Input,
    Output,
    /// The output that was to tell what is done all the same.
    Telling,
}

// What a word of the command names. A standby writes no log but the copy of one.
fn named<'a>(words: &'a ArgMatches<'_>, word: &str) -> Option<&'a str> {
    match words.get_str(word) {
        None if word == "LOG" => words.get_str("COPY"),
        name => name,
    }
}

impl Stream {
    // The word of the command that names it, if one does.
    fn word(self) -> Option<&'static str> {
        match self {
            Stream::Log
            | Stream::LogAsItWas
            | Stream::LogUnknown
            | Stream::LogToRecover
            | Stream::Kept(_) => Some("LOG"),
            Stream::Script => Some("SCRIPT"),
            Stream::Source => Some("from"),
            Stream::New => Some("NEW"),
            Stream::Out => Some("OUT"),
            Stream::Input | Stream::Output | Stream::Telling => None,
        }
    }

    /// What it is called by these words.
    pub(crate) fn called<'a>(self, words: Option<&'a ArgMatches<'_>>) -> Seen<'a> {
        if matches!(self, Stream::Input) {
            return Seen("standard input");
        }
        let Some(word) = self.word() else {
            return Seen("standard output");
        };
        match words.and_then(|words| named(words, word)) {
            Some("-") if matches!(self, Stream::Script | Stream::Source) => Seen("standard input"),
            Some(name) => Seen(name),
            None => Seen(word),
        }
    }

    /// What is left after it failed, if that is to be told.
    pub(crate) fn what_is_left(self) -> &'static str {
        match self {
            Stream::LogAsItWas => ": nothing was appended",
            Stream::LogUnknown => ": some records may stand there: rqlook check tells",
            Stream::LogToRecover => ": use rqlog recover again",
            Stream::Telling => ": it is done all the same",
            _ => "",
        }
    }
}
