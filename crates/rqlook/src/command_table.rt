//! The commands of the program, with their words.

use WordForm::{Flag, Letter, Several, Value, With, WithName, WithOr};
use clap::builder::ValueParser;
use rq_words::{Subcommand, Word, WordForm};

// What the value of a word has to be: a number that 64 bits hold.
const NUMBER: ValueParser<'static> = ValueParser::Unsigned(0, u64::MAX);

// Or the name of a kind of record.
const KIND: ValueParser<'static> = ValueParser::Names(&[
    "define",
    "register",
    "deregister",
    "begin",
    "enqueue",
    "dequeue",
    "commit",
    "abort",
    "checkpoint",
    "kill",
]);

// Or that of an order of a page's queues.
const ORDER: ValueParser<'static> = ValueParser::Names(&["depth", "number", "name"]);

const LOG: Word = Word(
    "LOG",
    Value(Word::TEXT),
    "The file of the log, or - for standard input",
);

const WIDTH: Word = Word(
    "width",
    With("COLUMNS", Word::SMALL),
    "Cuts lines to so many columns, 0 for none; those of the terminal if the output is one",
);

const FORCE: Word = Word(
    "force",
    Flag,
    "Replaces OUT though it is no earlier file of the kind; a log is never replaced",
);

/// The commands of the program, as its help shows them. (A function of its own, since the check of
/// one grows with the statics that it names.)
pub(crate) fn subcommands() -> &'static [Subcommand] {
    COMMANDS.as_slice()
}

static COMMANDS: [Subcommand; 10] = [
    Subcommand {
        name: "dump",
        about: "Shows a line for each record, and where the front ends and why",
        words: &[
            LOG,
            Word(
                "from",
                With("OFFSET", NUMBER),
                "Only records at this offset and behind it",
            ),
            Word("unit", With("UNIT", NUMBER), "Only records of this unit"),
            Word(
                "queue",
                With("QUEUE", Word::SMALL),
                "Only records that define or name this queue",
            ),
            Word(
                "registrant",
                WithName("NAME"),
                "Only records that name this registrant",
            ),
            Word("kind", With("KIND", KIND), "Only records of this kind"),
            Word("limit", With("COUNT", NUMBER), "At most so many records"),
            Word("full", Flag, "Shows payloads whole"),
            Word("json", Flag, "Shows each line as an object of JSON"),
            Word(
                "behind",
                Flag,
                "Shows the right frames behind the front too, each marked so",
            ),
            WIDTH,
            Word::WORKERS,
        ],
    },
    Subcommand {
        name: "check",
        about: "Exits with 0 if the log is whole and each checkpoint true, and with 1 if it finds \
                something",
        words: &[
            LOG,
            Word("quiet", Letter('q'), "Says nothing"),
            WIDTH,
            Word::WORKERS,
        ],
    },
    Subcommand {
        name: "report",
        about: "Shows the report of the log's restart",
        words: &[
            LOG,
            Word("queue", With("QUEUE", Word::SMALL), "Only this queue"),
            Word("json", Flag, "Shows the report as JSON"),
            WIDTH,
            Word::WORKERS,
        ],
    },
    Subcommand {
        name: "script",
        about: "Shows the script from which rq make, or rq make2 for a log of version 2, makes the \
                log again",
        words: &[LOG, Word::WORKERS],
    },
    Subcommand {
        name: "salvage",
        about: "Makes a script of the front, with the records of the right frames behind it to choose \
                from",
        words: &[
            LOG,
            Word(
                "OUT",
                Value(Word::TEXT),
                "The file of the script, or - for standard output",
            ),
            FORCE,
            Word::WORKERS,
        ],
    },
    Subcommand {
        name: "mend",
        about: "Makes a log of a damaged one, with the bytes put back that a digest proves",
        words: &[
            LOG,
            Word(
                "OUT",
                Value(Word::TEXT),
                "The file of the mended log, where none may be yet, or - for standard output",
            ),
            Word::WORKERS,
        ],
    },
    Subcommand {
        name: "stats",
        about: "Shows numbers of the log: records by kind, units by outcome, and what is greatest",
        words: &[
            LOG,
            Word("json", Flag, "Shows them as JSON"),
            Word(
                "time",
                Flag,
                "Tells on standard error how long a megabyte of the log took",
            ),
            WIDTH,
            Word::WORKERS,
        ],
    },
    Subcommand {
        name: "story",
        about: "Shows what became of one element",
        words: &[
            LOG,
            Word(
                "ELEMENT",
                Value(NUMBER),
                "The number of the record that put it in",
            ),
            WIDTH,
            Word::WORKERS,
        ],
    },
    Subcommand {
        name: "unit",
        about: "Shows what one unit did, and what became of it",
        words: &[
            LOG,
            Word("UNIT", Value(NUMBER), "The number of the unit"),
            WIDTH,
            Word::WORKERS,
        ],
    },
    Subcommand {
        name: "page",
        about: "Makes a page of HTML that shows the log, with its queues and their elements",
        words: &[
            LOG,
            Word(
                "OUT",
                Value(Word::TEXT),
                "The file of the page, or - for standard output",
            ),
            Word(
                "order",
                WithOr("ORDER", ORDER, "depth"),
                "In which order the queues stand",
            ),
            Word(
                "element",
                Several("ELEMENT", NUMBER),
                "Shows what became of this element also if the log is long; may be given several times",
            ),
            Word(
                "unit",
                Several("UNIT", NUMBER),
                "Shows what this unit did also if the log is long; may be given several times",
            ),
            FORCE,
            Word::WORKERS,
        ],
    },
];
