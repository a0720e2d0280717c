//! The words of the program.

use WordForm::{Flag, Value, ValueOr, WithOr};
use clap::Command;
use rq_file::VERSION;
use rq_words::{Subcommand, Word, WordForm};
use std::alloc::{AllocError, Global};

const LOG: Word = Word(
    "LOG",
    Value(Word::TEXT),
    "The file of the log, plain or carried on",
);

const NEW: Word = Word(
    "NEW",
    Value(Word::TEXT),
    "The file of the new log, which is not there yet",
);

const JSON: Word = Word("json", Flag, "Says what was done as an object of JSON");

const DROP: Word = Word(
    "drop",
    Flag,
    "Leaves out what stands behind the front, whatever it is, and says how much",
);

const COUNT: Word = Word(
    "WORKERS",
    ValueOr(Word::SMALL, "4"),
    "How many threads work, 1 to 64",
);

static COMMANDS: [Subcommand; 10] = [
    Subcommand {
        name: "new",
        about: "Makes a log that has no record yet, in version 2",
        words: &[NEW],
    },
    Subcommand {
        name: "append",
        about: "Appends the records of a script to a log, all of them or none",
        words: &[
            LOG,
            Word(
                "SCRIPT",
                ValueOr(Word::TEXT, "-"),
                "The file of the script, or - for standard input",
            ),
            Word(
                "each",
                Flag,
                "Appends the records before the first that is not lawful, in place of none",
            ),
            DROP,
            JSON,
            Word::WORKERS,
        ],
    },
    Subcommand {
        name: "recover",
        about: "Makes a log whole that a crash left: keeps what it cuts off, and aborts open units",
        words: &[LOG, DROP, JSON, Word::WORKERS],
    },
    Subcommand {
        name: "checkpoint",
        about: "Appends a checkpoint of the state behind a log, and prints its offset",
        words: &[
            LOG,
            Word("close", Flag, "Ends each open unit before, by an ABORT"),
            DROP,
            JSON,
            Word::WORKERS,
        ],
    },
    Subcommand {
        name: "carry",
        about: "Makes a new log that goes on where a log ends, with its state alone",
        words: &[LOG, NEW, DROP, JSON, Word::WORKERS],
    },
    Subcommand {
        name: "serve",
        about: "Serves the queues of a log to the program at standard input and output",
        words: &[
            LOG,
            Word(
                "create",
                Flag,
                "Makes the log if it is not there, in version 2",
            ),
            Word(
                "carry-at",
                WithOr("BYTES", Word::SMALL, "3221225472"),
                "Goes on in a new log when this one has so many bytes",
            ),
            Word::WORKERS,
        ],
    },
    Subcommand {
        name: "follow",
        about: "Goes along with a log that comes, and prints its report where it ends, or serves a copy",
        words: &[
            Word(
                "COPY",
                ValueOr(Word::TEXT, "-"),
                "The file of a copy that is written as the log comes, or - for none",
            ),
            Word(
                "from",
                WithOr("FILE", Word::TEXT, "-"),
                "A pipe or a file that the log comes from, or - for standard input",
            ),
            Word(
                "serve",
                Flag,
                "Serves the copy where the log ends, in place of the report",
            ),
            Word::WORKERS,
        ],
    },
    Subcommand {
        name: "restart",
        about: "Prints the report of a log's restart, as rq restart does",
        words: &[
            LOG,
            COUNT,
            Word(
                "GRAIN",
                ValueOr(Word::SMALL, "1000"),
                "How many frames a worker checks at once, 1 to 1000000",
            ),
        ],
    },
    Subcommand {
        name: "close",
        about: "Writes the closed log, as rq close does",
        words: &[
            LOG,
            Word(
                "OUT",
                Value(Word::TEXT),
                "The file of the closed log, which may be LOG",
            ),
            Word("force", Flag, "Replaces OUT if it is there"),
            DROP,
            COUNT,
        ],
    },
    Subcommand {
        name: "audit",
        about: "Prints which checkpoints of a log are true, as rq audit does",
        words: &[LOG, COUNT],
    },
];

// The commands of the program, as its help shows them. (A function of its own, since the check of
// one grows with the statics that it names.)
fn subcommands() -> &'static [Subcommand] {
    COMMANDS.as_slice()
}

/// The program's command.
pub(crate) fn program<'a>(alloc: Global) -> Result<Command<'a>, AllocError> {
    let about = "Appends to the log of a recoverable queue manager, marks it and carries it on";
    Subcommand::program_command(alloc, "rqlog", about, VERSION, subcommands())
}
