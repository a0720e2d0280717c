//! The words of a program that has several commands, each of which has words of its own: tables of
//! them, and `clap`'s commands by these tables.
#![tactic(auto)]

use clap::builder::ValueParser;
use clap::{Arg, ArgAction, Command};
use std::alloc::{AllocError, Global};

/// How a word is given.
#[derive(Clone, Copy)]
pub enum WordForm {
    /// A value, which must be there.
    Value(ValueParser<'static>),
    /// A value, or else this one.
    ValueOr(ValueParser<'static>, &'static str),
    /// An option with nothing.
    Flag,
    /// The same, which a letter gives too.
    Letter(char),
    /// An option with a value, as the help calls it.
    With(&'static str, ValueParser<'static>),
    /// The same, any text, which may begin with a hyphen.
    WithName(&'static str),
    /// The same, or else this value.
    WithOr(&'static str, ValueParser<'static>, &'static str),
    /// The same, which may be given several times.
    Several(&'static str, ValueParser<'static>),
}

/// A word of a command: its name, how it is given, and what the help says of it.
#[derive(Clone, Copy)]
pub struct Word(pub &'static str, pub WordForm, pub &'static str);

impl Word {
    /// What the value of a word has to be: any text.
    pub const TEXT: ValueParser<'static> = ValueParser::String;

    /// Or a number that 32 bits hold.
    pub const SMALL: ValueParser<'static> = ValueParser::Signed(0, 4_294_967_295);

    /// How many workers there are, as an option.
    pub const WORKERS: Word = Word(
        "workers",
        WordForm::WithOr("WORKERS", Word::SMALL, "4"),
        "How many threads work, 1 to 64",
    );
}

/// A command: its name, what the help says of it, and its words.
pub struct Subcommand {
    pub name: &'static str,
    pub about: &'static str,
    pub words: &'static [Word],
}

fn plain<'a>(alloc: Global, word: &Word) -> Arg<'a> {
    Arg::new(alloc, word.0).help(word.2)
}

fn value<'a>(alloc: Global, word: &Word, parser: ValueParser<'static>) -> Arg<'a> {
    plain(alloc, word).value_parser(parser)
}

fn flag<'a>(alloc: Global, word: &Word) -> Arg<'a> {
    plain(alloc, word).long(word.0).action(ArgAction::SetTrue)
}

fn option<'a>(
    alloc: Global,
    word: &Word,
    name: &'static str,
    parser: ValueParser<'static>,
) -> Arg<'a> {
    value(alloc, word, parser).long(word.0).value_name(name)
}

fn argument<'a>(alloc: Global, word: &Word) -> Arg<'a> {
    match word.1 {
        WordForm::Value(parser) => value(alloc, word, parser).required(true),
        WordForm::ValueOr(parser, usual) => value(alloc, word, parser).default_value(usual),
        WordForm::Flag => flag(alloc, word),
        WordForm::Letter(letter) => flag(alloc, word).short(letter),
        WordForm::With(name, parser) => option(alloc, word, name, parser),
        WordForm::WithName(name) => option(alloc, word, name, Word::TEXT).allow_hyphen_values(true),
        WordForm::WithOr(name, parser, usual) => {
            option(alloc, word, name, parser).default_value(usual)
        }
        WordForm::Several(name, parser) => {
            option(alloc, word, name, parser).action(ArgAction::Append)
        }
    }
}

fn arguments<'a>(alloc: Global, words: &'static [Word]) -> Result<Vec<Arg<'a>>, AllocError> {
    let mut arguments = Vec::new(alloc);
    for word in words {
        arguments.push(argument(alloc, word))?;
    }
    Ok(arguments)
}

fn command_of<'a>(alloc: Global, text: &Subcommand) -> Result<Command<'a>, AllocError> {
    let arguments = arguments(alloc, text.words)?;
    Command::new(alloc, text.name)
        .about(text.about)
        .args(arguments)
}

fn commands<'a>(
    alloc: Global,
    texts: &'static [Subcommand],
) -> Result<Vec<Command<'a>>, AllocError> {
    let mut commands = Vec::new(alloc);
    for text in texts {
        commands.push(command_of(alloc, text)?)?;
    }
    Ok(commands)
}

impl Subcommand {
    /// The command of a program by its name, what its help says of it, its version, and the table of
    /// its commands, one of which must be given.
    pub fn program_command<'a>(
        alloc: Global,
        name: &'static str,
        about: &'static str,
        version: &'static str,
        texts: &'static [Subcommand],
    ) -> Result<Command<'a>, AllocError> {
        let commands = commands(alloc, texts)?;
        Command::new(alloc, name)
            .about(about)
            .version(version)
            .subcommand_required(true)
            .subcommands(commands)
    }
}
