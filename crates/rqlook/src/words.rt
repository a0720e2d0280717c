//! The words of the program.

use crate::command_table::subcommands;
use clap::{ArgMatches, Command};
use rq_file::VERSION;
use rq_found::Subject;
use rq_look::Wanted;
use rq_page::Order;
use rq_words::Subcommand;
use std::alloc::{AllocError, Global};

/// The program's command.
pub(crate) fn program<'a>(alloc: Global) -> Result<Command<'a>, AllocError> {
    let about = "Shows what is in the log of a recoverable queue manager";
    let program = Subcommand::program_command(alloc, "rqlook", about, VERSION, subcommands())?;
    Ok(program.arg_required_else_help(true))
}

/// To how many columns the words want lines cut, 0 for none, if the output has so many where a person
/// sees it. Lines of JSON are not cut, nor is what is to be shown in full unless a width is given.
pub(crate) fn columns_asked(words: &ArgMatches<'_>, shown: u32) -> u32 {
    if words.get_flag("json") {
        return 0;
    }
    let usual = if words.get_flag("full") { 0 } else { shown };
    words.get_one::<u32>("width").unwrap_or(usual)
}

/// Which element or unit the words of a story name.
pub(crate) fn subject_asked(words: &ArgMatches<'_>) -> Subject {
    match words.get_one::<u64>("UNIT") {
        Some(unit) => Subject::Unit(unit),
        None => Subject::Element(words.get_one::<u64>("ELEMENT").unwrap_or(0)),
    }
}

/// In which order the words of a page want its queues.
pub(crate) fn order_asked(words: &ArgMatches<'_>) -> Order {
    match words.get_str("order") {
        Some("number") => Order::Number,
        Some("name") => Order::Name,
        _ => Order::Depth,
    }
}

/// The numbers that the words of a page give for this name.
pub(crate) fn numbers_asked(
    alloc: Global,
    words: &ArgMatches<'_>,
    name: &str,
) -> Result<Vec<u64>, AllocError> {
    let mut asked = Vec::new(alloc);
    let Some(numbers) = words.get_many::<u64>(name) else {
        return Ok(asked);
    };
    // Each is a number: the words were refused else.
    for number in numbers {
        asked.push(number.unwrap_or(0))?;
    }
    Ok(asked)
}

/// Which records the words of a dump ask for.
pub(crate) fn records_asked<'a>(words: &ArgMatches<'a>) -> Wanted<'a> {
    Wanted {
        from: words.get_one::<u64>("from").unwrap_or(0),
        unit: words.get_one::<u64>("unit"),
        queue: words.get_one::<u32>("queue"),
        registrant: words.get_str("registrant"),
        kind: words.get_str("kind"),
        limit: words.get_one::<u64>("limit").unwrap_or(u64::MAX),
        full: words.get_flag("full"),
        json: words.get_flag("json"),
        behind: words.get_flag("behind"),
    }
}
