//! The words of the program.

use clap::{Arg, ArgAction, ArgMatches, Command, Error};
use std::alloc::Global;

/// What is shown at the end of the help.
const EXAMPLES: &str = "Examples:
  trace_view run.script run.trace > page.html
  trace_view --text run.script run.trace
  trace_view --from 100 --to 180 run.script run.trace > part.html
  trace_view --svg --partition 0 run.script run.trace > run.svg
  trace_view 1.script 1.trace 2.script 2.trace > runs.html

Later pairs are later runs over one directory. Status 0: drawn. 1: a file can't be read, isn't a
script, or isn't the trace of a run of it. 2: wrong words, or too many entries to draw.";

/// An option that is a number.
fn number<'a>(alloc: Global, name: &'a str, value: &'a str, help: &'a str) -> Arg<'a> {
    Arg::new(alloc, name)
        .long(name)
        .value_name(value)
        .value_parser(clap::value_parser!(u64))
        .help(help)
}

/// An option that is given or not.
fn flag<'a>(alloc: Global, name: &'a str, help: &'a str) -> Arg<'a> {
    Arg::new(alloc, name)
        .long(name)
        .action(ArgAction::SetTrue)
        .help(help)
}

/// The options that choose a part.
fn with_part<'a>(alloc: Global, command: Command<'a>) -> Result<Command<'a>, Error> {
    Ok(
        command
            .arg(number(
                alloc,
                "from",
                "ENTRY",
                "Begin at this entry of each partition, counted from 0",
            ))?
            .arg(number(alloc, "to", "ENTRY", "End after this entry"))?
            .arg(number(alloc, "partition", "P", "Draw only this partition"))?,
    )
}

/// Returns the command.
pub fn command<'a>(alloc: Global) -> Result<Command<'a>, Error> {
    let files = Arg::new(alloc, "name")
        .required(true)
        .value_name("SCRIPT TRACE")
        .num_args(1..)
        .action(ArgAction::Append);
    let command = Command::new(alloc, "trace_view")
        .about("Draws a run of tiered from its script and its trace, as a page for a browser")
        .version("0.3.0")
        .after_help(EXAMPLES)
        .arg(files)?
        .arg(flag(alloc, "text", "Print lines for a terminal of 100 columns"))?
        .arg(flag(alloc, "svg", "Print the drawing of one partition alone"))?;
    with_part(alloc, command)
}

/// How a run is drawn.
#[derive(Clone, Copy, PartialEq, Eq)]
pub enum Form {
    Page,
    Svg,
    Text,
}

/// What is drawn.
#[derive(Clone, Copy)]
pub struct Choice {
    pub form: Form,
    /// The first entry of each partition.
    pub from: usize,
    /// The last entry.
    pub to: usize,
    pub partition: Option<u64>,
}

/// Returns what the words choose.
pub fn choice_of(matches: &ArgMatches<'_>) -> Choice {
    let form = if matches.get_flag("text") {
        Form::Text
    } else if matches.get_flag("svg") {
        Form::Svg
    } else {
        Form::Page
    };
    Choice {
        form,
        from: matches.get_one::<u64>("from").unwrap_or(0) as usize,
        to: matches.get_one::<u64>("to").unwrap_or(u64::MAX) as usize,
        partition: matches.get_one::<u64>("partition"),
    }
}
