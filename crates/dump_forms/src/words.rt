//! The forms of the program, as words.

use clap::{Arg, ArgAction, Command, Error};
use std::alloc::Global;

/// Returns the whole command.
pub fn command<'a>(alloc: Global) -> Result<Command<'a>, Error> {
    let command = Command::new(alloc, "tier_dump")
        .about("Prints what the files of a log, a remote tier and a run hold")
        .version("0.3.0")
        .subcommand_required(true)
        .subcommand(log(alloc)?)?
        .subcommand(index(
            alloc,
            "index",
            "Entries of an offset index",
            "Example: tier_dump index --log 00000000000000000000.log 00000000000000000000.index",
        )?)?
        .subcommand(index(
            alloc,
            "timeindex",
            "Entries of a time index",
            "Example: tier_dump timeindex --dates 00000000000000000000.timeindex",
        )?)?
        .subcommand(one(
            alloc,
            "epochs",
            "FILE",
            "A leader-epoch checkpoint, or an .epochs object",
            "Example: tier_dump epochs leader-epoch-checkpoint",
        )?)?
        .subcommand(one(
            alloc,
            "manifest",
            "FILE",
            "A broker's manifest",
            "Example: tier_dump manifest DIR/p0/b0/manifest",
        )?)?;
    others(alloc, command)
}

/// Appends the forms after `manifest`.
fn others<'a>(alloc: Global, command: Command<'a>) -> Result<Command<'a>, Error> {
    let command = command
        .subcommand(one(
            alloc,
            "notes",
            "DIR",
            "Metadata events: the files notes and gate of a folder",
            "Example: tier_dump notes DIR/p0/meta",
        )?)?
        .subcommand(one(
            alloc,
            "registry",
            "FILE",
            "A partition's registry",
            "Example: tier_dump registry DIR/p0/reg/registry",
        )?)?
        .subcommand(pack(alloc)?)?
        .subcommand(one(
            alloc,
            "dir",
            "DIR",
            "A folder of `tiered run`",
            "Example: tier_dump dir --human DIR",
        )?)?
        .subcommand(script(alloc)?)?;
    Ok(command)
}

/// Appends the options that say how lines are printed.
fn with_style<'a>(alloc: Global, command: Command<'a>) -> Result<Command<'a>, Error> {
    let json = Arg::new(alloc, "json")
        .long("json")
        .action(ArgAction::SetTrue)
        .help("Print a JSON object a line");
    let human = Arg::new(alloc, "human")
        .long("human")
        .action(ArgAction::SetTrue)
        .help("Print sizes in KiB, MiB and so on");
    let dates = Arg::new(alloc, "dates")
        .long("dates")
        .action(ArgAction::SetTrue)
        .help("Print times as dates in UTC");
    Ok(command.arg(json)?.arg(human)?.arg(dates)?)
}

/// A form that takes one name.
fn one<'a>(
    alloc: Global,
    name: &'a str,
    what: &'a str,
    about: &'a str,
    example: &'a str,
) -> Result<Command<'a>, Error> {
    let file = Arg::new(alloc, "name").required(true).value_name(what);
    let command = Command::new(alloc, name)
        .about(about)
        .after_help(example)
        .arg(file)?;
    with_style(alloc, command)
}

/// `log FILE..`
fn log<'a>(alloc: Global) -> Result<Command<'a>, Error> {
    let files = Arg::new(alloc, "name")
        .required(true)
        .value_name("FILE")
        .num_args(1..)
        .action(ArgAction::Append);
    let records = Arg::new(alloc, "records")
        .long("records")
        .action(ArgAction::SetTrue)
        .help("Print the records of uncompressed batches");
    let command = Command::new(alloc, "log")
        .about("Batches of log segments")
        .after_help("Example: tier_dump log --records DIR/p0/b0/00000000000000000000.log")
        .arg(files)?
        .arg(records)?
        .arg(offset(
            alloc,
            "from",
            "Leave out batches that end below this offset",
        ))?
        .arg(offset(
            alloc,
            "to",
            "Leave out batches that begin above this offset",
        ))?;
    with_style(alloc, command)
}

/// An option that is an offset.
fn offset<'a>(alloc: Global, name: &'a str, help: &'a str) -> Arg<'a> {
    Arg::new(alloc, name)
        .long(name)
        .value_name("OFFSET")
        .value_parser(clap::value_parser!(u64))
        .help(help)
}

/// `index FILE` and `timeindex FILE`
fn index<'a>(
    alloc: Global,
    name: &'a str,
    about: &'a str,
    example: &'a str,
) -> Result<Command<'a>, Error> {
    let log = Arg::new(alloc, "log")
        .long("log")
        .value_name("FILE")
        .help("Test each entry against this log segment");
    Ok(one(alloc, name, "FILE", about, example)?.arg(log)?)
}

/// `pack FILE --custom HEX`
fn pack<'a>(alloc: Global) -> Result<Command<'a>, Error> {
    let custom = Arg::new(alloc, "custom")
        .long("custom")
        .value_name("HEX")
        .required(true)
        .help("The segment's custom metadata, which says how long the parts are");
    Ok(one(
        alloc,
        "pack",
        "FILE",
        "The parts of a packed segment's object",
        "Example: tier_dump pack DIR/p0/store/ID.pack --custom 0100000045000000000000000c00000008",
    )?
    .arg(custom)?)
}

/// `script FILE`. Its lines are a script's, so it has no options for them.
fn script<'a>(alloc: Global) -> Result<Command<'a>, Error> {
    let file = Arg::new(alloc, "name").required(true).value_name("FILE");
    Ok(
        Command::new(alloc, "script")
            .about("A script of raw lines with a log segment's batches")
            .after_help("Example: tier_dump script FILE > raw.script")
            .arg(file)?,
    )
}
