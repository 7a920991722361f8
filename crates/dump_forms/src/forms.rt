//! Each form: its words, its files, and what is printed of them.

use crate::batches::{Choice, print_log};
use crate::folder::print_folder;
use crate::indexes::{print_index, print_time_index};
use crate::notes::print_notes;
use crate::output::finish;
use crate::script::print_script;
use crate::small::{print_checkpoint, print_manifest, print_pack, print_registry};
use clap::ArgMatches;
use dump_lines::{LineText, Name, Style};
use std::io::{self, BufWriter, Write};

/// How the words ask for lines.
fn style_of(matches: &ArgMatches<'_>) -> Style {
    Style {
        json: matches.get_flag("json"),
        human: matches.get_flag("human"),
        dates: matches.get_flag("dates"),
    }
}

/// The name of a file or a folder.
fn name_of<'a>(matches: &ArgMatches<'a>) -> &'a str {
    matches.get_str("name").unwrap_or("")
}

/// Does what the words ask for, and returns the status.
pub fn run(rt: &HostRuntime, matches: &ArgMatches<'_>) -> io::Result<u8> {
    let Some((form, inner)) = matches.subcommand() else {
        return Ok(2);
    };
    let mut out = BufWriter::new(rt.alloc(), io::writer(rt))?;
    let status = run_form(rt, &mut out, form, inner)?;
    out.flush()?;
    Ok(status)
}

/// Does what a form asks for.
fn run_form<W: Write>(
    rt: &HostRuntime,
    out: &mut W,
    form: &str,
    matches: &ArgMatches<'_>,
) -> io::Result<u8> {
    let style = style_of(matches);
    let name = name_of(matches);
    match form {
        "log" => logs(rt, out, style, matches),
        "index" => print_index(rt, out, style, name, matches.get_str("log")),
        "timeindex" => print_time_index(rt, out, style, name, matches.get_str("log")),
        "pack" => print_pack(rt, out, style, name, matches.get_str("custom")),
        _ => run_plain(rt, out, style, form, name),
    }
}

/// Does what a form asks for that has only a name.
fn run_plain<W: Write>(
    rt: &HostRuntime,
    out: &mut W,
    style: Style,
    form: &str,
    name: &str,
) -> io::Result<u8> {
    match form {
        "epochs" => print_checkpoint(rt, out, style, name),
        "manifest" => print_manifest(rt, out, style, name),
        "notes" => print_notes(rt, out, style, name),
        "registry" => print_registry(rt, out, style, name),
        "dir" => print_folder(rt, out, style, name),
        _ => print_script(rt, out, name),
    }
}

/// `log`: prints the batches of each file.
fn logs<W: Write>(
    rt: &HostRuntime,
    out: &mut W,
    style: Style,
    matches: &ArgMatches<'_>,
) -> io::Result<u8> {
    let choice = Choice {
        style,
        records: matches.get_flag("records"),
        from: matches.get_one::<u64>("from").unwrap_or(0),
        to: matches.get_one::<u64>("to").unwrap_or(u64::MAX),
    };
    let names = matches.get_strs("name").unwrap_or(&[]);
    let mut status = 0;
    for name in names {
        if names.len() > 1 {
            print_name(rt, out, style, name)?;
        }
        status |= print_log(rt, out, choice, name)?;
    }
    Ok(status)
}

/// Prints the name of the file whose batches follow.
fn print_name<W: Write>(rt: &HostRuntime, out: &mut W, style: Style, name: &str) -> io::Result<()> {
    if !style.json {
        return write!(out, "Dumping {name}\n");
    }
    let mut line = LineText::new(rt.alloc(), style);
    line.word(rt.alloc(), Name::File, name)?;
    finish(rt, out, line)
}
