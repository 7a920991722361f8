//! Does what the words ask for: reads scripts and traces, and prints the picture.

use crate::drawing::{Place, push_drawing};
use crate::page::{push_foot, push_head, push_partition};
use crate::part::{MOST, part};
use crate::plot::scale_of;
use crate::terminal::push_lines;
use crate::words::{Choice, Form, choice_of, command};
use run_story::{Moment, Story, Tracked, tell_run};
use std::alloc::{AllocError, Global};
use std::{fs, io};
use tier_base::Items;

/// The most bytes that a script may have.
const SCRIPT_LIMIT: usize = 16_777_216;

/// Prints what is wrong with a file, and returns status 1.
fn complain(rt: &HostRuntime, name: &str, what: &str) -> io::Result<u8> {
    eprint!(rt; "trace_view: {name}: {what}\n")?;
    Ok(1)
}

/// Prints why the words can't be done, and returns status 2.
fn refuse(rt: &HostRuntime, what: &str) -> io::Result<u8> {
    eprint!(rt; "trace_view: {what}\n")?;
    Ok(2)
}

/// Reads a file of text, or prints why it can't be read.
fn text_of(rt: &HostRuntime, name: &str) -> io::Result<Option<String>> {
    let bytes = match fs::read(rt, name) {
        Ok(bytes) => bytes,
        Err(error) => {
            eprint!(rt; "trace_view: {name}: {error}\n")?;
            return Ok(None);
        }
    };
    match String::from_utf8(bytes) {
        Ok(text) => Ok(Some(text)),
        Err(_) => {
            complain(rt, name, "isn't UTF-8")?;
            Ok(None)
        }
    }
}

/// Appends a partition of a run, in the form that was chosen.
fn push_story(
    alloc: Global,
    out: &mut String,
    form: Form,
    place: &Place,
    story: &Story,
    moments: &[Moment],
) -> Result<(), AllocError> {
    match form {
        Form::Page => push_partition(alloc, out, place, story, moments),
        Form::Svg => push_drawing(alloc, out, place, story, moments, true),
        Form::Text => {
            let top = scale_of(moments, place.first).top;
            push_lines(alloc, out, place, story, moments, top)
        }
    }
}

/// Whether a partition was chosen.
fn is_chosen(choice: &Choice, story: &Story) -> bool {
    match choice.partition {
        Some(partition) => partition == story.partition.0 as u64,
        None => true,
    }
}

/// What a run adds to the picture, and how many drawings it has by then.
fn push_run(
    alloc: Global,
    out: &mut String,
    choice: &Choice,
    run: usize,
    stories: &[Story],
    drawn: &mut usize,
) -> Result<Option<Place>, AllocError> {
    for story in stories {
        if is_chosen(choice, story) {
            let moments = part(story.moments.as_slice(), choice.from, choice.to);
            let place = Place {
                run,
                partition: story.partition.0,
                first: choice.from,
            };
            if moments.len() > MOST {
                return Ok(Some(place));
            }
            push_story(alloc, out, choice.form, &place, story, moments)?;
            *drawn = drawn.saturating_add(1);
        }
    }
    Ok(None)
}

/// Prints that a partition has too many entries.
fn refuse_long(rt: &HostRuntime, place: &Place) -> io::Result<u8> {
    let Place { run, partition, .. } = *place;
    eprint!(rt;
        "trace_view: run {run}, partition {partition}: more than {MOST} entries: name a part by --from and --to\n"
    )?;
    Ok(2)
}

/// Reads a script and its trace, and adds the run to the picture. Returns the status, if it can't.
fn add_run(
    rt: &HostRuntime,
    out: &mut String,
    choice: &Choice,
    run: usize,
    names: (&str, &str),
    states: &mut Items<Tracked>,
    drawn: &mut usize,
) -> io::Result<Option<u8>> {
    let Some(script) = text_of(rt, names.0)? else {
        return Ok(Some(1));
    };
    let Some(trace) = text_of(rt, names.1)? else {
        return Ok(Some(1));
    };
    if script.len() > SCRIPT_LIMIT {
        return Ok(Some(complain(rt, names.0, "more than 16 MiB")?));
    }
    match tell_run(rt.alloc(), script.as_str(), trace.as_str(), states) {
        Ok(stories) => {
            match push_run(rt.alloc(), out, choice, run, stories.as_slice(), drawn)? {
                Some(place) => Ok(Some(refuse_long(rt, &place)?)),
                None => Ok(None),
            }
        }
        Err(why) => {
            eprint!(rt; "trace_view: run {run}: {why}\n")?;
            Ok(Some(1))
        }
    }
}

/// Draws all runs, and returns the status.
fn draw(rt: &HostRuntime, choice: &Choice, names: &[&str]) -> io::Result<u8> {
    let mut out = String::new(rt.alloc());
    let mut states = Items::new(rt.alloc());
    let mut drawn: usize = 0;
    if choice.form == Form::Page {
        push_head(&mut out)?;
    }
    for (index, pair) in names.chunks_exact(2).enumerate() {
        let run = index.saturating_add(1);
        let names = (pair[0], pair[1]);
        if let Some(status) = add_run(rt, &mut out, choice, run, names, &mut states, &mut drawn)? {
            return Ok(status);
        }
    }
    if choice.form == Form::Page {
        push_foot(&mut out)?;
    }
    finish(rt, choice, out.as_str(), drawn)
}

/// Prints the picture, where it has a drawing, and just one if it is alone.
fn finish(rt: &HostRuntime, choice: &Choice, out: &str, drawn: usize) -> io::Result<u8> {
    if drawn == 0 {
        return refuse(rt, "no such partition");
    }
    if choice.form == Form::Svg && drawn != 1 {
        return refuse(
            rt,
            "--svg draws one partition of one run: name it by --partition",
        );
    }
    print!(rt; "{out}")?;
    Ok(0)
}

/// Prints why the words have no form, or the help that they ask for.
fn refuse_words(rt: &HostRuntime, error: &clap::Error) -> io::Result<u8> {
    error.print(rt)?;
    Ok(if error.use_stderr() { 2 } else { 0 })
}

/// Does what the words after the program's name ask for, and returns the exit status. The picture goes to standard
/// output, messages go to standard error.
pub fn run(rt: &HostRuntime, words: &[String]) -> io::Result<u8> {
    let command = match command(rt.alloc()) {
        Ok(command) => command,
        Err(error) => return refuse_words(rt, &error),
    };
    let matches = match command.try_get_matches_from(words) {
        Ok(matches) => matches,
        Err(error) => return refuse_words(rt, &error),
    };
    let names = matches.get_strs("name").unwrap_or(&[]);
    if names.len() % 2 == 1 {
        return refuse(rt, "a script without a trace: give them in pairs");
    }
    draw(rt, &choice_of(&matches), names)
}
