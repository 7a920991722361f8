//! What the command line asks for.

use anyhow::{Context, Result, bail, ensure};
use std::rt::Env;
use std::{env, fmt};

/// Where a log is.
#[derive(Clone, Copy, Debug, PartialEq, Eq)]
pub enum Place {
    Memory,
    Folder,
}

/// What is measured, and whether the time is reported.
#[derive(Clone, Copy, Debug)]
pub struct Task {
    pub count: u32,
    pub value: u32,
    pub segment: u32,
    pub reads: u32,
    pub timed: bool,
}

impl fmt::Display for Place {
    fn fmt<W: fmt::Write>(&self, f: &mut fmt::Formatter<W>) -> fmt::Result {
        match self {
            Place::Memory => f.write_str("memory"),
            Place::Folder => f.write_str("folder"),
        }
    }
}

/// A number among the arguments, or what represents one that isn't there.
fn number<R: Alloc>(word: Option<String<R::A>>, other: u32) -> Result<u32> {
    match word {
        Some(word) => Ok(
            word.as_str()
                .parse::<u32>()
                .context("each is a number below 2^32")?,
        ),
        None => Ok(other),
    }
}

/// Which place a word names.
fn place_of<R: Alloc>(word: Option<String<R::A>>) -> Result<Option<Place>> {
    let Some(word) = word else {
        return Ok(None);
    };
    match word.as_str() {
        "memory" => Ok(Some(Place::Memory)),
        "folder" => Ok(Some(Place::Folder)),
        _ => bail!("the first word is `memory` or `folder`"),
    }
}

/// Reads the arguments, after the program's own name.
pub fn from_args<R: Env + Alloc>(rt: &R) -> Result<(Option<Place>, Task)> {
    let mut args = env::args(rt)?.skip(1);
    let place = place_of::<R>(args.next())?;
    let mut task = Task {
        count: number::<R>(args.next(), 1000)?,
        value: number::<R>(args.next(), 100)?,
        segment: number::<R>(args.next(), 20_000)?,
        reads: number::<R>(args.next(), 1000)?,
        timed: false,
    };
    if let Some(word) = args.next() {
        ensure!(word.as_str() == "time", "the sixth word is `time` or none");
        task.timed = true;
    }
    Ok((place, task))
}
