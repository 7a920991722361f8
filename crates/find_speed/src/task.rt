//! What the command line asks for.

use anyhow::{Context, Result, ensure};
use std::env;
use std::rt::Env;

/// What is measured, and whether the time is reported.
#[derive(Clone, Copy, Debug)]
pub struct Task {
    pub copies: u32,
    pub offsets: u32,
    pub timed: bool,
}

/// Reads the arguments: `[COPIES [OFFSETS [time]]]`, after the program's own name.
pub fn from_args<R: Env + Alloc>(rt: &R) -> Result<Task> {
    let mut args = env::args(rt)?.skip(1);
    let mut task = Task {
        copies: 64,
        offsets: 1000,
        timed: false,
    };
    if let Some(copies) = args.next() {
        task.copies = copies
            .as_str()
            .parse::<u32>()
            .context("COPIES is a number below 2^32")?;
    }
    if let Some(offsets) = args.next() {
        task.offsets = offsets
            .as_str()
            .parse::<u32>()
            .context("OFFSETS is a number below 2^32")?;
    }
    if let Some(word) = args.next() {
        ensure!(word.as_str() == "time", "the third word is `time` or none");
        task.timed = true;
    }
    Ok(task)
}
