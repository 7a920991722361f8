//! What the command line asks for.

use anyhow::{Context, Result, ensure};
use std::env;
use std::rt::Env;

/// What is measured, and whether the time is reported.
#[derive(Clone, Copy, Debug)]
pub struct Task {
    pub size: u32,
    pub rounds: u32,
    pub timed: bool,
}

/// Reads the arguments: `[SIZE [ROUNDS [time]]]`, after the program's own name.
pub fn from_args<R: Env + Alloc>(rt: &R) -> Result<Task> {
    let mut args = env::args(rt)?.skip(1);
    let mut task = Task {
        size: 100_000,
        rounds: 2,
        timed: false,
    };
    if let Some(size) = args.next() {
        task.size = size
            .as_str()
            .parse::<u32>()
            .context("SIZE is a number below 2^32")?;
    }
    if let Some(rounds) = args.next() {
        task.rounds = rounds
            .as_str()
            .parse::<u32>()
            .context("ROUNDS is a number below 2^32")?;
    }
    if let Some(word) = args.next() {
        ensure!(word.as_str() == "time", "the third word is `time` or none");
        task.timed = true;
    }
    Ok(task)
}
