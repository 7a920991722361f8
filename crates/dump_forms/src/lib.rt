//! The forms of `tier_dump`: a log segment's batches and records, indexes, leader epochs, a manifest, a registry,
//! metadata events, a packed object, and a directory of `tiered run`.
//!
//! `words` has the forms. Each form parses its files as the brokers do, and prints a line for each thing in them. The
//! status is 0 if everything was read and is valid, 1 if something isn't, and 2 if the words have no form.
#![tactic(auto)]

mod batches;
mod files;
mod flushed;
mod folder;
mod forms;
mod indexes;
mod notes;
mod output;
mod script;
mod small;
mod tested;
mod words;

use std::io;

/// Does what the words after the program's name ask for, and returns the exit status. Output goes to standard output,
/// messages go to standard error.
pub fn run(rt: &HostRuntime, words: &[String]) -> io::Result<u8> {
    let command = match words::command(rt.alloc()) {
        Ok(command) => command,
        Err(error) => return refused(rt, &error),
    };
    match command.try_get_matches_from(words) {
        Ok(matches) => forms::run(rt, &matches),
        Err(error) => refused(rt, &error),
    }
}

/// Prints why the words have no form, or the help that they ask for.
fn refused(rt: &HostRuntime, error: &clap::Error) -> io::Result<u8> {
    error.print(rt)?;
    Ok(if error.use_stderr() { 2 } else { 0 })
}
