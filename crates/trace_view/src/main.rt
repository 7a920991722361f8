//! Draws a run of `tiered` from its script and its trace: a page for a browser, or lines for a terminal.
#![tactic(auto)]

use std::process::ExitCode;
use std::{env, io};

/// The program's name and the words after it. Fails if one isn't UTF-8.
fn arguments(rt: &HostRuntime) -> io::Result<Vec<String>> {
    let mut words = Vec::new(rt.alloc());
    for word in env::args(rt)? {
        words.push(word)?;
    }
    Ok(words)
}

/// Does what the words ask for, and returns the status.
fn run(rt: &HostRuntime) -> io::Result<u8> {
    let words = arguments(rt)?;
    run_picture::run(rt, words.as_slice())
}

fn main(rt: HostRuntime) -> ExitCode {
    match run(&rt) {
        Ok(status) => ExitCode::from(status),
        Err(error) => {
            let _ = eprint!(rt; "trace_view: {error}\n");
            ExitCode::from(1)
        }
    }
}
