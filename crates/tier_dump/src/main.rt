//! Prints what files hold: log segments, indexes, checkpoints, metadata events and directories of `tiered run`.
#![tactic(auto)]

use std::process::ExitCode;
use std::{env, io};

/// The program's name and the words after it. Fails if one isn't UTF-8.
fn arguments(rt: &HostRuntime) -> io::Result<Vec<String>> {
    let mut words = Vec::new(rt.alloc());
    for word in env::args(rt)? {
        words.push(word)?;
    }
    Ok(words)
}

/// Does what the words ask for, and returns the status.
fn run(rt: &HostRuntime) -> io::Result<u8> {
    let words = arguments(rt)?;
    dump_forms::run(rt, words.as_slice())
}

fn main(rt: HostRuntime) -> ExitCode {
    match run(&rt) {
        Ok(status) => ExitCode::from(status),
        Err(error) => {
            let _ = eprint!(rt; "tier_dump: {error}\n");
            ExitCode::from(1)
        }
    }
}
