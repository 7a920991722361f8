//! Runs the words of each line of standard input as `trace_view` does, so that one stored output has every form. Before
//! each run it prints the words, and after it the status.
#![tactic(auto)]

use std::io;
use std::process::ExitCode;

/// The words of a line.
fn words_in(rt: &HostRuntime, line: &str) -> io::Result<Vec<String>> {
    let mut words = Vec::new(rt.alloc());
    for word in line.split_whitespace() {
        words.push(String::from_str(rt.alloc(), word)?)?;
    }
    Ok(words)
}

/// Runs each line.
fn run(rt: &HostRuntime) -> io::Result<()> {
    for line in rt.lines(rt.alloc()) {
        let line = line?;
        println!(rt; "> {line}")?;
        let words = words_in(rt, line.as_str())?;
        let status = run_picture::run(rt, words.as_slice())?;
        println!(rt; "status: {status}")?;
    }
    Ok(())
}

fn main(rt: HostRuntime) -> ExitCode {
    match run(&rt) {
        Ok(()) => ExitCode::SUCCESS,
        Err(_) => ExitCode::FAILURE,
    }
}
