//! A checker of traces: whether traces are complete runs of the plain log over their scripts, one after another.
//!
//! `trace_check SCRIPT TRACE [SCRIPT TRACE ..]` reads the files and prints a line: that each trace is a run from where
//! the one before it ended, or which is the first that isn't, and why. Its status is 0 if all are, 1 if one isn't, and
//! 2 if nothing could be checked. `specs/ClosedSegment.antt` says what a complete run is, `specs/Chain.antt` how one
//! follows another. It doesn't use the code that runs scripts.
#![tactic(auto)]

ghost use Rattle.std.specs.Prelude.{◌≡◌, ◌↔◌, IfOk, IsTrue};
ghost use Rattle.trace_check.specs.Status.{AreShort, IsStatus, status_of};

mod checking;
mod judging;
mod laws;
mod pair;
mod verdict;

pub use checking::check;
pub use laws::runs_are_whole;
pub use pair::Pair;
use std::process::ExitCode;
use std::{env, fs, io};
use tier_base::Blob;
pub use verdict::{Flaw, Report, Verdict};

/// The most bytes that a script may have.
pub const SCRIPT_LIMIT: usize = 16_777_216;

/// What is printed where the words have another form.
const USAGE: &str = "trace_check: usage: trace_check SCRIPT TRACE [SCRIPT TRACE ..] or --help\n";

/// What `--help` prints.
const HELP: &str = "trace_check SCRIPT TRACE [SCRIPT TRACE ..]

Checks that each trace is a complete run of the model over its script. The first run begins with empty
logs. Each later run begins where the run before it ended, as after a power cut: the registry, the logs
and what is committed stay; every broker is down, and comes up with its log up to the flushed end.

Only finished runs can be checked. A run that was killed, or that ended with another status than 0, has
no trace, so nobody can say in which state the next one began: leave out every run from there on.

Prints one line. Status 0: all are complete runs. 1: one isn't; the line names the first and the cause.
2: nothing could be checked.
";

/// What the words ask for.
enum Request {
    Help,
    /// The names of the files, scripts and traces in turn.
    Files(Vec<String>),
    /// They have another form.
    Other,
}

/// Reads the words.
fn words(rt: &HostRuntime) -> io::Result<Request> {
    let mut names = Vec::new(rt.alloc());
    for word in env::args(rt)?.skip(1) {
        names.push(word)?;
    }
    if names.len() == 1 && names[0].as_str() == "--help" {
        return Ok(Request::Help);
    }
    if names.is_empty() || names.len() % 2 == 1 {
        return Ok(Request::Other);
    }
    Ok(Request::Files(names))
}

/// Reads a file, and returns of one that can't be read.
fn bytes_of(rt: &HostRuntime, name: &str) -> io::Result<Option<Vec<u8>>> {
    match fs::read(rt, name) {
        Ok(bytes) => Ok(Some(bytes)),
        Err(error) => {
            eprint!(rt; "trace_check: {name}: {error}\n")?;
            Ok(None)
        }
    }
}

/// Reads a script and a trace.
fn pair_of(rt: &HostRuntime, script: &str, trace: &str) -> io::Result<Option<Pair>> {
    let Some(script) = bytes_of(rt, script)? else {
        return Ok(None);
    };
    let Some(trace) = bytes_of(rt, trace)? else {
        return Ok(None);
    };
    Ok(Some(Pair {
        script: Blob::from_vec(script),
        trace: Blob::from_vec(trace),
    }))
}

/// Reads all of them.
fn pairs_of(rt: &HostRuntime, names: &[String]) -> io::Result<Option<Vec<Pair>>> {
    let mut pairs = Vec::new(rt.alloc());
    for pair in names.chunks_exact(2) {
        let Some(pair) = pair_of(rt, pair[0].as_str(), pair[1].as_str())? else {
            return Ok(None);
        };
        pairs.push(pair)?;
    }
    Ok(Some(pairs))
}

/// Whether no script is longer than a script may be.
fn are_short(pairs: &[Pair]) -> bool
    ensures { IsTrue result ↔ AreShort pairs.now }
{
    for pair in pairs {
        if pair.script.as_slice().len() > SCRIPT_LIMIT {
            return false;
        }
    }
    true
}

/// Prints what is reported of the files' bytes, and gives the status.
fn told(rt: &HostRuntime, pairs: &[Pair]) -> io::Result<u8>
    ensures { IfOk result (IsStatus pairs.now) }
{
    if !are_short(pairs) {
        eprint!(rt; "trace_check: script over {SCRIPT_LIMIT} bytes\n")?;
        return Ok(2);
    }
    let verdict = check(rt.alloc(), pairs)?;
    let report = Report {
        verdict,
        runs: pairs.len(),
    };
    println!(rt; "{report}")?;
    Ok(status_of(&verdict))
}

/// The status of a verdict.
fn status_of(verdict: &Verdict) -> u8
    ensures { result ≡ status_of verdict.now }
{
    match verdict {
        Verdict::Whole => 0,
        Verdict::Flawed { .. } => 1,
    }
}

/// Does what the words ask for, and gives the status.
fn run(rt: &HostRuntime) -> io::Result<u8> {
    match words(rt)? {
        Request::Help => {
            print!(rt; "{HELP}")?;
            Ok(0)
        }
        Request::Other => {
            eprint!(rt; "{USAGE}")?;
            Ok(2)
        }
        Request::Files(names) => match pairs_of(rt, names.as_slice())? {
            Some(pairs) => told(rt, pairs.as_slice()),
            None => Ok(2),
        },
    }
}

fn main(rt: HostRuntime) -> ExitCode {
    match run(&rt) {
        Ok(status) => ExitCode::from(status),
        Err(error) => {
            let _ = eprint!(rt; "trace_check: {error}\n");
            ExitCode::from(2)
        }
    }
}

#[cfg(test)]
mod tests;
