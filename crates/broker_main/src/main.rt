//! The program `tiered`: runs a script of log commands and prints the answers, runs a generated load and prints a
//! summary, or audits or sweeps the remote tiers in a directory.
//!
//! `tiered_call` has the call with the guarantees. Here it gets the arguments, standard input and output, an
//! environment over the directory that the arguments name, and a gate that holds no thread back. The status's line and
//! its explanation go to standard error, and the program exits with the status's number.
#![tactic(auto)]

use device_yard::Yard;
use folder_yard::FolderYard;
use std::process::ExitCode;
use std::sync::Wait;
use std::thread::Threads;
use std::{env, io};
use tier_base::{Sink, Source, StdSink, StdSource};
use tiered_call::{OpenGate, Status, explained, folder, printed, script_source, tiered};

/// Collects the words after the program's name. A word that isn't text has no form.
fn arguments(rt: &HostRuntime) -> Result<Vec<String>, Status> {
    let args = match env::args(rt) {
        Ok(args) => args,
        Err(error) => return Err(refused(&error)),
    };
    let mut words = Vec::new(rt.alloc());
    for word in args.skip(1) {
        if words.push(word).is_err() {
            return Err(Status::NoMemory);
        }
    }
    Ok(words)
}

/// The status where the words could not be had.
fn refused(error: &io::Error) -> Status {
    match error.kind() {
        io::ErrorKind::OutOfMemory => Status::NoMemory,
        _ => Status::Usage,
    }
}

fn main(rt: HostRuntime) -> ExitCode {
    let words = match arguments(&rt) {
        Ok(words) => words,
        Err(status) => return told(&rt, status, &[]),
    };
    if let Some(text) = printed(words.as_slice()) {
        return match print!(rt; "{text}") {
            Ok(()) => ExitCode::from(0),
            Err(_) => told(&rt, Status::WriteFault, &[]),
        };
    }
    let mut script = script_source(&rt, StdSource::new(rt.reader()));
    let mut out = StdSink::new(io::writer(&rt));
    let mut yard = match FolderYard::new(rt, folder(words.as_slice())) {
        Ok(yard) => yard,
        Err(_) => return told(&rt, Status::NoMemory, &[]),
    };
    let status = carry_out(&rt, words.as_slice(), &mut script, &mut yard, &mut out);
    told(&rt, status, script.kept())
}

/// Does what the words ask for. Its contract says nothing, so that `main` is proved without the clauses of `tiered`.
fn carry_out<H: AllocGlobal + Threads + Wait + Sync, R: Source, Y: Yard, W: Sink>(
    rt: &H,
    words: &[String],
    script: &mut R,
    yard: &mut Y,
    out: &mut W,
) -> Status {
    tiered(rt, words, script, yard, out, &OpenGate)
}

/// Prints a status's line and what explains it to standard error, and gives the status's number.
fn told(rt: &HostRuntime, status: Status, script: &[u8]) -> ExitCode {
    if let Ok(text) = status.line(rt.alloc()) {
        let _ = eprint!(rt; "{text}");
    }
    if let Ok(text) = explained(rt.alloc(), &status, script) {
        let _ = eprint!(rt; "{text}");
    }
    ExitCode::from(status.number())
}
