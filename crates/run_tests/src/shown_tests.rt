//! What the documents and the examples show: each script gives the trace that is shown with it, each line that is shown
//! as refused is refused for its cause, and a shell's commands end as they are shown.

use crate::shown::{REFUSED, SHELL};
use crate::shown_runs::{COUNT, PARTS, text};
use crate::tests::{Wanted, called, well};
use std::alloc::{AllocError, Global};

/// Adds a text so many times, each with an end.
fn repeat(input: &mut String, many: u32, text: &str, end: &str) -> Result<(), AllocError> {
    for _ in 0..many {
        input.push_str(text)?;
        input.push_str(end)?;
    }
    Ok(())
}

/// Texts, each so many times and with an end.
fn repeated(alloc: Global, texts: &[(u32, &str)], end: &str) -> Result<String, AllocError> {
    let mut input = String::new(alloc);
    for (many, text) in texts {
        repeat(&mut input, *many, text, end)?;
    }
    Ok(input)
}

/// What `sim` comes to over these lines.
fn refused(rt: HostRuntime, lines: &[(u32, &str)], line: &str) -> Option<(u8, bool, bool)> {
    let wanted = Wanted::Whole(line, b"");
    match repeated(rt.alloc(), lines, "\n") {
        Ok(script) => {
            let input = (script.as_bytes(), [].as_slice());
            called(rt, &["sim"], input, (100_000, 4096, &[]), wanted)
        }
        Err(AllocError) => None,
    }
}

/// The number of the first row that isn't refused so.
fn first_not_refused(rt: HostRuntime) -> Option<usize> {
    for (i, (lines, line)) in REFUSED.iter().enumerate() {
        if refused(rt, lines, line) != well(3) {
            return Some(i);
        }
    }
    None
}

#[test]
fn lines_that_are_shown_as_refused_are(rt: HostRuntime) {
    assert_eq!(rt; first_not_refused(rt), None);
}

/// Whether a script ends with status 0 and gives this trace.
fn gives(rt: HostRuntime, script: &[u8], trace: &[u8]) -> bool {
    let wanted = Wanted::Whole("", trace);
    let input = (script, [].as_slice());
    called(rt, &["sim"], input, (100_000, 4096, &[]), wanted) == well(0)
}

/// The bytes between two places, as far as there are any.
fn between(bytes: &[u8], from: usize, to: usize) -> &[u8] {
    let to = to.min(bytes.len());
    &bytes[from.min(to)..to]
}

/// The scripts at the front that give their traces, and those that are there, with one more.
fn counted(rt: HostRuntime, script: &[u8], trace: &[u8], (well, there): (u32, u32)) -> (u32, u32) {
    if well == there && gives(rt, script, trace) {
        return (well.wrapping_add(1), there.wrapping_add(1));
    }
    (well, there.wrapping_add(1))
}

/// Runs the scripts of a text, and goes on to count those at the front that give their traces, and those that are
/// there.
fn run_all(rt: HostRuntime, text: &[u8], counts: (u32, u32)) -> (u32, u32) {
    let mut counts = counts;
    let mut from = 0usize;
    let mut end = None;
    for (at, byte) in text.iter().enumerate() {
        if *byte == b'`' {
            end = match end {
                None => Some(at),
                Some(end) => {
                    let trace = between(text, end, at);
                    let trace = between(trace, 1, trace.len());
                    counts = counted(rt, between(text, from, end), trace, counts);
                    from = at.wrapping_add(1);
                    None
                }
            };
        }
    }
    counts
}

/// How many scripts at the front of all parts give their traces, and how many are there.
fn run_parts(rt: HostRuntime) -> (u32, u32) {
    let mut counts = (0u32, 0u32);
    for part in 0..PARTS {
        counts = run_all(rt, text(part).as_bytes(), counts);
    }
    counts
}

#[test]
fn scripts_that_are_shown_give_their_traces(rt: HostRuntime) {
    assert_eq!(rt; run_parts(rt), (COUNT, COUNT));
}

/// What a call comes to with these words and texts.
pub(crate) fn shown(
    rt: HostRuntime,
    words: &[&str],
    texts: &[(u32, &str)],
    wanted: Wanted,
) -> Option<(u8, bool, bool)> {
    match repeated(rt.alloc(), texts, "") {
        Ok(input) => {
            let input = (input.as_bytes(), [].as_slice());
            called(rt, words, input, (1_000_000, 4096, &[]), wanted)
        }
        Err(AllocError) => None,
    }
}

/// The number of the first command that doesn't end as it is shown.
fn first_wrong_command(rt: HostRuntime) -> Option<usize> {
    for (i, (words, texts, status, told, end)) in SHELL.iter().enumerate() {
        let wanted = Wanted::Shown(told, end.as_bytes());
        if shown(rt, words, texts, wanted) != well(*status) {
            return Some(i);
        }
    }
    None
}

#[test]
fn commands_of_a_shell_end_as_they_are_shown(rt: HostRuntime) {
    assert_eq!(rt; first_wrong_command(rt), None);
}
