//! Whole scripts, what they come to, and their limits. The expected values are worked by hand from the grammar.

use script_lang::{Script, ScriptRefusal, parse};
use std::alloc::{AllocError, Global};

/// Reads a script that is short enough to be read.
pub(crate) fn read(alloc: Global, text: &[u8]) -> Result<Script, ScriptRefusal> {
    if text.len() < 20_000_000 {
        parse(alloc, text)
    } else {
        Err(ScriptRefusal::NoMemory)
    }
}

/// What is reported of a script, where it isn't read.
fn told_of(alloc: Global, text: &[u8]) -> Result<String, AllocError> {
    match read(alloc, text) {
        Ok(_) => Ok(String::new(alloc)),
        Err(refusal) => format!(in alloc; "{refusal}"),
    }
}

/// Whether this is reported of a script.
pub(crate) fn is_told(alloc: Global, text: &[u8], told: &str) -> bool {
    match told_of(alloc, text) {
        Ok(found) => found.as_str() == told,
        Err(_) => false,
    }
}

/// A script of a front, a text so many times, and an end.
fn padded(
    alloc: Global,
    front: &str,
    text: &str,
    times: u32,
    end: &str,
) -> Result<Vec<u8>, AllocError> {
    let mut script = Vec::from_slice(alloc, front.as_bytes())?;
    for _ in 0..times {
        script.extend_from_slice(text.as_bytes())?;
    }
    script.extend_from_slice(end.as_bytes())?;
    Ok(script)
}

/// Long scripts: a front, a text so many times, and an end; and what is reported of them. 1,048,576 bytes of a batch
/// are 61 of the head, 3 of the record's length, 8 of its fields, and the value.
static LONG: [(&str, &str, u32, &str, &str); 13] = [
    ("0 0 0 append 1,-,:", "v", 1_048_504, "\n", ""),
    (
        "0 0 0 append 1,-,:",
        "v",
        1_048_505,
        "\n",
        "line 1: BatchTooLarge",
    ),
    ("0 0 0 raw ", "0", 2_097_152, "\n", ""),
    ("0 0 0 raw ", "0", 2_097_154, "\n", "line 1: BatchTooLarge"),
    ("", "0 0 0 ack\n", 65_536, "", ""),
    ("", "0 0 0 ack\n", 65_537, "", "line 65537: TooMany"),
    ("", "0 0 0 copy\n", 2_048, "", ""),
    ("", "0 0 0 copy\n", 2_049, "", "line 2049: CopySum"),
    (
        "segment_bytes 16777216\n",
        "0 0 0 copy\n",
        129,
        "",
        "line 130: CopySum",
    ),
    ("# ", "c", 1_000_000, "\n0 0 0 ack\n", ""),
    ("0 0 0 ack", " ", 1_000_000, "\n0 0 0 ack\n", ""),
    ("0 0 0 fetch 0 ", "0", 1_000, "7\n", ""),
    ("0 0 0 fetch 0 ", "9", 1_000, "\n", "line 1: Number"),
];

/// Options, and what is kept of the whole log and of the local one.
static KEPT: [(&str, &str); 4] = [
    (
        "",
        "Keep { ms: 604800000, bytes: -1 } Keep { ms: 604800000, bytes: -1 }",
    ),
    (
        "local_retention_ms -2\nretention_bytes 7\nretention_ms 5\n",
        "Keep { ms: 5, bytes: 7 } Keep { ms: 5, bytes: 7 }",
    ),
    (
        "\
        retention_bytes 7\n\
        local_retention_ms -1\n\
        local_retention_bytes 0\n",
        "Keep { ms: 604800000, bytes: 7 } Keep { ms: -1, bytes: 0 }",
    ),
    (
        "\
        retention_ms -1\n\
        local_retention_ms 9\n\
        local_retention_bytes -2\n",
        "Keep { ms: -1, bytes: -1 } Keep { ms: 9, bytes: -1 }",
    ),
];

/// What is kept of the whole log and of the local one, as text.
fn kept(alloc: Global, text: &str) -> Result<String, AllocError> {
    match read(alloc, text.as_bytes()) {
        Ok(script) => {
            let config = script.config;
            format!(in alloc; "{:?} {:?}", config.keep, config.local_keep)
        }
        Err(refusal) => format!(in alloc; "{refusal}"),
    }
}

/// Whether this is kept.
fn keeps(alloc: Global, text: &str, wanted: &str) -> bool {
    match kept(alloc, text) {
        Ok(found) => found.as_str() == wanted,
        Err(_) => false,
    }
}

#[test]
fn the_local_log_keeps_its_own_or_the_whole_bound(rt: HostRuntime) {
    for (text, wanted) in &KEPT {
        assert!(rt; keeps(rt.alloc(), text, wanted), "{text}");
    }
}

/// Whether this is reported of a script of a front, a text so many times, and an end.
fn is_told_long(alloc: Global, front: &str, text: &str, times: u32, end: &str, told: &str) -> bool {
    match padded(alloc, front, text, times, end) {
        Ok(script) => is_told(alloc, script.as_slice(), told),
        Err(_) => false,
    }
}

#[test]
fn long_scripts_are_read_up_to_their_limits(rt: HostRuntime) {
    for (front, text, times, end, told) in &LONG {
        let is = is_told_long(rt.alloc(), front, text, *times, end, told);
        assert!(rt; is, "{front} {times}");
    }
}
