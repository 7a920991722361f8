//! Sizes in binary units, and times as dates.

use jiff::Timestamp;
use std::alloc::AllocError;
use std::fmt::Write;

/// The units from 1,024 bytes on, each 1,024 times the one before.
static UNITS: [&str; 6] = ["KiB", "MiB", "GiB", "TiB", "PiB", "EiB"];

/// Writes a size as a plain number, or in the largest unit that isn't above it, with one decimal rounded down.
pub(crate) fn push_bytes(text: &mut String, human: bool, bytes: u64) -> Result<(), AllocError> {
    if !human || bytes < 1024 {
        return write!(text, "{bytes}");
    }
    let mut unit: usize = 0;
    let mut whole = bytes / 1024;
    let mut part = bytes % 1024;
    while whole >= 1024 && unit < 5 {
        part = whole % 1024;
        whole /= 1024;
        unit += 1;
    }
    let tenth = part * 10 / 1024;
    let word = UNITS[unit];
    write!(text, "{whole}.{tenth}{word}")
}

/// Writes a time in milliseconds as a plain number, or as a date in UTC if it isn't negative and has one.
pub(crate) fn push_time(text: &mut String, dates: bool, ms: i64) -> Result<(), AllocError> {
    if !dates || ms < 0 {
        return write!(text, "{ms}");
    }
    match Timestamp::from_millisecond(ms) {
        Ok(time) => write!(text, "{time}"),
        Err(_) => write!(text, "{ms}"),
    }
}
