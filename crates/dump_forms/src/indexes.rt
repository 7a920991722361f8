//! The entries of a segment's indexes, alone or tested against the log segment.

use crate::files::bytes_of;
use crate::output::print_line;
use crate::tested::{test_offsets, test_times};
use dump_lines::{Field, IndexEntry, Name, Style, TimeEntry, Value, offset_entries, time_entries};
use sparse_index::IndexRefusal;
use std::io::{self, Write};

/// The base offset in the name of a segment's file, 0 if it has none.
fn base_in(name: &str) -> u64 {
    let file = match name.rsplit_once('/') {
        Some((_, file)) => file,
        None => name,
    };
    match file.split_once('.') {
        Some((digits, _)) => digits.parse::<u64>().unwrap_or(0),
        None => 0,
    }
}

/// `index`: prints the entries of an offset index.
pub fn print_index<W: Write>(
    rt: &HostRuntime,
    out: &mut W,
    style: Style,
    name: &str,
    log: Option<&str>,
) -> io::Result<u8> {
    let Some(bytes) = bytes_of(rt, name)? else {
        return Ok(1);
    };
    let (entries, fault) = offset_entries(rt.alloc(), bytes.as_slice())?;
    let base = base_in(name);
    let status = match log {
        Some(log) => test_offsets(rt, out, style, base, entries.as_slice(), log)?,
        None => print_offsets(rt, out, style, base, entries.as_slice())?,
    };
    ended(rt, out, name, fault, status)
}

/// Prints the entries of an offset index, untested.
fn print_offsets<W: Write>(
    rt: &HostRuntime,
    out: &mut W,
    style: Style,
    base: u64,
    entries: &[IndexEntry],
) -> io::Result<u8> {
    for (offset, position) in entries {
        let line = [
            Field {
                name: Name::Offset,
                value: Value::Unsigned(base.saturating_add(*offset as u64)),
            },
            Field {
                name: Name::Position,
                value: Value::Unsigned(*position as u64),
            },
        ];
        print_line(rt, out, style, line.as_slice())?;
    }
    Ok(0)
}

/// Prints the fault that ended an index's entries, and returns the status.
fn ended<W: Write>(
    rt: &HostRuntime,
    out: &mut W,
    name: &str,
    fault: Option<IndexRefusal>,
    status: u8,
) -> io::Result<u8> {
    match fault {
        Some(why) => {
            out.flush()?;
            eprint!(rt; "tier_dump: {name}: {why}\n")?;
            Ok(1)
        }
        None => Ok(status),
    }
}

/// `timeindex`: prints the entries of a time index.
pub fn print_time_index<W: Write>(
    rt: &HostRuntime,
    out: &mut W,
    style: Style,
    name: &str,
    log: Option<&str>,
) -> io::Result<u8> {
    let Some(bytes) = bytes_of(rt, name)? else {
        return Ok(1);
    };
    let (entries, fault) = time_entries(rt.alloc(), bytes.as_slice())?;
    let base = base_in(name);
    let status = match log {
        Some(log) => test_times(rt, out, style, base, entries.as_slice(), log)?,
        None => print_times(rt, out, style, base, entries.as_slice())?,
    };
    ended(rt, out, name, fault, status)
}

/// Prints the entries of a time index, untested.
fn print_times<W: Write>(
    rt: &HostRuntime,
    out: &mut W,
    style: Style,
    base: u64,
    entries: &[TimeEntry],
) -> io::Result<u8> {
    for (time, offset) in entries {
        let line = [
            Field {
                name: Name::Timestamp,
                value: Value::Time(*time),
            },
            Field {
                name: Name::Offset,
                value: Value::Unsigned(base.saturating_add(*offset as u64)),
            },
        ];
        print_line(rt, out, style, line.as_slice())?;
    }
    Ok(0)
}
