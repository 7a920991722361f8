//! A directory of `tiered run`: the registry, the brokers' logs and the remote tier of each partition.

use crate::files::{bytes_of, exists};
use crate::flushed::flushed_end;
use crate::notes::{feed, gate_of};
use crate::output::{complain, finish};
use dump_lines::{Field, LineText, Name, Style, Value, partition_line, put_entry};
use log_manifest::Manifest;
use remote_view::View;
use segment_meta::Entry;
use std::io::{self, Write};
use tier_base::State;

/// The most partitions of a run.
const PARTITIONS: u16 = 64;
/// The most brokers of a partition.
const BROKERS: u16 = 8;

/// `dir`: prints each partition of a directory.
pub fn print_folder<W: Write>(
    rt: &HostRuntime,
    out: &mut W,
    style: Style,
    folder: &str,
) -> io::Result<u8> {
    if !exists(rt, folder) {
        return complain(rt, folder, "no such folder");
    }
    let mut status = 0;
    for partition in 0..PARTITIONS {
        let name = format!(in rt.alloc(); "{folder}/p{partition}")?;
        if exists(rt, name.as_str()) {
            status |= print_partition(rt, out, style, partition, name.as_str())?;
        }
    }
    Ok(status)
}

/// Prints a partition: its registry, its brokers, its remote tier.
fn print_partition<W: Write>(
    rt: &HostRuntime,
    out: &mut W,
    style: Style,
    partition: u16,
    folder: &str,
) -> io::Result<u8> {
    let mut status = 0;
    let registry = format!(in rt.alloc(); "{folder}/reg/registry")?;
    if exists(rt, registry.as_str()) {
        status |= print_registry(rt, out, style, partition, registry.as_str())?;
    }
    status |= print_brokers(rt, out, style, partition, folder)?;
    let notes = format!(in rt.alloc(); "{folder}/meta/notes")?;
    if exists(rt, notes.as_str()) {
        status |= print_tier(rt, out, style, partition, folder)?;
    }
    Ok(status)
}

/// Starts a line with a partition's number.
fn snapshot(rt: &HostRuntime, style: Style, partition: u16) -> io::Result<LineText> {
    let mut line = LineText::new(rt.alloc(), style);
    let fields = [field(Name::Partition, Value::Unsigned(partition as u64))];
    line.fields(rt.alloc(), fields.as_slice())?;
    Ok(line)
}

/// A field.
fn field(name: Name, value: Value) -> Field {
    Field { name, value }
}

/// Prints a partition's registry.
fn print_registry<W: Write>(
    rt: &HostRuntime,
    out: &mut W,
    style: Style,
    partition: u16,
    name: &str,
) -> io::Result<u8> {
    let Some(bytes) = bytes_of(rt, name)? else {
        return Ok(1);
    };
    match registry_file::reg_decode(bytes.as_slice()) {
        Ok(view) => {
            let fields = partition_line(rt.alloc(), &view)?;
            let mut line = snapshot(rt, style, partition)?;
            line.fields(rt.alloc(), fields.as_slice())?;
            finish(rt, out, line)?;
            Ok(0)
        }
        Err(why) => {
            eprint!(rt; "tier_dump: {name}: {why}\n")?;
            Ok(1)
        }
    }
}

/// Prints what each broker has of a partition's log.
fn print_brokers<W: Write>(
    rt: &HostRuntime,
    out: &mut W,
    style: Style,
    partition: u16,
    folder: &str,
) -> io::Result<u8> {
    let mut status = 0;
    for broker in 0..BROKERS {
        let log = format!(in rt.alloc(); "{folder}/b{broker}")?;
        let manifest = format!(in rt.alloc(); "{log}/manifest")?;
        if exists(rt, manifest.as_str()) {
            let line = snapshot(rt, style, partition)?;
            status |= print_broker(rt, out, line, broker, log.as_str(), manifest.as_str())?;
        }
    }
    Ok(status)
}

/// Prints what a broker has of a partition's log, up to its flushed end.
fn print_broker<W: Write>(
    rt: &HostRuntime,
    out: &mut W,
    line: LineText,
    broker: u16,
    folder: &str,
    name: &str,
) -> io::Result<u8> {
    let Some(bytes) = bytes_of(rt, name)? else {
        return Ok(1);
    };
    match log_manifest::decode(rt.alloc(), bytes.as_slice()) {
        Ok(manifest) => print_manifest(rt, out, line, broker, folder, &manifest),
        Err(why) => {
            eprint!(rt; "tier_dump: {name}: {why}\n")?;
            Ok(1)
        }
    }
}

/// The flushed size of all segments.
fn flushed_size(manifest: &Manifest) -> u64 {
    let mut size: u64 = 0;
    for extent in manifest.segments.as_slice() {
        size = size.saturating_add(extent.len as u64);
    }
    size
}

/// Prints what a manifest says, and the offset where the flushed part of the log ends.
fn print_manifest<W: Write>(
    rt: &HostRuntime,
    out: &mut W,
    mut line: LineText,
    broker: u16,
    folder: &str,
    manifest: &Manifest,
) -> io::Result<u8> {
    let segments = manifest.segments.len() as u64;
    let fields = [
        field(Name::Broker, Value::Unsigned(broker as u64)),
        field(
            Name::Incarnation,
            Value::Unsigned(manifest.incarnation as u64),
        ),
        field(
            Name::LocalLogStartOffset,
            Value::Unsigned(manifest.local_start),
        ),
        field(Name::Segments, Value::Unsigned(segments)),
        field(Name::FlushedSize, Value::Bytes(flushed_size(manifest))),
    ];
    line.fields(rt.alloc(), fields.as_slice())?;
    let end = flushed_end(rt, out, folder, manifest)?;
    if let Some(end) = end {
        let fields = [field(Name::FlushedEndOffset, Value::Unsigned(end))];
        line.fields(rt.alloc(), fields.as_slice())?;
    }
    line.epochs(rt.alloc(), Name::Epochs, manifest.line.entries())?;
    finish(rt, out, line)?;
    Ok(u8::from(end.is_none()))
}

/// The remote segments that aren't deleted: how many there are, and their size.
#[derive(Clone, Copy)]
struct Totals {
    segments: u64,
    size: u64,
}

/// Prints the remote tier: each segment with its state and the objects that exist.
fn print_tier<W: Write>(
    rt: &HostRuntime,
    out: &mut W,
    style: Style,
    partition: u16,
    folder: &str,
) -> io::Result<u8> {
    let meta = format!(in rt.alloc(); "{folder}/meta")?;
    let name = format!(in rt.alloc(); "{folder}/meta/notes")?;
    let Some(bytes) = bytes_of(rt, name.as_str())? else {
        return Ok(1);
    };
    let gate = gate_of(rt, meta.as_str())?.unwrap_or(0);
    let counted = bytes.len().min(usize::try_from(gate).unwrap_or(usize::MAX));
    let (front, _) = bytes.as_slice().split_at(counted);
    let mut view = View::new(rt.alloc());
    let status = feed(rt, &mut view, front, name.as_str())?;
    let totals = print_segments(rt, out, style, folder, view.entries())?;
    let fields = [
        field(Name::RemoteSegments, Value::Unsigned(totals.segments)),
        field(Name::Size, Value::Bytes(totals.size)),
    ];
    let mut line = snapshot(rt, style, partition)?;
    line.fields(rt.alloc(), fields.as_slice())?;
    finish(rt, out, line)?;
    Ok(status)
}

/// Prints remote segments, and counts them.
fn print_segments<W: Write>(
    rt: &HostRuntime,
    out: &mut W,
    style: Style,
    folder: &str,
    entries: &[Entry],
) -> io::Result<Totals> {
    let mut totals = Totals {
        segments: 0,
        size: 0,
    };
    for entry in entries {
        print_segment(rt, out, style, folder, entry)?;
        if !matches!(entry.state, State::DeleteFinished) {
            totals.segments = totals.segments.saturating_add(1);
            totals.size = totals.size.saturating_add(entry.size as u64);
        }
    }
    Ok(totals)
}

/// Prints a remote segment, and which of its objects exist.
fn print_segment<W: Write>(
    rt: &HostRuntime,
    out: &mut W,
    style: Style,
    folder: &str,
    entry: &Entry,
) -> io::Result<()> {
    let objects = objects_of(rt, folder, entry)?;
    let mut line = LineText::new(rt.alloc(), style);
    put_entry(rt.alloc(), &mut line, entry)?;
    line.word(rt.alloc(), Name::Objects, objects.as_str())?;
    finish(rt, out, line)
}

/// The objects of a segment that exist, by the ends of their names.
fn objects_of(rt: &HostRuntime, folder: &str, entry: &Entry) -> io::Result<String> {
    let mut buffer = [0u8; 36];
    let id = entry.id.write_text(&mut buffer);
    let mut found = String::new(rt.alloc());
    for part in ["log", "index", "timeindex", "epochs", "pack"] {
        let name = format!(in rt.alloc(); "{folder}/store/{id}.{part}")?;
        if exists(rt, name.as_str()) {
            if !found.is_empty() {
                found.push_str(" ")?;
            }
            found.push_str(part)?;
        }
    }
    if found.is_empty() {
        found.push_str("none")?;
    }
    Ok(found)
}
