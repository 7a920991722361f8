//! Small files: a leader-epoch checkpoint, a manifest, a registry, and the parts of a packed segment.

use crate::files::bytes_of;
use crate::output::{complain, finish, print_line};
use dump_lines::{
    Field, LineText, Name, Style, Value, epoch_line, extent_line, manifest_line, partition_line,
    replica_line,
};
use epoch_line::{Line, TextRefusal};
use log_manifest::Manifest;
use registry::RegView;
use std::io::{self, Write};
use tier_base::Layout;

/// Prints leader epochs.
fn print_epochs<W: Write>(
    rt: &HostRuntime,
    out: &mut W,
    style: Style,
    epochs: &Line,
) -> io::Result<()> {
    for entry in epochs.entries() {
        let line = epoch_line(rt.alloc(), *entry)?;
        print_line(rt, out, style, line.as_slice())?;
    }
    Ok(())
}

/// `epochs`: prints the entries of a leader-epoch checkpoint.
pub fn print_checkpoint<W: Write>(
    rt: &HostRuntime,
    out: &mut W,
    style: Style,
    name: &str,
) -> io::Result<u8> {
    let Some(bytes) = bytes_of(rt, name)? else {
        return Ok(1);
    };
    match Line::from_text(rt.alloc(), bytes.as_slice()) {
        Ok(epochs) => {
            print_epochs(rt, out, style, &epochs)?;
            Ok(0)
        }
        Err(TextRefusal::NoMemory) => complain(rt, name, "out of memory"),
        Err(TextRefusal::BadText { line }) => {
            eprint!(rt; "tier_dump: {name}: line {line} is none of a leader-epoch checkpoint\n")?;
            Ok(1)
        }
    }
}

/// `manifest`: prints a broker's manifest.
pub fn print_manifest<W: Write>(
    rt: &HostRuntime,
    out: &mut W,
    style: Style,
    name: &str,
) -> io::Result<u8> {
    let Some(bytes) = bytes_of(rt, name)? else {
        return Ok(1);
    };
    match log_manifest::decode(rt.alloc(), bytes.as_slice()) {
        Ok(manifest) => {
            print_extents(rt, out, style, &manifest)?;
            print_epochs(rt, out, style, &manifest.line)?;
            Ok(0)
        }
        Err(why) => {
            eprint!(rt; "tier_dump: {name}: {why}\n")?;
            Ok(1)
        }
    }
}

/// Prints the log of a manifest, and its segments.
fn print_extents<W: Write>(
    rt: &HostRuntime,
    out: &mut W,
    style: Style,
    manifest: &Manifest,
) -> io::Result<()> {
    let line = manifest_line(rt.alloc(), manifest)?;
    print_line(rt, out, style, line.as_slice())?;
    for extent in manifest.segments.as_slice() {
        let line = extent_line(rt.alloc(), *extent)?;
        print_line(rt, out, style, line.as_slice())?;
    }
    Ok(())
}

/// `registry`: prints a partition's registry.
pub fn print_registry<W: Write>(
    rt: &HostRuntime,
    out: &mut W,
    style: Style,
    name: &str,
) -> io::Result<u8> {
    let Some(bytes) = bytes_of(rt, name)? else {
        return Ok(1);
    };
    match registry_file::reg_decode(bytes.as_slice()) {
        Ok(view) => {
            print_view(rt, out, style, &view)?;
            Ok(0)
        }
        Err(why) => {
            eprint!(rt; "tier_dump: {name}: {why}\n")?;
            Ok(1)
        }
    }
}

/// Prints a partition, and a line for each broker.
fn print_view<W: Write>(
    rt: &HostRuntime,
    out: &mut W,
    style: Style,
    view: &RegView,
) -> io::Result<()> {
    let line = partition_line(rt.alloc(), view)?;
    print_line(rt, out, style, line.as_slice())?;
    for broker in 0..8u8 {
        if (broker as u16) < view.brokers {
            let line = replica_line(rt.alloc(), view, broker)?;
            print_line(rt, out, style, line.as_slice())?;
        }
    }
    Ok(())
}

/// `pack`: prints the parts of a packed segment's object, and whether the custom metadata fits its length.
pub fn print_pack<W: Write>(
    rt: &HostRuntime,
    out: &mut W,
    style: Style,
    name: &str,
    custom: Option<&str>,
) -> io::Result<u8> {
    let Ok(custom) = hex::decode(rt.alloc(), custom.unwrap_or("").as_bytes()) else {
        return complain(rt, name, "the custom metadata isn't in hexadecimal");
    };
    let Some(layout) = Layout::from_bytes(custom.as_slice()) else {
        return complain(
            rt,
            name,
            "the custom metadata doesn't say how long the parts are",
        );
    };
    let Some(bytes) = bytes_of(rt, name)? else {
        return Ok(1);
    };
    let end = print_parts(rt, out, style, layout)?;
    if end == bytes.len() as u64 {
        return Ok(0);
    }
    out.flush()?;
    let len = bytes.len();
    eprint!(rt; "tier_dump: {name}: the parts have {end} bytes, the object has {len}\n")?;
    Ok(1)
}

/// Prints the parts of a layout, and returns where the last one ends.
fn print_parts<W: Write>(
    rt: &HostRuntime,
    out: &mut W,
    style: Style,
    layout: Layout,
) -> io::Result<u64> {
    let parts = [
        ("log", layout.log),
        ("index", layout.index),
        ("timeindex", layout.times),
        ("epochs", layout.epochs),
    ];
    let mut position: u64 = 0;
    for (part, size) in parts {
        print_part(rt, out, style, part, position, size)?;
        position = position.saturating_add(size as u64);
    }
    Ok(position)
}

/// Prints a part.
fn print_part<W: Write>(
    rt: &HostRuntime,
    out: &mut W,
    style: Style,
    part: &str,
    position: u64,
    size: u32,
) -> io::Result<()> {
    let fields = [
        Field {
            name: Name::Position,
            value: Value::Unsigned(position),
        },
        Field {
            name: Name::Size,
            value: Value::Bytes(size as u64),
        },
    ];
    let mut line = LineText::new(rt.alloc(), style);
    line.word(rt.alloc(), Name::Part, part)?;
    line.fields(rt.alloc(), fields.as_slice())?;
    finish(rt, out, line)
}
