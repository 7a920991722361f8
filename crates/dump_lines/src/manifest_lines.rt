//! The lines of a broker's manifest: one for the log, and one for each segment.

ghost use Rattle.std.specs.Prelude.{◌≡◌, IfOk};
ghost use Rattle.dump_lines.specs.Lists.{manifest_fields, extent_fields};

use crate::field::{Field, Line, Name, Value};
use log_manifest::{Extent, Manifest};
use std::alloc::{AllocError, Global};

/// Returns the line of the log: incarnation, local log start offset, and how many segments and leader epochs it has.
/// Fails only if memory runs out.
pub fn manifest_line(alloc: Global, manifest: &Manifest) -> Result<Line, AllocError>
    ensures { IfOk result (λ line. line.items ≡ manifest_fields manifest.now) }
{
    let line = Vec::from_array(
        alloc,
        [
            Field {
                name: Name::Incarnation,
                value: Value::Unsigned(manifest.incarnation as u64),
            },
            Field {
                name: Name::LocalLogStartOffset,
                value: Value::Unsigned(manifest.local_start),
            },
            Field {
                name: Name::Segments,
                value: Value::Unsigned(manifest.segments.len() as u64),
            },
            Field {
                name: Name::Epochs,
                value: Value::Unsigned(manifest.line.entries().len() as u64),
            },
        ],
    )?;
    Ok(line)
}

/// Returns the line of a log segment: its base offset and the size up to which it is flushed. Fails only if memory runs
/// out.
pub fn extent_line(alloc: Global, extent: Extent) -> Result<Line, AllocError>
    ensures { IfOk result (λ line. line.items ≡ extent_fields extent) }
{
    let line = Vec::from_array(
        alloc,
        [
            Field {
                name: Name::BaseOffset,
                value: Value::Unsigned(extent.base),
            },
            Field {
                name: Name::FlushedSize,
                value: Value::Bytes(extent.len as u64),
            },
        ],
    )?;
    Ok(line)
}
