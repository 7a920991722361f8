//! The line of a record, as `kafka-dump-log` prints it below its batch.

ghost use Rattle.std.specs.Prelude.{◌≡◌, IfOk};
ghost use Rattle.dump_lines.specs.Fields.{size_of as size_is, record_fields};

use crate::batch_lines::{number, time_name};
use crate::field::{Field, Line, Name, Value};
use crate::line_text::LineText;
use crate::printing::Style;
use record_batch::{Head, Rec};
use std::alloc::{AllocError, Global};
use tier_base::Blob;

/// The greatest size that a line can have: 2^63 - 1.
const MOST_SIZE: usize = 9_223_372_036_854_775_807;

/// The size of a key or a value, -1 for none.
fn size_of(blob: &Option<Blob>) -> i64
    ensures { result ≡ size_is blob.now }
{
    match blob {
        Some(bytes) => bytes.len().min(MOST_SIZE) as i64,
        None => -1,
    }
}

/// Returns the line of the record `index` of a batch, counted from 0, without its key, value and headers. Fails only if
/// memory runs out.
pub fn record_line(alloc: Global, head: &Head, index: u32, rec: &Rec) -> Result<Line, AllocError>
    ensures { IfOk result (λ line. line.items ≡ record_fields head.now index rec.now) }
{
    let offset = head.base_offset.wrapping_add(index as i64);
    let time = time_name(head.attributes.cast_unsigned());
    let line = Vec::from_array(
        alloc,
        [
            number(Name::Offset, offset),
            Field {
                name: time,
                value: Value::Time(rec.ts),
            },
            number(Name::KeySize, size_of(&rec.key)),
            number(Name::ValueSize, size_of(&rec.value)),
        ],
    )?;
    Ok(line)
}

/// The bytes of a key or a value.
fn data(blob: &Option<Blob>) -> Option<&[u8]> {
    match blob {
        Some(bytes) => Some(bytes.as_slice()),
        None => None,
    }
}

/// Returns the text of a record's line, with its key, value and headers. Fails only if memory runs out.
pub fn record_text(
    alloc: Global,
    style: Style,
    head: &Head,
    index: u32,
    rec: &Rec,
) -> Result<String, AllocError> {
    let fields = record_line(alloc, head, index, rec)?;
    let mut text = LineText::new(alloc, style);
    text.fields(alloc, fields.as_slice())?;
    text.data(alloc, Name::Key, data(&rec.key))?;
    text.data(alloc, Name::Value, data(&rec.value))?;
    text.headers(alloc, Name::Headers, rec.headers.as_slice())?;
    text.finish(alloc)
}
