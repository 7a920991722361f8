//! The events of a metadata log's file, one by one. Each is preceded by its length in four bytes.

ghost use Rattle.std.specs.Prelude.{◌≡◌, IfOk, length};
ghost use Rattle.std.specs.Int.{w32, from_be_bytes};
ghost use Rattle.dump_lines.specs.Notes.{IsNextEvent};
ghost use Rattle.dump_lines.specs.Entries.{entry_fields, update_fields};

use crate::batch_lines::field;
use crate::field::{Line, Name, Value};
use crate::line_text::LineText;
use segment_meta::{Entry, Note, NoteRefusal, decode};
use std::alloc::{AllocError, Global};
use tier_base::{Blob, BrokerId, SegmentId, State};

/// The size of an event's length.
const SIZE_BYTES: usize = 4;

/// What the bytes of a metadata log begin with.
pub enum NextNote<'a> {
    /// An event, and what follows it.
    Event(Note, &'a [u8]),
    /// There are no more bytes.
    End,
    /// The bytes end within an event or its length.
    Cut,
    /// The bytes of the event are invalid.
    Bad(NoteRefusal),
}

/// Reads the event at the front of the bytes. Fails only if memory runs out.
pub fn next_note(alloc: Global, bytes: &[u8]) -> Result<NextNote<'_>, AllocError>
    ensures { IfOk result (IsNextEvent bytes.now) }
{
    if bytes.is_empty() {
        return Ok(NextNote::End);
    }
    if bytes.len() < SIZE_BYTES {
        return Ok(NextNote::Cut);
    }
    let (size, rest) = bytes.split_at(SIZE_BYTES);
    let size = number(size) as usize;
    if rest.len() < size {
        return Ok(NextNote::Cut);
    }
    let (body, behind) = rest.split_at(size);
    match decode(alloc, body) {
        Ok(note) => Ok(NextNote::Event(note, behind)),
        Err(NoteRefusal::NoMemory) => Err(AllocError),
        Err(why) => Ok(NextNote::Bad(why)),
    }
}

/// The number of four bytes, big endian.
fn number(bytes: &[u8]) -> u32
    requires { length bytes.now ≡ 4 }
    ensures { result ≡ from_be_bytes w32 bytes.now }
{
    u32::from_be_bytes([bytes[0], bytes[1], bytes[2], bytes[3]])
}

/// Returns the fields of a remote segment, without its leader epochs and custom metadata. Fails only if memory runs
/// out.
pub fn entry_line(alloc: Global, entry: &Entry) -> Result<Line, AllocError>
    ensures { IfOk result (λ line. line.items ≡ entry_fields entry.now) }
{
    let line = Vec::from_array(
        alloc,
        [
            field(Name::RemoteLogSegmentId, Value::Id(entry.id)),
            field(Name::State, Value::State(entry.state)),
            field(Name::Partition, Value::Unsigned(entry.partition.0 as u64)),
            field(Name::StartOffset, Value::Unsigned(entry.start)),
            field(Name::EndOffset, Value::Unsigned(entry.end)),
            field(Name::MaxTimestamp, Value::Time(entry.max_ts)),
            field(Name::Broker, Value::Unsigned(entry.broker.0 as u64)),
            field(Name::EventTimestamp, Value::Time(entry.event_ts)),
            field(Name::SegmentSize, Value::Bytes(entry.size as u64)),
            field(Name::Packed, Value::Flag(entry.packed)),
        ],
    )?;
    Ok(line)
}

/// Returns the fields of an update of a remote segment's state, without its custom metadata.
fn update_line(
    alloc: Global,
    id: SegmentId,
    broker: BrokerId,
    event_ts: i64,
    state: State,
) -> Result<Line, AllocError>
    ensures { IfOk result (λ line. line.items ≡ update_fields id broker event_ts state) }
{
    let line = Vec::from_array(
        alloc,
        [
            field(Name::RemoteLogSegmentId, Value::Id(id)),
            field(Name::State, Value::State(state)),
            field(Name::Broker, Value::Unsigned(broker.0 as u64)),
            field(Name::EventTimestamp, Value::Time(event_ts)),
        ],
    )?;
    Ok(line)
}

/// Appends a remote segment to a line. Fails only if memory runs out.
pub fn put_entry(alloc: Global, text: &mut LineText, entry: &Entry) -> Result<(), AllocError> {
    let line = entry_line(alloc, entry)?;
    text.fields(alloc, line.as_slice())?;
    text.epochs(alloc, Name::Epochs, entry.map.entries())?;
    put_custom(alloc, text, &entry.custom)
}

/// Appends custom metadata to a line, if there is some.
fn put_custom(alloc: Global, text: &mut LineText, custom: &Option<Blob>) -> Result<(), AllocError> {
    match custom {
        Some(bytes) => text.hex(alloc, Name::CustomMetadata, bytes.as_slice()),
        None => Ok(()),
    }
}

/// Appends an event to a line. Fails only if memory runs out.
pub fn put_note(alloc: Global, text: &mut LineText, note: &Note) -> Result<(), AllocError> {
    match note {
        Note::Add(entry) => {
            text.word(alloc, Name::Kind, "add")?;
            put_entry(alloc, text, entry)
        }
        Note::Update {
            id,
            broker,
            event_ts,
            state,
            custom,
        } => {
            text.word(alloc, Name::Kind, "update")?;
            let line = update_line(alloc, *id, *broker, *event_ts, *state)?;
            text.fields(alloc, line.as_slice())?;
            put_custom(alloc, text, custom)
        }
    }
}
