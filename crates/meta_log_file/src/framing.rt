//! A metadata event as it is in the file, both ways. The module Notes of specs/ has the table.

ghost use Rattle.std.specs.Prelude.{◌≡◌, ◌<◌, ◌≤◌, ◌↔◌, length, IfOk, IsTrue};
ghost use Rattle.std.specs.List.{All};
ghost use Rattle.std.specs.Option.{ForSome};
ghost use Rattle.segment_meta.specs.declared.refusal.NoteRefusal.TheVariants.{NoMemory};
ghost use Rattle.segment_meta.specs.Rules.{IsNote, NoteFits, EntryFits};
ghost use Rattle.meta_log_file.specs.Notes.{framed, IsWritable};
ghost use Rattle.meta_log_file.specs.Reading.{ReadsFirstNote};
ghost use Rattle.meta_log_file.specs.Told.{size_in};

use segment_meta::{Entry, Note, NoteRefusal, decode, encode};
use std::alloc::{AllocError, Global};
use tier_base::Blob;

/// How many bytes give an event's length.
const SIZE_BYTES: usize = 4;

/// The fields of an entry are of their types.
fn entry_fits(entry: &Entry)
    ensures { EntryFits entry.now }
{
    entry.id.as_bytes();
    let _partition = entry.partition.0;
    let _max_ts = entry.max_ts;
    let _broker = entry.broker.0;
    let _event_ts = entry.event_ts;
    let _size = entry.size;
}

/// Bytes are of their type.
fn bytes_fit(bytes: &[u8])
    ensures { All (λ b. b < 256) bytes.now }
{
    let _len = bytes.len();
}

/// The bytes of custom metadata are of their type.
fn custom_fits(custom: &Option<Blob>)
    ensures { ForSome custom.now (All (λ b. b < 256)) }
{
    if let Some(bytes) = custom {
        bytes_fit(bytes.as_slice());
    }
}

/// The fields of an event are of their types.
fn fits(note: &Note)
    ensures { NoteFits note.now }
{
    match note {
        Note::Add(entry) => entry_fits(entry),
        Note::Update {
            id,
            broker,
            event_ts,
            custom,
            ..
        } => {
            id.as_bytes();
            let _broker = broker.0;
            let _event_ts = *event_ts;
            custom_fits(custom);
        }
    }
}

/// An event is one that may be appended.
pub fn tell(note: &Note)
    requires { IsNote note.now }
    ensures { IsWritable note.now }
{
    fits(note);
}

/// The bytes of an event in the file.
#[tactic(auto, unfolding(crate::specs::Notes::framed))]
pub fn frame(alloc: Global, note: &Note) -> Result<Vec<u8>, AllocError>
    requires { IsWritable note.now }
    ensures { IfOk result (λ bytes. bytes.items ≡ framed note.now) }
{
    let body = encode(alloc, note)?;
    let size = body.len() as u32;
    let mut out = Vec::new(alloc);
    out.extend_from_slice(size.to_be_bytes().as_slice())?;
    out.extend_from_slice(body.as_slice())?;
    Ok(out)
}

/// The event that begins these bytes, and what follows it.
pub fn first(alloc: Global, bytes: &[u8]) -> Result<Option<(Note, &[u8])>, AllocError>
    ensures { IfOk result (λ found. ReadsFirstNote bytes.now found) }
{
    if bytes.len() < SIZE_BYTES {
        return Ok(None);
    }
    let size = size_of(bytes) as usize;
    let (_, rest) = bytes.split_at(SIZE_BYTES);
    if rest.len() < size {
        return Ok(None);
    }
    let (body, behind) = rest.split_at(size);
    match decode(alloc, body) {
        Ok(note) => {
            tell(&note);
            Ok(Some((note, behind)))
        }
        Err(why) => {
            if is_dry(why) {
                Err(AllocError)
            } else {
                Ok(None)
            }
        }
    }
}

/// Whether there was no memory for an event.
fn is_dry(why: NoteRefusal) -> bool
    ensures { IsTrue result ↔ (why ≡ NoMemory) }
{
    match why {
        NoteRefusal::NoMemory => true,
        _ => false,
    }
}

/// The length that is at the front of bytes.
#[tactic(auto, unfolding(crate::specs::Told::size_in))]
fn size_of(bytes: &[u8]) -> u32
    requires { 4 ≤ length bytes.now }
    ensures { result ≡ size_in bytes.now }
{
    u32::from_be_bytes([bytes[0], bytes[1], bytes[2], bytes[3]])
}
