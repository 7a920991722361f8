//! The entries of a segment's index files, up to the first entry that isn't above the one before it.

ghost use Rattle.std.specs.Prelude.{◌≡◌, ◌≤◌, IfOk, length};
ghost use Rattle.sparse_index.specs.Offsets.{entry_bytes};
ghost use Rattle.sparse_index.specs.Times.{moment_bytes};
ghost use Rattle.std.specs.Int.{w32, w64, to_be_bytes, cast_unsigned};
ghost use Rattle.dump_lines.specs.Indexes.{BeginsWith, before as before_it, OffsetFault, TimeFault};
ghost use Rattle.dump_lines.specs.Indexes.{ShowsOffsets, ShowsTimes};

use sparse_index::{IndexRefusal, OffsetIndex, TimeIndex};
use std::alloc::{AllocError, Global};

/// The bytes of an entry of an offset index.
const OFFSET_BYTES: usize = 8;
/// The bytes of an entry of a time index.
const TIME_BYTES: usize = 12;

/// Relative offset and position.
pub type IndexEntry = (u32, u32);
/// Timestamp and relative offset.
pub type TimeEntry = (i64, u32);

/// The first fault of an offset index, if it has one.
fn offset_fault(alloc: Global, bytes: &[u8]) -> Result<Option<IndexRefusal>, AllocError>
    ensures { IfOk result (OffsetFault bytes.now) }
{
    match OffsetIndex::from_bytes(alloc, 0, bytes) {
        Ok(_) => Ok(None),
        Err(IndexRefusal::NoMemory) => Err(AllocError),
        Err(why) => Ok(Some(why)),
    }
}

/// The first fault of a time index, if it has one.
fn time_fault(alloc: Global, bytes: &[u8]) -> Result<Option<IndexRefusal>, AllocError>
    ensures { IfOk result (TimeFault bytes.now) }
{
    match TimeIndex::from_bytes(alloc, 0, bytes) {
        Ok(_) => Ok(None),
        Err(IndexRefusal::NoMemory) => Err(AllocError),
        Err(why) => Ok(Some(why)),
    }
}

/// The bytes before a fault; an entry has `size` bytes.
fn before(bytes: &[u8], size: usize, fault: Option<IndexRefusal>) -> &[u8]
    requires { size ≤ 12 }
    ensures { result.now ≡ before_it size fault bytes.now }
{
    match fault {
        Some(IndexRefusal::NotRising { at }) => {
            let (front, _) = bytes.split_at(bytes.len().min(at as usize * size));
            front
        }
        _ => bytes,
    }
}

/// Returns the entries of an offset index before its first fault, and that fault.
pub fn offset_entries(
    alloc: Global,
    bytes: &[u8],
) -> Result<(Vec<IndexEntry>, Option<IndexRefusal>), AllocError>
    ensures { IfOk result (λ shown. ShowsOffsets bytes.now shown.0.items shown.1) }
{
    let fault = offset_fault(alloc, bytes)?;
    let entries = offsets_in(alloc, before(bytes, OFFSET_BYTES, fault))?;
    Ok((entries, fault))
}

/// Returns the entries of a time index before its first fault, and that fault.
pub fn time_entries(
    alloc: Global,
    bytes: &[u8],
) -> Result<(Vec<TimeEntry>, Option<IndexRefusal>), AllocError>
    ensures { IfOk result (λ shown. ShowsTimes bytes.now shown.0.items shown.1) }
{
    let fault = time_fault(alloc, bytes)?;
    let entries = times_in(alloc, before(bytes, TIME_BYTES, fault))?;
    Ok((entries, fault))
}

/// The whole entries at the front of bytes.
fn offsets_in(alloc: Global, bytes: &[u8]) -> Result<Vec<IndexEntry>, AllocError>
    ensures { IfOk result (λ entries. BeginsWith entry_bytes 8 bytes.now entries.items) }
{
    let mut entries = Vec::new(alloc);
    let mut rest = bytes;
    while rest.len() >= OFFSET_BYTES {
        let (front, behind) = rest.split_at(OFFSET_BYTES);
        entries.push(offset_entry(front))?;
        rest = behind;
    }
    Ok(entries)
}

/// The whole entries at the front of bytes.
fn times_in(alloc: Global, bytes: &[u8]) -> Result<Vec<TimeEntry>, AllocError>
    ensures { IfOk result (λ entries. BeginsWith moment_bytes 12 bytes.now entries.items) }
{
    let mut entries = Vec::new(alloc);
    let mut rest = bytes;
    while rest.len() >= TIME_BYTES {
        let (front, behind) = rest.split_at(TIME_BYTES);
        entries.push(time_entry(front))?;
        rest = behind;
    }
    Ok(entries)
}

/// The number of four bytes, big endian.
fn read_u32(bytes: &[u8]) -> u32
    requires { length bytes.now ≡ 4 }
    ensures { to_be_bytes w32 result ≡ bytes.now }
{
    u32::from_be_bytes([bytes[0], bytes[1], bytes[2], bytes[3]])
}

/// The signed number of eight bytes, big endian.
fn read_i64(bytes: &[u8]) -> i64
    requires { length bytes.now ≡ 8 }
    ensures { to_be_bytes w64 (cast_unsigned w64 result) ≡ bytes.now }
{
    i64::from_be_bytes([
        bytes[0], bytes[1], bytes[2], bytes[3], bytes[4], bytes[5], bytes[6], bytes[7],
    ])
}

/// The entry of these bytes.
fn offset_entry(bytes: &[u8]) -> IndexEntry
    requires { length bytes.now ≡ 8 }
    ensures { entry_bytes result ≡ bytes.now }
{
    let (offset, position) = bytes.split_at(4);
    (read_u32(offset), read_u32(position))
}

/// The entry of these bytes.
fn time_entry(bytes: &[u8]) -> TimeEntry
    requires { length bytes.now ≡ 12 }
    ensures { moment_bytes result ≡ bytes.now }
{
    let (time, offset) = bytes.split_at(8);
    (read_i64(time), read_u32(offset))
}
