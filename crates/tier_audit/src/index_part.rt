//! A copy's offset index, read beside the batches of its log.
//!
//! Its entries rise, and so do the marks of the batches. So one pass over both finds each entry among the marks that
//! are left behind the last one.

ghost use Rattle.std.specs.Prelude.{◌≡◌, ◌<◌, ◌^◌, ℕ, IfOk, IfSome, IsNone, length};
ghost use Rattle.std.specs.Int.{w32, to_be_bytes};
ghost use Rattle.tier_base.specs.Told.{In};
ghost use Rattle.sparse_index.specs.Bytes.{bytes_of};
ghost use Rattle.sparse_index.specs.Offsets.{AreOffsets, entry_bytes};
ghost use Rattle.tier_audit.specs.Whole.{marks_of, AreEntriesOf};
ghost use Rattle.tier_audit.specs.Entries.{ArePlaced, ReadsEntries, IsBehind};

use segment_file::Placed;
use std::alloc::{AllocError, Global};

/// The bytes of an entry.
const ENTRY_BYTES: usize = 8;

/// Reads a copy's offset index: none where it is right, or the place that is reported.
pub(crate) fn read_index(
    alloc: Global,
    base: u64,
    batches: &[Placed],
    bytes: &[u8],
) -> Result<Option<usize>, AllocError>
    requires { ArePlaced base batches.now }
    ensures { IfOk result (λ found. ReadsEntries 8 (bytes_of entry_bytes)
        (AreEntriesOf (marks_of base 0 batches.now)) bytes.now found) }
{
    let marks = marks_of(alloc, base, batches)?;
    Ok(place_in(marks.as_slice(), bytes))
}

/// The marks of batches.
fn marks_of(alloc: Global, base: u64, batches: &[Placed]) -> Result<Vec<(u32, u32)>, AllocError>
    requires { ArePlaced base batches.now }
    ensures { IfOk result (λ marks. marks.items ≡ marks_of base 0 batches.now) }
{
    let mut marks = Vec::new(alloc);
    let mut at: u32 = 0;
    for batch in batches {
        marks.push(((batch.last - base) as u32, at))?;
        at = batch.to;
    }
    Ok(marks)
}

/// The place that is reported of an index of which these are the marks, or none where it is right.
fn place_in(marks: &[(u32, u32)], bytes: &[u8]) -> Option<usize>
    requires { AreOffsets marks.now }
    ensures { ReadsEntries 8 (bytes_of entry_bytes) (AreEntriesOf marks.now) bytes.now result }
{
    if bytes.len() % ENTRY_BYTES != 0 {
        return Some(bytes.len());
    }
    let mut rest = bytes;
    let mut left = marks;
    while !rest.is_empty() {
        let (front, behind) = rest.split_at(ENTRY_BYTES);
        match find_behind(left, read_entry(front)) {
            Some(more) => left = more,
            None => return Some(bytes.len() - rest.len()),
        }
        rest = behind;
    }
    None
}

/// The marks that are left behind an entry's own.
fn find_behind(marks: &[(u32, u32)], entry: (u32, u32)) -> Option<&[(u32, u32)]>
    ensures some { IfSome result (λ left. IsBehind entry marks.now left.now) }
    ensures none { IsNone result → In entry marks.now → ⊥ }
{
    let mut rest = marks;
    while let Some((mark, others)) = rest.split_first() {
        if mark.0 == entry.0 && mark.1 == entry.1 {
            return Some(others);
        }
        rest = others;
    }
    None
}

/// The entry of these bytes.
fn read_entry(bytes: &[u8]) -> (u32, u32)
    requires { length bytes.now ≡ 8 }
    ensures spelled { entry_bytes result ≡ bytes.now }
    ensures wide { (result.0 < 2 ^ 32) × (result.1 < 2 ^ 32) }
{
    let (offset, position) = bytes.split_at(4);
    (read_u32(offset), read_u32(position))
}

/// The number of four bytes, big endian.
pub(crate) fn read_u32(bytes: &[u8]) -> u32
    requires { length bytes.now ≡ 4 }
    ensures { to_be_bytes w32 result ≡ bytes.now }
{
    u32::from_be_bytes([bytes[0], bytes[1], bytes[2], bytes[3]])
}
