//! A copy's time index, read beside the batches of its log.
//!
//! Its moments rise, and so do the timestamps that are later than all before them. So one pass over both finds each
//! moment among those that are left behind the last one.

ghost use Rattle.std.specs.Prelude.{◌≡◌, ◌<◌, ◌^◌, ℕ, negsuc, FitsSigned, IfOk, IfSome, IsNone, length};
ghost use Rattle.std.specs.Int.{w32, w64, to_be_bytes, cast_unsigned};
ghost use Rattle.std.specs.List.{AllByRecursion};
ghost use Rattle.tier_base.specs.Told.{In};
ghost use Rattle.sparse_index.specs.Bytes.{bytes_of};
ghost use Rattle.sparse_index.specs.Times.{AreMoments, moment_bytes};
ghost use Rattle.tier_audit.specs.Whole.{heights_of, AreTimesOf};
ghost use Rattle.tier_audit.specs.Entries.{ArePlaced, ReadsEntries, IsBehind};

use crate::index_part::read_u32;
use segment_file::Placed;
use std::alloc::{AllocError, Global};

/// The bytes of an entry.
const MOMENT_BYTES: usize = 12;

/// Reads a copy's time index: none where it is right, or the place that is reported.
pub(crate) fn read_times(
    alloc: Global,
    base: u64,
    batches: &[Placed],
    bytes: &[u8],
) -> Result<Option<usize>, AllocError>
    requires { ArePlaced base batches.now }
    ensures { IfOk result (λ found. ReadsEntries 12 (bytes_of moment_bytes)
        (AreTimesOf (heights_of base (negsuc 0) batches.now)) bytes.now found) }
{
    let heights = heights_of(alloc, base, batches)?;
    Ok(place_in(heights.as_slice(), bytes))
}

/// The moments of the batches that are later than all before them.
fn heights_of(alloc: Global, base: u64, batches: &[Placed]) -> Result<Vec<(i64, u32)>, AllocError>
    requires { ArePlaced base batches.now }
    ensures heights { IfOk result (λ heights. heights.items ≡ heights_of base (negsuc 0) batches.now) }
    ensures fit { IfOk result (λ heights. AllByRecursion (λ height. FitsSigned w64 height.0) heights.items) }
{
    let mut heights = Vec::new(alloc);
    let mut top: i64 = -1;
    for batch in batches {
        if batch.max_ts > top {
            heights.push((batch.max_ts, (batch.last - base) as u32))?;
            top = batch.max_ts;
        }
    }
    Ok(heights)
}

/// The place that is reported of a time index that has some of these moments, or none where it is right.
fn place_in(heights: &[(i64, u32)], bytes: &[u8]) -> Option<usize>
    requires { AreMoments heights.now }
    ensures { ReadsEntries 12 (bytes_of moment_bytes) (AreTimesOf heights.now) bytes.now result }
{
    if bytes.len() % MOMENT_BYTES != 0 {
        return Some(bytes.len());
    }
    let mut rest = bytes;
    let mut left = heights;
    while !rest.is_empty() {
        let (front, behind) = rest.split_at(MOMENT_BYTES);
        match find_behind(left, read_moment(front)) {
            Some(more) => left = more,
            None => return Some(bytes.len() - rest.len()),
        }
        rest = behind;
    }
    None
}

/// The moments that are left behind one.
fn find_behind(heights: &[(i64, u32)], moment: (i64, u32)) -> Option<&[(i64, u32)]>
    ensures some { IfSome result (λ left. IsBehind moment heights.now left.now) }
    ensures none { IsNone result → In moment heights.now → ⊥ }
{
    let mut rest = heights;
    while let Some((height, others)) = rest.split_first() {
        if height.0 == moment.0 && height.1 == moment.1 {
            return Some(others);
        }
        rest = others;
    }
    None
}

/// The moment of these bytes.
fn read_moment(bytes: &[u8]) -> (i64, u32)
    requires { length bytes.now ≡ 12 }
    ensures spelled { moment_bytes result ≡ bytes.now }
    ensures wide { FitsSigned w64 result.0 × (result.1 < 2 ^ 32) }
{
    let (ts, offset) = bytes.split_at(8);
    (read_i64(ts), read_u32(offset))
}

/// The signed number of eight bytes, big endian.
fn read_i64(bytes: &[u8]) -> i64
    requires { length bytes.now ≡ 8 }
    ensures { to_be_bytes w64 (cast_unsigned w64 result) ≡ bytes.now }
{
    i64::from_be_bytes([
        bytes[0], bytes[1], bytes[2], bytes[3], bytes[4], bytes[5], bytes[6], bytes[7],
    ])
}
