//! A manifest out of its bytes. specs/Reading.antt says what bytes mean, specs/Spelling.antt has the table.
//!
//! The fields are read from left to right, so the first fault is reported. Both lists grow by the items that are
//! there, so a count alone allocates nothing.

ghost use Rattle.std.specs.Prelude.{◌≡◌, ◌≤◌, ◌^◌, ℕ, IfOk, None};
ghost use Rattle.log_manifest.specs.Rules.{IsManifest};
ghost use Rattle.log_manifest.specs.Reading.{front_at, base_may, len_may, segment_at, epoch_may, start_may};
ghost use Rattle.log_manifest.specs.Reading.{entry_at, items_at, manifest_in, seen, Answers};

use crate::fields::{bad, read_u32, read_u64};
use crate::manifest::{Extent, Front, Manifest, SegmentList};
use crate::refusal::ManifestRefusal;
use epoch_line::Line;
use std::alloc::Global;
use tier_base::{Items, OFFSET_LIMIT};

/// The first four bytes.
const TAG: u32 = 0x544C_4D31;
/// The most segments of a log.
const MOST_SEGMENTS: u32 = 4_096;
/// Lengths and epochs are below 2^31.
const BOUND: u32 = 1 << 31;
/// Where the segments begin: 4 + 4 + 8 + 4.
const SEGMENTS: u64 = 20;
/// Where the line's entries would begin after no segment: 20 + 4.
const ENTRIES: u64 = 24;
/// The bytes of a segment, 8 + 4, and of a line's entry, 4 + 8.
const ITEM: u64 = 12;

/// The manifest of these bytes, or the position of their first fault.
pub fn decode(alloc: Global, bytes: &[u8]) -> Result<Manifest, ManifestRefusal>
    ensures exact { Answers (λ manifest. manifest) result (manifest_in bytes.now) }
    ensures rules { IfOk result IsManifest }
{
    manifest(alloc, bytes)
}

#[tactic(auto, unfolding(crate::specs::Reading::manifest_in))]
fn manifest(alloc: Global, bytes: &[u8]) -> Result<Manifest, ManifestRefusal>
    ensures { Answers (λ manifest. manifest) result (manifest_in bytes.now) }
{
    let (front, rest) = front(bytes)?;
    let (segments, rest) = segments(alloc, front.local_start, front.count, rest)?;
    let size = ITEM * front.count as u64;
    let (count, rest) = read_u32(rest, SEGMENTS + size)?;
    let (line, rest) = line(alloc, count, ENTRIES + size, rest)?;
    let [] = rest else {
        return Err(bad(ENTRIES + size + ITEM * count as u64));
    };
    Ok(Manifest {
        incarnation: front.incarnation,
        local_start: front.local_start,
        segments,
        line,
    })
}

/// What precedes the segments.
#[tactic(auto, unfolding(crate::specs::Reading::front_at))]
fn front(bytes: &[u8]) -> Result<(Front, &[u8]), ManifestRefusal>
    ensures exact { seen (λ x. (x.0, x.1.now)) result ≡ front_at bytes.now }
    ensures few { IfOk result (λ x. x.0.count ≤ 4096) }
{
    let (tag, rest) = read_u32(bytes, 0)?;
    if tag != TAG {
        return Err(bad(0));
    }
    let (incarnation, rest) = read_u32(rest, 4)?;
    if incarnation == 0 {
        return Err(bad(4));
    }
    let (local_start, rest) = read_u64(rest, 8)?;
    if local_start > OFFSET_LIMIT {
        return Err(bad(8));
    }
    let (count, rest) = read_u32(rest, 16)?;
    if count == 0 || count > MOST_SEGMENTS {
        return Err(bad(16));
    }
    let front = Front {
        incarnation,
        local_start,
        count,
    };
    Ok((front, rest))
}

/// Whether a base may follow the last segment of a log that begins at start.
fn base_may(start: u64, last: Option<Extent>, base: u64) -> bool
    ensures { result ≡ base_may start last base }
{
    match last {
        None => base == start,
        Some(last) => last.base < base && base <= OFFSET_LIMIT,
    }
}

/// Whether a length may precede so many segments.
fn len_may(behind: u32, len: u32) -> bool
    ensures { result ≡ len_may behind len }
{
    if behind == 0 {
        len < BOUND
    } else {
        0 < len && len < BOUND
    }
}

/// A segment at a place after the last one.
#[tactic(auto, unfolding(crate::specs::Reading::segment_at))]
fn segment(
    start: u64,
    behind: u32,
    at: u64,
    last: Option<Extent>,
    bytes: &[u8],
) -> Result<(Extent, &[u8]), ManifestRefusal>
    requires { at ≤ 2 ^ 40 }
    ensures { seen (λ x. (x.0, x.1.now)) result ≡ segment_at start behind at last bytes.now }
{
    let (base, rest) = read_u64(bytes, at)?;
    if !base_may(start, last, base) {
        return Err(bad(at));
    }
    let (len, rest) = read_u32(rest, at + 8)?;
    if !len_may(behind, len) {
        return Err(bad(at + 8));
    }
    Ok((Extent { base, len }, rest))
}

/// The segments, so many.
fn segments(
    alloc: Global,
    start: u64,
    count: u32,
    bytes: &[u8],
) -> Result<(SegmentList, &[u8]), ManifestRefusal>
    ensures { Answers (λ x. (x.0, x.1.now)) result
        (items_at (segment_at start) count 20 None bytes.now) }
{
    let mut segments = Items::new(alloc);
    let mut last = None;
    let mut rest = bytes;
    for i in 0..count {
        let at = SEGMENTS + ITEM * i as u64;
        let (extent, behind) = segment(start, count - i - 1, at, last, rest)?;
        segments.push(extent)?;
        last = Some(extent);
        rest = behind;
    }
    Ok((segments, rest))
}

/// Whether an epoch may follow the last one.
fn epoch_may(last: Option<(u32, u64)>, epoch: u32) -> bool
    ensures { result ≡ epoch_may last epoch }
{
    match last {
        None => epoch < BOUND,
        Some(last) => epoch < BOUND && last.0 < epoch,
    }
}

/// Whether a start may follow the last one.
fn start_may(last: Option<(u32, u64)>, start: u64) -> bool
    ensures { result ≡ start_may last start }
{
    match last {
        None => start <= OFFSET_LIMIT,
        Some(last) => start <= OFFSET_LIMIT && last.1 < start,
    }
}

/// A line's entry at a place after the last one.
#[tactic(auto, unfolding(crate::specs::Reading::entry_at))]
fn entry(
    at: u64,
    last: Option<(u32, u64)>,
    bytes: &[u8],
) -> Result<((u32, u64), &[u8]), ManifestRefusal>
    requires { at ≤ 2 ^ 40 }
    ensures { (behind : ℕ) → seen (λ x. ((x.0.0, x.0.1), x.1.now)) result
        ≡ entry_at behind at last bytes.now }
{
    let (epoch, rest) = read_u32(bytes, at)?;
    if !epoch_may(last, epoch) {
        return Err(bad(at));
    }
    let (start, rest) = read_u64(rest, at + 4)?;
    if !start_may(last, start) {
        return Err(bad(at + 4));
    }
    Ok(((epoch, start), rest))
}

/// The line, of so many entries, from a place on.
fn line(alloc: Global, count: u32, at: u64, bytes: &[u8]) -> Result<(Line, &[u8]), ManifestRefusal>
    requires { at ≤ 2 ^ 20 }
    ensures { Answers (λ x. (x.0, x.1.now)) result (items_at entry_at count at None bytes.now) }
{
    let mut line = Line::new(alloc);
    let mut rest = bytes;
    for i in 0..count {
        let ((epoch, start), behind) = entry(at + ITEM * i as u64, line.last(), rest)?;
        line.push(epoch, start)?;
        rest = behind;
    }
    Ok((line, rest))
}
