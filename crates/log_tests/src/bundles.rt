//! Worked rows, by hand. A batch of one record of a letter has 69 bytes.

use crate::trial::stamped;
use crate::vectors::FIRST;
use bytes::Bytes;
use epoch_line::Line;
use segment_bundle::Bundle;
use segment_file::Closed;
use std::alloc::Global;
use tier_base::{Layout, Part};

/// Adds the batch of a base offset to the bytes of a segment.
fn grow(alloc: Global, bytes: &mut Vec<u8>, base: u64) -> bool {
    match stamped(alloc, FIRST.as_slice(), base, 0) {
        Some(batch) => bytes.extend_from_slice(batch.as_slice()).is_ok(),
        None => false,
    }
}

/// The bytes of so many batches of one record each, from offset 0 on.
fn bytes_of(alloc: Global, count: u64) -> Option<Vec<u8>> {
    let mut bytes = Vec::new(alloc);
    for base in 0..count {
        if !grow(alloc, &mut bytes, base) {
            return None;
        }
    }
    Some(bytes)
}

/// The closed segment of these bytes.
fn closed_of(alloc: Global, bytes: Vec<u8>) -> Option<Closed> {
    match Bytes::from_vec(bytes) {
        Ok(bytes) => Closed::read(alloc, 0, bytes).ok(),
        Err(_) => None,
    }
}

/// A segment of so many batches.
fn segment(alloc: Global, count: u64) -> Option<Closed> {
    match bytes_of(alloc, count) {
        Some(bytes) => closed_of(alloc, bytes),
        None => None,
    }
}

/// The bundle of a segment and its log's line, at an interval of 4096 bytes.
fn bundle_of(alloc: Global, closed: &Closed, line: &str) -> Option<Bundle> {
    match Line::from_text(alloc, line.as_bytes()) {
        Ok(line) => Bundle::of(alloc, closed, &line, 4096).ok(),
        Err(_) => None,
    }
}

/// The line of the log, of which the last entry starts after the segment.
static LINE: &str = "0\n3\n0 0\n1 149\n2 150\n";

/// The entries of that line.
static ENTRIES: [(u32, u64); 3] = [(0, 0), (1, 149), (2, 150)];

/// The line of the segment.
static EPOCHS: &str = "0\n2\n0 0\n1 149\n";

/// The segment's offset index at an interval of 4096 bytes.
static INDEX: [u8; 16] = [
    0, 0, 0, 0x3c, 0, 0, 0x10, 0x2c, 0, 0, 0, 0x78, 0, 0, 0x20, 0x58,
];

/// Its time index.
static TIMES: [u8; 12] = [0, 0, 0, 0, 0, 0, 0x03, 0xe8, 0, 0, 0, 0];

/// Whether a bundle's part has these bytes.
fn has(alloc: Global, bundle: &Bundle, part: Part, bytes: &[u8]) -> bool {
    match bundle.part(alloc, part) {
        Ok(held) => held.as_slice() == bytes,
        Err(_) => false,
    }
}

/// Whether a bundle's log part and its source are the segment's bytes, and its line and its interval those it was
/// made of.
fn keeps(alloc: Global, bundle: &Bundle, closed: &Closed) -> (bool, bool, bool, u32) {
    (
        has(alloc, bundle, Part::Log, closed.bytes().as_slice()),
        bundle.source().as_slice() == closed.bytes().as_slice(),
        bundle.line().entries() == ENTRIES.as_slice(),
        bundle.interval(),
    )
}

/// Whether a bundle's other parts have the bytes that they should.
fn has_parts(alloc: Global, bundle: &Bundle) -> (bool, bool, bool) {
    (
        has(alloc, bundle, Part::Index, INDEX.as_slice()),
        has(alloc, bundle, Part::TimeIndex, TIMES.as_slice()),
        has(alloc, bundle, Part::Epochs, EPOCHS.as_bytes()),
    )
}

/// How long a bundle's pack is, and how long the parts in it.
fn lengths(alloc: Global, bundle: &Bundle) -> Option<(usize, Layout)> {
    match (bundle.part(alloc, Part::Pack), bundle.layout()) {
        (Ok(pack), Some(layout)) => Some((pack.len(), layout)),
        _ => None,
    }
}

/// What the bundle of a segment keeps.
fn kept_of(alloc: Global, closed: &Closed) -> Option<(bool, bool, bool, u32)> {
    match bundle_of(alloc, closed, LINE) {
        Some(bundle) => Some(keeps(alloc, &bundle, closed)),
        None => None,
    }
}

/// What the bundle of 150 batches keeps.
fn kept(alloc: Global) -> Option<(bool, bool, bool, u32)> {
    match segment(alloc, 150) {
        Some(closed) => kept_of(alloc, &closed),
        None => None,
    }
}

/// The bundle of a segment of so many batches.
fn bundle(alloc: Global, count: u64, line: &str) -> Option<Bundle> {
    match segment(alloc, count) {
        Some(closed) => bundle_of(alloc, &closed, line),
        None => None,
    }
}

/// Whether the bundle of 150 batches has its parts.
fn parts(alloc: Global) -> Option<(bool, bool, bool)> {
    match bundle(alloc, 150, LINE) {
        Some(bundle) => Some(has_parts(alloc, &bundle)),
        None => None,
    }
}

/// How long the pack of the bundle of two batches is, and its parts.
fn short(alloc: Global) -> Option<(usize, Layout)> {
    match bundle(alloc, 2, "0\n1\n0 0\n") {
        Some(bundle) => lengths(alloc, &bundle),
        None => None,
    }
}

#[test]
fn a_bundle_has_four_parts(rt: HostRuntime) {
    assert!(rt; parts(rt.alloc()) == Some((true, true, true)));
}

#[test]
fn a_bundle_keeps_what_it_was_made_of(rt: HostRuntime) {
    assert!(rt; kept(rt.alloc()) == Some((true, true, true, 4096)));
}

#[test]
fn a_short_segment_has_a_time_entry_alone(rt: HostRuntime) {
    let layout = Layout {
        log: 138,
        index: 0,
        times: 12,
        epochs: 8,
    };
    assert_eq!(rt; short(rt.alloc()), Some((158, layout)));
}
