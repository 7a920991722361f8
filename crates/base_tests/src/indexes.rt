//! Worked rows, and lookups beside a plain search. The bytes are of a segment of 150 batches of 69 bytes each from
//! offset 0 on, timestamp 1000, with an entry after more than 4096 bytes: by hand.

ghost use Rattle.std.specs.Prelude.{◌≡◌, []};

use crate::plain;
use sparse_index::{IndexRefusal, OffsetIndex, TimeIndex};
use std::alloc::{AllocError, Global};
use std::test::Fail;

/// The bytes of its offset index.
static OFFSETS: [u8; 16] = [
    0, 0, 0, 0x3c, 0, 0, 0x10, 0x2c, 0, 0, 0, 0x78, 0, 0, 0x20, 0x58,
];

/// The bytes of its time index.
static TIMES: [u8; 12] = [0, 0, 0, 0, 0, 0, 0x03, 0xe8, 0, 0, 0, 0];

/// Adds the two entries to an index with none.
fn fill(index: &mut OffsetIndex) -> bool
    requires { index.old ≡ record { base = 0; entries = [] } }
{
    match index.push(60, 4140) {
        Ok(()) => index.push(120, 8280).is_ok(),
        Err(_) => false,
    }
}

/// Whether the offset index, filled entry by entry, is written as those bytes.
fn is_written(alloc: Global) -> bool {
    let mut index = OffsetIndex::new(alloc, 0);
    fill(&mut index) & plain::is(index.to_bytes(alloc), OFFSETS.as_slice())
}

/// The last entry, once those at a position and past it are gone.
fn last_below(alloc: Global, position: u32) -> Option<(u32, u32)> {
    match OffsetIndex::from_bytes(alloc, 0, OFFSETS.as_slice()) {
        Ok(mut index) => {
            index.cut_to(position);
            index.last()
        }
        Err(_) => None,
    }
}

/// Whether the time index is written as those bytes.
fn is_time_written(alloc: Global) -> bool {
    let mut times = TimeIndex::new(alloc, 0);
    times.push(1000, 0).is_ok() & plain::is(times.to_bytes(alloc), TIMES.as_slice())
}

/// What the offset index of those bytes finds, from a base.
fn found(alloc: Global, base: u32, offset: u64) -> Option<(u64, u32)> {
    match OffsetIndex::from_bytes(alloc, base as u64, OFFSETS.as_slice()) {
        Ok(index) => Some(index.find(offset)),
        Err(_) => None,
    }
}

/// What the time index of those bytes finds at a timestamp, and below it.
fn timed(alloc: Global, timestamp: i64) -> (Option<(i64, u64)>, Option<(i64, u64)>) {
    match TimeIndex::from_bytes(alloc, 7, TIMES.as_slice()) {
        Ok(times) => (times.find(timestamp), times.below(timestamp)),
        Err(_) => (None, None),
    }
}

#[test]
fn indexes_are_written_as_in_the_cases(rt: HostRuntime) {
    assert!(rt; is_written(rt.alloc()), "the offset index");
    assert!(rt; is_time_written(rt.alloc()), "the time index");
    assert_eq!(rt;
        last_below(rt.alloc(), 8280),
        Some((60, 4140)),
        "the batch at the cut is gone"
    );
}

/// A base, an offset, and the entry that is found.
static FOUND: [(u32, u64, u64, u32); 4] = [
    (0, 100, 60, 4140),
    (0, 59, 0, 0),
    (0, 120, 120, 8280),
    (7, 127, 127, 8280),
];

/// The number of the first row that is found elsewhere.
fn first_misfound(alloc: Global) -> Option<usize> {
    for (i, (base, offset, at, position)) in FOUND.iter().enumerate() {
        if found(alloc, *base, *offset) != Some((*at, *position)) {
            return Some(i);
        }
    }
    None
}

#[test]
fn indexes_return_as_in_the_cases(rt: HostRuntime) {
    assert_eq!(rt; first_misfound(rt.alloc()), None);
}

/// A timestamp, the entry that is found at it, and the one below it.
static TIMED: [(i64, Option<(i64, u64)>, Option<(i64, u64)>); 3] = [
    (999, None, None),
    (1000, Some((1000, 7)), None), // the entry itself isn't below
    (1001, Some((1000, 7)), Some((1000, 7))),
];

/// The first timestamp at which another entry is found.
fn first_mistimed(alloc: Global) -> Option<i64> {
    for (timestamp, at, below) in &TIMED {
        if timed(alloc, *timestamp) != (*at, *below) {
            return Some(*timestamp);
        }
    }
    None
}

#[test]
fn time_indexes_return_as_in_the_cases(rt: HostRuntime) {
    assert_eq!(rt; first_mistimed(rt.alloc()), None);
}

/// What is reported of bytes that are no offset index.
fn refusal(alloc: Global, bytes: &[u8]) -> Option<IndexRefusal> {
    OffsetIndex::from_bytes(alloc, 0, bytes).err()
}

/// What is reported of bytes that are no time index.
fn time_refusal(alloc: Global, bytes: &[u8]) -> Option<IndexRefusal> {
    TimeIndex::from_bytes(alloc, 0, bytes).err()
}

/// Bytes that are no offset index, and what is reported.
static BAD: [(&[u8], IndexRefusal); 4] = [
    (
        &[0, 0, 0, 0x3c, 0, 0, 0x10, 0x2c, 0],
        IndexRefusal::BadLength,
    ),
    (
        &[0x80, 0, 0, 0, 0, 0, 0, 0],
        IndexRefusal::NotRising { at: 0 },
    ),
    (
        &[0, 0, 0, 0, 0, 0, 0, 0, 0, 0, 0, 1, 0, 0, 0, 0],
        IndexRefusal::NotRising { at: 1 },
    ),
    (
        &[
            0, 0, 0, 0x3c, 0, 0, 0x10, 0x2c, 0, 0, 0, 0x78, 0, 0, 0x20, 0x58, 0, 0, 0, 0x78, 0, 0,
            0x20, 0x58,
        ],
        IndexRefusal::NotRising { at: 2 },
    ),
];

/// An entry of a negative timestamp.
static NEGATIVE: [u8; 12] = [0xff, 0xff, 0xff, 0xff, 0xff, 0xff, 0xff, 0xff, 0, 0, 0, 0];

/// The number of the first row of which something else is reported.
fn first_untold(alloc: Global) -> Option<usize> {
    for (i, (bytes, wanted)) in BAD.iter().enumerate() {
        if refusal(alloc, bytes) != Some(*wanted) {
            return Some(i);
        }
    }
    None
}

#[test]
fn the_first_invalid_entry_is_reported(rt: HostRuntime) {
    assert_eq!(rt; first_untold(rt.alloc()), None);
}

#[test]
fn a_negative_timestamp_is_reported(rt: HostRuntime) {
    let told = time_refusal(rt.alloc(), NEGATIVE.as_slice());
    assert!(rt; told == Some(IndexRefusal::NotRising { at: 0 }));
}

/// Whether an index finds what a plain search does.
fn finds(index: &OffsetIndex, top: u32) -> bool {
    let count = plain::count_up_to(index.offsets(), top);
    let want = match index.offsets().get(count.wrapping_sub(1)) {
        Some(offset) => (*offset as u64, *offset),
        None => (0, 0),
    };
    index.find(top as u64) == want
}

/// Whether a time index finds what a plain search does.
fn finds_time(times: &TimeIndex, top: u32) -> bool {
    let count = plain::count_up_to(times.offsets(), top);
    let want = match times.offsets().get(count.wrapping_sub(1)) {
        Some(offset) => Some((*offset as i64, *offset as u64)),
        None => None,
    };
    times.find(top as i64) == want
}

/// The least top at which an index finds something else, or their number.
fn least_wrong(index: &OffsetIndex, tops: u32) -> u32 {
    for top in 0..tops {
        if !finds(index, top) {
            return top;
        }
    }
    tops
}

/// The least top at which a time index finds something else, or their number.
fn least_wrong_time(times: &TimeIndex, tops: u32) -> u32 {
    for top in 0..tops {
        if !finds_time(times, top) {
            return top;
        }
    }
    tops
}

/// The least top that is wrong in the offset index of these bytes.
fn searched(alloc: Global, bytes: &[u8], tops: u32) -> u32 {
    match OffsetIndex::from_bytes(alloc, 0, bytes) {
        Ok(index) => least_wrong(&index, tops),
        Err(_) => 0,
    }
}

/// The least top that is wrong in the time index of these bytes.
fn searched_times(alloc: Global, bytes: &[u8], tops: u32) -> u32 {
    match TimeIndex::from_bytes(alloc, 0, bytes) {
        Ok(times) => least_wrong_time(&times, tops),
        Err(_) => 0,
    }
}

/// Adds an entry of one number to the bytes of both.
fn grow(bytes: &mut Vec<u8>, stamps: &mut Vec<u8>, number: u32) -> Result<(), AllocError> {
    bytes.extend_from_slice(number.to_be_bytes().as_slice())?;
    bytes.extend_from_slice(number.to_be_bytes().as_slice())?;
    stamps.extend_from_slice((number as i64).to_be_bytes().as_slice())?;
    stamps.extend_from_slice(number.to_be_bytes().as_slice())
}

#[test]
fn halving_finds_what_a_plain_search_does(rt: HostRuntime) -> Result<(), Fail> {
    let alloc = rt.alloc();
    let mut bytes = Vec::new(alloc);
    let mut stamps = Vec::new(alloc);
    for n in 0u32..150 {
        let tops = 2 * n + 2;
        let wrong = searched(alloc, bytes.as_slice(), tops);
        assert_eq!(rt; wrong, tops, "offsets of {n} entries");
        let wrong = searched_times(alloc, stamps.as_slice(), tops);
        assert_eq!(rt; wrong, tops, "timestamps of {n} entries");
        grow(&mut bytes, &mut stamps, 2 * n + 1)?;
    }
    Ok(())
}
