//! The batches worked by hand, both ways: what their records are, and that these become their bytes; and the bound of
//! a batch's size.

use crate::vectors::{FIRST, HEADER, SECOND, THREE, WRAPPED};
use record_batch::{BuildRefusal, Rec, build, check, records, stamp};
use std::alloc::{AllocError, Global};
use tier_base::{Blob, Items};

/// The worked batches, in order.
fn worked(number: usize) -> &'static [u8] {
    match number {
        0 => &FIRST,
        1 => &SECOND,
        2 => &HEADER,
        3 => &THREE,
        _ => &WRAPPED,
    }
}

/// Base offset and leader epoch of the worked batches, and their records.
static WORKED: [(u64, u32, &str); 5] = [
    (
        0,
        0,
        "[Rec { ts: 1000, key: None, value: Some(Blob { bytes: [97] }), headers: Items { items: [] } }]",
    ),
    (
        1,
        0,
        "[Rec { ts: 1000, key: None, value: Some(Blob { bytes: [98] }), headers: Items { items: [] } }]",
    ),
    (
        0,
        0,
        "\
        [Rec { ts: 5, key: Some(Blob { bytes: [107] }), value: None, headers: Items { items: [Header { key: Blob { \
        bytes: [104] }, value: None }] } }]",
    ),
    (
        0,
        0,
        "\
        [Rec { ts: 1000, key: None, value: Some(Blob { bytes: [97] }), headers: Items { items: [] } }, Rec { ts: 1000, \
        key: None, value: Some(Blob { bytes: [98] }), headers: Items { items: [] } }, Rec { ts: 1000, key: None, \
        value: Some(Blob { bytes: [99] }), headers: Items { items: [] } }]",
    ),
    (
        (1 << 40) + 1,
        7,
        "\
        [Rec { ts: -9223372036854775808, key: None, value: Some(Blob { bytes: [] }), headers: Items { items: [] } }, \
        Rec { ts: 9223372036854775807, key: Some(Blob { bytes: [] }), value: Some(Blob { bytes: [120] }), headers: \
        Items { items: [Header { key: Blob { bytes: [] }, value: Some(Blob { bytes: [] }) }, Header { key: Blob { \
        bytes: [110] }, value: Some(Blob { bytes: [118, 119] }) }] } }]",
    ),
];

/// The records of a batch.
fn records_of(alloc: Global, batch: &[u8]) -> Option<Vec<Rec>> {
    match check(batch) {
        Ok(_) => records(alloc, batch).ok(),
        Err(_) => None,
    }
}

/// The records of a batch, as text.
fn shown(alloc: Global, batch: &[u8]) -> Result<String, AllocError> {
    match records_of(alloc, batch) {
        Some(recs) => format!(in alloc; "{:?}", recs.as_slice()),
        None => Ok(String::new(alloc)),
    }
}

/// The batch of a batch's records.
fn built_again(alloc: Global, batch: &[u8], base: u64, epoch: u32) -> Option<Vec<u8>> {
    match records_of(alloc, batch) {
        Some(recs) => build(alloc, base, epoch, recs.as_slice()).ok(),
        None => None,
    }
}

/// Whether a batch has these bytes, and has them when it is stamped.
fn stays(batch: Vec<u8>, wanted: &[u8], base: u64, epoch: u32) -> bool {
    let mut batch = batch;
    let built = batch.as_slice() == wanted;
    let other = restamped(batch.as_mut_slice(), 9, 9);
    let own = restamped(batch.as_mut_slice(), base, epoch);
    let again = batch.as_slice() == wanted;
    built & other & own & again
}

fn restamped(batch: &mut [u8], base: u64, epoch: u32) -> bool {
    if batch.len() < 16 {
        return false;
    }
    stamp(batch, base, epoch);
    true
}

/// Whether a batch's records become its bytes.
fn is_built(alloc: Global, batch: &[u8], base: u64, epoch: u32) -> bool {
    match built_again(alloc, batch, base, epoch) {
        Some(again) => stays(again, batch, base, epoch),
        None => false,
    }
}

/// Whether a batch's records are shown so.
fn is_shown(alloc: Global, batch: &[u8], recs: &str) -> bool {
    match shown(alloc, batch) {
        Ok(text) => text.as_str() == recs,
        Err(AllocError) => false,
    }
}

/// The number of the first worked batch that doesn't go both ways.
fn first_wrong(alloc: Global) -> Option<usize> {
    for (number, (base, epoch, recs)) in WORKED.iter().enumerate() {
        let batch = worked(number);
        let read = is_shown(alloc, batch, recs);
        if !(read & is_built(alloc, batch, *base, *epoch)) {
            return Some(number);
        }
    }
    None
}

#[test]
fn worked_batches_go_both_ways(rt: HostRuntime) {
    assert_eq!(rt; first_wrong(rt.alloc()), None);
}

/// So many bytes.
fn blob_of(alloc: Global, bytes: usize) -> Option<Blob> {
    let mut value = Vec::new(alloc);
    match value.resize(bytes, 7u8) {
        Ok(()) => Some(Blob::from_vec(value)),
        Err(AllocError) => None,
    }
}

/// A record of a value.
fn rec_of(alloc: Global, value: Blob) -> Rec {
    Rec {
        ts: 0,
        key: None,
        value: Some(value),
        headers: Items::new(alloc),
    }
}

fn size_of_built(alloc: Global, rec: Rec) -> Result<usize, BuildRefusal> {
    match build(alloc, 0, 0, [rec].as_slice()) {
        Ok(batch) => Ok(batch.len()),
        Err(refusal) => Err(refusal),
    }
}

/// The size of a batch of one record whose value has so many bytes.
fn size_of(alloc: Global, bytes: usize) -> Result<usize, BuildRefusal> {
    match blob_of(alloc, bytes) {
        Some(value) => size_of_built(alloc, rec_of(alloc, value)),
        None => Err(BuildRefusal::NoMemory),
    }
}

/// A batch has 61 bytes before its one record, and that has 11 bytes beside a value of about a million.
#[test]
fn largest_batch_is_built_and_a_byte_more_is_not(rt: HostRuntime) {
    let largest = size_of(rt.alloc(), 1_048_504).ok();
    let larger = size_of(rt.alloc(), 1_048_505).err();
    let wanted = (Some(1_048_576), Some(BuildRefusal::TooLarge));
    assert_eq!(rt; (largest, larger), wanted);
}

/// Why there is no batch of no records.
fn refusal_of_none(alloc: Global) -> Option<BuildRefusal> {
    build(alloc, 0, 0, &[]).err()
}

#[test]
fn a_batch_has_a_record(rt: HostRuntime) {
    assert_eq!(rt; refusal_of_none(rt.alloc()), Some(BuildRefusal::NoRecords));
}
