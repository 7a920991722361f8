//! What is read of the batches worked by hand, and why changed ones are refused.
//!
//! A changed batch has the bytes of a worked one but for a few places, and a checksum of its own, which is that of a
//! program that was written apart from this one.

use crate::files::SEGMENT;
use crate::trial::part;
use crate::vectors::{FIRST, FOREIGN, THREE};
use record_batch::{BatchRefusal, HeadRefusal, Rec, check, read_head, records, stamp};
use std::alloc::{AllocError, Global};

/// Puts a byte at a place, where there is one.
pub(crate) fn put(bytes: &mut Vec<u8>, at: usize, byte: u8) {
    if at < bytes.len() {
        bytes[at] = byte;
    }
}

/// Puts a checksum and other bytes into a batch.
fn change(bytes: &mut Vec<u8>, changes: &[(usize, u8)], crc: u32) {
    let [a, b, c, d] = crc.to_be_bytes();
    put(bytes, 17, a);
    put(bytes, 18, b);
    put(bytes, 19, c);
    put(bytes, 20, d);
    for (at, byte) in changes {
        put(bytes, *at, *byte);
    }
}

/// A batch with these changes and this checksum.
fn changed(
    alloc: Global,
    batch: &[u8],
    changes: &[(usize, u8)],
    crc: u32,
) -> Result<Vec<u8>, AllocError> {
    match Vec::from_slice(alloc, batch) {
        Ok(mut bytes) => {
            change(&mut bytes, changes, crc);
            Ok(bytes)
        }
        Err(AllocError) => Err(AllocError),
    }
}

/// Changed batches: whether of `THREE` or of `FIRST`, the changes, the checksum, and why the batch is refused, if it
/// is.
static CHANGED: [(&str, bool, &[(usize, u8)], u32, Option<BatchRefusal>); 17] = [
    (
        "a bit of the value",
        false,
        &[(67, 0x60)],
        0xebf1_884b,
        Some(BatchRefusal::BadCrc {
            kept: 3_958_474_827,
            computed: 4_166_193_212,
        }),
    ),
    (
        "compressed, the old sum",
        false,
        &[(22, 1)],
        0xebf1_884b,
        Some(BatchRefusal::BadCrc {
            kept: 3_958_474_827,
            computed: 2_767_818_519,
        }),
    ),
    (
        "compressed",
        false,
        &[(22, 1)],
        0xa4f9_8f17,
        Some(BatchRefusal::Compressed),
    ),
    (
        "bits 4 and 5",
        false,
        &[(22, 0x30)],
        0xc74f_0cb6,
        Some(BatchRefusal::Transactional),
    ),
    (
        "bit 5",
        false,
        &[(22, 0x20)],
        0x207e_a2b2,
        Some(BatchRefusal::Control),
    ),
    (
        "magic 1",
        false,
        &[(16, 1)],
        0xebf1_884b,
        Some(BatchRefusal::BadMagic),
    ),
    (
        "length 48",
        false,
        &[(11, 48)],
        0xebf1_884b,
        Some(BatchRefusal::BadLength),
    ),
    (
        "no records",
        false,
        &[(60, 0)],
        0x1fcf_5e03,
        Some(BatchRefusal::BadRecords { at: 57 }),
    ),
    (
        "a negative count",
        false,
        &[(57, 0x80), (60, 0)],
        0xd681_9e9b,
        Some(BatchRefusal::BadRecords { at: 57 }),
    ),
    (
        "a last offset delta of 1",
        false,
        &[(26, 1)],
        0x79aa_a3da,
        Some(BatchRefusal::BadRecords { at: 23 }),
    ),
    (
        "one record of two",
        false,
        &[(26, 1), (60, 2)],
        0x6005_aff3,
        Some(BatchRefusal::BadRecords { at: 69 }),
    ),
    (
        "a record past the end",
        false,
        &[(61, 16)],
        0x9ed9_fd06,
        Some(BatchRefusal::BadRecords { at: 61 }),
    ),
    (
        "a value over the count",
        false,
        &[(66, 4)],
        0x3a40_7e5c,
        Some(BatchRefusal::BadRecords { at: 61 }),
    ),
    (
        "a number twice",
        true,
        &[(72, 0)],
        0x2ad9_6a9b,
        Some(BatchRefusal::BadRecords { at: 69 }),
    ),
    (
        "two records of three",
        true,
        &[(26, 1), (60, 2)],
        0x398b_4710,
        Some(BatchRefusal::BadRecords { at: 77 }),
    ),
    (
        "a record's attributes",
        false,
        &[(62, 0x55)],
        0xc0fe_9c8e,
        None,
    ),
    (
        "bits 6, 7 and 15",
        false,
        &[(21, 0x80), (22, 0xc0)],
        0x7e8f_9811,
        None,
    ),
];

/// Why a changed batch is refused.
fn refusal_of(
    alloc: Global,
    of_three: bool,
    changes: &[(usize, u8)],
    crc: u32,
) -> Result<Option<BatchRefusal>, AllocError> {
    let batch = if of_three {
        THREE.as_slice()
    } else {
        FIRST.as_slice()
    };
    match changed(alloc, batch, changes, crc) {
        Ok(bytes) => Ok(check(bytes.as_slice()).err()),
        Err(AllocError) => Err(AllocError),
    }
}

/// The name of the first changed batch of which something else is reported. What says nothing is read over: a record's
/// attributes, bits 6 to 15 of the batch's.
fn first_wrong_change(alloc: Global) -> Option<&'static str> {
    for (name, of_three, changes, crc, want) in &CHANGED {
        if refusal_of(alloc, *of_three, changes, *crc) != Ok(*want) {
            return Some(*name);
        }
    }
    None
}

#[test]
fn changed_batches_are_refused_or_taken(rt: HostRuntime) {
    assert_eq!(rt; first_wrong_change(rt.alloc()), None);
}

/// Why the first bytes of two batches, one after the other, are no batch.
fn refusal_of_front(size: usize) -> Option<BatchRefusal> {
    check(part(SEGMENT.as_slice(), 0, size)).err()
}

/// How many bytes there are of the two, and why they are no batch.
static FRONTS: [(usize, Option<BatchRefusal>); 4] = [
    (60, Some(BatchRefusal::Short)),
    (68, Some(BatchRefusal::Short)),
    (69, None),
    (70, Some(BatchRefusal::BadLength)),
];

/// The first number of bytes of which something else is reported.
fn first_wrong_front() -> Option<usize> {
    for (size, want) in &FRONTS {
        if refusal_of_front(*size) != *want {
            return Some(*size);
        }
    }
    None
}

#[test]
fn a_batch_ends_with_its_bytes(rt: HostRuntime) {
    assert_eq!(rt; first_wrong_front(), None);
}

/// Why the first bytes of a batch have no head.
fn head_refusal(size: usize) -> Option<HeadRefusal> {
    read_head(part(FIRST.as_slice(), 0, size)).err()
}

#[test]
fn a_head_has_61_bytes(rt: HostRuntime) {
    let told = (head_refusal(60), head_refusal(61));
    assert!(rt; told == (Some(HeadRefusal::Short), None));
}

/// The base offset, the leader epoch and the producer of a batch.
fn placed(batch: &[u8]) -> Option<(i64, i32, i64)> {
    match check(batch) {
        Ok(head) => Some((head.base_offset, head.leader_epoch, head.producer_id)),
        Err(_) => None,
    }
}

/// What a batch of another base says once it is stamped, and whether all else is as it was.
fn stamped(batch: &[u8; 69]) -> (Option<(i64, i32, i64)>, bool, bool) {
    let mut bytes = *batch;
    stamp(bytes.as_mut_slice(), 0, 0);
    (
        placed(bytes.as_slice()),
        part(bytes.as_slice(), 8, 12) == part(batch.as_slice(), 8, 12),
        part(bytes.as_slice(), 16, 69) == part(batch.as_slice(), 16, 69),
    )
}

#[test]
fn a_batch_of_another_base_is_stamped(rt: HostRuntime) {
    let told = (placed(FOREIGN.as_slice()), stamped(&FOREIGN));
    assert!(rt; told == (Some((99, 5, 7)), (Some((0, 0, 7)), true, true)));
}

/// The time of the first record.
fn first_ts(recs: &[Rec]) -> Option<i64> {
    match recs.first() {
        Some(rec) => Some(rec.ts),
        None => None,
    }
}

/// The times of a batch and of its first record.
fn times_of(alloc: Global, batch: &[u8]) -> Option<(i64, Option<i64>)> {
    let base_ts = match check(batch) {
        Ok(head) => head.base_ts,
        Err(_) => return None,
    };
    match records(alloc, batch) {
        Ok(recs) => Some((base_ts, first_ts(recs.as_slice()))),
        Err(_) => None,
    }
}

/// The first batch's bit 3 is set, and it was appended at 2000.
static APPENDED: [(usize, u8); 3] = [(22, 8), (41, 7), (42, 0xd0)];

/// The times of the first batch and of its records, where each record has the time at which the batch was appended.
fn times(alloc: Global) -> Option<(i64, Option<i64>)> {
    match changed(alloc, FIRST.as_slice(), &APPENDED, 0xf6fa_1937) {
        Ok(batch) => times_of(alloc, batch.as_slice()),
        Err(AllocError) => None,
    }
}

#[test]
fn append_time_is_each_record_s(rt: HostRuntime) {
    assert_eq!(rt; times(rt.alloc()), Some((1000, Some(2000))));
}
