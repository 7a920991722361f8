//! What the tests of several files use: metadata events by their bytes, batches of a letter each, and devices of which
//! a call fails. Values worked by hand.
//!
//! Each function has no contract: it makes a value, or borrows one and returns how a call of it ended.

use bytes::Bytes;
use meta_log::{MemoryLog, MetaCall, MetaLog};
use object_store::{MemoryStore, ObjectKey, Store, StoreCall};
use record_batch::{Rec, build, read_head};
use remote_view::View;
use segment_file::Growing;
use segment_meta::decode;
use std::alloc::{AllocError, Global};
use tier_base::{Blob, BrokerId, Items, Part, PartitionId, SegmentId, segment_id};

/// The one partition.
pub(crate) const PARTITION: PartitionId = PartitionId(0);

/// The copy of a first attempt is whole.
pub(crate) static FINISHED: [u8; 29] = [
    0, 1, // version, kind
    0, 0, 0, 0, 0, 0, 0, 1, 0, 0, 0, 0, 0, 0, 0, 0, // id
    0, 0, // broker
    0, 0, 0, 0, 0, 0, 0, 5, // event_ts
    1, // state
];

/// A packed copy of a first attempt starts: offsets 0 and 1, of epoch 0, 138 bytes.
pub(crate) static PACKED_STARTED: [u8; 77] = [
    1, 0, // version, kind
    0, 0, 0, 0, 0, 0, 0, 1, 0, 0, 0, 0, 0, 0, 0, 0, // id
    0, 0, // partition
    0, 0, 0, 0, 0, 0, 0, 0, // start
    0, 0, 0, 0, 0, 0, 0, 1, // end
    0, 0, 0, 0, 0, 0, 3, 0xe8, // max_ts
    0, 0, // broker
    0, 0, 0, 0, 0, 0, 0, 5, // event_ts
    0, 0, 0, 0x8a, // size
    0, // state
    0, 0, 0, 1, // count
    0, 0, 0, 0, // epoch
    0, 0, 0, 0, 0, 0, 0, 0, // its start
    0, 0, // length of the custom metadata
];

/// It is whole: parts of 138, 0, 12 and 8 bytes.
pub(crate) static PACKED_FINISHED: [u8; 48] = [
    1, 1, // version, kind
    0, 0, 0, 0, 0, 0, 0, 1, 0, 0, 0, 0, 0, 0, 0, 0, // id
    0, 0, // broker
    0, 0, 0, 0, 0, 0, 0, 5, // event_ts
    1, // state
    0, 17, // length of the custom metadata
    1, // layout
    0, 0, 0, 0x8a, 0, 0, 0, 0, 0, 0, 0, 12, 0, 0, 0, 8, // lengths
];

/// A copy starts: offsets 0 to 19, epoch 0 up to offset 9 and epoch 1 from offset 10 on.
pub(crate) static TWO_EPOCHS: [u8; 87] = [
    0, 0, // version, kind
    0, 0, 0, 0, 0, 0, 0, 1, 0, 0, 0, 0, 0, 0, 0, 0, // id
    0, 0, // partition
    0, 0, 0, 0, 0, 0, 0, 0, // start
    0, 0, 0, 0, 0, 0, 0, 19, // end
    0, 0, 0, 0, 0, 0, 0, 0, // max_ts
    0, 0, // broker
    0, 0, 0, 0, 0, 0, 0, 0, // event_ts
    0, 0, 0, 0, // size
    0, // state
    0, 0, 0, 2, // count
    0, 0, 0, 0, // epoch
    0, 0, 0, 0, 0, 0, 0, 0, // its start
    0, 0, 0, 1, // epoch
    0, 0, 0, 0, 0, 0, 0, 10, // its start
];

/// A copy starts: offsets 0 to 14, of epoch 0 alone.
pub(crate) static ONE_EPOCH: [u8; 75] = [
    0, 0, // version, kind
    0, 0, 0, 0, 0, 0, 0, 1, 0, 0, 0, 0, 0, 0, 0, 0, // id
    0, 0, // partition
    0, 0, 0, 0, 0, 0, 0, 0, // start
    0, 0, 0, 0, 0, 0, 0, 14, // end
    0, 0, 0, 0, 0, 0, 0, 0, // max_ts
    0, 0, // broker
    0, 0, 0, 0, 0, 0, 0, 0, // event_ts
    0, 0, 0, 0, // size
    0, // state
    0, 0, 0, 1, // count
    0, 0, 0, 0, // epoch
    0, 0, 0, 0, 0, 0, 0, 0, // its start
];

/// Broker 2 reports a state at 7 milliseconds.
pub(crate) static UPDATE: [u8; 29] = [
    0, 1, // version, kind
    0, 0, 0, 0, 0, 0, 0, 1, 0, 0, 0, 0, 0, 0, 0, 0, // id
    0, 2, // broker
    0, 0, 0, 0, 0, 0, 0, 7, // event_ts
    1, // state
];

/// Where an id's last byte is in a metadata event, an update's state, and the last byte of a copy's end.
const ATTEMPT: usize = 17;

pub(crate) const STATE: usize = 28;

pub(crate) const END: usize = 35;

/// Where the custom metadata begins in an update.
pub(crate) const CUSTOM: usize = 31;

/// The bytes of a metadata event, of an attempt, with a byte of its own at a place.
pub(crate) fn with(
    alloc: Global,
    note: &[u8],
    attempt: u8,
    at: usize,
    own: u8,
) -> Result<Vec<u8>, AllocError> {
    let mut bytes = Vec::new(alloc);
    for (i, byte) in note.iter().enumerate() {
        if i == ATTEMPT {
            bytes.push(attempt)?;
        } else if i == at {
            bytes.push(own)?;
        } else {
            bytes.push(*byte)?;
        }
    }
    Ok(bytes)
}

/// The id of an attempt of broker 0.
pub(crate) fn id(attempt: u64) -> SegmentId {
    segment_id(PARTITION, BrokerId(0), 1, attempt)
}

/// The key of a part of a first attempt.
pub(crate) fn key(part: Part) -> ObjectKey {
    ObjectKey {
        partition: PARTITION,
        id: id(0),
        part,
    }
}

/// Whether a view is fed a metadata event of these bytes.
pub(crate) fn feeds(alloc: Global, view: &mut View, note: &[u8]) -> bool {
    match decode(alloc, note) {
        Ok(note) => view.feed(note).is_ok(),
        Err(_) => false,
    }
}

/// Whether a view is fed a metadata event of an attempt, with a byte of its own at a place.
pub(crate) fn takes(
    alloc: Global,
    view: &mut View,
    note: &[u8],
    attempt: u8,
    at: usize,
    own: u8,
) -> bool {
    match with(alloc, note, attempt, at, own) {
        Ok(bytes) => feeds(alloc, view, bytes.as_slice()),
        Err(_) => false,
    }
}

/// Whether a metadata log gets an event of these bytes.
pub(crate) fn tells<M: MetaLog>(alloc: Global, meta: &mut M, note: &[u8]) -> bool {
    match decode(alloc, note) {
        Ok(note) => meta.append(&note).is_ok(),
        Err(_) => false,
    }
}

/// Whether a metadata log gets an event of an attempt, with a byte of its own at a place.
pub(crate) fn tells_with<M: MetaLog>(
    alloc: Global,
    meta: &mut M,
    note: &[u8],
    attempt: u8,
    at: usize,
    own: u8,
) -> bool {
    match with(alloc, note, attempt, at, own) {
        Ok(bytes) => tells(alloc, meta, bytes.as_slice()),
        Err(_) => false,
    }
}

/// A store of which a call fails, where one is named, done or not.
pub(crate) fn failing_store(
    alloc: Global,
    call: Option<(StoreCall, u32)>,
    after: bool,
) -> Result<MemoryStore, AllocError> {
    let mut plan = Vec::new(alloc);
    if let Some((call, number)) = call {
        plan.push(object_store::Planned {
            call,
            number,
            after,
        })?;
    }
    Ok(MemoryStore::new(alloc, plan))
}

/// A metadata log of which a call fails, where one is named, done or not.
pub(crate) fn failing_log(
    alloc: Global,
    call: Option<(MetaCall, u32)>,
    after: bool,
) -> Result<MemoryLog, AllocError> {
    let mut plan = Vec::new(alloc);
    if let Some((call, number)) = call {
        plan.push(meta_log::Planned {
            call,
            number,
            after,
        })?;
    }
    Ok(MemoryLog::new(alloc, plan))
}

/// A copy of these bytes, which may be shared.
pub(crate) fn shared(alloc: Global, bytes: &[u8]) -> Result<Bytes, AllocError> {
    let bytes = Vec::from_slice(alloc, bytes)?;
    Ok(Bytes::from_vec(bytes)?)
}

/// Whether a store takes an object of these bytes.
pub(crate) fn puts<S: Store>(alloc: Global, store: &mut S, key: &ObjectKey, bytes: &[u8]) -> bool {
    match shared(alloc, bytes) {
        Ok(bytes) => store.put(key, &bytes).is_ok(),
        Err(_) => false,
    }
}

/// A record of a letter at 1000.
fn letter(alloc: Global) -> Result<Rec, AllocError> {
    let value = Blob::from_slice(alloc, b"a".as_slice())?;
    Ok(Rec {
        ts: 1000,
        key: None,
        value: Some(value),
        headers: Items::new(alloc),
    })
}

/// The batch of a letter at an offset: 69 bytes.
pub(crate) fn batch(alloc: Global, base: u64) -> Result<Vec<u8>, AllocError> {
    let rec = letter(alloc)?;
    match build(alloc, base, 0, [rec].as_slice()) {
        Ok(batch) => Ok(batch),
        Err(_) => Err(AllocError),
    }
}

/// The batches of a letter each at the offsets below an end.
pub(crate) fn batches(alloc: Global, end: u64) -> Result<Vec<u8>, AllocError> {
    let mut bytes = Vec::new(alloc);
    for base in 0..end {
        let batch = batch(alloc, base)?;
        bytes.extend_from_slice(batch.as_slice())?;
    }
    Ok(bytes)
}

/// Whether a segment takes a batch.
fn pushes(segment: &mut Growing, batch: &[u8]) -> bool {
    match read_head(batch) {
        Ok(head) => segment.takes(&head) && segment.push(&head).is_ok(),
        Err(_) => false,
    }
}

/// Whether a segment takes the batch of a letter at an offset.
pub(crate) fn grows(alloc: Global, segment: &mut Growing, offset: u64) -> bool {
    match batch(alloc, offset) {
        Ok(batch) => pushes(segment, batch.as_slice()),
        Err(_) => false,
    }
}
