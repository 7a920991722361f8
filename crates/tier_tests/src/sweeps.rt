//! A sweep of a tier at rest. Values worked by hand.

use crate::given::{
    END, ONE_EPOCH, PACKED_STARTED, PARTITION, STATE, UPDATE, failing_log, failing_store, id, puts,
    tells_with,
};
use meta_log::{MemoryLog, MetaLog};
use object_store::{MemoryStore, ObjectKey, Store};
use std::alloc::{AllocError, Global};
use tier_base::Part;
use tier_sweep::sweep;

/// What brokers left that stopped for good.
#[derive(Clone, Copy)]
pub(crate) enum Left {
    /// The copy of this attempt started.
    Started(u8),
    /// It started, packed.
    Packed(u8),
    /// It came to a state.
    Came(u8, u8),
    /// An object of it exists.
    Stands(u64, Part),
}

/// Whether so much is left.
pub(crate) fn is_left<S: Store, M: MetaLog>(
    alloc: Global,
    store: &mut S,
    meta: &mut M,
    left: Left,
) -> bool {
    match left {
        Left::Started(attempt) => tells_with(alloc, meta, &ONE_EPOCH, attempt, END, 14),
        Left::Packed(attempt) => tells_with(alloc, meta, &PACKED_STARTED, attempt, END, 1),
        Left::Came(attempt, state) => tells_with(alloc, meta, &UPDATE, attempt, STATE, state),
        Left::Stands(attempt, part) => {
            let key = ObjectKey {
                partition: PARTITION,
                id: id(attempt),
                part,
            };
            puts(alloc, store, &key, b"bytes")
        }
    }
}

/// Whether all of it is.
pub(crate) fn are_left<S: Store, M: MetaLog>(
    alloc: Global,
    store: &mut S,
    meta: &mut M,
    all: &[Left],
) -> bool {
    for left in all {
        if !is_left(alloc, store, meta, *left) {
            return false;
        }
    }
    true
}

/// How many objects a sweep takes away.
fn swept(alloc: Global, store: &mut MemoryStore, meta: &mut MemoryLog) -> Option<u64> {
    sweep(alloc, store, meta).ok()
}

/// How many objects a sweep takes away, and how many a further one, where all of it is left.
fn swept_twice(
    alloc: Global,
    all: &[Left],
) -> Result<(bool, Option<u64>, Option<u64>), AllocError> {
    let mut store = failing_store(alloc, None, false)?;
    let mut meta = failing_log(alloc, None, false)?;
    let left = are_left(alloc, &mut store, &mut meta, all);
    let first = swept(alloc, &mut store, &mut meta);
    let second = swept(alloc, &mut store, &mut meta);
    Ok((left, first, second))
}

/// A finished copy, a copy in progress with two objects, a deletion in progress with one, an object without an entry,
/// and a packed copy in progress with its object.
pub(crate) static LEFT: [Left; 16] = [
    Left::Started(0),
    Left::Came(0, 1),
    Left::Stands(0, Part::Log),
    Left::Stands(0, Part::Index),
    Left::Stands(0, Part::TimeIndex),
    Left::Stands(0, Part::Epochs),
    Left::Started(1),
    Left::Stands(1, Part::Log),
    Left::Stands(1, Part::Index),
    Left::Started(2),
    Left::Came(2, 1),
    Left::Came(2, 2),
    Left::Stands(2, Part::Epochs),
    Left::Stands(3, Part::TimeIndex),
    Left::Packed(4),
    Left::Stands(4, Part::Pack),
];

#[test]
fn a_sweep_takes_away_what_was_never_finished(rt: HostRuntime) {
    assert!(rt; swept_twice(rt.alloc(), &LEFT) == Ok((true, Some(5), Some(0))));
}
