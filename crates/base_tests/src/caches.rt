//! Worked rows, by hand. An index is recognised by its segment's base offset.

use index_cache::IndexCache;
use sparse_index::OffsetIndex;
use std::alloc::Global;
use tier_base::SegmentId;
use uuid::Uuid;

/// A call of a row.
#[derive(Clone, Copy)]
enum Step {
    /// The index of this base is kept under an id.
    Keep(u32, u32),
    /// An id's index is used, and has this base.
    Get(u32, Option<u64>),
    /// So many indexes are held, of at most so many.
    Holds(usize, usize),
}

fn id(number: u32) -> SegmentId {
    SegmentId(Uuid::from_u128(number as u128))
}

fn keep(alloc: Global, cache: &mut IndexCache, number: u32, base: u32) -> bool {
    cache
        .keep(id(number), OffsetIndex::new(alloc, base as u64))
        .is_ok()
}

/// The base of an id's index.
fn get(cache: &mut IndexCache, number: u32) -> Option<u64> {
    match cache.get(id(number)) {
        Some(index) => Some(index.find(0).0),
        None => None,
    }
}

/// Makes a call, and returns whether it went as the row says.
fn call(alloc: Global, cache: &mut IndexCache, step: Step) -> bool {
    match step {
        Step::Keep(number, base) => keep(alloc, cache, number, base),
        Step::Get(number, base) => get(cache, number) == base,
        Step::Holds(count, size) => (cache.len(), cache.size()) == (count, size),
    }
}

/// Makes calls, and returns how many went well at first.
fn run(alloc: Global, cache: &mut IndexCache, calls: &[Step]) -> usize {
    for (i, step) in calls.iter().enumerate() {
        if !call(alloc, cache, *step) {
            return i;
        }
    }
    calls.len()
}

/// How many calls of a new cache went well at first.
fn row(alloc: Global, size: usize, calls: &[Step]) -> usize {
    match IndexCache::new(alloc, size.max(1)) {
        Ok(mut cache) => run(alloc, &mut cache, calls),
        Err(_) => 0,
    }
}

/// What happens, the size and the calls.
static ROWS: [(&str, usize, &[Step]); 4] = [
    (
        "one place, two indexes",
        1,
        &[
            Step::Holds(0, 1),
            Step::Keep(0, 10),
            Step::Keep(1, 11),
            Step::Holds(1, 1),
            Step::Get(0, None),
            Step::Get(1, Some(11)),
        ],
    ),
    (
        "the older one was used since",
        2,
        &[
            Step::Holds(0, 2),
            Step::Keep(0, 10),
            Step::Keep(1, 11),
            Step::Get(0, Some(10)),
            Step::Keep(2, 12),
            Step::Holds(2, 2),
            Step::Get(0, Some(10)),
            Step::Get(1, None),
            Step::Get(2, Some(12)),
        ],
    ),
    (
        "an id is kept again",
        2,
        &[
            Step::Holds(0, 2),
            Step::Keep(0, 10),
            Step::Keep(1, 11),
            Step::Keep(0, 20),
            Step::Holds(2, 2),
            Step::Get(0, Some(20)),
            Step::Get(1, Some(11)),
        ],
    ),
    (
        "an id that isn't there was asked for",
        2,
        &[
            Step::Holds(0, 2),
            Step::Keep(0, 10),
            Step::Keep(1, 11),
            Step::Get(5, None),
            Step::Keep(2, 12),
            Step::Holds(2, 2),
            Step::Get(0, None),
            Step::Get(1, Some(11)),
            Step::Get(2, Some(12)),
        ],
    ),
];

#[test]
fn the_index_used_least_recently_is_dropped(rt: HostRuntime) {
    for (name, size, calls) in &ROWS {
        assert_eq!(rt; row(rt.alloc(), *size, calls), calls.len(), "{name}");
    }
}
