//! Worked rows, by hand.

use retention_rule::{local_due, start_due};
use tier_base::{Item, Keep};

/// Two segments of batches at time 0.
static TWO: [Item; 2] = [
    Item {
        last: 9,
        size: 4_899,
        max_ts: 0,
    },
    Item {
        last: 19,
        size: 4_899,
        max_ts: 0,
    },
];

/// How many bytes are kept, and how many of the two segments are due.
static BY_SIZE: [(i64, usize); 3] = [(8_000, 1), (0, 2), (-1, 0)];

/// The first number of bytes with which another number of segments is due.
fn first_wrong_size() -> Option<i64> {
    for (bytes, count) in &BY_SIZE {
        let keep = Keep {
            ms: -1,
            bytes: *bytes,
        };
        if start_due(&TWO, 4_002, 0, keep) != *count {
            return Some(*bytes);
        }
    }
    None
}

#[test]
fn segments_expire_by_size(rt: HostRuntime) {
    assert_eq!(rt; first_wrong_size(), None);
}

/// A segment whose greatest timestamp is 1000.
static ONE: [Item; 1] = [Item {
    last: 9,
    size: 4_899,
    max_ts: 1_000,
}];

/// Ten milliseconds are kept.
static TEN: Keep = Keep { ms: 10, bytes: -1 };

/// The time, the log start offset, whether the segment is due in the local log, and how many are due in the log.
static BY_TIME: [(i64, u64, bool, usize); 4] = [
    (1_010, 0, false, 0),
    (1_011, 0, true, 1),
    (0, 10, true, 0), // it is wholly below the log start offset
    (0, 9, false, 0), // its last offset is the log start offset
];

/// The number of the first row that is due otherwise.
fn first_wrong_time() -> Option<usize> {
    for (i, (now, start, local, count)) in BY_TIME.iter().enumerate() {
        let due = local_due(&ONE, 0, *now, TEN, *start);
        if (due, start_due(&ONE, 0, *now, TEN)) != (*local, *count) {
            return Some(i);
        }
    }
    None
}

#[test]
fn segments_expire_by_time_and_start(rt: HostRuntime) {
    assert_eq!(rt; first_wrong_time(), None);
}
