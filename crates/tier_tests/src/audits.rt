//! An audit of one finished copy: two batches of a letter each, and their other three parts. Values worked by hand.
//!
//! No test holds a device: each row has how one object is, and what the audit then returns.

use crate::given::{
    CUSTOM, FINISHED, PACKED_FINISHED, PACKED_STARTED, STATE, batches, failing_log, failing_store,
    id, key, puts, tells, tells_with,
};
use meta_log::{MemoryLog, MetaCall, MetaLog};
use object_store::{MemoryStore, ObjectKey, Store, StoreCall};
use std::alloc::{AllocError, Global};
use tier_audit::{AuditRefusal, Flaw, Verdict, audit};
use tier_base::{Part, PartitionId};

/// A copy of offsets 0 and 1 starts, of epoch 0: 138 bytes.
static STARTED: [u8; 75] = [
    0, 0, // version, kind
    0, 0, 0, 0, 0, 0, 0, 1, 0, 0, 0, 0, 0, 0, 0, 0, // id
    0, 0, // partition
    0, 0, 0, 0, 0, 0, 0, 0, // start
    0, 0, 0, 0, 0, 0, 0, 1, // end
    0, 0, 0, 0, 0, 0, 3, 0xe8, // max_ts
    0, 0, // broker
    0, 0, 0, 0, 0, 0, 0, 5, // event_ts
    0, 0, 0, 0x8a, // size
    0, // state
    0, 0, 0, 1, // count
    0, 0, 0, 0, // epoch
    0, 0, 0, 0, 0, 0, 0, 0, // its start
];

/// The same, of epoch 1 from offset 1 on, which no batch begins.
static PARTED: [u8; 87] = [
    0, 0, // version, kind
    0, 0, 0, 0, 0, 0, 0, 1, 0, 0, 0, 0, 0, 0, 0, 0, // id
    0, 0, // partition
    0, 0, 0, 0, 0, 0, 0, 0, // start
    0, 0, 0, 0, 0, 0, 0, 1, // end
    0, 0, 0, 0, 0, 0, 3, 0xe8, // max_ts
    0, 0, // broker
    0, 0, 0, 0, 0, 0, 0, 5, // event_ts
    0, 0, 0, 0x8a, // size
    0, // state
    0, 0, 0, 2, // count
    0, 0, 0, 0, // epoch
    0, 0, 0, 0, 0, 0, 0, 0, // its start
    0, 0, 0, 1, // epoch
    0, 0, 0, 0, 0, 0, 0, 1, // its start
];

/// Its time index: the first batch has the greatest timestamp.
static TIMES: [u8; 12] = [0, 0, 0, 0, 0, 0, 3, 0xe8, 0, 0, 0, 0];

/// Its leader epochs.
static EPOCHS: &str = "0\n1\n0 0\n";

static PARTS: [Part; 4] = [Part::Log, Part::Index, Part::TimeIndex, Part::Epochs];

/// How an object exists.
#[derive(Clone, Copy)]
enum How {
    Right,
    Gone,
    /// With another byte at a place.
    Changed(usize),
    /// Up to a place.
    Cut(usize),
    These(&'static [u8]),
}

/// What an audit came to, in short.
#[derive(Clone, Copy, Debug, PartialEq, Eq)]
enum Came {
    Sound(u64, u64),
    NoEntry(Part),
    Left(Part),
    Custom,
    Missing(Part),
    Wrong(Part, u64),
    StoreFault,
    MetaFault,
    Other,
}

/// One object that is so, and what the audit comes to.
struct Row {
    part: Part,
    how: How,
    came: Came,
}

/// Of index entries: one for each batch; then the second one's position isn't where its batch begins. Of moments: the
/// second batch is no later than the first. Of a packed copy the one object has its time index at 138, and its epochs
/// at 150.
static CASES: [Row; 24] = [
    Row {
        part: Part::Log,
        how: How::Right,
        came: Came::Sound(1, 4),
    },
    Row {
        part: Part::Log,
        how: How::Gone,
        came: Came::Missing(Part::Log),
    },
    Row {
        part: Part::Index,
        how: How::Gone,
        came: Came::Missing(Part::Index),
    },
    Row {
        part: Part::TimeIndex,
        how: How::Gone,
        came: Came::Missing(Part::TimeIndex),
    },
    Row {
        part: Part::Epochs,
        how: How::Gone,
        came: Came::Missing(Part::Epochs),
    },
    // A byte of a batch's records, and of the next one's.
    Row {
        part: Part::Log,
        how: How::Changed(65),
        came: Came::Wrong(Part::Log, 0),
    },
    Row {
        part: Part::Log,
        how: How::Changed(134),
        came: Came::Wrong(Part::Log, 69),
    },
    Row {
        part: Part::Log,
        how: How::These(b""),
        came: Came::Wrong(Part::Log, 0),
    },
    Row {
        part: Part::Index,
        how: How::These(b"\0\0\0\0\0\0\0\0\0\0\0\x01\0\0\0\x45"),
        came: Came::Sound(1, 4),
    },
    Row {
        part: Part::Index,
        how: How::These(b"\0\0\0\0\0\0\0\0\0\0\0\x01\0\0\0\x46"),
        came: Came::Wrong(Part::Index, 8),
    },
    Row {
        part: Part::Index,
        how: How::These(b"index"),
        came: Came::Wrong(Part::Index, 5),
    },
    Row {
        part: Part::TimeIndex,
        how: How::These(b""),
        came: Came::Sound(1, 4),
    },
    Row {
        part: Part::TimeIndex,
        how: How::Changed(7),
        came: Came::Wrong(Part::TimeIndex, 0),
    },
    Row {
        part: Part::TimeIndex,
        how: How::These(b"\0\0\0\0\0\0\x03\xe8\0\0\0\x01"),
        came: Came::Wrong(Part::TimeIndex, 0),
    },
    // Another epoch, a line that can't exist, and epochs up to after the copy's end.
    Row {
        part: Part::Epochs,
        how: How::These(b"0\n1\n1 0\n"),
        came: Came::Wrong(Part::Epochs, 8),
    },
    Row {
        part: Part::Epochs,
        how: How::These(b"0\n1\n00 0\n"),
        came: Came::Wrong(Part::Epochs, 4),
    },
    Row {
        part: Part::Epochs,
        how: How::These(b"0\n2\n0 0\n1 2\n"),
        came: Came::Sound(1, 4),
    },
    Row {
        part: Part::Pack,
        how: How::Right,
        came: Came::Sound(1, 1),
    },
    Row {
        part: Part::Pack,
        how: How::Gone,
        came: Came::Missing(Part::Pack),
    },
    Row {
        part: Part::Pack,
        how: How::Changed(134),
        came: Came::Wrong(Part::Pack, 69),
    },
    Row {
        part: Part::Pack,
        how: How::Changed(145),
        came: Came::Wrong(Part::Pack, 138),
    },
    // Another epoch, and an object that ends within its log and within its time index.
    Row {
        part: Part::Pack,
        how: How::Changed(154),
        came: Came::Wrong(Part::Pack, 158),
    },
    Row {
        part: Part::Pack,
        how: How::Cut(137),
        came: Came::Wrong(Part::Pack, 137),
    },
    Row {
        part: Part::Pack,
        how: How::Cut(140),
        came: Came::Wrong(Part::Pack, 140),
    },
];

/// The bytes of a part.
fn right(alloc: Global, part: Part) -> Result<Vec<u8>, AllocError> {
    match part {
        Part::Log => batches(alloc, 2),
        Part::Index => Ok(Vec::new(alloc)),
        Part::TimeIndex => Vec::from_slice(alloc, TIMES.as_slice()),
        Part::Epochs => Vec::from_slice(alloc, EPOCHS.as_bytes()),
        Part::Pack => pack(alloc),
    }
}

/// The parts that aren't empty, one after another.
fn pack(alloc: Global) -> Result<Vec<u8>, AllocError> {
    let mut bytes = batches(alloc, 2)?;
    bytes.extend_from_slice(TIMES.as_slice())?;
    bytes.extend_from_slice(EPOCHS.as_bytes())?;
    Ok(bytes)
}

/// The bytes of a part up to a place.
fn cut(alloc: Global, part: Part, at: usize) -> Result<Vec<u8>, AllocError> {
    let mut bytes = right(alloc, part)?;
    bytes.truncate(at);
    Ok(bytes)
}

/// The same with another byte at a place.
fn changed(alloc: Global, part: Part, at: usize) -> Result<Vec<u8>, AllocError> {
    let mut bytes = Vec::new(alloc);
    let own = right(alloc, part)?;
    for (i, byte) in own.as_slice().iter().enumerate() {
        bytes.push(if i == at { *byte ^ 1 } else { *byte })?;
    }
    Ok(bytes)
}

/// Whether a store takes an object that was made.
fn takes(
    alloc: Global,
    store: &mut MemoryStore,
    key: &ObjectKey,
    bytes: Result<Vec<u8>, AllocError>,
) -> bool {
    match bytes {
        Ok(bytes) => puts(alloc, store, key, bytes.as_slice()),
        Err(_) => false,
    }
}

/// Whether an object is so.
fn stands(alloc: Global, store: &mut MemoryStore, part: Part, how: How) -> bool {
    match how {
        How::Right => takes(alloc, store, &key(part), right(alloc, part)),
        How::Gone => true,
        How::Changed(at) => takes(alloc, store, &key(part), changed(alloc, part, at)),
        How::Cut(at) => takes(alloc, store, &key(part), cut(alloc, part, at)),
        How::These(bytes) => puts(alloc, store, &key(part), bytes),
    }
}

/// Whether the copy's objects exist, one of them so.
fn holds(alloc: Global, store: &mut MemoryStore, one: Part, how: How) -> bool {
    for part in PARTS.iter() {
        let own = if *part == one { how } else { How::Right };
        if !stands(alloc, store, *part, own) {
            return false;
        }
    }
    true
}

/// Whether the metadata log has the event of the finished copy.
fn told(alloc: Global, meta: &mut MemoryLog) -> bool {
    let started = tells(alloc, meta, STARTED.as_slice());
    let finished = tells(alloc, meta, FINISHED.as_slice());
    started & finished
}

/// Whether it is reported of the finished copy as packed, with another first byte of its custom metadata.
fn told_packed(alloc: Global, meta: &mut MemoryLog, version: u8) -> bool {
    let started = tells(alloc, meta, PACKED_STARTED.as_slice());
    let finished = tells_with(alloc, meta, PACKED_FINISHED.as_slice(), 0, CUSTOM, version);
    started & finished
}

/// A flaw, in short.
fn flaw_in_short(flaw: Flaw) -> Came {
    match flaw {
        Flaw::NoEntry { key } => Came::NoEntry(key.part),
        Flaw::Left { key } => Came::Left(key.part),
        Flaw::Custom { .. } => Came::Custom,
        Flaw::Missing { key } => Came::Missing(key.part),
        Flaw::Wrong { key, at } => Came::Wrong(key.part, at),
    }
}

/// What an audit comes to, in short.
fn audited(alloc: Global, store: &mut MemoryStore, meta: &mut MemoryLog) -> Came {
    match audit(alloc, store, meta) {
        Ok(Verdict::Sound { entries, objects }) => Came::Sound(entries, objects),
        Ok(Verdict::Unsound(flaw)) => flaw_in_short(flaw),
        Err(AuditRefusal::StoreFault) => Came::StoreFault,
        Err(AuditRefusal::MetaFault) => Came::MetaFault,
        Err(AuditRefusal::NoMemory) => Came::Other,
    }
}

/// What the audit of a copy comes to of which one object is so.
fn row_of(alloc: Global, store: &mut MemoryStore, meta: &mut MemoryLog, row: &Row) -> Came {
    let stands = match row.part {
        Part::Pack => told_packed(alloc, meta, 1) && stands(alloc, store, row.part, row.how),
        _ => told(alloc, meta) && holds(alloc, store, row.part, row.how),
    };
    if stands {
        audited(alloc, store, meta)
    } else {
        Came::Other
    }
}

/// What an audit comes to of a packed copy whose custom metadata is no layout.
fn astray(alloc: Global) -> Came {
    match (
        failing_store(alloc, None, false),
        failing_log(alloc, None, false),
    ) {
        (Ok(mut store), Ok(mut meta)) => {
            if told_packed(alloc, &mut meta, 2) {
                audited(alloc, &mut store, &mut meta)
            } else {
                Came::Other
            }
        }
        _ => Came::Other,
    }
}

/// The same over devices of its own.
fn came_of(alloc: Global, row: &Row) -> Came {
    match (
        failing_store(alloc, None, false),
        failing_log(alloc, None, false),
    ) {
        (Ok(mut store), Ok(mut meta)) => row_of(alloc, &mut store, &mut meta, row),
        _ => Came::Other,
    }
}

/// Whether an attempt's part exists.
fn stands_of(alloc: Global, store: &mut MemoryStore, attempt: u64, part: Part) -> bool {
    let key = ObjectKey {
        partition: PartitionId(0),
        id: id(attempt),
        part,
    };
    puts(alloc, store, &key, b"a".as_slice())
}

/// What an audit comes to of a whole copy beside an object of another attempt.
fn beside(alloc: Global, store: &mut MemoryStore, meta: &mut MemoryLog) -> Came {
    let stood = holds(alloc, store, Part::Log, How::Right);
    let stood = stood & stands_of(alloc, store, 9, Part::TimeIndex);
    let stood = stood & stands_of(alloc, store, 9, Part::Index);
    if stood & told(alloc, meta) {
        audited(alloc, store, meta)
    } else {
        Came::Other
    }
}

/// What an audit comes to of a copy whose deletion is finished, and whose objects exist.
fn left(alloc: Global, store: &mut MemoryStore, meta: &mut MemoryLog) -> Came {
    let stood = holds(alloc, store, Part::Log, How::Right) & told(alloc, meta);
    let stood = stood & tells_with(alloc, meta, FINISHED.as_slice(), 0, STATE, 2);
    let stood = stood & tells_with(alloc, meta, FINISHED.as_slice(), 0, STATE, 3);
    if stood {
        audited(alloc, store, meta)
    } else {
        Came::Other
    }
}

/// What an audit comes to of a whole copy whose entry has an epoch that no batch begins.
fn parted(alloc: Global, store: &mut MemoryStore, meta: &mut MemoryLog) -> Came {
    let stood = holds(alloc, store, Part::Log, How::Right);
    let stood = stood & tells(alloc, meta, PARTED.as_slice());
    if stood & tells(alloc, meta, FINISHED.as_slice()) {
        audited(alloc, store, meta)
    } else {
        Came::Other
    }
}

/// What is audited over fresh devices.
#[derive(Clone, Copy)]
enum Tier {
    /// A whole copy beside an object of another attempt.
    Beside,
    /// A copy whose deletion is finished, and whose objects exist.
    Left,
    /// A whole copy whose entry has an epoch that no batch begins.
    Parted,
}

/// What its audit comes to.
fn over(alloc: Global, store: &mut MemoryStore, meta: &mut MemoryLog, tier: Tier) -> Came {
    match tier {
        Tier::Beside => beside(alloc, store, meta),
        Tier::Left => left(alloc, store, meta),
        Tier::Parted => parted(alloc, store, meta),
    }
}

/// The same over fresh devices.
fn over_fresh(alloc: Global, tier: Tier) -> Came {
    match (
        failing_store(alloc, None, false),
        failing_log(alloc, None, false),
    ) {
        (Ok(mut store), Ok(mut meta)) => over(alloc, &mut store, &mut meta, tier),
        _ => Came::Other,
    }
}

/// What an audit of a whole copy comes to, from where planned calls fail.
fn armed(alloc: Global, store: &mut MemoryStore, meta: &mut MemoryLog) -> Came {
    if !(holds(alloc, store, Part::Log, How::Right) & told(alloc, meta)) {
        return Came::Other;
    }
    store.arm();
    meta.arm();
    audited(alloc, store, meta)
}

/// The same where a call of the store or of the metadata log fails.
fn failing(alloc: Global, store: Option<(StoreCall, u32)>, meta: Option<(MetaCall, u32)>) -> Came {
    match (
        failing_store(alloc, store, false),
        failing_log(alloc, meta, false),
    ) {
        (Ok(mut store), Ok(mut meta)) => armed(alloc, &mut store, &mut meta),
        _ => Came::Other,
    }
}

#[test]
fn one_object_at_a_time(rt: HostRuntime) {
    for (i, one) in CASES.iter().enumerate() {
        assert_eq!(rt; came_of(rt.alloc(), one), one.came, "row {i}");
    }
}

#[test]
fn custom_metadata_that_is_no_layout(rt: HostRuntime) {
    assert_eq!(rt; astray(rt.alloc()), Came::Custom);
}

#[test]
fn objects_that_are_to_go(rt: HostRuntime) {
    let alloc = rt.alloc();
    assert_eq!(rt; over_fresh(alloc, Tier::Beside), Came::NoEntry(Part::Index));
    assert_eq!(rt; over_fresh(alloc, Tier::Left), Came::Left(Part::Epochs));
}

#[test]
fn a_batch_without_its_epoch_is_the_place(rt: HostRuntime) {
    let came = over_fresh(rt.alloc(), Tier::Parted);
    assert_eq!(rt; came, Came::Wrong(Part::Log, 69));
}

#[test]
fn faults_are_reported(rt: HostRuntime) {
    let alloc = rt.alloc();
    assert_eq!(rt; failing(alloc, None, None), Came::Sound(1, 4));
    assert_eq!(rt;
        failing(alloc, Some((StoreCall::Keys, 1)), None),
        Came::StoreFault
    );
    assert_eq!(rt;
        failing(alloc, Some((StoreCall::Get, 4)), None),
        Came::StoreFault
    );
    assert_eq!(rt;
        failing(alloc, None, Some((MetaCall::Read, 1))),
        Came::MetaFault
    );
}
