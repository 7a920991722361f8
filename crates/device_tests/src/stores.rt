//! Stores under test: lists of calls, each with what it is to return; and where a segment's parts are. Values worked by
//! hand.
//!
//! Each kind of call is a function of its own, without a contract, that returns how the call ended. A test is a table
//! of such lists and never holds a store.

use crate::ends::{End, done, ended, gave, right, troubled};
use bytes::Bytes;
use object_store::{
    DeafStore, MemoryStore, ObjectKey, Part, Planned, Spot, Store, StoreCall, keys_of, place,
};
use std::alloc::{AllocError, Global};
use tier_base::{Blob, BrokerId, PartitionId, SegmentId, segment_id};

/// The id of an attempt of broker 0.
fn id(attempt: u64) -> SegmentId {
    segment_id(PartitionId(0), BrokerId(0), 1, attempt)
}

/// A part of an attempt.
type Of = (u64, Part);

/// Its key.
fn key((attempt, part): Of) -> ObjectKey {
    ObjectKey {
        partition: PartitionId(0),
        id: id(attempt),
        part,
    }
}

const LOG: Of = (7, Part::Log);

const EPOCHS: Of = (7, Part::Epochs);

const INDEX: Of = (2, Part::Index);

const GIVEN: Of = (1, Part::TimeIndex);

/// A call of a store.
#[derive(Clone, Copy)]
enum Step {
    Put(Of, &'static [u8]),
    /// From a place on these bytes are given.
    Get(Of, u64, &'static [u8]),
    /// From a place on these are given of so many bytes at most.
    Part(Of, u64, u64, &'static [u8]),
    /// The object isn't there.
    Miss(Of),
    MissPart(Of),
    Delete(Of),
    /// These are the keys.
    Keys(&'static [Of]),
    Arm,
}

fn put<S: Store>(store: &mut S, of: Of, bytes: &'static [u8]) -> End {
    ended(store.put(&key(of), &Bytes::from_static(bytes)))
}

fn get<S: Store>(store: &mut S, of: Of, at: u64, wanted: Option<&[u8]>) -> End {
    gave(store.get(&key(of), at), wanted)
}

fn get_part<S: Store>(store: &mut S, of: Of, at: u64, most: u64, wanted: Option<&[u8]>) -> End {
    gave(store.get_part(&key(of), at, most), wanted)
}

/// Whether these are the keys of those parts.
fn are_keys(keys: &[ObjectKey], parts: &[Of]) -> bool {
    for (found, of) in keys.iter().zip(parts) {
        if *found != key(*of) {
            return false;
        }
    }
    keys.len() == parts.len()
}

fn keys<S: Store>(store: &mut S, parts: &[Of]) -> End {
    match store.keys() {
        Ok(keys) => right(are_keys(keys.as_slice(), parts)),
        Err(trouble) => troubled(trouble),
    }
}

fn arm<S: Store>(store: &mut S) -> End {
    store.arm();
    End::Well
}

/// Makes a call.
fn call<S: Store>(store: &mut S, step: Step) -> End {
    match step {
        Step::Put(of, bytes) => put(store, of, bytes),
        Step::Get(of, at, bytes) => get(store, of, at, Some(bytes)),
        Step::Part(of, at, most, bytes) => get_part(store, of, at, most, Some(bytes)),
        Step::Miss(of) => get(store, of, 0, None),
        Step::MissPart(of) => get_part(store, of, 0, 4, None),
        Step::Delete(of) => done(store.delete(&key(of))),
        Step::Keys(parts) => keys(store, parts),
        Step::Arm => arm(store),
    }
}

/// Makes calls, and returns how many end well at first, and how the next one ends.
fn run<S: Store>(store: &mut S, steps: &[Step]) -> (usize, End) {
    for (i, step) in steps.iter().enumerate() {
        let end = call(store, *step);
        if end != End::Well {
            return (i, end);
        }
    }
    (steps.len(), End::Well)
}

/// The work of a store: each call.
static WORK: [Step; 21] = [
    Step::Put(EPOCHS, b"0\n0\n"),
    Step::Put(LOG, b"old"),
    Step::Put(INDEX, b""),
    Step::Put(LOG, b"abcd"),
    Step::Arm,
    Step::Get(LOG, 0, b"abcd"),
    Step::Get(LOG, 3, b"d"),
    Step::Get(LOG, 9, b""),
    Step::Get(INDEX, 0, b""),
    Step::Part(LOG, 0, 0, b""),
    Step::Part(LOG, 0, 9, b"abcd"),
    Step::Part(LOG, 1, 2, b"bc"),
    Step::Part(LOG, 3, 2, b"d"),
    Step::Part(LOG, 4, 1, b""),
    Step::Part(LOG, 2, u64::MAX, b"cd"),
    Step::Part(LOG, u64::MAX, 1, b""),
    Step::MissPart((5, Part::Log)),
    Step::Delete(LOG),
    Step::Delete(LOG),
    Step::Miss(LOG),
    Step::Get(EPOCHS, 2, b"0\n"),
];

/// A store that isn't observable, with an object that it is given, and how its keys are reported then.
fn work_deaf(alloc: Global) -> Result<((usize, End), End), AllocError> {
    let mut objects = Vec::new(alloc);
    objects.push((key(GIVEN), Bytes::from_static(b"given")))?;
    let mut store = DeafStore::new(alloc, objects);
    let came = run(&mut store, WORK.as_slice());
    Ok((came, keys(&mut store, &[GIVEN, EPOCHS, INDEX])))
}

#[test]
fn a_deaf_store_does_its_work(rt: HostRuntime) {
    let came = work_deaf(rt.alloc());
    assert_eq!(rt; came, Ok(((21, End::Well), End::Well)));
}

/// What a store in memory goes through.
#[derive(Clone, Copy)]
enum Turn {
    /// The work of a store, which ends well.
    Work,
    /// Calls that end well.
    Do(&'static [Step]),
    /// A call that fails.
    Fail(Step),
    Renew(&'static [Planned]),
    /// It reports how many calls failed and how many are planned, and whether it is armed.
    Tell(u64, usize, bool),
}

/// What a store in memory reports.
fn told(store: &MemoryStore) -> (u64, usize, bool) {
    (store.faults(), store.plan().len(), store.is_armed())
}

fn renew(alloc: Global, store: &mut MemoryStore, plan: &[Planned]) -> bool {
    match plan.to_vec(alloc) {
        Ok(plan) => {
            store.renew(plan);
            true
        }
        Err(_) => false,
    }
}

/// Whether a turn goes as it should.
fn goes(alloc: Global, store: &mut MemoryStore, turn: Turn) -> bool {
    match turn {
        Turn::Work => run(store, WORK.as_slice()) == (21, End::Well),
        Turn::Do(steps) => run(store, steps) == (steps.len(), End::Well),
        Turn::Fail(step) => call(store, step) == End::Fault,
        Turn::Renew(plan) => renew(alloc, store, plan),
        Turn::Tell(faults, planned, armed) => told(store) == (faults, planned, armed),
    }
}

/// How many turns go as they should at first.
fn live(alloc: Global, store: &mut MemoryStore, turns: &[Turn]) -> usize {
    for (i, turn) in turns.iter().enumerate() {
        if !goes(alloc, store, *turn) {
            return i;
        }
    }
    turns.len()
}

/// How many turns of a store with these planned faults go as they should at first.
fn lived(alloc: Global, plan: &[Planned], turns: &[Turn]) -> Result<usize, AllocError> {
    match plan.to_vec(alloc) {
        Ok(plan) => {
            let mut store = MemoryStore::new(alloc, plan);
            Ok(live(alloc, &mut store, turns))
        }
        Err(refusal) => Err(refusal),
    }
}

/// What stores in memory go through, with the calls that are planned to fail.
static STORIES: [(&str, &[Planned], &[Turn]); 7] = [
    (
        "work",
        &[],
        &[
            Turn::Work,
            Turn::Do(&[Step::Keys(&[INDEX, EPOCHS])]),
            Turn::Tell(0, 0, true),
        ],
    ),
    (
        "a put fails",
        &[Planned {
            call: StoreCall::Put,
            number: 2,
            after: false,
        }],
        &[
            Turn::Do(&[Step::Put(LOG, b"old"), Step::Arm]),
            Turn::Do(&[Step::Put(LOG, b"a")]),
            Turn::Fail(Step::Put(LOG, b"bc")),
            Turn::Do(&[Step::Get(LOG, 0, b"a")]),
            Turn::Tell(1, 1, true),
            Turn::Renew(&[]),
            Turn::Tell(0, 0, false),
        ],
    ),
    (
        "a put fails, done",
        &[Planned {
            call: StoreCall::Put,
            number: 2,
            after: true,
        }],
        &[
            Turn::Do(&[Step::Put(LOG, b"old"), Step::Arm]),
            Turn::Do(&[Step::Put(LOG, b"a")]),
            Turn::Fail(Step::Put(LOG, b"bc")),
            Turn::Do(&[Step::Get(LOG, 0, b"bc")]),
        ],
    ),
    (
        "a deletion fails",
        &[Planned {
            call: StoreCall::Delete,
            number: 1,
            after: false,
        }],
        &[
            Turn::Do(&[Step::Put(LOG, b"old"), Step::Arm]),
            Turn::Fail(Step::Delete(LOG)),
            Turn::Do(&[Step::Get(LOG, 0, b"old")]),
        ],
    ),
    (
        "a deletion fails, done",
        &[Planned {
            call: StoreCall::Delete,
            number: 1,
            after: true,
        }],
        &[
            Turn::Do(&[Step::Put(LOG, b"old"), Step::Arm]),
            Turn::Fail(Step::Delete(LOG)),
            Turn::Do(&[Step::Miss(LOG)]),
        ],
    ),
    (
        "the keys are not told",
        &[Planned {
            call: StoreCall::Keys,
            number: 1,
            after: false,
        }],
        &[
            Turn::Do(&[Step::Put(LOG, b"old"), Step::Arm]),
            Turn::Fail(Step::Keys(&[LOG])),
            Turn::Do(&[Step::Keys(&[LOG])]),
        ],
    ),
    (
        "parts count among the gets",
        &[Planned {
            call: StoreCall::Get,
            number: 2,
            after: false,
        }],
        &[
            Turn::Do(&[Step::Put(LOG, b"old"), Step::Arm]),
            Turn::Do(&[Step::Part(LOG, 0, 1, b"o")]),
            Turn::Fail(Step::Get(LOG, 0, b"old")),
            Turn::Do(&[Step::Part(LOG, 0, 1, b"o")]),
            Turn::Renew(&[Planned {
                call: StoreCall::Get,
                number: 2,
                after: false,
            }]),
            Turn::Do(&[Step::Arm, Step::Get(LOG, 0, b"old")]),
            Turn::Fail(Step::Part(LOG, 0, 1, b"o")),
            Turn::Tell(1, 1, true),
        ],
    ),
];

#[test]
fn stores_in_memory_go_through_their_stories(rt: HostRuntime) {
    for (story, plan, turns) in &STORIES {
        let lived = lived(rt.alloc(), plan, turns);
        assert_eq!(rt; lived, Ok(turns.len()), "{story}");
    }
}

/// The parts of a segment, and their keys as text.
static PARTS: [(Part, &str); 4] = [
    (Part::Log, "3/00030002-0000-0005-0000-000000000102.log"),
    (Part::Index, "3/00030002-0000-0005-0000-000000000102.index"),
    (
        Part::TimeIndex,
        "3/00030002-0000-0005-0000-000000000102.timeindex",
    ),
    (
        Part::Epochs,
        "3/00030002-0000-0005-0000-000000000102.epochs",
    ),
];

/// The key of that number of the segment, where there is one.
fn key_of(number: u8, packed: bool) -> Option<ObjectKey> {
    let id = segment_id(PartitionId(3), BrokerId(2), 5, 258);
    let keys = keys_of(PartitionId(3), id, packed);
    if number < keys.count() {
        Some(keys.get(number))
    } else {
        None
    }
}

/// Where a part of the segment exists.
fn spot_of(part: Part) -> Option<Spot> {
    let id = segment_id(PartitionId(3), BrokerId(2), 5, 258);
    place(PartitionId(3), id, false, None, part)
}

/// Whether a key is spelt so, and a part is there whole.
fn is_spelt(alloc: Global, key: ObjectKey, part: Part, text: &str) -> Result<bool, AllocError> {
    let spelt = key.to_text(alloc)?;
    let whole = Spot {
        key,
        at: 0,
        len: None,
    };
    let same = spelt.as_slice() == text.as_bytes();
    Ok(same & (spot_of(part) == Some(whole)))
}

/// Whether the key of that number is spelt so, and a part is there whole.
fn stands(alloc: Global, number: u8, part: Part, text: &str) -> bool {
    match key_of(number, false) {
        Some(key) => is_spelt(alloc, key, part, text) == Ok(true),
        None => false,
    }
}

#[test]
fn the_parts_of_a_segment_have_four_keys(rt: HostRuntime) {
    let mut number: u8 = 0;
    for (part, text) in &PARTS {
        assert!(rt; stands(rt.alloc(), number, *part, text), "{text}");
        number = number.saturating_add(1);
    }
    assert!(rt; key_of(number, false).is_none(), "a fifth");
}

/// The key of a packed segment's one object as text.
const PACK: &str = "3/00030002-0000-0005-0000-000000000102.pack";

/// Whether a packed segment has this key alone.
fn has_one_key(alloc: Global, text: &str) -> Result<bool, AllocError> {
    let Some(key) = key_of(0, true) else {
        return Ok(false);
    };
    let spelt = key.to_text(alloc)?;
    Ok(spelt.as_slice() == text.as_bytes() && key_of(1, true).is_none())
}

#[test]
fn a_packed_segment_has_one_key(rt: HostRuntime) {
    assert_eq!(rt; has_one_key(rt.alloc(), PACK), Ok(true));
}

/// A layout's bytes: its parts have 300, 16, 24 and 70000.
const LAYOUT: [u8; 17] = [
    1, // version
    0, 0, 1, 44, // log
    0, 0, 0, 16, // index
    0, 0, 0, 24, // times
    0, 1, 17, 112, // epochs
];

/// What custom metadata says of a part: where it begins, and how long it is.
static PLACES: [(&str, Option<&[u8]>, Part, Option<(u64, u64)>); 9] = [
    ("log", Some(&LAYOUT), Part::Log, Some((0, 300))),
    ("index", Some(&LAYOUT), Part::Index, Some((300, 16))),
    ("times", Some(&LAYOUT), Part::TimeIndex, Some((316, 24))),
    ("epochs", Some(&LAYOUT), Part::Epochs, Some((340, 70000))),
    ("all", Some(&LAYOUT), Part::Pack, Some((0, 70340))),
    ("none told", None, Part::Log, None),
    ("empty", Some(&[]), Part::Log, None),
    (
        "cut",
        Some(&[1, 0, 0, 1, 44, 0, 0, 0, 16, 0, 0, 0, 24, 0, 1, 17]),
        Part::Log,
        None,
    ),
    (
        "another version",
        Some(&[2, 0, 0, 1, 44, 0, 0, 0, 16, 0, 0, 0, 24, 0, 1, 17, 112]),
        Part::Log,
        None,
    ),
];

/// Where a part of a packed segment is in its object, by its custom metadata.
fn packed_spot(
    alloc: Global,
    custom: Option<&[u8]>,
    part: Part,
) -> Result<Option<Spot>, AllocError> {
    let id = segment_id(PartitionId(3), BrokerId(2), 5, 258);
    match custom {
        Some(bytes) => {
            let blob = Blob::from_slice(alloc, bytes)?;
            Ok(place(PartitionId(3), id, true, Some(&blob), part))
        }
        None => Ok(place(PartitionId(3), id, true, None, part)),
    }
}

/// Whether a part of a packed segment is there.
fn is_at(spot: Option<Spot>, place: Option<(u64, u64)>) -> bool {
    match (spot, place) {
        (Some(spot), Some((at, len))) => {
            key_of(0, true) == Some(spot.key) && spot.at == at && spot.len == Some(len)
        }
        (None, None) => true,
        _ => false,
    }
}

#[test]
fn a_layout_has_the_places_of_a_packed_segments_parts(rt: HostRuntime) {
    for (message, custom, part, place) in &PLACES {
        let Ok(spot) = packed_spot(rt.alloc(), *custom, *part) else {
            panic!(rt; "no memory");
        };
        assert!(rt; is_at(spot, *place), "{message}");
    }
}

/// The log of a partition's first segment.
fn log_of(partition: PartitionId) -> ObjectKey {
    keys_of(partition, id(1), false).get(0)
}

fn put_log<S: Store>(store: &mut S, partition: PartitionId) -> End {
    ended(store.put(&log_of(partition), &Bytes::from_static(b"x")))
}

/// Whether this partition's log is the only object.
fn has_log<S: Store>(store: &mut S, partition: PartitionId) -> End {
    match store.keys() {
        Ok(keys) => right(keys.as_slice() == [log_of(partition)].as_slice()),
        Err(trouble) => troubled(trouble),
    }
}

/// How the logs of two partitions are put, one of them is deleted, and the other stays.
fn stays(alloc: Global) -> [End; 4] {
    let mut store = MemoryStore::new(alloc, Vec::new(alloc));
    let ours = put_log(&mut store, PartitionId(0));
    let theirs = put_log(&mut store, PartitionId(1));
    let deleted = done(store.delete(&log_of(PartitionId(0))));
    let left = has_log(&mut store, PartitionId(1));
    [ours, theirs, deleted, left]
}

#[test]
fn objects_of_other_partitions_stay(rt: HostRuntime) {
    assert_eq!(rt; stays(rt.alloc()), [End::Well; 4]);
}
