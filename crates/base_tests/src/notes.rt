//! Worked rows, by hand. Each call is made once with ample memory.

use crate::plain;
use segment_meta::{Entry, Note, NoteRefusal, decode, encode, next_state};
use std::alloc::{AllocError, Global};
use std::test::Fail;
use tier_base::{BrokerId, PartitionId, State, segment_id};

/// The first copy of a leader: two records of epoch 0.
static STARTED: [u8; 75] = [
    0, 0, // version, kind
    0, 0, 0, 0, 0, 0, 0, 1, 0, 0, 0, 0, 0, 0, 0, 0, // id
    0, 0, // partition
    0, 0, 0, 0, 0, 0, 0, 0, // start
    0, 0, 0, 0, 0, 0, 0, 1, // end
    0, 0, 0, 0, 0, 0, 3, 0xe8, // max_ts
    0, 0, // broker
    0, 0, 0, 0, 0, 0, 0, 0, // event_ts
    0, 0, 0, 0x8a, // size
    0, // state
    0, 0, 0, 1, // count
    0, 0, 0, 0, // epoch
    0, 0, 0, 0, 0, 0, 0, 0, // its start
];

/// Its end, recorded by broker 2 a millisecond before the epoch.
static FINISHED: [u8; 29] = [
    0, 1, // version, kind
    0, 0, 0, 0, 0, 0, 0, 1, 0, 0, 0, 0, 0, 0, 0, 0, // id
    0, 2, // broker
    0xff, 0xff, 0xff, 0xff, 0xff, 0xff, 0xff, 0xff, // event_ts
    1, // state
];

/// The first copy again, packed.
static PACKED: [u8; 77] = [
    1, 0, // version, kind
    0, 0, 0, 0, 0, 0, 0, 1, 0, 0, 0, 0, 0, 0, 0, 0, // id
    0, 0, // partition
    0, 0, 0, 0, 0, 0, 0, 0, // start
    0, 0, 0, 0, 0, 0, 0, 1, // end
    0, 0, 0, 0, 0, 0, 3, 0xe8, // max_ts
    0, 0, // broker
    0, 0, 0, 0, 0, 0, 0, 0, // event_ts
    0, 0, 0, 0x8a, // size
    0, // state
    0, 0, 0, 1, // count
    0, 0, 0, 0, // epoch
    0, 0, 0, 0, 0, 0, 0, 0, // its start
    0, 0, // length of the custom metadata
];

/// Its end, with the layout of its object.
static PACKED_FINISHED: [u8; 48] = [
    1, 1, // version, kind
    0, 0, 0, 0, 0, 0, 0, 1, 0, 0, 0, 0, 0, 0, 0, 0, // id
    0, 2, // broker
    0xff, 0xff, 0xff, 0xff, 0xff, 0xff, 0xff, 0xff, // event_ts
    1, // state
    0, 17, // length of the custom metadata
    1, 0, 0, 0, 0x8a, 0, 0, 0, 8, 0, 0, 0, 12, 0, 0, 0, 16, // custom metadata
];

/// The custom metadata that is there.
static LAYOUT: [u8; 17] = [1, 0, 0, 0, 0x8a, 0, 0, 0, 8, 0, 0, 0, 12, 0, 0, 0, 16];

/// Two epochs, from offset 5 to 9: the first starts at 5, the second at 7.
static TWO_EPOCHS: [u8; 87] = [
    0, 0, // version, kind
    0, 3, 0, 2, 0, 0, 0, 5, 0, 0, 0, 0, 0, 0, 1, 2, // id
    0, 3, // partition
    0, 0, 0, 0, 0, 0, 0, 5, // start
    0, 0, 0, 0, 0, 0, 0, 9, // end
    0, 0, 0, 0, 0, 0, 0, 0, // max_ts
    0, 2, // broker
    0, 0, 0, 0, 0, 0, 0, 7, // event_ts
    0, 0, 1, 0, // size
    0, // state
    0, 0, 0, 2, // count
    0, 0, 0, 3, // epoch
    0, 0, 0, 0, 0, 0, 0, 5, // its start
    0, 0, 0, 4, // epoch
    0, 0, 0, 0, 0, 0, 0, 7, // its start
];

/// Whether bytes are read as a metadata event that is written so.
fn is_written_again(alloc: Global, bytes: &[u8]) -> bool {
    match decode(alloc, bytes) {
        Ok(note) => plain::is(encode(alloc, &note), bytes),
        Err(_) => false,
    }
}

/// Whether the end of the copy is written as the second row.
fn writes_finished(alloc: Global) -> bool {
    let finished = Note::Update {
        id: segment_id(PartitionId(0), BrokerId(0), 1, 0),
        broker: BrokerId(2),
        event_ts: -1,
        state: State::CopyFinished,
        custom: None,
    };
    plain::is(encode(alloc, &finished), FINISHED.as_slice())
}

/// Whether an entry says what the first row spells.
fn is_first(entry: &Entry) -> bool {
    let names = (entry.id, entry.partition, entry.broker)
        == (
            segment_id(PartitionId(0), BrokerId(0), 1, 0),
            PartitionId(0),
            BrokerId(0),
        );
    let span = (entry.start, entry.end, entry.max_ts, entry.event_ts) == (0, 1, 1000, 0);
    let rest = (entry.size, entry.state, entry.packed) == (138, State::CopyStarted, false);
    let map = entry.map.entries() == [(0, 0)].as_slice();
    names & span & rest & map & entry.custom.is_none()
}

/// Whether the first row is read field by field.
fn reads_first(alloc: Global) -> bool {
    match decode(alloc, STARTED.as_slice()) {
        Ok(Note::Add(entry)) => is_first(&entry),
        _ => false,
    }
}

/// Whether the custom metadata of the packed copy's end is read as it is there.
fn reads_custom(alloc: Global) -> bool {
    match decode(alloc, PACKED_FINISHED.as_slice()) {
        Ok(
            Note::Update {
                custom: Some(bytes),
                ..
            },
        ) => bytes.as_slice() == LAYOUT.as_slice(),
        _ => false,
    }
}

/// Whether the packed copy is read as one.
fn reads_packed(alloc: Global) -> bool {
    match decode(alloc, PACKED.as_slice()) {
        Ok(Note::Add(entry)) => entry.packed & entry.custom.is_none(),
        _ => false,
    }
}

#[test]
fn notes_are_spelled_field_by_field(rt: HostRuntime) {
    let alloc = rt.alloc();
    assert!(rt; writes_finished(alloc), "it has finished");
    assert!(rt; reads_first(alloc), "each field");
    assert!(rt; is_written_again(alloc, STARTED.as_slice()), "the first");
    assert!(rt; is_written_again(alloc, FINISHED.as_slice()), "the second");
    assert!(rt; is_written_again(alloc, TWO_EPOCHS.as_slice()), "the third");
}

#[test]
fn notes_of_a_packed_copy_are_spelled_field_by_field(rt: HostRuntime) {
    let alloc = rt.alloc();
    assert!(rt; reads_packed(alloc), "it is packed");
    assert!(rt; reads_custom(alloc), "its layout");
    assert!(rt; is_written_again(alloc, PACKED.as_slice()), "the first");
    assert!(rt;
        is_written_again(alloc, PACKED_FINISHED.as_slice()),
        "the second"
    );
}

/// The first number of bytes of a metadata event that aren't short.
fn first_not_short(alloc: Global, note: &[u8]) -> Option<usize> {
    for len in 0..note.len() {
        if decode(alloc, &note[..len]).err() != Some(NoteRefusal::Short) {
            return Some(len);
        }
    }
    None
}

#[test]
fn a_note_cut_anywhere_is_short(rt: HostRuntime) {
    let finished = first_not_short(rt.alloc(), FINISHED.as_slice());
    let added = first_not_short(rt.alloc(), TWO_EPOCHS.as_slice());
    assert!(rt; (finished, added) == (None, None));
    let finished = first_not_short(rt.alloc(), PACKED_FINISHED.as_slice());
    let added = first_not_short(rt.alloc(), PACKED.as_slice());
    assert!(rt; (finished, added) == (None, None), "of a packed copy");
}

/// Reads a metadata event with bytes of its own at a place.
fn with(
    alloc: Global,
    note: &[u8],
    at: usize,
    field: &[u8],
) -> Result<Option<NoteRefusal>, AllocError> {
    let bytes = plain::changed(alloc, note, at, field)?;
    Ok(decode(alloc, bytes.as_slice()).err())
}

/// A row whose bytes are changed.
#[derive(Clone, Copy)]
enum Row {
    Finished,
    TwoEpochs,
    Packed,
    PackedFinished,
}

/// What is reported of a row with bytes of their own at a place.
fn told(
    alloc: Global,
    row: Row,
    at: usize,
    field: &[u8],
) -> Result<Option<NoteRefusal>, AllocError> {
    match row {
        Row::Finished => with(alloc, FINISHED.as_slice(), at, field),
        Row::TwoEpochs => with(alloc, TWO_EPOCHS.as_slice(), at, field),
        Row::Packed => with(alloc, PACKED.as_slice(), at, field),
        Row::PackedFinished => with(alloc, PACKED_FINISHED.as_slice(), at, field),
    }
}

/// A row, bytes of their own at a place of it, and what is reported.
static BAD: [(Row, usize, &[u8], Option<NoteRefusal>); 33] = [
    (Row::TwoEpochs, 0, &[2], Some(NoteRefusal::BadVersion)),
    (Row::TwoEpochs, 1, &[2], Some(NoteRefusal::Bad { at: 1 })),
    (Row::TwoEpochs, 35, &[4], Some(NoteRefusal::Bad { at: 28 })),
    (
        Row::TwoEpochs,
        28,
        &[0x40],
        Some(NoteRefusal::Bad { at: 28 }),
    ),
    (
        Row::TwoEpochs,
        20,
        &[0x40],
        Some(NoteRefusal::Bad { at: 28 }),
    ),
    (Row::TwoEpochs, 58, &[1], Some(NoteRefusal::BadState)),
    (Row::TwoEpochs, 62, &[0], Some(NoteRefusal::Bad { at: 59 })),
    (
        Row::TwoEpochs,
        59,
        &[4, 0, 0, 1],
        Some(NoteRefusal::Bad { at: 59 }),
    ),
    (Row::TwoEpochs, 59, &[4, 0, 0, 0], Some(NoteRefusal::Short)),
    (Row::TwoEpochs, 62, &[1], Some(NoteRefusal::Bad { at: 75 })),
    (
        Row::TwoEpochs,
        63,
        &[0x80],
        Some(NoteRefusal::Bad { at: 63 }),
    ),
    (Row::TwoEpochs, 74, &[6], Some(NoteRefusal::Bad { at: 67 })),
    (Row::TwoEpochs, 78, &[3], Some(NoteRefusal::Bad { at: 75 })),
    (
        Row::TwoEpochs,
        75,
        &[0x80],
        Some(NoteRefusal::Bad { at: 75 }),
    ),
    (Row::TwoEpochs, 86, &[5], Some(NoteRefusal::Bad { at: 79 })),
    (Row::TwoEpochs, 86, &[10], Some(NoteRefusal::Bad { at: 79 })),
    (Row::Finished, 28, &[0], Some(NoteRefusal::BadState)),
    (Row::Finished, 28, &[1], None),
    (Row::Finished, 28, &[2], None),
    (Row::Finished, 28, &[3], None),
    (Row::Finished, 28, &[4], Some(NoteRefusal::BadState)),
    (Row::Finished, 29, &[0], Some(NoteRefusal::Bad { at: 29 })), // a byte more
    (Row::Finished, 0, &[1], Some(NoteRefusal::Short)),
    (Row::TwoEpochs, 0, &[1], Some(NoteRefusal::Short)),
    (Row::Packed, 0, &[0], Some(NoteRefusal::Bad { at: 75 })),
    (Row::Packed, 76, &[1], Some(NoteRefusal::Bad { at: 75 })),
    (Row::Packed, 77, &[0], Some(NoteRefusal::Bad { at: 77 })), // a byte more
    (
        Row::PackedFinished,
        0,
        &[0],
        Some(NoteRefusal::Bad { at: 29 }),
    ),
    (
        Row::PackedFinished,
        28,
        &[2],
        Some(NoteRefusal::Bad { at: 29 }),
    ),
    (
        Row::PackedFinished,
        30,
        &[129],
        Some(NoteRefusal::Bad { at: 29 }),
    ),
    (
        Row::PackedFinished,
        30,
        &[16],
        Some(NoteRefusal::Bad { at: 47 }),
    ),
    (Row::PackedFinished, 30, &[18], Some(NoteRefusal::Short)),
    (
        Row::PackedFinished,
        48,
        &[0],
        Some(NoteRefusal::Bad { at: 48 }),
    ), // a byte more
];

#[test]
fn each_broken_rule_is_reported_at_its_place(rt: HostRuntime) {
    for (row, at, field, refusal) in &BAD {
        let answer = told(rt.alloc(), *row, *at, field);
        assert_eq!(rt; answer, Ok(*refusal), "changed at {at}");
    }
}

/// First bytes, and what is reported.
static FRONTS: [(&[u8], NoteRefusal); 6] = [
    (&[], NoteRefusal::Short),
    (&[2], NoteRefusal::BadVersion),
    (&[0], NoteRefusal::Short),
    (&[1], NoteRefusal::Short),
    (&[0, 2], NoteRefusal::Bad { at: 1 }),
    (&[1, 2], NoteRefusal::Bad { at: 1 }),
];

#[test]
fn a_front_is_known_by_its_bytes(rt: HostRuntime) {
    for (bytes, refusal) in &FRONTS {
        let told = decode(rt.alloc(), bytes).err();
        assert_eq!(rt; told, Some(*refusal), "of {} bytes", bytes.len());
    }
}

#[test]
fn states_go_by_the_steps(rt: HostRuntime) -> Result<(), Fail> {
    let states = [
        State::CopyStarted,
        State::CopyFinished,
        State::DeleteStarted,
        State::DeleteFinished,
    ];
    let mut steps: u8 = 0;
    for new in states {
        if next_state(None, new).is_some() {
            steps = steps.saturating_add(1);
        }
        for old in states {
            if next_state(Some(old), new) == Some(new) {
                steps = steps.saturating_add(1);
            }
        }
    }
    assert_eq!(rt; steps, 5, "no other step");
    let late = next_state(Some(State::DeleteStarted), State::CopyFinished);
    assert_eq!(rt; late, None, "a late end of a copy revives nothing");
    Ok(())
}
