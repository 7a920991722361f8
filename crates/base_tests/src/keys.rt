//! Ids and keys of the remote store, by hand.

use crate::plain;
use tier_base::{BrokerId, ObjectKey, Part, PartitionId, SegmentId, segment_id};

/// The fields of ids, and their texts.
static IDS: [(u16, u16, u32, u64, &str); 5] = [
    (0, 0, 1, 0, "00000000-0000-0001-0000-000000000000"),
    (0, 0, 1, 1, "00000000-0000-0001-0000-000000000001"),
    (0, 1, 1, 0, "00000001-0000-0001-0000-000000000000"),
    (3, 2, 5, 258, "00030002-0000-0005-0000-000000000102"),
    (
        65535,
        65535,
        4294967295,
        18446744073709551615,
        "ffffffff-ffff-ffff-ffff-ffffffffffff",
    ),
];

#[test]
fn an_id_has_its_fields_in_order(rt: HostRuntime) {
    for (partition, broker, incarnation, attempt, text) in &IDS {
        let id = segment_id(
            PartitionId(*partition),
            BrokerId(*broker),
            *incarnation,
            *attempt,
        );
        let mut buffer = [0u8; 36];
        assert_eq!(rt; id.write_text(&mut buffer), *text);
        assert_eq!(rt; SegmentId::from_text(text.as_bytes()), Some(id), "{text}");
    }
}

/// Texts of no id.
static NO_ID: [&str; 10] = [
    "",
    "0003000200000005000000000000010A",
    "00030002000000050000000000000102",
    "{00030002-0000-0005-0000-000000000102}",
    "urn:uuid:00030002-0000-0005-0000-000000000102",
    "00030002-0000-0005-0000-00000000010A",
    "00030002-0000-0005-0000-00000000010",
    "00030002-0000-0005-0000-0000000001021",
    "00030002-0000-0005-00000-00000000102",
    "00030002-0000-0005-0000-00000000010g",
];

#[test]
fn an_id_has_one_text(rt: HostRuntime) {
    for text in &NO_ID {
        assert_eq!(rt; SegmentId::from_text(text.as_bytes()), None, "{text}");
    }
}

/// A key of the first segment that broker 0 copies.
fn key(partition: u16, part: Part) -> ObjectKey {
    ObjectKey {
        partition: PartitionId(partition),
        id: segment_id(PartitionId(0), BrokerId(0), 1, 0),
        part,
    }
}

/// The partitions and parts of keys, and their texts.
static KEYS: [(u16, Part, &str); 4] = [
    (0, Part::Log, "0/00000000-0000-0001-0000-000000000000.log"),
    (
        7,
        Part::Index,
        "7/00000000-0000-0001-0000-000000000000.index",
    ),
    (
        63,
        Part::TimeIndex,
        "63/00000000-0000-0001-0000-000000000000.timeindex",
    ),
    (
        65535,
        Part::Epochs,
        "65535/00000000-0000-0001-0000-000000000000.epochs",
    ),
];

#[test]
fn a_key_is_written_and_read(rt: HostRuntime) {
    for (partition, part, text) in &KEYS {
        let written = key(*partition, *part).to_text(rt.alloc());
        assert!(rt; plain::is(written, text.as_bytes()), "{text}");
        assert_eq!(rt;
            ObjectKey::from_text(text.as_bytes()),
            Some(key(*partition, *part)),
            "{text}"
        );
    }
}

/// Texts of no key.
static NO_KEY: [&str; 15] = [
    "",
    "0",
    "0/",
    "/00000000-0000-0001-0000-000000000000.log",
    "00/00000000-0000-0001-0000-000000000000.log",
    "65536/00000000-0000-0001-0000-000000000000.log",
    "-1/00000000-0000-0001-0000-000000000000.log",
    "0/00000000-0000-0001-0000-000000000000",
    "0/00000000-0000-0001-0000-000000000000.",
    "0/00000000-0000-0001-0000-000000000000.logs",
    "0/00000000-0000-0001-0000-000000000000.LOG",
    "0/00000000-0000-0001-0000-00000000000A.log",
    "0/00000000000000010000000000000000.log",
    "0//00000000-0000-0001-0000-000000000000.log",
    "0/00000000-0000-0001-0000-000000000000.log ",
];

#[test]
fn a_key_has_no_other_text(rt: HostRuntime) {
    for text in &NO_KEY {
        assert_eq!(rt; ObjectKey::from_text(text.as_bytes()), None, "{text}");
    }
}
