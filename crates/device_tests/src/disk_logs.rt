//! Metadata logs under test: calls over a disk in memory, each with what it is to give, what the files then have, and
//! what a crash leaves of them. Values worked by hand.
//!
//! A test is a table of calls and never holds a log.

use crate::ends::{End, right, troubled};
use crate::log_calls::{append, arm};
use bytes::Bytes;
use disk_model::{DeafDisk, Disk, DiskCall, FileName, MemoryDisk, Planned};
use meta_log::MetaLog;
use meta_log_file::{DiskLog, NotesRefusal, files_open_once};
use segment_meta::{Entry, Note};
use std::alloc::{AllocError, Global};

/// The copy of offsets 0 and 1 starts, of epoch 0: 75 bytes.
pub(crate) static STARTED: [u8; 75] = [
    0, 0, // version, kind
    0, 0, 0, 0, 0, 0, 0, 1, 0, 0, 0, 0, 0, 0, 0, 0, // id
    0, 0, // partition
    0, 0, 0, 0, 0, 0, 0, 0, // start
    0, 0, 0, 0, 0, 0, 0, 1, // end
    0, 0, 0, 0, 0, 0, 3, 0xe8, // max_ts
    0, 0, // broker
    0, 0, 0, 0, 0, 0, 0, 0, // event_ts
    0, 0, 0, 0x8a, // size
    0, // state
    0, 0, 0, 1, // count
    0, 0, 0, 0, // epoch
    0, 0, 0, 0, 0, 0, 0, 0, // its start
];

/// It has finished, recorded by broker 2 at 7 milliseconds: 29 bytes.
static FINISHED: [u8; 29] = [
    0, 1, // version, kind
    0, 0, 0, 0, 0, 0, 0, 1, 0, 0, 0, 0, 0, 0, 0, 0, // id
    0, 2, // broker
    0, 0, 0, 0, 0, 0, 0, 7, // event_ts
    1, // state
];

/// A call of a log, with what it comes to.
#[derive(Clone, Copy)]
enum Turn {
    /// The first or the second metadata event goes to the end, at this place.
    Starts(u64),
    Finishes(u64),
    /// The first metadata event's append fails.
    FailsToStart,
    /// From a place on there are so many metadata events.
    Reads(u64, usize),
    Arms,
    /// How many calls failed, and whether it is armed.
    Tells(u64, bool),
}

/// Whether an entry says what the first row spells.
fn is_first(entry: &Entry) -> bool {
    let span = (entry.start, entry.end, entry.max_ts, entry.size) == (0, 1, 1000, 138);
    span & (entry.map.entries() == [(0, 0)].as_slice())
}

/// Whether the first of these metadata events says what its row spells where it adds an entry, and there are so many.
fn are_notes(notes: &[Note], many: usize) -> bool {
    match notes.first() {
        None | Some(Note::Update { .. }) => notes.len() == many,
        Some(Note::Add(entry)) => is_first(entry) & (notes.len() == many),
    }
}

/// How a read from a place on ends, which is to give so many metadata events.
fn read_notes<M: MetaLog>(log: &mut M, at: u64, many: usize) -> End {
    match log.read(at) {
        Ok(notes) => right(are_notes(notes.as_slice(), many)),
        Err(trouble) => troubled(trouble),
    }
}

/// What a log reports.
fn told(log: &DiskLog<MemoryDisk>) -> (u64, bool) {
    (log.faults(), log.is_armed())
}

/// How a turn ends, and how it should.
fn take(alloc: Global, log: &mut DiskLog<MemoryDisk>, turn: Turn) -> (End, End) {
    match turn {
        Turn::Starts(place) => (append(alloc, log, &STARTED, place), End::Well),
        Turn::Finishes(place) => (append(alloc, log, &FINISHED, place), End::Well),
        Turn::FailsToStart => (append(alloc, log, &STARTED, 0), End::Fault),
        Turn::Reads(at, many) => (read_notes(log, at, many), End::Well),
        Turn::Arms => (arm(log), End::Well),
        Turn::Tells(faults, armed) => (right(told(log) == (faults, armed)), End::Well),
    }
}

/// How many turns go as they should at first.
fn live(alloc: Global, log: &mut DiskLog<MemoryDisk>, turns: &[Turn]) -> usize {
    for (i, turn) in turns.iter().enumerate() {
        let (end, wanted) = take(alloc, log, *turn);
        if end != wanted {
            return i;
        }
    }
    turns.len()
}

/// What a log goes through: the call of its disk that is to fail, the calls, the bytes of `notes` then, its gate, and
/// how many metadata events a crash leaves.
#[derive(Clone, Copy)]
struct Story {
    name: &'static str,
    plan: &'static [Planned],
    turns: &'static [Turn],
    size: usize,
    gate: [u8; 8],
    left: usize,
}

/// Whether a file has these bytes.
fn has(disk: &mut MemoryDisk, name: FileName, wanted: &[u8]) -> bool {
    match disk.read(name, 0) {
        Ok(Some(bytes)) => bytes.as_slice() == wanted,
        _ => false,
    }
}

/// How many bytes a file has.
fn size_of(disk: &mut MemoryDisk, name: FileName) -> Option<usize> {
    match disk.read(name, 0) {
        Ok(Some(bytes)) => Some(bytes.len()),
        _ => None,
    }
}

/// How many metadata events a log over a disk has.
fn count_notes(alloc: Global, disk: MemoryDisk) -> Option<usize> {
    match DiskLog::open(alloc, disk) {
        Ok(mut log) => count_read(&mut log),
        Err(_) => None,
    }
}

/// How many metadata events a log gives.
fn count_read<M: MetaLog>(log: &mut M) -> Option<usize> {
    match log.read(0) {
        Ok(notes) => Some(notes.len()),
        Err(_) => None,
    }
}

/// How many bytes the metadata events have, whether this is their gate, and how many metadata events a crash leaves.
fn left_of(alloc: Global, disk: MemoryDisk, gate: &[u8]) -> (Option<usize>, bool, Option<usize>) {
    let mut disk = disk;
    let size = size_of(&mut disk, FileName::Notes);
    let same = has(&mut disk, FileName::Gate, gate);
    disk.crash();
    (size, same, count_notes(alloc, disk))
}

/// What a log comes to: how many turns go as they should at first, and what is left then.
type Came = (usize, (Option<usize>, bool, Option<usize>));

/// What a log comes to.
fn came_of(alloc: Global, log: DiskLog<MemoryDisk>, story: &Story) -> Came {
    let mut log = log;
    let lived = live(alloc, &mut log, story.turns);
    (lived, left_of(alloc, log.close(), &story.gate))
}

/// What a log over a disk with the story's fault comes to.
fn came(alloc: Global, story: &Story) -> Option<Came> {
    let Ok(plan) = story.plan.to_vec(alloc) else {
        return None;
    };
    match DiskLog::open(alloc, MemoryDisk::new(alloc, plan)) {
        Ok(log) => Some(came_of(alloc, log, story)),
        Err(_) => None,
    }
}

static STORIES: [Story; 5] = [
    Story {
        name: "a note stands behind its length, and the gate behind it",
        plan: &[],
        turns: &[Turn::Reads(0, 0), Turn::Starts(0), Turn::Tells(0, false)],
        size: 79,
        gate: [0, 0, 0, 0, 0, 0, 0, 0x4f],
        left: 1,
    },
    Story {
        name: "notes are read from a number on",
        plan: &[],
        turns: &[
            Turn::Starts(0),
            Turn::Finishes(1),
            Turn::Reads(0, 2),
            Turn::Reads(1, 1),
            Turn::Reads(2, 0),
            Turn::Reads(u64::MAX, 0),
        ],
        size: 112,
        gate: [0, 0, 0, 0, 0, 0, 0, 0x70],
        left: 2,
    },
    Story {
        name: "the gate doesn't move",
        plan: &[Planned {
            call: DiskCall::Replace,
            number: 2,
            after: false,
        }],
        turns: &[
            Turn::Arms,
            Turn::Starts(0),
            Turn::FailsToStart,
            Turn::Tells(1, true),
            Turn::Reads(0, 1),
            Turn::Starts(1),
        ],
        size: 158,
        gate: [0, 0, 0, 0, 0, 0, 0, 0x9e],
        left: 2,
    },
    Story {
        name: "the gate moves, and the call fails",
        plan: &[Planned {
            call: DiskCall::Replace,
            number: 2,
            after: true,
        }],
        turns: &[
            Turn::Arms,
            Turn::Starts(0),
            Turn::FailsToStart,
            Turn::Reads(0, 2),
            Turn::Finishes(2),
        ],
        size: 191,
        gate: [0, 0, 0, 0, 0, 0, 0, 0xbf],
        left: 3,
    },
    Story {
        name: "a note isn't synced",
        plan: &[Planned {
            call: DiskCall::Sync,
            number: 2,
            after: false,
        }],
        turns: &[
            Turn::Arms,
            Turn::Starts(0),
            Turn::FailsToStart,
            Turn::Reads(0, 1),
            Turn::Finishes(1),
        ],
        size: 112,
        gate: [0, 0, 0, 0, 0, 0, 0, 0x70],
        left: 2,
    },
];

#[test]
fn logs_go_through_their_stories(rt: HostRuntime) {
    for story in &STORIES {
        let left = (Some(story.size), true, Some(story.left));
        let wanted = (story.turns.len(), left);
        assert_eq!(rt; came(rt.alloc(), story), Some(wanted), "{}", story.name);
    }
}

/// A disk that isn't observable, with these two files.
pub(crate) fn disk_of(alloc: Global, notes: &[u8], gate: &[u8]) -> Result<DeafDisk, AllocError> {
    let mut files = Vec::new(alloc);
    files.push((FileName::Notes, Bytes::copy_from_slice(alloc, notes)?))?;
    files.push((FileName::Gate, Bytes::copy_from_slice(alloc, gate)?))?;
    Ok(DeafDisk::new(alloc, files))
}

/// Where a log over these files is damaged, if it is.
fn damage(alloc: Global, notes: &[u8], gate: &[u8]) -> Option<u64> {
    let Ok(disk) = disk_of(alloc, notes, gate) else {
        return None;
    };
    match DiskLog::open(alloc, disk) {
        Err((_, NotesRefusal::Damaged { at })) => Some(at),
        _ => None,
    }
}

/// The end of a copy after its length.
pub(crate) static UPDATE: [u8; 33] = [
    0, 0, 0, 29, // length
    0, 1, // version, kind
    0, 0, 0, 0, 0, 0, 0, 1, 0, 0, 0, 0, 0, 0, 0, 0, // id
    0, 2, // broker
    0, 0, 0, 0, 0, 0, 0, 7, // event_ts
    1, // state
];

/// How many bytes of it there are, the gate, and where the log is damaged.
static GATES: [(&str, usize, &[u8], Option<u64>); 6] = [
    (
        "a gate of seven bytes",
        33,
        &[0, 0, 0, 0, 0, 0, 33],
        Some(0),
    ),
    ("one note", 33, &[0, 0, 0, 0, 0, 0, 0, 33], None),
    ("none counts", 33, &[0, 0, 0, 0, 0, 0, 0, 0], None),
    (
        "a gate inside a note",
        33,
        &[0, 0, 0, 0, 0, 0, 0, 32],
        Some(0),
    ),
    (
        "a gate past the file",
        33,
        &[0, 0, 0, 0, 0, 0, 0, 34],
        Some(33),
    ),
    ("a cut note", 30, &[0, 0, 0, 0, 0, 0, 0, 33], Some(0)),
];

/// Where a log of so many bytes of a metadata event is damaged.
fn damage_of(alloc: Global, bytes: usize, gate: &[u8]) -> Option<u64> {
    match UPDATE.get(..bytes) {
        Some(notes) => damage(alloc, notes, gate),
        None => None,
    }
}

#[test]
fn damage_is_found_at_its_place(rt: HostRuntime) {
    for (name, bytes, gate, at) in &GATES {
        assert_eq!(rt; damage_of(rt.alloc(), *bytes, gate), *at, "{name}");
    }
}

#[test]
fn each_file_is_opened_once(_rt: HostRuntime) {
    files_open_once();
}
