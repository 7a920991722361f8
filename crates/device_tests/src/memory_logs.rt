//! Metadata logs under test: calls, each with what it is to give. Values worked by hand.
//!
//! A test is a table of calls and never holds a log.

use crate::ends::{End, right, troubled};
use crate::log_calls::{append, arm};
use meta_log::{MemoryLog, MetaCall, MetaLog, Planned};
use segment_meta::{Entry, Note};
use std::alloc::{AllocError, Global};
use tier_base::{Blob, State};

/// The packed copy of offsets 0 to 14 starts, of epoch 0 up to 9 and of epoch 1 from 10 on.
static STARTED: [u8; 89] = [
    1, 0, // version, kind
    0, 0, 0, 0, 0, 0, 0, 1, 0, 0, 0, 0, 0, 0, 0, 6, // id
    0, 0, // partition
    0, 0, 0, 0, 0, 0, 0, 0, // start
    0, 0, 0, 0, 0, 0, 0, 14, // end
    0, 0, 0, 0, 0, 0, 3, 0xe8, // max_ts
    0, 1, // broker
    0, 0, 0, 0, 0, 0, 0, 5, // event_ts
    0, 0, 0, 0x8a, // size
    0, // state
    0, 0, 0, 2, // count
    0, 0, 0, 0, // epoch
    0, 0, 0, 0, 0, 0, 0, 0, // its start
    0, 0, 0, 1, // epoch
    0, 0, 0, 0, 0, 0, 0, 10, // its start
    0, 0, // length of the custom metadata
];

/// It has finished, recorded by broker 2 at 7 milliseconds.
static FINISHED: [u8; 33] = [
    1, 1, // version, kind
    0, 0, 0, 0, 0, 0, 0, 1, 0, 0, 0, 0, 0, 0, 0, 6, // id
    0, 2, // broker
    0, 0, 0, 0, 0, 0, 0, 7, // event_ts
    1, // state
    0, 2, // length of the custom metadata
    8, 9, // custom metadata
];

/// Whether an entry says what the first row spells.
fn is_first(entry: &Entry) -> bool {
    let span = (entry.start, entry.end, entry.max_ts, entry.event_ts) == (0, 14, 1000, 5);
    let rest = (entry.broker.0, entry.size, entry.packed) == (1, 138, true);
    let map = entry.map.entries() == [(0, 0), (1, 10)].as_slice();
    span & rest & map
}

/// Whether a metadata event says what the first row spells.
fn is_started(note: &Note) -> bool {
    match note {
        Note::Add(entry) => is_first(entry),
        Note::Update { .. } => false,
    }
}

/// Whether custom metadata is that of the second row.
fn is_custom(custom: &Option<Blob>) -> bool {
    match custom {
        Some(bytes) => bytes.as_slice() == [8, 9].as_slice(),
        None => false,
    }
}

/// Whether a metadata event says what the second row spells.
fn is_finished(note: &Note) -> bool {
    match note {
        Note::Add(_) => false,
        Note::Update {
            broker,
            event_ts,
            state,
            custom,
            ..
        } => {
            let told = (broker.0, *event_ts, *state) == (2, 7, State::CopyFinished);
            told & is_custom(custom)
        }
    }
}

/// A call of a log, with what it comes to.
#[derive(Clone, Copy)]
enum Turn {
    /// The first or the second metadata event goes to the end, at this place.
    Starts(u64),
    Finishes(u64),
    /// From a place on there are so many metadata events.
    Reads(u64, usize),
    /// The second metadata event's append fails, or a read does.
    FailsToFinish,
    FailsToRead,
    Arms,
    Renews,
    /// How many calls failed and how many are planned, and whether it is armed.
    Tells(u64, usize, bool),
}

/// Whether these are the last of both metadata events, so many.
fn are_last(notes: &[Note], many: usize) -> bool {
    match notes {
        [] => many == 0,
        [last] if is_finished(last) => many == 1,
        [only] => is_started(only) & (many == 1),
        [first, last] => is_started(first) & is_finished(last) & (many == 2),
        _ => false,
    }
}

/// How a read from a place on ends, which is to give the last of both metadata events, so many.
fn read_last<M: MetaLog>(log: &mut M, at: u64, many: usize) -> End {
    match log.read(at) {
        Ok(notes) => right(are_last(notes.as_slice(), many)),
        Err(trouble) => troubled(trouble),
    }
}

fn renew(alloc: Global, log: &mut MemoryLog) -> End {
    log.renew(Vec::new(alloc));
    End::Well
}

/// What a log reports.
fn told(log: &MemoryLog) -> (u64, usize, bool) {
    (log.faults(), log.plan().len(), log.is_armed())
}

/// How a turn ends, and how it should.
fn take(alloc: Global, log: &mut MemoryLog, turn: Turn) -> (End, End) {
    match turn {
        Turn::Starts(place) => (append(alloc, log, &STARTED, place), End::Well),
        Turn::Finishes(place) => (append(alloc, log, &FINISHED, place), End::Well),
        Turn::Reads(at, many) => (read_last(log, at, many), End::Well),
        Turn::FailsToFinish => (append(alloc, log, &FINISHED, 0), End::Fault),
        Turn::FailsToRead => (read_last(log, 0, 0), End::Fault),
        Turn::Arms => (arm(log), End::Well),
        Turn::Renews => (renew(alloc, log), End::Well),
        Turn::Tells(faults, planned, armed) => {
            (right(told(log) == (faults, planned, armed)), End::Well)
        }
    }
}

/// How many turns go as they should at first.
fn live(alloc: Global, log: &mut MemoryLog, turns: &[Turn]) -> usize {
    for (i, turn) in turns.iter().enumerate() {
        let (end, wanted) = take(alloc, log, *turn);
        if end != wanted {
            return i;
        }
    }
    turns.len()
}

/// How many turns of a log with these planned faults go as they should at first.
fn lived(alloc: Global, plan: &[Planned], turns: &[Turn]) -> Result<usize, AllocError> {
    match plan.to_vec(alloc) {
        Ok(plan) => {
            let mut log = MemoryLog::new(alloc, plan);
            Ok(live(alloc, &mut log, turns))
        }
        Err(refusal) => Err(refusal),
    }
}

/// What logs go through, with the call that is planned to fail.
static STORIES: [(&str, &[Planned], &[Turn]); 4] = [
    (
        "a log gives what was appended",
        &[],
        &[
            Turn::Starts(0),
            Turn::Finishes(1),
            Turn::Reads(0, 2),
            Turn::Reads(1, 1),
            Turn::Reads(2, 0),
            Turn::Reads(u64::MAX, 0),
            Turn::Tells(0, 0, false),
        ],
    ),
    (
        "an append fails",
        &[Planned {
            call: MetaCall::Append,
            number: 1,
            after: false,
        }],
        &[
            Turn::Starts(0),
            Turn::Arms,
            Turn::FailsToFinish,
            Turn::Reads(0, 1),
            Turn::Tells(1, 1, true),
            Turn::Renews,
            Turn::Tells(0, 0, false),
            Turn::Finishes(1),
        ],
    ),
    (
        "an append fails, done",
        &[Planned {
            call: MetaCall::Append,
            number: 1,
            after: true,
        }],
        &[
            Turn::Starts(0),
            Turn::Arms,
            Turn::FailsToFinish,
            Turn::Reads(0, 2),
        ],
    ),
    (
        "the second read fails",
        &[Planned {
            call: MetaCall::Read,
            number: 2,
            after: true,
        }],
        &[
            Turn::Starts(0),
            Turn::Arms,
            Turn::Finishes(1),
            Turn::Reads(0, 2),
            Turn::FailsToRead,
            Turn::Reads(0, 2),
        ],
    ),
];

#[test]
fn logs_go_through_their_stories(rt: HostRuntime) {
    for (story, plan, turns) in &STORIES {
        let lived = lived(rt.alloc(), plan, turns);
        assert_eq!(rt; lived, Ok(turns.len()), "{story}");
    }
}
