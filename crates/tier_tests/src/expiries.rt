//! An expiry turn by turn, and how far retention raises the log start offset. Values worked by hand.
//!
//! No test holds devices, a view or pieces: each helper makes them, and returns how the calls ended.

use crate::given::{FINISHED, PARTITION, failing_log, failing_store, feeds, grows, id, puts};
use epoch_line::Line;
use expiry_task::{
    DeletionStep, ExpiredSegment, end_behind, end_from, expiry_turn, find_uncopied, raised_to,
    rest_behind,
};
use meta_log::{EventOrigin, MemoryLog, MetaCall, MetaLog};
use object_store::{MemoryStore, ObjectKey, Store, StoreCall, keys_of};
use plain_log::{Answer, Turn};
use remote_find::{Piece, chain};
use remote_view::View;
use segment_file::Growing;
use segment_meta::Note;
use std::alloc::{AllocError, Global};
use std::marker::Model;
use tier_base::{Blob, BrokerId, Keep, State};

/// A copy of offsets 0 and 1 starts, of epoch 0: 138 bytes, the latest of them at 1000 milliseconds.
static STARTED: [u8; 75] = [
    0, 0, // version, kind
    0, 0, 0, 0, 0, 0, 0, 1, 0, 0, 0, 0, 0, 0, 0, 0, // id
    0, 0, // partition
    0, 0, 0, 0, 0, 0, 0, 0, // start
    0, 0, 0, 0, 0, 0, 0, 1, // end
    0, 0, 0, 0, 0, 0, 3, 0xe8, // max_ts
    0, 0, // broker
    0, 0, 0, 0, 0, 0, 0, 5, // event_ts
    0, 0, 0, 0x8a, // size
    0, // state
    0, 0, 0, 1, // count
    0, 0, 0, 0, // epoch
    0, 0, 0, 0, 0, 0, 0, 0, // its start
];

/// Broker 1 deletes at 9 milliseconds.
const TELLER: EventOrigin = EventOrigin {
    broker: BrokerId(1),
    now: 9,
};

/// The segment that is to go.
fn expired_segment(packed: bool) -> ExpiredSegment {
    ExpiredSegment {
        partition: PARTITION,
        id: id(0),
        packed,
    }
}

/// What a turn of an expiry came to, in short.
#[derive(Clone, Copy, PartialEq, Eq)]
enum Came {
    Goes(DeletionStep),
    Deleted,
    MetaFault,
    StoreFault,
    Other,
}

/// What an expiry returns, in short.
fn answered(answer: &Answer) -> Came {
    match answer {
        Answer::Deleted(_) => Came::Deleted,
        Answer::MetaFault => Came::MetaFault,
        Answer::StoreFault => Came::StoreFault,
        _ => Came::Other,
    }
}

/// What a turn of an expiry came to, in short.
fn came_to(turn: &Turn<DeletionStep>) -> Came {
    match turn {
        Turn::Goes(next) => Came::Goes(*next),
        Turn::Ends(answer) => answered(answer),
    }
}

/// Whether custom metadata is reported as a segment wants it that is packed or not: empty, or none.
fn is_bare(custom: &Option<Blob>, packed: bool) -> bool {
    match custom {
        Some(custom) => packed && custom.is_empty(),
        None => !packed,
    }
}

/// Whether a metadata event reports this state.
fn is_told(note: &Note, wanted: State, packed: bool) -> bool {
    match note {
        Note::Update {
            broker,
            event_ts,
            state,
            custom,
            ..
        } => { (*broker, *event_ts, *state) == (BrokerId(1), 9, wanted) && is_bare(custom, packed) }
        Note::Add(_) => false,
    }
}

/// Whether metadata events report these states, one after another.
fn are_told(notes: &[Note], states: &[State], packed: bool) -> bool {
    for (note, state) in notes.iter().zip(states) {
        if !is_told(note, *state, packed) {
            return false;
        }
    }
    notes.len() == states.len()
}

/// Whether keys are those of an attempt's objects.
fn are_keys(found: &[ObjectKey], attempt: u64, packed: bool) -> bool {
    let keys = keys_of(PARTITION, id(attempt), packed);
    for n in 0..keys.count() {
        match found.get(n as usize) {
            Some(key) if *key == keys.get(n) => {}
            _ => return false,
        }
    }
    let count = if packed { 1 } else { 4 };
    found.len() == count && keys.count() as usize == count
}

/// What an expiry changes. A test knows nothing of it but what it is reported.
#[derive(Drop)]
struct Tiers {
    packed: bool,
    store: MemoryStore,
    meta: MemoryLog,
}

impl Model for Tiers {
    ghost use Rattle.std.specs.Prelude.{ℕ};

    ghost Value = { ℕ };

    // Nothing is reported.
    ghost view = { λ t. 0 };
}

impl Tiers {
    /// Whether the store is given the objects of an attempt.
    fn puts(&mut self, alloc: Global, attempt: u64) -> bool {
        let keys = keys_of(PARTITION, id(attempt), self.packed);
        for n in 0..keys.count() {
            if !puts(alloc, &mut self.store, &keys.get(n), b"bytes") {
                return false;
            }
        }
        true
    }

    fn arm(&mut self) {
        self.store.arm();
        self.meta.arm();
    }

    /// Takes a turn.
    fn turn(&mut self, alloc: Global, next: DeletionStep) -> Came {
        let expired_segment = expired_segment(self.packed);
        match expiry_turn(
            alloc,
            expired_segment,
            next,
            TELLER,
            &mut self.store,
            &mut self.meta,
        ) {
            Ok(turn) => came_to(&turn),
            Err(_) => Came::Other,
        }
    }

    /// Takes turns until the expiry is answered, ten at most, and counts them.
    fn run(&mut self, alloc: Global) -> (Came, u32) {
        let mut next = DeletionStep::Start;
        for turns in 1..11 {
            match self.turn(alloc, next) {
                Came::Goes(later) => next = later,
                came => return (came, turns),
            }
        }
        (Came::Other, 10)
    }

    /// Whether the metadata log reports these states, one after another.
    fn tells(&mut self, states: &[State]) -> bool {
        match self.meta.read(0) {
            Ok(notes) => are_told(notes.as_slice(), states, self.packed),
            Err(_) => false,
        }
    }

    /// Whether the objects of an attempt are left alone.
    fn leaves(&mut self, attempt: u64) -> bool {
        match self.store.keys() {
            Ok(keys) => are_keys(keys.as_slice(), attempt, self.packed),
            Err(_) => false,
        }
    }
}

impl Tiers {
    /// What an expiry comes to, once the objects of two segments exist, and after how many turns; whether the metadata
    /// log reports both states, and the objects of the other segment are left alone.
    fn expire(&mut self, alloc: Global) -> (Came, u32, bool, bool) {
        if !self.puts(alloc, 0) | !self.puts(alloc, 1) {
            return (Came::Other, 0, false, false);
        }
        self.arm();
        let (came, turns) = self.run(alloc);
        let told = self.tells(&[State::DeleteStarted, State::DeleteFinished]);
        let left = self.leaves(1);
        (came, turns, told, left)
    }
}

/// What an expiry comes to over these devices, of a segment that is packed or not.
fn expired_over(
    alloc: Global,
    packed: bool,
    store: MemoryStore,
    meta: MemoryLog,
) -> (Came, u32, bool, bool) {
    let mut tiers = Tiers {
        packed,
        store,
        meta,
    };
    tiers.expire(alloc)
}

/// What an expiry comes to over devices of which a call fails, done or not.
fn expired(
    alloc: Global,
    packed: bool,
    put: Option<(StoreCall, u32)>,
    note: Option<(MetaCall, u32)>,
    after: bool,
) -> Result<(Came, u32, bool, bool), AllocError> {
    let store = failing_store(alloc, put, after)?;
    let meta = failing_log(alloc, note, after)?;
    Ok(expired_over(alloc, packed, store, meta))
}

#[test]
fn an_expiry_deletes_all_objects_between_two_notes(rt: HostRuntime) {
    let four = expired(rt.alloc(), false, None, None, false);
    assert!(rt; four == Ok((Came::Deleted, 6, true, true)));
    let one = expired(rt.alloc(), true, None, None, false);
    assert!(rt; one == Ok((Came::Deleted, 3, true, true)));
}

/// Whether an expiry of which a call fails, done or not, ends so after so many turns.
fn failed(
    alloc: Global,
    put: Option<(StoreCall, u32)>,
    note: Option<(MetaCall, u32)>,
    after: bool,
    end: (Came, u32),
) -> bool {
    match expired(alloc, false, put, note, after) {
        Ok((came, turns, _, _)) => (came, turns) == end,
        Err(_) => false,
    }
}

/// The call of the store or of the metadata log that fails, what the expiry comes to, and after how many turns.
static FAILURES: [(Option<(StoreCall, u32)>, Option<(MetaCall, u32)>, Came, u32); 6] = [
    (None, Some((MetaCall::Append, 1)), Came::MetaFault, 1),
    (Some((StoreCall::Delete, 1)), None, Came::StoreFault, 2),
    (Some((StoreCall::Delete, 2)), None, Came::StoreFault, 3),
    (Some((StoreCall::Delete, 3)), None, Came::StoreFault, 4),
    (Some((StoreCall::Delete, 4)), None, Came::StoreFault, 5),
    (None, Some((MetaCall::Append, 2)), Came::MetaFault, 6),
];

#[test]
fn a_call_that_fails_ends_the_expiry(rt: HostRuntime) {
    for (put, note, came, turns) in &FAILURES {
        let undone = failed(rt.alloc(), *put, *note, false, (*came, *turns));
        let done = failed(rt.alloc(), *put, *note, true, (*came, *turns));
        assert_eq!(rt; (undone, done), (true, true), "turn {turns}");
    }
}

/// Whether a view is fed one whole copy.
fn has_copy(alloc: Global, view: &mut View) -> bool {
    let started = feeds(alloc, view, &STARTED);
    let finished = feeds(alloc, view, &FINISHED);
    started & finished
}

/// The pieces of a log that ends at 3, as far as is known.
fn pieces(alloc: Global, view: &View, known: u64) -> Option<Vec<Piece>> {
    match Line::from_text(alloc, b"0\n1\n0 0\n".as_slice()) {
        Ok(line) => chain(alloc, view, &line, 3, 0, known).ok(),
        Err(_) => None,
    }
}

/// Where the log start offset comes to, after whose pieces are 69 bytes.
fn raised_in(
    alloc: Global,
    view: &View,
    known: u64,
    now: i64,
    keep: Keep,
) -> Result<Option<u64>, AllocError> {
    match pieces(alloc, view, known) {
        Some(pieces) => {
            let rest = rest_behind(end_from(0, pieces.as_slice()), &[], 69, 3);
            raised_to(alloc, view, pieces.as_slice(), &[], rest, now, keep)
        }
        None => Err(AllocError),
    }
}

/// Where the log start offset comes to, of one whole copy.
fn raised(alloc: Global, known: u64, now: i64, keep: Keep) -> Result<Option<u64>, AllocError> {
    let mut view = View::new(alloc);
    if !has_copy(alloc, &mut view) {
        return Err(AllocError);
    }
    raised_in(alloc, &view, known, now, keep)
}

/// The known high watermark, the limits of age and size, and the time; where the log start offset comes to. After the
/// copy are 69 bytes.
static RAISED: [(u64, i64, i64, i64, Option<u64>); 7] = [
    (3, 10, -1, 1010, None),
    (3, 10, -1, 1011, Some(2)),
    (3, -1, 70, 0, None),
    (3, -1, 69, 0, Some(2)),
    (3, -1, -1, 9999, None),
    (2, 10, -1, 1011, Some(2)),
    (1, 10, -1, 1011, None),
];

#[test]
fn a_log_start_rises_by_age_and_by_size(rt: HostRuntime) {
    for (known, ms, bytes, now, start) in &RAISED {
        let keep = Keep {
            ms: *ms,
            bytes: *bytes,
        };
        assert_eq!(rt;
            raised(rt.alloc(), *known, *now, keep),
            Ok(*start),
            "known {known}, {ms} ms, {bytes} bytes, at {now}"
        );
    }
}

/// Where the log start offset comes to by size, where nothing is remote, of a log that ends at 3 with an open segment
/// of 69 bytes.
fn raised_behind(
    alloc: Global,
    closed: &[Growing],
    copying: bool,
    known: u64,
    bytes: i64,
) -> Result<Option<u64>, AllocError> {
    let own = find_uncopied(alloc, copying, 0, 0, known, closed)?;
    let rest = rest_behind(end_behind(0, own.as_slice()), closed, 69, 3);
    let view = View::new(alloc);
    raised_to(
        alloc,
        &view,
        &[],
        own.as_slice(),
        rest,
        0,
        Keep { ms: -1, bytes },
    )
}

/// The same, of two closed segments of 69 bytes, an offset each.
fn raised_by_two(
    alloc: Global,
    copying: bool,
    known: u64,
    bytes: i64,
) -> Result<Option<u64>, AllocError> {
    let mut closed = [Growing::new(alloc, 0, 4096), Growing::new(alloc, 1, 4096)];
    let first = grows(alloc, &mut closed[0], 0);
    let second = grows(alloc, &mut closed[1], 1);
    if first & second {
        raised_behind(alloc, closed.as_slice(), copying, known, bytes)
    } else {
        Err(AllocError)
    }
}

/// Whether segments are copied, the known high watermark and the limit of size; where the log start offset comes to.
static UNCOPIED: [(bool, u64, i64, Option<u64>); 5] = [
    (false, 3, 69, Some(2)),
    (false, 3, 70, Some(1)),
    (false, 3, 139, None),
    (false, 1, 69, Some(1)),
    (true, 3, 69, None),
];

#[test]
fn closed_segments_go_where_none_is_copied(rt: HostRuntime) {
    for (i, (copying, known, bytes, start)) in UNCOPIED.iter().enumerate() {
        let raised = raised_by_two(rt.alloc(), *copying, *known, *bytes);
        assert_eq!(rt; raised, Ok(*start), "row {i}");
    }
}

/// The bytes after the pieces of a log that ends there, of one whole copy, as far as it is known.
fn rest(alloc: Global, known: u64, size: u64, end: u64) -> Option<u64> {
    let mut view = View::new(alloc);
    if !has_copy(alloc, &mut view) {
        return None;
    }
    match pieces(alloc, &view, known) {
        Some(pieces) => Some(rest_behind(end_from(0, pieces.as_slice()), &[], size, end)),
        None => None,
    }
}

/// The known high watermark, the bytes of the open segment, the log's end, and the rest.
static RESTS: [(u64, u64, u64, u64, &str); 3] = [
    (3, 69, 3, 69, "behind the piece"),
    (3, 69, 2, 0, "the log ends with the piece"),
    (0, 207, 3, 207, "nothing is copied"),
];

#[test]
fn what_is_not_copied_counts_after_the_pieces(rt: HostRuntime) {
    for (known, size, end, bytes, why) in &RESTS {
        assert_eq!(rt;
            rest(rt.alloc(), *known, *size, *end),
            Some(*bytes),
            "{why}"
        );
    }
}
