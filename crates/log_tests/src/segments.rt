//! Worked rows, by hand. A batch of one record without key and value has 68 bytes.
//!
//! A segment under test is a type of its own whose methods have no contracts, so a test knows nothing of it but what
//! they return.

use crate::checks::put;
use bytes::Bytes;
use record_batch::{Head, Rec, build};
use segment_file::{BadAt, Closed, ClosedRefusal, Found, Growing, take_run, walk};
use std::alloc::{AllocError, Global};
use tier_base::{Items, Stop};

/// The record of a timestamp, with neither key nor value.
fn rec_of(alloc: Global, ts: i64) -> Rec {
    Rec {
        ts,
        key: None,
        value: None,
        headers: Items::new(alloc),
    }
}

/// The batch of a base offset, an epoch and a timestamp: one record, with neither key nor value.
fn batch(alloc: Global, (base, epoch, ts): (u64, u32, i64)) -> Option<Vec<u8>> {
    build(alloc, base, epoch, [rec_of(alloc, ts)].as_slice()).ok()
}

/// Adds a batch to bytes.
fn grow(alloc: Global, bytes: &mut Vec<u8>, row: (u64, u32, i64)) -> bool {
    match batch(alloc, row) {
        Some(batch) => bytes.extend_from_slice(batch.as_slice()).is_ok(),
        None => false,
    }
}

/// The batches of these base offsets, epochs and timestamps.
fn batches(alloc: Global, rows: &[(u64, u32, i64)]) -> Option<Vec<u8>> {
    let mut bytes = Vec::new(alloc);
    for row in rows {
        if !grow(alloc, &mut bytes, *row) {
            return None;
        }
    }
    Some(bytes)
}

/// The batches at 5, 6, 7 and 8.
static FOUR: [(u64, u32, i64); 4] = [(5, 0, 1000), (6, 0, 1000), (7, 0, 1000), (8, 0, 1000)];

/// The batches at 5, 6, 7 and 8, of which one byte is another, where there is such a place.
fn spoilt(alloc: Global, at: usize, byte: u8) -> Option<Vec<u8>> {
    match batches(alloc, FOUR.as_slice()) {
        Some(mut bytes) => {
            put(&mut bytes, at, byte);
            Some(bytes)
        }
        None => None,
    }
}

/// No place in the bytes.
const NOWHERE: usize = 9999;

/// The head of the batch at a place, where one is there.
fn head_at(bytes: &[u8], at: usize) -> Option<Head> {
    if at > bytes.len() {
        return None;
    }
    match walk(bytes, at) {
        Found::Batch(head) => Some(head),
        _ => None,
    }
}

/// What is at the place 0 of the first bytes, in short.
#[derive(Clone, Copy, PartialEq, Eq)]
enum Stands {
    Batch(i64),
    End,
    Cut(usize),
    Bad(usize),
}

fn first_of(bytes: &[u8], len: usize) -> Stands {
    match walk(&bytes[..len.min(bytes.len())], 0) {
        Found::Batch(head) => Stands::Batch(head.base_offset),
        Found::End => Stands::End,
        Found::Cut { at } => Stands::Cut(at),
        Found::Bad { at } => Stands::Bad(at),
    }
}

/// A place and its byte, how many bytes there are, and what is at their front.
static STANDS: [(usize, u8, usize, Stands); 9] = [
    (NOWHERE, 0, 272, Stands::Batch(5)),
    (NOWHERE, 0, 68, Stands::Batch(5)),
    (NOWHERE, 0, 67, Stands::Cut(0)),
    (NOWHERE, 0, 1, Stands::Cut(0)),
    (NOWHERE, 0, 0, Stands::End),
    (16, 1, 272, Stands::Bad(0)),
    (11, 48, 272, Stands::Bad(0)),
    (67, 1, 272, Stands::Bad(0)),
    (9, 1, 272, Stands::Cut(0)),
];

/// What is at the front of the four batches.
fn first_of_spoilt(alloc: Global, at: usize, byte: u8, len: usize) -> Option<Stands> {
    match spoilt(alloc, at, byte) {
        Some(bytes) => Some(first_of(bytes.as_slice(), len)),
        None => None,
    }
}

/// The number of the first row at whose front something else exists.
fn first_wrong_front(alloc: Global) -> Option<usize> {
    for (i, (at, byte, len, wanted)) in STANDS.iter().enumerate() {
        if first_of_spoilt(alloc, *at, *byte, *len) != Some(*wanted) {
            return Some(i);
        }
    }
    None
}

#[test]
fn a_cut_batch_differs_from_a_bad_one(rt: HostRuntime) {
    assert_eq!(rt; first_wrong_front(rt.alloc()), None);
}

/// A run: where it begins and ends, the next offset, and why it stops; or the bad place.
#[derive(Clone, Copy, PartialEq, Eq)]
enum Run {
    Of(usize, usize, u64, Stop),
    Bad(usize),
    /// The offset isn't below the mark and the piece's end.
    Unasked,
}

fn run_of(bytes: &[u8], (offset, limit, mark, piece_end): (u64, u64, u64, u64)) -> Run {
    if offset >= mark || offset >= piece_end {
        return Run::Unasked;
    }
    match take_run(bytes, offset, limit, mark, piece_end) {
        Ok(run) => Run::Of(run.from, run.to, run.next, run.stop),
        Err(BadAt { at }) => Run::Bad(at),
    }
}

/// A place and its byte; offset, limit, mark and the piece's end; the run.
static RUNS: [(usize, u8, (u64, u64, u64, u64), Run); 15] = [
    (NOWHERE, 0, (5, 1000, 9, 9), Run::Of(0, 272, 9, Stop::Mark)),
    (NOWHERE, 0, (6, 1000, 8, 9), Run::Of(68, 204, 8, Stop::Mark)),
    (
        NOWHERE,
        0,
        (6, 1000, 9, 8),
        Run::Of(68, 204, 8, Stop::Piece),
    ),
    (NOWHERE, 0, (6, 136, 9, 9), Run::Of(68, 204, 8, Stop::Limit)),
    (NOWHERE, 0, (6, 135, 9, 9), Run::Of(68, 136, 7, Stop::Limit)),
    (NOWHERE, 0, (6, 0, 9, 9), Run::Of(68, 136, 7, Stop::Limit)),
    (NOWHERE, 0, (6, 0, 7, 7), Run::Of(68, 136, 7, Stop::Mark)),
    (NOWHERE, 0, (8, 0, 10, 9), Run::Of(204, 272, 9, Stop::Piece)),
    (NOWHERE, 0, (4, 1000, 9, 9), Run::Bad(0)),
    (NOWHERE, 0, (9, 1000, 10, 10), Run::Bad(272)),
    (NOWHERE, 0, (5, 1000, 10, 10), Run::Bad(272)),
    // a wrong checksum, which isn't seen after the run
    (203, 1, (5, 1000, 9, 9), Run::Bad(136)),
    (203, 1, (7, 0, 9, 9), Run::Bad(136)),
    (203, 1, (5, 136, 9, 9), Run::Of(0, 136, 7, Stop::Limit)),
    // a gap between two batches
    (143, 9, (5, 1000, 9, 9), Run::Bad(136)),
];

/// The run of the four batches.
fn run_of_spoilt(alloc: Global, at: usize, byte: u8, asked: (u64, u64, u64, u64)) -> Option<Run> {
    match spoilt(alloc, at, byte) {
        Some(bytes) => Some(run_of(bytes.as_slice(), asked)),
        None => None,
    }
}

/// The number of the first row that has another run.
fn first_wrong_run(alloc: Global) -> Option<usize> {
    for (i, (at, byte, asked, wanted)) in RUNS.iter().enumerate() {
        if run_of_spoilt(alloc, *at, *byte, *asked) != Some(*wanted) {
            return Some(i);
        }
    }
    None
}

#[test]
fn a_run_ends_at_mark_piece_or_limit(rt: HostRuntime) {
    assert_eq!(rt; first_wrong_run(rt.alloc()), None);
}

/// A turn of a segment that grows, with what it comes to.
#[derive(Clone, Copy)]
enum Turn {
    /// So many of 150 batches are taken.
    Takes(u32),
    /// Its size, its end, and where a search for a great offset begins.
    Tells(u64, u64, u32),
    Finds(u64, u32),
    Places(u64, (u64, u32)),
    /// How far a reader of a run needs bytes: from an offset, up to a bound and below a top.
    Reaches(u64, u64, u64, u32),
    Cuts(u64),
}

/// A segment that grows under test.
#[derive(Drop)]
struct Trial {
    segment: Growing,
}

impl Trial {
    fn new(alloc: Global) -> Trial {
        Trial {
            segment: Growing::new(alloc, 0, 4096),
        }
    }

    /// Whether a batch is taken.
    fn takes(&mut self, head: &Head) -> bool {
        self.segment.takes(head) && self.segment.push(head).is_ok()
    }

    /// Whether the batch at a place is taken.
    fn takes_at(&mut self, bytes: &[u8], at: usize) -> bool {
        match head_at(bytes, at) {
            Some(head) => self.takes(&head),
            None => false,
        }
    }

    /// Counts the batches that are taken.
    fn push_all(&mut self, bytes: &[u8]) -> u32 {
        let mut count: u32 = 0;
        for at in (0..bytes.len()).step_by(68) {
            if self.takes_at(bytes, at) {
                count = count.saturating_add(1);
            }
        }
        count
    }

    fn cut_to(&mut self, end: u64) -> bool {
        self.segment.cut_to(end);
        true
    }

    fn told(&self) -> (u64, u64, u32) {
        (
            self.segment.size(),
            self.segment.end(),
            self.segment.find(999),
        )
    }

    fn find(&self, offset: u64) -> u32 {
        self.segment.find(offset)
    }

    fn place_of(&self, offset: u64) -> (u64, u32) {
        self.segment.place_of(offset)
    }

    fn reach(&self, offset: u64, bound: u64, top: u64) -> u32 {
        self.segment.reach(offset, bound, top)
    }

    /// Whether a turn comes to what it should.
    fn goes(&mut self, bytes: &[u8], turn: Turn) -> bool {
        match turn {
            Turn::Takes(taken) => self.push_all(bytes) == taken,
            Turn::Tells(size, end, found) => self.told() == (size, end, found),
            Turn::Finds(offset, position) => self.find(offset) == position,
            Turn::Places(offset, place) => self.place_of(offset) == place,
            Turn::Reaches(offset, bound, top, to) => self.reach(offset, bound, top) == to,
            Turn::Cuts(end) => self.cut_to(end),
        }
    }
}

/// The number of the first turn that doesn't come to what it should, of a segment that is given these batches.
fn first_wrong_in(alloc: Global, bytes: &[u8], turns: &[Turn]) -> Option<usize> {
    let mut trial = Trial::new(alloc);
    for (i, turn) in turns.iter().enumerate() {
        if !trial.goes(bytes, *turn) {
            return Some(i);
        }
    }
    None
}

/// So many batches from offset 0 on.
fn alike(alloc: Global, count: u64) -> Option<Vec<u8>> {
    let mut bytes = Vec::new(alloc);
    for base in 0..count {
        if !grow(alloc, &mut bytes, (base, 0, 1000)) {
            return None;
        }
    }
    Some(bytes)
}

/// The number of the first turn that doesn't come to what it should, of a segment that is given 150 batches.
fn first_wrong(alloc: Global, turns: &[Turn]) -> Option<usize> {
    match alike(alloc, 150) {
        Some(bytes) => first_wrong_in(alloc, bytes.as_slice(), turns),
        None => Some(turns.len()),
    }
}

/// A segment of 150 batches, cut twice.
static GROWING: [Turn; 21] = [
    Turn::Tells(0, 0, 0),
    Turn::Takes(150),
    // none continues
    Turn::Takes(0),
    Turn::Tells(10_200, 150, 8296),
    Turn::Finds(60, 0),
    Turn::Finds(61, 4148),
    Turn::Finds(121, 4148),
    Turn::Finds(122, 8296),
    Turn::Places(75, (75, 5100)),
    Turn::Places(999, (150, 10_200)),
    Turn::Reaches(75, 80, u64::MAX, 5440),
    Turn::Reaches(75, 150, 5100 + 200, 5236 + 61),
    Turn::Reaches(75, 150, 0, 5168 + 61),
    Turn::Reaches(999, 1000, u64::MAX, 10_200),
    // an entry is gone, and then both are
    Turn::Cuts(100),
    Turn::Tells(6800, 100, 4148),
    Turn::Cuts(61),
    Turn::Tells(4148, 61, 0),
    // the others again
    Turn::Takes(89),
    Turn::Tells(10_200, 150, 8296),
    Turn::Finds(61, 4148),
];

#[test]
fn a_growing_segment_finds_and_is_cut(rt: HostRuntime) {
    assert_eq!(rt; first_wrong(rt.alloc(), GROWING.as_slice()), None);
}

/// Reads a closed segment, where its base is no offset past the last.
fn read(alloc: Global, base: u64, bytes: Vec<u8>) -> Result<Closed, ClosedRefusal> {
    if base > 1 << 62 {
        return Err(ClosedRefusal::NoMemory);
    }
    match Bytes::from_vec(bytes) {
        Ok(bytes) => Closed::read(alloc, base, bytes),
        Err(_) => Err(ClosedRefusal::NoMemory),
    }
}

/// The closed segment of these bytes.
fn closed_of(alloc: Global, base: u64, bytes: Option<Vec<u8>>) -> Option<Closed> {
    match bytes {
        Some(bytes) => read(alloc, base, bytes).ok(),
        None => None,
    }
}

/// A closed segment's first offset, its last one, its greatest timestamp and its bytes.
fn told(segment: &Closed) -> (u64, u64, i64, usize) {
    (
        segment.base(),
        segment.last(),
        segment.max_ts(),
        segment.bytes().len(),
    )
}

/// Whether a segment's leader epochs start there.
fn has_epochs(segment: &Closed, entries: &[(u32, u64)]) -> bool {
    segment.epochs().entries() == entries
}

/// Whether a segment's indexes have these bytes.
fn has_indexes(
    alloc: Global,
    segment: &Closed,
    interval: u32,
    offsets: &[u8],
    times: &[u8],
) -> bool {
    match segment.indexes(alloc, interval) {
        Ok((by_offset, by_time)) => {
            let spelt = is_spelt(by_offset.to_bytes(alloc), offsets);
            spelt & is_spelt(by_time.to_bytes(alloc), times)
        }
        Err(_) => false,
    }
}

fn is_spelt(bytes: Result<Vec<u8>, AllocError>, wanted: &[u8]) -> bool {
    match bytes {
        Ok(bytes) => bytes.as_slice() == wanted,
        Err(_) => false,
    }
}

/// The batches of two epochs, from 5 on.
static EPOCHS: [(u64, u32, i64); 4] = [(5, 1, 30), (6, 1, 50), (7, 3, 50), (8, 3, 40)];

/// What the closed segment of two epochs reports, whether its epochs start there, and whether its indexes are right: an
/// entry of the third batch, before which are more than 100 bytes, and the first batch of the greatest timestamp.
fn of_epochs(alloc: Global) -> Option<((u64, u64, i64, usize), bool, bool)> {
    let offsets = b"\x00\x00\x00\x02\x00\x00\x00\x88";
    let times = b"\x00\x00\x00\x00\x00\x00\x00\x32\x00\x00\x00\x01";
    match closed_of(alloc, 5, batches(alloc, EPOCHS.as_slice())) {
        Some(segment) => Some((
            told(&segment),
            has_epochs(&segment, &[(1, 5), (3, 7)]),
            has_indexes(alloc, &segment, 100, offsets, times),
        )),
        None => None,
    }
}

/// Whether the indexes of 150 batches are right.
fn of_alike(alloc: Global) -> bool {
    let offsets = b"\x00\x00\x00\x3d\x00\x00\x10\x34\x00\x00\x00\x7a\x00\x00\x20\x68";
    let times = b"\x00\x00\x00\x00\x00\x00\x03\xe8\x00\x00\x00\x00";
    match closed_of(alloc, 0, alike(alloc, 150)) {
        Some(segment) => has_indexes(alloc, &segment, 4096, offsets, times),
        None => false,
    }
}

#[test]
fn a_closed_segment_finds_its_batches(rt: HostRuntime) {
    let wanted = Some(((5, 8, 50, 272), true, true));
    assert!(rt; of_epochs(rt.alloc()) == wanted);
}

#[test]
fn a_closed_segment_of_150_batches_has_its_indexes(rt: HostRuntime) {
    assert!(rt; of_alike(rt.alloc()));
}

/// Adds a tail to bytes.
fn with_tail(bytes: Option<Vec<u8>>, tail: &[u8]) -> Option<Vec<u8>> {
    match bytes {
        Some(mut bytes) => match bytes.extend_from_slice(tail) {
            Ok(()) => Some(bytes),
            Err(_) => None,
        },
        None => None,
    }
}

/// Where no batch continues the segment of these bytes.
fn bad_in(alloc: Global, base: u64, bytes: Vec<u8>) -> Option<usize> {
    match read(alloc, base, bytes) {
        Err(ClosedRefusal::BadAt { at }) => Some(at),
        _ => None,
    }
}

/// Where no batch continues the segment of these batches and a tail.
fn bad_at(alloc: Global, base: u64, rows: &[(u64, u32, i64)], tail: &[u8]) -> Option<usize> {
    match with_tail(batches(alloc, rows), tail) {
        Some(bytes) => bad_in(alloc, base, bytes),
        None => None,
    }
}

/// Segments that have a bad place: the base offset, the batches, what follows them, and the place.
static BAD: [(u64, &[(u64, u32, i64)], &[u8], usize); 7] = [
    (0, &[], b"", 0),
    (4, &[(5, 0, 1)], b"", 0),
    (5, &[(5, 0, 1), (7, 0, 1)], b"", 68),
    (5, &[(5, 1, 1), (6, 0, 1)], b"", 68),
    (5, &[(5, 0, 1), (6, 0, 1), (6, 0, 1)], b"", 136),
    (
        (1 << 62) - 1,
        &[((1 << 62) - 1, 0, 1), (1 << 62, 0, 1)],
        b"",
        68,
    ),
    (0, &[(0, 0, 1), (1, 0, 1)], b"\0", 136),
];

/// The number of the first segment whose bad place isn't reported.
fn first_untold(alloc: Global) -> Option<usize> {
    for (i, (base, rows, tail, at)) in BAD.iter().enumerate() {
        if bad_at(alloc, *base, rows, tail) != Some(*at) {
            return Some(i);
        }
    }
    None
}

#[test]
fn the_first_invalid_place_is_reported(rt: HostRuntime) {
    assert_eq!(rt; first_untold(rt.alloc()), None);
}
