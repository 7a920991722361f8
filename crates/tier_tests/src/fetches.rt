//! Fetches below a local start, turn by turn. Values worked by hand.
//!
//! No test holds a fetch: a story is a table of fetches, each with what it comes to.

ghost use Rattle.std.specs.Prelude.{◌<◌, IsTrue};
ghost use Rattle.tier_fetch.specs.Turns.{IsPieceFor};

use crate::given::{
    FINISHED, PARTITION, batches, failing_log, failing_store, id, key, puts, shared, tells,
};
use bytes::Bytes;
use epoch_line::Line;
use index_cache::IndexCache;
use meta_log::{MemoryLog, MetaCall, MetaLog};
use object_store::{DeafStore, MemoryStore, ObjectKey, Store, StoreCall};
use plain_log::{Answer, Place, Tier, Turn};
use remote_view::View;
use sparse_index::OffsetIndex;
use std::alloc::{AllocError, Global};
use std::marker::Model;
use tier_base::{Part, Stop};
use tier_fetch::{FetchRequest, FetchStep, fetch_turn, span_of};

/// A copy of offsets 0 to 3 starts, of epoch 0: 276 bytes.
static STARTED: [u8; 75] = [
    0, 0, // version, kind
    0, 0, 0, 0, 0, 0, 0, 1, 0, 0, 0, 0, 0, 0, 0, 0, // id
    0, 0, // partition
    0, 0, 0, 0, 0, 0, 0, 0, // start
    0, 0, 0, 0, 0, 0, 0, 3, // end
    0, 0, 0, 0, 0, 0, 3, 0xe8, // max_ts
    0, 0, // broker
    0, 0, 0, 0, 0, 0, 0, 5, // event_ts
    0, 0, 1, 0x14, // size
    0, // state
    0, 0, 0, 1, // count
    0, 0, 0, 0, // epoch
    0, 0, 0, 0, 0, 0, 0, 0, // its start
];

/// Its offset index at an interval of 100 bytes: the batch of offset 2 begins at 138.
static INDEX: [u8; 8] = [0, 0, 0, 2, 0, 0, 0, 138];

/// The line of the reading log, which has epoch 1 from offset 3 on.
static LINE: &str = "0\n2\n0 0\n1 3\n";

/// What a fetch came to, in short.
#[derive(Clone, Copy, PartialEq, Eq)]
enum Came {
    Run(u64, Stop),
    MetaFault,
    StoreFault,
    /// The metadata log is damaged after so many metadata events.
    Lost(u64),
    /// A part of the copy is damaged at a place.
    Damaged(Part, u64),
    Other,
}

/// What a turn of a fetch came to, in short.
#[derive(Clone, Copy)]
enum Turned {
    Goes(FetchStep),
    Ends(Came),
}

/// What a run came to, in short: it has the segment's bytes from a place on.
fn ran(tier: Tier, size: u64, stop: Stop, bytes: &[u8], held: &[u8]) -> Came {
    let whole = (tier, size) == (Tier::Remote(id(0)), bytes.len() as u64);
    if whole & held.starts_with(bytes) {
        Came::Run(size, stop)
    } else {
        Came::Other
    }
}

/// What an object comes to that is damaged at a place.
fn damaged(found: &ObjectKey, at: u64) -> Came {
    if *found == key(found.part) {
        Came::Damaged(found.part, at)
    } else {
        Came::Other
    }
}

/// What a fetch returns, in short.
fn answered(answer: &Answer, held: &[u8]) -> Came {
    match answer {
        Answer::Run {
            tier,
            size,
            stop,
            bytes,
        } => ran(*tier, *size, *stop, bytes.as_slice(), held),
        Answer::MetaFault => Came::MetaFault,
        Answer::StoreFault => Came::StoreFault,
        Answer::Damaged(Place::Key(found), at) => damaged(found, *at),
        Answer::Damaged(Place::Meta, at) => Came::Lost(*at),
        _ => Came::Other,
    }
}

/// What a turn of a fetch came to, in short.
fn came_to(turn: &Turn<FetchStep>, held: &[u8]) -> Turned {
    match turn {
        Turn::Goes(next) => Turned::Goes(*next),
        Turn::Ends(answer) => Turned::Ends(answered(answer, held)),
    }
}

/// Whether a turn may be one of a fetch.
fn may_go(wanted: &FetchRequest, next: &FetchStep) -> bool
    ensures below { IsTrue result → wanted.now.offset < wanted.now.mark }
    ensures holds { IsTrue result → IsPieceFor wanted.now.offset next.now }
{
    let holds = match next {
        FetchStep::Refresh => true,
        FetchStep::Index(piece) => wanted.offset < piece.to,
        FetchStep::Log(piece, _) => wanted.offset < piece.to,
    };
    holds && wanted.offset < wanted.mark
}

/// What a fetch asks for.
fn wanted(offset: u64, limit: u32, mark: u64) -> FetchRequest {
    FetchRequest {
        partition: PARTITION,
        offset,
        limit,
        log_end: 5,
        mark,
    }
}

/// What fetches change. A test knows nothing of it but what it is reported.
#[derive(Drop)]
struct Trial<S: Store> {
    alloc: Global,
    view: View,
    cache: IndexCache,
    store: S,
    meta: MemoryLog,
}

impl<S: Store> Model for Trial<S> {
    ghost use Rattle.std.specs.Prelude.{ℕ};

    ghost Value = { ℕ };

    // Nothing is reported.
    ghost view = { λ t. 0 };
}

/// What is done over devices that have a copy, and what it should come to.
#[derive(Clone, Copy)]
enum Step {
    /// The offset, the limit and the mark; what it comes to, and after how many turns.
    Fetches(u64, u32, u64, Came, u32),
    /// The cache has so many indexes.
    Caches(usize),
}

/// The bytes of a segment from the batch of an offset on.
fn behind(segment: &[u8], offset: u64) -> &[u8] {
    let place = (offset.min(3) as usize) * 69;
    let (_, behind) = segment.split_at(place.min(segment.len()));
    behind
}

impl<S: Store> Trial<S> {
    fn over(alloc: Global, cache: IndexCache, store: S, meta: MemoryLog) -> Trial<S> {
        Trial {
            alloc,
            view: View::new(alloc),
            cache,
            store,
            meta,
        }
    }

    /// Whether the metadata log has the event of the copy.
    fn tells(&mut self) -> bool {
        let started = tells(self.alloc, &mut self.meta, &STARTED);
        let finished = tells(self.alloc, &mut self.meta, &FINISHED);
        started & finished
    }

    /// Whether the store is given the copy's log and its index.
    fn puts(&mut self, segment: &[u8]) -> bool {
        let log = puts(self.alloc, &mut self.store, &key(Part::Log), segment);
        let index = puts(self.alloc, &mut self.store, &key(Part::Index), &INDEX);
        log & index
    }

    /// Arms both devices.
    fn arm(&mut self) {
        self.store.arm();
        self.meta.arm();
    }

    /// Takes a turn. The bytes of a run are those that are held.
    fn turn(&mut self, line: &Line, wanted: &FetchRequest, next: FetchStep, held: &[u8]) -> Turned {
        if !may_go(wanted, &next) {
            return Turned::Ends(Came::Other);
        }
        let alloc = self.alloc;
        let answer = fetch_turn(
            alloc,
            wanted,
            next,
            line,
            &mut self.view,
            &mut self.cache,
            &mut self.store,
            &mut self.meta,
        );
        match answer {
            Ok(turn) => came_to(&turn, held),
            Err(_) => Turned::Ends(Came::Other),
        }
    }

    /// Takes turns until the fetch is answered, four at most, and counts them.
    fn run(&mut self, line: &Line, wanted: &FetchRequest, held: &[u8]) -> (Came, u32) {
        let mut next = FetchStep::Refresh;
        for turns in 1..5 {
            match self.turn(line, wanted, next, held) {
                Turned::Goes(later) => next = later,
                Turned::Ends(came) => return (came, turns),
            }
        }
        (Came::Other, 4)
    }

    /// Fetches from an offset on, with a limit and a mark.
    fn fetch(&mut self, offset: u64, limit: u32, mark: u64, held: &[u8]) -> (Came, u32) {
        match Line::from_text(self.alloc, LINE.as_bytes()) {
            Ok(line) => self.run(&line, &wanted(offset, limit, mark), held),
            Err(_) => (Came::Other, 0),
        }
    }

    /// Whether a step comes to what it should.
    fn goes(&mut self, step: Step, segment: &[u8]) -> bool {
        match step {
            Step::Fetches(offset, limit, mark, came, turns) => {
                self.fetch(offset, limit, mark, behind(segment, offset)) == (came, turns)
            }
            Step::Caches(indexes) => self.cache.len() == indexes,
        }
    }

    /// How many steps go well at first.
    fn go(&mut self, steps: &[Step], segment: &[u8]) -> usize {
        for (i, step) in steps.iter().enumerate() {
            if !self.goes(*step, segment) {
                return i;
            }
        }
        steps.len()
    }
}

impl Trial<MemoryStore> {
    /// How many steps go well at first, once the devices have the copy.
    fn goes_on(&mut self, segment: &[u8], steps: &[Step]) -> usize {
        if !self.tells() | !self.puts(segment) {
            return 0;
        }
        self.arm();
        self.go(steps, segment)
    }
}

/// How many steps go well at first, over these devices.
fn go_over(
    alloc: Global,
    cache: IndexCache,
    store: MemoryStore,
    meta: MemoryLog,
    segment: &[u8],
    steps: &[Step],
) -> usize {
    let mut trial = Trial::over(alloc, cache, store, meta);
    trial.goes_on(segment, steps)
}

/// How many steps of a story go well at first, over devices of which a read fails, where one is named.
fn told(
    alloc: Global,
    get: Option<(StoreCall, u32)>,
    read: Option<(MetaCall, u32)>,
    steps: &[Step],
) -> Result<usize, AllocError> {
    let segment = batches(alloc, 4)?;
    let store = failing_store(alloc, get, false)?;
    let meta = failing_log(alloc, read, false)?;
    let cache = IndexCache::new(alloc, 64)?;
    Ok(go_over(alloc, cache, store, meta, segment.as_slice(), steps))
}

/// What is reported of fetches, of which a read of the store or of the metadata log fails.
static STORIES: [(
    &str,
    Option<(StoreCall, u32)>,
    Option<(MetaCall, u32)>,
    &[Step],
); 6] = [
    (
        "a run is cut out of a remote piece, which ends where the log has epoch 1",
        None,
        None,
        &[
            Step::Fetches(0, 1000, 4, Came::Run(207, Stop::Piece), 3),
            Step::Fetches(1, 1000, 4, Came::Run(138, Stop::Piece), 3),
            Step::Fetches(2, 1000, 4, Came::Run(69, Stop::Piece), 3),
            Step::Fetches(0, 1000, 2, Came::Run(138, Stop::Mark), 3),
            Step::Fetches(0, 137, 4, Came::Run(69, Stop::Limit), 3),
            Step::Fetches(0, 138, 4, Came::Run(138, Stop::Limit), 3),
            Step::Fetches(1, 0, 4, Came::Run(69, Stop::Limit), 3),
            Step::Caches(1),
        ],
    ),
    (
        "an index is read once",
        Some((StoreCall::Get, 4)),
        None,
        &[
            Step::Fetches(0, 1000, 4, Came::Run(207, Stop::Piece), 3),
            Step::Fetches(0, 1000, 4, Came::Run(207, Stop::Piece), 3),
            Step::Fetches(0, 1000, 4, Came::StoreFault, 3),
        ],
    ),
    (
        "the metadata log fails",
        None,
        Some((MetaCall::Read, 1)),
        &[Step::Fetches(0, 1000, 4, Came::MetaFault, 1)],
    ),
    (
        "the store fails as the index is read",
        Some((StoreCall::Get, 1)),
        None,
        &[Step::Fetches(0, 1000, 4, Came::StoreFault, 2)],
    ),
    (
        "the store fails as the log is read",
        Some((StoreCall::Get, 2)),
        None,
        &[Step::Fetches(0, 1000, 4, Came::StoreFault, 3)],
    ),
    (
        "what was not copied is damage of the metadata",
        None,
        None,
        &[Step::Fetches(3, 1000, 4, Came::Lost(2), 1)],
    ),
];

#[test]
fn fetches_run_as_in_the_cases(rt: HostRuntime) {
    for (story, get, read, steps) in &STORIES {
        assert_eq!(rt;
            told(rt.alloc(), *get, *read, steps),
            Ok(steps.len()),
            "{story}"
        );
    }
}

/// What replaces a segment's log.
#[derive(Clone, Copy)]
enum Log {
    Whole,
    /// The third batch has a wrong byte.
    Spoilt,
    /// It ends within the third batch.
    Short,
    Gone,
}

/// The bytes in the place of a segment's log.
fn log_of(alloc: Global, log: Log) -> Result<Vec<u8>, AllocError> {
    let mut bytes = batches(alloc, 4)?;
    match log {
        Log::Spoilt => {
            if bytes.len() > 200 {
                bytes[200] = 7;
            }
        }
        Log::Short => bytes.truncate(150),
        Log::Whole | Log::Gone => {}
    }
    Ok(bytes)
}

/// Adds a part to the objects of a store.
fn add(
    alloc: Global,
    objects: &mut Vec<(ObjectKey, Bytes)>,
    part: Part,
    bytes: &[u8],
) -> Result<(), AllocError> {
    let bytes = shared(alloc, bytes)?;
    objects.push((key(part), bytes))?;
    Ok(())
}

/// The objects of a store: each part that is there.
fn objects(
    alloc: Global,
    log: Log,
    index: Option<&[u8]>,
) -> Result<Vec<(ObjectKey, Bytes)>, AllocError> {
    let bytes = log_of(alloc, log)?;
    let mut objects = Vec::new(alloc);
    if !matches!(log, Log::Gone) {
        add(alloc, &mut objects, Part::Log, bytes.as_slice())?;
    }
    if let Some(bytes) = index {
        add(alloc, &mut objects, Part::Index, bytes)?;
    }
    Ok(objects)
}

impl Trial<DeafStore> {
    /// What a fetch at offset 2 comes to, once the metadata log has the event of the copy.
    fn comes(&mut self) -> Came {
        if !self.tells() {
            return Came::Other;
        }
        self.fetch(2, 1000, 4, &[]).0
    }
}

/// What a fetch comes to over a store that isn't observable and has these objects.
fn damage_in(alloc: Global, cache: IndexCache, objects: Vec<(ObjectKey, Bytes)>) -> Came {
    let store = DeafStore::new(alloc, objects);
    let meta = MemoryLog::new(alloc, Vec::new(alloc));
    let mut trial = Trial::over(alloc, cache, store, meta);
    trial.comes()
}

/// What a fetch comes to, by what replaces the log and of the index.
fn damage(alloc: Global, log: Log, index: Option<&[u8]>) -> Result<Came, AllocError> {
    let objects = objects(alloc, log, index)?;
    let cache = IndexCache::new(alloc, 64)?;
    Ok(damage_in(alloc, cache, objects))
}

/// The log and the index that are there, and what is damaged, at which place.
static DAMAGED: [(Log, Option<&[u8]>, Part, u64); 5] = [
    (Log::Gone, Some(&[0, 0, 0, 2, 0, 0, 0, 138]), Part::Log, 0),
    (
        Log::Spoilt,
        Some(&[0, 0, 0, 2, 0, 0, 0, 138]),
        Part::Log,
        138,
    ),
    (
        Log::Short,
        Some(&[0, 0, 0, 2, 0, 0, 0, 138]),
        Part::Log,
        138,
    ),
    (Log::Whole, None, Part::Index, 0),
    (Log::Whole, Some(b"1234567"), Part::Index, 0),
];

#[test]
fn invalid_objects_are_damaged(rt: HostRuntime) {
    for (i, (log, index, part, at)) in DAMAGED.iter().enumerate() {
        let came = damage(rt.alloc(), *log, *index);
        assert!(rt; came == Ok(Came::Damaged(*part, *at)), "row {i}");
    }
}

/// The index of a segment from offset 10 on: batches of 138 bytes from 0, of two offsets each.
static SPARSE: [u8; 24] = [
    0, 0, 0, 2, 0, 0, 0, 138, // 12
    0, 0, 0, 4, 0, 0, 1, 0x14, // 14, at 276
    0, 0, 0, 6, 0, 0, 1, 0x9e, // 16, at 414
];

/// The first byte that is needed, and the one after the last.
fn spanned(alloc: Global, offset: u64, limit: u32, end: u64) -> Option<(u64, u64)> {
    if offset >= end {
        return None;
    }
    match OffsetIndex::from_bytes(alloc, 10, &SPARSE) {
        Ok(index) => {
            let span = span_of(&index, offset, limit, end);
            let from = span.from as u64;
            Some((from, from.saturating_add(span.most)))
        }
        Err(_) => None,
    }
}

/// Offset, limit and the piece's end; the first byte that is needed, and the one after the last, where one is known.
static SPANS: [(u64, u32, u64, u64, u64); 8] = [
    (10, 100, 90, 0, 337),
    (12, 100, 90, 138, 475),
    (12, 200, 90, 138, 537),
    (12, 200, 14, 138, 337),
    (12, 200, 15, 138, 475),
    (14, 100, 90, 276, u64::MAX),
    (17, 100, 90, 414, u64::MAX),
    (5, 100, 90, 0, 337),
];

#[test]
fn what_the_index_shows_is_read_alone(rt: HostRuntime) {
    for (offset, limit, end, from, to) in &SPANS {
        assert_eq!(rt;
            spanned(rt.alloc(), *offset, *limit, *end),
            Some((*from, *to)),
            "offset {offset}, limit {limit}, end {end}"
        );
    }
}
