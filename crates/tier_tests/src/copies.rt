//! A copy of two batches of a letter each, turn by turn, over devices in memory. Values worked by hand.

ghost use Rattle.segment_meta.specs.Rules.{IsNote};
ghost use Rattle.meta_log.specs.Content.{AreNotes};

use crate::given::{
    FINISHED, PACKED_FINISHED, PACKED_STARTED, PARTITION, STATE, batches, failing_log,
    failing_store, grows, id, key, tells_with,
};
use bytes::Bytes;
use copy_task::{CopyStep, Copying, candidate, copy_turn};
use epoch_line::Line;
use meta_log::{EventOrigin, MemoryLog, MetaCall, MetaLog};
use object_store::{MemoryStore, ObjectKey, Store, StoreCall, place};
use plain_log::{Answer, Place, Turn};
use remote_view::View;
use segment_bundle::Bundle;
use segment_file::{Closed, Growing};
use segment_meta::{Note, encode};
use std::alloc::{AllocError, Global};
use std::marker::Model;
use tier_base::{BrokerId, Part, State};
use view_refresh::refresh;

/// The copy starts, at 5 milliseconds.
static STARTED: [u8; 75] = [
    0, 0, // version, kind
    0, 0, 0, 0, 0, 0, 0, 1, 0, 0, 0, 0, 0, 0, 0, 0, // id
    0, 0, // partition
    0, 0, 0, 0, 0, 0, 0, 0, // start
    0, 0, 0, 0, 0, 0, 0, 1, // end
    0, 0, 0, 0, 0, 0, 3, 0xe8, // max_ts
    0, 0, // broker
    0, 0, 0, 0, 0, 0, 0, 5, // event_ts
    0, 0, 0, 0x8a, // size
    0, // state
    0, 0, 0, 1, // count
    0, 0, 0, 0, // epoch
    0, 0, 0, 0, 0, 0, 0, 0, // its start
];

/// Broker 1 reports at 6 milliseconds that it deletes the segment.
static DELETED: [u8; 29] = [
    0, 1, // version, kind
    0, 0, 0, 0, 0, 0, 0, 1, 0, 0, 0, 0, 0, 0, 0, 0, // id
    0, 1, // broker
    0, 0, 0, 0, 0, 0, 0, 6, // event_ts
    2, // state
];

/// Broker 0 copies at 5 milliseconds.
const TELLER: EventOrigin = EventOrigin {
    broker: BrokerId(0),
    now: 5,
};

/// The segment of the batches at 0 and 1.
fn segment(alloc: Global) -> Result<Closed, AllocError> {
    let bytes = batches(alloc, 2)?;
    let bytes = Bytes::from_vec(bytes)?;
    match Closed::read(alloc, 0, bytes) {
        Ok(segment) => Ok(segment),
        Err(_) => Err(AllocError),
    }
}

/// The copy of a segment, by its log's line.
fn copying_by(alloc: Global, line: &Line, packed: bool) -> Result<Copying, AllocError> {
    let segment = segment(alloc)?;
    Copying::of(alloc, PARTITION, id(0), segment, line, 4096, packed)
}

/// The copy of the segment.
fn copying(alloc: Global, packed: bool) -> Result<Copying, AllocError> {
    match Line::from_text(alloc, b"0\n2\n0 0\n1 2\n".as_slice()) {
        Ok(line) => copying_by(alloc, &line, packed),
        Err(_) => Err(AllocError),
    }
}

/// A copy under test, with what its turns change. A test knows nothing of it but what it is reported.
#[derive(Drop)]
struct Trial {
    alloc: Global,
    copying: Copying,
    view: View,
    store: MemoryStore,
    meta: MemoryLog,
}

impl Model for Trial {
    ghost use Rattle.std.specs.Prelude.{ℕ};

    ghost Value = { ℕ };

    // Nothing is reported.
    ghost view = { λ t. 0 };
}

/// What a turn of a copy came to, in short.
#[derive(Clone, Copy, PartialEq, Eq)]
enum Came {
    Goes(CopyStep),
    Copied(u64, u64),
    Overtaken(State),
    MetaFault,
    StoreFault,
    Damaged(u64),
    Other,
}

/// What a copy returns, in short.
fn answered(answer: &Answer) -> Came {
    match answer {
        Answer::CopiedSegment(_, base, last) => Came::Copied(*base, *last),
        Answer::Overtaken(state) => Came::Overtaken(*state),
        Answer::MetaFault => Came::MetaFault,
        Answer::StoreFault => Came::StoreFault,
        Answer::Damaged(Place::Meta, notes) => Came::Damaged(*notes),
        _ => Came::Other,
    }
}

/// What a turn of a copy came to, in short.
fn came_to(turn: &Turn<CopyStep>) -> Came {
    match turn {
        Turn::Goes(next) => Came::Goes(*next),
        Turn::Ends(answer) => answered(answer),
    }
}

/// Whether a metadata event is spelt with these bytes.
fn is_spelt(alloc: Global, note: &Note, bytes: &[u8]) -> bool
    requires { IsNote note.now }
{
    match encode(alloc, note) {
        Ok(spelt) => spelt.as_slice() == bytes,
        Err(_) => false,
    }
}

/// Whether the first of these metadata events is spelt with these bytes.
fn begin_so(alloc: Global, notes: &[Note], bytes: &[u8]) -> bool
    requires { AreNotes notes.now }
{
    match notes {
        [note, ..] => is_spelt(alloc, note, bytes),
        [] => false,
    }
}

impl Trial {
    /// A copy over devices, which are armed.
    fn over(alloc: Global, copying: Copying, mut store: MemoryStore, mut meta: MemoryLog) -> Trial {
        store.arm();
        meta.arm();
        Trial {
            alloc,
            copying,
            view: View::new(alloc),
            store,
            meta,
        }
    }

    /// Takes a turn.
    fn turn(&mut self, next: CopyStep) -> Came {
        match copy_turn(
            self.alloc,
            &mut self.copying,
            next,
            TELLER,
            &mut self.view,
            &mut self.store,
            &mut self.meta,
        ) {
            Ok(turn) => came_to(&turn),
            Err(_) => Came::Other,
        }
    }

    /// Takes turns until the copy is answered or one comes to an end, ten at most, and counts them.
    fn run(&mut self, from: CopyStep, end: CopyStep) -> (Came, u32) {
        let mut next = from;
        for turns in 1..11 {
            match self.turn(next) {
                Came::Goes(later) if later != end => next = later,
                came => return (came, turns),
            }
        }
        (Came::Other, 10)
    }

    /// Whether the object of a part that is by itself has these bytes.
    fn holds(&mut self, part: Part, bytes: &[u8]) -> bool {
        match place(PARTITION, id(0), false, None, part) {
            Some(spot) => self.has(&spot.key, bytes),
            None => false,
        }
    }

    /// Whether an object has these bytes.
    fn has(&mut self, key: &ObjectKey, bytes: &[u8]) -> bool {
        match self.store.get(key, 0) {
            Ok(Some(held)) => held.as_slice() == bytes,
            _ => false,
        }
    }

    /// Whether there are so many objects.
    fn counts(&mut self, objects: usize) -> bool {
        match self.store.keys() {
            Ok(keys) => keys.len() == objects,
            Err(_) => false,
        }
    }

    /// Whether the metadata log has the metadata event of these bytes at a place.
    fn recorded(&mut self, at: u64, bytes: &[u8]) -> bool {
        match self.meta.read(at) {
            Ok(notes) => begin_so(self.alloc, notes.as_slice(), bytes),
            Err(_) => false,
        }
    }

    /// Appends the event that another broker deletes the segment, or that its objects are gone.
    fn overtake(&mut self, gone: bool) -> bool {
        let state = if gone { 3 } else { 2 };
        tells_with(self.alloc, &mut self.meta, &DELETED, 0, STATE, state)
    }

    /// Refreshes the view.
    fn look(&mut self) -> bool {
        refresh(&mut self.view, &mut self.meta).is_ok()
    }

    /// The state of the copy's entry in the view.
    fn state(&self) -> Option<State> {
        self.view.state(id(0))
    }

    /// Whether the copy is of these offsets of partition 0.
    fn spans(&self, base: u64, last: u64) -> bool {
        (
            self.copying.id(),
            self.copying.partition(),
            self.copying.base(),
            self.copying.last(),
        ) == (id(0), PARTITION, base, last)
    }
}

/// The segment's time index.
static TIMES: [u8; 12] = [0, 0, 0, 0, 0, 0, 0x03, 0xe8, 0, 0, 0, 0];

/// The line of its leader epochs.
static EPOCHS: &str = "0\n1\n0 0\n";

/// The parts that aren't empty, one after another.
fn pack(alloc: Global) -> Result<Vec<u8>, AllocError> {
    let mut bytes = batches(alloc, 2)?;
    bytes.extend_from_slice(TIMES.as_slice())?;
    bytes.extend_from_slice(EPOCHS.as_bytes())?;
    Ok(bytes)
}

/// What is done to a copy, and what it should come to.
#[derive(Clone, Copy)]
enum Step {
    /// The copy is of these offsets.
    Spans(u64, u64),
    /// A turn.
    Turns(CopyStep, Came),
    /// So many turns, from one on, until the copy is answered or the other one is next.
    Runs(CopyStep, CopyStep, Came, u32),
    /// The copy's entry in the view has a state.
    IsIn(State),
    /// The metadata log has the two metadata events of a whole copy.
    HasNotes,
    /// It has those of a packed one.
    HasPackedNotes,
    /// The store has the segment's bytes as the copy's log.
    HasLog,
    /// It has the copy's indexes, of which the first is empty, and its line.
    HasOthers,
    /// It has all parts as one object, 158 bytes long.
    HasPack,
    /// The store has so many.
    Counts(usize),
    /// Another broker reports that it deletes the segment, or that its objects are gone.
    Overtaken(bool),
    /// The view takes what there is.
    Looks,
}

impl Trial {
    /// Whether the store has the segment's bytes as the copy's log.
    fn has_log(&mut self) -> bool {
        match batches(self.alloc, 2) {
            Ok(bytes) => self.holds(Part::Log, bytes.as_slice()),
            Err(_) => false,
        }
    }

    /// Whether it has the copy's indexes, of which the first is empty, and its line.
    fn has_others(&mut self) -> bool {
        let index = self.holds(Part::Index, &[]);
        let times = self.holds(Part::TimeIndex, TIMES.as_slice());
        let epochs = self.holds(Part::Epochs, EPOCHS.as_bytes());
        index & times & epochs
    }

    /// Whether it has all parts as one object.
    fn has_pack(&mut self) -> bool {
        match pack(self.alloc) {
            Ok(bytes) => bytes.len() == 158 && self.has(&key(Part::Pack), bytes.as_slice()),
            Err(_) => false,
        }
    }

    /// Whether the metadata log has the two metadata events of a whole copy that is packed.
    fn has_packed_notes(&mut self) -> bool {
        let started = self.recorded(0, PACKED_STARTED.as_slice());
        let finished = self.recorded(1, PACKED_FINISHED.as_slice());
        started & finished
    }

    /// Whether the metadata log has the two metadata events of a whole copy.
    fn has_notes(&mut self) -> bool {
        let started = self.recorded(0, STARTED.as_slice());
        let finished = self.recorded(1, FINISHED.as_slice());
        started & finished
    }

    /// Whether a step comes to what it should.
    fn goes(&mut self, step: Step) -> bool {
        match step {
            Step::Spans(base, last) => self.spans(base, last),
            Step::Turns(next, came) => self.turn(next) == came,
            Step::Runs(from, end, came, turns) => self.run(from, end) == (came, turns),
            Step::IsIn(state) => self.state() == Some(state),
            Step::HasNotes => self.has_notes(),
            Step::HasPackedNotes => self.has_packed_notes(),
            Step::HasLog => self.has_log(),
            Step::HasOthers => self.has_others(),
            Step::HasPack => self.has_pack(),
            Step::Counts(objects) => self.counts(objects),
            Step::Overtaken(gone) => self.overtake(gone),
            Step::Looks => self.look(),
        }
    }

    /// How many steps go well at first.
    fn go(&mut self, steps: &[Step]) -> usize {
        for (i, step) in steps.iter().enumerate() {
            if !self.goes(*step) {
                return i;
            }
        }
        steps.len()
    }
}

/// How many steps of a story go well at first, over these devices.
fn go_over(
    alloc: Global,
    copying: Copying,
    store: MemoryStore,
    meta: MemoryLog,
    steps: &[Step],
) -> usize {
    let mut trial = Trial::over(alloc, copying, store, meta);
    trial.go(steps)
}

/// How many steps of a story go well at first, over empty devices, of which these calls fail, done or not.
fn told(
    alloc: Global,
    packed: bool,
    put: Option<(StoreCall, u32)>,
    note: Option<(MetaCall, u32)>,
    after: bool,
    steps: &[Step],
) -> Result<usize, AllocError> {
    let store = failing_store(alloc, put, after)?;
    let meta = failing_log(alloc, note, after)?;
    let copying = copying(alloc, packed)?;
    Ok(go_over(alloc, copying, store, meta, steps))
}

/// What is reported of a copy that is packed or not.
static STORIES: [(&str, bool, &[Step]); 7] = [
    (
        "a copy is answered after its last turn, and stands between two notes",
        false,
        &[
            Step::Spans(0, 1),
            Step::Runs(CopyStep::Start, CopyStep::Start, Came::Copied(0, 1), 7),
            Step::IsIn(State::CopyFinished),
            Step::HasNotes,
            Step::HasLog,
            Step::HasOthers,
            Step::Counts(4),
        ],
    ),
    (
        "a copy that was overtaken takes its objects away",
        false,
        &[
            Step::Runs(
                CopyStep::Start,
                CopyStep::Finish,
                Came::Goes(CopyStep::Finish),
                5,
            ),
            Step::Counts(4),
            Step::Overtaken(false),
            Step::Runs(
                CopyStep::Finish,
                CopyStep::Start,
                Came::Overtaken(State::DeleteStarted),
                6,
            ),
            Step::Counts(0),
        ],
    ),
    (
        "an overtaken copy tells the state of its last turn",
        false,
        &[
            Step::Runs(
                CopyStep::Start,
                CopyStep::Finish,
                Came::Goes(CopyStep::Finish),
                5,
            ),
            Step::Overtaken(false),
            Step::Runs(
                CopyStep::Finish,
                CopyStep::Delete(3),
                Came::Goes(CopyStep::Delete(3)),
                5,
            ),
            Step::Counts(1),
            Step::Overtaken(true),
            Step::Looks,
            Step::Turns(CopyStep::Delete(3), Came::Overtaken(State::DeleteFinished)),
        ],
    ),
    (
        "behind the last key no call is made",
        false,
        &[
            Step::Turns(CopyStep::Put(4), Came::Goes(CopyStep::Finish)),
            Step::Turns(CopyStep::Delete(4), Came::Damaged(0)),
            Step::Counts(0),
        ],
    ),
    (
        "an entry that is missing is damage",
        false,
        &[
            Step::Turns(CopyStep::Check, Came::Damaged(0)),
            Step::Turns(CopyStep::Start, Came::Goes(CopyStep::Put(0))),
            Step::Turns(CopyStep::Check, Came::Damaged(1)),
        ],
    ),
    (
        "a packed copy puts one object",
        true,
        &[
            Step::Runs(CopyStep::Start, CopyStep::Start, Came::Copied(0, 1), 4),
            Step::HasPackedNotes,
            Step::HasPack,
            Step::Counts(1),
        ],
    ),
    (
        "a packed copy that was overtaken takes it away",
        true,
        &[
            Step::Runs(
                CopyStep::Start,
                CopyStep::Finish,
                Came::Goes(CopyStep::Finish),
                2,
            ),
            Step::Counts(1),
            Step::Overtaken(false),
            Step::Runs(
                CopyStep::Finish,
                CopyStep::Start,
                Came::Overtaken(State::DeleteStarted),
                3,
            ),
            Step::Counts(0),
        ],
    ),
];

#[test]
fn copies_run_as_in_the_cases(rt: HostRuntime) {
    for (story, packed, steps) in &STORIES {
        assert_eq!(rt;
            told(rt.alloc(), *packed, None, None, false, steps),
            Ok(steps.len()),
            "{story}"
        );
    }
}

/// The call of the store or of the metadata log that fails, and the turn of it.
static FAILURES: [(Option<(StoreCall, u32)>, Option<(MetaCall, u32)>, Came, u32); 7] = [
    (None, Some((MetaCall::Append, 1)), Came::MetaFault, 1),
    (Some((StoreCall::Put, 1)), None, Came::StoreFault, 2),
    (Some((StoreCall::Put, 2)), None, Came::StoreFault, 3),
    (Some((StoreCall::Put, 3)), None, Came::StoreFault, 4),
    (Some((StoreCall::Put, 4)), None, Came::StoreFault, 5),
    (None, Some((MetaCall::Append, 2)), Came::MetaFault, 6),
    (None, Some((MetaCall::Read, 1)), Came::MetaFault, 7),
];

/// Whether a copy of which a call fails, done or not, ends so after so many turns.
fn failed(
    alloc: Global,
    put: Option<(StoreCall, u32)>,
    note: Option<(MetaCall, u32)>,
    after: bool,
    (came, turns): (Came, u32),
) -> bool {
    let ends = Step::Runs(CopyStep::Start, CopyStep::Start, came, turns);
    told(alloc, false, put, note, after, &[ends]) == Ok(1)
}

#[test]
fn a_call_that_fails_ends_the_copy(rt: HostRuntime) {
    for (put, note, came, turns) in &FAILURES {
        let undone = failed(rt.alloc(), *put, *note, false, (*came, *turns));
        let done = failed(rt.alloc(), *put, *note, true, (*came, *turns));
        assert_eq!(rt; (undone, done), (true, true), "turn {turns}");
    }
}

/// Whether a segment takes the batches of a letter each, from an offset to an end.
fn grows_to(alloc: Global, segment: &mut Growing, from: u64, end: u64) -> bool {
    for offset in from..end {
        if !grows(alloc, segment, offset) {
            return false;
        }
    }
    true
}

/// The base of a segment that is copied.
fn base_of(segment: Option<&Growing>) -> Option<u64> {
    match segment {
        Some(segment) => Some(segment.base()),
        None => None,
    }
}

/// The base of the segment that is copied next, where the first one past the copied mark goes from an offset to an end.
fn chosen_of(alloc: Global, base: u64, end: u64, known: u64) -> Option<u64> {
    if base > 1 << 62 {
        return None;
    }
    let mut segment = Growing::new(alloc, base, 4096);
    if !grows_to(alloc, &mut segment, base, end) {
        return None;
    }
    base_of(candidate(Some(&segment), known))
}

/// The base of the segment that is copied next, where this is the first one past the copied mark, or none is.
fn chosen(alloc: Global, past: Option<(u64, u64)>, known: u64) -> Option<u64> {
    match past {
        Some((base, end)) => chosen_of(alloc, base, end, known),
        None => base_of(candidate(None, known)),
    }
}

/// The first segment past the copied mark, the known high watermark, and the base of the one that is copied.
static CHOSEN: [(Option<(u64, u64)>, u64, Option<u64>); 8] = [
    (Some((0, 2)), 6, Some(0)),
    (Some((0, 2)), 2, Some(0)),
    (Some((0, 2)), 1, None),
    (Some((0, 2)), 9, Some(0)),
    (Some((2, 5)), 5, Some(2)),
    (Some((5, 6)), 5, None),
    (Some((5, 6)), 6, Some(5)),
    (None, 9, None),
];

#[test]
fn the_first_segment_past_the_copied_end_is_copied(rt: HostRuntime) {
    for (i, (past, known, base)) in CHOSEN.iter().enumerate() {
        assert_eq!(rt; chosen(rt.alloc(), *past, *known), *base, "row {i}");
    }
}

/// Whether a copy is without its bundle.
fn lacks(copying: &Copying) -> bool {
    copying.closed().is_some() && copying.line().is_some()
}

/// Whether a copy is without its bundle, and whether it is once it was given that of its segment and line with an
/// interval.
fn lacks_until_given(
    alloc: Global,
    interval: u32,
    packed: bool,
) -> Result<(bool, bool), AllocError> {
    let copying = copying(alloc, packed)?;
    let before = lacks(&copying);
    let Some(line) = copying.line() else {
        return Ok((before, false));
    };
    let bundle = Bundle::of(alloc, &segment(alloc)?, line, interval)?;
    let copying = copying.give(bundle);
    Ok((before, lacks(&copying)))
}

/// Whether a copy is without its bundle before and after it puts its log.
fn lacks_until_put(alloc: Global, packed: bool) -> Result<(bool, bool), AllocError> {
    let store = failing_store(alloc, None, false)?;
    let meta = failing_log(alloc, None, false)?;
    let mut trial = Trial::over(alloc, copying(alloc, packed)?, store, meta);
    let before = lacks(&trial.copying);
    let _came = trial.turn(CopyStep::Put(0));
    Ok((before, lacks(&trial.copying)))
}

#[test]
fn a_copy_keeps_its_bundle(rt: HostRuntime) {
    for packed in [false, true] {
        assert_eq!(rt;
            lacks_until_given(rt.alloc(), 4096, packed),
            Ok((true, false))
        );
        assert_eq!(rt;
            lacks_until_given(rt.alloc(), 4097, packed),
            Ok((true, true))
        );
        assert_eq!(rt; lacks_until_put(rt.alloc(), packed), Ok((true, false)));
    }
}
