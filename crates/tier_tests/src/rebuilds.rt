//! The read of a rebuild's line. Values worked by hand.
//!
//! No test holds a view or a line: each row is a call over a store, with what it comes to.

use crate::given::{FINISHED, PARTITION, failing_store, feeds, key, puts, shared};
use bytes::Bytes;
use epoch_line::Line;
use object_store::{DeafStore, ObjectKey, Store, StoreCall};
use plain_log::{Answer, Place, Turn};
use rebuild_task::{RebuildRequest, RebuildStep, rebuild_turn};
use remote_view::View;
use std::alloc::{AllocError, Global};
use tier_base::Part;

/// A copy of offsets 0 to 3 starts, of epoch 0, and of epoch 1 from offset 2 on: 276 bytes.
static STARTED: [u8; 87] = [
    0, 0, // version, kind
    0, 0, 0, 0, 0, 0, 0, 1, 0, 0, 0, 0, 0, 0, 0, 0, // id
    0, 0, // partition
    0, 0, 0, 0, 0, 0, 0, 0, // start
    0, 0, 0, 0, 0, 0, 0, 3, // end
    0, 0, 0, 0, 0, 0, 3, 0xe8, // max_ts
    0, 0, // broker
    0, 0, 0, 0, 0, 0, 0, 5, // event_ts
    0, 0, 1, 0x14, // size
    0, // state
    0, 0, 0, 2, // count
    0, 0, 0, 0, // epoch
    0, 0, 0, 0, 0, 0, 0, 0, // its start
    0, 0, 0, 1, // epoch
    0, 0, 0, 0, 0, 0, 0, 2, // its start
];

/// The leader's line, and the one that is beside the copy.
static LINE: &str = "0\n2\n0 0\n1 2\n";

/// What a rebuild came to, in short.
#[derive(Clone, Copy, Debug, PartialEq, Eq)]
enum Came {
    /// It has read the line of the text that was expected.
    Reads,
    StoreFault,
    /// The epochs are damaged at their beginning.
    DamagedEpochs,
    /// The metadata log is damaged after its second metadata event.
    DamagedNotes,
    Other,
}

/// What a line that was read comes to.
fn read_as(alloc: Global, line: &Line, text: &str) -> Came {
    match line.to_text(alloc) {
        Ok(read) if read.as_slice() == text.as_bytes() => Came::Reads,
        _ => Came::Other,
    }
}

/// What is damaged, in short.
fn damaged(place: Place, at: u64) -> Came {
    match (place, at) {
        (Place::Meta, 2) => Came::DamagedNotes,
        (Place::Key(found), 0) if found == key(Part::Epochs) => Came::DamagedEpochs,
        _ => Came::Other,
    }
}

/// What a rebuild returns, in short.
fn answered(answer: &Answer) -> Came {
    match answer {
        Answer::StoreFault => Came::StoreFault,
        Answer::Damaged(place, at) => damaged(*place, *at),
        _ => Came::Other,
    }
}

/// What a rebuild came to, in short.
fn came_to(alloc: Global, turn: &Turn<RebuildStep>, text: &str) -> Came {
    match turn {
        Turn::Goes(RebuildStep::Restart(line)) => read_as(alloc, line, text),
        Turn::Goes(RebuildStep::Epochs) => Came::Other,
        Turn::Ends(answer) => answered(answer),
    }
}

/// Reads the line up to an offset, by a view and a leader's line.
fn read_by<S: Store>(
    alloc: Global,
    store: &mut S,
    offset: u64,
    line: &Line,
    view: &View,
    text: &str,
) -> Came {
    let wanted = RebuildRequest {
        partition: PARTITION,
        offset,
    };
    match rebuild_turn(alloc, wanted, line, view, store) {
        Ok(turn) => came_to(alloc, &turn, text),
        Err(_) => Came::Other,
    }
}

/// Whether a view is fed the copy.
fn has_copy(alloc: Global, view: &mut View) -> bool {
    let started = feeds(alloc, view, &STARTED);
    let finished = feeds(alloc, view, &FINISHED);
    started & finished
}

/// Reads the line up to an offset out of a store, by a view of the copy and a leader's line.
fn read<S: Store>(alloc: Global, store: &mut S, offset: u64, leaders: &str, text: &str) -> Came {
    let mut view = View::new(alloc);
    if !has_copy(alloc, &mut view) {
        return Came::Other;
    }
    match Line::from_text(alloc, leaders.as_bytes()) {
        Ok(line) => read_by(alloc, store, offset, &line, &view, text),
        Err(_) => Came::Other,
    }
}

/// The objects of a store that holds these epochs, or none.
fn objects(alloc: Global, epochs: Option<&str>) -> Result<Vec<(ObjectKey, Bytes)>, AllocError> {
    let mut objects = Vec::new(alloc);
    if let Some(text) = epochs {
        let bytes = shared(alloc, text.as_bytes())?;
        objects.push((key(Part::Epochs), bytes))?;
    }
    Ok(objects)
}

/// Reads the line up to an offset out of a store that isn't observable and holds these epochs, or none.
fn row(
    alloc: Global,
    offset: u64,
    leaders: &str,
    epochs: Option<&str>,
    text: &str,
) -> Result<Came, AllocError> {
    let objects = objects(alloc, epochs)?;
    let mut store = DeafStore::new(alloc, objects);
    Ok(read(alloc, &mut store, offset, leaders, text))
}

/// The wanted offset, the leader's line, the epochs that are there, and those that are read. Of the offset 4, of none
/// below 0, and of epoch 3 there is no copy.
static CASES: [(u64, &str, Option<&str>, &str, Came); 10] = [
    (
        4,
        "0\n2\n0 0\n1 2\n",
        Some("0\n2\n0 0\n1 2\n"),
        "0\n2\n0 0\n1 2\n",
        Came::Reads,
    ),
    (
        3,
        "0\n2\n0 0\n1 2\n",
        Some("0\n2\n0 0\n1 2\n"),
        "0\n2\n0 0\n1 2\n",
        Came::Reads,
    ),
    (
        2,
        "0\n2\n0 0\n1 2\n",
        Some("0\n2\n0 0\n1 2\n"),
        "0\n1\n0 0\n",
        Came::Reads,
    ),
    (
        1,
        "0\n2\n0 0\n1 2\n",
        Some("0\n2\n0 0\n1 2\n"),
        "0\n1\n0 0\n",
        Came::Reads,
    ),
    (
        3,
        "0\n2\n0 0\n1 2\n",
        Some("0\n3\n0 0\n1 2\n2 3\n"),
        "0\n2\n0 0\n1 2\n",
        Came::Reads,
    ),
    (4, "0\n2\n0 0\n1 2\n", None, "", Came::DamagedEpochs),
    (
        4,
        "0\n2\n0 0\n1 2\n",
        Some("0\n2\n0 0\n"),
        "",
        Came::DamagedEpochs,
    ),
    (
        5,
        "0\n2\n0 0\n1 2\n",
        Some("0\n2\n0 0\n1 2\n"),
        "",
        Came::DamagedNotes,
    ),
    (
        0,
        "0\n2\n0 0\n1 2\n",
        Some("0\n2\n0 0\n1 2\n"),
        "",
        Came::DamagedNotes,
    ),
    (
        4,
        "0\n2\n0 0\n3 2\n",
        Some("0\n2\n0 0\n1 2\n"),
        "",
        Came::DamagedNotes,
    ),
];

#[test]
fn epochs_are_read_up_to_the_offset(rt: HostRuntime) {
    for (offset, leaders, epochs, text, came) in &CASES {
        let told = row(rt.alloc(), *offset, leaders, *epochs, text);
        assert_eq!(rt; told, Ok(*came), "offset {offset}");
    }
}

/// What two reads come to, one after another, of which the store fails the first.
fn reads(alloc: Global) -> Result<(Came, Came), AllocError> {
    let mut store = failing_store(alloc, Some((StoreCall::Get, 1)), false)?;
    if !puts(alloc, &mut store, &key(Part::Epochs), LINE.as_bytes()) {
        return Ok((Came::Other, Came::Other));
    }
    store.arm();
    let first = read(alloc, &mut store, 4, LINE, LINE);
    let second = read(alloc, &mut store, 4, LINE, LINE);
    Ok((first, second))
}

#[test]
fn a_store_that_fails_ends_the_rebuild(rt: HostRuntime) {
    assert_eq!(rt; reads(rt.alloc()), Ok((Came::StoreFault, Came::Reads)));
}
