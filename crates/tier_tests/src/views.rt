//! Views under test: metadata events that are fed, and what is found then. Worked rows, by hand.
//!
//! Each kind of call is a method without a contract that returns whether it answered as it should, and the plain lookup
//! with it; a test is a table of calls and never holds a view.

use crate::given::{END, ONE_EPOCH, STATE, TWO_EPOCHS, UPDATE, id, takes};
use remote_view::View;
use segment_meta::Entry;
use std::alloc::Global;
use tier_base::{BrokerId, State};

/// A call of a view. Copies are distinguished by their attempt.
#[derive(Clone, Copy)]
enum Call<'a> {
    /// A copy starts, of two epochs or of one, up to an end.
    Starts(u8, bool, u8),
    /// It comes to a state.
    Comes(u8, u8),
    /// The copy that is found in an epoch at an offset.
    Finds(u32, u64, Option<u64>),
    /// The copy that is due below a log start.
    IsDue(u64, Option<u64>),
    HasState(u64, Option<State>),
    /// The treads of an epoch: from, to and whose.
    HasStair(u32, &'a [(u64, u64, u64)]),
    /// How many metadata events were fed, and of which copies are the entries.
    Tells(u64, &'a [u64]),
}

/// A view under test.
#[derive(Drop)]
struct Trial {
    alloc: Global,
    view: View,
}

/// Whether an entry is that of this attempt, or neither is there.
fn is_of(entry: Option<&Entry>, attempt: Option<u64>) -> bool {
    match (entry, attempt) {
        (Some(entry), Some(attempt)) => entry.id == id(attempt),
        (None, None) => true,
        _ => false,
    }
}

impl Trial {
    /// Whether a metadata event is fed, of an attempt, with a byte of its own at a place.
    fn takes(&mut self, note: &[u8], attempt: u8, at: usize, own: u8) -> bool {
        takes(self.alloc, &mut self.view, note, attempt, at, own)
    }

    fn finds(&self, epoch: u32, offset: u64, attempt: Option<u64>) -> bool {
        is_of(self.view.finished(epoch, offset), attempt)
    }

    fn is_due(&self, start: u64, attempt: Option<u64>) -> bool {
        is_of(self.view.due(start), attempt)
    }

    fn has_state(&self, attempt: u64, state: Option<State>) -> bool {
        self.view.state(id(attempt)) == state
    }

    fn has_stair(&self, epoch: u32, treads: &[(u64, u64, u64)]) -> bool {
        let stair = self.view.stair(epoch);
        for (tread, (from, to, attempt)) in stair.iter().zip(treads) {
            if (tread.from, tread.to, tread.id) != (*from, *to, id(*attempt)) {
                return false;
            }
        }
        stair.len() == treads.len()
    }

    fn tells(&self, seen: u64, attempts: &[u64]) -> bool {
        let entries = self.view.entries();
        for (entry, attempt) in entries.iter().zip(attempts) {
            if (entry.id, entry.broker, entry.event_ts) != (id(*attempt), BrokerId(2), 7) {
                return false;
            }
        }
        self.view.seen() == seen && entries.len() == attempts.len()
    }

    fn goes(&mut self, call: Call) -> bool {
        match call {
            Call::Starts(attempt, true, end) => self.takes(&TWO_EPOCHS, attempt, END, end),
            Call::Starts(attempt, false, end) => self.takes(&ONE_EPOCH, attempt, END, end),
            Call::Comes(attempt, state) => self.takes(&UPDATE, attempt, STATE, state),
            Call::Finds(epoch, offset, attempt) => self.finds(epoch, offset, attempt),
            Call::IsDue(start, attempt) => self.is_due(start, attempt),
            Call::HasState(attempt, state) => self.has_state(attempt, state),
            Call::HasStair(epoch, treads) => self.has_stair(epoch, treads),
            Call::Tells(seen, attempts) => self.tells(seen, attempts),
        }
    }
}

/// The number of the first call of a view that doesn't answer as it should, after the metadata events of two copies
/// that have finished: the first up to 19 with two epochs, the second up to 14.
fn first_wrong(alloc: Global, calls: &[Call]) -> Option<usize> {
    let view = View::new(alloc);
    let mut trial = Trial { alloc, view };
    for call in &TWO_COPIES {
        if !trial.goes(*call) {
            return Some(9999);
        }
    }
    for (i, call) in calls.iter().enumerate() {
        if !trial.goes(*call) {
            return Some(i);
        }
    }
    None
}

static TWO_COPIES: [Call<'static>; 4] = [
    Call::Starts(0, true, 19),
    Call::Comes(0, 1),
    Call::Starts(1, false, 14),
    Call::Comes(1, 1),
];

/// What views of two copies go through.
static STORIES: [(&str, &[Call<'static>]); 4] = [
    (
        "the copy that ends last is found",
        &[
            Call::Finds(0, 9, Some(0)),
            Call::Finds(0, 10, Some(1)),
            Call::Finds(1, 19, Some(0)),
            Call::Finds(1, 20, None),
            Call::Finds(2, 5, None),
            // a copy that hasn't finished, and then has
            Call::Starts(2, false, 19),
            Call::Finds(0, 10, Some(1)),
            Call::Comes(2, 1),
            Call::Finds(0, 10, Some(2)),
            // of two ends the lesser id, until its deletion has begun
            Call::Finds(0, 9, Some(0)),
            Call::Comes(0, 2),
            Call::Finds(0, 9, Some(2)),
        ],
    ),
    (
        "only steps change a state",
        &[
            Call::Tells(4, &[0, 1]),
            Call::Comes(0, 2),
            // it isn't revived, nor added again
            Call::Comes(0, 1),
            Call::HasState(0, Some(State::DeleteStarted)),
            Call::Starts(0, true, 19),
            Call::HasState(0, Some(State::DeleteStarted)),
            // no update adds a copy
            Call::Comes(3, 1),
            Call::HasState(3, None),
            Call::Tells(8, &[0, 1]),
        ],
    ),
    (
        "a segment is due below the start",
        &[
            Call::IsDue(14, None),
            Call::IsDue(15, Some(1)),
            Call::IsDue(20, Some(0)),
            // until its deletion is whole
            Call::Comes(0, 2),
            Call::IsDue(20, Some(0)),
            Call::Comes(0, 3),
            Call::IsDue(20, Some(1)),
        ],
    ),
    (
        "a copy shows behind another one",
        &[
            Call::HasStair(0, &[(0, 10, 0), (10, 15, 1)]),
            Call::HasStair(1, &[(10, 20, 0)]),
            Call::HasStair(2, &[]),
            // the first is gone, and nothing lay under it in epoch 1
            Call::Comes(0, 2),
            Call::HasStair(0, &[(0, 15, 1)]),
            Call::HasStair(1, &[]),
        ],
    ),
];

#[test]
fn views_go_through_their_stories(rt: HostRuntime) {
    for (story, calls) in &STORIES {
        assert_eq!(rt; first_wrong(rt.alloc(), calls), None, "{story}");
    }
}
