//! Offsets that are looked up in a view of two copies. Worked rows, by hand.
//!
//! No test holds a view: a story is a log's line and a table of what is asked, with the answers.

use crate::given::{END, ONE_EPOCH, STATE, TWO_EPOCHS, UPDATE, id, takes};
use epoch_line::Line;
use remote_find::{Piece, chain, covered_to, find};
use remote_view::View;
use std::alloc::Global;

/// What is asked of a view, each of a log that ends at the first of the offsets.
#[derive(Clone, Copy)]
enum Ask<'a> {
    /// The piece that holds an offset: its attempt, from where and to where.
    Finds(u64, u64, Option<(u64, u64, u64)>),
    /// How far pieces reach from an offset on.
    Covers(u64, u64, u64),
    /// The pieces from an offset on, up to a top.
    Chains(u64, u64, u64, &'a [(u64, u64, u64)]),
}

/// Whether a piece is that of an attempt, from an offset to another one.
fn is(piece: &Piece, (attempt, from, to): (u64, u64, u64)) -> bool {
    (piece.id, piece.from, piece.to) == (id(attempt), from, to)
}

/// Whether pieces are these.
fn are(pieces: &[Piece], wanted: &[(u64, u64, u64)]) -> bool {
    for (piece, wanted) in pieces.iter().zip(wanted) {
        if !is(piece, *wanted) {
            return false;
        }
    }
    pieces.len() == wanted.len()
}

fn finds(view: &View, line: &Line, end: u64, offset: u64, wanted: Option<(u64, u64, u64)>) -> bool {
    match (find(view, line, end, offset), wanted) {
        (Some(piece), Some(wanted)) => is(&piece, wanted),
        (None, None) => true,
        _ => false,
    }
}

fn chains(
    alloc: Global,
    view: &View,
    line: &Line,
    (end, at, top): (u64, u64, u64),
    wanted: &[(u64, u64, u64)],
) -> bool {
    match chain(alloc, view, line, end, at, top) {
        Ok(pieces) => are(pieces.as_slice(), wanted),
        Err(_) => false,
    }
}

/// Whether a view answers so.
fn answers(alloc: Global, view: &View, line: &Line, ask: Ask) -> bool {
    match ask {
        Ask::Finds(end, offset, wanted) => finds(view, line, end, offset, wanted),
        Ask::Covers(end, at, to) => covered_to(view, line, end, at) == to,
        Ask::Chains(end, at, top, wanted) => chains(alloc, view, line, (end, at, top), wanted),
    }
}

/// How many questions a view answers so at first.
fn answered(alloc: Global, view: &View, line: &Line, asks: &[Ask]) -> usize {
    for (i, ask) in asks.iter().enumerate() {
        if !answers(alloc, view, line, *ask) {
            return i;
        }
    }
    asks.len()
}

/// Whether a view is fed two copies that have finished: the first up to 19 with two epochs, the second up to 14.
fn has_two_copies(alloc: Global, view: &mut View) -> bool {
    let first = takes(alloc, view, &TWO_EPOCHS, 0, END, 19);
    let first_ends = takes(alloc, view, &UPDATE, 0, STATE, 1);
    let second = takes(alloc, view, &ONE_EPOCH, 1, END, 14);
    let second_ends = takes(alloc, view, &UPDATE, 1, STATE, 1);
    first & first_ends & second & second_ends
}

/// How many questions get this answer at first, of two copies and of a log's line.
fn told(alloc: Global, line: &str, asks: &[Ask]) -> usize {
    let mut view = View::new(alloc);
    if !has_two_copies(alloc, &mut view) {
        return 0;
    }
    match Line::from_text(alloc, line.as_bytes()) {
        Ok(line) => answered(alloc, &view, &line, asks),
        Err(_) => 0,
    }
}

/// A log's line, and what is asked.
static STORIES: [(&str, &str, &[Ask<'static>]); 4] = [
    (
        "pieces go by both lines",
        "0\n2\n0 0\n1 12\n",
        &[
            // up to where epoch 0 ends in the segment
            Ask::Finds(18, 0, Some((0, 0, 10))),
            Ask::Finds(18, 9, Some((0, 0, 10))),
            // up to where it ends in the line
            Ask::Finds(18, 10, Some((1, 0, 12))),
            // from the line's start of epoch 1 to the log's end
            Ask::Finds(18, 12, Some((0, 12, 18))),
            Ask::Finds(18, 17, Some((0, 12, 18))),
            Ask::Finds(18, 18, None),
            Ask::Covers(18, 0, 18),
            // up to the copies' end, after which nothing is copied
            Ask::Covers(25, 0, 20),
            Ask::Covers(25, 20, 20),
        ],
    ),
    (
        "another epoch is no piece",
        "0\n2\n0 0\n2 3\n",
        &[
            // up to the line's next epoch, of which there is no copy
            Ask::Finds(9, 2, Some((0, 0, 3))),
            Ask::Finds(9, 3, None),
            Ask::Covers(9, 0, 3),
        ],
    ),
    (
        "a log without an epoch has no piece",
        "0\n0\n",
        &[Ask::Finds(9, 2, None)],
    ),
    (
        "a chain ends at its top",
        "0\n2\n0 0\n1 12\n",
        &[
            Ask::Chains(18, 0, 18, &[(0, 0, 10), (1, 0, 12), (0, 12, 18)]),
            // the last one ends past the top
            Ask::Chains(18, 0, 17, &[(0, 0, 10), (1, 0, 12)]),
            Ask::Chains(18, 18, 20, &[]),
        ],
    ),
];

#[test]
fn questions_are_answered_as_the_stories_say(rt: HostRuntime) {
    for (story, line, asks) in &STORIES {
        assert_eq!(rt; told(rt.alloc(), line, asks), asks.len(), "{story}");
    }
}
