//! What a timestamp lookup passes over, and where it then continues.

ghost use Rattle.std.specs.Prelude.{◌≡◌, ◌<◌};
ghost use Rattle.plain_log.specs.declared.answer.Answer.TheVariants.{Damaged};
ghost use Rattle.plain_log.specs.declared.answer.Place.TheVariants.{Meta};
ghost use Rattle.remote_view.specs.Fold.{entry_of};
ghost use Rattle.time_find.specs.Passing.{is_passed, is_early, passed_over, Seeks};
ghost use Rattle.time_find.specs.Turns.{SearchContinues};

use crate::turn::{Asked, SearchStep};
use epoch_line::Line;
use plain_log::{Answer, Place, Turn};
use remote_find::{Piece, find};
use remote_view::View;
use segment_file::Growing;

/// Whether a closed segment holds an offset, and its timestamps are all below one.
fn is_passed(segment: &Growing, at: u64, ts: i64) -> bool
    ensures { result ≡ is_passed ts at segment.now }
{
    segment.base() <= at && at < segment.end() && segment.max_ts() < ts
}

/// Passes over the closed segments, from a cursor on, whose timestamps are all below one.
pub(crate) fn passed_over(closed: &[Growing], cursor: u64, ts: i64) -> u64
    ensures { result ≡ passed_over ts cursor closed.now }
{
    let mut at = cursor;
    for segment in closed {
        if is_passed(segment, at, ts) {
            at = segment.end();
        }
    }
    at
}

/// Whether all timestamps of a piece's segment are below one, as its entry gives.
fn is_early(view: &View, piece: &Piece, ts: i64) -> bool
    ensures { result ≡ is_early ts (entry_of piece.now.id view.now.entries) }
{
    match view.entry(piece.id) {
        Some(entry) => entry.max_ts < ts,
        None => false,
    }
}

/// Passes over the pieces of remote segments, from a cursor on, up to the first that may have the timestamp, or up to
/// the local log or the known high watermark.
pub(crate) fn seek(asked: &Asked, line: &Line, view: &View, cursor: u64) -> Turn<(u64, SearchStep)>
    requires local { cursor < asked.now.local }
    requires mark { cursor < asked.now.mark }
    ensures row { Seeks asked.now line.now view.now cursor result }
    ensures goes { SearchContinues cursor result }
{
    // Reading both shows that each piece ends past its offset.
    let _entries = view.entries();
    let _line = line.entries();
    let top = asked.local.min(asked.mark);
    let mut at = cursor;
    while at < top {
        let Some(piece) = find(view, line, asked.log_end, at) else {
            return Turn::Ends(Answer::Damaged(Place::Meta, view.seen()));
        };
        if !is_early(view, &piece, asked.ts) {
            return Turn::Goes((at, SearchStep::Times(piece)));
        }
        at = piece.to;
    }
    Turn::Goes((at, SearchStep::Seek))
}
