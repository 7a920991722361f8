//! Finding the remote segment of an offset, and following segments one after another. specs/Pieces.antt says what is
//! found.

ghost use Rattle.std.specs.Prelude.{◌≡◌, ◌<◌, ◌^◌, IfOk};
ghost use Rattle.remote_find.specs.Pieces.{clipped, piece_below, piece_at, covered_to, chain};

use crate::piece::Piece;
use epoch_line::Line;
use remote_view::{View, span_of};
use segment_meta::Entry;
use std::alloc::{AllocError, Global};

/// The remote segment that has an offset of a log, and which offsets to read from it. `line` has the leader epochs of
/// the log that is read. Returns `None` if no finished copy has the offset in its leader epoch.
pub fn find(view: &View, line: &Line, log_end: u64, offset: u64) -> Option<Piece>
    ensures { result ≡ piece_at view.now.entries line.now log_end offset }
{
    if offset >= log_end {
        return None;
    }
    let Some(epoch) = line.epoch_at(offset) else {
        return None;
    };
    let Some(entry) = view.finished(epoch, offset) else {
        return None;
    };
    clipped(entry, line, log_end, epoch)
}

/// The part of a segment that is of an epoch, in the segment's map and in the line alike.
fn clipped(entry: &Entry, line: &Line, log_end: u64, epoch: u32) -> Option<Piece>
    requires { entry.now.end < 2 ^ 62 }
    ensures { result ≡ clipped line.now log_end epoch entry.now }
{
    let Some(span) = span_of(entry.map.entries(), epoch, entry.end + 1) else {
        return None;
    };
    let Some(own) = span_of(line.entries(), epoch, log_end) else {
        return None;
    };
    Some(Piece {
        id: entry.id,
        from: span.from.max(own.from),
        to: span.to.min(own.to),
    })
}

/// The end that pieces reach from an offset on, found one after another.
pub(crate) fn followed(view: &View, line: &Line, log_end: u64, at: u64) -> u64
    ensures { result ≡ covered_to view.now.entries line.now log_end at }
{
    let mut place = at;
    // Each piece continues by an offset at least, so there are no more of them than offsets.
    for _ in 0..log_end.saturating_sub(at) {
        let Some(piece) = find(view, line, log_end, place) else {
            return place;
        };
        place = piece.to;
    }
    place
}

/// The pieces from an offset on, each beginning where the one before ends, as long as they end at or below `top`. Fails
/// only if memory runs out.
pub fn chain(
    alloc: Global,
    view: &View,
    line: &Line,
    log_end: u64,
    at: u64,
    top: u64,
) -> Result<Vec<Piece>, AllocError>
    ensures { IfOk result (λ pieces. pieces.items ≡ chain view.now.entries line.now log_end at top) }
{
    let mut pieces = Vec::new(alloc);
    let mut place = at;
    for _ in 0..log_end.saturating_sub(at) {
        let Some(piece) = find(view, line, log_end, place) else {
            return Ok(pieces);
        };
        if piece.to > top {
            return Ok(pieces);
        }
        place = piece.to;
        pieces.push(piece)?;
    }
    Ok(pieces)
}
