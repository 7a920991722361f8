//! How far retention raises the log start offset.

ghost use Rattle.std.specs.Prelude.{◌≡◌, IfOk, map};
ghost use Rattle.expiry_task.specs.Rule.{items_of, item_of, all_items, all_ends, end_from, end_behind, uncopied};
ghost use Rattle.expiry_task.specs.Rule.{uncopied_of, is_within, bytes_past, rest_behind, end_of_first, raised_to};
ghost use Rattle.tier_base.specs.Counts.{counted};
ghost use Rattle.remote_view.specs.Fold.{entry_of};

use remote_find::Piece;
use remote_view::View;
use retention_rule::start_due;
use segment_file::Growing;
use std::alloc::{AllocError, Global};
use tier_base::{Item, Keep};

/// A closed local segment that retention counts after the remote ones. That is so only while copying is off.
#[derive(Clone, Copy, Debug, PartialEq, Eq)]
pub struct Uncopied {
    /// What retention asks about it.
    pub item: Item,
    /// The offset after its last one.
    pub end: u64,
}

/// The log start offset to which retention raises it at a time `now` in milliseconds, or `None` if it doesn't. The
/// pieces are those from the log start offset on that end at or below the broker's high watermark, and the closed
/// segments come after them; `rest` is the size in bytes of the local log after both. Fails only if memory runs out.
pub fn raised_to(
    alloc: Global,
    view: &View,
    pieces: &[Piece],
    own: &[Uncopied],
    rest: u64,
    now: i64,
    keep: Keep,
) -> Result<Option<u64>, AllocError>
    ensures { IfOk result (λ start. start ≡ raised_to view.now.entries pieces.now own.now rest now keep) }
{
    let items = all_items(alloc, view, pieces, own)?;
    let ends = all_ends(alloc, pieces, own)?;
    Ok(end_of_first(
        start_due(items.as_slice(), rest, now, keep),
        ends.as_slice(),
    ))
}

/// The closed segments that count after the pieces, which end at an offset: none while copying is on, or if the local
/// log starts past that offset. Fails only if memory runs out.
pub fn find_uncopied(
    alloc: Global,
    copying: bool,
    local: u64,
    offset: u64,
    known: u64,
    closed: &[Growing],
) -> Result<Vec<Uncopied>, AllocError>
    ensures { IfOk result (λ own. own.items ≡ uncopied copying local offset known closed.now) }
{
    let mut own = Vec::new(alloc);
    if copying || offset < local {
        return Ok(own);
    }
    for segment in closed {
        if is_within(offset, known, segment) {
            own.push(uncopied_of(segment))?;
        }
    }
    Ok(own)
}

/// The bytes of the local log after an offset. An open segment ends at the log's end.
pub fn rest_behind(offset: u64, closed: &[Growing], open_size: u64, log_end: u64) -> u64
    ensures { result ≡ rest_behind offset closed.now open_size log_end }
{
    let open = if offset < log_end { open_size } else { 0 };
    bytes_past(open, offset, closed)
}

/// Where the last piece ends, or the start where there is none.
pub fn end_from(start: u64, pieces: &[Piece]) -> u64
    ensures { result ≡ end_from start pieces.now }
{
    let mut end = start;
    for piece in pieces {
        end = piece.to;
    }
    end
}

/// Where the last of these closed segments ends, or the offset where there is none.
pub fn end_behind(offset: u64, own: &[Uncopied]) -> u64
    ensures { result ≡ end_behind offset own.now }
{
    let mut end = offset;
    for one in own {
        end = one.end;
    }
    end
}

/// Whether a segment ends past an offset, and at or below the known high watermark.
fn is_within(offset: u64, known: u64, segment: &Growing) -> bool
    ensures { result ≡ is_within offset known segment.now }
{
    offset < segment.end() && segment.end() <= known
}

/// What retention asks about a closed segment, and where it ends.
fn uncopied_of(segment: &Growing) -> Uncopied
    ensures { result ≡ uncopied_of segment.now }
{
    let end = segment.end();
    Uncopied {
        item: Item {
            // One without batches may end at 0.
            last: end.saturating_sub(1),
            size: segment.size(),
            max_ts: segment.max_ts(),
        },
        end,
    }
}

/// What retention asks about each of these.
fn all_items(
    alloc: Global,
    view: &View,
    pieces: &[Piece],
    own: &[Uncopied],
) -> Result<Vec<Item>, AllocError>
    ensures { IfOk result (λ items. items.items ≡ all_items view.now.entries pieces.now own.now) }
{
    let mut items = items_of(alloc, view, pieces)?;
    for one in own {
        items.push(one.item)?;
    }
    Ok(items)
}

/// Where each of these ends.
fn all_ends(alloc: Global, pieces: &[Piece], own: &[Uncopied]) -> Result<Vec<u64>, AllocError>
    ensures { IfOk result (λ ends. ends.items ≡ all_ends pieces.now own.now) }
{
    let mut ends = ends_of(alloc, pieces)?;
    for one in own {
        ends.push(one.end)?;
    }
    Ok(ends)
}

/// What retention asks about each of these pieces.
fn items_of(alloc: Global, view: &View, pieces: &[Piece]) -> Result<Vec<Item>, AllocError>
    ensures { IfOk result (λ items. items.items ≡ items_of view.now.entries pieces.now) }
{
    let mut items = Vec::new(alloc);
    for piece in pieces {
        items.push(item_of(view, piece))?;
    }
    Ok(items)
}

/// Where each of these pieces ends.
fn ends_of(alloc: Global, pieces: &[Piece]) -> Result<Vec<u64>, AllocError>
    ensures { IfOk result (λ ends. ends.items ≡ map (λ piece. piece.to) pieces.now) }
{
    let mut ends = Vec::new(alloc);
    for piece in pieces {
        ends.push(piece.to)?;
    }
    Ok(ends)
}

/// What retention asks about a piece.
fn item_of(view: &View, piece: &Piece) -> Item
    ensures { result ≡ item_of piece.now (entry_of piece.now.id view.now.entries) }
{
    let last = piece.to.saturating_sub(1);
    match view.entry(piece.id) {
        None => Item {
            last,
            size: 0,
            max_ts: 0,
        },
        Some(entry) => Item {
            last,
            size: entry.size as u64,
            max_ts: entry.max_ts,
        },
    }
}

/// The bytes of the segments that end past an offset, and so many more.
fn bytes_past(more: u64, offset: u64, segments: &[Growing]) -> u64
    ensures { result ≡ counted more (bytes_past offset segments.now) }
{
    let mut bytes = more;
    for segment in segments {
        if offset < segment.end() {
            bytes = bytes.saturating_add(segment.size());
        }
    }
    bytes
}

/// Where so many of those end that end at these offsets.
fn end_of_first(count: usize, ends: &[u64]) -> Option<u64>
    ensures { result ≡ end_of_first count ends.now }
{
    if count == 0 {
        return None;
    }
    ends.get(count - 1).copied()
}
