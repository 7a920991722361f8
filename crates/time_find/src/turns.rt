//! The turns of a timestamp lookup in the remote segments, at most one device call each.

ghost use Rattle.std.specs.Prelude.{◌≡◌, ◌<◌, ◌≤◌, ◌^◌, Ok, IfOk};
ghost use Rattle.tier_base.specs.declared.plain.Part.TheVariants as part;
ghost use Rattle.remote_view.specs.Fold.{entry_of};
ghost use Rattle.plain_log.specs.declared.answer.Answer.TheVariants.{Damaged};
ghost use Rattle.plain_log.specs.declared.answer.Place.TheVariants.{Key, Meta};
ghost use Rattle.tier_fetch.specs.Turns.{spot_in};
ghost use Rattle.plain_log.specs.declared.turn.Turn.TheVariants.{Ends};
ghost use Rattle.time_find.specs.Turns.{IsSet, SearchContinues, IsBelowLocal, wanted_at, shown, Times};
ghost use Rattle.time_find.specs.Turns.{SeekRow, TimesRow, SearchIndexRow, SearchLogRow, TimeRow};

use crate::passing::seek;
use crate::run::search_run;
use crate::turn::{Asked, SearchStep};
use bytes::Bytes;
use epoch_line::Line;
use index_cache::IndexCache;
use meta_log::MetaLog;
use object_store::{Spot, Store, get_spot};
use plain_log::{Answer, Place, Turn};
use remote_find::Piece;
use remote_view::View;
use sparse_index::{IndexRefusal, TimeIndex};
use std::alloc::{AllocError, Global};
use tier_base::{Part, Trouble};
use tier_fetch::{FetchRequest, Span, find_span, read_run, spot_in};
use view_refresh::refresh;

/// Takes the next turn of a lookup whose cursor is below the local log, or which is in a remote segment. `line` has the
/// leader epochs of its broker's log. Fails only if memory runs out.
pub fn time_turn<S: Store, M: MetaLog>(
    alloc: Global,
    asked: &Asked,
    cursor: u64,
    next: SearchStep,
    line: &Line,
    view: &mut View,
    cache: &mut IndexCache,
    store: &mut S,
    meta: &mut M,
) -> Result<Turn<(u64, SearchStep)>, AllocError>
    requires below { cursor < asked.now.mark }
    requires remote { IsBelowLocal asked.now cursor next }
    requires holds { IsSet cursor next }
    ensures row { TimeRow S.content S.control M.content M.control asked.now line.now cursor next result
        (record { view = view.old; cache = cache.old; store = store.old; meta = meta.old })
        (record { view = view.new; cache = cache.new; store = store.new; meta = meta.new }) }
    ensures goes { IfOk result (SearchContinues cursor) }
{
    match next {
        SearchStep::Seek => refresh_and_seek(asked, cursor, line, view, meta),
        SearchStep::Times(piece) => times(alloc, asked, cursor, &piece, view, store),
        SearchStep::Index(piece, from) => {
            index(alloc, asked, cursor, &piece, from, view, cache, store)
        }
        SearchStep::Log(piece, from, span) => {
            log(asked, cursor, &piece, from, span, view, store)
        }
    }
}

/// Refreshes a view, and passes over what is too early in it.
fn refresh_and_seek<M: MetaLog>(
    asked: &Asked,
    cursor: u64,
    line: &Line,
    view: &mut View,
    meta: &mut M,
) -> Result<Turn<(u64, SearchStep)>, AllocError>
    requires mark { cursor < asked.now.mark }
    requires local { cursor < asked.now.local }
    ensures row { SeekRow M.content M.control asked.now line.now cursor result view.old view.new meta.old meta.new }
    ensures goes { IfOk result (SearchContinues cursor) }
{
    match refresh(view, meta) {
        Ok(()) => Ok(seek(asked, line, view, cursor)),
        Err(Trouble::Failed) => Ok(Turn::Ends(Answer::MetaFault)),
        Err(Trouble::NoMemory) => Err(AllocError),
    }
}

/// A view that lacks what the metadata events must hold is damage of the metadata log.
fn lost(view: &View) -> Turn<(u64, SearchStep)>
    ensures { result ≡ Ends (Damaged Meta view.now.notes) }
{
    Turn::Ends(Answer::Damaged(Place::Meta, view.seen()))
}

/// An object that lacks what is read, or is invalid.
fn damaged(spot: &Spot, at: u64) -> Turn<(u64, SearchStep)>
    ensures { result ≡ Ends (Damaged (Key spot.now.key) at) }
{
    Turn::Ends(Answer::Damaged(Place::Key(spot.key), at))
}

/// Reads the time index of a piece's segment, which shows from where on its log is to be searched.
fn times<S: Store>(
    alloc: Global,
    asked: &Asked,
    cursor: u64,
    piece: &Piece,
    view: &View,
    store: &mut S,
) -> Result<Turn<(u64, SearchStep)>, AllocError>
    requires mark { cursor < asked.now.mark }
    requires holds { cursor < piece.now.to }
    ensures row { TimesRow S.content S.control asked.now cursor piece.now view.now
        (spot_in asked.now.partition piece.now.id part.TimeIndex (entry_of piece.now.id view.now.entries)) result
        store.old store.new }
    ensures goes { IfOk result (SearchContinues cursor) }
{
    let Some((base, spot)) = spot_in(asked.partition, piece, view, Part::TimeIndex) else {
        return Ok(lost(view));
    };
    match get_spot(store, &spot) {
        Ok(given) => read_times(alloc, asked, cursor, piece, base, &spot, given),
        Err(Trouble::Failed) => Ok(Turn::Ends(Answer::StoreFault)),
        Err(Trouble::NoMemory) => Err(AllocError),
    }
}

/// Reads the time index in what the store gave.
fn read_times(
    alloc: Global,
    asked: &Asked,
    cursor: u64,
    piece: &Piece,
    base: u64,
    spot: &Spot,
    given: Option<Bytes>,
) -> Result<Turn<(u64, SearchStep)>, AllocError>
    requires low { base ≤ 2 ^ 62 }
    requires near { spot.now.at < 2 ^ 34 }
    requires mark { cursor < asked.now.mark }
    requires holds { cursor < piece.now.to }
    ensures row { Times asked.now cursor piece.now base spot.now (Ok given) result }
    ensures goes { IfOk result (SearchContinues cursor) }
{
    let Some(bytes) = given else {
        return Ok(damaged(spot, 0));
    };
    if let Some(end) = spot.short(bytes.as_slice()) {
        return Ok(damaged(spot, end));
    }
    match TimeIndex::from_bytes(alloc, base, bytes.as_slice()) {
        Ok(index) => {
            let from = match index.below(asked.ts) {
                Some((_, last)) => cursor.max(last.saturating_add(1)),
                None => cursor,
            };
            let _rises = index.offsets();
            Ok(shown(asked, cursor, piece, from))
        }
        Err(IndexRefusal::BadLength | IndexRefusal::NotRising { .. }) => Ok(damaged(spot, spot.at)),
        Err(IndexRefusal::NoMemory) => Err(AllocError),
    }
}

/// What a search does whose piece is to be searched from an offset on.
fn shown(asked: &Asked, cursor: u64, piece: &Piece, from: u64) -> Turn<(u64, SearchStep)>
    requires low { cursor ≤ from }
    requires mark { cursor < asked.now.mark }
    requires holds { cursor < piece.now.to }
    ensures row { result ≡ shown asked.now cursor piece.now from }
    ensures goes { SearchContinues cursor result }
{
    let top = piece.to.min(asked.mark);
    if from < top {
        Turn::Goes((cursor, SearchStep::Index(*piece, from)))
    } else {
        Turn::Goes((top, SearchStep::Seek))
    }
}

/// What a fetch would ask for at an offset that a search reads from.
fn wanted_at(asked: &Asked, offset: u64) -> FetchRequest
    ensures { result ≡ wanted_at asked.now offset }
{
    FetchRequest {
        partition: asked.partition,
        offset,
        limit: u32::MAX,
        log_end: asked.log_end,
        mark: asked.mark,
    }
}

/// Has the offset index of a piece's segment show which bytes of its log are to be searched.
fn index<S: Store>(
    alloc: Global,
    asked: &Asked,
    cursor: u64,
    piece: &Piece,
    from: u64,
    view: &View,
    cache: &mut IndexCache,
    store: &mut S,
) -> Result<Turn<(u64, SearchStep)>, AllocError>
    requires mark { cursor < asked.now.mark }
    requires low { cursor ≤ from }
    requires holds { from < piece.now.to }
    ensures row { SearchIndexRow S.content S.control asked.now cursor piece.now from view.now result
        cache.old cache.new store.old store.new }
    ensures goes { IfOk result (SearchContinues cursor) }
{
    if from >= asked.mark {
        return Ok(shown(asked, cursor, piece, from));
    }
    let wanted = wanted_at(asked, from);
    match find_span(alloc, &wanted, piece, view, cache, store) {
        Ok(span) => Ok(Turn::Goes((cursor, SearchStep::Log(*piece, from, span)))),
        Err(why) => why.turn(),
    }
}

/// Reads what is left of a piece's log, and searches it.
fn log<S: Store>(
    asked: &Asked,
    cursor: u64,
    piece: &Piece,
    from: u64,
    span: Span,
    view: &View,
    store: &mut S,
) -> Result<Turn<(u64, SearchStep)>, AllocError>
    requires mark { cursor < asked.now.mark }
    requires low { cursor ≤ from }
    requires holds { from < piece.now.to }
    ensures row { SearchLogRow S.content S.control asked.now piece.now from span view.now result store.old store.new }
    ensures goes { IfOk result (SearchContinues cursor) }
{
    if from >= asked.mark {
        return Ok(Turn::Goes((piece.to.min(asked.mark), SearchStep::Seek)));
    }
    let wanted = wanted_at(asked, from);
    match read_run(&wanted, piece, span, view, store) {
        Ok(run) => Ok(search_run(run.bytes.as_slice(), asked, from)),
        Err(why) => why.turn(),
    }
}
