//! The turns of a fetch, at most one call of a device each.

ghost use Rattle.std.specs.Prelude.{◌≡◌, ◌<◌, IfOk};
ghost use Rattle.tier_base.specs.declared.plain.Part.TheVariants as part;
ghost use Rattle.remote_view.specs.Fold.{entry_of};
ghost use Rattle.remote_find.specs.Pieces.{piece_at};
ghost use Rattle.index_cache.specs.Cache.{found};
ghost use Rattle.tier_fetch.specs.Turns.{Tiers, IsPieceFor, GoesFor, chosen, spot_in};
ghost use Rattle.tier_fetch.specs.Turns.{RefreshRow, IndexRow, LogRow, RemoteFetchRow};

use crate::reading::{find_span, read_run};
use crate::turn::{FetchRequest, FetchStep, Span};
use epoch_line::Line;
use index_cache::IndexCache;
use meta_log::MetaLog;
use object_store::Store;
use plain_log::{Answer, Place, Tier, Turn};
use remote_find::{Piece, find};
use remote_view::View;
use std::alloc::{AllocError, Global};
use tier_base::Trouble;
use view_refresh::refresh;

/// Takes the next turn of a fetch. `line` has the leader epochs of its broker's log. Fails only if memory runs out.
pub fn fetch_turn<S: Store, M: MetaLog>(
    alloc: Global,
    wanted: &FetchRequest,
    next: FetchStep,
    line: &Line,
    view: &mut View,
    cache: &mut IndexCache,
    store: &mut S,
    meta: &mut M,
) -> Result<Turn<FetchStep>, AllocError>
    requires below { wanted.now.offset < wanted.now.mark }
    requires holds { IsPieceFor wanted.now.offset next }
    ensures row { RemoteFetchRow S.content S.control M.content M.control wanted.now line.now next result
        (record { view = view.old; cache = cache.old; store = store.old; meta = meta.old })
        (record { view = view.new; cache = cache.new; store = store.new; meta = meta.new }) }
    ensures goes { IfOk result (GoesFor wanted.now.offset) }
{
    match next {
        FetchStep::Refresh => choose(wanted, line, view, meta),
        FetchStep::Index(piece) => index(alloc, wanted, &piece, view, cache, store),
        FetchStep::Log(piece, span) => log(wanted, &piece, span, view, store),
    }
}

/// Refreshes a view, and chooses the piece that holds the offset.
fn choose<M: MetaLog>(
    wanted: &FetchRequest,
    line: &Line,
    view: &mut View,
    meta: &mut M,
) -> Result<Turn<FetchStep>, AllocError>
    ensures row { RefreshRow M.content M.control wanted.now line.now result view.old view.new meta.old meta.new }
    ensures goes { IfOk result (GoesFor wanted.now.offset) }
{
    match refresh(view, meta) {
        Ok(()) => Ok(chosen(wanted, line, view)),
        Err(Trouble::Failed) => Ok(Turn::Ends(Answer::MetaFault)),
        Err(Trouble::NoMemory) => Err(AllocError),
    }
}

/// What a refreshed view has for the offset. The metadata events must show where it is, so a view without it is damage of
/// the metadata log.
fn chosen(wanted: &FetchRequest, line: &Line, view: &View) -> Turn<FetchStep>
    ensures turn { result ≡ chosen view.now.notes
        (piece_at view.now.entries line.now wanted.now.log_end wanted.now.offset) }
    ensures goes { GoesFor wanted.now.offset result }
{
    match find(view, line, wanted.log_end, wanted.offset) {
        Some(piece) => {
            // Reading both shows that the piece ends past the offset.
            let _entries = view.entries();
            let _line = line.entries();
            Turn::Goes(FetchStep::Index(piece))
        }
        None => Turn::Ends(Answer::Damaged(Place::Meta, view.seen())),
    }
}

/// Has the index of the piece's segment show which bytes of its log are to be read.
fn index<S: Store>(
    alloc: Global,
    wanted: &FetchRequest,
    piece: &Piece,
    view: &View,
    cache: &mut IndexCache,
    store: &mut S,
) -> Result<Turn<FetchStep>, AllocError>
    requires { wanted.now.offset < piece.now.to }
    ensures row { IndexRow S.content S.control wanted.now piece.now view.now result
        (found piece.now.id.0 cache.old.pairs) cache.old cache.new store.old store.new }
    ensures goes { IfOk result (GoesFor wanted.now.offset) }
{
    match find_span(alloc, wanted, piece, view, cache, store) {
        Ok(span) => Ok(Turn::Goes(FetchStep::Log(*piece, span))),
        Err(why) => why.turn(),
    }
}

/// Reads those bytes, and ends the fetch with the run in them.
fn log<S: Store>(
    wanted: &FetchRequest,
    piece: &Piece,
    span: Span,
    view: &View,
    store: &mut S,
) -> Result<Turn<FetchStep>, AllocError>
    requires below { wanted.now.offset < wanted.now.mark }
    requires holds { wanted.now.offset < piece.now.to }
    ensures row { LogRow S.content S.control wanted.now piece.now span view.now
        (spot_in wanted.now.partition piece.now.id part.Log (entry_of piece.now.id view.now.entries)) result
        store.old store.new }
    ensures goes { IfOk result (GoesFor wanted.now.offset) }
{
    match read_run(wanted, piece, span, view, store) {
        Ok(run) => Ok(Turn::Ends(Answer::Run {
            tier: Tier::Remote(piece.id),
            size: run.bytes.len() as u64,
            stop: run.stop,
            bytes: run.bytes,
        })),
        Err(why) => why.turn(),
    }
}
