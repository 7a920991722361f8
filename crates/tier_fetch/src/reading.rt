//! What is read of a remote segment: which bytes of its log hold a run, and the run. A fetch takes both in turns of
//! its own, and so does a lookup by timestamp.
//!
//! Each makes one call of the store at most. The segment's entry in the broker's view says where its parts are; a view
//! without it, or whose entry places no part, is damage of the metadata log.

ghost use Rattle.std.specs.Prelude.{◌≡◌, ◌<◌, ◌≤◌, ◌^◌, Ok, IfSome, option_map};
ghost use Rattle.tier_base.specs.declared.plain.Part.TheVariants as part;
ghost use Rattle.remote_view.specs.Fold.{entry_of};
ghost use Rattle.index_cache.specs.Cache.{found, brought_front};
ghost use Rattle.plain_log.specs.declared.answer.Place.TheVariants.{Key, Meta};
ghost use Rattle.tier_fetch.specs.Span.{span_of};
ghost use Rattle.tier_fetch.specs.declared.refusal.RemoteRefusal.TheVariants.{Damaged};
ghost use Rattle.tier_fetch.specs.Turns.{spot_in, goes_with, ends_with, Loads, CutsRunOut, IndexRow, LoadRow, LogRow};

use crate::refusal::RemoteRefusal;
use crate::spanning::span_of;
use crate::turn::{FetchRequest, Span};
use bytes::Bytes;
use index_cache::IndexCache;
use object_store::{Spot, Store, get_in_spot, get_spot, place};
use plain_log::Place;
use remote_find::Piece;
use remote_view::View;
use segment_file::take_run;
use sparse_index::{IndexRefusal, OffsetIndex};
use std::alloc::Global;
use tier_base::{Part, PartitionId, Stop, Trouble};

/// A run of a remote segment: the bytes of its batches, and why it ends.
#[derive(Drop)]
pub struct RemoteRun {
    pub bytes: Bytes,
    pub stop: Stop,
}

/// Finds the bytes that a fetch needs of a piece's log, in its segment's offset index: the one in the cache, or else
/// the one in the store, which is kept.
pub fn find_span<S: Store>(
    alloc: Global,
    wanted: &FetchRequest,
    piece: &Piece,
    view: &View,
    cache: &mut IndexCache,
    store: &mut S,
) -> Result<Span, RemoteRefusal>
    requires { wanted.now.offset < piece.now.to }
    ensures { IndexRow S.content S.control wanted.now piece.now view.now (goes_with piece.now result)
        (found piece.now.id.0 cache.old.pairs) cache.old cache.new store.old store.new }
{
    let shown = cached(wanted, piece, cache);
    match shown {
        Some(span) => Ok(span),
        None => load(alloc, wanted, piece, view, cache, store),
    }
}

/// What the index in the cache shows, where there is one.
fn cached(wanted: &FetchRequest, piece: &Piece, cache: &mut IndexCache) -> Option<Span>
    requires { wanted.now.offset < piece.now.to }
    ensures span { result ≡ option_map (λ index. span_of index wanted.now.offset wanted.now.limit piece.now.to)
        (found piece.now.id.0 cache.old.pairs) }
    ensures cache { cache.new ≡ brought_front cache.old piece.now.id.0 }
{
    match cache.get(piece.id) {
        Some(index) => Some(span_of(index, wanted.offset, wanted.limit, piece.to)),
        None => None,
    }
}

/// Reads the index out of the store, and keeps it.
fn load<S: Store>(
    alloc: Global,
    wanted: &FetchRequest,
    piece: &Piece,
    view: &View,
    cache: &mut IndexCache,
    store: &mut S,
) -> Result<Span, RemoteRefusal>
    requires { wanted.now.offset < piece.now.to }
    ensures { LoadRow S.content S.control wanted.now piece.now view.now
        (spot_in wanted.now.partition piece.now.id part.Index (entry_of piece.now.id view.now.entries))
        (goes_with piece.now result) cache.old cache.new store.old store.new }
{
    let Some((base, spot)) = spot_in(wanted.partition, piece, view, Part::Index) else {
        return Err(lost(view));
    };
    match get_spot(store, &spot) {
        Ok(given) => keep(alloc, wanted, piece, base, &spot, given, cache),
        Err(Trouble::Failed) => Err(RemoteRefusal::StoreFault),
        Err(Trouble::NoMemory) => Err(RemoteRefusal::NoMemory),
    }
}

/// A view that lacks what the metadata events must hold is damage of the metadata log.
fn lost(view: &View) -> RemoteRefusal
    ensures { result ≡ Damaged Meta view.now.notes }
{
    RemoteRefusal::Damaged {
        place: Place::Meta,
        at: view.seen(),
    }
}

/// An object that lacks what is read, or is invalid from a place on.
fn damaged(spot: &Spot, at: u64) -> RemoteRefusal
    ensures { result ≡ Damaged (Key spot.now.key) at }
{
    RemoteRefusal::Damaged {
        place: Place::Key(spot.key),
        at,
    }
}

/// The base offset of a piece's segment, and where a part of it is, as the segment's entry in the view says.
pub fn spot_in(
    partition: PartitionId,
    piece: &Piece,
    view: &View,
    part: Part,
) -> Option<(u64, Spot)>
    ensures spot { result ≡ spot_in partition piece.now.id part (entry_of piece.now.id view.now.entries) }
    ensures low { IfSome result (λ found. found.0 ≤ 2 ^ 62) }
    ensures near { IfSome result (λ found. found.1.at < 2 ^ 34) }
{
    let _entries = view.entries();
    let Some(entry) = view.entry(piece.id) else {
        return None;
    };
    match place(
        partition,
        piece.id,
        entry.packed,
        entry.custom.as_ref(),
        part,
    ) {
        Some(spot) => Some((entry.start, spot)),
        None => None,
    }
}

/// Reads the index in what the store gave, and keeps it.
fn keep(
    alloc: Global,
    wanted: &FetchRequest,
    piece: &Piece,
    base: u64,
    spot: &Spot,
    given: Option<Bytes>,
    cache: &mut IndexCache,
) -> Result<Span, RemoteRefusal>
    requires holds { wanted.now.offset < piece.now.to }
    requires low { base ≤ 2 ^ 62 }
    requires near { spot.now.at < 2 ^ 34 }
    ensures { Loads wanted.now piece.now base spot.now (Ok given) (goes_with piece.now result) cache.old cache.new }
{
    let Some(bytes) = given else {
        return Err(damaged(spot, 0));
    };
    if let Some(end) = spot.short(bytes.as_slice()) {
        return Err(damaged(spot, end));
    }
    match OffsetIndex::from_bytes(alloc, base, bytes.as_slice()) {
        Ok(index) => {
            let span = span_of(&index, wanted.offset, wanted.limit, piece.to);
            let _rises = index.offsets();
            cache.keep(piece.id, index)?;
            Ok(span)
        }
        Err(IndexRefusal::BadLength | IndexRefusal::NotRising { .. }) => {
            Err(damaged(spot, spot.at))
        }
        Err(IndexRefusal::NoMemory) => Err(RemoteRefusal::NoMemory),
    }
}

/// Reads the bytes of a piece's log that its index has shown, and cuts the run out of them.
pub fn read_run<S: Store>(
    wanted: &FetchRequest,
    piece: &Piece,
    span: Span,
    view: &View,
    store: &mut S,
) -> Result<RemoteRun, RemoteRefusal>
    requires below { wanted.now.offset < wanted.now.mark }
    requires holds { wanted.now.offset < piece.now.to }
    ensures { LogRow S.content S.control wanted.now piece.now span view.now
        (spot_in wanted.now.partition piece.now.id part.Log (entry_of piece.now.id view.now.entries))
        (ends_with piece.now result) store.old store.new }
{
    let Some((_, spot)) = spot_in(wanted.partition, piece, view, Part::Log) else {
        return Err(lost(view));
    };
    match get_in_spot(store, &spot, span.from as u64, span.most) {
        Ok(given) => cut_out(wanted, piece, &spot, span, given),
        Err(Trouble::Failed) => Err(RemoteRefusal::StoreFault),
        Err(Trouble::NoMemory) => Err(RemoteRefusal::NoMemory),
    }
}

/// Cuts the run out of what the store gave.
fn cut_out(
    wanted: &FetchRequest,
    piece: &Piece,
    spot: &Spot,
    span: Span,
    given: Option<Bytes>,
) -> Result<RemoteRun, RemoteRefusal>
    requires below { wanted.now.offset < wanted.now.mark }
    requires holds { wanted.now.offset < piece.now.to }
    requires near { spot.now.at < 2 ^ 34 }
    ensures { CutsRunOut wanted.now piece.now spot.now span (Ok given) (ends_with piece.now result) }
{
    let Some(bytes) = given else {
        return Err(damaged(spot, 0));
    };
    if let Some(end) = spot.short_in(span.from as u64, span.most, bytes.as_slice()) {
        return Err(damaged(spot, end));
    }
    match take_run(
        bytes.as_slice(),
        wanted.offset,
        wanted.limit as u64,
        wanted.mark,
        piece.to,
    ) {
        Ok(cut) => Ok(RemoteRun {
            bytes: bytes.slice(cut.from..cut.to)?,
            stop: cut.stop,
        }),
        Err(bad) => Err(damaged(spot, spot.at + span.from as u64 + bad.at as u64)),
    }
}
