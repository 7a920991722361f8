//! The first flaw of finished copies, whose parts are read one by one.
//!
//! A part is read from its position to its object's end, so that this end can be reported.

ghost use Rattle.std.specs.Prelude.{◌≡◌, ◌≢◌, ◌<◌, ◌≤◌, ◌^◌, List, ℕ, length, IfOk, IfSome, IsTrue};
ghost use Rattle.tier_base.specs.declared.plain.Part.TheVariants.{Log, Pack};
ghost use Rattle.tier_base.specs.Device.{fate_of};
ghost use Rattle.object_store.specs.Place.{capped, short_of};
ghost use Rattle.segment_file.specs.Index.{placed_from};
ghost use Rattle.remote_view.specs.Fold.{IsEntryValid, AreEntriesValid};
ghost use Rattle.tier_audit.specs.Asking.{OnlyAsks, ReadsObjects};
ghost use Rattle.tier_audit.specs.declared.verdict.Flaw.TheVariants.{Wrong};
ghost use Rattle.tier_audit.specs.Entries.{ArePlaced};
ghost use Rattle.tier_audit.specs.Whole.{place_of};
ghost use Rattle.tier_audit.specs.Copies.{HasPlaced, AuditsPart, ReadsSpot, ReadsLogSpot, IsPlaceWithin, from_rest};
ghost use Rattle.tier_audit.specs.Copies.{FindsPart, PlacesLog, FindsLog, FindsParts, FindsCopy, FindsCopies};

use crate::epochs_part::read_epochs;
use crate::index_part::read_index;
use crate::log_part::{LogPart, read_log};
use crate::time_part::read_times;
use crate::verdict::Flaw;
use bytes::Bytes;
use object_store::{Part, Spot, Store, place};
use segment_file::Placed;
use segment_meta::Entry;
use std::alloc::{AllocError, Global};
use tier_base::{State, Trouble};

/// What is found of a copy's log.
#[derive(Drop)]
pub(crate) enum LogFound {
    /// It is right, and these are its batches.
    Right(Vec<Placed>),
    /// It has this flaw.
    Flawed(Flaw),
}

/// Finds the first flaw of finished copies.
pub(crate) fn find_unreadable<S: Store>(
    alloc: Global,
    entries: &[Entry],
    store: &mut S,
) -> Result<Option<Flaw>, Trouble>
    requires { AreEntriesValid entries.now }
    ensures asks { OnlyAsks S.content S.control (fate_of result) store.old store.new }
    ensures reads { ReadsObjects (fate_of result) (S.control store.old) (S.control store.new) }
    ensures found { IsTrue (S.content store.old).is_observable
        → IfOk result (λ found. FindsCopies (S.content store.old).objects entries.now found) }
{
    for entry in entries {
        if let Some(flaw) = check_entry(alloc, entry, store)? {
            return Ok(Some(flaw));
        }
    }
    Ok(None)
}

/// Finds the first flaw of an entry's copy, where that is finished.
fn check_entry<S: Store>(
    alloc: Global,
    entry: &Entry,
    store: &mut S,
) -> Result<Option<Flaw>, Trouble>
    requires { IsEntryValid entry.now }
    ensures asks { OnlyAsks S.content S.control (fate_of result) store.old store.new }
    ensures reads { ReadsObjects (fate_of result) (S.control store.old) (S.control store.new) }
    ensures found { IsTrue (S.content store.old).is_observable
        → IfOk result (λ found. FindsCopy (S.content store.old).objects entry.now found) }
{
    match entry.state {
        State::CopyFinished => check_copy(alloc, entry, store),
        State::CopyStarted | State::DeleteStarted | State::DeleteFinished => Ok(None),
    }
}

/// Finds the first flaw of a copy.
fn check_copy<S: Store>(
    alloc: Global,
    entry: &Entry,
    store: &mut S,
) -> Result<Option<Flaw>, Trouble>
    requires { IsEntryValid entry.now }
    ensures asks { OnlyAsks S.content S.control (fate_of result) store.old store.new }
    ensures reads { ReadsObjects (fate_of result) (S.control store.old) (S.control store.new) }
    ensures found { IsTrue (S.content store.old).is_observable
        → IfOk result (λ found. FindsParts (S.content store.old).objects entry.now found) }
{
    match check_log(alloc, entry, store)? {
        LogFound::Right(batches) => check_parts(alloc, entry, batches.as_slice(), store),
        LogFound::Flawed(flaw) => Ok(Some(flaw)),
    }
}

/// Reads a copy's log.
fn check_log<S: Store>(alloc: Global, entry: &Entry, store: &mut S) -> Result<LogFound, Trouble>
    requires { IsEntryValid entry.now }
    ensures asks { OnlyAsks S.content S.control (fate_of result) store.old store.new }
    ensures reads { ReadsObjects (fate_of result) (S.control store.old) (S.control store.new) }
    ensures placed { IfOk result (λ found. PlacesLog entry.now found) }
    ensures found { IsTrue (S.content store.old).is_observable
        → IfOk result (λ found. FindsLog (S.content store.old).objects entry.now found) }
{
    let Some(spot) = place_of(entry, Part::Log) else {
        return Ok(LogFound::Flawed(Flaw::Custom { id: entry.id }));
    };
    let Some(rest) = store.get(&spot.key, spot.at)? else {
        return Ok(LogFound::Flawed(Flaw::Missing { key: spot.key }));
    };
    match read_log_at(alloc, entry, &spot, rest.as_slice())? {
        LogPart::Right(batches) => Ok(LogFound::Right(batches)),
        LogPart::Wrong { at } => Ok(LogFound::Flawed(wrong(&spot, rest.as_slice(), at))),
    }
}

/// Finds the first flaw of a copy whose log is right, by the batches of it.
fn check_parts<S: Store>(
    alloc: Global,
    entry: &Entry,
    batches: &[Placed],
    store: &mut S,
) -> Result<Option<Flaw>, Trouble>
    requires kept { IsEntryValid entry.now }
    requires placed { ArePlaced entry.now.start batches.now }
    ensures asks { OnlyAsks S.content S.control (fate_of result) store.old store.new }
    ensures reads { ReadsObjects (fate_of result) (S.control store.old) (S.control store.new) }
    ensures found { IsTrue (S.content store.old).is_observable
        → HasPlaced (S.content store.old).objects entry.now batches.now
        → IfOk result (λ found. FindsParts (S.content store.old).objects entry.now found) }
{
    if let Some(flaw) = check_part(alloc, entry, batches, Part::Index, store)? {
        return Ok(Some(flaw));
    }
    if let Some(flaw) = check_part(alloc, entry, batches, Part::TimeIndex, store)? {
        return Ok(Some(flaw));
    }
    check_part(alloc, entry, batches, Part::Epochs, store)
}

/// Finds the flaw of a part after the log.
fn check_part<S: Store>(
    alloc: Global,
    entry: &Entry,
    batches: &[Placed],
    part: Part,
    store: &mut S,
) -> Result<Option<Flaw>, Trouble>
    requires kept { IsEntryValid entry.now }
    requires placed { ArePlaced entry.now.start batches.now }
    requires part { part ≢ Log }
    requires own { part ≢ Pack }
    ensures asks { OnlyAsks S.content S.control (fate_of result) store.old store.new }
    ensures reads { ReadsObjects (fate_of result) (S.control store.old) (S.control store.new) }
    ensures found { IsTrue (S.content store.old).is_observable → (log : List (List ℕ)) → batches.now ≡ placed_from 0 log
        → IfOk result (λ found. FindsPart (S.content store.old).objects entry.now log part found) }
{
    let Some(spot) = place_of(entry, part) else {
        return Ok(Some(Flaw::Custom { id: entry.id }));
    };
    let Some(rest) = store.get(&spot.key, spot.at)? else {
        return Ok(Some(Flaw::Missing { key: spot.key }));
    };
    match read_at(alloc, entry, batches, part, &spot, rest.as_slice())? {
        Some(at) => Ok(Some(wrong(&spot, rest.as_slice(), at))),
        None => Ok(None),
    }
}

/// Reads a log, of whose object these are the bytes from there on.
fn read_log_at(
    alloc: Global,
    entry: &Entry,
    spot: &Spot,
    rest: &[u8],
) -> Result<LogPart, AllocError>
    requires kept { IsEntryValid entry.now }
    requires low { spot.now.at < 2 ^ 34 }
    ensures reads { IfOk result (λ found. ReadsLogSpot entry.now (short_of spot.now (capped spot.now.len rest.now))
        (capped spot.now.len rest.now) found) }
    ensures within { IfOk result (λ found. IsPlaceWithin (capped spot.now.len rest.now) found) }
{
    let bytes = capped(spot.len, rest);
    if spot.short(bytes).is_some() {
        return Ok(LogPart::Wrong { at: bytes.len() });
    }
    read_log(alloc, entry, bytes)
}

/// Reads a part after the log, of whose object these are the bytes from there on: none where it is right, or the place
/// in the part that is reported.
fn read_at(
    alloc: Global,
    entry: &Entry,
    batches: &[Placed],
    part: Part,
    spot: &Spot,
    rest: &[u8],
) -> Result<Option<usize>, AllocError>
    requires kept { IsEntryValid entry.now }
    requires placed { ArePlaced entry.now.start batches.now }
    requires part { part ≢ Log }
    requires own { part ≢ Pack }
    requires low { spot.now.at < 2 ^ 34 }
    ensures reads { (log : List (List ℕ)) → batches.now ≡ placed_from 0 log
        → IfOk result (λ found. ReadsSpot entry.now log part
        (short_of spot.now (capped spot.now.len rest.now)) (capped spot.now.len rest.now) found) }
    ensures within { IfOk result (λ found. IfSome found (λ at. at ≤ length (capped spot.now.len rest.now))) }
{
    let bytes = capped(spot.len, rest);
    if spot.short(bytes).is_some() {
        return Ok(Some(bytes.len()));
    }
    read_part(alloc, entry, batches, part, bytes)
}

/// Reads a part after the log: none where it is right, or the place that is reported.
fn read_part(
    alloc: Global,
    entry: &Entry,
    batches: &[Placed],
    part: Part,
    bytes: &[u8],
) -> Result<Option<usize>, AllocError>
    requires kept { IsEntryValid entry.now }
    requires placed { ArePlaced entry.now.start batches.now }
    requires part { part ≢ Log }
    requires own { part ≢ Pack }
    ensures { (log : List (List ℕ)) → batches.now ≡ placed_from 0 log
        → IfOk result (λ found. AuditsPart entry.now log part bytes.now found) }
{
    match part {
        Part::Log | Part::Pack => unreachable!(),
        Part::Index => read_index(alloc, entry.start, batches, bytes),
        Part::TimeIndex => read_times(alloc, entry.start, batches, bytes),
        Part::Epochs => read_epochs(alloc, entry, bytes),
    }
}

/// Where a part of a copy exists.
fn place_of(entry: &Entry, part: Part) -> Option<Spot>
    ensures spot { result ≡ place_of entry.now part }
    ensures low { IfSome result (λ spot. spot.at < 2 ^ 34) }
{
    place(
        entry.partition,
        entry.id,
        entry.packed,
        entry.custom.as_ref(),
        part,
    )
}

/// At most so many of these bytes, or all.
fn capped(len: Option<u64>, bytes: &[u8]) -> &[u8]
    ensures { result.now ≡ capped len bytes.now }
{
    match len {
        Some(len) if len < bytes.len() as u64 => &bytes[..len as usize],
        _ => bytes,
    }
}

/// A part that isn't right at this place in it, of whose object these are the bytes from there on.
fn wrong(spot: &Spot, rest: &[u8], at: usize) -> Flaw
    requires low { spot.now.at < 2 ^ 34 }
    requires within { at ≤ length (capped spot.now.len rest.now) }
    ensures { result ≡ Wrong spot.now.key (from_rest spot.now rest.now at) }
{
    let end = capped(spot.len, rest).len();
    let within = if at == end { rest.len() } else { at };
    Flaw::Wrong {
        key: spot.key,
        at: spot.at + within as u64,
    }
}
