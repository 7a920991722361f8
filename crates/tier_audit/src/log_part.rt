//! A copy's log, read batch by batch beside its entry.
//!
//! The walk continues as long as the batches may begin the log of the copy: they are consecutive from its first offset
//! on, end within it, each has the epoch of the copy's leader epochs at its base offset, and none is past the copy's
//! greatest timestamp. The log is right if at the end of the bytes they have reached all that the entry says, and each
//! of its leader epochs begins with one of them.

ghost use Rattle.std.specs.Prelude.{◌≡◌, ◌↔◌, ◌+◌, ◌≤◌, ◌<◌, ◌^◌, ℕ, List, IfOk, OnOk};
ghost use Rattle.std.specs.Prelude.{IfSome, Some, None, IsTrue, length, take};
ghost use Rattle.std.specs.Option.{ForSome};
ghost use Rattle.std.specs.Int.{w32, w64, cast_unsigned};
ghost use mathlib.Core.List.{IsPrefix};
ghost use Rattle.log_terms.specs.Line.{epoch_at};
ghost use Rattle.epoch_line.specs.Line.{IsLine, last_epoch};
ghost use Rattle.segment_file.specs.Gathering.{with_epoch, later_ts};
ghost use Rattle.segment_file.specs.Walk.{size_in};
ghost use Rattle.segment_file.specs.Index.{placed_in};
ghost use Rattle.remote_view.specs.Fold.{IsEntryValid};
ghost use Rattle.tier_audit.specs.Logs.{IsLogFront, IsNextHead, BeginsMore, ComesNext, NoBatchComes};
ghost use Rattle.tier_audit.specs.Logs.{FrontGains, IsAll, AuditsLog, IsFrontStopped};

use record_batch::Head;
use segment_file::{Found, Placed, walk};
use segment_meta::Entry;
use std::alloc::{AllocError, Global};

/// The greatest size of a segment, and how far offsets reach past its base: below 2^31.
const REACH: u64 = 1 << 31;

/// What the batches up to a place come to: the place, the offset after them, how many of the map's entries they begin
/// (none where they pass one over), their greatest timestamp, and where each of them is.
#[derive(Drop)]
pub(crate) struct Front {
    pub at: u32,
    pub end: u64,
    pub snapshot: Option<usize>,
    pub max_ts: i64,
    pub batches: Vec<Placed>,
}

/// What a log is found to be.
#[derive(Drop)]
pub(crate) enum LogPart {
    /// It is right, and these are its batches.
    Right(Vec<Placed>),
    /// It isn't, and this place is reported.
    Wrong { at: usize },
}

/// Reads a copy's log.
pub(crate) fn read_log(alloc: Global, entry: &Entry, bytes: &[u8]) -> Result<LogPart, AllocError>
    requires { IsEntryValid entry.now }
    ensures { IfOk result (λ log. AuditsLog entry.now bytes.now log) }
{
    let front = front_of(alloc, entry, bytes)?;
    if is_all(entry, bytes.len(), &front) {
        Ok(LogPart::Right(front.batches))
    } else {
        Ok(LogPart::Wrong {
            at: front.at as usize,
        })
    }
}

/// The batches that may begin the log, as far as they go.
fn front_of(alloc: Global, entry: &Entry, bytes: &[u8]) -> Result<Front, AllocError>
    requires { IsEntryValid entry.now }
    ensures { IfOk result (λ front. IsFrontStopped entry.now bytes.now front) }
{
    let mut front = nothing_yet(alloc, entry);
    while (front.at as usize) < bytes.len() {
        let Some((batch, snapshot)) = next_batch(entry, &front, bytes) else {
            return Ok(front);
        };
        gain(&mut front, batch, snapshot)?;
    }
    Ok(front)
}

/// What no batch comes to.
fn nothing_yet(alloc: Global, entry: &Entry) -> Front
    requires { IsEntryValid entry.now }
    ensures { (bytes : List ℕ) → IsLogFront entry.now bytes result }
{
    Front {
        at: 0,
        end: entry.start,
        snapshot: Some(0),
        max_ts: -1,
        batches: Vec::new(alloc),
    }
}

/// The batch that is next and may come there, and how many of the map's entries have begun with it.
fn next_batch(entry: &Entry, front: &Front, bytes: &[u8]) -> Option<(Placed, Option<usize>)>
    requires kept { IsEntryValid entry.now }
    requires front { IsLogFront entry.now bytes.now front.now }
    ensures some { IfSome result (λ next. ComesNext entry.now bytes.now front.now next) }
    ensures none { result ≡ None → NoBatchComes entry.now bytes.now front.now }
{
    let Found::Batch(head) = walk(bytes, front.at as usize) else {
        return None;
    };
    if !is_near(entry, front, &head) {
        return None;
    }
    let epoch = head.leader_epoch.cast_unsigned();
    if !has_epoch(entry, front.end, epoch) {
        return None;
    }
    let snapshot = begun_after(entry.map.entries(), front.snapshot, epoch, front.end);
    Some((place(&head, front), snapshot))
}

/// Whether the batch of a head begins where the front ends, ends within the copy and what a segment reaches, and isn't
/// past the copy's greatest timestamp.
fn is_near(entry: &Entry, front: &Front, head: &Head) -> bool
    requires kept { IsEntryValid entry.now }
    requires end_fits { front.now.end ≤ 2 ^ 62 }
    requires small { front.now.at < 2 ^ 31 }
    ensures { IsTrue result ↔ IsNextHead entry.now front.now head.now }
{
    let last = front.end + head.last_offset_delta.cast_unsigned() as u64;
    if head.base_offset.cast_unsigned() != front.end {
        return false;
    }
    if last > entry.end || last >= entry.start + REACH {
        return false;
    }
    if front.at as u64 + size_in(head) >= REACH {
        return false;
    }
    head.max_ts <= entry.max_ts
}

/// Whether a copy's map has this epoch at an offset.
fn has_epoch(entry: &Entry, offset: u64, epoch: u32) -> bool
    ensures { IsTrue result ↔ (epoch_at entry.now.map offset ≡ Some epoch) }
{
    entry.map.epoch_at(offset) == Some(epoch)
}

/// How many entries of a map have begun with a batch of this epoch more, at this base, if none is passed over.
fn begun_after(map: &[(u32, u64)], snapshot: Option<usize>, epoch: u32, base: u64) -> Option<usize>
    requires line { IsLine map.now }
    requires few { ForSome snapshot (λ n. n ≤ length map.now) }
    ensures { BeginsMore map.now snapshot epoch base result }
{
    match snapshot {
        Some(snapshot) => begun_with(map, snapshot, epoch, base),
        None => None,
    }
}

/// How many entries of a map have begun with a batch of this epoch more, at this start, where the map has it so.
fn begun_with(map: &[(u32, u64)], snapshot: usize, epoch: u32, start: u64) -> Option<usize>
    requires line { IsLine map.now }
    requires few { snapshot ≤ length map.now }
    ensures some { IfSome result (λ more. (more ≤ length map.now)
        × (with_epoch (take snapshot map.now) epoch start ≡ take more map.now)) }
    ensures none { result ≡ None → IsPrefix (with_epoch (take snapshot map.now) epoch start) map.now → ⊥ }
{
    let (front, rest) = map.split_at(snapshot);
    if last_epoch(front) == Some(epoch) {
        return Some(snapshot);
    }
    match rest {
        [next, ..] => {
            if next.0 == epoch && next.1 == start {
                Some(snapshot + 1)
            } else {
                None
            }
        }
        [] => None,
    }
}

/// The epoch of the last entry.
#[tactic(auto, using(epoch_line::proofs::Rising::last_entry_get))]
fn last_epoch(entries: &[(u32, u64)]) -> Option<u32>
    ensures { result ≡ last_epoch entries.now }
{
    match entries.last() {
        Some(entry) => Some(entry.0),
        None => None,
    }
}

/// The bytes of the batch that a head gives.
fn size_in(head: &Head) -> u64
    ensures { result ≡ size_in head.now }
{
    12 + head.batch_length.cast_unsigned() as u64
}

/// The batch of a head after a front.
fn place(head: &Head, front: &Front) -> Placed
    requires small { front.now.at + size_in head.now < 2 ^ 31 }
    requires last_fits { cast_unsigned w64 head.now.base_offset + cast_unsigned w32
        head.now.last_offset_delta < 2 ^ 64 }
    ensures { result ≡ placed_in front.now.at head.now }
{
    let delta = head.last_offset_delta.cast_unsigned() as u64;
    Placed {
        last: head.base_offset.cast_unsigned() + delta,
        max_ts: head.max_ts,
        to: front.at + size_in(head) as u32,
    }
}

/// Adds a batch.
fn gain(front: &mut Front, batch: Placed, snapshot: Option<usize>) -> Result<(), AllocError>
    requires { batch.last < 2 ^ 62 }
    ensures { OnOk result (FrontGains front.old (batch, snapshot) front.new) }
{
    front.batches.push(batch)?;
    front.max_ts = later_ts(front.at, front.max_ts, batch.max_ts);
    front.at = batch.to;
    front.end = batch.last + 1;
    front.snapshot = snapshot;
    Ok(())
}

/// The greatest timestamp with a batch more, of batches that take so many bytes.
fn later_ts(at: u32, ts: i64, own: i64) -> i64
    ensures { result ≡ later_ts at ts own }
{
    if at == 0 { own } else { ts.max(own) }
}

/// Whether the batches come to all that the entry says, in so many bytes.
fn is_all(entry: &Entry, size: usize, front: &Front) -> bool
    requires { entry.now.end < 2 ^ 62 }
    ensures { IsTrue result ↔ IsAll entry.now size front.now }
{
    if front.at == 0 || front.at as usize != size || front.at != entry.size {
        return false;
    }
    if front.end != entry.end + 1 || front.snapshot != Some(entry.map.entries().len()) {
        return false;
    }
    front.max_ts == entry.max_ts
}
