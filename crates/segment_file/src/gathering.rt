//! A segment's bytes read in one pass, batch by batch: what the batches so far come to.

ghost use Rattle.std.specs.Prelude.{◌≡◌, ◌↔◌, ◌+◌, ◌<◌, ◌≤◌, ◌^◌, ℕ, List, IsTrue, IfSome, OnOk, OnErr, None};
ghost use Rattle.std.specs.Option.{ForSome};
ghost use Rattle.epoch_line.specs.Line.{last_entry};
ghost use Rattle.segment_file.specs.Gathering.{MayComeNext, IsGathered, GoesOnAt, NothingAt};
ghost use Rattle.segment_file.specs.Gathering.{Gathers, later_ts, with_epoch, gained};

use crate::refusal::ClosedRefusal;
use crate::walking::{Found, size_in, walk};
use epoch_line::Line;
use record_batch::Head;
use std::alloc::{AllocError, Global};
use tier_base::OFFSET_LIMIT;

/// The greatest size of a segment, and how far offsets reach past its base: below 2^31.
const REACH: u64 = 1 << 31;
/// Epochs are below 2^31.
const EPOCHS: u32 = 1 << 31;

/// What the batches up to a place come to: the place, the offset after them, the last one's epoch, their greatest
/// timestamp, and their leader epochs.
#[derive(Drop)]
pub(crate) struct Gathered {
    pub at: usize,
    pub end: u64,
    pub epoch: u32,
    pub max_ts: i64,
    pub epochs: Line,
}

/// What all batches of a segment's bytes come to.
pub(crate) fn gather(alloc: Global, base: u64, bytes: &[u8]) -> Result<Gathered, ClosedRefusal>
    requires { base ≤ 2 ^ 62 }
    ensures { Gathers base bytes.now result }
{
    let mut front = nothing_yet(alloc, base);
    while front.at < bytes.len() {
        let Some(head) = next_head(base, bytes, &front) else {
            return Err(ClosedRefusal::BadAt { at: front.at });
        };
        match gain(base, &mut front, &head) {
            Ok(()) => {}
            Err(_) => return Err(ClosedRefusal::NoMemory),
        }
    }
    if front.at == 0 {
        return Err(ClosedRefusal::BadAt { at: 0 });
    }
    Ok(front)
}

/// What no batch comes to.
fn nothing_yet(alloc: Global, base: u64) -> Gathered
    requires { base ≤ 2 ^ 62 }
    ensures { (bytes : List ℕ) → IsGathered base bytes result }
{
    Gathered {
        at: 0,
        end: base,
        epoch: 0,
        max_ts: -1,
        epochs: Line::new(alloc),
    }
}

/// The head of the batch that is next and continues.
fn next_head(base: u64, bytes: &[u8], front: &Gathered) -> Option<Head>
    requires base_fits { base ≤ 2 ^ 62 }
    requires front { IsGathered base bytes.now front.now }
    ensures some { IfSome result (λ head. GoesOnAt base bytes.now front.now head) }
    ensures none { result ≡ None → NothingAt base bytes.now front.now }
{
    let Found::Batch(head) = walk(bytes, front.at) else {
        return None;
    };
    if may_go_on(base, front, &head) {
        Some(head)
    } else {
        None
    }
}

/// Whether a batch of this head continues.
fn may_go_on(base: u64, front: &Gathered, head: &Head) -> bool
    requires base_fits { base ≤ 2 ^ 62 }
    requires end_fits { front.now.end ≤ 2 ^ 62 }
    requires small { front.now.at < 2 ^ 31 }
    ensures { IsTrue result ↔ MayComeNext base front.now.at front.now.end front.now.epoch head.now }
{
    let delta = head.last_offset_delta.cast_unsigned() as u64;
    let epoch = head.leader_epoch.cast_unsigned();
    let last = front.end + delta;
    if head.base_offset.cast_unsigned() != front.end {
        return false;
    }
    if last >= (base + REACH).min(OFFSET_LIMIT) {
        return false;
    }
    if epoch < front.epoch {
        return false;
    }
    if epoch >= EPOCHS {
        return false;
    }
    ((front.at + size_in(head)) as u64) < REACH
}

/// Adds the batch of a head that continues.
fn gain(base: u64, front: &mut Gathered, head: &Head) -> Result<(), AllocError>
    requires may { MayComeNext base front.old.at front.old.end front.old.epoch head.now }
    requires epochs { ForSome (last_entry front.old.epochs)
        (λ entry. (entry.0 ≡ front.old.epoch) × (entry.1 < front.old.end)) }
    ensures { OnOk result (front.new ≡ gained front.old head.now) }
{
    let _from = base;
    let epoch = head.leader_epoch.cast_unsigned();
    begin_epoch(&mut front.epochs, epoch, front.end)?;
    front.max_ts = later_ts(front.at, front.max_ts, head.max_ts);
    front.at += size_in(head);
    front.end = front.end + head.last_offset_delta.cast_unsigned() as u64 + 1;
    front.epoch = epoch;
    Ok(())
}

/// The greatest timestamp with a batch more, of batches that take so many bytes.
fn later_ts(at: usize, ts: i64, own: i64) -> i64
    ensures { result ≡ later_ts at ts own }
{
    if at == 0 { own } else { ts.max(own) }
}

/// Begins an epoch, unless it has begun.
fn begin_epoch(line: &mut Line, epoch: u32, start: u64) -> Result<(), AllocError>
    requires epoch_fits { epoch < 2 ^ 31 }
    requires start_fits { start ≤ 2 ^ 62 }
    requires above { ForSome (last_entry line.old) (λ entry. (entry.0 ≤ epoch) × (entry.1 < start)) }
    ensures { OnOk result (line.new ≡ with_epoch line.old epoch start) }
{
    if line.last_epoch() == Some(epoch) {
        return Ok(());
    }
    line.push(epoch, start)
}
