//! A log segment that grows, by what memory keeps of it: its offset index, and where each batch ends.
//!
//! The index is sparse and says where to begin a search. The ends of all batches let a cut, and a test of an offset,
//! read nothing.

ghost use Rattle.std.specs.Prelude.{◌≡◌, ◌+◌, ◌-◌, ◌<◌, ◌≤◌, ◌^◌, [], if◌then◌else◌, ◌↔◌};
ghost use Rattle.std.specs.Prelude.{IsTrue, OnOk, OnErr, length, take};
ghost use Rattle.std.specs.Int.{int_max};
ghost use Rattle.std.specs.Option.{ForSome};
ghost use Rattle.sparse_index.specs.Entries.{last_of};
ghost use Rattle.sparse_index.specs.Offsets.{Rises, find};
ghost use Rattle.segment_file.specs.Index.{placed_in, begun_at, is_due, with_offset, index_of};
ghost use Rattle.segment_file.specs.Growing.{AreBatchesLaid, end_after, size_after, ending_by};
ghost use Rattle.segment_file.specs.Growing.{latest_ts, with_batch, MayPush, BeginsSearch};
ghost use Rattle.segment_file.specs.Reach.{reach_at};

use crate::placed::{Placed, place};
use crate::reaching::reach_from;
use crate::walking::size_in;
use record_batch::Head;
use sparse_index::OffsetIndex;
use std::alloc::{AllocError, Global};
use std::marker::Model;

/// A segment's bytes, and its offsets past the base, are below 2^31.
const REACH: u64 = 1 << 31;

/// A segment that batches are appended to.
#[derive(Debug, Drop)]
pub struct Growing {
    base: u64,
    interval: u32,
    batches: Vec<Placed>,
    index: OffsetIndex,
    /// The greatest timestamp of the batches, or -1.
    latest: i64,
}

impl Model for Growing {
    ghost use Rattle.segment_file.specs.Growing.{Grown, IsGrowing};

    ghost Value = { Grown };

    ghost view = { λ g. record { base = g.base; interval = g.interval; batches = g.batches.items } };

    ghost invariant = { λ g. IsGrowing g.base g.interval g.batches.items g.index g.latest };
}

impl Growing {
    /// A segment with no batch yet. An index entry is made each time that more than the interval's bytes were appended.
    pub fn new(alloc: Global, base: u64, interval: u32) -> Growing
        requires { base ≤ 2 ^ 62 }
        ensures { result ≡ record { base = base; interval = interval; batches = [] } }
    {
        Growing {
            base,
            interval,
            batches: Vec::new(alloc),
            index: OffsetIndex::new(alloc, base),
            latest: -1,
        }
    }

    /// The offset at which the segment begins.
    pub fn base(&self) -> u64
        ensures { result ≡ self.now.base }
    {
        self.base
    }

    /// Whether the batch of a head may be added.
    pub fn takes(&self, head: &Head) -> bool
        ensures { IsTrue result ↔ MayPush self.now head.now }
    {
        let first = head.base_offset.cast_unsigned();
        let end = end_of(self.base, self.batches.as_slice());
        if first != end {
            return false;
        }
        let delta = head.last_offset_delta.cast_unsigned() as u64;
        if end + delta >= self.base + REACH {
            return false;
        }
        let size = size_of(self.batches.as_slice()) as u64;
        size + (size_in(head) as u64) < REACH
    }

    /// Adds the batch of a head at the segment's end. Fails only if memory runs out.
    pub fn push(&mut self, head: &Head) -> Result<(), AllocError>
        requires { MayPush self.old head.now }
        ensures ok { OnOk result (self.new ≡ with_batch self.old (placed_in (size_after 0 self.old.batches) head.now)) }
        ensures err { OnErr result (self.new ≡ self.old) }
    {
        let size = size_of(self.batches.as_slice());
        let batch = place(head, size);
        let latest = later(
            self.batches.as_slice().is_empty(),
            self.latest,
            batch.max_ts,
        );
        self.batches.reserve(1)?;
        mark(&mut self.index, self.interval, size, batch.last)?;
        self.batches.push_reserved(batch);
        self.latest = latest;
        Ok(())
    }

    /// Where to begin a walk that looks for an offset.
    pub fn find(&self, offset: u64) -> u32
        ensures entry { result ≡ (find (index_of self.now.base self.now.interval self.now.batches) offset).1 }
        ensures before { BeginsSearch self.now.base self.now.batches offset result }
    {
        self.index.find(offset).1
    }

    /// The bytes of all batches.
    pub fn size(&self) -> u64
        ensures { result ≡ size_after 0 self.now.batches }
    {
        size_of(self.batches.as_slice()) as u64
    }

    /// The offset after the last batch.
    pub fn end(&self) -> u64
        ensures { result ≡ end_after self.now.base self.now.batches }
    {
        end_of(self.base, self.batches.as_slice())
    }

    /// The greatest timestamp of all batches, or -1 where there are none.
    pub fn max_ts(&self) -> i64
        ensures { result ≡ latest_ts self.now.batches }
    {
        self.latest
    }

    /// The offset and the position at which the batches end that end at or below an offset: where the batch begins that
    /// holds it, or the segment's end.
    pub fn place_of(&self, offset: u64) -> (u64, u32)
        ensures offset { result.0 ≡ end_after self.now.base (ending_by offset self.now.batches) }
        ensures position { result.1 ≡ size_after 0 (ending_by offset self.now.batches) }
    {
        let (front, _) = self
            .batches
            .as_slice()
            .split_at(count_ending(self.base, self.batches.as_slice(), offset));
        (end_of(self.base, front), size_of(front))
    }

    /// Up to which position a reader needs the segment's bytes who cuts out the run at an offset: its first batch,
    /// those that end at or below a bound and a position, and the head of the next one where these end below the
    /// bound.
    pub fn reach(&self, offset: u64, bound: u64, top: u64) -> u32
        ensures reach { result ≡ reach_at bound top offset self.now.batches }
        ensures from { size_after 0 (ending_by offset self.now.batches) ≤ result }
    {
        let batches = self.batches.as_slice();
        let (front, rest) = batches.split_at(count_ending(self.base, batches, offset));
        reach_from(end_of(self.base, front), size_of(front), rest, bound, top)
    }

    /// Drops the batches that end past an offset. It takes no memory and reads nothing.
    pub fn cut_to(&mut self, end: u64)
        ensures { self.new ≡ record self.old { batches = ending_by end self.old.batches } }
    {
        let kept = count_ending(self.base, self.batches.as_slice(), end);
        let (front, _) = self.batches.as_slice().split_at(kept);
        let size = size_of(front);
        let latest = latest_in(self.batches.as_slice(), kept, self.latest);
        self.batches.truncate(kept);
        self.index.cut_to(size);
        self.latest = latest;
    }
}

/// The bytes of batches from the segment's beginning on.
pub(crate) fn size_of(batches: &[Placed]) -> u32
    ensures { result ≡ size_after 0 batches.now }
{
    match batches.last() {
        Some(batch) => batch.to,
        None => 0,
    }
}

/// The offset after batches from the segment's beginning on.
pub(crate) fn end_of(base: u64, batches: &[Placed]) -> u64
    requires { end_after base batches.now < 2 ^ 64 }
    ensures { result ≡ end_after base batches.now }
{
    match batches.last() {
        Some(batch) => batch.last + 1,
        None => base,
    }
}

/// The greatest timestamp of batches, or -1 where there are none.
fn latest_of(batches: &[Placed]) -> i64
    ensures { result ≡ latest_ts batches.now }
{
    let Some((first, others)) = batches.split_first() else {
        return -1;
    };
    let mut latest = first.max_ts;
    for batch in others {
        latest = latest.max(batch.max_ts);
    }
    latest
}

/// The greatest timestamp of the first so many batches, by that of all.
fn latest_in(batches: &[Placed], kept: usize, latest: i64) -> i64
    requires within { kept ≤ length batches.now }
    requires all { latest ≡ latest_ts batches.now }
    ensures { result ≡ latest_ts (take kept batches.now) }
{
    if kept < batches.len() {
        latest_of(&batches[..kept])
    } else {
        latest
    }
}

/// The greatest timestamp with a batch more, after others or as the first one.
fn later(first: bool, latest: i64, own: i64) -> i64
    ensures { result ≡ (if first then own else int_max latest own) }
{
    if first { own } else { latest.max(own) }
}

/// How many batches end at or below an offset: those in front.
fn count_ending(base: u64, batches: &[Placed], end: u64) -> usize
    requires { AreBatchesLaid base 0 batches.now }
    ensures within { result ≤ length batches.now }
    ensures front { take result batches.now ≡ ending_by end batches.now }
{
    let _first = base;
    batches.partition_point(|batch| batch.last < end)
}

/// Where the batch of the last entry begins, or the segment.
fn begun_at(index: &OffsetIndex) -> u32
    ensures { result ≡ begun_at (last_of index.now.entries) }
{
    match index.last() {
        Some((_, position)) => position,
        None => 0,
    }
}

/// Whether an entry is due before a batch is appended, in a segment of so many bytes.
pub(crate) fn is_due(index: &OffsetIndex, interval: u32, size: u32) -> bool
    ensures { result ≡ is_due interval index.now.entries size }
{
    size.saturating_sub(begun_at(index)) > interval
}

/// Makes the entry that is due before a batch of this last offset is appended, in a segment of so many bytes.
fn mark(index: &mut OffsetIndex, interval: u32, size: u32, last: u64) -> Result<(), AllocError>
    requires from_base { index.old.base ≤ last }
    requires near { last < index.old.base + 2 ^ 31 }
    requires small { size < 2 ^ 31 }
    requires above { ForSome (last_of index.old.entries) (λ entry. Rises entry (last - index.old.base, size)) }
    ensures ok { OnOk result (index.new
        ≡ record index.old { entries = with_offset index.old.base interval index.old.entries size last }) }
    ensures err { OnErr result (index.new ≡ index.old) }
{
    if is_due(index, interval, size) {
        index.push(last, size)
    } else {
        Ok(())
    }
}
