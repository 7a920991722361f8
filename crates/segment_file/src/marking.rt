//! Both indexes of a closed segment, made in one pass over the heads of its batches.

ghost use Rattle.std.specs.Prelude.{◌≡◌, ◌+◌, ◌<◌, ◌≤◌, ◌^◌, IsOk, IfOk, OnOk, OnErr, Ok, drop, length, negsuc, ◌≤ℤ◌};
ghost use Rattle.std.specs.Option.{ForSome};
ghost use Rattle.record_batch.specs.Check.{headed};
ghost use Rattle.sparse_index.specs.Entries.{last_of};
ghost use Rattle.segment_file.specs.Closed.{AreIndexes};
ghost use Rattle.segment_file.specs.Index.{time_of, with_time, raised, marked, closing};
ghost use Rattle.segment_file.specs.Marking.{HasSegment, MayMark, TopFits, IsFrom, marks_in};

use crate::growing::is_due;
use crate::placed::{Placed, place};
use crate::walking::size_in;
use record_batch::{Head, read_head};
use sparse_index::{OffsetIndex, TimeIndex};
use std::alloc::{AllocError, Global};

/// Both indexes on their way, and the greatest timestamp so far with the last offset of the first batch that has it.
#[derive(Drop)]
pub(crate) struct Marking {
    pub offsets: OffsetIndex,
    pub times: TimeIndex,
    pub top: (i64, u64),
}

/// Both indexes of a segment's bytes.
pub(crate) fn indexes_of(
    alloc: Global,
    base: u64,
    bytes: &[u8],
    interval: u32,
) -> Result<(OffsetIndex, TimeIndex), AllocError>
    requires base_fits { base ≤ 2 ^ 62 }
    requires segment { HasSegment base bytes.now }
    ensures { IfOk result (λ x. AreIndexes base bytes.now interval x.0 x.1) }
{
    let mut marking = Marking {
        offsets: OffsetIndex::new(alloc, base),
        times: TimeIndex::new(alloc, base),
        top: (-1, base),
    };
    let mut at: u32 = 0;
    while (at as usize) < bytes.len() {
        let head = head_at(bytes, at as usize);
        let batch = place(&head, at);
        add(base, &mut marking, interval, at, batch)?;
        at = batch.to;
    }
    let mut times = marking.times;
    add_time(base, &mut times, marking.top)?;
    Ok((marking.offsets, times))
}

/// The head that is at a place.
fn head_at(bytes: &[u8], at: usize) -> Head
    requires inside { at ≤ length bytes.now }
    requires stands { IsOk (headed (drop at bytes.now)) }
    ensures { headed (drop at bytes.now) ≡ Ok result }
{
    let (_, rest) = bytes.split_at(at);
    let Ok(head) = read_head(rest) else {
        unreachable!()
    };
    head
}

/// Adds a batch, after so many bytes.
fn add(
    base: u64,
    marking: &mut Marking,
    interval: u32,
    size: u32,
    batch: Placed,
) -> Result<(), AllocError>
    requires from { IsFrom base marking.old }
    requires may { MayMark base (marks_in size marking.old) batch }
    ensures ok { OnOk result (marks_in batch.to marking.new ≡ marked base interval (marks_in size marking.old) batch) }
    ensures from { OnOk result (IsFrom base marking.new) }
{
    marking.top = raised(marking.top, batch);
    if is_due(&marking.offsets, interval, size) {
        add_time(base, &mut marking.times, marking.top)?;
        marking.offsets.push(batch.last, size)?;
    }
    Ok(())
}

/// The greatest timestamp with a batch more.
fn raised(top: (i64, u64), batch: Placed) -> (i64, u64)
    ensures { result ≡ raised top batch }
{
    if batch.max_ts > top.0 {
        (batch.max_ts, batch.last)
    } else {
        top
    }
}

/// Adds the time entry of the greatest timestamp, where one is due.
fn add_time(base: u64, times: &mut TimeIndex, top: (i64, u64)) -> Result<(), AllocError>
    requires from { times.old.base ≡ base }
    requires from_base { base ≤ top.1 }
    requires near { top.1 < base + 2 ^ 31 }
    requires above { ForSome (last_of times.old.entries) (λ moment. base + moment.1 ≤ top.1) }
    ensures { OnOk result (times.new ≡ record { base = base; entries = with_time base times.old.entries top }) }
{
    if last_time(times) < top.0 {
        times.push(top.0, top.1)
    } else {
        Ok(())
    }
}

/// The last entry's timestamp, or -1.
fn last_time(times: &TimeIndex) -> i64
    ensures last { result ≡ time_of (last_of times.now.entries) }
    ensures bound { negsuc 0 ≤ℤ result }
{
    match times.last() {
        Some((ts, _)) => ts,
        None => -1,
    }
}
