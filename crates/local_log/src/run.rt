//! A run of batches on its way into a log: how much of it fits one segment, and what it makes of the segment and of the
//! leader epochs. Its batches were checked before, so only their heads are read.

ghost use Rattle.std.specs.Prelude.{◌≡◌, ◌+◌, ◌≤◌, ◌<◌, ◌^◌, List, ℕ, ◌||◌, nat_le};
ghost use Rattle.std.specs.Prelude.{IsOk, IfOk, OnErr, Ok, length, drop};
ghost use Rattle.std.specs.Int.{w32, w64, cast_unsigned};
ghost use Rattle.std.specs.Option.{ForSome};
ghost use Rattle.record_batch.specs.Check.{headed};
ghost use Rattle.epoch_line.specs.Line.{last_epoch, assign};
ghost use Rattle.log_terms.specs.Batch.{last_of};
ghost use Rattle.local_log.specs.Stored.{size_of, end_of};
ghost use Rattle.local_log.specs.Listing.{IsLaidOut};
ghost use Rattle.local_log.specs.Run.{IsRunFor, rolls_before, snapshot, first_size};
ghost use Rattle.local_log.specs.Taking.{head_asks, line_or, IsTakenIn, HasFront};

use epoch_line::Line;
use record_batch::{Head, read_head};
use segment_file::Growing;
use std::alloc::{AllocError, Global};
use tier_base::OFFSET_LIMIT;

/// How far offsets reach past a segment's base.
const REACH: u64 = 1 << 31;

/// What a log asks of a batch: its offsets, its size and its leader epoch.
#[derive(Clone, Copy)]
pub(crate) struct Asked {
    pub base: u64,
    pub last: u64,
    pub size: u64,
    pub epoch: u32,
}

/// The head of the batch that is at a place.
pub(crate) fn head_at(run: &[u8], at: usize) -> Head
    requires inside { at ≤ length run.now }
    requires stands { IsOk (headed (drop at run.now)) }
    ensures { headed (drop at run.now) ≡ Ok result }
{
    let (_, rest) = run.split_at(at);
    let Ok(head) = read_head(rest) else {
        unreachable!()
    };
    head
}

/// What a log asks of the batch of a head.
fn asked_of(head: &Head) -> Asked
    requires { cast_unsigned w64 head.now.base_offset + cast_unsigned w32 head.now.last_offset_delta < 2 ^ 64 }
    ensures { result ≡ head_asks head.now }
{
    let base = head.base_offset.cast_unsigned();
    Asked {
        base,
        last: base + head.last_offset_delta.cast_unsigned() as u64,
        size: 12 + head.batch_length.cast_unsigned() as u64,
        epoch: head.leader_epoch.cast_unsigned(),
    }
}

/// What a log asks of the first batch of a run.
pub(crate) fn first_asked(run: &[u8]) -> Asked
    requires { (end : ℕ) × (line : List (ℕ × ℕ)) × (end ≤ 2 ^ 62) × IsRunFor end line run.now }
    ensures last { result.last ≡ last_of run.now }
    ensures size { result.size ≡ first_size run.now }
    ensures base { result.base ≤ result.last }
{
    asked_of(&head_at(run, 0))
}

/// Whether the log rolls before such a batch, after so many bytes of a segment.
pub(crate) fn rolls_before(most: u32, base: u64, size: u64, len: u64, last: u64) -> bool
    requires from_base { base ≤ last }
    requires small { size + len < 2 ^ 64 }
    ensures { result ≡ rolls_before most base size len last }
{
    size > 0 && (size + len > most as u64 || last - base >= REACH)
}

/// The line with the epoch of a batch, where it hasn't begun. The line is copied before it is changed.
fn with_epoch(
    alloc: Global,
    line: &Line,
    newer: Option<Line>,
    epoch: u32,
    start: u64,
) -> Result<Option<Line>, AllocError>
    requires epoch_fits { epoch < 2 ^ 31 }
    requires start_fits { start ≤ 2 ^ 62 }
    requires above { ForSome (last_epoch (line_or line.now newer)) (λ last. last ≤ epoch) }
    ensures { IfOk result (λ next. line_or line.now next
        ≡ snapshot (line_or line.now newer) epoch start) }
{
    let last = match &newer {
        Some(newer) => newer.last_epoch(),
        None => line.last_epoch(),
    };
    if last == Some(epoch) {
        return Ok(newer);
    }
    let mut next = match newer {
        Some(newer) => newer,
        None => line.copy(alloc)?,
    };
    next.assign(epoch, start)?;
    Ok(Some(next))
}

/// Adds as many batches of a run to a segment as fit it, and returns their bytes, and the line where it has changed.
fn gather(
    alloc: Global,
    segment: &mut Growing,
    line: &Line,
    run: &[u8],
    most: u32,
) -> Result<(usize, Option<Line>), AllocError>
    requires laid { IsLaidOut segment.old }
    requires low { end_of segment.old ≤ 2 ^ 62 }
    requires most { most ≤ 16777216 }
    requires run { IsRunFor (end_of segment.old) line.now run.now }
    ensures ok { IfOk result (λ taken. IsTakenIn segment.old segment.new line.now run.now most taken) }
    ensures err { OnErr result (HasFront segment.old segment.new) }
{
    let mut at = 0;
    let mut newer = None;
    while at < run.len() {
        let head = head_at(run, at);
        let batch = asked_of(&head);
        if stops(most, segment, batch) {
            break;
        }
        newer = with_epoch(alloc, line, newer, batch.epoch, batch.base)?;
        segment.push(&head)?;
        at += batch.size as usize;
    }
    Ok((at, newer))
}

/// Whether a batch fits no segment with what comes before it, or past the last offset.
fn stops(most: u32, segment: &Growing, batch: Asked) -> bool
    requires from_base { segment.now.base ≤ batch.last }
    requires small { size_of segment.now + batch.size < 2 ^ 64 }
    ensures { result ≡ (rolls_before most segment.now.base (size_of segment.now) batch.size batch.last
        || nat_le (2 ^ 62) batch.last) }
{
    rolls_before(most, segment.base(), segment.size(), batch.size, batch.last)
        || batch.last >= OFFSET_LIMIT
}

/// Adds as many batches of a run to a segment as fit it. Running out of memory leaves the segment as it was.
pub(crate) fn take_in(
    alloc: Global,
    segment: &mut Growing,
    line: &Line,
    run: &[u8],
    most: u32,
) -> Result<(usize, Option<Line>), AllocError>
    requires laid { IsLaidOut segment.old }
    requires low { end_of segment.old ≤ 2 ^ 62 }
    requires most { most ≤ 16777216 }
    requires run { IsRunFor (end_of segment.old) line.now run.now }
    ensures ok { IfOk result (λ taken. IsTakenIn segment.old segment.new line.now run.now most taken) }
    ensures err { OnErr result (segment.new ≡ segment.old) }
{
    let end = segment.end();
    match gather(alloc, segment, line, run, most) {
        Ok(taken) => Ok(taken),
        Err(error) => {
            segment.cut_to(end);
            Err(error)
        }
    }
}
