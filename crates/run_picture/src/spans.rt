//! The leader epochs of a local log.

ghost use Rattle.std.specs.Prelude.{All, OnOk, IfOk};
ghost use Rattle.run_picture.specs.Spans.{IsSpanOf};

use run_story::{EpochStart, LogState};
use std::alloc::{AllocError, Global};

/// Batches of one leader epoch in a local log, flushed or not.
#[derive(Clone, Copy)]
pub struct Span {
    pub epoch: u64,
    pub is_flushed: bool,
    pub start: u64,
    /// Past the last offset.
    pub end: u64,
}

/// Appends the offsets of an epoch that are in the local log, cut where what is flushed ends.
fn push_epoch(
    spans: &mut Vec<Span>,
    log: &LogState,
    epoch: u64,
    start: u64,
    end: u64,
) -> Result<(), AllocError>
    requires { All (IsSpanOf log.now) spans.old.items }
    ensures { OnOk result (All (IsSpanOf log.now) spans.new.items) }
{
    let start = start.max(log.local_start);
    let end = end.min(log.end);
    let flushed = log.flushed_end.max(start).min(end);
    if start < flushed {
        spans.push(Span {
            epoch,
            is_flushed: true,
            start,
            end: flushed,
        })?;
    }
    let start = start.max(flushed);
    if start < end {
        spans.push(Span {
            epoch,
            is_flushed: false,
            start,
            end,
        })?;
    }
    Ok(())
}

/// Returns the leader epochs of a local log, in their order.
pub fn spans(alloc: Global, epochs: &[EpochStart], log: &LogState) -> Result<Vec<Span>, AllocError>
    ensures { IfOk result (λ spans. All (IsSpanOf log.now) spans.items) }
{
    let mut spans = Vec::new(alloc);
    let mut last = EpochStart {
        log: log.epoch,
        epoch: 0,
        start: 0,
    };
    for start in epochs {
        if start.log == log.epoch {
            push_epoch(&mut spans, log, last.epoch, last.start, start.start)?;
            last = *start;
        }
    }
    push_epoch(&mut spans, log, last.epoch, last.start, log.end)?;
    Ok(spans)
}
