//! A segment's batches, read from its file when a log is opened. All of them are checked.

ghost use Rattle.std.specs.Prelude.{◌≡◌, ◌↔◌, ◌+◌, ◌<◌, ◌≤◌, ◌^◌, None, length, IsTrue, IfOk, IfErr, IfSome};
ghost use Rattle.tier_base.specs.declared.plain.FileName.TheVariants as file;
ghost use Rattle.local_log.specs.declared.refusal.OpenRefusal.TheVariants.{Damaged};
ghost use Rattle.local_log.specs.Parsing.{MayStand, StandsNext, NoBatchNext, IsParsed, ParseFails};

use crate::refusal::OpenRefusal;
use disk_model::FileName;
use epoch_line::Line;
use log_manifest::Extent;
use record_batch::Head;
use segment_file::{Found, Growing, walk};
use std::alloc::Global;
use tier_base::OFFSET_LIMIT;

/// How far offsets reach past a segment's base.
const REACH: u64 = 1 << 31;

/// The refusal of a segment's file at a place.
pub(crate) fn damaged(base: u64, at: u64) -> OpenRefusal
    ensures { result ≡ Damaged (file.Log base) at }
{
    OpenRefusal::Damaged {
        file: FileName::Log(base),
        at,
    }
}

/// Reads the front of a file as a segment whose epochs the leader epochs give.
pub(crate) fn parse(
    alloc: Global,
    extent: Extent,
    line: &Line,
    interval: u32,
    bytes: &[u8],
) -> Result<Growing, OpenRefusal>
    requires base { extent.base ≤ 2 ^ 62 }
    requires small { extent.len < 2 ^ 31 }
    ensures ok { IfOk result (λ segment. IsParsed line.now interval extent bytes.now segment) }
    ensures err { IfErr result (λ e. ParseFails line.now extent bytes.now e) }
{
    let (front, _) = bytes.split_at((extent.len as usize).min(bytes.len()));
    let mut segment = Growing::new(alloc, extent.base, interval);
    while segment.size() < extent.len as u64 {
        let at = segment.size() as usize;
        let Some(head) = next_head(front, at, segment.end(), extent.base, line) else {
            return Err(damaged(extent.base, at as u64));
        };
        segment.push(&head)?;
    }
    Ok(segment)
}

/// The head of the batch that is at a place of a segment's bytes, after batches that end there, and continues.
fn next_head(bytes: &[u8], at: usize, end: u64, base: u64, line: &Line) -> Option<Head>
    requires inside { at ≤ length bytes.now }
    requires from_base { base ≤ end }
    requires end_fits { end ≤ 2 ^ 62 }
    ensures some { IfSome result (λ head. StandsNext line.now base bytes.now at end head) }
    ensures none { result ≡ None → NoBatchNext line.now base bytes.now at end }
{
    let Found::Batch(head) = walk(bytes, at) else {
        return None;
    };
    if may_stand(&head, end, base, line) {
        Some(head)
    } else {
        None
    }
}

/// Whether a batch of this head may be in a segment, after batches that end there.
fn may_stand(head: &Head, end: u64, base: u64, line: &Line) -> bool
    requires from_base { base ≤ end }
    requires end_fits { end ≤ 2 ^ 62 }
    ensures { IsTrue result ↔ MayStand line.now base end head.now }
{
    let delta = head.last_offset_delta.cast_unsigned() as u64;
    let epoch = head.leader_epoch.cast_unsigned();
    let last = end + delta;
    if head.base_offset.cast_unsigned() != end {
        return false;
    }
    if last - base >= REACH {
        return false;
    }
    if last >= OFFSET_LIMIT {
        return false;
    }
    line.epoch_at(end) == Some(epoch)
}
