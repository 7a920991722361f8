//! The run of batches that is cut out of a segment's bytes. The module Run of specs/ says which.
//!
//! The batches are gone through from the first one on: up to the one that holds the offset, and then as far as the
//! bound and the limit allow. The bound is the smaller of the high watermark and the piece's end. Whether the run has
//! ended is known before the next batch is checked, by its head.

ghost use Rattle.std.specs.Prelude.{◌≡◌, ◌≢◌, ◌↔◌, ◌-◌, ◌<◌, ◌≤◌, length, drop, min, Some, None, ℕ, IsTrue, IfSome};
ghost use Rattle.std.specs.Option.{ForSome};
ghost use Rattle.tier_base.specs.declared.plain.Stop.TheVariants as Stop;
ghost use Rattle.record_batch.specs.Check.{headed};
ghost use Rattle.segment_file.specs.Run.{MayBeginAt, NoBatch, would_pass, AnswersRunAt};
ghost use Rattle.segment_file.specs.Going.{IsNextBatch, IsGoing, GoingFrom, Done};

use crate::walking::{Found, size_in, walk};
use record_batch::read_head;
use tier_base::Stop;

/// A run: where its bytes begin and end, the offset after it, and why it ends.
#[derive(Clone, Copy, Debug, PartialEq, Eq)]
pub struct Cutout {
    pub from: usize,
    pub to: usize,
    pub next: u64,
    pub stop: Stop,
}

/// The first place, before the run's end, where no batch follows the one before.
#[derive(Clone, Copy, Debug, PartialEq, Eq)]
pub struct BadAt {
    pub at: usize,
}

/// A run on its way: where it begins, how far it goes by now, and the offset after its last batch.
#[derive(Clone, Copy)]
pub(crate) struct Going {
    from: usize,
    to: usize,
    end: u64,
}

/// Cuts out the run at an offset. `BadAt` has the causes of a failure.
pub fn take_run(
    bytes: &[u8],
    offset: u64,
    limit: u64,
    mark: u64,
    piece_end: u64,
) -> Result<Cutout, BadAt>
    requires mark { offset < mark }
    requires piece { offset < piece_end }
    ensures { AnswersRunAt bytes.now offset limit mark piece_end result }
{
    let bound = mark.min(piece_end);
    let first = snapshot(bytes, offset, bound)?;
    let run = extended(bytes, offset, limit, bound, first)?;
    Ok(Cutout {
        from: run.from,
        to: run.to,
        next: run.end,
        stop: stop_of(run.end, mark, piece_end),
    })
}

/// The run of one batch, the one that holds the offset.
fn snapshot(bytes: &[u8], offset: u64, bound: u64) -> Result<Going, BadAt>
    requires { offset < bound }
    ensures { (limit : ℕ) → GoingFrom bytes.now offset limit bound result }
{
    let mut at = 0;
    let mut last = None;
    loop {
        let Some((to, end)) = follower(bytes, at, last, offset, bound) else {
            return Err(BadAt { at });
        };
        if offset < end {
            return Ok(Going { from: at, to, end });
        }
        at = to;
        last = Some(end);
    }
}

/// The run with as many further batches as the bound and the limit allow.
fn extended(bytes: &[u8], offset: u64, limit: u64, bound: u64, first: Going) -> Result<Going, BadAt>
    requires below { offset < bound }
    requires first { IsGoing bytes.now offset limit bound first }
    ensures { Done bytes.now offset limit bound result }
{
    let mut run = first;
    while run.end < bound {
        if would_pass(bytes, run.to, run.to - run.from, limit) {
            return Ok(run);
        }
        let Some((to, end)) = follower(bytes, run.to, Some(run.end), offset, bound) else {
            return Err(BadAt { at: run.to });
        };
        run = Going {
            from: run.from,
            to,
            end,
        };
    }
    Ok(run)
}

/// Whether the batch of the head at a place would pass the limit, after so many bytes.
fn would_pass(bytes: &[u8], at: usize, size: usize, limit: u64) -> bool
    requires at { at ≤ length bytes.now }
    requires size { size ≤ at }
    ensures { result ≡ would_pass limit size (headed (drop at bytes.now)) }
{
    let (_, rest) = bytes.split_at(at);
    match read_head(rest) {
        Ok(head) => limit < (size + size_in(&head)) as u64,
        Err(_) => false,
    }
}

/// Whether a batch with this base may follow one that ends there.
fn begins(last: Option<u64>, offset: u64, base: u64) -> bool
    ensures { IsTrue result ↔ MayBeginAt last offset base }
{
    match last {
        None => base <= offset,
        Some(end) => base == end,
    }
}

/// Where a batch ends that is at a place and follows, and the offset after it.
fn follower(
    bytes: &[u8],
    at: usize,
    last: Option<u64>,
    offset: u64,
    bound: u64,
) -> Option<(usize, u64)>
    requires inside { at ≤ length bytes.now }
    requires below { offset < bound }
    requires low { ForSome last (λ end. end < bound) }
    ensures some { IfSome result (λ x. IsNextBatch last offset bound bytes.now at x.0 x.1) }
    ensures none { result ≡ None → NoBatch last offset bound (drop at bytes.now) }
{
    let Found::Batch(head) = walk(bytes, at) else {
        return None;
    };
    let base = head.base_offset.cast_unsigned();
    if !begins(last, offset, base) {
        return None;
    }
    let delta = head.last_offset_delta.cast_unsigned() as u64;
    if bound - base <= delta {
        return None;
    }
    Some((at + size_in(&head), base + delta + 1))
}

/// Why a run ends that ends there.
fn stop_of(end: u64, mark: u64, piece_end: u64) -> Stop
    ensures mark { end ≡ mark → result ≡ Stop.Mark }
    ensures piece { end ≢ mark → end ≡ piece_end → result ≡ Stop.Piece }
    ensures limit { end ≢ mark → end ≢ piece_end → result ≡ Stop.Limit }
{
    if end == mark {
        Stop::Mark
    } else if end == piece_end {
        Stop::Piece
    } else {
        Stop::Limit
    }
}
