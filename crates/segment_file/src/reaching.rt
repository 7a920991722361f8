//! How far a reader of a run needs a segment's bytes, by where its batches end.
//!
//! The run's last batch is found by halving. If the limit ends the run, the next batch's head is needed too, since it
//! shows that the batch would exceed the limit.

ghost use Rattle.std.specs.Prelude.{◌≡◌, ◌<◌, ◌≤◌, ◌^◌, ◌+◌, length, take};
ghost use Rattle.segment_file.specs.Growing.{AreBatchesLaid, end_after, size_after};
ghost use Rattle.segment_file.specs.Reach.{fitting, run_reach, reach_from};

use crate::growing::end_of;
use crate::placed::Placed;

/// The bytes of a batch's head.
const HEAD_SIZE: u32 = 61;

/// Up to which position batches are needed that begin at an offset and a position.
pub(crate) fn reach_from(first: u64, at: u32, batches: &[Placed], bound: u64, top: u64) -> u32
    requires laid { AreBatchesLaid first at batches.now }
    requires near { end_after first batches.now < 2 ^ 64 }
    requires small { size_after at batches.now < 2 ^ 31 }
    ensures reach { result ≡ reach_from bound top at batches.now }
    ensures from { at ≤ result }
{
    let Some((one, others)) = batches.split_first() else {
        return at;
    };
    run_reach(one.last + 1, one.to, others, bound, top)
}

/// Up to which position a run is needed that ends at an offset and a position by now, with these batches after it.
fn run_reach(end: u64, at: u32, behind: &[Placed], bound: u64, top: u64) -> u32
    requires laid { AreBatchesLaid end at behind.now }
    requires near { end_after end behind.now < 2 ^ 64 }
    requires small { size_after at behind.now < 2 ^ 31 }
    ensures reach { result ≡ run_reach bound top end at behind.now }
    ensures from { at ≤ result }
{
    let fit = count_fitting(end, at, behind, bound, top);
    let (run, _) = behind.split_at(fit);
    let to = size_from(at, run);
    if fit < behind.len() && end_of(end, run) < bound {
        to + HEAD_SIZE
    } else {
        to
    }
}

/// The position after batches that begin at one.
fn size_from(at: u32, batches: &[Placed]) -> u32
    ensures { result ≡ size_after at batches.now }
{
    match batches.last() {
        Some(batch) => batch.to,
        None => at,
    }
}

/// How many batches end at or below a bound and a position: those in front.
fn count_fitting(end: u64, at: u32, batches: &[Placed], bound: u64, top: u64) -> usize
    requires { AreBatchesLaid end at batches.now }
    ensures within { result ≤ length batches.now }
    ensures front { take result batches.now ≡ fitting bound top batches.now }
{
    let (_end, _at) = (end, at);
    batches.partition_point(|batch| batch.last < bound && batch.to as u64 <= top)
}
