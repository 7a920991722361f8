//! Ends of logs, and what is stale.
//!
//! An end is a number of 128 bits here: that of a log whose last batch has the greatest offsets has no 64.

ghost use Rattle.std.specs.Prelude.{◌≡◌, ◌≤◌, ◌<◌, ◌^◌, ◌+◌, ◌==◌, take, drop, length};
ghost use Rattle.log_terms.specs.Batch.{base_of, last_of, last_offset_delta_of};
ghost use Rattle.log_terms.specs.Log.{IsConsecutive, end_of, up_to, from_offset};

use crate::part::Part;
use plain_log::{base_offset, last_delta};
use shared_log::Batches;

/// The offset of a batch's last record.
pub(crate) fn last_offset(batch: &[u8]) -> u128
    ensures is { result ≡ last_of batch.now }
    ensures small { result < 2 ^ 65 }
{
    u128::from(base_offset(batch)) + u128::from(last_delta(batch))
}

/// The end of a log.
pub(crate) fn end(log: &Batches) -> u128
    ensures is { result ≡ end_of log.now }
    ensures small { result ≤ 2 ^ 65 }
{
    end_in(&Part::of(log))
}

/// The end of a part of one.
pub(crate) fn end_in(log: &Part) -> u128
    ensures is { result ≡ end_of log.now }
    ensures small { result ≤ 2 ^ 65 }
{
    let count = log.len();
    if count == 0 {
        return 0;
    }
    last_offset(log.get(count - 1).as_slice()) + 1
}

/// How many batches of a log end at or below an offset: those from there on are the ones from the offset on.
pub(crate) fn count_up_to(n: u64, log: &Part) -> usize
    requires { IsConsecutive 0 log.now }
    ensures within { result ≤ length log.now }
    ensures before { up_to n log.now ≡ take result log.now }
    ensures after { from_offset n log.now ≡ drop result log.now }
{
    let mut low = 0;
    let mut high = log.len();
    while low < high {
        let middle = low + (high - low) / 2;
        if last_offset(log.get(middle).as_slice()) < u128::from(n) {
            low = middle + 1;
        } else {
            high = middle;
        }
    }
    low
}
