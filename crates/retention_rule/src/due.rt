//! The retention rule.
//!
//! The sizes are summed once, and each segment that is due is subtracted.

ghost use Rattle.std.specs.Prelude.{◌≡◌, ◌<◌, ◌≤◌, ◌^◌, ◌-◌, ◌*◌, ◌||◌, ◌&&◌, ◌-ℤ◌, pos, int_le, int_lt, length};
ghost use Rattle.retention_rule.specs.Due.{size_of, is_old, is_enough, local_due, start_due};

use tier_base::{Item, Keep};

/// Whether the oldest closed segment of the local log is due. `open_size` is the size of the open segment in bytes,
/// `now` the time in milliseconds, `start` the log start offset.
pub fn local_due(items: &[Item], open_size: u64, now: i64, keep: Keep, start: u64) -> bool
    ensures { result ≡ local_due items.now open_size now keep start }
{
    let Some((first, others)) = items.split_first() else {
        return false;
    };
    let left = open_size as u128 + total(others);
    first.last < start || is_due(first, left, now, keep)
}

/// How many of the oldest segments are due. `rest` is the size in bytes of what comes after them.
pub fn start_due(items: &[Item], rest: u64, now: i64, keep: Keep) -> usize
    ensures count { result ≡ start_due items.now rest now keep }
    ensures within { result ≤ length items.now }
{
    let mut left = rest as u128 + total(items);
    for (i, item) in items.iter().enumerate() {
        left -= item.size as u128;
        if !is_due(item, left, now, keep) {
            return i;
        }
    }
    items.len()
}

/// Whether a segment goes that leaves so many bytes.
fn is_due(item: &Item, left: u128, now: i64, keep: Keep) -> bool
    ensures { result ≡ (is_old item.now now keep || is_enough left keep) }
{
    is_old(item, now, keep) || is_enough(left, keep)
}

/// Whether a segment is older than the limit.
fn is_old(item: &Item, now: i64, keep: Keep) -> bool
    ensures { result ≡ is_old item.now now keep }
{
    is_longer(age(now, item.max_ts), keep.ms)
}

/// How long ago a timestamp is. One that is yet to come gives a negative age.
fn age(now: i64, timestamp: i64) -> i128
    ensures { result ≡ now -ℤ timestamp }
{
    now as i128 - timestamp as i128
}

/// Whether an age passes a limit, where there is one.
fn is_longer(age: i128, limit: i64) -> bool
    ensures { result ≡ (int_le (pos 0) limit && int_lt limit age) }
{
    limit >= 0 && age > limit as i128
}

/// Whether so many bytes reach the limit.
fn is_enough(left: u128, keep: Keep) -> bool
    ensures { result ≡ is_enough left keep }
{
    keep.bytes >= 0 && left >= keep.bytes as u128
}

/// The sizes of segments together.
fn total(items: &[Item]) -> u128
    ensures value { result ≡ size_of items.now }
    ensures fits { result ≤ (2 ^ 64 - 1) * (2 ^ 64 - 1) }
{
    let mut total: u128 = 0;
    for item in items {
        total += item.size as u128;
    }
    total
}
