//! Which bytes of a remote segment's log a fetch needs, as the segment's offset index shows. The module Span of
//! specs/ says why.
//!
//! The entries past an offset are found by halving, and none is gone through.

ghost use Rattle.std.specs.Prelude.{◌≡◌, ◌<◌, Some, option_copied};
ghost use Rattle.tier_fetch.specs.Span.{past, begin_at, span_of};

use crate::turn::Span;
use sparse_index::OffsetIndex;

/// The bytes of a batch's head.
const HEAD_BYTES: u64 = 61;

/// The bytes that are needed of an offset, in a piece that ends there.
pub fn span_of(index: &OffsetIndex, offset: u64, limit: u32, end: u64) -> Span
    requires { offset < end }
    ensures { result ≡ span_of index.now offset limit end }
{
    let (_, from) = index.find(offset);
    let behind = past(index, offset);
    let first = begin_at(index, behind.get(0));
    let second = begin_at(index, behind.get(1));
    let piece_end = begin_at(index, past(index, end - 1).get(0));
    let limit_end = first.saturating_add(limit as u64).max(second);
    let to = limit_end.min(piece_end).saturating_add(HEAD_BYTES);
    Span {
        from,
        most: to.saturating_sub(from as u64),
    }
}

/// The entries past an offset, by their relative offsets.
fn past(index: &OffsetIndex, offset: u64) -> &[u32]
    ensures { result.now ≡ past index.now offset }
{
    let (base, _) = index.find(0);
    let offsets = index.offsets();
    if offset < base {
        return offsets;
    }
    let far = offset - base;
    let passed = offsets.partition_point(|last| *last as u64 <= far);
    let (_, behind) = offsets.split_at(passed);
    behind
}

/// Where the batch of an entry begins. After the last entry no position is known.
fn begin_at(index: &OffsetIndex, entry: Option<&u32>) -> u64
    ensures { result ≡ begin_at index.now (option_copied entry.entry) }
{
    match entry {
        Some(last) => {
            let (base, _) = index.find(0);
            index.find(base.saturating_add(*last as u64)).1 as u64
        }
        None => u64::MAX,
    }
}
