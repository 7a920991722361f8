//! What a line says, from its entries. They rise in both columns, so that halving finds each place.

ghost use Rattle.std.specs.Prelude.{◌≡◌, ◌≤◌, ◌<◌, ◌^◌, ◌↔◌, ◌++◌, ◌∷◌, [], IsTrue, nat_le};
ghost use Rattle.std.specs.Prelude.{nat_lt, ◌&&◌, length, take, drop, filter, IfOk};
ghost use Rattle.log_terms.specs.Line.{epoch_at};
ghost use Rattle.epoch_line.specs.Line.{IsLine, last_epoch, start_or, end_of, within};

use std::alloc::{AllocError, Global};

/// How many entries start below an offset: those in front.
pub fn count_below(entries: &[(u32, u64)], end: u64) -> usize
    requires { IsLine entries.now }
    ensures within { result ≤ length entries.now }
    ensures front { take result entries.now ≡ filter (λ entry. nat_lt entry.1 end) entries.now }
{
    entries.partition_point(|entry| entry.1 < end)
}

/// How many entries start at or below an offset: those in front.
pub fn count_up_to(entries: &[(u32, u64)], offset: u64) -> usize
    requires { IsLine entries.now }
    ensures within { result ≤ length entries.now }
    ensures front { take result entries.now ≡ filter (λ entry. nat_le entry.1 offset) entries.now }
    ensures back { drop result entries.now ≡ filter (λ entry. nat_lt offset entry.1) entries.now }
{
    entries.partition_point(|entry| entry.1 <= offset)
}

/// The entries that start past a base, up to a last offset.
pub fn started_within(entries: &[(u32, u64)], base: u64, last: u64) -> &[(u32, u64)]
    requires { IsLine entries.now }
    ensures { result.now ≡ filter (λ entry. nat_lt base entry.1 && nat_le entry.1 last) entries.now }
{
    let (front, _) = entries.split_at(count_up_to(entries, last));
    let (_, past) = front.split_at(count_up_to(front, base));
    past
}

/// The epoch of the last entry.
#[tactic(auto, using(crate::proofs::Rising::last_entry_get))]
pub fn last_epoch(entries: &[(u32, u64)]) -> Option<u32>
    ensures { result ≡ last_epoch entries.now }
{
    match entries.last() {
        Some(entry) => Some(entry.0),
        None => None,
    }
}

/// Whether an entry lies above the last one.
pub fn may_follow(entries: &[(u32, u64)], entry: (u32, u64)) -> bool
    requires line { IsLine entries.now }
    requires epoch_fits { entry.0 < 2 ^ 31 }
    requires start_fits { entry.1 ≤ 2 ^ 62 }
    ensures { IsTrue result ↔ IsLine (entries.now ++ entry ∷ []) }
{
    match entries.last() {
        Some(last) => last.0 < entry.0 && last.1 < entry.1,
        None => true,
    }
}

/// Where the first entry starts, or the log's end.
pub fn start_or(log_end: u64, entries: &[(u32, u64)]) -> u64
    ensures { result ≡ start_or log_end entries.now }
{
    match entries {
        [next, ..] => next.1,
        [] => log_end,
    }
}

/// The epoch that an offset belongs to.
pub fn epoch_at(entries: &[(u32, u64)], offset: u64) -> Option<u32>
    requires { IsLine entries.now }
    ensures { result ≡ epoch_at entries.now offset }
{
    let (started, _) = entries.split_at(count_up_to(entries, offset));
    last_epoch(started)
}

/// Where an epoch ends.
pub fn end_of(entries: &[(u32, u64)], epoch: u32, log_end: u64) -> Option<u64>
    requires { IsLine entries.now }
    ensures { result ≡ end_of entries.now epoch log_end }
{
    match entries.binary_search_by_key(&epoch, |entry| entry.0) {
        Ok(at) => Some(start_or(log_end, entries.split_at(at + 1).1)),
        Err(_) => None,
    }
}

/// The part within a segment.
pub fn part(
    alloc: Global,
    entries: &[(u32, u64)],
    base: u64,
    last: u64,
) -> Result<Vec<(u32, u64)>, AllocError>
    requires { IsLine entries.now }
    ensures { IfOk result (λ part. part.items ≡ within entries.now base last) }
{
    let mut part = Vec::new(alloc);
    if let Some(epoch) = epoch_at(entries, base) {
        part.push((epoch, base))?;
    }
    part.extend_from_slice(started_within(entries, base, last))?;
    Ok(part)
}
