//! The time index, as two columns of one length.

ghost use Rattle.std.specs.Prelude.{◌≡◌, ℕ, ℤ, pos, ◌≤ℤ◌, ◌+◌, ◌-◌, ◌^◌, ◌<◌, ◌≤◌, [], ◌∷◌, ◌++◌, map};
ghost use Rattle.std.specs.Prelude.{length, count_by, int_le, int_lt, FitsSigned, IfOk, OnOk, OnErr};
ghost use Rattle.std.specs.Int.{w64};
ghost use Rattle.std.specs.List.{zip};
ghost use Rattle.std.specs.Option.{ForSome};
ghost use Rattle.sparse_index.specs.Bytes.{bytes_of};
ghost use Rattle.sparse_index.specs.Entries.{last_of};
ghost use Rattle.sparse_index.specs.Reading.{ReadsTimes};
ghost use Rattle.sparse_index.specs.Times.{AreTimeColumns, AreMoments, RisesInTime, with_moment, time_table};
ghost use Rattle.sparse_index.specs.Times.{find_time, below_time, moment_bytes, moment_follows};

use crate::columns::{push_both, push_i64, push_u32, read_i64, read_u32};
use crate::halving::count_before;
use crate::refusal::IndexRefusal;
use std::alloc::{AllocError, Global};
use std::marker::Model;

/// The bytes of an entry.
const ENTRY_BYTES: usize = 12;
/// The greatest relative offset.
const LAST_OFFSET: u32 = (1 << 31) - 1;

/// When a segment's timestamps passed a height, by the batches that first had it.
#[derive(Debug, Drop)]
pub struct TimeIndex {
    base: u64,
    times: Vec<i64>,
    offsets: Vec<u32>,
}

impl Model for TimeIndex {
    ghost use Rattle.sparse_index.specs.Times.{TimeTable, AreTimeColumns, time_table};

    ghost Value = { TimeTable };

    ghost view = { λ i. time_table i.base i.times.items i.offsets.items };

    ghost invariant = { λ i. AreTimeColumns i.base i.times.items i.offsets.items };
}

impl TimeIndex {
    /// An index with no entry, of the segment that begins at a base offset.
    pub fn new(alloc: Global, base: u64) -> TimeIndex
        requires { base ≤ 2 ^ 62 }
        ensures { result ≡ record { base = base; entries = [] } }
    {
        TimeIndex {
            base,
            times: Vec::new(alloc),
            offsets: Vec::new(alloc),
        }
    }

    /// The relative offsets of the entries.
    pub fn offsets(&self) -> &[u32]
        ensures offsets { result.now ≡ map (λ entry. entry.1) self.now.entries }
        ensures rise { AreMoments self.now.entries }
    {
        self.offsets.as_slice()
    }

    /// Adds an entry for a timestamp and the last offset of the first batch that has it. Fails only if memory runs out.
    pub fn push(&mut self, ts: i64, last: u64) -> Result<(), AllocError>
        requires not_negative { pos 0 ≤ℤ ts }
        requires from_base { self.old.base ≤ last }
        requires near { last - self.old.base < 2 ^ 31 }
        requires above { ForSome (last_of self.old.entries) (λ entry. RisesInTime entry (ts, last - self.old.base)) }
        ensures ok { OnOk result (self.new ≡ with_moment self.old (ts, last - self.old.base)) }
        ensures err { OnErr result (self.new ≡ self.old) }
    {
        let offset = (last - self.base) as u32;
        self.add((ts, offset))
    }

    /// The last entry's timestamp and offset at or below a timestamp.
    pub fn find(&self, ts: i64) -> Option<(i64, u64)>
        ensures { result ≡ find_time self.now ts }
    {
        let times = self.times.as_slice();
        let offsets = self.offsets.as_slice();
        find_in(self.base, times, offsets, ts)
    }

    /// The last entry's timestamp and offset below a timestamp.
    pub fn below(&self, ts: i64) -> Option<(i64, u64)>
        ensures { result ≡ below_time self.now ts }
    {
        let times = self.times.as_slice();
        let offsets = self.offsets.as_slice();
        below_in(self.base, times, offsets, ts)
    }

    /// The last entry, timestamp and relative offset.
    pub fn last(&self) -> Option<(i64, u32)>
        ensures last { result ≡ last_of self.now.entries }
        ensures stand { AreMoments self.now.entries }
    {
        last_of(self.times.as_slice(), self.offsets.as_slice())
    }

    /// The bytes of the entries. Fails only if memory runs out.
    pub fn to_bytes(&self, alloc: Global) -> Result<Vec<u8>, AllocError>
        ensures { IfOk result (λ bytes. bytes.items ≡ bytes_of moment_bytes self.now.entries) }
    {
        columns_to_bytes(alloc, self.times.as_slice(), self.offsets.as_slice())
    }

    /// The index of these bytes, of the segment that begins at a base offset. `IndexRefusal` has the causes of a
    /// failure.
    pub fn from_bytes(alloc: Global, base: u64, bytes: &[u8]) -> Result<TimeIndex, IndexRefusal>
        requires { base ≤ 2 ^ 62 }
        ensures { ReadsTimes base bytes.now result }
    {
        if bytes.len() % ENTRY_BYTES != 0 {
            return Err(IndexRefusal::BadLength);
        }
        let mut index = TimeIndex::new(alloc, base);
        let mut rest = bytes;
        let mut at: u32 = 0;
        while !rest.is_empty() {
            let (front, behind) = rest.split_at(ENTRY_BYTES);
            let entry = read_entry(front);
            if !may_follow(index.last(), entry) {
                return Err(IndexRefusal::NotRising { at });
            }
            match index.add(entry) {
                Ok(()) => {}
                Err(_) => return Err(IndexRefusal::NoMemory),
            }
            rest = behind;
            at = at.saturating_add(1);
        }
        Ok(index)
    }

    /// Adds an entry that may follow.
    fn add(&mut self, entry: (i64, u32)) -> Result<(), AllocError>
        requires { AreMoments (self.old.entries ++ entry ∷ []) }
        ensures ok { OnOk result (self.new ≡ with_moment self.old entry) }
        ensures err { OnErr result (self.new ≡ self.old) }
    {
        push_both(&mut self.times, &mut self.offsets, entry.0, entry.1)
    }
}

/// What the columns of an index say of a timestamp: the last entry at or below it.
fn find_in(base: u64, times: &[i64], offsets: &[u32], ts: i64) -> Option<(i64, u64)>
    requires { AreTimeColumns base times.now offsets.now }
    ensures { result ≡ find_time (time_table base times.now offsets.now) ts }
{
    let count = count_up_to(times, offsets, ts);
    if count == 0 {
        return None;
    }
    Some((times[count - 1], base + offsets[count - 1] as u64))
}

/// The last entry below a timestamp.
fn below_in(base: u64, times: &[i64], offsets: &[u32], ts: i64) -> Option<(i64, u64)>
    requires { AreTimeColumns base times.now offsets.now }
    ensures { result ≡ below_time (time_table base times.now offsets.now) ts }
{
    let count = count_before(times, ts);
    if count == 0 {
        return None;
    }
    Some((times[count - 1], base + offsets[count - 1] as u64))
}

/// How many entries are at or below a timestamp: those in front.
fn count_up_to(times: &[i64], offsets: &[u32], ts: i64) -> usize
    requires even { length times.now ≡ length offsets.now }
    requires entries { AreMoments (zip times.now offsets.now) }
    ensures count { result ≡ count_by (λ time. int_le time ts) times.now }
    ensures within { result ≤ length times.now }
{
    if ts == i64::MAX {
        return times.len();
    }
    count_before(times, ts + 1)
}

/// The last entry of columns of one length.
fn last_of(times: &[i64], offsets: &[u32]) -> Option<(i64, u32)>
    requires { length times.now ≡ length offsets.now }
    ensures { result ≡ last_of (zip times.now offsets.now) }
{
    let count = times.len();
    if count == 0 {
        return None;
    }
    Some((times[count - 1], offsets[count - 1]))
}

/// Whether an entry may follow the last one.
fn may_follow(last: Option<(i64, u32)>, entry: (i64, u32)) -> bool
    ensures { result ≡ moment_follows last entry }
{
    if entry.0 < 0 || entry.1 > LAST_OFFSET {
        return false;
    }
    match last {
        None => true,
        Some(last) => last.0 < entry.0 && last.1 <= entry.1,
    }
}

/// The entry of these bytes.
fn read_entry(bytes: &[u8]) -> (i64, u32)
    requires { length bytes.now ≡ 12 }
    ensures spelled { moment_bytes result ≡ bytes.now }
    ensures wide { FitsSigned w64 result.0 × (result.1 < 2 ^ 32) }
{
    let (ts, offset) = bytes.split_at(8);
    (read_i64(ts), read_u32(offset))
}

/// The bytes of the entries of columns.
fn columns_to_bytes(alloc: Global, times: &[i64], offsets: &[u32]) -> Result<Vec<u8>, AllocError>
    requires { length times.now ≡ length offsets.now }
    ensures { IfOk result (λ bytes. bytes.items ≡ bytes_of moment_bytes (zip times.now offsets.now)) }
{
    let mut bytes = Vec::new(alloc);
    for i in 0..times.len() {
        push_entry(&mut bytes, (times[i], offsets[i]))?;
    }
    Ok(bytes)
}

/// Writes the bytes of an entry.
fn push_entry(bytes: &mut Vec<u8>, entry: (i64, u32)) -> Result<(), AllocError>
    ensures { OnOk result (bytes.new.items ≡ bytes.old.items ++ moment_bytes entry) }
{
    push_i64(bytes, entry.0)?;
    push_u32(bytes, entry.1)
}
