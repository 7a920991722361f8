//! The offset index, as two columns of one length.

ghost use Rattle.std.specs.Prelude.{◌≡◌, ℕ, ◌+◌, ◌-◌, ◌^◌, ◌<◌, ◌≤◌, [], map, length};
ghost use Rattle.std.specs.Prelude.{count_by, nat_lt, ◌∷◌, ◌++◌, IfOk, OnOk, OnErr};
ghost use Rattle.std.specs.Option.{ForSome};
ghost use Rattle.sparse_index.specs.Entries.{last_of};
ghost use Rattle.std.specs.List.{zip};
ghost use Rattle.std.specs.List.Sorted.{IsPartitionedBy};
ghost use Rattle.sparse_index.specs.Bytes.{bytes_of};
ghost use Rattle.sparse_index.specs.Columns.{AreColumns, table};
ghost use Rattle.sparse_index.specs.Reading.{ReadsOffsets};
ghost use Rattle.sparse_index.specs.Offsets.{AreOffsets, Rises, with_entry, is_up_to, find};
ghost use Rattle.sparse_index.specs.Offsets.{cut_to, entry_bytes, may_follow};

use crate::columns::{push_both, push_u32, read_u32};
use crate::halving::count_up_to;
use crate::refusal::IndexRefusal;
use std::alloc::{AllocError, Global};
use std::marker::Model;

/// The bytes of an entry.
const ENTRY_BYTES: usize = 8;
/// The greatest relative offset, and the greatest position.
const LAST_OFFSET: u32 = (1 << 31) - 1;

/// Where batches of a segment exist, by their last offsets.
#[derive(Debug, Drop)]
pub struct OffsetIndex {
    base: u64,
    offsets: Vec<u32>,
    positions: Vec<u32>,
}

impl Model for OffsetIndex {
    ghost use Rattle.sparse_index.specs.Offsets.{OffsetTable};
    ghost use Rattle.sparse_index.specs.Columns.{AreColumns, table};

    ghost Value = { OffsetTable };

    ghost view = { λ i. table i.base i.offsets.items i.positions.items };

    ghost invariant = { λ i. AreColumns i.base i.offsets.items i.positions.items };
}

impl OffsetIndex {
    /// An index with no entry, of the segment that begins at a base offset.
    pub fn new(alloc: Global, base: u64) -> OffsetIndex
        requires { base ≤ 2 ^ 62 }
        ensures { result ≡ record { base = base; entries = [] } }
    {
        OffsetIndex {
            base,
            offsets: Vec::new(alloc),
            positions: Vec::new(alloc),
        }
    }

    /// The relative offsets of the entries.
    pub fn offsets(&self) -> &[u32]
        ensures offsets { result.now ≡ map (λ entry. entry.0) self.now.entries }
        ensures rise { AreOffsets self.now.entries }
    {
        self.offsets.as_slice()
    }

    /// Adds an entry for a batch of this last offset, which begins at this position. Fails only if memory runs out.
    pub fn push(&mut self, last: u64, position: u32) -> Result<(), AllocError>
        requires from_base { self.old.base ≤ last }
        requires near { last - self.old.base < 2 ^ 31 }
        requires position_fits { position < 2 ^ 31 }
        requires above { ForSome (last_of self.old.entries) (λ entry. Rises entry (last - self.old.base, position)) }
        ensures ok { OnOk result (self.new ≡ with_entry self.old (last - self.old.base, position)) }
        ensures err { OnErr result (self.new ≡ self.old) }
    {
        let offset = (last - self.base) as u32;
        self.add((offset, position))
    }

    /// The last entry's offset and position at or below an offset, or the segment's beginning.
    pub fn find(&self, offset: u64) -> (u64, u32)
        ensures { result ≡ find self.now offset }
    {
        let offsets = self.offsets.as_slice();
        let positions = self.positions.as_slice();
        find_in(self.base, offsets, positions, offset)
    }
    /// The last entry, relative offset and position.
    pub fn last(&self) -> Option<(u32, u32)>
        ensures last { result ≡ last_of self.now.entries }
        ensures stand { AreOffsets self.now.entries }
    {
        last_of(self.offsets.as_slice(), self.positions.as_slice())
    }

    /// Drops the entries of the batches that begin at or past a position.
    pub fn cut_to(&mut self, position: u32)
        ensures { self.new ≡ cut_to self.old position }
    {
        let kept = positions_before(self.positions.as_slice(), position);
        self.offsets.truncate(kept);
        self.positions.truncate(kept);
    }
}

impl OffsetIndex {
    /// The bytes of the entries. Fails only if memory runs out.
    pub fn to_bytes(&self, alloc: Global) -> Result<Vec<u8>, AllocError>
        ensures { IfOk result (λ bytes. bytes.items ≡ bytes_of entry_bytes self.now.entries) }
    {
        columns_to_bytes(alloc, self.offsets.as_slice(), self.positions.as_slice())
    }

    /// The index of these bytes, of the segment that begins at a base offset. `IndexRefusal` has the causes of a
    /// failure.
    pub fn from_bytes(alloc: Global, base: u64, bytes: &[u8]) -> Result<OffsetIndex, IndexRefusal>
        requires { base ≤ 2 ^ 62 }
        ensures { ReadsOffsets base bytes.now result }
    {
        if bytes.len() % ENTRY_BYTES != 0 {
            return Err(IndexRefusal::BadLength);
        }
        let mut index = OffsetIndex::new(alloc, base);
        let mut rest = bytes;
        let mut at: u32 = 0;
        while !rest.is_empty() {
            let (front, behind) = rest.split_at(ENTRY_BYTES);
            let entry = read_entry(front);
            if !may_follow(index.last(), entry) {
                return Err(IndexRefusal::NotRising { at });
            }
            match index.add(entry) {
                Ok(()) => {}
                Err(_) => return Err(IndexRefusal::NoMemory),
            }
            rest = behind;
            at = at.saturating_add(1);
        }
        Ok(index)
    }

    /// Adds an entry that may follow.
    fn add(&mut self, entry: (u32, u32)) -> Result<(), AllocError>
        requires { AreOffsets (self.old.entries ++ entry ∷ []) }
        ensures ok { OnOk result (self.new ≡ with_entry self.old entry) }
        ensures err { OnErr result (self.new ≡ self.old) }
    {
        push_both(&mut self.offsets, &mut self.positions, entry.0, entry.1)
    }
}

/// What the columns of an index say of an offset.
fn find_in(base: u64, offsets: &[u32], positions: &[u32], offset: u64) -> (u64, u32)
    requires { AreColumns base offsets.now positions.now }
    ensures { result ≡ find (table base offsets.now positions.now) offset }
{
    let count = count_in(base, offsets, positions, offset);
    if count == 0 {
        return (base, 0);
    }
    (base + offsets[count - 1] as u64, positions[count - 1])
}

/// How many entries are at or below an offset: those in front.
fn count_in(base: u64, offsets: &[u32], positions: &[u32], offset: u64) -> usize
    requires { AreColumns base offsets.now positions.now }
    ensures count { result ≡ count_by (is_up_to base offset) (zip offsets.now positions.now) }
    ensures within { result ≤ length offsets.now }
{
    if offset < base {
        return 0;
    }
    let far = offset - base;
    if far > LAST_OFFSET as u64 {
        return offsets.len();
    }
    count_up_to(offsets, far as u32)
}

/// How many positions are below one: those in front.
fn positions_before(positions: &[u32], position: u32) -> usize
    requires { IsPartitionedBy (λ item. nat_lt item position) positions.now }
    ensures count { result ≡ count_by (λ item. nat_lt item position) positions.now }
    ensures within { result ≤ length positions.now }
{
    if position == 0 {
        return 0;
    }
    count_up_to(positions, position - 1)
}

/// The last entry of columns of one length.
fn last_of(offsets: &[u32], positions: &[u32]) -> Option<(u32, u32)>
    requires { length offsets.now ≡ length positions.now }
    ensures { result ≡ last_of (zip offsets.now positions.now) }
{
    let count = offsets.len();
    if count == 0 {
        return None;
    }
    Some((offsets[count - 1], positions[count - 1]))
}

/// Whether an entry may follow the last one.
fn may_follow(last: Option<(u32, u32)>, entry: (u32, u32)) -> bool
    ensures { result ≡ may_follow last entry }
{
    if entry.0 > LAST_OFFSET || entry.1 > LAST_OFFSET {
        return false;
    }
    match last {
        None => true,
        Some(last) => last.0 < entry.0 && last.1 < entry.1,
    }
}

/// The entry of these bytes.
fn read_entry(bytes: &[u8]) -> (u32, u32)
    requires { length bytes.now ≡ 8 }
    ensures spelled { entry_bytes result ≡ bytes.now }
    ensures wide { (result.0 < 2 ^ 32) × (result.1 < 2 ^ 32) }
{
    let (offset, position) = bytes.split_at(4);
    (read_u32(offset), read_u32(position))
}

/// The bytes of the entries of columns.
fn columns_to_bytes(
    alloc: Global,
    offsets: &[u32],
    positions: &[u32],
) -> Result<Vec<u8>, AllocError>
    requires { length offsets.now ≡ length positions.now }
    ensures { IfOk result (λ bytes. bytes.items ≡ bytes_of entry_bytes (zip offsets.now positions.now)) }
{
    let mut bytes = Vec::new(alloc);
    for i in 0..offsets.len() {
        push_entry(&mut bytes, (offsets[i], positions[i]))?;
    }
    Ok(bytes)
}

/// Writes the bytes of an entry.
fn push_entry(bytes: &mut Vec<u8>, entry: (u32, u32)) -> Result<(), AllocError>
    ensures { OnOk result (bytes.new.items ≡ bytes.old.items ++ entry_bytes entry) }
{
    push_u32(bytes, entry.0)?;
    push_u32(bytes, entry.1)
}
