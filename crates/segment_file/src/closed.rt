//! A closed log segment: whole, checked batches, and what the batches come to.

ghost use Rattle.std.specs.Prelude.{◌≡◌, ◌≤◌, ◌^◌, IfOk};
ghost use Rattle.segment_file.specs.Closed.{IsWholeSegment, ReadsSegment, AreIndexes};

use crate::gathering::gather;
use crate::marking::indexes_of;
use crate::refusal::ClosedRefusal;
use bytes::Bytes;
use epoch_line::Line;
use sparse_index::{OffsetIndex, TimeIndex};
use std::alloc::{AllocError, Global};
use std::marker::Model;

/// A segment that nothing is appended to any more. It holds one batch at least.
#[derive(Drop)]
pub struct Closed {
    base: u64,
    last: u64,
    max_ts: i64,
    bytes: Bytes,
    epochs: Line,
}

impl Model for Closed {
    ghost use Rattle.segment_file.specs.Closed.{ClosedSegment, IsWholeSegment, whole_of};

    ghost Value = { ClosedSegment };

    ghost view = { λ c. whole_of c.base c.last c.max_ts c.bytes c.epochs };

    ghost invariant = { λ c. IsWholeSegment (whole_of c.base c.last c.max_ts c.bytes c.epochs) };
}

impl Closed {
    /// Reads bytes as the closed segment that begins at a base offset, in one pass. The bytes are shared.
    /// `ClosedRefusal` has the causes of a failure.
    pub fn read(alloc: Global, base: u64, bytes: Bytes) -> Result<Closed, ClosedRefusal>
        requires { base ≤ 2 ^ 62 }
        ensures { ReadsSegment base bytes result }
    {
        let front = gather(alloc, base, bytes.as_slice())?;
        Ok(Closed {
            base,
            last: front.end - 1,
            max_ts: front.max_ts,
            bytes,
            epochs: front.epochs,
        })
    }

    /// The same segment once more. The bytes are shared. Fails only if memory runs out.
    pub fn copy(&self, alloc: Global) -> Result<Closed, AllocError>
        ensures { IfOk result (λ segment. segment ≡ self.now) }
    {
        Ok(Closed {
            base: self.base,
            last: self.last,
            max_ts: self.max_ts,
            bytes: self.bytes.clone()?,
            epochs: self.epochs.copy(alloc)?,
        })
    }

    /// The offset of the first record.
    pub fn base(&self) -> u64
        ensures { result ≡ self.now.base }
    {
        self.base
    }

    /// The offset of the last record.
    pub fn last(&self) -> u64
        ensures { result ≡ self.now.last }
    {
        self.last
    }

    /// The greatest timestamp of the batches.
    pub fn max_ts(&self) -> i64
        ensures { result ≡ self.now.max_ts }
    {
        self.max_ts
    }

    /// The batches, one after another.
    pub fn bytes(&self) -> &Bytes
        ensures bytes { result.now ≡ self.now.bytes }
        ensures whole { IsWholeSegment self.now }
    {
        &self.bytes
    }

    /// The leader epochs of the batches, each with the base offset of its first batch.
    pub fn epochs(&self) -> &Line
        ensures { result.now ≡ self.now.epochs }
    {
        &self.epochs
    }

    /// Both indexes of the segment. The pass reads heads alone, since the batches are checked. Fails only if memory
    /// runs out.
    pub fn indexes(
        &self,
        alloc: Global,
        interval: u32,
    ) -> Result<(OffsetIndex, TimeIndex), AllocError>
        ensures { IfOk result (λ x. AreIndexes self.now.base self.now.bytes interval x.0 x.1) }
    {
        indexes_of(alloc, self.base, self.bytes.as_slice(), interval)
    }
}
