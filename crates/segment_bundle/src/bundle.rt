//! The parts of a remote segment, and what they were made of. specs/Parts.antt says what each part has.

ghost use Rattle.std.specs.Prelude.{◌≡◌, ◌+◌, ◌<◌, ◌^◌, ◌++◌, ℕ, List, IfOk};
ghost use Rattle.tier_base.specs.declared.plain.Part.TheVariants.{Pack};
ghost use Rattle.log_terms.specs.Log.{joined};
ghost use Rattle.epoch_line.specs.Line.{cut_end};
ghost use Rattle.epoch_line.specs.Text.{text_of};
ghost use Rattle.segment_file.specs.Segment.{IsSegment};
ghost use Rattle.segment_bundle.specs.Parts.{part_in, parts_of, pack_of, IsBundle};

use bytes::Bytes;
use epoch_line::Line;
use segment_file::Closed;
use std::alloc::{AllocError, Global};
use std::marker::Model;
use tier_base::{Layout, Part};

/// The four parts of a remote segment: batches, offset index, time index, leader epochs. The batches are the
/// segment's own bytes.
#[derive(Drop)]
pub struct Bundle {
    source: Bytes,
    line: Line,
    interval: u32,
    index: Bytes,
    times: Bytes,
    epochs: Bytes,
}

impl Model for Bundle {
    ghost use Rattle.segment_bundle.specs.Parts.{Bundled, bundled, IsBundle};

    ghost Value = { Bundled };

    ghost view = { λ b. bundled b.source b.line b.interval b.index b.times b.epochs };

    ghost invariant = { λ b. IsBundle (bundled b.source b.line b.interval b.index b.times b.epochs) };
}

impl Bundle {
    /// Makes the parts of a closed segment, in one pass. `line` has the leader epochs of its log; `interval` is the
    /// interval of the indexes in bytes (Kafka's `index.interval.bytes`). Fails only if memory runs out.
    pub fn of(
        alloc: Global,
        closed: &Closed,
        line: &Line,
        interval: u32,
    ) -> Result<Bundle, AllocError>
        ensures source { IfOk result (λ bundle. bundle.source ≡ closed.now.bytes) }
        ensures line { IfOk result (λ bundle. bundle.line ≡ line.now) }
        ensures interval { IfOk result (λ bundle. bundle.interval ≡ interval) }
        ensures parts { IfOk result (λ bundle. (batches : List (List ℕ)) → IsSegment closed.now.base batches
            → closed.now.bytes ≡ joined batches → bundle.parts ≡ parts_of batches line.now interval) }
    {
        let source = share(closed.bytes())?;
        let (offsets, moments) = closed.indexes(alloc, interval)?;
        let index = Bytes::from_vec(offsets.to_bytes(alloc)?)?;
        let times = Bytes::from_vec(moments.to_bytes(alloc)?)?;
        let epochs = Bytes::from_vec(epoch_text(alloc, line, closed.last())?)?;
        Ok(Bundle {
            source,
            line: line.copy(alloc)?,
            interval,
            index,
            times,
            epochs,
        })
    }

    /// The segment's bytes that the parts were made of.
    pub fn source(&self) -> &Bytes
        ensures source { result.now ≡ self.now.source }
        ensures bundle { IsBundle self.now }
    {
        &self.source
    }

    /// The leader epochs that the epochs part was made of.
    pub fn line(&self) -> &Line
        ensures { result.now ≡ self.now.line }
    {
        &self.line
    }

    /// The interval of the indexes, in bytes.
    pub fn interval(&self) -> u32
        ensures { result ≡ self.now.interval }
    {
        self.interval
    }

    /// The bytes of a part. The four parts are shared; the packed object is made at each call. Fails only if memory
    /// runs out.
    pub fn part(&self, alloc: Global, part: Part) -> Result<Bytes, AllocError>
        ensures { IfOk result (λ bytes. bytes ≡ part_in self.now.parts part) }
    {
        match part {
            Part::Log => share(&self.source),
            Part::Index => share(&self.index),
            Part::TimeIndex => share(&self.times),
            Part::Epochs => share(&self.epochs),
            Part::Pack => self.pack(alloc),
        }
    }

    /// The lengths of the parts in bytes, or `None` if one doesn't fit the layout of a packed segment, which has 32
    /// bits for each.
    pub fn layout(&self) -> Option<Layout>
        ensures { result ≡ pack_of self.now.parts }
    {
        Some(Layout {
            log: u32::try_from(self.source.len()).ok()?,
            index: u32::try_from(self.index.len()).ok()?,
            times: u32::try_from(self.times.len()).ok()?,
            epochs: u32::try_from(self.epochs.len()).ok()?,
        })
    }

    /// The four parts, one after another.
    fn pack(&self, alloc: Global) -> Result<Bytes, AllocError>
        ensures { IfOk result (λ bytes. bytes ≡ part_in self.now.parts Pack) }
    {
        let mut bytes = Vec::new(alloc);
        bytes.extend_from_slice(self.source.as_slice())?;
        bytes.extend_from_slice(self.index.as_slice())?;
        bytes.extend_from_slice(self.times.as_slice())?;
        bytes.extend_from_slice(self.epochs.as_slice())?;
        Ok(Bytes::from_vec(bytes)?)
    }
}

/// The same bytes, shared.
fn share(bytes: &Bytes) -> Result<Bytes, AllocError>
    ensures { IfOk result (λ shared. shared ≡ bytes.now) }
{
    bytes.clone()
}

/// The text of the entries that start at or below a last offset.
fn epoch_text(alloc: Global, line: &Line, last: u64) -> Result<Vec<u8>, AllocError>
    requires { last < 2 ^ 62 }
    ensures { IfOk result (λ text. text.items ≡ text_of (cut_end line.now (last + 1))) }
{
    let mut entries = line.copy(alloc)?;
    entries.cut_end(last + 1);
    entries.to_text(alloc)
}
