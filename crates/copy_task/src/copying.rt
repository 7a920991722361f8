//! A segment that is being copied.

ghost use Rattle.std.specs.Prelude.{◌≡◌, ◌&&◌, true, IfOk, IfSome, slice_get};
ghost use Rattle.segment_meta.specs.Rules.{IsNote};
ghost use Rattle.segment_bundle.specs.Parts.{part_in, can_pack};
ghost use Rattle.copy_task.specs.Copying.{Copied, IsBundleOf, keys, custom_of, start_note, finish_note};

use bytes::Bytes;
use epoch_line::Line;
use meta_log::EventOrigin;
use object_store::{ObjectKey, keys_of};
use segment_bundle::Bundle;
use segment_file::Closed;
use segment_meta::{Entry, Note};
use std::alloc::{AllocError, Global};
use std::marker::Model;
use tier_base::{Blob, Part, PartitionId, SegmentId, State};

/// The most entries of a line whose text has room in any layout: a line of text has 32 bytes at most, and 32 * 2^26 +
/// 14 < 2^32.
const SHORT_LINE: usize = 1 << 26;

/// A closed segment under a remote id, and what its objects will have. The bundle of its parts is made when a turn
/// first needs it, or passed in by whoever made it elsewhere, and is kept from then on; no clause says which. The
/// segment's bytes are shared, not copied.
#[derive(Drop)]
pub struct Copying {
    id: SegmentId,
    partition: PartitionId,
    packed: bool,
    segment: Closed,
    line: Line,
    interval: u32,
    bundle: Option<Bundle>,
}

impl Model for Copying {
    ghost use Rattle.std.specs.Prelude.{IfSome};
    ghost use Rattle.copy_task.specs.Copying.{Copied, copied_of, IsCopied, IsBundleOf};

    ghost Value = { Copied };

    ghost view = { λ c. copied_of c.id c.partition c.packed c.segment c.line c.interval };

    ghost invariant = { λ c. IsCopied (copied_of c.id c.partition c.packed c.segment c.line c.interval)
        × IfSome c.bundle (IsBundleOf (copied_of c.id c.partition c.packed c.segment c.line c.interval)) };
}

impl Copying {
    /// A segment of the partition under an id. If `packed` is set it is packed, unless a part is too long for the
    /// layout. `line` has the leader epochs of its log; `interval` is the interval of its indexes in bytes.
    pub fn of(
        alloc: Global,
        partition: PartitionId,
        id: SegmentId,
        segment: Closed,
        line: &Line,
        interval: u32,
        packed: bool,
    ) -> Result<Copying, AllocError>
        ensures id { IfOk result (λ copy. copy.id ≡ id) }
        ensures partition { IfOk result (λ copy. copy.partition ≡ partition) }
        ensures segment { IfOk result (λ copy. copy.segment ≡ segment) }
        ensures line { IfOk result (λ copy. copy.line ≡ line.now) }
        ensures interval { IfOk result (λ copy. copy.interval ≡ interval) }
        ensures packed { IfOk result (λ copy. copy.packed ≡ (packed && can_pack copy.parts)) }
    {
        let _whole = segment.bytes();
        let mut copying = Copying {
            id,
            partition,
            packed: false,
            segment,
            line: line.copy(alloc)?,
            interval,
            bundle: None,
        };
        if packed && copying.packs(alloc)? {
            copying.pack();
        }
        Ok(copying)
    }

    /// Whether the parts can be packed. Those of a short line can. Of another one the length of the text decides, so
    /// the bundle is made at once.
    fn packs(&mut self, alloc: Global) -> Result<bool, AllocError>
        ensures packs { IfOk result (λ packs. packs ≡ can_pack self.old.parts) }
        ensures same { self.new ≡ self.old }
    {
        if self.line.entries().len() <= SHORT_LINE {
            return Ok(true);
        }
        let bundle = self.take_bundle(alloc)?;
        let packs = bundle.layout().is_some();
        self.bundle = Some(bundle);
        Ok(packs)
    }

    /// Packs the segment.
    fn pack(&mut self)
        requires { can_pack self.old.parts ≡ true }
        ensures { self.new ≡ record self.old { packed = true } }
    {
        self.packed = true;
    }

    /// Takes the bundle out, which is made where there is none yet.
    fn take_bundle(&mut self, alloc: Global) -> Result<Bundle, AllocError>
        ensures bundle { IfOk result (IsBundleOf self.old) }
        ensures same { self.new ≡ self.old }
    {
        match self.bundle.take() {
            Some(bundle) => Ok(bundle),
            None => Bundle::of(alloc, &self.segment, &self.line, self.interval),
        }
    }

    /// The segment, until its bundle is made.
    pub fn closed(&self) -> Option<&Closed>
        ensures { IfSome result (λ closed. closed.now ≡ self.now.segment) }
    {
        match &self.bundle {
            Some(_) => None,
            None => Some(&self.segment),
        }
    }

    /// The leader epochs of its log, until its bundle is made.
    pub fn line(&self) -> Option<&Line>
        ensures { IfSome result (λ line. line.now ≡ self.now.line) }
    {
        match &self.bundle {
            Some(_) => None,
            None => Some(&self.line),
        }
    }

    /// The interval of its indexes, in bytes.
    pub fn interval(&self) -> u32
        ensures { result ≡ self.now.interval }
    {
        self.interval
    }

    /// Takes a bundle that was made elsewhere, if none is kept yet and if it is of this segment, these leader epochs
    /// and this interval. Drops it otherwise.
    pub fn give(self, bundle: Bundle) -> Copying
        ensures { result ≡ self }
    {
        if self.bundle.is_some() || !self.is_of(&bundle) {
            return self;
        }
        self.with_bundle(bundle)
    }

    /// Keeps a bundle.
    fn with_bundle(mut self, bundle: Bundle) -> Copying
        requires { IsBundleOf self bundle }
        ensures { result ≡ self }
    {
        self.bundle = Some(bundle);
        self
    }

    /// Whether a bundle is of this segment, its leader epochs and its interval.
    fn is_of(&self, bundle: &Bundle) -> bool
        ensures { result ≡ true → IsBundleOf self.now bundle.now }
    {
        if bundle.interval() != self.interval {
            return false;
        }
        if !same_line(bundle.line(), &self.line) {
            return false;
        }
        if !same_bytes(bundle.source(), self.segment.bytes()) {
            return false;
        }
        true
    }

    /// The id of the remote segment.
    pub fn id(&self) -> SegmentId
        ensures { result ≡ self.now.id }
    {
        self.id
    }

    /// The partition of the segment.
    pub fn partition(&self) -> PartitionId
        ensures { result ≡ self.now.partition }
    {
        self.partition
    }

    /// The segment's base offset.
    pub fn base(&self) -> u64
        ensures { result ≡ self.now.segment.base }
    {
        self.segment.base()
    }

    /// The segment's last offset.
    pub fn last(&self) -> u64
        ensures { result ≡ self.now.segment.last }
    {
        self.segment.last()
    }

    /// The key of its `n`-th object, counted from 0, or `None` if it has fewer objects.
    pub fn key(&self, n: u8) -> Option<ObjectKey>
        ensures { result ≡ slice_get (keys self.now) n }
    {
        let keys = keys_of(self.partition, self.id, self.packed);
        if n < keys.count() {
            Some(keys.get(n))
        } else {
            None
        }
    }

    /// The bytes of a part. From then on the bundle is kept. Fails only if memory runs out.
    pub fn part(&mut self, alloc: Global, part: Part) -> Result<Bytes, AllocError>
        ensures bytes { IfOk result (λ bytes. bytes ≡ part_in self.old.parts part) }
        ensures same { self.new ≡ self.old }
    {
        let bundle = self.take_bundle(alloc)?;
        let bytes = bundle.part(alloc, part);
        self.bundle = Some(bundle);
        bytes
    }

    /// The event that the copy starts. Fails only if memory runs out.
    pub fn start_note(&self, alloc: Global, origin: EventOrigin) -> Result<Note, AllocError>
        ensures note { IfOk result (λ note. note ≡ start_note self.now origin) }
        ensures rules { IfOk result IsNote }
    {
        let map = self.segment.epochs().copy(alloc)?;
        // Reading it shows that the map is a line.
        let _line = map.entries();
        Ok(Note::Add(Entry {
            id: self.id,
            partition: self.partition,
            start: self.segment.base(),
            end: self.segment.last(),
            max_ts: self.segment.max_ts(),
            broker: origin.broker,
            event_ts: origin.now,
            size: self.segment.bytes().len() as u32,
            state: State::CopyStarted,
            map,
            packed: self.packed,
            custom: None,
        }))
    }

    /// The event that the copy is finished, to be appended once its objects are put. Fails only if memory runs out.
    pub fn finish_note(&mut self, alloc: Global, origin: EventOrigin) -> Result<Note, AllocError>
        ensures note { IfOk result (λ note. note ≡ finish_note self.old origin) }
        ensures rules { IfOk result IsNote }
        ensures same { self.new ≡ self.old }
    {
        Ok(Note::Update {
            id: self.id,
            broker: origin.broker,
            event_ts: origin.now,
            state: State::CopyFinished,
            custom: self.custom(alloc)?,
        })
    }

    /// The custom metadata of what is put.
    fn custom(&mut self, alloc: Global) -> Result<Option<Blob>, AllocError>
        ensures custom { IfOk result (λ custom. custom ≡ custom_of self.old) }
        ensures same { self.new ≡ self.old }
    {
        if !self.packed {
            return Ok(None);
        }
        let bundle = self.take_bundle(alloc)?;
        let layout = bundle.layout();
        self.bundle = Some(bundle);
        match layout {
            Some(layout) => Ok(Some(layout.to_bytes(alloc)?)),
            None => unreachable!(),
        }
    }
}

/// Whether two lines have the same entries.
fn same_line(line: &Line, other: &Line) -> bool
    ensures { result ≡ true → line.now ≡ other.now }
{
    line.entries() == other.entries()
}

/// Whether two pieces have the same bytes.
fn same_bytes(bytes: &Bytes, other: &Bytes) -> bool
    ensures { result ≡ true → bytes.now ≡ other.now }
{
    bytes.as_slice() == other.as_slice()
}
