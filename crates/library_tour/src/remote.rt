//! The steps on the remote tier: an object store, a metadata log, and a view of it.

ghost use Rattle.std.specs.Prelude.{◌≡◌, IfOk, OnOk, IsTrue, slice_range};
ghost use Rattle.remote_find.specs.Pieces.{covered_to};
ghost use Rattle.segment_file.specs.declared.taking.Cutout.{Cutout};
ghost use Rattle.segment_file.specs.Run.{IsRunCutAt};
ghost use Rattle.local_log.specs.Dropping.{IsFirstFlushed, SpansFirst};

use anyhow::{Context, Result, bail, ensure};
use bytes::Bytes;
use copy_task::Copying;
use disk_model::Disk;
use local_log::LocalLog;
use meta_log::{EventOrigin, MetaLog};
use meta_log_file::DiskLog;
use object_store::{ObjectKey, Store, get_spot, place};
use remote_find::{Piece, covered_to, find};
use remote_view::View;
use segment_bundle::Bundle;
use segment_file::{Closed, Growing, take_run};
use std::alloc::Global;
use tier_base::{BrokerId, Part, PartitionId, SegmentId, segment_id};
use view_refresh::refresh;

/// The partition that the log is of.
pub const PARTITION: PartitionId = PartitionId(0);

/// The broker that copies, and the time of its events in milliseconds.
const TELLER: EventOrigin = EventOrigin {
    broker: BrokerId(0),
    now: 1_700_000_000_000,
};

/// The most bytes that a read returns, unless its first batch is larger.
const LIMIT: u64 = 1_000;

/// A partition's remote tier, as one broker sees it.
#[derive(Drop)]
pub struct Remote<S: Store, M: MetaLog> {
    alloc: Global,
    store: S,
    meta: M,
    view: View,
}

impl<S: Store, D: Disk> Remote<S, DiskLog<D>> {
    /// Opens the metadata log on a disk, beside an object store.
    pub fn open(alloc: Global, store: S, disk: D) -> Result<Remote<S, DiskLog<D>>> {
        match DiskLog::open(alloc, disk) {
            Ok(meta) => Ok(Remote {
                alloc,
                store,
                meta,
                view: View::new(alloc),
            }),
            Err((_, why)) => Err(why.into()),
        }
    }
}

impl<S: Store, M: MetaLog> Remote<S, M> {
    /// Copies the first closed segment to the tier, and returns its first and its last offset.
    pub fn copy<L: Disk>(&mut self, log: &mut LocalLog<L>) -> Result<(u64, u64)> {
        ensure!(!log.is_broken(), "a write has failed");
        let Some(closed) = log.closed_from(log.local_start())? else {
            bail!("no segment is closed yet");
        };
        let span = (closed.base(), closed.last());
        // No id is used twice: each opening of a log has its own incarnation, and this program copies once.
        let id = segment_id(PARTITION, TELLER.broker, log.incarnation(), 0);
        let bundle = bundle_of(self.alloc, log, &closed)?;
        self.upload(log, id, closed, bundle)?;
        Ok(span)
    }

    /// Uploads a segment: a *started* event, its objects, a *finished* event. No broker reads the objects before that.
    fn upload<L: Disk>(
        &mut self,
        log: &LocalLog<L>,
        id: SegmentId,
        closed: Closed,
        bundle: Bundle,
    ) -> Result<()> {
        let mut copying = copying_of(self.alloc, log, id, closed, bundle)?;
        self.start(&copying)?;
        for number in 0..4 {
            self.put(&mut copying, number)?;
        }
        self.finish(&mut copying)
    }

    /// Appends the *started* event.
    fn start(&mut self, copying: &Copying) -> Result<()> {
        let note = copying.start_note(self.alloc, TELLER)?;
        self.meta.append(&note)?;
        Ok(())
    }

    /// Appends the *finished* event.
    fn finish(&mut self, copying: &mut Copying) -> Result<()> {
        let note = copying.finish_note(self.alloc, TELLER)?;
        self.meta.append(&note)?;
        Ok(())
    }

    /// Puts one of a segment's objects: batches, offset index, time index, leader epochs.
    fn put(&mut self, copying: &mut Copying, number: u8) -> Result<()> {
        match copying.key(number) {
            Some(key) => self.put_part(copying, &key),
            None => Ok(()),
        }
    }

    /// Puts the part of a segment that belongs under a key.
    fn put_part(&mut self, copying: &mut Copying, key: &ObjectKey) -> Result<()> {
        let bytes = copying.part(self.alloc, key.part)?;
        self.store.put(key, &bytes)?;
        Ok(())
    }

    /// Refreshes the view, and finds the remote segment that has an offset of the log. The log's own leader epochs
    /// decide: another leader may have copied other batches under the same offsets.
    pub fn find<L: Disk>(&mut self, log: &LocalLog<L>, offset: u64) -> Result<Piece> {
        refresh(&mut self.view, &mut self.meta)?;
        find(&self.view, log.line(), log.end(), offset).context("the tier doesn't have this offset")
    }

    /// Refreshes the view, and returns up to which offset the tier has the log without a gap.
    fn covered<L: Disk>(&mut self, log: &LocalLog<L>) -> Result<u64>
        ensures { IfOk result (λ end. end ≡ covered_to self.new.view.entries log.now.line log.now.end
            log.now.local_start) }
    {
        refresh(&mut self.view, &mut self.meta)?;
        Ok(covered_to(&self.view, log.line(), log.end(), log.local_start()))
    }

    /// Drops the first local segment, if the tier has each of its offsets. Returns its first and its last offset.
    pub fn trim<L: Disk>(&mut self, log: &mut LocalLog<L>) -> Result<(u64, u64)>
        ensures span { IfOk result (λ span. SpansFirst log.old.closed span) }
        ensures covered { OnOk result (IsFirstFlushed
            (covered_to self.new.view.entries log.old.line log.old.end log.old.local_start) log.old.closed) }
    {
        let covered = self.covered(log)?;
        drop_below(log, covered)
    }

    /// Reads the batches at an offset from the store, of one remote segment and below the flushed end.
    pub fn read<L: Disk>(&mut self, log: &LocalLog<L>, offset: u64) -> Result<Bytes> {
        let piece = self.find(log, offset)?;
        let entry = self.view.entry(piece.id).context("no such segment")?;
        let spot = place(
            PARTITION,
            piece.id,
            entry.packed,
            entry.custom.as_ref(),
            Part::Log,
        )
        .context("no layout")?;
        let bytes = get_spot(&mut self.store, &spot)?.context("no such object")?;
        run_of(&bytes, offset, LIMIT, log.stable(), piece.to)
    }
}

/// A segment under its remote id, with its parts.
fn copying_of<L: Disk>(
    alloc: Global,
    log: &LocalLog<L>,
    id: SegmentId,
    closed: Closed,
    bundle: Bundle,
) -> Result<Copying>
    ensures id { IfOk result (λ copying. copying.id ≡ id) }
    ensures segment { IfOk result (λ copying. copying.segment ≡ closed) }
{
    let interval = log.settings().index_interval;
    let copying = Copying::of(alloc, PARTITION, id, closed, log.line(), interval, false)?;
    Ok(copying.give(bundle))
}

/// Makes the parts of a segment in one pass over its batches.
fn bundle_of<L: Disk>(alloc: Global, log: &LocalLog<L>, closed: &Closed) -> Result<Bundle>
    ensures { IfOk result (λ bundle. bundle.source ≡ closed.now.bytes) }
{
    let interval = log.settings().index_interval;
    Ok(Bundle::of(alloc, closed, log.line(), interval)?)
}

/// Whether there is a first segment, and it ends at or below an offset.
fn is_first_below(closed: &[Growing], offset: u64) -> bool
    ensures { IsTrue result → IsFirstFlushed offset closed.now }
{
    match closed {
        [first, ..] => first.end() <= offset,
        [] => false,
    }
}

/// Drops the first local segment, if it is flushed and ends at or below an offset. Returns its first and its last
/// offset.
fn drop_below<L: Disk>(log: &mut LocalLog<L>, covered: u64) -> Result<(u64, u64)>
    ensures span { IfOk result (λ span. SpansFirst log.old.closed span) }
    ensures covered { OnOk result (IsFirstFlushed covered log.old.closed) }
{
    if log.is_broken() || !is_first_below(log.closed(), log.stable()) {
        bail!("the log is broken, or has no first segment that is flushed");
    }
    if !is_first_below(log.closed(), covered) {
        bail!("the tier doesn't have the first segment");
    }
    Ok(log.drop_first()?)
}

/// Cuts the batches at an offset out of a segment's bytes. They are checked on the way.
fn run_of(bytes: &Bytes, offset: u64, limit: u64, mark: u64, end: u64) -> Result<Bytes>
    ensures { IfOk result (λ run. (cut : Cutout) × IsRunCutAt bytes.now offset limit mark end cut
        × (run ≡ slice_range bytes.now cut.from cut.to)) }
{
    if mark <= offset || end <= offset {
        bail!("no batch to read at {offset}");
    }
    // Called for its clause `bound`, by which the proof knows that places fit.
    let _len = bytes.len();
    match take_run(bytes.as_slice(), offset, limit, mark, end) {
        Ok(cut) => Ok(bytes.slice(cut.from..cut.to)?),
        Err(bad) => bail!("the object is damaged at {}", bad.at),
    }
}
