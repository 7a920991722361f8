//! Dropping the first closed segment of a log: the local part of a trim.
//!
//! The manifest without it is written first, and then its file is removed. The new manifest lists no more than the
//! old one, so what isn't flushed stays so.

ghost use Rattle.std.specs.Prelude.{◌≡◌, ◌⊎◌, ◌+◌, ◌≤◌, ◌<◌, ◌∷◌, ℕ, [], length};
ghost use Rattle.std.specs.Prelude.{false, true, OnOk, OnErr, IfOk, IsErrOf};
ghost use Rattle.disk_model.specs.Content.{LeavesOnly, Image, Files};
ghost use Rattle.tier_base.specs.declared.fault.Trouble.TheVariants as fault;
ghost use Rattle.tier_base.specs.Counts.{counted, Rose};
ghost use Rattle.tier_base.specs.Device.{Lasts, fate_of};
ghost use Rattle.log_steps.specs.Runs.{Runs};
ghost use Rattle.epoch_line.specs.Line.{cut_end};
ghost use Rattle.log_manifest.specs.Spelling.{manifest_bytes};
ghost use Rattle.log_steps.specs.Opens.{Opens};
ghost use Rattle.local_log.specs.Listing.{front_to, manifest_of};
ghost use Rattle.local_log.specs.Log.{LogBecomes, flushed_log};
ghost use Rattle.local_log.specs.Cutting.{closed_by, open_by, OpensAsOr, LeavesBeforeOrNow, StaysOrBreaks};
ghost use Rattle.local_log.specs.Dropping.{rest_of, start_behind, IsFirstFlushed, SpansFirst, dropped, OpensDropped};

use crate::log::{LocalLog, refused};
use crate::restarting::renew;
use crate::trimming::listing_to;
use disk_model::Disk;
use std::alloc::AllocError;
use tier_base::Trouble;

impl<D: Disk> LocalLog<D> {
    /// Drops the first closed segment durably, and returns its base offset and its last offset. The flushed end stays
    /// the same. Fails if a disk call fails, which breaks the log, or if memory runs out.
    pub fn drop_first(&mut self) -> Result<(u64, u64), Trouble>
        requires unbroken { self.old.broken ≡ false }
        requires first { IsFirstFlushed self.old.flushed_end self.old.closed }
        ensures answer { IfOk result (λ answer. SpansFirst self.old.closed answer) }
        ensures ok { OnOk result (LogBecomes D.content (dropped self.old) self.new) }
        ensures durable { OnOk result ((c : Files) → Image (D.content self.new.disk) c
            → Opens c (flushed_log (dropped self.old))) }

        // A crash at any moment of the call leaves the flushed log of before, or the one without the segment.
        ensures any_moment { LeavesOnly (D.content self.old.disk) (D.content self.new.disk) (OpensDropped self.old) }
        // Each of these images opens as an image of before does, or as the log without the segment.
        ensures opens { LeavesOnly (D.content self.old.disk) (D.content self.new.disk)
            (OpensAsOr (D.content self.old.disk) (flushed_log (dropped self.old))) }
        // So it opens as before the call, or as after it, whatever the answer is.
        ensures either { LeavesBeforeOrNow (D.content self.old.disk) (D.content self.new.disk) }

        ensures others { OnErr result (IsErrOf result fault.NoMemory ⊎ IsErrOf result fault.Failed) }
        ensures no_memory { IsErrOf result fault.NoMemory → LogBecomes D.content self.old self.new }
        ensures no_image { IsErrOf result fault.NoMemory → (c : Files) → Image (D.content self.new.disk) c
            → Image (D.content self.old.disk) c }
        ensures broken { IsErrOf result fault.Failed → self.new.broken ≡ true }
        ensures is_observable { (D.content self.new.disk).is_observable ≡ (D.content self.old.disk).is_observable }
        ensures control { Lasts (D.control self.old.disk) (D.control self.new.disk) }
        ensures cause { IsErrOf result fault.Failed
            → Rose (D.control self.old.disk).faults (D.control self.new.disk).faults }
        ensures quiet { (IsErrOf result fault.Failed → ⊥)
            → (D.control self.new.disk).faults ≡ (D.control self.old.disk).faults }
        ensures once { IsErrOf result fault.Failed
            → (D.control self.new.disk).faults ≡ counted (D.control self.old.disk).faults 1 }
    {
        self.stands();
        let bytes = self.listing_behind()?;
        self.make_room(1)?;
        self.drop_listed(&bytes)
    }

    /// The bytes of the manifest that lists the flushed log without its first segment.
    fn listing_behind(&self) -> Result<Vec<u8>, AllocError>
        requires unbroken { self.now.broken ≡ false }
        requires first { IsFirstFlushed self.now.flushed_end self.now.closed }
        ensures { IfOk result (λ bytes. bytes.items
            ≡ manifest_bytes (manifest_of self.now.incarnation (start_behind self.now.local_start self.now.closed)
            (closed_by self.now.flushed_end (rest_of self.now.closed))
            (front_to self.now.flushed_end (open_by self.now.flushed_end (rest_of self.now.closed) self.now.active))
            (cut_end self.now.line (self.now.flushed_end + 1)))) }
    {
        let mut line = self.line.copy(self.alloc)?;
        line.cut_end(self.flushed_end + 1);
        let start = self.closed[0].end();
        let (_, rest) = self.closed.split_at(1);
        listing_to(
            self.alloc,
            self.incarnation,
            start,
            rest,
            &self.active,
            self.flushed_end,
            &line,
        )
    }

    /// Makes the manifest without the first segment the present one, and removes that segment's file.
    fn drop_listed(&mut self, bytes: &[u8]) -> Result<(u64, u64), Trouble>
        requires unbroken { self.old.broken ≡ false }
        requires first { IsFirstFlushed self.old.flushed_end self.old.closed }
        requires room { 1 ≤ D.spare self.old.disk }
        requires bytes { bytes.now
            ≡ manifest_bytes (manifest_of self.old.incarnation (start_behind self.old.local_start self.old.closed)
            (closed_by self.old.flushed_end (rest_of self.old.closed))
            (front_to self.old.flushed_end (open_by self.old.flushed_end (rest_of self.old.closed) self.old.active))
            (cut_end self.old.line (self.old.flushed_end + 1))) }
        ensures answer { IfOk result (λ answer. SpansFirst self.old.closed answer) }
        ensures ok { OnOk result (LogBecomes D.content (dropped self.old) self.new) }
        ensures durable { OnOk result ((c : Files) → Image (D.content self.new.disk) c
            → Opens c (flushed_log (dropped self.old))) }
        ensures any_moment { LeavesOnly (D.content self.old.disk) (D.content self.new.disk) (OpensDropped self.old) }
        // Each of these images opens as an image of before does, or as the log without the segment.
        ensures opens { LeavesOnly (D.content self.old.disk) (D.content self.new.disk)
            (OpensAsOr (D.content self.old.disk) (flushed_log (dropped self.old))) }
        // So it opens as before the call, or as after it, whatever the answer is.
        ensures either { LeavesBeforeOrNow (D.content self.old.disk) (D.content self.new.disk) }
        ensures err { StaysOrBreaks D.content self.old self.new result }
        ensures is_observable { (D.content self.new.disk).is_observable ≡ (D.content self.old.disk).is_observable }
        ensures control { Runs (fate_of result) (D.control self.old.disk) (D.control self.new.disk) }
    {
        let first = &self.closed[0];
        let base = first.base();
        let end = first.end();
        match renew(&mut self.disk, bytes, &[], first) {
            Ok(()) => {
                let _ = self.closed.remove(0);
                self.local_start = end;
                Ok((base, end - 1))
            }
            Err(trouble) => Err(refused(&mut self.broken, trouble)),
        }
    }
}
