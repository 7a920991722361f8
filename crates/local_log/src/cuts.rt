//! Truncation of a log, durable when the call returns.
//!
//! The manifest is written first, so running out of memory for it changes nothing, and no crash leaves one that lists
//! more than there is: the segment that will be the last one is synced, and then the manifest with the new end replaces
//! the old one. After that the files after the end are removed, from the last to the first, and the last one is cut.
//! What a crash brings back of them is in no manifest.

ghost use Rattle.std.specs.Prelude.{◌≡◌, ◌⊎◌, ◌+◌, ◌≤◌, ◌<◌, ℕ, length, false, true};
ghost use Rattle.std.specs.Prelude.{OnOk, OnErr, IfOk, IsErrOf, IsTrue};
ghost use Rattle.disk_model.specs.Content.{LeavesOnly, Image, Files, Keeps};
ghost use Rattle.tier_base.specs.declared.fault.Trouble.TheVariants as fault;
ghost use Rattle.tier_base.specs.Counts.{counted, Rose};
ghost use Rattle.tier_base.specs.Device.{Lasts, fate_of, failing};
ghost use Rattle.log_steps.specs.Runs.{Runs};
ghost use Rattle.epoch_line.specs.Line.{cut_end};
ghost use Rattle.log_manifest.specs.Spelling.{manifest_bytes};
ghost use Rattle.log_steps.specs.Opens.{Opens};
ghost use Rattle.local_log.specs.Listing.{front_to, manifest_of};
ghost use Rattle.local_log.specs.Log.{LogBecomes};
ghost use Rattle.local_log.specs.Cutting.{closed_by, open_by, cut_point, shortened, settled, cut, restarted, cut_at};
ghost use Rattle.local_log.specs.Cutting.{IsLeftUpTo, all_of, opened_to, Cutting, OpensEither, LogBreaks, OpensAs};
ghost use Rattle.local_log.specs.Cutting.{OpensAsOr, LeavesBeforeOrNow, StaysOrBreaks};

use crate::log::{LocalLog, refused};
use crate::seeking::end_by;
use crate::trimming::{cut_segments, listing_to, open_front, trim};
use disk_model::{Disk, FileName};
use log_steps::publish;
use std::alloc::AllocError;
use tier_base::{Failed, Trouble};

impl<D: Disk> LocalLog<D> {
    /// Truncates the log durably to an offset, or to the base offset of the batch that contains it. An offset below the
    /// local log start leaves the log empty. Fails if a disk call fails, which breaks the log, or if memory runs out.
    pub fn cut_to(&mut self, end: u64) -> Result<(), Trouble>
        requires unbroken { self.old.broken ≡ false }
        requires within { end ≤ self.old.end }
        ensures ok { OnOk result (LogBecomes D.content (cut_at self.old end) self.new) }
        ensures told { IsTrue (D.content self.old.disk).is_observable → self.old.local_start ≤ end
            → OnOk result (IsLeftUpTo self.old end self.new) }
        ensures durable { OnOk result ((c : Files) → Image (D.content self.new.disk) c
            → Opens c (all_of (cut_at self.old end))) }

        // A crash at any moment of the call leaves the flushed log of before, or the cut one.
        ensures any_moment { LeavesOnly (D.content self.old.disk) (D.content self.new.disk)
            (OpensEither self.old (cut_at self.old end)) }
        // Each of these images opens as an image of before does, or as the cut log.
        ensures opens { LeavesOnly (D.content self.old.disk) (D.content self.new.disk)
            (OpensAsOr (D.content self.old.disk) (all_of (cut_at self.old end))) }
        // So it opens as before the call, or as after it, whatever the answer is.
        ensures either { LeavesBeforeOrNow (D.content self.old.disk) (D.content self.new.disk) }

        ensures others { OnErr result (IsErrOf result fault.NoMemory ⊎ IsErrOf result fault.Failed) }
        ensures no_memory { IsErrOf result fault.NoMemory → LogBecomes D.content self.old self.new }
        ensures no_image { IsErrOf result fault.NoMemory → (c : Files) → Image (D.content self.new.disk) c
            → Image (D.content self.old.disk) c }
        ensures broken { IsErrOf result fault.Failed → self.new.broken ≡ true }
        ensures is_observable { (D.content self.new.disk).is_observable ≡ (D.content self.old.disk).is_observable }
        ensures control { Lasts (D.control self.old.disk) (D.control self.new.disk) }
        ensures cause { IsErrOf result fault.Failed
            → Rose (D.control self.old.disk).faults (D.control self.new.disk).faults }
        ensures quiet { (IsErrOf result fault.Failed → ⊥)
            → (D.control self.new.disk).faults ≡ (D.control self.old.disk).faults }
        ensures once { IsErrOf result fault.Failed
            → (D.control self.new.disk).faults ≡ counted (D.control self.old.disk).faults 1 }
    {
        if end < self.local_start {
            self.cut_before(end)
        } else {
            self.cut_behind(end)
        }
    }

    /// Cuts the log below its local start.
    fn cut_before(&mut self, end: u64) -> Result<(), Trouble>
        requires unbroken { self.old.broken ≡ false }
        requires below { end < self.old.local_start }
        ensures ok { OnOk result (LogBecomes D.content (restarted self.old end (cut_end self.old.line end)) self.new) }
        ensures durable { OnOk result ((c : Files) → Image (D.content self.new.disk) c
            → Opens c (all_of (restarted self.old end (cut_end self.old.line end)))) }
        ensures any_moment { LeavesOnly (D.content self.old.disk) (D.content self.new.disk)
            (OpensEither self.old (restarted self.old end (cut_end self.old.line end))) }
        // Each of these images opens as an image of before does, or as the empty log.
        ensures opens { LeavesOnly (D.content self.old.disk) (D.content self.new.disk)
            (OpensAsOr (D.content self.old.disk) (all_of (restarted self.old end (cut_end self.old.line end)))) }
        // So it opens as before the call, or as after it, whatever the answer is.
        ensures either { LeavesBeforeOrNow (D.content self.old.disk) (D.content self.new.disk) }
        ensures err { StaysOrBreaks D.content self.old self.new result }
        ensures is_observable { (D.content self.new.disk).is_observable ≡ (D.content self.old.disk).is_observable }
        ensures control { Runs (fate_of result) (D.control self.old.disk) (D.control self.new.disk) }
    {
        self.stands();
        let mut line = self.line.copy(self.alloc)?;
        line.cut_end(end);
        self.restart_at(end, line)
    }

    /// Cuts the log at or past its local start.
    fn cut_behind(&mut self, end: u64) -> Result<(), Trouble>
        requires unbroken { self.old.broken ≡ false }
        requires from { self.old.local_start ≤ end }
        requires within { end ≤ self.old.end }
        ensures ok { OnOk result (LogBecomes D.content
            (cut self.old (cut_point end self.old.closed self.old.active)) self.new) }
        ensures told { IsTrue (D.content self.old.disk).is_observable → OnOk result (IsLeftUpTo self.old end self.new) }
        ensures durable { OnOk result ((c : Files) → Image (D.content self.new.disk) c
            → Opens c (all_of (cut self.old (cut_point end self.old.closed self.old.active)))) }
        ensures any_moment { LeavesOnly (D.content self.old.disk) (D.content self.new.disk)
            (OpensEither self.old (cut self.old (cut_point end self.old.closed self.old.active))) }
        // Each of these images opens as an image of before does, or as the cut log.
        ensures opens { LeavesOnly (D.content self.old.disk) (D.content self.new.disk)
            (OpensAsOr (D.content self.old.disk)
            (all_of (cut self.old (cut_point end self.old.closed self.old.active)))) }
        // So it opens as before the call, or as after it, whatever the answer is.
        ensures either { LeavesBeforeOrNow (D.content self.old.disk) (D.content self.new.disk) }
        ensures err { StaysOrBreaks D.content self.old self.new result }
        ensures is_observable { (D.content self.new.disk).is_observable ≡ (D.content self.old.disk).is_observable }
        ensures control { Runs (fate_of result) (D.control self.old.disk) (D.control self.new.disk) }
    {
        let point = end_by(self.local_start, &self.closed, &self.active, end);
        self.cut_within(point)
    }

    /// Makes room for so many calls of the disk.
    pub(crate) fn make_room(&mut self, calls: u32) -> Result<(), AllocError>
        requires { self.old.broken ≡ false }
        ensures log { LogBecomes D.content self.old self.new }
        ensures same { self.new ≡ record self.old { disk = self.new.disk } }
        ensures keeps { Keeps (D.content self.old.disk) (D.content self.new.disk) }
        ensures room { OnOk result (calls ≤ D.spare self.new.disk) }
        ensures control { Lasts (D.control self.old.disk) (D.control self.new.disk) }
        ensures quiet { (D.control self.new.disk).faults ≡ (D.control self.old.disk).faults }
    {
        self.disk.reserve(calls)
    }

    /// Makes the manifest that lists the log up to one of its ends the present one, once the segment that it lists
    /// last is synced. The others were when they closed.
    fn settle(&mut self, bytes: &[u8], end: u64) -> Result<(), Trouble>
        requires unbroken { self.old.broken ≡ false }
        requires from { self.old.local_start ≤ end }
        requires within { end ≤ self.old.end }
        requires exact { cut_point end self.old.closed self.old.active ≡ end }
        requires room { 1 ≤ D.spare self.old.disk }
        requires bytes { bytes.now ≡ manifest_bytes (manifest_of self.old.incarnation self.old.local_start
            (closed_by end self.old.closed) (front_to end (open_by end self.old.closed self.old.active))
            (cut_end self.old.line end)) }
        ensures ok { OnOk result (LogBecomes D.content (settled self.old end) self.new) }
        ensures durable { OnOk result ((c : Files) → Image (D.content self.new.disk) c
            → Opens c (opened_to self.old end)) }
        ensures any_moment { LeavesOnly (D.content self.old.disk) (D.content self.new.disk) (Cutting self.old end) }
        // Each of these images opens as an image of before does, or as the cut log.
        ensures opens { LeavesOnly (D.content self.old.disk) (D.content self.new.disk)
            (OpensAsOr (D.content self.old.disk) (opened_to self.old end)) }
        // So it opens as before the call, or as after it, whatever the answer is.
        ensures either { LeavesBeforeOrNow (D.content self.old.disk) (D.content self.new.disk) }
        ensures others { OnErr result (IsErrOf result fault.NoMemory ⊎ IsErrOf result fault.Failed) }
        ensures no_memory { IsErrOf result fault.NoMemory → LogBecomes D.content self.old self.new }
        ensures no_image { IsErrOf result fault.NoMemory → (c : Files) → Image (D.content self.new.disk) c
            → Image (D.content self.old.disk) c }
        ensures broken { IsErrOf result fault.Failed → LogBreaks D.content self.old self.new }
        ensures room { OnOk result (D.spare self.new.disk + 1 ≡ D.spare self.old.disk) }
        ensures is_observable { (D.content self.new.disk).is_observable ≡ (D.content self.old.disk).is_observable }
        ensures control { Runs (fate_of result) (D.control self.old.disk) (D.control self.new.disk) }
    {
        let last = open_front(self.local_start, &self.closed, &self.active, end);
        match publish(&mut self.disk, FileName::Log(last.base), bytes) {
            Ok(()) => {
                self.flushed_end = end;
                Ok(())
            }
            Err(trouble) => Err(refused(&mut self.broken, trouble)),
        }
    }

    /// Drops what ends past an end at or past the flushed one, on the disk and in memory. Each image opens as before.
    fn shed(&mut self, end: u64) -> Result<(), Failed>
        requires unbroken { self.old.broken ≡ false }
        requires from { self.old.local_start ≤ end }
        requires above { self.old.flushed_end ≤ end }
        requires within { end ≤ self.old.end }
        requires exact { cut_point end self.old.closed self.old.active ≡ end }
        requires room { length self.old.closed + 1 ≤ D.spare self.old.disk }
        ensures ok { OnOk result (LogBecomes D.content (shortened self.old end) self.new) }
        ensures any_moment { LeavesOnly (D.content self.old.disk) (D.content self.new.disk)
            (OpensAs (D.content self.old.disk)) }
        ensures broken { OnErr result (LogBreaks D.content self.old self.new) }
        ensures is_observable { (D.content self.new.disk).is_observable ≡ (D.content self.old.disk).is_observable }
        ensures control { Runs (failing result) (D.control self.old.disk) (D.control self.new.disk) }
    {
        match trim(
            &mut self.disk,
            self.local_start,
            &self.closed,
            &self.active,
            end,
        ) {
            Ok(()) => {
                cut_segments(self.local_start, &mut self.closed, &mut self.active, end);
                self.line.cut_end(end);
                Ok(())
            }
            Err(Failed) => {
                self.broken = true;
                Err(Failed)
            }
        }
    }

    /// Cuts the log to one of its ends, with the manifest that lists it.
    fn cut_listed(&mut self, bytes: &[u8], end: u64) -> Result<(), Trouble>
        requires unbroken { self.old.broken ≡ false }
        requires from { self.old.local_start ≤ end }
        requires within { end ≤ self.old.end }
        requires exact { cut_point end self.old.closed self.old.active ≡ end }
        requires room { length self.old.closed + 2 ≤ D.spare self.old.disk }
        requires bytes { bytes.now ≡ manifest_bytes (manifest_of self.old.incarnation self.old.local_start
            (closed_by end self.old.closed) (front_to end (open_by end self.old.closed self.old.active))
            (cut_end self.old.line end)) }
        ensures ok { OnOk result (LogBecomes D.content (cut self.old end) self.new) }
        ensures durable { OnOk result ((c : Files) → Image (D.content self.new.disk) c
            → Opens c (opened_to self.old end)) }
        ensures any_moment { LeavesOnly (D.content self.old.disk) (D.content self.new.disk) (Cutting self.old end) }
        // Each of these images opens as an image of before does, or as the cut log.
        ensures opens { LeavesOnly (D.content self.old.disk) (D.content self.new.disk)
            (OpensAsOr (D.content self.old.disk) (opened_to self.old end)) }
        // So it opens as before the call, or as after it, whatever the answer is.
        ensures either { LeavesBeforeOrNow (D.content self.old.disk) (D.content self.new.disk) }
        ensures err { StaysOrBreaks D.content self.old self.new result }
        ensures is_observable { (D.content self.new.disk).is_observable ≡ (D.content self.old.disk).is_observable }
        ensures control { Runs (fate_of result) (D.control self.old.disk) (D.control self.new.disk) }
    {
        self.settle(bytes, end)?;
        Ok(self.shed(end)?)
    }

    /// Cuts the log to one of its ends.
    fn cut_within(&mut self, end: u64) -> Result<(), Trouble>
        requires unbroken { self.old.broken ≡ false }
        requires from { self.old.local_start ≤ end }
        requires within { end ≤ self.old.end }
        requires exact { cut_point end self.old.closed self.old.active ≡ end }
        ensures ok { OnOk result (LogBecomes D.content (cut self.old end) self.new) }
        ensures durable { OnOk result ((c : Files) → Image (D.content self.new.disk) c
            → Opens c (opened_to self.old end)) }
        ensures any_moment { LeavesOnly (D.content self.old.disk) (D.content self.new.disk) (Cutting self.old end) }
        // Each of these images opens as an image of before does, or as the cut log.
        ensures opens { LeavesOnly (D.content self.old.disk) (D.content self.new.disk)
            (OpensAsOr (D.content self.old.disk) (opened_to self.old end)) }
        // So it opens as before the call, or as after it, whatever the answer is.
        ensures either { LeavesBeforeOrNow (D.content self.old.disk) (D.content self.new.disk) }
        ensures err { StaysOrBreaks D.content self.old self.new result }
        ensures is_observable { (D.content self.new.disk).is_observable ≡ (D.content self.old.disk).is_observable }
        ensures control { Runs (fate_of result) (D.control self.old.disk) (D.control self.new.disk) }
    {
        self.stands();
        let bytes = self.listing_cut(end)?;
        let calls = self.closed.len() as u32 + 2;
        self.make_room(calls)?;
        self.cut_listed(&bytes, end)
    }

    /// The bytes of the manifest that lists the log cut to one of its ends.
    fn listing_cut(&self, end: u64) -> Result<Vec<u8>, AllocError>
        requires unbroken { self.now.broken ≡ false }
        requires from { self.now.local_start ≤ end }
        requires within { end ≤ self.now.end }
        requires exact { cut_point end self.now.closed self.now.active ≡ end }
        ensures { IfOk result (λ bytes. bytes.items
            ≡ manifest_bytes (manifest_of self.now.incarnation self.now.local_start (closed_by end self.now.closed)
            (front_to end (open_by end self.now.closed self.now.active)) (cut_end self.now.line end))) }
    {
        let mut line = self.line.copy(self.alloc)?;
        line.cut_end(end);
        listing_to(
            self.alloc,
            self.incarnation,
            self.local_start,
            &self.closed,
            &self.active,
            end,
            &line,
        )
    }
}
