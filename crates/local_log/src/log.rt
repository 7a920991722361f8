//! The log itself: creating, opening, appending, rolling and flushing.
//!
//! A write that the disk reports as failed may have been done or not. So the log is broken from then on and can only
//! be closed; opening it again finds what was flushed. Running out of memory is noticed before the first change, or
//! changes nothing that a crash could leave.

ghost use Rattle.std.specs.Prelude.{◌≡◌, ◌⊎◌, ◌↔◌, ◌+◌, ◌≤◌, ◌<◌, ◌^◌, ◌++◌, ◌∷◌, List, [], ℕ, length, false};
ghost use Rattle.std.specs.Prelude.{true, None, IfOk, IfErr, OnOk, OnErr, IsTrue, IsFalse, IsErrOf};
ghost use Rattle.disk_model.specs.Content.{LeavesOnly, Image, Files, Keeps};
ghost use Rattle.tier_base.specs.Counts.{counted, Rose};
ghost use Rattle.tier_base.specs.Device.{Lasts, Arms, fate_of};
ghost use Rattle.log_steps.specs.Runs.{Runs};
ghost use Rattle.log_terms.specs.Batch.{last_of};
ghost use Rattle.epoch_line.specs.Line.{IsLine, last_epoch, assign, cut_end};
ghost use Rattle.log_steps.specs.Opens.{Opened, Opens};
ghost use Rattle.log_steps.specs.Reopens.{Reopens, Opening};
ghost use Rattle.tier_base.specs.declared.plain.FileName.{FileName};
ghost use Rattle.tier_base.specs.declared.fault.Trouble.TheVariants as fault;
ghost use Rattle.local_log.specs.declared.refusal.CreateRefusal.TheVariants as create;
ghost use Rattle.local_log.specs.declared.refusal.OpenRefusal.TheVariants as opening;
ghost use Rattle.local_log.specs.declared.refusal.AppendRefusal.TheVariants as append;
ghost use Rattle.local_log.specs.declared.refusal.RollRefusal.TheVariants as roll;
ghost use Rattle.std.specs.Option.{ForSome};
ghost use Rattle.log_steps.specs.Fronts.{Each};
ghost use Rattle.local_log.specs.Stored.{size_of};
ghost use Rattle.local_log.specs.Run.{IsRunFor, is_due, rolled, IsAppended, IsAppendedTo};
ghost use Rattle.local_log.specs.Taking.{line_or};
ghost use Rattle.local_log.specs.Coheres.{Coheres};
ghost use Rattle.local_log.specs.Cutting.{OpensAs, OpensAsOr, LeavesBeforeOrNow};
ghost use Rattle.local_log.specs.Refusing.{IsSoundCause, IsOfManifest};
ghost use Rattle.local_log.specs.Opening.{IsOpenLog, IsLogOf, Lists, HoldsLast, OpenFails, OpenFailsIn};
ghost use Rattle.local_log.specs.Cutting.{whole_log};
ghost use Rattle.local_log.specs.Log.{IsNewLog, committed, Committing, AreSettings, LogBecomes};
ghost use Rattle.local_log.specs.Log.{OpensFlushed, flushed_log, Creating, first_log};

use crate::listing::listing;
use crate::opening::open_log;
use crate::refusal::{AppendRefusal, CreateRefusal, OpenRefusal, RollRefusal};
use crate::run::{first_asked, rolls_before, take_in};
use disk_model::{Disk, FileName};
use epoch_line::Line;
use log_steps::publish;
use segment_file::Growing;
use std::alloc::{AllocError, Global};
use std::marker::Model;
use std::mem;
use tier_base::{Failed, OFFSET_LIMIT, Settings, Trouble};

/// The most segments of a log, the open one included.
const MOST_SEGMENTS: usize = 4_096;

/// A local log over a disk.
#[derive(Drop)]
pub struct LocalLog<D: Disk> {
    pub(crate) alloc: Global,
    pub(crate) disk: D,
    pub(crate) settings: Settings,
    pub(crate) incarnation: u32,
    pub(crate) local_start: u64,
    pub(crate) closed: Vec<Growing>,
    pub(crate) active: Growing,
    pub(crate) line: Line,
    pub(crate) flushed_end: u64,
    pub(crate) broken: bool,
}

impl<D: Disk> Model for LocalLog<D> {
    ghost use Rattle.local_log.specs.Log.{Log};

    ghost Value = { Log D };

    ghost use Rattle.local_log.specs.Inside.{log_in, IsLogSound};

    ghost view = { log_in D.content };

    ghost invariant = { IsLogSound D.content };
}

impl<D: Disk> LocalLog<D> {
    /// Creates the empty log at offset 0 on a disk without files. An `Err` returns the disk.
    pub fn create(
        alloc: Global,
        disk: D,
        settings: Settings,
    ) -> Result<LocalLog<D>, (D, CreateRefusal)>
        requires settings { AreSettings settings }
        requires empty { IsTrue (D.content disk).is_observable → (n : FileName) → (D.content disk).files n ≡ None }
        ensures log { IfOk result (λ log. IsNewLog settings log) }
        ensures batches { IfOk result (λ log. IsTrue (D.content disk).is_observable → log.batches ≡ []) }
        ensures is_observable { IfOk result
            (λ log. (D.content log.disk).is_observable ≡ (D.content disk).is_observable) }
        ensures durable { IfOk result (λ log. (c : Files) → Image (D.content log.disk) c → Opens c first_log) }

        // A crash at any moment of the call leaves what it might have left before, or the new log.
        ensures any_moment { IfOk result
            (λ log. LeavesOnly (D.content disk) (D.content log.disk) (Creating (D.content disk))) }
        ensures any_moment_err { IfErr result
            (λ e. LeavesOnly (D.content disk) (D.content e.0) (Creating (D.content disk))) }
        ensures again { IfErr result (λ e. Reopens (D.content disk) → Reopens (D.content e.0)) }

        ensures control { IfOk result (λ log. Lasts (D.control disk) (D.control log.disk)) }
        ensures control_err { IfErr result (λ e. Lasts (D.control disk) (D.control e.0)) }
        ensures cause { IfErr result (λ e. e.1 ≡ create.DiskFault
            → Rose (D.control disk).faults (D.control e.0).faults) }
        ensures quiet { IfOk result (λ log. (D.control log.disk).faults ≡ (D.control disk).faults) }
        ensures quiet_err { IfErr result (λ e. (e.1 ≡ create.DiskFault → ⊥)
            → (D.control e.0).faults ≡ (D.control disk).faults) }
        ensures once { IfErr result (λ e. e.1 ≡ create.DiskFault
            → (D.control e.0).faults ≡ counted (D.control disk).faults 1) }
    {
        let mut disk = disk;
        let active = Growing::new(alloc, 0, settings.index_interval);
        let line = Line::new(alloc);
        let bytes = match listing(alloc, 1, 0, &[], &active, &line) {
            Ok(bytes) => bytes,
            Err(AllocError) => return Err((disk, CreateRefusal::NoMemory)),
        };
        match disk.replace(FileName::Manifest, &bytes) {
            Ok(()) => Ok(LocalLog {
                alloc,
                disk,
                settings,
                incarnation: 1,
                local_start: 0,
                closed: Vec::new(alloc),
                active,
                line,
                flushed_end: 0,
                broken: false,
            }),
            Err(Trouble::NoMemory) => Err((disk, CreateRefusal::NoMemory)),
            Err(Trouble::Failed) => Err((disk, CreateRefusal::DiskFault)),
        }
    }

    /// Opens the log that the disk's manifest describes, under the next incarnation, whatever else is on the disk. A
    /// disk without a manifest has the empty log at offset 0. An invalid manifest, or one with the last incarnation,
    /// is refused before the first change to the disk, and never written again. An `Err` returns the disk.
    pub fn open_at(
        alloc: Global,
        disk: D,
        settings: Settings,
    ) -> Result<LocalLog<D>, (D, OpenRefusal)>
        requires settings { AreSettings settings }
        ensures log { IfOk result (λ log. IsOpenLog settings log) }
        ensures is_observable { IfOk result
            (λ log. (D.content log.disk).is_observable ≡ (D.content disk).is_observable) }
        ensures tells_err { IfErr result (λ e. (D.content e.0).is_observable ≡ (D.content disk).is_observable) }
        ensures opened { IfOk result (λ log. IsTrue (D.content disk).is_observable
            → (o : Opened) × Opens (D.content disk).files o × IsLogOf o log) }
        ensures segments { IfOk result (λ log. IsTrue (D.content disk).is_observable
            → Lists (D.content disk).files (log.closed ++ log.active ∷ [])) }
        ensures durable { IfOk result (λ log. (c : Files) → Image (D.content log.disk) c → Opens c (whole_log log)) }

        // Where a log could be opened after any crash before, a crash at any moment of the call leaves what it might
        // have left before, or what was read, perhaps under the next incarnation.
        ensures any_moment { IfOk result (λ log. Reopens (D.content disk)
            → LeavesOnly (D.content disk) (D.content log.disk) (Opening (D.content disk))) }
        ensures any_moment_err { IfErr result (λ e. Reopens (D.content disk)
            → LeavesOnly (D.content disk) (D.content e.0) (Opening (D.content disk))) }
        ensures again { IfErr result (λ e. Reopens (D.content disk) → Reopens (D.content e.0)) }

        // Each cause, by what the disk last returned. A fault of the manifest is reported before the first change, and
        // none of what the disk returned where what it reads opens.
        ensures err { IfErr result (λ e. OpenFails (D.control e.0).last_read e.1) }
        ensures place { IfErr result (λ e. IsTrue (D.content disk).is_observable
            → OpenFailsIn (D.content disk).files e.1) }
        ensures sound { IfErr result (λ e. IsTrue (D.content disk).is_observable
            → (o : Opened) → Opens (D.content disk).files o → IsSoundCause e.1) }
        ensures last { IfErr result (λ e. e.1 ≡ opening.LastIncarnation → IsTrue (D.content disk).is_observable
            → HoldsLast (D.content disk).files) }
        ensures unchanged { IfErr result (λ e. IsOfManifest e.1 → Keeps (D.content disk) (D.content e.0)) }
        ensures control { IfOk result (λ log. Lasts (D.control disk) (D.control log.disk)) }
        ensures control_err { IfErr result (λ e. Lasts (D.control disk) (D.control e.0)) }
        ensures cause { IfErr result (λ e. e.1 ≡ opening.DiskFault
            → Rose (D.control disk).faults (D.control e.0).faults) }
        ensures quiet { IfOk result (λ log. (D.control log.disk).faults ≡ (D.control disk).faults) }
        ensures quiet_err { IfErr result (λ e. (e.1 ≡ opening.DiskFault → ⊥)
            → (D.control e.0).faults ≡ (D.control disk).faults) }
        ensures once { IfErr result (λ e. e.1 ≡ opening.DiskFault
            → (D.control e.0).faults ≡ counted (D.control disk).faults 1) }
    {
        let mut disk = disk;
        match open_log(alloc, &mut disk, settings.index_interval) {
            Ok(parts) => {
                let flushed_end = parts.active.end();
                Ok(LocalLog {
                    alloc,
                    disk,
                    settings,
                    incarnation: parts.incarnation,
                    local_start: parts.local_start,
                    closed: parts.closed,
                    active: parts.active,
                    line: parts.line,
                    flushed_end,
                    broken: false,
                })
            }
            Err(refusal) => Err((disk, refusal)),
        }
    }

    /// For proofs: whatever a crash leaves of the disk now opens as the flushed log. Does nothing at run time;
    /// calling it cites what the type guarantees of each of its values. A law over definitions could not say it,
    /// since it doesn't hold of every `Log`.
    pub fn stands(&self)
        ensures { self.now.broken ≡ false → (c : Files) → Image (D.content self.now.disk) c → OpensFlushed self.now c }
    {
        // What is read of a log has what its type keeps reported.
        let _ = &self.active;
    }

    /// For proofs: the batches are valid and consecutive up to the end, and truncations and reads end where a batch
    /// does. Does nothing at run time, as `stands`.
    pub fn coheres(&self)
        ensures { self.now.broken ≡ false → IsTrue (D.content self.now.disk).is_observable → Coheres self.now }
    {
        let _ = &self.active;
    }

    /// For proofs: a log can be opened again from the disk, also after a power cut and if this one is broken. Does
    /// nothing at run time, as `stands`.
    pub fn reopens(&self)
        ensures { Reopens (D.content self.now.disk) }
    {
        let _ = &self.active;
    }

    /// Returns the disk, without flushing. A log can be opened from it again, also if this one is broken.
    pub fn close(self) -> D
        ensures disk { result ≡ self.disk }
        ensures again { Reopens (D.content result) }
    {
        self.disk
    }

    /// Appends as many batches from the front of `run` as fit into one segment, at least one, and returns the first and
    /// the last offset of what it took. Rolls first if a roll is due. What is appended is durable after the next
    /// `flush`. `takes` tests whether the log can take `run`. `AppendRefusal` has the causes of a failure.
    pub fn append(&mut self, run: &[u8]) -> Result<(u64, u64), AppendRefusal>
        requires unbroken { self.old.broken ≡ false }
        requires run { IsRunFor self.old.end self.old.line run.now }
        ensures ok { IfOk result (λ answer. IsAppended D.content self.old self.new run.now answer) }
        ensures some { IfOk result (λ answer. answer.0 ≤ answer.1) }

        // A crash at any moment of the call leaves the flushed log of before.
        ensures any_moment { LeavesOnly (D.content self.old.disk) (D.content self.new.disk)
            (OpensFlushed self.old) }
        // Each of these images opens as an image of before does.
        ensures opens { LeavesOnly (D.content self.old.disk) (D.content self.new.disk)
            (OpensAs (D.content self.old.disk)) }

        // Each cause, where no earlier one holds.
        ensures last_offset { IsErrOf result append.LastOffset ↔ (2 ^ 62 ≤ last_of run.now) }
        ensures many { IsErrOf result append.TooManySegments
            ↔ (last_of run.now < 2 ^ 62) × IsTrue (is_due self.old run.now) × (4095 ≤ length self.old.closed) }
        ensures others { OnErr result ((IsErrOf result append.LastOffset ⊎ IsErrOf result append.TooManySegments)
            ⊎ (IsErrOf result append.NoMemory ⊎ IsErrOf result append.DiskFault)) }
        ensures unchanged { (IsErrOf result append.LastOffset ⊎ IsErrOf result append.TooManySegments)
            → self.new ≡ self.old }
        ensures no_memory { IsErrOf result append.NoMemory → LogBecomes D.content self.old self.new }
        ensures broken { IsErrOf result append.DiskFault
            → LogBecomes D.content (record self.old { broken = true }) self.new }
        ensures control { Lasts (D.control self.old.disk) (D.control self.new.disk) }
        ensures cause { IsErrOf result append.DiskFault
            → Rose (D.control self.old.disk).faults (D.control self.new.disk).faults }
        ensures quiet { (IsErrOf result append.DiskFault → ⊥)
            → (D.control self.new.disk).faults ≡ (D.control self.old.disk).faults }
        ensures once { IsErrOf result append.DiskFault
            → (D.control self.new.disk).faults ≡ counted (D.control self.old.disk).faults 1 }
    {
        let most = self.settings.segment_bytes;
        let base = self.active.base();
        let size = self.active.size();
        let first = first_asked(run);
        if first.last >= OFFSET_LIMIT {
            return Err(AppendRefusal::LastOffset);
        }
        if !rolls_before(most, base, size, first.size, first.last) {
            return Ok(self.append_here(run)?);
        }
        if self.closed.len() + 1 >= MOST_SEGMENTS {
            return Err(AppendRefusal::TooManySegments);
        }
        Ok(self.append_behind(run)?)
    }

    /// Appends to the open segment.
    fn append_here(&mut self, run: &[u8]) -> Result<(u64, u64), Trouble>
        requires unbroken { self.old.broken ≡ false }
        requires run { IsRunFor self.old.end self.old.line run.now }
        requires fits { is_due self.old run.now ≡ false }
        requires low { last_of run.now < 2 ^ 62 }
        ensures ok { IfOk result (λ answer. IsAppendedTo D.content self.old self.old self.new run.now answer) }
        ensures some { IfOk result (λ answer. answer.0 ≤ answer.1) }
        ensures others { OnErr result (IsErrOf result fault.NoMemory ⊎ IsErrOf result fault.Failed) }

        // A crash at any moment of the call leaves the flushed log of before.
        ensures any_moment { LeavesOnly (D.content self.old.disk) (D.content self.new.disk)
            (OpensFlushed self.old) }
        // Each of these images opens as an image of before does.
        ensures opens { LeavesOnly (D.content self.old.disk) (D.content self.new.disk)
            (OpensAs (D.content self.old.disk)) }

        ensures no_memory { IsErrOf result fault.NoMemory → LogBecomes D.content self.old self.new }
        ensures broken { IsErrOf result fault.Failed
            → LogBecomes D.content (record self.old { broken = true }) self.new }
        ensures control { Runs (fate_of result) (D.control self.old.disk) (D.control self.new.disk) }
    {
        let end = self.active.end();
        let most = self.settings.segment_bytes;
        let (len, line) = take_in(self.alloc, &mut self.active, &self.line, run, most)?;
        let (taken, _) = run.split_at(len);
        let outcome = self.disk.append(FileName::Log(self.active.base()), taken);
        replace_if(&mut self.line, line, outcome.is_ok());
        match outcome {
            Ok(()) => Ok((end, self.active.end() - 1)),
            Err(trouble) => {
                self.active.cut_to(end);
                Err(refused(&mut self.broken, trouble))
            }
        }
    }

    /// Closes the open segment and appends to a new one. The closing one is synced before anything is appended.
    fn append_behind(&mut self, run: &[u8]) -> Result<(u64, u64), Trouble>
        requires unbroken { self.old.broken ≡ false }
        requires run { IsRunFor self.old.end self.old.line run.now }
        requires some { 0 < size_of self.old.active }
        requires few { length self.old.closed < 4095 }
        requires low { last_of run.now < 2 ^ 62 }
        ensures ok { IfOk result (λ answer. IsAppendedTo D.content self.old (rolled self.old) self.new run.now answer) }
        ensures some { IfOk result (λ answer. answer.0 ≤ answer.1) }
        ensures others { OnErr result (IsErrOf result fault.NoMemory ⊎ IsErrOf result fault.Failed) }

        // A crash at any moment of the call leaves the flushed log of before.
        ensures any_moment { LeavesOnly (D.content self.old.disk) (D.content self.new.disk)
            (OpensFlushed self.old) }
        // Each of these images opens as an image of before does.
        ensures opens { LeavesOnly (D.content self.old.disk) (D.content self.new.disk)
            (OpensAs (D.content self.old.disk)) }

        ensures no_memory { IsErrOf result fault.NoMemory → LogBecomes D.content self.old self.new }
        ensures broken { IsErrOf result fault.Failed
            → LogBecomes D.content (record self.old { broken = true }) self.new }
        ensures control { Runs (fate_of result) (D.control self.old.disk) (D.control self.new.disk) }
    {
        self.closed.reserve(1)?;
        self.disk.reserve(1)?;
        match self.disk.sync(FileName::Log(self.active.base())) {
            Ok(()) => {}
            Err(Failed) => {
                self.broken = true;
                return Err(Trouble::Failed);
            }
        }
        let end = self.active.end();
        let most = self.settings.segment_bytes;
        let mut next = Growing::new(self.alloc, end, self.settings.index_interval);
        let (len, line) = take_in(self.alloc, &mut next, &self.line, run, most)?;
        let (taken, _) = run.split_at(len);
        let outcome = self.disk.append(FileName::Log(end), taken);
        replace_if(&mut self.line, line, outcome.is_ok());
        match outcome {
            Ok(()) => {
                let full = mem::replace(&mut self.active, next);
                self.closed.push_reserved(full);
                Ok((end, self.active.end() - 1))
            }
            Err(trouble) => Err(refused(&mut self.broken, trouble)),
        }
    }

    /// Closes the open segment, which is synced, and opens a new one. Returns the new one's base offset. `RollRefusal`
    /// has the causes of a failure.
    pub fn roll(&mut self) -> Result<u64, RollRefusal>
        requires { self.old.broken ≡ false }
        ensures base { IfOk result (λ base. base ≡ self.old.end) }
        ensures ok { OnOk result (LogBecomes D.content (rolled self.old) self.new) }

        // A crash at any moment of the call leaves the flushed log of before.
        ensures any_moment { LeavesOnly (D.content self.old.disk) (D.content self.new.disk)
            (OpensFlushed self.old) }
        // Each of these images opens as an image of before does.
        ensures opens { LeavesOnly (D.content self.old.disk) (D.content self.new.disk)
            (OpensAs (D.content self.old.disk)) }

        // Each cause, where no earlier one holds.
        ensures empty { IsErrOf result roll.EmptySegment ↔ (size_of self.old.active ≡ 0) }
        ensures many { IsErrOf result roll.TooManySegments
            ↔ (0 < size_of self.old.active) × (4095 ≤ length self.old.closed) }
        ensures others { OnErr result ((IsErrOf result roll.EmptySegment ⊎ IsErrOf result roll.TooManySegments)
            ⊎ (IsErrOf result roll.NoMemory ⊎ IsErrOf result roll.DiskFault)) }
        ensures unchanged { (IsErrOf result roll.EmptySegment ⊎ IsErrOf result roll.TooManySegments)
            → self.new ≡ self.old }
        ensures no_memory { IsErrOf result roll.NoMemory → LogBecomes D.content self.old self.new }
        ensures broken { IsErrOf result roll.DiskFault
            → LogBecomes D.content (record self.old { broken = true }) self.new }
        ensures control { Lasts (D.control self.old.disk) (D.control self.new.disk) }
        ensures cause { IsErrOf result roll.DiskFault
            → Rose (D.control self.old.disk).faults (D.control self.new.disk).faults }
        ensures quiet { (IsErrOf result roll.DiskFault → ⊥)
            → (D.control self.new.disk).faults ≡ (D.control self.old.disk).faults }
        ensures once { IsErrOf result roll.DiskFault
            → (D.control self.new.disk).faults ≡ counted (D.control self.old.disk).faults 1 }
    {
        if self.active.size() == 0 {
            return Err(RollRefusal::EmptySegment);
        }
        if self.closed.len() + 1 >= MOST_SEGMENTS {
            return Err(RollRefusal::TooManySegments);
        }
        self.closed.reserve(1)?;
        self.disk.reserve(1)?;
        let end = self.active.end();
        match self.disk.sync(FileName::Log(self.active.base())) {
            Ok(()) => {
                let next = Growing::new(self.alloc, end, self.settings.index_interval);
                let full = mem::replace(&mut self.active, next);
                self.closed.push_reserved(full);
                Ok(end)
            }
            Err(Failed) => {
                self.broken = true;
                Err(RollRefusal::DiskFault)
            }
        }
    }

    /// Makes the whole log durable, and returns its end. Fails if a disk call fails, which breaks the log, or if memory
    /// runs out.
    pub fn flush(&mut self) -> Result<u64, Trouble>
        requires { self.old.broken ≡ false }
        ensures end { IfOk result (λ end. end ≡ self.old.end) }
        ensures ok { OnOk result (LogBecomes D.content (committed self.old self.old.line) self.new) }
        ensures others { OnErr result (IsErrOf result fault.NoMemory ⊎ IsErrOf result fault.Failed) }
        ensures durable { OnOk result ((c : Files) → Image (D.content self.new.disk) c
            → Opens c (flushed_log self.new)) }

        // A crash at any moment of the call leaves the flushed log of before, or all of the log.
        ensures any_moment { LeavesOnly (D.content self.old.disk) (D.content self.new.disk)
            (Committing self.old self.old.line) }
        // Each of these images opens as an image of before does, or as all of the log.
        ensures opens { LeavesOnly (D.content self.old.disk) (D.content self.new.disk)
            (OpensAsOr (D.content self.old.disk) (flushed_log (committed self.old self.old.line))) }
        // So it opens as before the call, or as after it, whatever the answer is.
        ensures either { LeavesBeforeOrNow (D.content self.old.disk) (D.content self.new.disk) }

        ensures no_memory { IsErrOf result fault.NoMemory → LogBecomes D.content self.old self.new }
        ensures no_image { IsErrOf result fault.NoMemory → (c : Files) → Image (D.content self.new.disk) c
            → Image (D.content self.old.disk) c }
        ensures broken { IsErrOf result fault.Failed
            → LogBecomes D.content (record self.old { broken = true }) self.new }
        ensures control { Lasts (D.control self.old.disk) (D.control self.new.disk) }
        ensures cause { IsErrOf result fault.Failed
            → Rose (D.control self.old.disk).faults (D.control self.new.disk).faults }
        ensures quiet { (IsErrOf result fault.Failed → ⊥)
            → (D.control self.new.disk).faults ≡ (D.control self.old.disk).faults }
        ensures once { IsErrOf result fault.Failed
            → (D.control self.new.disk).faults ≡ counted (D.control self.old.disk).faults 1 }
    {
        let line = self.line.copy(self.alloc)?;
        self.commit(line)
    }

    /// Adds a leader epoch that starts at the log's end, makes the whole log durable, and returns the end. Fails if a
    /// disk call fails, which breaks the log, or if memory runs out.
    pub fn lead(&mut self, epoch: u32) -> Result<u64, Trouble>
        requires unbroken { self.old.broken ≡ false }
        requires fits { epoch < 2 ^ 31 }
        requires above { ForSome (last_epoch self.old.line) (λ last. last < epoch) }
        ensures end { IfOk result (λ end. end ≡ self.old.end) }
        ensures ok { OnOk result (LogBecomes D.content
            (committed self.old (assign self.old.line epoch self.old.end)) self.new) }
        ensures others { OnErr result (IsErrOf result fault.NoMemory ⊎ IsErrOf result fault.Failed) }
        ensures durable { OnOk result ((c : Files) → Image (D.content self.new.disk) c
            → Opens c (flushed_log self.new)) }

        // A crash at any moment of the call leaves the flushed log of before, or all of the log with the epoch.
        ensures any_moment { LeavesOnly (D.content self.old.disk) (D.content self.new.disk)
            (Committing self.old (assign self.old.line epoch self.old.end)) }
        // Each of these images opens as an image of before does, or as all of the log with the epoch.
        ensures opens { LeavesOnly (D.content self.old.disk) (D.content self.new.disk)
            (OpensAsOr (D.content self.old.disk)
            (flushed_log (committed self.old (assign self.old.line epoch self.old.end)))) }
        // So it opens as before the call, or as after it, whatever the answer is.
        ensures either { LeavesBeforeOrNow (D.content self.old.disk) (D.content self.new.disk) }

        ensures no_memory { IsErrOf result fault.NoMemory → LogBecomes D.content self.old self.new }
        ensures no_image { IsErrOf result fault.NoMemory → (c : Files) → Image (D.content self.new.disk) c
            → Image (D.content self.old.disk) c }
        ensures broken { IsErrOf result fault.Failed
            → LogBecomes D.content (record self.old { broken = true }) self.new }
        ensures control { Lasts (D.control self.old.disk) (D.control self.new.disk) }
        ensures cause { IsErrOf result fault.Failed
            → Rose (D.control self.old.disk).faults (D.control self.new.disk).faults }
        ensures quiet { (IsErrOf result fault.Failed → ⊥)
            → (D.control self.new.disk).faults ≡ (D.control self.old.disk).faults }
        ensures once { IsErrOf result fault.Failed
            → (D.control self.new.disk).faults ≡ counted (D.control self.old.disk).faults 1 }
    {
        let mut line = self.line.copy(self.alloc)?;
        line.assign(epoch, self.active.end())?;
        self.commit(line)
    }

    /// Makes the whole log durable with these leader epochs, which agree with the old ones below the end.
    fn commit(&mut self, line: Line) -> Result<u64, Trouble>
        requires unbroken { self.old.broken ≡ false }
        requires line { IsLine line }
        requires same { cut_end line self.old.end ≡ cut_end self.old.line self.old.end }
        requires within { Each (λ (entry : ℕ × ℕ). entry.1 ≤ self.old.end) line }
        ensures end { IfOk result (λ end. end ≡ self.old.end) }
        ensures ok { OnOk result (LogBecomes D.content (committed self.old line) self.new) }
        ensures others { OnErr result (IsErrOf result fault.NoMemory ⊎ IsErrOf result fault.Failed) }
        ensures durable { OnOk result ((c : Files) → Image (D.content self.new.disk) c
            → Opens c (flushed_log self.new)) }

        // A crash at any moment of the call leaves the flushed log of before, or all of the log with these leader
        // epochs.
        ensures any_moment { LeavesOnly (D.content self.old.disk) (D.content self.new.disk)
            (Committing self.old line) }
        // Each of these images opens as an image of before does, or as all of the log with these leader epochs.
        ensures opens { LeavesOnly (D.content self.old.disk) (D.content self.new.disk)
            (OpensAsOr (D.content self.old.disk) (flushed_log (committed self.old line))) }
        // So it opens as before the call, or as after it, whatever the answer is.
        ensures either { LeavesBeforeOrNow (D.content self.old.disk) (D.content self.new.disk) }

        ensures no_memory { IsErrOf result fault.NoMemory → LogBecomes D.content self.old self.new }
        ensures no_image { IsErrOf result fault.NoMemory → (c : Files) → Image (D.content self.new.disk) c
            → Image (D.content self.old.disk) c }
        ensures broken { IsErrOf result fault.Failed
            → LogBecomes D.content (record self.old { broken = true }) self.new }
        ensures control { Runs (fate_of result) (D.control self.old.disk) (D.control self.new.disk) }
    {
        self.disk.reserve(1)?;
        let bytes = listing(
            self.alloc,
            self.incarnation,
            self.local_start,
            &self.closed,
            &self.active,
            &line,
        )?;
        match publish(&mut self.disk, FileName::Log(self.active.base()), &bytes) {
            Ok(()) => {
                self.line = line;
                self.flushed_end = self.active.end();
                Ok(self.flushed_end)
            }
            Err(trouble) => Err(refused(&mut self.broken, trouble)),
        }
    }

    /// The local log start offset, where the first segment begins.
    pub fn local_start(&self) -> u64
        ensures is { result ≡ self.now.local_start }
        ensures low { result ≤ 2 ^ 62 }
    {
        self.local_start
    }

    /// The log end offset: the offset after the last batch.
    pub fn end(&self) -> u64
        ensures { result ≡ self.now.end }
    {
        self.active.end()
    }

    /// The flushed end: what is below this offset survives a crash.
    pub fn stable(&self) -> u64
        ensures { result ≡ self.now.flushed_end }
    {
        self.flushed_end
    }

    /// The log's incarnation: 1 when it is created, and raised by each opening, also by one that fails late.
    pub fn incarnation(&self) -> u32
        ensures { result ≡ self.now.incarnation }
    {
        self.incarnation
    }

    /// The leader epochs, each with its start offset.
    pub fn line(&self) -> &Line
        ensures { result.now ≡ self.now.line }
    {
        &self.line
    }

    /// The size of the open segment in bytes.
    pub fn open_size(&self) -> u64
        ensures { result ≡ size_of self.now.active }
    {
        self.active.size()
    }

    /// The closed segments, oldest first, each with its base offset, its end, and its size in bytes.
    pub fn closed(&self) -> &[Growing]
        ensures { result.now ≡ self.now.closed }
    {
        &self.closed
    }

    /// The settings: how large a segment gets, and how dense its indexes are, both in bytes.
    pub fn settings(&self) -> &Settings
        ensures are { result.now ≡ self.now.settings }
        ensures fit { AreSettings result.now }
    {
        &self.settings
    }

    /// The disk under the log.
    pub fn disk(&self) -> &D
        ensures { result.now ≡ self.now.disk }
    {
        &self.disk
    }

    /// Arms the disk: from now on its planned calls fail.
    pub fn arm(&mut self)
        ensures log { self.new ≡ record self.old { disk = self.new.disk } }
        ensures content { Keeps (D.content self.old.disk) (D.content self.new.disk) }
        ensures any_moment { self.old.broken ≡ false → LeavesOnly (D.content self.old.disk) (D.content self.new.disk)
            (OpensFlushed self.old) }
        ensures control { Arms (D.control self.old.disk) (D.control self.new.disk) }
    {
        self.disk.arm()
    }

    /// Whether a write has failed. A broken log can only be closed.
    pub fn is_broken(&self) -> bool
        ensures { result ≡ self.now.broken }
    {
        self.broken
    }
}

/// Puts a line in the place of another, where there is one and it counts.
fn replace_if(line: &mut Line, newer: Option<Line>, counts: bool)
    ensures counts { IsTrue counts → line.new ≡ line_or line.old newer }
    ensures not { IsFalse counts → line.new ≡ line.old }
{
    if counts {
        if let Some(newer) = newer {
            *line = newer;
        }
    }
}

/// The refusal of a call that the disk refused. A fault breaks the log.
pub(crate) fn refused(broken: &mut bool, trouble: Trouble) -> Trouble
    ensures fault { trouble ≡ fault.Failed → (result ≡ fault.Failed) × (broken.new ≡ true) }
    ensures memory { trouble ≡ fault.NoMemory → (result ≡ fault.NoMemory) × (broken.new ≡ broken.old) }
{
    match trouble {
        Trouble::Failed => {
            *broken = true;
            Trouble::Failed
        }
        Trouble::NoMemory => Trouble::NoMemory,
    }
}
