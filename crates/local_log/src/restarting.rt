//! Restarting a log at an offset, empty and durable.
//!
//! The manifest with the one empty segment is written first: from then on no crash brings back the old log. Only then
//! are the old segments' files removed, the open one's too, so that the new open segment begins without bytes.

ghost use Rattle.std.specs.Prelude.{◌≡◌, ◌⊎◌, ◌+◌, ◌≤◌, ◌<◌, ◌^◌, ◌++◌, ◌∷◌, ℕ, []};
ghost use Rattle.std.specs.Prelude.{length, false, true, OnOk, OnErr, IsErrOf};
ghost use Rattle.disk_model.specs.Content.{LeavesOnly, Image, Files};
ghost use Rattle.tier_base.specs.declared.fault.Trouble.TheVariants as fault;
ghost use Rattle.tier_base.specs.Counts.{counted, Rose};
ghost use Rattle.tier_base.specs.Device.{Lasts, fate_of};
ghost use Rattle.epoch_line.specs.Line.{IsLine};
ghost use Rattle.log_manifest.specs.Spelling.{manifest_bytes};
ghost use Rattle.log_steps.specs.Fronts.{Each};
ghost use Rattle.log_steps.specs.Opens.{Opens};
ghost use Rattle.log_steps.specs.Runs.{Runs};
ghost use Rattle.local_log.specs.Listing.{manifest_of};
ghost use Rattle.local_log.specs.Log.{LogBecomes};
ghost use Rattle.local_log.specs.Cutting.{names_of, restarted, all_of, OpensEither, OpensAsOr};
ghost use Rattle.local_log.specs.Cutting.{LeavesBeforeOrNow, StaysOrBreaks};
ghost use Rattle.local_log.specs.Renewing.{Renews};

use crate::listing::listing;
use crate::log::{LocalLog, refused};
use crate::trimming::remove_segments;
use disk_model::{Disk, FileName};
use epoch_line::Line;
use segment_file::Growing;
use tier_base::Trouble;

/// Puts a manifest in the place of the old one, and then removes the files of segments that it doesn't list.
pub(crate) fn renew<D: Disk>(
    disk: &mut D,
    bytes: &[u8],
    closed: &[Growing],
    active: &Growing,
) -> Result<(), Trouble>
    requires { length closed.now + 1 ≤ D.spare disk.old }
    ensures content { Renews bytes.now (names_of (closed.now ++ active.now ∷ [])) (fate_of result)
        (D.content disk.old) (D.content disk.new) }
    ensures control { Runs (fate_of result) (D.control disk.old) (D.control disk.new) }
{
    disk.replace(FileName::Manifest, bytes)?;
    remove_segments(disk, closed, active)?;
    Ok(())
}

impl<D: Disk> LocalLog<D> {
    /// Restarts the log at an offset: empty, durable, and with these leader epochs. Fails if a disk call fails, which
    /// breaks the log, or if memory runs out.
    pub fn restart_at(&mut self, start: u64, line: Line) -> Result<(), Trouble>
        requires unbroken { self.old.broken ≡ false }
        requires low { start ≤ 2 ^ 62 }
        requires within { Each (λ (entry : ℕ × ℕ). entry.1 ≤ start) line }
        ensures ok { OnOk result (LogBecomes D.content (restarted self.old start line) self.new) }
        ensures durable { OnOk result ((c : Files) → Image (D.content self.new.disk) c
            → Opens c (all_of (restarted self.old start line))) }

        // A crash at any moment of the call leaves the flushed log of before, or the empty one.
        ensures any_moment { LeavesOnly (D.content self.old.disk) (D.content self.new.disk)
            (OpensEither self.old (restarted self.old start line)) }
        // Each of these images opens as an image of before does, or as the empty log.
        ensures opens { LeavesOnly (D.content self.old.disk) (D.content self.new.disk)
            (OpensAsOr (D.content self.old.disk) (all_of (restarted self.old start line))) }
        // So it opens as before the call, or as after it, whatever the answer is.
        ensures either { LeavesBeforeOrNow (D.content self.old.disk) (D.content self.new.disk) }

        ensures others { OnErr result (IsErrOf result fault.NoMemory ⊎ IsErrOf result fault.Failed) }
        ensures no_memory { IsErrOf result fault.NoMemory → LogBecomes D.content self.old self.new }
        ensures no_image { IsErrOf result fault.NoMemory → (c : Files) → Image (D.content self.new.disk) c
            → Image (D.content self.old.disk) c }
        ensures broken { IsErrOf result fault.Failed → self.new.broken ≡ true }
        ensures is_observable { (D.content self.new.disk).is_observable ≡ (D.content self.old.disk).is_observable }
        ensures control { Lasts (D.control self.old.disk) (D.control self.new.disk) }
        ensures cause { IsErrOf result fault.Failed
            → Rose (D.control self.old.disk).faults (D.control self.new.disk).faults }
        ensures quiet { (IsErrOf result fault.Failed → ⊥)
            → (D.control self.new.disk).faults ≡ (D.control self.old.disk).faults }
        ensures once { IsErrOf result fault.Failed
            → (D.control self.new.disk).faults ≡ counted (D.control self.old.disk).faults 1 }
    {
        self.stands();
        let active = Growing::new(self.alloc, start, self.settings.index_interval);
        let bytes = listing(self.alloc, self.incarnation, start, &[], &active, &line)?;
        let calls = self.closed.len() as u32 + 1;
        self.make_room(calls)?;
        self.begin_at(&bytes, active, line)
    }

    /// Makes the manifest of an empty log the present one, and drops all segments.
    fn begin_at(&mut self, bytes: &[u8], active: Growing, line: Line) -> Result<(), Trouble>
        requires unbroken { self.old.broken ≡ false }
        requires low { active.base ≤ 2 ^ 62 }
        requires fresh { active
            ≡ record { base = active.base; interval = self.old.settings.index_interval; batches = [] } }
        requires line { IsLine line }
        requires within { Each (λ (entry : ℕ × ℕ). entry.1 ≤ active.base) line }
        requires room { length self.old.closed + 1 ≤ D.spare self.old.disk }
        requires bytes { bytes.now ≡ manifest_bytes (manifest_of self.old.incarnation active.base [] active line) }
        ensures ok { OnOk result (LogBecomes D.content (restarted self.old active.base line) self.new) }
        ensures durable { OnOk result ((c : Files) → Image (D.content self.new.disk) c
            → Opens c (all_of (restarted self.old active.base line))) }
        ensures any_moment { LeavesOnly (D.content self.old.disk) (D.content self.new.disk)
            (OpensEither self.old (restarted self.old active.base line)) }
        // Each of these images opens as an image of before does, or as the empty log.
        ensures opens { LeavesOnly (D.content self.old.disk) (D.content self.new.disk)
            (OpensAsOr (D.content self.old.disk) (all_of (restarted self.old active.base line))) }
        // So it opens as before the call, or as after it, whatever the answer is.
        ensures either { LeavesBeforeOrNow (D.content self.old.disk) (D.content self.new.disk) }
        ensures err { StaysOrBreaks D.content self.old self.new result }
        ensures is_observable { (D.content self.new.disk).is_observable ≡ (D.content self.old.disk).is_observable }
        ensures control { Runs (fate_of result) (D.control self.old.disk) (D.control self.new.disk) }
    {
        match renew(&mut self.disk, bytes, &self.closed, &self.active) {
            Ok(()) => {
                let start = active.base();
                self.local_start = start;
                self.flushed_end = start;
                self.closed.clear();
                self.active = active;
                self.line = line;
                Ok(())
            }
            Err(trouble) => Err(refused(&mut self.broken, trouble)),
        }
    }
}
