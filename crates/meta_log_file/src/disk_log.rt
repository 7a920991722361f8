//! A metadata log in two files of a disk.

ghost use Rattle.std.specs.Prelude.{◌≡◌, ◌≢◌, ◌⊎◌, ◌++◌, ◌∷◌, [], ℕ, List, length, drop, IfOk, IfErr, OnOk, IsTrue};
ghost use Rattle.tier_base.specs.Device.{Fault, RanQuietly, MayBeDone, IsFreshDevice, Lasts, fate_of};
ghost use Rattle.disk_model.specs.Content.{Files, Image, LeavesOnly};
ghost use Rattle.segment_meta.specs.declared.note.Note.{Note};
ghost use Rattle.segment_meta.specs.Rules.{IsNote};
ghost use Rattle.meta_log.specs.declared.call.MetaCall.TheVariants.{Append, Read};
ghost use Rattle.meta_log.specs.Call.{call_code};
ghost use Rattle.meta_log.specs.Content.{AreNotes, Left, LeavesTold, AppendsNote, Keeps};
ghost use Rattle.device_tally.specs.Tally.{control_of, fails_as_planned};
ghost use Rattle.meta_log_file.specs.declared.refusal.NotesRefusal.TheVariants.{Failed, Damaged};
ghost use Rattle.meta_log_file.specs.Notes.{OpensWithNotes};
ghost use Rattle.meta_log_file.specs.Crash.{Reopens, OpensLike, Appending};
ghost use Rattle.meta_log_file.specs.Reading.{IsStrangeGate, AreStrangeNotes};
ghost use Rattle.meta_log_file.specs.Damage.{IsDamage, HandsDamage};
ghost use Rattle.meta_log_file.specs.Told.{told_of, MayOpenWith};
ghost use Rattle.meta_log_file.specs.Runs.{OneFault, NoFault};

use crate::marks::Marks;
use crate::opening::open_log;
use crate::reading::read;
use crate::refusal::NotesRefusal;
use crate::writing::append;
use device_tally::Tally;
use disk_model::Disk;
use meta_log::{MetaCall, MetaLog};
use segment_meta::Note;
use std::alloc::Global;
use std::marker::Model;
use tier_base::{Items, Trouble};

/// A metadata log over a disk, which has no other files of its names. No call of it is planned to fail. A call fails
/// only where the disk fails, or returns what is invalid.
#[derive(Drop)]
pub struct DiskLog<D: Disk> {
    alloc: Global,
    disk: D,
    marks: Marks,
    tally: Tally<MetaCall>,
}

impl<D: Disk> Model for DiskLog<D> {
    ghost use Rattle.meta_log_file.specs.Log.{NoteLog};

    ghost Value = { NoteLog D };

    ghost use Rattle.meta_log_file.specs.Inside.{log_in, IsNoteLogSound};

    ghost view = { log_in };

    ghost invariant = { IsNoteLogSound D.content };
}

impl<D: Disk> DiskLog<D> {
    /// Opens the log of a disk. One with no files has no events yet. `NotesRefusal` has the causes of a failure.
    pub fn open(alloc: Global, disk: D) -> Result<DiskLog<D>, (D, NotesRefusal)>
        ensures fresh { IfOk result (λ log. IsFreshDevice (⟦<DiskLog<D> as MetaLog>⟧.control log)) }
        ensures plan { IfOk result (λ log. (⟦<DiskLog<D> as MetaLog>⟧.control log).plan ≡ []) }
        ensures is_observable { IfOk result (λ log. (⟦<DiskLog<D> as MetaLog>⟧.content log).is_observable
            ≡ (D.content disk).is_observable) }
        ensures opened { IfOk result (λ log. IsTrue (D.content disk).is_observable
            → OpensWithNotes (D.content disk).files (⟦<DiskLog<D> as MetaLog>⟧.content log).notes) }
        ensures durable { IfOk result (λ log. (c : Files) → Image (D.content log.disk) c
            → OpensWithNotes c (⟦<DiskLog<D> as MetaLog>⟧.content log).notes) }
        // A power cut then leaves no events but those that one before may have left.
        ensures left { IfOk result (λ log. IsTrue (D.content disk).is_observable → Reopens (D.content disk)
            → (notes : List Note)
            → Left (⟦<DiskLog<D> as MetaLog>⟧.content log) notes → MayOpenWith (D.content disk) notes) }
        ensures control { IfOk result (λ log. Lasts (D.control disk) (D.control log.disk)) }
        ensures control_err { IfErr result (λ e. Lasts (D.control disk) (D.control e.0)) }

        // Where each image opens, a crash at any moment of the call leaves what opens as one of them.
        ensures any_moment { IfOk result (λ log. Reopens (D.content disk)
            → LeavesOnly (D.content disk) (D.content log.disk) (OpensLike (D.content disk))) }
        ensures any_moment_err { IfErr result (λ e. Reopens (D.content disk)
            → LeavesOnly (D.content disk) (D.content e.0) (OpensLike (D.content disk))) }
        ensures again { IfErr result (λ e. Reopens (D.content disk) → Reopens (D.content e.0)) }

        // And then the events stay, and are reported where the disk is observable, unless a call fails.
        ensures keeps { Reopens (D.content disk) → IfOk result (λ log. Keeps (told_of (D.content disk))
            (⟦<DiskLog<D> as MetaLog>⟧.content log)) }
        ensures keeps_err { Reopens (D.content disk) → IfErr result (λ e. Keeps (told_of (D.content disk))
            (told_of (D.content e.0))) }
        ensures whole { IsTrue (D.content disk).is_observable → Reopens (D.content disk)
            → IfErr result (λ e. (at : ℕ) → e.1 ≢ Damaged at) }

        // The first call of the disk that fails is the last, and is answered.
        ensures cause { IfErr result (λ e. e.1 ≡ Failed
            → OneFault (D.control disk) (D.control e.0)) }
        ensures quiet { IfOk result (λ log. (D.control log.disk).faults ≡ (D.control disk).faults) }
        ensures quiet_err { IfErr result (λ e. e.1 ≢ Failed
            → (D.control e.0).faults ≡ (D.control disk).faults) }

        // The place that is reported is that of the files, where the disk is observable, and of what it returned.
        ensures damaged { IfErr result (λ e. (at : ℕ) → e.1 ≡ Damaged at → IsTrue (D.content disk).is_observable
            → IsDamage (D.content disk).files at) }
        ensures last_read { IfErr result (λ e. (at : ℕ) → e.1 ≡ Damaged at → HandsDamage D.control e.0 at) }
    {
        let mut disk = disk;
        match open_log(alloc, &mut disk) {
            Ok(marks) => Ok(DiskLog {
                alloc,
                disk,
                marks,
                tally: Tally::new(),
            }),
            Err(refusal) => Err((disk, refusal)),
        }
    }

    /// Gives the disk back. The log can be opened from it again, also after a crash.
    pub fn close(self) -> D
        ensures disk { result ≡ self.disk }
        ensures reopens { Reopens (D.content result) }
    {
        self.disk
    }

    /// The log can be opened again from its disk, also after a crash. Nothing is done.
    pub fn reopens(&self)
        ensures { Reopens (D.content self.now.disk) }
    {
        let _ = &self.marks;
    }

    /// Returns whether calls are counted.
    pub fn is_armed(&self) -> bool
        ensures { result ≡ (⟦<DiskLog<D> as MetaLog>⟧.control self.now).armed }
    {
        self.tally.is_armed()
    }

    /// Counts the calls that failed.
    pub fn faults(&self) -> u64
        ensures { result ≡ (⟦<DiskLog<D> as MetaLog>⟧.control self.now).faults }
    {
        self.tally.faults()
    }
}

impl<D: Disk> MetaLog for DiskLog<D> {
    ghost content = { λ log. told_of (D.content log.disk) };

    ghost control = { λ log. control_of call_code log.counts [] };

    fn append(&mut self, note: &Note) -> Result<u64, Trouble>
        requires { IsNote note.now }
        ensures control { RanQuietly Append (fate_of result)
            (⟦<DiskLog<D> as MetaLog>⟧.control self.old) (⟦<DiskLog<D> as MetaLog>⟧.control self.new) }
        ensures content { AppendsNote note.now
            (MayBeDone Append (fate_of result) (⟦<DiskLog<D> as MetaLog>⟧.control self.old))
            (⟦<DiskLog<D> as MetaLog>⟧.content self.old) (⟦<DiskLog<D> as MetaLog>⟧.content self.new) }
        ensures place { IsTrue (⟦<DiskLog<D> as MetaLog>⟧.content self.old).is_observable
            → IfOk result (λ at. at ≡ length (⟦<DiskLog<D> as MetaLog>⟧.content self.old).notes) }

        // A crash at any moment leaves what opened before, or that with the event after it.
        ensures any_moment { LeavesOnly (D.content self.old.disk) (D.content self.new.disk)
            (Appending (D.content self.old.disk)
            (⟦<DiskLog<D> as MetaLog>⟧.content self.old).notes note.now) }
        ensures durable { OnOk result ((c : Files) → Image (D.content self.new.disk) c
            → OpensWithNotes c (⟦<DiskLog<D> as MetaLog>⟧.content self.new).notes) }

        ensures lasts { Lasts (D.control self.old.disk) (D.control self.new.disk) }
        ensures cause { fate_of result ≡ Fault
            → OneFault (D.control self.old.disk) (D.control self.new.disk)
            ⊎ (NoFault (D.control self.old.disk) (D.control self.new.disk)
            × IsStrangeGate self.old.ends self.old.tail (D.control self.new.disk).last_read) }
        ensures quiet { fate_of result ≢ Fault
            → (D.control self.new.disk).faults ≡ (D.control self.old.disk).faults }
        ensures told_cause { fate_of result ≡ Fault → IsTrue (D.content self.old.disk).is_observable
            → OneFault (D.control self.old.disk) (D.control self.new.disk) }
    {
        let outcome = append(self.alloc, &mut self.disk, &mut self.marks, note);
        self.tally.note_any(MetaCall::Append, outcome)
    }

    fn read(&mut self, at: u64) -> Result<Items<Note>, Trouble>
        ensures control { RanQuietly Read (fate_of result)
            (⟦<DiskLog<D> as MetaLog>⟧.control self.old) (⟦<DiskLog<D> as MetaLog>⟧.control self.new) }
        ensures content { Keeps (⟦<DiskLog<D> as MetaLog>⟧.content self.old)
            (⟦<DiskLog<D> as MetaLog>⟧.content self.new) }
        ensures left { IsTrue (⟦<DiskLog<D> as MetaLog>⟧.content self.old).is_observable
            → OnOk result (LeavesTold (⟦<DiskLog<D> as MetaLog>⟧.content self.new)) }
        ensures notes { IsTrue (⟦<DiskLog<D> as MetaLog>⟧.content self.old).is_observable
            → IfOk result (λ notes. notes ≡ drop at (⟦<DiskLog<D> as MetaLog>⟧.content self.old).notes) }
        ensures rules { IfOk result AreNotes }

        // A crash at any moment leaves what opened before.
        ensures any_moment { LeavesOnly (D.content self.old.disk) (D.content self.new.disk)
            (OpensLike (D.content self.old.disk)) }
        ensures durable { OnOk result ((c : Files) → Image (D.content self.new.disk) c
            → OpensWithNotes c (⟦<DiskLog<D> as MetaLog>⟧.content self.new).notes) }

        ensures lasts { Lasts (D.control self.old.disk) (D.control self.new.disk) }
        ensures cause { fate_of result ≡ Fault
            → OneFault (D.control self.old.disk) (D.control self.new.disk)
            ⊎ (NoFault (D.control self.old.disk) (D.control self.new.disk)
            × (IsStrangeGate self.old.ends self.old.tail (D.control self.new.disk).last_read
            ⊎ AreStrangeNotes self.new.ends at (D.control self.new.disk).last_read)) }
        ensures quiet { fate_of result ≢ Fault
            → (D.control self.new.disk).faults ≡ (D.control self.old.disk).faults }
        ensures told_cause { fate_of result ≡ Fault → IsTrue (D.content self.old.disk).is_observable
            → OneFault (D.control self.old.disk) (D.control self.new.disk) }
    {
        let outcome = read(self.alloc, &mut self.disk, &mut self.marks, at);
        self.tally.note_any(MetaCall::Read, outcome)
    }

    fn arm(&mut self) {
        self.disk.arm();
        self.tally.arm();
    }

    ghost planned = { λ log. fails_as_planned call_code log.counts [] };
}
