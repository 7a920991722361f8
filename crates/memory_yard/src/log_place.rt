//! What is kept of a metadata log that came back: the log, or its disk alone where the log couldn't be opened again,
//! or where a crash took what wasn't synced.

ghost use Rattle.std.specs.Prelude.{◌≡◌, ◌≢◌, ◌↔◌, [], IfOk, IfErr, OnOk, IfSome, IsTrue};
ghost use Rattle.std.specs.Option.{option_copied};
ghost use Rattle.tier_base.specs.Device.{IsFreshDevice, Went, Fault, fate_of};
ghost use Rattle.tier_base.specs.declared.fault.Trouble.TheVariants.{NoMemory};
ghost use Rattle.meta_log.specs.Content as log;
ghost use Rattle.meta_log_file.specs.Crash.{Reopens};
ghost use Rattle.meta_log_file.specs.Told.{told_of};
ghost use Rattle.memory_yard.specs.Crash.{DropsUnsynced};
ghost use Rattle.memory_yard.specs.Keeping.{log_keeps_itself};
ghost use Rattle.memory_yard.specs.Log.{told};

use crate::device::Device;
use disk_model::{Disk, MemoryDisk};
use meta_log::MetaLog;
use meta_log_file::{DiskLog, NotesRefusal, an_empty_disk_has_no_notes};
use segment_meta::Note;
use std::alloc::{AllocError, Global};
use std::marker::Model;
use std::mem;
use tier_base::{Items, Trouble};

/// A log, or its disk alone.
#[derive(Drop)]
pub enum Kept {
    Log(DiskLog<MemoryDisk>),
    Bare(MemoryDisk),
}

/// The place of a metadata log. Whatever a power cut leaves of its disk opens as a log.
#[derive(Drop)]
pub struct LogPlace {
    kept: Kept,
}

impl Model for LogPlace {
    ghost use Rattle.disk_model.specs.declared.memory_disk.MemoryDisk.{MemoryDisk};
    ghost use Rattle.meta_log_file.specs.Crash.{Reopens};
    ghost use Rattle.meta_log_file.specs.Log.{NoteLog};
    ghost use Rattle.memory_yard.specs.Log.{log_of};

    ghost Value = { NoteLog MemoryDisk };

    ghost view = { λ p. log_of p.kept };

    ghost invariant = { λ p. Reopens (⟦<MemoryDisk as Disk>⟧.content (log_of p.kept).disk) };
}

impl LogPlace {
    /// Keeps a log.
    pub fn of_log(log: DiskLog<MemoryDisk>) -> LogPlace
        ensures { result ≡ log }
    {
        log.reopens();
        LogPlace {
            kept: Kept::Log(log),
        }
    }

    /// Keeps a disk alone.
    pub fn of_disk(disk: MemoryDisk) -> LogPlace
        requires { Reopens (⟦<MemoryDisk as Disk>⟧.content disk) }
        ensures { result.disk ≡ disk }
    {
        LogPlace {
            kept: Kept::Bare(disk),
        }
    }

    /// Gives the disk.
    pub fn into_disk(self) -> MemoryDisk
        ensures disk { result ≡ self.disk }
        ensures reopens { Reopens (⟦<MemoryDisk as Disk>⟧.content result) }
    {
        match self.kept {
            Kept::Log(log) => log.close(),
            Kept::Bare(disk) => disk,
        }
    }
}

impl LogPlace {
    /// Lends the log, where it is here.
    pub fn log(&self) -> Option<&DiskLog<MemoryDisk>>
        ensures { IfSome (option_copied result) (λ log. log ≡ self.now) }
    {
        match &self.kept {
            Kept::Log(log) => Some(log),
            Kept::Bare(_) => None,
        }
    }

    /// Takes the disk away, and leaves an empty one.
    fn take(&mut self, alloc: Global) -> MemoryDisk
        ensures disk { result ≡ self.old.disk }
        ensures reopens { Reopens (⟦<MemoryDisk as Disk>⟧.content result) }
    {
        let empty = LogPlace::empty(alloc);
        mem::replace(self, empty).into_disk()
    }

    /// Keeps an empty disk.
    fn empty(alloc: Global) -> LogPlace {
        an_empty_disk_has_no_notes::<MemoryDisk>();
        LogPlace::of_disk(MemoryDisk::new(alloc, Vec::new(alloc)))
    }
}

/// Opens a log over a disk that was just provided. Where its calls can't fail it is opened, unless there is no memory.
pub fn open(alloc: Global, disk: MemoryDisk) -> Result<DiskLog<MemoryDisk>, (MemoryDisk, Trouble)>
    requires reopens { Reopens (⟦<MemoryDisk as Disk>⟧.content disk) }
    requires new { IsFreshDevice (⟦<MemoryDisk as Disk>⟧.control disk) }
    ensures fresh { IfOk result (λ l. IsFreshDevice (⟦<DiskLog<MemoryDisk> as MetaLog>⟧.control l)) }
    ensures keeps { IfOk result (λ l. log.Keeps (told_of (⟦<MemoryDisk as Disk>⟧.content disk)) (told l)) }
    ensures stays_infallible { IfOk result (λ l. IsTrue (⟦<MemoryDisk as Disk>⟧.control disk).infallible
        → IsTrue (⟦<MemoryDisk as Disk>⟧.control l.disk).infallible) }
    ensures faults { IfOk result (λ l. (⟦<MemoryDisk as Disk>⟧.control l.disk).faults ≡ 0) }
    ensures keeps_err { IfErr result (λ e. log.Keeps (told_of (⟦<MemoryDisk as Disk>⟧.content disk))
        (told_of (⟦<MemoryDisk as Disk>⟧.content e.0))) }
    ensures again { IfErr result (λ e. Reopens (⟦<MemoryDisk as Disk>⟧.content e.0)) }
    ensures infallible { IfErr result (λ e. IsTrue (⟦<MemoryDisk as Disk>⟧.control disk).infallible → e.1 ≡ NoMemory) }
{
    match DiskLog::open(alloc, disk) {
        Ok(log) => Ok(log),
        Err((disk, NotesRefusal::NoMemory)) => Err((disk, Trouble::NoMemory)),
        Err((disk, NotesRefusal::Failed)) => Err((disk, Trouble::Failed)),
        Err((disk, NotesRefusal::Damaged { .. })) => Err((disk, Trouble::Failed)),
    }
}

/// Whether a log over a disk has metadata events, and the place of what is left of it.
fn has_notes(alloc: Global, disk: MemoryDisk) -> (LogPlace, Result<bool, AllocError>)
    requires reopens { Reopens (⟦<MemoryDisk as Disk>⟧.content disk) }
    requires new { IsFreshDevice (⟦<MemoryDisk as Disk>⟧.control disk) }
    requires infallible { IsTrue (⟦<MemoryDisk as Disk>⟧.control disk).infallible }
    ensures keeps { log.Keeps (told_of (⟦<MemoryDisk as Disk>⟧.content disk)) (told result.0) }
    ensures has { IfOk result.1 (λ answer. IsTrue answer
        ↔ ((told_of (⟦<MemoryDisk as Disk>⟧.content disk)).notes ≢ [])) }
{
    match open(alloc, disk) {
        Ok(mut log) => {
            let found = log.read(0);
            (LogPlace::of_log(log), are_some(found))
        }
        Err((disk, _)) => (LogPlace::of_disk(disk), Err(AllocError)),
    }
}

/// Whether a read that can't fail found metadata events.
fn are_some(found: Result<Items<Note>, Trouble>) -> Result<bool, AllocError>
    requires { fate_of found ≢ Fault }
    ensures answer { IfOk result (λ answer. IfOk found (λ notes. IsTrue answer ↔ (notes ≢ []))) }
    ensures went { OnOk result (fate_of found ≡ Went) }
{
    match found {
        Ok(notes) => Ok(!notes.is_empty()),
        Err(Trouble::NoMemory) => Err(AllocError),
        Err(Trouble::Failed) => unreachable!(),
    }
}

impl Device for LogPlace {
    ghost keeps = { λ m n. log.Keeps (told m) (told n) };

    ghost used = { λ m. (told m).notes ≢ [] };

    fn is_used(&mut self, alloc: Global) -> Result<bool, AllocError> {
        let mut disk = self.take(alloc);
        disk.renew(Vec::new(alloc));
        let (place, answer) = has_notes(alloc, disk);
        *self = place;
        answer
    }

    ghost crashes = { λ m n. DropsUnsynced m.disk n.disk };

    fn crash(&mut self, alloc: Global) {
        let mut disk = self.take(alloc);
        disk.crash();
        *self = LogPlace::of_disk(disk);
    }

    ghost keeps_itself = { λ m. log_keeps_itself (told m) };
}
