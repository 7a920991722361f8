//! A disk in memory, whose calls fail by a plan or a fuse.
//!
//! Each call asks first how it is going to end, does as much as is to be done, and is counted last;
//! so one that finds no memory has changed nothing and isn't counted.

ghost use Rattle.std.specs.Prelude.{◌≡◌, ◌↔◌, [], ℕ, Some, None, IsTrue, IsFalse};
ghost use Rattle.tier_base.specs.Device.{IsFreshDevice};
ghost use Rattle.tier_base.specs.Faults.{control_of};
ghost use Rattle.tier_base.specs.Laws.{fails_as_planned};
ghost use Rattle.tier_base.specs.declared.plain.FileName.{FileName};
ghost use Rattle.disk_model.specs.Call.{call_code};
ghost use Rattle.disk_model.specs.Content.{Keeps};
ghost use Rattle.disk_model.specs.Laws.{lawful_at};
ghost use Rattle.disk_model.specs.Steps.{content_of};

use crate::attempt::{append_if, cut_if, hand, remove_if, replace_if, share, sync_if};
use crate::call::{DiskCall, Planned};
use crate::disk::Disk;
use crate::history::History;
use bytes::Bytes;
use std::alloc::{AllocError, Global};
use std::mem;
use tier_base::{Failed, FaultPlan, FileName, Items, Trouble, give};

/// A disk in memory.
#[derive(Drop)]
pub struct MemoryDisk {
    history: History,
    faults: FaultPlan<DiskCall>,
    last_read: Bytes,
}

impl MemoryDisk {
    ghost use Rattle.disk_model.specs.Memory.{IsEmptyDisk, Crashes, Fuses, Unfuses};
    ghost use Rattle.disk_model.specs.MemoryFiles.{safe_files, fuse_of};

    /// Makes a disk with no files, whose planned calls fail once it is armed, without memory.
    pub fn new(alloc: Global, plan: Vec<Planned>) -> MemoryDisk
        ensures content { IsEmptyDisk (⟦<MemoryDisk as Disk>⟧.content result) }
        ensures fresh { IsFreshDevice (⟦<MemoryDisk as Disk>⟧.control result) }
        ensures plan { (⟦<MemoryDisk as Disk>⟧.control result).plan ≡ plan.items }
        ensures infallible { IsTrue (⟦<MemoryDisk as Disk>⟧.control result).infallible }
        ensures scripted { IsTrue (⟦<MemoryDisk as Disk>⟧.control result).scripted }
        ensures spare { ⟦<MemoryDisk as Disk>⟧.spare result ≡ 0 }
        ensures fuse { fuse_of result ≡ None }
    {
        MemoryDisk {
            history: History::new(alloc),
            faults: FaultPlan::new(plan),
            last_read: Bytes::new(),
        }
    }

    /// Provides the disk again: the content stays, with this plan, no fault and no call counted.
    pub fn renew(&mut self, plan: Vec<Planned>)
        ensures content { Keeps (⟦<MemoryDisk as Disk>⟧.content self.old)
            (⟦<MemoryDisk as Disk>⟧.content self.new) }
        ensures fresh { IsFreshDevice (⟦<MemoryDisk as Disk>⟧.control self.new) }
        ensures plan { (⟦<MemoryDisk as Disk>⟧.control self.new).plan ≡ plan.items }
        ensures infallible { IsTrue (⟦<MemoryDisk as Disk>⟧.control self.new).infallible }
        ensures scripted { IsTrue (⟦<MemoryDisk as Disk>⟧.control self.new).scripted }
        ensures spare { ⟦<MemoryDisk as Disk>⟧.spare self.new
            ≡ ⟦<MemoryDisk as Disk>⟧.spare self.old }
        ensures fuse { fuse_of self.new ≡ None }
    {
        self.faults = FaultPlan::new(plan);
        self.last_read = Bytes::new();
    }

    /// Lets so many calls pass, and then every call fails.
    pub fn fuse(&mut self, calls: u64)
        ensures content { Keeps (⟦<MemoryDisk as Disk>⟧.content self.old)
            (⟦<MemoryDisk as Disk>⟧.content self.new) }
        ensures control { Fuses (⟦<MemoryDisk as Disk>⟧.control self.old)
            (⟦<MemoryDisk as Disk>⟧.control self.new) }
        ensures spare { ⟦<MemoryDisk as Disk>⟧.spare self.new
            ≡ ⟦<MemoryDisk as Disk>⟧.spare self.old }
        ensures fuse { fuse_of self.new ≡ Some calls }
    {
        self.faults.set_fuse(Some(calls));
    }

    /// Crashes: what isn't synced is dropped. It ends the fuse too.
    pub fn crash(&mut self)
        ensures content { Crashes (⟦<MemoryDisk as Disk>⟧.content self.old)
            (⟦<MemoryDisk as Disk>⟧.content self.new) }
        ensures files { (n : FileName) → (⟦<MemoryDisk as Disk>⟧.content self.new).files n
            ≡ safe_files self.old n }
        ensures control { Unfuses (⟦<MemoryDisk as Disk>⟧.control self.old)
            (⟦<MemoryDisk as Disk>⟧.control self.new) }
        ensures spare { ⟦<MemoryDisk as Disk>⟧.spare self.new
            ≡ ⟦<MemoryDisk as Disk>⟧.spare self.old }
        ensures fuse { fuse_of self.new ≡ None }
    {
        self.faults.set_fuse(None);
        self.history.crash();
    }

    /// Lends the planned calls.
    pub fn plan(&self) -> &[Planned]
        ensures { result.now ≡ (⟦<MemoryDisk as Disk>⟧.control self.now).plan }
    {
        self.faults.plan()
    }

    /// Returns whether there is a fuse, or was one.
    pub fn fused(&self) -> bool
        ensures { IsTrue result ↔ IsFalse (⟦<MemoryDisk as Disk>⟧.control self.now).scripted }
    {
        !self.faults.is_scripted()
    }

    /// Returns whether planned calls fail.
    pub fn is_armed(&self) -> bool
        ensures { result ≡ (⟦<MemoryDisk as Disk>⟧.control self.now).armed }
    {
        self.faults.is_armed()
    }

    /// Counts the calls that failed.
    pub fn faults(&self) -> u64
        ensures { result ≡ (⟦<MemoryDisk as Disk>⟧.control self.now).faults }
    {
        self.faults.faults()
    }
}

impl Disk for MemoryDisk {
    ghost content = { λ m. content_of m.history.past };

    ghost control = { λ m. control_of call_code m.faults m.last_read };

    ghost spare = { λ m. m.history.spare };

    fn append(&mut self, name: FileName, bytes: &[u8]) -> Result<(), Trouble> {
        let ending = self.faults.ending(DiskCall::Append);
        append_if(&mut self.history, name, bytes, ending.is_done())?;
        give(self.faults.note(DiskCall::Append, ending), ())
    }

    fn reserve(&mut self, calls: u32) -> Result<(), AllocError> {
        self.history.reserve(calls as usize)
    }

    fn sync(&mut self, name: FileName) -> Result<(), Failed> {
        let ending = self.faults.ending(DiskCall::Sync);
        sync_if(&mut self.history, name, ending.is_done());
        self.faults.note(DiskCall::Sync, ending)
    }

    fn read(&mut self, name: FileName, at: u64) -> Result<Option<Bytes>, Trouble> {
        let ending = self.faults.ending(DiskCall::Read);
        let file = self.history.read(name, at)?;
        let shared = share(&file)?;
        let outcome = self.faults.note(DiskCall::Read, ending);
        hand(&mut self.last_read, outcome.is_ok(), shared);
        give(outcome, file)
    }

    fn read_part(&mut self, name: FileName, at: u64, most: u64) -> Result<Option<Bytes>, Trouble> {
        let ending = self.faults.ending(DiskCall::Read);
        let part = self.history.read_part(name, at, most)?;
        let last_read = share(&part)?;
        let outcome = self.faults.note(DiskCall::Read, ending);
        hand(&mut self.last_read, outcome.is_ok(), last_read);
        give(outcome, part)
    }

    fn cut(&mut self, name: FileName, len: u64) -> Result<(), Failed> {
        let ending = self.faults.ending(DiskCall::Cut);
        cut_if(&mut self.history, name, len, ending.is_done());
        self.faults.note(DiskCall::Cut, ending)
    }

    fn replace(&mut self, name: FileName, bytes: &[u8]) -> Result<(), Trouble> {
        let ending = self.faults.ending(DiskCall::Replace);
        replace_if(
            &mut self.history,
            name,
            bytes,
            ending.is_ok(),
            ending.is_done(),
        )?;
        give(self.faults.note(DiskCall::Replace, ending), ())
    }

    fn remove(&mut self, name: FileName) -> Result<(), Failed> {
        let ending = self.faults.ending(DiskCall::Remove);
        remove_if(&mut self.history, name, ending.is_done());
        self.faults.note(DiskCall::Remove, ending)
    }

    fn list(&mut self) -> Result<Items<FileName>, Trouble> {
        let ending = self.faults.ending(DiskCall::List);
        let names = self.history.names()?;
        give(self.faults.note(DiskCall::List, ending), names)
    }

    fn take_last_read(&mut self) -> Bytes {
        mem::replace(&mut self.last_read, Bytes::new())
    }

    fn arm(&mut self) {
        self.faults.arm();
    }

    ghost lawful = { λ m. lawful_at m.history.past };

    ghost planned = { λ m. fails_as_planned call_code m.faults m.last_read };
}
