//! A disk over a folder of the operating system.

ghost use Rattle.std.specs.Prelude.{◌≡◌, ◌↔◌, [], false, if◌then◌else◌, Ok, IfOk, IsOk, IsErr};
ghost use Rattle.tier_base.specs.Device.{IsFreshDevice};
ghost use Rattle.disk_model.specs.Call.{call_code};
ghost use Rattle.tier_base.specs.Told.{bytes_in};
ghost use Rattle.disk_model.specs.Deaf.{nothing_told, deaf_lawful};
ghost use Rattle.device_tally.specs.Tally.{control_of, fails_as_planned};

use crate::folder::Folder;
use bytes::Bytes;
use device_tally::Tally;
use disk_model::{Disk, DiskCall};
use std::alloc::AllocError;
use std::io::{self, ErrorKind};
use std::mem;
use std::rt::Files;
use tier_base::{Failed, FileName, Items, Trouble, give};

/// A disk whose files are in a folder. It isn't observable, and every failure of the system is a fault. No call of it
/// is planned to fail, and each may.
#[derive(Drop)]
pub struct FolderDisk<R: Files + AllocGlobal + Clone + Drop> {
    folder: Folder<R>,
    tally: Tally<DiskCall>,
    last_read: Bytes,
    spare: u32,
}

impl<R: Files + AllocGlobal + Clone + Drop> FolderDisk<R> {
    /// Opens a disk over a folder, which is made where it is absent, with those above it. What was written and not put
    /// in its place is removed. Fails if a device call fails or memory runs out.
    pub fn open(rt: R, path: &str) -> Result<FolderDisk<R>, Trouble>
        ensures fresh { IfOk result (λ disk. IsFreshDevice (⟦<FolderDisk<R> as Disk>⟧.control disk)) }
        ensures plan { IfOk result (λ disk. (⟦<FolderDisk<R> as Disk>⟧.control disk).plan ≡ []) }
        ensures infallible { IfOk result (λ disk.
            (⟦<FolderDisk<R> as Disk>⟧.control disk).infallible ≡ false) }
        ensures scripted { IfOk result (λ disk.
            (⟦<FolderDisk<R> as Disk>⟧.control disk).scripted ≡ false) }
        ensures spare { IfOk result (λ disk. ⟦<FolderDisk<R> as Disk>⟧.spare disk ≡ 0) }
    {
        let folder = told(Folder::open(rt, path))?;
        Ok(FolderDisk {
            folder,
            tally: Tally::new(),
            last_read: Bytes::new(),
            spare: 0,
        })
    }

    /// Returns whether calls are counted.
    pub fn is_armed(&self) -> bool
        ensures { result ≡ (⟦<FolderDisk<R> as Disk>⟧.control self.now).armed }
    {
        self.tally.is_armed()
    }

    /// Counts the calls that failed.
    pub fn faults(&self) -> u64
        ensures { result ≡ (⟦<FolderDisk<R> as Disk>⟧.control self.now).faults }
    {
        self.tally.faults()
    }
}

impl<R: Files + AllocGlobal + Clone + Drop> Disk for FolderDisk<R> {
    ghost content = { λ d. nothing_told };

    ghost control = { λ d. control_of call_code d.tally d.last_read };

    ghost spare = { λ d. d.spare };

    fn append(&mut self, name: FileName, bytes: &[u8]) -> Result<(), Trouble> {
        let outcome = done(self.folder.append(name, bytes));
        give(self.tally.note(DiskCall::Append, outcome), ())
    }

    // The folder's calls take no memory, so the room is a number alone.
    fn reserve(&mut self, calls: u32) -> Result<(), AllocError> {
        self.spare = self.spare.max(calls);
        Ok(())
    }

    fn sync(&mut self, name: FileName) -> Result<(), Failed> {
        self.spare -= 1;
        let outcome = done(self.folder.sync(name));
        self.tally.note(DiskCall::Sync, outcome)
    }

    fn read(&mut self, name: FileName, at: u64) -> Result<Option<Bytes>, Trouble> {
        self.read_part(name, at, u64::MAX)
    }

    fn read_part(&mut self, name: FileName, at: u64, most: u64) -> Result<Option<Bytes>, Trouble> {
        let outcome = told(self.folder.read_part(name, at, most));
        let shared = share(&outcome)?;
        let answer = self.tally.note_any(DiskCall::Read, outcome);
        hand(&mut self.last_read, answer.is_ok(), shared);
        answer
    }

    fn cut(&mut self, name: FileName, len: u64) -> Result<(), Failed> {
        self.spare -= 1;
        let outcome = done(self.folder.cut(name, len));
        self.tally.note(DiskCall::Cut, outcome)
    }

    fn replace(&mut self, name: FileName, bytes: &[u8]) -> Result<(), Trouble> {
        let outcome = done(self.folder.replace(name, bytes));
        give(self.tally.note(DiskCall::Replace, outcome), ())
    }

    fn remove(&mut self, name: FileName) -> Result<(), Failed> {
        self.spare -= 1;
        let outcome = done(self.folder.remove(name));
        self.tally.note(DiskCall::Remove, outcome)
    }

    fn list(&mut self) -> Result<Items<FileName>, Trouble> {
        let names = told(self.folder.list());
        self.tally.note_any(DiskCall::List, names)
    }

    fn take_last_read(&mut self) -> Bytes {
        mem::replace(&mut self.last_read, Bytes::new())
    }

    fn arm(&mut self) {
        self.tally.arm();
    }

    ghost lawful = { λ d. deaf_lawful };

    ghost planned = { λ d. fails_as_planned call_code d.tally d.last_read };
}

/// Whether a call that changes files went well. Running out of memory in the system is a failure too, since the call
/// may have been done in part.
pub(crate) fn done(outcome: io::Result<()>) -> Result<(), Failed>
    ensures { IsOk result ↔ IsOk outcome }
{
    match outcome {
        Ok(()) => Ok(()),
        Err(_) => Err(Failed),
    }
}

/// What a call answered that changes nothing.
pub(crate) fn told<T: Drop>(outcome: io::Result<T>) -> Result<T, Trouble>
    ensures value { IfOk outcome (λ value. result ≡ Ok value) }
    ensures failed { IsErr outcome → IsErr result }
{
    match outcome {
        Ok(value) => Ok(value),
        Err(error) if error.kind() == ErrorKind::OutOfMemory => Err(Trouble::NoMemory),
        Err(_) => Err(Trouble::Failed),
    }
}

/// Shares the bytes that a read found.
pub(crate) fn share(file: &Result<Option<Bytes>, Trouble>) -> Result<Bytes, AllocError>
    ensures { IfOk result (λ shared. IfOk file.now (λ found. shared ≡ bytes_in found)) }
{
    match file {
        Ok(Some(bytes)) => bytes.clone(),
        _ => Ok(Bytes::new()),
    }
}

/// Records bytes as last read, if the call returns them.
pub(crate) fn hand(last_read: &mut Bytes, given: bool, bytes: Bytes)
    ensures { last_read.new ≡ (if given then bytes else last_read.old) }
{
    if given {
        *last_read = bytes;
    }
}
