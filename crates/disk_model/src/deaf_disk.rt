//! A disk that works but isn't observable: code above it is proved without knowing what it reads.
//!
//! It begins with the files that it is made of, whatever bytes they have. No call of it fails.

ghost use Rattle.std.specs.Prelude.{◌≡◌, ◌<◌, [], length, drop, IfOk, IfSome, IsTrue};
ghost use Rattle.tier_base.specs.Device.{IsFreshDevice};
ghost use Rattle.tier_base.specs.Faults.{control_of};
ghost use Rattle.tier_base.specs.Laws.{fails_as_planned};
ghost use Rattle.disk_model.specs.Call.{call_code};
ghost use Rattle.tier_base.specs.Told.{bytes_in};
ghost use Rattle.disk_model.specs.Deaf.{nothing_told, deaf_lawful};

use crate::attempt::{front_of, hand, share};
use crate::call::DiskCall;
use crate::disk::Disk;
use bytes::Bytes;
use std::alloc::{AllocError, Global};
use std::mem;
use tier_base::{Failed, FaultPlan, FileName, Items, Trouble, give};

/// A disk that isn't observable.
#[derive(Drop)]
pub struct DeafDisk {
    alloc: Global,
    files: Vec<(FileName, Bytes)>,
    faults: FaultPlan<DiskCall>,
    last_read: Bytes,
    spare: u32,
}

impl DeafDisk {
    /// Makes a disk of these files, without memory. Where a name occurs twice, the first counts.
    pub fn new(alloc: Global, files: Vec<(FileName, Bytes)>) -> DeafDisk
        ensures fresh { IsFreshDevice (⟦<DeafDisk as Disk>⟧.control result) }
        ensures plan { (⟦<DeafDisk as Disk>⟧.control result).plan ≡ [] }
        ensures infallible { IsTrue (⟦<DeafDisk as Disk>⟧.control result).infallible }
        ensures spare { ⟦<DeafDisk as Disk>⟧.spare result ≡ 0 }
    {
        DeafDisk {
            alloc,
            files,
            faults: FaultPlan::new(Vec::new(alloc)),
            last_read: Bytes::new(),
            spare: 0,
        }
    }
}

impl Disk for DeafDisk {
    ghost content = { λ d. nothing_told };

    ghost control = { λ d. control_of call_code d.faults d.last_read };

    ghost spare = { λ d. d.spare };

    fn append(&mut self, name: FileName, bytes: &[u8]) -> Result<(), Trouble> {
        let ending = self.faults.ending(DiskCall::Append);
        extend(self.alloc, &mut self.files, name, bytes)?;
        give(self.faults.note(DiskCall::Append, ending), ())
    }

    fn reserve(&mut self, calls: u32) -> Result<(), AllocError> {
        self.spare = self.spare.max(calls);
        Ok(())
    }

    fn sync(&mut self, name: FileName) -> Result<(), Failed> {
        self.spare -= 1;
        let _ = name;
        let ending = self.faults.ending(DiskCall::Sync);
        self.faults.note(DiskCall::Sync, ending)
    }

    fn read(&mut self, name: FileName, at: u64) -> Result<Option<Bytes>, Trouble> {
        let ending = self.faults.ending(DiskCall::Read);
        let file = share_from(&self.files, name, at as usize)?;
        let shared = share(&file)?;
        let outcome = self.faults.note(DiskCall::Read, ending);
        hand(&mut self.last_read, outcome.is_ok(), shared);
        give(outcome, file)
    }

    fn read_part(&mut self, name: FileName, at: u64, most: u64) -> Result<Option<Bytes>, Trouble> {
        let ending = self.faults.ending(DiskCall::Read);
        let part = front_of(share_from(&self.files, name, at as usize)?, most as usize);
        let last_read = share(&part)?;
        let outcome = self.faults.note(DiskCall::Read, ending);
        hand(&mut self.last_read, outcome.is_ok(), last_read);
        give(outcome, part)
    }

    fn cut(&mut self, name: FileName, len: u64) -> Result<(), Failed> {
        self.spare -= 1;
        let ending = self.faults.ending(DiskCall::Cut);
        cut(&mut self.files, name, len as usize);
        self.faults.note(DiskCall::Cut, ending)
    }

    fn replace(&mut self, name: FileName, bytes: &[u8]) -> Result<(), Trouble> {
        let ending = self.faults.ending(DiskCall::Replace);
        put(
            &mut self.files,
            name,
            Bytes::copy_from_slice(self.alloc, bytes)?,
        )?;
        give(self.faults.note(DiskCall::Replace, ending), ())
    }

    fn remove(&mut self, name: FileName) -> Result<(), Failed> {
        self.spare -= 1;
        let ending = self.faults.ending(DiskCall::Remove);
        remove(&mut self.files, name);
        self.faults.note(DiskCall::Remove, ending)
    }

    fn list(&mut self) -> Result<Items<FileName>, Trouble> {
        let ending = self.faults.ending(DiskCall::List);
        let names = names_of(self.alloc, &self.files)?;
        give(self.faults.note(DiskCall::List, ending), names)
    }

    fn take_last_read(&mut self) -> Bytes {
        mem::replace(&mut self.last_read, Bytes::new())
    }

    fn arm(&mut self) {
        self.faults.arm();
    }

    ghost lawful = { λ d. deaf_lawful };

    ghost planned = { λ d. fails_as_planned call_code d.faults d.last_read };
}

/// Finds a file by its name.
fn find(files: &[(FileName, Bytes)], name: FileName) -> Option<usize>
    ensures { IfSome result (λ i. i < length files.now) }
{
    files.iter().position(|file| file.0 == name)
}

/// Adds bytes at a file's end. An absent file is made.
fn extend(
    alloc: Global,
    files: &mut Vec<(FileName, Bytes)>,
    name: FileName,
    bytes: &[u8],
) -> Result<(), AllocError> {
    let mut all = match find(files, name) {
        Some(i) => Vec::from_slice(alloc, files[i].1.as_slice())?,
        None => Vec::new(alloc),
    };
    all.extend_from_slice(bytes)?;
    put(files, name, Bytes::from_vec(all)?)
}

/// Puts a file in the place of an old one.
fn put(files: &mut Vec<(FileName, Bytes)>, name: FileName, bytes: Bytes) -> Result<(), AllocError> {
    match find(files, name) {
        Some(i) => files[i].1 = bytes,
        None => {
            files.push((name, bytes))?;
        }
    }
    Ok(())
}

/// Cuts a file to a length.
fn cut(files: &mut Vec<(FileName, Bytes)>, name: FileName, len: usize) {
    if let Some(i) = find(files, name) {
        files[i].1.truncate(len);
    }
}

/// Removes a file.
fn remove(files: &mut Vec<(FileName, Bytes)>, name: FileName) {
    if let Some(i) = find(files, name) {
        files.remove(i);
    }
}

/// Gives a file's bytes from a place on.
fn share_from(
    files: &[(FileName, Bytes)],
    name: FileName,
    at: usize,
) -> Result<Option<Bytes>, AllocError> {
    match find(files, name) {
        Some(i) => {
            let bytes = &files[i].1;
            Ok(Some(bytes.slice(at.min(bytes.len())..)?))
        }
        None => Ok(None),
    }
}

/// Names the files.
fn names_of(alloc: Global, files: &[(FileName, Bytes)]) -> Result<Items<FileName>, AllocError> {
    let mut names = Items::new(alloc);
    for file in files {
        names.push(file.0)?;
    }
    Ok(names)
}
