//! The files of a disk in memory with all that was done to them, from which its images follow.
//!
//! Each call records what it did after it did it. `append` and `replace` make room for that first; `sync`, `cut` and
//! `remove` use room that was promised by `reserve`. A crash takes no room: the next event records that there was one
//! before it.

ghost use Rattle.std.specs.Prelude.{◌≡◌, ◌+◌, ◌≤◌, ◌<◌, ◌++◌, ◌∷◌, [], false, IfOk, OnOk};
ghost use Rattle.std.specs.Prelude.{OnErr, drop, option_map, vec_len, vec_capacity};
ghost use Rattle.tier_base.specs.Told.{NamesAllHeld};
ghost use Rattle.disk_model.specs.Content.{part_of};
ghost use Rattle.disk_model.specs.Steps.{Append, Sync, Cut, Replace, Remove, reads};
ghost use Rattle.disk_model.specs.Kept.{does, DropsUnsynced};

use crate::patch::{Patch, patch_of};
use crate::shelf::Shelf;
use bytes::Bytes;
use std::alloc::{AllocError, Global};
use std::marker::Model;
use tier_base::{FileName, Items};

/// What was done to a file. A replacement is kept as what differs from the file of before, and is sure where it
/// answered `Ok`.
#[derive(Drop)]
pub enum Op {
    Append(FileName, Bytes),
    Sync(FileName),
    Cut(FileName, u64),
    Replace(FileName, Patch, bool),
    Remove(FileName),
}

/// What was done, and whether the disk crashed right before it.
#[derive(Drop)]
pub struct Event {
    pub op: Op,
    pub crashed: bool,
}

/// The files, all that was done to them, and room for more.
#[derive(Drop)]
pub struct History {
    alloc: Global,
    shelf: Shelf,
    events: Vec<Event>,
    crashed: bool,
    spare: usize,
}

impl Model for History {
    ghost use Rattle.disk_model.specs.Kept.{KeptSteps};

    ghost Value = { KeptSteps };

    ghost use Rattle.disk_model.specs.History.{kept_in, HistoryIsSound};

    ghost view = { kept_in };

    ghost invariant = { HistoryIsSound };
}

impl History {
    /// Makes a disk with no files, without memory.
    pub fn new(alloc: Global) -> History
        ensures { result ≡ record { past = []; spare = 0 } }
    {
        History {
            alloc,
            shelf: Shelf::new(alloc),
            events: Vec::new(alloc),
            crashed: false,
            spare: 0,
        }
    }

    /// Makes room for so many further calls of `sync`, `cut` and `remove`.
    pub fn reserve(&mut self, calls: usize) -> Result<(), AllocError>
        ensures past { self.new.past ≡ self.old.past }
        ensures room { OnOk result (calls ≤ self.new.spare) }
        ensures no_less { self.old.spare ≤ self.new.spare }
    {
        if self.spare < calls {
            self.events.reserve(calls)?;
            self.spare = calls;
        }
        Ok(())
    }

    /// Adds bytes at a file's end.
    pub fn append(&mut self, name: FileName, bytes: &[u8]) -> Result<(), AllocError>
        ensures ok { OnOk result (self.new ≡ does (Append name bytes.now) self.old) }
        ensures err { OnErr result (self.new ≡ self.old) }
    {
        let alloc = self.alloc;
        let kept = Bytes::copy_from_slice(alloc, bytes)?;
        let shared = kept.clone()?;
        make_room(&mut self.events, self.spare)?;
        self.shelf.append(alloc, name, shared)?;
        note(&mut self.events, &mut self.crashed, Op::Append(name, kept));
        Ok(())
    }

    /// Puts a file in the place of an old one.
    pub fn replace(&mut self, name: FileName, bytes: &[u8], sure: bool) -> Result<(), AllocError>
        ensures ok { OnOk result (self.new ≡ does (Replace name bytes.now sure) self.old) }
        ensures err { OnErr result (self.new ≡ self.old) }
    {
        let alloc = self.alloc;
        let patch = patch_of(alloc, self.shelf.front(name), bytes)?;
        let file = Bytes::copy_from_slice(alloc, bytes)?;
        make_room(&mut self.events, self.spare)?;
        self.shelf.put(alloc, name, file)?;
        note(
            &mut self.events,
            &mut self.crashed,
            Op::Replace(name, patch, sure),
        );
        Ok(())
    }

    /// Counts all bytes of a file as synced.
    pub fn sync(&mut self, name: FileName)
        requires { 1 ≤ self.old.spare }
        ensures { self.new ≡ does (Sync name) self.old }
    {
        self.spare -= 1;
        self.shelf.sync(name);
        note(&mut self.events, &mut self.crashed, Op::Sync(name));
    }

    /// Cuts a file to a length.
    pub fn cut(&mut self, name: FileName, len: u64)
        requires { 1 ≤ self.old.spare }
        ensures { self.new ≡ does (Cut name len) self.old }
    {
        self.spare -= 1;
        self.shelf.cut(name, len as usize);
        note(&mut self.events, &mut self.crashed, Op::Cut(name, len));
    }

    /// Removes a file.
    pub fn remove(&mut self, name: FileName)
        requires { 1 ≤ self.old.spare }
        ensures { self.new ≡ does (Remove name) self.old }
    {
        self.spare -= 1;
        self.shelf.remove(name);
        note(&mut self.events, &mut self.crashed, Op::Remove(name));
    }

    /// Drops what isn't synced.
    pub fn crash(&mut self)
        ensures past { DropsUnsynced self.old.past self.new.past }
        ensures spare { self.new.spare ≡ self.old.spare }
    {
        if !self.crashed {
            self.shelf.crash();
            self.crashed = true;
        }
    }

    /// Uses the room of a call that isn't done.
    pub fn spend(&mut self)
        requires { 1 ≤ self.old.spare }
        ensures past { self.new.past ≡ self.old.past }
        ensures spare { self.new.spare + 1 ≡ self.old.spare }
    {
        self.spare -= 1;
    }

    /// Names the files.
    pub fn names(&self) -> Result<Items<FileName>, AllocError>
        ensures { IfOk result (λ names. NamesAllHeld (reads self.now.past) names) }
    {
        self.shelf.names(self.alloc)
    }

    /// Gives a file's bytes from a place on.
    pub fn read(&mut self, name: FileName, at: u64) -> Result<Option<Bytes>, AllocError>
        ensures bytes { IfOk result (λ bytes. bytes
            ≡ option_map (drop at) (reads self.old.past name)) }
        ensures kept { self.new ≡ self.old }
    {
        match self.read_part(name, at, u64::MAX)? {
            None => Ok(None),
            Some(bytes) => {
                // No file has as many bytes.
                let _len = bytes.len();
                Ok(Some(bytes))
            }
        }
    }

    /// Gives so many bytes of a file from a place on, and fewer only where it ends.
    pub fn read_part(
        &mut self,
        name: FileName,
        at: u64,
        most: u64,
    ) -> Result<Option<Bytes>, AllocError>
        ensures bytes { IfOk result (λ bytes. bytes
            ≡ option_map (part_of at most) (reads self.old.past name)) }
        ensures kept { self.new ≡ self.old }
    {
        self.shelf
            .read(self.alloc, name, at as usize, most as usize)
    }
}

/// Makes room for one event more than is promised.
fn make_room(events: &mut Vec<Event>, spare: usize) -> Result<(), AllocError>
    requires { vec_len events.old + spare ≤ vec_capacity events.old }
    ensures items { events.new.items ≡ events.old.items }
    ensures ok { OnOk result (vec_len events.new + spare < vec_capacity events.new) }
    ensures err { vec_len events.new + spare ≤ vec_capacity events.new }
{
    match spare.checked_add(1) {
        Some(all) => events.reserve(all),
        None => Err(AllocError),
    }
}

/// Records what was done, and whether there was a crash before it.
fn note(events: &mut Vec<Event>, crashed: &mut bool, op: Op)
    requires { vec_len events.old < vec_capacity events.old }
    ensures items { events.new.items
        ≡ events.old.items ++ (record { op = op; crashed = crashed.old }) ∷ [] }
    ensures crashed { crashed.new ≡ false }
    ensures len { vec_len events.new ≡ vec_len events.old + 1 }
    ensures capacity { vec_capacity events.old ≤ vec_capacity events.new }
{
    let event = Event {
        op,
        crashed: *crashed,
    };
    let _ = events.push(event);
    *crashed = false;
}
