//! A store in memory, whose calls fail by a plan.
//!
//! A call asks how it is going to end, does as much as is to be done, and is counted last;
//! so one that finds no memory has changed nothing and isn't counted.

ghost use Rattle.std.specs.Prelude.{◌≡◌, [], IsTrue};
ghost use Rattle.tier_base.specs.Device.{IsFreshDevice};
ghost use Rattle.tier_base.specs.Faults.{control_of};
ghost use Rattle.tier_base.specs.Laws.{fails_as_planned};
ghost use Rattle.object_store.specs.Call.{call_code};
ghost use Rattle.object_store.specs.Content.{Keeps};
ghost use Rattle.object_store.specs.Memory.{IsEmptyStore};
ghost use Rattle.object_store.specs.Shelf.{content_of};

use crate::call::{Planned, StoreCall};
use crate::handing::end_get;
use crate::shelf::Shelf;
use crate::store::Store;
use bytes::Bytes;
use std::alloc::Global;
use tier_base::{Failed, FaultPlan, Items, ObjectKey, Trouble, give};

/// A store in memory.
#[derive(Drop)]
pub struct MemoryStore {
    alloc: Global,
    shelf: Shelf,
    faults: FaultPlan<StoreCall>,
    last_read: Bytes,
}

impl MemoryStore {
    /// Makes a store with no objects, whose planned calls fail once it is armed, without memory.
    pub fn new(alloc: Global, plan: Vec<Planned>) -> MemoryStore
        ensures content { IsEmptyStore (⟦<MemoryStore as Store>⟧.content result) }
        ensures fresh { IsFreshDevice (⟦<MemoryStore as Store>⟧.control result) }
        ensures plan { (⟦<MemoryStore as Store>⟧.control result).plan ≡ plan.items }
        ensures infallible { IsTrue (⟦<MemoryStore as Store>⟧.control result).infallible }
        ensures scripted { IsTrue (⟦<MemoryStore as Store>⟧.control result).scripted }
    {
        MemoryStore {
            alloc,
            shelf: Shelf::new(alloc),
            faults: FaultPlan::new(plan),
            last_read: Bytes::new(),
        }
    }

    /// Provides the store again: the content stays, with this plan, no fault and no call counted.
    pub fn renew(&mut self, plan: Vec<Planned>)
        ensures content { Keeps (⟦<MemoryStore as Store>⟧.content self.old)
            (⟦<MemoryStore as Store>⟧.content self.new) }
        ensures fresh { IsFreshDevice (⟦<MemoryStore as Store>⟧.control self.new) }
        ensures plan { (⟦<MemoryStore as Store>⟧.control self.new).plan ≡ plan.items }
        ensures infallible { IsTrue (⟦<MemoryStore as Store>⟧.control self.new).infallible }
        ensures scripted { IsTrue (⟦<MemoryStore as Store>⟧.control self.new).scripted }
    {
        self.faults = FaultPlan::new(plan);
        self.last_read = Bytes::new();
    }

    /// Lends the planned calls.
    pub fn plan(&self) -> &[Planned]
        ensures { result.now ≡ (⟦<MemoryStore as Store>⟧.control self.now).plan }
    {
        self.faults.plan()
    }

    /// Returns whether planned calls fail.
    pub fn is_armed(&self) -> bool
        ensures { result ≡ (⟦<MemoryStore as Store>⟧.control self.now).armed }
    {
        self.faults.is_armed()
    }

    /// Counts the calls that failed.
    pub fn faults(&self) -> u64
        ensures { result ≡ (⟦<MemoryStore as Store>⟧.control self.now).faults }
    {
        self.faults.faults()
    }
}

impl Store for MemoryStore {
    ghost content = { λ m. content_of m.shelf };

    ghost control = { λ m. control_of call_code m.faults m.last_read };

    fn put(&mut self, key: &ObjectKey, bytes: &Bytes) -> Result<(), Trouble> {
        let ending = self.faults.ending(StoreCall::Put);
        self.shelf.put_if(key, bytes, ending.is_done())?;
        give(self.faults.note(StoreCall::Put, ending), ())
    }

    fn get(&mut self, key: &ObjectKey, at: u64) -> Result<Option<Bytes>, Trouble> {
        let object = self.shelf.get(key, at as usize)?;
        end_get(&mut self.faults, &mut self.last_read, object)
    }

    fn get_part(&mut self, key: &ObjectKey, at: u64, most: u64) -> Result<Option<Bytes>, Trouble> {
        let object = self.shelf.get_part(key, at as usize, most as usize)?;
        end_get(&mut self.faults, &mut self.last_read, object)
    }

    fn delete(&mut self, key: &ObjectKey) -> Result<(), Failed> {
        let ending = self.faults.ending(StoreCall::Delete);
        self.shelf.remove_if(key, ending.is_done());
        self.faults.note(StoreCall::Delete, ending)
    }

    fn keys(&mut self) -> Result<Items<ObjectKey>, Trouble> {
        let ending = self.faults.ending(StoreCall::Keys);
        let keys = self.shelf.keys(self.alloc)?;
        give(self.faults.note(StoreCall::Keys, ending), keys)
    }

    fn arm(&mut self) {
        self.faults.arm();
    }

    ghost planned = { λ m. fails_as_planned call_code m.faults m.last_read };
}
