//! A remote store over a folder of the operating system.

ghost use Rattle.std.specs.Prelude.{◌≡◌, [], false, IfOk};
ghost use Rattle.tier_base.specs.Device.{IsFreshDevice};
ghost use Rattle.object_store.specs.Call.{call_code};
ghost use Rattle.object_store.specs.Deaf.{nothing_told};
ghost use Rattle.device_tally.specs.Tally.{control_of, fails_as_planned};

use crate::folder_disk::{done, hand, share, told};
use crate::objects::Objects;
use bytes::Bytes;
use device_tally::Tally;
use object_store::{Store, StoreCall};
use std::rt::Files;
use tier_base::{Failed, Items, ObjectKey, PartitionId, Trouble, give};

/// A store of one partition's objects, each a file of a folder. It isn't observable, and every failure of the system is
/// a fault. No call of it is planned to fail, and each may.
#[derive(Drop)]
pub struct FolderStore<R: Files + AllocGlobal + Clone + Drop> {
    objects: Objects<R>,
    tally: Tally<StoreCall>,
    last_read: Bytes,
}

impl<R: Files + AllocGlobal + Clone + Drop> FolderStore<R> {
    /// Opens a partition's store over a folder, which is made where it is absent, with those above it. What was written
    /// and not put in its place is removed. Fails if a device call fails or memory runs out.
    pub fn open(rt: R, path: &str, partition: PartitionId) -> Result<FolderStore<R>, Trouble>
        ensures fresh { IfOk result (λ store. IsFreshDevice (⟦<FolderStore<R> as Store>⟧.control store)) }
        ensures plan { IfOk result (λ store. (⟦<FolderStore<R> as Store>⟧.control store).plan ≡ []) }
        ensures infallible { IfOk result (λ store.
            (⟦<FolderStore<R> as Store>⟧.control store).infallible ≡ false) }
        ensures scripted { IfOk result (λ store.
            (⟦<FolderStore<R> as Store>⟧.control store).scripted ≡ false) }
    {
        let objects = told(Objects::open(rt, path, partition))?;
        Ok(FolderStore {
            objects,
            tally: Tally::new(),
            last_read: Bytes::new(),
        })
    }

    /// Returns whether calls are counted.
    pub fn is_armed(&self) -> bool
        ensures { result ≡ (⟦<FolderStore<R> as Store>⟧.control self.now).armed }
    {
        self.tally.is_armed()
    }

    /// Counts the calls that failed.
    pub fn faults(&self) -> u64
        ensures { result ≡ (⟦<FolderStore<R> as Store>⟧.control self.now).faults }
    {
        self.tally.faults()
    }
}

impl<R: Files + AllocGlobal + Clone + Drop> Store for FolderStore<R> {
    ghost content = { λ s. nothing_told };

    ghost control = { λ s. control_of call_code s.tally s.last_read };

    fn put(&mut self, key: &ObjectKey, bytes: &Bytes) -> Result<(), Trouble> {
        let outcome = done(self.objects.put(key, bytes.as_slice()));
        give(self.tally.note(StoreCall::Put, outcome), ())
    }

    fn get(&mut self, key: &ObjectKey, at: u64) -> Result<Option<Bytes>, Trouble> {
        self.get_part(key, at, u64::MAX)
    }

    fn get_part(&mut self, key: &ObjectKey, at: u64, most: u64) -> Result<Option<Bytes>, Trouble> {
        let outcome = told(self.objects.get_part(key, at, most));
        let shared = share(&outcome)?;
        let answer = self.tally.note_any(StoreCall::Get, outcome);
        hand(&mut self.last_read, answer.is_ok(), shared);
        answer
    }

    fn delete(&mut self, key: &ObjectKey) -> Result<(), Failed> {
        let outcome = done(self.objects.delete(key));
        self.tally.note(StoreCall::Delete, outcome)
    }

    fn keys(&mut self) -> Result<Items<ObjectKey>, Trouble> {
        let keys = told(self.objects.keys());
        self.tally.note_any(StoreCall::Keys, keys)
    }

    fn arm(&mut self) {
        self.tally.arm();
    }

    ghost planned = { λ s. fails_as_planned call_code s.tally s.last_read };
}
