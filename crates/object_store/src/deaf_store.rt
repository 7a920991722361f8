//! A store that works but isn't observable: code above it is proved without knowing what it reads.
//!
//! It begins with the objects that it is made of, whatever bytes they have. No call of it fails.

ghost use Rattle.std.specs.Prelude.{◌≡◌, ◌<◌, [], length, IfSome, IsTrue};
ghost use Rattle.tier_base.specs.Device.{IsFreshDevice};
ghost use Rattle.tier_base.specs.Faults.{control_of};
ghost use Rattle.tier_base.specs.Laws.{fails_as_planned};
ghost use Rattle.object_store.specs.Call.{call_code};
ghost use Rattle.object_store.specs.Deaf.{nothing_told};

use crate::call::StoreCall;
use crate::handing::{end_get, part};
use crate::store::Store;
use bytes::Bytes;
use std::alloc::{AllocError, Global};
use tier_base::{Failed, FaultPlan, Items, ObjectKey, Trouble, give};

/// A store that isn't observable.
#[derive(Drop)]
pub struct DeafStore {
    alloc: Global,
    objects: Vec<(ObjectKey, Bytes)>,
    faults: FaultPlan<StoreCall>,
    last_read: Bytes,
}

impl DeafStore {
    /// Makes a store of these objects, without memory. Where a key occurs twice, the first counts.
    pub fn new(alloc: Global, objects: Vec<(ObjectKey, Bytes)>) -> DeafStore
        ensures fresh { IsFreshDevice (⟦<DeafStore as Store>⟧.control result) }
        ensures plan { (⟦<DeafStore as Store>⟧.control result).plan ≡ [] }
        ensures infallible { IsTrue (⟦<DeafStore as Store>⟧.control result).infallible }
    {
        DeafStore {
            alloc,
            objects,
            faults: FaultPlan::new(Vec::new(alloc)),
            last_read: Bytes::new(),
        }
    }
}

impl Store for DeafStore {
    ghost content = { λ d. nothing_told };

    ghost control = { λ d. control_of call_code d.faults d.last_read };

    fn put(&mut self, key: &ObjectKey, bytes: &Bytes) -> Result<(), Trouble> {
        let ending = self.faults.ending(StoreCall::Put);
        put(&mut self.objects, key, bytes.clone()?)?;
        give(self.faults.note(StoreCall::Put, ending), ())
    }

    fn get(&mut self, key: &ObjectKey, at: u64) -> Result<Option<Bytes>, Trouble> {
        let object = share_from(&self.objects, key, at as usize)?;
        end_get(&mut self.faults, &mut self.last_read, object)
    }

    fn get_part(&mut self, key: &ObjectKey, at: u64, most: u64) -> Result<Option<Bytes>, Trouble> {
        let object = share_part(&self.objects, key, at as usize, most as usize)?;
        end_get(&mut self.faults, &mut self.last_read, object)
    }

    fn delete(&mut self, key: &ObjectKey) -> Result<(), Failed> {
        let ending = self.faults.ending(StoreCall::Delete);
        remove(&mut self.objects, key);
        self.faults.note(StoreCall::Delete, ending)
    }

    fn keys(&mut self) -> Result<Items<ObjectKey>, Trouble> {
        let ending = self.faults.ending(StoreCall::Keys);
        let keys = keys_of(self.alloc, &self.objects)?;
        give(self.faults.note(StoreCall::Keys, ending), keys)
    }

    fn arm(&mut self) {
        self.faults.arm();
    }

    ghost planned = { λ d. fails_as_planned call_code d.faults d.last_read };
}

/// Finds an object by its key.
fn find(objects: &[(ObjectKey, Bytes)], key: &ObjectKey) -> Option<usize>
    ensures { IfSome result (λ i. i < length objects.now) }
{
    objects.iter().position(|object| object.0 == *key)
}

/// Puts an object in the place of an old one.
fn put(
    objects: &mut Vec<(ObjectKey, Bytes)>,
    key: &ObjectKey,
    bytes: Bytes,
) -> Result<(), AllocError> {
    match find(objects, key) {
        Some(i) => objects[i].1 = bytes,
        None => {
            objects.push((*key, bytes))?;
        }
    }
    Ok(())
}

/// Removes an object.
fn remove(objects: &mut Vec<(ObjectKey, Bytes)>, key: &ObjectKey) {
    if let Some(i) = find(objects, key) {
        objects.remove(i);
    }
}

/// Gives an object's bytes from a place on.
fn share_from(
    objects: &[(ObjectKey, Bytes)],
    key: &ObjectKey,
    at: usize,
) -> Result<Option<Bytes>, AllocError> {
    match find(objects, key) {
        Some(i) => {
            let bytes = &objects[i].1;
            Ok(Some(bytes.slice(at.min(bytes.len())..)?))
        }
        None => Ok(None),
    }
}

/// Gives at most so many of an object's bytes from a place on.
fn share_part(
    objects: &[(ObjectKey, Bytes)],
    key: &ObjectKey,
    at: usize,
    most: usize,
) -> Result<Option<Bytes>, AllocError> {
    match find(objects, key) {
        Some(i) => Ok(Some(part(&objects[i].1, at, most)?)),
        None => Ok(None),
    }
}

/// Names the objects.
fn keys_of(alloc: Global, objects: &[(ObjectKey, Bytes)]) -> Result<Items<ObjectKey>, AllocError> {
    let mut keys = Items::new(alloc);
    for object in objects {
        keys.push(object.0)?;
    }
    Ok(keys)
}
