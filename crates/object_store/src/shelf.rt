//! The objects of a store in memory, in the order of their keys.

ghost use Rattle.std.specs.Prelude.{◌≡◌, take, drop, None, IfOk, OnOk, OnErr, option_map};
ghost use Rattle.std.specs.BTreeMap.{keys};
ghost use Rattle.std.specs.List.Sorted.{IsStrictlySortedBy};
ghost use Rattle.tier_base.specs.Told.{NamesAllHeld, replaced, removed};
ghost use Rattle.object_store.specs.Content.{MadeAt, made_if};
ghost use Rattle.object_store.specs.Shelf.{objects_on, keys_on, slot_cmp};

use crate::handing::part;
use crate::slot::{Slot, key_at, slot_of};
use bytes::Bytes;
use std::alloc::{AllocError, Global};
use std::collections::BTreeMap;
use tier_base::{Items, ObjectKey};

/// The objects.
#[derive(Drop)]
pub struct Shelf {
    objects: BTreeMap<Slot, Bytes>,
}

impl Shelf {
    /// Makes a shelf with no objects, without memory.
    pub fn new(alloc: Global) -> Shelf
        ensures { (k : _) → objects_on result k ≡ None }
    {
        Shelf {
            objects: BTreeMap::new(alloc),
        }
    }

    /// Puts an object in the place of an old one, where that is to be done. Its bytes are shared.
    pub fn put_if(&mut self, key: &ObjectKey, bytes: &Bytes, done: bool) -> Result<(), AllocError>
        ensures ok { OnOk result (MadeAt key.now (made_if done (replaced bytes.now))
            (objects_on self.old) (objects_on self.new)) }
        ensures err { OnErr result ((k : _) → objects_on self.new k ≡ objects_on self.old k) }
    {
        if done {
            let shared = bytes.clone()?;
            self.objects.insert(slot_of(key), shared)?;
        }
        Ok(())
    }

    /// Removes an object, where that is to be done.
    pub fn remove_if(&mut self, key: &ObjectKey, done: bool)
        ensures { MadeAt key.now (made_if done removed)
            (objects_on self.old) (objects_on self.new) }
    {
        if done {
            self.objects.remove(&slot_of(key));
        }
    }

    /// Gives an object's bytes from a place on.
    pub fn get(&self, key: &ObjectKey, at: usize) -> Result<Option<Bytes>, AllocError>
        ensures { IfOk result (λ bytes. bytes
            ≡ option_map (drop at) (objects_on self.now key.now)) }
    {
        match self.objects.get(&slot_of(key)) {
            Some(bytes) => Ok(Some(bytes.slice(at.min(bytes.len())..)?)),
            None => Ok(None),
        }
    }

    /// Gives at most so many of an object's bytes from a place on.
    pub fn get_part(
        &self,
        key: &ObjectKey,
        at: usize,
        most: usize,
    ) -> Result<Option<Bytes>, AllocError>
        ensures { IfOk result (λ bytes. bytes
            ≡ option_map (λ object. take most (drop at object)) (objects_on self.now key.now)) }
    {
        match self.objects.get(&slot_of(key)) {
            Some(bytes) => Ok(Some(part(bytes, at, most)?)),
            None => Ok(None),
        }
    }

    /// Names the objects.
    pub fn keys(&self, alloc: Global) -> Result<Items<ObjectKey>, AllocError>
        ensures { IfOk result (λ keys. NamesAllHeld (objects_on self.now) keys) }
    {
        self.in_order(alloc)
    }

    /// Names the objects in the order of their slots.
    fn in_order(&self, alloc: Global) -> Result<Items<ObjectKey>, AllocError>
        ensures keys { IfOk result (λ keys. keys ≡ keys_on self.now) }
        ensures sorted { OnOk result (IsStrictlySortedBy slot_cmp (keys self.now.objects)) }
    {
        let mut keys = Items::new(alloc);
        for slot in self.objects.keys() {
            keys.push(key_at(slot))?;
        }
        Ok(keys)
    }
}
