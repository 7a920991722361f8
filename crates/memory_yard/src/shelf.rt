//! Devices by their places, with room for those that are out.
//!
//! A place that was used once keeps its slot, so that a device that is out and comes back takes no memory.

ghost use Rattle.std.specs.Prelude.{◌≡◌, ◌+◌, ◌≤◌, [], Option, Some, None, OnOk, length};
ghost use Rattle.std.specs.Option.{option_copied};
ghost use Rattle.device_yard.specs.YardContent.{Both};
ghost use Rattle.memory_yard.specs.Found.{Adds};
ghost use Rattle.memory_yard.specs.Shelf.{at, LeavesPlace, AreStill, IsSlotOf, IsPartitionBelow, IsPartitionOn};

use crate::device::Device;
use crate::place::DevicePlace;
use crate::slot::Slot;
use device_yard::PartitionSet;
use std::alloc::{AllocError, Global};
use std::marker::Model;
use std::mem;

/// Devices by their places.
#[derive(Drop)]
pub struct Shelf<K: DevicePlace, T: Device> {
    slots: Vec<Slot<K, T>>,
}

impl<K: DevicePlace, T: Device> Model for Shelf<K, T> {
    ghost use Rattle.std.specs.Prelude.{◌-◌, vec_len, vec_capacity};
    ghost use Rattle.memory_yard.specs.Shelf.{Shelved, AreSlotsDistinct};

    ghost Value = { Shelved K T };

    ghost view = { λ s. record { slots = s.slots.items; room = vec_capacity s.slots - vec_len s.slots } };

    ghost invariant = { λ s. AreSlotsDistinct K.same s.slots.items };
}

impl<K: DevicePlace, T: Device> Shelf<K, T> {
    /// Has no device and no room yet, and takes no memory.
    pub fn new(alloc: Global) -> Shelf<K, T>
        ensures { result.slots ≡ [] }
    {
        Shelf {
            slots: Vec::new(alloc),
        }
    }

    /// Makes room for so many further devices.
    pub fn reserve(&mut self, count: usize) -> Result<(), AllocError>
        ensures ok { OnOk result (count ≤ self.new.room) }
        ensures no_less { self.old.room ≤ self.new.room }
        ensures slots { self.new.slots ≡ self.old.slots }
    {
        self.slots.reserve(count)?;
        Ok(())
    }

    /// Lends the device at a place.
    pub fn get(&self, place: K) -> Option<&T>
        ensures { option_copied result ≡ at K.same place self.now.slots }
    {
        match position(self.slots.as_slice(), place) {
            Some(i) => self.slots[i].device.as_ref(),
            None => None,
        }
    }

    /// Takes the device at a place away.
    pub fn take(&mut self, place: K) -> Option<T>
        ensures taken { result ≡ at K.same place self.old.slots }
        ensures leaves { LeavesPlace K.same place None self.old.slots self.new.slots }
        ensures room { self.new.room ≡ self.old.room }
    {
        match position(self.slots.as_slice(), place) {
            Some(i) => mem::replace(&mut self.slots[i].device, None),
            None => None,
        }
    }

    /// Puts a device at a place. One that was there is gone.
    pub fn put(&mut self, place: K, device: T)
        requires { 1 ≤ self.old.room }
        ensures leaves { LeavesPlace K.same place (Some device) self.old.slots self.new.slots }
        ensures room { self.old.room ≤ self.new.room + 1 }
    {
        match position(self.slots.as_slice(), place) {
            Some(i) => drop(mem::replace(&mut self.slots[i].device, Some(device))),
            None => self.slots.push_reserved(Slot {
                place,
                device: Some(device),
            }),
        }
    }

    /// Adds the partitions that have something to those that were found.
    pub fn find(&mut self, alloc: Global, found: &mut PartitionSet) -> Result<(), AllocError>
        ensures keeps { (q : _) → Both T.keeps (at K.same q self.old.slots) (at K.same q self.new.slots) }
        ensures room { self.new.room ≡ self.old.room }
        ensures found { OnOk result
            (Adds (IsPartitionOn K.partition_of T.used K.same self.old.slots) found.old found.new) }
    {
        find_all(self.slots.as_mut_slice(), alloc, found)
    }

    /// Crashes each device.
    pub fn crash(&mut self, alloc: Global)
        ensures crashes { (q : _) → Both T.crashes (at K.same q self.old.slots) (at K.same q self.new.slots) }
        ensures room { self.new.room ≡ self.old.room }
    {
        crash_all(self.slots.as_mut_slice(), alloc);
    }
}

/// Crashes each device of slots.
fn crash_all<K: DevicePlace, T: Device>(slots: &mut [Slot<K, T>], alloc: Global)
    ensures { AreStill T.crashes slots.old slots.new }
{
    for slot in slots.iter_mut() {
        slot.crash(alloc);
    }
}

/// Adds the partitions of slots that have something to those that were found.
fn find_all<K: DevicePlace, T: Device>(
    slots: &mut [Slot<K, T>],
    alloc: Global,
    found: &mut PartitionSet,
) -> Result<(), AllocError>
    ensures still { AreStill T.keeps slots.old slots.new }
    ensures found { OnOk result
        (Adds (IsPartitionBelow K.partition_of T.used (length slots.old) slots.old) found.old found.new) }
{
    for slot in slots.iter_mut() {
        slot.find(alloc, found)?;
    }
    Ok(())
}

/// Where a place has its slot.
fn position<K: DevicePlace, T: Device>(slots: &[Slot<K, T>], place: K) -> Option<usize>
    ensures { IsSlotOf K.same place slots.now result }
{
    for (i, slot) in slots.iter().enumerate() {
        if slot.place.is(place) {
            return Some(i);
        }
    }
    None
}
