//! A slot of a shelf: a place, and the device that came back to it.

ghost use Rattle.std.specs.Prelude.{◌≡◌, ◌↔◌, IfOk, OnOk, IsTrue};
ghost use Rattle.device_yard.specs.YardContent.{IsThereWith, Both};
ghost use Rattle.memory_yard.specs.Found.{Adds};
ghost use Rattle.memory_yard.specs.Shelf.{SlotKeeps, IsPartitionOf};

use crate::device::Device;
use crate::place::DevicePlace;
use device_yard::PartitionSet;
use std::alloc::{AllocError, Global};

/// A place, and its device, if that is here.
#[derive(Drop)]
pub struct Slot<K: Copy, T: Drop> {
    pub place: K,
    pub device: Option<T>,
}

impl<K: DevicePlace, T: Device> Slot<K, T> {
    /// Returns whether its device is here and it has content.
    fn is_used(&mut self, alloc: Global) -> Result<bool, AllocError>
        ensures keeps { SlotKeeps T.keeps self.old self.new }
        ensures used { IfOk result (λ answer. IsTrue answer ↔ IsThereWith T.used self.old.device) }
    {
        match &mut self.device {
            Some(device) => device.is_used(alloc),
            None => Ok(false),
        }
    }

    /// Crashes its device, if that is here.
    pub fn crash(&mut self, alloc: Global)
        ensures { SlotKeeps T.crashes self.old self.new }
    {
        if let Some(device) = &mut self.device {
            device.crash(alloc);
        }
    }

    /// Adds its partition to those that were found, where its device has content.
    pub fn find(&mut self, alloc: Global, found: &mut PartitionSet) -> Result<(), AllocError>
        ensures keeps { SlotKeeps T.keeps self.old self.new }
        ensures found { OnOk result
            (Adds (IsPartitionOf K.partition_of T.used self.old) found.old found.new) }
    {
        if self.is_used(alloc)? {
            found.insert(self.place.partition())?;
        }
        Ok(())
    }
}
