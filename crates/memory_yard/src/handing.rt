//! Devices that are provided from a shelf: one that came back with what it held, or an empty one.

ghost use Rattle.std.specs.Prelude.{◌≡◌, ◌≢◌, ◌≤◌, ◌+◌, None, IfOk, OnOk, OnErr, IsErrOf, IsSome, IsTrue, not, is_some};
ghost use Rattle.tier_base.specs.Device.{IsFreshDevice};
ghost use Rattle.tier_base.specs.declared.fault.Trouble.TheVariants.{Failed};
ghost use Rattle.disk_model.specs.Content.{Keeps};
ghost use Rattle.disk_model.specs.MemoryFiles.{fuse_of};
ghost use Rattle.meta_log.specs.Content as log;
ghost use Rattle.device_yard.specs.YardContent.{Both, HandsDisk, HandsStore, HandsLog};
ghost use Rattle.memory_yard.specs.Log.{told};
ghost use Rattle.memory_yard.specs.Place.{same_partition};
ghost use Rattle.memory_yard.specs.Shelf.{at, LeavesPlace};

use crate::device::RegistryDisk;
use crate::log_place::{LogPlace, open};
use crate::shelf::Shelf;
use disk_model::{Disk, MemoryDisk};
use meta_log::MetaLog;
use meta_log_file::{DiskLog, an_empty_disk_has_no_notes};
use object_store::{MemoryStore, Store};
use std::alloc::Global;
use tier_base::{PartitionId, Trouble};

/// Sets a fuse to a disk that was just provided, where there is one.
fn fused(disk: MemoryDisk, fuse: Option<u64>) -> MemoryDisk
    requires fresh { IsFreshDevice (⟦<MemoryDisk as Disk>⟧.control disk) }
    requires infallible { IsTrue (⟦<MemoryDisk as Disk>⟧.control disk).infallible }
    requires unfused { fuse_of disk ≡ None }
    ensures fresh { IsFreshDevice (⟦<MemoryDisk as Disk>⟧.control result) }
    ensures content { Keeps (⟦<MemoryDisk as Disk>⟧.content disk) (⟦<MemoryDisk as Disk>⟧.content result) }
    ensures infallible { (⟦<MemoryDisk as Disk>⟧.control result).infallible ≡ not (is_some fuse) }
    ensures fuse { fuse_of result ≡ fuse }
{
    let mut disk = disk;
    if let Some(calls) = fuse {
        disk.fuse(calls);
    }
    disk
}

/// Provides a disk that came back, or an empty one. Its calls can't fail but by the fuse, if there is one.
pub fn hand_disk(alloc: Global, held: Option<MemoryDisk>, fuse: Option<u64>) -> MemoryDisk
    ensures fresh { IsFreshDevice (⟦<MemoryDisk as Disk>⟧.control result) }
    ensures content { HandsDisk ⟦<MemoryDisk as Disk>⟧.content held (⟦<MemoryDisk as Disk>⟧.content result) }
    ensures infallible { (⟦<MemoryDisk as Disk>⟧.control result).infallible ≡ not (is_some fuse) }
    ensures fuse { fuse_of result ≡ fuse }
{
    match held {
        Some(mut disk) => {
            disk.renew(Vec::new(alloc));
            fused(disk, fuse)
        }
        None => fused(MemoryDisk::new(alloc, Vec::new(alloc)), fuse),
    }
}

/// The disk of a registry that came back.
pub fn disk_of(held: Option<RegistryDisk>) -> Option<MemoryDisk>
    ensures { result ≡ held }
{
    match held {
        Some(registry) => Some(registry.disk),
        None => None,
    }
}

/// Provides a store, whose calls can't fail.
pub fn hand_store(
    alloc: Global,
    stores: &mut Shelf<PartitionId, MemoryStore>,
    place: PartitionId,
) -> MemoryStore
    ensures fresh { IsFreshDevice (⟦<MemoryStore as Store>⟧.control result) }
    ensures content { HandsStore ⟦<MemoryStore as Store>⟧.content (at same_partition place stores.old.slots)
        (⟦<MemoryStore as Store>⟧.content result) }
    ensures leaves { LeavesPlace same_partition place None stores.old.slots stores.new.slots }
    ensures room { stores.new.room ≡ stores.old.room }
{
    match stores.take(place) {
        Some(mut store) => {
            store.renew(Vec::new(alloc));
            store
        }
        None => MemoryStore::new(alloc, Vec::new(alloc)),
    }
}

/// Provides a metadata log: one that is opened over the disk of the log that came back, or over an empty one. Where it
/// can't be opened the disk is kept. Its disk's calls can't fail but by the fuse, if there is one.
pub fn hand_log(
    alloc: Global,
    logs: &mut Shelf<PartitionId, LogPlace>,
    place: PartitionId,
    fuse: Option<u64>,
) -> Result<DiskLog<MemoryDisk>, Trouble>
    requires { 1 ≤ logs.old.room }
    ensures fresh { IfOk result (λ l. IsFreshDevice (⟦<DiskLog<MemoryDisk> as MetaLog>⟧.control l)) }
    ensures content { IfOk result (λ l. HandsLog told (at same_partition place logs.old.slots) (told l)) }
    ensures leaves { OnOk result (LeavesPlace same_partition place None logs.old.slots logs.new.slots) }
    ensures err { OnErr result ((q : _) → Both (λ m n. log.Keeps (told m) (told n))
        (at same_partition q logs.old.slots) (at same_partition q logs.new.slots)) }
    ensures cause { IsErrOf result Failed → IsSome fuse }
    ensures room { OnOk result (logs.new.room ≡ logs.old.room) }
    ensures room_err { OnErr result (logs.old.room ≤ logs.new.room + 1) }
{
    match logs.take(place) {
        Some(kept) => {
            let mut bare = kept.into_disk();
            bare.renew(Vec::new(alloc));
            match open(alloc, fused(bare, fuse)) {
                Ok(log) => Ok(log),
                Err((disk, why)) => {
                    logs.put(place, LogPlace::of_disk(disk));
                    Err(why)
                }
            }
        }
        None => {
            an_empty_disk_has_no_notes::<MemoryDisk>();
            match open(alloc, fused(MemoryDisk::new(alloc, Vec::new(alloc)), fuse)) {
                Ok(log) => Ok(log),
                Err((_, why)) => Err(why),
            }
        }
    }
}
