//! Giving a partition's devices back to their environment.

ghost use Rattle.std.specs.Prelude.{◌≡◌, ◌+◌, ◌≤◌, ◌++◌, ◌∷◌, [], List, map, length, IsTrue};
ghost use Rattle.run_yard.specs.Yard.{came_of, cames_of, CameBack, KeepsDisks, KeepsDevices, KeepsAll};

use device_yard::Yard;
use partition_world::Devices;
use tier_base::{BrokerId, PartitionId};

/// Gives back the disks of a partition's first so many brokers, in their order.
pub(crate) fn keep_disks<Y: Yard>(yard: &mut Y, partition: PartitionId, disks: Vec<Y::D>)
    requires out { length disks.items ≤ (Y.control yard.old).out }
    requires few { length disks.items ≤ 8 }
    ensures control { CameBack (map (came_of Y.D.control) disks.items) (Y.control yard.old) (Y.control yard.new) }
    ensures held { KeepsDisks partition disks.items (Y.held yard.old) (Y.held yard.new) }
    ensures unread { (Y.control yard.new).registries ≡ (Y.control yard.old).registries }
{
    let mut broker = 0u16;
    for disk in disks {
        yard.keep_disk(partition, BrokerId(broker), disk);
        broker += 1;
    }
}

/// Gives back a partition's devices but the disk of its registry.
pub(crate) fn keep<Y: Yard>(
    yard: &mut Y,
    partition: PartitionId,
    devices: Devices<Y::D, Y::S, Y::M>,
)
    requires out { length devices.disks.items + 2 ≤ (Y.control yard.old).out }
    requires few { length devices.disks.items ≤ 8 }
    ensures control { CameBack (map (came_of Y.D.control) devices.disks.items
        ++ came_of Y.S.control devices.store ∷ came_of Y.M.control devices.meta ∷ [])
        (Y.control yard.old) (Y.control yard.new) }
    ensures held { KeepsDevices partition devices (Y.held yard.old) (Y.held yard.new) }
    ensures unread { (Y.control yard.new).registries ≡ (Y.control yard.old).registries }
{
    let Devices { disks, store, meta } = devices;
    keep_disks(yard, partition, disks);
    yard.keep_store(partition, store);
    yard.keep_meta(partition, meta);
}

/// Gives back all of a partition's devices.
pub(crate) fn keep_all<Y: Yard>(
    yard: &mut Y,
    partition: PartitionId,
    devices: Devices<Y::D, Y::S, Y::M>,
    registry: Y::D,
)
    requires out { length devices.disks.items + 3 ≤ (Y.control yard.old).out }
    requires few { length devices.disks.items ≤ 8 }
    ensures control { CameBack (cames_of Y.D.Disk Y.S.Store Y.M.MetaLog devices registry) (Y.control yard.old)
        (Y.control yard.new) }
    ensures held { KeepsAll Y.D.content partition devices registry (Y.held yard.old) (Y.held yard.new) }
    ensures read { (Y.control yard.new).registries ≡ (Y.control yard.old).registries
        ++ record { partition = partition; last_read = (Y.D.control registry).last_read } ∷ [] }
{
    keep(yard, partition, devices);
    yard.keep_registry(partition, registry);
}
