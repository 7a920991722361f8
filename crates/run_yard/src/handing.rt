//! Providing a partition's devices.
//!
//! Where one of them can't be had, those that were provided so far go back.

ghost use Rattle.std.specs.Prelude.{◌≡◌, ◌+◌, ◌≤◌, List, length, IfOk, OnOk, OnErr, IsErrOf, IsTrue};
ghost use Rattle.tier_base.specs.Counts.{Rose};
ghost use Rattle.tier_base.specs.declared.fault.Trouble.TheVariants.{Failed};
ghost use Rattle.device_yard.specs.declared.came.Came.{Came};
ghost use Rattle.run_yard.specs.Yard.{OnlyOf, HandedOut, KeepsRest, KeepsFrom, Uses};
ghost use Rattle.run_yard.specs.Handed.{AreHandedDisks, AreHanded, AreAllHanded};
ghost use Rattle.run_yard.specs.Stopped.{AllTiersRest};

use crate::keeping::{keep, keep_disks};
use device_yard::Yard;
use partition_world::Devices;
use std::alloc::Global;
use tier_base::{BrokerId, PartitionId, Trouble};

/// Provides the disks of a partition's first so many brokers, in their order.
fn hand_disks<Y: Yard>(
    alloc: Global,
    yard: &mut Y,
    partition: PartitionId,
    count: u16,
) -> Result<Vec<Y::D>, Trouble>
    requires few { count ≤ 8 }
    ensures disks { IfOk result (λ disks. AreHandedDisks Y.D.Disk Y.S.Store Y.M.MetaLog partition count disks.items
        (Y.held yard.old)) }
    ensures control { OnOk result (HandedOut count (Y.control yard.old) (Y.control yard.new)) }
    ensures rest { OnOk result (IsTrue (Y.held yard.old).is_observable
        → KeepsRest partition (Y.held yard.old) (Y.held yard.new)) }
    ensures past { OnOk result (IsTrue (Y.held yard.old).is_observable
        → KeepsFrom partition count (Y.held yard.old) (Y.held yard.new)) }
    ensures only { OnOk result (OnlyOf partition (Y.held yard.old) (Y.held yard.new)) }
    ensures is_observable { (Y.held yard.new).is_observable ≡ (Y.held yard.old).is_observable }
    ensures unread { (Y.control yard.new).registries ≡ (Y.control yard.old).registries }
    ensures err { OnErr result ((came : List Came) × Uses came (Y.control yard.old) (Y.control yard.new)) }
    ensures same { OnErr result (IsTrue (Y.held yard.old).is_observable
        → AllTiersRest Y.D.Disk Y.S.Store Y.M.MetaLog (Y.held yard.old) (Y.held yard.new)) }
    ensures cause { IsErrOf result Failed → Rose (Y.control yard.old).faults (Y.control yard.new).faults }
{
    let mut disks = Vec::with_capacity(alloc, count as usize)?;
    for broker in 0..count {
        match yard.disk(partition, BrokerId(broker)) {
            Ok(disk) => disks.push_reserved(disk),
            Err(trouble) => {
                keep_disks(yard, partition, disks);
                return Err(trouble);
            }
        }
    }
    Ok(disks)
}

/// Provides a partition's devices but the disk of its registry, so many disks among them.
fn hand_devices<Y: Yard>(
    alloc: Global,
    yard: &mut Y,
    partition: PartitionId,
    count: u16,
) -> Result<Devices<Y::D, Y::S, Y::M>, Trouble>
    requires few { count ≤ 8 }
    ensures devices { IfOk result (λ devices. AreHanded Y.D.Disk Y.S.Store Y.M.MetaLog partition count devices
        (Y.held yard.old)) }
    ensures control { OnOk result (HandedOut (count + 2) (Y.control yard.old) (Y.control yard.new)) }
    ensures registry { OnOk result (IsTrue (Y.held yard.old).is_observable
        → (Y.held yard.new).registries partition ≡ (Y.held yard.old).registries partition) }
    ensures past { OnOk result (IsTrue (Y.held yard.old).is_observable
        → KeepsFrom partition count (Y.held yard.old) (Y.held yard.new)) }
    ensures only { OnOk result (OnlyOf partition (Y.held yard.old) (Y.held yard.new)) }
    ensures is_observable { (Y.held yard.new).is_observable ≡ (Y.held yard.old).is_observable }
    ensures unread { (Y.control yard.new).registries ≡ (Y.control yard.old).registries }
    ensures err { OnErr result ((came : List Came) × Uses came (Y.control yard.old) (Y.control yard.new)) }
    ensures same { OnErr result (IsTrue (Y.held yard.old).is_observable
        → AllTiersRest Y.D.Disk Y.S.Store Y.M.MetaLog (Y.held yard.old) (Y.held yard.new)) }
    ensures cause { IsErrOf result Failed → Rose (Y.control yard.old).faults (Y.control yard.new).faults }
{
    let disks = hand_disks(alloc, yard, partition, count)?;
    let store = match yard.store(partition) {
        Ok(store) => store,
        Err(trouble) => {
            keep_disks(yard, partition, disks);
            return Err(trouble);
        }
    };
    match yard.meta(partition) {
        Ok(meta) => Ok(Devices { disks, store, meta }),
        Err(trouble) => {
            keep_disks(yard, partition, disks);
            yard.keep_store(partition, store);
            Err(trouble)
        }
    }
}

/// Provides a partition's devices, so many disks among them, and the disk of its registry.
pub(crate) fn hand_out<Y: Yard>(
    alloc: Global,
    yard: &mut Y,
    partition: PartitionId,
    count: u16,
) -> Result<(Devices<Y::D, Y::S, Y::M>, Y::D), Trouble>
    requires few { count ≤ 8 }
    ensures devices { IfOk result (λ all. AreAllHanded Y.D.Disk Y.S.Store Y.M.MetaLog partition count all.0 all.1
        (Y.held yard.old)) }
    ensures control { OnOk result (HandedOut (count + 3) (Y.control yard.old) (Y.control yard.new)) }
    ensures only { OnOk result (OnlyOf partition (Y.held yard.old) (Y.held yard.new)) }
    ensures is_observable { (Y.held yard.new).is_observable ≡ (Y.held yard.old).is_observable }
    ensures unread { (Y.control yard.new).registries ≡ (Y.control yard.old).registries }
    ensures err { OnErr result ((came : List Came) × Uses came (Y.control yard.old) (Y.control yard.new)) }
    ensures same { OnErr result (IsTrue (Y.held yard.old).is_observable
        → AllTiersRest Y.D.Disk Y.S.Store Y.M.MetaLog (Y.held yard.old) (Y.held yard.new)) }
    ensures cause { IsErrOf result Failed → Rose (Y.control yard.old).faults (Y.control yard.new).faults }
{
    let devices = hand_devices(alloc, yard, partition, count)?;
    match yard.registry(partition) {
        Ok(registry) => Ok((devices, registry)),
        Err(trouble) => {
            keep(yard, partition, devices);
            Err(trouble)
        }
    }
}
