//! The devices in memory of a partition. Those calls of them fail that the script's fault lines name.

ghost use Rattle.std.specs.Prelude.{◌≡◌, length, IfOk};
ghost use Rattle.partition_commands.specs.Fresh.{AreFreshDisks, DisksTell};
ghost use Rattle.run_memory.specs.Plans.{ArePlanned};
ghost use Rattle.run_memory.specs.Devices.{HaveFaults, AreBlank};

use crate::plans::{disk_plan, meta_plan, store_plan};
use disk_model::{Disk, MemoryDisk};
use meta_log::{MemoryLog, MetaLog};
use object_store::{MemoryStore, Store};
use partition_world::Devices;
use script_lang::Fault;
use std::alloc::{AllocError, Global};

/// Makes so many disks, without files, with the faults of their brokers.
fn disks(alloc: Global, count: u16, faults: &[Fault]) -> Result<Vec<MemoryDisk>, AllocError>
    ensures count { IfOk result (λ disks. length disks.items ≡ count) }
    ensures fresh { IfOk result (λ disks. AreFreshDisks ⟦<MemoryDisk as Disk>⟧.content ⟦<MemoryDisk as Disk>⟧.control
        disks.items) }
    ensures told { IfOk result (λ disks. DisksTell ⟦<MemoryDisk as Disk>⟧.content disks.items) }
    ensures planned { IfOk result (λ disks. ArePlanned ⟦<MemoryDisk as Disk>⟧.control faults.now 0 disks.items) }
{
    let mut disks = Vec::new(alloc);
    for broker in 0..count {
        let plan = disk_plan(alloc, broker, faults)?;
        disks.push(MemoryDisk::new(alloc, plan))?;
    }
    Ok(disks)
}

/// Makes a partition's devices, so many disks among them, with their faults.
pub(crate) fn devices(
    alloc: Global,
    count: u16,
    faults: &[Fault],
) -> Result<Devices<MemoryDisk, MemoryStore, MemoryLog>, AllocError>
    ensures count { IfOk result (λ d. length d.disks.items ≡ count) }
    ensures blank { IfOk result (λ d. AreBlank ⟦<MemoryDisk as Disk>⟧ ⟦<MemoryStore as Store>⟧ ⟦<MemoryLog as MetaLog>⟧
        d.disks.items d.store d.meta) }
    ensures planned { IfOk result (λ d. HaveFaults ⟦<MemoryDisk as Disk>⟧ ⟦<MemoryStore as Store>⟧ ⟦<MemoryLog as MetaLog>⟧
        faults.now d.disks.items d.store d.meta) }
{
    let disks = disks(alloc, count, faults)?;
    let store = MemoryStore::new(alloc, store_plan(alloc, faults)?);
    let meta = MemoryLog::new(alloc, meta_plan(alloc, faults)?);
    Ok(Devices { disks, store, meta })
}
