//! A partition's run: a fresh world over empty devices in memory, run by the partition's schedule.

ghost use Rattle.std.specs.Prelude.{◌≡◌, IfOk};
ghost use Rattle.plain_log.specs.Fresh.{fresh};
ghost use Rattle.plain_log.specs.Orders.{AreListsFor, IsConfig};
ghost use Rattle.partition_world.specs.Central.{IsCentral};
ghost use Rattle.script_lang.specs.Fit.{StepsToEnds};
ghost use Rattle.run_memory.specs.Run.{StartsWith, IsJournalOf};

use crate::devices::devices;
use disk_model::{Disk, MemoryDisk};
use laws_answers::{reaches_by_plan, runs_meet_no_damage};
use meta_log::{MemoryLog, MetaLog};
use object_store::{MemoryStore, Store};
use partition_world::{
    World, WorldRefusal, ends_are_complete, reaches_in_turn, reaches_later, run_in_order,
};
use plain_log::{ActorList, Config, fresh_is_safe, replays_keep_safe};
use script_lang::{Fault, PartScript};
use std::alloc::{AllocError, Global};
use tier_base::{Items, PartitionId};

/// Makes a partition's world, over empty devices in memory with these faults.
pub fn fresh_world(
    alloc: Global,
    partition: PartitionId,
    config: Config,
    lists: Items<ActorList>,
    faults: &[Fault],
) -> Result<World<MemoryDisk, MemoryStore, MemoryLog>, AllocError>
    requires config { IsConfig config }
    requires fit { AreListsFor config lists }
    ensures fresh { IfOk result (StartsWith ⟦<MemoryDisk as Disk>⟧ ⟦<MemoryStore as Store>⟧ ⟦<MemoryLog as MetaLog>⟧
        partition config lists faults.now) }
    ensures central { IfOk result (IsCentral ⟦<MemoryDisk as Disk>⟧ ⟦<MemoryStore as Store>⟧ ⟦<MemoryLog as MetaLog>⟧
        (fresh config)) }
{
    let devices = devices(alloc, config.brokers, faults)?;
    match World::fresh(alloc, partition, config, lists, devices) {
        Ok(world) => Ok(world),
        Err((_, WorldRefusal::NoMemory)) => Err(AllocError),
        // No call of these disks can fail before the world is made.
        Err((_, WorldRefusal::DiskFault)) => unreachable!(),
    }
}

/// Runs a partition's lists on a fresh world, by its schedule. Fails only if memory runs out.
pub fn run_partition(
    alloc: Global,
    config: Config,
    part: PartScript,
) -> Result<World<MemoryDisk, MemoryStore, MemoryLog>, AllocError>
    requires config { IsConfig config }
    requires fit { AreListsFor config part.lists }
    requires ends { StepsToEnds part }
    ensures run { IfOk result (λ w. IsJournalOf ⟦<MemoryDisk as Disk>⟧ ⟦<MemoryStore as Store>⟧ ⟦<MemoryLog as MetaLog>⟧
        config part (part.partition.0, w.journal.items)) }
    ensures lists { IfOk result (λ w. w.lists ≡ part.lists) }
{
    ends_are_complete::<MemoryDisk, MemoryStore, MemoryLog>();
    reaches_later::<MemoryDisk, MemoryStore, MemoryLog>();
    reaches_in_turn::<MemoryDisk, MemoryStore, MemoryLog>();
    runs_meet_no_damage::<MemoryDisk, MemoryStore, MemoryLog>();
    reaches_by_plan::<MemoryDisk, MemoryStore, MemoryLog>();
    fresh_is_safe();
    replays_keep_safe();
    let PartScript {
        partition,
        lists,
        schedule,
        faults,
    } = part;
    let mut world = fresh_world(alloc, partition, config, lists, faults.as_slice())?;
    run_in_order(alloc, &mut world, schedule.as_slice())?;
    Ok(world)
}
