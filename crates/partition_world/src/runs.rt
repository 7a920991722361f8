//! Runs of a world: its actors are stepped as a schedule says, or each to the end of its list.

ghost use Rattle.std.specs.Prelude.{◌≡◌, ℕ, OnOk};
ghost use Rattle.partition_world.specs.Turn.{IsAtEnd};
ghost use Rattle.partition_world.specs.Later.{IsLater};
ghost use Rattle.partition_world.specs.Reaches.{GoesTimes, GoesUntil, Paces, Reaches};

use crate::world::World;
use disk_model::Disk;
use laws_partition::Stepped;
use meta_log::MetaLog;
use object_store::Store;
use plain_log::Pace;
use std::alloc::{AllocError, Global};
use tier_base::ActorId;

/// Steps an actor until it has answered so many of its commands, or all of them.
fn run_until<D: Disk, S: Store, M: MetaLog>(
    alloc: Global,
    world: &mut World<D, S, M>,
    actor: ActorId,
    number: u32,
) -> Result<(), AllocError>
    ensures later { IsLater D.Disk S.Store M.MetaLog world.old world.new }
    ensures reaches { OnOk result ((turns : ℕ)
        × GoesUntil D.Disk S.Store M.MetaLog world.old actor.0 number turns world.new) }
{
    while !world.has_answered(actor, number) {
        match world.step(alloc, actor) {
            Stepped::NoMemory => return Err(AllocError),
            _ => {}
        }
    }
    Ok(())
}

/// Steps an actor so many times, and no longer once it is at the end of its list.
fn run_times<D: Disk, S: Store, M: MetaLog>(
    alloc: Global,
    world: &mut World<D, S, M>,
    actor: ActorId,
    turns: u32,
) -> Result<(), AllocError>
    ensures later { IsLater D.Disk S.Store M.MetaLog world.old world.new }
    ensures reaches { OnOk result (GoesTimes D.Disk S.Store M.MetaLog world.old actor.0 turns world.new) }
{
    for _i in 0..turns {
        match world.step(alloc, actor) {
            Stepped::Nothing => return Ok(()),
            Stepped::NoMemory => return Err(AllocError),
            _ => {}
        }
    }
    Ok(())
}

/// Steps an actor as one item of a schedule says.
fn run_pace<D: Disk, S: Store, M: MetaLog>(
    alloc: Global,
    world: &mut World<D, S, M>,
    pace: Pace,
) -> Result<(), AllocError>
    ensures later { IsLater D.Disk S.Store M.MetaLog world.old world.new }
    ensures reaches { OnOk result (Paces D.Disk S.Store M.MetaLog world.old pace world.new) }
{
    match pace {
        Pace::Until { actor, number } => run_until(alloc, world, actor, number),
        Pace::Times { actor, turns } => run_times(alloc, world, actor, turns),
    }
}

/// Steps the actors as a schedule says. Where there is no memory the turns so far have been taken.
pub fn run_in_order<D: Disk, S: Store, M: MetaLog>(
    alloc: Global,
    world: &mut World<D, S, M>,
    schedule: &[Pace],
) -> Result<(), AllocError>
    ensures later { IsLater D.Disk S.Store M.MetaLog world.old world.new }
    ensures reaches { OnOk result (Reaches D.Disk S.Store M.MetaLog world.old schedule.now world.new) }
{
    for pace in schedule {
        run_pace(alloc, world, *pace)?;
    }
    Ok(())
}

/// Steps an actor to the end of its list.
fn run_actor<D: Disk, S: Store, M: MetaLog>(
    alloc: Global,
    world: &mut World<D, S, M>,
    actor: ActorId,
) -> Result<(), AllocError>
    ensures later { IsLater D.Disk S.Store M.MetaLog world.old world.new }
    ensures ended { OnOk result (IsAtEnd world.new actor.0) }
{
    loop {
        match world.step(alloc, actor) {
            Stepped::Nothing => return Ok(()),
            Stepped::NoMemory => return Err(AllocError),
            _ => {}
        }
    }
}

/// Steps the actors, in the order of their lists, each to the end of its list. Fails only if memory runs out.
pub fn run_to_end<D: Disk, S: Store, M: MetaLog>(
    alloc: Global,
    world: &mut World<D, S, M>,
) -> Result<(), AllocError>
    ensures later { IsLater D.Disk S.Store M.MetaLog world.old world.new }
    ensures ended { OnOk result ((a : ℕ) → IsAtEnd world.new a) }
{
    let count = world.lists().len();
    for place in 0..count {
        let actor = world.lists()[place].actor;
        run_actor(alloc, world, actor)?;
    }
    Ok(())
}
