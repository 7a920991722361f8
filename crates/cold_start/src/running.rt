//! Runs of an open partition: its actors are stepped as a schedule says, as those of a world are.

ghost use Rattle.std.specs.Prelude.{◌≡◌, ◌≢◌, ◌⊎◌, ℕ, false, OnOk, IfOk, IfErr};
ghost use Rattle.tier_base.specs.Device.{Lasts};
ghost use Rattle.laws_partition.specs.declared.actor_progress.Stepped.TheVariants.{NoMemory};
ghost use Rattle.partition_world.specs.Later.{IsLater};
ghost use Rattle.partition_world.specs.Reaches.{GoesTimes, GoesUntil, Paces, Reaches};
ghost use Rattle.partition_world.specs.Turn.{Steps};
ghost use Rattle.cold_start.specs.Moments.{RunsThrough};
ghost use Rattle.cold_start.specs.Stepping.{HaltsSteps};

use crate::cold::Cold;
use crate::refusal::ColdRefusal;
use disk_model::Disk;
use laws_partition::Stepped;
use meta_log::MetaLog;
use object_store::Store;
use plain_log::Pace;
use std::alloc::Global;
use tier_base::ActorId;

/// Takes an actor's next turn. Out of memory is a refusal.
fn turn<D: Disk, S: Store, M: MetaLog>(
    alloc: Global,
    cold: &mut Cold<D, S, M>,
    actor: ActorId,
) -> Result<Stepped, ColdRefusal>
    requires { cold.old.ended ≡ false }
    ensures steps { IfOk result (λ stepped. Steps D.Disk S.Store M.MetaLog cold.old.world actor.0 stepped cold.new.world
        × (stepped ≢ NoMemory)) }
    ensures later { IsLater D.Disk S.Store M.MetaLog cold.old.world cold.new.world }
    ensures going { OnOk result (cold.new.ended ≡ false) }
    ensures err { IfErr result (λ why. HaltsSteps D.Disk S.Store M.MetaLog cold.old cold.new why) }
    ensures control { Lasts (D.control cold.old.reg) (D.control cold.new.reg) }
    ensures is_observable { (D.content cold.new.reg).is_observable ≡ (D.content cold.old.reg).is_observable }
    ensures during { RunsThrough D.Disk S.Store M.MetaLog cold.old cold.new }
{
    match cold.step(alloc, actor) {
        Ok(Stepped::NoMemory) => Err(ColdRefusal::NoMemory),
        Ok(stepped) => Ok(stepped),
        Err(why) => Err(why),
    }
}

/// Steps an actor until it has answered so many of its commands, or all of them.
fn run_until<D: Disk, S: Store, M: MetaLog>(
    alloc: Global,
    cold: &mut Cold<D, S, M>,
    actor: ActorId,
    number: u32,
) -> Result<(), ColdRefusal>
    requires { cold.old.ended ≡ false }
    ensures later { IsLater D.Disk S.Store M.MetaLog cold.old.world cold.new.world }
    ensures reaches { OnOk result ((turns : ℕ)
        × GoesUntil D.Disk S.Store M.MetaLog cold.old.world actor.0 number turns cold.new.world) }
    ensures going { OnOk result (cold.new.ended ≡ false) }
    ensures err { IfErr result (λ why. HaltsSteps D.Disk S.Store M.MetaLog cold.old cold.new why) }
    ensures control { Lasts (D.control cold.old.reg) (D.control cold.new.reg) }
    ensures is_observable { (D.content cold.new.reg).is_observable ≡ (D.content cold.old.reg).is_observable }
    ensures during { RunsThrough D.Disk S.Store M.MetaLog cold.old cold.new }
{
    while !cold.world().has_answered(actor, number) {
        match turn(alloc, cold, actor) {
            Ok(_) => {}
            Err(why) => return Err(why),
        }
    }
    Ok(())
}

/// Steps an actor so many times, and no longer once it is at the end of its list.
fn run_times<D: Disk, S: Store, M: MetaLog>(
    alloc: Global,
    cold: &mut Cold<D, S, M>,
    actor: ActorId,
    turns: u32,
) -> Result<(), ColdRefusal>
    requires { cold.old.ended ≡ false }
    ensures later { IsLater D.Disk S.Store M.MetaLog cold.old.world cold.new.world }
    ensures reaches { OnOk result (GoesTimes D.Disk S.Store M.MetaLog cold.old.world actor.0 turns cold.new.world) }
    ensures going { OnOk result (cold.new.ended ≡ false) }
    ensures err { IfErr result (λ why. HaltsSteps D.Disk S.Store M.MetaLog cold.old cold.new why) }
    ensures control { Lasts (D.control cold.old.reg) (D.control cold.new.reg) }
    ensures is_observable { (D.content cold.new.reg).is_observable ≡ (D.content cold.old.reg).is_observable }
    ensures during { RunsThrough D.Disk S.Store M.MetaLog cold.old cold.new }
{
    for _i in 0..turns {
        let stepped = match turn(alloc, cold, actor) {
            Ok(stepped) => stepped,
            Err(why) => return Err(why),
        };
        match stepped {
            Stepped::Nothing => return Ok(()),
            _ => {}
        }
    }
    Ok(())
}

/// Steps an actor as one item of a schedule says.
fn run_pace<D: Disk, S: Store, M: MetaLog>(
    alloc: Global,
    cold: &mut Cold<D, S, M>,
    pace: Pace,
) -> Result<(), ColdRefusal>
    requires { cold.old.ended ≡ false }
    ensures later { IsLater D.Disk S.Store M.MetaLog cold.old.world cold.new.world }
    ensures reaches { OnOk result (Paces D.Disk S.Store M.MetaLog cold.old.world pace cold.new.world) }
    ensures going { OnOk result (cold.new.ended ≡ false) }
    ensures err { IfErr result (λ why. HaltsSteps D.Disk S.Store M.MetaLog cold.old cold.new why) }
    ensures control { Lasts (D.control cold.old.reg) (D.control cold.new.reg) }
    ensures is_observable { (D.content cold.new.reg).is_observable ≡ (D.content cold.old.reg).is_observable }
    ensures during { RunsThrough D.Disk S.Store M.MetaLog cold.old cold.new }
{
    match pace {
        Pace::Until { actor, number } => run_until(alloc, cold, actor, number),
        Pace::Times { actor, turns } => run_times(alloc, cold, actor, turns),
    }
}

/// Steps the actors as a schedule says. After a refusal the turns so far have been taken. Where the registry couldn't
/// be kept the partition has ended, and the file is that of the world before the last turn or after it.
pub fn run_cold<D: Disk, S: Store, M: MetaLog>(
    alloc: Global,
    cold: &mut Cold<D, S, M>,
    schedule: &[Pace],
) -> Result<(), ColdRefusal>
    requires { cold.old.ended ≡ false }
    ensures later { IsLater D.Disk S.Store M.MetaLog cold.old.world cold.new.world }
    ensures reaches { OnOk result (Reaches D.Disk S.Store M.MetaLog cold.old.world schedule.now cold.new.world) }
    ensures going { OnOk result (cold.new.ended ≡ false) }
    ensures err { IfErr result (λ why. HaltsSteps D.Disk S.Store M.MetaLog cold.old cold.new why) }
    ensures control { Lasts (D.control cold.old.reg) (D.control cold.new.reg) }
    ensures is_observable { (D.content cold.new.reg).is_observable ≡ (D.content cold.old.reg).is_observable }

    // A power cut at any moment of the run comes in the course of a step, and leaves the state before or after that
    // one.
    ensures during { RunsThrough D.Disk S.Store M.MetaLog cold.old cold.new }
{
    for pace in schedule {
        match run_pace(alloc, cold, *pace) {
            Ok(()) => {}
            Err(why) => return Err(why),
        }
    }
    Ok(())
}
