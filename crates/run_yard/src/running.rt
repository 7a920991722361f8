//! The run of a partition, from its devices to its trace.

ghost use Rattle.std.specs.Prelude.{◌≡◌, ◌⊎◌, false, length, All, IfOk, IfErr, OnOk, OnErr};
ghost use Rattle.tier_base.specs.Device.{IsFreshDevice, Lasts};
ghost use Rattle.plain_log.specs.Orders.{AreListsFor, IsConfig};
ghost use Rattle.script_lang.specs.Fit.{StepsToEnds};
ghost use Rattle.partition_world.specs.Later.{IsLater};
ghost use Rattle.partition_world.specs.Reaches.{Reaches};
ghost use Rattle.trace_text.specs.Trace.{journal_text};
ghost use Rattle.cold_start.specs.Moments.{RunsThrough};
ghost use Rattle.cold_start.specs.Opening.{AreUnarmed};
ghost use Rattle.cold_start.specs.Stepping.{HaltsSteps};
ghost use Rattle.cold_start.specs.declared.refusal.ColdRefusal.TheVariants as refusal;
ghost use Rattle.run_yard.specs.Run.{IsRunText};
ghost use Rattle.run_yard.specs.Refusals.{IsRunRefused};
ghost use Rattle.run_yard.specs.Stopped.{IsRunStopped};

use cold_start::{Cold, ColdRefusal, closed_disks_are_left, run_cold};
use disk_model::Disk;
use laws_answers::{reaches_counted, runs_meet_no_damage};
use meta_log::MetaLog;
use object_store::Store;
use partition_world::{Devices, ends_are_answered, reaches_in_turn, reaches_later};
use plain_log::{Config, Pace, fresh_is_safe, replays_keep_safe};
use script_lang::PartScript;
use std::alloc::Global;
use tier_base::PartitionId;
use trace_text::print;

/// Steps a partition's actors as a schedule says, and prints what they were answered.
fn trace<D: Disk, S: Store, M: MetaLog>(
    alloc: Global,
    cold: &mut Cold<D, S, M>,
    partition: PartitionId,
    schedule: &[Pace],
) -> Result<Vec<u8>, ColdRefusal>
    requires { cold.old.ended ≡ false }
    ensures later { IsLater D.Disk S.Store M.MetaLog cold.old.world cold.new.world }
    ensures reaches { OnOk result (Reaches D.Disk S.Store M.MetaLog cold.old.world schedule.now cold.new.world) }
    ensures going { OnOk result (cold.new.ended ≡ false) }
    ensures text { IfOk result (λ text. text.items ≡ journal_text partition.0 cold.new.world.journal.items) }
    ensures err { IfErr result (λ why. HaltsSteps D.Disk S.Store M.MetaLog cold.old cold.new why) }
    ensures control { Lasts (D.control cold.old.reg) (D.control cold.new.reg) }
    ensures told { (D.content cold.new.reg).is_observable ≡ (D.content cold.old.reg).is_observable }
    ensures during { RunsThrough D.Disk S.Store M.MetaLog cold.old cold.new }
{
    match run_cold(alloc, cold, schedule) {
        Ok(()) => {}
        Err(why) => return Err(why),
    }
    match print(alloc, partition, cold.world().journal()) {
        Ok(text) => Ok(text),
        Err(_) => Err(ColdRefusal::NoMemory),
    }
}

/// Runs a partition's lists over its devices and the disk of its registry, by its schedule, and gives them back with
/// the trace. It continues where an earlier run ended, and begins at the beginning where nothing was ever kept. What
/// faults the script plans isn't looked at: the devices have their own.
pub fn run_on<D: Disk, S: Store, M: MetaLog>(
    alloc: Global,
    config: Config,
    part: PartScript,
    devices: Devices<D, S, M>,
    registry: D,
) -> (Devices<D, S, M>, D, Result<Vec<u8>, ColdRefusal>)
    requires config { IsConfig config }
    requires fit { AreListsFor config part.lists }
    requires ends { StepsToEnds part }
    requires count { length devices.disks.items ≡ config.brokers }
    requires disks { AreUnarmed D.control devices.disks.items }
    requires unarmed { (D.control registry).armed ≡ false }
    ensures text { IfOk result.2 (λ text. IsRunText D.Disk S.Store M.MetaLog config part devices registry text.items
        result.0 result.1) }
    ensures refused { IfErr result.2 (λ why. IsRunRefused D.Disk M.MetaLog config.brokers devices registry result.0
        result.1 why) }

    // A refusal leaves devices that represent the state before the run, or what is left of one to which commands led.
    ensures stopped { OnErr result.2 (IsRunStopped D.Disk S.Store M.MetaLog config part devices registry
        result.0 result.1) }

    // Whatever it answers.
    ensures count { length result.0.disks.items ≡ config.brokers }
    ensures unarmed { (D.control result.1).armed ≡ false }
{
    ends_are_answered::<D, S, M>();
    reaches_later::<D, S, M>();
    reaches_in_turn::<D, S, M>();
    reaches_counted::<D, S, M>();
    runs_meet_no_damage::<D, S, M>();
    fresh_is_safe();
    replays_keep_safe();
    closed_disks_are_left::<D>();
    let PartScript {
        partition,
        lists,
        schedule,
        ..
    } = part;
    match Cold::open(alloc, partition, config, lists, devices, registry) {
        Ok(opened) => {
            let mut cold = opened;
            let text = trace(alloc, &mut cold, partition, schedule.as_slice());
            let (devices, registry) = cold.close();
            (devices, registry, text)
        }
        Err((devices, registry, why)) => (devices, registry, Err(why)),
    }
}
