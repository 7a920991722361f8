//! The sweep of all tiers of an environment.

ghost use Rattle.std.specs.Prelude.{◌≡◌, IfOk, OnErr, OnOk, IsErrOf, IsTrue};
ghost use Rattle.tier_base.specs.Counts.{Rose};
ghost use Rattle.tier_base.specs.declared.names.PartitionId.{PartitionId as Partition};
ghost use Rattle.yard_audit.specs.declared.refusal.RoundRefusal.TheVariants.{Fault};
ghost use Rattle.yard_audit.specs.Rounds.{IsSweptIn, IsUnderSweepIn, LeavesUnderIn};
ghost use Rattle.yard_audit.specs.Reports.{TellsSweep};
ghost use Rattle.yard_audit.specs.Tiers.{DisksRest, OthersRest, StaysOut};

use crate::handing::{give_back, hand_out, list};
use crate::lines::swept_line;
use crate::refusal::RoundRefusal;
use device_yard::Yard;
use std::alloc::Global;
use tier_base::PartitionId;
use tier_sweep::sweep;

/// Sweeps the tier of a partition, and answers how many objects went.
fn sweep_one<Y: Yard>(
    alloc: Global,
    yard: &mut Y,
    partition: PartitionId,
) -> Result<u64, RoundRefusal>
    ensures swept { IsTrue (Y.held yard.old).is_observable → IfOk result (λ count.
        IsSweptIn Y.S.content Y.M.content (Y.held yard.old) (Y.held yard.new) (partition, count)) }
    ensures under { IsTrue (Y.held yard.old).is_observable → OnErr result
        (IsUnderSweepIn Y.S.content Y.M.content (Y.held yard.old) (Y.held yard.new) partition) }
    ensures left { IsTrue (Y.held yard.old).is_observable
        → LeavesUnderIn Y.S.content Y.M.content (Y.held yard.old) (Y.held yard.new) partition }
    ensures others { IsTrue (Y.held yard.old).is_observable
        → OthersRest Y.D.content Y.S.content Y.M.content partition (Y.held yard.old) (Y.held yard.new) }
    ensures is_observable { (Y.held yard.new).is_observable ≡ (Y.held yard.old).is_observable }
    ensures back { StaysOut (Y.control yard.old) (Y.control yard.new) }
    ensures cause { IsErrOf result Fault → Rose (Y.control yard.old).faults (Y.control yard.new).faults }
{
    let mut tools = hand_out(yard, partition)?;
    let swept = sweep(alloc, &mut tools.store, &mut tools.meta);
    give_back(yard, partition, tools);
    match swept {
        Ok(count) => Ok(count),
        Err(refusal) => Err(RoundRefusal::from(refusal)),
    }
}

/// Sweeps the tier of each partition in use, in rising order, and returns a line for each. A refusal leaves the tiers
/// before it swept.
pub fn sweep_all<Y: Yard>(alloc: Global, yard: &mut Y) -> Result<Vec<u8>, RoundRefusal>
    ensures told { IfOk result (λ text. TellsSweep Y.D.content Y.S.content Y.M.content
        (Y.held yard.old) (Y.held yard.new) text.items) }
    ensures under { IsTrue (Y.held yard.old).is_observable → (p : Partition)
        → IsUnderSweepIn Y.S.content Y.M.content (Y.held yard.old) (Y.held yard.new) p }
    ensures left { IsTrue (Y.held yard.old).is_observable → (p : Partition)
        → LeavesUnderIn Y.S.content Y.M.content (Y.held yard.old) (Y.held yard.new) p }
    ensures disks { IsTrue (Y.held yard.old).is_observable → DisksRest Y.D.content (Y.held yard.old) (Y.held yard.new) }
    ensures is_observable { (Y.held yard.new).is_observable ≡ (Y.held yard.old).is_observable }
    ensures back { StaysOut (Y.control yard.old) (Y.control yard.new) }
    ensures cause { IsErrOf result Fault → Rose (Y.control yard.old).faults (Y.control yard.new).faults }
{
    let partitions = list(yard)?;
    let mut text = Vec::new(alloc);
    for partition in partitions.into_vec() {
        let count = sweep_one(alloc, yard, partition)?;
        let Ok(line) = swept_line(alloc, partition, count) else {
            return Err(RoundRefusal::NoMemory);
        };
        let Ok(()) = text.extend_from_slice(line.as_slice()) else {
            return Err(RoundRefusal::NoMemory);
        };
    }
    Ok(text)
}
