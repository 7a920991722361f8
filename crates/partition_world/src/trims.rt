//! The turns of a trim: the first closed segment of a broker's local log goes, where retention takes it and the remote
//! tier has all of it.
//!
//! The first turn refreshes the broker's view, the second one tests the segment and drops it. A broker that follows
//! trims as one that leads.

ghost use Rattle.std.specs.Prelude.{◌≡◌, ◌<◌, length, IfOk, OnErr};
ghost use Rattle.partition_commands.specs.Partition.{AtNode, CanStop, KeepsPartition};
ghost use Rattle.partition_world.specs.Tier.{AtBrokerTier, HaltsRefresh};
ghost use Rattle.partition_world.specs.TurnsOfTrim.{TrimFirstRow, TrimOnRow};

use crate::actor_state::Outcome;
use crate::covering::may_trim;
use crate::tier::RemoteTier;
use disk_model::Disk;
use laws_partition::StartSnapshot;
use meta_log::MetaLog;
use object_store::Store;
use partition_commands::PartitionState;
use plain_log::Answer;
use std::alloc::{AllocError, Global};
use tier_base::{Keep, Trouble};

impl<S: Store, M: MetaLog> RemoteTier<S, M> {
    /// Begins a trim: the broker's view is refreshed.
    pub(crate) fn trim<D: Disk>(
        &mut self,
        alloc: Global,
        b: usize,
        partition_state: &PartitionState<D>,
    ) -> Result<Outcome, AllocError>
        requires node { b < length partition_state.now.nodes }
        requires broker_tier { b < length self.old.broker_tiers }
        ensures row { IfOk result (λ outcome. AtNode partition_state.now b (λ x. AtBrokerTier self.old b (λ broker_tier.
            TrimFirstRow M.MetaLog partition_state.now self.old b x broker_tier outcome self.new))) }
        ensures err { OnErr result
            (AtBrokerTier self.old b (λ broker_tier. HaltsRefresh M.MetaLog self.old b broker_tier self.new)) }
    {
        if !partition_state.nodes.get(b).is_up() {
            return Ok(Outcome::Answers(Answer::Down));
        }
        match self.refresh(b) {
            Ok(()) => Ok(Outcome::Begins(partition_state.notes(alloc, b))),
            Err(Trouble::Failed) => Ok(Outcome::Answers(Answer::MetaFault)),
            Err(Trouble::NoMemory) => Err(AllocError),
        }
    }

    /// Drops the first closed segment of a broker's local log, where it may go.
    pub(crate) fn trim_on<D: Disk>(
        &self,
        alloc: Global,
        b: usize,
        recorded: &StartSnapshot,
        keep: Keep,
        partition_state: &mut PartitionState<D>,
    ) -> Result<Outcome, AllocError>
        requires node { CanStop partition_state.old b }
        requires broker_tier { b < length self.now.broker_tiers }
        ensures row { IfOk result (λ outcome. AtNode partition_state.old b (λ x. AtBrokerTier self.now b (λ broker_tier.
            TrimOnRow D.Disk partition_state.old b x broker_tier recorded.now keep outcome partition_state.new))) }
        ensures err { OnErr result (KeepsPartition D.content D.control partition_state.old partition_state.new) }
    {
        let node = partition_state.nodes.get(b);
        if recorded.stops != node.stops || !node.is_up() {
            return Ok(Outcome::Answers(Answer::Stopped));
        }
        if !may_trim(alloc, partition_state, node, self.broker_tiers.get(b), keep)? {
            return Ok(Outcome::Answers(Answer::Kept));
        }
        Ok(Outcome::Answers(partition_state.drop_first(b)?))
    }
}
