//! The turns of a join that rebuilds, after its first one: the follower's local log restarts, empty, where its leader's
//! local log started.
//!
//! If the log start offset had reached that point when the join began, the second turn does so at once, with the
//! leader's epochs. Otherwise the second turn refreshes the follower's view, the third reads the leader epochs from the
//! remote tier, and the fourth restarts the log with them. Each repeats its tests, since a stop, an election, another
//! join or a raise of the log start offset may have come between. The leader may be down by then.

ghost use Rattle.std.specs.Prelude.{◌≡◌, ◌<◌, length, None, IfOk, IfSome, OnErr};
ghost use Rattle.plain_log.specs.declared.command.Command.TheVariants.{Join};
ghost use Rattle.partition_commands.specs.Partition.{AtNode, CanStop, KeepsPartition};
ghost use Rattle.partition_commands.specs.TurnsOfFollowers.{MayRebuild};
ghost use Rattle.partition_world.specs.Tier.{AtBrokerTier, HaltsRefresh};
ghost use Rattle.partition_world.specs.TurnsOfRebuild.{with_line, AnswersAtOnce, RefreshOnRow};
ghost use Rattle.partition_world.specs.TurnsOfRebuild.{EpochsOnRow, WantsForRebuild};
ghost use Rattle.partition_world.specs.Turns.{OwnOnRow, JoinSecondRow, StaysOr};

use crate::actor_state::{Outcome, rebuild_outcome};
use crate::tier::RemoteTier;
use disk_model::Disk;
use epoch_line::Line;
use laws_partition::{LocalStart, StartSnapshot, Taken};
use meta_log::MetaLog;
use object_store::Store;
use partition_commands::{Node, PartitionState};
use plain_log::{Answer, Role};
use rebuild_task::{RebuildRequest, RebuildStep, rebuild_turn};
use std::alloc::{AllocError, Global};
use tier_base::{BrokerId, PartitionId, Trouble};

/// What a join returns before it continues, where something has come between.
fn answer_of<D: Disk>(
    partition_state: &PartitionState<D>,
    node: &Node<D>,
    recorded: &StartSnapshot,
) -> Option<Answer>
    ensures some { IfSome result (AnswersAtOnce partition_state.now node.now recorded.now) }
    ensures none { result ≡ None → MayRebuild partition_state.now node.now recorded.now }
{
    if recorded.stops != node.stops || !node.is_up() {
        return Some(Answer::Stopped);
    }
    let current = partition_state.registry.epoch;
    match recorded.role {
        Role::Follows(epoch) | Role::Joined(epoch) if epoch < current => {
            return Some(Answer::StaleEpoch(current as u64));
        }
        _ => {}
    }
    let end = node.end();
    match node.role {
        Role::Joined(_) if recorded.end == end => {}
        _ => return Some(Answer::Passed(end)),
    }
    let (start, wanted) = (partition_state.registry.start, recorded.wanted.offset());
    if recorded.start < wanted && wanted <= start {
        return Some(Answer::BelowStart(start));
    }
    None
}

/// What a join records, with another line.
fn with_line(
    alloc: Global,
    recorded: &StartSnapshot,
    line: &Line,
) -> Result<StartSnapshot, AllocError>
    ensures { IfOk result (λ snapshot. snapshot ≡ with_line recorded.now line.now) }
{
    let line = line.copy(alloc)?;
    Ok(StartSnapshot {
        stops: recorded.stops,
        role: recorded.role,
        end: recorded.end,
        start: recorded.start,
        batches: Taken::none(),
        wanted: LocalStart::new(recorded.wanted.offset()),
        line,
    })
}

impl<S: Store, M: MetaLog> RemoteTier<S, M> {
    /// Continues with a join: at once where nothing is needed of the remote tier, else with a refresh of the follower's
    /// view.
    pub(crate) fn join_on<D: Disk>(
        &mut self,
        alloc: Global,
        broker: BrokerId,
        recorded: &StartSnapshot,
        partition_state: &mut PartitionState<D>,
    ) -> Result<Outcome, AllocError>
        requires node { CanStop partition_state.old broker.0 }
        requires broker_tier { broker.0 < length self.old.broker_tiers }
        ensures row { IfOk result
            (λ outcome. AtNode partition_state.old broker.0 (λ x. AtBrokerTier self.old broker.0 (λ broker_tier.
            JoinSecondRow D.Disk M.MetaLog partition_state.old self.old broker.0 x broker_tier recorded.now outcome
            partition_state.new self.new))) }
        ensures err { OnErr result (StaysOr D.Disk partition_state.old self.old broker.0 (λ x broker_tier.
            (recorded.now.start < recorded.now.wanted)
            × HaltsRefresh M.MetaLog self.old broker.0 broker_tier self.new) partition_state.new self.new) }
    {
        if recorded.wanted.offset() <= recorded.start {
            return self.begin_anew(alloc, broker, recorded, partition_state);
        }
        self.refresh_on(broker, recorded, partition_state)
    }

    /// Refreshes the follower's view.
    fn refresh_on<D: Disk>(
        &mut self,
        broker: BrokerId,
        recorded: &StartSnapshot,
        partition_state: &PartitionState<D>,
    ) -> Result<Outcome, AllocError>
        requires node { broker.0 < length partition_state.now.nodes }
        requires broker_tier { broker.0 < length self.old.broker_tiers }
        ensures row { IfOk result
            (λ outcome. AtNode partition_state.now broker.0 (λ x. AtBrokerTier self.old broker.0 (λ broker_tier.
            RefreshOnRow M.MetaLog partition_state.now self.old broker.0 x broker_tier recorded.now outcome
            self.new))) }
        ensures err { OnErr result (AtBrokerTier self.old broker.0
            (λ broker_tier. HaltsRefresh M.MetaLog self.old broker.0 broker_tier self.new)) }
    {
        let b = broker.0 as usize;
        if let Some(answer) = answer_of(partition_state, partition_state.nodes.get(b), recorded) {
            return Ok(Outcome::Answers(answer));
        }
        match self.refresh(b) {
            Ok(()) => Ok(Outcome::Rebuilds(RebuildStep::Epochs)),
            Err(Trouble::Failed) => Ok(Outcome::Answers(Answer::MetaFault)),
            Err(Trouble::NoMemory) => Err(AllocError),
        }
    }

    /// Reads the leader epochs with which the follower's log is to restart.
    pub(crate) fn read_epochs<D: Disk>(
        &mut self,
        alloc: Global,
        partition: PartitionId,
        broker: BrokerId,
        recorded: &StartSnapshot,
        partition_state: &PartitionState<D>,
    ) -> Result<Outcome, AllocError>
        requires node { broker.0 < length partition_state.now.nodes }
        requires broker_tier { broker.0 < length self.old.broker_tiers }
        ensures row { IfOk result
            (λ outcome. AtNode partition_state.now broker.0 (λ x. AtBrokerTier self.old broker.0 (λ broker_tier.
            EpochsOnRow S.Store partition partition_state.now self.old x broker_tier recorded.now outcome self.new))) }
        ensures err { OnErr result (AtBrokerTier self.old broker.0 (λ broker_tier.
            WantsForRebuild S.Store partition self.old broker_tier recorded.now self.new)) }
    {
        let b = broker.0 as usize;
        if let Some(answer) = answer_of(partition_state, partition_state.nodes.get(b), recorded) {
            return Ok(Outcome::Answers(answer));
        }
        let wanted = RebuildRequest {
            partition,
            offset: recorded.wanted.offset(),
        };
        let view = &self.broker_tiers.get(b).view;
        let turn = rebuild_turn(alloc, wanted, &recorded.line, view, &mut self.store)?;
        Ok(rebuild_outcome(turn))
    }

    /// Restarts the follower's log, with the leader epochs that were read.
    pub(crate) fn restart<D: Disk>(
        &mut self,
        alloc: Global,
        broker: BrokerId,
        recorded: &StartSnapshot,
        line: &Line,
        partition_state: &mut PartitionState<D>,
    ) -> Result<Outcome, AllocError>
        requires { CanStop partition_state.old broker.0 }
        ensures row { IfOk result (λ outcome. AtNode partition_state.old broker.0 (λ x.
            OwnOnRow D.Disk partition_state.old self.old broker.0 x (with_line recorded.now line.now) Join outcome
            partition_state.new self.new)) }
        ensures err { OnErr result (KeepsPartition D.content D.control partition_state.old partition_state.new
            × (self.new ≡ self.old)) }
    {
        let recorded = with_line(alloc, recorded, line)?;
        self.begin_anew(alloc, broker, &recorded, partition_state)
    }

    /// Restarts the follower's log, with the leader epochs that were recorded.
    fn begin_anew<D: Disk>(
        &mut self,
        alloc: Global,
        broker: BrokerId,
        recorded: &StartSnapshot,
        partition_state: &mut PartitionState<D>,
    ) -> Result<Outcome, AllocError>
        requires { CanStop partition_state.old broker.0 }
        ensures row { IfOk result (λ outcome. AtNode partition_state.old broker.0 (λ x.
            OwnOnRow D.Disk partition_state.old self.old broker.0 x recorded.now Join outcome partition_state.new
            self.new)) }
        ensures err { OnErr result (KeepsPartition D.content D.control partition_state.old partition_state.new
            × (self.new ≡ self.old)) }
    {
        let answer = partition_state.join_on(alloc, broker.0 as usize, recorded)?;
        Ok(Outcome::Answers(answer))
    }
}
