//! The turns of a fetch from the remote tier, after its first one.
//!
//! Each repeats its tests, since a stop, an election or a raise of the log start offset may have come between: the
//! broker hasn't stopped and leads the epoch that it led, and the offset is in the log's range and below the broker's
//! high watermark.

ghost use Rattle.std.specs.Prelude.{◌≡◌, ◌<◌, length, None, IfOk, IfSome, OnErr};
ghost use Rattle.tier_fetch.specs.Turns.{IsPieceFor};
ghost use Rattle.partition_commands.specs.Partition.{AtNode};
ghost use Rattle.partition_world.specs.Tier.{AtBrokerTier};
ghost use Rattle.partition_world.specs.TurnsOfFetch.{AnswersAtOnce, MayServe, FetchOnRow, WantsForFetch};

use crate::actor_state::{Outcome, fetch_outcome};
use crate::tier::RemoteTier;
use disk_model::Disk;
use laws_partition::StartSnapshot;
use meta_log::MetaLog;
use object_store::Store;
use partition_commands::{Node, PartitionState};
use plain_log::Answer;
use std::alloc::{AllocError, Global};
use tier_base::{BrokerId, PartitionId};
use tier_fetch::{FetchRequest, FetchStep, fetch_turn};

/// What a fetch returns before it reads, where its broker has stopped or no longer leads as it did, or the offset isn't
/// committed or out of range.
fn answer_of<D: Disk>(
    partition_state: &PartitionState<D>,
    node: &Node<D>,
    recorded: &StartSnapshot,
    offset: u64,
) -> Option<Answer>
    ensures some { IfSome result (AnswersAtOnce partition_state.now node.now recorded.now offset) }
    ensures none { result ≡ None → MayServe partition_state.now node.now recorded.now offset }
{
    if recorded.stops != node.stops || !node.is_up() {
        return Some(Answer::Stopped);
    }
    if recorded.role != node.role {
        return Some(Answer::NotLeader);
    }
    let (start, end) = (partition_state.registry.start, node.end());
    if offset < start || offset > end {
        return Some(Answer::OutOfRange(start, end));
    }
    if offset >= node.known_high_watermark {
        return Some(Answer::Empty);
    }
    None
}

impl<S: Store, M: MetaLog> RemoteTier<S, M> {
    /// Takes a later turn of a fetch.
    pub(crate) fn fetch_on<D: Disk>(
        &mut self,
        alloc: Global,
        partition: PartitionId,
        broker: BrokerId,
        recorded: &StartSnapshot,
        next: FetchStep,
        offset: u64,
        limit: u32,
        partition_state: &PartitionState<D>,
    ) -> Result<Outcome, AllocError>
        requires node { broker.0 < length partition_state.now.nodes }
        requires broker_tier { broker.0 < length self.old.broker_tiers }
        requires holds { IsPieceFor offset next }
        ensures row { IfOk result
            (λ outcome. AtNode partition_state.now broker.0 (λ x. AtBrokerTier self.old broker.0 (λ broker_tier.
            FetchOnRow S.Store M.MetaLog partition partition_state.now self.old broker.0 x broker_tier recorded.now
            offset limit next outcome self.new))) }
        ensures err { OnErr result
            (AtNode partition_state.now broker.0 (λ x. AtBrokerTier self.old broker.0 (λ broker_tier.
            WantsForFetch S.Store M.MetaLog partition self.old broker.0 x broker_tier offset limit next self.new))) }
    {
        let b = broker.0 as usize;
        let node = partition_state.nodes.get(b);
        if let Some(answer) = answer_of(partition_state, node, recorded, offset) {
            return Ok(Outcome::Answers(answer));
        }
        let line = node.line();
        let wanted = FetchRequest {
            partition,
            offset,
            limit,
            log_end: node.end(),
            mark: node.known_high_watermark,
        };
        let broker_tier = self.broker_tiers.at_mut(b);
        let turn = fetch_turn(
            alloc,
            &wanted,
            next,
            line,
            &mut broker_tier.view,
            &mut broker_tier.cache,
            &mut self.store,
            &mut self.meta,
        )?;
        Ok(fetch_outcome(turn))
    }
}
