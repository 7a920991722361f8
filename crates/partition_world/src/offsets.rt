//! The second turn of the question up to which offset the remote tier has the log.

ghost use Rattle.std.specs.Prelude.{◌≡◌, ◌<◌, true, length, IfOk, OnErr};
ghost use Rattle.partition_commands.specs.Partition.{AtNode, is_up};
ghost use Rattle.partition_world.specs.Tier.{AtBrokerTier};
ghost use Rattle.partition_world.specs.TurnsOfOffset.{tiered_offset, OffsetOnRow};

use crate::actor_state::Outcome;
use crate::copies::copied_to;
use crate::tier::{BrokerTierState, RemoteTier};
use disk_model::Disk;
use laws_partition::StartSnapshot;
use meta_log::MetaLog;
use object_store::Store;
use partition_commands::{Node, PartitionState};
use plain_log::Answer;

/// The last offset that the remote tier has with all before it.
fn tiered_offset<D: Disk>(
    partition_state: &PartitionState<D>,
    node: &Node<D>,
    broker_tier: &BrokerTierState,
) -> Option<u64>
    requires { is_up node.now ≡ true }
    ensures { result ≡ tiered_offset partition_state.now node.now broker_tier.now }
{
    let start = partition_state.registry.start;
    let end = copied_to(node, broker_tier, start);
    if end == start {
        None
    } else {
        Some(end.saturating_sub(1))
    }
}

impl<S: Store, M: MetaLog> RemoteTier<S, M> {
    /// Answers up to which offset the remote tier has a leader's log.
    pub(crate) fn offset_on<D: Disk>(
        &self,
        b: usize,
        recorded: &StartSnapshot,
        partition_state: &PartitionState<D>,
    ) -> Outcome
        requires node { b < length partition_state.now.nodes }
        requires broker_tier { b < length self.now.broker_tiers }
        ensures { AtNode partition_state.now b
            (λ x. AtBrokerTier self.now b
            (λ broker_tier. OffsetOnRow partition_state.now x broker_tier recorded.now result)) }
    {
        let node = partition_state.nodes.get(b);
        if recorded.stops != node.stops || !node.is_up() {
            return Outcome::Answers(Answer::Stopped);
        }
        if recorded.role != node.role {
            return Outcome::Answers(Answer::NotLeader);
        }
        match tiered_offset(partition_state, node, self.broker_tiers.get(b)) {
            Some(offset) => Outcome::Answers(Answer::Offset(offset)),
            None => Outcome::Answers(Answer::NoOffset),
        }
    }
}
