//! The turns of an expiry: a remote segment that the log start offset has left behind goes, or the log start offset
//! rises.
//!
//! The first turn refreshes the leader's view. The second takes up the first segment of the view whose deletion is due;
//! where there is none, retention may raise the log start offset. From the third on the expiry makes a call of a device
//! in each. A broker that has stopped, or has another role, has lost its lead.

ghost use Rattle.std.specs.Prelude.{◌≡◌, ◌<◌, ◌≤◌, ℕ, true, length, IfOk, IfSome, OnErr};
ghost use Rattle.plain_log.specs.declared.state.Role.TheVariants.{Leads};
ghost use Rattle.plain_log.specs.State.{leads};
ghost use Rattle.partition_commands.specs.Partition.{AtNode, is_up};
ghost use Rattle.partition_commands.specs.Sound.{SoundPartition};
ghost use Rattle.partition_world.specs.Tier.{AtBrokerTier, HaltsRefresh};
ghost use Rattle.partition_world.specs.TurnsOfExpiry.{rises_to, ExpiryRaiseRow, ExpireFirstRow};
ghost use Rattle.partition_world.specs.TurnsOfExpiry.{ExpireOnRow, DeleteOnRow, WantsForDeletion};

use crate::actor_state::{Outcome, expiry_outcome};
use crate::copies::{keeps_lead, origin};
use crate::tier::{BrokerTierState, RemoteTier};
use disk_model::Disk;
use expiry_task::{
    DeletionStep as Deletion, ExpiredSegment, a_log_start_rises_up_to_the_known_mark, end_behind,
    end_from, expiry_turn, find_uncopied, raised_to, rest_behind,
};
use laws_partition::StartSnapshot;
use meta_log::MetaLog;
use object_store::Store;
use partition_commands::{Node, PartitionState, leading};
use plain_log::{Answer, Role};
use registry::RegRefusal;
use remote_find::chain;
use std::alloc::{AllocError, Global};
use tier_base::{BrokerId, Keep, PartitionId};

/// Where the log start offset comes to by a broker's log and view, where retention lets it rise.
fn rises_to<D: Disk>(
    alloc: Global,
    partition_state: &PartitionState<D>,
    node: &Node<D>,
    broker_tier: &BrokerTierState,
    keep: Keep,
) -> Result<Option<u64>, AllocError>
    requires { is_up node.now ≡ true }
    ensures { IfOk result (λ start. start ≡ rises_to partition_state.now node.now broker_tier.now keep) }
{
    let (start, end) = (partition_state.registry.start, node.end());
    let pieces = chain(
        alloc,
        &broker_tier.view,
        node.line(),
        end,
        start,
        node.known_high_watermark,
    )?;
    let offset = end_from(start, pieces.as_slice());
    let closed = node.log.closed();
    let own = find_uncopied(
        alloc,
        partition_state.copying,
        node.local_start(),
        offset,
        node.known_high_watermark,
        closed,
    )?;
    let rest = rest_behind(
        end_behind(offset, own.as_slice()),
        closed,
        node.open_size(),
        end,
    );
    raised_to(
        alloc,
        &broker_tier.view,
        pieces.as_slice(),
        own.as_slice(),
        rest,
        partition_state.clock,
        keep,
    )
}

/// Where the log start offset comes to, which is above the log start offset, and at most the high watermark that the
/// broker knows.
fn rises_within<D: Disk>(
    alloc: Global,
    partition_state: &PartitionState<D>,
    node: &Node<D>,
    broker_tier: &BrokerTierState,
    keep: Keep,
) -> Result<Option<u64>, AllocError>
    requires { is_up node.now ≡ true }
    ensures is { IfOk result (λ start. start ≡ rises_to partition_state.now node.now broker_tier.now keep) }
    ensures within { IfOk result (λ start. IfSome start (λ n. (partition_state.now.registry.start < n)
        × (n ≤ node.now.known_high_watermark))) }
{
    a_log_start_rises_up_to_the_known_mark();
    let (_begins, _entries) = (node.line().entries(), broker_tier.view.entries());
    rises_to(alloc, partition_state, node, broker_tier, keep)
}

/// Raises the log start offset for a leader. Retention raises it above the log start offset, and at most to the high
/// watermark that the leader knows, so it is refused only where another epoch has begun.
fn raise<D: Disk>(partition_state: &mut PartitionState<D>, role: Role, start: u64) -> Answer
    requires leads { leads role ≡ true }
    requires above { partition_state.old.registry.start < start }
    requires within { (e : ℕ) → role ≡ Leads e → partition_state.old.registry.epoch ≤ e
        → start ≤ partition_state.old.registry.mark }
    ensures { ExpiryRaiseRow partition_state.old role start result partition_state.new }
{
    let Some(epoch) = leading(role) else {
        // The role leads: `leads`.
        unreachable!()
    };
    match partition_state.registry.raise(epoch, start) {
        Ok(start) => Answer::Raised(start),
        Err(RegRefusal::StaleEpoch { current }) => Answer::StaleEpoch(current as u64),
        // The start is above the log start offset and within the high watermark: `above`, `within`.
        Err(_) => unreachable!(),
    }
}

impl<S: Store, M: MetaLog> RemoteTier<S, M> {
    /// Begins an expiry: the leader's view is refreshed.
    pub(crate) fn expire<D: Disk>(
        &mut self,
        alloc: Global,
        b: usize,
        partition_state: &PartitionState<D>,
    ) -> Result<Outcome, AllocError>
        requires node { b < length partition_state.now.nodes }
        requires broker_tier { b < length self.old.broker_tiers }
        ensures row { IfOk result (λ outcome. AtNode partition_state.now b (λ x. AtBrokerTier self.old b (λ broker_tier.
            ExpireFirstRow M.MetaLog partition_state.now self.old b x broker_tier outcome self.new))) }
        ensures err { OnErr result
            (AtBrokerTier self.old b (λ broker_tier. HaltsRefresh M.MetaLog self.old b broker_tier self.new)) }
    {
        self.begin_leading(alloc, b, partition_state)
    }

    /// Takes up a remote segment whose deletion is due, or raises the log start offset as retention says.
    pub(crate) fn expire_on<D: Disk>(
        &self,
        alloc: Global,
        partition: PartitionId,
        b: usize,
        recorded: &StartSnapshot,
        keep: Keep,
        partition_state: &mut PartitionState<D>,
    ) -> Result<Outcome, AllocError>
        requires node { b < length partition_state.old.nodes }
        requires broker_tier { b < length self.now.broker_tiers }
        requires leads { leads recorded.now.role ≡ true }
        requires sound { SoundPartition (length partition_state.old.nodes) partition_state.old }
        ensures row { IfOk result (λ outcome. AtNode partition_state.old b (λ x. AtBrokerTier self.now b (λ broker_tier.
            ExpireOnRow partition partition_state.old x broker_tier recorded.now keep outcome partition_state.new))) }
        ensures err { OnErr result (partition_state.new ≡ partition_state.old) }
    {
        let node = partition_state.nodes.get(b);
        if !keeps_lead(node, recorded) {
            return Ok(Outcome::Answers(Answer::LostLead));
        }
        let broker_tier = self.broker_tiers.get(b);
        if let Some(entry) = broker_tier.view.due(partition_state.registry.start) {
            return Ok(Outcome::ChoosesExpired(ExpiredSegment {
                partition,
                id: entry.id,
                packed: entry.packed,
            }));
        }
        let Some(start) = rises_within(alloc, partition_state, node, broker_tier, keep)? else {
            return Ok(Outcome::Answers(Answer::Kept));
        };
        let role = node.role;
        Ok(Outcome::Answers(raise(partition_state, role, start)))
    }

    /// Takes a later turn of an expiry: one of the deletion of its remote segment.
    pub(crate) fn delete_on<D: Disk>(
        &mut self,
        alloc: Global,
        broker: BrokerId,
        recorded: &StartSnapshot,
        expired_segment: ExpiredSegment,
        next: Deletion,
        partition_state: &PartitionState<D>,
    ) -> Result<Outcome, AllocError>
        requires node { broker.0 < length partition_state.now.nodes }
        ensures row { IfOk result (λ outcome. AtNode partition_state.now broker.0 (λ x.
            DeleteOnRow S.Store M.MetaLog partition_state.now self.old broker.0 x recorded.now expired_segment next
            outcome self.new)) }
        ensures err { OnErr result (WantsForDeletion S.Store M.MetaLog partition_state.now self.old broker.0
            expired_segment next self.new) }
    {
        if !keeps_lead(partition_state.nodes.get(broker.0 as usize), recorded) {
            return Ok(Outcome::Answers(Answer::LostLead));
        }
        let origin = origin(partition_state, broker);
        let turn = expiry_turn(
            alloc,
            expired_segment,
            next,
            origin,
            &mut self.store,
            &mut self.meta,
        )?;
        Ok(expiry_outcome(turn))
    }
}
