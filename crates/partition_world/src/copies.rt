//! The turns of a copy.
//!
//! The first turn refreshes the leader's view, the second chooses a closed segment and reads it; from the third on the
//! copy makes a call of a device in each. A broker that has stopped, or has another role, has lost its lead.

ghost use Rattle.std.specs.Prelude.{◌≡◌, ◌↔◌, ◌<◌, ◌&&◌, true, false, None, Some};
ghost use Rattle.std.specs.Prelude.{length, IfOk, OnErr, IsSomeAnd, IsTrue};
ghost use Rattle.tier_safe.specs.Views.{IsIdOf};
ghost use Rattle.broker_log.specs.Seen.{closed_in, incarnation_in};
ghost use Rattle.local_log.specs.Reading.{first_past};
ghost use Rattle.segment_bundle.specs.Parts.{can_pack};
ghost use Rattle.copy_task.specs.Candidate.{candidate};
ghost use Rattle.copy_task.specs.Copying.{IsCopied};
ghost use Rattle.copy_task.specs.Turns.{CopyTurnRow};
ghost use Rattle.partition_commands.specs.declared.partition_state.Node.{Node as Broker};
ghost use Rattle.partition_commands.specs.Partition.{AtNode, KeepsPartition, is_up, line_of, put_node};
ghost use Rattle.partition_world.specs.declared.tier.BrokerTierState.{BrokerTierState as Knowledge};
ghost use Rattle.partition_world.specs.Tier.{AtBrokerTier, next_of, put_broker_tier, HaltsRefresh};
ghost use Rattle.partition_world.specs.TurnsOfCopy.{KeepsLead, copied_to, IsPackedBy, LeadersFirstRow};
ghost use Rattle.partition_world.specs.TurnsOfCopy.{CopyFirstRow, ChooseRow, ReadSegmentRow, ReadsQuietly};
ghost use Rattle.partition_world.specs.TurnsOfCopy.{CopyOnRow, tiers_of, origin_of, WantsForCopy};

use crate::actor_state::{Outcome, copy_outcome};
use crate::tier::{BrokerTierState, RemoteTier};
use broker_log::ReadRefusal;
use copy_task::{CopyStep, Copying, candidate, copy_turn};
use disk_model::Disk;
use laws_partition::StartSnapshot;
use meta_log::{EventOrigin, MetaLog};
use object_store::Store;
use partition_commands::{Node, PartitionState, leading};
use plain_log::{Answer, Place};
use remote_find::covered_to;
use segment_file::Closed;
use std::alloc::{AllocError, Global};
use tier_base::{BrokerId, PartitionId, SegmentId, Trouble, segment_id};

/// Whether a broker is up, has not stopped since a command began, and has the role that it had.
pub(crate) fn keeps_lead<D: Disk>(node: &Node<D>, recorded: &StartSnapshot) -> bool
    ensures { IsTrue result ↔ KeepsLead node.now recorded.now }
{
    recorded.stops == node.stops && node.is_up() && recorded.role == node.role
}

/// The end that the remote tier has all of a broker's log up to, from the log start or the local start on.
pub(crate) fn copied_to<D: Disk>(node: &Node<D>, broker_tier: &BrokerTierState, start: u64) -> u64
    requires { is_up node.now ≡ true }
    ensures { result ≡ copied_to node.now broker_tier.now start }
{
    covered_to(
        &broker_tier.view,
        node.line(),
        node.end(),
        node.local_start().max(start),
    )
}

/// Whether a closed segment comes next, after the end that the remote tier has all up to.
fn has_next<D: Disk>(node: &Node<D>, copied: u64) -> bool
    ensures some { result ≡ true → IsSomeAnd (candidate (closed_in node.now.log) copied node.now.known_high_watermark)
        (λ segment. Unit {0}) }
    ensures none { result ≡ false → candidate (closed_in node.now.log) copied node.now.known_high_watermark ≡ None }
{
    candidate(node.log.first_past(copied), node.known_high_watermark).is_some()
}

/// The segment of a broker's log under an id, and whether it is to be packed.
fn copying<D: Disk>(
    alloc: Global,
    node: &Node<D>,
    partition: PartitionId,
    id: SegmentId,
    segment: Closed,
    interval: u32,
    packed: bool,
) -> Result<Copying, AllocError>
    requires { is_up node.now ≡ true }
    ensures is { IfOk result IsCopied }
    ensures id { IfOk result (λ copy. copy.id ≡ id) }
    ensures partition { IfOk result (λ copy. copy.partition ≡ partition) }
    ensures segment { IfOk result (λ copy. copy.segment ≡ segment) }
    ensures line { IfOk result (λ copy. copy.line ≡ line_of node.now) }
    ensures interval { IfOk result (λ copy. copy.interval ≡ interval) }
    ensures packed { IfOk result (λ copy. copy.packed ≡ (packed && can_pack copy.parts)) }
{
    let line = node.line();
    Copying::of(alloc, partition, id, segment, line, interval, packed)
}

/// The id of a copy by a broker.
fn id_of(partition: PartitionId, broker: BrokerId, incarnation: u32, attempt: u64) -> SegmentId
    ensures { IsIdOf result partition.0 broker.0 incarnation attempt }
{
    // Reading the numbers shows that they fit their fields.
    let _partition = partition.0;
    let _broker = broker.0;
    segment_id(partition, broker, incarnation, attempt)
}

/// Reads the first closed segment that ends past an offset, for a copy under the broker's next id, which is to be
/// packed or not.
fn read_next<D: Disk>(
    alloc: Global,
    partition: PartitionId,
    broker: BrokerId,
    offset: u64,
    packed: bool,
    node: &mut Node<D>,
    broker_tier: &mut BrokerTierState,
) -> Result<Outcome, AllocError>
    requires up { is_up node.old ≡ true }
    requires next { IsSomeAnd (first_past offset (closed_in node.old.log)) (λ segment. Unit {0}) }
    requires tries { broker_tier.old.attempt < 18446744073709551615 }
    ensures row { IfOk result (λ outcome. ReadSegmentRow D.Disk partition broker.0 node.old broker_tier.old offset
        outcome node.new broker_tier.new) }
    ensures form { IfOk result (IsPackedBy packed) }
    ensures err { OnErr result (ReadsQuietly D.Disk node.old node.new) }
    ensures broker_tier { OnErr result (broker_tier.new ≡ broker_tier.old) }
{
    let incarnation = node.incarnation();
    let next = broker_tier.next(incarnation);
    let id = id_of(partition, broker, incarnation, next);
    let settings = node.settings();
    match node.log.closed_from(offset) {
        Ok(Some(segment)) => {
            let interval = settings.index_interval;
            let copying = copying(alloc, node, partition, id, segment, interval, packed)?;
            broker_tier.count(incarnation);
            Ok(Outcome::Chose(copying))
        }
        Err(ReadRefusal::DiskFault) => Ok(Outcome::Answers(Answer::DiskFault)),
        Err(ReadRefusal::Damaged { file, at }) => {
            Ok(Outcome::Answers(Answer::Damaged(Place::File(file), at)))
        }
        Err(ReadRefusal::NoMemory) => Err(AllocError),
        // A closed segment ends past the offset: `next`.
        Ok(None) => unreachable!(),
    }
}

/// Who records what a broker does.
pub(crate) fn origin<D: Disk>(partition_state: &PartitionState<D>, broker: BrokerId) -> EventOrigin
    ensures { result ≡ origin_of partition_state.now broker.0 }
{
    EventOrigin {
        broker,
        now: partition_state.clock,
    }
}

impl<S: Store, M: MetaLog> RemoteTier<S, M> {
    /// Begins a copy, where segments are copied.
    pub(crate) fn copy<D: Disk>(
        &mut self,
        alloc: Global,
        b: usize,
        partition_state: &PartitionState<D>,
    ) -> Result<Outcome, AllocError>
        requires node { b < length partition_state.now.nodes }
        requires broker_tier { b < length self.old.broker_tiers }
        ensures row { IfOk result (λ outcome. AtNode partition_state.now b (λ x. AtBrokerTier self.old b (λ broker_tier.
            CopyFirstRow M.MetaLog partition_state.now self.old b x broker_tier outcome self.new))) }
        ensures err { OnErr result
            (AtBrokerTier self.old b (λ broker_tier. HaltsRefresh M.MetaLog self.old b broker_tier self.new)) }
    {
        let node = partition_state.nodes.get(b);
        if !partition_state.copying && node.is_up() && leading(node.role).is_some() {
            return Ok(Outcome::Answers(Answer::CopyOff));
        }
        self.begin_leading(alloc, b, partition_state)
    }

    /// Begins a leader's command on the remote tier: its view is refreshed.
    pub(crate) fn begin_leading<D: Disk>(
        &mut self,
        alloc: Global,
        b: usize,
        partition_state: &PartitionState<D>,
    ) -> Result<Outcome, AllocError>
        requires node { b < length partition_state.now.nodes }
        requires broker_tier { b < length self.old.broker_tiers }
        ensures row { IfOk result (λ outcome. AtNode partition_state.now b (λ x. AtBrokerTier self.old b (λ broker_tier.
            LeadersFirstRow M.MetaLog partition_state.now self.old b x broker_tier outcome self.new))) }
        ensures err { OnErr result
            (AtBrokerTier self.old b (λ broker_tier. HaltsRefresh M.MetaLog self.old b broker_tier self.new)) }
    {
        let node = partition_state.nodes.get(b);
        if !node.is_up() {
            return Ok(Outcome::Answers(Answer::Down));
        }
        if leading(node.role).is_none() {
            return Ok(Outcome::Answers(Answer::NotLeader));
        }
        match self.refresh(b) {
            Ok(()) => Ok(Outcome::Begins(partition_state.notes(alloc, b))),
            Err(Trouble::Failed) => Ok(Outcome::Answers(Answer::MetaFault)),
            Err(Trouble::NoMemory) => Err(AllocError),
        }
    }

    /// Chooses the segment that a copy is of, and reads it.
    pub(crate) fn choose<D: Disk>(
        &mut self,
        alloc: Global,
        partition: PartitionId,
        broker: BrokerId,
        recorded: &StartSnapshot,
        partition_state: &mut PartitionState<D>,
    ) -> Result<Outcome, AllocError>
        requires node { broker.0 < length partition_state.old.nodes }
        requires broker_tier { broker.0 < length self.old.broker_tiers }
        requires tries { AtBrokerTier self.old broker.0 (λ broker_tier. broker_tier.attempt < 18446744073709551615) }
        ensures row { IfOk result
            (λ outcome. AtNode partition_state.old broker.0 (λ x. AtBrokerTier self.old broker.0 (λ broker_tier.
            ChooseRow D.Disk partition partition_state.old self.old broker.0 x broker_tier recorded.now outcome
            partition_state.new self.new))) }
        ensures err { OnErr result (KeepsPartition D.content D.control partition_state.old partition_state.new
            × (self.new ≡ self.old)) }
    {
        let b = broker.0 as usize;
        let node = partition_state.nodes.get(b);
        if !keeps_lead(node, recorded) {
            return Ok(Outcome::Answers(Answer::LostLead));
        }
        let copied = copied_to(
            node,
            self.broker_tiers.get(b),
            partition_state.registry.start,
        );
        if !has_next(node, copied) {
            return Ok(Outcome::Answers(Answer::Level));
        }
        self.read_segment(alloc, partition, broker, copied, partition_state)
    }

    /// Reads the segment that a copy is of.
    fn read_segment<D: Disk>(
        &mut self,
        alloc: Global,
        partition: PartitionId,
        broker: BrokerId,
        copied: u64,
        partition_state: &mut PartitionState<D>,
    ) -> Result<Outcome, AllocError>
        requires node { AtNode partition_state.old broker.0 (λ x. is_up x ≡ true) }
        requires next { AtNode partition_state.old broker.0
            (λ x. IsSomeAnd (first_past copied (closed_in x.log)) (λ segment. Unit {0})) }
        requires broker_tier { broker.0 < length self.old.broker_tiers }
        requires tries { AtBrokerTier self.old broker.0 (λ broker_tier. broker_tier.attempt < 18446744073709551615) }
        ensures row { IfOk result
            (λ outcome. AtNode partition_state.old broker.0 (λ x. AtBrokerTier self.old broker.0 (λ broker_tier.
            (x' : Broker D) × (broker_tier' : Knowledge)
            × ReadSegmentRow D.Disk partition broker.0 x broker_tier copied outcome x' broker_tier'
            × (partition_state.new ≡ put_node partition_state.old broker.0 x')
            × (self.new ≡ put_broker_tier self.old broker.0 broker_tier')))) }
        ensures form { IfOk result (IsPackedBy partition_state.old.packed) }
        ensures err { OnErr result (AtNode partition_state.old broker.0 (λ x. (x' : Broker D) × ReadsQuietly D.Disk x x'
            × (partition_state.new ≡ put_node partition_state.old broker.0 x'))) }
        ensures tier { OnErr result (self.new ≡ self.old) }
    {
        let b = broker.0 as usize;
        let packed = partition_state.packed;
        let node = partition_state.nodes.at_mut(b);
        let broker_tier = self.broker_tiers.at_mut(b);
        read_next(alloc, partition, broker, copied, packed, node, broker_tier)
    }

    /// Takes a later turn of a copy.
    pub(crate) fn copy_on<D: Disk>(
        &mut self,
        alloc: Global,
        broker: BrokerId,
        recorded: &StartSnapshot,
        copying: &mut Copying,
        next: CopyStep,
        partition_state: &PartitionState<D>,
    ) -> Result<Outcome, AllocError>
        requires node { broker.0 < length partition_state.now.nodes }
        requires broker_tier { broker.0 < length self.old.broker_tiers }
        ensures row { IfOk result
            (λ outcome. AtNode partition_state.now broker.0 (λ x. AtBrokerTier self.old broker.0 (λ broker_tier.
            CopyOnRow S.Store M.MetaLog partition_state.now self.old broker.0 x broker_tier recorded.now copying.old
            next outcome self.new))) }
        ensures err { OnErr result (AtBrokerTier self.old broker.0 (λ broker_tier.
            WantsForCopy S.Store M.MetaLog partition_state.now self.old broker.0 broker_tier copying.old next
            self.new)) }
        ensures same { copying.new ≡ copying.old }
    {
        let b = broker.0 as usize;
        if !keeps_lead(partition_state.nodes.get(b), recorded) {
            return Ok(Outcome::Answers(Answer::LostLead));
        }
        let origin = origin(partition_state, broker);
        let broker_tier = self.broker_tiers.at_mut(b);
        let turn = copy_turn(
            alloc,
            copying,
            next,
            origin,
            &mut broker_tier.view,
            &mut self.store,
            &mut self.meta,
        )?;
        Ok(copy_outcome(turn))
    }
}
