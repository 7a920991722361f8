//! What a turn has to do that the partition has no part in, and what of it was done before.
//!
//! The check of a batch from outside and the bundle of a segment that is copied take time in proportion to the bytes,
//! and are functions of these alone. So a thread may make them without the partition's lock: it asks what an actor's
//! next turn wants (`World::wanted`), makes it (`World::prepare`), and passes it in (`World::step_with`). A turn uses
//! what is passed in only where it is of the very bytes, line and interval that the turn has; it makes its own
//! otherwise. So a turn comes to the same whatever is passed in, and no clause of a step mentions it.

ghost use Rattle.std.specs.Prelude.{◌≡◌, ◌<◌, length, slice_get, IfOk, OnErr, IsTrue, IsSomeAnd};
ghost use Rattle.plain_log.specs.Orders.{IsInRange};
ghost use Rattle.partition_commands.specs.Partition.{CanStop};
ghost use Rattle.partition_commands.specs.Sound.{SoundPartition};
ghost use Rattle.partition_commands.specs.Turns.{takes_memory};
ghost use Rattle.partition_world.specs.Ready.{IsWantOf, IsWantOfCopy, Prepares};
ghost use Rattle.partition_world.specs.Sound.{IsProgressOf};
ghost use Rattle.partition_world.specs.Tier.{AtBrokerTier};
ghost use Rattle.partition_world.specs.Turns.{TurnRow, StaysTier};

use crate::actor_state::{ActorState, InProgress, Outcome};
use crate::desk::{set_actor_state, take_actor_state};
use crate::tier::RemoteTier;
use bytes::Bytes;
use copy_task::Copying;
use disk_model::Disk;
use epoch_line::Line;
use meta_log::MetaLog;
use object_store::Store;
use partition_commands::PartitionState;
use plain_log::{Command, Config, Order};
use record_batch::Checked;
use segment_bundle::Bundle;
use segment_file::Closed;
use std::alloc::{AllocError, Global};
use tier_base::{Items, PartitionId};

/// What an actor's next turn would have made ready.
#[derive(Drop)]
pub enum Want {
    /// Nothing.
    Nothing,
    /// The check of these bytes: the turn is the first of a `raw`.
    Check(Bytes),
    /// The bundle of this segment: the turn is one of a copy that has none yet. The line is that of the broker's log
    /// as the segment was chosen, the interval that of its indexes in bytes.
    Bundle {
        closed: Closed,
        line: Line,
        interval: u32,
    },
}

/// What was made ready for a turn.
#[derive(Drop)]
pub enum Ready {
    /// Nothing: the turn makes what it needs.
    Nothing,
    /// Bytes that were checked.
    Checked(Checked),
    /// A bundle.
    Bundle(Bundle),
}

/// What the next turn of a command wants, of which so much is kept.
pub(crate) fn want_of(
    alloc: Global,
    in_progress: &InProgress,
    command: &Command,
) -> Result<Want, AllocError>
    ensures { IfOk result (IsWantOf command.now in_progress.now) }
{
    match in_progress {
        InProgress::Copies(_, copying, _) => want_of_copy(alloc, copying),
        InProgress::Idle => match command {
            Command::Raw(bytes) => Ok(Want::Check(bytes.clone()?)),
            _ => Ok(Want::Nothing),
        },
        _ => Ok(Want::Nothing),
    }
}

/// What a copy wants: its bundle, until it has one.
fn want_of_copy(alloc: Global, copying: &Copying) -> Result<Want, AllocError>
    ensures { IfOk result (IsWantOfCopy copying.now) }
{
    match (copying.closed(), copying.line()) {
        (Some(closed), Some(line)) => Ok(Want::Bundle {
            closed: closed.copy(alloc)?,
            line: line.copy(alloc)?,
            interval: copying.interval(),
        }),
        _ => Ok(Want::Nothing),
    }
}

/// Makes what is wanted.
pub(crate) fn prepared(alloc: Global, want: Want) -> Result<Ready, AllocError>
    ensures { IfOk result (Prepares want) }
{
    match want {
        Want::Nothing => Ok(Ready::Nothing),
        Want::Check(bytes) => Ok(Ready::Checked(Checked::of(bytes))),
        Want::Bundle {
            closed,
            line,
            interval,
        } => Ok(Ready::Bundle(Bundle::of(alloc, &closed, &line, interval)?)),
    }
}

/// What is in progress with what is ready for it, and a check that may be of its command's bytes.
fn with_ready(in_progress: InProgress, ready: Ready) -> (InProgress, Option<Checked>)
    ensures { result.0 ≡ in_progress }
{
    match ready {
        Ready::Nothing => (in_progress, None),
        Ready::Checked(checked) => (in_progress, Some(checked)),
        Ready::Bundle(bundle) => (given(in_progress, bundle), None),
    }
}

/// A copy is given a bundle, which it keeps where it is its own.
fn given(in_progress: InProgress, bundle: Bundle) -> InProgress
    ensures { result ≡ in_progress }
{
    match in_progress {
        InProgress::Copies(snapshot, copying, next) => InProgress::Copies(
            snapshot,
            copying.give(bundle),
            next,
        ),
        other => other,
    }
}

impl<S: Store, M: MetaLog> RemoteTier<S, M> {
    /// Carries out a turn of a command at its state, which keeps of it what it kept.
    #[tactic(auto, using(crate::proofs::BrokerTierStates::set_twice, crate::proofs::BrokerTierStates::set_same))]
    pub(crate) fn turn_at<D: Disk>(
        &mut self,
        alloc: Global,
        partition: PartitionId,
        config: Config,
        order: &Order,
        desk: &mut Items<ActorState>,
        place: usize,
        ready: Ready,
        partition_state: &mut PartitionState<D>,
    ) -> Result<Outcome, AllocError>
        requires node { order.now.broker.0 < length partition_state.old.nodes }
        requires broker_tier { order.now.broker.0 < length self.old.broker_tiers }
        requires sound { SoundPartition (length partition_state.old.nodes) partition_state.old }
        requires fit { IsInRange order.now.command }
        requires place { place < length desk.old }
        requires in_progress { IsSomeAnd (slice_get desk.old place)
            (λ actor_state. IsProgressOf order.now.command actor_state.in_progress) }
        requires stops { CanStop partition_state.old order.now.broker.0 }
        requires tries { AtBrokerTier self.old order.now.broker.0
            (λ broker_tier. broker_tier.attempt < 18446744073709551615) }
        ensures row { IfOk result (λ outcome. IsSomeAnd (slice_get desk.old place)
            (λ actor_state. TurnRow D.Disk S.Store M.MetaLog partition
            config partition_state.old self.old order.now.broker.0 actor_state.in_progress order.now.command outcome
            partition_state.new self.new)) }
        ensures err { OnErr result (IsSomeAnd (slice_get desk.old place)
            (λ actor_state. StaysTier D.Disk S.Store M.MetaLog partition
            partition_state.old self.old order.now.broker.0 actor_state.in_progress order.now.command
            partition_state.new self.new)) }
        ensures wants { OnErr result (IsTrue (takes_memory order.now.command)) }
        ensures desk { desk.new ≡ desk.old }
    {
        let actor_state = take_actor_state(desk, place);
        let number = actor_state.number;
        let (mut in_progress, checked) = with_ready(actor_state.in_progress, ready);
        let outcome = self.turn(
            alloc,
            partition,
            config,
            order,
            &mut in_progress,
            checked.as_ref(),
            partition_state,
        );
        set_actor_state(desk, place, number, in_progress);
        outcome
    }
}
