//! A turn of a command, by what its actor's state has of it.

ghost use Rattle.std.specs.Prelude.{◌≡◌, ◌<◌, length, IfOk, OnErr, IsTrue};
ghost use Rattle.plain_log.specs.Orders.{IsInRange};
ghost use Rattle.partition_commands.specs.Partition.{AtNode, CanStop, KeepsPartition};
ghost use Rattle.partition_commands.specs.Sound.{SoundPartition};
ghost use Rattle.partition_world.specs.Tier.{AtBrokerTier};
ghost use Rattle.partition_commands.specs.Turns.{IsOfTier, takes_memory};
ghost use Rattle.partition_world.specs.declared.actor_state.InProgress.TheVariants.{Noted, Copies, Seeks, Dates};
ghost use Rattle.partition_world.specs.declared.actor_state.InProgress.TheVariants.{Expires, Rebuilds};
ghost use Rattle.partition_world.specs.Sound.{IsProgressOf};
ghost use Rattle.partition_world.specs.Turns.{LocalCommandRow, BeginRow, ContinuedRow, CopyLaterRow, SeekingRow};
ghost use Rattle.partition_world.specs.Turns.{DatingRow, DeletingRow, RebuildingRow, TurnRow, BeginHalts};
ghost use Rattle.partition_world.specs.Turns.{ContinuedHalts, CopyingHalts, SeekingHalts, DatingHalts};
ghost use Rattle.partition_world.specs.Turns.{DeletingHalts, RebuildingHalts, StaysOr, StaysTier};

use crate::actor_state::{InProgress, Outcome, outcome_of};
use crate::tier::RemoteTier;
use copy_task::{CopyStep, Copying};
use disk_model::Disk;
use expiry_task::{DeletionStep as Deletion, ExpiredSegment};
use laws_partition::StartSnapshot;
use meta_log::MetaLog;
use object_store::Store;
use partition_commands::PartitionState;
use plain_log::{Command, Config, Order, Which};
use rebuild_task::RebuildStep as Rebuild;
use record_batch::Checked;
use std::alloc::{AllocError, Global};
use tier_base::PartitionId;
use tier_fetch::FetchStep as Search;
use time_find::SearchStep as Dating;

impl<S: Store, M: MetaLog> RemoteTier<S, M> {
    /// Carries out a turn of a command, of which so much is kept. What is known of a check is used where it is of the
    /// command's bytes; a copy keeps the bundle that the turn made.
    pub(crate) fn turn<D: Disk>(
        &mut self,
        alloc: Global,
        partition: PartitionId,
        config: Config,
        order: &Order,
        in_progress: &mut InProgress,
        known: Option<&Checked>,
        partition_state: &mut PartitionState<D>,
    ) -> Result<Outcome, AllocError>
        requires node { order.now.broker.0 < length partition_state.old.nodes }
        requires broker_tier { order.now.broker.0 < length self.old.broker_tiers }
        requires sound { SoundPartition (length partition_state.old.nodes) partition_state.old }
        requires fit { IsInRange order.now.command }
        requires in_progress { IsProgressOf order.now.command in_progress.old }
        requires stops { CanStop partition_state.old order.now.broker.0 }
        requires tries { AtBrokerTier self.old order.now.broker.0
            (λ broker_tier. broker_tier.attempt < 18446744073709551615) }
        ensures row { IfOk result
            (λ outcome. TurnRow D.Disk S.Store M.MetaLog partition config partition_state.old self.old
            order.now.broker.0 in_progress.old order.now.command outcome partition_state.new self.new) }
        ensures same { in_progress.new ≡ in_progress.old }
        ensures err { OnErr result
            (StaysTier D.Disk S.Store M.MetaLog partition partition_state.old self.old order.now.broker.0
            in_progress.old order.now.command partition_state.new self.new) }
        ensures wants { OnErr result (IsTrue (takes_memory order.now.command)) }
    {
        match in_progress {
            InProgress::Idle => self.begin(alloc, order, known, partition_state),
            InProgress::Noted(recorded) => self.go_on(
                alloc,
                partition,
                config,
                order,
                recorded,
                partition_state,
            ),
            InProgress::Copies(recorded, copying, next) => {
                self.go_copying(alloc, order, recorded, copying, *next, partition_state)
            }
            InProgress::Seeks(recorded, next) => {
                self.go_seeking(alloc, partition, order, recorded, *next, partition_state)
            }
            InProgress::Dates(recorded, cursor, next) => {
                self.go_dating(
                    alloc,
                    partition,
                    order,
                    recorded,
                    *cursor,
                    *next,
                    partition_state,
                )
            }
            InProgress::Expires(recorded, expired_segment, next) => {
                self.go_deleting(
                    alloc,
                    order,
                    recorded,
                    *expired_segment,
                    *next,
                    partition_state,
                )
            }
            InProgress::Rebuilds(recorded, next) => {
                self.go_rebuilding(alloc, partition, order, recorded, next, partition_state)
            }
        }
    }

    /// Carries out the first turn of a command.
    fn begin<D: Disk>(
        &mut self,
        alloc: Global,
        order: &Order,
        known: Option<&Checked>,
        partition_state: &mut PartitionState<D>,
    ) -> Result<Outcome, AllocError>
        requires node { CanStop partition_state.old order.now.broker.0 }
        requires broker_tier { order.now.broker.0 < length self.old.broker_tiers }
        requires sound { SoundPartition (length partition_state.old.nodes) partition_state.old }
        requires fit { IsInRange order.now.command }
        ensures row { IfOk result (λ outcome. AtNode partition_state.old order.now.broker.0
            (λ x. AtBrokerTier self.old order.now.broker.0 (λ broker_tier.
            BeginRow D.Disk S.Store M.MetaLog partition_state.old self.old order.now.broker.0 x broker_tier
            order.now.command outcome partition_state.new self.new))) }
        ensures err { OnErr result (StaysOr D.Disk partition_state.old self.old order.now.broker.0 (λ x broker_tier.
            BeginHalts M.MetaLog self.old order.now.broker.0 broker_tier order.now.command self.new)
            partition_state.new self.new) }
        ensures wants { OnErr result (IsTrue (takes_memory order.now.command)) }
    {
        match &order.command {
            Command::Copy => self.copy(alloc, order.broker.0 as usize, partition_state),
            Command::Trim => self.trim(alloc, order.broker.0 as usize, partition_state),
            Command::Expire => self.expire(alloc, order.broker.0 as usize, partition_state),
            Command::Offset(Which::LatestTiered | Which::At(_)) => {
                self.begin_leading(alloc, order.broker.0 as usize, partition_state)
            }
            _ => self.begin_own(alloc, order, known, partition_state),
        }
    }

    /// Carries out the first turn of a command that the remote tier has no part in.
    fn begin_own<D: Disk>(
        &mut self,
        alloc: Global,
        order: &Order,
        known: Option<&Checked>,
        partition_state: &mut PartitionState<D>,
    ) -> Result<Outcome, AllocError>
        requires node { CanStop partition_state.old order.now.broker.0 }
        requires sound { SoundPartition (length partition_state.old.nodes) partition_state.old }
        requires fit { IsInRange order.now.command }
        requires own { IsOfTier order.now.command → ⊥ }
        ensures row { IfOk result (λ outcome. AtNode partition_state.old order.now.broker.0 (λ x.
            LocalCommandRow D.Disk partition_state.old self.old order.now.broker.0 x order.now.command outcome
            partition_state.new self.new)) }
        ensures err { OnErr result (KeepsPartition D.content D.control partition_state.old partition_state.new
            × (self.new ≡ self.old)) }
        ensures wants { OnErr result (IsTrue (takes_memory order.now.command)) }
    {
        Ok(outcome_of(partition_state.first_turn(alloc, order, known)?))
    }

    /// Carries out the second turn of a command of which its actor's state has what was recorded.
    fn go_on<D: Disk>(
        &mut self,
        alloc: Global,
        partition: PartitionId,
        config: Config,
        order: &Order,
        recorded: &StartSnapshot,
        partition_state: &mut PartitionState<D>,
    ) -> Result<Outcome, AllocError>
        requires node { CanStop partition_state.old order.now.broker.0 }
        requires broker_tier { order.now.broker.0 < length self.old.broker_tiers }
        requires sound { SoundPartition (length partition_state.old.nodes) partition_state.old }
        requires in_progress { IsProgressOf order.now.command (Noted recorded.now) }
        requires tries { AtBrokerTier self.old order.now.broker.0
            (λ broker_tier. broker_tier.attempt < 18446744073709551615) }
        ensures row { IfOk result (λ outcome. AtNode partition_state.old order.now.broker.0
            (λ x. AtBrokerTier self.old order.now.broker.0 (λ broker_tier.
            ContinuedRow D.Disk S.Store M.MetaLog partition config partition_state.old self.old order.now.broker.0 x
            broker_tier recorded.now order.now.command outcome partition_state.new self.new))) }
        ensures err { OnErr result (StaysOr D.Disk partition_state.old self.old order.now.broker.0 (λ x broker_tier.
            ContinuedHalts S.Store M.MetaLog partition partition_state.old self.old order.now.broker.0 x broker_tier
            recorded.now order.now.command self.new) partition_state.new self.new) }
    {
        let b = order.broker.0 as usize;
        match &order.command {
            Command::Copy => self.choose(alloc, partition, order.broker, recorded, partition_state),
            Command::Trim => self.trim_on(alloc, b, recorded, config.local_keep, partition_state),
            Command::Expire => self.expire_on(
                alloc,
                partition,
                b,
                recorded,
                config.keep,
                partition_state,
            ),
            Command::Fetch { offset, limit } => self.fetch_on(
                alloc,
                partition,
                order.broker,
                recorded,
                Search::Refresh,
                *offset,
                *limit,
                partition_state,
            ),
            Command::Join => self.join_on(alloc, order.broker, recorded, partition_state),
            Command::Offset(which) => match which {
                Which::LatestTiered => Ok(self.offset_on(b, recorded, partition_state)),
                Which::At(ts) => self.date_on(
                    alloc,
                    partition,
                    order.broker,
                    recorded,
                    *ts,
                    0,
                    Dating::Seek,
                    partition_state,
                ),
                // The others are answered at once: `in_progress`.
                _ => unreachable!(),
            },
            Command::Follow { .. } => Ok(Outcome::Answers(partition_state.follow_on(b, recorded)?)),
            // No other command has a second turn: `in_progress`.
            _ => unreachable!(),
        }
    }

    /// Carries out a turn of a copy that has chosen its segment.
    fn go_copying<D: Disk>(
        &mut self,
        alloc: Global,
        order: &Order,
        recorded: &StartSnapshot,
        copying: &mut Copying,
        next: CopyStep,
        partition_state: &mut PartitionState<D>,
    ) -> Result<Outcome, AllocError>
        requires node { order.now.broker.0 < length partition_state.old.nodes }
        requires broker_tier { order.now.broker.0 < length self.old.broker_tiers }
        requires in_progress { IsProgressOf order.now.command (Copies recorded.now copying.old next) }
        ensures row { IfOk result (λ outcome. AtNode partition_state.old order.now.broker.0
            (λ x. AtBrokerTier self.old order.now.broker.0 (λ broker_tier.
            CopyLaterRow S.Store M.MetaLog partition_state.old self.old order.now.broker.0 x broker_tier recorded.now
            copying.old next order.now.command outcome partition_state.new self.new))) }
        ensures same { copying.new ≡ copying.old }
        ensures err { OnErr result (StaysOr D.Disk partition_state.old self.old order.now.broker.0 (λ x broker_tier.
            CopyingHalts S.Store M.MetaLog partition_state.old self.old order.now.broker.0 broker_tier copying.old next
            order.now.command self.new) partition_state.new self.new) }
    {
        self.copy_on(
            alloc,
            order.broker,
            recorded,
            copying,
            next,
            partition_state,
        )
    }

    /// Carries out a turn of a fetch that continues in the remote tier.
    fn go_seeking<D: Disk>(
        &mut self,
        alloc: Global,
        partition: PartitionId,
        order: &Order,
        recorded: &StartSnapshot,
        next: Search,
        partition_state: &PartitionState<D>,
    ) -> Result<Outcome, AllocError>
        requires node { order.now.broker.0 < length partition_state.now.nodes }
        requires broker_tier { order.now.broker.0 < length self.old.broker_tiers }
        requires in_progress { IsProgressOf order.now.command (Seeks recorded.now next) }
        ensures row { IfOk result (λ outcome. AtNode partition_state.now order.now.broker.0
            (λ x. AtBrokerTier self.old order.now.broker.0 (λ broker_tier.
            SeekingRow S.Store M.MetaLog partition partition_state.now self.old order.now.broker.0 x broker_tier
            recorded.now next order.now.command
            outcome partition_state.now self.new))) }
        ensures err { OnErr result (StaysOr D.Disk partition_state.now self.old order.now.broker.0 (λ x broker_tier.
            SeekingHalts S.Store M.MetaLog partition self.old order.now.broker.0 x broker_tier next order.now.command
            self.new) partition_state.now self.new) }
    {
        match &order.command {
            Command::Fetch { offset, limit } => self.fetch_on(
                alloc,
                partition,
                order.broker,
                recorded,
                next,
                *offset,
                *limit,
                partition_state,
            ),
            // No other command continues as a fetch does: `in_progress`.
            _ => unreachable!(),
        }
    }

    /// Carries out a turn of a timestamp lookup that has come to an offset.
    fn go_dating<D: Disk>(
        &mut self,
        alloc: Global,
        partition: PartitionId,
        order: &Order,
        recorded: &StartSnapshot,
        cursor: u64,
        next: Dating,
        partition_state: &mut PartitionState<D>,
    ) -> Result<Outcome, AllocError>
        requires node { order.now.broker.0 < length partition_state.old.nodes }
        requires broker_tier { order.now.broker.0 < length self.old.broker_tiers }
        requires in_progress { IsProgressOf order.now.command (Dates recorded.now cursor next) }
        ensures row { IfOk result (λ outcome. AtNode partition_state.old order.now.broker.0
            (λ x. AtBrokerTier self.old order.now.broker.0 (λ broker_tier.
            DatingRow D.Disk S.Store M.MetaLog partition partition_state.old self.old order.now.broker.0 x broker_tier
            recorded.now cursor next
            order.now.command outcome partition_state.new self.new))) }
        ensures err { OnErr result (StaysOr D.Disk partition_state.old self.old order.now.broker.0 (λ x broker_tier.
            DatingHalts S.Store M.MetaLog partition partition_state.old self.old order.now.broker.0 x broker_tier
            cursor next order.now.command self.new) partition_state.new self.new) }
    {
        match &order.command {
            Command::Offset(Which::At(ts)) => self.date_on(
                alloc,
                partition,
                order.broker,
                recorded,
                *ts,
                cursor,
                next,
                partition_state,
            ),
            // No other command continues as a timestamp lookup does: `in_progress`.
            _ => unreachable!(),
        }
    }

    /// Carries out a turn of an expiry that has taken up a remote segment.
    fn go_deleting<D: Disk>(
        &mut self,
        alloc: Global,
        order: &Order,
        recorded: &StartSnapshot,
        expired_segment: ExpiredSegment,
        next: Deletion,
        partition_state: &PartitionState<D>,
    ) -> Result<Outcome, AllocError>
        requires node { order.now.broker.0 < length partition_state.now.nodes }
        requires broker_tier { order.now.broker.0 < length self.old.broker_tiers }
        requires in_progress { IsProgressOf order.now.command (Expires recorded.now expired_segment next) }
        ensures row { IfOk result (λ outcome. AtNode partition_state.now order.now.broker.0 (λ x.
            DeletingRow S.Store M.MetaLog partition_state.now self.old order.now.broker.0 x recorded.now
            expired_segment next order.now.command
            outcome partition_state.now self.new)) }
        ensures err { OnErr result (StaysOr D.Disk partition_state.now self.old order.now.broker.0 (λ x broker_tier.
            DeletingHalts S.Store M.MetaLog partition_state.now self.old order.now.broker.0 expired_segment next
            order.now.command self.new) partition_state.now self.new) }
    {
        self.delete_on(
            alloc,
            order.broker,
            recorded,
            expired_segment,
            next,
            partition_state,
        )
    }

    /// Carries out a turn of a join that restarts its log.
    fn go_rebuilding<D: Disk>(
        &mut self,
        alloc: Global,
        partition: PartitionId,
        order: &Order,
        recorded: &StartSnapshot,
        next: &Rebuild,
        partition_state: &mut PartitionState<D>,
    ) -> Result<Outcome, AllocError>
        requires node { CanStop partition_state.old order.now.broker.0 }
        requires broker_tier { order.now.broker.0 < length self.old.broker_tiers }
        requires in_progress { IsProgressOf order.now.command (Rebuilds recorded.now next.now) }
        ensures row { IfOk result (λ outcome. AtNode partition_state.old order.now.broker.0
            (λ x. AtBrokerTier self.old order.now.broker.0 (λ broker_tier.
            RebuildingRow D.Disk S.Store partition partition_state.old self.old order.now.broker.0 x broker_tier
            recorded.now next.now order.now.command
            outcome partition_state.new self.new))) }
        ensures err { OnErr result (StaysOr D.Disk partition_state.old self.old order.now.broker.0 (λ x broker_tier.
            RebuildingHalts S.Store partition self.old broker_tier recorded.now next.now order.now.command self.new)
            partition_state.new self.new) }
    {
        match next {
            Rebuild::Epochs => self.read_epochs(
                alloc,
                partition,
                order.broker,
                recorded,
                partition_state,
            ),
            Rebuild::Restart(line) => self.restart(
                alloc,
                order.broker,
                recorded,
                line,
                partition_state,
            ),
        }
    }
}
