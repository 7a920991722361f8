//! The turns of a timestamp lookup, after its first one.
//!
//! Each repeats its tests, since a stop, an election or a raise of the log start offset may have come between: the
//! broker hasn't stopped and leads the epoch that it led, the cursor isn't below the log start offset, and it is below
//! the broker's high watermark.

ghost use Rattle.std.specs.Prelude.{◌≡◌, ◌<◌, ◌≤◌, ◌^◌, length, true, false, None, IfOk, IfSome, OnErr};
ghost use Rattle.broker_log.specs.Seen.{line_in};
ghost use Rattle.time_find.specs.Turns.{IsSet, IsBelowLocal, SearchContinues};
ghost use Rattle.partition_commands.specs.Partition.{AtNode, KeepsPartition, is_up, line_of, local_of};
ghost use Rattle.partition_world.specs.Tier.{AtBrokerTier};
ghost use Rattle.partition_world.specs.Turns.{DateHalts, StaysOr};
ghost use Rattle.partition_world.specs.TurnsOfCopy.{KeepsLead};
ghost use Rattle.partition_world.specs.TurnsOfDate.{resumed_at, resumed_with, is_own, asked_of, AnswersAtOnce};
ghost use Rattle.partition_world.specs.TurnsOfDate.{SearchesOwn, SearchesRemote, WantsForDate, SearchRow, DateOnRow};

use crate::actor_state::{Outcome, date_outcome};
use crate::tier::RemoteTier;
use disk_model::Disk;
use epoch_line::Line;
use laws_partition::StartSnapshot;
use meta_log::MetaLog;
use object_store::Store;
use partition_commands::{Node, PartitionState};
use plain_log::{Answer, Turn};
use std::alloc::{AllocError, Global};
use tier_base::{BrokerId, PartitionId};
use time_find::{Asked, SearchStep, own_turn, time_turn};

/// What a search returns before it reads, where its broker has stopped or no longer leads as it did, or all that is
/// committed has been searched.
fn answer_of<D: Disk>(node: &Node<D>, recorded: &StartSnapshot, at: u64) -> Option<Answer>
    ensures some { IfSome result (AnswersAtOnce node.now recorded.now at) }
    ensures keeps { result ≡ None → KeepsLead node.now recorded.now }
    ensures below { result ≡ None → at < node.now.known_high_watermark }
{
    if recorded.stops != node.stops || !node.is_up() {
        return Some(Answer::Stopped);
    }
    if recorded.role != node.role {
        return Some(Answer::NotLeader);
    }
    if at >= node.known_high_watermark {
        return Some(Answer::NoOffset);
    }
    None
}

/// Where a search continues.
fn resumed_at(start: u64, cursor: u64) -> u64
    ensures is { result ≡ resumed_at start cursor }
    ensures fits { result < 2 ^ 64 }
{
    start.max(cursor)
}

/// What a search continues with.
#[tactic(auto, using(crate::proofs::DateRows::set_at))]
fn resumed_with(start: u64, cursor: u64, next: SearchStep) -> SearchStep
    requires { IsSet cursor next }
    ensures is { result ≡ resumed_with start cursor next }
    ensures holds { IsSet (resumed_at start cursor) result }
{
    if cursor < start {
        SearchStep::Seek
    } else {
        next
    }
}

/// What a search asks for at this turn.
fn asked_of<D: Disk>(
    partition: PartitionId,
    partition_state: &PartitionState<D>,
    node: &Node<D>,
    ts: i64,
) -> Asked
    requires { is_up node.now ≡ true }
    ensures { result ≡ asked_of partition partition_state.now node.now ts }
{
    Asked {
        partition,
        ts,
        start: partition_state.registry.start,
        local: node.local_start(),
        log_end: node.end(),
        mark: node.known_high_watermark,
    }
}

/// Whether the turn is one in the local log.
fn is_own(asked: &Asked, cursor: u64, next: &SearchStep) -> bool
    ensures is { result ≡ is_own asked.now.local cursor next.now }
    ensures own { result ≡ true → asked.now.local ≤ cursor }
    ensures remote { result ≡ false → IsBelowLocal asked.now cursor next.now }
{
    match next {
        SearchStep::Seek => asked.local <= cursor,
        _ => false,
    }
}

/// Takes a turn of a search in a broker's local log.
fn search_own<D: Disk>(
    partition_state: &mut PartitionState<D>,
    b: usize,
    asked: &Asked,
    cursor: u64,
) -> Result<Turn<(u64, SearchStep)>, AllocError>
    requires up { AtNode partition_state.old b (λ x. is_up x ≡ true) }
    requires local { AtNode partition_state.old b (λ x. local_of x ≤ cursor) }
    requires mark { cursor < asked.now.mark }
    ensures row { IfOk result (λ turn. AtNode partition_state.old b
        (λ x. SearchesOwn D.Disk partition_state.old b x asked.now cursor turn partition_state.new)) }
    ensures goes { IfOk result (SearchContinues cursor) }
    ensures err { OnErr result (KeepsPartition D.content D.control partition_state.old partition_state.new) }
{
    own_turn(&mut partition_state.nodes.at_mut(b).log, asked, cursor)
}

impl<S: Store, M: MetaLog> RemoteTier<S, M> {
    /// Takes a turn of a search among the remote segments.
    fn search_remote(
        &mut self,
        alloc: Global,
        b: usize,
        line: &Line,
        asked: &Asked,
        cursor: u64,
        next: SearchStep,
    ) -> Result<Turn<(u64, SearchStep)>, AllocError>
        requires broker_tier { b < length self.old.broker_tiers }
        requires mark { cursor < asked.now.mark }
        requires remote { IsBelowLocal asked.now cursor next }
        requires holds { IsSet cursor next }
        ensures row { IfOk result (λ turn. AtBrokerTier self.old b (λ broker_tier.
            SearchesRemote S.Store M.MetaLog self.old b broker_tier line.now asked.now cursor next turn self.new)) }
        ensures goes { IfOk result (SearchContinues cursor) }
        ensures err { OnErr result (AtBrokerTier self.old b (λ broker_tier.
            WantsForDate S.Store M.MetaLog self.old b broker_tier line.now asked.now cursor next self.new)) }
    {
        let broker_tier = self.broker_tiers.at_mut(b);
        time_turn(
            alloc,
            asked,
            cursor,
            next,
            line,
            &mut broker_tier.view,
            &mut broker_tier.cache,
            &mut self.store,
            &mut self.meta,
        )
    }

    /// Takes a turn of a search from a cursor on.
    #[tactic(auto, using(crate::proofs::DateRows::own_row, crate::proofs::DateRows::remote_row, crate::proofs::DateRows::remote_stays))]
    fn search<D: Disk>(
        &mut self,
        alloc: Global,
        b: usize,
        asked: &Asked,
        cursor: u64,
        next: &SearchStep,
        partition_state: &mut PartitionState<D>,
    ) -> Result<Turn<(u64, SearchStep)>, AllocError>
        requires node { AtNode partition_state.old b (λ x. is_up x ≡ true) }
        requires local { AtNode partition_state.old b (λ x. local_of x ≡ asked.now.local) }
        requires broker_tier { b < length self.old.broker_tiers }
        requires mark { cursor < asked.now.mark }
        requires holds { IsSet cursor next.now }
        ensures row { IfOk result (λ turn. AtNode partition_state.old b (λ x. AtBrokerTier self.old b (λ broker_tier.
            SearchRow D.Disk S.Store M.MetaLog partition_state.old self.old b x broker_tier asked.now cursor next.now
            (is_own asked.now.local cursor next.now) turn partition_state.new self.new))) }
        ensures goes { IfOk result (SearchContinues cursor) }
        ensures err { OnErr result (StaysOr D.Disk partition_state.old self.old b (λ x broker_tier.
            WantsForDate S.Store M.MetaLog self.old b broker_tier (line_of x) asked.now cursor next.now self.new)
            partition_state.new self.new) }
    {
        if is_own(asked, cursor, next) {
            return search_own(partition_state, b, asked, cursor);
        }
        let line = partition_state.nodes.get(b).line();
        self.search_remote(alloc, b, line, asked, cursor, *next)
    }

    /// Takes a later turn of a timestamp lookup, which has come to a cursor.
    pub(crate) fn date_on<D: Disk>(
        &mut self,
        alloc: Global,
        partition: PartitionId,
        broker: BrokerId,
        recorded: &StartSnapshot,
        ts: i64,
        cursor: u64,
        next: SearchStep,
        partition_state: &mut PartitionState<D>,
    ) -> Result<Outcome, AllocError>
        requires node { broker.0 < length partition_state.old.nodes }
        requires broker_tier { broker.0 < length self.old.broker_tiers }
        requires holds { IsSet cursor next }
        ensures row { IfOk result
            (λ outcome. AtNode partition_state.old broker.0 (λ x. AtBrokerTier self.old broker.0 (λ broker_tier.
            DateOnRow D.Disk S.Store M.MetaLog partition partition_state.old self.old broker.0 x broker_tier
            recorded.now ts cursor next outcome partition_state.new self.new))) }
        ensures err { OnErr result (StaysOr D.Disk partition_state.old self.old broker.0 (λ x broker_tier.
            DateHalts S.Store M.MetaLog partition partition_state.old self.old broker.0 x broker_tier ts cursor next
            self.new) partition_state.new self.new) }
    {
        let b = broker.0 as usize;
        let node = partition_state.nodes.get(b);
        let start = partition_state.registry.start;
        let at = resumed_at(start, cursor);
        if let Some(answer) = answer_of(node, recorded, at) {
            return Ok(Outcome::Answers(answer));
        }
        let asked = asked_of(partition, partition_state, node, ts);
        let later = resumed_with(start, cursor, next);
        let turn = self.search(alloc, b, &asked, at, &later, partition_state)?;
        Ok(date_outcome(turn))
    }
}
