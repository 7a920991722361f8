//! Commands of a follower: it truncates its log to where it agrees with the leader's, and copies from there on.
//!
//! A follow reads a run of the leader's log at its first turn. At the second it appends to its own log what fits one
//! segment, if nothing has come between. The batches are checked once, when they are read: that they were is kept with
//! them between the turns, and the second turn reads only their heads.

ghost use Rattle.std.specs.Prelude.{◌≡◌, ◌<◌, ◌≤◌, true, false, length, IfOk, OnErr};
ghost use Rattle.std.specs.Prelude.{IsSomeAnd, IsTrue, ◌↔◌, option_copied};
ghost use Rattle.partition_commands.specs.Partition.{AtNode, CanStop, KeepsPartition, the_leader, is_up};
ghost use Rattle.partition_commands.specs.TurnsOfFollowers.{IsMeet, MayCutNode, CutRow, JoinRow, JoinOnRow, MayTake};
ghost use Rattle.partition_commands.specs.TurnsOfFollowers.{TakeRow, FollowRow, MayExtend, ExtendRow, FollowOnRow};

use crate::partition_state::{Node, PartitionState};
use crate::roles::{followed, joined};
use broker_log::{AppendRefusal, ReadRefusal};
use disk_model::Disk;
use epoch_line::Line;
use laws_partition::{LocalStart, StartSnapshot, Taken, Turned};
use plain_log::{Answer, Place, Role};
use std::alloc::{AllocError, Global};
use tier_base::Trouble;

impl<D: Disk> Node<D> {
    /// Where its log and another's meet.
    fn meet(&self, other: &Node<D>) -> u64
        requires up { is_up self.now ≡ true }
        requires other_up { is_up other.now ≡ true }
        ensures { IsMeet self.now other.now result }
    {
        self.line().meet(self.end(), other.line(), other.end())
    }
}

impl<D: Disk> PartitionState<D> {
    /// The registry's leader, where it is up and leads the registry's epoch.
    fn leader(&self) -> Option<&Node<D>>
        ensures { option_copied result ≡ the_leader self.now }
    {
        let place = self.registry.leader.0 as usize;
        if place >= self.nodes.len() {
            return None;
        }
        let node = self.nodes.get(place);
        match node.role {
            Role::Leads(epoch) if node.is_up() && epoch == self.registry.epoch => Some(node),
            _ => None,
        }
    }

    /// Brings a follower's log to where it meets the leader's. Where that lies below the leader's local log, the
    /// follower is to restart its own, where that begins.
    pub(crate) fn join(&mut self, alloc: Global, b: usize) -> Result<Turned, AllocError>
        requires { CanStop self.old b }
        ensures row { IfOk result (λ turned. AtNode self.old b
            (λ x. JoinRow D.content D.control self.old b x turned self.new)) }
        ensures err { OnErr result (KeepsPartition D.content D.control self.old self.new) }
    {
        let node = self.nodes.get(b);
        if !node.is_up() {
            return Ok(Turned::Answers(Answer::Down));
        }
        let Some(epoch) = followed(node.role) else {
            return Ok(Turned::Answers(Answer::NotFollower));
        };
        if epoch < self.registry.epoch {
            return Ok(Turned::Answers(Answer::StaleEpoch(self.registry.epoch as u64)));
        }
        let Some(leader) = self.leader() else {
            return Ok(Turned::Answers(Answer::NoLeader));
        };
        let met = node.meet(leader);
        let wanted = leader.local_start();
        let mut line = leader.copy_line(alloc)?;
        line.cut_end(wanted);
        let stops = node.stops;
        let start = self.registry.start;
        match self.cut(b, epoch, met)? {
            Answer::Cut(end) if end < wanted => Ok(Turned::Begins(StartSnapshot {
                stops,
                role: Role::Joined(epoch),
                end,
                start,
                batches: Taken::none(),
                wanted: LocalStart::new(wanted),
                line,
            })),
            answer => Ok(Turned::Answers(answer)),
        }
    }

    /// Continues with a join: the follower's log is restarted, where nothing has come between. Fails only if memory
    /// runs out.
    pub fn join_on(
        &mut self,
        alloc: Global,
        b: usize,
        snapshot: &StartSnapshot,
    ) -> Result<Answer, AllocError>
        requires { CanStop self.old b }
        ensures row { IfOk result (λ answer. AtNode self.old b
            (λ x. JoinOnRow D.content D.control self.old b x snapshot.now answer self.new)) }
        ensures err { OnErr result (KeepsPartition D.content D.control self.old self.new) }
    {
        let node = self.nodes.get(b);
        if snapshot.stops != node.stops || !node.is_up() {
            return Ok(Answer::Stopped);
        }
        if is_behind(followed(snapshot.role), self.registry.epoch) {
            return Ok(Answer::StaleEpoch(self.registry.epoch as u64));
        }
        let end = node.end();
        if snapshot.end != end || joined(node.role).is_none() {
            return Ok(Answer::Passed(end));
        }
        let start = self.registry.start;
        let wanted = snapshot.wanted.offset();
        if snapshot.start < wanted && wanted <= start {
            return Ok(Answer::BelowStart(start));
        }
        let mut line = snapshot.line.copy(alloc)?;
        line.cut_end(wanted + 1);
        let node = self.nodes.at_mut(b);
        match node.log.restart_at(wanted, line) {
            Ok(()) => Ok(Answer::Rebuilt(wanted)),
            Err(Trouble::Failed) => {
                node.note_stop();
                Ok(Answer::DiskFaultAt(wanted))
            }
            Err(Trouble::NoMemory) => Err(AllocError),
        }
    }

    /// Cuts a follower's log, which has joined an epoch then.
    fn cut(&mut self, b: usize, epoch: u32, met: u64) -> Result<Answer, AllocError>
        requires node { CanStop self.old b }
        requires up { AtNode self.old b (λ x. MayCutNode x met) }
        ensures row { IfOk result (λ answer. AtNode self.old b
            (λ x. CutRow D.content D.control self.old b x epoch met answer self.new)) }
        ensures err { OnErr result (KeepsPartition D.content D.control self.old self.new) }
    {
        let node = self.nodes.at_mut(b);
        let end = node.log.end_up_to(met);
        match node.log.cut_to(met) {
            Ok(end) => {
                node.role = Role::Joined(epoch);
                node.known_high_watermark = node.known_high_watermark.min(end);
                Ok(Answer::Cut(end))
            }
            Err(Trouble::Failed) => {
                node.note_stop();
                Ok(Answer::DiskFaultAt(end))
            }
            Err(Trouble::NoMemory) => Err(AllocError),
        }
    }

    /// Reads a run of the leader's log for a follower that isn't as far.
    pub(crate) fn follow(
        &mut self,
        alloc: Global,
        b: usize,
        limit: u32,
    ) -> Result<Turned, AllocError>
        requires { b < length self.old.nodes }
        ensures row { IfOk result (λ turned. AtNode self.old b
            (λ x. FollowRow D.content D.control self.old b x limit turned self.new)) }
        ensures err { OnErr result (KeepsPartition D.content D.control self.old self.new) }
    {
        let node = self.nodes.get(b);
        if !node.is_up() {
            return Ok(Turned::Answers(Answer::Down));
        }
        let Some(epoch) = joined(node.role) else {
            return Ok(Turned::Answers(Answer::NotJoined));
        };
        if epoch < self.registry.epoch {
            return Ok(Turned::Answers(Answer::StaleEpoch(self.registry.epoch as u64)));
        }
        let Some(leader) = self.leader() else {
            return Ok(Turned::Answers(Answer::NoLeader));
        };
        let (end, bound) = (node.end(), leader.end());
        if bound <= end {
            return Ok(Turned::Answers(Answer::Level));
        }
        let local = leader.local_start();
        if end < local {
            return Ok(Turned::Answers(Answer::Moved(local)));
        }
        let recorded = self.notes(alloc, b);
        self.take(self.registry.leader.0 as usize, recorded, limit, bound)
    }

    /// Reads the run that a follow takes, of the leader's log up to its end.
    fn take(
        &mut self,
        leader: usize,
        recorded: StartSnapshot,
        limit: u32,
        bound: u64,
    ) -> Result<Turned, AllocError>
        requires node { AtNode self.old leader (λ y. MayTake y recorded.end bound) }
        ensures row { IfOk result (λ turned. AtNode self.old leader (λ y.
            TakeRow D.content D.control self.old leader y recorded limit turned self.new)) }
        ensures err { OnErr result (KeepsPartition D.content D.control self.old self.new) }
    {
        let node = self.nodes.at_mut(leader);
        match node.log.read_run(recorded.end, limit as u64, bound) {
            Ok(run) => Ok(Turned::Begins(StartSnapshot {
                stops: recorded.stops,
                role: recorded.role,
                end: recorded.end,
                start: recorded.start,
                batches: Taken::new(run.bytes),
                wanted: recorded.wanted,
                line: recorded.line,
            })),
            Err(ReadRefusal::DiskFault) => Ok(Turned::Answers(Answer::DiskFault)),
            Err(ReadRefusal::Damaged { file, at }) => {
                Ok(Turned::Answers(Answer::Damaged(Place::File(file), at)))
            }
            Err(ReadRefusal::NoMemory) => Err(AllocError),
        }
    }

    /// Puts of the run that a follow has read at the end of the follower's log what fits one segment. Fails only if
    /// memory runs out.
    #[tactic(auto, using(crate::proofs::Writes::set_same))]
    pub fn follow_on(&mut self, b: usize, snapshot: &StartSnapshot) -> Result<Answer, AllocError>
        requires { CanStop self.old b }
        ensures row { IfOk result (λ answer. AtNode self.old b
            (λ x. FollowOnRow D.content D.control self.old b x snapshot.now answer self.new)) }
        ensures err { OnErr result (KeepsPartition D.content D.control self.old self.new) }
    {
        let node = self.nodes.get(b);
        if snapshot.stops != node.stops || !node.is_up() {
            return Ok(Answer::Stopped);
        }
        if is_behind(followed(snapshot.role), self.registry.epoch) {
            return Ok(Answer::StaleEpoch(self.registry.epoch as u64));
        }
        let end = node.end();
        if snapshot.end != end
            || joined(node.role).is_none()
            || !node.log.takes_checked(snapshot.batches.as_slice())
        {
            return Ok(Answer::Passed(end));
        }
        self.extend(b, snapshot.batches.as_slice())
    }

    /// Appends a run to a follower's log.
    #[tactic(auto, using(crate::proofs::Writes::set_same))]
    fn extend(&mut self, b: usize, run: &[u8]) -> Result<Answer, AllocError>
        requires node { CanStop self.old b }
        requires fits { AtNode self.old b (λ x. MayExtend x run.now) }
        ensures row { IfOk result (λ answer. AtNode self.old b
            (λ x. ExtendRow D.content D.control self.old b x run.now answer self.new)) }
        ensures err { OnErr result (KeepsPartition D.content D.control self.old self.new) }
    {
        let node = self.nodes.at_mut(b);
        match node.log.append(run) {
            Ok(_) => Ok(Answer::Copied(node.end())),
            Err(AppendRefusal::LastOffset) => Ok(Answer::Passed(node.end())),
            Err(AppendRefusal::TooManySegments) => Ok(Answer::TooManySegments),
            Err(AppendRefusal::DiskFault) => {
                node.note_stop();
                Ok(Answer::DiskFault)
            }
            Err(AppendRefusal::NoMemory) => Err(AllocError),
        }
    }
}

/// Whether an epoch is below another.
fn is_behind(epoch: Option<u32>, other: u32) -> bool
    ensures behind { result ≡ true → IsSomeAnd epoch (λ e. e < other) }
    ensures not { result ≡ false → IsSomeAnd epoch (λ e. e < other) → ⊥ }
{
    match epoch {
        Some(epoch) => epoch < other,
        None => false,
    }
}
