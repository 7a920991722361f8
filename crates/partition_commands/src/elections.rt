//! Commands to the registry, and those by which a broker learns of it: elect, unclean, learn, ack, shrink, expand,
//! raise.

ghost use Rattle.std.specs.Prelude.{◌≡◌, ◌<◌, ◌^◌, true, false, length, IfOk, OnErr};
ghost use Rattle.std.specs.Option.{ForSome};
ghost use Rattle.laws_partition.specs.RowsOfElections.{answer_of};
ghost use Rattle.partition_commands.specs.Partition.{AtNode, CanStop, KeepsPartition};
ghost use Rattle.partition_commands.specs.TurnsOfElections.{MayLead, LeadRow, ElectRow, UncleanRow, LearnRow};
ghost use Rattle.partition_commands.specs.TurnsOfElections.{AckRow, ShrinkRow, ExpandRow, RaiseRow};
ghost use Rattle.partition_commands.specs.Sound.{SoundPartition};

use crate::partition_state::PartitionState;
use crate::roles::{acking, epoch_in, leading};
use disk_model::Disk;
use plain_log::{Answer, Role};
use registry::RegRefusal;
use std::alloc::{AllocError, Global};
use tier_base::{BrokerId, Trouble};

/// What is answered where the registry refuses.
fn refused(why: RegRefusal) -> Answer
    ensures { result ≡ answer_of why }
{
    match why {
        RegRefusal::LastEpoch => Answer::LastEpoch,
        RegRefusal::NotInSync => Answer::NotInSync,
        RegRefusal::DownBroker => Answer::DownBroker,
        RegRefusal::BehindStart { end, start } => Answer::BehindStart(end, start),
        RegRefusal::StaleEpoch { current } => Answer::StaleEpoch(current as u64),
        RegRefusal::IsLeader => Answer::IsLeader,
        RegRefusal::Behind { ack, mark } => Answer::Behind(ack, mark),
        RegRefusal::NotAbove { start } => Answer::NotAbove(start),
        RegRefusal::AboveMark { mark } => Answer::AboveMark(mark),
    }
}

impl<D: Disk> PartitionState<D> {
    /// Elects a broker out of the replicas in sync.
    pub(crate) fn elect(&mut self, broker: BrokerId) -> Answer
        requires node { broker.0 < length self.old.nodes }
        requires replica { broker.0 < length self.old.registry.replicas }
        ensures { AtNode self.old broker.0 (λ x. ElectRow self.old broker.0 x result self.new) }
    {
        let up = self.nodes.get(broker.0 as usize).is_up();
        match self.registry.elect(broker, up) {
            Ok(epoch) => Answer::OkAt(epoch as u64),
            Err(why) => refused(why),
        }
    }

    /// Elects a broker that may not be in sync.
    pub(crate) fn unclean(&mut self, broker: BrokerId) -> Answer
        requires node { broker.0 < length self.old.nodes }
        requires replica { broker.0 < length self.old.registry.replicas }
        ensures { AtNode self.old broker.0 (λ x. UncleanRow self.old broker.0 x result self.new) }
    {
        let node = self.nodes.get(broker.0 as usize);
        let (up, flushed_end) = (node.is_up(), node.stable());
        match self.registry.elect_unclean(broker, up, flushed_end) {
            Ok(epoch) => Answer::OkAt(epoch as u64),
            Err(why) => refused(why),
        }
    }

    /// Lets a broker learn who leads.
    #[tactic(auto, using(crate::proofs::Writes::set_same))]
    pub(crate) fn learn(&mut self, broker: BrokerId) -> Result<Answer, AllocError>
        requires node { CanStop self.old broker.0 }
        requires sound { SoundPartition (length self.old.nodes) self.old }
        ensures row { IfOk result (λ answer. AtNode self.old broker.0 (λ x.
            LearnRow D.content D.control self.old broker.0 x answer self.new)) }
        ensures err { OnErr result (KeepsPartition D.content D.control self.old self.new) }
    {
        let b = broker.0 as usize;
        let epoch = self.registry.epoch;
        let node = self.nodes.get(b);
        if !node.is_up() {
            return Ok(Answer::Down);
        }
        if epoch_in(node.role) == Some(epoch) {
            return Ok(Answer::Known);
        }
        if self.registry.leader.0 != broker.0 {
            self.nodes.at_mut(b).role = Role::Follows(epoch);
            return Ok(Answer::Follows(epoch as u64));
        }
        if !is_new(node.last_epoch(), epoch) {
            return Ok(Answer::NeedsElection(epoch as u64));
        }
        self.lead(b, epoch)
    }

    /// Lets a broker lead an epoch that its leader epochs don't have.
    fn lead(&mut self, b: usize, epoch: u32) -> Result<Answer, AllocError>
        requires node { CanStop self.old b }
        requires few { epoch < 2 ^ 31 }
        requires new { AtNode self.old b (λ x. MayLead x epoch) }
        ensures row { IfOk result (λ answer. AtNode self.old b
            (λ x. LeadRow D.content D.control self.old b x epoch answer self.new)) }
        ensures err { OnErr result (KeepsPartition D.content D.control self.old self.new) }
    {
        let mark = self.registry.mark;
        let node = self.nodes.at_mut(b);
        match node.log.lead(epoch) {
            Ok(end) => {
                node.role = Role::Leads(epoch);
                node.known_high_watermark = mark.min(end);
                Ok(Answer::Leads(epoch as u64))
            }
            Err(Trouble::Failed) => {
                node.note_stop();
                Ok(Answer::DiskFault)
            }
            Err(Trouble::NoMemory) => Err(AllocError),
        }
    }

    /// Acknowledges a broker's flushed end.
    pub(crate) fn ack(&mut self, broker: BrokerId) -> Answer
        requires node { broker.0 < length self.old.nodes }
        requires replica { broker.0 < length self.old.registry.replicas }
        ensures { AtNode self.old broker.0 (λ x. AckRow self.old broker.0 x result self.new) }
    {
        let b = broker.0 as usize;
        let node = self.nodes.get(b);
        if !node.is_up() {
            return Answer::Down;
        }
        let Some(epoch) = acking(node.role) else {
            return Answer::NotJoined;
        };
        let (end, flushed_end) = (node.end(), node.stable());
        match self.registry.ack(broker, epoch, flushed_end) {
            Ok(mark) => {
                self.nodes.at_mut(b).known_high_watermark = mark.min(end);
                Answer::OkAt(mark)
            }
            Err(why) => refused(why),
        }
    }

    /// Takes a broker out of the replicas in sync.
    pub(crate) fn shrink(&mut self, broker: BrokerId) -> Answer
        requires { broker.0 < length self.old.registry.replicas }
        ensures { ShrinkRow self.old broker.0 result self.new }
    {
        match self.registry.shrink(broker) {
            Ok(()) => Answer::Ok,
            Err(why) => refused(why),
        }
    }

    /// Takes a broker back to the replicas in sync.
    pub(crate) fn expand(&mut self, broker: BrokerId) -> Answer
        requires node { broker.0 < length self.old.nodes }
        requires replica { broker.0 < length self.old.registry.replicas }
        ensures { AtNode self.old broker.0 (λ x. ExpandRow self.old broker.0 x result self.new) }
    {
        let up = self.nodes.get(broker.0 as usize).is_up();
        match self.registry.expand(broker, up) {
            Ok(()) => Answer::Ok,
            Err(why) => refused(why),
        }
    }

    /// Lets a leader raise the log start offset.
    pub(crate) fn raise(&mut self, b: usize, start: u64) -> Answer
        requires { b < length self.old.nodes }
        ensures { AtNode self.old b (λ x. RaiseRow self.old b x start result self.new) }
    {
        let node = self.nodes.get(b);
        if !node.is_up() {
            return Answer::Down;
        }
        let Some(epoch) = leading(node.role) else {
            return Answer::NotLeader;
        };
        match self.registry.raise(epoch, start) {
            Ok(start) => Answer::OkAt(start),
            Err(why) => refused(why),
        }
    }
}

/// Whether an epoch is above the last one of a line.
fn is_new(last: Option<u32>, epoch: u32) -> bool
    ensures new { result ≡ true → ForSome last (λ e. e < epoch) }
    ensures old { result ≡ false → ForSome last (λ e. e < epoch) → ⊥ }
{
    match last {
        Some(last) => last < epoch,
        None => true,
    }
}
