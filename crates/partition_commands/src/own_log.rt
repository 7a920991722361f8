//! Commands on a broker's own log: append, raw, flush, roll, fetch.

ghost use Rattle.std.specs.Prelude.{◌≡◌, ◌∷◌, [], ◌<◌, ◌≤◌, ◌+◌, ◌^◌, true, length, Err, IsOk, IfOk, IsErrOf, OnErr};
ghost use Rattle.log_terms.specs.Batch.{last_offset_delta_of};
ghost use Rattle.record_batch.specs.declared.refusal.BatchRefusal.{BatchRefusal as BatchCause};
ghost use Rattle.record_batch.specs.Build.{built, IsBuildable};
ghost use Rattle.record_batch.specs.Check.{checked};
ghost use Rattle.record_batch.specs.Stamp.{stamped, SetsBaseAndEpoch};
ghost use Rattle.partition_commands.specs.Partition.{AtNode, CanStop, KeepsPartition};
ghost use Rattle.partition_commands.specs.TurnsOfLog.{AppendRow, RawRow, MayPut, PutBatchRow, FlushRow};
ghost use Rattle.partition_commands.specs.TurnsOfLog.{RollRow, MayDropFirst, DropRow};
ghost use Rattle.partition_commands.specs.TurnsOfFetch.{MayGive, GiveRow, FetchTurn};
ghost use Rattle.partition_commands.specs.Sound.{SoundPartition};

use crate::partition_state::PartitionState;
use crate::roles::leading;
use broker_log::{AppendRefusal, ReadRefusal, RollRefusal};
use disk_model::Disk;
use laws_partition::Turned;
use plain_log::{Answer, Place, Tier};
use record_batch::{
    BatchRefusal, BuildRefusal, Checked, Rec, build, built_head_tells, check_known,
    checked_is_batch, stamp, stamp_sets_base_and_epoch, stamped_is_checked,
};
use std::alloc::{AllocError, Global};
use tier_base::{OFFSET_LIMIT, Trouble};

/// Checks bytes from outside, or takes what is known of them, and answers how many records the batch has.
fn count_checked(bytes: &[u8], known: Option<&Checked>) -> Result<u32, BatchRefusal>
    ensures ok { IfOk result (λ count.
        IsOk (checked bytes.now) × (count ≡ last_offset_delta_of bytes.now + 1) × (61 ≤ length bytes.now)) }
    ensures err { (cause : BatchCause) → IsErrOf result cause → checked bytes.now ≡ Err cause }
{
    checked_is_batch();
    let head = check_known(bytes, known)?;
    Ok(head.last_offset_delta.cast_unsigned() + 1)
}

/// Copies a batch, placed at a base offset and in a leader epoch.
fn placed(alloc: Global, bytes: &[u8], base: u64, epoch: u32) -> Result<Vec<u8>, AllocError>
    requires { 61 ≤ length bytes.now }
    ensures is { IfOk result (λ batch. batch.items ≡ stamped bytes.now base epoch) }
    ensures fields { IfOk result (λ batch. SetsBaseAndEpoch bytes.now base epoch) }
{
    stamp_sets_base_and_epoch();
    let mut batch = Vec::from_slice(alloc, bytes)?;
    stamp(batch.as_mut_slice(), base, epoch);
    Ok(batch)
}

impl<D: Disk> PartitionState<D> {
    /// Appends the batch of these records to the leader's log.
    pub(crate) fn append(
        &mut self,
        alloc: Global,
        b: usize,
        recs: &[Rec],
    ) -> Result<Answer, AllocError>
        requires node { CanStop self.old b }
        requires sound { SoundPartition (length self.old.nodes) self.old }
        requires fit { IsBuildable recs.now }
        ensures row { IfOk result (λ answer. AtNode self.old b (λ x.
            AppendRow D.content D.control self.old b x (built recs.now) answer self.new)) }
        ensures err { OnErr result (KeepsPartition D.content D.control self.old self.new) }
    {
        built_head_tells();
        let node = self.nodes.get(b);
        if !node.is_up() {
            return Ok(Answer::Down);
        }
        let Some(epoch) = leading(node.role) else {
            return Ok(Answer::NotLeader);
        };
        let base = node.end();
        let end = base.saturating_add(recs.len() as u64);
        if end > OFFSET_LIMIT {
            return Ok(Answer::LastOffset);
        }
        let batch = match build(alloc, base, epoch, recs) {
            Ok(batch) => batch,
            Err(BuildRefusal::NoMemory) => return Err(AllocError),
            // A batch of these records can be built: `fit`.
            Err(BuildRefusal::NoRecords | BuildRefusal::TooLarge) => unreachable!(),
        };
        self.put(b, batch.as_slice(), base, end - 1, epoch)
    }

    /// Appends bytes from outside to the leader's log, where they are a batch. What is known of the check of equal
    /// bytes is used.
    pub(crate) fn raw(
        &mut self,
        alloc: Global,
        b: usize,
        bytes: &[u8],
        known: Option<&Checked>,
    ) -> Result<Answer, AllocError>
        requires node { CanStop self.old b }
        requires sound { SoundPartition (length self.old.nodes) self.old }
        ensures row { IfOk result (λ answer. AtNode self.old b (λ x.
            RawRow D.content D.control self.old b x bytes.now answer self.new)) }
        ensures err { OnErr result (KeepsPartition D.content D.control self.old self.new) }
    {
        stamped_is_checked();
        let node = self.nodes.get(b);
        if !node.is_up() {
            return Ok(Answer::Down);
        }
        let Some(epoch) = leading(node.role) else {
            return Ok(Answer::NotLeader);
        };
        let count = match count_checked(bytes, known) {
            Ok(count) => count,
            Err(why) => return Ok(Answer::Refused(why)),
        };
        let base = node.end();
        let end = base.saturating_add(count as u64);
        if end > OFFSET_LIMIT {
            return Ok(Answer::LastOffset);
        }
        let batch = placed(alloc, bytes, base, epoch)?;
        self.put(b, batch.as_slice(), base, end - 1, epoch)
    }

    /// Puts a batch at the end of the leader's log, where it begins at this base and ends with this last offset.
    #[tactic(auto, using(crate::proofs::Writes::set_same))]
    fn put(
        &mut self,
        b: usize,
        batch: &[u8],
        base: u64,
        last: u64,
        epoch: u32,
    ) -> Result<Answer, AllocError>
        requires node { CanStop self.old b }
        requires fits { AtNode self.old b (λ x. MayPut x batch.now base last epoch) }
        ensures row { IfOk result (λ answer. AtNode self.old b (λ x.
            PutBatchRow D.content D.control self.old b x batch.now base last epoch answer self.new)) }
        ensures err { OnErr result (KeepsPartition D.content D.control self.old self.new) }
    {
        let node = self.nodes.at_mut(b);
        match node.log.append(batch) {
            Ok(_) => Ok(Answer::OkSpan(base, last, epoch as u64)),
            Err(AppendRefusal::LastOffset) => Ok(Answer::LastOffset),
            Err(AppendRefusal::TooManySegments) => Ok(Answer::TooManySegments),
            Err(AppendRefusal::DiskFault) => {
                node.note_stop();
                Ok(Answer::DiskFault)
            }
            Err(AppendRefusal::NoMemory) => Err(AllocError),
        }
    }

    /// Makes all of a broker's log flushed.
    pub(crate) fn flush(&mut self, b: usize) -> Result<Answer, AllocError>
        requires { CanStop self.old b }
        ensures row { IfOk result (λ answer. AtNode self.old b
            (λ x. FlushRow D.content D.control self.old b x answer self.new)) }
        ensures err { OnErr result (KeepsPartition D.content D.control self.old self.new) }
    {
        if !self.nodes.get(b).is_up() {
            return Ok(Answer::Down);
        }
        let node = self.nodes.at_mut(b);
        match node.log.flush() {
            Ok(end) => Ok(Answer::OkAt(end)),
            Err(Trouble::Failed) => {
                node.note_stop();
                Ok(Answer::DiskFault)
            }
            Err(Trouble::NoMemory) => Err(AllocError),
        }
    }

    /// Closes a broker's open segment, and begins the next at the log's end.
    #[tactic(auto, using(crate::proofs::Writes::set_same))]
    pub(crate) fn roll(&mut self, b: usize) -> Result<Answer, AllocError>
        requires { CanStop self.old b }
        ensures row { IfOk result (λ answer. AtNode self.old b
            (λ x. RollRow D.content D.control self.old b x answer self.new)) }
        ensures err { OnErr result (KeepsPartition D.content D.control self.old self.new) }
    {
        if !self.nodes.get(b).is_up() {
            return Ok(Answer::Down);
        }
        let node = self.nodes.at_mut(b);
        match node.log.roll() {
            Ok(base) => Ok(Answer::OkAt(base)),
            Err(RollRefusal::EmptySegment) => Ok(Answer::EmptySegment),
            Err(RollRefusal::TooManySegments) => Ok(Answer::TooManySegments),
            Err(RollRefusal::DiskFault) => {
                node.note_stop();
                Ok(Answer::DiskFault)
            }
            Err(RollRefusal::NoMemory) => Err(AllocError),
        }
    }

    /// Drops the first closed segment of a broker's local log. Fails only if memory runs out.
    pub fn drop_first(&mut self, b: usize) -> Result<Answer, AllocError>
        requires node { CanStop self.old b }
        requires may { AtNode self.old b MayDropFirst }
        ensures row { IfOk result (λ answer. AtNode self.old b
            (λ x. DropRow D.content D.control self.old b x answer self.new)) }
        ensures err { OnErr result (KeepsPartition D.content D.control self.old self.new) }
    {
        let node = self.nodes.at_mut(b);
        match node.log.drop_first() {
            Ok((base, last)) => Ok(Answer::Dropped(base, last)),
            Err(Trouble::Failed) => {
                node.note_stop();
                Ok(Answer::DiskFault)
            }
            Err(Trouble::NoMemory) => Err(AllocError),
        }
    }

    /// Gives the run at an offset of the leader's log. Below the local log it is to be looked for in the remote tier.
    pub(crate) fn fetch(
        &mut self,
        alloc: Global,
        b: usize,
        offset: u64,
        limit: u32,
    ) -> Result<Turned, AllocError>
        requires node { b < length self.old.nodes }
        ensures row { IfOk result (λ turned. AtNode self.old b (λ x.
            FetchTurn D.content D.control self.old b x offset limit turned self.new)) }
        ensures err { OnErr result (KeepsPartition D.content D.control self.old self.new) }
    {
        let node = self.nodes.get(b);
        if !node.is_up() {
            return Ok(Turned::Answers(Answer::Down));
        }
        if leading(node.role).is_none() {
            return Ok(Turned::Answers(Answer::NotLeader));
        }
        let (start, end, known) = (self.registry.start, node.end(), node.known_high_watermark);
        if offset < start || offset > end {
            return Ok(Turned::Answers(Answer::OutOfRange(start, end)));
        }
        if offset >= known {
            return Ok(Turned::Answers(Answer::Empty));
        }
        if offset < node.local_start() {
            return Ok(Turned::Begins(self.notes(alloc, b)));
        }
        Ok(Turned::Answers(self.give(b, offset, limit, known)?))
    }

    /// Reads the run at an offset below the high watermark that the leader knows.
    fn give(&mut self, b: usize, offset: u64, limit: u32, known: u64) -> Result<Answer, AllocError>
        requires node { AtNode self.old b (λ x. MayGive x offset known) }
        ensures row { IfOk result (λ answer. AtNode self.old b (λ x.
            GiveRow D.content D.control self.old b x offset limit answer self.new)) }
        ensures err { OnErr result (KeepsPartition D.content D.control self.old self.new) }
    {
        let node = self.nodes.at_mut(b);
        match node.log.read_run(offset, limit as u64, known) {
            Ok(run) => Ok(Answer::Run {
                tier: Tier::Local(run.base),
                size: run.bytes.len() as u64,
                stop: run.stop,
                bytes: run.bytes,
            }),
            Err(ReadRefusal::Damaged { file, at }) => Ok(Answer::Damaged(Place::File(file), at)),
            Err(ReadRefusal::DiskFault) => Ok(Answer::DiskFault),
            Err(ReadRefusal::NoMemory) => Err(AllocError),
        }
    }
}
