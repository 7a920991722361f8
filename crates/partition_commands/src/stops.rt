//! A broker's stops and starts, the partition's clock, and whether and in which form it copies segments.

ghost use Rattle.std.specs.Prelude.{◌≡◌, ◌<◌, length, IfOk, OnErr};
ghost use Rattle.partition_commands.specs.Partition.{AtNode, CanStop, KeepsPartition};
ghost use Rattle.partition_commands.specs.Turns.{StopRow, UpRow, ClockRow, PackRow, CopyingRow};

use crate::partition_state::PartitionState;
use broker_log::OpenRefusal;
use disk_model::{Disk, FileName};
use plain_log::{Answer, Place};
use std::alloc::AllocError;

impl<D: Disk> PartitionState<D> {
    /// Stops a broker. What isn't flushed is gone when it starts again.
    pub(crate) fn stop(&mut self, b: usize) -> Answer
        requires { CanStop self.old b }
        ensures { AtNode self.old b (λ x. StopRow D.content D.control self.old b x result self.new) }
    {
        if !self.nodes.get(b).is_up() {
            return Answer::Down;
        }
        let node = self.nodes.at_mut(b);
        node.log.stop();
        node.note_stop();
        Answer::Ok
    }

    /// Lets a broker start with what it has flushed.
    pub(crate) fn up(&mut self, b: usize) -> Result<Answer, AllocError>
        requires { b < length self.old.nodes }
        ensures row { IfOk result (λ answer. AtNode self.old b
            (λ x. UpRow D.content D.control self.old b x answer self.new)) }
        ensures err { OnErr result (KeepsPartition D.content D.control self.old self.new) }
    {
        if self.nodes.get(b).is_up() {
            return Ok(Answer::IsUp);
        }
        match self.nodes.at_mut(b).log.up() {
            Ok(end) => Ok(Answer::Up(end)),
            Err(OpenRefusal::DiskFault) => Ok(Answer::DiskFault),
            Err(OpenRefusal::Damaged { file, at }) => { Ok(Answer::Damaged(Place::File(file), at)) }
            Err(OpenRefusal::LastIncarnation) => Ok(Answer::LastIncarnation),
            Err(OpenRefusal::NoMemory) => Err(AllocError),
        }
    }

    /// Sets the clock.
    pub(crate) fn set_clock(&mut self, ms: i64) -> Answer
        ensures { ClockRow self.old ms result self.new }
    {
        self.clock = ms;
        Answer::Ok
    }

    /// Lets segments that are chosen for copy from now on have one object each, or an object a part.
    pub(crate) fn set_packed(&mut self, on: bool) -> Answer
        ensures { PackRow self.old on result self.new }
    {
        self.packed = on;
        Answer::Ok
    }

    /// Lets segments be copied to the remote tier from now on, or none be chosen for it.
    pub(crate) fn set_copying(&mut self, on: bool) -> Answer
        ensures { CopyingRow self.old on result self.new }
    {
        self.copying = on;
        Answer::Ok
    }
}
