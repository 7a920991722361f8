//! What the turns of commands work on: the registry, the brokers with their logs, and the clock.
//!
//! Each command has a method of its own, which makes its tests in their order. Where it finds no memory nothing that is
//! seen has changed. A fault of a broker's disk in a write stops the broker.

ghost use Rattle.std.specs.Prelude.{◌≡◌, ◌<◌, ◌≤◌, ◌+◌, ◌^◌, true, length, Some, IfOk, OnErr, IsTrue};
ghost use Rattle.broker_log.specs.Seen.{line_in, incarnation_in, settings_in};
ghost use Rattle.epoch_line.specs.Line.{last_epoch};
ghost use Rattle.plain_log.specs.Orders.{IsInRange};
ghost use Rattle.laws_partition.specs.declared.start_snapshot.Turned.TheVariants.{Answers};
ghost use Rattle.partition_commands.specs.Partition.{AtNode, CanStop, KeepsPartition, stopped, is_up, end_of};
ghost use Rattle.partition_commands.specs.Partition.{flushed_end_of, line_of, local_of, open_size_of};
ghost use Rattle.partition_commands.specs.Turns.{IsOfTier, takes_memory, FirstRow};
ghost use Rattle.partition_commands.specs.TurnsOfLog.{Notes};
ghost use Rattle.partition_commands.specs.Sound.{SoundPartition};

use broker_log::BrokerLog;
use disk_model::Disk;
use epoch_line::Line;
use laws_partition::{LocalStart, StartSnapshot, Taken, Turned};
use plain_log::{Answer, Command, Order, Registry, Role};
use record_batch::Checked;
use std::alloc::{AllocError, Global};
use tier_base::{Items, Settings};

/// A broker over a disk, which is up as long as its log is open.
#[derive(Drop)]
pub struct Node<D: Disk> {
    /// How often it has stopped.
    pub stops: u64,
    pub role: Role,
    /// Its log, or its disk alone while it is down.
    pub log: BrokerLog<D>,
    /// The high watermark that it knows, as far as its log goes.
    pub known_high_watermark: u64,
}

/// The registry, the brokers, the partition's clock in milliseconds, whether segments are copied to the remote tier,
/// and whether those that are chosen for it are packed, so that each has one object there.
#[derive(Drop)]
pub struct PartitionState<D: Disk> {
    pub registry: Registry,
    pub nodes: Items<Node<D>>,
    pub clock: i64,
    pub copying: bool,
    pub packed: bool,
}

impl<D: Disk> Node<D> {
    /// Whether it is up.
    pub fn is_up(&self) -> bool
        ensures { result ≡ is_up self.now }
    {
        self.log.is_up()
    }

    /// Its log end offset, 0 while it is down.
    pub fn end(&self) -> u64
        ensures { result ≡ end_of self.now }
    {
        self.log.end().unwrap_or(0)
    }

    /// Its flushed end, 0 while it is down.
    pub fn stable(&self) -> u64
        ensures { result ≡ flushed_end_of self.now }
    {
        self.log.stable().unwrap_or(0)
    }

    /// Where its local log begins, 0 while it is down.
    pub fn local_start(&self) -> u64
        ensures is { result ≡ local_of self.now }
        ensures low { result ≤ 2 ^ 62 }
    {
        self.log.local_start().unwrap_or(0)
    }

    /// The bytes of its open segment, 0 while it is down.
    pub fn open_size(&self) -> u64
        ensures { result ≡ open_size_of self.now }
    {
        self.log.open_size().unwrap_or(0)
    }

    /// Its leader epochs.
    pub fn line(&self) -> &Line
        requires { is_up self.now ≡ true }
        ensures { Some result.now ≡ line_in self.now.log }
    {
        match self.log.line() {
            Some(line) => line,
            // The log of a broker that is up is open.
            None => unreachable!(),
        }
    }

    /// How often its log was opened.
    pub fn incarnation(&self) -> u32
        requires { is_up self.now ≡ true }
        ensures { Some result ≡ incarnation_in self.now.log }
    {
        match self.log.incarnation() {
            Some(incarnation) => incarnation,
            // The log of a broker that is up is open.
            None => unreachable!(),
        }
    }

    /// The settings of its log.
    pub fn settings(&self) -> Settings
        requires { is_up self.now ≡ true }
        ensures { Some result ≡ settings_in self.now.log }
    {
        match self.log.settings() {
            Some(settings) => settings,
            // The log of a broker that is up is open.
            None => unreachable!(),
        }
    }

    /// A copy of its leader epochs, the empty one while it is down.
    pub(crate) fn copy_line(&self, alloc: Global) -> Result<Line, AllocError>
        ensures { IfOk result (λ line. line ≡ line_of self.now) }
    {
        match self.log.line() {
            Some(line) => line.copy(alloc),
            None => Ok(Line::new(alloc)),
        }
    }

    /// The last leader epoch of its leader epochs.
    pub(crate) fn last_epoch(&self) -> Option<u32>
        ensures { result ≡ last_epoch (line_of self.now) }
    {
        match self.log.line() {
            Some(line) => line.last_epoch(),
            None => None,
        }
    }

    /// Records a stop: the broker does nothing, and knows no high watermark.
    pub(crate) fn note_stop(&mut self)
        requires { self.old.stops < 18446744073709551615 }
        ensures { self.new ≡ record (stopped self.old) { log = self.old.log } }
    {
        self.stops += 1;
        self.role = Role::Idle;
        self.known_high_watermark = 0;
    }
}

impl<D: Disk> PartitionState<D> {
    /// What an actor's state has of a command of a broker that begins.
    pub fn notes(&self, alloc: Global, b: usize) -> StartSnapshot
        requires { b < length self.now.nodes }
        ensures { AtNode self.now b (λ x. Notes self.now x result) }
    {
        let node = self.nodes.get(b);
        StartSnapshot {
            stops: node.stops,
            role: node.role,
            end: node.end(),
            start: self.registry.start,
            batches: Taken::none(),
            wanted: LocalStart::new(0),
            line: Line::new(alloc),
        }
    }

    /// Carries out the first turn of a command that the remote tier has no part in. What is known of a check is
    /// used where the command's bytes are those that were checked. Fails only if memory runs out.
    #[tactic(auto, using(crate::proofs::Writes::can_stop))]
    pub fn first_turn(
        &mut self,
        alloc: Global,
        order: &Order,
        known: Option<&Checked>,
    ) -> Result<Turned, AllocError>
        requires node { CanStop self.old order.now.broker.0 }
        requires sound { SoundPartition (length self.old.nodes) self.old }
        requires fit { IsInRange order.now.command }
        requires own { IsOfTier order.now.command → ⊥ }
        ensures row { IfOk result (λ turned. AtNode self.old order.now.broker.0 (λ x.
            FirstRow D.content D.control self.old order.now.broker.0 x order.now.command turned self.new)) }
        ensures err { OnErr result (KeepsPartition D.content D.control self.old self.new) }
        ensures wants { OnErr result (IsTrue (takes_memory order.now.command)) }
    {
        let (broker, b) = (order.broker, order.broker.0 as usize);
        match &order.command {
            Command::Append(recs) => Ok(at_once(self.append(alloc, b, recs.as_slice())?)),
            Command::Raw(bytes) => Ok(at_once(self.raw(alloc, b, bytes.as_slice(), known)?)),
            Command::Flush => Ok(at_once(self.flush(b)?)),
            Command::Roll => Ok(at_once(self.roll(b)?)),
            Command::Elect => Ok(at_once(self.elect(broker))),
            Command::Unclean => Ok(at_once(self.unclean(broker))),
            Command::Learn => Ok(at_once(self.learn(broker)?)),
            Command::Ack => Ok(at_once(self.ack(broker))),
            Command::Shrink => Ok(at_once(self.shrink(broker))),
            Command::Expand => Ok(at_once(self.expand(broker))),
            Command::Raise { start } => Ok(at_once(self.raise(b, *start))),
            Command::Clock { ms } => Ok(at_once(self.set_clock(*ms))),
            Command::Pack(on) => Ok(at_once(self.set_packed(*on))),
            Command::Copying(on) => Ok(at_once(self.set_copying(*on))),
            Command::Stop => Ok(at_once(self.stop(b))),
            Command::Up => Ok(at_once(self.up(b)?)),
            Command::Join => self.join(alloc, b),
            Command::Follow { limit } => self.follow(alloc, b, *limit),
            Command::Fetch { offset, limit } => self.fetch(alloc, b, *offset, *limit),
            Command::Offset(which) => Ok(at_once(self.offset(b, *which))),
            // The remote tier has a part in these: `own`.
            Command::Copy | Command::Trim | Command::Expire => unreachable!(),
        }
    }
}

/// What the first turn of a command came to that has no other.
fn at_once(answer: Answer) -> Turned
    ensures { result ≡ Answers answer }
{
    Turned::Answers(answer)
}
