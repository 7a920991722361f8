//! The partitions of a script: schedules and faults are added line by line, the lists of actors at the end.

ghost use Rattle.std.specs.Prelude.{◌≡◌, ℕ, ◌≤◌, length, take, IfOk, OnOk};
ghost use Rattle.script_lang.specs.Script.{empty_part, empty_parts, slot_at, with_pace, parts_stepped, with_fault};
ghost use Rattle.script_lang.specs.Script.{part_with, parts_with_list, parts_with_lists};

use crate::actors::{Actors, Slot};
use crate::fault::Fault;
use crate::script::PartScript;
use plain_log::{ActorList, Order, Pace};
use std::alloc::{AllocError, Global};
use std::marker::Model;
use tier_base::{ActorId, Items, PartitionId};

/// The 64 partitions, which contracts see as a list.
#[derive(Drop)]
pub struct Partitions {
    parts: Vec<PartScript>,
}

impl Model for Partitions {
    ghost use Rattle.std.specs.Prelude.{List};
    ghost use Rattle.script_lang.specs.declared.script.PartScript.{PartScript};

    ghost Value = { List PartScript };

    ghost view = { λ p. p.parts.items };
}

/// Returns a partition without lists, schedule and faults.
fn empty(alloc: Global, partition: u16) -> PartScript
    ensures { result ≡ empty_part partition }
{
    PartScript {
        partition: PartitionId(partition),
        lists: Items::new(alloc),
        schedule: Items::new(alloc),
        faults: Items::new(alloc),
    }
}

impl PartScript {
    /// Appends an actor's list, and lets the schedule step the actor to its end.
    fn put_list(&mut self, actor: ActorId, orders: Items<Order>) -> Result<(), AllocError>
        requires { length orders ≤ 65536 }
        ensures { OnOk result (self.new ≡ part_with self.old actor.0 orders) }
    {
        let number = orders.len() as u32;
        self.lists.push(ActorList { actor, orders })?;
        self.schedule.push(Pace::Until { actor, number })
    }
}

impl Partitions {
    /// Returns partitions without lists, schedules and faults.
    pub fn new(alloc: Global) -> Result<Partitions, AllocError>
        ensures { IfOk result (λ parts. parts ≡ empty_parts 0 64) }
    {
        let mut parts = Vec::new(alloc);
        for partition in 0u16..64 {
            parts.push(empty(alloc, partition))?;
        }
        Ok(Partitions { parts })
    }

    /// Appends a pace to a partition's schedule.
    pub fn put_pace(&mut self, partition: PartitionId, pace: Pace) -> Result<(), AllocError>
        ensures { OnOk result (self.new ≡ with_pace self.old partition.0 pace) }
    {
        match self.parts.get_mut(partition.0 as usize) {
            Some(part) => part.schedule.push(pace),
            None => Ok(()),
        }
    }

    /// Steps an actor until it has answered this many orders, unless the last one is a `later` line.
    pub fn step(
        &mut self,
        at_once: bool,
        actor: ActorId,
        number: u32,
        partition: PartitionId,
    ) -> Result<(), AllocError>
        ensures { OnOk result (self.new ≡ parts_stepped self.old at_once actor number partition.0) }
    {
        if at_once {
            self.put_pace(partition, Pace::Until { actor, number })?;
        }
        Ok(())
    }

    /// Appends a fault to a partition's faults.
    pub fn put_fault(&mut self, partition: PartitionId, fault: Fault) -> Result<(), AllocError>
        ensures { OnOk result (self.new ≡ with_fault self.old partition.0 fault) }
    {
        match self.parts.get_mut(partition.0 as usize) {
            Some(part) => part.faults.push(fault),
            None => Ok(()),
        }
    }

    /// Adds an actor's list to its partition.
    fn put_list(&mut self, actor: ActorId, slot: Slot) -> Result<(), AllocError>
        requires { length slot.orders ≤ 65536 }
        ensures { OnOk result (self.new ≡ parts_with_list self.old actor.0 slot.partition slot.orders) }
    {
        let Some(partition) = slot.partition else {
            return Ok(());
        };
        match self.parts.get_mut(partition.0 as usize) {
            Some(part) => part.put_list(actor, slot.orders),
            None => Ok(()),
        }
    }

    /// Adds each actor's list to its partition, and returns the first `count` partitions.
    pub fn with_lists(self, actors: Actors, count: u16) -> Result<Items<PartScript>, AllocError>
        requires { (a : ℕ) → length (slot_at actors a).orders ≤ 65536 }
        ensures { IfOk result (λ parts. parts ≡ take count (parts_with_lists self 0 actors)) }
    {
        let mut partitions = self;
        let mut actor: u16 = 0;
        for slot in actors.into_slots() {
            partitions.put_list(ActorId(actor), slot)?;
            actor = actor.saturating_add(1);
        }
        let mut parts = partitions.parts;
        parts.truncate(count as usize);
        Ok(Items::from_vec(parts))
    }
}
