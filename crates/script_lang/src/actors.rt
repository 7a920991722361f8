//! What the lines so far give each actor: its partition, and its orders.

ghost use Rattle.std.specs.Prelude.{◌≡◌, ◌<◌, replicate, length, IfOk, OnOk, OnErr};
ghost use Rattle.script_lang.specs.Script.{idle, slot_at, with_order};

use plain_log::Order;
use std::alloc::{AllocError, Global};
use std::marker::Model;
use tier_base::{ActorId, Items, PartitionId};

/// The partition and the orders of an actor.
#[derive(Debug, Drop)]
pub struct Slot {
    pub partition: Option<PartitionId>,
    pub orders: Items<Order>,
}

/// The 64 actors, which contracts see as a list.
#[derive(Drop)]
pub struct Actors {
    slots: Vec<Slot>,
}

impl Model for Actors {
    ghost use Rattle.std.specs.Prelude.{◌≡◌, List, length};
    ghost use Rattle.script_lang.specs.declared.actors.Slot.{Slot};

    ghost Value = { List Slot };

    ghost view = { λ a. a.slots.items };

    ghost invariant = { λ a. length a.slots.items ≡ 64 };
}

impl Actors {
    /// Returns actors without orders.
    pub fn new(alloc: Global) -> Result<Actors, AllocError>
        ensures { IfOk result (λ actors. actors ≡ replicate 64 idle) }
    {
        let mut slots = Vec::new(alloc);
        for _ in 0u32..64 {
            slots.push(Slot {
                partition: None,
                orders: Items::new(alloc),
            })?;
        }
        Ok(Actors { slots })
    }

    /// Gives the partition of an actor that has orders.
    pub fn partition(&self, actor: ActorId) -> Option<PartitionId>
        requires { actor.0 < 64 }
        ensures { result ≡ (slot_at self.now actor.0).partition }
    {
        self.slots[actor.0 as usize].partition
    }

    /// Counts the orders of an actor.
    pub fn len(&self, actor: ActorId) -> usize
        requires { actor.0 < 64 }
        ensures { result ≡ length (slot_at self.now actor.0).orders }
    {
        self.slots[actor.0 as usize].orders.len()
    }

    /// Appends an order to an actor's list.
    pub fn put(
        &mut self,
        actor: ActorId,
        partition: PartitionId,
        order: Order,
    ) -> Result<(), AllocError>
        requires { actor.0 < 64 }
        ensures ok { OnOk result (self.new ≡ with_order self.old actor.0 partition order) }
        ensures err { OnErr result (self.new ≡ self.old) }
    {
        let slot = &mut self.slots[actor.0 as usize];
        slot.orders.push(order)?;
        slot.partition = Some(partition);
        Ok(())
    }

    /// Returns the actors in order.
    pub fn into_slots(self) -> Vec<Slot>
        ensures slots { result.items ≡ self }
        ensures all { length result.items ≡ 64 }
    {
        self.slots
    }
}
