//! The world: a turn is the next one of an actor's command, carried out and entered.
//!
//! The journal's room is made for all entries at the beginning, so a turn that finds no memory has entered nothing.

ghost use Rattle.std.specs.Prelude.{◌≡◌, ◌<◌, ◌+◌, ◌^◌, [], length, replicate, IfOk, IfErr, IsTrue, ◌↔◌};
ghost use Rattle.tier_base.specs.Device.{Lasts};
ghost use Rattle.plain_log.specs.Fresh.{fresh as fresh_plain};
ghost use Rattle.plain_log.specs.Orders.{AreListsFor, IsConfig};
ghost use Rattle.laws_partition.specs.Sound.{turns_left as entries_left};
ghost use Rattle.partition_commands.specs.Fresh.{AreFreshDisks, AreInfallibleDisks, AreDisksOf};
ghost use Rattle.partition_commands.specs.Fresh.{DisksTell, AllSeen, RefusesDisks};
ghost use Rattle.partition_commands.specs.declared.refusal.WorldRefusal.TheVariants as refusal;
ghost use Rattle.partition_world.specs.Fresh.{IsFresh, IsNewWorld, IsSeenEmpty, AreFreshBooks, fresh_broker_tier};
ghost use Rattle.plain_log.specs.declared.state.State.{State};
ghost use Rattle.partition_commands.specs.Cold.{DisksReopen};
ghost use Rattle.partition_commands.specs.Disks.{AllReopen};
ghost use Rattle.partition_world.specs.Cold.{IsReopened, AreCold};
ghost use Rattle.partition_world.specs.Turn.{Steps};
ghost use Rattle.partition_world.specs.Central.{IsCentral, KeepsCentral};
ghost use Rattle.partition_world.specs.Left.{IsCentralLeft, KeepsCentralLeft};
ghost use Rattle.meta_log.specs.Content.{LeavesTold};
ghost use Rattle.partition_world.specs.Reaches.{HasAnswered};
ghost use Rattle.partition_world.specs.Ready.{IsWanted, Prepares};

use crate::actor_state::ActorState;
use crate::desk::{count_entries, enter, fresh_desk, place_of};
use crate::laws::{
    fresh_is_central, fresh_is_central_left, reopens_central, steps_keep_central, steps_keep_left,
};
use crate::ready::{Ready, Want, prepared, want_of};
use crate::tier::{BrokerTierState, Devices, RemoteTier};
use disk_model::Disk;
use index_cache::IndexCache;
use laws_partition::Stepped;
use meta_log::MetaLog;
use object_store::Store;
use partition_commands::{PartitionState, WorldRefusal};
use plain_log::{ActorList, Config, Journal, Registry};
use remote_view::View;
use std::alloc::{AllocError, Global};
use std::marker::Model;
use tier_base::{ActorId, Items, PartitionId};

/// How many remote segments' indexes a broker keeps.
const INDEXES: usize = 64;

/// A partition with its lists of commands and its journal.
#[derive(Drop)]
pub struct World<D: Disk, S: Store, M: MetaLog> {
    partition: PartitionId,
    config: Config,
    lists: Items<ActorList>,
    partition_state: PartitionState<D>,
    tier: RemoteTier<S, M>,
    desk: Items<ActorState>,
    journal: Journal,
    /// Room for the disks, which the brokers have until the world is closed.
    room: Vec<D>,
}

impl<D: Disk, S: Store, M: MetaLog> Model for World<D, S, M> {
    ghost use Rattle.std.specs.Prelude.{◌≡◌, ◌≤◌, [], length, vec_capacity};
    ghost use Rattle.partition_world.specs.Whole.{Whole};
    ghost use Rattle.partition_world.specs.Sound.{CanBeRun, AreCounted};

    ghost Value = { Whole D S M };

    ghost view = { λ w. record {
      partition = w.partition;
      config = w.config;
      lists = w.lists;
      partition_state = w.partition_state;
      tier = w.tier;
      desk = w.desk;
      journal = w.journal;
    } };

    ghost invariant = { λ w. CanBeRun w.config w.lists w.partition_state w.tier.broker_tiers w.desk w.journal.room
        × (w.room.items ≡ []) × (w.config.brokers ≤ vec_capacity w.room)
        × AreCounted w.lists w.partition_state w.tier.broker_tiers w.desk (length w.journal.items) };
}

impl<D: Disk, S: Store, M: MetaLog> World<D, S, M> {
    /// Makes a world where nothing has happened, whose brokers have these disks, in their order. The first broker leads
    /// epoch 0. From then on the devices' planned calls fail.
    pub fn fresh(
        alloc: Global,
        partition: PartitionId,
        config: Config,
        lists: Items<ActorList>,
        devices: Devices<D, S, M>,
    ) -> Result<World<D, S, M>, (Devices<D, S, M>, WorldRefusal)>
        requires brokers { IsConfig config }
        requires fit { AreListsFor config lists }
        requires count { length devices.disks.items ≡ config.brokers }
        requires disks { AreFreshDisks D.content D.control devices.disks.items }
        ensures fresh { IfOk result (IsFresh D.Disk S.Store M.MetaLog partition config lists
            devices.disks.items devices.store devices.meta) }
        ensures new { IfOk result (IsNewWorld lists) }
        ensures told { IfOk result (λ w. DisksTell D.content devices.disks.items
            → AllSeen D.content w.partition_state.nodes) }
        ensures central { IfOk result (λ w. IsSeenEmpty D.Disk S.Store M.MetaLog w
            → IsCentral D.Disk S.Store M.MetaLog (fresh_plain config) w) }
        ensures central_left { IfOk result (λ w. IsSeenEmpty D.Disk S.Store M.MetaLog w
            → LeavesTold (M.content w.tier.meta)
            → IsCentralLeft D.Disk S.Store M.MetaLog (fresh_plain config) w) }

        // A refusal gives the devices back. Where no call of the disks can fail it was memory.
        ensures err { IfErr result (λ e. RefusesDisks D.control D.content devices.disks.items e.0.disks.items e.1) }
        ensures store { IfErr result (λ e. e.0.store ≡ devices.store) }
        ensures meta { IfErr result (λ e. e.0.meta ≡ devices.meta) }
        ensures memory { AreInfallibleDisks D.control devices.disks.items → IfErr result (λ e. e.1 ≡ refusal.NoMemory) }
    {
        fresh_is_central::<D, S, M>();
        fresh_is_central_left::<D, S, M>();
        Self::made(alloc, partition, config, lists, devices)
    }

    fn made(
        alloc: Global,
        partition: PartitionId,
        config: Config,
        lists: Items<ActorList>,
        devices: Devices<D, S, M>,
    ) -> Result<World<D, S, M>, (Devices<D, S, M>, WorldRefusal)>
        requires brokers { IsConfig config }
        requires fit { AreListsFor config lists }
        requires count { length devices.disks.items ≡ config.brokers }
        requires disks { AreFreshDisks D.content D.control devices.disks.items }
        ensures fresh { IfOk result (IsFresh D.Disk S.Store M.MetaLog partition config lists
            devices.disks.items devices.store devices.meta) }
        ensures told { IfOk result (λ w. DisksTell D.content devices.disks.items
            → AllSeen D.content w.partition_state.nodes) }
        ensures err { IfErr result (λ e. RefusesDisks D.control D.content devices.disks.items e.0.disks.items e.1) }
        ensures store { IfErr result (λ e. e.0.store ≡ devices.store) }
        ensures meta { IfErr result (λ e. e.0.meta ≡ devices.meta) }
    {
        let Ok((journal, desk)) = fresh_books(alloc, lists.as_slice()) else {
            return Err((devices, WorldRefusal::NoMemory));
        };
        let Ok(broker_tiers) = fresh_broker_tiers(alloc, config.brokers) else {
            return Err((devices, WorldRefusal::NoMemory));
        };
        let Devices {
            mut disks,
            store,
            meta,
        } = devices;
        // The devices' plans are in force once this is done.
        let partition_state = match PartitionState::fresh(alloc, &mut disks, config.settings) {
            Ok(partition_state) => partition_state,
            Err(why) => return Err((Devices { disks, store, meta }, why)),
        };
        let mut tier = RemoteTier {
            store,
            meta,
            broker_tiers,
        };
        tier.arm();
        Ok(World {
            partition,
            config,
            lists,
            partition_state,
            tier,
            desk,
            journal,
            room: disks,
        })
    }

    /// Makes a world that is reopened with this registry over devices that were used before. All brokers are down, no
    /// broker knows anything of the remote tier, and no list has begun. No device is asked anything: the last act is to
    /// put their plans in force. Where memory runs out the devices are as they were.
    pub fn reopen(
        alloc: Global,
        partition: PartitionId,
        config: Config,
        lists: Items<ActorList>,
        devices: Devices<D, S, M>,
        registry: Registry,
    ) -> Result<World<D, S, M>, (Devices<D, S, M>, AllocError)>
        requires brokers { IsConfig config }
        requires fit { AreListsFor config lists }
        requires count { length devices.disks.items ≡ config.brokers }
        requires replicas { length registry.replicas ≡ config.brokers }
        requires epoch { registry.epoch < 2 ^ 31 }
        ensures reopened { IfOk result (IsReopened D.Disk S.Store M.MetaLog partition config lists registry
            devices.disks.items devices.store devices.meta) }

        ensures new { IfOk result (IsNewWorld lists) }

        // It has the central fact for each plain state that the devices represent, with whatever metadata events a
        // power cut may leave.
        ensures central { IfOk result (λ w. (p : State) → AreCold D.Disk S.Store M.MetaLog partition registry
            devices.disks.items devices.store devices.meta p → IsCentralLeft D.Disk S.Store M.MetaLog p w) }
        ensures disks { IfErr result (λ e. e.0.disks.items ≡ devices.disks.items) }
        ensures store { IfErr result (λ e. e.0.store ≡ devices.store) }
        ensures meta { IfErr result (λ e. e.0.meta ≡ devices.meta) }
    {
        reopens_central::<D, S, M>();
        Self::made_anew(alloc, partition, config, lists, devices, registry)
    }

    fn made_anew(
        alloc: Global,
        partition: PartitionId,
        config: Config,
        lists: Items<ActorList>,
        devices: Devices<D, S, M>,
        registry: Registry,
    ) -> Result<World<D, S, M>, (Devices<D, S, M>, AllocError)>
        requires brokers { IsConfig config }
        requires fit { AreListsFor config lists }
        requires count { length devices.disks.items ≡ config.brokers }
        requires replicas { length registry.replicas ≡ config.brokers }
        requires epoch { registry.epoch < 2 ^ 31 }
        ensures reopened { IfOk result (IsReopened D.Disk S.Store M.MetaLog partition config lists registry
            devices.disks.items devices.store devices.meta) }
        ensures disks { IfErr result (λ e. e.0.disks.items ≡ devices.disks.items) }
        ensures store { IfErr result (λ e. e.0.store ≡ devices.store) }
        ensures meta { IfErr result (λ e. e.0.meta ≡ devices.meta) }
    {
        let Ok((journal, desk)) = fresh_books(alloc, lists.as_slice()) else {
            return Err((devices, AllocError));
        };
        let Ok(broker_tiers) = fresh_broker_tiers(alloc, config.brokers) else {
            return Err((devices, AllocError));
        };
        let Devices {
            mut disks,
            store,
            meta,
        } = devices;
        // The devices' plans are in force once this is done.
        let partition_state = match PartitionState::reopen(
            alloc,
            &mut disks,
            config.settings,
            registry,
        ) {
            Ok(partition_state) => partition_state,
            Err(why) => return Err((Devices { disks, store, meta }, why)),
        };
        let mut tier = RemoteTier {
            store,
            meta,
            broker_tiers,
        };
        tier.arm();
        Ok(World {
            partition,
            config,
            lists,
            partition_state,
            tier,
            desk,
            journal,
            room: disks,
        })
    }

    /// The log of each broker that is up can be opened again from its disk, also after a power cut, and each broker has
    /// its tier state of the remote tier. It does nothing that is seen.
    pub fn reopens(&self)
        ensures disks { AllReopen D.content self.now.partition_state.nodes }
        ensures brokers { length self.now.partition_state.nodes ≡ self.now.config.brokers }
        ensures broker_tiers { length self.now.tier.broker_tiers ≡ self.now.config.brokers }
    {
        self.partition_state.reopens();
    }

    /// Lends the registry.
    pub fn registry(&self) -> &Registry
        ensures { result.now ≡ self.now.partition_state.registry }
    {
        &self.partition_state.registry
    }

    /// Gives the devices back, the disks in the list in which they came. From those of brokers that are up, or whose
    /// logs are seen, a log can be opened again, also after a power cut.
    pub fn close(self) -> Devices<D, S, M>
        ensures disks { AreDisksOf self.partition_state.nodes result.disks.items }
        ensures again { DisksReopen D.content self.partition_state.nodes result.disks.items }
        ensures store { result.store ≡ self.tier.store }
        ensures meta { result.meta ≡ self.tier.meta }
        ensures count { length result.disks.items ≡ self.config.brokers }
    {
        let World {
            partition_state,
            tier,
            room,
            ..
        } = self;
        let RemoteTier { store, meta, .. } = tier;
        let disks = partition_state.close(room);
        Devices { disks, store, meta }
    }

    /// Lends what has happened.
    pub fn journal(&self) -> &Journal
        ensures { result.now ≡ self.now.journal }
    {
        &self.journal
    }

    /// Returns what the world was made with.
    pub fn config(&self) -> &Config
        ensures { result.now ≡ self.now.config }
    {
        &self.config
    }

    /// Lends the lists of commands.
    pub fn lists(&self) -> &[ActorList]
        ensures { result.now ≡ self.now.lists }
    {
        self.lists.as_slice()
    }

    /// Returns whether an actor has answered so many of its commands, or all of them. One without a list has.
    pub fn has_answered(&self, actor: ActorId, number: u32) -> bool
        ensures { IsTrue result ↔ HasAnswered self.now actor.0 number }
    {
        let Some(place) = place_of(self.lists.as_slice(), actor) else {
            return true;
        };
        let list = self.lists.get(place);
        let actor_state = self.desk.get(place);
        number <= actor_state.number || list.orders.len() <= actor_state.number as usize
    }

    /// Returns what the next turn of an actor's commands would have made ready. Fails only if memory runs out.
    pub fn wanted(&self, alloc: Global, actor: ActorId) -> Result<Want, AllocError>
        ensures { IfOk result (IsWanted self.now actor.0) }
    {
        let Some(place) = place_of(self.lists.as_slice(), actor) else {
            return Ok(Want::Nothing);
        };
        let actor_state = self.desk.get(place);
        let list = self.lists.get(place);
        if actor_state.number as usize >= list.orders.len() {
            return Ok(Want::Nothing);
        }
        let order = list.orders.get(actor_state.number as usize);
        want_of(alloc, &actor_state.in_progress, &order.command)
    }

    /// Makes what a turn wants, without the world. Fails only if memory runs out.
    pub fn prepare(alloc: Global, want: Want) -> Result<Ready, AllocError>
        ensures { IfOk result (Prepares want) }
    {
        prepared(alloc, want)
    }

    /// Takes the next turn of an actor's commands, with nothing ready.
    pub fn step(&mut self, alloc: Global, actor: ActorId) -> Stepped
        ensures steps { Steps D.Disk S.Store M.MetaLog self.old actor.0 result self.new }
        ensures central { KeepsCentral D.Disk S.Store M.MetaLog self.old self.new }
        ensures left { KeepsCentralLeft D.Disk S.Store M.MetaLog self.old self.new }
    {
        self.step_with(alloc, actor, Ready::Nothing)
    }

    /// Takes the next turn of an actor's commands. What is ready is used where it is of what the turn works on, and
    /// dropped otherwise.
    pub fn step_with(&mut self, alloc: Global, actor: ActorId, ready: Ready) -> Stepped
        ensures steps { Steps D.Disk S.Store M.MetaLog self.old actor.0 result self.new }
        ensures central { KeepsCentral D.Disk S.Store M.MetaLog self.old self.new }
        ensures left { KeepsCentralLeft D.Disk S.Store M.MetaLog self.old self.new }
    {
        steps_keep_central::<D, S, M>();
        steps_keep_left::<D, S, M>();
        self.take_turn(alloc, actor, ready)
    }

    fn take_turn(&mut self, alloc: Global, actor: ActorId, ready: Ready) -> Stepped
        ensures { Steps D.Disk S.Store M.MetaLog self.old actor.0 result self.new }
    {
        let Some(place) = place_of(self.lists.as_slice(), actor) else {
            return Stepped::Nothing;
        };
        let actor_state = self.desk.get(place);
        let number = actor_state.number;
        let list = self.lists.get(place);
        if number as usize >= list.orders.len() {
            return Stepped::Nothing;
        }
        let order = list.orders.get(number as usize);
        let actor = list.actor;
        match self.tier.turn_at(
            alloc,
            self.partition,
            self.config,
            order,
            &mut self.desk,
            place,
            ready,
            &mut self.partition_state,
        ) {
            Ok(outcome) => enter(
                &mut self.journal,
                &mut self.desk,
                place,
                actor,
                &order.command,
                outcome,
            ),
            Err(_) => Stepped::NoMemory,
        }
    }
}

/// Makes an empty journal with room for all entries, and a desk where no list has begun.
fn fresh_books(
    alloc: Global,
    lists: &[ActorList],
) -> Result<(Journal, Items<ActorState>), AllocError>
    requires few { entries_left lists.now [] < 2 ^ 64 }
    ensures { IfOk result (λ books. AreFreshBooks lists.now books.0 books.1) }
{
    let mut journal = Journal::new(alloc);
    journal.reserve(count_entries(lists))?;
    let desk = fresh_desk(alloc, lists.len())?;
    Ok((journal, desk))
}

/// Makes the tier states of so many brokers, which know of no remote segment.
fn fresh_broker_tiers(alloc: Global, count: u16) -> Result<Items<BrokerTierState>, AllocError>
    ensures { IfOk result (λ broker_tiers. broker_tiers ≡ replicate count fresh_broker_tier) }
{
    let mut broker_tiers = Items::new(alloc);
    for _i in 0..count {
        broker_tiers.push(BrokerTierState {
            view: View::new(alloc),
            incarnation: 0,
            attempt: 0,
            cache: IndexCache::new(alloc, INDEXES)?,
        })?;
    }
    Ok(broker_tiers)
}
