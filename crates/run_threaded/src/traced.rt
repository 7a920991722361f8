//! A world with what it was made of, and with the actors of its turns so far.

ghost use Rattle.std.specs.Prelude.{◌≡◌, ◌≢◌, ◌++◌, ◌∷◌, ℕ, [], false, true, IsTrue, ◌↔◌, OnOk, IfOk};
ghost use Rattle.laws_partition.specs.declared.actor_progress.Stepped.TheVariants.{NoMemory};
ghost use Rattle.partition_world.specs.Turn.{Steps, IsAtEnd};
ghost use Rattle.partition_world.specs.Later.{IsLater};
ghost use Rattle.partition_world.specs.Central.{KeepsCentral};
ghost use Rattle.run_threaded.specs.Traced.{LeadsFrom, IsTraced, IsTraceOf, TraceContinues, IsThreadedRun};

use bytes::Bytes;
use disk_model::Disk;
use laws_answers::{reaches_by_plan, runs_meet_no_damage};
use laws_partition::Stepped;
use meta_log::MetaLog;
use object_store::Store;
use partition_world::{Ready, World, ends_are_complete, reaches_in_turn, reaches_later};
use plain_log::{Journal, fresh_is_safe, replays_keep_safe};
use std::alloc::{AllocError, Global};
use std::marker::Model;
use tier_base::{ActorId, Items, PartitionId};

/// A partition of a script in the middle of a run.
#[derive(Drop)]
pub struct Traced<D: Disk, S: Store, M: MetaLog> {
    script: Bytes,
    place: usize,
    partition: PartitionId,
    world: World<D, S, M>,
    turns: Items<ActorId>,
    ended: bool,
}

impl<D: Disk, S: Store, M: MetaLog> Model for Traced<D, S, M> {
    ghost use Rattle.run_threaded.specs.Traced.{Trace, IsTraced};

    ghost Value = { Trace D S M };

    ghost view = { λ t. record {
      script = t.script;
      place = t.place;
      partition = t.partition;
      world = t.world;
      turns = t.turns;
      ended = t.ended;
    } };

    ghost invariant = { λ t. IsTraced D.Disk S.Store M.MetaLog t.script t.place t.partition t.world t.turns t.ended };
}

impl<D: Disk, S: Store, M: MetaLog> Traced<D, S, M> {
    /// Begins a run with the fresh world of the partition that is at this place of a script.
    pub fn of(
        alloc: Global,
        script: Bytes,
        place: usize,
        partition: PartitionId,
        world: World<D, S, M>,
    ) -> Traced<D, S, M>
        requires { LeadsFrom D.Disk S.Store M.MetaLog script place partition [] world }
        ensures { result
            ≡ record { script = script; place = place; partition = partition; world = world; turns = []; ended = false } }
    {
        Traced {
            script,
            place,
            partition,
            world,
            turns: Items::new(alloc),
            ended: false,
        }
    }

    /// Returns whether this is a run of the partition that is at this place of this script.
    pub fn is_of(&self, script: &Bytes, place: usize) -> bool
        ensures { IsTrue result ↔ IsTraceOf self.now script.now place }
    {
        self.place == place && self.script.as_slice() == script.as_slice()
    }

    /// Returns the partition's number.
    pub fn partition(&self) -> PartitionId
        ensures { result ≡ self.now.partition }
    {
        self.partition
    }

    /// Lends the world.
    pub fn world(&self) -> &World<D, S, M>
        ensures world { result.now ≡ self.now.world }
        ensures leads { IsTraced D.Disk S.Store M.MetaLog self.now.script self.now.place self.now.partition
            self.now.world
            self.now.turns self.now.ended }
    {
        &self.world
    }

    /// Lends the actors of the turns so far, in their order.
    pub fn turns(&self) -> &[ActorId]
        ensures { result.now ≡ self.now.turns }
    {
        self.turns.as_slice()
    }

    /// Returns whether a turn found no memory. From then on each does.
    pub fn ended(&self) -> bool
        ensures { result ≡ self.now.ended }
    {
        self.ended
    }

    /// Takes the next turn of an actor's commands, with nothing ready.
    pub fn step(&mut self, alloc: Global, actor: ActorId) -> Stepped
        ensures steps { result ≢ NoMemory → Steps D.Disk S.Store M.MetaLog self.old.world actor.0 result
            self.new.world }
        ensures central { result ≢ NoMemory → KeepsCentral D.Disk S.Store M.MetaLog self.old.world self.new.world }
        ensures turns { result ≢ NoMemory → self.new.turns ≡ self.old.turns ++ actor ∷ [] }
        ensures goes_on { result ≢ NoMemory → TraceContinues self.old self.new }
        ensures ended { result ≡ NoMemory → self.new.ended ≡ true }
    {
        self.step_with(alloc, actor, Ready::Nothing)
    }

    /// Takes the next turn of an actor's commands, with what is ready for it. Room for recording the turn is taken
    /// first.
    pub fn step_with(&mut self, alloc: Global, actor: ActorId, ready: Ready) -> Stepped
        ensures steps { result ≢ NoMemory → Steps D.Disk S.Store M.MetaLog self.old.world actor.0 result
            self.new.world }
        ensures central { result ≢ NoMemory → KeepsCentral D.Disk S.Store M.MetaLog self.old.world self.new.world }
        ensures turns { result ≢ NoMemory → self.new.turns ≡ self.old.turns ++ actor ∷ [] }
        ensures goes_on { result ≢ NoMemory → TraceContinues self.old self.new }
        ensures ended { result ≡ NoMemory → self.new.ended ≡ true }
    {
        if self.ended {
            return Stepped::NoMemory;
        }
        let Ok(()) = self.turns.push(actor) else {
            self.ended = true;
            return Stepped::NoMemory;
        };
        let stepped = self.world.step_with(alloc, actor, ready);
        if let Stepped::NoMemory = stepped {
            self.ended = true;
        }
        stepped
    }

    /// Steps an actor to the end of its list.
    fn run_actor(&mut self, alloc: Global, actor: ActorId) -> Result<(), AllocError>
        ensures goes_on { OnOk result (TraceContinues self.old self.new) }
        ensures later { OnOk result (IsLater D.Disk S.Store M.MetaLog self.old.world self.new.world) }
        ensures ended { OnOk result (IsAtEnd self.new.world actor.0) }
    {
        loop {
            match self.step(alloc, actor) {
                Stepped::Nothing => return Ok(()),
                Stepped::NoMemory => return Err(AllocError),
                _ => {}
            }
        }
    }

    /// Steps the actors, in the order of their lists, each to the end of its list. Where the threads came there
    /// nothing is left to do.
    fn run_to_end(&mut self, alloc: Global) -> Result<(), AllocError>
        ensures goes_on { OnOk result (TraceContinues self.old self.new) }
        ensures ended { OnOk result ((a : ℕ) → IsAtEnd self.new.world a) }
    {
        if self.ended() {
            return Err(AllocError);
        }
        let count = self.world().lists().len();
        for place in 0..count {
            let actor = self.world().lists()[place].actor;
            self.run_actor(alloc, actor)?;
        }
        Ok(())
    }

    /// Ends a run, the actors being stepped to the ends of their lists, and lends the journal. Fails only if memory
    /// runs out.
    pub fn finish(&mut self, alloc: Global) -> Result<&Journal, AllocError>
        ensures { IfOk result (λ journal. IsThreadedRun D.Disk S.Store M.MetaLog self.old.script self.old.place
            (self.old.partition.0, journal.now.items)) }
    {
        ends_are_complete::<D, S, M>();
        reaches_later::<D, S, M>();
        reaches_in_turn::<D, S, M>();
        runs_meet_no_damage::<D, S, M>();
        reaches_by_plan::<D, S, M>();
        fresh_is_safe();
        replays_keep_safe();
        self.run_to_end(alloc)?;
        Ok(self.world().journal())
    }
}
