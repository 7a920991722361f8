//! An open partition: a world whose registry is kept on a disk of its own.
//!
//! The registry's file is replaced before a step that changed the registry returns. So a power cut never leaves a
//! registry that no answer reported, nor one that lacks what an answer reported.

ghost use Rattle.std.specs.Prelude.{◌≡◌, ◌≤◌, ◌⊎◌, ◌↔◌, false, IfOk, IfErr, OnOk, OnErr, IsTrue, length};
ghost use Rattle.tier_base.specs.Device.{Lasts};
ghost use Rattle.plain_log.specs.declared.state.State.{State};
ghost use Rattle.registry.specs.View.{view_of};
ghost use Rattle.registry_disk.specs.Keeping.{KeepsFile};
ghost use Rattle.partition_commands.specs.Fresh.{AreDisksOf};
ghost use Rattle.partition_commands.specs.Cold.{DisksReopen};
ghost use Rattle.partition_world.specs.Later.{IsLater};
ghost use Rattle.partition_world.specs.Left.{IsCentralLeft};
ghost use Rattle.partition_world.specs.Turn.{Steps};
ghost use Rattle.cold_state.specs.Cold.{cold_of};
ghost use Rattle.cold_start.specs.Opening.{refusal_of_registry};
ghost use Rattle.cold_start.specs.ColdWorld.{plain_in};
ghost use Rattle.cold_start.specs.Moments.{LeavesDuring};
ghost use Rattle.cold_start.specs.Stands.{StandsFor, LeavesCold, LeavesOneOf};
ghost use Rattle.cold_start.specs.Stepping.{Ends};

use crate::laws::{a_step_changes_the_registry_or_a_device, a_step_works_on_one_device, file_laws};
use crate::refusal::ColdRefusal;
use disk_model::Disk;
use laws_partition::Stepped;
use meta_log::MetaLog;
use object_store::Store;
use partition_world::{Devices, World};
use registry::{RegView, Registry};
use registry_disk::keep_registry;
use std::alloc::Global;
use std::marker::Model;
use tier_base::{ActorId, Trouble};

/// An open partition. Once its registry couldn't be kept it can only be closed.
#[derive(Drop)]
pub struct Cold<D: Disk, S: Store, M: MetaLog> {
    pub(crate) world: World<D, S, M>,
    pub(crate) reg: D,
    pub(crate) ended: bool,
}

impl<D: Disk, S: Store, M: MetaLog> Model for Cold<D, S, M> {
    ghost use Rattle.cold_start.specs.Running.{Running, IsRunningSound};

    ghost Value = { Running D S M };

    ghost view = { λ t. record { world = t.world; reg = t.reg; ended = t.ended } };

    ghost invariant = { λ t. IsRunningSound D.content D.control (record { world = t.world; reg = t.reg; ended = t.ended }) };
}

/// What a step returns whose registry couldn't be kept.
pub(crate) fn registry_refusal(why: Trouble) -> ColdRefusal
    ensures { result ≡ refusal_of_registry why }
{
    match why {
        Trouble::Failed => ColdRefusal::RegistryFault,
        Trouble::NoMemory => ColdRefusal::NoMemory,
    }
}

/// Whether this is the registry of a view.
fn is_of(registry: &Registry, view: &RegView) -> bool
    requires { length registry.now.replicas ≤ 8 }
    ensures { IsTrue result ↔ (view_of registry.now ≡ view.now) }
{
    registry.get() == *view
}

impl<D: Disk, S: Store, M: MetaLog> Cold<D, S, M> {
    /// Lends the world.
    pub fn world(&self) -> &World<D, S, M>
        ensures { result.now ≡ self.now.world }
    {
        &self.world
    }

    /// Whether the registry couldn't be kept.
    pub fn has_ended(&self) -> bool
        ensures { result ≡ self.now.ended }
    {
        self.ended
    }

    /// What a power cut now leaves represents what is left of the plain state that the journal has come to. It does
    /// nothing that is seen.
    pub fn leaves(&self)
        ensures file { self.now.ended ≡ false
            → KeepsFile (D.content self.now.reg) self.now.world.partition_state.registry }
        ensures unarmed { (D.control self.now.reg).armed ≡ false }
        ensures cold { self.now.ended ≡ false → IsTrue (D.content self.now.reg).is_observable → (opening : State)
            → LeavesCold D.Disk S.Store M.MetaLog opening self.now.world self.now.reg }
    {
        file_laws();
        let _world = &self.world;
    }

    /// Takes the next turn of an actor's commands. Where it changed the registry, the registry's file is replaced
    /// before the answer; where that fails the partition has ended.
    pub fn step(&mut self, alloc: Global, actor: ActorId) -> Result<Stepped, ColdRefusal>
        requires { self.old.ended ≡ false }
        ensures steps { IfOk result (λ stepped. Steps D.Disk S.Store M.MetaLog self.old.world actor.0 stepped
            self.new.world) }
        ensures going { OnOk result (self.new.ended ≡ false) }
        ensures file { OnOk result (KeepsFile (D.content self.new.reg) self.new.world.partition_state.registry) }
        ensures quiet { self.new.world.partition_state.registry ≡ self.old.world.partition_state.registry
            → self.new.reg ≡ self.old.reg }
        ensures err { IfErr result (λ why. Ends D.Disk self.old.reg self.old.world self.new why) }

        // Whatever it answers, the world is a later one, and a power cut leaves what represents the state before or
        // after it.
        ensures later { IsLater D.Disk S.Store M.MetaLog self.old.world self.new.world }
        ensures control { Lasts (D.control self.old.reg) (D.control self.new.reg) }
        ensures is_observable { (D.content self.new.reg).is_observable ≡ (D.content self.old.reg).is_observable }
        ensures cold { OnOk result (IsTrue (D.content self.new.reg).is_observable → (opening : State)
            → LeavesCold D.Disk S.Store M.MetaLog opening self.new.world self.new.reg) }
        ensures either { OnErr result (IsTrue (D.content self.new.reg).is_observable → (opening : State)
            → LeavesOneOf D.Disk S.Store M.MetaLog opening self.old.world self.new.world self.new.reg) }

        // So does what a power cut leaves at any moment since the step began, whatever moment each device's files are
        // of.
        ensures during { IsTrue (D.content self.old.reg).is_observable → (opening : State)
            → LeavesDuring D.Disk S.Store M.MetaLog opening self.old.world self.old.reg self.new.world self.new.reg }
    {
        file_laws();
        a_step_changes_the_registry_or_a_device::<D, S, M>();
        a_step_works_on_one_device::<D, S, M>();
        self.world.reopens();
        let before = self.world.registry().get();
        let stepped = self.world.step(alloc, actor);
        if is_of(self.world.registry(), &before) {
            return Ok(stepped);
        }
        match keep_registry(alloc, &mut self.reg, self.world.registry()) {
            Ok(()) => Ok(stepped),
            Err(why) => {
                self.ended = true;
                Err(registry_refusal(why))
            }
        }
    }

    /// Gives the devices back, and the registry's disk beside them.
    pub fn close(self) -> (Devices<D, S, M>, D)
        ensures disks { AreDisksOf self.world.partition_state.nodes result.0.disks.items }
        ensures again { DisksReopen D.content self.world.partition_state.nodes result.0.disks.items }
        ensures store { result.0.store ≡ self.world.tier.store }
        ensures meta { result.0.meta ≡ self.world.tier.meta }
        ensures reg { result.1 ≡ self.reg }
        ensures count { length result.0.disks.items ≡ self.world.config.brokers }
        ensures unarmed { (D.control result.1).armed ≡ false }

        // They represent what is left of the plain state that the journal has come to.
        ensures cold { self.ended ≡ false → IsTrue (D.content self.reg).is_observable → (opening : State)
            (c : IsCentralLeft D.Disk S.Store M.MetaLog opening self.world)
            → StandsFor D.Disk S.Store M.MetaLog self.world.partition result.0.disks.items result.0.store result.0.meta
            result.1
            (cold_of (plain_in D.Disk S.Store M.MetaLog opening self.world c)) }
    {
        file_laws();
        let Cold { world, reg, .. } = self;
        (world.close(), reg)
    }
}
