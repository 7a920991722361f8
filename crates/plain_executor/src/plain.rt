//! The plain log's state as a value, and its steps.

ghost use Rattle.std.specs.Prelude.{◌≡◌, ◌≤◌, ◌<◌, IfOk, OnErr, Some, length, slice_get};
ghost use Rattle.log_terms.specs.Log.{end_of};
ghost use Rattle.cold_state.specs.Cold.{cold_of};
ghost use Rattle.plain_log.specs.Fresh.{fresh};
ghost use Rattle.plain_log.specs.declared.state.Broker.{Broker as BrokerIs};
ghost use Rattle.plain_log.specs.State.{actor_at};
ghost use Rattle.plain_log.specs.Step.{step};
ghost use Rattle.plain_executor.specs.Fits.{IsBuildableAppend};
ghost use Rattle.plain_executor.specs.Stepped.{Stepped};

use crate::ends::end;
use crate::fresh::state;
use crate::{cooling, stepping};
use cold_state::a_cold_state_is_safe;
use plain_log::{Config, JournalEntry, Order, State, fresh_is_safe, steps_keep_safe};
use std::alloc::{AllocError, Global};
use std::marker::Model;
use tier_base::{ActorId, BrokerId};

/// The plain log's state. Its safety rules hold.
#[derive(Debug, Drop)]
pub struct Plain {
    state: State,
}

impl Model for Plain {
    ghost use Rattle.plain_log.specs.declared.state.State.{State};

    ghost Value = { State };

    ghost view = { λ plain. plain.state };

    ghost use Rattle.plain_log.specs.Safe.{PlainSafe};

    ghost invariant = { λ plain. PlainSafe plain.state };
}

impl Plain {
    /// Makes the state of a configuration where nothing has happened yet. Fails only if memory runs out.
    pub fn fresh(alloc: Global, config: &Config) -> Result<Plain, AllocError>
        requires some { 1 ≤ config.now.brokers }
        requires few { config.now.brokers ≤ 8 }
        ensures { IfOk result (λ plain. plain ≡ fresh config.now) }
    {
        fresh_is_safe();
        let state = state(alloc, config)?;
        Ok(Plain { state })
    }

    /// Leaves what a power cut of everything leaves: a run over the same disks begins there.
    pub fn cool(&mut self, alloc: Global)
        ensures { self.new ≡ cold_of self.old }
    {
        a_cold_state_is_safe();
        cooling::cool(&mut self.state, alloc);
    }

    /// The log end offset of a broker, which may have more than 64 bits in a state that no run reaches.
    pub fn end(&self, broker: BrokerId) -> u128
        requires { broker.0 < length self.now.brokers }
        ensures { (x : BrokerIs) → slice_get self.now.brokers broker.0 ≡ Some x → result ≡ end_of x.log }
    {
        end(&self.state.brokers.get(broker.0 as usize).log)
    }

    /// The high watermark that a broker knows.
    pub fn known(&self, broker: BrokerId) -> u64
        requires { broker.0 < length self.now.brokers }
        ensures { (x : BrokerIs) → slice_get self.now.brokers broker.0 ≡ Some x → result ≡ x.known_high_watermark }
    {
        self.state
            .brokers
            .get(broker.0 as usize)
            .known_high_watermark
    }

    /// The high watermark.
    pub fn mark(&self) -> u64
        ensures { result ≡ self.now.registry.mark }
    {
        self.state.registry.mark
    }

    /// The log start offset.
    pub fn start(&self) -> u64
        ensures { result ≡ self.now.registry.start }
    {
        self.state.registry.start
    }

    /// Counts the brokers.
    pub fn count(&self) -> usize
        ensures { result ≡ length self.now.brokers }
    {
        self.state.brokers.len()
    }

    /// The number of an actor's next command, or of the one that has begun: how many of its commands were answered.
    pub fn number(&self, actor: ActorId) -> u32
        ensures { result ≡ (actor_at self.now.actors actor.0).number }
    {
        stepping::number(&self.state, actor.0 as usize)
    }

    /// Carries out an entry of a journal about an order, and returns whether it is a step of the plain log. Where it
    /// isn't one, nothing changes. Fails only if memory runs out.
    pub fn step(
        &mut self,
        alloc: Global,
        order: &Order,
        entry: &JournalEntry,
    ) -> Result<bool, AllocError>
        requires { IsBuildableAppend order.now.command }
        ensures ok { IfOk result (λ taken. Stepped self.old self.new (step self.old order.now entry.now) taken) }
        ensures err { OnErr result (self.new ≡ self.old) }
    {
        steps_keep_safe();
        let taken = stepping::step(&mut self.state, alloc, order, entry)?;
        Ok(taken)
    }
}
