//! A partition's remote tier: the devices that no broker has for itself, and what each broker knows of it.

ghost use Rattle.std.specs.Prelude.{◌≡◌, ◌<◌, length, OnOk, OnErr, IsErrOf};
ghost use Rattle.tier_base.specs.declared.fault.Trouble.TheVariants.{Failed, NoMemory};
ghost use Rattle.partition_world.specs.Tier.{next_of, counted, AtBrokerTier, RefreshesBroker};
ghost use Rattle.partition_world.specs.Tier.{FailsToRead, HaltsRefresh, IsArmedTier};

use disk_model::Disk;
use index_cache::IndexCache;
use meta_log::MetaLog;
use object_store::Store;
use remote_view::View;
use tier_base::{Items, Trouble};
use view_refresh::refresh;

/// What a broker knows of the remote tier. It outlives the broker's stops.
#[derive(Drop)]
pub struct BrokerTierState {
    /// The remote segments that the broker knows of.
    pub view: View,
    /// How often its log had been opened when it last chose a segment to copy, and the number of the next
    /// copy since.
    pub incarnation: u32,
    pub attempt: u64,
    /// The offset indexes of remote segments that it read last.
    pub cache: IndexCache,
}

/// A partition's remote store and remote log metadata, and a tier state for each broker, in their order.
#[derive(Drop)]
pub struct RemoteTier<S: Store, M: MetaLog> {
    pub store: S,
    pub meta: M,
    pub broker_tiers: Items<BrokerTierState>,
}

/// The devices of a partition: a disk for each broker, in their order, the remote store, and the remote log metadata.
#[derive(Drop)]
pub struct Devices<D: Disk, S: Store, M: MetaLog> {
    pub disks: Vec<D>,
    pub store: S,
    pub meta: M,
}

impl BrokerTierState {
    /// The number of the next copy of a log that was opened so often.
    pub(crate) fn next(&self, incarnation: u32) -> u64
        ensures { result ≡ next_of self.now incarnation }
    {
        if self.incarnation == incarnation {
            self.attempt
        } else {
            0
        }
    }

    /// Counts a copy.
    pub(crate) fn count(&mut self, incarnation: u32)
        requires { next_of self.old incarnation < 18446744073709551615 }
        ensures { self.new ≡ counted self.old incarnation }
    {
        self.attempt = self.next(incarnation) + 1;
        self.incarnation = incarnation;
    }
}

impl<S: Store, M: MetaLog> RemoteTier<S, M> {
    /// Puts the plans of store and metadata log in force.
    pub(crate) fn arm(&mut self)
        ensures tier { IsArmedTier S.Store M.MetaLog self.old.store self.old.meta self.new }
        ensures broker_tiers { self.new.broker_tiers ≡ self.old.broker_tiers }
    {
        self.store.arm();
        self.meta.arm();
    }

    /// Refreshes a broker's view.
    #[tactic(auto, using(crate::proofs::BrokerTierStates::set_same))]
    pub(crate) fn refresh(&mut self, b: usize) -> Result<(), Trouble>
        requires { b < length self.old.broker_tiers }
        ensures ok { OnOk result (AtBrokerTier self.old b
            (λ broker_tier. RefreshesBroker M.MetaLog self.old b broker_tier self.new)) }
        ensures failed { IsErrOf result Failed → AtBrokerTier self.old b
            (λ broker_tier. FailsToRead M.MetaLog self.old broker_tier self.new) }
        ensures dry { IsErrOf result NoMemory
            → AtBrokerTier self.old b (λ broker_tier. HaltsRefresh M.MetaLog self.old b broker_tier self.new) }
    {
        refresh(&mut self.broker_tiers.at_mut(b).view, &mut self.meta)
    }
}
