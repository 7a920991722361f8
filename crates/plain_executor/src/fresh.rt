//! The state where nothing has happened yet.

ghost use Rattle.std.specs.Prelude.{◌≡◌, ◌≤◌, ◌-◌, [], ◌∷◌, IfOk, replicate};
ghost use Rattle.plain_log.specs.Fresh.{fresh, fresh_broker};
ghost use Rattle.plain_log.specs.declared.state.Role.TheVariants as role;

use plain_log::{Broker, Config, Path, Registry, Role, State};
use shared_log::Batches;
use std::alloc::{AllocError, Global};
use tier_base::Items;

/// A broker that is up, with an empty log.
fn broker(role: Role) -> Broker
    ensures { result ≡ fresh_broker role }
{
    Broker {
        up: true,
        stops: 0,
        role,
        log: Batches::new(),
        flushed_end: 0,
        loose: false,
        known_high_watermark: 0,
    }
}

/// The leader, and others that have joined it.
fn brokers(alloc: Global, others: u16) -> Result<Items<Broker>, AllocError>
    ensures { IfOk result (λ brokers.
        brokers ≡ fresh_broker (role.Leads 0) ∷ replicate others (fresh_broker (role.Joined 0))) }
{
    let mut brokers = Items::new(alloc);
    brokers.push(broker(Role::Leads(0)))?;
    for _ in 0..others {
        brokers.push(broker(Role::Joined(0)))?;
    }
    Ok(brokers)
}

/// The path of epoch 0, which has no batch.
fn paths(alloc: Global) -> Result<Items<Path>, AllocError>
    ensures { IfOk result (λ paths. paths ≡ record { epoch = 0; log = [] } ∷ []) }
{
    let mut paths = Items::new(alloc);
    paths.push(Path {
        epoch: 0,
        log: Batches::new(),
    })?;
    Ok(paths)
}

/// The fresh state of a configuration.
pub(crate) fn state(alloc: Global, config: &Config) -> Result<State, AllocError>
    requires some { 1 ≤ config.now.brokers }
    requires few { config.now.brokers ≤ 8 }
    ensures { IfOk result (λ state. state ≡ fresh config.now) }
{
    let registry = Registry::fresh(alloc, config.brokers)?;
    let brokers = brokers(alloc, config.brokers - 1)?;
    let paths = paths(alloc)?;
    Ok(State {
        registry,
        committed: Batches::new(),
        paths,
        broken: Items::new(alloc),
        unclean: false,
        brokers,
        actors: Items::new(alloc),
    })
}
