//! What a change of the registry does, of what is committed, and of who leads.

ghost use Rattle.std.specs.Prelude.{◌≡◌, ◌<◌, ◌≤◌, ◌∷◌, true, take, length, Some, slice_get, OnOk, OnErr};
ghost use Rattle.registry.specs.Registry.{epoch_limit, elected_alone, shrunk, expanded, started};
ghost use Rattle.plain_log.specs.RowsOfElections.{led};
ghost use Rattle.plain_log.specs.State.{set_registry, breaks};
ghost use Rattle.plain_executor.specs.Change.{AtBroker, EachCanStop};

use crate::ends::end;
use crate::lists::{first, prepend};
use crate::making::break_off;
use plain_log::{Path, Role, State};
use std::alloc::{AllocError, Global};
use tier_base::BrokerId;

/// Takes a broker out of the replicas in sync.
pub(crate) fn shrink(p: &mut State, b: usize)
    requires { b < length p.old.registry.replicas }
    ensures { AtBroker p.old b (λ x s. p.new ≡ set_registry p.old (shrunk p.old.registry b s)) }
{
    p.registry.replicas.at_mut(b).in_sync = false;
}

/// Brings a broker to them.
pub(crate) fn expand(p: &mut State, b: usize)
    requires { b < length p.old.registry.replicas }
    ensures { AtBroker p.old b (λ x s. p.new ≡ set_registry p.old (expanded p.old.registry b s)) }
{
    p.registry.replicas.at_mut(b).in_sync = true;
}

/// Raises the log start offset.
pub(crate) fn start(p: &mut State, offset: u64)
    ensures { p.new ≡ set_registry p.old (started p.old.registry offset) }
{
    p.registry.start = offset;
}

/// Elects a broker, in sync or not. The first batches of its log, so many, are what is committed.
pub(crate) fn restart(
    p: &mut State,
    alloc: Global,
    broker: BrokerId,
    count: usize,
) -> Result<(), AllocError>
    requires broker { broker.0 < length p.old.brokers }
    requires replica { broker.0 < length p.old.registry.replicas }
    requires epoch { p.old.registry.epoch ≤ epoch_limit }
    ensures ok { OnOk result (AtBroker p.old broker.0 (λ x s. p.new
        ≡ set_registry (record p.old { committed = take count x.log; unclean = true })
        (elected_alone p.old.registry broker.0 x.flushed_end))) }
    ensures err { OnErr result (p.new ≡ p.old) }
{
    let x = p.brokers.get(broker.0 as usize);
    let flushed_end = x.flushed_end;
    let committed = first(alloc, &x.log, count)?;
    p.registry.lead_alone(broker, flushed_end);
    p.committed = committed;
    p.unclean = true;
    Ok(())
}

/// Lets a broker lead an epoch, with its whole log flushed.
pub(crate) fn lead(p: &mut State, alloc: Global, b: usize, epoch: u32) -> Result<(), AllocError>
    requires { b < length p.old.brokers }
    ensures ok { OnOk result (AtBroker p.old b (λ x s. p.new ≡ led p.old b x epoch)) }
    ensures err { OnErr result (p.new ≡ p.old) }
{
    let x = p.brokers.get(b);
    let last = end(&x.log);
    // The model's ends have no bound, a flushed end has 64 bits.
    if last > u128::from(u64::MAX) {
        return Err(AllocError);
    }
    let log = x.log.share()?;
    prepend(alloc, &mut p.paths, Path { epoch, log })?;
    let mark = p.registry.mark;
    let x = p.brokers.at_mut(b);
    x.role = Role::Leads(epoch);
    x.flushed_end = last as u64;
    x.known_high_watermark = mark;
    Ok(())
}

/// Stops a broker in the middle of taking the lead.
pub(crate) fn break_lead(p: &mut State, alloc: Global, b: usize) -> Result<(), AllocError>
    requires within { b < length p.old.brokers }
    requires stops { EachCanStop p.old b }
    ensures ok { OnOk result (AtBroker p.old b (λ x s. p.new
        ≡ record (breaks p.old b x) { broken = p.old.registry.epoch ∷ p.old.broken })) }
    ensures err { OnErr result (p.new ≡ p.old) }
{
    let epoch = p.registry.epoch;
    prepend(alloc, &mut p.broken, epoch)?;
    let x = p.brokers.at_mut(b);
    let flushed_end = x.flushed_end;
    break_off(x, flushed_end);
    Ok(())
}
