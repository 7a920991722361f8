//! The state after a change.

ghost use Rattle.std.specs.Prelude.{◌≡◌, ◌<◌, ◌≤◌, ◌^◌, ◌-◌, ℕ, min, take, length, OnOk, OnErr};
ghost use Rattle.plain_log.specs.State.{breaks, put_broker};
ghost use Rattle.plain_executor.specs.Change.{AtBroker, EachCanStop, acked, path_in, changed};
ghost use Rattle.plain_executor.specs.Fits.{IsBuildableAppend};
ghost use Rattle.registry.specs.Registry.{epoch_limit};

use crate::change::Change;
use crate::ends::end;
use crate::lists::first;
use crate::making::{batch_at, break_off, cut_off, elect, gain, open, stop};
use crate::moving::{break_lead, expand, lead, restart, shrink, start};
use crate::paths::path;
use crate::replicas::mark_with;
use plain_log::{Order, Role, State};
use std::alloc::{AllocError, Global};

/// Takes a broker's flushed end for an acknowledgement. The first batches of the current path, so many, are committed
/// then.
fn acknowledge(p: &mut State, alloc: Global, b: usize, count: usize) -> Result<(), AllocError>
    requires broker { b < length p.old.brokers }
    requires replica { b < length p.old.registry.replicas }
    ensures ok { OnOk result (AtBroker p.old b (λ x s. p.new ≡ acked p.old b x s count)) }
    ensures err { OnErr result (p.new ≡ p.old) }
{
    let x = p.brokers.get(b);
    let flushed_end = x.flushed_end;
    let last = end(&x.log);
    let mark = mark_with(p, b, flushed_end);
    let Some(path) = path(p.paths.as_slice(), p.registry.epoch) else {
        return Err(AllocError);
    };
    let committed = first(alloc, path, count)?;
    p.committed = committed;
    p.registry.mark = mark;
    p.registry.replicas.at_mut(b).acked = flushed_end;
    p.brokers.at_mut(b).known_high_watermark = lesser(mark, last);
    Ok(())
}

/// The lesser of a number and an end.
fn lesser(mark: u64, last: u128) -> u64
    ensures { result ≡ min mark last }
{
    if u128::from(mark) <= last {
        mark
    } else {
        last as u64
    }
}

/// Brings a broker's log to the first batches, so many, of the path of an epoch. It is flushed up to here.
fn extend(
    p: &mut State,
    alloc: Global,
    b: usize,
    epoch: u32,
    count: usize,
    flushed_end: u64,
) -> Result<(), AllocError>
    requires { b < length p.old.brokers }
    ensures ok { OnOk result (AtBroker p.old b (λ x s.
        p.new ≡ put_broker p.old b (record x { log = take count (path_in p.old epoch); flushed_end = flushed_end }))) }
    ensures err { OnErr result (p.new ≡ p.old) }
{
    let Some(path) = path(p.paths.as_slice(), epoch) else {
        return Err(AllocError);
    };
    let log = first(alloc, path, count)?;
    let x = p.brokers.at_mut(b);
    x.log = log;
    x.flushed_end = flushed_end;
    Ok(())
}

/// The same, where the broker stops in the middle of it.
fn break_longer(
    p: &mut State,
    alloc: Global,
    b: usize,
    epoch: u32,
    count: usize,
) -> Result<(), AllocError>
    requires broker { b < length p.old.brokers }
    requires stops { EachCanStop p.old b }
    ensures ok { OnOk result (AtBroker p.old b
        (λ x s. p.new ≡ breaks p.old b (record x { log = take count (path_in p.old epoch) }))) }
    ensures err { OnErr result (p.new ≡ p.old) }
{
    let Some(path) = path(p.paths.as_slice(), epoch) else {
        return Err(AllocError);
    };
    let log = first(alloc, path, count)?;
    let x = p.brokers.at_mut(b);
    x.log = log;
    let flushed_end = x.flushed_end;
    break_off(x, flushed_end);
    Ok(())
}

/// Changes the state by an answer to an order.
pub(crate) fn alter(
    p: &mut State,
    alloc: Global,
    order: &Order,
    change: Change,
) -> Result<(), AllocError>
    requires broker { order.now.broker.0 < length p.old.brokers }
    requires replica { order.now.broker.0 < length p.old.registry.replicas }
    requires fit { IsBuildableAppend order.now.command }
    requires epoch { p.old.registry.epoch ≤ epoch_limit }
    ensures ok { OnOk result (AtBroker p.old order.now.broker.0 (λ x s.
        p.new ≡ changed p.old order.now.broker.0 x s order.now.command change)) }
    ensures err { OnErr result (p.new ≡ p.old) }
{
    let b = order.broker.0 as usize;
    // The model's counts of stops have no bound, the machine's have 64 bits.
    if p.brokers.get(b).stops == u64::MAX {
        return Err(AllocError);
    }
    match change {
        Change::Same => Ok(()),
        Change::Breaks(flushed_end) => Ok(break_off(p.brokers.at_mut(b), flushed_end)),
        Change::Flushes(end) => {
            p.brokers.at_mut(b).flushed_end = end;
            Ok(())
        }
        Change::Stops => Ok(stop(p.brokers.at_mut(b))),
        Change::Opens { count, end } => open(p, alloc, b, count, end),
        Change::Follows(epoch) => {
            p.brokers.at_mut(b).role = Role::Follows(epoch);
            Ok(())
        }
        Change::Cuts { epoch, count, end } => cut_off(p, alloc, b, epoch, count, end),
        Change::BreaksLead => break_lead(p, alloc, b),
        Change::Leads(epoch) => lead(p, alloc, b, epoch),
        Change::Acks { count } => acknowledge(p, alloc, b, count),
        Change::Gains { base, epoch } => {
            gain(
                p,
                alloc,
                b,
                epoch,
                batch_at(alloc, base, epoch, &order.command)?,
            )
        }
        Change::Extends {
            epoch,
            count,
            flushed_end,
        } => extend(p, alloc, b, epoch, count, flushed_end),
        Change::BreaksLonger { epoch, count } => break_longer(p, alloc, b, epoch, count),
        Change::Elects => Ok(elect(p, order.broker)),
        Change::Restarts { count } => restart(p, alloc, order.broker, count),
        Change::Shrinks => Ok(shrink(p, b)),
        Change::Expands => Ok(expand(p, b)),
        Change::Starts(offset) => Ok(start(p, offset)),
    }
}
