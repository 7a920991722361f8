//! What a change does.
//!
//! What takes memory comes first, so that a change for which there is none leaves the state as it was. A count of stops
//! has 64 bits: a broker whose count is at its end isn't changed.

ghost use Rattle.std.specs.Prelude.{◌≡◌, ◌<◌, ◌≤◌, ◌^◌, ◌-◌, true, false, take, length, OnOk, OnErr, IfOk};
ghost use Rattle.registry.specs.Registry.{epoch_limit, elected};
ghost use Rattle.record_batch.specs.Build.{built, IsBuildable};
ghost use Rattle.record_batch.specs.Stamp.{stamped};
ghost use Rattle.plain_log.specs.RowsOfLog.{gained};
ghost use Rattle.plain_log.specs.State.{longer, put_broker, stopped, set_registry};
ghost use Rattle.plain_executor.specs.Fits.{IsBuildableAppend};
ghost use Rattle.plain_executor.specs.Change.{AtBroker, IsPathAt, batch_in, cut};

use crate::lists::first;
use bytes::Bytes;
use plain_log::{Broker, Command, Path, Role, State};
use record_batch::{BuildRefusal, Rec, build, stamp};
use std::alloc::{AllocError, Global};
use tier_base::{BrokerId, Items};

/// Stops a broker.
pub(crate) fn stop(x: &mut Broker)
    requires { x.old.stops < 2 ^ 64 - 1 }
    ensures { x.new ≡ stopped x.old }
{
    x.stops += 1;
    x.up = false;
    x.role = Role::Idle;
    x.known_high_watermark = 0;
}

/// Stops a broker in the middle of a write.
pub(crate) fn break_off(x: &mut Broker, flushed_end: u64)
    requires { x.old.stops < 2 ^ 64 - 1 }
    ensures { x.new ≡ record (stopped (record x.old { flushed_end = flushed_end })) { loose = true } }
{
    stop(x);
    x.flushed_end = flushed_end;
    x.loose = true;
}

/// Lets a broker start with its first batches, so many, which end here.
pub(crate) fn open(
    p: &mut State,
    alloc: Global,
    b: usize,
    count: usize,
    end: u64,
) -> Result<(), AllocError>
    requires { b < length p.old.brokers }
    ensures ok { OnOk result (AtBroker p.old b (λ x s.
        p.new ≡ put_broker p.old b (record x {
          up = true;
          log = take count
              x.log;
          flushed_end = end;
          loose = false;
        }))) }
    ensures err { OnErr result (p.new ≡ p.old) }
{
    let log = first(alloc, &p.brokers.get(b).log, count)?;
    let x = p.brokers.at_mut(b);
    x.log = log;
    x.up = true;
    x.flushed_end = end;
    x.loose = false;
    Ok(())
}

/// Cuts a follower's log to its first batches, so many, which end here.
pub(crate) fn cut_off(
    p: &mut State,
    alloc: Global,
    b: usize,
    epoch: u32,
    count: usize,
    end: u64,
) -> Result<(), AllocError>
    requires { b < length p.old.brokers }
    ensures ok { OnOk result (AtBroker p.old b (λ x s. p.new ≡ put_broker p.old b (cut x epoch count end))) }
    ensures err { OnErr result (p.new ≡ p.old) }
{
    let log = first(alloc, &p.brokers.get(b).log, count)?;
    let x = p.brokers.at_mut(b);
    x.log = log;
    x.role = Role::Joined(epoch);
    x.flushed_end = end;
    x.known_high_watermark = x.known_high_watermark.min(end);
    Ok(())
}

/// The place of the first path of this epoch.
fn find(paths: &[Path], epoch: u32) -> Option<usize>
    ensures { IsPathAt paths.now epoch result }
{
    for (i, path) in paths.iter().enumerate() {
        if path.epoch == epoch {
            return Some(i);
        }
    }
    None
}

/// Puts a batch at the end of the first path of this epoch, where there is one.
fn lengthen(
    paths: &mut Items<Path>,
    alloc: Global,
    epoch: u32,
    batch: Bytes,
) -> Result<(), AllocError>
    ensures ok { OnOk result (paths.new ≡ longer paths.old epoch batch) }
    ensures err { OnErr result (paths.new ≡ paths.old) }
{
    if let Some(at) = find(paths.as_slice(), epoch) {
        paths.at_mut(at).log.push(alloc, batch)?;
    }
    Ok(())
}

/// Builds the batch of an append's records at its place. They make one, so only memory can run out.
fn build_at(alloc: Global, base: u64, epoch: u32, recs: &[Rec]) -> Result<Bytes, AllocError>
    requires { IsBuildable recs.now }
    ensures { IfOk result (λ batch. batch ≡ stamped (built recs.now) base epoch) }
{
    match build(alloc, base, epoch, recs) {
        Ok(batch) => Ok(Bytes::from_vec(batch)?),
        Err(BuildRefusal::NoMemory) => Err(AllocError),
        Err(BuildRefusal::NoRecords) => unreachable!(),
        Err(BuildRefusal::TooLarge) => unreachable!(),
    }
}

/// Stamps a copy of a raw batch with its place.
fn stamp_at(alloc: Global, base: u64, epoch: u32, bytes: &[u8]) -> Result<Bytes, AllocError>
    requires { 16 ≤ length bytes.now }
    ensures { IfOk result (λ batch. batch ≡ stamped bytes.now base epoch) }
{
    let mut batch = Vec::from_slice(alloc, bytes)?;
    stamp(batch.as_mut_slice(), base, epoch);
    Ok(Bytes::from_vec(batch)?)
}

/// The batch that a command brings, at its place.
pub(crate) fn batch_at(
    alloc: Global,
    base: u64,
    epoch: u32,
    command: &Command,
) -> Result<Bytes, AllocError>
    requires { IsBuildableAppend command.now }
    ensures { IfOk result (λ batch. batch ≡ stamped (batch_in command.now) base epoch) }
{
    match command {
        Command::Append(recs) => build_at(alloc, base, epoch, recs.as_slice()),
        Command::Raw(bytes) if bytes.len() >= 16 => {
            stamp_at(alloc, base, epoch, bytes.as_slice())
        }
        // Not reached, which nothing proves: an append or a checked raw batch alone is gained.
        _ => Err(AllocError),
    }
}

/// Appends a batch to the leader's log, and to the path of its epoch.
pub(crate) fn gain(
    p: &mut State,
    alloc: Global,
    b: usize,
    epoch: u32,
    batch: Bytes,
) -> Result<(), AllocError>
    requires { b < length p.old.brokers }
    ensures ok { OnOk result (AtBroker p.old b (λ x s. p.new ≡ gained p.old b x epoch batch)) }
    ensures err { OnErr result (p.new ≡ p.old) }
{
    let again = batch.clone()?;
    let mut log = p.brokers.get(b).log.share()?;
    log.push(alloc, batch)?;
    lengthen(&mut p.paths, alloc, epoch, again)?;
    p.brokers.at_mut(b).log = log;
    Ok(())
}

/// Elects a broker from the replicas in sync.
pub(crate) fn elect(p: &mut State, broker: BrokerId)
    requires { p.old.registry.epoch ≤ epoch_limit }
    ensures { p.new ≡ set_registry p.old (elected p.old.registry broker.0) }
{
    p.registry.lead(broker);
}
