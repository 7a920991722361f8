//! A partition between two entries: the plain log, and what the answers say beside it.

ghost use Rattle.std.specs.Prelude.{◌≡◌, ◌≤◌, ◌<◌, map, length, slice_get, Some, IfOk};
ghost use Rattle.std.specs.Option.{option_copied};
ghost use Rattle.log_terms.specs.Log.{end_of};
ghost use Rattle.cold_state.specs.Cold.{cold_of};
ghost use Rattle.plain_log.specs.Fresh.{fresh};
ghost use Rattle.plain_log.specs.declared.state.Broker.{Broker as BrokerIs};
ghost use Rattle.plain_executor.specs.Fits.{AreFor};
ghost use Rattle.run_story.specs.Moments.{Takes, Advances, IsMomentOf};

use crate::change::after;
use crate::commands::asked;
use crate::log_state::LogState;
use crate::marks::mark_of;
use crate::moment::Moment;
use crate::remote::{EpochStart, RemoteSegment, note_lead, note_remote, restart};
use crate::text::shown;
use plain_executor::{Plain, find_order};
use plain_log::{ActorList, Answer, Config, Event, JournalEntry, Order};
use std::alloc::{AllocError, Global};
use tier_base::{BrokerId, Items};

/// A partition between two entries.
#[derive(Debug, Drop)]
pub struct Tracked {
    /// The plain log, which carries out each entry.
    pub plain: Plain,
    /// The log of each broker.
    pub logs: Vec<LogState>,
    /// Where leader epochs start.
    pub epochs: Vec<EpochStart>,
    /// The segments that the remote tier has had in this run.
    pub remote: Vec<RemoteSegment>,
}

/// An empty log of a broker that has learned of epoch 0.
const EMPTY: LogState = LogState {
    up: true,
    local_start: 0,
    flushed_end: 0,
    end: 0,
    learned: 0,
    epoch: 0,
};

/// Carries out an entry, and returns its order; or changes nothing, where the entry is no step of the plain log.
fn take<'a>(
    alloc: Global,
    plain: &mut Plain,
    lists: &'a [ActorList],
    entry: &JournalEntry,
) -> Result<Option<&'a Order>, AllocError>
    requires { AreFor lists.now }
    ensures { IfOk result (λ found. Takes lists.now plain.old entry.now plain.new (option_copied found)) }
{
    let Some(order) = find_order(lists, entry) else {
        return Ok(None);
    };
    match plain.step(alloc, order, entry) {
        Ok(true) => Ok(Some(order)),
        Ok(false) => Ok(None),
        Err(e) => Err(e),
    }
}

/// The log end offset of a broker. Fails as out of memory past 64 bits.
fn end(plain: &Plain, broker: usize) -> Result<u64, AllocError>
    requires { broker < length plain.now.brokers }
    ensures { IfOk result (λ end. (x : BrokerIs) → slice_get plain.now.brokers broker ≡ Some x → end ≡ end_of x.log) }
{
    let Ok(number) = u16::try_from(broker) else {
        return Err(AllocError);
    };
    match u64::try_from(plain.end(BrokerId(number))) {
        Ok(end) => Ok(end),
        Err(_) => Err(AllocError),
    }
}

/// The log of a broker after an entry, but for its end.
fn log_after(
    before: &[LogState],
    broker: usize,
    order: &Order,
    is_begun: bool,
    event: &Event,
) -> LogState {
    let log = match before.get(broker) {
        Some(log) => *log,
        None => EMPTY,
    };
    if order.broker.0 as usize == broker {
        after(log, &order.command, is_begun, event)
    } else {
        log
    }
}

/// The log of each broker after an entry, with the ends that the plain log has.
fn logs_after(
    alloc: Global,
    plain: &Plain,
    before: &[LogState],
    order: &Order,
    is_begun: bool,
    event: &Event,
) -> Result<Items<LogState>, AllocError>
    ensures { IfOk result (λ logs. map (λ log. log.end) logs ≡ map (λ (x : BrokerIs). end_of x.log) plain.now.brokers) }
{
    let mut logs = Items::new(alloc);
    for broker in 0..plain.count() {
        let log = log_after(before, broker, order, is_begun, event);
        let end = end(plain, broker)?;
        logs.push(LogState { end, ..log })?;
    }
    Ok(logs)
}

/// Where the command of an entry had begun, if it had: at the last entry of its actor, if that has the same number.
fn begun_at(moments: &[Moment], entry: &JournalEntry) -> Option<usize> {
    let count = moments.len();
    for back in 0..count {
        let place = count - 1 - back;
        let moment = &moments[place];
        if moment.actor == entry.actor {
            return if moment.number == entry.number {
                Some(place)
            } else {
                None
            };
        }
    }
    None
}

/// The log of an order's broker.
fn log_of(logs: &[LogState], order: &Order) -> LogState {
    match logs.get(order.broker.0 as usize) {
        Some(log) => *log,
        None => EMPTY,
    }
}

impl Tracked {
    /// Makes the partition of a configuration where nothing has happened yet. Fails only if memory runs out.
    pub fn fresh(alloc: Global, config: &Config) -> Result<Tracked, AllocError>
        requires some { 1 ≤ config.now.brokers }
        requires few { config.now.brokers ≤ 8 }
        ensures { IfOk result (λ tracked. tracked.plain ≡ fresh config.now) }
    {
        let plain = Plain::fresh(alloc, config)?;
        let mut logs = Vec::new(alloc);
        for _ in 0..config.brokers {
            logs.push(EMPTY)?;
        }
        let mut epochs = Vec::new(alloc);
        epochs.push(EpochStart {
            log: 0,
            epoch: 0,
            start: 0,
        })?;
        Ok(Tracked {
            plain,
            logs,
            epochs,
            remote: Vec::new(alloc),
        })
    }

    /// Leaves what a power cut of everything leaves: a run over the same disks begins there.
    pub fn cool(&mut self, alloc: Global)
        ensures { self.new.plain ≡ cold_of self.old.plain }
    {
        self.plain.cool(alloc);
        for log in self.logs.as_mut_slice() {
            log.up = false;
        }
        restart(&mut self.remote);
    }

    /// Carries out an entry, and returns its moment. Changes nothing where the entry is no step of the plain log. Fails
    /// only if memory runs out.
    pub fn advance(
        &mut self,
        alloc: Global,
        lists: &[ActorList],
        entry: &JournalEntry,
        line: &str,
        moments: &[Moment],
    ) -> Result<Option<Moment>, AllocError>
        requires { AreFor lists.now }
        ensures { IfOk result (λ found. Advances lists.now self.old.plain entry.now self.new.plain found) }
    {
        let Some(order) = take(alloc, &mut self.plain, lists, entry)? else {
            return Ok(None);
        };
        let begun = begun_at(moments, entry);
        if let Event::Answers(answer) = &entry.event {
            let log = log_of(self.logs.as_slice(), order);
            let place = moments.len();
            note_lead(alloc, &mut self.epochs, log, answer)?;
            note_remote(&mut self.remote, answer, begun.unwrap_or(place), place)?;
        }
        let logs = logs_after(
            alloc,
            &self.plain,
            self.logs.as_slice(),
            order,
            begun.is_some(),
            &entry.event,
        )?;
        self.logs = Vec::from_slice(alloc, logs.as_slice())?;
        let moment = moment(alloc, &self.plain, order, entry, line, logs)?;
        Ok(Some(moment))
    }
}

/// The moment of an entry, of the state after it.
fn moment(
    alloc: Global,
    plain: &Plain,
    order: &Order,
    entry: &JournalEntry,
    line: &str,
    logs: Items<LogState>,
) -> Result<Moment, AllocError>
    ensures { IfOk result (λ m. IsMomentOf order.now entry.now plain.now logs m) }
{
    let asked = asked(alloc, &order.command)?;
    let answered = shown(alloc, line)?;
    Ok(Moment {
        actor: entry.actor,
        number: entry.number,
        broker: order.broker,
        asked,
        answered,
        mark: mark_of(&order.command, &entry.event),
        log_start: plain.start(),
        high_watermark: plain.mark(),
        logs,
    })
}
