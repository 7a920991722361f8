//! Whether a journal is a run of the plain log.

ghost use Rattle.std.specs.Prelude.{◌≡◌, ◌≤◌, ◌↔◌, [], IsTrue, IfOk, option_map, unwrap_or};
ghost use Rattle.std.specs.Option.{option_copied};
ghost use Rattle.plain_log.specs.Fresh.{fresh};
ghost use Rattle.plain_log.specs.Runs.{replay as replay_of, orders_of, order_of, entry_step, IsPlainRun, IsInOrder};
ghost use Rattle.plain_executor.specs.Fits.{AreFor};
ghost use Rattle.plain_executor.specs.Stepped.{Stepped};
ghost use Rattle.plain_executor.specs.Traces.{IsRunVerdict, JournalReaches};

use crate::plain::Plain;
use plain_log::{ActorList, Config, JournalEntry, Order, runs_answer_in_order};
use std::alloc::{AllocError, Global};

/// The list of an actor.
fn list_of(lists: &[ActorList], a: u16) -> Option<&[Order]>
    ensures { unwrap_or (option_map (λ orders. orders.now) result) [] ≡ orders_of lists.now a }
{
    for list in lists {
        if list.actor.0 == a {
            return Some(list.orders.as_slice());
        }
    }
    None
}

/// Finds the order that an entry is about.
pub fn find_order<'a>(lists: &'a [ActorList], entry: &JournalEntry) -> Option<&'a Order>
    ensures { option_copied result ≡ order_of lists.now entry.now }
{
    match list_of(lists, entry.actor.0) {
        Some(orders) if (entry.number as usize) < orders.len() => Some(
            &orders[entry.number as usize],
        ),
        _ => None,
    }
}

/// The state after an entry, and whether the entry is a step.
fn take(
    alloc: Global,
    plain: &mut Plain,
    lists: &[ActorList],
    entry: &JournalEntry,
) -> Result<bool, AllocError>
    requires { AreFor lists.now }
    ensures { IfOk result (λ taken. Stepped plain.old plain.new (entry_step lists.now plain.old entry.now) taken) }
{
    let Some(order) = find_order(lists, entry) else {
        return Ok(false);
    };
    let taken = plain.step(alloc, order, entry)?;
    Ok(taken)
}

/// Carries out entries up to the first that is no step of the plain log, and returns its place. Fails only if memory
/// runs out.
pub fn take_all(
    alloc: Global,
    plain: &mut Plain,
    lists: &[ActorList],
    journal: &[JournalEntry],
) -> Result<Option<usize>, AllocError>
    requires { AreFor lists.now }
    ensures { IfOk result (λ place. JournalReaches lists.now plain.old journal.now plain.new place) }
{
    for (i, entry) in journal.iter().enumerate() {
        if !take(alloc, plain, lists, entry)? {
            return Ok(Some(i));
        }
    }
    Ok(None)
}

/// Returns the place of the first entry that is no step of the plain log, or none where the journal is a run of it.
/// Fails only if memory runs out.
pub fn first_refused(
    alloc: Global,
    config: &Config,
    lists: &[ActorList],
    journal: &[JournalEntry],
) -> Result<Option<usize>, AllocError>
    requires some { 1 ≤ config.now.brokers }
    requires few { config.now.brokers ≤ 8 }
    requires fit { AreFor lists.now }
    ensures { IfOk result (λ place. IsRunVerdict config.now lists.now journal.now place) }
{
    let mut plain = Plain::fresh(alloc, config)?;
    let place = take_all(alloc, &mut plain, lists, journal);
    drop(plain);
    place
}

/// Carries out a journal, and returns the state after it, or none where an entry is no step of the plain log. Fails
/// only if memory runs out.
pub fn replay(
    alloc: Global,
    config: &Config,
    lists: &[ActorList],
    journal: &[JournalEntry],
) -> Result<Option<Plain>, AllocError>
    requires some { 1 ≤ config.now.brokers }
    requires few { config.now.brokers ≤ 8 }
    requires fit { AreFor lists.now }
    ensures { IfOk result (λ last. last ≡ replay_of lists.now (fresh config.now) journal.now) }
{
    let mut plain = Plain::fresh(alloc, config)?;
    match take_all(alloc, &mut plain, lists, journal) {
        Ok(None) => Ok(Some(plain)),
        Ok(Some(_)) => {
            drop(plain);
            Ok(None)
        }
        Err(e) => {
            drop(plain);
            Err(e)
        }
    }
}

/// Returns whether a journal is a run of the plain log. Fails only if memory runs out.
pub fn is_run(
    alloc: Global,
    config: &Config,
    lists: &[ActorList],
    journal: &[JournalEntry],
) -> Result<bool, AllocError>
    requires some { 1 ≤ config.now.brokers }
    requires few { config.now.brokers ≤ 8 }
    requires fit { AreFor lists.now }
    ensures run { IfOk result (λ is. IsTrue is ↔ IsPlainRun config.now lists.now journal.now) }
    ensures ordered { IfOk result (λ is. IsTrue is → IsInOrder journal.now) }
{
    runs_answer_in_order();
    let last = replay(alloc, config, lists, journal)?;
    Ok(last.is_some())
}
