//! Whether a journal is complete, and whether it is a complete run of the plain log.

ghost use Rattle.std.specs.Prelude.{◌≡◌, ◌≤◌, ◌↔◌, slice_index, List, Some, All, IsTrue, IfOk};
ghost use Rattle.plain_log.specs.declared.command.Config.{Config as ConfigIs};
ghost use Rattle.plain_log.specs.declared.journal.JournalEntry.{JournalEntry as Entry};
ghost use Rattle.plain_log.specs.Fresh.{fresh};
ghost use Rattle.plain_log.specs.Runs.{replay as replay_of, IsComplete};
ghost use Rattle.plain_log.specs.State.{actor_at};
ghost use Rattle.plain_executor.specs.Complete.{IsCompleteRun, RunsEndComplete};
ghost use Rattle.plain_executor.specs.Fits.{AreFor};

use crate::counts::{are_answered, count_of, count_orders};
use crate::plain::Plain;
use crate::trace::replay;
use plain_log::{ActorList, Config, JournalEntry};
use std::alloc::{AllocError, Global};

/// A run is complete exactly where each actor is at the end of its list after it.
pub fn runs_end_complete()
    ensures { RunsEndComplete }
{}

/// Whether each actor that has a list is at its end.
fn are_at_end(plain: &Plain, lists: &[ActorList], counts: &[usize]) -> bool
    ensures { IsTrue result
        ↔ All (λ l. (actor_at plain.now.actors l.actor.0).number ≡ slice_index counts.now l.actor.0) lists.now }
{
    for list in lists {
        if plain.number(list.actor) as usize != count_of(counts, list.actor) {
            return false;
        }
    }
    true
}

/// Returns whether a journal answers every command of every list, each once and in its actor's order. Whether it is a
/// run isn't looked at. Fails only if memory runs out.
pub fn is_complete(
    alloc: Global,
    lists: &[ActorList],
    journal: &[JournalEntry],
) -> Result<bool, AllocError>
    ensures { IfOk result (λ is. IsTrue is ↔ IsComplete lists.now journal.now) }
{
    let counts = count_orders(alloc, lists)?;
    let complete = are_answered(alloc, journal, counts.as_slice())?;
    Ok(complete)
}

/// Whether a run that ends so is complete.
fn ends_complete(alloc: Global, plain: &Plain, lists: &[ActorList]) -> Result<bool, AllocError>
    ensures { IfOk result (λ is. (config : ConfigIs) (journal : List Entry)
        → replay_of lists.now (fresh config) journal ≡ Some plain.now
        → IsTrue is ↔ IsCompleteRun config lists.now journal) }
{
    runs_end_complete();
    let counts = count_orders(alloc, lists)?;
    Ok(are_at_end(plain, lists, counts.as_slice()))
}

/// Returns whether a journal is a run of the plain log that answers every command of every list. The journal is gone
/// over once. Fails only if memory runs out.
pub fn is_complete_run(
    alloc: Global,
    config: &Config,
    lists: &[ActorList],
    journal: &[JournalEntry],
) -> Result<bool, AllocError>
    requires some { 1 ≤ config.now.brokers }
    requires few { config.now.brokers ≤ 8 }
    requires fit { AreFor lists.now }
    ensures { IfOk result (λ is. IsTrue is ↔ IsCompleteRun config.now lists.now journal.now) }
{
    let Some(plain) = replay(alloc, config, lists, journal)? else {
        return Ok(false);
    };
    let complete = ends_complete(alloc, &plain, lists);
    drop(plain);
    complete
}
