//! How many orders each actor has, and whether a journal answers so many.
//!
//! Both lists of counts are by the actors' numbers, so that each entry of a journal is looked at once.

ghost use Rattle.std.specs.Prelude.{◌≡◌, ◌↔◌, ◌++◌, ◌∷◌, [], ℕ, List, length, slice_index};
ghost use Rattle.std.specs.Prelude.{false, IsTrue, IfOk, OnOk, if◌then◌else◌, ◌==◌};
ghost use Rattle.plain_log.specs.declared.journal.JournalEntry.{JournalEntry as EntryIs};
ghost use Rattle.plain_executor.specs.Complete.{AreAnswered, AreCounts};

use plain_log::{ActorList, Event, JournalEntry};
use std::alloc::{AllocError, Global};
use tier_base::ActorId;

/// Puts an actor's count in its place, with 0 before it where there is none.
fn put(counts: &mut Vec<usize>, actor: ActorId, count: usize) -> Result<(), AllocError>
    ensures { OnOk result ((a : ℕ) → slice_index counts.new.items a
        ≡ (if actor.0 == a then count else slice_index counts.old.items a)) }
{
    let a = actor.0 as usize;
    if counts.len() <= a {
        counts.resize(a + 1, 0)?;
    }
    counts[a] = count;
    Ok(())
}

/// Counts each actor's orders.
pub(crate) fn count_orders(alloc: Global, lists: &[ActorList]) -> Result<Vec<usize>, AllocError>
    ensures { IfOk result (λ counts. AreCounts lists.now counts.items) }
{
    let mut counts = Vec::new(alloc);
    let mut at = lists.len();
    // The first list of an actor is the one that counts, so it comes last.
    while at > 0 {
        at -= 1;
        let list = &lists[at];
        put(&mut counts, list.actor, list.orders.len())?;
    }
    Ok(counts)
}

/// An actor's count.
pub(crate) fn count_of(counts: &[usize], actor: ActorId) -> usize
    ensures { result ≡ slice_index counts.now actor.0 }
{
    let a = actor.0 as usize;
    if a < counts.len() { counts[a] } else { 0 }
}

/// Counts an entry, unless it answers another command than its actor's next one, or is of an actor past the end.
fn count(counts: &mut [usize], entry: &JournalEntry) -> bool
    ensures next { IsTrue result → (journal : List EntryIs) → AreAnswered journal counts.old
        → AreAnswered (journal ++ entry.now ∷ []) counts.new }
    ensures other { result ≡ false → (journal more : List EntryIs) → AreAnswered journal counts.old
        → (wanted : List ℕ) → length wanted ≡ length counts.old → AreAnswered (journal ++ entry.now ∷ more) wanted → ⊥ }
{
    match &entry.event {
        Event::Begins { .. } => true,
        Event::Answers(_) => {
            let a = entry.actor.0 as usize;
            if a >= counts.len() || counts[a] != entry.number as usize {
                return false;
            }
            counts[a] += 1;
            true
        }
    }
}

/// Whether of each actor's commands so many are answered, the first ones, once and in order.
pub(crate) fn are_answered(
    alloc: Global,
    journal: &[JournalEntry],
    wanted: &[usize],
) -> Result<bool, AllocError>
    ensures { IfOk result (λ are. IsTrue are ↔ AreAnswered journal.now wanted.now) }
{
    let mut counts = vec![in alloc; 0; wanted.len()]?;
    for entry in journal {
        if !count(counts.as_mut_slice(), entry) {
            return Ok(false);
        }
    }
    Ok(counts.as_slice() == wanted)
}
