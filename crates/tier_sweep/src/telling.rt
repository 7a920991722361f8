//! Appending to the metadata log that deletions start and that they are finished.
//!
//! An event has its entry's broker and time: no broker sweeps, and the step changes nothing but the state.

ghost use Rattle.std.specs.Prelude.{◌≡◌, ◌≢◌, ◌∷◌, [], IsTrue};
ghost use Rattle.tier_base.specs.declared.plain.State.TheVariants.{CopyStarted};
ghost use Rattle.meta_log.specs.Content.{LeavesTold};
ghost use Rattle.tier_sweep.specs.Rest.{is_under_way};
ghost use Rattle.tier_sweep.specs.Sweeping.{is_copying, note_of, starts_of, ends_of};
ghost use Rattle.tier_sweep.specs.Parts.{MetaRuns, AppendsNotes, LeavesTelling};

use crate::refusal::SweepRefusal;
use meta_log::MetaLog;
use segment_meta::{Entry, Note, bare_custom};
use std::alloc::Global;
use tier_base::{State, Trouble};

/// Reports that deletions start, of the copies in progress.
pub(crate) fn tell_starts<M: MetaLog>(
    alloc: Global,
    meta: &mut M,
    entries: &[Entry],
) -> Result<(), SweepRefusal>
    ensures is_observable { (M.content meta.new).is_observable ≡ (M.content meta.old).is_observable }
    ensures notes { IsTrue (M.content meta.old).is_observable
        → AppendsNotes (starts_of entries.now) result (M.content meta.old).notes (M.content meta.new).notes }
    ensures left { IsTrue (M.content meta.old).is_observable → LeavesTold (M.content meta.old)
        → LeavesTelling (starts_of entries.now) result (M.content meta.old).notes (M.content meta.new) }
    ensures calls { MetaRuns result (M.control meta.old) (M.control meta.new) }
{
    for entry in entries {
        if is_copying(entry.state) {
            tell(alloc, meta, State::DeleteStarted, entry)?;
        }
    }
    Ok(())
}

/// Reports that deletions are finished, of the copies and deletions in progress.
pub(crate) fn tell_ends<M: MetaLog>(
    alloc: Global,
    meta: &mut M,
    entries: &[Entry],
) -> Result<(), SweepRefusal>
    ensures is_observable { (M.content meta.new).is_observable ≡ (M.content meta.old).is_observable }
    ensures notes { IsTrue (M.content meta.old).is_observable
        → AppendsNotes (ends_of entries.now) result (M.content meta.old).notes (M.content meta.new).notes }
    ensures left { IsTrue (M.content meta.old).is_observable → LeavesTold (M.content meta.old)
        → LeavesTelling (ends_of entries.now) result (M.content meta.old).notes (M.content meta.new) }
    ensures calls { MetaRuns result (M.control meta.old) (M.control meta.new) }
{
    for entry in entries {
        if is_under_way(entry.state) {
            tell(alloc, meta, State::DeleteFinished, entry)?;
        }
    }
    Ok(())
}

/// Reports that an entry's segment has another state.
fn tell<M: MetaLog>(
    alloc: Global,
    meta: &mut M,
    state: State,
    entry: &Entry,
) -> Result<(), SweepRefusal>
    requires { state ≢ CopyStarted }
    ensures is_observable { (M.content meta.new).is_observable ≡ (M.content meta.old).is_observable }
    ensures notes { IsTrue (M.content meta.old).is_observable
        → AppendsNotes (note_of state entry.now ∷ []) result (M.content meta.old).notes (M.content meta.new).notes }
    ensures left { IsTrue (M.content meta.old).is_observable → LeavesTold (M.content meta.old)
        → LeavesTelling (note_of state entry.now ∷ []) result (M.content meta.old).notes (M.content meta.new) }
    ensures calls { MetaRuns result (M.control meta.old) (M.control meta.new) }
{
    match meta.append(&note_of(alloc, state, entry)) {
        Ok(_) => Ok(()),
        Err(Trouble::Failed) => Err(SweepRefusal::MetaFault),
        Err(Trouble::NoMemory) => Err(SweepRefusal::NoMemory),
    }
}

/// That an entry's segment has another state.
fn note_of(alloc: Global, state: State, entry: &Entry) -> Note
    ensures { result ≡ note_of state entry.now }
{
    Note::Update {
        id: entry.id,
        broker: entry.broker,
        event_ts: entry.event_ts,
        state,
        custom: bare_custom(alloc, entry.packed),
    }
}

/// Whether a copy is in progress.
fn is_copying(state: State) -> bool
    ensures { result ≡ is_copying state }
{
    matches!(state, State::CopyStarted)
}

/// Whether a copy or a deletion is in progress.
fn is_under_way(state: State) -> bool
    ensures { result ≡ is_under_way state }
{
    matches!(state, State::CopyStarted | State::DeleteStarted)
}
