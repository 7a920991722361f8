//! The ranges after a metadata event: those that an entry's step changes are rebuilt, and nothing else changes.
//!
//! A copy that finishes is laid over the ranges of its epochs. One whose deletion starts leaves them, and what was
//! under it shows again: its ranges go, and the other entries are laid over the same offsets.

ghost use Rattle.std.specs.Prelude.{◌≡◌, ℕ, ℤ, true, List, Option, Some, is_some, OnOk, IfOk};
ghost use Rattle.tier_base.specs.declared.names.BrokerId.{BrokerId};
ghost use Rattle.segment_meta.specs.Steps.{next_state};
ghost use Rattle.remote_view.specs.Fold.{entry_of, changed, updated, IsEntryValid};
ghost use Rattle.remote_view.specs.Fold.{AreEntriesValid, AreDistinct, others};
ghost use Rattle.remote_view.specs.Stairs.{RisesAlong, IsStair};
ghost use Rattle.remote_view.specs.Laying.{IsLaidIn};
ghost use Rattle.remote_view.specs.Storing.{stair_on, AreFreshStairs};

use crate::epoch_ranges::EpochRanges;
use crate::known::Known;
use crate::lifting::lies_under;
use crate::lookup::is_readable;
use crate::spans::span_of;
use crate::stairs::{Stair, Stairs};
use segment_meta::Entry;
use std::alloc::{AllocError, Global};
use tier_base::{Items, State};

/// Lays an entry over a stair where it gives the stair's epoch.
fn lay_in(
    alloc: Global,
    known: &Known,
    stair: EpochRanges,
    entry: &Entry,
    epoch: u32,
) -> Result<EpochRanges, AllocError>
    requires kept { IsEntryValid entry.now }
    requires rises { RisesAlong stair }
    ensures { IfOk result (λ laid. IsLaidIn known.now entry.now epoch stair laid) }
{
    match span_of(entry.map.entries(), epoch, entry.end + 1) {
        Some(span) => stair.lay(alloc, known, entry, span),
        None => Ok(stair),
    }
}

/// The stair of an epoch over all entries but one.
fn bared(
    alloc: Global,
    known: &Known,
    stairs: &Stairs,
    entry: &Entry,
    epoch: u32,
) -> Result<EpochRanges, AllocError>
    requires kept { AreEntriesValid known.now }
    requires distinct { AreDistinct known.now }
    requires stair { IsStair known.now epoch (stair_on stairs.now epoch) }
    requires here { entry_of entry.now.id known.now ≡ Some entry.now }
    ensures { IfOk result (λ stair. IsStair (others entry.now.id known.now) epoch stair) }
{
    let mut stair = stairs.lifted(alloc, epoch, &entry.id, entry.end + 1)?;
    for other in known.entries() {
        if lies_under(entry, other) {
            stair = lay_in(alloc, known, stair, other, epoch)?;
        }
    }
    Ok(stair)
}

/// The stair of an epoch after an entry's step from or to a finished copy.
fn anew(
    alloc: Global,
    known: &Known,
    stairs: &Stairs,
    entry: &Entry,
    state: State,
    epoch: u32,
) -> Result<EpochRanges, AllocError>
    requires kept { AreEntriesValid known.now }
    requires distinct { AreDistinct known.now }
    requires stair { IsStair known.now epoch (stair_on stairs.now epoch) }
    requires here { entry_of entry.now.id known.now ≡ Some entry.now }
    requires step { is_some (next_state (Some entry.now.state) state) ≡ true }
    ensures { IfOk result (λ laid. (broker : BrokerId) (event_ts : ℤ) (custom : Option (List ℕ))
        → IsStair (changed entry.now.id (updated broker event_ts state custom) known.now) epoch laid) }
{
    if is_readable(state) {
        let stair = stairs.copy(alloc, epoch)?;
        lay_in(alloc, known, stair, entry, epoch)
    } else {
        bared(alloc, known, stairs, entry, epoch)
    }
}

/// The stairs that an entry's step changes, and room for them.
pub(crate) fn fresh(
    alloc: Global,
    known: &Known,
    stairs: &mut Stairs,
    entry: &Entry,
    state: State,
) -> Result<Items<Stair>, AllocError>
    requires kept { AreEntriesValid known.now }
    requires distinct { AreDistinct known.now }
    requires stairs { (epoch : ℕ) → IsStair known.now epoch (stair_on stairs.old epoch) }
    requires here { entry_of entry.now.id known.now ≡ Some entry.now }
    requires step { is_some (next_state (Some entry.now.state) state) ≡ true }
    ensures same { (epoch : ℕ) → stair_on stairs.new epoch ≡ stair_on stairs.old epoch }
    ensures ok { IfOk result (λ fresh. (broker : BrokerId) (event_ts : ℤ) (custom : Option (List ℕ))
        → AreFreshStairs (changed entry.now.id (updated broker event_ts state custom) known.now) stairs.new fresh) }
{
    let mut fresh = Items::new(alloc);
    if !is_readable(entry.state) && !is_readable(state) {
        return Ok(fresh);
    }
    for pair in entry.map.entries() {
        let epoch = pair.0;
        stairs.reserve(alloc, epoch)?;
        let treads = anew(alloc, known, stairs, entry, state, epoch)?;
        fresh.push(Stair { epoch, treads })?;
    }
    Ok(fresh)
}
