//! A sweep of a tier at rest.
//!
//! The events that all deletions start are appended before the first object is deleted, so nobody reads a segment whose
//! objects are going. The events that they are finished are appended once none of their objects is left. After a
//! refused sweep a further one finishes the work.

ghost use Rattle.std.specs.Prelude.{◌≡◌, ◌⊎◌, IfOk, OnOk, OnErr, IsTrue};
ghost use Rattle.tier_base.specs.Told.{NamesAllHeld};
ghost use Rattle.tier_base.specs.Device.{RanQuietly, Went, Lasts};
ghost use Rattle.object_store.specs.declared.call.StoreCall.TheVariants.{Keys};
ghost use Rattle.object_store.specs.Content as objects;
ghost use Rattle.meta_log.specs.Content as notes;
ghost use Rattle.remote_view.specs.Fold.{fold};
ghost use Rattle.tier_sweep.specs.Sweeping.{IsSwept, IsUnderSweep, LeavesUnder, SweepHasCause, IsQuiet, tier_of};
ghost use Rattle.tier_sweep.specs.Parts.{MetaRuns, StoreRuns, AllWent, Deleted, SomeDeleted, ListsAndDeletes};

use crate::refusal::SweepRefusal;
use crate::taking::take_all;
use crate::telling::{tell_ends, tell_starts};
use meta_log::MetaLog;
use object_store::{ObjectKey, Store};
use remote_view::View;
use std::alloc::Global;
use tier_base::{Items, Trouble};
use view_refresh::refresh;

/// Takes away what copies and deletions left that were never finished, and counts the objects that it took. No command
/// may be in progress, and nobody else may write. `SweepRefusal` has the causes of a failure.
pub fn sweep<S: Store, M: MetaLog>(
    alloc: Global,
    store: &mut S,
    meta: &mut M,
) -> Result<u64, SweepRefusal>
    ensures ok { IsTrue (S.content store.old).is_observable → IsTrue (M.content meta.old).is_observable
        → IfOk result (IsSwept
        (tier_of (S.content store.old) (M.content meta.old)) (tier_of (S.content store.new) (M.content meta.new))) }
    ensures err { IsTrue (S.content store.old).is_observable → IsTrue (M.content meta.old).is_observable
        → OnErr result (IsUnderSweep
        (tier_of (S.content store.old) (M.content meta.old)) (tier_of (S.content store.new) (M.content meta.new))) }
    // What a power cut may leave afterwards, whatever the sweep answers; after one that was done no other events than
    // are reported.
    ensures left { IsTrue (S.content store.old).is_observable → IsTrue (M.content meta.old).is_observable → LeavesUnder
        (S.content store.old) (M.content meta.old) (S.content store.new) (M.content meta.new) }
    ensures told { IsTrue (M.content meta.old).is_observable → OnOk result (notes.LeavesTold (M.content meta.new)) }
    ensures cause { SweepHasCause result (S.control store.old).faults (S.control store.new).faults
        (M.control meta.old).faults (M.control meta.new).faults }

    // Of each device whether it reports, and its calls: no fault is hidden.
    ensures store_tells { (S.content store.new).is_observable ≡ (S.content store.old).is_observable }
    ensures meta_tells { (M.content meta.new).is_observable ≡ (M.content meta.old).is_observable }
    ensures store_calls { Lasts (S.control store.old) (S.control store.new) }
    ensures meta_calls { Lasts (M.control meta.old) (M.control meta.new) }
    ensures quiet { IsQuiet result (S.control store.old).faults (S.control store.new).faults
        (M.control meta.old).faults (M.control meta.new).faults }
    ensures store_went { IfOk result (λ swept.
        ListsAndDeletes (λ old new. Deleted old swept new) (S.control store.old) (S.control store.new)) }
    ensures meta_went { OnOk result (AllWent (M.control meta.old) (M.control meta.new)) }

    // Nothing is reported before the store was listed.
    ensures listed { ListsAndDeletes SomeDeleted (S.control store.old) (S.control store.new)
        ⊎ notes.Keeps (M.content meta.old) (M.content meta.new) }
{
    let view = read_view(alloc, meta)?;
    let keys = list(store)?;
    tell_starts(alloc, meta, view.entries())?;
    let swept = take_all(store, &view, keys.as_slice())?;
    tell_ends(alloc, meta, view.entries())?;
    Ok(swept)
}

/// Reads what the metadata log reports.
fn read_view<M: MetaLog>(alloc: Global, meta: &mut M) -> Result<View, SweepRefusal>
    ensures entries { IsTrue (M.content meta.old).is_observable
        → IfOk result (λ view. view.entries ≡ fold (M.content meta.old).notes) }
    ensures content { notes.Keeps (M.content meta.old) (M.content meta.new) }
    ensures told { IsTrue (M.content meta.old).is_observable → OnOk result (notes.LeavesTold (M.content meta.new)) }
    ensures calls { MetaRuns result (M.control meta.old) (M.control meta.new) }
{
    let mut view = View::new(alloc);
    match refresh(&mut view, meta) {
        Ok(()) => Ok(view),
        Err(Trouble::Failed) => Err(SweepRefusal::MetaFault),
        Err(Trouble::NoMemory) => Err(SweepRefusal::NoMemory),
    }
}

/// Lists the objects.
fn list<S: Store>(store: &mut S) -> Result<Items<ObjectKey>, SweepRefusal>
    ensures keys { IsTrue (S.content store.old).is_observable
        → IfOk result (λ keys. NamesAllHeld (S.content store.old).objects keys) }
    ensures content { objects.Keeps (S.content store.old) (S.content store.new) }
    ensures once { OnOk result (RanQuietly Keys Went (S.control store.old) (S.control store.new)) }
    ensures calls { StoreRuns result (S.control store.old) (S.control store.new) }
{
    match store.keys() {
        Ok(keys) => Ok(keys),
        Err(Trouble::Failed) => Err(SweepRefusal::StoreFault),
        Err(Trouble::NoMemory) => Err(SweepRefusal::NoMemory),
    }
}
