//! Taking away the objects that don't stay.

ghost use Rattle.std.specs.Prelude.{◌≡◌, IfOk, IsTrue};
ghost use Rattle.tier_sweep.specs.Rest.{stays};
ghost use Rattle.tier_sweep.specs.Sweeping.{count_swept};
ghost use Rattle.tier_sweep.specs.Parts.{StoreRuns, Deletes, DeletesOne, RemovesObject, TakesEach};

use crate::refusal::SweepRefusal;
use object_store::{ObjectKey, Store};
use remote_view::View;
use tier_base::State;

/// Takes away the objects of these keys that don't stay, and counts them.
pub(crate) fn take_all<S: Store>(
    store: &mut S,
    view: &View,
    keys: &[ObjectKey],
) -> Result<u64, SweepRefusal>
    ensures is_observable { (S.content store.new).is_observable ≡ (S.content store.old).is_observable }
    ensures objects { IsTrue (S.content store.old).is_observable → TakesEach view.now.entries keys.now result
        (S.content store.old).objects (S.content store.new).objects }
    ensures count { IfOk result (λ swept. swept ≡ count_swept view.now.entries keys.now) }
    ensures deletes { Deletes result (S.control store.old) (S.control store.new) }
    ensures calls { StoreRuns result (S.control store.old) (S.control store.new) }
{
    let mut swept = 0;
    for key in keys {
        if !stays(view, key) {
            take(store, key)?;
            swept += 1;
        }
    }
    Ok(swept)
}

/// Takes an object away.
fn take<S: Store>(store: &mut S, key: &ObjectKey) -> Result<(), SweepRefusal>
    ensures is_observable { (S.content store.new).is_observable ≡ (S.content store.old).is_observable }
    ensures objects { IsTrue (S.content store.old).is_observable
        → RemovesObject key.now result (S.content store.old).objects (S.content store.new).objects }
    ensures deletes { DeletesOne result (S.control store.old) (S.control store.new) }
    ensures calls { StoreRuns result (S.control store.old) (S.control store.new) }
{
    match store.delete(key) {
        Ok(()) => Ok(()),
        Err(_) => Err(SweepRefusal::StoreFault),
    }
}

/// Whether an object is to stay.
fn stays(view: &View, key: &ObjectKey) -> bool
    ensures { result ≡ stays view.now.entries key.now.id }
{
    matches!(view.state(key.id), Some(State::CopyFinished))
}
