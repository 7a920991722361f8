//! The turns of a copy, one call of a device each.

ghost use Rattle.std.specs.Prelude.{◌≡◌, slice_get};
ghost use Rattle.remote_view.specs.Fold.{state_of};
ghost use Rattle.copy_task.specs.Copying.{keys};
ghost use Rattle.copy_task.specs.Turns.{Tiers, put_at, delete_at, overtaken, checked, StartRow};
ghost use Rattle.copy_task.specs.Turns.{PutObjectRow, FinishRow, CheckRow, DeleteRow, CopyTurnRow};

use crate::copying::Copying;
use crate::turn::CopyStep;
use meta_log::{EventOrigin, MetaLog};
use object_store::Store;
use plain_log::{Answer, Place, Turn};
use remote_view::View;
use std::alloc::{AllocError, Global};
use tier_base::{State, Trouble};
use view_refresh::refresh;

/// Takes the next turn of a copy. Fails only if memory runs out.
pub fn copy_turn<S: Store, M: MetaLog>(
    alloc: Global,
    copying: &mut Copying,
    next: CopyStep,
    origin: EventOrigin,
    view: &mut View,
    store: &mut S,
    meta: &mut M,
) -> Result<Turn<CopyStep>, AllocError>
    ensures row { CopyTurnRow S.content S.control M.content M.control copying.old origin next result
        (record { view = view.old; store = store.old; meta = meta.old })
        (record { view = view.new; store = store.new; meta = meta.new }) }
    ensures same { copying.new ≡ copying.old }
{
    match next {
        CopyStep::Start => start(alloc, copying, origin, meta),
        CopyStep::Put(n) => put(alloc, copying, n, store),
        CopyStep::Finish => finish(alloc, copying, origin, meta),
        CopyStep::Check => check(copying, view, meta),
        CopyStep::Delete(n) => Ok(delete(copying, n, view, store)),
    }
}

/// Appends the event that a copy starts.
fn start<M: MetaLog>(
    alloc: Global,
    copying: &Copying,
    origin: EventOrigin,
    meta: &mut M,
) -> Result<Turn<CopyStep>, AllocError>
    ensures { StartRow M.content M.control copying.now origin result meta.old meta.new }
{
    let note = copying.start_note(alloc, origin)?;
    match meta.append(&note) {
        Ok(_) => Ok(Turn::Goes(CopyStep::Put(0))),
        Err(Trouble::Failed) => Ok(Turn::Ends(Answer::MetaFault)),
        Err(Trouble::NoMemory) => Err(AllocError),
    }
}

/// Puts an object, where one has this number.
fn put<S: Store>(
    alloc: Global,
    copying: &mut Copying,
    n: u8,
    store: &mut S,
) -> Result<Turn<CopyStep>, AllocError>
    ensures row { PutObjectRow S.content S.control copying.old n (slice_get (keys copying.old) n) result
        store.old store.new }
    ensures same { copying.new ≡ copying.old }
{
    let Some(key) = copying.key(n) else {
        return Ok(Turn::Goes(CopyStep::Finish));
    };
    let bytes = copying.part(alloc, key.part)?;
    match store.put(&key, &bytes) {
        Ok(()) => Ok(Turn::Goes(put_at(copying, n + 1))),
        Err(Trouble::Failed) => Ok(Turn::Ends(Answer::StoreFault)),
        Err(Trouble::NoMemory) => Err(AllocError),
    }
}

/// The turn that puts the object of this number, or the one after the last.
fn put_at(copying: &Copying, n: u8) -> CopyStep
    ensures { result ≡ put_at n (slice_get (keys copying.now) n) }
{
    match copying.key(n) {
        Some(_) => CopyStep::Put(n),
        None => CopyStep::Finish,
    }
}

/// Appends the event that a copy is whole.
fn finish<M: MetaLog>(
    alloc: Global,
    copying: &mut Copying,
    origin: EventOrigin,
    meta: &mut M,
) -> Result<Turn<CopyStep>, AllocError>
    ensures row { FinishRow M.content M.control copying.old origin result meta.old meta.new }
    ensures same { copying.new ≡ copying.old }
{
    let note = copying.finish_note(alloc, origin)?;
    match meta.append(&note) {
        Ok(_) => Ok(Turn::Goes(CopyStep::Check)),
        Err(Trouble::Failed) => Ok(Turn::Ends(Answer::MetaFault)),
        Err(Trouble::NoMemory) => Err(AllocError),
    }
}

/// Looks the state of a copy's entry in the metadata log.
fn check<M: MetaLog>(
    copying: &Copying,
    view: &mut View,
    meta: &mut M,
) -> Result<Turn<CopyStep>, AllocError>
    ensures { CheckRow M.content M.control copying.now result view.old view.new meta.old meta.new }
{
    match refresh(view, meta) {
        Ok(()) => Ok(found(copying, view)),
        Err(Trouble::Failed) => Ok(Turn::Ends(Answer::MetaFault)),
        Err(Trouble::NoMemory) => Err(AllocError),
    }
}

/// What a refreshed view says of a copy.
fn found(copying: &Copying, view: &View) -> Turn<CopyStep>
    ensures { result ≡ checked copying.now view.now.notes (state_of copying.now.id view.now.entries) }
{
    match view.state(copying.id()) {
        Some(State::CopyFinished) => Turn::Ends(Answer::CopiedSegment(
            copying.id(),
            copying.base(),
            copying.last(),
        )),
        Some(State::DeleteStarted | State::DeleteFinished) => Turn::Goes(CopyStep::Delete(0)),
        Some(State::CopyStarted) | None => Turn::Ends(Answer::Damaged(Place::Meta, view.seen())),
    }
}

/// Takes an object away, where one has this number.
fn delete<S: Store>(copying: &Copying, n: u8, view: &View, store: &mut S) -> Turn<CopyStep>
    ensures { DeleteRow S.content S.control copying.now view.now n (slice_get (keys copying.now) n)
        result store.old store.new }
{
    let Some(key) = copying.key(n) else {
        return Turn::Ends(overtaken(copying, view));
    };
    match store.delete(&key) {
        Ok(()) => delete_at(copying, n + 1, view),
        Err(_) => Turn::Ends(Answer::StoreFault),
    }
}

/// The turn that takes the object of this number away, or the answer after the last.
fn delete_at(copying: &Copying, n: u8, view: &View) -> Turn<CopyStep>
    ensures { result ≡ delete_at copying.now view.now n (slice_get (keys copying.now) n) }
{
    match copying.key(n) {
        Some(_) => Turn::Goes(CopyStep::Delete(n)),
        None => Turn::Ends(overtaken(copying, view)),
    }
}

/// What a copy answers that has taken its objects away: the state that its entry has by now in the
/// view.
fn overtaken(copying: &Copying, view: &View) -> Answer
    ensures { result ≡ overtaken view.now.notes (state_of copying.now.id view.now.entries) }
{
    match view.state(copying.id()) {
        Some(state) => Answer::Overtaken(state),
        None => Answer::Damaged(Place::Meta, view.seen()),
    }
}
