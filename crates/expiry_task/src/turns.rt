//! The turns of an expiry, one device call each.

ghost use Rattle.std.specs.Prelude.{◌≡◌, slice_get};
ghost use Rattle.expiry_task.specs.Turns.{Tiers, keys, note_of, delete_at, StartRow, FinishRow, DeleteRow, ExpiryRow};

use crate::turn::{DeletionStep, ExpiredSegment};
use meta_log::{EventOrigin, MetaLog};
use object_store::{ObjectKey, Store, keys_of};
use plain_log::{Answer, Turn};
use segment_meta::{Note, bare_custom};
use std::alloc::{AllocError, Global};
use tier_base::{State, Trouble};

/// Takes the next turn of an expiry. Fails only if memory runs out.
pub fn expiry_turn<S: Store, M: MetaLog>(
    alloc: Global,
    expired_segment: ExpiredSegment,
    next: DeletionStep,
    origin: EventOrigin,
    store: &mut S,
    meta: &mut M,
) -> Result<Turn<DeletionStep>, AllocError>
    ensures { ExpiryRow S.content S.control M.content M.control expired_segment origin next result
        (record { store = store.old; meta = meta.old }) (record { store = store.new; meta = meta.new }) }
{
    match next {
        DeletionStep::Start => start(alloc, expired_segment, origin, meta),
        DeletionStep::Delete(n) => Ok(delete(expired_segment, n, store)),
        DeletionStep::Finish => finish(alloc, expired_segment, origin, meta),
    }
}

/// Appends the event that a deletion starts.
fn start<M: MetaLog>(
    alloc: Global,
    expired_segment: ExpiredSegment,
    origin: EventOrigin,
    meta: &mut M,
) -> Result<Turn<DeletionStep>, AllocError>
    ensures { StartRow M.content M.control expired_segment origin result meta.old meta.new }
{
    match meta.append(&note_of(alloc, expired_segment, origin, State::DeleteStarted)) {
        Ok(_) => Ok(Turn::Goes(DeletionStep::Delete(0))),
        Err(Trouble::Failed) => Ok(Turn::Ends(Answer::MetaFault)),
        Err(Trouble::NoMemory) => Err(AllocError),
    }
}

/// Takes an object away, where one has this number.
fn delete<S: Store>(expired_segment: ExpiredSegment, n: u8, store: &mut S) -> Turn<DeletionStep>
    ensures { DeleteRow S.content S.control expired_segment n (slice_get (keys expired_segment) n) result
        store.old store.new }
{
    let Some(key) = key_at(&expired_segment, n) else {
        return Turn::Goes(DeletionStep::Finish);
    };
    match store.delete(&key) {
        Ok(()) => Turn::Goes(delete_at(&expired_segment, n + 1)),
        Err(_) => Turn::Ends(Answer::StoreFault),
    }
}

/// The turn that takes the object of this number away, or the one after the last.
fn delete_at(expired_segment: &ExpiredSegment, n: u8) -> DeletionStep
    ensures { result ≡ delete_at n (slice_get (keys expired_segment.now) n) }
{
    match key_at(expired_segment, n) {
        Some(_) => DeletionStep::Delete(n),
        None => DeletionStep::Finish,
    }
}

/// The key of an object, where one has this number, counted from 0.
fn key_at(expired_segment: &ExpiredSegment, n: u8) -> Option<ObjectKey>
    ensures { result ≡ slice_get (keys expired_segment.now) n }
{
    let keys = keys_of(
        expired_segment.partition,
        expired_segment.id,
        expired_segment.packed,
    );
    if n < keys.count() {
        Some(keys.get(n))
    } else {
        None
    }
}

/// Appends the event that no object exists.
fn finish<M: MetaLog>(
    alloc: Global,
    expired_segment: ExpiredSegment,
    origin: EventOrigin,
    meta: &mut M,
) -> Result<Turn<DeletionStep>, AllocError>
    ensures { FinishRow M.content M.control expired_segment origin result meta.old meta.new }
{
    let id = expired_segment.id;
    match meta.append(&note_of(alloc, expired_segment, origin, State::DeleteFinished)) {
        Ok(_) => Ok(Turn::Ends(Answer::Deleted(id))),
        Err(Trouble::Failed) => Ok(Turn::Ends(Answer::MetaFault)),
        Err(Trouble::NoMemory) => Err(AllocError),
    }
}

/// That a segment has another state.
fn note_of(
    alloc: Global,
    expired_segment: ExpiredSegment,
    origin: EventOrigin,
    state: State,
) -> Note
    ensures { result ≡ note_of expired_segment origin state }
{
    Note::Update {
        id: expired_segment.id,
        broker: origin.broker,
        event_ts: origin.now,
        state,
        custom: bare_custom(alloc, expired_segment.packed),
    }
}
