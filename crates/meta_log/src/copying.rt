//! Copies of events.

ghost use Rattle.std.specs.Prelude.{◌≡◌, IfOk};

use segment_meta::{Note, copied_custom};
use std::alloc::{AllocError, Global};

/// An event that says the same.
pub fn copied(alloc: Global, note: &Note) -> Result<Note, AllocError>
    ensures { IfOk result (λ copy. copy ≡ note.now) }
{
    match note {
        Note::Add(entry) => Ok(Note::Add(entry.copy(alloc)?)),
        Note::Update {
            id,
            broker,
            event_ts,
            state,
            custom,
        } => Ok(Note::Update {
            id: *id,
            broker: *broker,
            event_ts: *event_ts,
            state: *state,
            custom: copied_custom(alloc, custom)?,
        }),
    }
}
