//! A remote segment's metadata, and the events that change it. specs/Rules.antt says which events are valid.

ghost use Rattle.std.specs.Prelude.{◌≡◌, IfOk};

use crate::custom::copied_custom;
use epoch_line::Line;
use std::alloc::{AllocError, Global};
use tier_base::{Blob, BrokerId, PartitionId, SegmentId, State};

/// What is known of a remote segment (Kafka's RemoteLogSegmentMetadata).
#[derive(Debug, Drop)]
pub struct Entry {
    pub id: SegmentId,
    pub partition: PartitionId,
    /// The first offset.
    pub start: u64,
    /// The last offset.
    pub end: u64,
    /// The greatest timestamp of its batches.
    pub max_ts: i64,
    /// The broker whose event changed it last.
    pub broker: BrokerId,
    /// When that event was made, in milliseconds.
    pub event_ts: i64,
    /// The size of its log segment in bytes.
    pub size: u32,
    pub state: State,
    /// The leader epochs in it, and where each starts.
    pub map: Line,
    /// Whether its parts are packed into one object.
    pub packed: bool,
    /// What the store says of it (Kafka's CustomMetadata): the part lengths of a packed segment.
    pub custom: Option<Blob>,
}

impl Entry {
    /// A copy of the entry. Fails only if memory runs out.
    pub fn copy(&self, alloc: Global) -> Result<Entry, AllocError>
        ensures { IfOk result (λ copy. copy ≡ self.now) }
    {
        Ok(Entry {
            id: self.id,
            partition: self.partition,
            start: self.start,
            end: self.end,
            max_ts: self.max_ts,
            broker: self.broker,
            event_ts: self.event_ts,
            size: self.size,
            state: self.state,
            map: self.map.copy(alloc)?,
            packed: self.packed,
            custom: copied_custom(alloc, &self.custom)?,
        })
    }
}

/// A metadata event of a remote segment.
#[derive(Debug, Drop)]
pub enum Note {
    /// The copy of a segment starts.
    Add(Entry),
    /// A segment gets another state.
    Update {
        id: SegmentId,
        broker: BrokerId,
        event_ts: i64,
        state: State,
        custom: Option<Blob>,
    },
}

/// An entry's fields between its id and its map, as they are in an event.
#[derive(Clone, Copy)]
pub(crate) struct Front {
    pub partition: PartitionId,
    pub start: u64,
    pub end: u64,
    pub max_ts: i64,
    pub broker: BrokerId,
    pub event_ts: i64,
    pub size: u32,
}
