//! What an expiry does next, and the result of a turn.

use plain_log::Answer;
use tier_base::{PartitionId, SegmentId};

/// A remote segment that is to be deleted.
#[derive(Clone, Copy, Debug, PartialEq, Eq)]
pub struct ExpiredSegment {
    pub partition: PartitionId,
    pub id: SegmentId,
    /// Whether its parts are packed into one object.
    pub packed: bool,
}

/// What the next turn of an expiry does.
#[derive(Clone, Copy, Debug, PartialEq, Eq)]
pub enum DeletionStep {
    /// Append the event that the deletion starts.
    Start,
    /// Delete the object whose key has this number among those of its segment.
    Delete(u8),
    /// Append the event that the deletion is finished.
    Finish,
}
