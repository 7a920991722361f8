//! A manifest and its parts. specs/Rules.antt has its rules.

use epoch_line::Line;
use tier_base::Items;

/// What of a log segment is durable.
#[derive(Clone, Copy, Debug, PartialEq, Eq)]
pub struct Extent {
    /// The base offset.
    pub base: u64,
    /// The flushed length in bytes.
    pub len: u32,
}

/// The segments of a log, from its local log start offset on. The last one is the open one.
pub type SegmentList = Items<Extent>;

/// What a log has after a crash.
#[derive(Debug, Drop)]
pub struct Manifest {
    /// The log's incarnation, which each opening raises.
    pub incarnation: u32,
    /// Where the log begins on this broker (Kafka's local log start offset).
    pub local_start: u64,
    pub segments: SegmentList,
    /// The leader epochs, each with its start offset.
    pub line: Line,
}

/// What precedes the segments.
#[derive(Clone, Copy)]
pub(crate) struct Front {
    pub incarnation: u32,
    pub local_start: u64,
    /// How many segments follow it.
    pub count: u32,
}
