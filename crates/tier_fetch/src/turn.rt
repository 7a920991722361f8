//! What a fetch asks for, what it does next, and the result of a turn.

use plain_log::Answer;
use remote_find::Piece;
use tier_base::PartitionId;

/// What a fetch asks for, and how far its broker's log goes at this turn.
#[derive(Clone, Copy, Debug, PartialEq, Eq)]
pub struct FetchRequest {
    pub partition: PartitionId,
    pub offset: u64,
    /// The most bytes of a run of several batches.
    pub limit: u32,
    /// The log end offset.
    pub log_end: u64,
    /// The broker's high watermark.
    pub mark: u64,
}

/// The bytes of a remote segment to read: from a position on, at most so many.
#[derive(Clone, Copy, Debug, PartialEq, Eq)]
pub struct Span {
    pub from: u32,
    pub most: u64,
}

/// What the next turn of a fetch does.
#[derive(Clone, Copy, Debug, PartialEq, Eq)]
pub enum FetchStep {
    /// Refresh the broker's view, and choose the piece that has the offset.
    Refresh,
    /// Get the offset index of the piece's segment, from the cache or the store.
    Index(Piece),
    /// Read these bytes of the segment, and cut the run out of them.
    Log(Piece, Span),
}
