//! What a timestamp lookup asks for, what it does next, and the result of a turn.

use plain_log::Answer;
use remote_find::Piece;
use tier_base::PartitionId;
use tier_fetch::Span;

/// What a lookup asks for, and how far its broker's log goes at this turn.
#[derive(Clone, Copy, Debug, PartialEq, Eq)]
pub struct Asked {
    pub partition: PartitionId,
    /// The timestamp, in milliseconds.
    pub ts: i64,
    /// The log start offset.
    pub start: u64,
    /// The local log start offset.
    pub local: u64,
    /// The log end offset.
    pub log_end: u64,
    /// The broker's high watermark.
    pub mark: u64,
}

/// What the next turn of a search does.
#[derive(Clone, Copy, Debug, PartialEq, Eq)]
pub enum SearchStep {
    /// Go on at the cursor: below the local log in the remote segments, else in the local log.
    Seek,
    /// Read the time index of the piece's segment.
    Times(Piece),
    /// Get the offset index of the piece's segment, whose log is to be read from this offset on.
    Index(Piece, u64),
    /// Read these bytes of the segment's log, for this offset.
    Log(Piece, u64, Span),
}
