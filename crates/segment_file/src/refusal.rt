//! Why bytes are no closed segment.

use thiserror::Error;

/// Why bytes are no closed segment.
#[derive(Clone, Copy, Debug, PartialEq, Eq, Drop, Error)]
pub enum ClosedRefusal {
    /// The first place where no batch continues what precedes it: no checked batch is there, or it isn't consecutive,
    /// or of a lower epoch, or past what a segment reaches. Without a batch it is the bytes' end.
    #[error("no batch goes on the segment at byte {at}")]
    BadAt { at: usize },
    /// There was no memory for the leader epochs.
    #[error("no memory for the segment's leader epochs")]
    NoMemory,
}
