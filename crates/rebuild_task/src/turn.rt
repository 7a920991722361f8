//! What a rebuild asks for, what it does next, and the result of a turn.

use epoch_line::Line;
use plain_log::Answer;
use tier_base::PartitionId;

/// What a rebuild asks for.
#[derive(Clone, Copy, Debug, PartialEq, Eq)]
pub struct RebuildRequest {
    pub partition: PartitionId,
    /// Where the local log is to start.
    pub offset: u64,
}

/// What the next turn of a rebuild does, once its broker's view is refreshed.
#[derive(Debug, Drop)]
pub enum RebuildStep {
    /// Read the leader epochs of a remote segment.
    Epochs,
    /// Restarts the local log, with these leader epochs.
    Restart(Line),
}
