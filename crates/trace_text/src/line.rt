//! What the reader of a trace returns: lines, and journals by partition.

use plain_log::{Journal, JournalEntry};
use tier_base::PartitionId;

/// A line: a journal entry and its partition.
#[derive(Debug, Drop)]
pub struct Line {
    pub partition: PartitionId,
    pub entry: JournalEntry,
}

/// A partition's journal, as read from a trace.
#[derive(Debug, Drop)]
pub struct PartJournal {
    pub partition: PartitionId,
    pub journal: Journal,
}
