//! A broker's log after an entry.

/// A broker's log after an entry: its offsets, and which leader epoch's log it is a beginning of.
#[derive(Clone, Copy, Debug, PartialEq, Eq)]
pub struct LogState {
    pub up: bool,
    /// The local log start offset.
    pub local_start: u64,
    /// What is flushed ends here.
    pub flushed_end: u64,
    /// The log end offset.
    pub end: u64,
    /// The leader epoch that the broker has learned of last.
    pub learned: u64,
    /// The log is a beginning of the log of this epoch's leader.
    pub epoch: u64,
}
