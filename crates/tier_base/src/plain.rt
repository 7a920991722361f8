//! Plain types that crates side by side name: a log's settings, its retention, a closed segment's
//! sums, why a run ends, a remote segment's states and parts, a broker's files; and how far offsets
//! go.

/// The bound of offsets, 2^62: a batch's last offset is below it, and a base offset and a log's end
/// are at most it. What one batch adds to a log's end, and how far a segment reaches past its base
/// offset, is at most 2^31, so such sums stay within 64 bits; and in Kafka's fields, which are
/// signed, no offset is negative.
pub const OFFSET_LIMIT: u64 = 1 << 62;

/// How a log is cut into segments and how dense its indexes are.
#[derive(Clone, Copy, Debug, PartialEq, Eq)]
pub struct Settings {
    /// The greatest size of a log segment in bytes (Kafka's `segment.bytes`).
    pub segment_bytes: u32,
    /// The bytes of batches between two index entries (Kafka's `index.interval.bytes`).
    pub index_interval: u32,
}

/// How long and how much of a log is kept. -1 is no bound; for the local log -2 is the whole log's
/// bound.
#[derive(Clone, Copy, Debug, PartialEq, Eq)]
pub struct Keep {
    /// The greatest age in milliseconds (Kafka's `retention.ms` and `local.retention.ms`).
    pub ms: i64,
    /// The greatest size in bytes (Kafka's `retention.bytes` and `local.retention.bytes`).
    pub bytes: i64,
}

/// What retention asks about a closed segment.
#[derive(Clone, Copy, Debug, PartialEq, Eq)]
pub struct Item {
    /// The segment's last offset.
    pub last: u64,
    /// Its size in bytes.
    pub size: u64,
    /// The greatest timestamp of its batches.
    pub max_ts: i64,
}

/// Why a run of batches that a fetch gives ends where it does.
#[derive(Clone, Copy, Debug, PartialEq, Eq)]
pub enum Stop {
    /// The high watermark: what follows isn't committed yet.
    Mark,
    /// The end of the log segment that the run lies in, here or in the remote tier.
    Piece,
    /// The fetch's limit (Kafka's `max.partition.fetch.bytes`): the next batch would pass it.
    Limit,
}

/// The state of a remote segment (Kafka's RemoteLogSegmentState).
#[derive(Clone, Copy, Debug, PartialEq, Eq)]
pub enum State {
    /// A copy has begun. Its objects may exist, and nothing is read from them.
    CopyStarted,
    /// The copy is whole, and the segment can be read.
    CopyFinished,
    /// A deletion has begun. Objects may still exist, and nothing is read from them.
    DeleteStarted,
    /// The deletion is whole, and no object exists.
    DeleteFinished,
}

/// The objects of a remote segment.
#[derive(Clone, Copy, Debug, PartialEq, Eq)]
pub enum Part {
    /// The log segment: its record batches.
    Log,
    /// The offset index.
    Index,
    /// The time index.
    TimeIndex,
    /// The leader epochs up to the segment's end.
    Epochs,
    /// The four others, one after another, where the segment has one object.
    Pack,
}

/// A file of a broker's partition, of its metadata log, or of its registry.
#[derive(Clone, Copy, Debug, PartialEq, Eq)]
pub enum FileName {
    /// What is flushed of the log: `manifest`.
    Manifest,
    /// The log segment with this base offset: 20 digits and `.log`.
    Log(u64),
    /// The metadata log's events: `notes`.
    Notes,
    /// How many bytes of the metadata events count: `gate`.
    Gate,
    /// The partition's registry: `registry`.
    Registry,
}
