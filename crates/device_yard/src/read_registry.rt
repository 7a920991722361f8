//! What the disk of a partition's registry was read as when it came back.

use bytes::Bytes;
use tier_base::PartitionId;

/// The bytes that a registry's disk last returned, and the partition whose registry it keeps.
#[derive(Debug, PartialEq, Eq, Drop)]
pub struct ReadRegistry {
    pub partition: PartitionId,
    pub last_read: Bytes,
}
