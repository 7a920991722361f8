//! A range of offsets that is read from one remote segment.

use tier_base::SegmentId;

/// The offsets from `from` up to `to`, which is not included, of one leader epoch, and the remote segment that they
/// are read from.
#[derive(Clone, Copy, Debug, PartialEq, Eq)]
pub struct Tread {
    pub from: u64,
    pub to: u64,
    pub id: SegmentId,
}
