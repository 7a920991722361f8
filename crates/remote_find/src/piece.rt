//! A piece of a remote segment.

use tier_base::SegmentId;

/// The offsets from `from` up to `to`, which is not included, of one leader epoch in a remote segment.
#[derive(Clone, Copy, Debug, PartialEq, Eq)]
pub struct Piece {
    pub id: SegmentId,
    pub from: u64,
    pub to: u64,
}
