//! The result of an audit. specs/Flaws.antt has the order of flaws, and what their positions are.

use object_store::ObjectKey;
use tier_base::SegmentId;

/// The result of an audit of a remote tier at rest.
#[derive(Clone, Copy, Debug, PartialEq, Eq)]
pub enum Verdict {
    /// The tier is sound, with so many entries of remote segments and so many objects.
    Sound { entries: u64, objects: u64 },
    /// The first flaw.
    Unsound(Flaw),
}

/// A flaw of a remote tier.
#[derive(Clone, Copy, Debug, PartialEq, Eq)]
pub enum Flaw {
    /// The metadata log has no entry of the object's segment.
    NoEntry { key: ObjectKey },
    /// The object exists, though the deletion of its segment is finished.
    Left { key: ObjectKey },
    /// The custom metadata of a packed segment whose copy is finished has no layout.
    Custom { id: SegmentId },
    /// An object of a finished copy is missing.
    Missing { key: ObjectKey },
    /// A part of a finished copy isn't what the metadata log and the parts before it say: its object, and the
    /// position there of what can't be there, or the object's size.
    Wrong { key: ObjectKey, at: u64 },
}
