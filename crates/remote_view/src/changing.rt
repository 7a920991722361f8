//! Changes of entries.

ghost use Rattle.std.specs.Prelude.{◌≡◌};
ghost use Rattle.std.specs.Str.{bytes_eq};
ghost use Rattle.tier_base.specs.Key.{IsId};
ghost use Rattle.remote_view.specs.Fold.{updated};

use segment_meta::Entry;
use tier_base::{Blob, BrokerId, SegmentId, State};

/// Whether two ids are one.
pub(crate) fn is_same(one: &SegmentId, other: &SegmentId) -> bool
    ensures { result ≡ bytes_eq one.now.0 other.now.0 }
{
    one.as_bytes() == other.as_bytes()
}

/// Sets what an update gives.
pub(crate) fn update(
    entry: &mut Entry,
    broker: BrokerId,
    event_ts: i64,
    state: State,
    custom: Option<Blob>,
)
    ensures { entry.new ≡ updated broker event_ts state custom entry.old }
{
    entry.broker = broker;
    entry.event_ts = event_ts;
    entry.state = state;
    if state == State::CopyFinished {
        entry.custom = custom;
    }
}

/// An entry's id is one.
pub(crate) fn has_id(entry: &Entry)
    ensures { IsId entry.now.id }
{
    entry.id.as_bytes();
}
