//! Taking a segment off a stair: its treads go, and what can be read besides and lies under it is laid there.

ghost use Rattle.std.specs.Prelude.{◌≡◌, filter, IfOk};
ghost use Rattle.remote_view.specs.Laying.{of_others, lies_under};

use crate::changing::is_same;
use crate::lookup::is_readable;
use crate::tread::Tread;
use segment_meta::Entry;
use std::alloc::{AllocError, Global};
use tier_base::{Items, SegmentId};

/// The treads of other segments.
pub(crate) fn lifted(
    alloc: Global,
    stair: &[Tread],
    id: &SegmentId,
) -> Result<Items<Tread>, AllocError>
    ensures { IfOk result (λ treads. treads ≡ filter (of_others id.now) stair.now) }
{
    let mut treads = Items::new(alloc);
    for tread in stair {
        if !is_same(&tread.id, id) {
            treads.push(*tread)?;
        }
    }
    Ok(treads)
}

/// Whether another entry can be read, and shares an offset with one.
pub(crate) fn lies_under(entry: &Entry, other: &Entry) -> bool
    ensures { result ≡ lies_under entry.now other.now }
{
    is_readable(other.state)
        && !is_same(&other.id, &entry.id)
        && other.start <= entry.end
        && entry.start <= other.end
}
