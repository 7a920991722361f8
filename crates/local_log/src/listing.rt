//! The manifest of a log in memory, ready to be written.

ghost use Rattle.std.specs.Prelude.{◌≡◌, ◌+◌, ◌≤◌, ◌<◌, ◌^◌, ◌++◌, ◌∷◌, [], map, OnOk, IfOk};
ghost use Rattle.epoch_line.specs.Line.{IsLine};
ghost use Rattle.log_manifest.specs.Spelling.{manifest_bytes};
ghost use Rattle.log_steps.specs.Fronts.{Each};
ghost use Rattle.local_log.specs.Stored.{extent_of};
ghost use Rattle.local_log.specs.Listing.{AreSegmentsOf, IsLaidOut, manifest_of};

use epoch_line::Line;
use log_manifest::{Extent, Manifest, SegmentList, encode};
use segment_file::Growing;
use std::alloc::{AllocError, Global};
use tier_base::Items;

/// The extent of a segment.
pub(crate) fn extent_of(segment: &Growing) -> Extent
    requires { IsLaidOut segment.now }
    ensures { result ≡ extent_of segment.now }
{
    Extent {
        base: segment.base(),
        len: segment.size() as u32,
    }
}

/// The extents of all segments.
fn extents(alloc: Global, closed: &[Growing], active: &Growing) -> Result<SegmentList, AllocError>
    requires closed { Each IsLaidOut closed.now }
    requires active { IsLaidOut active.now }
    ensures { IfOk result (λ list. list ≡ map extent_of (closed.now ++ active.now ∷ [])) }
{
    let mut list = Items::new(alloc);
    for segment in closed {
        list.push(extent_of(segment))?;
    }
    list.push(extent_of(active))?;
    Ok(list)
}

/// The bytes of the manifest that lists all of a log, with these leader epochs.
pub(crate) fn listing(
    alloc: Global,
    incarnation: u32,
    local_start: u64,
    closed: &[Growing],
    active: &Growing,
    line: &Line,
) -> Result<Vec<u8>, AllocError>
    requires opened { 1 ≤ incarnation }
    requires segments { AreSegmentsOf local_start closed.now active.now }
    requires line { IsLine line.now }
    ensures { IfOk result (λ bytes. bytes.items
        ≡ manifest_bytes (manifest_of incarnation local_start closed.now active.now line.now)) }
{
    let manifest = Manifest {
        incarnation,
        local_start,
        segments: extents(alloc, closed, active)?,
        line: line.copy(alloc)?,
    };
    encode(alloc, &manifest)
}
