//! Where a log's batches end, and which segment holds an offset, found by halving its segments and then the batches of
//! one of them.

ghost use Rattle.std.specs.Prelude.{◌≡◌, ◌<◌, ◌≤◌, ◌^◌, ◌+◌, length, option_map};
ghost use Rattle.local_log.specs.Listing.{AreSegmentsOf};
ghost use Rattle.local_log.specs.Cutting.{closed_by, cut_point};
ghost use Rattle.local_log.specs.Reading.{first_past};

use crate::log::LocalLog;
use crate::piece::first_past;
use disk_model::Disk;
use segment_file::Growing;

impl<D: Disk> LocalLog<D> {
    /// Where the last batch ends that ends at or below an offset: the end of the log after a truncation to that
    /// offset.
    pub fn end_up_to(&self, offset: u64) -> u64
        ensures { result ≡ cut_point offset self.now.closed self.now.active }
    {
        end_by(
            self.local_start,
            self.closed.as_slice(),
            &self.active,
            offset,
        )
    }

    /// The first closed segment that ends past an offset.
    pub fn first_past(&self, offset: u64) -> Option<&Growing>
        ensures { option_map (λ segment. segment.now) result ≡ first_past offset self.now.closed }
    {
        first_past(
            self.local_start,
            self.closed.as_slice(),
            &self.active,
            offset,
        )
    }
}

/// How many closed segments end at or below an offset: those in front.
pub(crate) fn count_ended(local_start: u64, closed: &[Growing], active: &Growing, end: u64) -> usize
    requires { AreSegmentsOf local_start closed.now active.now }
    ensures { result ≡ length (closed_by end closed.now) }
{
    let (_first, _last) = (local_start, active.base());
    closed.partition_point(|segment| segment.end() <= end)
}

/// Where the last batch of segments ends that ends at or below an offset.
pub(crate) fn end_by(local_start: u64, closed: &[Growing], active: &Growing, offset: u64) -> u64
    requires { AreSegmentsOf local_start closed.now active.now }
    ensures { result ≡ cut_point offset closed.now active.now }
{
    let kept = count_ended(local_start, closed, active, offset);
    if kept < closed.len() {
        closed[kept].place_of(offset).0
    } else {
        active.place_of(offset).0
    }
}
