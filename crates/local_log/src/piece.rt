//! Where a read of a log begins and ends, by what memory keeps of its segments.
//!
//! The segment that holds an offset, the batch that does, and the end of a run are found by halving.

ghost use Rattle.std.specs.Prelude.{◌≡◌, ◌<◌, ◌≤◌, ◌+◌, ◌-◌, ◌^◌, min, length, option_map, unwrap_or};
ghost use Rattle.segment_file.specs.Growing.{BeginsSearch};
ghost use Rattle.segment_file.specs.Reach.{reach_at};
ghost use Rattle.epoch_line.specs.Line.{IsLine};
ghost use Rattle.local_log.specs.Listing.{AreSegmentsOf, IsLaidOut};
ghost use Rattle.local_log.specs.Reading.{first_past, is_edge, piece_end, position_of};

use crate::seeking::count_ended;
use segment_file::Growing;

/// A piece: the base of its segment, the position from which its file is read, how many bytes are, and the offset at
/// which it ends.
#[derive(Clone, Copy)]
pub(crate) struct SegmentPart {
    pub base: u64,
    pub from: u32,
    pub most: u32,
    pub end: u64,
}

/// The first closed segment that ends past an offset.
pub(crate) fn first_past<'a>(
    local_start: u64,
    closed: &'a [Growing],
    active: &Growing,
    offset: u64,
) -> Option<&'a Growing>
    requires { AreSegmentsOf local_start closed.now active.now }
    ensures { option_map (λ segment. segment.now) result ≡ first_past offset closed.now }
{
    let ended = count_ended(local_start, closed, active, offset);
    if ended < closed.len() {
        Some(&closed[ended])
    } else {
        None
    }
}

/// The segment that holds an offset, or the open one.
pub(crate) fn segment_at<'a>(
    local_start: u64,
    closed: &'a [Growing],
    active: &'a Growing,
    offset: u64,
) -> &'a Growing
    requires { AreSegmentsOf local_start closed.now active.now }
    ensures { result.now ≡ unwrap_or (first_past offset closed.now) active.now }
{
    match first_past(local_start, closed, active, offset) {
        Some(segment) => segment,
        None => active,
    }
}

/// Whether a batch of a segment begins or ends at an offset.
pub(crate) fn is_edge(segment: &Growing, offset: u64) -> bool
    ensures { result ≡ is_edge segment.now offset }
{
    segment.place_of(offset).0 == offset
}

/// Where the piece ends that holds an offset of a segment. The entries up to the offset are passed over by halving.
fn piece_end(line: &[(u32, u64)], segment: &Growing, offset: u64) -> u64
    requires line { IsLine line.now }
    requires laid { IsLaidOut segment.now }
    ensures { result ≡ piece_end line.now segment.now offset }
{
    let started = line.partition_point(|entry| entry.1 <= offset);
    let (_, rest) = line.split_at(started);
    first_edge(rest, segment, offset)
}

/// The first start past an offset that is an edge of a segment, or where the segment ends. It is the first of the
/// line's starts past the offset, wherever each epoch starts where a batch does.
fn first_edge(line: &[(u32, u64)], segment: &Growing, offset: u64) -> u64
    requires line { IsLine line.now }
    requires laid { IsLaidOut segment.now }
    ensures { result ≡ piece_end line.now segment.now offset }
{
    let end = segment.end();
    for (_, start) in line {
        if *start >= end {
            return end;
        }
        if offset < *start && is_edge(segment, *start) {
            return *start;
        }
    }
    end
}

/// The piece that holds an offset of a segment, and what is read of it for the run there, up to a mark.
pub(crate) fn piece_at(
    segment: &Growing,
    line: &[(u32, u64)],
    offset: u64,
    limit: u64,
    mark: u64,
) -> SegmentPart
    requires line { IsLine line.now }
    requires laid { IsLaidOut segment.now }
    ensures base { result.base ≡ segment.now.base }
    ensures from { result.from ≡ position_of segment.now offset }
    ensures search { BeginsSearch segment.now.base segment.now.batches offset result.from }
    ensures most { result.from + result.most
        ≡ reach_at (min mark result.end) (min (result.from + limit) (2 ^ 64 - 1)) offset segment.now.batches }
    ensures end { result.end ≡ piece_end line.now segment.now offset }
{
    let end = piece_end(line, segment, offset);
    let (_, from) = segment.place_of(offset);
    let top = (from as u64).saturating_add(limit);
    let to = segment.reach(offset, mark.min(end), top);
    SegmentPart {
        base: segment.base(),
        from,
        most: to - from,
        end,
    }
}
