//! What a cut makes of a log's segments and of their files: those after are removed, from the last to the first, and
//! the one that is the last then is cut. Nothing is read.

ghost use Rattle.std.specs.Prelude.{◌≡◌, ◌+◌, ◌≤◌, ◌<◌, ◌^◌, ◌++◌, ◌∷◌, [], length, map, OnOk, IfOk};
ghost use Rattle.tier_base.specs.declared.plain.FileName.TheVariants as file;
ghost use Rattle.tier_base.specs.Device.{failing};
ghost use Rattle.tier_base.specs.Told.{In};
ghost use Rattle.epoch_line.specs.Line.{IsLine};
ghost use Rattle.log_manifest.specs.Spelling.{manifest_bytes};
ghost use Rattle.log_steps.specs.Fronts.{Each};
ghost use Rattle.log_steps.specs.Runs.{Runs};
ghost use Rattle.local_log.specs.Stored.{extent_of, size_of, end_of};
ghost use Rattle.local_log.specs.Listing.{AreSegmentsOf, IsLaidOut, front_to, manifest_of};
ghost use Rattle.local_log.specs.Cutting.{closed_by, open_by, behind, names_of, RemovesAll, Trims};

use crate::listing::extent_of;
use crate::seeking::count_ended;
use disk_model::{Disk, FileName};
use epoch_line::Line;
use log_manifest::{Extent, Manifest, SegmentList, encode};
use segment_file::Growing;
use std::alloc::{AllocError, Global};
use tier_base::{Failed, Items};

/// What is left of a segment up to an offset.
fn front_of(segment: &Growing, end: u64) -> Extent
    ensures { result ≡ extent_of (front_to end segment.now) }
{
    Extent {
        base: segment.base(),
        len: segment.place_of(end).1,
    }
}

/// What is then left of the segment that is the open one after a cut.
pub(crate) fn open_front(local_start: u64, closed: &[Growing], active: &Growing, end: u64) -> Extent
    requires { AreSegmentsOf local_start closed.now active.now }
    ensures { result ≡ extent_of (front_to end (open_by end closed.now active.now)) }
{
    let kept = count_ended(local_start, closed, active, end);
    if kept < closed.len() {
        front_of(&closed[kept], end)
    } else {
        front_of(active, end)
    }
}

/// The extents of whole segments.
fn extents_of(alloc: Global, segments: &[Growing]) -> Result<SegmentList, AllocError>
    requires { Each IsLaidOut segments.now }
    ensures { IfOk result (λ list. list ≡ map extent_of segments.now) }
{
    let mut list = Items::new(alloc);
    for segment in segments {
        list.push(extent_of(segment))?;
    }
    Ok(list)
}

/// The extents of the log that is cut to an offset.
fn extents_to(
    alloc: Global,
    local_start: u64,
    closed: &[Growing],
    active: &Growing,
    end: u64,
) -> Result<SegmentList, AllocError>
    requires { AreSegmentsOf local_start closed.now active.now }
    ensures { IfOk result (λ list. list
        ≡ map extent_of (closed_by end closed.now ++ front_to end (open_by end closed.now active.now) ∷ [])) }
{
    let (front, _) = closed.split_at(count_ended(local_start, closed, active, end));
    let mut list = extents_of(alloc, front)?;
    list.push(open_front(local_start, closed, active, end))?;
    Ok(list)
}

/// The bytes of the manifest that lists the log that is cut to an offset, with these leader epochs.
pub(crate) fn listing_to(
    alloc: Global,
    incarnation: u32,
    local_start: u64,
    closed: &[Growing],
    active: &Growing,
    end: u64,
    line: &Line,
) -> Result<Vec<u8>, AllocError>
    requires opened { 1 ≤ incarnation }
    requires whole { AreSegmentsOf local_start closed.now active.now }
    requires segments { AreSegmentsOf local_start (closed_by end closed.now)
        (front_to end (open_by end closed.now active.now)) }
    requires line { IsLine line.now }
    ensures { IfOk result (λ bytes. bytes.items
        ≡ manifest_bytes (manifest_of incarnation local_start (closed_by end closed.now)
        (front_to end (open_by end closed.now active.now)) line.now)) }
{
    let manifest = Manifest {
        incarnation,
        local_start,
        segments: extents_to(alloc, local_start, closed, active, end)?,
        line: line.copy(alloc)?,
    };
    encode(alloc, &manifest)
}

/// Removes the files of segments, from the last to the first.
pub(crate) fn remove_all<D: Disk>(disk: &mut D, segments: &[Growing]) -> Result<(), Failed>
    requires { length segments.now ≤ D.spare disk.old }
    ensures content { RemovesAll (names_of segments.now) (failing result) (D.content disk.old) (D.content disk.new) }
    ensures control { Runs (failing result) (D.control disk.old) (D.control disk.new) }
    ensures room { OnOk result (D.spare disk.new + length segments.now ≡ D.spare disk.old) }
{
    let mut left = segments.len();
    while left > 0 {
        left -= 1;
        disk.remove(FileName::Log(segments[left].base()))?;
    }
    Ok(())
}

/// Removes the files of a log's segments, from the open one to the first.
pub(crate) fn remove_segments<D: Disk>(
    disk: &mut D,
    closed: &[Growing],
    active: &Growing,
) -> Result<(), Failed>
    requires { length closed.now + 1 ≤ D.spare disk.old }
    ensures content { RemovesAll (names_of (closed.now ++ active.now ∷ [])) (failing result) (D.content disk.old)
        (D.content disk.new) }
    ensures control { Runs (failing result) (D.control disk.old) (D.control disk.new) }
    ensures room { OnOk result (D.spare disk.new + length closed.now + 1 ≡ D.spare disk.old) }
{
    disk.remove(FileName::Log(active.base()))?;
    remove_all(disk, closed)
}

/// Removes the files of the segments after a cut.
fn remove_behind<D: Disk>(
    disk: &mut D,
    local_start: u64,
    closed: &[Growing],
    active: &Growing,
    end: u64,
) -> Result<(), Failed>
    requires segments { AreSegmentsOf local_start closed.now active.now }
    requires room { length closed.now ≤ D.spare disk.old }
    ensures content { RemovesAll (names_of (behind end closed.now active.now)) (failing result) (D.content disk.old)
        (D.content disk.new) }
    ensures control { Runs (failing result) (D.control disk.old) (D.control disk.new) }
    ensures room { OnOk result (D.spare disk.old ≤ D.spare disk.new + length closed.now) }
{
    let kept = count_ended(local_start, closed, active, end);
    if kept >= closed.len() {
        return Ok(());
    }
    let (_, rest) = closed.split_at(kept + 1);
    remove_segments(disk, rest, active)
}

/// Removes the files of the segments after a cut, and cuts the file of the last one.
pub(crate) fn trim<D: Disk>(
    disk: &mut D,
    local_start: u64,
    closed: &[Growing],
    active: &Growing,
    end: u64,
) -> Result<(), Failed>
    requires segments { AreSegmentsOf local_start closed.now active.now }
    requires room { length closed.now + 1 ≤ D.spare disk.old }
    requires apart { In (file.Log (open_by end closed.now active.now).base)
        (names_of (behind end closed.now active.now)) → ⊥ }
    ensures content { Trims (names_of (behind end closed.now active.now)) (open_by end closed.now active.now).base
        (size_of (front_to end (open_by end closed.now active.now))) (failing result) (D.content disk.old)
        (D.content disk.new) }
    ensures control { Runs (failing result) (D.control disk.old) (D.control disk.new) }
{
    let last = open_front(local_start, closed, active, end);
    remove_behind(disk, local_start, closed, active, end)?;
    disk.cut(FileName::Log(last.base), last.len as u64)
}

/// Opens the last segment that isn't after a cut.
fn reopen(local_start: u64, closed: &mut Vec<Growing>, active: &mut Growing, end: u64)
    requires { AreSegmentsOf local_start closed.old.items active.old }
    ensures closed { closed.new.items ≡ closed_by end closed.old.items }
    ensures active { active.new ≡ open_by end closed.old.items active.old }
{
    let kept = count_ended(local_start, closed, active, end);
    if kept < closed.len() {
        closed.truncate(kept + 1);
        if let Some(last) = closed.pop() {
            *active = last;
        }
    }
}

/// Cuts segments to an offset. It takes no memory.
pub(crate) fn cut_segments(
    local_start: u64,
    closed: &mut Vec<Growing>,
    active: &mut Growing,
    end: u64,
)
    requires { AreSegmentsOf local_start closed.old.items active.old }
    ensures closed { closed.new.items ≡ closed_by end closed.old.items }
    ensures active { active.new ≡ front_to end (open_by end closed.old.items active.old) }
{
    reopen(local_start, closed, active, end);
    active.cut_to(end);
}
