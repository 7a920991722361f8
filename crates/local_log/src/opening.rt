//! Opening a log: what is read of it, what is written again, and the parts that memory keeps.
//!
//! The manifest is written again as it was read before a file is cut or removed, so that no crash brings back an older
//! one that lists more than there is. Then the segments are read and checked, and the manifest is written under the
//! next incarnation. What was read was synced before, so each image then opens as it, whatever the disk held.

ghost use Rattle.std.specs.Prelude.{◌≡◌, ◌≢◌, ◌+◌, ◌*◌, ◌<◌, ◌≤◌, ◌^◌, ◌++◌, ◌∷◌, ℕ, List, []};
ghost use Rattle.std.specs.Prelude.{length, Some, None, Ok, IfOk, IfErr, OnOk, IsErrOf, IsTrue};
ghost use Rattle.tier_base.specs.Counts.{counted, Rose};
ghost use Rattle.tier_base.specs.Device.{Lasts};
ghost use Rattle.tier_base.specs.Told.{NamesAllHeld, bytes_in};
ghost use Rattle.disk_model.specs.Content.{Keeps, LeavesOnly};
ghost use Rattle.epoch_line.specs.Line.{cut_end};
ghost use Rattle.log_manifest.specs.Rules.{IsManifest};
ghost use Rattle.log_manifest.specs.Reading.{manifest_in};
ghost use Rattle.log_steps.specs.Fronts.{log_at};
ghost use Rattle.log_steps.specs.Opens.{Opened, Opens, Segment, Segments};
ghost use Rattle.log_steps.specs.Reopens.{Reopens, Opening};
ghost use Rattle.local_log.specs.declared.refusal.OpenRefusal.TheVariants.{DiskFault, LastIncarnation};
ghost use Rattle.local_log.specs.Refusing.{IsDry, IsSoundCause, IsOfManifest};
ghost use Rattle.local_log.specs.Stored.{end_of, chain_end};
ghost use Rattle.local_log.specs.Parsing.{IsParsed, ParseFails};
ghost use Rattle.local_log.specs.Opening.{HoldsLast, SegmentFails, ReadsTo, ReadFails};
ghost use Rattle.local_log.specs.Opening.{ReadFailsIn, OpenFails, OpenFailsIn};
ghost use Rattle.local_log.specs.Planning.{IsPlan, IsPlanOf, PlanFails, FileFails, StudyFails};
ghost use Rattle.local_log.specs.Planning.{AreSegmentsRead, IsSegmentRead, IsLogOpened};

use crate::parsing::{damaged, parse};
use crate::refusal::OpenRefusal;
use bytes::Bytes;
use disk_model::{Disk, FileName};
use epoch_line::Line;
use log_manifest::{Extent, Manifest, ManifestRefusal, decode, encode};
use log_steps::rewrite;
use segment_file::Growing;
use std::alloc::{AllocError, Global};
use tier_base::Items;

/// The manifest as it is written again, and the next one.
#[derive(Drop)]
pub(crate) struct Plan {
    pub present: Bytes,
    pub next: Vec<u8>,
    pub manifest: Manifest,
}

/// The parts of a log that was opened.
#[derive(Drop)]
pub(crate) struct Parts {
    pub incarnation: u32,
    pub local_start: u64,
    pub closed: Vec<Growing>,
    pub active: Growing,
    pub line: Line,
}

/// Opens the log of a disk.
pub(crate) fn open_log<D: Disk>(
    alloc: Global,
    disk: &mut D,
    interval: u32,
) -> Result<Parts, OpenRefusal>
    ensures opened { IfOk result (λ parts. IsLogOpened (D.content disk.old) (D.content disk.new) interval parts) }
    ensures is_observable { (D.content disk.new).is_observable ≡ (D.content disk.old).is_observable }
    ensures leaves { Reopens (D.content disk.old)
        → LeavesOnly (D.content disk.old) (D.content disk.new) (Opening (D.content disk.old)) }
    ensures again { Reopens (D.content disk.old) → Reopens (D.content disk.new) }
    ensures reopens { OnOk result (Reopens (D.content disk.new)) }
    ensures unchanged { IfErr result (λ e. IsOfManifest e → Keeps (D.content disk.old) (D.content disk.new)) }
    ensures err { IfErr result (λ e. OpenFails (D.control disk.new).last_read e) }
    ensures place { IfErr result (λ e. IsTrue (D.content disk.old).is_observable
        → OpenFailsIn (D.content disk.old).files e) }
    ensures sound { IfErr result (λ e. IsTrue (D.content disk.old).is_observable
        → (o : Opened) → Opens (D.content disk.old).files o → IsSoundCause e) }
    ensures last { IsErrOf result LastIncarnation → IsTrue (D.content disk.old).is_observable
        → HoldsLast (D.content disk.old).files }
    ensures control { Lasts (D.control disk.old) (D.control disk.new) }
    ensures cause { IsErrOf result DiskFault → Rose (D.control disk.old).faults (D.control disk.new).faults }
    ensures quiet { (IsErrOf result DiskFault → ⊥) → (D.control disk.new).faults ≡ (D.control disk.old).faults }
    ensures once { IsErrOf result DiskFault → (D.control disk.new).faults ≡ counted (D.control disk.old).faults 1 }
{
    let (plan, names) = study(alloc, disk)?;
    let present = plan.present.as_slice();
    let extents = plan.manifest.segments.as_slice();
    let files = names.as_slice();
    rewrite(disk, present, extents, files)?;
    let segments = read_segments(alloc, disk, &plan.manifest, interval)?;
    let next = plan.next.as_slice();
    disk.replace(FileName::Manifest, next)?;
    Ok(parts_of(plan.manifest, segments))
}

/// Reads the manifest and the names of the files, and makes room for what follows.
fn study<D: Disk>(alloc: Global, disk: &mut D) -> Result<(Plan, Items<FileName>), OpenRefusal>
    ensures content { Keeps (D.content disk.old) (D.content disk.new) }
    ensures plan { IfOk result (λ x. IsPlanOf (D.content disk.old) x.0) }
    ensures names { IfOk result (λ x. IsTrue (D.content disk.old).is_observable
        → NamesAllHeld (D.content disk.old).files x.1) }
    ensures room { IfOk result (λ x. 2 * length x.0.manifest.segments + length x.1 ≤ D.spare disk.new) }
    ensures err { IfErr result (λ e. StudyFails (D.control disk.new).last_read e) }
    ensures place { IfErr result (λ e. IsTrue (D.content disk.old).is_observable
        → OpenFailsIn (D.content disk.old).files e) }
    ensures sound { IfErr result (λ e. IsTrue (D.content disk.old).is_observable
        → (o : Opened) → Opens (D.content disk.old).files o → IsSoundCause e) }
    ensures last { IsErrOf result LastIncarnation → IsTrue (D.content disk.old).is_observable
        → HoldsLast (D.content disk.old).files }
    ensures control { Lasts (D.control disk.old) (D.control disk.new) }
    ensures cause { IsErrOf result DiskFault → Rose (D.control disk.old).faults (D.control disk.new).faults }
    ensures quiet { (IsErrOf result DiskFault → ⊥) → (D.control disk.new).faults ≡ (D.control disk.old).faults }
    ensures once { IsErrOf result DiskFault → (D.control disk.new).faults ≡ counted (D.control disk.old).faults 1 }
{
    let plan = plan_on(alloc, disk)?;
    let names = disk.list()?;
    make_room(disk, plan.manifest.segments.len(), names.len())?;
    Ok((plan, names))
}

/// Plans an opening by the manifest's file.
fn plan_on<D: Disk>(alloc: Global, disk: &mut D) -> Result<Plan, OpenRefusal>
    ensures content { Keeps (D.content disk.old) (D.content disk.new) }
    ensures plan { IfOk result (λ plan. IsPlanOf (D.content disk.old) plan) }
    ensures err { IfErr result (λ e. StudyFails (D.control disk.new).last_read e) }
    ensures place { IfErr result (λ e. IsTrue (D.content disk.old).is_observable
        → OpenFailsIn (D.content disk.old).files e) }
    ensures sound { IfErr result (λ e. IsTrue (D.content disk.old).is_observable
        → (o : Opened) → Opens (D.content disk.old).files o → IsSoundCause e) }
    ensures last { IsErrOf result LastIncarnation → IsTrue (D.content disk.old).is_observable
        → HoldsLast (D.content disk.old).files }
    ensures control { Lasts (D.control disk.old) (D.control disk.new) }
    ensures cause { IsErrOf result DiskFault → Rose (D.control disk.old).faults (D.control disk.new).faults }
    ensures quiet { (IsErrOf result DiskFault → ⊥) → (D.control disk.new).faults ≡ (D.control disk.old).faults }
    ensures once { IsErrOf result DiskFault → (D.control disk.new).faults ≡ counted (D.control disk.old).faults 1 }
{
    let file = disk.read(FileName::Manifest, 0)?;
    plan_of(alloc, file)
}

/// Makes room for the calls that cut and sync so many segments' files, and remove so many others.
fn make_room<D: Disk>(disk: &mut D, segments: usize, files: usize) -> Result<(), AllocError>
    requires { segments ≤ 4096 }
    ensures content { Keeps (D.content disk.old) (D.content disk.new) }
    ensures room { OnOk result (2 * segments + files ≤ D.spare disk.new) }
    ensures control { Lasts (D.control disk.old) (D.control disk.new) }
    ensures quiet { (D.control disk.new).faults ≡ (D.control disk.old).faults }
{
    let Ok(calls) = u32::try_from(files.saturating_add(2 * segments)) else {
        return Err(AllocError);
    };
    disk.reserve(calls)
}

/// Plans an opening by what was read of the manifest's file.
fn plan_of(alloc: Global, file: Option<Bytes>) -> Result<Plan, OpenRefusal>
    ensures plan { IfOk result (λ plan. IsPlan file plan) }
    ensures err { IfErr result (λ e. FileFails file e) }
{
    match file {
        Some(bytes) => plan_again(alloc, bytes),
        None => plan_first(alloc),
    }
}

/// Plans to make the log, where there is no manifest.
fn plan_first(alloc: Global) -> Result<Plan, OpenRefusal>
    ensures plan { IfOk result (λ plan. IsPlan None plan) }
    ensures err { IfErr result IsDry }
{
    let mut segments = Items::new(alloc);
    segments.push(Extent { base: 0, len: 0 })?;
    let manifest = Manifest {
        incarnation: 1,
        local_start: 0,
        segments,
        line: Line::new(alloc),
    };
    let next = encode(alloc, &manifest)?;
    let present = Bytes::copy_from_slice(alloc, next.as_slice())?;
    Ok(Plan {
        present,
        next,
        manifest,
    })
}

/// Plans to write a manifest again, and then under the next incarnation.
fn plan_again(alloc: Global, bytes: Bytes) -> Result<Plan, OpenRefusal>
    ensures plan { IfOk result (λ plan. IsPlan (Some bytes) plan) }
    ensures err { IfErr result (λ e. PlanFails bytes e) }
{
    let mut manifest = read_manifest(alloc, bytes.as_slice())?;
    if manifest.incarnation == u32::MAX {
        return Err(OpenRefusal::LastIncarnation);
    }
    manifest.incarnation += 1;
    let next = encode(alloc, &manifest)?;
    Ok(Plan {
        present: bytes,
        next,
        manifest,
    })
}

/// The manifest of these bytes.
fn read_manifest(alloc: Global, bytes: &[u8]) -> Result<Manifest, OpenRefusal>
    ensures ok { IfOk result (λ manifest. manifest_in bytes.now ≡ Ok manifest) }
    ensures rules { IfOk result IsManifest }
    ensures err { IfErr result (λ e. PlanFails bytes.now e) }
{
    match decode(alloc, bytes) {
        Ok(manifest) => Ok(manifest),
        Err(ManifestRefusal::Bad { at }) => Err(OpenRefusal::Damaged {
            file: FileName::Manifest,
            at: at as u64,
        }),
        Err(ManifestRefusal::NoMemory) => Err(OpenRefusal::NoMemory),
    }
}

/// Reads the segments that a manifest lists.
fn read_segments<D: Disk>(
    alloc: Global,
    disk: &mut D,
    manifest: &Manifest,
    interval: u32,
) -> Result<Vec<Growing>, OpenRefusal>
    requires { IsManifest manifest.now }
    ensures content { Keeps (D.content disk.old) (D.content disk.new) }
    ensures read { IfOk result
        (λ segments. AreSegmentsRead (D.content disk.old) manifest.now.line interval manifest.now.local_start
        manifest.now.segments segments.items) }
    ensures err { IfErr result (λ e. ReadFails manifest.now (D.control disk.new).last_read e) }
    ensures place { IfErr result (λ e. IsTrue (D.content disk.old).is_observable
        → ReadFailsIn (D.content disk.old).files manifest.now e) }
    ensures sound { IfErr result (λ e. IsTrue (D.content disk.old).is_observable → (batches : List (List ℕ))
        → Segments (D.content disk.old).files manifest.now.line manifest.now.local_start manifest.now.segments batches
        → IsSoundCause e) }
    ensures control { Lasts (D.control disk.old) (D.control disk.new) }
    ensures cause { IsErrOf result DiskFault → Rose (D.control disk.old).faults (D.control disk.new).faults }
    ensures quiet { (IsErrOf result DiskFault → ⊥) → (D.control disk.new).faults ≡ (D.control disk.old).faults }
    ensures once { IsErrOf result DiskFault → (D.control disk.new).faults ≡ counted (D.control disk.old).faults 1 }
{
    let mut segments = Vec::new(alloc);
    let mut end = manifest.local_start;
    let extents = manifest.segments.as_slice();
    for extent in extents {
        segments.reserve(1)?;
        let segment = read_segment(alloc, disk, *extent, end, &manifest.line, interval)?;
        end = segment.end();
        segments.push_reserved(segment);
    }
    Ok(segments)
}

/// Reads a segment after those that end there.
fn read_segment<D: Disk>(
    alloc: Global,
    disk: &mut D,
    extent: Extent,
    end: u64,
    line: &Line,
    interval: u32,
) -> Result<Growing, OpenRefusal>
    requires base { extent.base ≤ 2 ^ 62 }
    requires small { extent.len < 2 ^ 31 }
    ensures content { Keeps (D.content disk.old) (D.content disk.new) }
    ensures read { IfOk result (λ segment. IsSegmentRead (D.content disk.old) line.now interval end extent segment) }
    ensures last_read { IfOk result
        (λ segment. ReadsTo line.now extent (D.control disk.new).last_read (end_of segment)) }
    ensures early { extent.base ≢ end → (D.control disk.new).last_read ≡ (D.control disk.old).last_read }
    ensures err { IfErr result (λ e. SegmentFails line.now end extent (D.control disk.new).last_read e) }
    ensures place { IfErr result (λ e. IsTrue (D.content disk.old).is_observable
        → SegmentFails line.now end extent (log_at (D.content disk.old).files extent) e) }
    ensures sound { IfErr result (λ e. IsTrue (D.content disk.old).is_observable → extent.base ≡ end
        → (batches : List (List ℕ)) → Segment (D.content disk.old).files line.now extent batches → IsSoundCause e) }
    ensures control { Lasts (D.control disk.old) (D.control disk.new) }
    ensures cause { IsErrOf result DiskFault → Rose (D.control disk.old).faults (D.control disk.new).faults }
    ensures quiet { (IsErrOf result DiskFault → ⊥) → (D.control disk.new).faults ≡ (D.control disk.old).faults }
    ensures once { IsErrOf result DiskFault → (D.control disk.new).faults ≡ counted (D.control disk.old).faults 1 }
{
    if extent.base != end {
        return Err(damaged(extent.base, 0));
    }
    let file = disk.read(FileName::Log(extent.base), 0)?;
    parse_file(alloc, extent, line, interval, file)
}

/// Reads the front of what was read of a file as a segment. The bytes of an absent file are none.
fn parse_file(
    alloc: Global,
    extent: Extent,
    line: &Line,
    interval: u32,
    file: Option<Bytes>,
) -> Result<Growing, OpenRefusal>
    requires base { extent.base ≤ 2 ^ 62 }
    requires small { extent.len < 2 ^ 31 }
    ensures ok { IfOk result (λ segment. IsParsed line.now interval extent (bytes_in file) segment) }
    ensures err { IfErr result (λ e. ParseFails line.now extent (bytes_in file) e) }
{
    match file {
        Some(bytes) => parse(alloc, extent, line, interval, bytes.as_slice()),
        None => parse(alloc, extent, line, interval, &[]),
    }
}

/// The parts of a log of this manifest, whose segments were read. The last one is the open one.
fn parts_of(manifest: Manifest, segments: Vec<Growing>) -> Parts
    requires some { 0 < length segments.items }
    requires low { (start : ℕ) × (chain_end start segments.items ≤ 2 ^ 62) }
    ensures incarnation { result.incarnation ≡ manifest.incarnation }
    ensures start { result.local_start ≡ manifest.local_start }
    ensures segments { result.closed.items ++ result.active ∷ [] ≡ segments.items }
    ensures line { result.line ≡ cut_end manifest.line (end_of result.active + 1) }
{
    let mut closed = segments;
    let Some(active) = closed.pop() else {
        unreachable!()
    };
    let mut line = manifest.line;
    line.cut_end(active.end() + 1);
    Parts {
        incarnation: manifest.incarnation,
        local_start: manifest.local_start,
        closed,
        active,
        line,
    }
}
