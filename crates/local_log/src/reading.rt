//! Reading a log: a run of its batches, and a whole closed segment. Each is one read of a part of a segment's file,
//! and the returned bytes are a part of what the disk returned.
//!
//! Memory keeps where batches end, so no batch outside the run is read, and a high watermark at which no batch ends
//! is refused before the disk is asked. If the limit ends a run, the head of the next batch is read too, because the
//! bytes are checked without what memory keeps. Last, the batches' leader epochs are compared with the log's, because
//! no checksum covers them.

ghost use Rattle.std.specs.Prelude.{◌≡◌, ◌≢◌, ◌<◌, ◌≤◌, ◌+◌, ℕ, None, option_map, min, false, true};
ghost use Rattle.std.specs.Prelude.{◌^◌, ◌↔◌, IfOk, IfErr, IfSome, IsOk, IsErrOf, IsTrue};
ghost use Rattle.tier_base.specs.declared.fault.Trouble.TheVariants as fault;
ghost use Rattle.tier_base.specs.Counts.{counted, Rose};
ghost use Rattle.tier_base.specs.Device.{Lasts, Ran, fate_of};
ghost use Rattle.tier_base.specs.declared.plain.FileName.TheVariants as file;
ghost use Rattle.tier_base.specs.Told.{bytes_in};
ghost use Rattle.disk_model.specs.declared.call.DiskCall.TheVariants.{Read};
ghost use Rattle.disk_model.specs.Content.{LeavesOnly, Keeps, part_of};
ghost use Rattle.local_log.specs.declared.refusal.ReadRefusal.TheVariants.{DiskFault};
ghost use Rattle.local_log.specs.Log.{LogBecomes, OpensFlushed};
ghost use Rattle.local_log.specs.Reading.{first_past, segment_at, piece_of, is_edge, ReadOnce, IsCutOut};
ghost use Rattle.local_log.specs.Reading.{IsRunOf, IsEdge, RunFails, CutFails, IsOfDevice, IsClosedFrom};
ghost use Rattle.local_log.specs.Reading.{ClosedFails, IsPartOf, IsSegmentFront, FrontFails};

use crate::epochs::first_stray;
use crate::log::LocalLog;
use crate::piece::{SegmentPart, first_past, is_edge, piece_at, segment_at};
use crate::refusal::ReadRefusal;
use bytes::Bytes;
use disk_model::{Disk, FileName};
use epoch_line::Line;
use segment_file::{Closed, ClosedRefusal, take_run};
use std::alloc::Global;
use tier_base::{Stop, Trouble};

/// A run: the base offset of its segment, the bytes of its batches, the offset after it, and why it ends.
#[derive(Drop)]
pub struct RunOut {
    pub base: u64,
    pub bytes: Bytes,
    pub next: u64,
    pub stop: Stop,
}

impl<D: Disk> LocalLog<D> {
    /// Reads the run at an offset: the batch that contains it, and as many of the next ones as end at or below `mark`
    /// (the high watermark), are in the same segment and leader epoch, and fit into `limit` bytes together. A first
    /// batch larger than the limit is returned all the same. The log stays as it was, also if the read fails.
    pub fn read_run(&mut self, offset: u64, limit: u64, mark: u64) -> Result<RunOut, ReadRefusal>
        requires unbroken { self.old.broken ≡ false }
        requires start { self.old.local_start ≤ offset }
        requires below { offset < mark }
        ensures log { LogBecomes D.content self.old self.new }
        ensures keeps { Keeps (D.content self.old.disk) (D.content self.new.disk) }
        ensures run { IfOk result (λ run. IsTrue (D.content self.old.disk).is_observable
            → IsRunOf self.old offset limit mark run) }
        ensures base { IfOk result (λ run. run.base ≡ (segment_at self.old offset).base) }
        ensures bytes { IfOk result (λ run. IsCutOut self.old.line (D.control self.new.disk).last_read offset limit mark
            (piece_of self.old offset) run) }

        // A crash at any moment of the call leaves the flushed log.
        ensures any_moment { LeavesOnly (D.content self.old.disk) (D.content self.new.disk)
            (OpensFlushed self.old) }

        ensures edge { IsOk result → is_edge (segment_at self.old mark) mark ≡ true }

        // Each cause. A mark that is no batch's end is reported first, and nothing is read then.
        ensures err { IfErr result (λ e. RunFails self.old offset limit mark (D.control self.new.disk).last_read e) }
        ensures missed { is_edge (segment_at self.old mark) mark ≡ false → self.new ≡ self.old }
        ensures whole { IfErr result (λ e. IsTrue (D.content self.old.disk).is_observable → IsEdge self.old mark
            → IsOfDevice e) }
        ensures ran { is_edge (segment_at self.old mark) mark ≡ true
            → ReadOnce result (D.control self.old.disk) (D.control self.new.disk) }
        ensures control { Lasts (D.control self.old.disk) (D.control self.new.disk) }
        ensures cause { IsErrOf result DiskFault
            → Rose (D.control self.old.disk).faults (D.control self.new.disk).faults }
        ensures quiet { (IsErrOf result DiskFault → ⊥)
            → (D.control self.new.disk).faults ≡ (D.control self.old.disk).faults }
        ensures once { IsErrOf result DiskFault
            → (D.control self.new.disk).faults ≡ counted (D.control self.old.disk).faults 1 }
    {
        let marked = segment_at(self.local_start, self.closed.as_slice(), &self.active, mark);
        let (end, at) = marked.place_of(mark);
        if end != mark {
            return Err(ReadRefusal::Damaged {
                file: FileName::Log(marked.base()),
                at: at as u64,
            });
        }
        let segment = segment_at(
            self.local_start,
            self.closed.as_slice(),
            &self.active,
            offset,
        );
        let piece = piece_at(segment, self.line.entries(), offset, limit, mark);
        let part = self.read_part(piece.base, piece.from, piece.most as u64)?;
        run_in(piece, &self.line, part, offset, limit, mark)
    }

    /// Reads the first closed segment that ends past an offset. Returns `None` if the offset is in the open segment or
    /// past the end. `ReadRefusal` has the causes of a failure.
    pub fn closed_from(&mut self, offset: u64) -> Result<Option<Closed>, ReadRefusal>
        requires { self.old.broken ≡ false }
        ensures log { LogBecomes D.content self.old self.new }
        ensures keeps { Keeps (D.content self.old.disk) (D.content self.new.disk) }
        ensures segment { IfOk result
            (λ segment. IsClosedFrom self.old offset (D.control self.new.disk).last_read segment) }
        ensures part { IfOk result (λ segment. IsTrue (D.content self.old.disk).is_observable
            → IfSome segment (λ segment. IsPartOf self.old segment)) }

        // A crash at any moment of the call leaves the flushed log.
        ensures any_moment { LeavesOnly (D.content self.old.disk) (D.content self.new.disk)
            (OpensFlushed self.old) }

        ensures err { IfErr result (λ e. ClosedFails self.old offset (D.control self.new.disk).last_read e) }
        ensures whole { IfErr result (λ e. IsTrue (D.content self.old.disk).is_observable → IsOfDevice e) }
        ensures none { first_past offset self.old.closed ≡ None → self.new ≡ self.old }
        ensures ran { first_past offset self.old.closed ≢ None
            → ReadOnce result (D.control self.old.disk) (D.control self.new.disk) }
        ensures control { Lasts (D.control self.old.disk) (D.control self.new.disk) }
        ensures cause { IsErrOf result DiskFault
            → Rose (D.control self.old.disk).faults (D.control self.new.disk).faults }
        ensures quiet { (IsErrOf result DiskFault → ⊥)
            → (D.control self.new.disk).faults ≡ (D.control self.old.disk).faults }
        ensures once { IsErrOf result DiskFault
            → (D.control self.new.disk).faults ≡ counted (D.control self.old.disk).faults 1 }
    {
        let Some(segment) = first_past(
            self.local_start,
            self.closed.as_slice(),
            &self.active,
            offset,
        ) else {
            return Ok(None);
        };
        let base = segment.base();
        let size = segment.size();
        let part = self.read_part(base, 0, size)?;
        let closed = closed_in(self.alloc, &self.line, base, size, part)?;
        Ok(Some(closed))
    }

    /// Whether a batch of the log ends at this offset, or the first one begins there.
    pub fn is_edge(&self, offset: u64) -> bool
        ensures segment { result ≡ is_edge (segment_at self.now offset) offset }
        ensures told { self.now.broken ≡ false → IsTrue (D.content self.now.disk).is_observable
            → self.now.local_start ≤ offset
            → IsTrue result ↔ IsEdge self.now offset }
    {
        let segment = segment_at(
            self.local_start,
            self.closed.as_slice(),
            &self.active,
            offset,
        );
        is_edge(segment, offset)
    }

    /// Reads so many bytes of a segment's file from a position on.
    fn read_part(&mut self, base: u64, from: u32, most: u64) -> Result<Option<Bytes>, Trouble>
        requires { self.old.broken ≡ false }
        ensures log { LogBecomes D.content self.old self.new }
        ensures keeps { Keeps (D.content self.old.disk) (D.content self.new.disk) }
        ensures file { IsTrue (D.content self.old.disk).is_observable → IfOk result (λ held. held
            ≡ option_map (part_of from most) ((D.content self.old.disk).files (file.Log base))) }
        ensures bytes { IfOk result (λ held. (D.control self.new.disk).last_read ≡ bytes_in held) }
        ensures any_moment { LeavesOnly (D.content self.old.disk) (D.content self.new.disk)
            (OpensFlushed self.old) }
        ensures ran { Ran Read (fate_of result) (D.control self.old.disk) (D.control self.new.disk) }
        ensures control { Lasts (D.control self.old.disk) (D.control self.new.disk) }
        ensures cause { IsErrOf result fault.Failed
            → Rose (D.control self.old.disk).faults (D.control self.new.disk).faults }
        ensures quiet { (IsErrOf result fault.Failed → ⊥)
            → (D.control self.new.disk).faults ≡ (D.control self.old.disk).faults }
        ensures once { IsErrOf result fault.Failed
            → (D.control self.new.disk).faults ≡ counted (D.control self.old.disk).faults 1 }
    {
        self.disk.read_part(FileName::Log(base), from as u64, most)
    }
}

/// The closed segment in what was read of its file.
fn closed_in(
    alloc: Global,
    line: &Line,
    base: u64,
    size: u64,
    file: Option<Bytes>,
) -> Result<Closed, ReadRefusal>
    requires base { base ≤ 2 ^ 62 }
    requires some { 0 < size }
    ensures ok { IfOk result (λ segment. IsSegmentFront line.now base size (bytes_in file) segment) }
    ensures err { IfErr result (λ e. FrontFails line.now base size (bytes_in file) e) }
{
    let name = FileName::Log(base);
    let Some(bytes) = file else {
        return Err(ReadRefusal::Damaged { file: name, at: 0 });
    };
    let len = bytes.len();
    if (len as u64) < size {
        return Err(ReadRefusal::Damaged {
            file: name,
            at: len as u64,
        });
    }
    match Closed::read(alloc, base, bytes.slice(..size as usize)?) {
        Ok(closed) => match first_stray(closed.bytes().as_slice(), line) {
            Some(at) => Err(ReadRefusal::Damaged {
                file: name,
                at: at as u64,
            }),
            None => Ok(closed),
        },
        Err(ClosedRefusal::BadAt { at }) => Err(ReadRefusal::Damaged {
            file: name,
            at: at as u64,
        }),
        Err(ClosedRefusal::NoMemory) => Err(ReadRefusal::NoMemory),
    }
}

/// The run in what was read of a piece. The bytes of an absent file have none at 0.
fn run_in(
    piece: SegmentPart,
    line: &Line,
    file: Option<Bytes>,
    offset: u64,
    limit: u64,
    mark: u64,
) -> Result<RunOut, ReadRefusal>
    requires mark { offset < mark }
    requires inside { offset < piece.end }
    ensures base { IfOk result (λ run. run.base ≡ piece.base) }
    ensures ok { IfOk result (λ run. IsCutOut line.now (bytes_in file) offset limit mark piece.end run) }
    ensures err { IfErr result
        (λ e. CutFails line.now piece.base piece.from (bytes_in file) offset limit mark piece.end e) }
{
    let from = piece.from as u64;
    let Some(bytes) = file else {
        return Err(ReadRefusal::Damaged {
            file: FileName::Log(piece.base),
            at: 0,
        });
    };
    // Called for its clause `bound`, by which the proof knows that places fit.
    let _len = bytes.len();
    let cut = match take_run(bytes.as_slice(), offset, limit, mark, piece.end) {
        Ok(cut) => cut,
        Err(bad) => {
            return Err(ReadRefusal::Damaged {
                file: FileName::Log(piece.base),
                at: from + bad.at as u64,
            });
        }
    };
    let run = bytes.slice(cut.from..cut.to)?;
    match first_stray(run.as_slice(), line) {
        Some(at) => Err(ReadRefusal::Damaged {
            file: FileName::Log(piece.base),
            at: from + (cut.from + at) as u64,
        }),
        None => Ok(RunOut {
            base: piece.base,
            bytes: run,
            next: cut.next,
            stop: cut.stop,
        }),
    }
}
