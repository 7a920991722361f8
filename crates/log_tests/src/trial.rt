//! A log under test, over a disk in memory. Each call is a method without a contract: it asks first whether the call
//! may be made, and returns the result. A test is a table of turns, and never holds a log.

ghost use Rattle.std.specs.Prelude.{◌≡◌, ◌≤◌, None, IsTrue};
ghost use Rattle.tier_base.specs.declared.plain.FileName.{FileName};
ghost use Rattle.local_log.specs.Dropping.{IsFirstFlushed};
ghost use Rattle.local_log.specs.Log.{AreSettings};

use bytes::Bytes;
use disk_model::{DeafDisk, Disk, FileName, MemoryDisk, Planned};
use epoch_line::Line;
use local_log::{AppendRefusal, CreateRefusal, LocalLog, OpenRefusal, ReadRefusal, RollRefusal};
use record_batch::stamp;
use segment_file::Growing;
use std::alloc::{AllocError, Global};
use std::marker::Model;
use tier_base::{Settings, Stop, Trouble};

/// A mebibyte a segment.
pub(crate) const LARGE: u32 = 1_048_576;

/// A log over a disk in memory.
#[derive(Drop)]
pub(crate) struct Trial {
    alloc: Global,
    log: LocalLog<MemoryDisk>,
}

impl Model for Trial {
    ghost use Rattle.std.specs.Prelude.{ℕ};

    ghost Value = { ℕ };

    // Nothing is reported.
    ghost view = { λ t. 0 };
}

impl Trial {
    /// Makes an empty log, of large segments or of segments that hold a batch, over a disk with these planned faults
    /// that lets so many calls pass.
    pub(crate) fn create(
        alloc: Global,
        segment_bytes: u32,
        plan: &[Planned],
        fuse: u64,
    ) -> Option<Trial>
        requires low { 100 ≤ segment_bytes }
        requires high { segment_bytes ≤ 16777216 }
    {
        let plan = match plan.to_vec(alloc) {
            Ok(plan) => plan,
            Err(_) => return None,
        };
        let mut disk = MemoryDisk::new(alloc, plan);
        disk.fuse(fuse);
        create(alloc, disk, segment_bytes).ok()
    }

    /// Opens the log again after a crash.
    pub(crate) fn crash(self) -> Result<Trial, OpenRefusal> {
        let alloc = self.alloc;
        let mut disk = self.log.close();
        disk.crash();
        match LocalLog::open_at(alloc, disk, settings(LARGE)) {
            Ok(log) => Ok(Trial { alloc, log }),
            Err((_, why)) => Err(why),
        }
    }

    /// Closes the log.
    pub(crate) fn close(self) -> bool {
        self.log.close();
        true
    }

    /// Whether the closed log leaves a file of these bytes.
    pub(crate) fn leaves(self, name: FileName, bytes: &[u8]) -> bool {
        holds(self.log.close(), name, bytes)
    }

    /// Appends the first batches of a run.
    pub(crate) fn append(&mut self, run: &[u8]) -> Option<Result<(u64, u64), AppendRefusal>> {
        if self.log.is_broken() || !self.log.takes(run) {
            return None;
        }
        Some(self.log.append(run))
    }

    /// The next batch of the log, in its last epoch: the bytes of a batch, stamped.
    fn next(&self, batch: &[u8]) -> Option<Vec<u8>> {
        let epoch = self.log.line().last_epoch().unwrap_or(0);
        stamped(self.alloc, batch, self.log.end(), epoch)
    }

    /// Appends the next batch, which is that of these bytes, stamped.
    pub(crate) fn add(&mut self, batch: &[u8]) -> Option<Result<(u64, u64), AppendRefusal>> {
        match self.next(batch) {
            Some(batch) => self.append(batch.as_slice()),
            None => None,
        }
    }

    pub(crate) fn flush(&mut self) -> Option<Result<u64, Trouble>> {
        if self.log.is_broken() {
            return None;
        }
        Some(self.log.flush())
    }

    pub(crate) fn roll(&mut self) -> Option<Result<u64, RollRefusal>> {
        if self.log.is_broken() {
            return None;
        }
        Some(self.log.roll())
    }

    /// Whether the log enters an epoch, and is flushed up to an end.
    pub(crate) fn leads(&mut self, epoch: u32, end: u64) -> bool {
        if self.log.is_broken() || epoch >= 1 << 31 {
            return false;
        }
        match self.log.line().last_epoch() {
            Some(last) if epoch <= last => false,
            _ => self.log.lead(epoch) == Ok(end),
        }
    }

    /// Whether the log is cut to an offset.
    pub(crate) fn cuts(&mut self, end: u64) -> bool {
        if self.log.is_broken() || end > self.log.end() {
            return false;
        }
        self.log.cut_to(end).is_ok()
    }

    /// Whether the log restarts with an empty line.
    pub(crate) fn restarts(&mut self, start: u64) -> bool {
        if self.log.is_broken() || start > 1 << 62 {
            return false;
        }
        self.log.restart_at(start, Line::new(self.alloc)).is_ok()
    }

    /// Drops the first segment.
    pub(crate) fn drop_first(&mut self) -> Option<Result<(u64, u64), Trouble>> {
        if self.log.is_broken() || !is_first_stable(self.log.closed(), self.log.stable()) {
            return None;
        }
        Some(self.log.drop_first())
    }

    /// Reads from an offset, with a limit and a mark: whether these bytes come, the next offset, and why it stops.
    pub(crate) fn read(
        &mut self,
        (offset, limit, mark): (u64, u64, u64),
        bytes: &[u8],
    ) -> Option<Result<(bool, u64, Stop), ReadRefusal>> {
        if self.log.is_broken() || offset < self.log.local_start() || mark <= offset {
            return None;
        }
        match self.log.read_run(offset, limit, mark) {
            Ok(run) => Some(Ok((run.bytes.as_slice() == bytes, run.next, run.stop))),
            Err(why) => Some(Err(why)),
        }
    }

    /// The first and the last offset of the closed segment from an offset on, if there is one.
    pub(crate) fn closed_from(&mut self, offset: u64) -> Result<Option<(u64, u64)>, ReadRefusal> {
        if self.log.is_broken() {
            return Err(ReadRefusal::NoMemory);
        }
        match self.log.closed_from(offset) {
            Ok(Some(closed)) => Ok(Some((closed.base(), closed.last()))),
            Ok(None) => Ok(None),
            Err(why) => Err(why),
        }
    }

    /// The end of the batches that end at or below an offset.
    pub(crate) fn end_up_to(&self, offset: u64) -> u64 {
        self.log.end_up_to(offset)
    }

    /// Whether a batch begins or the log ends at an offset.
    pub(crate) fn is_edge(&self, offset: u64) -> bool {
        self.log.is_edge(offset)
    }

    /// How often the log was opened.
    pub(crate) fn incarnation(&self) -> u32 {
        self.log.incarnation()
    }

    /// How many segments are closed, and the bytes of the open one.
    pub(crate) fn sizes(&self) -> (usize, u64) {
        (self.log.closed().len(), self.log.open_size())
    }

    /// Whether this was never broken by a fault of the disk, and has large segments.
    pub(crate) fn is_sound(&self) -> bool {
        self.log.stands();
        self.log.coheres();
        let told = (
            self.log.is_broken(),
            self.log.disk().faults(),
            self.log.settings().segment_bytes,
        );
        told == (false, 0, LARGE)
    }

    /// Has planned calls fail from now on.
    pub(crate) fn arm(&mut self) {
        self.log.arm();
    }

    /// The local start, the flushed end and the end.
    pub(crate) fn span(&self) -> (u64, u64, u64) {
        (self.log.local_start(), self.log.stable(), self.log.end())
    }
}

/// Makes the empty log over a disk with no files.
fn create(alloc: Global, disk: MemoryDisk, segment_bytes: u32) -> Result<Trial, CreateRefusal>
    requires low { 100 ≤ segment_bytes }
    requires high { segment_bytes ≤ 16777216 }
    requires empty { (n : FileName) → (⟦<MemoryDisk as Disk>⟧.content disk).files n ≡ None }
{
    match LocalLog::create(alloc, disk, settings(segment_bytes)) {
        Ok(log) => Ok(Trial { alloc, log }),
        Err((_, why)) => Err(why),
    }
}

/// Whether there is a first segment, and it ends at or below the flushed end.
fn is_first_stable(closed: &[Growing], flushed_end: u64) -> bool
    ensures { IsTrue result → IsFirstFlushed flushed_end closed.now }
{
    match closed {
        [first, ..] => first.end() <= flushed_end,
        [] => false,
    }
}

/// Segments of so many bytes.
fn settings(segment_bytes: u32) -> Settings
    requires low { 100 ≤ segment_bytes }
    requires high { segment_bytes ≤ 16777216 }
    ensures { AreSettings result }
{
    Settings {
        segment_bytes,
        index_interval: 100,
    }
}

/// The bytes of a batch, with another base offset and leader epoch.
pub(crate) fn stamped(alloc: Global, batch: &[u8], base: u64, epoch: u32) -> Option<Vec<u8>> {
    let mut bytes = match batch.to_vec(alloc) {
        Ok(bytes) => bytes,
        Err(_) => return None,
    };
    if bytes.len() < 16 {
        return None;
    }
    stamp(bytes.as_mut_slice(), base, epoch);
    Some(bytes)
}

/// Opens the log of these files over a disk that isn't observable.
fn open_deaf(
    alloc: Global,
    files: Vec<(FileName, Bytes)>,
) -> Result<LocalLog<DeafDisk>, OpenRefusal> {
    match LocalLog::open_at(alloc, DeafDisk::new(alloc, files), settings(LARGE)) {
        Ok(log) => Ok(log),
        Err((_, why)) => Err(why),
    }
}

/// The end of the log that these files are.
pub(crate) fn open_files(alloc: Global, files: Vec<(FileName, Bytes)>) -> Result<u64, OpenRefusal> {
    match open_deaf(alloc, files) {
        Ok(log) => {
            let end = log.end();
            log.close();
            Ok(end)
        }
        Err(why) => Err(why),
    }
}

/// What is read of batches that were appended in one run and whose segment has closed: the offset after the run at the
/// local start, and the last offset of the closed segment.
type Reads = (Result<u64, ReadRefusal>, Result<Option<u64>, ReadRefusal>);

/// Appends a run to a log, and closes its segment.
fn fill(log: &mut LocalLog<DeafDisk>, run: &[u8]) -> bool {
    if log.is_broken() || !log.takes(run) || log.append(run).is_err() || log.is_broken() {
        return false;
    }
    log.roll().is_ok()
}

/// Reads the run at a log's local start, up to its end, and the first closed segment.
fn read_both(log: &mut LocalLog<DeafDisk>) -> Option<Reads> {
    let (start, end) = (log.local_start(), log.end());
    if log.is_broken() || end <= start {
        return None;
    }
    let run = match log.read_run(start, LARGE as u64, end) {
        Ok(run) => Ok(run.next),
        Err(why) => Err(why),
    };
    let closed = match log.closed_from(start) {
        Ok(Some(closed)) => Ok(Some(closed.last())),
        Ok(None) => Ok(None),
        Err(why) => Err(why),
    };
    Some((run, closed))
}

/// Begins an opened log of these files again at 0, fills it with a run, and returns what is read. Of the segment's file
/// the disk may have two. The log drops the first as it starts again, and the run is appended to the second, so that
/// the second's bytes are read in its place.
pub(crate) fn reads_over(
    alloc: Global,
    files: Vec<(FileName, Bytes)>,
    run: &[u8],
) -> Option<Reads> {
    let mut log = match open_deaf(alloc, files) {
        Ok(log) => log,
        Err(_) => return None,
    };
    if log.is_broken() || log.restart_at(0, Line::new(alloc)).is_err() || !fill(&mut log, run) {
        return None;
    }
    read_both(&mut log)
}

/// The bytes between two places, as far as there are any.
pub(crate) fn part(bytes: &[u8], from: usize, to: usize) -> &[u8] {
    let to = to.min(bytes.len());
    &bytes[from.min(to)..to]
}

/// Whether a log that is opened from these files and closed has files of these names.
pub(crate) fn leaves_names(
    alloc: Global,
    files: Vec<(FileName, Bytes)>,
    names: &[FileName],
) -> bool {
    match open_deaf(alloc, files) {
        Ok(log) => lists(log.close(), names),
        Err(_) => false,
    }
}

/// Whether a disk holds a file of these bytes.
fn holds<D: Disk>(disk: D, name: FileName, bytes: &[u8]) -> bool {
    let mut disk = disk;
    match disk.read(name, 0) {
        Ok(held) => is_some_of(held, bytes),
        Err(_) => false,
    }
}

fn is_some_of(held: Option<Bytes>, bytes: &[u8]) -> bool {
    match held {
        Some(held) => held.as_slice() == bytes,
        None => false,
    }
}

/// Whether a disk lists these names.
fn lists<D: Disk>(disk: D, names: &[FileName]) -> bool {
    let mut disk = disk;
    match disk.list() {
        Ok(found) => found.as_slice() == names,
        Err(_) => false,
    }
}
