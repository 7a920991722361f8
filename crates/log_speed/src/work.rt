//! The calls of a log, each timed. A batch is tested before the time begins, as a broker tests what comes from outside.

ghost use Rattle.std.specs.Prelude.{◌≡◌, ◌≤◌, length, None, IsTrue};
ghost use Rattle.tier_base.specs.declared.plain.FileName.{FileName};
ghost use Rattle.local_log.specs.Log.{AreSettings};

use crate::spent::{Spent, Times};
use crate::task::Task;
use anyhow::{Result, bail};
use disk_model::Disk;
use local_log::{LocalLog, RunOut};
use record_batch::{Rec, build, stamp};
use std::alloc::Global;
use std::fmt;
use std::rt::Clock;
use std::time::Instant;
use tier_base::{Blob, Items, Settings};

/// How many appends go before a flush.
const EVERY: u32 = 100;

/// How many bytes a read in order is at most, unless the first batch alone has more.
const BLOCK: u64 = 32_768;

/// What came of the calls: the size of a batch, the end of the log and its closed segments, the bytes that were read,
/// and the end and the incarnation of the log that was opened again.
#[derive(Clone, Copy, Debug)]
pub struct Found {
    size: usize,
    end: u64,
    closed: usize,
    read: u64,
    opened: u64,
    incarnation: u32,
}

/// What came of the calls, and how long they took.
#[derive(Clone, Copy, Debug)]
pub struct Report {
    pub found: Found,
    pub times: Times,
}

impl fmt::Display for Found {
    fn fmt<W: fmt::Write>(&self, f: &mut fmt::Formatter<W>) -> fmt::Result {
        write!(
            f,
            "{} batches of {} bytes, {} closed segments, {} bytes read, opened at {} in incarnation {}",
            self.end, self.size, self.closed, self.read, self.opened, self.incarnation
        )
    }
}

/// Segments of so many bytes, within a log's bounds.
fn settings(segment: u32) -> Settings
    ensures { AreSettings result }
{
    Settings {
        segment_bytes: segment.max(100).min(16_777_216),
        index_interval: 4096,
    }
}

/// A batch of one record with a value of so many bytes.
fn batch_of(alloc: Global, value: u32) -> Result<Vec<u8>> {
    let bytes = vec![in alloc; 7u8; value as usize]?;
    let rec = Rec {
        ts: 1_700_000_000_000,
        key: None,
        value: Some(Blob::from_slice(alloc, bytes.as_slice())?),
        headers: Items::new(alloc),
    };
    Ok(build(alloc, 0, 0, [rec].as_slice())?)
}

/// Appends the batch at the log's end.
fn append<D: Disk>(
    rt: &impl Clock,
    log: &mut LocalLog<D>,
    batch: &mut [u8],
    times: &mut Times,
) -> Result<()> {
    if batch.len() < 16 {
        bail!("a batch has a head");
    }
    stamp(batch, log.end(), 0);
    if log.is_broken() || !log.takes(batch) {
        bail!("the log takes no such batch");
    }
    let start = Instant::now(rt)?;
    log.append(batch)?;
    times.appends.note(rt, start)?;
    Ok(())
}

/// Makes all of the log flushed.
fn flush<D: Disk>(rt: &impl Clock, log: &mut LocalLog<D>, times: &mut Times) -> Result<()> {
    if log.is_broken() {
        bail!("the log is broken");
    }
    let start = Instant::now(rt)?;
    log.flush()?;
    times.flushes.note(rt, start)?;
    Ok(())
}

/// Fills the log with copies of a batch.
fn fill<D: Disk>(
    rt: &impl Clock,
    log: &mut LocalLog<D>,
    batch: &mut [u8],
    count: u32,
    times: &mut Times,
) -> Result<()> {
    for number in 0..count {
        append(rt, log, batch, times)?;
        if number % EVERY == EVERY - 1 {
            flush(rt, log, times)?;
        }
    }
    flush(rt, log, times)
}

/// Reads the run at an offset that fits into so many bytes.
fn read<D: Disk>(
    rt: &impl Clock,
    log: &mut LocalLog<D>,
    offset: u64,
    limit: u64,
    spent: &mut Spent,
) -> Result<RunOut> {
    let mark = log.stable();
    if log.is_broken() || offset < log.local_start() || mark <= offset {
        bail!("the log has no such offset");
    }
    let start = Instant::now(rt)?;
    let run = log.read_run(offset, limit, mark)?;
    spent.note(rt, start)?;
    Ok(run)
}

/// Reads batches at offsets in no order, the same in each run, and returns how many bytes that gave.
fn read_mixed<D: Disk>(
    rt: &impl Clock,
    log: &mut LocalLog<D>,
    reads: u32,
    times: &mut Times,
) -> Result<u64> {
    let count = log.stable().max(1);
    let mut state = 1u64;
    let mut bytes = 0u64;
    for _ in 0..reads {
        state = state
            .wrapping_mul(6_364_136_223_846_793_005)
            .wrapping_add(1_442_695_040_888_963_407);
        let run = read(rt, log, (state >> 20) % count, 1, &mut times.reads)?;
        bytes = bytes.saturating_add(run.bytes.len() as u64);
    }
    Ok(bytes)
}

/// Reads all batches in order, and returns how many bytes that gave.
fn read_in_order<D: Disk>(
    rt: &impl Clock,
    log: &mut LocalLog<D>,
    times: &mut Times,
) -> Result<u64> {
    let end = log.stable();
    let mut offset = log.local_start();
    let mut bytes = 0u64;
    for _ in offset..end {
        if offset >= end {
            break;
        }
        let run = read(rt, log, offset, BLOCK, &mut times.in_order)?;
        bytes = bytes.saturating_add(run.bytes.len() as u64);
        offset = run.next;
    }
    Ok(bytes)
}

/// Opens a log again.
fn reopen<D: Disk>(
    rt: &impl Clock,
    alloc: Global,
    log: LocalLog<D>,
    segment: u32,
    times: &mut Times,
) -> Result<LocalLog<D>> {
    let disk = log.close();
    let start = Instant::now(rt)?;
    match LocalLog::open_at(alloc, disk, settings(segment)) {
        Ok(log) => {
            times.openings.note(rt, start)?;
            Ok(log)
        }
        Err((_, why)) => Err(why.into()),
    }
}

/// Makes a log over a disk with no files, fills it, reads it, and opens it again.
pub fn measure<D: Disk>(rt: &impl Clock, alloc: Global, disk: D, task: &Task) -> Result<Report>
    requires { IsTrue (D.content disk).is_observable → (n : FileName) → (D.content disk).files n ≡ None }
{
    let mut times = Times::new();
    let mut log = match LocalLog::create(alloc, disk, settings(task.segment)) {
        Ok(log) => log,
        Err((_, why)) => return Err(why.into()),
    };
    let mut batch = batch_of(alloc, task.value)?;
    fill(rt, &mut log, batch.as_mut_slice(), task.count, &mut times)?;
    let end = log.end();
    let closed = log.closed().len();
    let read = read_mixed(rt, &mut log, task.reads, &mut times)?.saturating_add(read_in_order(
        rt, &mut log, &mut times,
    )?);
    let log = reopen(rt, alloc, log, task.segment, &mut times)?;
    let found = Found {
        size: batch.len(),
        end,
        closed,
        read,
        opened: log.end(),
        incarnation: log.incarnation(),
    };
    Ok(Report { found, times })
}
