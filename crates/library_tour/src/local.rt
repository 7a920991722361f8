//! The steps on the local log. Each call of a `LocalLog` requires that no write has failed, which `is_broken` tests.

ghost use Rattle.std.specs.Prelude.{◌≡◌, ◌≤◌, false, length, IfOk, OnOk};
ghost use Rattle.local_log.specs.Log.{AreSettings};

use anyhow::{Result, bail, ensure};
use bytes::Bytes;
use disk_model::Disk;
use local_log::LocalLog;
use record_batch::{Rec, build};
use std::alloc::Global;
use tier_base::{Blob, Items, Settings};

/// The leader epoch of every batch here.
const EPOCH: u32 = 0;

/// The most bytes that a read returns, unless its first batch is larger.
const LIMIT: u64 = 1_000;

/// The message where a log is used after a failed write.
const BROKEN: &str = "a write has failed: close the log and open it again";

/// A segment has at most 16 MiB, and an index entry for every 4 KiB.
fn settings() -> Settings
    ensures { AreSettings result }
{
    Settings {
        segment_bytes: 16_777_216,
        index_interval: 4096,
    }
}

/// Opens the log on a disk. A new disk has the empty log at offset 0.
pub fn open<D: Disk>(alloc: Global, disk: D) -> Result<LocalLog<D>>
    ensures whole { IfOk result (λ log. log.broken ≡ false) }
    ensures flushed { IfOk result (λ log. log.flushed_end ≡ log.end) }
{
    match LocalLog::open_at(alloc, disk, settings()) {
        Ok(log) => Ok(log),
        Err((_, why)) => Err(why.into()),
    }
}

/// Closes a log, and opens what is flushed of it.
pub fn reopen<D: Disk>(alloc: Global, log: LocalLog<D>) -> Result<LocalLog<D>> {
    open(alloc, log.close())
}

/// Appends a batch with one record, and returns its offset. It isn't durable before the next `flush`.
pub fn append<D: Disk>(alloc: Global, log: &mut LocalLog<D>, value: &str) -> Result<u64>
    ensures { IfOk result (λ offset. offset ≡ log.old.end) }
{
    ensure!(!log.is_broken(), "{BROKEN}");
    let rec = Rec {
        ts: 1_700_000_000_000,
        key: None,
        value: Some(Blob::from_slice(alloc, value.as_bytes())?),
        headers: Items::new(alloc),
    };
    let batch = build(alloc, log.end(), EPOCH, [rec].as_slice())?;
    ensure!(
        log.takes(batch.as_slice()),
        "the log doesn't take this batch"
    );
    let (first, _) = log.append(batch.as_slice())?;
    Ok(first)
}

/// Makes everything that was appended durable, and returns the log's end.
pub fn flush<D: Disk>(log: &mut LocalLog<D>) -> Result<u64>
    ensures { IfOk result (λ end. end ≡ log.old.end) }
{
    ensure!(!log.is_broken(), "{BROKEN}");
    Ok(log.flush()?)
}

/// Closes the open segment, and returns the base offset of the new one. Only a closed segment can be copied.
pub fn roll<D: Disk>(log: &mut LocalLog<D>) -> Result<u64>
    ensures { IfOk result (λ base. base ≡ log.old.end) }
{
    ensure!(!log.is_broken(), "{BROKEN}");
    Ok(log.roll()?)
}

/// Reads the batches at an offset from the disk, of one segment and below the flushed end.
pub fn read<D: Disk>(log: &mut LocalLog<D>, offset: u64) -> Result<Bytes> {
    ensure!(!log.is_broken(), "{BROKEN}");
    let mark = log.stable();
    if offset < log.local_start() || mark <= offset {
        bail!("the disk doesn't have offset {offset}");
    }
    let run = log.read_run(offset, LIMIT, mark)?;
    Ok(run.bytes)
}
