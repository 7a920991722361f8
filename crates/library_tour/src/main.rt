//! A tour of the crates as a library: one partition's log on a local disk and in the remote tier.
//!
//! The program makes both in the folder `library_tour.data`. It appends to a log, copies its first segment to an object
//! store, drops that segment from the disk, and reads it again from the store. Each step is a short function in
//! `local.rt` or `remote.rt`, and prints a line here. docs/LIBRARY.md walks through them.
#![tactic(auto)]

mod local;
mod remote;

use anyhow::Result;
use disk_model::Disk;
use folder_yard::{FolderDisk, FolderStore};
use local_log::LocalLog;
use meta_log::MetaLog;
use object_store::Store;
use remote::{PARTITION, Remote};
use std::fs;

/// The folder of everything, which is made and removed.
const PLACE: &str = "library_tour.data";

/// The folder of the log's files.
const LOG: &str = "library_tour.data/log";

/// The folder of the remote segments' objects.
const OBJECTS: &str = "library_tour.data/objects";

/// The folder of the metadata log.
const EVENTS: &str = "library_tour.data/events";

/// Appends batches to two segments, and makes them durable.
fn fill<D: Disk>(rt: &HostRuntime, log: &mut LocalLog<D>) -> Result<()> {
    for value in ["alpha", "beta"] {
        let offset = local::append(rt.alloc(), log, value)?;
        println!(rt; "{value} has offset {offset}")?;
    }
    let base = local::roll(log)?;
    println!(rt; "a new segment begins at {base}")?;
    let offset = local::append(rt.alloc(), log, "gamma")?;
    println!(rt; "gamma has offset {offset}")?;
    let end = local::flush(log)?;
    println!(rt; "what is below {end} is durable")?;
    Ok(())
}

/// Copies the first segment to the remote tier, and finds it there.
fn copy<D: Disk, S: Store, M: MetaLog>(
    rt: &HostRuntime,
    log: &mut LocalLog<D>,
    remote: &mut Remote<S, M>,
) -> Result<()> {
    let (first, last) = remote.copy(log)?;
    println!(rt; "offsets {first} to {last} are copied")?;
    let piece = remote.find(log, first)?;
    println!(rt; "offset {first} is in the remote segment {}", piece.id.0)?;
    Ok(())
}

/// Drops the first segment from the disk, and reads it before and after that.
fn trim<D: Disk, S: Store, M: MetaLog>(
    rt: &HostRuntime,
    log: &mut LocalLog<D>,
    remote: &mut Remote<S, M>,
) -> Result<()> {
    let local = local::read(log, 0)?;
    println!(rt; "the disk has {} bytes at 0", local.len())?;
    let (first, last) = remote.trim(log)?;
    println!(rt; "offsets {first} to {last} are dropped from the disk")?;
    let stored = remote.read(log, 0)?;
    let same = stored.as_slice() == local.as_slice();
    println!(rt;
        "the store has {} bytes at 0: the same? {same}",
        stored.len()
    )?;
    Ok(())
}

/// Opens the remote tier, and takes the steps on it.
fn tier<D: Disk>(rt: &HostRuntime, log: &mut LocalLog<D>) -> Result<()> {
    let store = FolderStore::open(rt.clone()?, OBJECTS, PARTITION)?;
    let events = FolderDisk::open(rt.clone()?, EVENTS)?;
    let mut remote = Remote::open(rt.alloc(), store, events)?;
    copy(rt, log, &mut remote)?;
    trim(rt, log, &mut remote)
}

/// Opens the log, and takes all steps.
fn tour(rt: &HostRuntime) -> Result<()> {
    let alloc = rt.alloc();
    let mut log = local::open(alloc, FolderDisk::open(rt.clone()?, LOG)?)?;
    fill(rt, &mut log)?;
    let mut log = local::reopen(alloc, log)?;
    let (start, end) = (log.local_start(), log.end());
    println!(rt; "the log that is opened again goes from {start} to {end}")?;
    tier(rt, &mut log)?;
    println!(rt;
        "the disk's log goes from {} to {}",
        log.local_start(),
        log.end()
    )?;
    Ok(())
}

fn main(rt: HostRuntime) -> Result<()> {
    let _ = fs::remove_dir_all(&rt, PLACE);
    let toured = tour(&rt);
    fs::remove_dir_all(&rt, PLACE)?;
    toured
}
