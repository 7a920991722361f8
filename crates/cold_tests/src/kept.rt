//! A partition's devices in memory between two runs, and a run over them.

ghost use Rattle.std.specs.Prelude.{◌≡◌, IfSome, length};
ghost use Rattle.plain_log.specs.Orders.{AreListsFor, IsConfig};
ghost use Rattle.script_lang.specs.Fit.{IsFit};
ghost use Rattle.cold_start.specs.Opening.{IsUnarmed, AreUnarmed};

use cold_start::{Cold, ColdRefusal, run_cold};
use disk_model::{Disk, MemoryDisk};
use meta_log_file::DiskLog;
use object_store::MemoryStore;
use partition_world::Devices;
use plain_log::Config;
use script_lang::{PartScript, Script, parse};
use std::alloc::Global;
use tier_base::PartitionId;
use trace_text::print;

/// The disks of two brokers, the second of which a script of one broker doesn't use, the store, the disk of the
/// metadata events, and that of the registry.
#[derive(Drop)]
pub(crate) struct Kept {
    pub(crate) first: MemoryDisk,
    pub(crate) second: MemoryDisk,
    pub(crate) store: MemoryStore,
    pub(crate) notes: MemoryDisk,
    pub(crate) reg: MemoryDisk,
}

/// How a run ended, and what its journal reports. One that wasn't begun has no text.
#[derive(Drop)]
pub(crate) struct Ran {
    pub(crate) refusal: Option<ColdRefusal>,
    pub(crate) text: Vec<u8>,
}

fn empty_disk(alloc: Global) -> MemoryDisk {
    MemoryDisk::new(alloc, Vec::new(alloc))
}

impl Kept {
    /// Empty devices.
    pub(crate) fn new(alloc: Global) -> Kept {
        Kept {
            first: empty_disk(alloc),
            second: empty_disk(alloc),
            store: MemoryStore::new(alloc, Vec::new(alloc)),
            notes: empty_disk(alloc),
            reg: empty_disk(alloc),
        }
    }

    /// A power cut: what isn't synced is gone.
    pub(crate) fn crash(&mut self) {
        self.first.crash();
        self.second.crash();
        self.notes.crash();
        self.reg.crash();
    }
}

/// Provides a disk again. With a fuse it lets so many calls pass and fails every one after them.
fn renewed(alloc: Global, disk: MemoryDisk, fuse: Option<u64>) -> MemoryDisk
    ensures { IsUnarmed ⟦<MemoryDisk as Disk>⟧.control result }
{
    let mut disk = disk;
    disk.renew(Vec::new(alloc));
    if let Some(calls) = fuse {
        disk.fuse(calls);
    }
    disk
}

/// The disks of a script's brokers.
fn disks_of(
    alloc: Global,
    brokers: u16,
    first: MemoryDisk,
    second: MemoryDisk,
) -> Option<Vec<MemoryDisk>>
    requires first { IsUnarmed ⟦<MemoryDisk as Disk>⟧.control first }
    requires second { IsUnarmed ⟦<MemoryDisk as Disk>⟧.control second }
    ensures unarmed { IfSome result (λ disks. AreUnarmed ⟦<MemoryDisk as Disk>⟧.control disks.items) }
    ensures count { IfSome result (λ disks. length disks.items ≡ brokers) }
{
    match brokers {
        1 => Vec::from_array(alloc, [first]).ok(),
        2 => Vec::from_array(alloc, [first, second]).ok(),
        _ => None,
    }
}

/// Reads a script.
fn read(alloc: Global, bytes: &[u8]) -> Option<Script>
    ensures { IfSome result IsFit }
{
    if bytes.len() > 1000 {
        return None;
    }
    parse(alloc, bytes).ok()
}

/// Runs the only partition of a script over devices of an earlier run. With a fuse each disk lets so many calls pass
/// and fails every one after them.
pub(crate) fn run(
    alloc: Global,
    bytes: &[u8],
    kept: Kept,
    fuse: Option<u64>,
) -> Option<(Kept, Ran)> {
    let Some(script) = read(alloc, bytes) else {
        return None;
    };
    let mut parts = script.parts;
    match parts.pop() {
        Some(part) => run_part(alloc, script.config, part, kept, fuse),
        None => None,
    }
}

fn run_part(
    alloc: Global,
    config: Config,
    part: PartScript,
    kept: Kept,
    fuse: Option<u64>,
) -> Option<(Kept, Ran)>
    requires config { IsConfig config }
    requires fit { AreListsFor config part.lists }
{
    let Kept {
        first,
        second,
        store,
        notes,
        reg,
    } = kept;
    let first = renewed(alloc, first, fuse);
    let second = renewed(alloc, second, fuse);
    let notes = renewed(alloc, notes, fuse);
    let reg = renewed(alloc, reg, fuse);
    match DiskLog::open(alloc, notes) {
        Ok(meta) => {
            let disks = disks_of(alloc, config.brokers, first, second)?;
            run_over(alloc, config, part, Devices { disks, store, meta }, reg)
        }
        Err((notes, _)) => {
            let kept = Kept {
                first,
                second,
                store,
                notes,
                reg,
            };
            Some((kept, ended(alloc, ColdRefusal::DeviceFault)))
        }
    }
}

fn ended(alloc: Global, why: ColdRefusal) -> Ran {
    Ran {
        refusal: Some(why),
        text: Vec::new(alloc),
    }
}

fn run_over(
    alloc: Global,
    config: Config,
    part: PartScript,
    devices: Devices<MemoryDisk, MemoryStore, DiskLog<MemoryDisk>>,
    reg: MemoryDisk,
) -> Option<(Kept, Ran)>
    requires config { IsConfig config }
    requires fit { AreListsFor config part.lists }
    requires count { length devices.disks.items ≡ config.brokers }
    requires disks { AreUnarmed ⟦<MemoryDisk as Disk>⟧.control devices.disks.items }
    requires registry { IsUnarmed ⟦<MemoryDisk as Disk>⟧.control reg }
{
    let PartScript {
        lists,
        schedule,
        ..
    } = part;
    match Cold::open(alloc, PartitionId(0), config, lists, devices, reg) {
        Ok(opened) => {
            let mut cold = opened;
            let refusal = run_cold(alloc, &mut cold, schedule.as_slice()).err();
            let text = print(alloc, PartitionId(0), cold.world().journal()).ok()?;
            let (devices, reg) = cold.close();
            Some((kept_of(alloc, devices, reg)?, Ran { refusal, text }))
        }
        Err((devices, reg, why)) => Some((kept_of(alloc, devices, reg)?, ended(alloc, why))),
    }
}

/// The devices that a run gives back, and an empty disk for a broker that it didn't have.
fn kept_of(
    alloc: Global,
    devices: Devices<MemoryDisk, MemoryStore, DiskLog<MemoryDisk>>,
    reg: MemoryDisk,
) -> Option<Kept> {
    let Devices {
        mut disks,
        store,
        meta,
    } = devices;
    let last = disks.pop()?;
    let (first, second) = match disks.pop() {
        Some(first) => (first, last),
        None => (last, empty_disk(alloc)),
    };
    Some(Kept {
        first,
        second,
        store,
        notes: meta.close(),
        reg,
    })
}
