//! Measures a local log over a disk in memory and over a folder.
//!
//! `log_speed [PLACE [COUNT [VALUE [SEGMENT [READS [time]]]]]]` makes a log in `memory` or in the folder
//! `log_speed.yard`. It appends COUNT batches of one record with VALUE bytes to segments of SEGMENT bytes, flushes
//! after each hundred, reads a batch at each of READS offsets in a mixed order and then all batches in order, 32 KiB at
//! a time, opens the log again, and prints a summary. With the word `time` a second line has the times of the calls.
//! Without it the output is the same in every run.
#![tactic(auto)]

ghost use Rattle.std.specs.Prelude.{◌≡◌, None, IsTrue};
ghost use Rattle.tier_base.specs.declared.plain.FileName.{FileName};

mod spent;
mod task;
mod work;

use anyhow::{Result, bail};
use disk_model::{Disk, MemoryDisk};
use folder_yard::FolderDisk;
use std::fs;
use std::rt::Clock;
use task::{Place, Task};
use work::{Found, Report, measure};

/// Where a log in a folder is, which is made and removed.
const YARD: &str = "log_speed.yard";

/// Measures a log over a disk in memory.
fn in_memory(rt: HostRuntime, task: &Task) -> Result<Report> {
    let alloc = rt.alloc();
    measure(&rt, alloc, MemoryDisk::new(alloc, Vec::new(alloc)), task)
}

/// Measures a log over a folder.
fn in_folder(rt: HostRuntime, task: &Task) -> Result<Report> {
    let _ = fs::remove_dir_all(&rt, YARD);
    let report = measure(&rt, rt.alloc(), FolderDisk::open(rt, YARD)?, task);
    fs::remove_dir_all(&rt, YARD)?;
    report
}

/// Measures a log, and prints what came of it.
fn run(rt: HostRuntime, place: Place, task: &Task) -> Result<()> {
    let report = match place {
        Place::Memory => in_memory(rt, task)?,
        Place::Folder => in_folder(rt, task)?,
    };
    println!(rt; "{place}: {}", report.found)?;
    if task.timed {
        println!(rt; "{}", report.times)?;
    }
    Ok(())
}

fn main(rt: HostRuntime) -> Result<()> {
    let (place, task) = task::from_args(&rt)?;
    match place {
        Some(place) => run(rt, place, &task),
        None => {
            run(rt, Place::Memory, &task)?;
            run(rt, Place::Folder, &task)
        }
    }
}
