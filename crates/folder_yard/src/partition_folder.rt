//! A partition's folder: which partition it is, whether it has a file, and whether it has an object or a metadata event
//! without a registry.
//!
//! An environment that provided devices leaves their empty folders behind. So empty folders, and files that were never
//! put in their place, don't count.

use crate::listing::{is_unfinished, readable};
use std::alloc::{AllocError, Global};
use std::fs::{self, DirEntry};
use std::io;
use std::rt::Files;
use tier_base::PartitionId;

/// The partition whose folder is in the environment's under this name, if it is one's.
pub fn partition_of<R: Files + AllocGlobal + Clone + Drop>(
    rt: &R,
    entry: &DirEntry<R, Global>,
) -> io::Result<Option<PartitionId>> {
    let Some(number) = number_of(rt.alloc(), "p", entry.file_name())? else {
        return Ok(None);
    };
    if !entry.file_type()?.is_dir() {
        return Ok(None);
    }
    Ok(Some(PartitionId(number)))
}

/// Whether a partition's folder is in use.
pub fn is_used<R: Files + AllocGlobal + Clone + Drop>(
    rt: &R,
    partition: &DirEntry<R, Global>,
) -> io::Result<bool> {
    for entry in fs::read_dir(rt, partition.path())? {
        let Some(entry) = readable(entry)? else {
            return Ok(true);
        };
        if is_registry(&entry)? {
            continue;
        }
        if !is_device(rt.alloc(), entry.file_name())? || holds(rt, &entry)? {
            return Ok(true);
        }
    }
    Ok(false)
}

/// Whether a partition's folder has an object or a metadata event, and no registry.
pub fn is_bare<R: Files + AllocGlobal + Clone + Drop>(
    rt: &R,
    partition: &DirEntry<R, Global>,
) -> io::Result<bool> {
    let mut has_tier = false;
    for entry in fs::read_dir(rt, partition.path())? {
        let Some(entry) = readable(entry)? else {
            continue;
        };
        if is_registry(&entry)? {
            if has_file(rt, &entry, "registry")? {
                return Ok(false);
            }
        } else if is_tier(entry.file_name()) && holds(rt, &entry)? {
            has_tier = true;
        }
    }
    Ok(has_tier)
}

/// Whether this is the name of a folder that a partition's tier is in.
fn is_tier(name: &str) -> bool {
    name == "store" || name == "meta"
}

/// Whether something of this name is in a folder.
fn has_file<R: Files + AllocGlobal + Clone + Drop>(
    rt: &R,
    folder: &DirEntry<R, Global>,
    name: &str,
) -> io::Result<bool> {
    for entry in fs::read_dir(rt, folder.path())? {
        if let Some(entry) = readable(entry)? {
            if entry.file_name() == name {
                return Ok(true);
            }
        }
    }
    Ok(false)
}

/// Whether this is the folder of a partition's registry, which is beside what the partition has.
fn is_registry<R: Files + AllocGlobal + Clone + Drop>(
    entry: &DirEntry<R, Global>,
) -> io::Result<bool> {
    Ok(entry.file_name() == "reg" && entry.file_type()?.is_dir())
}

/// Whether this is the name of a device's folder.
fn is_device(alloc: Global, name: &str) -> Result<bool, AllocError> {
    if is_tier(name) {
        return Ok(true);
    }
    Ok(number_of(alloc, "b", name)?.is_some())
}

/// Whether a device's folder holds more than files that were never put in their place, or is no folder. A metadata log
/// that was opened and has no metadata events yet has a gate alone, which is nothing.
fn holds<R: Files + AllocGlobal + Clone + Drop>(
    rt: &R,
    device: &DirEntry<R, Global>,
) -> io::Result<bool> {
    if !device.file_type()?.is_dir() {
        return Ok(true);
    }
    let is_log = device.file_name() == "meta";
    for entry in fs::read_dir(rt, device.path())? {
        let Some(entry) = readable(entry)? else {
            return Ok(true);
        };
        let is_gate = is_log && entry.file_name() == "gate";
        if !is_gate && !is_unfinished(entry.file_name().as_bytes()) {
            return Ok(true);
        }
    }
    Ok(false)
}

/// The number of a partition or a broker after this letter, where the name is spelled as this environment spells it.
fn number_of(alloc: Global, letter: &str, name: &str) -> Result<Option<u16>, AllocError> {
    let Some(digits) = name.strip_prefix(letter) else {
        return Ok(None);
    };
    let Ok(number) = digits.parse::<u16>() else {
        return Ok(None);
    };
    let mut spelled = String::new(alloc);
    write!(spelled, "{letter}{number}")?;
    if spelled.as_str() != name {
        return Ok(None);
    }
    Ok(Some(number))
}
