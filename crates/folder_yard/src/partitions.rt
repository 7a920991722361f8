//! The partitions of a directory whose folders have a file.

ghost use Rattle.std.specs.Prelude.{IfOk};
ghost use Rattle.device_yard.specs.YardContent.{Rise};

use crate::listing::readable;
use crate::partition_folder::{is_used, partition_of};
use device_yard::PartitionSet;
use std::alloc::Global;
use std::fs::{self, DirEntry};
use std::io::{self, ErrorKind};
use std::rt::Files;
use tier_base::{Items, PartitionId};

/// Names them in rising order. An absent folder has none.
pub fn partitions<R: Files + AllocGlobal + Clone + Drop>(
    rt: &R,
    folder: &str,
) -> io::Result<Items<PartitionId>>
    ensures rise { IfOk result Rise }
{
    let entries = match fs::read_dir(rt, folder) {
        Ok(entries) => entries,
        Err(error) if error.kind() == ErrorKind::NotFound => return Ok(Items::new(rt.alloc())),
        Err(error) => return Err(error),
    };
    let mut found = PartitionSet::new(rt.alloc());
    for entry in entries {
        if let Some(partition) = used_partition(rt, entry)? {
            found.insert(partition)?;
        }
    }
    Ok(found.to_row()?)
}

/// The partition whose folder this is, if something is in it. A name that is no text is no partition's.
fn used_partition<R: Files + AllocGlobal + Clone + Drop>(
    rt: &R,
    entry: io::Result<DirEntry<R, Global>>,
) -> io::Result<Option<PartitionId>> {
    let Some(entry) = readable(entry)? else {
        return Ok(None);
    };
    let Some(partition) = partition_of(rt, &entry)? else {
        return Ok(None);
    };
    if !is_used(rt, &entry)? {
        return Ok(None);
    }
    Ok(Some(partition))
}
