//! Calls of an environment, whatever its devices are. Each device that is provided comes back.

use crate::ends::End;
use crate::log_calls::{append, count};
use bytes::Bytes;
use device_yard::Yard;
use disk_model::{Disk, FileName};
use object_store::{ObjectKey, Store};
use std::alloc::Global;
use tier_base::{Blob, BrokerId, PartitionId, Trouble};

/// Whether a name is this one.
fn is_name(found: Option<Blob>, wanted: Option<&str>) -> bool {
    match (found, wanted) {
        (Some(name), Some(wanted)) => name.as_slice() == wanted.as_bytes(),
        (None, None) => true,
        _ => false,
    }
}

/// Whether the environment's first name is this one.
pub(crate) fn is_named<Y: Yard>(yard: &mut Y, wanted: Option<&str>) -> bool {
    match yard.first_name() {
        Ok(found) => is_name(found, wanted),
        Err(_) => false,
    }
}

/// Whether the environment's partitions in use are these.
pub(crate) fn are_used<Y: Yard>(yard: &mut Y, wanted: &[PartitionId]) -> bool {
    match yard.partitions() {
        Ok(found) => found.as_slice() == wanted,
        Err(_) => false,
    }
}

/// How many bytes a disk has in its manifest.
fn size_of<D: Disk>(disk: &mut D) -> Option<usize> {
    match disk.read(FileName::Manifest, 0) {
        Ok(Some(bytes)) => Some(bytes.len()),
        Ok(None) => Some(0),
        Err(_) => None,
    }
}

/// Whether a disk has so many bytes in its manifest. One more is added.
fn grows<D: Disk>(disk: &mut D, many: usize) -> bool {
    let has = size_of(disk) == Some(many);
    has & disk.append(FileName::Manifest, b"x").is_ok()
}

/// Whether a broker's disk has so many bytes in its manifest. One more is added, and the disk comes back armed.
pub(crate) fn disk_grows<Y: Yard>(
    yard: &mut Y,
    partition: PartitionId,
    broker: BrokerId,
    many: usize,
) -> bool {
    match yard.disk(partition, broker) {
        Ok(mut disk) => {
            let went = grows(&mut disk, many);
            disk.arm();
            yard.keep_disk(partition, broker, disk);
            went
        }
        Err(_) => false,
    }
}

/// Whether a broker's disk goes out and comes back as it was.
pub(crate) fn disk_goes<Y: Yard>(yard: &mut Y, partition: PartitionId, broker: BrokerId) -> bool {
    match yard.disk(partition, broker) {
        Ok(disk) => {
            yard.keep_disk(partition, broker, disk);
            true
        }
        Err(_) => false,
    }
}

/// Whether a disk's registry file has these bytes.
fn has_registry<D: Disk>(disk: &mut D, wanted: Option<&[u8]>) -> bool {
    match (disk.read(FileName::Registry, 0), wanted) {
        (Ok(Some(bytes)), Some(wanted)) => bytes.as_slice() == wanted,
        (Ok(None), None) => true,
        _ => false,
    }
}

/// Whether a partition's registry file has these bytes. It is replaced, and its disk comes back armed.
pub(crate) fn registry_goes<Y: Yard>(
    yard: &mut Y,
    partition: PartitionId,
    wanted: Option<&[u8]>,
    bytes: &[u8],
) -> bool {
    match yard.registry(partition) {
        Ok(mut disk) => {
            let has = has_registry(&mut disk, wanted);
            let went = disk.replace(FileName::Registry, bytes).is_ok();
            disk.arm();
            yard.keep_registry(partition, disk);
            has & went
        }
        Err(_) => false,
    }
}

/// Whether a partition's store takes an object.
pub(crate) fn store_fills<Y: Yard>(
    yard: &mut Y,
    partition: PartitionId,
    key: &ObjectKey,
    bytes: &'static [u8],
) -> bool {
    match yard.store(partition) {
        Ok(mut store) => {
            let went = store.put(key, &Bytes::from_static(bytes)).is_ok();
            yard.keep_store(partition, store);
            went
        }
        Err(_) => false,
    }
}

/// Whether a partition's metadata log has so many metadata events.
pub(crate) fn log_reads<Y: Yard>(yard: &mut Y, partition: PartitionId, many: usize) -> bool {
    match yard.meta(partition) {
        Ok(mut log) => {
            let end = count(&mut log, 0, many);
            yard.keep_meta(partition, log);
            end == End::Well
        }
        Err(_) => false,
    }
}

/// Whether a metadata event of these bytes goes to this place of a partition's metadata log.
pub(crate) fn log_grows<Y: Yard>(
    alloc: Global,
    yard: &mut Y,
    partition: PartitionId,
    note: &[u8],
    place: u64,
) -> bool {
    match yard.meta(partition) {
        Ok(mut log) => {
            let end = append(alloc, &mut log, note, place);
            yard.keep_meta(partition, log);
            end == End::Well
        }
        Err(_) => false,
    }
}

pub(crate) fn name_fails<Y: Yard>(yard: &mut Y) -> bool {
    matches!(yard.first_name(), Err(Trouble::Failed))
}

pub(crate) fn partitions_fail<Y: Yard>(yard: &mut Y) -> bool {
    matches!(yard.partitions(), Err(Trouble::Failed))
}

pub(crate) fn disk_fails<Y: Yard>(yard: &mut Y) -> bool {
    matches!(yard.disk(PartitionId(0), BrokerId(0)), Err(Trouble::Failed))
}

pub(crate) fn store_fails<Y: Yard>(yard: &mut Y) -> bool {
    matches!(yard.store(PartitionId(0)), Err(Trouble::Failed))
}

pub(crate) fn registry_fails<Y: Yard>(yard: &mut Y) -> bool {
    matches!(yard.registry(PartitionId(0)), Err(Trouble::Failed))
}

pub(crate) fn log_fails<Y: Yard>(yard: &mut Y) -> bool {
    matches!(yard.meta(PartitionId(0)), Err(Trouble::Failed))
}
