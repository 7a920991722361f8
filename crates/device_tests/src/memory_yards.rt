//! An environment in memory under test. Values worked by hand.
//!
//! A story is a list of steps, each a call of the environment and what it should come to. No test holds a device.

use crate::yard_calls::{
    are_used, disk_fails, disk_goes, disk_grows, is_named, log_fails, log_reads, name_fails,
    partitions_fail, registry_fails, registry_goes, store_fails, store_fills,
};
use device_yard::ReadRegistry;
use memory_yard::MemoryYard;
use object_store::{ObjectKey, Part};
use std::alloc::{AllocError, Global};
use tier_base::{Blob, BrokerId, PartitionId, segment_id};

/// A call of an environment. Each device that is provided comes back.
#[derive(Clone, Copy)]
enum Step<'a> {
    /// The first name.
    Name(Option<&'a str>),
    /// The partitions in use.
    Used(&'a [PartitionId]),
    /// A disk of a partition and a broker has so many bytes in its manifest, and then one more.
    Disk(u16, u16, usize),
    /// A disk that comes back empty.
    Empty(u16, u16),
    /// A store takes an object.
    Store(u16),
    /// A metadata log has so many metadata events.
    Log(u16, usize),
    /// The file of a partition's registry has these bytes, and then others.
    Registry(u16, Option<&'a [u8]>, &'a [u8]),
    /// It has not, or can't be read or replaced.
    Broken(u16, Option<&'a [u8]>, &'a [u8]),
    /// Disks that are provided from now on let so many calls pass.
    Fuse(u64),
    /// The disks that came back lose what isn't synced.
    Crash,
    /// The next call of each kind fails.
    Fails,
}

/// Whether a disk has so many bytes, takes one more, and is held then.
fn disk(yard: &mut MemoryYard, partition: PartitionId, broker: BrokerId, many: usize) -> bool {
    let went = disk_grows(yard, partition, broker, many);
    went & yard.held_disk(partition, broker).is_some()
}

/// Whether a store takes an object, and is held then.
fn store(yard: &mut MemoryYard, partition: PartitionId) -> bool {
    let key = ObjectKey {
        partition,
        id: segment_id(partition, BrokerId(0), 0, 0),
        part: Part::Log,
    };
    let went = store_fills(yard, partition, &key, b"x");
    went & yard.held_store(partition).is_some()
}

/// Whether a metadata log has so many metadata events, and is held then.
fn log(yard: &mut MemoryYard, partition: PartitionId, many: usize) -> bool {
    let went = log_reads(yard, partition, many);
    went & yard.held_log(partition).is_some()
}

/// Whether a call of each kind fails.
fn fails(yard: &mut MemoryYard) -> bool {
    let named = name_fails(yard);
    let used = partitions_fail(yard);
    let disk = disk_fails(yard);
    let store = store_fails(yard);
    let log = log_fails(yard);
    let registry = registry_fails(yard);
    named & used & disk & store & log & registry
}

/// Whether a registry's file has these bytes, takes others, and its disk is held then.
fn registry(
    yard: &mut MemoryYard,
    partition: PartitionId,
    wanted: Option<&[u8]>,
    bytes: &[u8],
) -> bool {
    let went = registry_goes(yard, partition, wanted, bytes);
    went & yard.held_registry(partition).is_some()
}

/// Sets a fuse.
fn fuse(yard: &mut MemoryYard, calls: u64) -> bool {
    yard.fuse(calls);
    true
}

/// Crashes the disks.
fn crash(yard: &mut MemoryYard) -> bool {
    yard.crash();
    true
}

/// Makes a call, and returns whether it came to what it should.
fn call(yard: &mut MemoryYard, step: Step) -> bool {
    match step {
        Step::Name(wanted) => is_named(yard, wanted),
        Step::Used(wanted) => are_used(yard, wanted),
        Step::Disk(partition, broker, many) => {
            disk(yard, PartitionId(partition), BrokerId(broker), many)
        }
        Step::Empty(partition, broker) => {
            disk_goes(yard, PartitionId(partition), BrokerId(broker))
        }
        Step::Store(partition) => store(yard, PartitionId(partition)),
        Step::Log(partition, many) => log(yard, PartitionId(partition), many),
        Step::Registry(partition, wanted, bytes) => {
            registry(yard, PartitionId(partition), wanted, bytes)
        }
        Step::Broken(partition, wanted, bytes) => {
            !registry(yard, PartitionId(partition), wanted, bytes)
        }
        Step::Fuse(calls) => fuse(yard, calls),
        Step::Crash => crash(yard),
        Step::Fails => fails(yard),
    }
}

/// Makes calls, and answers how many come to what they should at first.
fn run(yard: &mut MemoryYard, steps: &[Step]) -> usize {
    for (i, step) in steps.iter().enumerate() {
        if !call(yard, *step) {
            return i;
        }
    }
    steps.len()
}

/// The strays of an environment.
fn strays(alloc: Global, names: &[&str]) -> Result<Vec<Blob>, AllocError> {
    let mut strays = Vec::new(alloc);
    for name in names {
        strays.push(Blob::from_slice(alloc, name.as_bytes())?)?;
    }
    Ok(strays)
}

/// What the calls of a story come to: how many went as they should, how many faults the environment has, and how many
/// devices came back.
fn came(alloc: Global, strays: Vec<Blob>, plan: Vec<u32>, steps: &[Step]) -> (usize, u64, usize) {
    let mut yard = MemoryYard::new(alloc, strays, plan);
    let went = run(&mut yard, steps);
    (went, yard.faults(), yard.returned().len())
}

/// What they come to over an environment with these strays and these planned faults.
fn came_of(
    alloc: Global,
    names: &[&str],
    plan: &[u32],
    steps: &[Step],
) -> Result<(usize, u64, usize), AllocError> {
    let plan = Vec::from_slice(alloc, plan)?;
    match strays(alloc, names) {
        Ok(strays) => Ok(came(alloc, strays, plan, steps)),
        Err(refusal) => Err(refusal),
    }
}

static BACK: [Step<'static>; 13] = [
    Step::Name(None),
    Step::Empty(2, 0),
    Step::Name(None),
    Step::Disk(10, 3, 0),
    Step::Disk(10, 4, 0),
    Step::Disk(10, 3, 1),
    // Brokers' files alone are no name.
    Step::Name(None),
    Step::Store(7),
    Step::Log(1, 0),
    Step::Name(Some("p7")),
    Step::Log(1, 0),
    // Nor is what has a registry.
    Step::Registry(7, None, b"kept"),
    Step::Name(None),
];

static STRAYS: [Step<'static>; 8] = [
    Step::Name(Some("p05")),
    Step::Store(4),
    Step::Disk(0, 0, 0),
    Step::Name(Some("p05")),
    Step::Store(0),
    Step::Name(Some("p0")),
    Step::Registry(0, None, b"kept"),
    Step::Name(Some("p05")),
];

static USED: [Step<'static>; 6] = [
    Step::Used(&[]),
    Step::Store(2),
    Step::Empty(1, 0),
    Step::Log(1, 0),
    Step::Disk(0, 3, 0),
    Step::Used(&[PartitionId(0), PartitionId(2)]),
];

static PLANNED: [Step<'static>; 3] = [Step::Empty(0, 0), Step::Fails, Step::Log(0, 0)];

#[test]
fn devices_are_returned_and_handed_out_again(rt: HostRuntime) {
    assert_eq!(rt; came_of(rt.alloc(), &[], &[], &BACK), Ok((13, 0, 8)));
}

#[test]
fn strays_are_names_too(rt: HostRuntime) {
    let came = came_of(rt.alloc(), &["x", "p05", "p1"], &[], &STRAYS);
    assert_eq!(rt; came, Ok((8, 0, 4)));
}

#[test]
fn used_partitions_are_named_in_rising_order(rt: HostRuntime) {
    let came = came_of(rt.alloc(), &["p1"], &[], &USED);
    assert_eq!(rt; came, Ok((6, 0, 4)));
}

#[test]
fn planned_calls_fail_and_no_others(rt: HostRuntime) {
    let came = came_of(rt.alloc(), &[], &[7, 6, 5, 4, 3, 2], &PLANNED);
    assert_eq!(rt; came, Ok((3, 6, 2)));
}

/// A disk of a registry goes out, is fused, crashes, and goes out again. The names stay none.
static FUSED: [Step<'static>; 12] = [
    Step::Registry(1, None, b"old"),
    Step::Registry(0, None, b"other"),
    Step::Registry(1, Some(b"old"), b"older"),
    Step::Name(None),
    Step::Used(&[]),
    Step::Disk(1, 0, 0),
    Step::Disk(1, 0, 1),
    // It can be read and not replaced.
    Step::Fuse(1),
    Step::Broken(1, Some(b"older"), b"new"),
    Step::Crash,
    // What isn't synced is gone, and the fuse too.
    Step::Disk(1, 0, 0),
    Step::Registry(1, Some(b"older"), b"new"),
];

/// What their disks last returned.
static HANDED: [(u16, &[u8]); 5] = [
    (1, b""),
    (0, b""),
    (1, b"old"),
    (1, b"older"),
    (1, b"older"),
];

/// Whether the disks of registries returned these bytes last.
fn are_handed(found: &[ReadRegistry], wanted: &[(u16, &[u8])]) -> bool {
    if found.len() != wanted.len() {
        return false;
    }
    for (read, wanted) in found.iter().zip(wanted) {
        if read.partition.0 != wanted.0 || read.last_read.as_slice() != wanted.1 {
            return false;
        }
    }
    true
}

/// How many calls of a story went as they should, and whether these bytes were returned.
fn hands(alloc: Global, steps: &[Step], wanted: &[(u16, &[u8])]) -> (usize, bool) {
    let mut yard = MemoryYard::new(alloc, Vec::new(alloc), Vec::new(alloc));
    let went = run(&mut yard, steps);
    (went, are_handed(yard.registries(), wanted))
}

#[test]
fn a_fused_disk_fails_until_a_crash(rt: HostRuntime) {
    assert_eq!(rt; hands(rt.alloc(), &FUSED, &HANDED), (12, true));
}
