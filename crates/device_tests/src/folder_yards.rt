//! Stores, metadata logs and environments over folders that a test makes. Values worked by hand.
//!
//! Each kind of call is a function of its own, without a contract, that returns whether it went as it should, and is
//! generic over the device. A test never holds one.

use crate::yard_calls::{
    are_used, disk_fails, disk_goes, disk_grows, is_named, log_grows, log_reads, name_fails,
    partitions_fail, registry_goes, store_fails, store_fills,
};
use bytes::Bytes;
use device_yard::Yard;
use folder_yard::{FolderStore, FolderYard};
use object_store::{ObjectKey, Part, Store};
use std::alloc::{AllocError, Global};
use std::{fs, io};
use tier_base::{BrokerId, PartitionId, Trouble, segment_id};

const PARTITION: PartitionId = PartitionId(3);

/// The key of a part of it.
fn key(part: Part) -> ObjectKey {
    ObjectKey {
        partition: PARTITION,
        id: segment_id(PARTITION, BrokerId(2), 1, 0),
        part,
    }
}

fn put<S: Store>(store: &mut S, part: Part, bytes: &'static [u8]) -> bool {
    store.put(&key(part), &Bytes::from_static(bytes)).is_ok()
}

/// Whether an object has these bytes from a place on, so many of them.
fn gives<S: Store>(store: &mut S, part: Part, at: u64, most: u64, wanted: &[u8]) -> bool {
    match store.get_part(&key(part), at, most) {
        Ok(Some(bytes)) => bytes.as_slice() == wanted,
        _ => false,
    }
}

/// Whether an object is absent.
fn misses<S: Store>(store: &mut S, part: Part) -> bool {
    match store.get(&key(part), 0) {
        Ok(None) => true,
        _ => false,
    }
}

/// Whether the only object is that of this part.
fn has_key<S: Store>(store: &mut S, part: Part) -> bool {
    match store.keys() {
        Ok(keys) => keys.as_slice() == [key(part)].as_slice(),
        Err(_) => false,
    }
}

/// What the calls of a store come to.
fn store_calls<S: Store>(store: &mut S) -> [bool; 7] {
    let first = put(store, Part::Log, b"old");
    let again = put(store, Part::Log, b"batches");
    let index = put(store, Part::Index, b"entries");
    let part = gives(store, Part::Log, 2, 3, b"tch");
    let deleted = store.delete(&key(Part::Index)).is_ok();
    let missed = misses(store, Part::Index);
    let left = has_key(store, Part::Log);
    [first, again, index, part, deleted, missed, left]
}

/// What they come to of a store over a folder, and its faults.
fn store_in(rt: HostRuntime, path: &str) -> Result<([bool; 7], u64), Trouble> {
    match FolderStore::open(rt, path, PARTITION) {
        Ok(mut store) => {
            let came = store_calls(&mut store);
            Ok((came, store.faults()))
        }
        Err(trouble) => Err(trouble),
    }
}

/// Makes a folder with a stranger's file, and an object that was never put in its place.
fn make_store(rt: HostRuntime) -> io::Result<()> {
    fs::create_dir(&rt, "yard_store")?;
    fs::write(&rt, "yard_store/letter.new", b"dear".as_slice())?;
    fs::write(
        &rt,
        "yard_store/00030002-0000-0001-0000-000000000000.index.new",
        b"half".as_slice(),
    )
}

/// How long a file is.
fn size_of(rt: HostRuntime, path: &str) -> Option<u64> {
    match fs::metadata(&rt, path) {
        Ok(found) => Some(found.len()),
        Err(_) => None,
    }
}

/// How many names a folder has.
fn names_in(rt: HostRuntime, path: &str) -> io::Result<usize> {
    let mut many = 0usize;
    for entry in fs::read_dir(&rt, path)? {
        let _ = entry?;
        many = many.saturating_add(1);
    }
    Ok(many)
}

/// How many names the store's folder has, and how long two files there are.
fn left_of_store(rt: HostRuntime) -> (Option<usize>, Option<u64>, Option<u64>) {
    let letter = size_of(rt, "yard_store/letter.new");
    let log = size_of(rt, "yard_store/00030002-0000-0001-0000-000000000000.log");
    match names_in(rt, "yard_store") {
        Ok(many) => (Some(many), letter, log),
        Err(_) => (None, letter, log),
    }
}

#[test]
fn objects_are_files_of_a_folder(rt: HostRuntime) {
    let _ = fs::remove_dir_all(&rt, "yard_store");
    let made = make_store(rt).is_ok();
    let came = store_in(rt, "yard_store");
    let left = left_of_store(rt);
    let _ = fs::remove_dir_all(&rt, "yard_store");
    assert!(rt; made);
    assert_eq!(rt; came, Ok(([true; 7], 0)));
    assert_eq!(rt; left, (Some(2), Some(4), Some(7)));
}

/// A segment's copy has finished, recorded by broker 2 at 7 milliseconds: 29 bytes.
static FINISHED: [u8; 29] = [
    0, 1, // version, kind
    0, 0, 0, 0, 0, 0, 0, 1, 0, 0, 0, 0, 0, 0, 0, 0, // id
    0, 2, // broker
    0, 0, 0, 0, 0, 0, 0, 7, // event_ts
    1, // state
];

/// What the calls of an environment come to.
fn yard_calls<Y: Yard>(alloc: Global, yard: &mut Y) -> [bool; 11] {
    let empty = is_named(yard, None);
    let disk = disk_grows(yard, PARTITION, BrokerId(1), 0);
    let store = store_fills(yard, PARTITION, &key(Part::Epochs), b"0\n0\n");
    let none = log_reads(yard, PARTITION, 0);
    let first = log_grows(alloc, yard, PARTITION, &FINISHED, 0);
    let one = log_reads(yard, PARTITION, 1);
    let second = log_grows(alloc, yard, PARTITION, &FINISHED, 1);
    let named = is_named(yard, Some("p3"));
    let registry = registry_goes(yard, PARTITION, None, b"kept");
    let kept = registry_goes(yard, PARTITION, Some(b"kept"), b"again");
    let passed = is_named(yard, None);
    [
        empty, disk, store, none, first, one, second, named, registry, kept, passed,
    ]
}

/// What an environment is asked.
#[derive(Clone, Copy)]
enum Ask<'a> {
    /// Each call.
    Calls,
    /// Whether this is its first name.
    Name(Option<&'a str>),
    /// Whether these are its partitions in use.
    Used(&'a [PartitionId]),
    /// Whether the first name, the partitions and a store fail.
    Fails,
}

/// Whether a call of each of three kinds fails.
fn fails<Y: Yard>(yard: &mut Y) -> bool {
    let named = name_fails(yard);
    let used = partitions_fail(yard);
    named & used & store_fails(yard)
}

/// Whether an environment is as it is asked.
fn answers<Y: Yard>(alloc: Global, yard: &mut Y, ask: Ask) -> bool {
    match ask {
        Ask::Calls => yard_calls(alloc, yard) == [true; 11],
        Ask::Name(wanted) => is_named(yard, wanted),
        Ask::Used(wanted) => are_used(yard, wanted),
        Ask::Fails => fails(yard),
    }
}

/// Whether an environment over a folder is as it is asked, how many devices came back then, and how many faults there
/// are.
fn yard_in(rt: HostRuntime, dir: &str, ask: Ask) -> Result<(bool, usize, u64), AllocError> {
    match FolderYard::new(rt, dir) {
        Ok(mut yard) => {
            let is = answers(rt.alloc(), &mut yard, ask);
            Ok((is, yard.returned().len(), yard.faults()))
        }
        Err(refusal) => Err(refusal),
    }
}

/// Files of an environment's devices, and how long they are.
static SIZES: [(&str, u64); 5] = [
    ("yard_whole/p3/b1/manifest", 1),
    ("yard_whole/p3/meta/notes", 66),
    ("yard_whole/p3/meta/gate", 8),
    ("yard_whole/p3/reg/registry", 5),
    (
        "yard_whole/p3/store/00030002-0000-0001-0000-000000000000.epochs",
        4,
    ),
];

#[test]
fn devices_are_below_the_yards_folder(rt: HostRuntime) {
    let _ = fs::remove_dir_all(&rt, "yard_whole");
    assert_eq!(rt; yard_in(rt, "yard_whole", Ask::Calls), Ok((true, 8, 0)));
    for (path, size) in &SIZES {
        assert_eq!(rt; size_of(rt, path), Some(*size), "{path}");
    }
    let _ = fs::remove_dir_all(&rt, "yard_whole");
}

/// Folders and files that are in an environment's folder, and the first name there.
static STANDING: [(&[&str], &[&str], Option<&str>); 11] = [
    (&[], &[], None),
    // Of partitions that hold nothing.
    (
        &["/p0", "/p7", "/p7/b0", "/p7/store", "/p7/meta"],
        &[],
        None,
    ),
    (&["/p7", "/p7/b0"], &["/p7/b0/manifest.new"], None),
    // Of one whose first run was cut off.
    (&["/p7", "/p7/b0"], &["/p7/b0/manifest"], None),
    (
        &["/p7", "/p7/b0", "/p7/store", "/p7/meta", "/p7/reg"],
        &["/p7/b0/manifest", "/p7/meta/gate", "/p7/reg/registry.new"],
        None,
    ),
    // Of partitions that have objects or metadata events, with a registry and without.
    (
        &["/p1", "/p10", "/p10/store", "/p2", "/p2/meta"],
        &["/p10/store/letter", "/p2/meta/notes"],
        Some("p10"),
    ),
    (
        &["/p7", "/p7/store", "/p7/meta", "/p7/reg"],
        &["/p7/store/letter", "/p7/meta/notes", "/p7/reg/registry"],
        None,
    ),
    (
        &["/p7", "/p7/meta", "/p7/reg"],
        &["/p7/meta/notes", "/p7/reg/registry.new"],
        Some("p7"),
    ),
    // Of strangers.
    (&["/p0", "/p00"], &[], Some("p00")),
    (&["/p3", "/p3/b65536", "/p65536"], &[], Some("p65536")),
    (&["/p0"], &["/p1"], Some("p1")),
];

/// A path in a folder.
fn path_in(alloc: Global, dir: &str, rest: &str) -> Result<String, AllocError> {
    format!(in alloc; "{dir}{rest}")
}

fn make_folder(rt: HostRuntime, dir: &str, rest: &str) -> bool {
    match path_in(rt.alloc(), dir, rest) {
        Ok(path) => fs::create_dir(&rt, path.as_str()).is_ok(),
        Err(_) => false,
    }
}

fn make_file(rt: HostRuntime, dir: &str, rest: &str) -> bool {
    match path_in(rt.alloc(), dir, rest) {
        Ok(path) => fs::write(&rt, path.as_str(), b"x".as_slice()).is_ok(),
        Err(_) => false,
    }
}

/// Whether these folders and files are made in a folder.
fn make(rt: HostRuntime, dir: &str, folders: &[&str], files: &[&str]) -> bool {
    let mut made = make_folder(rt, dir, "");
    for folder in folders {
        made &= make_folder(rt, dir, folder);
    }
    for file in files {
        made &= make_file(rt, dir, file);
    }
    made
}

#[test]
fn a_partition_with_a_registry_is_no_name(rt: HostRuntime) {
    for (folders, files, wanted) in &STANDING {
        let _ = fs::remove_dir_all(&rt, "yard_names");
        let made = make(rt, "yard_names", folders, files);
        let named = yard_in(rt, "yard_names", Ask::Name(*wanted));
        assert!(rt; made, "{wanted:?}");
        assert_eq!(rt; named, Ok((true, 0, 0)), "{wanted:?}");
    }
    let _ = fs::remove_dir_all(&rt, "yard_names");
}

/// Folders and files of partitions and of strangers. There is something of partitions 0, 2 and 10.
static HELD: [&str; 11] = [
    "/p10",
    "/p10/store",
    "/p2",
    "/p2/b3",
    "/p0",
    "/p0/meta",
    "/p4",
    "/p4/meta",
    "/p1",
    "/p1/store",
    "/p07",
];

static HELD_FILES: [&str; 6] = [
    "/p10/store/letter",
    "/p2/b3/gate",
    "/p0/meta/notes",
    "/p4/meta/gate",
    "/p07/notes",
    "/p3",
];

#[test]
fn partitions_with_files_are_named_in_rising_order(rt: HostRuntime) {
    let _ = fs::remove_dir_all(&rt, "yard_used");
    let absent = yard_in(rt, "yard_used", Ask::Used(&[]));
    let made = make(rt, "yard_used", &HELD, &HELD_FILES);
    let wanted = [PartitionId(0), PartitionId(2), PartitionId(10)];
    let used = yard_in(rt, "yard_used", Ask::Used(&wanted));
    let _ = fs::remove_dir_all(&rt, "yard_used");
    assert!(rt; made);
    assert_eq!(rt; absent, Ok((true, 0, 0)));
    assert_eq!(rt; used, Ok((true, 0, 0)));
}

#[test]
fn a_yard_over_a_file_fails(rt: HostRuntime) {
    let written = fs::write(&rt, "yard_file", b"no folder".as_slice());
    assert!(rt; written.is_ok());
    assert_eq!(rt; yard_in(rt, "yard_file", Ask::Fails), Ok((true, 0, 3)));
    let _ = fs::remove_file(&rt, "yard_file");
}

/// Whether an environment works, another over the same folder fails meanwhile, and works once the first is gone.
fn take_turns(rt: HostRuntime, dir: &str) -> Result<(bool, bool, bool), AllocError> {
    let mut first = FolderYard::new(rt, dir)?;
    let mut second = FolderYard::new(rt, dir)?;
    let works = disk_goes(&mut first, PARTITION, BrokerId(0));
    let named = name_fails(&mut second);
    let waits = named & disk_fails(&mut second);
    drop(first);
    let free = is_named(&mut second, None);
    Ok((works, waits, free))
}

#[test]
fn one_yard_at_a_time_works_in_a_folder(rt: HostRuntime) {
    let _ = fs::remove_dir_all(&rt, "yard_lock");
    assert_eq!(rt; take_turns(rt, "yard_lock"), Ok((true, true, true)));
    let _ = fs::remove_dir_all(&rt, "yard_lock");
}

/// Makes a folder with an object of a packed segment, one that was never put in its place, and a stranger's file.
fn make_packs(rt: HostRuntime) -> io::Result<()> {
    fs::create_dir(&rt, "yard_packs")?;
    fs::write(&rt, "yard_packs/letter.pack", b"dear".as_slice())?;
    fs::write(
        &rt,
        "yard_packs/00030002-0000-0001-0000-000000000000.pack",
        b"whole".as_slice(),
    )?;
    fs::write(
        &rt,
        "yard_packs/00030002-0000-0001-0000-000000000001.pack.new",
        b"half".as_slice(),
    )
}

/// Whether the pack is the store's only object, and has these bytes.
fn pack_in(rt: HostRuntime, path: &str, wanted: &[u8]) -> Result<bool, Trouble> {
    match FolderStore::open(rt, path, PARTITION) {
        Ok(mut store) => {
            let only = has_key(&mut store, Part::Pack);
            Ok(only & gives(&mut store, Part::Pack, 0, 9, wanted))
        }
        Err(trouble) => Err(trouble),
    }
}

#[test]
fn packs_are_objects_too(rt: HostRuntime) {
    let _ = fs::remove_dir_all(&rt, "yard_packs");
    let made = make_packs(rt).is_ok();
    let found = pack_in(rt, "yard_packs", b"whole");
    let left = names_in(rt, "yard_packs");
    let _ = fs::remove_dir_all(&rt, "yard_packs");
    assert!(rt; made);
    assert_eq!(rt; found, Ok(true));
    assert!(rt; matches!(left, Ok(2)));
}
