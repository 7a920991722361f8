//! Runs over an environment in memory that earlier runs, or a power cut, left: each begins where the one before ended.
//!
//! The answers and the registry's bytes are worked by hand from the documents; the batches come from a writer of record
//! batches that was made apart from this repository.

use crate::tests::{sink_of, source_of, words_of};
use device_yard::Yard;
use disk_model::{Disk, MemoryDisk};
use memory_yard::MemoryYard;
use std::alloc::Global;
use tier_base::{FileName, PartitionId};
use tiered_call::{Status, tiered_in_order};

/// Three batches that are appended, flushed and acknowledged.
static COMMITTED: &str = "\
    segment_bytes 200\n\
    0 0 0 append 1000,-,:a\n\
    0 0 0 append 1000,-,:b\n\
    0 0 0 append 1000,-,:c\n\
    0 0 0 flush\n\
    0 0 0 ack\n";

static COMMITTED_TRACE: &str = "\
    0 0 0 = Ok 0 0 0\n\
    0 0 1 = Ok 1 1 0\n\
    0 0 2 = Ok 2 2 0\n\
    0 0 3 = Ok 3\n\
    0 0 4 = Ok 3\n";

/// The broker starts, leads the next epoch, serves what was committed, and copies it.
static AGAIN: &str = "\
    segment_bytes 200\n\
    0 0 0 elect\n\
    0 0 0 up\n\
    0 0 0 learn\n\
    0 0 0 elect\n\
    0 0 0 learn\n\
    0 0 0 fetch 0 1000\n\
    0 0 0 copy\n";

static AGAIN_TRACE: &str = "\
    0 0 0 = DownBroker\n\
    0 0 1 = Up 3\n\
    0 0 2 = NeedsElection 0\n\
    0 0 3 = Ok 1\n\
    0 0 4 = Leads 1\n\
    0 0 5 = Run local 0 138 Piece \
    0000000000000000000000390000000002ebf1884b00000000000000000000000003e800000000000003e8fffffffffffffffffffffffffff\
    f000000010e000000010261000000000000000001000000390000000002df1620d200000000000000000000000003e800000000000003e8ff\
    ffffffffffffffffffffffffff000000010e00000001026200\n\
    0 0 6 begin\n\
    0 0 6 = Copied 00000000-0000-0002-0000-000000000000 0 1\n";

/// The registry's file after the first of them, a row for each byte: the byte, where its field begins, and where the
/// first field is that no longer keeps its rule once the byte's bits are turned over, if there is one.
static FILE: [(u8, u32, Option<u32>); 37] = [
    (0x54, 0, Some(0)), // the magic bytes
    (0x4c, 0, Some(0)),
    (0x52, 0, Some(0)),
    (0x31, 0, Some(0)),
    (0, 4, Some(4)), // brokers
    (1, 4, Some(4)),
    (0, 6, Some(6)), // leader epoch
    (0, 6, None),
    (0, 6, None),
    (0, 6, None),
    (0, 10, Some(10)), // leader
    (0, 10, Some(10)),
    (0, 12, Some(12)), // high watermark
    (0, 12, None),
    (0, 12, None),
    (0, 12, None),
    (0, 12, None),
    (0, 12, None),
    (0, 12, None),
    (3, 12, None),
    (0, 20, Some(20)), // log start offset
    (0, 20, Some(20)),
    (0, 20, Some(20)),
    (0, 20, Some(20)),
    (0, 20, Some(20)),
    (0, 20, Some(20)),
    (0, 20, Some(20)),
    (0, 20, Some(20)),
    (1, 28, Some(28)), // in sync
    (0, 29, Some(29)), // acknowledged end of broker 0
    (0, 29, None),
    (0, 29, None),
    (0, 29, None),
    (0, 29, None),
    (0, 29, None),
    (0, 29, None),
    (3, 29, None),
];

/// The file's bytes, of which the one at this place is turned over.
fn turned_at(alloc: Global, place: usize) -> Option<Vec<u8>> {
    let mut file = Vec::new(alloc);
    for (i, (byte, _, _)) in FILE.iter().enumerate() {
        let byte = if i == place { *byte ^ 0xff } else { *byte };
        file.push(byte).ok()?;
    }
    Some(file)
}

/// Whether these are the file's bytes.
fn is_file(bytes: &[u8]) -> bool {
    for (i, (byte, _, _)) in FILE.iter().enumerate() {
        if bytes.get(i) != Some(byte) {
            return false;
        }
    }
    bytes.len() == FILE.len()
}

/// What a run came to: its status, and what it wrote.
type Ran = (Status, Vec<u8>);

/// Runs a script over an environment.
fn run(rt: HostRuntime, yard: &mut MemoryYard, script: &str) -> Option<Ran> {
    let words = words_of(rt.alloc(), &["run", "yard"])?;
    let mut source = source_of(rt.alloc(), script.as_bytes(), &[])?;
    let mut out = sink_of(rt.alloc(), (10_000, 100, &[]))?;
    let status = tiered_in_order(&rt, words.as_slice(), &mut source, yard, &mut out);
    let written = out.written().to_vec(rt.alloc()).ok()?;
    Some((status, written))
}

fn new_yard(alloc: Global) -> MemoryYard {
    MemoryYard::new(alloc, Vec::new(alloc), Vec::new(alloc))
}

/// Whether a run ended with this status and wrote this.
fn is_ran(ran: &Option<Ran>, number: u8, written: &str) -> bool {
    match ran {
        Some((status, text)) => status.number() == number && text.as_slice() == written.as_bytes(),
        None => false,
    }
}

/// Whether it ended with this status and this line on standard error, and wrote nothing.
fn is_refused(alloc: Global, ran: &Option<Ran>, number: u8, told: &str) -> bool {
    let Some((status, text)) = ran else {
        return false;
    };
    match status.line(alloc) {
        Ok(line) => status.number() == number && line.as_str() == told && text.is_empty(),
        Err(_) => false,
    }
}

/// An environment in which the first run has ended.
fn first_run(rt: HostRuntime) -> Option<MemoryYard> {
    let mut yard = new_yard(rt.alloc());
    let ran = run(rt, &mut yard, COMMITTED);
    if is_ran(&ran, 0, COMMITTED_TRACE) {
        Some(yard)
    } else {
        None
    }
}

/// Removes a disk's registry.
fn remove(disk: &mut MemoryDisk) -> bool {
    match disk.reserve(1) {
        Ok(()) => disk.remove(FileName::Registry).is_ok(),
        Err(_) => false,
    }
}

/// Puts a file in the place of the registry's, or removes it.
fn put_registry(yard: &mut MemoryYard, partition: PartitionId, file: Option<&[u8]>) -> bool {
    let Ok(mut disk) = yard.registry(partition) else {
        return false;
    };
    let done = match file {
        Some(bytes) => disk.replace(FileName::Registry, bytes).is_ok(),
        None => remove(&mut disk),
    };
    yard.keep_registry(partition, disk);
    done
}

/// What the registry's disk was read as when it came back last.
fn last_read(yard: &MemoryYard) -> &[u8] {
    match yard.registries().last() {
        Some(read) => read.last_read.as_slice(),
        None => &[],
    }
}

#[test]
fn a_run_begins_where_the_last_one_ended(rt: HostRuntime) {
    let mut yard = first_run(rt).expect(&rt, "a first run");
    let ran = run(rt, &mut yard, AGAIN);
    assert!(rt; is_ran(&ran, 0, AGAIN_TRACE), "the second run");
    assert!(rt; is_file(last_read(&yard)), "the registry that it read");
    let ran = run(
        rt,
        &mut yard,
        "0 0 0 up\n0 0 0 elect\n0 0 0 learn\n0 0 0 trim\n",
    );
    let third = "\
        0 0 0 = Up 3\n\
        0 0 1 = Ok 2\n\
        0 0 2 = Leads 2\n\
        0 0 3 begin\n\
        0 0 3 = Kept\n";
    assert!(rt; is_ran(&ran, 0, third), "the third run");
}

#[test]
fn another_count_of_brokers_is_refused(rt: HostRuntime) {
    let mut yard = first_run(rt).expect(&rt, "a first run");
    let told = "tiered: partition 0 has 1 brokers, not 2\n";
    for script in ["brokers 2\n", "brokers 2\npartitions 2\n0 0 1 up\n"] {
        let ran = run(rt, &mut yard, script);
        assert!(rt; is_refused(rt.alloc(), &ran, 11, told), "{script}");
    }
    let ran = run(rt, &mut yard, AGAIN);
    assert!(rt; is_ran(&ran, 0, AGAIN_TRACE), "nothing has changed");
}

/// The second partition is the one whose registry was kept by another script: nothing of the first is run.
#[test]
fn registries_are_read_before_anything_runs(rt: HostRuntime) {
    let mut yard = new_yard(rt.alloc());
    let two = "partitions 2\n1 1 0 append 1000,-,:a\n";
    assert!(rt;
        is_ran(&run(rt, &mut yard, two), 0, "1 1 0 = Ok 0 0 0\n"),
        "a first run"
    );
    let spoilt = Some(b"TLR0".as_slice());
    assert!(rt; put_registry(&mut yard, PartitionId(1), spoilt), "spoilt");
    let ran = run(
        rt,
        &mut yard,
        "partitions 2\n0 0 0 up\n0 0 0 append 1000,-,:a\n",
    );
    assert!(rt;
        is_refused(
            rt.alloc(),
            &ran,
            12,
            "tiered: partition 1 registry damaged at 0\n"
        ),
        "told"
    );
    let ran = run(rt, &mut yard, "0 0 0 up\n");
    assert!(rt;
        is_ran(&ran, 0, "0 0 0 = Up 0\n"),
        "partition 0 is as it was"
    );
}

/// Whether a run over an environment whose registry has this file is refused at this place, or isn't refused for it,
/// and leaves the file.
fn is_told_at(rt: HostRuntime, file: &[u8], at: Option<u32>) -> bool {
    let Some(mut yard) = first_run(rt) else {
        return false;
    };
    if !put_registry(&mut yard, PartitionId(0), Some(file)) {
        return false;
    }
    let ran = run(rt, &mut yard, "0 0 0 up\n");
    match at {
        Some(at) => match format!(in rt.alloc(); "tiered: partition 0 registry damaged at {at}\n") {
            Ok(told) => {
                is_refused(rt.alloc(), &ran, 12, told.as_str()) && last_read(&yard) == file
            }
            Err(_) => false,
        },
        None => is_ran(&ran, 0, "0 0 0 = Up 3\n"),
    }
}

#[test]
fn each_spoilt_byte_of_a_registry_is_reported(rt: HostRuntime) {
    for (i, (_, _, at)) in FILE.iter().enumerate() {
        let file = turned_at(rt.alloc(), i).expect(&rt, "a file");
        assert!(rt; is_told_at(rt, file.as_slice(), *at), "byte {i}");
    }
}

#[test]
fn a_registry_cut_at_each_length_is_reported(rt: HostRuntime) {
    let mut front = Vec::new(rt.alloc());
    for (byte, field, _) in FILE.iter() {
        assert!(rt;
            is_told_at(rt, front.as_slice(), Some(*field)),
            "cut in the field at {field}"
        );
        assert!(rt; front.push(*byte).is_ok(), "a byte more");
    }
    assert!(rt; front.push(0).is_ok(), "a byte behind the last field");
    assert!(rt; is_told_at(rt, front.as_slice(), Some(37)), "a byte more");
}

/// What an earlier version left: objects and metadata events, and no registry. Nobody can say what the brokers' logs
/// had.
#[test]
fn a_tier_without_a_registry_is_refused(rt: HostRuntime) {
    let mut yard = first_run(rt).expect(&rt, "a first run");
    assert!(rt;
        is_ran(&run(rt, &mut yard, AGAIN), 0, AGAIN_TRACE),
        "a copy"
    );
    assert!(rt;
        put_registry(&mut yard, PartitionId(0), None),
        "the registry is lost"
    );
    for _ in 0..2u8 {
        let ran = run(rt, &mut yard, AGAIN);
        assert!(rt;
            is_refused(rt.alloc(), &ran, 9, "tiered: folder not empty: p0\n"),
            "told"
        );
    }
}

/// Brokers' files alone are of a run that was cut off before its first registry was written: it answered nothing.
#[test]
fn files_without_a_registry_are_begun_anew(rt: HostRuntime) {
    let mut yard = first_run(rt).expect(&rt, "a first run");
    assert!(rt;
        put_registry(&mut yard, PartitionId(0), None),
        "the registry is lost"
    );
    assert!(rt;
        is_ran(&run(rt, &mut yard, COMMITTED), 0, COMMITTED_TRACE),
        "the beginning"
    );
}

/// A registry whose store was lost: the run continues, and reports that what was copied is damaged.
#[test]
fn a_lost_store_is_reported_by_answers(rt: HostRuntime) {
    let mut yard = first_run(rt).expect(&rt, "a first run");
    assert!(rt;
        is_ran(&run(rt, &mut yard, AGAIN), 0, AGAIN_TRACE),
        "a copy"
    );
    let trimmed = "\
        local_retention_bytes 0\n\
        0 0 0 up\n\
        0 0 0 elect\n\
        0 0 0 learn\n\
        0 0 0 trim\n";
    let answers = "\
        0 0 0 = Up 3\n\
        0 0 1 = Ok 2\n\
        0 0 2 = Leads 2\n\
        0 0 3 begin\n\
        0 0 3 = Dropped 0 1\n";
    assert!(rt;
        is_ran(&run(rt, &mut yard, trimmed), 0, answers),
        "the local copy is dropped"
    );
    assert!(rt; yard.store(PartitionId(0)).is_ok(), "the store is lost");
    let fetched = run(
        rt,
        &mut yard,
        "0 0 0 up\n0 0 0 elect\n0 0 0 learn\n0 0 0 fetch 0 1000\n",
    );
    let lost = "\
        0 0 0 = Up 3\n\
        0 0 1 = Ok 3\n\
        0 0 2 = Leads 3\n\
        0 0 3 begin\n\
        0 0 3 = Damaged 0/00000000-0000-0002-0000-000000000000.index 0\n";
    assert!(rt; is_ran(&fetched, 0, lost), "told");
}

/// Copies what is committed, and serves it from the remote tier.
static TIERED: &str = "\
    segment_bytes 200\n\
    local_retention_bytes 0\n\
    0 0 0 append 1000,-,:a\n\
    0 0 0 append 1000,-,:b\n\
    0 0 0 append 1000,-,:c\n\
    0 0 0 flush\n\
    0 0 0 ack\n\
    0 0 0 trim\n\
    0 0 0 copy\n\
    0 0 0 trim\n\
    0 0 0 fetch 0 1000\n\
    0 0 0 fetch 1 1000\n";

static REST: &str = "\
    segment_bytes 200\n\
    0 0 0 up\n\
    0 0 0 learn\n\
    0 0 0 elect\n\
    0 0 0 learn\n\
    0 0 0 fetch 0 1000\n";

/// Whether this is somewhere in a text.
fn has(text: &[u8], part: &[u8]) -> bool {
    for at in 0..text.len() {
        if text[at..].starts_with(part) {
            return true;
        }
    }
    false
}

/// Whether a run after a power cut serves what was committed: by the high watermark that the registry was read with.
fn is_served(read: &[u8], text: &[u8]) -> bool {
    match read.get(19) {
        Some(3) => has(text, b" 138 Piece "),
        Some(_) => has(text, b"0 0 0 = Up "),
        None => text.starts_with(b"0 0 0 = IsUp\n0 0 1 = Known\n"),
    }
}

/// Each disk lets so many calls pass and fails every one after them; then the power goes, and a run follows.
#[test]
fn nothing_committed_is_lost_by_a_power_cut(rt: HostRuntime) {
    for calls in 0..61u64 {
        let mut yard = new_yard(rt.alloc());
        yard.fuse(calls);
        let first = run(rt, &mut yard, TIERED).expect(&rt, "a first run");
        assert!(rt;
            matches!(first.0.number(), 0 | 8),
            "{calls} calls: the first run"
        );
        yard.crash();
        let (status, text) = run(rt, &mut yard, REST).expect(&rt, "a second run");
        assert!(rt; status.number() == 0, "{calls} calls: the second run");
        assert!(rt;
            is_served(last_read(&yard), text.as_slice()),
            "{calls} calls: what is served"
        );
    }
}
