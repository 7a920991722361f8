//! Disks under test: lists of calls, each with what it is to give. Values worked by hand.
//!
//! A test is a table of such lists and never holds a disk.

use crate::disk_calls::{Step, call, run};
use crate::ends::End;
use bytes::Bytes;
use disk_model::{DeafDisk, DiskCall, FileName, MemoryDisk, Planned};
use std::alloc::{AllocError, Global};

const LOG: FileName = FileName::Log(7);

/// The work of a disk: each call, with each kind of file.
static WORK: [Step<'static>; 24] = [
    Step::Append(FileName::Notes, b"given"),
    Step::Append(LOG, b"abc"),
    Step::Append(LOG, b"def"),
    Step::Sync(LOG),
    Step::Cut(LOG, 4),
    Step::Replace(FileName::Manifest, b"m1"),
    Step::Replace(FileName::Manifest, b"m2"),
    Step::Append(FileName::Log(10), b"x"),
    Step::Append(FileName::Gate, b"g"),
    Step::Arm,
    Step::Read(LOG, 0, b"abcd"),
    Step::Read(LOG, 3, b"d"),
    Step::Read(LOG, 9, b""),
    Step::Part(LOG, 1, 2, b"bc"),
    Step::Part(LOG, 3, 9, b"d"),
    Step::Read(FileName::Manifest, 0, b"m2"),
    Step::Read(FileName::Notes, 1, b"iven"),
    Step::Miss(FileName::Log(2)),
    Step::Remove(FileName::Gate),
    Step::Remove(FileName::Gate),
    Step::Miss(FileName::Gate),
    Step::Remove(FileName::Log(10)),
    Step::Cut(LOG, 9),
    Step::Read(LOG, 0, b"abcd"),
];

/// A disk that isn't observable, with a file that it is given.
fn work_deaf(alloc: Global) -> Result<(usize, End), AllocError> {
    let mut files = Vec::new(alloc);
    files.push((FileName::Notes, Bytes::new()))?;
    let mut disk = DeafDisk::new(alloc, files);
    Ok(run(&mut disk, WORK.as_slice()))
}

#[test]
fn a_deaf_disk_does_its_work(rt: HostRuntime) {
    assert_eq!(rt; work_deaf(rt.alloc()), Ok((24, End::Well)));
}

/// What a disk in memory goes through.
#[derive(Clone, Copy)]
enum Turn<'a> {
    /// The work of a disk, which ends well.
    Work,
    /// Calls that end well.
    Do(&'a [Step<'a>]),
    /// A call that fails.
    Fail(Step<'a>),
    Fuse(u64),
    Crash,
    Renew,
    /// It reports how many calls failed and how many are planned, and whether it is armed and fused, or was.
    Tell(u64, usize, bool, bool),
}

/// What a disk in memory reports.
fn told(disk: &MemoryDisk) -> (u64, usize, bool, bool) {
    (
        disk.faults(),
        disk.plan().len(),
        disk.is_armed(),
        disk.fused(),
    )
}

fn fuse(disk: &mut MemoryDisk, calls: u64) -> bool {
    disk.fuse(calls);
    true
}

fn crash(disk: &mut MemoryDisk) -> bool {
    disk.crash();
    true
}

fn renew(alloc: Global, disk: &mut MemoryDisk) -> bool {
    disk.renew(Vec::new(alloc));
    true
}

/// Whether a turn goes as it should.
fn goes(alloc: Global, disk: &mut MemoryDisk, turn: Turn) -> bool {
    match turn {
        Turn::Work => run(disk, WORK.as_slice()) == (24, End::Well),
        Turn::Do(steps) => run(disk, steps) == (steps.len(), End::Well),
        Turn::Fail(step) => call(disk, step) == End::Fault,
        Turn::Fuse(calls) => fuse(disk, calls),
        Turn::Crash => crash(disk),
        Turn::Renew => renew(alloc, disk),
        Turn::Tell(faults, planned, armed, fused) => {
            told(disk) == (faults, planned, armed, fused)
        }
    }
}

/// How many turns go as they should at first.
fn live(alloc: Global, disk: &mut MemoryDisk, turns: &[Turn]) -> usize {
    for (i, turn) in turns.iter().enumerate() {
        if !goes(alloc, disk, *turn) {
            return i;
        }
    }
    turns.len()
}

/// How many turns of a disk with these planned faults go as they should at first.
fn lived(alloc: Global, plan: &[Planned], turns: &[Turn]) -> Result<usize, AllocError> {
    match plan.to_vec(alloc) {
        Ok(plan) => {
            let mut disk = MemoryDisk::new(alloc, plan);
            Ok(live(alloc, &mut disk, turns))
        }
        Err(refusal) => Err(refusal),
    }
}

/// What disks in memory go through, with the calls that are planned to fail.
static STORIES: [(&str, &[Planned], &[Turn<'static>]); 14] = [
    (
        "work",
        &[],
        &[
            Turn::Work,
            Turn::Do(&[Step::List(&[LOG, FileName::Manifest, FileName::Notes])]),
            Turn::Tell(0, 0, true, false),
        ],
    ),
    (
        "a crash drops what isn't synced",
        &[],
        &[
            Turn::Do(&[
                Step::Append(LOG, b"abc"),
                Step::Sync(LOG),
                Step::Append(LOG, b"def"),
                Step::Append(FileName::Notes, b"n"),
                Step::Replace(FileName::Gate, b"g"),
            ]),
            Turn::Crash,
            Turn::Do(&[
                Step::Read(LOG, 0, b"abc"),
                Step::Read(FileName::Notes, 0, b""),
                Step::Read(FileName::Gate, 0, b"g"),
                Step::Append(LOG, b"gh"),
                Step::Cut(LOG, 2),
                Step::Append(LOG, b"i"),
                Step::Read(LOG, 0, b"abi"),
            ]),
            Turn::Crash,
            Turn::Do(&[Step::Read(LOG, 0, b"ab")]),
        ],
    ),
    (
        "a fuse fails every call until a crash",
        &[],
        &[
            Turn::Fuse(2),
            Turn::Do(&[Step::Append(LOG, b"a"), Step::Sync(LOG)]),
            Turn::Fail(Step::Append(LOG, b"b")),
            Turn::Fail(Step::Sync(LOG)),
            Turn::Fail(Step::List(&[])),
            Turn::Tell(3, 0, false, true),
            Turn::Crash,
            Turn::Do(&[Step::Read(LOG, 0, b"a")]),
            Turn::Tell(3, 0, false, true),
        ],
    ),
    (
        "append fails",
        &[Planned {
            call: DiskCall::Append,
            number: 1,
            after: false,
        }],
        &[
            Turn::Do(&[Step::Arm]),
            Turn::Fail(Step::Append(LOG, b"a")),
            Turn::Do(&[Step::Miss(LOG)]),
            Turn::Tell(1, 1, true, false),
            Turn::Renew,
            Turn::Tell(0, 0, false, false),
        ],
    ),
    (
        "append fails, done",
        &[Planned {
            call: DiskCall::Append,
            number: 1,
            after: true,
        }],
        &[
            Turn::Do(&[Step::Arm]),
            Turn::Fail(Step::Append(LOG, b"a")),
            Turn::Do(&[Step::Read(LOG, 0, b"a")]),
            Turn::Tell(1, 1, true, false),
            Turn::Renew,
            Turn::Tell(0, 0, false, false),
        ],
    ),
    (
        "sync fails",
        &[Planned {
            call: DiskCall::Sync,
            number: 1,
            after: false,
        }],
        &[
            Turn::Do(&[Step::Arm, Step::Append(LOG, b"a")]),
            Turn::Fail(Step::Sync(LOG)),
            Turn::Do(&[Step::Read(LOG, 0, b"a")]),
        ],
    ),
    (
        "read fails",
        &[Planned {
            call: DiskCall::Read,
            number: 1,
            after: false,
        }],
        &[
            Turn::Do(&[Step::Arm, Step::Append(LOG, b"a")]),
            Turn::Fail(Step::Read(LOG, 0, b"a")),
            Turn::Do(&[Step::Read(LOG, 0, b"a")]),
        ],
    ),
    (
        "cut fails",
        &[Planned {
            call: DiskCall::Cut,
            number: 1,
            after: false,
        }],
        &[
            Turn::Do(&[Step::Arm, Step::Append(LOG, b"a")]),
            Turn::Fail(Step::Cut(LOG, 0)),
            Turn::Do(&[Step::Read(LOG, 0, b"a")]),
        ],
    ),
    (
        "cut fails, done",
        &[Planned {
            call: DiskCall::Cut,
            number: 1,
            after: true,
        }],
        &[
            Turn::Do(&[Step::Arm, Step::Append(LOG, b"a")]),
            Turn::Fail(Step::Cut(LOG, 0)),
            Turn::Do(&[Step::Read(LOG, 0, b"")]),
        ],
    ),
    (
        "replace fails",
        &[Planned {
            call: DiskCall::Replace,
            number: 1,
            after: false,
        }],
        &[
            Turn::Do(&[Step::Arm, Step::Append(LOG, b"a")]),
            Turn::Fail(Step::Replace(LOG, b"r")),
            Turn::Do(&[Step::Read(LOG, 0, b"a")]),
        ],
    ),
    (
        "replace fails, done",
        &[Planned {
            call: DiskCall::Replace,
            number: 1,
            after: true,
        }],
        &[
            Turn::Do(&[Step::Arm, Step::Append(LOG, b"a")]),
            Turn::Fail(Step::Replace(LOG, b"r")),
            Turn::Do(&[Step::Read(LOG, 0, b"r")]),
        ],
    ),
    (
        "remove fails",
        &[Planned {
            call: DiskCall::Remove,
            number: 1,
            after: false,
        }],
        &[
            Turn::Do(&[Step::Arm, Step::Append(LOG, b"a")]),
            Turn::Fail(Step::Remove(LOG)),
            Turn::Do(&[Step::Read(LOG, 0, b"a")]),
        ],
    ),
    (
        "remove fails, done",
        &[Planned {
            call: DiskCall::Remove,
            number: 1,
            after: true,
        }],
        &[
            Turn::Do(&[Step::Arm, Step::Append(LOG, b"a")]),
            Turn::Fail(Step::Remove(LOG)),
            Turn::Do(&[Step::Miss(LOG)]),
        ],
    ),
    (
        "list fails",
        &[Planned {
            call: DiskCall::List,
            number: 1,
            after: false,
        }],
        &[
            Turn::Do(&[Step::Arm, Step::Append(LOG, b"a")]),
            Turn::Fail(Step::List(&[LOG])),
            Turn::Do(&[Step::List(&[LOG])]),
        ],
    ),
];

#[test]
fn disks_in_memory_go_through_their_stories(rt: HostRuntime) {
    for (story, plan, turns) in &STORIES {
        let lived = lived(rt.alloc(), plan, turns);
        assert_eq!(rt; lived, Ok(turns.len()), "{story}");
    }
}
