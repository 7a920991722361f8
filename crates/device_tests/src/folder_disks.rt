//! Disks over folders that a test makes, call by call, and what a folder holds when it is opened
//! again. Values worked by hand; the names are those of Kafka's log segments.
//!
//! A test is a table of calls and never holds a disk.

use crate::disk_calls::{Step, call, run};
use crate::ends::End;
use disk_model::Disk;
use folder_yard::{FolderDisk, read_name};
use std::os::unix::fs::symlink;
use std::{fs, io};
use tier_base::{FileName, Trouble};

const LOG: FileName = FileName::Log(7);

/// What a disk over a folder goes through.
#[derive(Clone, Copy)]
enum Turn {
    /// Calls that end well.
    Do(&'static [Step<'static>]),
    /// Calls that fail, each of them.
    Fail(&'static [Step<'static>]),
    /// A file takes the place of its folder, which is empty.
    Spoil,
    /// Its metadata events become a device that takes what is written, and can't be synced.
    Deafen,
}

/// Counts the calls that fail.
fn count_faults<D: Disk>(disk: &mut D, steps: &[Step]) -> usize {
    let mut faults: usize = 0;
    for step in steps {
        if call(disk, *step) == End::Fault {
            faults = faults.saturating_add(1);
        }
    }
    faults
}

/// Puts a file in the place of an empty folder.
fn spoil(rt: HostRuntime, path: &str) -> io::Result<()> {
    fs::remove_dir(&rt, path)?;
    fs::write(&rt, path, b"no folder".as_slice())
}

/// Whether a turn goes as it should.
fn goes<D: Disk>(rt: HostRuntime, path: &str, disk: &mut D, turn: Turn) -> bool {
    match turn {
        Turn::Do(steps) => run(disk, steps) == (steps.len(), End::Well),
        Turn::Fail(steps) => count_faults(disk, steps) == steps.len(),
        Turn::Spoil => spoil(rt, path).is_ok(),
        Turn::Deafen => symlink(&rt, "/dev/null", "yard_lost/notes").is_ok(),
    }
}

/// How many turns go as they should at first.
fn live<D: Disk>(rt: HostRuntime, path: &str, disk: &mut D, turns: &[Turn]) -> usize {
    for (i, turn) in turns.iter().enumerate() {
        if !goes(rt, path, disk, *turn) {
            return i;
        }
    }
    turns.len()
}

/// How many turns of a disk over a folder go as they should at first, how many faults it reports then, and whether it
/// is armed.
fn live_in(rt: HostRuntime, path: &str, turns: &[Turn]) -> Result<(usize, u64, bool), Trouble> {
    match FolderDisk::open(rt, path) {
        Ok(mut disk) => {
            let lived = live(rt, path, &mut disk, turns);
            Ok((lived, disk.faults(), disk.is_armed()))
        }
        Err(trouble) => Err(trouble),
    }
}

/// Removes a folder, where there is one.
fn clear(rt: HostRuntime, path: &str) {
    let _ = fs::remove_dir_all(&rt, path);
}

/// The work of a disk.
static WORK: [Turn; 1] = [Turn::Do(&[
    Step::Append(LOG, b"abc"),
    Step::Read(LOG, 0, b"abc"),
    Step::Append(LOG, b"def"),
    Step::Read(LOG, 0, b"abcdef"),
    Step::Read(LOG, 5, b"f"),
    Step::Read(LOG, 6, b""),
    Step::Read(LOG, 1 << 63, b""),
    Step::Sync(LOG),
    Step::Sync(FileName::Gate),
    Step::Cut(LOG, 9),
    Step::Read(LOG, 0, b"abcdef"),
    Step::Cut(LOG, 6),
    Step::Read(LOG, 0, b"abcdef"),
    Step::Cut(LOG, 4),
    Step::Read(LOG, 0, b"abcd"),
    Step::Cut(FileName::Gate, 0),
    Step::Append(LOG, b"g"),
    Step::Read(LOG, 0, b"abcdg"),
    Step::Remove(LOG),
    Step::Miss(LOG),
    Step::Remove(LOG),
    Step::Miss(LOG),
    Step::Append(LOG, b"new"),
    Step::Read(LOG, 0, b"new"),
    Step::Replace(LOG, b"longer"),
    Step::Read(LOG, 0, b"longer"),
    Step::Replace(LOG, b"short"),
    Step::Read(LOG, 0, b"short"),
    Step::Append(LOG, b"er"),
    Step::Read(LOG, 0, b"shorter"),
    Step::Append(FileName::Notes, b"n"),
    Step::Read(LOG, 0, b"shorter"),
    Step::Append(LOG, b"!"),
    Step::Read(LOG, 0, b"shorter!"),
    Step::Holds(&[LOG, FileName::Notes]),
])];

#[test]
fn a_folder_reads_what_was_written(rt: HostRuntime) {
    clear(rt, "yard_reads");
    assert_eq!(rt; live_in(rt, "yard_reads", &WORK), Ok((1, 0, false)));
    clear(rt, "yard_reads");
}

/// Puts files into a folder that are none of a log.
fn add_strays(rt: HostRuntime) -> io::Result<()> {
    fs::write(&rt, "yard_again/p0/b1/manifest.new", b"half".as_slice())?;
    fs::write(&rt, "yard_again/p0/b1/stray", b"kept".as_slice())?;
    fs::write(&rt, "yard_again/p0/b1/7.log", b"kept".as_slice())
}

/// Whether a folder holds each of these.
fn holds(rt: HostRuntime, paths: &[&str]) -> bool {
    for path in paths {
        if !matches!(fs::exists(&rt, *path), Ok(true)) {
            return false;
        }
    }
    true
}

static MADE: [Turn; 1] = [Turn::Do(&[
    Step::Append(FileName::Log(u64::MAX), b"last"),
    Step::Replace(FileName::Gate, b"g"),
])];

static FOUND: [Turn; 1] = [Turn::Do(&[
    Step::Holds(&[FileName::Log(u64::MAX), FileName::Gate]),
    Step::Read(FileName::Gate, 0, b"g"),
])];

/// What is in the folder then.
static KEPT: [&str; 2] = [
    "yard_again/p0/b1/stray",
    "yard_again/p0/b1/18446744073709551615.log",
];

#[test]
fn files_are_there_when_a_folder_is_opened_again(rt: HostRuntime) {
    clear(rt, "yard_again");
    let made = live_in(rt, "yard_again/p0/b1/", &MADE);
    let added = add_strays(rt).is_ok();
    let found = live_in(rt, "yard_again/p0/b1", &FOUND);
    let half = holds(rt, &["yard_again/p0/b1/manifest.new"]);
    let kept = holds(rt, KEPT.as_slice());
    clear(rt, "yard_again");
    assert_eq!(rt; (made, found), (Ok((1, 0, false)), Ok((1, 0, false))));
    assert_eq!(rt; (added, half, kept), (true, false, true));
}

/// Each call of an armed disk whose folder is a file by now.
static SPOILED: [Turn; 3] = [
    Turn::Spoil,
    Turn::Do(&[Step::Arm]),
    Turn::Fail(&[
        Step::Append(LOG, b"a"),
        Step::Sync(LOG),
        Step::Cut(LOG, 0),
        Step::Replace(LOG, b"b"),
        Step::Remove(LOG),
        Step::Miss(LOG),
        Step::Holds(&[]),
    ]),
];

#[test]
fn each_failure_of_the_system_is_a_fault(rt: HostRuntime) {
    let _ = fs::remove_file(&rt, "yard_fails");
    assert_eq!(rt; live_in(rt, "yard_fails", &SPOILED), Ok((3, 7, true)));
    let _ = fs::remove_file(&rt, "yard_fails");
}

/// Paths where no folder can be made.
static BLOCKED: [&str; 2] = ["yard_blocked", "yard_blocked/b0"];

#[test]
fn a_folder_that_cannot_be_made_is_a_fault(rt: HostRuntime) {
    let written = fs::write(&rt, "yard_blocked", b"no folder".as_slice());
    assert!(rt; written.is_ok());
    for path in &BLOCKED {
        assert_eq!(rt; live_in(rt, path, &[]), Err(Trouble::Failed), "{path}");
    }
    let _ = fs::remove_file(&rt, "yard_blocked");
}

/// A sync of the metadata events fails, and so does each sync after it.
static DEAFENED: [Turn; 4] = [
    Turn::Deafen,
    Turn::Do(&[
        Step::Append(LOG, b"a"),
        Step::Sync(LOG),
        Step::Append(FileName::Notes, b"n"),
    ]),
    Turn::Fail(&[
        Step::Sync(FileName::Notes),
        Step::Sync(LOG),
        Step::Replace(FileName::Gate, b"g"),
    ]),
    Turn::Do(&[Step::Append(LOG, b"b"), Step::Miss(FileName::Gate)]),
];

#[test]
fn no_sync_succeeds_after_one_that_failed(rt: HostRuntime) {
    clear(rt, "yard_lost");
    assert_eq!(rt; live_in(rt, "yard_lost", &DEAFENED), Ok((4, 3, false)));
    clear(rt, "yard_lost");
}

/// Names of files, and what they name.
static NAMES: [(&str, Option<FileName>); 20] = [
    ("manifest", Some(FileName::Manifest)),
    ("notes", Some(FileName::Notes)),
    ("gate", Some(FileName::Gate)),
    ("registry", Some(FileName::Registry)),
    ("00000000000000000000.log", Some(FileName::Log(0))),
    ("00000000000000368769.log", Some(FileName::Log(368_769))),
    ("18446744073709551615.log", Some(FileName::Log(u64::MAX))),
    ("", None),
    ("Manifest", None),
    ("manifest.new", None),
    ("gates", None),
    ("0.log", None),
    ("00000000000000000000.LOG", None),
    ("00000000000000000000.index", None),
    ("00000000000000000000.log.new", None),
    ("000000000000000000000.log", None),
    ("+0000000000000000007.log", None),
    ("0000000000000000000a.log", None),
    ("18446744073709551616.log", None),
    ("99999999999999999999.log", None),
];

#[test]
fn a_file_has_one_name(rt: HostRuntime) {
    for (text, name) in &NAMES {
        assert_eq!(rt; read_name(text.as_bytes()), *name, "{text}");
    }
}
