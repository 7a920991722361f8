//! Calls of a disk, each with what it is to return.
//!
//! Each kind of call is a function of its own, without a contract, that returns how the call ended.

use crate::ends::{End, done, ended, gave, right, troubled};
use disk_model::{Disk, FileName};

/// A call of a disk.
#[derive(Clone, Copy)]
pub(crate) enum Step<'a> {
    Append(FileName, &'a [u8]),
    Sync(FileName),
    Cut(FileName, u64),
    Replace(FileName, &'a [u8]),
    Remove(FileName),
    /// A read from a place on, and the bytes that it gives.
    Read(FileName, u64, &'a [u8]),
    /// A read of at most so many bytes from a place on, and those that it gives.
    Part(FileName, u64, u64, &'a [u8]),
    /// A read of a file that isn't there.
    Miss(FileName),
    /// The names that are listed.
    List(&'a [FileName]),
    /// The names that are listed, in whatever order.
    Holds(&'a [FileName]),
    Arm,
}

fn sync<D: Disk>(disk: &mut D, name: FileName) -> End {
    match disk.reserve(1) {
        Ok(()) => done(disk.sync(name)),
        Err(_) => End::NoMemory,
    }
}

fn cut<D: Disk>(disk: &mut D, name: FileName, len: u64) -> End {
    match disk.reserve(1) {
        Ok(()) => done(disk.cut(name, len)),
        Err(_) => End::NoMemory,
    }
}

fn remove<D: Disk>(disk: &mut D, name: FileName) -> End {
    match disk.reserve(1) {
        Ok(()) => done(disk.remove(name)),
        Err(_) => End::NoMemory,
    }
}

fn read<D: Disk>(disk: &mut D, name: FileName, at: u64, wanted: Option<&[u8]>) -> End {
    gave(disk.read(name, at), wanted)
}

fn read_part<D: Disk>(disk: &mut D, name: FileName, at: u64, most: u64, wanted: &[u8]) -> End {
    gave(disk.read_part(name, at, most), Some(wanted))
}

fn list<D: Disk>(disk: &mut D, wanted: &[FileName]) -> End {
    match disk.list() {
        Ok(names) => right(names.as_slice() == wanted),
        Err(trouble) => troubled(trouble),
    }
}

/// Whether these names are listed, in whatever order.
fn are_listed(listed: &[FileName], names: &[FileName]) -> bool {
    for name in names {
        if !listed.contains(name) {
            return false;
        }
    }
    listed.len() == names.len()
}

fn list_any<D: Disk>(disk: &mut D, names: &[FileName]) -> End {
    match disk.list() {
        Ok(listed) => right(are_listed(listed.as_slice(), names)),
        Err(trouble) => troubled(trouble),
    }
}

fn arm<D: Disk>(disk: &mut D) -> End {
    disk.arm();
    End::Well
}

/// Makes a call.
pub(crate) fn call<D: Disk>(disk: &mut D, step: Step) -> End {
    match step {
        Step::Append(name, bytes) => ended(disk.append(name, bytes)),
        Step::Sync(name) => sync(disk, name),
        Step::Cut(name, len) => cut(disk, name, len),
        Step::Replace(name, bytes) => ended(disk.replace(name, bytes)),
        Step::Remove(name) => remove(disk, name),
        Step::Read(name, at, bytes) => read(disk, name, at, Some(bytes)),
        Step::Part(name, at, most, bytes) => read_part(disk, name, at, most, bytes),
        Step::Miss(name) => read(disk, name, 0, None),
        Step::List(names) => list(disk, names),
        Step::Holds(names) => list_any(disk, names),
        Step::Arm => arm(disk),
    }
}

/// Makes calls, and returns how many end well at first, and how the next one ends.
pub(crate) fn run<D: Disk>(disk: &mut D, steps: &[Step]) -> (usize, End) {
    for (i, step) in steps.iter().enumerate() {
        let end = call(disk, *step);
        if end != End::Well {
            return (i, end);
        }
    }
    (steps.len(), End::Well)
}
