//! Metadata logs with one changed byte: each opens, or is reported as damaged at the first invalid position. Values
//! worked by hand.

use crate::disk_logs::{STARTED, UPDATE, disk_of};
use disk_model::FileName;
use meta_log_file::{
    DiskLog, NotesRefusal, damaged_files_open_with_nothing, files_are_damaged_at_one_place,
};
use std::alloc::{AllocError, Global};

/// The start of a copy and its end, each after its length: 79 and 33 bytes.
fn notes_of(alloc: Global) -> Result<Vec<u8>, AllocError> {
    let mut notes = Vec::new(alloc);
    notes.extend_from_slice(&[0, 0, 0, 75])?;
    notes.extend_from_slice(STARTED.as_slice())?;
    notes.extend_from_slice(UPDATE.as_slice())?;
    Ok(notes)
}

/// Makes a byte the greatest one.
fn spoil(bytes: &mut [u8], at: usize) {
    if let Some(byte) = bytes.get_mut(at) {
        *byte = 0xff;
    }
}

/// What the opening comes to of a log whose file has another byte at a place.
fn open_spoilt(alloc: Global, file: FileName, at: usize) -> Result<(), NotesRefusal> {
    let mut notes = notes_of(alloc)?;
    let mut gate = [0, 0, 0, 0, 0, 0, 0, 112];
    if file == FileName::Gate {
        spoil(&mut gate, at);
    } else {
        spoil(notes.as_mut_slice(), at);
    }
    let disk = disk_of(alloc, notes.as_slice(), &gate)?;
    match DiskLog::open(alloc, disk) {
        Ok(_) => Ok(()),
        Err((_, refusal)) => Err(refusal),
    }
}

/// The bytes of a file from a place up to another, and where a log is damaged of which one of them is another, if it
/// is.
static SPOILT: [(&str, FileName, usize, usize, Option<u64>); 11] = [
    ("length, version and kind", FileName::Notes, 0, 6, Some(0)),
    ("id and partition", FileName::Notes, 6, 24, None),
    (
        "start, and the end's first byte",
        FileName::Notes,
        24,
        33,
        Some(0),
    ),
    ("end, times, broker and size", FileName::Notes, 33, 62, None),
    (
        "state, count, and the epoch's first byte",
        FileName::Notes,
        62,
        68,
        Some(0),
    ),
    ("epoch", FileName::Notes, 68, 71, None),
    ("where the epoch starts", FileName::Notes, 71, 79, Some(0)),
    (
        "the second length, version and kind",
        FileName::Notes,
        79,
        85,
        Some(79),
    ),
    (
        "the second id, broker and time",
        FileName::Notes,
        85,
        111,
        None,
    ),
    ("the second state", FileName::Notes, 111, 112, Some(79)),
    ("gate", FileName::Gate, 0, 8, Some(112)),
];

/// What an opening comes to of a log that is damaged at a place, or isn't.
fn opened(damaged: Option<u64>) -> Result<(), NotesRefusal> {
    match damaged {
        Some(at) => Err(NotesRefusal::Damaged { at }),
        None => Ok(()),
    }
}

#[test]
fn each_spoilt_byte_is_reported_at_its_place(rt: HostRuntime) {
    for (name, file, from, to, damaged) in &SPOILT {
        for at in *from..*to {
            let came = open_spoilt(rt.alloc(), *file, at);
            assert!(rt; came == opened(*damaged), "{name}: {at}");
        }
    }
}

#[test]
fn damage_has_one_place(_rt: HostRuntime) {
    damaged_files_open_with_nothing();
    files_are_damaged_at_one_place();
}
