//! Openings over files of any bytes: each is a log or the cause why there is none, with its place. And reads of a log
//! whose file has changed under it. Values worked by hand.

use crate::checks::put;
use crate::files::{FLUSHED, SEGMENT, SIZE};
use crate::trial::{leaves_names, open_files, reads_over};
use bytes::Bytes;
use disk_model::FileName;
use local_log::{OpenRefusal, ReadRefusal};
use std::alloc::{AllocError, Global};

const LOG: FileName = FileName::Log(0);

/// What an opening comes to: a log of an end, or why there is none.
type Opened = Result<u64, OpenRefusal>;

/// A file that is no log's.
const OTHER: FileName = FileName::Notes;

/// Two files.
fn both(
    alloc: Global,
    manifest: Bytes,
    name: FileName,
    bytes: Bytes,
) -> Option<Vec<(FileName, Bytes)>> {
    vec![in alloc; (FileName::Manifest, manifest), (name, bytes)].ok()
}

/// The manifest and another file.
fn files(
    alloc: Global,
    manifest: &[u8],
    name: FileName,
    bytes: &[u8],
) -> Option<Vec<(FileName, Bytes)>> {
    let manifest = Bytes::copy_from_slice(alloc, manifest);
    let bytes = Bytes::copy_from_slice(alloc, bytes);
    match (manifest, bytes) {
        (Ok(manifest), Ok(bytes)) => both(alloc, manifest, name, bytes),
        _ => None,
    }
}

/// What the opening of these files comes to.
fn open(alloc: Global, manifest: &[u8], name: FileName, bytes: &[u8]) -> Opened {
    match files(alloc, manifest, name, bytes) {
        Some(files) => open_files(alloc, files),
        None => Err(OpenRefusal::NoMemory),
    }
}

/// Bytes with other ones at a place.
fn with(alloc: Global, of: &[u8], at: usize, other: &[u8]) -> Result<Vec<u8>, AllocError> {
    let mut bytes = Vec::new(alloc);
    for (i, byte) in of.iter().enumerate() {
        bytes.push(*other.get(i.wrapping_sub(at)).unwrap_or(byte))?;
    }
    Ok(bytes)
}

/// What the opening comes to of a log whose manifest has other bytes at a place.
fn open_with(alloc: Global, at: usize, other: &[u8]) -> Opened {
    match with(alloc, FLUSHED.as_slice(), at, other) {
        Ok(manifest) => open(alloc, manifest.as_slice(), LOG, SEGMENT.as_slice()),
        Err(AllocError) => Err(OpenRefusal::NoMemory),
    }
}

/// What an opening reports that finds no log in a file.
fn damaged(file: FileName, at: u64) -> Opened {
    Err(OpenRefusal::Damaged { file, at })
}

/// What an opening comes to of the log's segment, of no segment, of another kind of manifest, and of the last
/// incarnation.
fn openings(alloc: Global) -> (Opened, Opened, Opened, Opened) {
    (
        open(alloc, FLUSHED.as_slice(), LOG, SEGMENT.as_slice()),
        open(alloc, FLUSHED.as_slice(), OTHER, SEGMENT.as_slice()),
        open(alloc, b"TLM2", OTHER, b""),
        open_with(alloc, 4, [0xff; 4].as_slice()),
    )
}

#[test]
fn openings_report_their_causes(rt: HostRuntime) {
    let wanted = (
        Ok(2),
        damaged(LOG, 0),
        damaged(FileName::Manifest, 0),
        Err(OpenRefusal::LastIncarnation),
    );
    assert!(rt; openings(rt.alloc()) == wanted);
}

/// What the opening comes to of a log whose segment has this byte at a place turned over.
fn open_turned(alloc: Global, at: usize, byte: u8) -> Opened {
    let other = [!byte];
    match with(alloc, SEGMENT.as_slice(), at, other.as_slice()) {
        Ok(segment) => open(alloc, FLUSHED.as_slice(), LOG, segment.as_slice()),
        Err(AllocError) => Err(OpenRefusal::NoMemory),
    }
}

/// What an opening comes to whose manifest has the byte 255 at a place: the first field that breaks a rule then, or
/// what the segment lacks that is longer then, or whose epoch the line doesn't give.
fn told_of_manifest(at: usize) -> Opened {
    match at {
        0..=3 => damaged(FileName::Manifest, 0),
        4..=7 => Ok(2),
        8 => damaged(FileName::Manifest, 8),
        9..=15 | 20..=27 => damaged(FileName::Manifest, 20),
        16..=18 => damaged(FileName::Manifest, 16),
        19 | 40 => damaged(FileName::Manifest, 40),
        28 => damaged(FileName::Manifest, 28),
        29..=31 => damaged(LOG, 138),
        32..=35 => damaged(FileName::Manifest, 48),
        36 => damaged(FileName::Manifest, 36),
        _ => damaged(LOG, 0),
    }
}

/// The first byte of the manifest that is reported otherwise.
fn first_untold(alloc: Global) -> Option<usize> {
    for at in 0..FLUSHED.len() {
        if open_with(alloc, at, [0xff].as_slice()) != told_of_manifest(at) {
            return Some(at);
        }
    }
    None
}

#[test]
fn each_spoilt_byte_of_the_manifest_has_its_place(rt: HostRuntime) {
    assert_eq!(rt; first_untold(rt.alloc()), None);
}

/// The first byte of the segment that isn't reported where its batch begins.
fn first_unplaced(alloc: Global) -> Option<usize> {
    for at in 0..SEGMENT.len() {
        if open_turned(alloc, at, SEGMENT[at]) != damaged(LOG, (at / SIZE * SIZE) as u64) {
            return Some(at);
        }
    }
    None
}

#[test]
fn each_spoilt_byte_of_a_segment_is_reported_where_its_batch_begins(rt: HostRuntime) {
    assert_eq!(rt; first_unplaced(rt.alloc()), None);
}

/// Whether an opening reported a place in a file of the log.
fn is_damaged(opened: Opened, name: FileName) -> bool {
    matches!(opened, Err(OpenRefusal::Damaged { file, .. }) if file == name)
}

/// The first number of bytes of the manifest that isn't reported.
fn first_cut_manifest(alloc: Global) -> Option<usize> {
    for len in 0..FLUSHED.len() {
        let opened = open(alloc, &FLUSHED[..len], LOG, SEGMENT.as_slice());
        if !is_damaged(opened, FileName::Manifest) {
            return Some(len);
        }
    }
    None
}

/// The first number of bytes of the segment that isn't reported.
fn first_cut_segment(alloc: Global) -> Option<usize> {
    for len in 0..SEGMENT.len() {
        let opened = open(alloc, FLUSHED.as_slice(), LOG, &SEGMENT[..len]);
        if !is_damaged(opened, LOG) {
            return Some(len);
        }
    }
    None
}

#[test]
fn each_cut_manifest_is_reported(rt: HostRuntime) {
    assert_eq!(rt; first_cut_manifest(rt.alloc()), None);
}

#[test]
fn each_cut_segment_is_reported(rt: HostRuntime) {
    assert_eq!(rt; first_cut_segment(rt.alloc()), None);
}

/// Adds a segment that the manifest doesn't list, and returns whether the opened log leaves these names.
fn leaves_with_stray(alloc: Global, files: Vec<(FileName, Bytes)>, names: &[FileName]) -> bool {
    let mut files = files;
    match files.push((FileName::Log(2), Bytes::from_static(b"stray"))) {
        Ok(()) => leaves_names(alloc, files, names),
        Err(_) => false,
    }
}

/// Whether the opened log leaves these names of the files with a stray segment.
fn leaves_of_stray(alloc: Global, names: &[FileName]) -> bool {
    match files(alloc, FLUSHED.as_slice(), LOG, SEGMENT.as_slice()) {
        Some(files) => leaves_with_stray(alloc, files, names),
        None => false,
    }
}

#[test]
fn a_stray_segment_is_removed_at_the_opening(rt: HostRuntime) {
    let names = [FileName::Manifest, LOG];
    assert!(rt; leaves_of_stray(rt.alloc(), names.as_slice()));
}

/// The files of a log, and after its segment's file another one of that name, with another byte at a place.
fn files_with_second(alloc: Global, at: usize, byte: u8) -> Option<Vec<(FileName, Bytes)>> {
    let mut files = match files(alloc, FLUSHED.as_slice(), LOG, SEGMENT.as_slice()) {
        Some(files) => files,
        None => return None,
    };
    let mut second = match SEGMENT.as_slice().to_vec(alloc) {
        Ok(second) => second,
        Err(_) => return None,
    };
    put(&mut second, at, byte);
    let second = match Bytes::from_vec(second) {
        Ok(second) => second,
        Err(_) => return None,
    };
    match files.push((LOG, second)) {
        Ok(()) => Some(files),
        Err(_) => None,
    }
}

/// Whether both batches are read where the segment's file has a byte at a place, or the run and the closed segment are
/// damaged at these places.
fn reads_with(alloc: Global, at: usize, byte: u8, places: Option<(u64, u64)>) -> bool {
    let files = match files_with_second(alloc, at, byte) {
        Some(files) => files,
        None => return false,
    };
    let wanted = match places {
        Some((run, closed)) => (
            Err(ReadRefusal::Damaged { file: LOG, at: run }),
            Err(ReadRefusal::Damaged {
                file: LOG,
                at: closed,
            }),
        ),
        None => (Ok(2), Ok(Some(1))),
    };
    reads_over(alloc, files, SEGMENT.as_slice()) == Some(wanted)
}

/// The first byte of the batches' epochs that isn't reported where it has changed. Where the first epoch has risen, a
/// closed segment is damaged at the second batch, whose epoch is below it: the line is asked last.
fn first_untold_epoch(alloc: Global) -> Option<usize> {
    let second = SIZE as u64;
    for at in 12..16 {
        if !reads_with(alloc, at, 1, Some((0, second))) {
            return Some(at);
        }
        if !reads_with(alloc, SIZE + at, 1, Some((second, second))) {
            return Some(SIZE + at);
        }
    }
    None
}

#[test]
fn each_changed_epoch_byte_is_reported(rt: HostRuntime) {
    assert_eq!(rt; first_untold_epoch(rt.alloc()), None);
}

#[test]
fn what_has_not_changed_is_read(rt: HostRuntime) {
    assert!(rt; reads_with(rt.alloc(), 15, 0, None));
}
