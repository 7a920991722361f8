//! Worked rows, by hand. Each call is made once with ample memory.

use crate::plain;
use log_manifest::{Manifest, ManifestRefusal, decode, encode};
use std::alloc::{AllocError, Global};
use std::test::Fail;

/// The manifest of a fresh log whose broker leads epoch 0.
static FRESH: [u8; 48] = [
    0x54, 0x4c, 0x4d, 0x31, // TLM1
    0, 0, 0, 1, // incarnation
    0, 0, 0, 0, 0, 0, 0, 0, // local start
    0, 0, 0, 1, // count of segments
    0, 0, 0, 0, 0, 0, 0, 0, // base
    0, 0, 0, 0, // flushed length
    0, 0, 0, 1, // count of line entries
    0, 0, 0, 0, // epoch
    0, 0, 0, 0, 0, 0, 0, 0, // its start
];

/// Two segments, from 5 and from 9, and two epochs, from 0 and from 7.
static TWO: [u8; 72] = [
    0x54, 0x4c, 0x4d, 0x31, // TLM1
    0, 0, 0, 3, // incarnation
    0, 0, 0, 0, 0, 0, 0, 5, // local start
    0, 0, 0, 2, // count of segments
    0, 0, 0, 0, 0, 0, 0, 5, // base
    0, 0, 1, 0x14, // flushed length
    0, 0, 0, 0, 0, 0, 0, 9, // base
    0, 0, 0, 0, // flushed length
    0, 0, 0, 2, // count of line entries
    0, 0, 0, 1, // epoch
    0, 0, 0, 0, 0, 0, 0, 0, // its start
    0, 0, 0, 4, // epoch
    0, 0, 0, 0, 0, 0, 0, 7, // its start
];

/// Whether bytes are read as a manifest that is written so.
fn is_written_again(alloc: Global, bytes: &[u8]) -> bool {
    match decode(alloc, bytes) {
        Ok(manifest) => plain::is(encode(alloc, &manifest), bytes),
        Err(_) => false,
    }
}

/// Whether a manifest says what the second row spells.
fn is_two(manifest: &Manifest) -> bool {
    let [first, second] = manifest.segments.as_slice() else {
        return false;
    };
    let head = (manifest.incarnation, manifest.local_start) == (3, 5);
    let segments = (first.base, first.len, second.base, second.len) == (5, 276, 9, 0);
    let line = manifest.line.entries() == [(1, 0), (4, 7)].as_slice();
    head & segments & line
}

/// Whether the second row is read field by field.
fn reads_two(alloc: Global) -> bool {
    match decode(alloc, TWO.as_slice()) {
        Ok(manifest) => is_two(&manifest),
        Err(_) => false,
    }
}

#[test]
fn a_manifest_is_spelled_field_by_field(rt: HostRuntime) {
    assert!(rt; is_written_again(rt.alloc(), FRESH.as_slice()), "the first");
    assert!(rt; is_written_again(rt.alloc(), TWO.as_slice()), "the second");
    assert!(rt; reads_two(rt.alloc()), "each field");
}

/// Where the field begins that has the last byte of so many.
fn field_of(starts: &[u32], len: u32) -> u32 {
    let mut field = 0;
    for start in starts {
        if *start <= len {
            field = *start;
        }
    }
    field
}

/// Where the fields of the second row begin.
static STARTS: [u32; 13] = [0, 4, 8, 16, 20, 28, 32, 40, 44, 48, 52, 60, 64];

#[test]
fn a_cut_manifest_is_reported_at_the_cut_field(rt: HostRuntime) {
    for len in 0..TWO.len() {
        let refusal = decode(rt.alloc(), &TWO[..len]).err();
        let at = field_of(STARTS.as_slice(), len as u32);
        assert_eq!(rt; refusal, Some(ManifestRefusal::Bad { at }), "cut at {len}");
    }
}

/// Reads a manifest with bytes of its own at a place.
fn with(
    alloc: Global,
    row: &[u8],
    at: usize,
    field: &[u8],
) -> Result<Option<ManifestRefusal>, AllocError> {
    let bytes = plain::changed(alloc, row, at, field)?;
    Ok(decode(alloc, bytes.as_slice()).err())
}

/// From a byte to another; None where the manifest still reads.
static TOLD: [(usize, usize, Option<u32>); 14] = [
    (0, 4, Some(0)),
    (4, 8, None),
    (8, 9, Some(8)),
    (9, 16, Some(20)),
    (16, 19, Some(16)),
    (19, 20, Some(28)), // a length 0 isn't the last then
    (20, 28, Some(20)),
    (28, 29, Some(28)),
    (29, 32, None),
    (32, 36, Some(48)),
    (36, 37, Some(36)),
    (37, 40, None),
    (40, 41, Some(40)),
    (41, 48, None),
];

#[test]
fn each_byte_of_ff_is_reported_at_its_field(rt: HostRuntime) -> Result<(), Fail> {
    let alloc = rt.alloc();
    for (from, to, place) in &TOLD {
        for at in *from..*to {
            let refusal = with(alloc, FRESH.as_slice(), at, [0xff].as_slice())?;
            let wanted = place.map(|at| ManifestRefusal::Bad { at });
            assert_eq!(rt; refusal, wanted, "ff at {at}");
        }
    }
    Ok(())
}

/// Bytes of their own at a place of the second row, and where that is reported.
static BAD: [(usize, &[u8], Option<u32>); 18] = [
    (3, &[0x32], Some(0)),
    (7, &[0], Some(4)),
    (8, &[0x40], Some(8)),
    (8, &[0x40, 0, 0, 0, 0, 0, 0, 0], Some(20)),
    (15, &[4], Some(20)),
    (19, &[0], Some(16)),
    (16, &[0, 0, 0x10, 1], Some(16)),
    (16, &[0, 0, 0x10, 0], Some(40)),
    (30, &[0, 0], Some(28)),
    (28, &[0x80], Some(28)),
    (39, &[5], Some(32)),
    (32, &[0x40, 0, 0, 0, 0, 0, 0, 0], None),
    (32, &[0x40], Some(32)),
    (40, &[0x7f, 0xff, 0xff, 0xff], None),
    (63, &[1], Some(60)),
    (71, &[0], Some(64)),
    (64, &[0x40, 0, 0, 0, 0, 0, 0, 1], Some(64)),
    (64, &[0x40, 0, 0, 0, 0, 0, 0, 0], None),
];

#[test]
fn each_broken_rule_is_reported_at_its_field(rt: HostRuntime) -> Result<(), Fail> {
    let alloc = rt.alloc();
    for (at, field, place) in &BAD {
        let refusal = with(alloc, TWO.as_slice(), *at, field)?;
        let wanted = place.map(|at| ManifestRefusal::Bad { at });
        assert_eq!(rt; refusal, wanted, "changed at {at}");
    }
    Ok(())
}

#[test]
fn a_trailing_byte_is_reported(rt: HostRuntime) {
    let told = with(rt.alloc(), FRESH.as_slice(), 48, [0].as_slice());
    assert_eq!(rt; told, Ok(Some(ManifestRefusal::Bad { at: 48 })));
}
