//! Worked rows, by hand. Each call is made once with ample memory.

use crate::{RegFileRefusal, reg_decode, reg_encode};
use registry::{RegView, Registry};
use std::alloc::{AllocError, Global};
use std::test::Fail;
use tier_base::BrokerId;

/// One broker, which leads epoch 0 and acknowledged 3.
static ONE: [u8; 37] = [
    0x54, 0x4c, 0x52, 0x31, // TLR1
    0, 1, // count of brokers
    0, 0, 0, 0, // leader epoch
    0, 0, // leader
    0, 0, 0, 0, 0, 0, 0, 3, // high watermark
    0, 0, 0, 0, 0, 0, 0, 0, // log start offset
    1, // in sync
    0, 0, 0, 0, 0, 0, 0, 3, // acknowledged
];

/// Three brokers, of which the second leads and the third isn't in sync.
static THREE: [u8; 53] = [
    0x54, 0x4c, 0x52, 0x31, // TLR1
    0, 3, // count of brokers
    0x7f, 0xff, 0xff, 0xff, // leader epoch
    0, 1, // leader
    0x40, 0, 0, 0, 0, 0, 0, 0, // high watermark
    0, 0, 0, 0, 0, 0, 1, 2, // log start offset
    3, // in sync
    0x40, 0, 0, 0, 0, 0, 0, 0, // acknowledged
    0, 0, 0, 0, 0, 0, 0, 9, // acknowledged
    0, 0, 0, 0, 0, 0, 0, 0, // acknowledged
];

/// What the first row says.
static ONE_VIEW: RegView = RegView {
    brokers: 1,
    epoch: 0,
    leader: BrokerId(0),
    in_sync: 1,
    acked: [3, 0, 0, 0, 0, 0, 0, 0],
    mark: 3,
    start: 0,
};

/// What the second row says.
static THREE_VIEW: RegView = RegView {
    brokers: 3,
    epoch: 0x7fff_ffff,
    leader: BrokerId(1),
    in_sync: 3,
    acked: [1 << 62, 9, 0, 0, 0, 0, 0, 0],
    mark: 1 << 62,
    start: 258,
};

/// Whether bytes are read as a view that is written so.
fn is_spelled(alloc: Global, bytes: &[u8], view: &RegView) -> bool {
    let read = reg_decode(bytes) == Ok(*view);
    match reg_encode(alloc, view) {
        Ok(written) => read && written.as_slice() == bytes,
        Err(_) => false,
    }
}

#[test]
fn a_view_is_spelled_field_by_field(rt: HostRuntime) {
    assert!(rt;
        is_spelled(rt.alloc(), ONE.as_slice(), &ONE_VIEW),
        "the first"
    );
    assert!(rt;
        is_spelled(rt.alloc(), THREE.as_slice(), &THREE_VIEW),
        "the second"
    );
}

/// Where the fields of the second row begin.
static STARTS: [u32; 10] = [0, 4, 6, 10, 12, 20, 28, 29, 37, 45];

/// Where the field begins that has the last byte of so many.
fn field_of(starts: &[u32], len: u32) -> u32 {
    let mut field = 0;
    for start in starts {
        if *start <= len {
            field = *start;
        }
    }
    field
}

#[test]
fn a_cut_file_tells_the_cut_field(rt: HostRuntime) {
    for len in 0..THREE.len() {
        let refusal = reg_decode(&THREE[..len]).err();
        let at = field_of(STARTS.as_slice(), len as u32);
        assert_eq!(rt; refusal, Some(RegFileRefusal::Bad { at }), "cut at {len}");
    }
}

/// A byte of the second row, or of the bytes that replace it from a place on.
fn byte_at(at: usize, field: &[u8], i: usize) -> u8 {
    match field.get(i.wrapping_sub(at)) {
        Some(byte) => *byte,
        None => *THREE.get(i).unwrap_or(&0),
    }
}

/// Why the second row is refused with bytes of its own at a place, which may reach past its end.
fn with(alloc: Global, at: usize, field: &[u8]) -> Result<Option<RegFileRefusal>, AllocError> {
    let mut bytes = Vec::new(alloc);
    for i in 0..THREE.len().max(at.saturating_add(field.len())) {
        bytes.push(byte_at(at, field, i))?;
    }
    Ok(reg_decode(bytes.as_slice()).err())
}

/// Bytes of their own at a place of the second row, and where that is reported; None where it still reads.
static BAD: [(usize, &[u8], Option<u32>); 23] = [
    (0, &[0x55], Some(0)),
    (3, &[0x32], Some(0)),
    (5, &[0], Some(4)),
    (5, &[9], Some(4)),
    (4, &[1], Some(4)),
    (5, &[1], Some(10)), // the leader is none of one broker
    (5, &[2], Some(45)), // the third end follows two
    (5, &[4], Some(53)), // a fourth end is missing
    (6, &[0x80], Some(6)),
    (9, &[0], None),
    (11, &[3], Some(10)),
    (11, &[2], Some(28)), // the third isn't in sync
    (10, &[1], Some(10)),
    (12, &[0x40, 0, 0, 0, 0, 0, 0, 1], Some(12)),
    (12, &[0, 0, 0, 0, 0, 0, 1, 1], Some(20)), // the start is above it
    (12, &[0, 0, 0, 0, 0, 0, 1, 2], None),
    (20, &[0x40, 0, 0, 0, 0, 0, 0, 1], Some(20)),
    (28, &[1], Some(28)),
    (28, &[11], Some(28)),
    (29, &[0x40, 0, 0, 0, 0, 0, 0, 1], Some(29)),
    (37, &[0x80], Some(37)),
    (45, &[0x40, 0, 0, 0, 0, 0, 0, 1], Some(45)),
    (53, &[0], Some(53)),
];

#[test]
fn each_broken_rule_is_told_at_its_field(rt: HostRuntime) -> Result<(), Fail> {
    let alloc = rt.alloc();
    for (at, field, place) in &BAD {
        let refusal = with(alloc, *at, field)?;
        let wanted = place.map(|at| RegFileRefusal::Bad { at });
        assert_eq!(rt; refusal, wanted, "changed at {at}");
    }
    Ok(())
}

/// Whether a registry is made of what a file says, and holds that.
fn is_held(alloc: Global, bytes: &[u8]) -> bool {
    let Ok(view) = reg_decode(bytes) else {
        return false;
    };
    match Registry::of(alloc, &view) {
        Ok(registry) => registry.get() == view,
        Err(_) => false,
    }
}

#[test]
fn a_registry_is_made_of_its_file(rt: HostRuntime) {
    assert!(rt; is_held(rt.alloc(), ONE.as_slice()), "the first");
    assert!(rt; is_held(rt.alloc(), THREE.as_slice()), "the second");
}
