//! Vectors from outside. The checksums are those of RFC 3720, appendix B.4; the spellings were worked by hand.

use crate::plain;
use batch_prims::{
    VarRefusal, crc32c, crc32c_bitwise, crc32c_bytewise, crc32c_sliced, read_varint, read_varlong,
    write_varint, write_varlong,
};
use std::alloc::{AllocError, Global};

/// A checksum by four registers, by sixteen bytes a step, by a byte a step and by a bit a step.
fn sums(bytes: &[u8]) -> (u32, u32, u32, u32) {
    (
        crc32c(bytes),
        crc32c_sliced(bytes),
        crc32c_bytewise(bytes),
        crc32c_bitwise(bytes),
    )
}

/// Bytes and their checksum.
static SUMS: [(&[u8], u32); 4] = [
    (b"", 0x0000_0000),
    (b"123456789", 0xe306_9283),
    (&[0; 32], 0x8a91_36aa),
    (&[255; 32], 0x62a8_ab43),
];

#[test]
fn checksums_are_right(rt: HostRuntime) {
    for (bytes, sum) in &SUMS {
        assert_eq!(rt;
            sums(bytes),
            (*sum, *sum, *sum, *sum),
            "{} bytes",
            bytes.len()
        );
    }
}

#[test]
fn each_checksum_body_agrees_at_each_length(rt: HostRuntime) {
    let mut bytes = [0u8; 70];
    for i in 0..70u8 {
        bytes[i as usize] = i.wrapping_mul(77).wrapping_add(5);
        let (braided, sliced, bytewise, bitwise) = sums(&bytes[..i as usize]);
        assert_eq!(rt;
            (braided, sliced, bytewise),
            (bitwise, bitwise, bitwise),
            "{i} bytes"
        );
    }
}

/// Numbers and their spelling.
static SPELLINGS: [(i32, &[u8]); 5] = [
    (0, b"\x00"),
    (-1, b"\x01"),
    (300, b"\xd8\x04"),
    (i32::MAX, b"\xfe\xff\xff\xff\x0f"),
    (i32::MIN, b"\xff\xff\xff\xff\x0f"),
];

/// A number as a varint, and as a varlong after it.
fn written(alloc: Global, value: i32) -> Result<Vec<u8>, AllocError> {
    let mut out = Vec::new(alloc);
    write_varint(&mut out, value)?;
    write_varlong(&mut out, value as i64)?;
    Ok(out)
}

/// Whether a number is written as these bytes, which are its spelling twice, and each of the two is read again.
fn goes_both_ways(alloc: Global, value: i32, twice: &[u8], spelling: &[u8]) -> (bool, bool, bool) {
    let length = spelling.len();
    (
        plain::is(written(alloc, value), twice),
        read_varint(twice) == Ok((value, length)),
        read_varlong(spelling) == Ok((value as i64, length)),
    )
}

/// Whether a number is spelled so as a varint, and as a varlong after it.
fn is_spelled(alloc: Global, value: i32, spelling: &[u8]) -> bool {
    match plain::changed(alloc, spelling, spelling.len(), spelling) {
        Ok(twice) => {
            goes_both_ways(alloc, value, twice.as_slice(), spelling) == (true, true, true)
        }
        Err(AllocError) => false,
    }
}

/// The first number that is spelled in another way.
fn first_misspelled(alloc: Global) -> Option<i32> {
    for (value, spelling) in &SPELLINGS {
        if !is_spelled(alloc, *value, spelling) {
            return Some(*value);
        }
    }
    None
}

#[test]
fn spellings_are_right(rt: HostRuntime) {
    assert_eq!(rt; first_misspelled(rt.alloc()), None);
}

/// Bytes, and what is read of them as a varint.
static ODD: [(&[u8], Result<(i32, usize), VarRefusal>); 8] = [
    (b"\x82\x00", Ok((1, 2))),
    (b"\x82\x00\xff", Ok((1, 2))),
    (b"\xfe\xff\xff\xff\x7f", Ok((i32::MAX, 5))),
    (b"", Err(VarRefusal::Short)),
    (b"\x80", Err(VarRefusal::Short)),
    (b"\x80\x80\x80\x80", Err(VarRefusal::Short)),
    (b"\x80\x80\x80\x80\x80", Err(VarRefusal::TooLong)),
    (b"\x80\x80\x80\x80\x80\x00", Err(VarRefusal::TooLong)),
];

/// Bytes, and what is read of them as a varlong: the least one, and nine and ten bytes without an end.
static LONG: [(&[u8], Result<(i64, usize), VarRefusal>); 3] = [
    (
        b"\xff\xff\xff\xff\xff\xff\xff\xff\xff\x01",
        Ok((i64::MIN, 10)),
    ),
    (&[128; 9], Err(VarRefusal::Short)),
    (&[128; 10], Err(VarRefusal::TooLong)),
];

/// The number of the first row of which something else is read as a varint.
fn first_misread() -> Option<usize> {
    for (i, (bytes, want)) in ODD.iter().enumerate() {
        if read_varint(bytes) != *want {
            return Some(i);
        }
    }
    None
}

/// The number of the first row of which something else is read as a varlong.
fn first_misread_long() -> Option<usize> {
    for (i, (bytes, want)) in LONG.iter().enumerate() {
        if read_varlong(bytes) != *want {
            return Some(i);
        }
    }
    None
}

#[test]
fn odd_spellings_and_refusals(rt: HostRuntime) {
    assert_eq!(rt; first_misread(), None);
}

#[test]
fn long_spellings_and_refusals(rt: HostRuntime) {
    assert_eq!(rt; first_misread_long(), None);
}
