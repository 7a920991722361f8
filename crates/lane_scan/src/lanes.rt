//! The counts by vectors. A comparison gives a bit a lane, and the bits that are set are counted.

ghost use Rattle.std.specs.Prelude.{◌≡◌, ◌≤◌, length};
ghost use Rattle.lane_scan.specs.Count.{count_le, count_lt};

use crate::plain;
use std::simd::prelude::*;

/// How many items a vector of u32 holds.
const U32_LANES: usize = 8;
/// How many items a vector of i64 holds.
const I64_LANES: usize = 4;

/// How many items are at or below the top.
pub fn count_le_u32(row: &[u32], top: u32) -> usize
    ensures count { result ≡ count_le row.now top }
    ensures within { result ≤ length row.now }
{
    let mut rest = row;
    let mut count = 0;
    while rest.len() >= U32_LANES {
        let (front, behind) = rest.split_at(U32_LANES);
        count += le_lanes(front, top);
        rest = behind;
    }
    count + plain::count_le_u32(rest, top)
}

/// How many items are below the top.
pub fn count_lt_i64(row: &[i64], top: i64) -> usize
    ensures count { result ≡ count_lt row.now top }
    ensures within { result ≤ length row.now }
{
    let mut rest = row;
    let mut count = 0;
    while rest.len() >= I64_LANES {
        let (front, behind) = rest.split_at(I64_LANES);
        count += lt_lanes(front, top);
        rest = behind;
    }
    count + plain::count_lt_i64(rest, top)
}

/// How many lanes of a vector are at or below the top.
fn le_lanes(items: &[u32], top: u32) -> usize
    requires { length items.now ≡ U32_LANES }
    ensures { result ≡ count_le items.now top }
{
    let lanes = u32x8::from_slice(items);
    let below = lanes.simd_le(u32x8::splat(top)).to_bitmask();
    below.count_ones() as usize
}

/// How many lanes of a vector are below the top.
fn lt_lanes(items: &[i64], top: i64) -> usize
    requires { length items.now ≡ I64_LANES }
    ensures { result ≡ count_lt items.now top }
{
    let lanes = i64x4::from_array([items[0], items[1], items[2], items[3]]);
    let below = lanes.simd_lt(i64x4::splat(top)).to_bitmask();
    below.count_ones() as usize
}
