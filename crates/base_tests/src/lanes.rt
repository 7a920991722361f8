//! Rows that were worked by hand, and both bodies side by side.

use crate::plain;
use lane_scan::{count_le_u32, count_lt_i64};
use std::alloc::{AllocError, Global};

/// A row, a top, and how many are at or below it.
static UP_TO: [(&[u32], u32, usize); 3] = [
    (&[0, 3, 3, 7], 3, 3), // the top counts
    (&[], 3, 0),
    (&[u32::MAX], u32::MAX, 1),
];

#[test]
fn counts_up_to_a_top_are_right(rt: HostRuntime) {
    for (row, top, count) in &UP_TO {
        assert_eq!(rt; count_le_u32(row, *top), *count, "up to {top}");
    }
}

/// A row, a top, and how many are below it.
static BELOW: [(&[i64], i64, usize); 2] = [
    (&[-1, 5], 5, 1), // the top doesn't count
    (&[-1, 5], i64::MIN, 0),
];

#[test]
fn counts_below_a_top_are_right(rt: HostRuntime) {
    for (row, top, count) in &BELOW {
        assert_eq!(rt; count_lt_i64(row, *top), *count, "below {top}");
    }
}

/// The numbers below this one.
fn row_of(alloc: Global, n: u32) -> Result<Vec<u32>, AllocError> {
    let mut row = Vec::new(alloc);
    for item in 0..n {
        row.push(item)?;
    }
    Ok(row)
}

/// The least top of a row at which the bodies differ, or give another count than that of the numbers.
fn first_wrong(row: &[u32], n: u32) -> Option<u32> {
    for top in 0..n.saturating_add(1) {
        let want = top.saturating_add(1).min(n) as usize;
        if (count_le_u32(row, top), plain::count_up_to(row, top)) != (want, want) {
            return Some(top);
        }
    }
    None
}

/// Twice the numbers below this one, less 71.
fn signed_row_of(alloc: Global, n: u32) -> Result<Vec<i64>, AllocError> {
    let mut row = Vec::new(alloc);
    for item in 0..n {
        row.push(2 * item as i64 - 71)?;
    }
    Ok(row)
}

/// The first top of a row at which the bodies differ.
fn first_signed_wrong(row: &[i64], n: u32) -> Option<i64> {
    for top in 0..n.saturating_add(1) {
        let top = 2 * top as i64 - n as i64;
        if count_lt_i64(row, top) != plain::count_below(row, top) {
            return Some(top);
        }
    }
    None
}

/// Where the bodies differ on a row of so many.
fn wrong(alloc: Global, n: u32) -> Result<Option<u32>, AllocError> {
    match row_of(alloc, n) {
        Ok(row) => Ok(first_wrong(row.as_slice(), n)),
        Err(AllocError) => Err(AllocError),
    }
}

/// Where the bodies differ on a signed row of so many.
fn signed_wrong(alloc: Global, n: u32) -> Result<Option<i64>, AllocError> {
    match signed_row_of(alloc, n) {
        Ok(row) => Ok(first_signed_wrong(row.as_slice(), n)),
        Err(AllocError) => Err(AllocError),
    }
}

#[test]
fn vectors_count_as_items_do(rt: HostRuntime) {
    for n in 0..71 {
        let found = (wrong(rt.alloc(), n), signed_wrong(rt.alloc(), n));
        assert_eq!(rt; found, (Ok(None), Ok(None)), "{n} items");
    }
}
