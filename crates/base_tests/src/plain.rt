//! What is written and read in each file's rows, and counts by a look at each item: what the counts by
//! vectors and by halving are compared with.

use std::alloc::{AllocError, Global};

/// How many items are at or below the top.
pub(crate) fn count_up_to(row: &[u32], top: u32) -> usize {
    let mut count = 0usize;
    for item in row {
        if *item <= top {
            count = count.wrapping_add(1);
        }
    }
    count
}

/// How many items are below the top.
pub(crate) fn count_below(row: &[i64], top: i64) -> usize {
    let mut count = 0usize;
    for item in row {
        if *item < top {
            count = count.wrapping_add(1);
        }
    }
    count
}

/// Whether bytes were written, and are these.
pub(crate) fn is(written: Result<Vec<u8>, AllocError>, bytes: &[u8]) -> bool {
    match written {
        Ok(written) => written.as_slice() == bytes,
        Err(_) => false,
    }
}

/// A byte of a row, or of the bytes that replace it from a place on.
fn byte_at(row: &[u8], at: usize, field: &[u8], i: usize) -> u8 {
    match field.get(i.wrapping_sub(at)) {
        Some(byte) => *byte,
        None => *row.get(i).unwrap_or(&0),
    }
}

/// A row with bytes of their own at a place, which may reach past its end.
pub(crate) fn changed(
    alloc: Global,
    row: &[u8],
    at: usize,
    field: &[u8],
) -> Result<Vec<u8>, AllocError> {
    let mut bytes = Vec::new(alloc);
    for i in 0..row.len().max(at.saturating_add(field.len())) {
        bytes.push(byte_at(row, at, field, i))?;
    }
    Ok(bytes)
}
