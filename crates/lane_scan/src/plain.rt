//! The counts item by item. They count what is left after the last whole vector, and are the reference for the counts
//! by vectors.

ghost use Rattle.std.specs.Prelude.{◌≡◌};
ghost use Rattle.lane_scan.specs.Count.{count_le, count_lt};

/// How many items are at or below the top.
pub fn count_le_u32(row: &[u32], top: u32) -> usize
    ensures { result ≡ count_le row.now top }
{
    row.iter().filter(|item| **item <= top).count()
}

/// How many items are below the top.
pub fn count_lt_i64(row: &[i64], top: i64) -> usize
    ensures { result ≡ count_lt row.now top }
{
    row.iter().filter(|item| **item < top).count()
}
