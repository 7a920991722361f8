//! How many items of a column pass a test that no item passes after one that fails.
//!
//! The column is halved down to a block, and the block is counted by vectors.

ghost use Rattle.std.specs.Prelude.{◌≡◌, ◌≤◌, nat_le, int_lt, length};
ghost use Rattle.std.specs.List.Sorted.{IsPartitionedBy};
ghost use Rattle.lane_scan.specs.Count.{count_le, count_lt};

use lane_scan::{count_le_u32, count_lt_i64};

/// The most items that are counted in one go.
const BLOCK: usize = 64;

/// How many offsets are at or below the top: those in front.
pub fn count_up_to(column: &[u32], top: u32) -> usize
    requires { IsPartitionedBy (λ item. nat_le item top) column.now }
    ensures count { result ≡ count_le column.now top }
    ensures within { result ≤ length column.now }
{
    let mut rest = column;
    let mut passed = 0;
    while rest.len() > BLOCK {
        let (front, back) = rest.split_at(rest.len() / 2);
        if back[0] <= top {
            passed += front.len();
            rest = back;
        } else {
            rest = front;
        }
    }
    passed + count_le_u32(rest, top)
}

/// How many timestamps are below the top: those in front.
pub fn count_before(column: &[i64], top: i64) -> usize
    requires { IsPartitionedBy (λ item. int_lt item top) column.now }
    ensures count { result ≡ count_lt column.now top }
    ensures within { result ≤ length column.now }
{
    let mut rest = column;
    let mut passed = 0;
    while rest.len() > BLOCK {
        let (front, back) = rest.split_at(rest.len() / 2);
        if back[0] < top {
            passed += front.len();
            rest = back;
        } else {
            rest = front;
        }
    }
    passed + count_lt_i64(rest, top)
}
