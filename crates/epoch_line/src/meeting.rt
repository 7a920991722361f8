//! The point up to which the leader epochs of two logs agree, by a merge from their last entries on.
//!
//! Each turn drops a last entry and lowers the limit: an entry that starts at or past the limit doesn't matter, and an
//! epoch above the other log's last one isn't in that log.

ghost use Rattle.epoch_line.specs.Line.{IsLine};
ghost use Rattle.epoch_line.specs.Meet.{IsMeetBelow};

/// The greatest offset up to the limit to which logs of these lines agree.
pub fn meet_below(own: &[(u32, u64)], other: &[(u32, u64)], limit: u64) -> u64
    requires own { IsLine own.now }
    requires other { IsLine other.now }
    ensures { IsMeetBelow own.now other.now limit result }
{
    let mut own = own;
    let mut other = other;
    let mut limit = limit;
    while let Some((mine, own_front)) = own.split_last() {
        let Some((theirs, other_front)) = other.split_last() else {
            return 0;
        };
        if limit <= mine.1 {
            own = own_front;
        } else if limit <= theirs.1 {
            other = other_front;
        } else if mine.0 == theirs.0 {
            return limit;
        } else if theirs.0 < mine.0 {
            limit = mine.1;
            own = own_front;
        } else {
            limit = theirs.1;
            other = other_front;
        }
    }
    0
}
