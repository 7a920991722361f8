//! The part of a run that is drawn.

ghost use Rattle.std.specs.Prelude.{◌≡◌, ◌≤◌, drop, take, length};
ghost use Rattle.run_picture.specs.Part.{part_of, count_of};

use run_story::Moment;

/// The most entries of a partition that are drawn.
pub const MOST: usize = 2_000;

/// How many of these entries are between two places, both included.
fn count(length: usize, from: usize, to: usize) -> usize
    ensures { result ≡ count_of length from to }
{
    if from >= length || to < from {
        0
    } else if to >= length {
        length - from
    } else {
        to - from + 1
    }
}

/// Returns the moments of the entries between two places, both included, in their order.
pub fn part(moments: &[Moment], from: usize, to: usize) -> &[Moment]
    ensures { result.now ≡ part_of moments.now from to }
{
    let count = count(moments.len(), from, to);
    if count == 0 {
        return &[];
    }
    &moments[from..from + count]
}
