//! The segment that a stair gives at an offset, by halving, and how far it gives one from there on.

ghost use Rattle.std.specs.Prelude.{◌≡◌};
ghost use Rattle.remote_view.specs.Stairs.{id_at, end_of_touching, RisesAlong, IsEndFrom};

use crate::tread::Tread;
use tier_base::SegmentId;

/// The segment of the tread that holds an offset.
pub(crate) fn id_at(stair: &[Tread], offset: u64) -> Option<SegmentId>
    requires { RisesAlong stair.now }
    ensures { result ≡ id_at stair.now offset }
{
    let at = stair.partition_point(|tread| tread.to <= offset);
    if at == stair.len() {
        return None;
    }
    let tread = &stair[at];
    if tread.from > offset {
        return None;
    }
    Some(tread.id)
}

/// Where treads end that touch one another, from a place on.
fn end_of_touching(stair: &[Tread], at: u64) -> u64
    ensures { result ≡ end_of_touching stair.now at }
{
    let mut place = at;
    for tread in stair {
        if tread.from > place {
            return place;
        }
        place = tread.to;
    }
    place
}

/// The first offset from one on that no tread holds.
pub(crate) fn end_from(stair: &[Tread], at: u64) -> u64
    requires { RisesAlong stair.now }
    ensures { IsEndFrom stair.now at result }
{
    let first = stair.partition_point(|tread| tread.to <= at);
    end_of_touching(stair.split_at(first).1, at)
}
