//! A batch as the indexes of its segment see it.

ghost use Rattle.std.specs.Prelude.{◌≡◌, ◌+◌, ◌<◌, ◌^◌};
ghost use Rattle.std.specs.Int.{w32, w64, cast_unsigned};
ghost use Rattle.segment_file.specs.Walk.{size_in};
ghost use Rattle.segment_file.specs.Index.{placed_in};

use crate::walking::size_in;
use record_batch::Head;

/// A batch in its segment: its last offset, its greatest timestamp, and the position after it.
#[derive(Clone, Copy, Debug, PartialEq, Eq)]
pub struct Placed {
    pub last: u64,
    pub max_ts: i64,
    pub to: u32,
}

/// The batch of a head, after so many bytes of its segment.
pub(crate) fn place(head: &Head, at: u32) -> Placed
    requires small { at + size_in head.now < 2 ^ 31 }
    requires last_fits { cast_unsigned w64 head.now.base_offset + cast_unsigned w32
        head.now.last_offset_delta < 2 ^ 64 }
    ensures { result ≡ placed_in at head.now }
{
    let delta = head.last_offset_delta.cast_unsigned() as u64;
    Placed {
        last: head.base_offset.cast_unsigned() + delta,
        max_ts: head.max_ts,
        to: at + size_in(head) as u32,
    }
}
