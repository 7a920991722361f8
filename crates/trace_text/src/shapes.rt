//! The fields of an answer by their shape. Both the length of a line and its text are computed from this one table.

ghost use Rattle.std.specs.Prelude.{◌≡◌};
ghost use Rattle.trace_text.specs.Shapes.{words_of};
ghost use Rattle.trace_text.specs.Trace.{fields_of};

use plain_log::{Answer, Place, Tier};
use record_batch::BatchRefusal;
use tier_base::{SegmentId, State, Stop};

/// How many fields an answer has, of which kinds, and what they are.
#[derive(Clone, Copy)]
pub enum Shape<'a> {
    /// No field.
    Bare,
    /// A number.
    Counted(u64),
    /// Two numbers.
    Paired(u64, u64),
    /// Three numbers.
    Span(u64, u64, u64),
    /// Why bytes are no batch.
    Cause(BatchRefusal),
    /// What is damaged, and at which byte or offset.
    Damage(Place, u64),
    /// A remote segment, its start offset and its last offset.
    Segment(SegmentId, u64, u64),
    /// A remote segment's state.
    State(State),
    /// A remote segment.
    Id(SegmentId),
    /// What a fetch returned.
    Run {
        tier: Tier,
        size: u64,
        stop: Stop,
        bytes: &'a [u8],
    },
}

/// Returns the shape of an answer's fields.
pub fn shape_of(answer: &Answer) -> Shape<'_>
    ensures { words_of result ≡ fields_of answer.now }
{
    match answer {
        Answer::OkAt(n)
        | Answer::DiskFaultAt(n)
        | Answer::Follows(n)
        | Answer::NeedsElection(n)
        | Answer::Leads(n)
        | Answer::StaleEpoch(n)
        | Answer::Cut(n)
        | Answer::Passed(n)
        | Answer::BelowStart(n)
        | Answer::Rebuilt(n)
        | Answer::Moved(n)
        | Answer::Copied(n)
        | Answer::Raised(n)
        | Answer::NotAbove(n)
        | Answer::AboveMark(n)
        | Answer::Up(n)
        | Answer::Offset(n) => Shape::Counted(*n),
        Answer::BehindStart(a, b)
        | Answer::Behind(a, b)
        | Answer::Dropped(a, b)
        | Answer::OutOfRange(a, b) => Shape::Paired(*a, *b),
        Answer::OkSpan(base, last, epoch) => Shape::Span(*base, *last, *epoch),
        Answer::Refused(cause) => Shape::Cause(*cause),
        Answer::Damaged(place, at) => Shape::Damage(*place, *at),
        Answer::CopiedSegment(id, start, last) => Shape::Segment(*id, *start, *last),
        Answer::Overtaken(state) => Shape::State(*state),
        Answer::Deleted(id) => Shape::Id(*id),
        Answer::Run {
            tier,
            size,
            stop,
            bytes,
        } => Shape::Run {
            tier: *tier,
            size: *size,
            stop: *stop,
            bytes: bytes.as_slice(),
        },
        // One with fields can't be forgotten here: two such answers would have one text, which the law
        // `one_text_one_trace` refuses.
        _ => Shape::Bare,
    }
}
