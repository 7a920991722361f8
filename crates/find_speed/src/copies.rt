//! A view of finished copies, one after another, and the line of a log that has them all.

ghost use Rattle.std.specs.Prelude.{◌≡◌, ◌≢◌, ◌≤◌, ◌*◌, ◌^◌, ◌∷◌, [], IfOk};
ghost use Rattle.tier_base.specs.declared.plain.State.TheVariants.{CopyStarted};
ghost use Rattle.segment_meta.specs.Rules.{IsNote};

use epoch_line::Line;
use remote_view::View;
use segment_meta::{Entry, Note};
use std::alloc::{AllocError, Global};
use tier_base::{BrokerId, PartitionId, SegmentId, State, segment_id};

/// How many offsets a copy has.
const OFFSETS: u64 = 10;

/// The log end offset after so many copies.
pub fn end_of(copies: u32) -> u64
    ensures { result ≡ copies * 10 }
{
    u64::from(copies) * OFFSETS
}

/// The line of a log of epoch 0.
pub fn line(alloc: Global) -> Result<Line, AllocError>
    ensures { IfOk result (λ line. line ≡ (0, 0) ∷ []) }
{
    line_from(alloc, 0)
}

/// A line of epoch 0 alone, from an offset on.
fn line_from(alloc: Global, start: u64) -> Result<Line, AllocError>
    requires { start ≤ 2 ^ 62 }
    ensures { IfOk result (λ line. line ≡ (0, start) ∷ []) }
{
    let mut line = Line::new(alloc);
    line.assign(0, start)?;
    Ok(line)
}

/// The id of a copy.
fn id_of(number: u32) -> SegmentId {
    segment_id(PartitionId(0), BrokerId(0), 1, u64::from(number))
}

/// A copy starts.
fn started(alloc: Global, number: u32) -> Result<Note, AllocError>
    ensures { IfOk result IsNote }
{
    let start = end_of(number);
    Ok(Note::Add(Entry {
        id: id_of(number),
        partition: PartitionId(0),
        start,
        end: start + OFFSETS - 1,
        max_ts: 0,
        broker: BrokerId(0),
        event_ts: 0,
        size: 1000,
        state: State::CopyStarted,
        map: line_from(alloc, start)?,
        packed: false,
        custom: None,
    }))
}

/// A copy comes to a state.
fn comes_to(number: u32, state: State) -> Note
    requires { state ≢ CopyStarted }
    ensures { IsNote result }
{
    Note::Update {
        id: id_of(number),
        broker: BrokerId(0),
        event_ts: 0,
        state,
        custom: None,
    }
}

/// A view of so many copies.
pub fn view_of(alloc: Global, copies: u32) -> Result<View, AllocError> {
    let mut view = View::new(alloc);
    for number in 0..copies {
        view.feed(started(alloc, number)?)?;
        view.feed(comes_to(number, State::CopyFinished))?;
    }
    Ok(view)
}

/// Deletes so many copies, the first ones first.
pub fn delete(view: &mut View, copies: u32) -> Result<(), AllocError> {
    for number in 0..copies {
        view.feed(comes_to(number, State::DeleteStarted))?;
        view.feed(comes_to(number, State::DeleteFinished))?;
    }
    Ok(())
}
