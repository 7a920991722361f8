//! The turn of a rebuild that reads the remote tier: at most one device call.

ghost use Rattle.std.specs.Prelude.{◌≡◌, ◌-◌, ◌<◌, ◌^◌, Ok, IfSome};
ghost use Rattle.plain_log.specs.declared.answer.Answer.TheVariants.{Damaged};
ghost use Rattle.plain_log.specs.declared.answer.Place.TheVariants.{Key, Meta};
ghost use Rattle.remote_find.specs.Pieces.{piece_at};
ghost use Rattle.plain_log.specs.declared.turn.Turn.TheVariants.{Ends};
ghost use Rattle.rebuild_task.specs.Turns.{epochs_of, TakesEpochs, RebuildRow};

use crate::turn::{RebuildRequest, RebuildStep};
use bytes::Bytes;
use epoch_line::{Line, TextRefusal};
use object_store::{Spot, Store, get_spot, place};
use plain_log::{Answer, Place, Turn};
use remote_find::find;
use remote_view::View;
use std::alloc::{AllocError, Global};
use tier_base::{Part, Trouble};

/// Reads the leader's epochs up to the wanted offset. `line` has the leader's, up to there. Fails only if memory runs
/// out.
pub fn rebuild_turn<S: Store>(
    alloc: Global,
    wanted: RebuildRequest,
    line: &Line,
    view: &View,
    store: &mut S,
) -> Result<Turn<RebuildStep>, AllocError>
    ensures { RebuildRow S.content S.control wanted line.now view.now result store.old store.new }
{
    let Some(spot) = epochs_of(wanted, line, view) else {
        return Ok(lost(view));
    };
    match get_spot(store, &spot) {
        Ok(given) => take(alloc, wanted.offset, &spot, given),
        Err(Trouble::Failed) => Ok(Turn::Ends(Answer::StoreFault)),
        Err(Trouble::NoMemory) => Err(AllocError),
    }
}

/// Where the epochs are of the segment that holds the last offset below the wanted one.
fn epochs_of(wanted: RebuildRequest, line: &Line, view: &View) -> Option<Spot>
    ensures spot { result ≡ epochs_of wanted.partition view.now.entries
        (piece_at view.now.entries line.now wanted.offset (wanted.offset - 1)) }
    ensures near { IfSome result (λ spot. spot.at < 2 ^ 34) }
{
    let Some(piece) = find(view, line, wanted.offset, wanted.offset.saturating_sub(1)) else {
        return None;
    };
    let Some(entry) = view.entry(piece.id) else {
        return None;
    };
    place(
        wanted.partition,
        piece.id,
        entry.packed,
        entry.custom.as_ref(),
        Part::Epochs,
    )
}

/// Reads a line in what the store gave, and takes what starts below the wanted offset.
fn take(
    alloc: Global,
    wanted: u64,
    spot: &Spot,
    given: Option<Bytes>,
) -> Result<Turn<RebuildStep>, AllocError>
    requires { spot.now.at < 2 ^ 34 }
    ensures { TakesEpochs wanted spot.now (Ok given) result }
{
    let Some(bytes) = given else {
        return Ok(damaged(spot, 0));
    };
    if let Some(end) = spot.short(bytes.as_slice()) {
        return Ok(damaged(spot, end));
    }
    match Line::from_text(alloc, bytes.as_slice()) {
        Ok(mut line) => {
            line.cut_end(wanted);
            Ok(Turn::Goes(RebuildStep::Restart(line)))
        }
        Err(TextRefusal::BadText { .. }) => Ok(damaged(spot, spot.at)),
        Err(TextRefusal::NoMemory) => Err(AllocError),
    }
}

/// A view that lacks what the metadata events must hold is damage of the metadata log.
fn lost(view: &View) -> Turn<RebuildStep>
    ensures { result ≡ Ends (Damaged Meta view.now.notes) }
{
    Turn::Ends(Answer::Damaged(Place::Meta, view.seen()))
}

/// An object that is absent, or is invalid from a place on.
fn damaged(spot: &Spot, at: u64) -> Turn<RebuildStep>
    ensures { result ≡ Ends (Damaged (Key spot.now.key) at) }
{
    Turn::Ends(Answer::Damaged(Place::Key(spot.key), at))
}
