//! Steps that change a stair at one end alone: they are made in place, in a time that doesn't grow with the copies.
//!
//! In a log that is copied in its order, and whose copies are deleted in it, almost all steps are of these.

ghost use Rattle.std.specs.Prelude.{◌≡◌, ◌≤◌, ◌+◌, ℕ, ◌∷◌, [], None, IsTrue, OnErr, IfOk, IfSome};
ghost use Rattle.remote_view.specs.Fold.{IsEntryValid};
ghost use Rattle.remote_view.specs.Stairs.{id_at, RisesAlong};
ghost use Rattle.remote_view.specs.Laying.{in_place, Fits};
ghost use Rattle.remote_view.specs.Storing.{stair_on, IsLaidBehind, IsTakenFirst};

use crate::changing::is_same;
use crate::lookup::is_readable;
use crate::spread::Spread;
use crate::stairs::Stairs;
use crate::tread::Tread;
use segment_meta::Entry;
use std::alloc::{AllocError, Global};
use tier_base::{SegmentId, State};

/// Whether a tread of a segment from an offset on can be put after a stair.
fn fits(stair: &[Tread], from: u64, id: &SegmentId) -> bool
    requires { RisesAlong stair.now }
    ensures { IsTrue result → Fits from id.now stair.now }
{
    match stair.last() {
        Some(last) => last.to <= from && !is_same(&last.id, id),
        None => true,
    }
}

/// The epoch of a line that has no other, and where it starts.
fn only(line: &[(u32, u64)]) -> Option<(u32, u64)>
    ensures { IfSome result (λ pair. line.now ≡ pair ∷ []) }
{
    match line {
        [pair] => Some(*pair),
        _ => None,
    }
}

/// Lays an entry after the stair of its only epoch, where it can be read from now on and that stair ends below it, and
/// returns whether it did. After an `Err` nothing has changed.
pub(crate) fn lay_behind(
    alloc: Global,
    stairs: &mut Stairs,
    entry: &Entry,
    state: State,
) -> Result<bool, AllocError>
    requires kept { IsEntryValid entry.now }
    requires rises { (epoch : ℕ) → RisesAlong (stair_on stairs.old epoch) }
    ensures ok { IfOk result (λ done. IsLaidBehind done state entry.now stairs.old stairs.new) }
    ensures err { OnErr result ((epoch : ℕ) → stair_on stairs.new epoch ≡ stair_on stairs.old epoch) }
{
    let Some((epoch, from)) = only(entry.map.entries()) else {
        return Ok(false);
    };
    if !is_readable(state) || !fits(stairs.stair(epoch), from, &entry.id) {
        return Ok(false);
    }
    let tread = Tread {
        from,
        to: entry.end + 1,
        id: entry.id,
    };
    stairs.push(alloc, epoch, tread)?;
    Ok(true)
}

/// Takes an entry's tread off the front of the stair of its only epoch, where it can't be read from now on and no other
/// lies under it, and returns whether it did.
pub(crate) fn take_first(stairs: &mut Stairs, spread: Spread, entry: &Entry, state: State) -> bool
    requires kept { IsEntryValid entry.now }
    requires rises { (epoch : ℕ) → RisesAlong (stair_on stairs.old epoch) }
    requires ends { (epoch o : ℕ) → entry.now.end + 1 ≤ o
        → in_place entry.now.id None (id_at (stair_on stairs.old epoch) o)
        ≡ id_at (stair_on stairs.old epoch) o }
    ensures { IsTakenFirst result spread.alone state entry.now stairs.old stairs.new }
{
    if is_readable(state) || !is_readable(entry.state) || entry.start < spread.alone {
        return false;
    }
    match only(entry.map.entries()) {
        Some((epoch, _)) => stairs.take_first(epoch, &entry.id, entry.end + 1),
        None => false,
    }
}
