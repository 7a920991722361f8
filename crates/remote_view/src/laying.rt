//! Laying a segment over the ranges of an epoch, where it is better than what is there.
//!
//! The ranges are rebuilt from their front to their end. A range that is added joins the last one if both touch and are
//! of one segment, so ranges that touch are of different segments.

ghost use Rattle.std.specs.Prelude.{◌≡◌, ◌<◌, ◌≤◌, ◌==◌, ◌&&◌, OnOk, IfOk};
ghost use Rattle.std.specs.Str.{bytes_eq};
ghost use Rattle.remote_view.specs.Fold.{entry_of};
ghost use Rattle.remote_view.specs.Lookup.{better_of};
ghost use Rattle.remote_view.specs.Stairs.{RisesAlong};
ghost use Rattle.remote_view.specs.Laying.{EndsBy, IsPut, IsSplit, IsSegmentLaid};

use crate::changing::is_same;
use crate::known::Known;
use crate::lookup::better_of;
use crate::spans::Span;
use crate::tread::Tread;
use segment_meta::Entry;
use std::alloc::{AllocError, Global};
use tier_base::{Items, SegmentId};

/// Whether a tread ends at an offset, and is of a segment.
fn joins(last: &Tread, from: u64, id: &SegmentId) -> bool
    ensures { result ≡ (last.now.to == from && bytes_eq last.now.id.0 id.now.0) }
{
    last.to == from && is_same(&last.id, id)
}

/// Puts a range of a segment after a stair. One that is empty changes nothing.
fn put(stair: &mut Items<Tread>, from: u64, to: u64, id: SegmentId) -> Result<(), AllocError>
    requires rises { RisesAlong stair.old }
    requires ends { EndsBy from stair.old }
    ensures { OnOk result (IsPut from to id stair.old stair.new) }
{
    if from >= to {
        return Ok(());
    }
    let Some(last) = stair.pop() else {
        return stair.push(Tread { from, to, id });
    };
    if joins(&last, from, &id) {
        return stair.push(Tread {
            from: last.from,
            to,
            id,
        });
    }
    stair.push(last)?;
    stair.push(Tread { from, to, id })
}

/// Puts a tread after a stair, with another segment in a range of it.
fn put_split(
    stair: &mut Items<Tread>,
    tread: &Tread,
    span: Span,
    id: SegmentId,
) -> Result<(), AllocError>
    requires rises { RisesAlong stair.old }
    requires ends { EndsBy tread.now.from stair.old }
    requires some { tread.now.from < tread.now.to }
    requires ordered { span.from ≤ span.to }
    ensures { OnOk result (IsSplit tread.now span id stair.old stair.new) }
{
    let from = span.from.max(tread.from).min(tread.to);
    let to = span.to.max(tread.from).min(tread.to);
    put(stair, tread.from, from, tread.id)?;
    put(stair, from, to, id)?;
    put(stair, to, tread.to, tread.id)
}

/// The better of an entry and that of a segment which lies in a stair.
fn winner(known: &Known, id: SegmentId, entry: &Entry) -> SegmentId
    ensures { result ≡ (better_of (entry_of id known.now) entry.now).id }
{
    better_of(known.get(&id), entry).id
}

/// A stair with an entry laid over a range of it, rebuilt by one pass.
pub(crate) fn lay(
    alloc: Global,
    known: &Known,
    stair: &[Tread],
    entry: &Entry,
    span: Span,
) -> Result<Items<Tread>, AllocError>
    requires rises { RisesAlong stair.now }
    requires ordered { span.from ≤ span.to }
    ensures { IfOk result (λ laid. IsSegmentLaid known.now entry.now span stair.now laid) }
{
    let mut laid = Items::new(alloc);
    let mut at = 0;
    for tread in stair {
        let from = span.from.max(at).min(tread.from);
        let to = span.to.max(at).min(tread.from);
        put(&mut laid, from, to, entry.id)?;
        put_split(&mut laid, tread, span, winner(known, tread.id, entry))?;
        at = tread.to;
    }
    put(&mut laid, span.from.max(at), span.to, entry.id)?;
    Ok(laid)
}
