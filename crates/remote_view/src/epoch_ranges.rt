//! The ranges of an epoch (`stair`), and one range that has no gap: how far copies reach is read from it.
//!
//! A copy that touches the gapless range extends it; one that begins further on starts a new one. So in a log that is
//! copied in its order, all offsets of an epoch are in that range.

ghost use Rattle.std.specs.Prelude.{◌≡◌, ◌≤◌, ◌<◌, ◌⊎◌, ◌++◌, ◌∷◌, ℕ, [], None, OnOk, OnErr, IfOk};
ghost use Rattle.remote_view.specs.Stairs.{id_at, RisesAlong, begins_with, IsEndFrom};
ghost use Rattle.remote_view.specs.Laying.{in_place, IsSegmentLaid, IsLifted, IsTaken};

use crate::changing::is_same;
use crate::known::Known;
use crate::laying::lay;
use crate::lifting::lifted;
use crate::seeking::end_from;
use crate::spans::Span;
use crate::tread::Tread;
use segment_meta::Entry;
use std::alloc::{AllocError, Global};
use std::marker::Model;
use tier_base::{Items, SegmentId};

/// A stair, and a range of offsets that all have a tread. Treads that were taken off its front stay in the list.
#[derive(Drop)]
pub(crate) struct EpochRanges {
    treads: Items<Tread>,
    gone: usize,
    run: Span,
}

impl Model for EpochRanges {
    ghost use Rattle.std.specs.Prelude.{List, drop};
    ghost use Rattle.remote_view.specs.declared.tread.Tread.{Tread};
    ghost use Rattle.remote_view.specs.Stairs.{AreLive};

    ghost Value = { List Tread };

    ghost view = { λ f. drop f.gone f.treads };

    ghost invariant = { λ f. AreLive f.run f.gone f.treads };
}

/// A run with a range of offsets more: both, where they touch, and else the one that lies after the other.
fn grown(run: Span, span: Span) -> Span
    ensures { (o : ℕ) → result.from ≤ o → o < result.to
        → ((run.from ≤ o) × (o < run.to)) ⊎ ((span.from ≤ o) × (o < span.to)) }
{
    if span.from > run.to {
        return span;
    }
    if run.from > span.to {
        return run;
    }
    Span {
        from: run.from.min(span.from),
        to: run.to.max(span.to),
    }
}

/// An offset, or where a run ends that holds it.
fn past(run: Span, at: u64) -> u64
    ensures from { at ≤ result }
    ensures each { (o : ℕ) → at ≤ o → o < result → (run.from ≤ o) × (o < run.to) }
{
    if run.from <= at { at.max(run.to) } else { at }
}

/// Whether the first tread is a segment's, and ends at an offset or after it.
fn begins_with(stair: &[Tread], id: &SegmentId, end: u64) -> bool
    ensures { result ≡ begins_with id.now end stair.now }
{
    match stair {
        [first, ..] => end <= first.to && is_same(&first.id, id),
        [] => false,
    }
}

impl EpochRanges {
    /// A stair without treads.
    pub fn new(alloc: Global) -> EpochRanges
        ensures { result ≡ [] }
    {
        EpochRanges {
            treads: Items::new(alloc),
            gone: 0,
            run: Span { from: 0, to: 0 },
        }
    }

    /// The treads.
    pub fn treads(&self) -> &[Tread]
        ensures { result.now ≡ self.now }
    {
        self.treads.as_slice().split_at(self.gone).1
    }

    /// A stair of the same treads.
    pub fn copy(&self, alloc: Global) -> Result<EpochRanges, AllocError>
        ensures { IfOk result (λ copy. copy ≡ self.now) }
    {
        let treads = Vec::from_slice(alloc, self.treads())?;
        Ok(EpochRanges {
            treads: Items::from_vec(treads),
            gone: 0,
            run: self.run,
        })
    }

    /// Lays an entry over a range of the stair.
    pub fn lay(
        self,
        alloc: Global,
        known: &Known,
        entry: &Entry,
        span: Span,
    ) -> Result<EpochRanges, AllocError>
        requires rises { RisesAlong self }
        requires ordered { span.from ≤ span.to }
        ensures { IfOk result (λ laid. IsSegmentLaid known.now entry.now span self laid) }
    {
        let run = grown(self.run, span);
        let treads = lay(alloc, known, self.treads(), entry, span)?;
        Ok(EpochRanges {
            treads,
            gone: 0,
            run,
        })
    }

    /// Puts a tread after the others. After an `Err` they are as before.
    pub fn push(&mut self, tread: Tread) -> Result<(), AllocError>
        ensures ok { OnOk result (self.new ≡ self.old ++ tread ∷ []) }
        ensures err { OnErr result (self.new ≡ self.old) }
    {
        let run = self.run;
        let span = Span {
            from: tread.from,
            to: tread.to,
        };
        self.treads.push(tread)?;
        self.run = grown(run, span);
        Ok(())
    }

    /// The stair without the treads of a segment, which end at an offset or before.
    pub fn lifted(&self, alloc: Global, id: &SegmentId, end: u64) -> Result<EpochRanges, AllocError>
        requires rises { RisesAlong self.now }
        requires ends { (o : ℕ) → end ≤ o
            → in_place id.now None (id_at self.now o) ≡ id_at self.now o }
        ensures { IfOk result (λ lifted. IsLifted id.now self.now lifted) }
    {
        let treads = lifted(alloc, self.treads(), id)?;
        let run = Span {
            from: self.run.from.max(end),
            to: self.run.to,
        };
        Ok(EpochRanges {
            treads,
            gone: 0,
            run,
        })
    }

    /// Takes the first tread off, where it is a segment's and ends where the segment's treads do, and returns whether
    /// it did.
    pub fn take_first(&mut self, id: &SegmentId, end: u64) -> bool
        requires rises { RisesAlong self.old }
        requires ends { (o : ℕ) → end ≤ o
            → in_place id.now None (id_at self.old o) ≡ id_at self.old o }
        ensures { IsTaken result id.now self.old self.new }
    {
        if self.gone >= self.treads.len() || !begins_with(self.treads(), id, end) {
            return false;
        }
        let from = self.run.from.max(end);
        self.gone += 1;
        self.run.from = from;
        true
    }

    /// The first offset from one on that has no tread.
    pub fn end_from(&self, at: u64) -> u64
        requires { RisesAlong self.now }
        ensures { IsEndFrom self.now at result }
    {
        end_from(self.treads(), past(self.run, at))
    }
}
