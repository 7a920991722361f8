//! The leader epochs of a log, and their calls.
//!
//! Epochs and start offsets both rise, so every call finds its entry by binary search.

ghost use Rattle.std.specs.Prelude.{◌≡◌, ◌≤◌, ◌<◌, ◌^◌, [], ◌∷◌, ◌++◌, min, OnOk, OnErr, IfOk};
ghost use Rattle.std.specs.Option.{ForSome};
ghost use Rattle.log_terms.specs.Line.{epoch_at};
ghost use Rattle.epoch_line.specs.Line.{IsLine, last_entry, last_epoch, cut_end, assign, end_of, within, SaysSame};
ghost use Rattle.epoch_line.specs.Meet.{IsMeetBelow};

use crate::entries::{count_below, end_of, epoch_at, last_epoch, part};
use crate::meeting::meet_below;
use std::alloc::{AllocError, Global};
use std::marker::Model;

/// The leader epochs of a log, each with the offset where it starts.
#[derive(Debug, Drop)]
pub struct Line {
    pairs: Vec<(u32, u64)>,
}

impl Model for Line {
    ghost use Rattle.std.specs.Prelude.{List, ℕ};
    ghost use Rattle.epoch_line.specs.Line.{IsLine};

    ghost Value = { List (ℕ × ℕ) };

    ghost view = { λ line. line.pairs.items };

    ghost invariant = { λ line. IsLine line.pairs.items };
}

impl Line {
    /// No leader epochs.
    pub fn new(alloc: Global) -> Line
        ensures { result ≡ [] }
    {
        Line {
            pairs: Vec::new(alloc),
        }
    }

    /// A copy of the leader epochs. Fails only if memory runs out.
    pub fn copy(&self, alloc: Global) -> Result<Line, AllocError>
        ensures { IfOk result (λ line. line ≡ self.now) }
    {
        let pairs = Vec::from_slice(alloc, self.pairs.as_slice())?;
        Ok(Line { pairs })
    }

    /// The entries, each an epoch and its start offset.
    pub fn entries(&self) -> &[(u32, u64)]
        ensures entries { result.now ≡ self.now }
        ensures line { IsLine self.now }
    {
        self.pairs.as_slice()
    }

    /// The last entry, an epoch and its start offset.
    #[tactic(auto, using(crate::proofs::Rising::last_entry_get))]
    pub fn last(&self) -> Option<(u32, u64)>
        ensures { result ≡ last_entry self.now }
    {
        match self.entries().last() {
            Some(entry) => Some(*entry),
            None => None,
        }
    }

    /// The epoch of the last entry.
    pub fn last_epoch(&self) -> Option<u32>
        ensures { result ≡ last_epoch self.now }
    {
        last_epoch(self.entries())
    }

    /// The leader epoch of an offset, or `None` below the first start offset.
    pub fn epoch_at(&self, offset: u64) -> Option<u32>
        ensures { result ≡ epoch_at self.now offset }
    {
        epoch_at(self.entries(), offset)
    }

    /// The end offset of an epoch: where the next one starts, or the log's end.
    pub fn end_of(&self, epoch: u32, log_end: u64) -> Option<u64>
        ensures { result ≡ end_of self.now epoch log_end }
    {
        end_of(self.entries(), epoch, log_end)
    }

    /// The greatest offset, up to both ends, up to which two logs with these leader epochs agree (KIP-101).
    pub fn meet(&self, own_end: u64, other: &Line, other_end: u64) -> u64
        ensures { IsMeetBelow self.now other.now (min own_end other_end) result }
    {
        meet_below(self.entries(), other.entries(), own_end.min(other_end))
    }

    /// The leader epochs of a segment with this base and last offset. The first one starts at the base. Fails only if
    /// memory runs out.
    pub fn within(&self, alloc: Global, base: u64, last: u64) -> Result<Line, AllocError>
        requires { base ≤ 2 ^ 62 }
        ensures part { IfOk result (λ part. part ≡ within self.now base last) }
        ensures same { IfOk result (λ part. SaysSame self.now part base last) }
    {
        let pairs = part(alloc, self.entries(), base, last)?;
        Ok(Line { pairs })
    }

    /// Starts a new epoch at an offset. Entries that start there or later are dropped. Fails only if memory runs out.
    pub fn assign(&mut self, epoch: u32, start: u64) -> Result<(), AllocError>
        requires epoch_fits { epoch < 2 ^ 31 }
        requires start_fits { start ≤ 2 ^ 62 }
        requires above { ForSome (last_epoch self.old) (λ last. last < epoch) }
        ensures ok { OnOk result (self.new ≡ assign self.old epoch start) }
        ensures err { OnErr result (self.new ≡ self.old) }
    {
        let kept = count_below(self.entries(), start);
        self.pairs.reserve(1)?;
        self.pairs.truncate(kept);
        let _ = self.pairs.push((epoch, start));
        Ok(())
    }

    /// Adds an entry, whose epoch and start offset are above the last one's. Fails only if memory runs out.
    pub fn push(&mut self, epoch: u32, start: u64) -> Result<(), AllocError>
        requires epoch_fits { epoch < 2 ^ 31 }
        requires start_fits { start ≤ 2 ^ 62 }
        requires above { ForSome (last_entry self.old) (λ last. (last.0 < epoch) × (last.1 < start)) }
        ensures ok { OnOk result (self.new ≡ self.old ++ (epoch, start) ∷ []) }
        ensures err { OnErr result (self.new ≡ self.old) }
    {
        let _rises = self.entries();
        self.add((epoch, start))
    }

    /// Adds an entry that keeps both columns rising.
    pub(crate) fn add(&mut self, entry: (u32, u64)) -> Result<(), AllocError>
        requires { IsLine (self.old ++ entry ∷ []) }
        ensures ok { OnOk result (self.new ≡ self.old ++ entry ∷ []) }
        ensures err { OnErr result (self.new ≡ self.old) }
    {
        self.pairs.push(entry)?;
        Ok(())
    }

    /// Drops the entries that start at or past an end.
    pub fn cut_end(&mut self, end: u64)
        ensures { self.new ≡ cut_end self.old end }
    {
        let kept = count_below(self.entries(), end);
        self.pairs.truncate(kept);
    }
}
