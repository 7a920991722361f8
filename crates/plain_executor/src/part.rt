//! Batches of a log that follow one another.

ghost use Rattle.std.specs.Prelude.{◌≡◌, ◌<◌, ◌≤◌, Some, length, take, drop, slice_get};

use bytes::Bytes;
use shared_log::Batches;
use std::marker::Model;

/// The batches of a log between two places.
#[derive(Drop)]
pub(crate) struct Part<'a> {
    log: &'a Batches,
    from: usize,
    to: usize,
}

impl<'a> Model for Part<'a> {
    ghost use Rattle.std.specs.Prelude.{◌≤◌, ℕ, List, take, drop, length};

    ghost Value = { List (List ℕ) };

    ghost view = { λ part. drop part.from (take part.to part.log.now) };

    ghost invariant = { λ part. (part.from ≤ part.to) × (part.to ≤ length part.log.now) };
}

impl<'a> Part<'a> {
    /// Returns the whole log.
    pub(crate) fn of(log: &'a Batches) -> Part<'a>
        ensures { result ≡ log.now }
    {
        Part {
            log,
            from: 0,
            to: log.len(),
        }
    }

    /// Counts the batches.
    pub(crate) fn len(&self) -> usize
        ensures { result ≡ length self.now }
    {
        self.to - self.from
    }

    /// Lends a batch.
    pub(crate) fn get(&self, i: usize) -> &'a Bytes
        requires { i < length self.now }
        ensures { slice_get self.now i ≡ Some result.now }
    {
        // Counted from the end, so that no sum is too large.
        self.log.get(self.to - (self.len() - i))
    }

    /// Returns the first batches, so many.
    pub(crate) fn first(&self, count: usize) -> Part<'a>
        requires { count ≤ length self.now }
        ensures { result ≡ take count self.now }
    {
        Part {
            log: self.log,
            from: self.from,
            to: self.from + count,
        }
    }

    /// Returns the batches after the first so many.
    pub(crate) fn after(&self, count: usize) -> Part<'a>
        requires { count ≤ length self.now }
        ensures { result ≡ drop count self.now }
    {
        Part {
            log: self.log,
            from: self.from + count,
            to: self.to,
        }
    }
}
