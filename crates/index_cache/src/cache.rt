//! The cache: a bounded list of pairs, the most recently used first.

ghost use Rattle.std.specs.Prelude.{◌≡◌, ◌≤◌, [], length, option_copied, IsSome, IsOk, IfOk, OnOk, OnErr};
ghost use Rattle.std.specs.Borrow.{sem};
ghost use Rattle.index_cache.specs.Cache.{IsCache, found, kept};

use lru::LruCache;
use sparse_index::OffsetIndex;
use std::alloc::{AllocError, Global};
use std::marker::Model;
use std::num::NonZeroUsize;
use tier_base::SegmentId;
use uuid::Uuid;

/// The offset indexes of the remote segments that were used most recently.
#[derive(Debug, Drop)]
pub struct IndexCache {
    pairs: LruCache<Uuid, OffsetIndex>,
}

impl Model for IndexCache {
    ghost use Rattle.index_cache.specs.Cache.{Cache};

    ghost Value = { Cache };

    ghost view = { λ c. record { size = c.pairs.cap; pairs = c.pairs.entries } };
}

impl IndexCache {
    ghost use Rattle.index_cache.specs.Lending.{EndsBroughtFront};

    /// An empty cache for at most `size` indexes. Fails only if memory runs out.
    pub fn new(alloc: Global, size: usize) -> Result<IndexCache, AllocError>
        requires { 1 ≤ size }
        ensures { IfOk result (λ cache. cache ≡ record { size = size; pairs = [] }) }
    {
        let cap = NonZeroUsize::MIN.saturating_add(size - 1);
        let pairs = LruCache::new(alloc, cap)?;
        Ok(IndexCache { pairs })
    }

    /// The index of a segment, if it is cached. It is then the most recently used.
    pub fn get(&mut self, id: SegmentId) -> Option<&OffsetIndex>
        ensures* order { sem 𝓛 (EndsBroughtFront self.entry id.0) }
        ensures answer { option_copied result ≡ found id.0 self.old.pairs }
    {
        self.pairs.get(&id.0)
    }

    /// Caches the index of a segment, as the most recently used. A full cache drops the least recently used one. Fails
    /// only if memory runs out.
    pub fn keep(&mut self, id: SegmentId, index: OffsetIndex) -> Result<(), AllocError>
        ensures ok { OnOk result (self.new ≡ kept self.old id.0 index) }
        ensures err { OnErr result (self.new ≡ self.old) }
        ensures again { IsSome (found id.0 self.old.pairs) → IsOk result }
    {
        self.pairs.put(id.0, index)?;
        Ok(())
    }

    /// The number of cached indexes.
    pub fn len(&self) -> usize
        ensures count { result ≡ length self.now.pairs }
        ensures holds { IsCache self.now }
    {
        self.pairs.len()
    }

    /// The most indexes that the cache can have.
    pub fn size(&self) -> usize
        ensures { result ≡ self.now.size }
    {
        self.pairs.cap().get()
    }
}
