//! A list of batches.

ghost use Rattle.std.specs.Prelude.{◌≡◌, ◌<◌, ◌↔◌, ◌++◌, ◌∷◌, [], Some, length, take};
ghost use Rattle.std.specs.Prelude.{slice_get, IsTrue, IfOk, OnOk, OnErr};

use crate::front::{Rest, first, pushed};
use bytes::Bytes;
use std::alloc::{AllocError, Global};
use std::marker::Model;

/// A list of batches.
#[derive(Debug, Drop)]
pub struct Batches {
    rest: Rest,
}

impl Model for Batches {
    ghost use Rattle.std.specs.Prelude.{ℕ, List};

    ghost Value = { List (List ℕ) };

    ghost use Rattle.shared_log.specs.Rests.{batches_in};

    ghost view = { λ batches. batches_in batches.rest };
}

impl Batches {
    /// Makes an empty list, without memory.
    pub fn new() -> Batches
        ensures { result ≡ [] }
    {
        Batches {
            rest: Rest::Nothing,
        }
    }

    /// Makes a second list of the same batches, which shares them.
    pub fn share(&self) -> Result<Batches, AllocError>
        ensures { IfOk result (λ batches. batches ≡ self.now) }
    {
        Ok(Batches {
            rest: self.rest.share()?,
        })
    }

    /// Counts the batches.
    pub fn len(&self) -> usize
        ensures { result ≡ length self.now }
    {
        self.rest.len()
    }

    /// Lends a batch.
    pub fn get(&self, i: usize) -> &Bytes
        requires { i < length self.now }
        ensures { slice_get self.now i ≡ Some result.now }
    {
        self.rest.get(i)
    }

    /// Puts a batch at the end.
    pub fn push(&mut self, alloc: Global, batch: Bytes) -> Result<(), AllocError>
        ensures ok { OnOk result (self.new ≡ self.old ++ batch ∷ []) }
        ensures err { OnErr result (self.new ≡ self.old) }
    {
        let rest = pushed(alloc, &self.rest, batch)?;
        self.rest = rest;
        Ok(())
    }

    /// Keeps the first batches, so many.
    pub fn truncate(&mut self, alloc: Global, count: usize) -> Result<(), AllocError>
        ensures ok { OnOk result (self.new ≡ take count self.old) }
        ensures err { OnErr result (self.new ≡ self.old) }
    {
        let rest = first(alloc, &self.rest, count)?;
        self.rest = rest;
        Ok(())
    }

    /// Answers whether there are no batches.
    pub fn is_empty(&self) -> bool
        ensures { IsTrue result ↔ (self.now ≡ []) }
    {
        self.rest.len() == 0
    }
}
