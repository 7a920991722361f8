//! The bytes that a follow has taken of its leader's log: whole batches, each of which was checked when it was read.
//! That they were is kept with them, so that whoever appends them needn't check them again.

ghost use Rattle.std.specs.Prelude.{◌≡◌, []};
ghost use Rattle.log_terms.specs.Log.{joined};
ghost use Rattle.record_batch.specs.Check.{AreChecked};
ghost use Rattle.laws_partition.specs.Taken.{parts};

use bytes::Bytes;
use std::marker::Model;

/// Checked batches that were taken, one after another. Contracts see the list of them.
#[derive(Debug, Drop)]
pub struct Taken {
    bytes: Bytes,
}

impl Model for Taken {
    ghost use Rattle.std.specs.Prelude.{List, ℕ};
    ghost use Rattle.record_batch.specs.Check.{AreChecked};
    ghost use Rattle.laws_partition.specs.Taken.{parts};

    ghost Value = { List (List ℕ) };

    ghost view = { λ t. parts t.bytes };

    ghost invariant = { λ t. AreChecked t.bytes };
}

impl Taken {
    /// Keeps bytes that are checked batches.
    pub fn new(bytes: Bytes) -> Taken
        requires { AreChecked bytes }
        ensures { result ≡ parts bytes }
    {
        Taken { bytes }
    }

    /// Has no batches, and takes no memory.
    pub fn none() -> Taken
        ensures { result ≡ [] }
    {
        Taken {
            bytes: Bytes::new(),
        }
    }

    /// Lends the bytes.
    #[tactic(auto, using(crate::proofs::Parts::join_parts))]
    pub fn as_slice(&self) -> &[u8]
        ensures cut { parts result.now ≡ self.now }
        ensures all { result.now ≡ joined self.now }
        ensures checked { AreChecked result.now }
    {
        self.bytes.as_slice()
    }
}
