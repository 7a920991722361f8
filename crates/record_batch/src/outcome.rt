//! Bytes that were checked, with what the check found.
//!
//! A checksum takes time in proportion to the bytes. Who has a `Checked` may use its outcome for equal bytes without
//! making the checksum again.

ghost use Rattle.std.specs.Prelude.{◌≡◌};
ghost use Rattle.record_batch.specs.Check.{checked, head_in, Tested, IsTested};

use crate::checking::check;
use crate::head::Head;
use crate::refusal::BatchRefusal;
use bytes::Bytes;
use std::marker::Model;

/// Bytes, and the head of the batch that they are or the first test that fails.
#[derive(Drop)]
pub struct Checked {
    bytes: Bytes,
    outcome: Result<Head, BatchRefusal>,
}

impl Model for Checked {
    ghost use Rattle.record_batch.specs.Check.{Tested, IsTested};

    ghost Value = { Tested };

    ghost view = { λ c. record { bytes = c.bytes; outcome = c.outcome } };

    ghost invariant = { λ c. IsTested (record { bytes = c.bytes; outcome = c.outcome }) };
}

/// Checks bytes, or takes what is known of equal bytes. `BatchRefusal` has the causes of a failure.
pub fn check_known(bytes: &[u8], known: Option<&Checked>) -> Result<Head, BatchRefusal>
    ensures { result ≡ head_in (checked bytes.now) }
{
    match known {
        Some(known) if known.bytes().as_slice() == bytes => *known.outcome(),
        _ => check(bytes),
    }
}

impl Checked {
    /// Checks the bytes. They are kept as they came, without memory.
    pub fn of(bytes: Bytes) -> Checked
        ensures { result.bytes ≡ bytes }
    {
        let outcome = check(bytes.as_slice());
        Checked { bytes, outcome }
    }

    /// Lends the bytes.
    pub fn bytes(&self) -> &Bytes
        ensures bytes { result.now ≡ self.now.bytes }
    {
        &self.bytes
    }

    /// Lends what the check of the bytes found.
    pub fn outcome(&self) -> &Result<Head, BatchRefusal>
        ensures outcome { result.now ≡ self.now.outcome }
        ensures exact { result.now ≡ head_in (checked self.now.bytes) }
    {
        &self.outcome
    }
}
