//! A source over a reader of std: the trusted edge where input comes in.

ghost use Rattle.std.specs.Prelude.{◌≡◌, ◌-◌, ◌^◌, ◌≤◌, min, None};
ghost use Rattle.std.specs.Result.{result_unwrap_or};
ghost use Rattle.std.specs.Io.{ReadsAtMost};
ghost use Rattle.std.specs.Io.KnownBytes.{ReadConsumes};
ghost use Rattle.std.proofs.Math.Nat.{min-le_right};
ghost use Rattle.tier_base.specs.Counts.{counted, HasCause};

use crate::fault::Failed;
use crate::stream::Source;
use std::io::Read;

/// A source over any reader of std, which isn't observable. Every error of the reader is a fault.
#[derive(Drop)]
pub struct StdSource<R: Read + Drop> {
    inner: R,
    faults: u64,
    given: u64,
}

impl<R: Read + Drop> StdSource<R> {
    /// Makes a source over a reader.
    pub fn new(inner: R) -> StdSource<R>
        ensures left { ⟦<StdSource<R> as Source>⟧.left result ≡ None }
        ensures faults { ⟦<StdSource<R> as Source>⟧.faults result ≡ 0 }
        ensures given { ⟦<StdSource<R> as Source>⟧.given result ≡ 0 }
    {
        StdSource {
            inner,
            faults: 0,
            given: 0,
        }
    }
}

impl<R: Read + Drop> Source for StdSource<R> {
    ghost left = { λ _. None };

    ghost faults = { λ s. s.faults };

    // A law ranges over every number, so the type's end is said here.
    ghost given = { λ s. min s.given (2 ^ 64 - 1) };

    // The trait's clauses, and that what the reader gives goes through unchanged.
    fn read(&mut self, buf: &mut [u8]) -> Result<usize, Failed>
        ensures bound { ReadsAtMost result buf.new }
        ensures count { counted self.new.given 0
            ≡ counted self.old.given (result_unwrap_or result 0) }
        ensures cause { HasCause self.old.faults self.new.faults result }
        ensures through { ReadConsumes (R.remaining self.old.inner) (R.remaining self.new.inner)
            result buf.new }
    {
        match self.inner.read(buf) {
            Ok(count) => {
                self.given = self.given.saturating_add(count as u64);
                Ok(count)
            }
            Err(_) => {
                self.faults = self.faults.saturating_add(1);
                Err(Failed)
            }
        }
    }

    ghost given_fits = { λ s. min-le_right s.given (2 ^ 64 - 1) };
}
