//! Sources and sinks of bytes: the ends through which all input comes and all output goes.
//!
//! A stream's bytes may be observable, as those in memory are, and no call changes whether they are. Its count of
//! faults always is. Generic code can't raise the count by itself, so a returned fault has its cause there.

ghost use Rattle.std.specs.Prelude.{◌≡◌, ℕ, ◌+◌, ◌-◌, ◌^◌, ◌<◌, ◌≤◌, List, length, is_some, IfOk};
ghost use Rattle.std.specs.declared.option.Option.{Option};
ghost use Rattle.std.specs.Result.{result_unwrap_or};
ghost use Rattle.std.specs.Io.{ReadsAtMost, WritesAtMost};
ghost use Rattle.std.specs.Io.KnownBytes.{ReadConsumes, WriteAppends};
ghost use Rattle.tier_base.specs.Counts.{counted, HasCause};

use crate::fault::Failed;

/// What gives bytes, up to an end. A read that answers `Failed` has given none, and another one may
/// follow.
pub trait Source {
    /// The bytes that are left, where the source is observable.
    ghost left: { Self → Option (List ℕ) };

    /// How many calls have failed.
    ghost faults: { Self → ℕ };

    /// How many bytes it has given.
    ghost given: { Self → ℕ };

    /// Gives the next bytes. `Ok(0)` for a buffer that isn't empty is the end of the input.
    fn read(&mut self, buf: &mut [u8]) -> Result<usize, Failed>
        ensures bound { ReadsAtMost result buf.new }
        ensures bytes { ReadConsumes (left self.old) (left self.new) result buf.new }
        ensures count { given self.new ≡ counted (given self.old) (result_unwrap_or result 0) }
        ensures is_observable { is_some (left self.new) ≡ is_some (left self.old) }
        ensures cause { HasCause (faults self.old) (faults self.new) result };

    /// The count of bytes stays at its type's greatest value.
    ghost given_fits: { (s : Self) → given s ≤ 2 ^ 64 - 1 };
}

/// What takes bytes, one after another. A write that answers `Failed` has taken none, and another one may follow.
pub trait Sink {
    /// The bytes that were written, where the sink is observable.
    ghost written: { Self → Option (List ℕ) };

    /// How many calls have failed.
    ghost faults: { Self → ℕ };

    /// Takes a front of the piece, at least a byte of one that isn't empty.
    fn write(&mut self, piece: &[u8]) -> Result<usize, Failed>
        ensures bound { WritesAtMost result piece.now }
        ensures some { 0 < length piece.now → IfOk result (λ count. 0 < count) }
        ensures bytes { WriteAppends (written self.old) (written self.new) result piece.now }
        ensures is_observable { is_some (written self.new) ≡ is_some (written self.old) }
        ensures cause { HasCause (faults self.old) (faults self.new) result };
}
