//! Where a local log may begin.

ghost use Rattle.std.specs.Prelude.{◌≡◌, ◌≤◌, ◌^◌};

use std::marker::Model;

/// An offset at which a local log may begin, at most 2^62.
#[derive(Debug, Drop)]
pub struct LocalStart {
    offset: u64,
}

impl Model for LocalStart {
    ghost use Rattle.std.specs.Prelude.{ℕ, ◌≤◌, ◌^◌};

    ghost Value = { ℕ };

    ghost view = { λ start. start.offset };

    ghost invariant = { λ start. start.offset ≤ 2 ^ 62 };
}

impl LocalStart {
    /// Keeps an offset.
    pub fn new(offset: u64) -> LocalStart
        requires { offset ≤ 2 ^ 62 }
        ensures { result ≡ offset }
    {
        LocalStart { offset }
    }

    /// The offset.
    pub fn offset(&self) -> u64
        ensures is { result ≡ self.now }
        ensures low { result ≤ 2 ^ 62 }
    {
        self.offset
    }
}
