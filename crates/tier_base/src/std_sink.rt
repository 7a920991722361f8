//! A sink over a writer of std: the trusted edge where output goes.

ghost use Rattle.std.specs.Prelude.{◌≡◌, ◌<◌, ◌≤◌, length, None, IfOk};
ghost use Rattle.std.specs.Io.{WritesAtMost};
ghost use Rattle.std.specs.Io.KnownBytes.{WriteAppends};
ghost use Rattle.tier_base.specs.Counts.{Rose, HasCause};

use crate::fault::Failed;
use crate::stream::Sink;
use std::io::Write;

/// A sink over any writer of std, which isn't observable. Every error of the writer is a fault, and so is a write that
/// takes nothing of a piece that isn't empty.
#[derive(Drop)]
pub struct StdSink<W: Write + Drop> {
    inner: W,
    faults: u64,
}

impl<W: Write + Drop> StdSink<W> {
    /// Makes a sink over a writer.
    pub fn new(inner: W) -> StdSink<W>
        ensures written { ⟦<StdSink<W> as Sink>⟧.written result ≡ None }
        ensures faults { ⟦<StdSink<W> as Sink>⟧.faults result ≡ 0 }
    {
        StdSink { inner, faults: 0 }
    }

    /// Counts a fault.
    fn fault(&mut self) -> Failed
        ensures later { self.old.faults ≤ self.new.faults }
        ensures rose { Rose self.old.faults self.new.faults }
        ensures kept { self.new.inner ≡ self.old.inner }
    {
        self.faults = self.faults.saturating_add(1);
        Failed
    }
}

impl<W: Write + Drop> Sink for StdSink<W> {
    ghost written = { λ _. None };

    ghost faults = { λ s. s.faults };

    // The trait's clauses, and that the writer takes what is said to be taken.
    fn write(&mut self, piece: &[u8]) -> Result<usize, Failed>
        ensures bound { WritesAtMost result piece.now }
        ensures some { 0 < length piece.now → IfOk result (λ count. 0 < count) }
        ensures cause { HasCause self.old.faults self.new.faults result }
        ensures through { WriteAppends (W.contents self.old.inner) (W.contents self.new.inner)
            result piece.now }
    {
        match self.inner.write(piece) {
            Ok(0) if !piece.is_empty() => Err(self.fault()),
            Ok(count) => Ok(count),
            Err(_) => Err(self.fault()),
        }
    }
}
