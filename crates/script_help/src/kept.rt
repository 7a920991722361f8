//! A source that keeps what it passes on.

ghost use Rattle.std.specs.Prelude.{◌≡◌};

use std::alloc::Global;
use tier_base::{Failed, Source};

/// A source over another one, which keeps what that one gives, or passes it on alone. After running out of memory it
/// keeps nothing more.
#[derive(Drop)]
pub struct KeptSource<R: Source + Drop> {
    inner: R,
    kept: Option<Vec<u8>>,
}

impl<R: Source + Drop> KeptSource<R> {
    /// Begins to keep what a source gives.
    pub fn new(alloc: Global, inner: R) -> KeptSource<R>
        ensures left { ⟦<KeptSource<R> as Source>⟧.left result ≡ R.left inner }
        ensures faults { ⟦<KeptSource<R> as Source>⟧.faults result ≡ R.faults inner }
        ensures given { ⟦<KeptSource<R> as Source>⟧.given result ≡ R.given inner }
    {
        KeptSource {
            inner,
            kept: Some(Vec::new(alloc)),
        }
    }

    /// Passes on what a source gives, and keeps nothing.
    pub fn passing(inner: R) -> KeptSource<R>
        ensures left { ⟦<KeptSource<R> as Source>⟧.left result ≡ R.left inner }
        ensures faults { ⟦<KeptSource<R> as Source>⟧.faults result ≡ R.faults inner }
        ensures given { ⟦<KeptSource<R> as Source>⟧.given result ≡ R.given inner }
    {
        KeptSource { inner, kept: None }
    }

    /// What it has given so far, or nothing where none is kept or there was no memory for it.
    pub fn kept(&self) -> &[u8] {
        match &self.kept {
            Some(bytes) => bytes.as_slice(),
            None => &[],
        }
    }
}

/// Bytes with more after them, or nothing where there is no memory for them.
fn with_more(kept: Option<Vec<u8>>, more: &[u8]) -> Option<Vec<u8>> {
    let mut bytes = kept?;
    match bytes.extend_from_slice(more) {
        Ok(()) => Some(bytes),
        Err(_) => None,
    }
}

impl<R: Source + Drop> Source for KeptSource<R> {
    ghost left = { λ s. R.left s.inner };

    ghost faults = { λ s. R.faults s.inner };

    ghost given = { λ s. R.given s.inner };

    fn read(&mut self, buf: &mut [u8]) -> Result<usize, Failed> {
        let count = self.inner.read(buf)?;
        self.kept = with_more(self.kept.take(), &buf[..count]);
        Ok(count)
    }

    ghost given_fits = { λ s. R.given_fits s.inner };
}
