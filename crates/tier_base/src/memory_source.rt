//! A source over bytes in memory, some of whose calls are to fail.

ghost use Rattle.std.specs.Prelude.{◌≡◌, ◌-◌, ◌^◌, ◌≤◌, List, ℕ, take, drop, length, min, Some, vec_len};
ghost use Rattle.std.proofs.Math.Nat.{min-le_right};

use crate::fault::Failed;
use crate::stream::Source;

/// A source in memory. Calls are counted from 1; those that its plan names fail and give nothing.
#[derive(Drop)]
pub struct MemorySource {
    bytes: Vec<u8>,
    at: usize,
    plan: Vec<u32>,
    calls: u32,
    faults: u64,
    given: u64,
    ghost within: { at ≤ vec_len bytes },
}

impl MemorySource {
    /// Makes a source that gives these bytes.
    pub fn new(bytes: Vec<u8>, plan: Vec<u32>) -> MemorySource
        ensures left { ⟦<MemorySource as Source>⟧.left result ≡ Some bytes.items }
        ensures faults { ⟦<MemorySource as Source>⟧.faults result ≡ 0 }
        ensures given { ⟦<MemorySource as Source>⟧.given result ≡ 0 }
    {
        MemorySource {
            bytes,
            at: 0,
            plan,
            calls: 0,
            faults: 0,
            given: 0,
        }
    }
}

impl Source for MemorySource {
    ghost left = { λ s. Some (drop s.at s.bytes.items) };

    ghost faults = { λ s. s.faults };

    // A law ranges over every number, so the type's end is said here.
    ghost given = { λ s. min s.given (2 ^ 64 - 1) };

    fn read(&mut self, buf: &mut [u8]) -> Result<usize, Failed> {
        self.calls = self.calls.saturating_add(1);
        if self.plan.contains(&self.calls) {
            self.faults = self.faults.saturating_add(1);
            return Err(Failed);
        }
        let count = copy_front(&self.bytes[self.at..], buf);
        self.at += count;
        self.given = self.given.saturating_add(count as u64);
        Ok(count)
    }

    ghost given_fits = { λ s. min-le_right s.given (2 ^ 64 - 1) };
}

/// Copies as much as there is and has room, and answers how much.
fn copy_front(bytes: &[u8], buf: &mut [u8]) -> usize
    ensures count { result ≡ min (length bytes.now) (length buf.old) }
    ensures front { take result buf.new ≡ take result bytes.now }
{
    let count = bytes.len().min(buf.len());
    buf[..count].copy_from_slice(&bytes[..count]);
    count
}
