//! A sink in memory with so much room, some of whose calls are to fail.

ghost use Rattle.std.specs.Prelude.{◌≡◌, ◌<◌, ◌≤◌, [], Some, IfOk, vec_len, vec_capacity};

use crate::fault::Failed;
use crate::stream::Sink;
use std::alloc::{AllocError, Global};

/// A sink in memory. Calls are counted from 1; those that its plan names fail and take nothing, and
/// so does one that finds the room used up. No call takes memory.
#[derive(Drop)]
pub struct MemorySink {
    bytes: Vec<u8>,
    room: usize,
    most: usize,
    plan: Vec<u32>,
    calls: u32,
    faults: u64,
    ghost some: { 0 < most },
    ghost filled: { vec_len bytes ≤ room },
    ghost held: { room ≤ vec_capacity bytes },
}

impl MemorySink {
    /// Makes an empty sink with room for so many bytes, which takes at most `most` bytes a call. Fails only if memory
    /// runs out.
    pub fn new(
        alloc: Global,
        room: usize,
        most: usize,
        plan: Vec<u32>,
    ) -> Result<MemorySink, AllocError>
        requires { 0 < most }
        ensures written { IfOk result (λ sink. ⟦<MemorySink as Sink>⟧.written sink ≡ Some []) }
        ensures faults { IfOk result (λ sink. ⟦<MemorySink as Sink>⟧.faults sink ≡ 0) }
    {
        Ok(MemorySink {
            bytes: Vec::with_capacity(alloc, room)?,
            room,
            most,
            plan,
            calls: 0,
            faults: 0,
        })
    }

    /// Lends what was written.
    pub fn written(&self) -> &[u8]
        ensures { ⟦<MemorySink as Sink>⟧.written self.now ≡ Some result.now }
    {
        self.bytes.as_slice()
    }
}

impl Sink for MemorySink {
    ghost written = { λ s. Some s.bytes.items };

    ghost faults = { λ s. s.faults };

    fn write(&mut self, piece: &[u8]) -> Result<usize, Failed> {
        self.calls = self.calls.saturating_add(1);
        let free = self.room - self.bytes.len();
        if free == 0 || self.plan.contains(&self.calls) {
            self.faults = self.faults.saturating_add(1);
            return Err(Failed);
        }
        let count = piece.len().min(self.most).min(free);
        match self.bytes.extend_from_slice(&piece[..count]) {
            Ok(()) => Ok(count),
            Err(_) => unreachable!(),
        }
    }
}
