//! Two lists of batches that share what they have in common, beside two vectors that don't.

use bytes::Bytes;
use shared_log::Batches;
use std::alloc::{AllocError, Global};
use std::mem;

/// A list, and the bytes of which its batches have one each.
#[derive(Drop)]
struct Pair {
    batches: Batches,
    bytes: Vec<u8>,
}

impl Pair {
    fn new(alloc: Global) -> Pair {
        Pair {
            batches: Batches::new(),
            bytes: Vec::new(alloc),
        }
    }

    fn share(&self) -> Result<Pair, AllocError> {
        Ok(Pair {
            batches: self.batches.share()?,
            bytes: self.bytes.clone()?,
        })
    }

    fn push(&mut self, alloc: Global, byte: u8) -> Result<(), AllocError> {
        let batch = Bytes::from_vec(Vec::from_slice(alloc, &[byte])?)?;
        self.batches.push(alloc, batch)?;
        self.bytes.push(byte)?;
        Ok(())
    }

    fn truncate(&mut self, alloc: Global, count: usize) -> Result<(), AllocError> {
        self.batches.truncate(alloc, count)?;
        self.bytes.truncate(count);
        Ok(())
    }

    fn is_same(&self) -> bool {
        for i in 0..self.batches.len() {
            match self.bytes.get(i) {
                Some(byte) if self.batches.get(i).as_slice() == [*byte].as_slice() => {}
                _ => return false,
            }
        }
        self.batches.len() == self.bytes.len()
    }
}

/// Changes the first list, takes it for the second too, or changes the two about.
fn step(alloc: Global, left: &mut Pair, right: &mut Pair, number: u64) -> Result<(), AllocError> {
    match number % 16 {
        0 => left.truncate(alloc, (number / 16 % 512) as usize)?,
        1 | 2 => *right = left.share()?,
        3 | 4 => mem::swap(left, right),
        _ => left.push(alloc, number.to_le_bytes()[1])?,
    }
    Ok(())
}

/// So many steps, by numbers that look random. Returns after how many the lists had other batches, if they had.
fn run(alloc: Global, steps: u32) -> Result<Option<u32>, AllocError> {
    let mut left = Pair::new(alloc);
    let mut right = Pair::new(alloc);
    let mut seed = 7u64;
    for n in 0..steps {
        // Knuth's MMIX generator, whose high bits alone look random.
        seed = seed
            .wrapping_mul(6_364_136_223_846_793_005)
            .wrapping_add(1_442_695_040_888_963_407);
        step(alloc, &mut left, &mut right, seed >> 24)?;
        if !left.is_same() || !right.is_same() {
            return Ok(Some(n));
        }
    }
    Ok(None)
}

#[test]
fn lists_that_share_change_apart(rt: HostRuntime) {
    assert!(rt; matches!(run(rt.alloc(), 3_000), Ok(None)));
}
