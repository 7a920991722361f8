//! A window over a source: the bytes that were read and not yet passed.
//!
//! A batch has at most 1,048,576 bytes. Once fewer are left, the window is filled up to twice as many. So each byte is
//! moved at most once, and memory doesn't grow with the file.

ghost use Rattle.std.specs.Prelude.{◌≡◌, ◌<◌, ◌≤◌, ◌+◌, [], take, drop, length, vec_len, IfOk, OnOk};
ghost use Rattle.std.specs.Io.KnownBytes.{ReadConsumes};
ghost use Rattle.dump_lines.specs.Dump.{Fills, AppendsRead};

use crate::dumping::DumpRefusal;
use std::alloc::{AllocError, Global};
use std::marker::Model;
use tier_base::{Failed, Source};

/// The most bytes of a batch.
const MOST: usize = 1_048_576;
/// The size up to which a window is filled.
const FULL: usize = 2 * MOST;
/// The size of one read.
const PIECE: usize = 65_536;

/// The bytes that were read and not yet passed.
#[derive(Drop)]
pub struct Window {
    bytes: Vec<u8>,
    from: usize,
}

impl Model for Window {
    ghost use Rattle.std.specs.Prelude.{List, ℕ, ◌≤◌, drop, length};

    ghost Value = { List ℕ };

    ghost view = { λ w. drop w.from w.bytes.items };

    ghost invariant = { λ w. w.from ≤ length w.bytes.items };
}

impl Window {
    /// Makes an empty window.
    pub fn new(alloc: Global) -> Window
        ensures { result ≡ [] }
    {
        Window {
            bytes: Vec::new(alloc),
            from: 0,
        }
    }

    /// The bytes of the window.
    pub fn rest(&self) -> &[u8]
        ensures { result.now ≡ self.now }
    {
        let (_, rest) = self.bytes.as_slice().split_at(self.from);
        rest
    }

    /// Drops `count` bytes from the front.
    pub fn pass(&mut self, count: usize)
        requires { count ≤ length self.old }
        ensures { self.new ≡ drop count self.old }
    {
        self.from += count;
    }

    /// Reads more, if fewer bytes are left than the largest batch has.
    #[tactic(auto, using(crate::proofs::Reading::none_yet, crate::proofs::Reading::full))]
    pub fn fill<R: Source>(&mut self, alloc: Global, source: &mut R) -> Result<(), DumpRefusal>
        ensures { OnOk result (Fills (R.left source.old) (R.left source.new) self.old self.new) }
    {
        if self.rest().len() >= MOST {
            return Ok(());
        }
        let mut bytes = Vec::from_slice(alloc, self.rest())?;
        read_up_to(source, &mut bytes)?;
        self.bytes = bytes;
        self.from = 0;
        Ok(())
    }
}

/// Reads until the window is full or the source ends.
#[tactic(auto, using(crate::proofs::Reading::one_more, crate::proofs::Reading::ended, crate::proofs::Reading::full))]
fn read_up_to<R: Source>(source: &mut R, bytes: &mut Vec<u8>) -> Result<(), DumpRefusal>
    ensures { OnOk result (Fills (R.left source.old) (R.left source.new) bytes.old.items bytes.new.items) }
{
    while bytes.len() < FULL {
        let count = read_piece(source, bytes)?;
        if count == 0 {
            return Ok(());
        }
    }
    Ok(())
}

/// Reads once, and appends what was read.
fn read_piece<R: Source>(source: &mut R, bytes: &mut Vec<u8>) -> Result<usize, DumpRefusal>
    requires { vec_len bytes.old ≤ 2097152 }
    ensures { IfOk result (λ count. AppendsRead (R.left source.old) (R.left source.new)
        bytes.old.items bytes.new.items count) }
{
    let held = bytes.len();
    make_room(bytes, held)?;
    let count = read_at(source, bytes, held)?;
    bytes.truncate(held + count);
    Ok(count)
}

/// Makes room for one read.
#[tactic(auto, using(crate::proofs::Reading::roomy))]
fn make_room(bytes: &mut Vec<u8>, held: usize) -> Result<(), AllocError>
    requires held { held ≡ vec_len bytes.old }
    requires small { held ≤ 2097152 }
    ensures front { OnOk result (take held bytes.new.items ≡ bytes.old.items) }
    ensures len { OnOk result (vec_len bytes.new ≡ held + 65536) }
{
    bytes.resize(held + PIECE, 0)
}

/// Reads once, into the room from `at` on.
fn read_at<R: Source>(source: &mut R, bytes: &mut Vec<u8>, at: usize) -> Result<usize, Failed>
    requires { at < vec_len bytes.old }
    ensures front { take at bytes.new.items ≡ take at bytes.old.items }
    ensures len { vec_len bytes.new ≡ vec_len bytes.old }
    ensures fits { IfOk result (λ count. at + count ≤ vec_len bytes.new) }
    ensures bytes { ReadConsumes (R.left source.old) (R.left source.new)
        result (drop at bytes.new.items) }
{
    source.read(&mut bytes[at..])
}
