//! A file that replaced another one, as the difference between them.
//!
//! A manifest is replaced at each flush, and is as long as the log has segments, but only its head and its end change.
//! So what was replaced is kept in a few bytes.

ghost use Rattle.std.specs.Prelude.{◌≡◌, ◌≤◌, ◌+◌, ◌++◌, ℕ, List, length, take, drop, IfOk};
ghost use Rattle.disk_model.specs.Patch.{patched};

use bytes::Bytes;
use std::alloc::{AllocError, Global};

/// How many bytes of the new file a patch has whole.
const HEAD: usize = 32;

/// How many bytes are compared at once.
const BLOCK: usize = 128;

/// What a file has that replaces another one.
#[derive(Drop)]
pub struct Patch {
    /// How many bytes after the head are as they were.
    pub same: usize,
    /// The head, and what follows those bytes.
    pub fresh: Bytes,
}

/// Counts the bytes of the whole blocks with which both begin.
fn count_same(old: &[u8], new: &[u8]) -> usize
    ensures old { result ≤ length old.now }
    ensures new { result ≤ length new.now }
    ensures same { take result old.now ≡ take result new.now }
{
    let most = old.len().min(new.len()) / BLOCK;
    for block in 0..most {
        let at = block * BLOCK;
        if old[at..at + BLOCK] != new[at..at + BLOCK] {
            return at;
        }
    }
    most * BLOCK
}

/// The new file, as long as a head at least, as a patch that has so many bytes after the head of the old one.
fn patch_with(alloc: Global, same: usize, new: &[u8]) -> Result<Patch, AllocError>
    requires { 32 + same ≤ length new.now }
    ensures { IfOk result (λ patch. (old : List ℕ) → take same (drop 32 old) ≡ take same (drop 32 new.now)
        → patched patch old ≡ new.now) }
{
    let mut fresh = Vec::from_slice(alloc, &new[..HEAD])?;
    fresh.extend_from_slice(&new[HEAD + same..])?;
    Ok(Patch {
        same,
        fresh: Bytes::from_vec(fresh)?,
    })
}

/// The new file as a patch of any, which has all of it.
fn whole(alloc: Global, new: &[u8]) -> Result<Patch, AllocError>
    ensures { IfOk result (λ patch. (old : List ℕ) → patched patch old ≡ new.now) }
{
    Ok(Patch {
        same: 0,
        fresh: Bytes::copy_from_slice(alloc, new)?,
    })
}

/// The new file as a patch of one that begins with these bytes.
pub fn patch_of(alloc: Global, old: &[u8], new: &[u8]) -> Result<Patch, AllocError>
    ensures { IfOk result (λ patch. (rest : List ℕ) → patched patch (old.now ++ rest) ≡ new.now) }
{
    if old.len() < HEAD || new.len() < HEAD {
        return whole(alloc, new);
    }
    let same = count_same(&old[HEAD..], &new[HEAD..]);
    patch_with(alloc, same, new)
}
