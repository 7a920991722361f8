//! What the calls of a disk in memory do to one file.

ghost use Rattle.std.specs.Prelude.{◌≡◌, ◌++◌, [], take, IfOk, OnOk, OnErr};
ghost use Rattle.disk_model.specs.Content.{part_of};
ghost use Rattle.disk_model.specs.FileBytes.{all_of, safe_of};

use crate::file_bytes::FileBytes;
use crate::pieces::Pieces;
use bytes::Bytes;
use std::alloc::{AllocError, Global};

impl FileBytes {
    /// Makes a file of these bytes, none of which is synced.
    pub fn unsynced(alloc: Global, bytes: Bytes) -> Result<FileBytes, AllocError>
        ensures bytes { IfOk result (λ held. all_of held ≡ bytes) }
        ensures safe { IfOk result (λ held. safe_of held ≡ []) }
    {
        let mut pieces = Pieces::new(alloc);
        pieces.push(bytes)?;
        Ok(FileBytes {
            bytes: pieces,
            synced: 0,
        })
    }

    /// Makes a file of these bytes, all of which are synced.
    pub fn synced(alloc: Global, bytes: Bytes) -> Result<FileBytes, AllocError>
        ensures bytes { IfOk result (λ held. all_of held ≡ bytes) }
        ensures safe { IfOk result (λ held. safe_of held ≡ bytes) }
    {
        let mut held = FileBytes::unsynced(alloc, bytes)?;
        settle(&mut held);
        Ok(held)
    }
}

/// Adds bytes at a file's end.
pub fn extend(held: &mut FileBytes, bytes: Bytes) -> Result<(), AllocError>
    ensures ok { OnOk result (all_of held.new ≡ all_of held.old ++ bytes) }
    ensures err { OnErr result (all_of held.new ≡ all_of held.old) }
    ensures safe { safe_of held.new ≡ safe_of held.old }
{
    held.bytes.push(bytes)
}

/// Cuts a file to a length.
pub fn shorten(held: &mut FileBytes, len: usize)
    ensures bytes { all_of held.new ≡ take len (all_of held.old) }
    ensures safe { safe_of held.new ≡ take len (safe_of held.old) }
{
    held.synced = held.synced.min(len);
    held.bytes.truncate(len);
}

/// Counts all bytes of a file as synced.
pub fn settle(held: &mut FileBytes)
    ensures bytes { all_of held.new ≡ all_of held.old }
    ensures safe { safe_of held.new ≡ all_of held.old }
{
    held.synced = held.bytes.len();
}

/// Drops the bytes that aren't synced.
pub fn drop_unsynced(held: &mut FileBytes)
    ensures bytes { all_of held.new ≡ safe_of held.old }
    ensures safe { safe_of held.new ≡ safe_of held.old }
{
    shorten(held, held.synced);
}

/// Gives so many bytes of a file from a place on, and fewer only where it ends.
pub fn read(
    alloc: Global,
    held: &mut FileBytes,
    at: usize,
    most: usize,
) -> Result<Bytes, AllocError>
    ensures bytes { all_of held.new ≡ all_of held.old }
    ensures safe { safe_of held.new ≡ safe_of held.old }
    ensures part { IfOk result (λ part. part ≡ part_of at most (all_of held.old)) }
{
    held.bytes.read(alloc, at, most)
}
