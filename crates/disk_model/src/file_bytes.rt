//! What is held of a file of a disk in memory.
//!
//! What was appended is kept as it was given, so an append copies nothing.

ghost use Rattle.std.specs.Prelude.{◌≤◌, length};

use crate::pieces::Pieces;

/// A file's bytes, and how many of them are synced.
#[derive(Drop)]
pub struct FileBytes {
    pub bytes: Pieces,
    pub synced: usize,
    ghost within: { synced ≤ length bytes },
}
