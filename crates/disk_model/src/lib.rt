//! A broker's disk as a trait: what its calls do to the files, and what a crash may leave of them.
//!
//! The local log and the metadata log are written against `Disk`. The content of a disk may be observable: its files,
//! and its images, which are the states that a crash may leave. What can always be observed is how many calls failed,
//! how many were made, and the bytes that the last read returned. `MemoryDisk` is observable and proved to be such a
//! disk: its calls fail by a plan or a fuse, and its crash drops what isn't synced. `DeafDisk` works but isn't
//! observable, so that a test can give any bytes to the code that reads.
#![tactic(auto)]

mod attempt;
mod call;
mod deaf_disk;
mod disk;
mod file;
mod file_bytes;
mod history;
mod memory_disk;
mod patch;
mod pieces;
mod shelf;

pub use call::{DiskCall, Planned};
pub use deaf_disk::DeafDisk;
pub use disk::Disk;
pub use memory_disk::MemoryDisk;
pub use tier_base::FileName;
