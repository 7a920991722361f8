//! Disks, object stores and metadata logs over a directory: the trusted edge to the operating system.
//!
//! `FolderDisk` keeps each file of a broker's partition as one file of a folder, and `FolderStore` each object of a
//! partition. `FolderYard` provides them, and metadata logs over such disks. What the files contain is outside the
//! program, so none of them is observable. They count their calls and faults as every device does, and the paths that
//! they give to the system are those of their folder and of a file's one name. Only files with names of their own are
//! removed.
#![tactic(auto)]

mod first_name;
mod folder;
mod folder_disk;
mod folder_store;
mod kept;
mod listing;
mod making;
mod name;
mod object_name;
mod objects;
mod open_file;
mod partition_folder;
mod partitions;
mod path_text;
mod yard;

pub use folder_disk::FolderDisk;
pub use folder_store::FolderStore;
pub use name::read_name;
pub use yard::FolderYard;
