//! The first of the names in a run's directory that are no partition's.
//!
//! A partition's folder counts as such a name only if it has an object or a metadata event and no registry. Everything
//! else in the directory does, an empty folder too.

use crate::partition_folder::{is_bare, partition_of};
use std::alloc::Global;
use std::fs::{self, DirEntry};
use std::io::{self, ErrorKind};
use std::rt::Files;
use tier_base::Blob;

/// The first of the names in a folder in the order of their bytes. An absent folder has none. A name that is no text
/// can't be reported, and is a failure.
pub fn first_name<R: Files + AllocGlobal + Clone + Drop>(
    rt: &R,
    folder: &str,
) -> io::Result<Option<Blob>> {
    let entries = match fs::read_dir(rt, folder) {
        Ok(entries) => entries,
        Err(error) if error.kind() == ErrorKind::NotFound => return Ok(None),
        Err(error) => return Err(error),
    };
    let mut first = None;
    for entry in entries {
        let entry = entry?;
        let name = entry.file_name().as_bytes();
        if is_before(name, &first) && is_name(rt, &entry)? {
            first = Some(Blob::from_slice(rt.alloc(), name)?);
        }
    }
    Ok(first)
}

/// Whether a name precedes the first one so far, if there is one.
fn is_before(name: &[u8], first: &Option<Blob>) -> bool {
    match first {
        Some(first) => name < first.as_slice(),
        None => true,
    }
}

/// Whether what is in the environment's folder is a name.
fn is_name<R: Files + AllocGlobal + Clone + Drop>(
    rt: &R,
    entry: &DirEntry<R, Global>,
) -> io::Result<bool> {
    match partition_of(rt, entry)? {
        Some(_) => is_bare(rt, entry),
        None => Ok(true),
    }
}
