//! Files that are read whole, and files that are read through a window.

use crate::output::complain;
use std::fs::{self, File};
use std::io;

/// Reads a file, or prints why it can't be read.
pub fn bytes_of(rt: &HostRuntime, name: &str) -> io::Result<Option<Vec<u8>>> {
    if is_folder(rt, name) {
        complain(rt, name, "is a folder")?;
        return Ok(None);
    }
    match fs::read(rt, name) {
        Ok(bytes) => Ok(Some(bytes)),
        Err(error) => {
            eprint!(rt; "tier_dump: {name}: {error}\n")?;
            Ok(None)
        }
    }
}

/// Opens a file, or prints why it can't be opened.
pub fn open(rt: &HostRuntime, name: &str) -> io::Result<Option<File>> {
    if is_folder(rt, name) {
        complain(rt, name, "is a folder")?;
        return Ok(None);
    }
    match File::open(rt, name) {
        Ok(file) => Ok(Some(file)),
        Err(error) => {
            eprint!(rt; "tier_dump: {name}: {error}\n")?;
            Ok(None)
        }
    }
}

/// Whether a file or a folder has this name.
pub fn exists(rt: &HostRuntime, name: &str) -> bool {
    fs::metadata(rt, name).is_ok()
}

/// Whether a folder has this name.
fn is_folder(rt: &HostRuntime, name: &str) -> bool {
    match fs::metadata(rt, name) {
        Ok(metadata) => metadata.is_dir(),
        Err(_) => false,
    }
}
