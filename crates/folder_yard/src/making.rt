//! Making a folder so that it stays: each new folder above it is synced into its parent.

use std::fs::{self, File, OpenFile};
use std::io;
use std::rt::Files;

/// Makes a folder that is absent, and those above it.
pub fn make_folder<R: Files>(rt: &R, path: &str) -> io::Result<()> {
    for end in 1..path.len() {
        if let Some((above, rest)) = path.split_at_checked(end) {
            if rest.starts_with('/') {
                make_one(rt, above)?;
            }
        }
    }
    make_one(rt, path)
}

/// Makes a folder that is absent, in one that exists.
fn make_one<R: Files>(rt: &R, path: &str) -> io::Result<()> {
    match fs::create_dir(rt, path) {
        Ok(()) => sync_folder(rt, above(path)),
        Err(error) => match fs::metadata(rt, path) {
            Ok(found) if found.is_dir() => Ok(()),
            _ => Err(error),
        },
    }
}

/// The folder in which a path's last name exists.
fn above(path: &str) -> &str {
    match path.rsplit_once('/') {
        None => ".",
        Some(("", _)) => "/",
        Some((above, _)) => above,
    }
}

/// Makes the names in a folder stay.
pub fn sync_folder<R: Files>(rt: &R, path: &str) -> io::Result<()> {
    File::open(rt, path)?.sync_all()
}
