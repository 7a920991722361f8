//! The names in a folder.

ghost use Rattle.std.specs.Prelude.{◌≡◌, ◌↔◌, IsTrue};
ghost use Rattle.folder_yard.specs.Name.{unfinished};
ghost use Rattle.folder_yard.specs.Unfinished.{IsOurs, IsUnfinishedName};

use crate::name::read_name;
use crate::object_name::read_object;
use std::alloc::Global;
use std::fs::{self, DirEntry};
use std::io::{self, ErrorKind};
use std::rt::Files;
use tier_base::{FileName, Items, ObjectKey, PartitionId};

/// How the name of a file ends that is written and not yet put in its place.
pub const UNFINISHED: &str = ".new";

/// How many letters that has.
const ENDING: usize = 4;

/// Names the files of a log in a folder.
pub fn list<R: Files + AllocGlobal + Clone + Drop>(
    rt: &R,
    folder: &str,
) -> io::Result<Items<FileName>> {
    let mut names = Items::new(rt.alloc());
    for entry in fs::read_dir(rt, folder)? {
        if let Some(name) = name_of(entry)? {
            names.push(name)?;
        }
    }
    Ok(names)
}

/// The file of a log that an entry of a folder names.
fn name_of<R: Files + Drop>(
    entry: io::Result<DirEntry<R, Global>>,
) -> io::Result<Option<FileName>> {
    match readable(entry)? {
        Some(entry) => Ok(read_name(entry.file_name().as_bytes())),
        None => Ok(None),
    }
}

/// Names the objects of a partition in a folder.
pub fn list_objects<R: Files + AllocGlobal + Clone + Drop>(
    rt: &R,
    folder: &str,
    partition: PartitionId,
) -> io::Result<Items<ObjectKey>> {
    let mut keys = Items::new(rt.alloc());
    for entry in fs::read_dir(rt, folder)? {
        if let Some(key) = key_of(partition, entry)? {
            keys.push(key)?;
        }
    }
    Ok(keys)
}

/// The object of a partition that an entry of a folder names.
fn key_of<R: Files + Drop>(
    partition: PartitionId,
    entry: io::Result<DirEntry<R, Global>>,
) -> io::Result<Option<ObjectKey>> {
    match readable(entry)? {
        Some(entry) => Ok(read_object(partition, entry.file_name().as_bytes())),
        None => Ok(None),
    }
}

/// Removes the files of a log, and the objects, that were never put in their place. Other files stay, also where they
/// end so.
pub fn remove_unfinished<R: Files + AllocGlobal + Clone + Drop>(
    rt: &R,
    folder: &str,
) -> io::Result<()> {
    for entry in fs::read_dir(rt, folder)? {
        if let Some(entry) = readable(entry)? {
            if is_unfinished(entry.file_name().as_bytes()) {
                fs::remove_file(rt, entry.path())?;
            }
        }
    }
    Ok(())
}

/// Whether this is the name of a file of a log, or of an object, that is written and not yet put in its place.
pub fn is_unfinished(text: &[u8]) -> bool
    ensures { IsTrue result ↔ IsUnfinishedName text.now }
{
    if text.len() < ENDING {
        return false;
    }
    let (name, end) = text.split_at(text.len() - ENDING);
    if !ends_so(end) {
        return false;
    }
    is_ours(name)
}

/// Whether names of unfinished files end so.
fn ends_so(end: &[u8]) -> bool
    ensures { IsTrue result ↔ (end.now ≡ unfinished) }
{
    end == b".new".as_slice()
}

/// Whether this is the name of a file of a log, or of an object.
fn is_ours(name: &[u8]) -> bool
    ensures { IsTrue result ↔ IsOurs name.now }
{
    match read_name(name) {
        Some(_) => true,
        None => read_object(PartitionId(0), name).is_some(),
    }
}

/// Passes over a name that is no text, since none of ours is such.
pub fn readable<R: Files + Drop>(
    entry: io::Result<DirEntry<R, Global>>,
) -> io::Result<Option<DirEntry<R, Global>>> {
    match entry {
        Ok(entry) => Ok(Some(entry)),
        Err(error) if error.kind() == ErrorKind::InvalidFilename => Ok(None),
        Err(error) => Err(error),
    }
}
