//! The objects of a partition in a folder, through the calls of the system: each object is one file.
//!
//! An object is written beside its place, synced, and put there by a rename, so that a reader finds a whole one. A
//! name that is new or gone stays so once the folder is synced.

use crate::listing::{UNFINISHED, list_objects, remove_unfinished};
use crate::making::{make_folder, sync_folder};
use crate::open_file::{read_part, write_whole};
use crate::path_text::PathText;
use bytes::Bytes;
use std::fs::{self, File, OpenFile};
use std::io::{self, ErrorKind};
use std::rt::Files;
use tier_base::{Items, ObjectKey, PartitionId};

/// A folder of objects.
#[derive(Drop)]
pub struct Objects<R: Files + Drop> {
    rt: R,
    partition: PartitionId,
    place: PathText,
    unfinished: PathText,
}

impl<R: Files + AllocGlobal + Clone + Drop> Objects<R> {
    /// Opens a folder, which is made where it is absent, and removes unfinished files.
    pub fn open(rt: R, path: &str, partition: PartitionId) -> io::Result<Objects<R>> {
        let path = if path.is_empty() { "." } else { path };
        let place = PathText::new(rt.alloc(), path)?;
        let unfinished = PathText::new(rt.alloc(), path)?;
        make_folder(&rt, path)?;
        remove_unfinished(&rt, place.folder())?;
        Ok(Objects {
            rt,
            partition,
            place,
            unfinished,
        })
    }

    /// Puts an object in the place of an old one, and makes it stay.
    pub fn put(&mut self, key: &ObjectKey, bytes: &[u8]) -> io::Result<()> {
        self.place.write_object(key, "");
        self.unfinished.write_object(key, UNFINISHED);
        let mut file = File::create(&self.rt, self.unfinished.file())?;
        write_whole(&mut file, 0, bytes)?;
        file.sync_data()?;
        fs::rename(&self.rt, self.unfinished.file(), self.place.file())?;
        sync_folder(&self.rt, self.place.folder())
    }

    /// Gives so many bytes of an object from a place on, fewer only where it ends, and `None` where it is absent.
    pub fn get_part(&mut self, key: &ObjectKey, at: u64, most: u64) -> io::Result<Option<Bytes>> {
        self.place.write_object(key, "");
        match File::open(&self.rt, self.place.file()) {
            Ok(mut file) => Ok(Some(read_part(self.rt.alloc(), &mut file, at, most)?)),
            Err(error) if error.kind() == ErrorKind::NotFound => Ok(None),
            Err(error) => Err(error),
        }
    }

    /// Removes an object, so that it stays away. Nothing is done where it is absent.
    pub fn delete(&mut self, key: &ObjectKey) -> io::Result<()> {
        self.place.write_object(key, "");
        match fs::remove_file(&self.rt, self.place.file()) {
            Ok(()) => sync_folder(&self.rt, self.place.folder()),
            Err(error) if error.kind() == ErrorKind::NotFound => Ok(()),
            Err(error) => Err(error),
        }
    }

    /// Names the objects.
    pub fn keys(&self) -> io::Result<Items<ObjectKey>> {
        list_objects(&self.rt, self.place.folder(), self.partition)
    }
}
