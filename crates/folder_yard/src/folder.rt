//! The files of a broker's partition in a folder, through the calls of the system.
//!
//! The files that were used last stay open, so that a log appends to and reads its segments without opening them again.
//! A new name stays only once its folder is synced, so a sync of a file also syncs the folder if a name is new. After a
//! failed sync the system may have dropped what was written, and a later sync wouldn't report it: so from then on none
//! succeeds.

ghost use Rattle.std.specs.Prelude.{◌≡◌, ◌↔◌, Ok, Err, Some, IfOk, IfErr, IsOk, IsErr, IsTrue, IsFalse};
ghost use Rattle.folder_yard.specs.Kept.{IsClosed};

use crate::kept::{Kept, KeptFiles};
use crate::listing::{UNFINISHED, list, remove_unfinished};
use crate::making::{make_folder, sync_folder};
use crate::open_file::{cut, read_part, write_whole};
use crate::path_text::PathText;
use bytes::Bytes;
use std::fs::{self, File, OpenFile, OpenOptions};
use std::io::{self, ErrorKind};
use std::rt::Files;
use tier_base::{FileName, Items};

/// A folder.
#[derive(Drop)]
pub struct Folder<R: Files + Drop> {
    rt: R,
    place: PathText,
    unfinished: PathText,
    kept: KeptFiles<R::File>,
    name_is_new: bool,
    sync_failed: bool,
}

impl<R: Files + AllocGlobal + Clone + Drop> Folder<R> {
    /// Opens a folder, which is made where it is absent, and removes unfinished files.
    pub fn open(rt: R, path: &str) -> io::Result<Folder<R>> {
        let path = if path.is_empty() { "." } else { path };
        let place = PathText::new(rt.alloc(), path)?;
        let unfinished = PathText::new(rt.alloc(), path)?;
        let kept = KeptFiles::new(rt.alloc())?;
        make_folder(&rt, path)?;
        remove_unfinished(&rt, place.folder())?;
        Ok(Folder {
            rt,
            place,
            unfinished,
            kept,
            // Names that were there before may not stay yet.
            name_is_new: true,
            sync_failed: false,
        })
    }

    /// Adds bytes at a file's end. An absent file is made.
    pub fn append(&mut self, name: FileName, bytes: &[u8]) -> io::Result<()>
        ensures stays_lost { self.new.sync_failed ≡ self.old.sync_failed }
    {
        let (mut file, len) = self.open_to_append(name)?;
        write_whole(&mut file, len, bytes)?;
        let len = Some(len.saturating_add(bytes.len() as u64));
        self.kept.keep(Kept { name, file, len });
        Ok(())
    }

    /// Makes a file's bytes and its name stay. Nothing is done where it is absent.
    pub fn sync(&mut self, name: FileName) -> io::Result<()>
        ensures stays_lost { IsTrue self.old.sync_failed → IsTrue self.new.sync_failed }
    {
        let Some(kept) = self.find(name)? else {
            return Ok(());
        };
        let outcome = kept.file.sync_data();
        self.kept.keep(kept);
        self.settled(outcome)?;
        if self.name_is_new {
            self.settle_names()?;
        }
        Ok(())
    }

    /// Gives so many bytes of a file from a place on, fewer only where it ends, and `None` where it is absent.
    pub fn read_part(&mut self, name: FileName, at: u64, most: u64) -> io::Result<Option<Bytes>>
        ensures stays_lost { self.new.sync_failed ≡ self.old.sync_failed }
    {
        let Some(mut kept) = self.find(name)? else {
            return Ok(None);
        };
        let bytes = read_part(self.rt.alloc(), &mut kept.file, at, most)?;
        self.kept.keep(kept);
        Ok(Some(bytes))
    }

    /// Cuts a file to a length. Nothing is done where it is shorter or absent.
    pub fn cut(&mut self, name: FileName, len: u64) -> io::Result<()>
        ensures closed { IsClosed name self.new.kept }
        ensures stays_lost { self.new.sync_failed ≡ self.old.sync_failed }
    {
        self.kept.close(name);
        self.place.write(name, "");
        let opened = OpenOptions::new()
            .write(true)
            .open(&self.rt, self.place.file());
        let Some(file) = if_there(opened)? else {
            return Ok(());
        };
        cut(&file, len)
    }

    /// Puts a file in the place of an old one, and makes its bytes stay.
    pub fn replace(&mut self, name: FileName, bytes: &[u8]) -> io::Result<()>
        ensures closed { IsClosed name self.new.kept }
        ensures lost { IsTrue self.old.sync_failed → IsErr result }
        ensures stays_lost { IsTrue self.old.sync_failed → IsTrue self.new.sync_failed }
    {
        self.kept.close(name);
        self.place.write(name, "");
        self.unfinished.write(name, UNFINISHED);
        let mut file = File::create(&self.rt, self.unfinished.file())?;
        write_whole(&mut file, 0, bytes)?;
        self.settle(file)?;
        fs::rename(&self.rt, self.unfinished.file(), self.place.file())?;
        self.name_is_new = true;
        self.settle_names()
    }

    /// Removes a file. Nothing is done where it is absent.
    pub fn remove(&mut self, name: FileName) -> io::Result<()>
        ensures closed { IsClosed name self.new.kept }
        ensures stays_lost { self.new.sync_failed ≡ self.old.sync_failed }
    {
        self.kept.close(name);
        self.place.write(name, "");
        if_there(fs::remove_file(&self.rt, self.place.file()))?;
        Ok(())
    }

    /// Names the files.
    pub fn list(&self) -> io::Result<Items<FileName>> {
        list(&self.rt, self.place.folder())
    }

    /// Opens a file to append to it, or takes the one that is open, and returns its length.
    fn open_to_append(&mut self, name: FileName) -> io::Result<(R::File, u64)>
        ensures { self.new.sync_failed ≡ self.old.sync_failed }
    {
        if let Some(kept) = self.kept.take(name) {
            if let Some(len) = kept.len {
                return Ok((kept.file, len));
            }
        }
        self.place.write(name, "");
        let mut how = OpenOptions::new();
        how.read(true).append(true);
        let file = match if_there(how.open(&self.rt, self.place.file()))? {
            Some(file) => file,
            None => {
                self.name_is_new = true;
                how.create(true).open(&self.rt, self.place.file())?
            }
        };
        let len = file.metadata()?.len();
        Ok((file, len))
    }

    /// Opens a file to read or sync it, or takes the one that is open.
    fn find(&mut self, name: FileName) -> io::Result<Option<Kept<R::File>>>
        ensures { self.new.sync_failed ≡ self.old.sync_failed }
    {
        if let Some(kept) = self.kept.take(name) {
            return Ok(Some(kept));
        }
        self.place.write(name, "");
        match if_there(File::open(&self.rt, self.place.file()))? {
            Some(file) => Ok(Some(Kept {
                name,
                file,
                len: None,
            })),
            None => Ok(None),
        }
    }

    /// Makes the bytes of a file stay that is going to be put in its place.
    fn settle(&mut self, file: R::File) -> io::Result<()>
        ensures kept { self.new.kept ≡ self.old.kept }
        ensures lost { IsTrue self.old.sync_failed → IsErr result }
        ensures stays_lost { IsTrue self.old.sync_failed → IsTrue self.new.sync_failed }
    {
        let outcome = file.sync_data();
        self.settled(outcome)
    }

    /// Makes the folder's names stay.
    fn settle_names(&mut self) -> io::Result<()>
        ensures kept { self.new.kept ≡ self.old.kept }
        ensures stays_lost { IsTrue self.old.sync_failed → IsTrue self.new.sync_failed }
    {
        let outcome = sync_folder(&self.rt, self.place.folder());
        self.settled(outcome)?;
        self.name_is_new = false;
        Ok(())
    }

    /// Returns how a sync ended, which is well only where none before it failed.
    fn settled(&mut self, outcome: io::Result<()>) -> io::Result<()>
        ensures well { IsOk result ↔ (IsOk outcome × IsFalse self.old.sync_failed) }
        ensures lost { IsErr result ↔ IsTrue self.new.sync_failed }
        ensures kept { self.new.kept ≡ self.old.kept }
    {
        if outcome.is_err() {
            self.sync_failed = true;
        }
        if self.sync_failed {
            return Err(io::Error::from(ErrorKind::Other));
        }
        Ok(())
    }
}

/// Passes over a file that is absent.
fn if_there<T: Drop>(found: io::Result<T>) -> io::Result<Option<T>>
    ensures there { IfOk found (λ it. result ≡ Ok (Some it)) }
    ensures failed { IfErr result (λ e. found ≡ Err e) }
{
    match found {
        Ok(it) => Ok(Some(it)),
        Err(error) if error.kind() == ErrorKind::NotFound => Ok(None),
        Err(error) => Err(error),
    }
}
