//! The paths of a folder's files, one at a time and without memory.

ghost use Rattle.std.specs.Prelude.{◌≡◌, ◌+◌, ◌≤◌, ◌++◌, length};
ghost use Rattle.folder_yard.specs.Name.{file_text};
ghost use Rattle.folder_yard.specs.Object.{object_text};
ghost use Rattle.folder_yard.specs.Path.{Paths};

use crate::name::push_name;
use crate::object_name::push_object;
use std::alloc::{AllocError, Global};
use std::marker::Model;
use tier_base::{FileName, ObjectKey};

/// A folder's path, and room for the path of each of its files.
#[derive(Drop)]
pub struct PathText {
    folder: String,
    file: String,
}

impl Model for PathText {
    ghost use Rattle.std.specs.Prelude.{◌+◌, ◌≤◌, string_bytes, string_len, string_capacity};
    ghost use Rattle.folder_yard.specs.Path.{Paths};

    ghost Value = { Paths };

    ghost view = { λ p. record { folder = string_bytes p.folder; file = string_bytes p.file } };

    // A name has at most 46 letters, and its ending 4.
    ghost invariant = { λ p. string_len p.folder + 50 ≤ string_capacity p.file };
}

impl PathText {
    /// Takes a folder's path, which isn't empty.
    pub fn new(alloc: Global, folder: &str) -> Result<PathText, AllocError> {
        let mut path = String::from_str(alloc, folder)?;
        if !folder.ends_with('/') {
            path.push('/')?;
        }
        let mut file = String::new(alloc);
        file.reserve(path.len())?;
        file.reserve(path.len() + 50)?;
        Ok(PathText { folder: path, file })
    }

    /// Writes the path of a file, whose name may have an ending more.
    pub fn write(&mut self, name: FileName, ending: &str)
        requires { length ending.now ≤ 4 }
        ensures { self.new ≡ record {
          folder = self.old.folder;
          file = self.old.folder ++ (file_text name ++ ending.now);
        } }
    {
        self.file.clear();
        let _ = self.file.push_str(self.folder.as_str());
        push_name(&mut self.file, name);
        let _ = self.file.push_str(ending);
    }

    /// Writes the path of an object's file, whose name may have an ending more.
    pub fn write_object(&mut self, key: &ObjectKey, ending: &str)
        requires { length ending.now ≤ 4 }
        ensures { self.new ≡ record {
          folder = self.old.folder;
          file = self.old.folder ++ (object_text key.now ++ ending.now);
        } }
    {
        self.file.clear();
        let _ = self.file.push_str(self.folder.as_str());
        push_object(&mut self.file, key, ending);
    }

    /// Lends the folder's path.
    pub fn folder(&self) -> &str
        ensures { result.now ≡ self.now.folder }
    {
        self.folder.as_str()
    }

    /// Lends the path that was written last.
    pub fn file(&self) -> &str
        ensures { result.now ≡ self.now.file }
    {
        self.file.as_str()
    }
}
