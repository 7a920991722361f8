//! The files of a folder that stay open: those that were used last, the one that is appended to among them.

ghost use Rattle.std.specs.Prelude.{◌≡◌, ◌<◌, ◌≤◌, IfSome, length};
ghost use Rattle.folder_yard.specs.Kept.{IsClosed};

use std::alloc::{AllocError, Global};
use tier_base::FileName;

/// How many files stay open.
const MOST: usize = 8;

/// An open file. Where it is open for appending, its length is known.
#[derive(Drop)]
pub struct Kept<F: Drop> {
    pub name: FileName,
    pub file: F,
    pub len: Option<u64>,
}

/// The open files, the one that was used last at the end.
#[derive(Drop)]
pub struct KeptFiles<F: Drop> {
    files: Vec<Kept<F>>,
}

impl<F: Drop> KeptFiles<F> {
    /// Keeps none yet, and has room for all.
    pub fn new(alloc: Global) -> Result<KeptFiles<F>, AllocError> {
        let mut files = Vec::new(alloc);
        files.reserve(MOST)?;
        Ok(KeptFiles { files })
    }

    /// Takes a file out, if it is open.
    pub fn take(&mut self, name: FileName) -> Option<Kept<F>>
        ensures { IfSome result (λ kept. kept.name ≡ name) }
    {
        let at = self.files.iter().position(|kept| kept.name == name)?;
        Some(self.files.remove(at))
    }

    /// Keeps a file open. Where there are too many, the one that wasn't used for longest is closed.
    pub fn keep(&mut self, kept: Kept<F>) {
        if self.files.len() >= MOST {
            self.files.remove(0);
        }
        let _ = self.files.push(kept);
    }

    /// Closes a file.
    pub fn close(&mut self, name: FileName)
        ensures { IsClosed name self.new }
    {
        self.files.retain(|kept| kept.name != name);
    }
}
